//! Each object is seen by the bytes that it tells, where it tells any, and by counts that never fall.
ghost use Rattle.std.specs.Prelude.{◌≡◌, ℕ, ◌+◌, ◌^◌, ◌<◌, ◌≤◌, List, [], Option, length, max, IfOk};
ghost use Rattle.std.specs.Io.{ReadsAtMost};
ghost use Rattle.std.specs.Io.KnownBytes.{ReadConsumes};
ghost use Rattle.arrow_spec.specs.declared.error.IpcError.TheVariants.{ReadFault};
ghost use Rattle.ipc_io.specs.Outside.{HasCause, IsSize, Reads, Puts, PutHasCause, IsHeld, Lacks, OpenHasCause, Closes};
ghost use Rattle.arrow_spec.specs.Words.{Held};

use arrow_spec::IpcError;
use thiserror::Error;

/// The object failed, and its count of faults has risen.
#[derive(Clone, Copy, Debug, PartialEq, Eq, Error)]
#[error("the device failed")]
pub struct Failed;

/// Why bytes could not be put.
#[derive(Clone, Copy, Debug, PartialEq, Eq, Error)]
pub enum PutError {
    /// The object failed, and took the bytes up to some place.
    #[error("the device failed")]
    Failed,
    /// The object wanted memory, and took no byte.
    #[error("out of memory")]
    Memory,
}

/// Why a file could not be opened.
#[derive(Clone, Copy, Debug, PartialEq, Eq, Error)]
pub enum ShelfError {
    /// The shelf failed, and its count of faults has risen.
    #[error("the shelf failed")]
    Failed,
    /// Memory ran out.
    #[error("out of memory")]
    Memory,
    /// Nothing stands under the name.
    #[error("no such name")]
    Unknown,
}

/// What a read at a place gave.
#[derive(Clone, Copy, Debug, PartialEq, Eq)]
pub enum Got {
    /// All of the bytes that were asked for.
    Full,
    /// The bytes end before; what was given is not said.
    Short,
}

/// Bytes that are read at any place, and stay the same.
pub trait Source {
    /// The bytes, where they are told.
    ghost content: { Self → Option (List ℕ) };

    /// How often a call has failed.
    ghost faults: { Self → ℕ };

    /// How many bytes have been asked for at most.
    ghost fetched: { Self → ℕ };

    /// The names of the references that it holds, outermost first. No call changes them, so that who lent it knows what it did.
    ghost references: { Self → List ℕ } = { λ _. [] };

    /// The number of bytes.
    fn size(&mut self) -> Result<u64, Failed>
        ensures size { IfOk result (λ n. IsSize (content self.old) n) }
        ensures bound { IfOk result (λ n. n < 2 ^ 63) }
        ensures content { content self.new ≡ content self.old }
        ensures fetched { fetched self.new ≡ fetched self.old }
        ensures cause { HasCause (faults self.old) (faults self.new) result }
        ensures same_references { references self.new ≡ references self.old };

    /// Fills `out` with the bytes from `at` on.
    fn read_at(&mut self, at: u64, out: &mut [u8]) -> Result<Got, Failed>
        ensures bytes { Reads (content self.old) at result out.new }
        ensures content { content self.new ≡ content self.old }
        ensures fetched { fetched self.old ≤ fetched self.new }
        ensures fetched_at_most { fetched self.new ≤ fetched self.old + length out.new }
        ensures cause { HasCause (faults self.old) (faults self.new) result }
        ensures same_references { references self.new ≡ references self.old };
}

/// Bytes that come once, in order.
pub trait Feed {
    /// The bytes that are left, where they are told.
    ghost rest: { Self → Option (List ℕ) };

    /// How often a call has failed.
    ghost faults: { Self → ℕ };

    /// The names of the references that it holds, outermost first.
    ghost references: { Self → List ℕ } = { λ _. [] };

    /// The next bytes, at the front of `out`. With room in `out`, 0 comes only at the end.
    fn pull(&mut self, out: &mut [u8]) -> Result<usize, Failed>
        ensures count { ReadsAtMost result out.new }
        ensures bytes { ReadConsumes (rest self.old) (rest self.new) result out.new }
        ensures cause { HasCause (faults self.old) (faults self.new) result }
        ensures same_references { references self.new ≡ references self.old };
}

/// A place to which bytes are added.
pub trait Sink {
    /// The bytes so far, where they are told.
    ghost written: { Self → Option (List ℕ) };

    /// How often a call has failed.
    ghost faults: { Self → ℕ };

    /// How often a call has wanted memory.
    ghost wants: { Self → ℕ };

    /// The names of the references that it holds, outermost first.
    ghost references: { Self → List ℕ } = { λ _. [] };

    /// How many bytes it was handed at once, at most.
    ghost longest: { Self → ℕ } = { λ _. 0 };

    /// Adds all bytes. A failed call adds a part from the front, and one that wants memory adds nothing.
    fn put(&mut self, bytes: &[u8]) -> Result<(), PutError>
        ensures bytes { Puts (written self.old) (written self.new) result bytes.now }
        ensures cause { PutHasCause (faults self.old) (faults self.new) (wants self.old) (wants self.new) result }
        ensures same_references { references self.new ≡ references self.old }
        ensures longest { longest self.new ≤ max (longest self.old) (length bytes.now) };
}

/// Bytes under names.
pub trait Shelf {
    /// The bytes under a name, as they are read.
    type File: Source;

    /// What stands under each name, where that is told.
    ghost held: { Self → Option Held };

    /// How often a call, or a file that was closed, has failed.
    ghost faults: { Self → ℕ };

    /// Opens what stands under a name. It is to be closed by `close_file`.
    fn open_file(&mut self, name: &str) -> Result<Self::File, ShelfError>
        ensures file { IfOk result (λ f. IsHeld (held self.old) name.now (Self.File.content f)) }
        ensures no_faults { IfOk result (λ f. Self.File.faults f ≡ 0) }
        ensures none_fetched { IfOk result (λ f. Self.File.fetched f ≡ 0) }
        ensures unknown { result ≡ Err ShelfError.Unknown → Lacks (held self.old) name.now }
        ensures held { held self.new ≡ held self.old }
        ensures cause { OpenHasCause (faults self.old) (faults self.new) result };

    /// Closes a file.
    fn close_file(&mut self, file: Self::File)
        ensures held { held self.new ≡ held self.old }
        ensures cause { Closes (Self.File.faults file) (faults self.old) (faults self.new) };
}

/// A source or a feed that fails is a read that fails.
impl From<Failed> for IpcError {
    ghost from_gives = { λ _ e. e ≡ ReadFault };

    fn from(_: Failed) -> Self {
        IpcError::ReadFault
    }
}

impl From<PutError> for IpcError {
    ghost use Rattle.ipc_io.specs.Faults.{put_error};

    ghost from_gives = { λ p e. e ≡ put_error p };

    fn from(error: PutError) -> Self {
        match error {
            PutError::Failed => IpcError::WriteFault,
            PutError::Memory => IpcError::Memory,
        }
    }
}
