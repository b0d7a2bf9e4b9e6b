//! The end of a disk as a sink.
ghost use Rattle.std.specs.Prelude.{◌≡◌, ◌≤◌, ℕ, length, IfErr, IfOk, MatchResult, OnErr, option_map};
ghost use Rattle.arrow_spec.specs.Layout.{up_to};
ghost use Rattle.arrow_spec.specs.declared.error.IpcError.TheVariants.{ReadFault, WriteFault};
ghost use Rattle.ipc_io.specs.Outside.{IsSize, Puts, PutHasCause, Rose};
ghost use Rattle.ipc_disk.specs.Disks.{IsWithin, below, WritesAt};
ghost use Rattle.ipc_disk.specs.Tails.{end_behind, cut_and_padded, IsOfDisk};

use crate::Disk;
use arrow_spec::IpcError;
use ipc_io::{PutError, Sink, Source};

/// A disk that could not be taken, and why.
#[derive(Drop)]
pub struct RefusedDisk<D> {
    /// Why.
    pub error: IpcError,
    /// The disk, which is handed back.
    pub disk: D,
}

/// The end of a disk. What is put there is written behind the bytes that stand below the end, and the end moves on where a
/// write has succeeded.
#[derive(Drop)]
pub struct DiskTail<D: Disk> {
    disk: D,
    end: u64,
    ghost within: { ∥ IsWithin (D.content disk) end ∥₁ },
}

impl<D: Disk> DiskTail<D> {
    /// A tail at the disk's size, which is asked once.
    ///
    /// # Errors
    ///
    /// `ReadFault`, where the disk does not tell its size. The disk is handed back.
    pub fn new(disk: D) -> Result<DiskTail<D>, RefusedDisk<D>>
        ensures end { IfOk result (λ t. IsSize (D.content t.disk) t.end) }
        ensures content { MatchResult result (λ t. D.content t.disk ≡ D.content disk) (λ e. D.content e.disk ≡ D.content disk) }
        ensures faults { MatchResult result (λ t. D.faults disk ≤ D.faults t.disk) (λ e. Rose (D.faults disk) (D.faults e.disk)) }
        ensures error { IfErr result (λ e. e.error ≡ ReadFault) }
        ensures same_references { MatchResult result (λ t. D.references t.disk ≡ D.references disk) (λ e. D.references e.disk ≡ D.references disk) }
    {
        let mut disk = disk;
        match disk.size() {
            Ok(end) => Ok(DiskTail { disk, end }),
            Err(error) => Err(RefusedDisk {
                error: error.into(),
                disk,
            }),
        }
    }

    /// Cuts a disk at a length, adds zeros up to a multiple of 8, and gives the tail there. Whatever it answers, the bytes
    /// below the length are as they were.
    ///
    /// # Errors
    ///
    /// `WriteFault`, `Memory`. The disk is handed back; it may have been cut.
    pub fn cut_to(disk: D, length: u64) -> Result<DiskTail<D>, RefusedDisk<D>>
        requires within { IsWithin (D.content disk) length }
        ensures content { IfOk result (λ t. D.content t.disk ≡ option_map (cut_and_padded length) (D.content disk)) }
        ensures end { IfOk result (λ t. t.end ≡ up_to 8 length) }
        ensures kept { IfErr result (λ e. below length (D.content e.disk) ≡ below length (D.content disk)) }
        ensures faults { MatchResult result (λ t. D.faults disk ≤ D.faults t.disk) (λ e. D.faults disk ≤ D.faults e.disk) }
        ensures wants { MatchResult result (λ t. D.wants disk ≤ D.wants t.disk) (λ e. D.wants disk ≤ D.wants e.disk) }
        ensures error { IfErr result (λ e. IsOfDisk e.error (D.faults disk) (D.faults e.disk) (D.wants disk) (D.wants e.disk)) }
        ensures same_references { MatchResult result (λ t. D.references t.disk ≡ D.references disk) (λ e. D.references e.disk ≡ D.references disk) }
    {
        let mut disk = disk;
        if disk.cut(length).is_err() {
            return Err(RefusedDisk {
                error: IpcError::WriteFault,
                disk,
            });
        }
        let zeros = [0; 8];
        let count = (8 - length % 8) % 8;
        let mut tail = DiskTail { disk, end: length };
        match tail.put(&zeros[..count as usize]) {
            Ok(()) => Ok(tail),
            Err(error) => Err(RefusedDisk {
                error: error.into(),
                disk: tail.disk,
            }),
        }
    }

    /// Cuts off what stands behind the end, and gives the disk, which then has what stands below the end alone.
    ///
    /// # Errors
    ///
    /// `WriteFault`. The disk is handed back as it was.
    pub fn cut_off(self) -> Result<D, RefusedDisk<D>>
        ensures content { IfOk result (λ d. D.content d ≡ below self.end (D.content self.disk)) }
        ensures kept { IfErr result (λ e. D.content e.disk ≡ D.content self.disk) }
        ensures error { IfErr result (λ e. e.error ≡ WriteFault) }
        ensures faults { MatchResult result (λ d. D.faults self.disk ≤ D.faults d) (λ e. D.faults self.disk ≤ D.faults e.disk) }
        ensures rose { IfErr result (λ e. Rose (D.faults self.disk) (D.faults e.disk)) }
        ensures wants { MatchResult result (λ d. D.wants d ≡ D.wants self.disk) (λ e. D.wants e.disk ≡ D.wants self.disk) }
        ensures same_references { MatchResult result (λ d. D.references d ≡ D.references self.disk) (λ e. D.references e.disk ≡ D.references self.disk) }
    {
        let end = self.end;
        let mut disk = self.disk;
        match disk.cut(end) {
            Ok(()) => Ok(disk),
            Err(_) => Err(RefusedDisk {
                error: IpcError::WriteFault,
                disk,
            }),
        }
    }

    /// The disk, with what was put.
    pub fn into_inner(self) -> D
        ensures { result ≡ self.disk }
    {
        self.disk
    }
}

impl<D: Disk> Sink for DiskTail<D> {
    ghost written = { λ t. below t.end (D.content t.disk) };

    ghost faults = { λ t. D.faults t.disk };

    ghost wants = { λ t. D.wants t.disk };

    ghost references = { λ t. D.references t.disk };

    fn put(&mut self, bytes: &[u8]) -> Result<(), PutError>
        ensures bytes { Puts (below self.old.end (D.content self.old.disk)) (below self.new.end (D.content self.new.disk)) result bytes.now }
        ensures cause { PutHasCause (D.faults self.old.disk) (D.faults self.new.disk) (D.wants self.old.disk) (D.wants self.new.disk) result }
        ensures same_references { D.references self.new.disk ≡ D.references self.old.disk }

        // The end moves on only where the write succeeded. Where it did not, the bytes below the end are as they were.
        ensures end { self.new.end ≡ end_behind self.old.end result (length bytes.now) }
        ensures disk { WritesAt (D.content self.old.disk) (D.content self.new.disk) self.old.end result bytes.now }
        ensures kept { OnErr result (below self.new.end (D.content self.new.disk) ≡ below self.old.end (D.content self.old.disk)) }
    {
        self.disk.write_at(self.end, bytes)?;
        self.end += bytes.len() as u64;
        Ok(())
    }
}
