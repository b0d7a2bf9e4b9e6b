//! Why a run is refused.
ghost use Rattle.std.specs.Prelude.{◌≡◌};
ghost use Rattle.arrow_spec.specs.declared.error.IpcError.TheVariants.{ReadFault, Memory};
ghost use Rattle.ipc_tool.specs.Refusal.{error_status, number_of, name_of, put_refusal, shelf_refusal, words_refusal};
ghost use Rattle.ipc_tool.specs.declared.refusal.Refusal.TheVariants.{Ipc};

use arrow_spec::IpcError;
use ipc_io::{Failed, PutError, ShelfError};
use ipc_words::WordsError;
use std::alloc::{AllocError, AllocFailed};
use thiserror::Error;

/// Why a run is refused: an error of the library, or what is wrong with the words, the input or a name.
#[derive(Clone, Copy, Debug, PartialEq, Eq, Error)]
pub enum Refusal {
    /// An error of the library.
    #[error("{0}")]
    Ipc(IpcError),
    /// The words are no request.
    #[error("the words are no request")]
    Words,
    /// The input has another sign than hex digits and white space, or an odd number of digits.
    #[error("the input is no hex text")]
    NotHex,
    /// The input has more than 134,217,728 bytes.
    #[error("the input is longer than 134,217,728 bytes")]
    InputTooLong,
    /// Nothing stands under the name.
    #[error("nothing stands under the name")]
    NoName,
}

/// The status of a run that an error of the library refuses: 1 to 13.
pub fn status(error: &IpcError) -> u8
    ensures { result ≡ error_status error.now }
{
    match error {
        IpcError::OutOfSpec(_) => 1,
        IpcError::Unsupported(_) => 2,
        IpcError::TooDeep => 3,
        IpcError::TooMany(_) => 4,
        IpcError::Projection { .. } => 5,
        IpcError::TooLarge => 6,
        IpcError::SchemaMismatch => 7,
        IpcError::DictionaryReplaced { .. } => 8,
        IpcError::NotRepresentable => 9,
        IpcError::State => 10,
        IpcError::ReadFault => 11,
        IpcError::WriteFault => 12,
        IpcError::Memory => 13,
    }
}

impl Refusal {
    /// The status of a run that it refuses: 1 to 17.
    pub fn status(&self) -> u8
        ensures { result ≡ number_of self.now }
    {
        match self {
            Refusal::Ipc(error) => status(error),
            Refusal::Words => 14,
            Refusal::NotHex => 15,
            Refusal::InputTooLong => 16,
            Refusal::NoName => 17,
        }
    }

    /// The name by which it is told.
    pub fn name(&self) -> &'static str
        ensures { result.now ≡ name_of self.now }
    {
        match self {
            Refusal::Ipc(error) => error.name(),
            Refusal::Words => "Words",
            Refusal::NotHex => "NotHex",
            Refusal::InputTooLong => "InputTooLong",
            Refusal::NoName => "NoName",
        }
    }
}

impl From<IpcError> for Refusal {
    ghost from_gives = { λ error e. e ≡ Ipc error };

    fn from(error: IpcError) -> Self {
        Refusal::Ipc(error)
    }
}

impl From<Failed> for Refusal {
    ghost from_gives = { λ _ e. e ≡ Ipc ReadFault };

    fn from(_: Failed) -> Self {
        Refusal::Ipc(IpcError::ReadFault)
    }
}

impl From<PutError> for Refusal {
    ghost from_gives = { λ error e. e ≡ put_refusal error };

    fn from(error: PutError) -> Self {
        Refusal::Ipc(IpcError::from(error))
    }
}

impl From<ShelfError> for Refusal {
    ghost from_gives = { λ error e. e ≡ shelf_refusal error };

    fn from(error: ShelfError) -> Self {
        match error {
            ShelfError::Failed => Refusal::Ipc(IpcError::ReadFault),
            ShelfError::Memory => Refusal::Ipc(IpcError::Memory),
            ShelfError::Unknown => Refusal::NoName,
        }
    }
}

impl From<WordsError> for Refusal {
    ghost from_gives = { λ error e. e ≡ words_refusal error };

    fn from(error: WordsError) -> Self {
        match error {
            WordsError::NoRequest => Refusal::Words,
            WordsError::Memory => Refusal::Ipc(IpcError::Memory),
        }
    }
}

impl From<AllocError> for Refusal {
    ghost from_gives = { λ _ e. e ≡ Ipc Memory };

    fn from(_: AllocError) -> Self {
        Refusal::Ipc(IpcError::Memory)
    }
}

impl<T: Drop> From<AllocFailed<T>> for Refusal {
    ghost from_gives = { λ _ e. e ≡ Ipc Memory };

    fn from(_: AllocFailed<T>) -> Self {
        Refusal::Ipc(IpcError::Memory)
    }
}
