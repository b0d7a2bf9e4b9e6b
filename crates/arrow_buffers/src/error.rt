//! Why parts make no array.
use arrow_spec::{IpcError, OutOfSpecKind};
use std::alloc::{AllocError, AllocFailed};
use thiserror::Error;

/// Why parts make no array: the first of these that holds, in this order.
#[derive(Clone, Copy, Debug, PartialEq, Eq, Error)]
pub enum ArrayError {
    /// The layout of the type is not that of the parts, or its size is 0.
    #[error("the type does not have the layout of the parts")]
    DataType,
    /// The parts are not of as many rows as one another, or not of whole rows.
    #[error("the parts do not have one number of rows")]
    Length,
    /// An offset is negative, below the one before it, or past the values, or there is none.
    #[error("the offsets do not rise within the values")]
    Offsets,
    /// A type of a union's row is none of its ids.
    #[error("a type is none of the union's ids")]
    UnionType,
    /// The text of a row that is not null is not UTF-8.
    #[error("a text is not UTF-8")]
    Utf8,
    /// The view of a row that is not null does not agree with the buffers.
    #[error("a view does not agree with its buffers")]
    View,
    /// The key of a row that is not null is outside the dictionary.
    #[error("a key is outside the dictionary")]
    Key,
    /// Memory ran out.
    #[error("out of memory")]
    Memory,
}

impl From<AllocError> for ArrayError {
    ghost use Rattle.std.specs.Prelude.{◌≡◌};
    ghost use Rattle.arrow_buffers.specs.declared.error.ArrayError.TheVariants.{Memory};

    ghost from_gives = { λ _ e. e ≡ Memory };

    fn from(_error: AllocError) -> ArrayError {
        ArrayError::Memory
    }
}

impl<T: Drop> From<AllocFailed<T>> for ArrayError {
    ghost use Rattle.std.specs.Prelude.{◌≡◌};
    ghost use Rattle.arrow_buffers.specs.declared.error.ArrayError.TheVariants.{Memory};

    ghost from_gives = { λ _ e. e ≡ Memory };

    fn from(_: AllocFailed<T>) -> ArrayError {
        ArrayError::Memory
    }
}

impl From<ArrayError> for IpcError {
    ghost use Rattle.std.specs.Prelude.{◌≡◌};
    ghost use Rattle.arrow_buffers.specs.Refusals.{refusal_of};

    ghost from_gives = { λ a e. e ≡ refusal_of a };

    fn from(error: ArrayError) -> IpcError {
        match error {
            ArrayError::DataType | ArrayError::Length => IpcError::SchemaMismatch,
            ArrayError::Offsets => IpcError::OutOfSpec(OutOfSpecKind::InvalidOffsets),
            ArrayError::UnionType => IpcError::OutOfSpec(OutOfSpecKind::InvalidUnion),
            ArrayError::Utf8 => IpcError::OutOfSpec(OutOfSpecKind::InvalidUtf8),
            ArrayError::View => IpcError::OutOfSpec(OutOfSpecKind::InvalidView),
            ArrayError::Key => IpcError::OutOfSpec(OutOfSpecKind::InvalidKey),
            ArrayError::Memory => IpcError::Memory,
        }
    }
}
