//! Why a call of a case gives no value.
use arrow_arrays::BatchError;
use arrow_buffers::ArrayError;
use arrow_spec::{FlatError, IpcError};
use std::alloc::{AllocError, AllocFailed};
use thiserror::Error;

/// What is answered in a value's place.
#[derive(Clone, Copy, Debug, Error)]
pub enum Fault {
    /// There is no memory: the run ends.
    #[error("no memory")]
    Memory,
    /// The words are none of a call, or the call may not be made.
    #[error("no such call")]
    Words,
    /// Parts make no array.
    #[error("{0}")]
    Array(ArrayError),
    /// Arrays make no batch.
    #[error("{0}")]
    Batch(BatchError),
    /// Bytes are no flatbuffer.
    #[error("{0}")]
    Flat(FlatError),
    /// A call of the library is refused.
    #[error("{0}")]
    Ipc(IpcError),
}

impl From<AllocError> for Fault {
    fn from(_: AllocError) -> Fault {
        Fault::Memory
    }
}

impl<T: Drop> From<AllocFailed<T>> for Fault {
    fn from(_: AllocFailed<T>) -> Fault {
        Fault::Memory
    }
}

impl From<ArrayError> for Fault {
    fn from(error: ArrayError) -> Fault {
        Fault::Array(error)
    }
}

impl From<BatchError> for Fault {
    fn from(error: BatchError) -> Fault {
        Fault::Batch(error)
    }
}

impl From<FlatError> for Fault {
    fn from(error: FlatError) -> Fault {
        Fault::Flat(error)
    }
}

impl From<IpcError> for Fault {
    fn from(error: IpcError) -> Fault {
        Fault::Ipc(error)
    }
}
