//! Copies of metadata that may be absent.
ghost use Rattle.std.specs.Prelude.{◌≡◌, ◌<◌, length, IfOk, IfSome};
ghost use Rattle.ipc_fields.specs.IpcFields.{metadata_of};

use arrow_types::{Metadata, copy_metadata};
use std::alloc::{AllocError, Global};

/// A copy of metadata, where there is any.
pub fn copy_if_any(
    alloc: Global,
    metadata: &Option<Metadata>,
) -> Result<Option<Metadata>, AllocError>
    ensures same { IfOk result (λ m. metadata_of m ≡ metadata_of metadata.now) }
    ensures some { IfSome metadata.now (λ m. 0 < length m.entries) → IfOk result (λ c. IfSome c (λ m. 0 < length m.entries)) }
{
    match metadata {
        None => Ok(None),
        Some(metadata) => Ok(Some(copy_metadata(alloc, metadata)?)),
    }
}
