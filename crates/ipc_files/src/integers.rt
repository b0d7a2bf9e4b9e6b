//! Signed numbers of the format as lengths and places.
ghost use Rattle.std.specs.Prelude.{◌≡◌, ◌^◌, ◌<◌, IfOk};
ghost use Rattle.arrow_spec.specs.Counts.{magnitude};
ghost use Rattle.arrow_spec.specs.Readings.{natural};
ghost use Rattle.ipc_fields.specs.Causes.{Decodes};

use arrow_spec::{IpcError, OutOfSpecKind};

/// A number, 0 where it is negative.
pub(crate) fn magnitude(x: i64) -> u64
    ensures value { result ≡ magnitude x }
    ensures small { result < 2 ^ 63 }
{
    if x < 0 { 0 } else { x as u64 }
}

/// A number that may not be negative.
pub(crate) fn natural(x: i64) -> Result<u64, IpcError>
    ensures gives { Decodes (λ n. n) result (natural x) }
    ensures small { IfOk result (λ n. n < 2 ^ 63) }
{
    if x < 0 {
        return Err(IpcError::OutOfSpec(OutOfSpecKind::UnexpectedNegativeInteger));
    }
    Ok(x as u64)
}
