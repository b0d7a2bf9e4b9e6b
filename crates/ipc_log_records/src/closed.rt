//! Streams that are closed (Arrow Columnar Format, "IPC Streaming Format").
ghost use Rattle.std.specs.Prelude.{◌≡◌, ◌⊎◌, ℕ, Ok, IfErr, IfOk, length};
ghost use Rattle.arrow_spec.specs.Streams.{closed};
ghost use Rattle.arrow_spec.specs.declared.error.IpcError.TheVariants.{Memory};
ghost use Rattle.ipc_record_log.specs.Logs.{invalid_log};
ghost use Rattle.laws_logs.specs.Tables.{dictionaries_from};
ghost use Rattle.ipc_log_records.specs.Passes.{told_as};

use crate::passes::pass_messages;
use arrow_spec::{IpcError, OutOfSpecKind};

/// The end of a stream: a prefix of length 0.
const END_MARK: [u8; 8] = [255, 255, 255, 255, 0, 0, 0, 0];

/// A refusal of a record's bytes: they are none of a log's, or memory was wanted.
pub(crate) fn told(error: IpcError) -> IpcError
    ensures { result ≡ told_as error }
{
    match error {
        IpcError::Memory => IpcError::Memory,
        _ => IpcError::OutOfSpec(OutOfSpecKind::InvalidLog),
    }
}

#[tactic(auto, using(crate::proofs::Refusals::told_why, crate::proofs::Refusals::other_end))]
/// How many dictionary messages a closed stream has.
///
/// # Errors
///
/// `OutOfSpec(InvalidLog)` where the bytes are no record's: a message cannot be passed over, or the last one is not followed by the
/// end mark alone. `Memory`.
pub(crate) fn closed_dictionaries(bytes: &[u8]) -> Result<u64, IpcError>
    ensures closed { IfOk result (λ n. closed bytes.now) }
    ensures count { IfOk result (λ n. dictionaries_from (length bytes.now) bytes.now ≡ Ok n) }
    ensures err { IfErr result (λ e. (e ≡ Memory) ⊎ ((e ≡ invalid_log) × ((n : ℕ) → closed bytes.now → dictionaries_from (length bytes.now) bytes.now ≡ Ok n → ⊥))) }
{
    match pass_messages(bytes) {
        Ok((dictionaries, left)) => {
            let end = &bytes[bytes.len() - left..];
            if end != END_MARK.as_slice() {
                return Err(IpcError::OutOfSpec(OutOfSpecKind::InvalidLog));
            }
            Ok(dictionaries)
        }
        Err(error) => Err(told(error)),
    }
}
