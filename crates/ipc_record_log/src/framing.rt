//! A record as it is written.
ghost use Rattle.std.specs.Prelude.{◌≡◌, ◌++◌, ◌∷◌, [], OnOk};
ghost use Rattle.ipc_record_log.specs.Records.{behind_gate};

use std::alloc::AllocError;

#[tactic(auto, using(std::proofs::lemmas::List::append_assoc), unfolding(crate::specs::Records::length_bytes))]
/// Adds what stands behind a record's gate, and a closed gate.
pub(crate) fn push_record(out: &mut Vec<u8>, bytes: &[u8]) -> Result<(), AllocError>
    ensures { OnOk result (out.new.items ≡ out.old.items ++ (behind_gate bytes.now ++ 0 ∷ [])) }
{
    out.extend_from_slice(&[0; 7])?;
    out.extend_from_slice(&(bytes.len() as u64).to_le_bytes())?;
    out.extend_from_slice(bytes)?;
    out.push(0)?;
    Ok(())
}
