//! The pairs that a footer or a message has itself, beside those of a schema (File.fbs, Footer; Message.fbs, Message).
ghost use Rattle.std.specs.Prelude.{◌≡◌, IfOk, IfSome};
ghost use Rattle.arrow_flat.specs.Read.{vector_of};
ghost use Rattle.ipc_fields.specs.Causes.{Decodes};
ghost use Rattle.ipc_fields.specs.IpcFields.{metadata_of};
ghost use Rattle.arrow_spec.specs.Messages.{custom_pairs, footer_pairs, message_pairs};
ghost use Rattle.arrow_spec.specs.WrittenSchemas.{CustomMayBeWritten};
ghost use Rattle.ipc_schema.specs.Custom.{custom_vector};
ghost use Rattle.schema_reader.specs.Metadata.{HasPairsIfAny};
ghost use Rattle.schema_reader.specs.Pairs.{pairs_kind};

use arrow_flat::{Flat, Vector};
use arrow_spec::{Counted, IpcError};
use arrow_types::Metadata;
use schema_reader::{PairsOwner, if_any, pairs_fault, read_pairs};
use std::alloc::Global;

/// The vector of pairs of a footer's or a message's root table.
#[tactic(auto, using(schema_reader::proofs::PairSteps::fault_refused), unfolding(arrow_spec::specs::Readings::bind, crate::specs::Custom::custom_vector))]
fn find_pairs(bytes: &[u8], owner: PairsOwner) -> Result<Option<Vector<'_>>, IpcError>
    ensures gives { Decodes vector_of result (custom_vector (pairs_kind owner) bytes.now) }
    ensures bytes { IfOk result (λ o. IfSome o (λ v. (v.bytes ≡ bytes.now) × (v.width ≡ 4))) }
{
    let table = match Flat::root(bytes) {
        Ok(table) => table,
        Err(e) => return Err(pairs_fault(owner, e)),
    };
    match table.slot_vector(4, 4) {
        Ok(pairs) => Ok(pairs),
        Err(e) => Err(pairs_fault(owner, e)),
    }
}

/// The pairs of a footer or of a message, none where there are none.
#[tactic(auto, unfolding(arrow_spec::specs::Readings::bind, arrow_spec::specs::Messages::custom_pairs, arrow_spec::specs::Schema::pairs_from, crate::specs::Custom::custom_vector))]
fn read_custom(alloc: Global, bytes: &[u8], owner: PairsOwner) -> Result<Option<Metadata>, IpcError>
    ensures gives { Decodes metadata_of result (custom_pairs (pairs_kind owner) bytes.now) }
    ensures no_empty_metadata { IfOk result HasPairsIfAny }
{
    let Some(pairs) = find_pairs(bytes, owner)? else {
        return Ok(None);
    };
    if pairs.len() > 1_048_576 {
        return Err(IpcError::TooMany(Counted::Pairs));
    }
    let metadata = read_pairs(alloc, &pairs, owner)?;
    Ok(if_any(metadata))
}

/// The pairs of a footer, by its bytes; none where there are none.
///
/// # Errors
///
/// `OutOfSpec(InvalidFlatbufferFooter)` where a part is out of range or no UTF-8, `TooMany(Pairs)` over 1,048,576, and
/// `Memory`.
pub fn footer_metadata(alloc: Global, footer: &[u8]) -> Result<Option<Metadata>, IpcError>
    ensures gives { Decodes metadata_of result (footer_pairs footer.now) }
    ensures may { IfOk result (λ m. CustomMayBeWritten (metadata_of m)) }
    ensures no_empty_metadata { IfOk result HasPairsIfAny }
{
    read_custom(alloc, footer, PairsOwner::Footer)
}

/// The pairs of a message, by its metadata; none where there are none.
///
/// # Errors
///
/// As those of [`footer_metadata`], with `InvalidFlatbufferMessage`.
pub fn message_metadata(alloc: Global, message: &[u8]) -> Result<Option<Metadata>, IpcError>
    ensures gives { Decodes metadata_of result (message_pairs message.now) }
    ensures may { IfOk result (λ m. CustomMayBeWritten (metadata_of m)) }
    ensures no_empty_metadata { IfOk result HasPairsIfAny }
{
    read_custom(alloc, message, PairsOwner::Message)
}
