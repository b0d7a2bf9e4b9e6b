//! Pairs of a key and a value (Schema.fbs, KeyValue).
ghost use Rattle.std.specs.Prelude.{◌≡◌, ◌+◌, ◌*◌, ◌<◌, ◌≤◌, [], IfOk, OnErr, Err, string_bytes};
ghost use Rattle.std.specs.Option.{option_map};
ghost use Rattle.arrow_spec.specs.declared.error.IpcError.TheVariants.{Memory, OutOfSpec};
ghost use Rattle.ipc_fields.specs.Causes.{Decodes};
ghost use Rattle.ipc_fields.specs.IpcFields.{metadata_of};
ghost use Rattle.arrow_spec.specs.Schema.{pairs_from, pairs_of, with_read_pair};
ghost use Rattle.arrow_types.specs.KindOf.{texts_of};
ghost use Rattle.schema_reader.specs.Metadata.{HasPairsIfAny};
ghost use Rattle.schema_reader.specs.Pairs.{owner_text, pair_put, pairs_kind};
ghost use Rattle.schema_reader.specs.Parts.{text_at};
ghost use Rattle.schema_reader.specs.ReadViews.{pairs_in};

use arrow_flat::{Table, Vector};
use arrow_spec::{Counted, FlatError, IpcError, OutOfSpecKind};
use arrow_types::Metadata;
use std::alloc::Global;

/// What has the pairs: a fault in them is told by it.
#[derive(Clone, Copy, Debug, PartialEq, Eq)]
pub enum PairsOwner {
    /// A schema, or a field of it.
    Schema,
    /// A footer itself.
    Footer,
    /// A message itself.
    Message,
}

/// A fault in pairs.
pub fn pairs_fault(owner: PairsOwner, e: FlatError) -> IpcError
    ensures { result ≡ OutOfSpec (pairs_kind owner e) }
{
    match owner {
        PairsOwner::Schema => IpcError::OutOfSpec(OutOfSpecKind::InvalidFlatbufferSchema(e)),
        PairsOwner::Footer => IpcError::OutOfSpec(OutOfSpecKind::InvalidFlatbufferFooter(e)),
        PairsOwner::Message => IpcError::OutOfSpec(OutOfSpecKind::InvalidFlatbufferMessage(e)),
    }
}

/// The pairs of a table, and how many pairs of the schema there are up to their end.
#[derive(Drop)]
pub(crate) struct Pairs {
    pub metadata: Metadata,
    pub counted: usize,
}

/// A text of a table.
fn read_owner_text(
    alloc: Global,
    table: &Table<'_>,
    slot: usize,
    owner: PairsOwner,
) -> Result<Option<String>, IpcError>
    ensures gives { Decodes (option_map string_bytes) result (owner_text owner table.now.bytes table.now.table slot) }
{
    match table.slot_text(slot) {
        Err(e) => Err(pairs_fault(owner, e)),
        Ok(None) => Ok(None),
        Ok(Some(text)) => Ok(Some(text.to_string(alloc)?)),
    }
}

/// A text of a schema's table.
pub(crate) fn read_text(
    alloc: Global,
    table: &Table<'_>,
    slot: usize,
) -> Result<Option<String>, IpcError>
    ensures gives { Decodes (option_map string_bytes) result (text_at table.now.bytes table.now.table slot) }
{
    read_owner_text(alloc, table, slot, PairsOwner::Schema)
}

/// Puts a pair under its key; one without key or value is passed over, and a repeated key's last value stands.
fn put_pair(
    metadata: &mut Metadata,
    key: Option<String>,
    value: Option<String>,
) -> Result<(), IpcError>
    ensures ok { IfOk result (λ _. texts_of metadata.new.entries ≡ with_read_pair (option_map string_bytes key) (option_map string_bytes value) (texts_of metadata.old.entries)) }
    ensures err { OnErr result (result ≡ Err Memory) }
{
    let Some(key) = key else {
        return Ok(());
    };
    let Some(value) = value else {
        return Ok(());
    };
    drop(metadata.insert(key, value)?);
    Ok(())
}

/// Reads one of the pairs of a vector and puts it to those before it.
#[tactic(auto, using(ipc_fields::proofs::Steps::table_in, crate::proofs::PairSteps::fault_refused), unfolding(arrow_spec::specs::Readings::bind, crate::specs::Pairs::pair_put))]
fn read_pair(
    alloc: Global,
    pairs: &Vector<'_>,
    i: usize,
    owner: PairsOwner,
    metadata: &mut Metadata,
) -> Result<(), IpcError>
    requires width { pairs.now.width ≡ 4 }
    requires within { i < pairs.now.vector.count }
    ensures gives { Decodes (λ u. texts_of metadata.new.entries) result (pair_put (pairs_kind owner) pairs.now.bytes (pairs.now.vector.first + 4 * i) (texts_of metadata.old.entries)) }
{
    let pair = match pairs.get_table(i) {
        Ok(pair) => pair,
        Err(e) => return Err(pairs_fault(owner, e)),
    };
    let key = read_owner_text(alloc, &pair, 0, owner)?;
    let value = read_owner_text(alloc, &pair, 1, owner)?;
    put_pair(metadata, key, value)
}

/// The pairs of a vector.
#[tactic(auto, using(crate::proofs::PairSteps::pairs_begun, crate::proofs::PairSteps::pairs_more, crate::proofs::PairSteps::pairs_stopped))]
pub fn read_pairs(
    alloc: Global,
    pairs: &Vector<'_>,
    owner: PairsOwner,
) -> Result<Metadata, IpcError>
    requires { pairs.now.width ≡ 4 }
    ensures gives { Decodes (λ m. texts_of m.entries) result (pairs_from (pairs_kind owner) pairs.now.bytes pairs.now.vector.first pairs.now.vector.count []) }
{
    let mut metadata = Metadata::new(alloc);
    for i in 0..pairs.len() {
        read_pair(alloc, pairs, i, owner, &mut metadata)?;
    }
    Ok(metadata)
}

/// The pairs in a slot, where so many pairs of the schema stand before them.
#[tactic(auto, using(crate::proofs::PairSteps::no_pairs_at), unfolding(arrow_spec::specs::Readings::bind, arrow_spec::specs::Schema::pairs_of))]
pub(crate) fn read_metadata(
    alloc: Global,
    table: &Table<'_>,
    slot: usize,
    before: usize,
) -> Result<Pairs, IpcError>
    requires { before ≤ 1048576 }
    ensures gives { Decodes pairs_in result (pairs_of table.now.bytes table.now.table slot before) }
    ensures within { IfOk result (λ p. p.counted ≤ 1048576) }
{
    let pairs = table.slot_vector(slot, 4).map_err(|e| IpcError::OutOfSpec(
        OutOfSpecKind::InvalidFlatbufferSchema(e),
    ))?;
    let Some(pairs) = pairs else {
        return Ok(Pairs {
            metadata: Metadata::new(alloc),
            counted: before,
        });
    };
    if pairs.len() > 1_048_576 - before {
        return Err(IpcError::TooMany(Counted::Pairs));
    }
    let metadata = read_pairs(alloc, &pairs, PairsOwner::Schema)?;
    Ok(Pairs {
        metadata,
        counted: before + pairs.len(),
    })
}

/// The metadata, where there is any.
pub fn if_any(metadata: Metadata) -> Option<Metadata>
    ensures same { metadata_of result ≡ texts_of metadata.entries }
    ensures no_empty_metadata { HasPairsIfAny result }
{
    if metadata.is_empty() {
        None
    } else {
        Some(metadata)
    }
}
