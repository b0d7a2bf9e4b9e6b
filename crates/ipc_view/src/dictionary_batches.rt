//! The values of dictionaries whose bytes are lent, put into a map by their ids (Arrow Columnar Format, "Dictionary Messages").
ghost use Rattle.std.specs.Prelude.{◌≡◌, ℤ, ◌∷◌, ◌||◌, not, [], length, true, false, is_some, Some, IfOk, IfErr, IfSome};
ghost use Rattle.std.specs.BTreeMap.{get};
ghost use Rattle.std.specs.Ordering.{int_cmp};
ghost use Rattle.arrow_spec.specs.Arrays.{Dictionaries};
ghost use Rattle.arrow_spec.specs.Kinds.{same};
ghost use Rattle.arrow_spec.specs.declared.error.IpcError.TheVariants.{Memory};
ghost use Rattle.ipc_fields.specs.IpcFields.{ids_of};
ghost use Rattle.ipc_read_laws.specs.Held.{values_of_id};
ghost use Rattle.ipc_schema.specs.Views.{header_of};
ghost use Rattle.ipc_read.specs.Batches.{is_column_kind, schema_fields};
ghost use Rattle.ipc_read.specs.DictionaryBatches.{message_of, dictionary_reading};
ghost use Rattle.view_types.specs.Ranges.{Lies};
ghost use Rattle.view_types.specs.Views.{part_in};
ghost use Rattle.ipc_fields.specs.Causes.{IsOfBytes};
ghost use Rattle.ipc_view.specs.Batches.{views_before, AddsViews};
ghost use Rattle.ipc_view.specs.Dictionaries.{shown_in, ShowsCells};
ghost use Rattle.ipc_view.specs.Lent.{HoldsLent};

use crate::dictionaries::DictionaryViews;
use crate::record_batch::view_record_batch;
use arrow_spec::{IpcError, MetadataVersion, OutOfSpecKind};
use arrow_types::ArrowSchema;
use ipc_fields::IpcSchema;
use ipc_read::{use_of, values_schema};
use ipc_schema::BatchHeader;
use std::alloc::Global;
use view_types::{ArrayView, Range};

/// The only view of a batch of one column.
fn only_view(views: Vec<ArrayView<'_>>) -> ArrayView<'_>
    requires one { length views.items ≡ 1 }
    ensures { views.entry.items ≡ result ∷ [] }
{
    let mut views = views;
    match views.pop() {
        Some(view) => view,
        None => unreachable!(),
    }
}

/// Whether a message may put parts under an id: behind those that are held, or where none are.
fn may_hold(dictionaries: &DictionaryViews<'_>, id: i64, is_delta: bool) -> bool
    ensures { result ≡ (is_delta || not (is_some (get int_cmp dictionaries.now id))) }
{
    is_delta || !dictionaries.contains_key(&id)
}

/// Puts a view behind the parts under an id.
fn append<'a>(
    dictionaries: &mut DictionaryViews<'a>,
    id: i64,
    part: ArrayView<'a>,
) -> Result<(), IpcError>
    requires held { is_some (get int_cmp dictionaries.old id) ≡ true }
    ensures here { IfOk result (λ _. shown_in dictionaries.new id ≡ Some (views_before true (shown_in dictionaries.old id) part.entry)) }
    ensures others { (q : ℤ) → same id q ≡ false → shown_in dictionaries.new q ≡ shown_in dictionaries.old q }
    ensures refused { IfErr result (λ _. (q : ℤ) → shown_in dictionaries.new q ≡ shown_in dictionaries.old q) }
    ensures memory { IfErr result (λ e. e ≡ Memory) }
{
    match dictionaries.get_mut(&id) {
        Some(parts) => {
            parts.push(part)?;
            Ok(())
        }
        None => unreachable!(),
    }
}

/// Puts a view behind the parts under an id, or first.
fn hold<'a>(
    alloc: Global,
    dictionaries: &mut DictionaryViews<'a>,
    id: i64,
    is_delta: bool,
    part: ArrayView<'a>,
) -> Result<(), IpcError>
    ensures here { IfOk result (λ _. shown_in dictionaries.new id ≡ Some (views_before is_delta (shown_in dictionaries.old id) part.entry)) }
    ensures others { (q : ℤ) → same id q ≡ false → shown_in dictionaries.new q ≡ shown_in dictionaries.old q }
    ensures refused { IfErr result (λ _. (q : ℤ) → shown_in dictionaries.new q ≡ shown_in dictionaries.old q) }
    ensures memory { IfErr result (λ e. e ≡ Memory) }
{
    if is_delta && dictionaries.contains_key(&id) {
        return append(dictionaries, id, part);
    }
    let parts = vec![in alloc; part]?;
    drop(dictionaries.insert(id, parts)?);
    Ok(())
}

/// Adds the view of a dictionary's values, which lends the body of its message, a range of the input, to those under its
/// id: behind them where it is a delta, else first. The schema says the values' type; other dictionaries that stand in
/// the values are looked up in the map. A refusal leaves the map as it was.
///
/// # Errors
///
/// `InvalidId` where no column has the id; `DuplicateDictionary` where it has values and this is no delta; then as
/// `view_record_batch`.
pub fn view_dictionary_batch<'a>(
    alloc: Global,
    id: i64,
    is_delta: bool,
    header: &BatchHeader,
    schema: &ArrowSchema,
    ipc_schema: &IpcSchema,
    dictionaries: &mut DictionaryViews<'a>,
    version: MetadataVersion,
    input: &'a [u8],
    body: Range,
    size: u64,
) -> Result<(), IpcError>
    requires columns { IfSome (values_of_id (schema_fields schema.now ipc_schema.now.fields.items) id) (λ k. is_column_kind k ≡ true) }
    requires body { Lies input.now body }

    // What is shown are the cells that the message says, or it is refused.
    ensures adds { (d : Dictionaries) → ShowsCells d (shown_in dictionaries.old) → AddsViews d (shown_in dictionaries.new) result (dictionary_reading schema.now (ids_of ipc_schema.now.fields.items) ipc_schema.now.is_little_endian d size (message_of id is_delta (header_of header.now)) version (part_in input.now body) false) }
    ensures refused { IfErr result (λ _. (q : ℤ) → shown_in dictionaries.new q ≡ shown_in dictionaries.old q) }
    ensures lent { HoldsLent input.now (shown_in dictionaries.old) → HoldsLent input.now (shown_in dictionaries.new) }
    ensures cause { IfErr result IsOfBytes }
{
    let values = use_of(alloc, schema, ipc_schema.fields.as_slice(), id)?;
    if !may_hold(dictionaries, id, is_delta) {
        return Err(IpcError::OutOfSpec(OutOfSpecKind::DuplicateDictionary));
    }
    let columns = values_schema(alloc, values, ipc_schema.is_little_endian)?;
    let (columns, ipc_columns) = columns;
    let batch = view_record_batch(
        alloc,
        header,
        &columns,
        &ipc_columns,
        dictionaries,
        version,
        input,
        body,
        size,
    )?;
    let (_, views) = batch;
    hold(alloc, dictionaries, id, is_delta, only_view(views))
}
