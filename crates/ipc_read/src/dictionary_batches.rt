//! The values of dictionaries, read into a map by their ids (Arrow Columnar Format, "Dictionary Messages").
ghost use Rattle.std.specs.Prelude.{◌≡◌, ℕ, ℤ, ◌+◌, ◌^◌, ◌<◌, ◌≤◌, ◌||◌, ◌⊎◌, not, List, [], ◌∷◌, length, map, true, false, is_some, None, Some, IfOk, IfErr, IfSome};
ghost use Rattle.std.specs.BTreeMap.{get};
ghost use Rattle.std.specs.Option.{option_map};
ghost use Rattle.std.specs.Ordering.{int_cmp};
ghost use Rattle.std.specs.Rc.{rc_value};
ghost use Rattle.arrow_spec.specs.Arrays.{Dictionaries as History};
ghost use Rattle.arrow_spec.specs.Counts.{magnitude};
ghost use Rattle.arrow_spec.specs.Files.{record_batch_of};
ghost use Rattle.arrow_spec.specs.Flat.{order_by};
ghost use Rattle.arrow_spec.specs.Kinds.{same, uses_in, values_under};
ghost use Rattle.arrow_spec.specs.declared.error.IpcError.TheVariants.{Memory, OutOfSpec};
ghost use Rattle.arrow_spec.specs.declared.error.OutOfSpecKind.TheVariants.{InvalidId};
ghost use Rattle.arrow_types.specs.KindOf.{kind_of};
ghost use Rattle.arrow_arrays.specs.Parts.{none, also};
ghost use Rattle.arrow_arrays.specs.PartsOf.{parts_of, forest_of};
ghost use Rattle.ipc_fields.specs.Causes.{IsOfBytes};
ghost use Rattle.ipc_fields.specs.IpcFields.{ids_of, tree_of};
ghost use Rattle.ipc_fields.specs.Uses.{use_in};
ghost use Rattle.ipc_io.specs.Outside.{LeavesFaults, SourceKept};
ghost use Rattle.ipc_read_laws.specs.Held.{HoldsCells, HasKinds, values_of_id, HasKindOf};
ghost use Rattle.ipc_schema.specs.Views.{header_of};
ghost use Rattle.ipc_read.specs.Batches.{is_column_kind, kinds_of, schema_fields};
ghost use Rattle.ipc_read.specs.DictionaryBatches.{message_of, one_column, parts_before, dictionary_reading, dictionary_fetched, AddsDictionary, HoldsPart};
ghost use Rattle.ipc_read.specs.Held.{held_in};
ghost use Rattle.ipc_read.specs.Sources.{Inside, BodyReadCause, bytes_in};

use crate::Body;
use crate::batch::read_record_batch;
use crate::dictionaries::Dictionaries;
use crate::tables::field_at;
use arrow_arrays::Array;
use arrow_spec::{IpcError, MetadataVersion, OutOfSpecKind};
use arrow_types::{ArrowDataType, ArrowSchema, ArrowSchemaRef, Field};
use ipc_fields::uses::{Use, push_child};
use ipc_fields::{IpcField, IpcSchema};
use ipc_schema::{BatchHeader, Source};
use std::alloc::Global;
use std::rc::Rc;

/// The uses of dictionaries in the columns of a schema, in preorder.
fn schema_uses(
    alloc: Global,
    schema: &ArrowSchema,
    fields: &[IpcField],
) -> Result<Vec<Use>, IpcError>
    ensures uses { IfOk result (λ v. map use_in v.items ≡ uses_in (schema_fields schema.now fields.now)) }
    ensures memory { IfErr result (λ e. e ≡ Memory) }
{
    let mut uses = Vec::new(alloc);
    for i in 0..schema.len() {
        push_child(alloc, &mut uses, field_at(schema, i), fields, i)?;
    }
    Ok(uses)
}

/// Whether a use is one of the dictionary under an id.
fn is_use_of(found: &Use, id: i64) -> bool
    ensures { result ≡ same (use_in found.now).id id }
{
    found.id == id
}

/// The first use of the dictionary under an id.
fn first_use(uses: Vec<Use>, id: i64) -> Option<Use>
    ensures { option_map (λ u. (use_in u).values) result ≡ values_under id (map use_in uses.items) }
{
    for found in uses {
        if is_use_of(&found, id) {
            return Some(found);
        }
    }
    None
}

/// The first use of the dictionary under an id in the columns of a schema, in preorder.
///
/// # Errors
///
/// `InvalidId` where no column has the id; `Memory`.
pub fn use_of(
    alloc: Global,
    schema: &ArrowSchema,
    fields: &[IpcField],
    id: i64,
) -> Result<Use, IpcError>
    ensures found { IfOk result (λ u. values_of_id (schema_fields schema.now fields.now) id ≡ Some (use_in u).values) }
    ensures err { IfErr result (λ e. (e ≡ Memory) ⊎ ((e ≡ OutOfSpec (InvalidId id)) × (values_of_id (schema_fields schema.now fields.now) id ≡ None))) }
    ensures cause { IfErr result IsOfBytes }
{
    let uses = schema_uses(alloc, schema, fields)?;
    match first_use(uses, id) {
        Some(found) => Ok(found),
        None => Err(IpcError::OutOfSpec(OutOfSpecKind::InvalidId { requested_id: id })),
    }
}

/// The IPC field of values whose own type is no dictionary's.
fn values_field(fields: Vec<IpcField>) -> IpcField
    ensures { tree_of result ≡ record { id = None; children = ids_of fields.items } }
{
    IpcField {
        fields,
        dictionary_id: None,
    }
}

/// One column of a type, without a name.
fn column_of(alloc: Global, dtype: ArrowDataType) -> Result<ArrowSchema, IpcError>
    ensures column { IfOk result (λ s. s ≡ ([], record { name = []; kind = kind_of dtype; nullable = true; metadata = [] }) ∷ []) }
    ensures memory { IfErr result (λ e. e ≡ Memory) }
{
    let mut schema = ArrowSchema::new(alloc);
    let field = Field::new(alloc, String::new(alloc), dtype, true);
    drop(schema.insert(String::new(alloc), field)?);
    Ok(schema)
}

/// One column of a dictionary's values, without a name, and the ids of its IPC field.
///
/// # Errors
///
/// `Memory`.
pub fn values_schema(
    alloc: Global,
    values: Use,
    is_little_endian: bool,
) -> Result<(ArrowSchemaRef, IpcSchema), IpcError>
    ensures kind { IfOk result (λ r. schema_fields (rc_value r.0) r.1.fields.items ≡ one_column (use_in values).values) }
    ensures count { IfOk result (λ r. (length (rc_value r.0) ≡ 1) × (length r.1.fields.items ≡ 1)) }
    ensures order { IfOk result (λ r. r.1.is_little_endian ≡ is_little_endian) }
    ensures values { IfOk result (λ r. kinds_of (rc_value r.0) ≡ kind_of values.values ∷ []) }
    ensures memory { IfErr result (λ e. e ≡ Memory) }
{
    let Use {
        values: dtype,
        fields,
        ..
    } = values;
    let schema = column_of(alloc, dtype)?;
    let field = values_field(fields);
    let ipc_schema = IpcSchema {
        fields: vec![in alloc; field]?,
        is_little_endian,
    };
    Ok((Rc::new(alloc, schema)?, ipc_schema))
}

/// The only array of a batch of one column.
fn only_array(arrays: Vec<Array>) -> Array
    requires one { length arrays.items ≡ 1 }
    ensures { forest_of arrays.items ≡ also (parts_of result) none }
{
    let mut arrays = arrays;
    match arrays.pop() {
        Some(array) => array,
        None => unreachable!(),
    }
}

/// Whether a message may put parts under an id: behind those that are held, in their place where that is allowed, or where none are.
fn may_hold(dictionaries: &Dictionaries, id: i64, is_delta: bool, may_replace: bool) -> bool
    ensures { result ≡ (is_delta || may_replace || not (is_some (get int_cmp dictionaries.now id))) }
{
    is_delta || may_replace || !dictionaries.contains_key(&id)
}

/// Puts an array behind the parts under an id.
fn append(dictionaries: &mut Dictionaries, id: i64, part: Array) -> Result<(), IpcError>
    requires held { is_some (get int_cmp dictionaries.old id) ≡ true }
    ensures here { IfOk result (λ _. held_in dictionaries.new id ≡ Some (parts_before true (held_in dictionaries.old id) (parts_of part))) }
    ensures others { (q : ℤ) → same id q ≡ false → held_in dictionaries.new q ≡ held_in dictionaries.old q }
    ensures refused { IfErr result (λ _. (q : ℤ) → held_in dictionaries.new q ≡ held_in dictionaries.old q) }
    ensures memory { IfErr result (λ e. e ≡ Memory) }
{
    match dictionaries.get_mut(&id) {
        Some(parts) => {
            parts.push(part)?;
            Ok(())
        }
        None => unreachable!(),
    }
}

/// Puts an array behind the parts under an id, or in their place.
fn hold(
    alloc: Global,
    dictionaries: &mut Dictionaries,
    id: i64,
    is_delta: bool,
    part: Array,
) -> Result<(), IpcError>
    ensures here { IfOk result (λ _. held_in dictionaries.new id ≡ Some (parts_before is_delta (held_in dictionaries.old id) (parts_of part))) }
    ensures others { (q : ℤ) → same id q ≡ false → held_in dictionaries.new q ≡ held_in dictionaries.old q }
    ensures refused { IfErr result (λ _. (q : ℤ) → held_in dictionaries.new q ≡ held_in dictionaries.old q) }
    ensures memory { IfErr result (λ e. e ≡ Memory) }
{
    if is_delta && dictionaries.contains_key(&id) {
        return append(dictionaries, id, part);
    }
    let parts = vec![in alloc; part]?;
    drop(dictionaries.insert(id, parts)?);
    Ok(())
}

/// Reads the values of the dictionary under an id, whose body stands in a place of the source, and adds them to the map:
/// behind those of the id where it is a delta, and else in their place, which may be forbidden. The schema says their
/// type; other dictionaries that stand in the values are looked up in the map. A refusal leaves the map as it was.
///
/// # Errors
///
/// `InvalidId` where no column has the id; `DuplicateDictionary` where values may not be replaced; then as
/// `read_record_batch`.
pub fn read_dictionary_batch<S: Source>(
    alloc: Global,
    id: i64,
    is_delta: bool,
    may_replace: bool,
    header: &BatchHeader,
    schema: &ArrowSchemaRef,
    ipc_schema: &IpcSchema,
    dictionaries: &mut Dictionaries,
    version: MetadataVersion,
    source: &mut S,
    body: Body,
    size: u64,
    scratch: &mut Vec<u8>,
) -> Result<(), IpcError>
    requires fields { length ipc_schema.now.fields.items ≡ length (rc_value schema.now) }
    requires columns { IfSome (values_of_id (schema_fields (rc_value schema.now) ipc_schema.now.fields.items) id) (λ k. is_column_kind k ≡ true) }
    requires kinds { IfSome (values_of_id (schema_fields (rc_value schema.now) ipc_schema.now.fields.items) id) (λ k. HasKinds (held_in dictionaries.old) k) }
    requires room { body.offset + body.length < 2 ^ 63 }
    requires inside { Inside (S.content source.old) body }

    // The parts that are held are those that the message says, or it is refused.
    ensures adds { IfSome (S.content source.old) (λ b. (d : History) → HoldsCells d (held_in dictionaries.old) → AddsDictionary d (held_in dictionaries.new) result (dictionary_reading (rc_value schema.now) (ids_of ipc_schema.now.fields.items) ipc_schema.now.is_little_endian d size (message_of id is_delta (header_of header.now)) version (bytes_in body b) may_replace)) }

    // The array that is held has the values of the message's buffers, also under null rows.
    ensures part { IfOk result (λ _. IfSome (S.content source.old) (λ b. (d : History) → HoldsCells d (held_in dictionaries.old) → HoldsPart (held_in dictionaries.old) (held_in dictionaries.new) id is_delta (values_of_id (schema_fields (rc_value schema.now) ipc_schema.now.fields.items) id) (record_batch_of (order_by ipc_schema.now.is_little_endian) version (header_of header.now) (bytes_in body b)) (magnitude header.now.length))) }
    ensures kind { HasKindOf (schema_fields (rc_value schema.now) ipc_schema.now.fields.items) (held_in dictionaries.old) id → IfOk result (λ _. HasKindOf (schema_fields (rc_value schema.now) ipc_schema.now.fields.items) (held_in dictionaries.new) id) }
    ensures others { (q : ℤ) → same id q ≡ false → held_in dictionaries.new q ≡ held_in dictionaries.old q }
    ensures refused { IfErr result (λ _. (q : ℤ) → held_in dictionaries.new q ≡ held_in dictionaries.old q) }
    ensures cause { IfErr result (λ e. BodyReadCause e (S.faults source.old) (S.faults source.new)) }
    ensures faults_stay { LeavesFaults (S.faults source.old) (S.faults source.new) result }
    ensures kept { SourceKept S.content S.faults S.references source.old source.new }
    ensures fetched { (bytes : List ℕ) → S.fetched source.new ≤ S.fetched source.old + dictionary_fetched (record_batch_of (order_by ipc_schema.now.is_little_endian) version (header_of header.now) bytes) (values_of_id (schema_fields (rc_value schema.now) ipc_schema.now.fields.items) id) (magnitude header.now.length) }
{
    let values = use_of(alloc, schema, ipc_schema.fields.as_slice(), id)?;
    if !may_hold(dictionaries, id, is_delta, may_replace) {
        return Err(IpcError::OutOfSpec(OutOfSpecKind::DuplicateDictionary));
    }
    let columns = values_schema(alloc, values, ipc_schema.is_little_endian)?;
    let (columns, ipc_columns) = columns;
    let batch = read_record_batch(
        alloc,
        header,
        &columns,
        &ipc_columns,
        None,
        None,
        dictionaries,
        version,
        source,
        body,
        size,
        scratch,
    )?;
    let part = only_array(batch.into_arrays());
    hold(alloc, dictionaries, id, is_delta, part)
}
