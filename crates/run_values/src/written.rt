//! Arrays as they are written, and read back.
ghost use Rattle.std.specs.Prelude.{◌≡◌, ◌^◌, ◌<◌, [], ◌∷◌, length, map, true, false, IfOk};
ghost use Rattle.std.specs.Rc.{rc_value};
ghost use Rattle.arrow_spec.specs.Flat.{little};
ghost use Rattle.arrow_spec.specs.Sent.{body_of};
ghost use Rattle.arrow_types.specs.KindOf.{kind_of};
ghost use Rattle.arrow_arrays.specs.Parts.{rows_in};
ghost use Rattle.arrow_arrays.specs.PartsOf.{parts_of};
ghost use Rattle.ipc_read.specs.Batches.{kinds_of};
ghost use Rattle.ipc_write.specs.Below.{MayHaveOrder, pieces_in, has_no_children};
ghost use Rattle.ipc_write.specs.Compaction.{top};

use crate::columns::{Column, read_whole};
use crate::dictionaries::values;
use arrow_arrays::{Array, RecordBatch};
use arrow_types::{ArrowDataType, ArrowSchema, ArrowSchemaRef, Field};
use case_words::{Answer, Fault, Tables, word};
use ipc_fields::IpcField;
use ipc_read::read_record_message;
use ipc_write::{EncodedData, WriteOptions, encode_record_batch, write};
use std::alloc::{AllocError, Global};
use std::rc::Rc;

fn field_of(alloc: Global, array: &Array) -> Result<Field, AllocError> {
    let dtype = array.dtype().try_clone(alloc)?;
    Ok(Field::new(alloc, String::new(alloc), dtype, true))
}

/// The schema of one column.
pub(crate) fn schema_of(alloc: Global, dtype: ArrowDataType) -> Result<ArrowSchemaRef, AllocError>
    ensures { IfOk result (λ s. kinds_of (rc_value s) ≡ kind_of dtype ∷ []) }
{
    let field = Field::new(alloc, String::new(alloc), dtype, true);
    let schema = ArrowSchema::from_fields(alloc, vec![in alloc; field]?)?;
    Ok(Rc::new(alloc, schema)?)
}

/// The batch of one column.
pub(crate) fn batch_of(alloc: Global, array: &Array) -> Result<RecordBatch, Fault>
    ensures arrays { IfOk result (λ b. b.arrays ≡ parts_of array.now ∷ []) }
    ensures height { IfOk result (λ b. b.height ≡ rows_in (parts_of array.now)) }
{
    let schema = schema_of(alloc, array.dtype().try_clone(alloc)?)?;
    let arrays = vec![in alloc; array.try_clone(alloc)?]?;
    Ok(RecordBatch::try_new(array.len(), schema, arrays)?)
}

/// What a message says of its tables, and its body.
fn tables_of(alloc: Global, encoded: EncodedData) -> Result<Tables, Fault> {
    let message = read_record_message(alloc, &encoded.ipc_message)?;
    Ok(Tables {
        nodes: message.header.nodes,
        buffers: message.header.buffers,
        views: message.header.variadic,
        body: encoded.arrow_data,
    })
}

/// The message of that batch.
pub(crate) fn encoded(alloc: Global, array: &Array) -> Result<Tables, Fault>
    ensures few { IfOk result (λ _. rows_in (parts_of array.now) < 2 ^ 63) }
    ensures short { IfOk result (λ _. body_of 0 (map length (pieces_in little (top (parts_of array.now)))) < 2 ^ 63) }
{
    let batch = batch_of(alloc, array)?;
    let mut encoded = EncodedData::new(alloc);
    encode_record_batch(alloc, &batch, &WriteOptions::default(), &mut encoded)?;
    drop(batch);
    let tables = tables_of(alloc, encoded)?;
    Ok(tables)
}

/// `encode`: the message becomes the tables.
fn encode(answer: &Answer, array: &Array, tables: &mut Tables) {
    match encoded(answer.alloc(), array) {
        Ok(written) => *tables = written,
        Err(fault) => answer.fail(fault),
    }
}

/// Whether an array has views, which are written in little-endian order alone, or children, which may have some.
fn may_have_views(array: &Array) -> bool
    ensures order { result ≡ false → MayHaveOrder (parts_of array.now) false }
    ensures children { result ≡ false → has_no_children (parts_of array.now) ≡ true }
{
    matches!(
        array,
        Array::BinaryView(_)
            | Array::Utf8View(_)
            | Array::List(_)
            | Array::FixedSizeList(_)
            | Array::Map(_)
            | Array::Struct(_)
            | Array::Union(_)
            | Array::Dictionary(_)
    )
}

/// An array without views and children by itself, in an order. It answers where what is written ends.
fn write_alone(answer: &Answer, array: &Array, tables: &mut Tables, is_little_endian: bool) -> i64
    requires plain { MayHaveOrder (parts_of array.now) false }
    requires childless { has_no_children (parts_of array.now) ≡ true }
    requires few { rows_in (parts_of array.now) < 2 ^ 63 }
    requires short { body_of 0 (map length (pieces_in little (top (parts_of array.now)))) < 2 ^ 63 }
{
    *tables = Tables::new(answer.alloc());
    let mut end = 0;
    answer.done(write(
        array,
        &mut tables.buffers,
        &mut tables.body,
        &mut tables.nodes,
        &mut tables.views,
        &mut end,
        is_little_endian,
    ));
    end
}

/// The same of an array that a batch can hold.
fn alone(answer: &Answer, array: &Array, tables: &mut Tables, is_little_endian: bool) -> i64 {
    if may_have_views(array) {
        answer.refuse();
        return 0;
    }
    match encoded(answer.alloc(), array) {
        Ok(_) => write_alone(answer, array, tables, is_little_endian),
        Err(fault) => {
            answer.fail(fault);
            0
        }
    }
}

/// Tells whether an array is read back from its tables.
fn say_back(
    answer: &Answer,
    array: &Array,
    tables: &Tables,
    is_little_endian: bool,
    by_kind: bool,
) {
    let Ok(field) = field_of(answer.alloc(), array) else {
        return answer.fail(Fault::Memory);
    };
    let column = Column {
        field,
        ids: IpcField::new(answer.alloc()),
    };
    match read_whole(
        answer,
        tables,
        &column,
        array.len(),
        is_little_endian,
        by_kind,
    ) {
        Ok(back) => answer.say(if back == *array { "same" } else { "other" }),
        Err(error) => answer.fail(error.into()),
    }
}

/// Makes a call on the last array, or tells that there is none of the name.
pub(crate) fn call(
    answer: &Answer,
    arrays: &[Array],
    tables: &mut Tables,
    name: &str,
    words: &[&str],
) -> bool {
    let Some(array) = arrays.last() else {
        return false;
    };
    let is_little_endian = word(words, 0) == "little";
    match name {
        "encode" => {
            encode(answer, array, tables);
            tables.say(answer)
        }
        "round" | "round_by_kind" => {
            encode(answer, array, tables);
            say_back(answer, array, tables, true, name == "round_by_kind")
        }
        "alone" => {
            let end = alone(answer, array, tables, is_little_endian);
            tables.say(answer);
            answer.tell(format!(in answer.alloc(); "\nend {end}"))
        }
        "round_alone" => {
            alone(answer, array, tables, is_little_endian);
            say_back(answer, array, tables, is_little_endian, false)
        }
        "values" => values(answer, array, tables),
        _ => return false,
    }
    true
}
