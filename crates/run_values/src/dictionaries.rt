//! Dictionaries of texts: a batch's values are held, and keys lead into them.
ghost use Rattle.std.specs.Prelude.{◌≡◌, ◌^◌, ◌<◌, [], ◌∷◌, length, map, true, false, pos, IfOk, IfSome};
ghost use Rattle.std.specs.Rc.{rc_value};
ghost use Rattle.arrow_spec.specs.Flat.{little};
ghost use Rattle.arrow_spec.specs.Kinds as kind;
ghost use Rattle.arrow_spec.specs.Sent.{body_of};
ghost use Rattle.arrow_spec.specs.declared.types.IntegerType.TheVariants as integer;
ghost use Rattle.arrow_arrays.specs.Parts.{also, none, rows_in};
ghost use Rattle.arrow_arrays.specs.PartsOf.{parts_of};
ghost use Rattle.ipc_read.specs.Batches.{kinds_of};
ghost use Rattle.ipc_write.specs.Below.{MayHaveOrder, pieces_in};
ghost use Rattle.ipc_write.specs.Compaction.{top};

use crate::columns::column_of;
use crate::written::{encoded, schema_of};
use arrow_arrays::{Array, DictionaryArray, RecordBatch};
use arrow_spec::{IntegerType, IpcError, MetadataVersion};
use arrow_types::{ArrowDataType, ArrowSchemaRef};
use case_words::{Answer, Tables, word};
use ipc_fields::{IpcField, IpcSchema};
use ipc_read::{
    BatchHeader, Body, Dictionaries, MemorySource, Source, are_held_for, is_held_for,
    read_dictionary_batch, read_record_batch,
};
use ipc_write::write_dictionary;
use std::alloc::{AllocError, Global};

/// One column of texts by keys of 16 bits.
fn schema(alloc: Global) -> Result<ArrowSchemaRef, AllocError>
    ensures { IfOk result (λ s. kinds_of (rc_value s) ≡ kind.dictionary integer.UInt16 false (pos 0) (kind.utf8 kind.small) ∷ []) }
{
    let texts = Box::new(alloc, ArrowDataType::Utf8)?;
    schema_of(
        alloc,
        ArrowDataType::Dictionary(IntegerType::UInt16, texts, false),
    )
}

/// The dictionary 0.
fn ipc_schema(alloc: Global) -> Result<IpcSchema, AllocError>
    ensures { IfOk result (λ s. length s.fields.items ≡ 1) }
{
    let ids = IpcField {
        fields: Vec::new(alloc),
        dictionary_id: Some(0),
    };
    Ok(IpcSchema {
        fields: vec![in alloc; ids]?,
        is_little_endian: true,
    })
}

/// The header of these tables, of so many rows.
fn header(answer: &Answer, tables: &Tables, rows: &str) -> BatchHeader {
    BatchHeader {
        length: answer.long(rows),
        nodes: answer.list(tables.nodes.clone()),
        buffers: answer.list(tables.buffers.clone()),
        compressed: false,
        variadic: answer.list(tables.views.clone()),
    }
}

fn source(answer: &Answer, tables: &Tables) -> MemorySource {
    let body = answer.list(tables.body.clone());
    MemorySource::new(body, Vec::new(answer.alloc()), Vec::new(answer.alloc()))
}

/// How a batch of values is held.
#[derive(Clone, Copy)]
struct Holding {
    id: i64,
    is_delta: bool,
    may_replace: bool,
}

fn hold_batch(
    alloc: Global,
    dictionaries: &mut Dictionaries,
    holding: Holding,
    header: &BatchHeader,
    source: &mut MemorySource,
) -> Result<(), IpcError> {
    let schema = schema(alloc)?;
    let ipc_schema = ipc_schema(alloc)?;
    let length = source.size()?;
    read_dictionary_batch(
        alloc,
        holding.id,
        holding.is_delta,
        holding.may_replace,
        header,
        &schema,
        &ipc_schema,
        dictionaries,
        MetadataVersion::V5,
        source,
        Body { offset: 0, length },
        length,
        &mut Vec::new(alloc),
    )
}

/// `hold ID ROWS base|delta once|replace`: texts of the tables become values.
fn hold(answer: &Answer, tables: &Tables, dictionaries: &mut Dictionaries, words: &[&str]) {
    let holding = Holding {
        id: answer.long(word(words, 0)),
        is_delta: word(words, 2) == "delta",
        may_replace: word(words, 3) == "replace",
    };
    let header = header(answer, tables, word(words, 1));
    let mut source = source(answer, tables);
    let held = hold_batch(answer.alloc(), dictionaries, holding, &header, &mut source);
    answer.done(held);
}

/// `held_for TYPE`: whether what is held has the types of these values.
fn held_for(answer: &Answer, dictionaries: &Dictionaries, words: &[&str]) {
    match column_of(answer, words) {
        Some(column) => {
            let is_held = is_held_for(&column.field.dtype, &column.ids, dictionaries);
            answer.say(if is_held { "yes" } else { "no" });
        }
        None => answer.refuse(),
    }
}

fn read(
    alloc: Global,
    dictionaries: &Dictionaries,
    header: &BatchHeader,
    source: &mut MemorySource,
) -> Result<RecordBatch, IpcError> {
    let schema = schema(alloc)?;
    let ipc_schema = ipc_schema(alloc)?;
    if !are_held_for(&schema, &ipc_schema, dictionaries) {
        return Err(IpcError::State);
    }
    let length = source.size()?;
    read_record_batch(
        alloc,
        header,
        &schema,
        &ipc_schema,
        None,
        None,
        dictionaries,
        MetadataVersion::V5,
        source,
        Body { offset: 0, length },
        length,
        &mut Vec::new(alloc),
    )
}

/// `read_batch ROWS`: the column of texts by key of the batch of the tables.
pub(crate) fn read_batch(
    answer: &Answer,
    tables: &Tables,
    dictionaries: &Dictionaries,
    words: &[&str],
) -> Result<Array, IpcError> {
    let header = header(answer, tables, word(words, 0));
    let mut source = source(answer, tables);
    match read(answer.alloc(), dictionaries, &header, &mut source) {
        Ok(batch) => batch.into_arrays().pop().ok_or(IpcError::State),
        Err(error) => Err(error),
    }
}

/// The values of a dictionary of texts in one part.
fn only_texts(dictionary: &DictionaryArray) -> Option<&Array>
    ensures only { IfSome result (λ v. dictionary.now.children ≡ also (parts_of v.now) none) }
    ensures order { IfSome result (λ v. MayHaveOrder (parts_of v.now) true) }
    ensures same { IfSome result (λ v. top (parts_of v.now) ≡ parts_of v.now) }
{
    let [values] = dictionary.parts() else {
        return None;
    };
    match values {
        Array::Utf8(_) => Some(values),
        _ => None,
    }
}

/// Tells how many values there are, and what they are written as by themselves.
fn write_values(answer: &Answer, dictionary: &DictionaryArray, values: &Array, tables: &mut Tables)
    requires only { dictionary.now.children ≡ also (parts_of values.now) none }
    requires order { MayHaveOrder (parts_of values.now) true }
    requires few { rows_in (parts_of values.now) < 2 ^ 63 }
    requires short { body_of 0 (map length (pieces_in little (parts_of values.now))) < 2 ^ 63 }
{
    *tables = Tables::new(answer.alloc());
    match write_dictionary(
        dictionary,
        &mut tables.buffers,
        &mut tables.body,
        &mut tables.nodes,
        &mut tables.views,
        &mut 0,
        true,
        false,
    ) {
        Ok(count) => answer.tell(format!(in answer.alloc(); "{count} values\n")),
        Err(error) => answer.fail(error.into()),
    }
    tables.say(answer);
}

/// What the values of a dictionary are written as, where a batch can hold them.
pub(crate) fn values(answer: &Answer, array: &Array, tables: &mut Tables) {
    let Array::Dictionary(dictionary) = array else {
        return answer.refuse();
    };
    let Some(values) = only_texts(dictionary) else {
        return answer.refuse();
    };
    match encoded(answer.alloc(), values) {
        Ok(_) => write_values(answer, dictionary, values, tables),
        Err(fault) => answer.fail(fault),
    }
}

/// Makes a call of what is held, or tells that there is none of the name.
pub(crate) fn call(
    answer: &Answer,
    tables: &Tables,
    dictionaries: &mut Dictionaries,
    name: &str,
    words: &[&str],
) -> bool {
    match name {
        "hold" => hold(answer, tables, dictionaries, words),
        "held_for" => held_for(answer, dictionaries, words),
        _ => return false,
    }
    true
}
