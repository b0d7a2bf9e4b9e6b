//! Columns that are read and passed over.
ghost use Rattle.std.specs.Prelude.{◌≡◌, true};
ghost use Rattle.arrow_types.specs.KindOf.{kind_of};
ghost use Rattle.arrow_arrays.specs.Carried.{is_carried};
ghost use Rattle.ipc_write.specs.Below.{HasKinds};
ghost use Rattle.ipc_read.specs.Held.{held_in, field_kind, is_any_dictionary};
ghost use Rattle.ipc_read.specs.Readers.{Readable};

use crate::dictionaries::read_batch;
use arrow_arrays::{Array, DictionaryArray, is_carried};
use arrow_spec::{FieldNode, IpcBuffer, IpcError, MetadataVersion};
use arrow_types::{ArrowDataType, Field, PhysicalType};
use case_words::{Answer, Tables, fields_of, keep, rest, schema_of, type_of, word};
use ipc_fields::IpcField;
use ipc_read::{
    Body, Dictionaries, MemorySource, Source, default_ipc_fields, is_held_for, read,
    read_dictionary, read_fixed_size_list, read_list, read_map, read_null, read_primitive,
    read_struct, read_union, skip, skip_binary, skip_binview, skip_boolean, skip_dictionary,
    skip_fixed_size_binary, skip_fixed_size_list, skip_list, skip_map, skip_null, skip_primitive,
    skip_struct, skip_union, skip_utf8,
};
use std::alloc::Global;
use std::collections::VecDeque;

/// What is left of a batch's tables.
#[derive(Drop)]
pub(crate) struct Queues {
    nodes: VecDeque<FieldNode>,
    buffers: VecDeque<IpcBuffer>,
    views: VecDeque<i64>,
}

fn queue_of<T: Copy>(answer: &Answer, items: &[T]) -> VecDeque<T> {
    let mut queue = VecDeque::new(answer.alloc());
    for item in items {
        answer.done(queue.push_back(*item));
    }
    queue
}

impl Queues {
    pub(crate) fn new(alloc: Global) -> Queues {
        Queues {
            nodes: VecDeque::new(alloc),
            buffers: VecDeque::new(alloc),
            views: VecDeque::new(alloc),
        }
    }

    fn of(answer: &Answer, tables: &Tables) -> Queues {
        Queues {
            nodes: queue_of(answer, &tables.nodes),
            buffers: queue_of(answer, &tables.buffers),
            views: queue_of(answer, &tables.views),
        }
    }
}

/// How a column is read.
#[derive(Clone, Copy)]
struct Turn {
    rows: usize,
    is_little_endian: bool,
    version: MetadataVersion,
    /// By the call of its kind.
    by_kind: bool,
}

/// `ROWS WAY TYPE`, where WAY is `little`, `big`, `v4` or `kind`.
fn turn_of(answer: &Answer, words: &[&str]) -> Turn {
    let way = word(words, 1);
    Turn {
        rows: answer.count(word(words, 0)),
        is_little_endian: way != "big",
        version: if way == "v4" {
            MetadataVersion::V4
        } else {
            MetadataVersion::V5
        },
        by_kind: way == "kind",
    }
}

/// Two bytes stand before a body.
fn source(answer: &Answer, body: &[u8]) -> MemorySource {
    let mut bytes = Vec::new(answer.alloc());
    answer.done(bytes.extend_from_slice(b"ab"));
    answer.done(bytes.extend_from_slice(body));
    MemorySource::new(bytes, Vec::new(answer.alloc()), Vec::new(answer.alloc()))
}

/// A column, and the ids of its dictionaries, which count from 0.
#[derive(Drop)]
pub(crate) struct Column {
    pub(crate) field: Field,
    pub(crate) ids: IpcField,
}

/// The first column of these fields.
pub(crate) fn column_of(answer: &Answer, words: &[&str]) -> Option<Column> {
    let schema = schema_of(answer, words);
    let ids = default_ipc_fields(answer.alloc(), &schema);
    match (fields_of(answer, words).pop(), answer.list(ids).pop()) {
        (Some(field), Some(ids)) => Some(Column { field, ids }),
        _ => None,
    }
}

/// A column with children by the call of its kind.
fn nested<S: Source>(
    alloc: Global,
    queues: &mut Queues,
    column: &Column,
    source: &mut S,
    body: Body,
    dictionaries: &Dictionaries,
    turn: Turn,
) -> Result<Array, IpcError>
    requires held { is_carried (kind_of column.now.field.dtype) ≡ true }
    requires kinds { HasKinds (held_in dictionaries.now) (field_kind column.now.field.dtype column.now.ids) }
    requires readable { Readable (S.content source.old) body }
{
    let dtype = &column.field.dtype;
    let mut scratch = Vec::new(alloc);
    macro_rules! by {
        ($call:ident, $kind:ident) => {
            match $call(
                alloc,
                &mut queues.nodes,
                &mut queues.views,
                dtype,
                &column.ids,
                &mut queues.buffers,
                source,
                dictionaries,
                body,
                turn.is_little_endian,
                turn.rows,
                turn.version,
                &mut scratch,
            ) {
                Ok(array) => Ok(Array::$kind(array)),
                Err(error) => Err(error),
            }
        };
    }
    match dtype.to_physical_type() {
        PhysicalType::List => by!(read_list, List),
        PhysicalType::LargeList => by!(read_list, List),
        PhysicalType::FixedSizeList => by!(read_fixed_size_list, FixedSizeList),
        PhysicalType::Struct => by!(read_struct, Struct),
        PhysicalType::Map => by!(read_map, Map),
        PhysicalType::Union => by!(read_union, Union),
        _ => Err(IpcError::State),
    }
}

/// Keys by their call, into the dictionary 0.
fn keys<S: Source>(
    alloc: Global,
    queues: &mut Queues,
    dtype: &ArrowDataType,
    source: &mut S,
    body: Body,
    dictionaries: &Dictionaries,
    turn: Turn,
) -> Result<DictionaryArray, IpcError>
    requires kind { is_any_dictionary (kind_of dtype.now) ≡ true }
    requires held { is_carried (kind_of dtype.now) ≡ true }
    requires readable { Readable (S.content source.old) body }
{
    let ids = IpcField {
        fields: Vec::new(alloc),
        dictionary_id: Some(0),
    };
    if !is_held_for(dtype, &ids, dictionaries) {
        return Err(IpcError::State);
    }
    read_dictionary(
        alloc,
        &mut queues.nodes,
        dtype,
        &mut queues.buffers,
        source,
        body,
        turn.is_little_endian,
        turn.rows,
        &mut Vec::new(alloc),
        0,
        dictionaries,
    )
}

/// By the call of its kind, of which one without children is tried for each way of reading.
fn by_kind<S: Source>(
    alloc: Global,
    queues: &mut Queues,
    column: &Column,
    source: &mut S,
    body: Body,
    dictionaries: &Dictionaries,
    turn: Turn,
) -> Result<Array, IpcError>
    requires held { is_carried (kind_of column.now.field.dtype) ≡ true }
    requires kinds { HasKinds (held_in dictionaries.now) (field_kind column.now.field.dtype column.now.ids) }
    requires readable { Readable (S.content source.old) body }
{
    let dtype = &column.field.dtype;
    match dtype {
        ArrowDataType::Null => match read_null(alloc, &mut queues.nodes, dtype, turn.rows) {
            Ok(array) => Ok(Array::Null(array)),
            Err(error) => Err(error),
        },
        ArrowDataType::Int64 => match read_primitive::<i64, S>(
            alloc,
            &mut queues.nodes,
            dtype,
            &mut queues.buffers,
            source,
            body,
            turn.is_little_endian,
            turn.rows,
            &mut Vec::new(alloc),
        ) {
            Ok(array) => Ok(Array::Int64(array)),
            Err(error) => Err(error),
        },
        ArrowDataType::Dictionary(_, _, _) => {
            match keys(alloc, queues, dtype, source, body, dictionaries, turn) {
                Ok(array) => Ok(Array::Dictionary(array)),
                Err(error) => Err(error),
            }
        }
        _ => nested(alloc, queues, column, source, body, dictionaries, turn),
    }
}

/// The next column of the queues, by the call of any kind or by that of its own.
fn read_column(
    alloc: Global,
    queues: &mut Queues,
    column: &Column,
    source: &mut MemorySource,
    dictionaries: &Dictionaries,
    turn: Turn,
) -> Result<Array, IpcError> {
    let size = source.size()?;
    if size < 2
        || !is_carried(&column.field.dtype)
        || !is_held_for(&column.field.dtype, &column.ids, dictionaries)
    {
        return Err(IpcError::State);
    }
    let body = Body {
        offset: 2,
        length: size - 2,
    };
    if turn.by_kind {
        return by_kind(alloc, queues, column, source, body, dictionaries, turn);
    }
    read(
        alloc,
        &mut queues.nodes,
        &mut queues.views,
        &column.field,
        &column.ids,
        &mut queues.buffers,
        source,
        dictionaries,
        body,
        turn.is_little_endian,
        turn.rows,
        turn.version,
        &mut Vec::new(alloc),
    )
}

/// The next column of the tables, over a body.
fn read_next(
    answer: &Answer,
    queues: &mut Queues,
    body: &[u8],
    dictionaries: &Dictionaries,
    words: &[&str],
) -> Result<Array, IpcError> {
    let Some(column) = column_of(answer, rest(words, 2)) else {
        return Err(IpcError::State);
    };
    let turn = turn_of(answer, words);
    let mut source = source(answer, body);
    read_column(
        answer.alloc(),
        queues,
        &column,
        &mut source,
        dictionaries,
        turn,
    )
}

/// The array of so many rows that is read from these tables alone.
pub(crate) fn read_whole(
    answer: &Answer,
    tables: &Tables,
    column: &Column,
    rows: usize,
    is_little_endian: bool,
    by_kind: bool,
) -> Result<Array, IpcError> {
    let turn = Turn {
        rows,
        is_little_endian,
        version: MetadataVersion::V5,
        by_kind,
    };
    let mut queues = Queues::of(answer, tables);
    let mut source = source(answer, &tables.body);
    let dictionaries = Dictionaries::new(answer.alloc());
    read_column(
        answer.alloc(),
        &mut queues,
        column,
        &mut source,
        &dictionaries,
        turn,
    )
}

/// Passes over a column with children by the call of its kind.
fn pass_nested(queues: &mut Queues, dtype: &ArrowDataType, turn: Turn) -> Result<(), IpcError> {
    let nodes = &mut queues.nodes;
    let buffers = &mut queues.buffers;
    let views = &mut queues.views;
    let version = turn.version;
    match dtype.to_physical_type() {
        PhysicalType::List => skip_list(nodes, dtype, buffers, views, version),
        PhysicalType::LargeList => skip_list(nodes, dtype, buffers, views, version),
        PhysicalType::FixedSizeList => skip_fixed_size_list(nodes, dtype, buffers, views, version),
        PhysicalType::Struct => skip_struct(nodes, dtype, buffers, views, version),
        PhysicalType::Map => skip_map(nodes, dtype, buffers, views, version),
        PhysicalType::Union => skip_union(nodes, dtype, buffers, views, version),
        _ => Err(IpcError::State),
    }
}

/// Passes over a column by the call of its kind.
fn pass_kind(queues: &mut Queues, dtype: &ArrowDataType, turn: Turn) -> Result<(), IpcError> {
    let nodes = &mut queues.nodes;
    let buffers = &mut queues.buffers;
    match dtype.to_physical_type() {
        PhysicalType::Null => skip_null(nodes),
        PhysicalType::Boolean => skip_boolean(nodes, buffers),
        PhysicalType::Primitive(_) => skip_primitive(nodes, buffers),
        PhysicalType::Binary => skip_binary(nodes, buffers),
        PhysicalType::LargeBinary => skip_binary(nodes, buffers),
        PhysicalType::FixedSizeBinary => skip_fixed_size_binary(nodes, buffers),
        PhysicalType::Utf8 => skip_utf8(nodes, buffers),
        PhysicalType::LargeUtf8 => skip_utf8(nodes, buffers),
        PhysicalType::BinaryView => skip_binview(nodes, buffers, &mut queues.views),
        PhysicalType::Utf8View => skip_binview(nodes, buffers, &mut queues.views),
        PhysicalType::Dictionary(_) => skip_dictionary(nodes, buffers),
        _ => pass_nested(queues, dtype, turn),
    }
}

/// Passes over the next column of the tables, and tells what is left of them.
fn pass_next(answer: &Answer, queues: &mut Queues, words: &[&str]) {
    let turn = turn_of(answer, words);
    let dtype = type_of(answer, rest(words, 2));
    let passed = if turn.by_kind {
        pass_kind(queues, &dtype, turn)
    } else {
        skip(
            &mut queues.nodes,
            &dtype,
            &mut queues.buffers,
            &mut queues.views,
            turn.version,
        )
    };
    answer.done(passed);
    let (nodes, buffers, views) = (queues.nodes.len(), queues.buffers.len(), queues.views.len());
    answer.tell(format!(in answer.alloc(); "{nodes} nodes, {buffers} buffers, {views} views left"));
}

/// A line of tables. The nodes come first, and with them nothing is left of others.
fn put(answer: &Answer, tables: &mut Tables, name: &str, words: &[&str]) {
    if name == "nodes" {
        *tables = Tables::new(answer.alloc());
    }
    tables.put(answer, name, words);
}

/// `read`, `next` and `read_batch`: a column of the tables is read into an array.
fn read_array(
    answer: &Answer,
    tables: &Tables,
    queues: &mut Queues,
    dictionaries: &Dictionaries,
    name: &str,
    words: &[&str],
) -> Result<Array, IpcError> {
    if name == "read_batch" {
        return read_batch(answer, tables, dictionaries, words);
    }
    if name == "read" {
        *queues = Queues::of(answer, tables);
    }
    read_next(answer, queues, &tables.body, dictionaries, words)
}

/// Makes a call of tables and of what reads or passes them over, or tells that there is none of the name.
pub(crate) fn call(
    answer: &Answer,
    tables: &mut Tables,
    queues: &mut Queues,
    dictionaries: &Dictionaries,
    arrays: &mut Vec<Array>,
    name: &str,
    words: &[&str],
) -> bool {
    match name {
        "nodes" | "buffers" | "views" | "body" => put(answer, tables, name, words),
        "read" | "next" | "read_batch" => {
            let read = read_array(answer, tables, queues, dictionaries, name, words);
            let read = answer.value(read);
            keep(answer, arrays, read)
        }
        "skip" => {
            *queues = Queues::of(answer, tables);
            pass_next(answer, queues, words)
        }
        "pass" => pass_next(answer, queues, words),
        _ => return false,
    }
    true
}
