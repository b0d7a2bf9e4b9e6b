//! Schemas as they are read: their texts, and as they are written again.
use arrow_flat::{Flat, finish};
use arrow_spec::OutOfSpecKind;
use arrow_types::{ArrowSchema, Metadata};
use case_words::{Answer, Fault, rest, say_lines, schema_of, word};
use ipc_fields::{IpcField, IpcSchema};
use ipc_schema::{
    IpcError, default_ipc_fields, deserialize_schema, read_schema, schema_message, schema_to_bytes,
    serialize_schema,
};
use ipc_text::schema_text;
use std::alloc::{AllocError, Global};

type Read = (ArrowSchema, IpcSchema, Option<Metadata>);

/// A text without the end of its last line.
fn say_text(answer: &Answer, text: Result<Vec<u8>, AllocError>) {
    match String::from_utf8(answer.list(text)) {
        Ok(text) => match text.as_str().strip_suffix('\n') {
            Some(lines) => answer.say(lines),
            None => answer.refuse(),
        },
        Err(_) => answer.refuse(),
    }
}

/// `text FIELDS`: the text of a schema, where no dictionary has an id, or its dictionaries have default ones.
fn text(answer: &Answer, words: &[&str], has_ids: bool) {
    let schema = schema_of(answer, words);
    let fields = if has_ids {
        let fields = default_ipc_fields(answer.alloc(), &schema);
        answer.list(fields)
    } else {
        Vec::new(answer.alloc())
    };
    let ipc_schema = IpcSchema {
        fields,
        is_little_endian: true,
    };
    say_text(
        answer,
        schema_text(answer.alloc(), &schema, &ipc_schema, None),
    );
}

/// `serialize COUNT FIELDS`: whether a schema is written with so many IPC fields.
fn serialize(answer: &Answer, words: &[&str]) {
    let schema = schema_of(answer, rest(words, 1));
    let mut ids = Vec::new(answer.alloc());
    for _ in 0..answer.count(word(words, 0)) {
        answer.done(ids.push(IpcField::new(answer.alloc())));
    }
    if let Err(error) = serialize_schema(answer.alloc(), &schema, &ids, None) {
        answer.fail(error.into());
    }
}

fn read_table(alloc: Global, bytes: &[u8]) -> Result<Read, IpcError> {
    match Flat::root(bytes) {
        Ok(table) => read_schema(alloc, &table),
        Err(e) => Err(IpcError::OutOfSpec(OutOfSpecKind::InvalidFlatbufferSchema(e))),
    }
}

fn say_read(answer: &Answer, read: Result<Read, IpcError>) {
    match read {
        Ok((schema, ipc_schema, metadata)) => {
            let text = schema_text(answer.alloc(), &schema, &ipc_schema, metadata.as_ref());
            say_text(answer, text)
        }
        Err(error) => answer.fail(error.into()),
    }
}

fn message_again(alloc: Global, bytes: &[u8]) -> Result<Vec<u8>, IpcError> {
    let (schema, ipc_schema, metadata) = deserialize_schema(alloc, bytes)?;
    schema_message(alloc, &schema, &ipc_schema, metadata.as_ref(), None)
}

/// The little-endian message of the schema that a message says, with default ids.
fn numbered(alloc: Global, bytes: &[u8]) -> Result<Vec<u8>, IpcError> {
    let (schema, _, metadata) = deserialize_schema(alloc, bytes)?;
    let ids = default_ipc_fields(alloc, &schema)?;
    schema_to_bytes(alloc, &schema, &ids, metadata.as_ref())
}

fn table_again(alloc: Global, bytes: &[u8]) -> Result<Vec<u8>, IpcError> {
    let (schema, ipc_schema, metadata) = read_table(alloc, bytes)?;
    let node = serialize_schema(alloc, &schema, &ipc_schema.fields, metadata.as_ref())?;
    match finish(alloc, &node) {
        Ok(bytes) => Ok(bytes),
        Err(_) => Err(IpcError::Memory),
    }
}

fn say_written(answer: &Answer, bytes: Result<Vec<u8>, IpcError>) {
    match bytes {
        Ok(bytes) => say_lines(answer, &bytes),
        Err(error) => answer.fail(error.into()),
    }
}

/// Whether a schema is equal to its copy, and to one without fields.
fn say_copy(answer: &Answer, read: Result<Read, IpcError>) {
    let (schema, _, _) = match read {
        Ok(read) => read,
        Err(error) => return answer.fail(error.into()),
    };
    match schema.try_clone(answer.alloc()) {
        Ok(copy) => {
            let is_same = copy == schema;
            let is_empty = ArrowSchema::new(answer.alloc()) == schema;
            answer.tell(format!(in answer.alloc(); "copy {is_same}, empty {is_empty}"));
        }
        Err(_) => answer.fail(Fault::Memory),
    }
}

/// Whether ids are equal to their copy, and those of a field too, and whether they have a dictionary.
fn say_copies(answer: &Answer, ids: &IpcSchema, field: &IpcField) -> Result<(), AllocError> {
    let is_same = ids.try_clone(answer.alloc())? == *ids;
    let is_same_field = field.try_clone(answer.alloc())? == *field;
    let has_dictionary = field.contains_dictionary();
    answer.tell(format!(in answer.alloc();
        "copy {is_same} {is_same_field}, dictionary {has_dictionary}"
    ));
    Ok(())
}

/// The same of the field at a place.
fn ids(answer: &Answer, bytes: &[u8], words: &[&str]) {
    let at = answer.count(word(words, 0));
    match read_table(answer.alloc(), bytes) {
        Ok((_, ids, _)) => match ids.fields.get(at) {
            Some(field) => {
                let said = say_copies(answer, &ids, field);
                answer.done(said);
            }
            None => answer.refuse(),
        },
        Err(error) => answer.fail(error.into()),
    }
}

/// Makes a call of this part, or tells that there is none of the name.
pub fn call(answer: &Answer, bytes: &[u8], name: &str, words: &[&str]) -> bool {
    let alloc = answer.alloc();
    match name {
        "text" => text(answer, words, false),
        "ids" => text(answer, words, true),
        "serialize" => serialize(answer, words),
        "message_text" => say_read(answer, deserialize_schema(alloc, bytes)),
        "message_again" => say_written(answer, message_again(alloc, bytes)),
        "message_numbered" => say_written(answer, numbered(alloc, bytes)),
        "message_copy" => say_copy(answer, deserialize_schema(alloc, bytes)),
        "table_text" => say_read(answer, read_table(alloc, bytes)),
        "table_again" => say_written(answer, table_again(alloc, bytes)),
        "table_ids" => ids(answer, bytes, words),
        _ => return false,
    }
    true
}
