//! The calls of writers.
ghost use Rattle.std.specs.Prelude.{◌≤◌, length};

use crate::made::{Made, make_batch};
use crate::writers::Writer;
use arrow_spec::IpcError;
use arrow_types::Metadata;
use case_words::{Answer, schema_of, word};
use ipc_append::EncodedData;
use message_words::{Names, front, ids_of};

/// `start`, of a file, or `start FIELDS ids IDS`, of a stream.
pub(crate) fn start(answer: &Answer, writer: &mut Writer, words: &[&str]) -> Result<(), IpcError> {
    let ids = ids_of(answer, words);
    let schema = schema_of(answer, front(words));
    match writer {
        Writer::None => Err(IpcError::State),
        Writer::Stream(writer) => writer.start(&schema, ids.as_deref()),
        Writer::Core(core, sink) => core.start(sink, &schema, ids.as_deref()),
        Writer::File(writer) => writer.start(),
        Writer::Appended(writer) => writer.start(),
    }
}

/// `write FIELDS | PARTS ids IDS`, or `write ids IDS` of the last batch.
pub(crate) fn write(
    answer: &Answer,
    writer: &mut Writer,
    made: &mut Made,
    words: &[&str],
) -> Result<(), IpcError> {
    if !front(words).is_empty() {
        make_batch(answer, made, words);
    }
    let ids = ids_of(answer, words);
    let Some(batch) = &made.batch else {
        return Err(IpcError::State);
    };
    match writer {
        Writer::None => Err(IpcError::State),
        Writer::Stream(writer) => writer.write(batch, ids.as_deref()),
        Writer::Core(core, sink) => core.write(sink, batch, ids.as_deref()),
        Writer::File(writer) => writer.write(batch, ids.as_deref()),
        Writer::Appended(writer) => writer.write(batch, ids.as_deref()),
    }
}

pub(crate) fn finish(writer: &mut Writer) -> Result<(), IpcError> {
    match writer {
        Writer::None => Err(IpcError::State),
        Writer::Stream(writer) => writer.finish(),
        Writer::Core(core, sink) => core.finish(sink),
        Writer::File(writer) => writer.finish(),
        Writer::Appended(writer) => writer.finish(),
    }
}

/// Gives the message of a schema, or a footer, pairs.
pub(crate) fn set_own_pairs(writer: &mut Writer, pairs: Metadata) -> Result<(), IpcError>
    requires { length pairs.entries ≤ 1 }
{
    match writer {
        Writer::None => Err(IpcError::State),
        Writer::Stream(writer) => writer.set_message_metadata(pairs),
        Writer::Core(core, _) => core.set_message_metadata(pairs),
        Writer::File(writer) => writer.set_footer_metadata(pairs),
        Writer::Appended(writer) => writer.set_footer_metadata(pairs),
    }
}

/// Gives the schema pairs.
pub(crate) fn set_schema_pairs(writer: &mut Writer, pairs: Metadata) -> Result<(), IpcError> {
    match writer {
        Writer::None => return Err(IpcError::State),
        Writer::Stream(writer) => writer.set_custom_schema_metadata(pairs),
        Writer::Core(core, _) => core.set_custom_schema_metadata(pairs),
        Writer::File(writer) => writer.set_custom_schema_metadata(pairs),
        Writer::Appended(writer) => writer.set_custom_schema_metadata(pairs),
    }
    Ok(())
}

/// The message of a file of `METADATA BODY`, each a name or hex digits. It is written as it is, or with memory of its own lent to
/// the writer.
pub(crate) fn write_encoded(
    answer: &Answer,
    writer: &mut Writer,
    names: &Names,
    words: &[&str],
    is_through: bool,
) -> Result<(), IpcError> {
    let message = EncodedData {
        ipc_message: names.bytes_of(answer, &[word(words, 0)]),
        arrow_data: names.bytes_of(answer, &[word(words, 1)]),
    };
    let Writer::File(writer) = writer else {
        return Err(IpcError::State);
    };
    if !is_through {
        return writer.write_encoded(&[], &message);
    }
    drop(writer.get_scratches());
    let written = writer.write_encoded_record_batch(&message);
    writer.set_scratches(message);
    written
}

/// How many bytes a stream has, as its writer counts them.
pub(crate) fn say_count(answer: &Answer, writer: &Writer) {
    let count = match writer {
        Writer::Stream(writer) => writer.byte_count(),
        Writer::Core(core, _) => core.byte_count(),
        _ => return answer.refuse(),
    };
    answer.tell(format!(in answer.alloc(); "{count}"));
}
