//! Writers of streams and of files, as they are made and as they are left.
use crate::appends::disk_of;
use crate::files::file_bytes;
use crate::made::Made;
use crate::said::say_done;
use crate::sinks::{CaseSink, Tally, sink_of};
use crate::written::{
    finish, say_count, set_own_pairs, set_schema_pairs, start, write, write_encoded,
};
use arrow_spec::IpcError;
use case_words::{Answer, schema_of, word};
use ipc_append::{Compression, FileWriter, WriteOptions, try_from_file};
use ipc_disk::{DiskTail, MemoryDisk};
use ipc_io::Refused;
use ipc_reader::read_file_metadata;
use ipc_stream_writer::{Encoding, StreamCore, StreamWriter};
use message_words::{Names, front, has, ids_of, optional_count, pair_of};
use std::mem;
use std::rc::Rc;

#[derive(Drop)]
pub(crate) enum Writer {
    None,
    Stream(StreamWriter<CaseSink>),
    Core(StreamCore, CaseSink),
    File(FileWriter<CaseSink>),
    Appended(FileWriter<DiskTail<MemoryDisk>>),
}

/// The writer of a case, and how many bytes its sink has, where that is seen.
#[derive(Drop)]
pub(crate) struct Writing {
    writer: Writer,
    tally: Option<Tally>,
}

impl Writing {
    pub(crate) fn new() -> Writing {
        Writing {
            writer: Writer::None,
            tally: None,
        }
    }
}

/// Takes the bytes of the writer's sink or disk, where there is a writer.
pub(crate) fn settle(answer: &Answer, writing: &mut Writing, bytes: &mut Vec<u8>) {
    match mem::replace(&mut writing.writer, Writer::None) {
        Writer::None => {}
        Writer::Stream(writer) => *bytes = writer.into_inner().copied(answer),
        Writer::Core(_, sink) => *bytes = sink.copied(answer),
        Writer::File(writer) => *bytes = writer.into_inner().copied(answer),
        Writer::Appended(writer) => *bytes = writer.into_inner().into_inner().into_bytes(),
    }
}

/// The most metadata, `limit N`, whether there are `deltas`, and whether they are to be `compressed`.
pub(crate) fn write_options(answer: &Answer, words: &[&str]) -> WriteOptions {
    let limit = optional_count(answer, words, "limit");
    let default = WriteOptions::default();
    WriteOptions {
        compression: has(words, "compressed").then_some(Compression::LZ4),
        metadata_limit: limit.unwrap_or(default.metadata_limit),
        deltas: has(words, "deltas"),
    }
}

/// A writer of `FIELDS`, which has begun the file or not.
fn file_writer(
    answer: &Answer,
    sink: CaseSink,
    words: &[&str],
    is_begun: bool,
) -> Result<Writer, Refused<CaseSink>> {
    let alloc = answer.alloc();
    let options = write_options(answer, words);
    let ids = ids_of(answer, &*words);
    let schema = schema_of(answer, front(&*words));
    let schema = match Rc::new(alloc, schema) {
        Ok(schema) => schema,
        Err(_) => {
            return Err(Refused {
                error: IpcError::Memory,
                object: sink,
            });
        }
    };
    let made = if is_begun {
        FileWriter::try_new(alloc, sink, schema, ids, options)
    } else {
        FileWriter::new(alloc, sink, schema, ids, options)
    };
    match made {
        Ok(writer) => Ok(Writer::File(writer)),
        Err(refused) => Err(refused),
    }
}

/// A writer of a stream's bytes, or where `hex` asks for it of their hex text.
fn core_writer(
    answer: &Answer,
    sink: CaseSink,
    words: &[&str],
) -> Result<Writer, Refused<CaseSink>> {
    let options = write_options(answer, words);
    let encoding = if has(words, "hex") {
        Encoding::HexText
    } else {
        Encoding::Bytes
    };
    match StreamCore::new_as(answer.alloc(), options, encoding) {
        Ok(core) => Ok(Writer::Core(core, sink)),
        Err(error) => Err(Refused {
            error,
            object: sink,
        }),
    }
}

fn stream_writer(
    answer: &Answer,
    sink: CaseSink,
    words: &[&str],
) -> Result<Writer, Refused<CaseSink>> {
    match StreamWriter::new(answer.alloc(), sink, write_options(answer, words)) {
        Ok(writer) => Ok(Writer::Stream(writer)),
        Err(refused) => Err(refused),
    }
}

/// `stream_writer OPTIONS`, `stream_core OPTIONS`, `file_writer FIELDS | OPTIONS` or `begun_file FIELDS | OPTIONS`. What the sink of a
/// refused writer has is kept.
fn begin(
    answer: &Answer,
    writing: &mut Writing,
    bytes: &mut Vec<u8>,
    name: &str,
    words: &[&str],
) -> Result<(), IpcError> {
    let sink = sink_of(answer, &mut writing.tally, words)?;
    let made = match name {
        "stream_writer" => stream_writer(answer, sink, words),
        "stream_core" => core_writer(answer, sink, words),
        _ => file_writer(answer, sink, words, name == "begun_file"),
    };
    match made {
        Ok(writer) => {
            writing.writer = writer;
            Ok(())
        }
        Err(refused) => {
            writing.writer = Writer::None;
            *bytes = refused.object.copied(answer);
            Err(refused.error)
        }
    }
}

/// A writer that goes on with a file, or the file as it is left.
fn continued(
    answer: &Answer,
    mut disk: MemoryDisk,
    words: &[&str],
) -> Result<Writer, Refused<MemoryDisk>> {
    let options = write_options(answer, words);
    match read_file_metadata(answer.alloc(), &mut disk) {
        Ok(metadata) => match try_from_file(answer.alloc(), disk, metadata, options) {
            Ok(writer) => Ok(Writer::Appended(writer)),
            Err(refused) => Err(refused),
        },
        Err(error) => Err(Refused {
            error,
            object: disk,
        }),
    }
}

/// `append PARTS | OPTIONS`: the writer goes on with the file. No sink is seen then.
fn append(
    answer: &Answer,
    names: &Names,
    writing: &mut Writing,
    bytes: &mut Vec<u8>,
    words: &[&str],
) -> Result<(), IpcError> {
    let file = file_bytes(answer, names, bytes, words);
    let disk = disk_of(answer, file, words);
    writing.tally = None;
    match continued(answer, disk, words) {
        Ok(writer) => {
            writing.writer = writer;
            Ok(())
        }
        Err(refused) => {
            writing.writer = Writer::None;
            *bytes = refused.object.into_bytes();
            Err(refused.error)
        }
    }
}

/// Makes the call of a name, if it is one of these.
pub(crate) fn call(
    answer: &Answer,
    names: &Names,
    made: &mut Made,
    writing: &mut Writing,
    bytes: &mut Vec<u8>,
    name: &str,
    words: &[&str],
) -> bool {
    let done = match name {
        "stream_writer" | "stream_core" | "file_writer" | "begun_file" => {
            begin(answer, writing, bytes, name, words)
        }
        "append" => append(answer, names, writing, bytes, words),
        "start" => start(answer, &mut writing.writer, words),
        "write" => write(answer, &mut writing.writer, made, words),
        "finish" => finish(&mut writing.writer),
        "pairs" => set_own_pairs(&mut writing.writer, pair_of(answer, word(words, 0))),
        "schema_pairs" => set_schema_pairs(&mut writing.writer, pair_of(answer, word(words, 0))),
        "write_encoded" => write_encoded(answer, &mut writing.writer, names, words, false),
        "write_encoded_batch" => write_encoded(answer, &mut writing.writer, names, words, true),
        "counted" => {
            say_count(answer, &writing.writer);
            return true;
        }
        _ => return false,
    };
    say_done(answer, done, &writing.tally);
    true
}
