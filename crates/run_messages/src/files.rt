//! Files that are read.
use crate::appends::{append_failing, append_whole};
use crate::said::say_error;
use arrow_spec::{Block, IpcError};
use case_words::Answer;
use ipc_io::MemorySource;
use ipc_reader::{FileReader, read_file_dictionaries, read_file_metadata};
use message_words::{Names, front, numbers_of, optional_count, optional_counts, say_batch};

/// The bytes of `PARTS`, or without any those that were written last.
pub(crate) fn file_bytes(answer: &Answer, names: &Names, bytes: &[u8], words: &[&str]) -> Vec<u8> {
    if front(words).is_empty() {
        answer.list(bytes.to_vec(answer.alloc()))
    } else {
        names.bytes_of(answer, front(words))
    }
}

/// The same as a source of which calls `fails N,..` fail, and that cannot be read at `places N,..`.
fn source_of(answer: &Answer, names: &Names, bytes: &[u8], words: &[&str]) -> MemorySource {
    let failing = numbers_of(answer, words, "fails");
    let places = numbers_of(answer, words, "places");
    MemorySource::new(file_bytes(answer, names, bytes, words), failing, places)
}

/// What the calls of a reader of `columns N,..`, up to `limit N` rows, give up to its end.
fn read_file(answer: &Answer, source: MemorySource, words: &[&str]) -> Result<(), IpcError> {
    let mut source = source;
    let columns = optional_counts(answer, words, "columns");
    let limit = optional_count(answer, words, "limit");
    let metadata = read_file_metadata(answer.alloc(), &mut source)?;
    let reader = match FileReader::new(answer.alloc(), source, metadata, columns, limit) {
        Ok(reader) => reader,
        Err(refused) => return Err(refused.error),
    };
    for read in reader {
        match read {
            Ok(batch) => say_batch(answer, &batch),
            Err(error) => say_error(answer, error),
        }
        answer.say("; ");
    }
    answer.say("end");
    Ok(())
}

/// Blocks by place, length of the metadata and length of the body.
fn say_blocks(answer: &Answer, blocks: &[Block]) {
    for block in blocks {
        let (place, head, body) = (block.offset, block.meta_data_length, block.body_length);
        answer.tell(format!(in answer.alloc(); " {place}+{head}+{body}"));
    }
}

/// The blocks of dictionaries and of batches in the footer.
fn read_blocks(answer: &Answer, source: &mut MemorySource) -> Result<(), IpcError> {
    let metadata = read_file_metadata(answer.alloc(), source)?;
    answer.say("dictionaries");
    say_blocks(answer, &metadata.dictionaries);
    answer.say(", batches");
    say_blocks(answer, &metadata.blocks);
    Ok(())
}

/// How many dictionaries there are.
fn read_dictionaries(answer: &Answer, source: &mut MemorySource) -> Result<(), IpcError> {
    let alloc = answer.alloc();
    let metadata = read_file_metadata(alloc, source)?;
    let held = read_file_dictionaries(alloc, source, &metadata, &mut Vec::new(alloc))?;
    let count = held.len();
    answer.tell(format!(in alloc; "{count} dictionaries"));
    Ok(())
}

/// Reads the file of `PARTS`.
fn read(
    answer: &Answer,
    names: &Names,
    bytes: &[u8],
    name: &str,
    words: &[&str],
) -> Result<(), IpcError> {
    let mut source = source_of(answer, names, bytes, words);
    match name {
        "read_file" => read_file(answer, source, words),
        "blocks" => read_blocks(answer, &mut source),
        _ => read_dictionaries(answer, &mut source),
    }
}

/// Makes the call of a name, if it is one of these.
pub(crate) fn call(
    answer: &Answer,
    names: &Names,
    bytes: &mut Vec<u8>,
    name: &str,
    words: &[&str],
) -> bool {
    let done = match name {
        "read_file" | "blocks" | "dictionaries" => read(answer, names, bytes, name, words),
        "append_stream" => append_whole(answer, names, bytes, words),
        "append_failing" => append_failing(answer, names, bytes, words),
        _ => return false,
    };
    if let Err(error) = done {
        say_error(answer, error);
    }
    true
}
