//! Files that are read call by call, their footers, and counts of rows.
use crate::asked::{bytes, columns, from, limit};
use crate::shown::say_next;
use device_words::{Answer, MemorySource, Names, Outside, rest, word};
use ipc_tool::{
    FileCursor, FileMetadata, FileReader, IpcError, RecordMessage, get_row_count,
    get_row_count_from_blocks, read_file_metadata,
};
use std::alloc::{AllocError, Global};

/// `reader CALLS ..`: what so many calls of a file's reader give, one to three.
fn read_file(answer: &Answer, source: &mut MemorySource, words: &[&str]) -> Result<(), IpcError> {
    let metadata = read_file_metadata(answer.alloc(), source)?;
    let (columns, limit) = (columns(answer, words), limit(answer, words));
    let mut reader = FileReader::new(answer.alloc(), source, metadata, columns, limit)?;
    reader.set_current_block(from(answer, words));
    let calls = answer.count(word(words, 0));
    say_next(answer, reader.next());
    if calls > 1 {
        answer.say("\n");
        say_next(answer, reader.next());
    }
    if calls > 2 {
        answer.say("\n");
        say_next(answer, reader.next());
    }
    Ok(())
}

/// `place ROWS ..`: the block at which so many rows end, and what is left of them.
fn pass(answer: &Answer, source: &mut MemorySource, words: &[&str]) -> Result<(), IpcError> {
    let metadata = read_file_metadata(answer.alloc(), source)?;
    let mut reader = FileReader::new_with_projection_info(
        answer.alloc(),
        source,
        metadata,
        None,
        None,
    );
    reader.set_current_block(from(answer, words));
    let rows = answer.count(word(words, 0)) as u64;
    let left = reader.skip_blocks_till_limit(rows)?;
    let block = reader.get_current_block();
    answer.tell(format!(in answer.alloc(); "block {block}, {left} rows"));
    Ok(())
}

/// `rows ..`, or `rows_from BLOCK ..`: those of the blocks from one on.
fn count_rows(
    answer: &Answer,
    source: &mut MemorySource,
    from: Option<usize>,
) -> Result<(), IpcError> {
    let rows = match from {
        None => get_row_count(answer.alloc(), source)?,
        Some(from) => {
            let blocks = read_file_metadata(answer.alloc(), source)?.blocks;
            let from = from.min(blocks.len());
            get_row_count_from_blocks(answer.alloc(), source, &blocks[from..])?
        }
    };
    answer.tell(format!(in answer.alloc(); "{rows} rows"));
    Ok(())
}

fn say_stated(answer: &Answer, next: Option<Result<RecordMessage, IpcError>>) {
    match next {
        None => answer.say(" end"),
        Some(Ok(message)) => {
            let rows = message.header.length;
            answer.tell(format!(in answer.alloc(); " {rows}"));
        }
        Some(Err(error)) => answer.fail(error.into()),
    }
}

/// `messages ..`: the rows that the messages of a file's batches state, in three calls.
fn state_rows(answer: &Answer, source: &mut MemorySource) -> Result<(), IpcError> {
    let metadata = read_file_metadata(answer.alloc(), source)?;
    let mut cursor = FileCursor::new(answer.alloc(), metadata, None, Some(0))?;
    answer.say("rows");
    say_stated(answer, cursor.next_record_batch(answer.alloc(), source));
    say_stated(answer, cursor.next_record_batch(answer.alloc(), source));
    say_stated(answer, cursor.next_record_batch(answer.alloc(), source));
    Ok(())
}

/// Whether a copy of a file's metadata has its schema, its blocks and its size.
fn has_equal_copy(alloc: Global, metadata: &FileMetadata) -> Result<bool, AllocError> {
    let copy = metadata.try_clone(alloc)?;
    let has_blocks = copy.blocks.as_slice() == metadata.blocks.as_slice();
    Ok(has_blocks && copy.size == metadata.size && *copy.schema == *metadata.schema)
}

/// `metadata ..`: how many fields, blocks and pairs of its own a file's footer has, its size, and how a copy compares.
fn say_metadata(answer: &Answer, source: &mut MemorySource) -> Result<(), IpcError> {
    let metadata = read_file_metadata(answer.alloc(), source)?;
    let pairs = match &metadata.custom_metadata {
        None => 0,
        Some(pairs) => pairs.len(),
    };
    let (fields, blocks, size) = (metadata.schema.len(), metadata.blocks.len(), metadata.size);
    answer.tell(format!(in answer.alloc();
        "{fields} fields, {blocks} blocks, {pairs} pairs, {size} bytes, copy "
    ));
    let is_same = has_equal_copy(answer.alloc(), &metadata)?;
    answer.say(if is_same { "same" } else { "other" });
    Ok(())
}

fn read_source(
    answer: &Answer,
    source: &mut MemorySource,
    name: &str,
    words: &[&str],
) -> Result<(), IpcError> {
    match name {
        "reader" => read_file(answer, source, words),
        "place" => pass(answer, source, words),
        "rows" => count_rows(answer, source, None),
        "rows_from" => count_rows(answer, source, Some(answer.count(word(words, 0)))),
        "messages" => state_rows(answer, source),
        "metadata" => say_metadata(answer, source),
        _ => {
            answer.refuse();
            Ok(())
        }
    }
}

/// Calls of a file's bytes, which stand behind a number where the call has one.
pub(crate) fn read(
    answer: &Answer,
    known: &Names<u8>,
    outside: &Outside,
    name: &str,
    words: &[&str],
) {
    let numbers = match name {
        "reader" | "place" | "rows_from" => 1,
        _ => 0,
    };
    let bytes = bytes(answer, known, rest(words, numbers));
    let mut source = outside.source(answer, bytes);
    answer.done(read_source(answer, &mut source, name, words));
}
