//! Streams that are read, and the calls of their readers.
use crate::said::{say_error, text_of};
use arrow_spec::IpcError;
use case_words::{Answer, rest, word};
use ipc_append::{StreamMetadata, StreamReader, StreamState, read_stream_metadata};
use ipc_io::MemoryFeed;
use message_words::{
    Names, front, numbers_of, optional_count, optional_counts, say_batch, say_pairs,
};

/// The bytes of `PARTS`, the first `count N` of them, in pulls of at most `most N`, of which `fails N,..` fail.
fn feed_of(answer: &Answer, names: &Names, words: &[&str]) -> MemoryFeed {
    let most = optional_count(answer, words, "most").unwrap_or(64).max(1);
    let failing = numbers_of(answer, words, "fails");
    let mut bytes = names.bytes_of(answer, front(words));
    if let Some(count) = optional_count(answer, words, "count") {
        bytes.truncate(count);
    }
    MemoryFeed::new(bytes, most, failing)
}

/// A reader of a feed, of `columns N,..` or of all.
fn reader_of(
    answer: &Answer,
    feed: MemoryFeed,
    words: &[&str],
) -> Result<StreamReader<MemoryFeed>, IpcError> {
    let mut feed = feed;
    let columns = optional_counts(answer, words, "columns");
    let metadata = read_stream_metadata(answer.alloc(), &mut feed)?;
    match StreamReader::new(answer.alloc(), feed, metadata, columns) {
        Ok(reader) => Ok(reader),
        Err(refused) => Err(refused.error),
    }
}

/// `stream_reader PARTS | OPTIONS`.
fn open(
    answer: &Answer,
    names: &Names,
    reader: &mut Option<StreamReader<MemoryFeed>>,
    words: &[&str],
) {
    let feed = feed_of(answer, names, words);
    match reader_of(answer, feed, words) {
        Ok(opened) => {
            let fields = opened.schema().len();
            let end = if opened.is_finished() {
                ", finished"
            } else {
                ""
            };
            answer.tell(format!(in answer.alloc(); "{fields} fields{end}"));
            *reader = Some(opened);
        }
        Err(error) => say_error(answer, error),
    }
}

/// What the next call gives, and whether the reader is finished behind it.
fn say_next(answer: &Answer, reader: &mut StreamReader<MemoryFeed>) {
    match reader.next() {
        None => answer.say("end"),
        Some(Ok(StreamState::Waiting)) => answer.say("waiting"),
        Some(Ok(StreamState::Some(batch))) => say_batch(answer, &batch),
        Some(Err(error)) => say_error(answer, error),
    }
    if reader.is_finished() {
        answer.say(", finished");
    }
}

/// What the first three calls give of a stream that ends behind so many bytes.
fn cut_text(answer: &Answer, bytes: &[u8], count: usize) -> String {
    let alloc = answer.alloc();
    let mut bytes = answer.list(bytes.to_vec(alloc));
    bytes.truncate(count);
    let three = Answer::new(alloc);
    match reader_of(&three, MemoryFeed::new(bytes, 64, Vec::new(alloc)), &[]) {
        Ok(opened) => {
            let mut reader = opened;
            say_next(&three, &mut reader);
            for _ in 0..2 {
                three.say("; ");
                say_next(&three, &mut reader);
            }
        }
        Err(error) => say_error(&three, error),
    }
    text_of(answer, three)
}

/// `cuts FROM TO PARTS`: what the first three calls give of the stream, wherever it ends between the two.
fn cuts(answer: &Answer, names: &Names, words: &[&str]) {
    let (from, to) = (answer.count(word(words, 0)), answer.count(word(words, 1)));
    let bytes = names.bytes_of(answer, rest(words, 2));
    let first = cut_text(answer, &bytes, from);
    answer.say(&first);
    for count in from..to {
        let text = cut_text(answer, &bytes, count);
        if text != first {
            answer.tell(format!(in answer.alloc(); ", but at {count} {text}"));
        }
    }
}

/// The pairs of the message of the schema, and of the schema, and whether a copy has the same schema.
fn say_metadata(answer: &Answer, metadata: &StreamMetadata) {
    let (fields, version) = (metadata.schema.len(), metadata.version);
    answer.tell(format!(in answer.alloc(); "{fields} fields, {version:?}, message "));
    say_pairs(answer, metadata.custom_metadata.as_ref());
    answer.say(", schema ");
    say_pairs(answer, metadata.custom_schema_metadata.as_ref());
    match metadata.try_clone(answer.alloc()) {
        Ok(copy) => {
            let is_copied = *copy.schema == *metadata.schema && copy.version == metadata.version;
            answer.tell(format!(in answer.alloc(); ", copied {is_copied}"));
        }
        Err(error) => answer.fail(error.into()),
    }
}

/// `stream_metadata PARTS`.
fn stream_metadata(answer: &Answer, names: &Names, words: &[&str]) {
    let mut feed = feed_of(answer, names, words);
    match read_stream_metadata(answer.alloc(), &mut feed) {
        Ok(metadata) => say_metadata(answer, &metadata),
        Err(error) => say_error(answer, error),
    }
}

/// Makes the call of a name, if it is one of these.
pub(crate) fn call(
    answer: &Answer,
    names: &Names,
    reader: &mut Option<StreamReader<MemoryFeed>>,
    name: &str,
    words: &[&str],
) -> bool {
    match name {
        "stream_reader" => open(answer, names, reader, words),
        "next" => match reader {
            Some(reader) => say_next(answer, reader),
            None => answer.refuse(),
        },
        "cuts" => cuts(answer, names, words),
        "stream_metadata" => stream_metadata(answer, names, words),
        _ => return false,
    }
    true
}
