//! Files that become streams, and streams that are read call by call.
use crate::asked::{bytes, columns, limit};
use crate::shown::say_next;
use device_words::{Answer, Feed, Names, NotingSink, Outside, rest, word};
use ipc_tool::{IpcError, StreamReader, StreamState, read_stream_metadata, transcode};

/// How many batches, rows and bytes were put.
pub(crate) fn transcode_bytes(
    answer: &Answer,
    outside: &Outside,
    output: &mut NotingSink,
    bytes: Vec<u8>,
    words: &[&str],
) {
    let mut source = outside.source(answer, bytes);
    *output = outside.output(answer);
    let columns = columns(answer, words);
    let limit = limit(answer, words);
    match transcode(
        answer.alloc(),
        &mut source,
        output,
        columns.as_deref(),
        limit,
    ) {
        Ok(summary) => {
            let (batches, rows, bytes) = (summary.batches, summary.rows, summary.bytes);
            answer.tell(format!(in answer.alloc();
                "{batches} batches, {rows} rows, {bytes} bytes"
            ));
        }
        Err(error) => answer.fail(error.into()),
    }
}

/// `transcode ..`
pub(crate) fn transcode_words(
    answer: &Answer,
    known: &Names<u8>,
    outside: &Outside,
    output: &mut NotingSink,
    words: &[&str],
) {
    let bytes = bytes(answer, known, words);
    transcode_bytes(answer, outside, output, bytes, words);
}

fn say_state(answer: &Answer, next: Option<Result<StreamState, IpcError>>) {
    match next {
        None => say_next(answer, None),
        Some(Err(error)) => say_next(answer, Some(Err(error))),
        Some(Ok(StreamState::Some(batch))) => say_next(answer, Some(Ok(batch))),
        Some(Ok(StreamState::Waiting)) => answer.say("waiting"),
    }
}

/// What so many calls of the reader of a feed give, one to three, and whether it is finished then.
pub(crate) fn say_states<F: Feed + Drop>(
    answer: &Answer,
    mut feed: F,
    words: &[&str],
) -> Result<(), IpcError> {
    let metadata = read_stream_metadata(answer.alloc(), &mut feed)?;
    let columns = columns(answer, words);
    let mut reader = StreamReader::new(answer.alloc(), feed, metadata, columns)?;
    for call in 0..answer.count(word(words, 0)).max(1) {
        answer.say(if call > 0 { "\n" } else { "" });
        say_state(answer, reader.next());
    }
    answer.say("\n");
    answer.say(if reader.is_finished() {
        "finished"
    } else {
        "not finished"
    });
    Ok(())
}

/// What so many calls of a stream's reader give, one to three, and whether it is finished then.
pub(crate) fn read_bytes(answer: &Answer, outside: &Outside, bytes: Vec<u8>, words: &[&str]) {
    let feed = outside.feed(answer, bytes);
    let done = say_states(answer, feed, words);
    answer.done(done);
}

/// `stream CALLS ..`
pub(crate) fn read_stream(answer: &Answer, known: &Names<u8>, outside: &Outside, words: &[&str]) {
    let bytes = bytes(answer, known, rest(words, 1));
    read_bytes(answer, outside, bytes, words);
}
