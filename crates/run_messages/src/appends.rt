//! Files on a disk that go on behind their last batch.
use crate::said::{say_error, text_of};
use crate::writers::write_options;
use arrow_spec::IpcError;
use case_words::{Answer, rest, word};
use ipc_append::{WholeStream, WriteOptions, append_stream, read_whole};
use ipc_disk::MemoryDisk;
use ipc_io::MemoryFeed;
use message_words::{Names, front, numbers_of};

/// A file on a disk whose calls `fails N,..` fail, and that cannot be read at `places N,..`.
pub(crate) fn disk_of(answer: &Answer, bytes: Vec<u8>, words: &[&str]) -> MemoryDisk {
    let failing = numbers_of(answer, words, "fails");
    let places = numbers_of(answer, words, "places");
    MemoryDisk::new(bytes, failing, places)
}

fn stream_of(answer: &Answer, names: &Names, words: &[&str]) -> Result<WholeStream, IpcError> {
    let bytes = names.bytes_of(answer, front(words));
    let alloc = answer.alloc();
    read_whole(alloc, MemoryFeed::new(bytes, 100, Vec::new(alloc)))
}

fn say_appended(answer: &Answer, appended: Result<u64, IpcError>) {
    match appended {
        Ok(count) => answer.tell(format!(in answer.alloc(); "{count} batches")),
        Err(error) => say_error(answer, error),
    }
}

/// `append_stream PARTS | OPTIONS`: the stream's batches behind those of the file.
pub(crate) fn append_whole(
    answer: &Answer,
    names: &Names,
    bytes: &mut Vec<u8>,
    words: &[&str],
) -> Result<(), IpcError> {
    let stream = stream_of(answer, names, words)?;
    let options = write_options(answer, words);
    let file = answer.list(bytes.as_slice().to_vec(answer.alloc()));
    let mut disk = disk_of(answer, file, words);
    let appended = append_stream(answer.alloc(), &mut disk, &stream, options);
    *bytes = disk.into_bytes();
    say_appended(answer, appended);
    Ok(())
}

/// How the bytes stand to those before.
fn kept(before: &[u8], bytes: &[u8], below: usize) -> &'static str {
    if bytes == before {
        return "as it was";
    }
    match before.get(..below) {
        Some(front) if bytes.starts_with(front) => "as it was below",
        _ => "changed",
    }
}

/// What a stream's append answers where a call of the disk fails, and how the file stands behind it.
fn failing_text(
    answer: &Answer,
    before: &[u8],
    stream: &WholeStream,
    below: usize,
    call: u64,
) -> String {
    let alloc = answer.alloc();
    let failing = answer.list(vec![in alloc; call]);
    let bytes = answer.list(before.to_vec(alloc));
    let mut disk = MemoryDisk::new(bytes, failing, Vec::new(alloc));
    let one = Answer::new(alloc);
    say_appended(
        &one,
        append_stream(alloc, &mut disk, stream, WriteOptions::default()),
    );
    one.say(", ");
    one.say(kept(before, disk.bytes(), below));
    text_of(answer, one)
}

/// `append_failing BELOW PARTS`: what the append of a stream answers where the first call of the disk fails, the second and so on up
/// to one that is not made, each answer once, and how the file stands behind it: below a place, or all of it.
pub(crate) fn append_failing(
    answer: &Answer,
    names: &Names,
    bytes: &[u8],
    words: &[&str],
) -> Result<(), IpcError> {
    let below = answer.count(word(words, 0));
    let stream = stream_of(answer, names, rest(words, 1))?;
    let mut last = String::new(answer.alloc());
    let mut is_first = true;
    for call in 0..64 {
        let text = failing_text(answer, bytes, &stream, below, call);
        if text != last {
            if !is_first {
                answer.say("; ");
            }
            answer.say(&text);
            is_first = false;
        }
        last = text;
    }
    Ok(())
}
