//! The outside over readers and writers.
use ipc_schema::{Failed, Feed, PutError, Sink};
use ipc_system::{InputFeed, OutputSink};
use std::alloc::Global;
use std::io::{self, ErrorKind, Read, Write};
use std::test::Fail;

/// A reader or a writer that answers an error once, after so many calls.
#[derive(Drop)]
struct Halting<T> {
    inner: T,
    before: Option<u64>,
    kind: ErrorKind,
}

impl<T> Halting<T> {
    fn turn(&mut self) -> io::Result<()> {
        if self.before == Some(0) {
            self.before = None;
            return Err(io::Error::from(self.kind));
        }
        self.before = self.before.map(|calls| calls.saturating_sub(1));
        Ok(())
    }
}

impl<T: Read> Read for Halting<T> {
    fn read(&mut self, out: &mut [u8]) -> io::Result<usize> {
        self.turn()?;
        self.inner.read(out)
    }
}

/// It takes at most two bytes a call.
impl<T: Write> Write for Halting<T> {
    fn write(&mut self, bytes: &[u8]) -> io::Result<usize> {
        self.turn()?;
        let count = bytes.len().min(2);
        self.inner.write(&bytes[..count])
    }

    fn flush(&mut self) -> io::Result<()> {
        Ok(())
    }
}

#[test]
fn a_feed_reads_its_reader(rt: HostRuntime) -> Result<(), Fail> {
    let mut feed = InputFeed::new(b"abcde".as_slice());
    let mut out = [0; 3];
    let cases = [b"abc".as_slice(), b"de".as_slice(), b"".as_slice()];
    for want in cases {
        let count = feed.pull(&mut out)?;
        assert!(rt; &out[..count] == want);
    }
    Ok(())
}

#[test]
fn a_sink_writes_to_its_writer(rt: HostRuntime) -> Result<(), Fail> {
    let mut bytes = Vec::new(rt.alloc());
    let mut sink = OutputSink::new(&mut bytes);
    sink.put(b"abc")?;
    sink.put(b"de")?;
    assert!(rt; bytes.as_slice() == b"abcde".as_slice());
    Ok(())
}

/// The bytes that the second pull gives, of a reader that is halted after so many calls by an error of a kind.
fn second_pull(before: u64, kind: ErrorKind) -> Result<[u8; 2], Failed> {
    let inner = b"abcd".as_slice();
    let before = Some(before);
    let mut feed = InputFeed::new(Halting {
        inner,
        before,
        kind,
    });
    let mut out = [0; 2];
    feed.pull(&mut out)?;
    feed.pull(&mut out)?;
    Ok(out)
}

#[test]
fn a_read_that_is_interrupted_is_begun_again(rt: HostRuntime) {
    for (before, kind, answer) in [
        (0, ErrorKind::Interrupted, Ok(*b"cd")),
        (1, ErrorKind::Interrupted, Ok(*b"cd")),
        (0, ErrorKind::Other, Err(Failed)),
        (1, ErrorKind::Other, Err(Failed)),
    ] {
        assert!(rt; second_pull(before, kind) == answer);
    }
}

/// Whether putting five bytes has this answer, and writes these, where the writer is halted after so many calls by an error of a kind.
fn puts(
    alloc: Global,
    halted: (u64, ErrorKind),
    answer: Result<(), PutError>,
    want: &[u8],
) -> bool {
    let mut bytes = Vec::new(alloc);
    let mut sink = OutputSink::new(Halting {
        inner: &mut bytes,
        before: Some(halted.0),
        kind: halted.1,
    });
    let has_answer = sink.put(b"abcde") == answer;
    has_answer && bytes.as_slice() == want
}

#[test]
fn a_write_that_is_interrupted_is_begun_again(rt: HostRuntime) {
    let failed = Err(PutError::Failed);
    assert!(rt; puts(rt.alloc(), (0, ErrorKind::Interrupted), Ok(()), b"abcde"));
    assert!(rt; puts(rt.alloc(), (1, ErrorKind::Interrupted), Ok(()), b"abcde"));
    assert!(rt; puts(rt.alloc(), (0, ErrorKind::Other), failed, b""));
    assert!(rt; puts(rt.alloc(), (1, ErrorKind::Other), failed, b"ab"));
}
