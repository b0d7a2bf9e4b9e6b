//! Buffers of bodies, and bodies of buffers.
use crate::buffers::some_bits;
use arrow_buffers::{Buffer, rise_within};
use arrow_types::{Offset, months_days_ns};
use case_words::{
    Answer, bytes, bytes_buffer, items, rest, say_body, say_buffers, say_bytes, word,
};
use ipc_bodies::{BodyBuffer, append_body, append_places, body_end, put_body};
use ipc_io::MemorySink;
use std::rc::RcSlice;

/// Offsets that rise up to a limit, from 0.
fn rising<O: Offset>(
    answer: &Answer,
    offsets: Option<Buffer<O>>,
    limit: usize,
    is_little_endian: bool,
) -> Option<BodyBuffer> {
    let offsets = offsets?;
    if !rise_within(&offsets, limit) {
        return None;
    }
    answer.value(BodyBuffer::of_offsets(&offsets, limit, is_little_endian))
}

/// Offsets that are held in big-endian order.
fn big_offsets(answer: &Answer, word: &str) -> Option<Buffer<i32>> {
    let bytes = answer.value(RcSlice::from_vec(bytes(answer, word)))?;
    let count = bytes.len() / 4;
    Some(Buffer::shared(bytes, 0, count, true))
}

/// `offsets LISTED LIMIT`, of a width and an order in which they are held.
fn offsets(
    answer: &Answer,
    kind: &str,
    words: &[&str],
    is_little_endian: bool,
) -> Option<BodyBuffer> {
    let (listed, limit) = (word(words, 0), answer.count(word(words, 1)));
    match kind {
        "offsets" => rising(
            answer,
            items::<i32>(answer, listed),
            limit,
            is_little_endian,
        ),
        "large_offsets" => rising(
            answer,
            items::<i64>(answer, listed),
            limit,
            is_little_endian,
        ),
        "big_offsets" => rising(answer, big_offsets(answer, listed), limit, is_little_endian),
        _ => None,
    }
}

/// `ORDER KIND WORDS`.
fn buffer(answer: &Answer, words: &[&str]) -> Option<BodyBuffer> {
    let (is_little_endian, kind) = (word(words, 0) == "little", word(words, 1));
    let words = rest(words, 2);
    let listed = word(words, 0);
    match kind {
        "none" => answer.value(BodyBuffer::of_validity(None)),
        "bits" => answer.value(BodyBuffer::of_bits(&some_bits(answer, words)?)),
        "bytes" => answer.value(BodyBuffer::of_bytes(&bytes_buffer(answer, listed)?)),
        "i16" => {
            let numbers = items::<i16>(answer, listed)?;
            answer.value(BodyBuffer::of_numbers(&numbers, is_little_endian))
        }
        "months" => {
            let numbers = items::<months_days_ns>(answer, listed)?;
            answer.value(BodyBuffer::of_numbers(&numbers, is_little_endian))
        }
        _ => offsets(answer, kind, words, is_little_endian),
    }
}

fn endless(answer: &Answer) -> MemorySink {
    MemorySink::new(answer.alloc(), None, Vec::new(answer.alloc()))
}

/// The bytes as they are appended, if they are put through a scratch of 64 bytes as the same.
fn say_buffer(answer: &Answer, buffer: &BodyBuffer) {
    if buffer.is_empty() {
        return answer.say("empty");
    }
    let (mut bytes, mut sink) = (Vec::new(answer.alloc()), endless(answer));
    answer.done(buffer.append(&mut bytes));
    answer.done(buffer.put(&mut sink, &mut [0xff; 64]));
    if sink.bytes() == bytes.as_slice() {
        say_bytes(answer, &bytes);
    } else {
        answer.say("other bytes are put");
    }
}

fn keep(answer: &Answer, buffers: &mut Vec<BodyBuffer>, words: &[&str]) {
    match buffer(answer, words) {
        Some(buffer) => {
            say_buffer(answer, &buffer);
            answer.done(buffers.push(buffer));
        }
        None => answer.refuse(),
    }
}

fn body(answer: &Answer, buffers: &[BodyBuffer]) {
    let mut body = Vec::new(answer.alloc());
    answer.done(append_body(buffers, &mut body));
    say_body(answer, &body);
}

/// `put ROOM`, or `put` without an end: whether all is put, and what is.
fn put(answer: &Answer, buffers: &[BodyBuffer], words: &[&str]) {
    let room = match words.first() {
        Some(word) => Some(answer.count(*word)),
        None => None,
    };
    let mut sink = MemorySink::new(answer.alloc(), room, Vec::new(answer.alloc()));
    let is_put = put_body(&mut sink, buffers, &mut [0xff; 64]).is_ok();
    answer.say(if is_put { "all: " } else { "not all: " });
    say_body(answer, sink.bytes());
}

/// `end AT`: where the body of the buffers ends.
fn end(answer: &Answer, buffers: &[BodyBuffer], words: &[&str]) {
    match body_end(answer.count(word(words, 0)), buffers) {
        Some(end) => answer.tell(format!(in answer.alloc(); "{end}")),
        None => answer.say("none"),
    }
}

/// `places AT`: where the buffers of a body from one place on stand.
fn places(answer: &Answer, buffers: &[BodyBuffer], words: &[&str]) {
    let at = answer.count(word(words, 0));
    if body_end(at, buffers).is_none() {
        return answer.refuse();
    }
    let mut places = Vec::new(answer.alloc());
    answer.done(append_places(at, buffers, &mut places));
    say_buffers(answer, &places);
}

/// Makes a call of this part, or tells that there is none of the name.
pub fn call(answer: &Answer, buffers: &mut Vec<BodyBuffer>, name: &str, words: &[&str]) -> bool {
    match name {
        "buffer" => keep(answer, buffers, words),
        "body_of" => body(answer, buffers),
        "put" => put(answer, buffers, words),
        "end" => end(answer, buffers, words),
        "places" => places(answer, buffers, words),
        _ => return false,
    }
    true
}
