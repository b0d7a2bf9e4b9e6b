//! Messages as they are framed, and batches as they are written within limits and in pieces.
use crate::written::batch_of;
use arrow_arrays::{Array, RecordBatch};
use case_words::{Answer, bytes, say_bytes, word};
use ipc_read::MemorySink;
use ipc_write::{
    BodyPlan, EncodedData, WriteOptions, encode_record_batch, plan_batch, put_body,
    write_continuation, write_message, write_plan,
};
use std::alloc::Global;

fn endless(alloc: Global) -> MemorySink {
    MemorySink::new(alloc, None, Vec::new(alloc))
}

/// `continuation LENGTH`.
fn continuation(answer: &Answer, words: &[&str]) {
    let Ok(length) = word(words, 0).parse::<i32>() else {
        return answer.refuse();
    };
    let mut sink = endless(answer.alloc());
    match write_continuation(&mut sink, length) {
        Ok(count) => {
            answer.tell(format!(in answer.alloc(); "{count}: "));
            say_bytes(answer, sink.bytes());
        }
        Err(error) => answer.fail(error.into()),
    }
}

/// `message METADATA BODY`.
fn message(answer: &Answer, words: &[&str]) {
    let encoded = EncodedData {
        ipc_message: bytes(answer, word(words, 0)),
        arrow_data: bytes(answer, word(words, 1)),
    };
    let mut sink = endless(answer.alloc());
    match write_message(&mut sink, &encoded) {
        Ok((metadata, body)) => {
            answer.tell(format!(in answer.alloc(); "{metadata}+{body}: "));
            say_bytes(answer, sink.bytes());
        }
        Err(error) => answer.fail(error.into()),
    }
}

/// What is there behind a batch with so much metadata at most, where 07 was there before it.
fn within(answer: &Answer, batch: &RecordBatch, limit: &str) {
    let options = WriteOptions {
        compression: None,
        metadata_limit: answer.count(limit),
        deltas: false,
    };
    let mut encoded = EncodedData::new(answer.alloc());
    answer.done(encoded.arrow_data.push(7));
    match encode_record_batch(answer.alloc(), batch, &options, &mut encoded) {
        Ok(()) => answer.say("done"),
        Err(error) => answer.tell(format!(in answer.alloc(); "{error}")),
    }
    answer.say(", ");
    say_bytes(answer, &encoded.arrow_data);
    answer.say(" is there");
}

/// Whether a plan is put as a message, with the same lengths told, and its body alone as that of the message.
fn is_planned(answer: &Answer, plan: &BodyPlan, encoded: &EncodedData) -> bool {
    let alloc = answer.alloc();
    let (mut whole, mut planned, mut body) = (endless(alloc), endless(alloc), endless(alloc));
    let mut scratch = [0xff; 64];
    let lengths = write_message(&mut whole, encoded);
    let planned_lengths = write_plan(&mut planned, plan, &mut scratch);
    answer.done(put_body(&mut body, plan.buffers.as_slice(), &mut scratch));
    lengths.is_ok()
        && lengths == planned_lengths
        && whole.bytes() == planned.bytes()
        && body.bytes() == encoded.arrow_data.as_slice()
        && plan.ipc_message.as_slice() == encoded.ipc_message.as_slice()
}

/// Whether a batch is put in pieces as its message, and how many buffers and bytes its body has.
fn in_pieces(answer: &Answer, batch: &RecordBatch) {
    let options = WriteOptions::default();
    let mut encoded = EncodedData::new(answer.alloc());
    answer.done(encode_record_batch(answer.alloc(), batch, &options, &mut encoded));
    match plan_batch(answer.alloc(), batch, &options) {
        Ok(plan) => {
            let is_planned = is_planned(answer, &plan, &encoded);
            let (count, length) = (plan.buffers.len(), plan.body_length);
            answer.tell(format!(in answer.alloc();
                "same {is_planned}, {count} buffers, body {length}"
            ));
        }
        Err(error) => answer.fail(error.into()),
    }
}

/// `encode_within LIMIT`, or `in_pieces`, of the batch of the last array.
fn of_last(answer: &Answer, arrays: &[Array], words: &[&str]) {
    let Some(array) = arrays.last() else {
        return answer.refuse();
    };
    match (batch_of(answer.alloc(), array), words.first()) {
        (Ok(batch), Some(limit)) => within(answer, &batch, *limit),
        (Ok(batch), None) => in_pieces(answer, &batch),
        (Err(fault), _) => answer.fail(fault),
    }
}

/// Makes a call of this part, or tells that there is none of the name.
pub(crate) fn call(answer: &Answer, arrays: &[Array], name: &str, words: &[&str]) -> bool {
    match name {
        "continuation" => continuation(answer, words),
        "message" => message(answer, words),
        "encode_within" | "in_pieces" => of_last(answer, arrays, words),
        _ => return false,
    }
    true
}
