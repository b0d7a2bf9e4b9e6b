//! Messages that are encoded.
ghost use Rattle.std.specs.Prelude.{◌≡◌};

use crate::made::Made;
use crate::sent::is_keyed;
use crate::writers::write_options;
use arrow_arrays::{Array, RecordBatch};
use arrow_spec::IpcError;
use case_words::{Answer, rest, word};
use ipc_append::{EncodedData, WriteOptions, message_to_bytes};
use ipc_fields::IpcField;
use ipc_stream_writer::{
    DictionaryTracker, encode_chunk, encode_chunk_amortized, encode_dictionary,
    encode_new_dictionaries,
};
use message_words::{any_array, ids_of};
use std::alloc::Global;

/// Messages in their frames, one behind another.
fn framed(answer: &Answer, messages: &[EncodedData]) -> Vec<u8> {
    let mut bytes = Vec::new(answer.alloc());
    for message in messages {
        match message_to_bytes(answer.alloc(), &message.ipc_message, &message.arrow_data) {
            Ok(framed) => answer.done(bytes.extend_from_slice(&framed)),
            Err(error) => answer.fail(error.into()),
        }
    }
    bytes
}

/// `encode_new OPTIONS ARRAY ids ID`.
fn encode_new(
    answer: &Answer,
    tracker: &mut DictionaryTracker,
    arrays: &mut Vec<Array>,
    words: &[&str],
) -> Vec<EncodedData> {
    let options = write_options(answer, words);
    let fields = ids_of(answer, words);
    let array = any_array(answer, arrays, words);
    let mut encoded = Vec::new(answer.alloc());
    match (fields.as_deref(), &array) {
        (Some([field]), Some(array)) if tracker.deltas == options.deltas => {
            answer.done(encode_new_dictionaries(
                answer.alloc(),
                field,
                array,
                &options,
                tracker,
                &mut encoded,
            ))
        }
        _ => answer.refuse(),
    }
    encoded
}

/// `encode_dictionary ID OPTIONS ARRAY`.
fn encode_whole(answer: &Answer, arrays: &mut Vec<Array>, words: &[&str]) -> Vec<EncodedData> {
    let id = answer.long(word(words, 0));
    let options = write_options(answer, words);
    let mut encoded = Vec::new(answer.alloc());
    match any_array(answer, arrays, rest(words, 1)) {
        Some(array) if is_keyed(&array) => {
            answer.done(encode_dictionary(answer.alloc(), id, &array, &options, &mut encoded))
        }
        _ => answer.refuse(),
    }
    encoded
}

/// What `encode_chunk` gives, by the call that takes a message in place.
fn encode_in_place(
    alloc: Global,
    batch: &RecordBatch,
    fields: &[IpcField],
    tracker: &mut DictionaryTracker,
    options: &WriteOptions,
) -> Result<(Vec<EncodedData>, EncodedData), IpcError>
    requires { tracker.old.deltas ≡ options.now.deltas }
{
    let mut message = EncodedData::new(alloc);
    match encode_chunk_amortized(alloc, batch, fields, tracker, options, &mut message) {
        Ok(messages) => Ok((messages, message)),
        Err(error) => Err(error),
    }
}

/// `encode_chunk OPTIONS ids IDS`, or `encode_chunk_amortized`, of the batch.
fn encode_batch(
    answer: &Answer,
    tracker: &mut DictionaryTracker,
    batch: &RecordBatch,
    words: &[&str],
    is_in_place: bool,
) -> Vec<EncodedData> {
    let options = write_options(answer, words);
    let fields = ids_of(answer, words);
    let fields = fields.as_deref().unwrap_or_default();
    if tracker.deltas != options.deltas {
        answer.refuse();
        return Vec::new(answer.alloc());
    }
    let encoded = if is_in_place {
        encode_in_place(answer.alloc(), batch, fields, tracker, &options)
    } else {
        encode_chunk(answer.alloc(), batch, fields, tracker, &options)
    };
    match encoded {
        Ok((mut messages, message)) => {
            answer.done(messages.push(message));
            messages
        }
        Err(error) => {
            answer.fail(error.into());
            Vec::new(answer.alloc())
        }
    }
}

/// Makes the call of a name, if it is one of these.
pub(crate) fn call(
    answer: &Answer,
    tracker: &mut DictionaryTracker,
    made: &mut Made,
    bytes: &mut Vec<u8>,
    name: &str,
    words: &[&str],
) -> bool {
    let messages = match (name, &made.batch) {
        ("encode_new", _) => encode_new(answer, tracker, &mut made.arrays, words),
        ("encode_dictionary", _) => encode_whole(answer, &mut made.arrays, words),
        ("encode_chunk", Some(batch)) => encode_batch(answer, tracker, batch, words, false),
        ("encode_chunk_amortized", Some(batch)) => {
            encode_batch(answer, tracker, batch, words, true)
        }
        _ => return false,
    };
    if answer.is_well() {
        let count = messages.len();
        answer.tell(format!(in answer.alloc(); "{count} messages"));
        *bytes = framed(answer, &messages);
    }
    true
}
