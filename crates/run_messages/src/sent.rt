//! What is to be sent of dictionaries, and as which messages.
ghost use Rattle.std.specs.Prelude.{◌≡◌, true};
ghost use Rattle.arrow_arrays.specs.PartsOf.{parts_of};
ghost use Rattle.ipc_stream_writer.specs.Below.{is_indexed};

use crate::said::say_error;
use arrow_arrays::Array;
use case_words::{Answer, rest, word};
use ipc_stream_writer::{DictionaryTracker, ToEncode, dictionaries_to_encode, new_dictionaries};
use message_words::{any_array, has, ids_of, say_values};

/// Under how many ids there are dictionaries.
fn say_held(answer: &Answer, tracker: &DictionaryTracker) {
    let count = tracker.dictionaries.len();
    answer.tell(format!(in answer.alloc(); "{count} held"));
}

/// Whether an array is a dictionary.
pub(crate) fn is_keyed(array: &Array) -> bool
    ensures { result ≡ is_indexed (parts_of array.now) }
{
    matches!(array, Array::Dictionary(_))
}

/// `insert ID ARRAY`: whether the values are new.
fn insert(answer: &Answer, tracker: &mut DictionaryTracker, id: i64, array: &Array)
    requires { is_indexed (parts_of array.now) ≡ true }
{
    match tracker.insert(answer.alloc(), id, array) {
        Ok(is_new) => answer.tell(format!(in answer.alloc(); "{is_new}")),
        Err(error) => say_error(answer, error),
    }
}

/// `delta_from ID ARRAY`: from which row on the values would be sent as a delta.
fn say_delta(answer: &Answer, tracker: &DictionaryTracker, id: i64, array: &Array)
    requires { is_indexed (parts_of array.now) ≡ true }
{
    match tracker.delta_from(id, array) {
        Some(start) => answer.tell(format!(in answer.alloc(); "{start}")),
        None => answer.say("none"),
    }
}

/// `insert ID ARRAY`, or `delta_from ID ARRAY`.
fn take_dictionary(
    answer: &Answer,
    tracker: &mut DictionaryTracker,
    arrays: &mut Vec<Array>,
    words: &[&str],
    is_inserted: bool,
) {
    let id = answer.long(word(words, 0));
    match any_array(answer, arrays, rest(words, 1)) {
        Some(array) if !is_keyed(&array) => answer.refuse(),
        Some(array) if is_inserted => insert(answer, tracker, id, &array),
        Some(array) => say_delta(answer, tracker, id, &array),
        None => answer.refuse(),
    }
}

/// `send ARRAY ids ID`.
fn send(answer: &Answer, tracker: &mut DictionaryTracker, arrays: &mut Vec<Array>, words: &[&str]) {
    let fields = ids_of(answer, words);
    let array = any_array(answer, arrays, words);
    let mut messages = Vec::new(answer.alloc());
    match (fields.as_deref(), &array) {
        (Some([field]), Some(array)) => {
            answer.done(dictionaries_to_encode(
                answer.alloc(),
                field,
                array,
                tracker,
                &mut messages,
            ));
            say_messages(answer, &messages);
        }
        _ => answer.refuse(),
    }
}

/// `send_all ids IDS`: of all arrays that were made.
fn send_all(answer: &Answer, tracker: &mut DictionaryTracker, arrays: &[Array], words: &[&str]) {
    let fields = ids_of(answer, words);
    let fields = fields.as_deref().unwrap_or_default();
    match new_dictionaries(answer.alloc(), fields, arrays, tracker) {
        Ok(new) => say_messages(answer, &new.messages),
        Err(error) => answer.fail(error.into()),
    }
}

/// Each message by its id, by `+` where it is a delta, and by its rows.
fn say_messages(answer: &Answer, messages: &[ToEncode]) {
    let mut is_first = true;
    for message in messages {
        let (id, sign) = (message.id, if message.is_delta { "+" } else { "" });
        if !is_first {
            answer.say("; ");
        }
        answer.tell(format!(in answer.alloc(); "{id}{sign}:"));
        say_values(answer, &message.values);
        is_first = false;
    }
}

/// Makes the call of a name, if it is one of these. A `tracker` that `keeps` refuses other values under an id, and one with `deltas`
/// sends deltas.
pub(crate) fn call(
    answer: &Answer,
    tracker: &mut DictionaryTracker,
    arrays: &mut Vec<Array>,
    name: &str,
    words: &[&str],
) -> bool {
    match name {
        "tracker" => {
            let (keeps, deltas) = (has(words, "keeps"), has(words, "deltas"));
            *tracker = DictionaryTracker::new(answer.alloc(), keeps, deltas);
            say_held(answer, tracker);
        }
        "held" => say_held(answer, tracker),
        "insert" => take_dictionary(answer, tracker, arrays, words, true),
        "delta_from" => take_dictionary(answer, tracker, arrays, words, false),
        "send" => send(answer, tracker, arrays, words),
        "send_all" => send_all(answer, tracker, arrays, words),
        _ => return false,
    }
    true
}
