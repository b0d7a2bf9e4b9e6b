//! Values of dictionaries to messages, one after another.
ghost use Rattle.std.specs.Prelude.{◌≡◌, map, false};
ghost use Rattle.arrow_arrays.specs.PartsOf.{parts_of, forest_of};
ghost use Rattle.ipc_dictionaries.specs.NewDictionaries.{message_of};
ghost use Rattle.ipc_dictionaries.specs.Walks.{to_send};
ghost use Rattle.ipc_messages.specs.Encoded.{AddsOne, AddsEach, EncodesEach, is_passed, messages_of};

use arrow_arrays::Array;
use arrow_spec::IpcError;
use ipc_dictionaries::ToEncode;
use ipc_write::{EncodedData, WriteOptions, encode_any_values};
use std::alloc::Global;

/// Adds the message of an array as values under an id.
fn add_message(
    alloc: Global,
    id: i64,
    values: &Array,
    is_delta: bool,
    options: &WriteOptions,
    encoded: &mut Vec<EncodedData>,
) -> Result<(), IpcError>
    ensures { AddsOne result options.now (message_of id is_delta (parts_of values.now)) encoded.old.items encoded.new.items }
{
    let message = encode_any_values(alloc, id, values, is_delta, options)?;
    encoded.push(message)?;
    Ok(())
}

/// The messages of dictionary batches, in order.
pub(crate) fn encode_messages(
    alloc: Global,
    messages: &[ToEncode],
    options: &WriteOptions,
) -> Result<Vec<EncodedData>, IpcError>
    ensures { EncodesEach result options.now (map to_send messages.now) }
{
    let mut encoded = Vec::new(alloc);
    for message in messages {
        let id = message.id;
        let is_delta = message.is_delta;
        add_message(alloc, id, &message.values, is_delta, options, &mut encoded)?;
    }
    Ok(encoded)
}

/// Whether a part that goes on with others has no rows, so that no message is made of it.
fn is_passed(is_delta: bool, part: &Array) -> bool
    ensures { result ≡ is_passed is_delta (parts_of part.now) }
{
    is_delta && part.len() == 0
}

/// The messages of a dictionary's parts under an id: the first part as its values, each other that has rows as more of them.
pub(crate) fn encode_parts(
    alloc: Global,
    id: i64,
    parts: &[Array],
    options: &WriteOptions,
) -> Result<Vec<EncodedData>, IpcError>
    ensures { EncodesEach result options.now (messages_of id false (forest_of parts.now)) }
{
    let mut encoded = Vec::new(alloc);
    let mut is_delta = false;
    for part in parts {
        if is_passed(is_delta, part) {
            continue;
        }
        add_message(alloc, id, part, is_delta, options, &mut encoded)?;
        is_delta = true;
    }
    Ok(encoded)
}

/// Adds the messages of dictionary batches behind a list.
pub(crate) fn add_messages(
    alloc: Global,
    messages: &[ToEncode],
    options: &WriteOptions,
    encoded: &mut Vec<EncodedData>,
) -> Result<(), IpcError>
    ensures { AddsEach result options.now (map to_send messages.now) encoded.old.items encoded.new.items }
{
    let mut more = encode_messages(alloc, messages, options)?;
    encoded.append(&mut more)?;
    Ok(())
}

/// Adds the messages of a dictionary's parts behind a list.
pub(crate) fn add_parts(
    alloc: Global,
    id: i64,
    parts: &[Array],
    options: &WriteOptions,
    encoded: &mut Vec<EncodedData>,
) -> Result<(), IpcError>
    ensures { AddsEach result options.now (messages_of id false (forest_of parts.now)) encoded.old.items encoded.new.items }
{
    let mut more = encode_parts(alloc, id, parts, options)?;
    encoded.append(&mut more)?;
    Ok(())
}
