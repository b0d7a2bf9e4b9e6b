//! Messages with their prefix and padding, whose bodies stay where they are.
ghost use Rattle.std.specs.Prelude.{◌++◌, ◌∷◌, []};
ghost use Rattle.ipc_messages.specs.Framed.{FramesEach, FramesOne};

use crate::framed_message::FramedMessage;
use arrow_spec::IpcError;
use ipc_write::{EncodedData, message_to_bytes};
use std::alloc::Global;

/// A message with its front.
fn framed<'a>(
    alloc: Global,
    encoded: &'a EncodedData,
    limit: usize,
) -> Result<FramedMessage<'a>, IpcError>
    ensures { FramesOne result limit encoded.now }
{
    let metadata = encoded.ipc_message.as_slice();
    if metadata.len().next_multiple_of(8) > limit {
        return Err(IpcError::TooLarge);
    }
    let front = message_to_bytes(alloc, metadata, &[])?;
    Ok(FramedMessage {
        front,
        body: encoded.arrow_data.as_slice(),
    })
}

/// Messages with their fronts, in order.
fn framed_each<'a>(
    alloc: Global,
    messages: &'a [EncodedData],
    limit: usize,
) -> Result<Vec<FramedMessage<'a>>, IpcError>
    ensures { FramesEach result limit messages.now }
{
    let mut each = Vec::new(alloc);
    for encoded in messages {
        each.push(framed(alloc, encoded, limit)?)?;
    }
    Ok(each)
}

/// The messages of dictionaries, and of the batch behind them, with their fronts.
///
/// # Errors
///
/// `TooLarge` where the padded metadata of one passes the limit, or 2^31 - 1 bytes; `Memory`.
pub fn framed_chunk<'a>(
    alloc: Global,
    dictionaries: &'a [EncodedData],
    batch: &'a EncodedData,
    limit: usize,
) -> Result<Vec<FramedMessage<'a>>, IpcError>
    ensures { FramesEach result limit (dictionaries.now ++ batch.now ∷ []) }
{
    let mut each = framed_each(alloc, dictionaries, limit)?;
    each.push(framed(alloc, batch, limit)?)?;
    Ok(each)
}
