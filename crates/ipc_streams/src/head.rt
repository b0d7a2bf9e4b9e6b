//! The heads of messages in a stream (Message.fbs, Message).
ghost use Rattle.std.specs.Prelude.{◌≡◌};
ghost use Rattle.arrow_spec.specs.Messages.{message_of};
ghost use Rattle.ipc_fields.specs.Causes.{Decodes};
ghost use Rattle.schema_reader.specs.Messages.{taken_by};
ghost use Rattle.ipc_streams.specs.Heads.{head_of_message, is_dictionary_tag, is_taken, tag_of};

use arrow_flat::Flat;
use arrow_spec::{FlatError, IpcError};
use schema_reader::message::{Expected, read_message};

/// Whether a message is a dictionary, or else a record batch, and how many bytes its body has.
#[derive(Clone, Copy)]
pub(crate) struct Head {
    pub(crate) is_dictionary: bool,
    pub(crate) body: u64,
}

/// The tag of a message's header.
#[tactic(auto, unfolding(arrow_spec::specs::Readings::bind))]
fn tag_in(bytes: &[u8]) -> Result<u8, FlatError>
    ensures { result ≡ tag_of bytes.now }
{
    let table = Flat::root(bytes)?;
    table.slot_u8(1, 0)
}

/// Whether the tag of a message's header is a dictionary's.
fn is_dictionary(bytes: &[u8]) -> bool
    ensures { result ≡ is_dictionary_tag (tag_of bytes.now) }
{
    match tag_in(bytes) {
        Ok(tag) => tag == 2,
        Err(_) => false,
    }
}

/// The header that a message is to have: a dictionary where its tag says so, and else a batch.
fn expected_in(bytes: &[u8]) -> Expected
    ensures { message_of bytes.now (taken_by result) ≡ message_of bytes.now is_taken }
{
    if is_dictionary(bytes) {
        Expected::Dictionary
    } else {
        Expected::Batch
    }
}

/// The head of a message, by its metadata.
pub(crate) fn read_head(bytes: &[u8]) -> Result<Head, IpcError>
    ensures gives { Decodes (λ h. h) result (head_of_message bytes.now) }
{
    let message = read_message(bytes, expected_in(bytes))?;
    Ok(Head {
        is_dictionary: message.tag == 2,
        body: message.body,
    })
}
