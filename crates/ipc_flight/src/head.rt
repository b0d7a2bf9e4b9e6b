//! The schema's message with which a flight begins, and what kind of message follows (Message.fbs, Message).
ghost use Rattle.std.specs.Prelude.{◌≡◌, IfOk};
ghost use Rattle.ipc_fields.specs.Causes.{Decodes};
ghost use Rattle.ipc_streams.specs.Heads.{is_dictionary_tag, tag_of};
ghost use Rattle.ipc_streams.specs.Starts.{IsReadable, start_view};
ghost use Rattle.ipc_flight.specs.Firsts.{first_in};

use arrow_flat::Flat;
use arrow_spec::{FlatError, IpcError};
use ipc_streams::{StreamMetadata, beginning_in};
use std::alloc::Global;

/// What the metadata of a schema's message says.
pub(crate) fn read_first(alloc: Global, bytes: &[u8]) -> Result<StreamMetadata, IpcError>
    ensures gives { Decodes start_view result (first_in bytes.now) }
    ensures readable { IfOk result IsReadable }
{
    let beginning = beginning_in(alloc, bytes)?;
    Ok(beginning.metadata)
}

/// The tag of a message's header.
#[tactic(auto, unfolding(arrow_spec::specs::Readings::bind))]
fn tag_in(bytes: &[u8]) -> Result<u8, FlatError>
    ensures { result ≡ tag_of bytes.now }
{
    let table = Flat::root(bytes)?;
    table.slot_u8(1, 0)
}

/// Whether the tag of a message's header is a dictionary's.
pub(crate) fn is_dictionary(bytes: &[u8]) -> bool
    ensures { result ≡ is_dictionary_tag (tag_of bytes.now) }
{
    match tag_in(bytes) {
        Ok(tag) => tag == 2,
        Err(_) => false,
    }
}
