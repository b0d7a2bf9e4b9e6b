//! The pairs of the message with which a stream begins.
ghost use Rattle.std.specs.Prelude.{◌≡◌};
ghost use Rattle.ipc_fields.specs.IpcFields.{metadata_in, metadata_of};
ghost use Rattle.ipc_write.specs.Below.{PairsAscend};

use arrow_types::Metadata;

/// The pairs that a stream begins with (Schema.fbs, Schema: custom_metadata; Message.fbs, Message: custom_metadata).
#[derive(Drop)]
pub struct StreamPairs {
    /// Those of the schema.
    pub schema: Option<Metadata>,
    /// Those of its message.
    pub message: Option<Metadata>,
}

/// The pairs, where there are any.
pub fn lent(pairs: &Option<Metadata>) -> Option<&Metadata>
    ensures { metadata_in result ≡ metadata_of pairs.now }
{
    match pairs {
        None => None,
        Some(pairs) => Some(pairs),
    }
}

/// What a map holds are texts, and they ascend by their keys.
pub(crate) fn are_pairs(pairs: Option<&Metadata>)
    ensures { PairsAscend (metadata_in pairs.entry) }
{
    if let Some(pairs) = pairs {
        let _ = pairs.len();
    }
}
