//! The pairs of a footer.
ghost use Rattle.ipc_fields.specs.IpcFields.{metadata_in};
ghost use Rattle.schema_writer.specs.Texts.{PairsAscend};

use arrow_types::Metadata;

/// The pairs of a file's schema, and those of its footer (Schema.fbs, Schema: custom_metadata; File.fbs, Footer: custom_metadata).
#[derive(Drop)]
pub(crate) struct FilePairs {
    pub schema: Option<Metadata>,
    pub footer: Option<Metadata>,
}

/// What a map holds are texts, and they ascend by their keys.
pub(crate) fn are_pairs(pairs: Option<&Metadata>)
    ensures { PairsAscend (metadata_in pairs.entry) }
{
    if let Some(pairs) = pairs {
        let _ = pairs.len();
    }
}
