//! The message of a stream's schema (Arrow Columnar Format, "Schema message").
ghost use Rattle.std.specs.Prelude.{◌≡◌, ◌≤◌, IfOk, length, true};
ghost use Rattle.arrow_spec.specs.Features.{floats_in};
ghost use Rattle.arrow_spec.specs.Laws.{AreBytes};
ghost use Rattle.arrow_types.specs.Schemas.{fields_in};
ghost use Rattle.ipc_fields.specs.IpcFields.{fields_with, ids_of, metadata_of};
ghost use Rattle.ipc_messages.specs.Fields.{given_ids};
ghost use Rattle.ipc_messages.specs.Schemas.{Begins, ChecksFeatures, GivesText, StartMayBeWritten, stream_text};

use crate::features::unsent_feature;
use crate::fields::fields_for;
use crate::pairs::{StreamPairs, are_pairs, lent};
use arrow_spec::{Feature, IpcError};
use arrow_types::ArrowSchema;
use ipc_fields::IpcField;
use ipc_write::{IpcSchema, WriteOptions, message_to_bytes, schema_message};
use std::alloc::Global;

/// The most bytes of a message's padded metadata.
const MOST_METADATA: usize = 0x7fff_ffff;

/// What a stream is begun with.
#[derive(Drop)]
pub struct StreamStart {
    /// A copy of the schema.
    pub schema: ArrowSchema,
    /// The ids of its dictionaries, a field for each column.
    pub fields: Vec<IpcField>,
    /// The bytes of its message, from the prefix on.
    pub message: Vec<u8>,
}

/// Refuses what no stream is written with, and fields that no array is of.
fn check_features(schema: &ArrowSchema, options: &WriteOptions) -> Result<(), IpcError>
    ensures { ChecksFeatures result options.now (floats_in (fields_in schema.now)) }
{
    if options.compression.is_some() {
        return Err(IpcError::Unsupported(Feature::Compression));
    }
    match unsent_feature(schema) {
        Some(feature) => Err(IpcError::Unsupported(feature)),
        None => Ok(()),
    }
}

/// What a slice of bytes holds are bytes.
fn are_bytes(bytes: &[u8])
    ensures { AreBytes bytes.now }
{
    let _ = bytes;
}

/// The bytes of the message of a schema, with the pairs of both.
///
/// # Errors
///
/// `Unsupported(Compression)` where compression is asked for; `Unsupported(Float)` and `Unsupported(Decimal256)` for fields of such
/// types, at any depth; `SchemaMismatch` and `NotRepresentable` as of `schema_to_bytes`; `TooLarge` where the padded metadata passes
/// its limit; `Memory`.
pub fn schema_text(
    alloc: Global,
    schema: &ArrowSchema,
    ipc_schema: &IpcSchema,
    pairs: &StreamPairs,
    options: &WriteOptions,
) -> Result<Vec<u8>, IpcError>
    requires order { ipc_schema.now.is_little_endian ≡ true }
    requires few { length (metadata_of pairs.now.message) ≤ 1048576 }
    ensures gives { GivesText result (stream_text options.now (fields_in schema.now) (ids_of ipc_schema.now.fields.items) pairs.now) }
    ensures may { IfOk result (λ _. StartMayBeWritten (fields_with (fields_in schema.now) (ids_of ipc_schema.now.fields.items)) pairs.now) }
{
    check_features(schema, options)?;
    let own = lent(&pairs.schema);
    let custom = lent(&pairs.message);
    are_pairs(custom);
    let metadata = schema_message(alloc, schema, ipc_schema, own, custom)?;
    are_bytes(metadata.as_slice());
    if metadata.len().next_multiple_of(8) > options.metadata_limit.min(MOST_METADATA) {
        return Err(IpcError::TooLarge);
    }
    message_to_bytes(alloc, metadata.as_slice(), &[])
}

/// What a stream of a schema is begun with, under the IPC fields that are given or under those whose ids count from 0.
///
/// # Errors
///
/// Those of `schema_text`.
pub fn stream_start(
    alloc: Global,
    schema: &ArrowSchema,
    given: Option<&[IpcField]>,
    pairs: &StreamPairs,
    options: &WriteOptions,
) -> Result<StreamStart, IpcError>
    requires few { length (metadata_of pairs.now.message) ≤ 1048576 }
    ensures { Begins result options.now schema.now (given_ids given.entry) pairs.now }
{
    let fields = fields_for(alloc, schema, given)?;
    let ipc_schema = IpcSchema {
        fields,
        is_little_endian: true,
    };
    let message = schema_text(alloc, schema, &ipc_schema, pairs, options)?;
    let schema = schema.try_clone(alloc)?;
    let IpcSchema { fields, .. } = ipc_schema;
    Ok(StreamStart {
        schema,
        fields,
        message,
    })
}
