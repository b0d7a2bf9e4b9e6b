//! What a stream begins with (Arrow Columnar Format, "IPC Streaming Format", "Schema message").
ghost use Rattle.std.specs.Prelude.{◌≡◌, IfOk, IfErr};
ghost use Rattle.std.specs.Rc.{rc_value};
ghost use Rattle.ipc_io.specs.Outside.{LeavesFaults};
ghost use Rattle.ipc_fields.specs.Causes.{Decodes};
ghost use Rattle.ipc_files.specs.FileViews.{FileCause};
ghost use Rattle.ipc_streams.specs.Feeds.{FeedKept};
ghost use Rattle.ipc_streams.specs.Starts.{GivesFirst, GivesStart, IsReadable, MayBeWritten, head_in, head_view, start_view};

use crate::body::read_body;
use crate::frame::{Frame, read_frame};
use arrow_spec::{IpcError, MetadataVersion, OutOfSpecKind};
use arrow_types::{ArrowSchemaRef, Metadata};
use ipc_fields::copy_if_any;
use ipc_files::{IpcSchema, message_metadata, read_schema};
use ipc_io::Feed;
use schema_reader::message::{Expected, read_message, read_version};
use std::alloc::{AllocError, Global};
use std::rc::Rc;

/// The schema with its IPC schema and its metadata, the metadata of the schema's message, and the message's version.
#[derive(Drop)]
pub struct StreamMetadata {
    /// The schema.
    pub schema: ArrowSchemaRef,
    /// The ids of its dictionaries, and the byte order.
    pub ipc_schema: IpcSchema,
    /// The schema's pairs, where it has any.
    pub custom_schema_metadata: Option<Metadata>,
    /// The pairs of the schema's message, where it has any.
    pub custom_metadata: Option<Metadata>,
    /// The version of the schema's message.
    pub version: MetadataVersion,
}

impl StreamMetadata {
    /// A copy, which shares the schema.
    pub fn try_clone(&self, alloc: Global) -> Result<StreamMetadata, AllocError>
        ensures view { IfOk result (λ m. start_view m ≡ start_view self.now) }
        ensures schema { IfOk result (λ m. rc_value m.schema ≡ rc_value self.now.schema) }
        ensures readable { IsReadable self.now → IfOk result IsReadable }
    {
        Ok(StreamMetadata {
            schema: self.schema.clone()?,
            ipc_schema: self.ipc_schema.try_clone(alloc)?,
            custom_schema_metadata: copy_if_any(alloc, &self.custom_schema_metadata)?,
            custom_metadata: copy_if_any(alloc, &self.custom_metadata)?,
            version: self.version,
        })
    }
}

/// The metadata of a stream, and how many bytes the body of its schema message has.
#[derive(Drop)]
pub struct Beginning {
    /// What the message says.
    pub metadata: StreamMetadata,
    /// The length of its body.
    pub body: u64,
}

/// What the metadata of a schema message says.
///
/// # Errors
///
/// `OutOfSpec` with the kind of the part of the message or the schema that is not as the format says, `Unsupported`, `TooDeep`,
/// `TooMany`, `Memory`.
#[tactic(auto, unfolding(arrow_spec::specs::Readings::bind, arrow_spec::specs::Streams::stream_head, arrow_spec::specs::Messages::version_of, crate::specs::Starts::head_in))]
pub fn beginning_in(alloc: Global, bytes: &[u8]) -> Result<Beginning, IpcError>
    ensures gives { Decodes head_view result (head_in bytes.now) }
    ensures readable { IfOk result (λ x. IsReadable x.metadata) }
    ensures may { IfOk result (λ x. MayBeWritten x.metadata) }
{
    let message = read_message(bytes, Expected::Schema)?;
    let version = read_version(&message.table)?;
    let custom_metadata = message_metadata(alloc, bytes)?;
    let (schema, ipc_schema, custom_schema_metadata) = read_schema(alloc, &message.header)?;
    let metadata = StreamMetadata {
        schema: Rc::new(alloc, schema)?,
        ipc_schema,
        custom_schema_metadata,
        custom_metadata,
        version,
    };
    Ok(Beginning {
        metadata,
        body: message.body,
    })
}

/// The metadata of the first message.
fn read_first<F: Feed>(alloc: Global, feed: &mut F) -> Result<Vec<u8>, IpcError>
    ensures gives { GivesFirst (F.rest feed.old) (F.rest feed.new) result }
    ensures cause { IfErr result (λ e. FileCause e (F.faults feed.old) (F.faults feed.new)) }
    ensures faults_stay { LeavesFaults (F.faults feed.old) (F.faults feed.new) result }
    ensures kept { FeedKept F.faults F.references feed.old feed.new }
{
    let frame = read_frame(alloc, feed)?;
    match frame {
        Frame::Message(bytes) => Ok(bytes),
        Frame::Waiting => Err(IpcError::OutOfSpec(OutOfSpecKind::MissingSchema)),
        Frame::Ended => Err(IpcError::OutOfSpec(OutOfSpecKind::MissingSchema)),
    }
}

/// Reads the schema message with which a stream begins, and passes over its body.
///
/// # Errors
///
/// `MissingSchema` where no message begins, `Truncated` where the bytes end inside the message, `OutOfSpec` with the kind
/// of the part of the message or the schema that is not as the format says, `Unsupported`, `TooDeep`, `TooMany`,
/// `ReadFault`, `Memory`.
pub fn read_stream_metadata<F: Feed>(
    alloc: Global,
    feed: &mut F,
) -> Result<StreamMetadata, IpcError>
    ensures gives { GivesStart (F.rest feed.old) (F.rest feed.new) result }
    ensures readable { IfOk result IsReadable }
    ensures may { IfOk result MayBeWritten }
    ensures cause { IfErr result (λ e. FileCause e (F.faults feed.old) (F.faults feed.new)) }
    ensures faults_stay { LeavesFaults (F.faults feed.old) (F.faults feed.new) result }
    ensures kept { FeedKept F.faults F.references feed.old feed.new }
{
    let bytes = read_first(alloc, feed)?;
    let beginning = beginning_in(alloc, &bytes)?;
    read_body(alloc, feed, beginning.body)?;
    Ok(beginning.metadata)
}
