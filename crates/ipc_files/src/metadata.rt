//! What a file's footer says (Arrow Columnar Format, "IPC File Format", File.fbs).
ghost use Rattle.std.specs.Prelude.{◌≡◌, ◌<◌, ◌^◌, true, length, None, IfOk, IfErr, IfSome};
ghost use Rattle.std.specs.Rc.{rc_value};
ghost use Rattle.arrow_spec.specs.Readings.{Gives, Refuses, refusals};
ghost use Rattle.arrow_spec.specs.Files.{Request, file_reading, footer_of, meta_in, meta_of, to_send};
ghost use Rattle.arrow_spec.specs.WrittenSchemas.{CustomMayBeWritten, IdsMayBeWritten, SchemaMayBeWritten};
ghost use Rattle.arrow_types.specs.Schemas.{fields_in};
ghost use Rattle.ipc_fields.specs.IpcFields.{have_shapes, ids_of, metadata_in, metadata_of};
ghost use Rattle.ipc_fields.specs.Causes.{Decodes};
ghost use Rattle.ipc_schema.specs.Footers.{footer_view, HasNaturalBlocks};
ghost use Rattle.ipc_files.specs.FileBlocks.{GivesIn};
ghost use Rattle.ipc_files.specs.FileViews.{file_custom, meta_view, FileCause, FileSays, IsReadable, WasRead};
ghost use Rattle.ipc_files.specs.Fetching.{FooterFetched};
ghost use Rattle.ipc_io.specs.Outside.{LeavesFaults, IsSize, SourceKept};
ghost use Rattle.ipc_files.specs.RowCounts.{CountCause};

use crate::fetch::fetch;
use arrow_spec::{Block, IpcError, OutOfSpecKind};
use arrow_types::{ArrowSchemaRef, Metadata};
use ipc_fields::copy_if_any;
use ipc_schema::{
    Footer, IpcSchema, Source, decode_footer_len, deserialize_schema_and_blocks, footer_metadata,
};
use std::alloc::{AllocError, Global};
use std::rc::Rc;

/// The schema with its IPC schema and its metadata, the footer's own pairs, the blocks of record batches and of dictionaries
/// in the footer's order, and the file's size in bytes.
#[derive(Drop)]
pub struct FileMetadata {
    /// The schema.
    pub schema: ArrowSchemaRef,
    /// The ids of its dictionaries, and the byte order.
    pub ipc_schema: IpcSchema,
    /// The schema's pairs, where it has any.
    pub custom_schema_metadata: Option<Metadata>,
    /// The footer's own pairs, where it has any and they were read.
    pub custom_metadata: Option<Metadata>,
    /// The blocks of record batches, in the order of the footer.
    pub blocks: Vec<Block>,
    /// The blocks of dictionary batches, in the order of the footer.
    pub dictionaries: Vec<Block>,
    /// The bytes of the file.
    pub size: u64,
}

impl FileMetadata {
    /// A copy, which shares the schema.
    pub fn try_clone(&self, alloc: Global) -> Result<FileMetadata, AllocError>
        ensures view { IfOk result (λ m. meta_view m ≡ meta_view self.now) }
        ensures custom { IfOk result (λ m. file_custom m ≡ file_custom self.now) }
        ensures size { IfOk result (λ m. m.size ≡ self.now.size) }
        ensures schema { IfOk result (λ m. rc_value m.schema ≡ rc_value self.now.schema) }
        ensures ids { IfOk result (λ m. ids_of m.ipc_schema.fields.items ≡ ids_of self.now.ipc_schema.fields.items) }
        ensures blocks { IfOk result (λ m. m.blocks.items ≡ self.now.blocks.items) }
        ensures dictionaries { IfOk result (λ m. m.dictionaries.items ≡ self.now.dictionaries.items) }
        ensures readable { IsReadable self.now → IfOk result IsReadable }
    {
        Ok(FileMetadata {
            schema: self.schema.clone()?,
            ipc_schema: self.ipc_schema.try_clone(alloc)?,
            custom_schema_metadata: copy_if_any(alloc, &self.custom_schema_metadata)?,
            custom_metadata: copy_if_any(alloc, &self.custom_metadata)?,
            blocks: self.blocks.as_slice().to_vec(alloc)?,
            dictionaries: self.dictionaries.as_slice().to_vec(alloc)?,
            size: self.size,
        })
    }
}

/// The bytes of the footer of a file of `size` bytes.
#[tactic(auto, using(crate::proofs::FileFooters::cut_short, crate::proofs::FileFooters::footer_faulted))]
fn fetch_footer<S: Source>(alloc: Global, source: &mut S, size: u64) -> Result<Vec<u8>, IpcError>
    requires { IsSize (S.content source.old) size }
    ensures footer { GivesIn (S.content source.old) (λ v. v.items) result footer_of }
    ensures cause { IfErr result (λ e. CountCause e (S.faults source.old) (S.faults source.new)) }
    ensures faults_stay { LeavesFaults (S.faults source.old) (S.faults source.new) result }
    ensures fetched { FooterFetched (S.content source.old) (S.fetched source.old) (S.fetched source.new) }
    ensures kept { SourceKept S.content S.faults S.references source.old source.new }
{
    if size < 10 {
        return Err(IpcError::OutOfSpec(OutOfSpecKind::Truncated));
    }
    let end = fetch(alloc, source, size - 10, 10)?;
    let length = decode_footer_len(&end, size)?;
    let bytes = fetch(alloc, source, size - 10 - length as u64, length)?;
    Ok(bytes)
}

/// The bytes of a file's footer, and how many bytes the file has.
#[derive(Drop)]
pub(crate) struct FooterBytes {
    pub(crate) bytes: Vec<u8>,
    pub(crate) size: u64,
}

/// Fetches the footer of a file.
pub(crate) fn read_footer<S: Source>(alloc: Global, source: &mut S) -> Result<FooterBytes, IpcError>
    ensures footer { GivesIn (S.content source.old) (λ f. f.bytes.items) result footer_of }
    ensures size { IfOk result (λ f. IsSize (S.content source.old) f.size) }
    ensures bound { IfOk result (λ f. f.size < 2 ^ 63) }
    ensures cause { IfErr result (λ e. CountCause e (S.faults source.old) (S.faults source.new)) }
    ensures faults_stay { LeavesFaults (S.faults source.old) (S.faults source.new) result }
    ensures fetched { FooterFetched (S.content source.old) (S.fetched source.old) (S.fetched source.new) }
    ensures kept { SourceKept S.content S.faults S.references source.old source.new }
{
    let size = source.size()?;
    let bytes = fetch_footer(alloc, source, size)?;
    Ok(FooterBytes { bytes, size })
}

/// The footer in some bytes.
fn footer_in(alloc: Global, bytes: &[u8]) -> Result<Footer, IpcError>
    ensures gives { Decodes footer_view result (meta_in bytes.now) }
    ensures may { IfOk result (λ f. SchemaMayBeWritten (footer_view f).schema.fields (footer_view f).schema.metadata) }
    ensures ids { IfOk result (λ f. IdsMayBeWritten (footer_view f).schema.fields) }
    ensures natural { IfOk result HasNaturalBlocks }
    ensures shapes { IfOk result (λ f. have_shapes (fields_in f.schema) (ids_of f.ipc_schema.fields.items) ≡ true) }
{
    deserialize_schema_and_blocks(alloc, bytes)
}

/// What a footer says of its file, but for its own pairs.
fn metadata_in(alloc: Global, footer: &FooterBytes) -> Result<FileMetadata, IpcError>
    requires { footer.now.size < 2 ^ 63 }
    ensures gives { Decodes meta_view result (meta_in footer.now.bytes.items) }
    ensures custom { IfOk result (λ m. m.custom_metadata ≡ None) }
    ensures size { IfOk result (λ m. m.size ≡ footer.now.size) }
    ensures read { IfOk result WasRead }
{
    let footer_read = footer_in(alloc, &footer.bytes)?;
    let schema = Rc::new(alloc, footer_read.schema)?;
    Ok(FileMetadata {
        schema,
        ipc_schema: footer_read.ipc_schema,
        custom_schema_metadata: footer_read.custom_schema_metadata,
        custom_metadata: None,
        blocks: footer_read.blocks,
        dictionaries: footer_read.dictionaries,
        size: footer.size,
    })
}

/// Reads the footer of a file. Its own pairs are not looked at, and none are given.
///
/// # Errors
///
/// `OutOfSpec` with the kind of the part that is not as the format says, what `read_schema` answers, `ReadFault` and `Memory`.
pub fn read_file_schema<S: Source>(alloc: Global, source: &mut S) -> Result<FileMetadata, IpcError>
    ensures gives { IfSome (S.content source.old) (λ b. Gives meta_view result (meta_of b)) }
    ensures custom { IfOk result (λ m. m.custom_metadata ≡ None) }
    ensures size { IfOk result (λ m. IsSize (S.content source.old) m.size) }
    ensures read { IfOk result WasRead }
    ensures cause { IfErr result (λ e. FileCause e (S.faults source.old) (S.faults source.new)) }
    ensures faults_stay { LeavesFaults (S.faults source.old) (S.faults source.new) result }
    ensures fetched { FooterFetched (S.content source.old) (S.fetched source.old) (S.fetched source.new) }
    ensures kept { SourceKept S.content S.faults S.references source.old source.new }
{
    let footer = read_footer(alloc, source)?;
    metadata_in(alloc, &footer)
}

/// The metadata with the footer's own pairs.
fn with_pairs(file: FileMetadata, custom_metadata: Option<Metadata>) -> FileMetadata
    ensures view { meta_view result ≡ meta_view file }
    ensures custom { file_custom result ≡ metadata_of custom_metadata }
    ensures size { result.size ≡ file.size }
    ensures read { WasRead file → CustomMayBeWritten (metadata_of custom_metadata) → WasRead result }
{
    FileMetadata {
        schema: file.schema,
        ipc_schema: file.ipc_schema,
        custom_schema_metadata: file.custom_schema_metadata,
        custom_metadata,
        blocks: file.blocks,
        dictionaries: file.dictionaries,
        size: file.size,
    }
}

/// Reads the footer of a file.
///
/// # Errors
///
/// `OutOfSpec` with the kind of the part that is not as the format says, what `read_schema` answers, `TooMany(Pairs)` over
/// 1,048,576 pairs of the footer itself, `ReadFault` and `Memory`.
pub fn read_file_metadata<S: Source>(
    alloc: Global,
    source: &mut S,
) -> Result<FileMetadata, IpcError>
    ensures says { IfOk result (λ m. IfSome (S.content source.old) (λ b. FileSays b (meta_view m) (file_custom m))) }
    ensures refused { IfErr result (λ e. IfSome (S.content source.old) (λ b. (r : Request) → Refuses e (refusals (file_reading to_send b r None)))) }
    ensures size { IfOk result (λ m. IsSize (S.content source.old) m.size) }
    ensures read { IfOk result WasRead }
    ensures cause { IfErr result (λ e. FileCause e (S.faults source.old) (S.faults source.new)) }
    ensures faults_stay { LeavesFaults (S.faults source.old) (S.faults source.new) result }
    ensures fetched { FooterFetched (S.content source.old) (S.fetched source.old) (S.fetched source.new) }
    ensures kept { SourceKept S.content S.faults S.references source.old source.new }
{
    let footer = read_footer(alloc, source)?;
    let file = metadata_in(alloc, &footer)?;
    let custom_metadata = footer_metadata(alloc, &footer.bytes)?;
    Ok(with_pairs(file, custom_metadata))
}

/// The metadata of a file's schema, where it has any.
pub fn metadata_of(file: &FileMetadata) -> Option<&Metadata>
    ensures { metadata_in result ≡ (meta_view file.now).schema.metadata }
{
    match &file.custom_schema_metadata {
        Some(metadata) => Some(metadata),
        None => None,
    }
}

/// The footer's own pairs, where it has any.
pub fn custom_metadata_of(file: &FileMetadata) -> Option<&Metadata>
    ensures { metadata_in result ≡ file_custom file.now }
{
    match &file.custom_metadata {
        Some(pairs) => Some(pairs),
        None => None,
    }
}
