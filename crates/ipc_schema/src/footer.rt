//! The footer of a file (Arrow Columnar Format, "IPC File Format", File.fbs).
ghost use Rattle.std.specs.Prelude.{◌≡◌, true, ℕ, ◌+◌, ◌-◌, ◌<◌, ◌≤◌, List, ◌++◌, ◌∷◌, [], All, take, drop, map, length, IfOk, OnErr, Err, IfErr};
ghost use Rattle.arrow_spec.specs.declared.error.IpcError.TheVariants.{Memory};
ghost use Rattle.ipc_fields.specs.Causes.{Decodes, IsOfBytes};
ghost use Rattle.arrow_spec.specs.Files.{footer_of, meta_in};
ghost use Rattle.arrow_types.specs.Schemas.{fields_in};
ghost use Rattle.ipc_fields.specs.IpcFields.{AreNamed, have_shapes, ids_of, metadata_of, schema_view};
ghost use Rattle.ipc_schema.specs.Footers.{IsNatural, HasNaturalBlocks, file_block, footer_view, block_numbers_at, block_by, fault_in, block_in, blocks_in, footer_length_in, records_part, dictionaries_part, record_blocks_in, schema_in_footer, footer_parts, whole_footer, whole_view};
ghost use Rattle.schema_reader.specs.Metadata.{HasPairsIfAny};

use crate::custom::footer_metadata;
use crate::number::{i32_at, i64_at};
use arrow_flat::{Flat, Table, Vector};
use arrow_spec::{Block, Feature, FlatError, IpcError, OutOfSpecKind};
use arrow_types::{ArrowSchema, Metadata};
use ipc_fields::IpcSchema;
use schema_reader::read_schema;
use std::alloc::Global;

/// The schema of a file with its IPC schema and its metadata, the footer's own pairs, and the file's blocks of record batches and of dictionaries in the footer's order.
#[derive(Drop)]
pub struct Footer {
    /// The schema.
    pub schema: ArrowSchema,
    /// The ids of its dictionaries, and the byte order.
    pub ipc_schema: IpcSchema,
    /// The schema's pairs, where it has any.
    pub custom_schema_metadata: Option<Metadata>,
    /// The footer's own pairs, where it has any and they were read.
    pub custom_metadata: Option<Metadata>,
    /// The blocks of record batches, in order.
    pub blocks: Vec<Block>,
    /// The blocks of dictionary batches, in order.
    pub dictionaries: Vec<Block>,
}

/// One of a footer's two lists of blocks.
#[derive(Clone, Copy, Debug, PartialEq, Eq)]
pub(crate) enum BlockList {
    RecordBatches,
    Dictionaries,
}

/// A fault in a list of blocks.
fn fault_in(list: BlockList, e: FlatError) -> IpcError
    ensures value { result ≡ fault_in list e }
{
    match list {
        BlockList::RecordBatches => IpcError::OutOfSpec(
            OutOfSpecKind::InvalidFlatbufferRecordBatches(e),
        ),
        BlockList::Dictionaries => IpcError::OutOfSpec(OutOfSpecKind::InvalidFlatbufferDictionaries(
            e,
        )),
    }
}

/// A block by its 24 bytes, of which the four behind its metadata's length are padding (File.fbs, Block).
#[tactic(auto, unfolding(arrow_spec::specs::Readings::bind))]
fn block_from(item: &[u8]) -> Result<Block, FlatError>
    ensures { result ≡ block_numbers_at item.now 0 }
{
    let offset = i64_at(item, 0)?;
    let meta_data_length = i32_at(item, 8)?;
    let body_length = i64_at(item, 16)?;
    Ok(Block {
        offset,
        meta_data_length,
        body_length,
    })
}

/// A block whose numbers are not negative.
#[tactic(auto, unfolding(arrow_spec::specs::Readings::bind))]
fn natural_block(block: Block) -> Result<Block, IpcError>
    ensures gives { Decodes file_block result (block_by block) }
    ensures natural { IfOk result IsNatural }
{
    if block.offset < 0 || block.meta_data_length < 0 || block.body_length < 0 {
        return Err(IpcError::OutOfSpec(OutOfSpecKind::UnexpectedNegativeInteger));
    }
    Ok(block)
}

/// One of the blocks of a vector.
#[tactic(auto, using(crate::proofs::Footers::block_faulted))]
fn read_block(vector: &Vector<'_>, i: usize, list: BlockList) -> Result<Block, IpcError>
    requires width { vector.now.width ≡ 24 }
    requires within { i < vector.now.vector.count }
    ensures gives { Decodes file_block result (block_in list vector.now i) }
    ensures natural { IfOk result IsNatural }
{
    let block = match block_from(vector.get(i)) {
        Ok(block) => block,
        Err(e) => return Err(fault_in(list, e)),
    };
    natural_block(block)
}

fn push_block(blocks: &mut Vec<Block>, block: Block) -> Result<(), IpcError>
    ensures ok { IfOk result (λ _. map file_block blocks.new.items ≡ map file_block blocks.old.items ++ file_block block ∷ []) }
    ensures items { IfOk result (λ _. blocks.new.items ≡ blocks.old.items ++ block ∷ []) }
    ensures err { OnErr result (result ≡ Err Memory) }
{
    blocks.push(block)?;
    Ok(())
}

/// The blocks of a vector.
#[tactic(auto, using(crate::proofs::Footers::blocks_begun, crate::proofs::Items::more_read, crate::proofs::Items::one_refused, crate::proofs::Items::all_read, crate::proofs::Footers::none_natural, crate::proofs::Footers::more_natural))]
fn read_blocks(alloc: Global, vector: &Vector<'_>, list: BlockList) -> Result<Vec<Block>, IpcError>
    requires { vector.now.width ≡ 24 }
    ensures gives { Decodes (λ v. map file_block v.items) result (blocks_in list vector.now) }
    ensures natural { IfOk result (λ v. All IsNatural v.items) }
{
    let mut blocks = Vec::new(alloc);
    for i in 0..vector.len() {
        let block = read_block(vector, i, list)?;
        push_block(&mut blocks, block)?;
    }
    Ok(blocks)
}

/// The blocks of record batches.
#[tactic(auto, unfolding(arrow_spec::specs::Readings::bind, crate::specs::Footers::records_part))]
fn read_record_blocks(alloc: Global, table: &Table<'_>) -> Result<Vec<Block>, IpcError>
    ensures gives { Decodes (λ v. map file_block v.items) result (records_part table.now.bytes table.now.table) }
    ensures natural { IfOk result (λ v. All IsNatural v.items) }
{
    let vector = table.slot_vector(3, 24).map_err(|e| IpcError::OutOfSpec(
        OutOfSpecKind::InvalidFlatbufferRecordBatches(e),
    ))?;
    match vector {
        None => Err(IpcError::OutOfSpec(OutOfSpecKind::MissingRecordBatches)),
        Some(vector) => read_blocks(alloc, &vector, BlockList::RecordBatches),
    }
}

/// The blocks of dictionaries, of which there are none where the list is absent.
#[tactic(auto, unfolding(arrow_spec::specs::Readings::bind, crate::specs::Footers::dictionaries_part))]
fn read_dictionary_blocks(alloc: Global, table: &Table<'_>) -> Result<Vec<Block>, IpcError>
    ensures gives { Decodes (λ v. map file_block v.items) result (dictionaries_part table.now.bytes table.now.table) }
    ensures natural { IfOk result (λ v. All IsNatural v.items) }
{
    let vector = table.slot_vector(2, 24).map_err(|e| IpcError::OutOfSpec(
        OutOfSpecKind::InvalidFlatbufferDictionaries(e),
    ))?;
    match vector {
        None => Ok(Vec::new(alloc)),
        Some(vector) => read_blocks(alloc, &vector, BlockList::Dictionaries),
    }
}

/// The schema of a footer.
#[tactic(auto, unfolding(arrow_spec::specs::Readings::bind, crate::specs::Footers::schema_in_footer))]
fn read_footer_schema(
    alloc: Global,
    table: &Table<'_>,
) -> Result<(ArrowSchema, IpcSchema, Option<Metadata>), IpcError>
    ensures gives { Decodes schema_view result (schema_in_footer table.now.bytes table.now.table) }
    ensures named { IfOk result (λ s. AreNamed s.0) }
    ensures shapes { IfOk result (λ s. have_shapes (fields_in s.0) (ids_of s.1.fields.items) ≡ true) }
    ensures no_empty_metadata { IfOk result (λ s. HasPairsIfAny s.2) }
{
    let schema = table.slot_table(1).map_err(|e| IpcError::OutOfSpec(
        OutOfSpecKind::InvalidFlatbufferSchema(e),
    ))?;
    match schema {
        None => Err(IpcError::OutOfSpec(OutOfSpecKind::MissingSchema)),
        Some(schema) => read_schema(alloc, &schema),
    }
}

#[tactic(auto, unfolding(arrow_spec::specs::Readings::bind, crate::specs::Footers::footer_parts))]
fn read_footer_parts(alloc: Global, bytes: &[u8]) -> Result<Footer, IpcError>
    ensures gives { Decodes footer_view result (footer_parts bytes.now) }
    ensures named { IfOk result (λ f. AreNamed f.schema) }
    ensures shapes { IfOk result (λ f. have_shapes (fields_in f.schema) (ids_of f.ipc_schema.fields.items) ≡ true) }
    ensures no_empty_metadata { IfOk result (λ f. HasPairsIfAny f.custom_schema_metadata) }
    ensures natural { IfOk result HasNaturalBlocks }
{
    let table = Flat::root(bytes).map_err(|e| IpcError::OutOfSpec(
        OutOfSpecKind::InvalidFlatbufferFooter(e),
    ))?;
    let blocks = read_record_blocks(alloc, &table)?;
    let dictionaries = read_dictionary_blocks(alloc, &table)?;
    let (schema, ipc_schema, custom_schema_metadata) = read_footer_schema(alloc, &table)?;
    Ok(Footer {
        schema,
        ipc_schema,
        custom_schema_metadata,
        custom_metadata: None,
        blocks,
        dictionaries,
    })
}

/// The schema and the blocks of a footer, by the bytes between the last message and the footer's length. Its own pairs are
/// not looked at, and none are given.
///
/// # Errors
///
/// `OutOfSpec` with the kind of the part that is not as the format says, and what `read_schema` answers.
#[tactic(auto, using(crate::proofs::Footers::footer_by_parts))]
pub fn deserialize_schema_and_blocks(alloc: Global, bytes: &[u8]) -> Result<Footer, IpcError>
    ensures gives { Decodes footer_view result (meta_in bytes.now) }

    // Each field stands under its own name.
    ensures named { IfOk result (λ f. AreNamed f.schema) }

    // The IPC fields are those of the schema.
    ensures shapes { IfOk result (λ f. have_shapes (fields_in f.schema) (ids_of f.ipc_schema.fields.items) ≡ true) }
    ensures no_empty_metadata { IfOk result (λ f. HasPairsIfAny f.custom_schema_metadata) }

    // No number of a block is negative.
    ensures natural { IfOk result HasNaturalBlocks }
{
    read_footer_parts(alloc, bytes)
}

/// The footer with these pairs.
fn with_pairs(footer: Footer, custom_metadata: Option<Metadata>) -> Footer
    ensures view { footer_view result ≡ footer_view footer }
    ensures custom { metadata_of result.custom_metadata ≡ metadata_of custom_metadata }
    ensures no_empty_custom { HasPairsIfAny custom_metadata → HasPairsIfAny result.custom_metadata }
    ensures named { AreNamed footer.schema → AreNamed result.schema }
    ensures shapes { have_shapes (fields_in footer.schema) (ids_of footer.ipc_schema.fields.items) ≡ true → have_shapes (fields_in result.schema) (ids_of result.ipc_schema.fields.items) ≡ true }
    ensures no_empty_metadata { HasPairsIfAny footer.custom_schema_metadata → HasPairsIfAny result.custom_schema_metadata }
    ensures natural { HasNaturalBlocks footer → HasNaturalBlocks result }
{
    Footer {
        schema: footer.schema,
        ipc_schema: footer.ipc_schema,
        custom_schema_metadata: footer.custom_schema_metadata,
        custom_metadata,
        blocks: footer.blocks,
        dictionaries: footer.dictionaries,
    }
}

/// The schema, the blocks and the pairs of a footer, by the bytes between the last message and the footer's length.
///
/// # Errors
///
/// `OutOfSpec` with the kind of the part that is not as the format says, what `read_schema` answers, and what
/// `footer_metadata` does.
#[tactic(auto, unfolding(arrow_spec::specs::Readings::bind, crate::specs::Footers::whole_footer))]
pub fn deserialize_footer(alloc: Global, bytes: &[u8]) -> Result<Footer, IpcError>
    ensures gives { Decodes whole_view result (whole_footer bytes.now) }
    ensures named { IfOk result (λ f. AreNamed f.schema) }
    ensures shapes { IfOk result (λ f. have_shapes (fields_in f.schema) (ids_of f.ipc_schema.fields.items) ≡ true) }
    ensures no_empty_metadata { IfOk result (λ f. HasPairsIfAny f.custom_schema_metadata) }
    ensures no_empty_custom { IfOk result (λ f. HasPairsIfAny f.custom_metadata) }
    ensures natural { IfOk result HasNaturalBlocks }
{
    let footer = deserialize_schema_and_blocks(alloc, bytes)?;
    let custom_metadata = footer_metadata(alloc, bytes)?;
    Ok(with_pairs(footer, custom_metadata))
}

/// The blocks of record batches of a footer, by its bytes. Its dictionaries and its schema are not looked at.
///
/// # Errors
///
/// `OutOfSpec` with the kind of the part that is not as the format says, and `Memory`.
#[tactic(auto, unfolding(arrow_spec::specs::Readings::bind, crate::specs::Footers::record_blocks_in))]
pub fn deserialize_record_blocks(alloc: Global, bytes: &[u8]) -> Result<Vec<Block>, IpcError>
    ensures gives { Decodes (λ v. map file_block v.items) result (record_blocks_in bytes.now) }

    // No number of a block is negative.
    ensures natural { IfOk result (λ v. All IsNatural v.items) }
{
    let table = Flat::root(bytes).map_err(|e| IpcError::OutOfSpec(
        OutOfSpecKind::InvalidFlatbufferFooter(e),
    ))?;
    read_record_blocks(alloc, &table)
}

/// The footer's length in bytes, by the last ten bytes of a file of `size` bytes: the length and `ARROW1`.
///
/// # Errors
///
/// `Unsupported(FeatherV1)` where the bytes end with `FEA1`, `OutOfSpec(InvalidFooter)` where they do not end with
/// `ARROW1`, `OutOfSpec(NegativeFooterLength)`, and `OutOfSpec(Truncated)` where the footer begins before the file.
pub fn decode_footer_len(end: &[u8], size: u64) -> Result<usize, IpcError>
    requires { length end.now ≡ 10 }
    ensures gives { Decodes (λ n. n) result (footer_length_in end.now size) }

    // A file that ends so has a footer of that length before its last ten bytes.
    ensures quiet { IfErr result IsOfBytes }
    ensures footer { (b : List ℕ) → length b ≡ size → drop (size - 10) b ≡ end.now → Decodes (λ n. take n (drop (size - 10 - n) b)) result (footer_of b) }
    ensures within { IfOk result (λ n. n + 10 ≤ size) }
{
    length_by_end(end, size)
}

#[tactic(auto, unfolding(arrow_spec::specs::Readings::bind, crate::specs::Footers::footer_length_in))]
fn length_by_end(end: &[u8], size: u64) -> Result<usize, IpcError>
    requires { length end.now ≡ 10 }
    ensures gives { Decodes (λ n. n) result (footer_length_in end.now size) }
    ensures within { IfOk result (λ n. n + 10 ≤ size) }
{
    let (_, magic) = end.split_at(4);
    let (_, feather) = end.split_at(6);
    if feather == [b'F', b'E', b'A', b'1'].as_slice() {
        return Err(IpcError::Unsupported(Feature::FeatherV1));
    }
    if magic != [b'A', b'R', b'R', b'O', b'W', b'1'].as_slice() {
        return Err(IpcError::OutOfSpec(OutOfSpecKind::InvalidFooter));
    }
    let length = i32_at(end, 0).map_err(|_| IpcError::OutOfSpec(OutOfSpecKind::Truncated))?;
    if length < 0 {
        return Err(IpcError::OutOfSpec(OutOfSpecKind::NegativeFooterLength));
    }
    let length = length as usize;
    if length as u64 + 10 > size {
        return Err(IpcError::OutOfSpec(OutOfSpecKind::Truncated));
    }
    Ok(length)
}
