//! Record batches whose bodies are lent (Arrow Columnar Format, "RecordBatch message").
ghost use Rattle.std.specs.Prelude.{◌≡◌, [], IfErr, IfOk, None, length, true};
ghost use Rattle.arrow_spec.specs.Arrays.{Dictionaries};
ghost use Rattle.arrow_spec.specs.Readings.{Gives};
ghost use Rattle.ipc_read.specs.Batches.{are_column_kinds, batch_reading, schema_fields};
ghost use Rattle.ipc_schema.specs.Views.{header_of};
ghost use Rattle.view_types.specs.Ranges.{Lies};
ghost use Rattle.view_types.specs.Views.{part_in, views};
ghost use Rattle.ipc_fields.specs.Causes.{IsOfBytes};
ghost use Rattle.ipc_view.specs.Batches.{table_seen};
ghost use Rattle.ipc_view.specs.Dictionaries.{shown_in, ShowsCells};
ghost use Rattle.ipc_view.specs.Lent.{AreLentOf, HoldsLent};

use crate::batch::BatchTables;
use crate::counts::row_count;
use crate::dictionaries::DictionaryViews;
use arrow_spec::{IpcError, MetadataVersion};
use arrow_types::ArrowSchema;
use ipc_fields::IpcSchema;
use ipc_read::check_kinds;
use ipc_schema::BatchHeader;
use std::alloc::Global;
use view_types::{ArrayView, Range};

/// The rows of a record batch and views of its columns, which lend its body, a range of the input. The lengths of all
/// buffers together are at most `size`. The parts that are held under the id of a dictionary are children of its views.
///
/// # Errors
///
/// `Unsupported(Float)`, `Unsupported(Decimal256)` by the columns' kinds; `Unsupported(Compression)`;
/// `UnexpectedNegativeInteger`, `InvalidBuffersLength` by the tables; then `OutOfSpec` with what is wrong with a column,
/// `InvalidId` and `InvalidKey` for keys whose values are not held; `Memory`.
pub fn view_record_batch<'a>(
    alloc: Global,
    header: &BatchHeader,
    schema: &ArrowSchema,
    ipc_schema: &IpcSchema,
    dictionaries: &DictionaryViews<'a>,
    version: MetadataVersion,
    input: &'a [u8],
    body: Range,
    size: u64,
) -> Result<(usize, Vec<ArrayView<'a>>), IpcError>
    requires columns { are_column_kinds None 0 schema.now ≡ true }
    requires body { Lies input.now body }

    // They are what the columns' kinds, the tables and the body mean, or a refusal of theirs.
    ensures gives { (d : Dictionaries) → ShowsCells d (shown_in dictionaries.now) → Gives table_seen result (batch_reading None None ipc_schema.now.is_little_endian (schema_fields schema.now ipc_schema.now.fields.items) d size version (header_of header.now) (part_in input.now body)) }
    ensures count { IfOk result (λ r. length r.1.items ≡ length schema.now) }
    ensures lent { HoldsLent input.now (shown_in dictionaries.now) → IfOk result (λ r. AreLentOf input.now (views r.1.items)) }
    ensures cause { IfErr result IsOfBytes }
{
    check_kinds(schema, None)?;
    let rows = row_count(header, size)?;
    let tables = BatchTables {
        alloc,
        nodes: header.nodes.as_slice(),
        buffers: header.buffers.as_slice(),
        variadic: header.variadic.as_slice(),
        version,
        is_big_endian: !ipc_schema.is_little_endian,
        input,
        body,
        dictionaries,
    };
    let columns = tables.columns(schema, ipc_schema.fields.as_slice(), rows)?;
    Ok((rows, columns))
}
