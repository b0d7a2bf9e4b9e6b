//! The record batches of a stream, written to a file.
ghost use Rattle.std.specs.Prelude.{◌≡◌, ◌<◌, ◌++◌, ◌∷◌, [], All, IfErr, IfOk, List, ℕ, OnOk, Option, map, sum_by};
ghost use Rattle.arrow_arrays.specs.Batches.{Batch};
ghost use Rattle.arrow_arrays.specs.Parts.{forest};
ghost use Rattle.ipc_io.specs.Outside.{SinkKept};
ghost use Rattle.laws_walk.specs.Below.{table_of};
ghost use Rattle.ipc_append.specs.Below.{IsReadable, MayBeWritten, StreamMetadata};
ghost use Rattle.ipc_unify.specs.Below.{AreOver, Lists};
ghost use Rattle.ipc_to_file.specs.Writing.{EndsFile, IsGoing, IsNext, StopsBatch, StopsFile, WritesAll, WritesFile};

use crate::begin::begin_file;
use arrow_arrays::RecordBatch;
use arrow_spec::IpcError;
use ipc_append::{FileCore, WholeStream};
use ipc_io::Sink;
use laws_walk::Summary;
use std::alloc::Global;

/// Writes a batch, and answers how many rows it has.
fn write_batch<W: Sink>(
    core: &mut FileCore,
    sink: &mut W,
    batch: &RecordBatch,
) -> Result<usize, IpcError>
    ensures rows { IfOk result (λ n. n ≡ batch.now.height) }
    ensures going { (m : StreamMetadata) (us : Lists) (start : Option (List ℕ)) (before : List Batch) → IsGoing m us core.old start (W.written sink.old) before → IsNext m us batch.now → OnOk result (IsGoing m us core.new start (W.written sink.new) (before ++ batch.now ∷ [])) }
    ensures stops { (m : StreamMetadata) (us : Lists) (start : Option (List ℕ)) (before : List Batch) → IsGoing m us core.old start (W.written sink.old) before → IsNext m us batch.now → IfErr result (λ e. StopsBatch e m before batch.now start (W.written sink.new) (W.faults sink.old) (W.faults sink.new)) }
    ensures sink { SinkKept W.faults W.wants W.references sink.old sink.new }
{
    let rows = batch.height();
    core.write(sink, batch, None)?;
    Ok(rows)
}

/// Writes batches, in order, and answers how many rows they have.
fn write_batches<W: Sink>(
    core: &mut FileCore,
    sink: &mut W,
    batches: &[RecordBatch],
) -> Result<u128, IpcError>
    ensures rows { IfOk result (λ n. n ≡ sum_by (λ t. t.rows) (map table_of batches.now)) }
    ensures writes { (m : StreamMetadata) (us : Lists) (start : Option (List ℕ)) → IsGoing m us core.old start (W.written sink.old) [] → All (IsNext m us) batches.now → WritesAll result m us core.new start (W.written sink.new) batches.now (W.faults sink.old) (W.faults sink.new) }
    ensures sink { SinkKept W.faults W.wants W.references sink.old sink.new }
{
    let mut rows = 0u128;
    for batch in batches {
        let count = write_batch(core, sink, batch)?;
        rows += count as u128;
    }
    Ok(rows)
}

/// Ends a file.
fn end_file<W: Sink>(core: &mut FileCore, sink: &mut W) -> Result<u64, IpcError>
    ensures ends { (m : StreamMetadata) (us : Lists) (start : Option (List ℕ)) (bs : List Batch) → IsGoing m us core.old start (W.written sink.old) bs → EndsFile result m start (W.written sink.new) bs (W.faults sink.old) (W.faults sink.new) }
    ensures sink { SinkKept W.faults W.wants W.references sink.old sink.new }
{
    core.finish(sink)?;
    Ok(core.byte_count())
}

/// Writes a file of a stream's schema and record batches, whose dictionaries are one list each.
pub(crate) fn write_file<W: Sink>(
    alloc: Global,
    sink: &mut W,
    stream: WholeStream,
) -> Result<Summary, IpcError>
    requires readable { IsReadable stream.metadata }
    requires may { MayBeWritten stream.metadata }
    requires over { (us : Lists) × All (λ b. AreOver us (forest b.arrays) 0) stream.batches.items }
    ensures writes { IfOk result (λ s. WritesFile s stream (W.written sink.old) (W.written sink.new)) }
    ensures stops { IfErr result (λ e. StopsFile e stream.metadata stream.batches.items (W.written sink.old) (W.written sink.new) (W.faults sink.old) (W.faults sink.new)) }
    ensures sink { SinkKept W.faults W.wants W.references sink.old sink.new }
{
    let WholeStream { metadata, batches } = stream;
    let mut core = begin_file(alloc, sink, metadata)?;
    let rows = write_batches(&mut core, sink, batches.as_slice())?;
    let bytes = end_file(&mut core, sink)?;
    Ok(Summary {
        batches: batches.len() as u128,
        rows,
        bytes: bytes as u128,
    })
}
