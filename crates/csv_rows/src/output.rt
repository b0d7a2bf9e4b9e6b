//! Text of comma-separated fields on its way to a sink.
ghost use Rattle.std.specs.Prelude.{◌≡◌, ◌+◌, ◌++◌, ◌<◌, ◌≤◌, [], length, max, ℕ, List, Option, IfErr, IfOk, OnOk, true};
ghost use Rattle.arrow_arrays.specs.Batches.{have_rows};
ghost use Rattle.arrow_arrays.specs.PartsOf.{all_parts_of};
ghost use Rattle.arrow_spec.specs.declared.error.IpcError.TheVariants.{Memory};
ghost use Rattle.csv.specs.Writing.{default_writer, row_text};
ghost use Rattle.csv_rows.specs.Shown.{shown_cells, shown_rows};
ghost use Rattle.csv_rows.specs.Writers.{text_of};
ghost use Rattle.ipc_io.specs.Outside.{SinkKept};
ghost use Rattle.csv_rows.specs.Output.{HasPut, HasWritten, IsReady, PutCause, Puts, Writes, header_of, rows_of};

use crate::rows::{write_names, write_row};
use arrow_arrays::{Array, RecordBatch};
use arrow_spec::IpcError;
use arrow_types::ArrowSchema;
use csv::Writer;
use ipc_bodies::{Encoding, put_bytes_as};
use ipc_io::Sink;
use std::alloc::Global;
use std::mem;

/// How many bytes are put at once, at most.
const PIECE_BYTES: usize = 65_536;

/// How many bytes are held, and are put behind the row that fills them.
const HELD_BYTES: usize = 57_344;

/// Text on its way to a sink: rows are written into memory, and go out piece by piece.
#[derive(Drop)]
pub struct TextOut {
    pub(crate) writer: Writer<Vec<u8>>,
    pub(crate) cell: Vec<u8>,
    pub(crate) room: Vec<u8>,
    pub(crate) bytes: u128,
}

/// The bytes that a writer has written. Whatever fails is want of memory, since they are held.
fn written(writer: Writer<Vec<u8>>) -> Result<Vec<u8>, IpcError>
    ensures text { IfOk result (λ v. text_of writer ≡ Some v.items) }
    ensures err { IfErr result (λ e. e ≡ Memory) }
{
    match writer.into_inner() {
        Ok(text) => Ok(text),
        Err(_) => Err(IpcError::Memory),
    }
}

/// A count with so many more. Where it does not fit 128 bits, that is told as want of memory.
fn counted(bytes: u128, more: usize) -> Result<u128, IpcError>
    ensures sum { IfOk result (λ n. n ≡ bytes + more) }
    ensures err { IfErr result (λ e. e ≡ Memory) }
{
    match bytes.checked_add(more as u128) {
        Some(sum) => Ok(sum),
        None => Err(IpcError::Memory),
    }
}

impl TextOut {
    /// Text of which nothing was written.
    pub fn new(alloc: Global) -> Result<TextOut, IpcError>
        ensures ready { IfOk result IsReady }
        ensures empty { IfOk result (λ o. text_of o.writer ≡ Some []) }
        ensures none { IfOk result (λ o. o.bytes ≡ 0) }
        ensures err { IfErr result (λ e. e ≡ Memory) }
    {
        Ok(TextOut {
            writer: Writer::from_writer(Vec::new(alloc)),
            cell: Vec::new(alloc),
            room: vec![in alloc; 0; PIECE_BYTES]?,
            bytes: 0,
        })
    }

    /// How many bytes were put.
    pub fn byte_count(&self) -> u128
        ensures { result ≡ self.now.bytes }
    {
        self.bytes
    }

    /// Puts what is held.
    fn flush<W: Sink>(&mut self, alloc: Global, sink: &mut W) -> Result<(), IpcError>
        requires { IsReady self.old }
        ensures puts { (start : Option (List ℕ)) (text : List ℕ) → HasWritten start (W.written sink.old) self.old text → Puts start (W.written sink.new) self.new text result }
        ensures ready { OnOk result (IsReady self.new) }
        ensures cause { IfErr result (λ e. PutCause e (W.faults sink.old) (W.faults sink.new)) }
        ensures longest { W.longest sink.new ≤ max (W.longest sink.old) 65536 }
        ensures sink { SinkKept W.faults W.wants W.references sink.old sink.new }
    {
        let writer = mem::replace(&mut self.writer, Writer::from_writer(Vec::new(alloc)));
        let mut text = written(writer)?;
        let bytes = counted(self.bytes, text.len())?;
        put_bytes_as(
            sink,
            text.as_slice(),
            Encoding::Bytes,
            self.room.as_mut_slice(),
        )?;
        text.clear();
        self.writer = Writer::from_writer(text);
        self.bytes = bytes;
        Ok(())
    }

    /// Puts what is held, where it is much.
    fn flush_if_full<W: Sink>(&mut self, alloc: Global, sink: &mut W) -> Result<(), IpcError>
        requires { IsReady self.old }
        ensures writes { (start : Option (List ℕ)) (text : List ℕ) → HasWritten start (W.written sink.old) self.old text → Writes start (W.written sink.new) self.new text result }
        ensures ready { OnOk result (IsReady self.new) }
        ensures cause { IfErr result (λ e. PutCause e (W.faults sink.old) (W.faults sink.new)) }
        ensures longest { W.longest sink.new ≤ max (W.longest sink.old) 65536 }
        ensures sink { SinkKept W.faults W.wants W.references sink.old sink.new }
    {
        if self.writer.get_ref().len() < HELD_BYTES {
            return Ok(());
        }
        self.flush(alloc, sink)
    }

    /// Writes a row of arrays.
    fn put_row<W: Sink>(
        &mut self,
        alloc: Global,
        sink: &mut W,
        arrays: &[Array],
        height: usize,
        row: usize,
    ) -> Result<(), IpcError>
        requires ready { IsReady self.old }
        requires rows { have_rows height (all_parts_of arrays.now) ≡ true }
        requires below { row < height }
        ensures writes { (start : Option (List ℕ)) (text : List ℕ) → HasWritten start (W.written sink.old) self.old text → Writes start (W.written sink.new) self.new (text ++ row_text default_writer (shown_cells (all_parts_of arrays.now) row)) result }
        ensures ready { OnOk result (IsReady self.new) }
        ensures cause { IfErr result (λ e. PutCause e (W.faults sink.old) (W.faults sink.new)) }
        ensures longest { W.longest sink.new ≤ max (W.longest sink.old) 65536 }
        ensures sink { SinkKept W.faults W.wants W.references sink.old sink.new }
    {
        write_row(&mut self.writer, &mut self.cell, arrays, height, row)?;
        self.flush_if_full(alloc, sink)
    }

    /// Writes the rows of arrays.
    fn put_rows<W: Sink>(
        &mut self,
        alloc: Global,
        sink: &mut W,
        arrays: &[Array],
        height: usize,
    ) -> Result<(), IpcError>
        requires ready { IsReady self.old }
        requires rows { have_rows height (all_parts_of arrays.now) ≡ true }
        ensures writes { (start : Option (List ℕ)) (text : List ℕ) → HasWritten start (W.written sink.old) self.old text → Writes start (W.written sink.new) self.new (text ++ shown_rows (all_parts_of arrays.now) 0 height) result }
        ensures ready { OnOk result (IsReady self.new) }
        ensures cause { IfErr result (λ e. PutCause e (W.faults sink.old) (W.faults sink.new)) }
        ensures longest { W.longest sink.new ≤ max (W.longest sink.old) 65536 }
        ensures sink { SinkKept W.faults W.wants W.references sink.old sink.new }
    {
        for row in 0..height {
            self.put_row(alloc, sink, arrays, height, row)?;
        }
        Ok(())
    }

    /// Puts the rows of a record batch.
    pub fn put_batch<W: Sink>(
        &mut self,
        alloc: Global,
        sink: &mut W,
        batch: &RecordBatch,
    ) -> Result<(), IpcError>
        requires { IsReady self.old }
        ensures puts { (start : Option (List ℕ)) (text : List ℕ) → HasPut start (W.written sink.old) self.old text → Puts start (W.written sink.new) self.new (text ++ rows_of batch.now.arrays batch.now.height) result }
        ensures ready { OnOk result (IsReady self.new) }
        ensures cause { IfErr result (λ e. PutCause e (W.faults sink.old) (W.faults sink.new)) }
        ensures longest { W.longest sink.new ≤ max (W.longest sink.old) 65536 }
        ensures sink { SinkKept W.faults W.wants W.references sink.old sink.new }
    {
        let arrays = batch.arrays();
        if arrays.is_empty() {
            return Ok(());
        }
        self.put_rows(alloc, sink, arrays, batch.height())?;
        self.flush(alloc, sink)
    }

    /// Puts the row of the names of a schema's fields.
    pub fn put_header<W: Sink>(
        &mut self,
        alloc: Global,
        sink: &mut W,
        schema: &ArrowSchema,
    ) -> Result<(), IpcError>
        requires { IsReady self.old }
        ensures puts { (start : Option (List ℕ)) → HasPut start (W.written sink.old) self.old [] → Puts start (W.written sink.new) self.new (header_of schema.now) result }
        ensures ready { OnOk result (IsReady self.new) }
        ensures cause { IfErr result (λ e. PutCause e (W.faults sink.old) (W.faults sink.new)) }
        ensures longest { W.longest sink.new ≤ max (W.longest sink.old) 65536 }
        ensures sink { SinkKept W.faults W.wants W.references sink.old sink.new }
    {
        let count = schema.len();
        if count == 0 {
            return Ok(());
        }
        write_names(&mut self.writer, schema)?;
        self.flush(alloc, sink)
    }
}
