//! The generated table as a file (Arrow Columnar Format, "IPC File Format").
ghost use Rattle.std.specs.Prelude.{◌≡◌, ◌≤◌, ◌++◌, ◌∷◌, [], List, Some, length, IfOk, IfErr, OnOk};
ghost use Rattle.std.specs.Rc.{rc_value};
ghost use Rattle.arrow_spec.specs.Files.{TableBatch, «all»};
ghost use Rattle.arrow_spec.specs.Meaning.{file_table};
ghost use Rattle.arrow_arrays.specs.PartsOf.{parts_of};
ghost use Rattle.ipc_generate.specs.Arrays.{dictionary_values, generated_schema, table_batch};
ghost use Rattle.ipc_generate.specs.Table.{batch_count, first_batches, generated_table, table_with};
ghost use Rattle.ipc_generate.specs.Written.{HasWritten, IsReady, IsSmall};

use crate::batch::batch_of;
use crate::columns::dictionary_values;
use crate::schema::generated_schema;
use crate::sink::Collected;
use crate::states::States;
use arrow_arrays::Array;
use arrow_spec::IpcError;
use arrow_types::ArrowSchemaRef;
use ipc_file_writer::{FileWriter, WriteOptions};
use std::alloc::Global;
use std::rc::Rc;

const BATCHES: usize = 16;

const ROWS: usize = 4096;

/// A writer whose file is begun.
fn begun(alloc: Global, schema: ArrowSchemaRef) -> Result<FileWriter<Collected>, IpcError>
    requires { rc_value schema ≡ generated_schema }
    ensures ready { IfOk result (λ w. IsReady w.core) }
    ensures written { IfOk result (λ w. HasWritten w.core w.sink.bytes.items []) }
    ensures err { IfErr result IsSmall }
{
    let sink = Collected::new(alloc);
    let writer = FileWriter::try_new(alloc, sink, schema, None, WriteOptions::default())?;
    Ok(writer)
}

/// Writes the batch whose rows have these states.
fn write_rows(
    alloc: Global,
    writer: &mut FileWriter<Collected>,
    schema: &ArrowSchemaRef,
    values: &Array,
    states: &[u64],
) -> Result<(), IpcError>
    requires ready { IsReady writer.old.core }
    requires schema { rc_value schema.now ≡ generated_schema }
    requires values { parts_of values.now ≡ dictionary_values }
    requires few { length states.now ≤ 65536 }
    ensures ready { OnOk result (IsReady writer.new.core) }
    ensures written { OnOk result ((bs : List TableBatch) → HasWritten writer.old.core writer.old.sink.bytes.items bs
        → HasWritten writer.new.core writer.new.sink.bytes.items (bs ++ table_batch states.now ∷ [])) }
    ensures err { IfErr result IsSmall }
{
    let batch = batch_of(alloc, schema, values, states)?;
    writer.write(&batch, None)
}

/// Writes all batches.
fn write_batches(
    alloc: Global,
    writer: &mut FileWriter<Collected>,
    schema: &ArrowSchemaRef,
    seed: u64,
) -> Result<(), IpcError>
    requires ready { IsReady writer.old.core }
    requires schema { rc_value schema.now ≡ generated_schema }
    requires unwritten { HasWritten writer.old.core writer.old.sink.bytes.items [] }
    ensures ready { OnOk result (IsReady writer.new.core) }
    ensures written { OnOk result (HasWritten writer.new.core writer.new.sink.bytes.items (first_batches seed batch_count)) }
    ensures err { IfErr result IsSmall }
{
    let values = dictionary_values(alloc)?;
    let mut states = States::new(seed);
    for batch in 0..BATCHES {
        let rows = states.take(alloc, ROWS)?;
        write_rows(alloc, writer, schema, &values, rows.as_slice())?;
    }
    Ok(())
}

/// Ends a file, and gives its bytes.
fn ended(writer: FileWriter<Collected>) -> Result<Vec<u8>, IpcError>
    requires { IsReady writer.core }
    ensures table { IfOk result (λ v. (bs : List TableBatch) → HasWritten writer.core writer.sink.bytes.items bs
        → file_table v.items «all» ≡ Some (table_with bs)) }
    ensures err { IfErr result IsSmall }
{
    let mut writer = writer;
    writer.finish()?;
    Ok(writer.into_inner().into_bytes())
}

/// A file of the table that is generated from a number: 16 record batches of 4,096 rows.
///
/// # Errors
///
/// `Memory`, and `TooLarge` as of the writer of a file.
pub fn generate(alloc: Global, seed: u64) -> Result<Vec<u8>, IpcError>
    ensures table { IfOk result (λ v. file_table v.items «all» ≡ Some (generated_table seed)) }
    ensures refused { IfErr result IsSmall }
{
    let schema = Rc::new(alloc, generated_schema(alloc)?)?;
    let mut writer = begun(alloc, schema.clone()?)?;
    write_batches(alloc, &mut writer, &schema, seed)?;
    ended(writer)
}
