//! Messages that were encoded, and the end of a file behind them.
ghost use Rattle.std.specs.Prelude.{◌≡◌, Ok, true};
ghost use Rattle.ipc_append.specs.Puts.{EndsFile, GivesAll};
ghost use Rattle.laws_sent.specs.Below.{moved};
ghost use Rattle.ipc_file_writer.specs.Begun.{MayEnd};
ghost use Rattle.ipc_file_writer.specs.Below.{is_started};

use crate::encode::EncodedChunk;
use arrow_spec::IpcError;
use ipc_file_writer::FileWriter;
use ipc_io::Sink;

/// Writes the messages of batches, in order.
fn write_chunks<W: Sink>(
    writer: &mut FileWriter<W>,
    chunks: &[EncodedChunk],
) -> Result<(), IpcError>
    requires { is_started writer.old.core.state ≡ true }
    ensures gives { GivesAll (moved (W.written writer.old.sink) (W.written writer.new.sink) (W.faults writer.old.sink) (W.faults writer.new.sink) (W.wants writer.old.sink) (W.wants writer.new.sink)) result writer.old.core writer.new.core chunks.now }
    ensures same_references { W.references writer.new.sink ≡ W.references writer.old.sink }
{
    for chunk in chunks {
        writer.write_encoded(chunk.dictionaries.as_slice(), &chunk.batch)?;
    }
    Ok(())
}

/// Writes the messages of batches, in order, and ends the file.
///
/// # Errors
///
/// As of `write_encoded` and `finish` of a `FileWriter`.
pub(crate) fn write_file<W: Sink>(
    writer: &mut FileWriter<W>,
    chunks: &[EncodedChunk],
) -> Result<(), IpcError>
    requires started { is_started writer.old.core.state ≡ true }
    requires may_end { MayEnd (Ok tt) writer.old.core }
    ensures ends { EndsFile (moved (W.written writer.old.sink) (W.written writer.new.sink) (W.faults writer.old.sink) (W.faults writer.new.sink) (W.wants writer.old.sink) (W.wants writer.new.sink)) result writer.old.core writer.new.core chunks.now }
    ensures same_references { W.references writer.new.sink ≡ W.references writer.old.sink }
{
    write_chunks(writer, chunks)?;
    writer.finish()
}
