//! The metadata of several files, which is read before any of their batches.
ghost use Rattle.std.specs.Prelude.{◌≡◌, ◌↔◌, IfErr, IfOk, IfSome, IsTrue, None, length, map, true};
ghost use Rattle.arrow_spec.specs.Readings.{Refuses, refusals};
ghost use Rattle.ipc_io.specs.Outside.{LeavesFaults, SourceKept};
ghost use Rattle.laws_walk.specs.Below.{FileCause};
ghost use Rattle.ipc_concat.specs.Concat.{ConcatCause, EachKept};
ghost use Rattle.ipc_concat.specs.Files.{AreAlike, AreUnread, FitsFirst, FitsKinds, IsUnread};
ghost use Rattle.ipc_concat.specs.Opening.{StopsOpening, opening};
ghost use Rattle.ipc_concat.specs.Tables.{told};

use arrow_spec::IpcError;
use ipc_io::Source;
use laws_walk::{FileCursor, read_file_metadata};
use same_fields::have_same_fields;
use std::alloc::Global;

/// A reader of all columns and rows of a file, whose metadata is read.
fn open_file<S: Source>(alloc: Global, source: &mut S) -> Result<FileCursor, IpcError>
    ensures opened { IfOk result (λ c. IsUnread (S.content source.old) c) }
    ensures refused { IfErr result (λ e. IfSome (S.content source.old) (λ b. Refuses e (refusals (opening b)))) }
    ensures cause { IfErr result (λ e. FileCause e (S.faults source.old) (S.faults source.new)) }
    ensures faults_stay { LeavesFaults (S.faults source.old) (S.faults source.new) result }
    ensures kept { SourceKept S.content S.faults S.references source.old source.new }
{
    let file = read_file_metadata(alloc, source)?;
    let reader = FileCursor::new(alloc, file, None, None)?;
    Ok(reader)
}

/// Whether a file has the fields of the first of some, if there is one.
fn fits_first(readers: &[FileCursor], reader: &FileCursor) -> bool
    ensures fields { IsTrue result ↔ FitsFirst readers.now reader.now }
    ensures kinds { result ≡ true → FitsKinds readers.now reader.now }
{
    match readers {
        [] => true,
        [first, ..] => have_same_fields(&first.metadata().schema, &reader.metadata().schema),
    }
}

/// Readers of several files of the same fields, of which all metadata is read, in order.
pub(crate) fn open_files<S: Source>(
    alloc: Global,
    sources: &mut [S],
) -> Result<Vec<FileCursor>, IpcError>
    ensures opened { IfOk result (λ v. AreUnread (map S.content sources.old) v.items) }
    ensures alike { IfOk result (λ v. AreAlike v.items) }
    ensures refused { IfErr result (λ e. IfSome (told (map S.content sources.old)) (λ bs. StopsOpening e bs)) }
    ensures cause { IfErr result (λ e. ConcatCause e (map S.faults sources.old) (map S.faults sources.new) 0 0) }
    ensures kept { EachKept S.content S.faults S.references sources.old sources.new }
{
    let mut readers = Vec::new(alloc);
    for i in 0..sources.len() {
        let source = &mut sources[i];
        let reader = open_file(alloc, source)?;
        if !fits_first(readers.as_slice(), &reader) {
            return Err(IpcError::SchemaMismatch);
        }
        readers.push(reader)?;
    }
    Ok(readers)
}
