//! The line that is noted of a refusal.
ghost use Rattle.std.specs.Prelude.{◌≡◌};
ghost use Rattle.ipc_io.specs.Outside.{PutsFront, PutsHaveCause};
ghost use Rattle.ipc_tool.specs.Refusal.{front_of, line_of};
ghost use Rattle.ipc_tool.specs.Notes.{IsNoted};

use crate::refusal::Refusal;
use arrow_spec::IpcError;
use ipc_io::{PutError, Sink};

// The front of the line of an error of the library, up to the name.
fn error_front(error: &IpcError) -> &'static [u8]
    ensures { result.now ≡ front_of (Refusal.Ipc error.now) }
{
    match error {
        IpcError::OutOfSpec(_) => b"refused 1 ",
        IpcError::Unsupported(_) => b"refused 2 ",
        IpcError::TooDeep => b"refused 3 ",
        IpcError::TooMany(_) => b"refused 4 ",
        IpcError::Projection { .. } => b"refused 5 ",
        IpcError::TooLarge => b"refused 6 ",
        IpcError::SchemaMismatch => b"refused 7 ",
        IpcError::DictionaryReplaced { .. } => b"refused 8 ",
        IpcError::NotRepresentable => b"refused 9 ",
        IpcError::State => b"refused 10 ",
        IpcError::ReadFault => b"refused 11 ",
        IpcError::WriteFault => b"refused 12 ",
        IpcError::Memory => b"refused 13 ",
    }
}

// The front of the line, up to the name.
fn front(refusal: &Refusal) -> &'static [u8]
    ensures { result.now ≡ front_of refusal.now }
{
    match refusal {
        Refusal::Ipc(error) => error_front(error),
        Refusal::Words => b"refused 14 ",
        Refusal::NotHex => b"refused 15 ",
        Refusal::InputTooLong => b"refused 16 ",
        Refusal::NoName => b"refused 17 ",
    }
}

fn put_line<N: Sink>(notes: &mut N, refusal: &Refusal) -> Result<(), PutError>
    ensures bytes { PutsFront (N.written notes.old) (N.written notes.new) result (line_of refusal.now) }
    ensures cause { PutsHaveCause (N.faults notes.old) (N.faults notes.new) (N.wants notes.old) (N.wants notes.new) result }
{
    notes.put(front(refusal))?;
    notes.put(refusal.name().as_bytes())?;
    notes.put(b"\n")
}

/// Notes the line of a refusal. Where that fails, a part of it was noted.
pub fn note_refusal<N: Sink>(notes: &mut N, refusal: &Refusal)
    ensures { IsNoted refusal.now (N.written notes.old) (N.written notes.new) (N.faults notes.old) (N.faults notes.new) (N.wants notes.old) (N.wants notes.new) }
{
    let _ = put_line(notes, refusal);
}
