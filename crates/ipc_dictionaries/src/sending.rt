//! What of a batch's dictionaries is to be sent before it (Arrow Columnar Format, "Dictionary Messages").
ghost use Rattle.std.specs.Prelude.{◌≡◌, ℤ, [], ◌∷◌};
ghost use Rattle.arrow_arrays.specs.Parts.{also, none};
ghost use Rattle.arrow_arrays.specs.PartsOf.{parts_of, forest_of};
ghost use Rattle.ipc_fields.specs.IpcFields.{ids_of};
ghost use Rattle.ipc_dictionaries.specs.Batches.{Sends, SendsMore};
ghost use Rattle.ipc_dictionaries.specs.Changes.{undone, CanUndo};
ghost use Rattle.ipc_dictionaries.specs.Tracker.{held_by};
ghost use Rattle.ipc_dictionaries.specs.Walks.{options_of};

use crate::changes::{Change, undo};
use crate::columns::check_columns;
use crate::tracker::DictionaryTracker;
use crate::walk::{Progress, ToEncode, walk_arrays};
use arrow_arrays::Array;
use arrow_spec::IpcError;
use ipc_fields::IpcField;
use std::alloc::Global;
use std::slice;

/// The dictionary batches that are to be encoded before a batch, in order, and what the tracker held before them.
#[derive(Drop)]
pub struct NewDictionaries {
    /// The dictionary batches, in the order in which they are to be sent.
    pub messages: Vec<ToEncode>,
    changes: Vec<Change>,
}

impl NewDictionaries {
    /// Gives the tracker back what it held before.
    pub fn undo(self, tracker: &mut DictionaryTracker)
        requires { CanUndo self.changes.items (held_by tracker.old) }
        ensures held { (q : ℤ) → held_by tracker.new q ≡ undone self.changes.items (held_by tracker.old) q }
        ensures options { options_of tracker.new ≡ options_of tracker.old }
    {
        undo(&mut tracker.dictionaries, self.changes);
    }
}

/// Takes the dictionaries of a batch's columns under the ids of their IPC fields, and says what of them is to be sent
/// before the batch. Of the parts of one dictionary each stands behind the dictionaries that stand in it.
///
/// # Errors
///
/// `SchemaMismatch` where the IPC fields have not the shape of the arrays (one for each child, an id exactly at each
/// dictionary) or values of two kinds stand under one id; then `NotRepresentable` where a dictionary stands directly
/// in a dictionary or in an extension, or a size, a precision or a scale passes 2^31 - 1. Then at the first place in
/// order: `DictionaryReplaced` where other values are held under an id, or stand there in the same batch, that may not be
/// replaced; `NotRepresentable` where a dictionary of several parts is sent whole and no deltas are sent. `Memory`. Each
/// leaves what the tracker holds.
pub fn new_dictionaries(
    alloc: Global,
    fields: &[IpcField],
    arrays: &[Array],
    tracker: &mut DictionaryTracker,
) -> Result<NewDictionaries, IpcError>
    ensures sends { Sends result tracker.old tracker.new (forest_of arrays.now) (ids_of fields.now) }
    ensures options { options_of tracker.new ≡ options_of tracker.old }
{
    check_columns(alloc, fields, arrays)?;
    let mut progress = Progress::new(alloc);
    match walk_arrays(alloc, arrays, fields, tracker, &mut progress) {
        Ok(()) => Ok(NewDictionaries {
            messages: progress.messages,
            changes: progress.changes,
        }),
        Err(error) => {
            undo(&mut tracker.dictionaries, progress.changes);
            Err(error)
        }
    }
}

/// Adds to a list what of the dictionaries of one column is to be sent, as [`new_dictionaries`] says.
///
/// # Errors
///
/// As for [`new_dictionaries`]; each leaves what the tracker holds, and the list.
pub fn dictionaries_to_encode(
    alloc: Global,
    field: &IpcField,
    array: &Array,
    tracker: &mut DictionaryTracker,
    dictionaries: &mut Vec<ToEncode>,
) -> Result<(), IpcError>
    ensures sends { SendsMore result tracker.old dictionaries.old.items tracker.new dictionaries.new.items (also (parts_of array.now) none) (ids_of (field.now ∷ [])) }
    ensures options { options_of tracker.new ≡ options_of tracker.old }
{
    let fields = slice::from_ref(field);
    let arrays = slice::from_ref(array);
    let new = new_dictionaries(alloc, fields, arrays, tracker)?;
    let NewDictionaries { messages, changes } = new;
    let mut messages = messages;
    match dictionaries.append(&mut messages) {
        Ok(()) => Ok(()),
        Err(_) => {
            undo(&mut tracker.dictionaries, changes);
            Err(IpcError::Memory)
        }
    }
}
