//! What is held is changed, and given back.
ghost use Rattle.std.specs.Prelude.{◌≡◌, ℤ, [], ◌∷◌, IfOk, IfErr};
ghost use Rattle.arrow_spec.specs.declared.error.IpcError.TheVariants.{Memory};
ghost use Rattle.arrow_arrays.specs.PartsOf.{forest_of};
ghost use Rattle.ipc_dictionaries.specs.Changes.{undone, Restores, CanUndo};
ghost use Rattle.ipc_dictionaries.specs.NewDictionaries.{held_with};
ghost use Rattle.ipc_dictionaries.specs.Tracker.{Held, held_in};

use arrow_arrays::{Array, clone_each};
use arrow_spec::IpcError;
use std::alloc::Global;
use std::collections::BTreeMap;

/// What was held under an id before it was changed.
#[derive(Drop)]
pub(crate) struct Change {
    id: i64,
    parts: Option<Vec<Array>>,
}

/// Puts second owners of these parts under an id, and writes down what was there.
pub(crate) fn replace(
    alloc: Global,
    dictionaries: &mut BTreeMap<i64, Vec<Array>>,
    id: i64,
    parts: &[Array],
    changes: &mut Vec<Change>,
) -> Result<(), IpcError>
    ensures held { IfOk result (λ _. (q : ℤ) → held_in dictionaries.new q ≡ held_with id (forest_of parts.now) (held_in dictionaries.old) q) }
    ensures restores { (before : Held) → Restores changes.old.items (held_in dictionaries.old) before → Restores changes.new.items (held_in dictionaries.new) before }
    ensures memory { IfErr result (λ e. e ≡ Memory) }
{
    changes.reserve(1)?;
    let copies = clone_each(alloc, parts)?;
    let parts = dictionaries.insert(id, copies)?;
    match changes.push(Change { id, parts }) {
        Ok(()) => Ok(()),
        Err(_) => unreachable!(),
    }
}

/// Gives back what was held under an id.
fn give_back(dictionaries: &mut BTreeMap<i64, Vec<Array>>, change: Change)
    requires { CanUndo (change ∷ []) (held_in dictionaries.old) }
    ensures { (q : ℤ) → held_in dictionaries.new q ≡ undone (change ∷ []) (held_in dictionaries.old) q }
{
    let Change { id, parts } = change;
    match parts {
        Some(parts) => match dictionaries.insert(id, parts) {
            Ok(replaced) => drop(replaced),
            Err(_) => unreachable!(),
        },
        None => drop(dictionaries.remove(&id)),
    }
}

/// Gives back what was held before some changes.
pub(crate) fn undo(dictionaries: &mut BTreeMap<i64, Vec<Array>>, changes: Vec<Change>)
    requires { CanUndo changes.items (held_in dictionaries.old) }
    ensures { (q : ℤ) → held_in dictionaries.new q ≡ undone changes.items (held_in dictionaries.old) q }
{
    let mut changes = changes;
    for _turn in 0..changes.len() {
        match changes.pop() {
            Some(change) => give_back(dictionaries, change),
            None => unreachable!(),
        }
    }
}
