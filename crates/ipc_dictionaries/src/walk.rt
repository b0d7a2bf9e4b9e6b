//! A batch's arrays are walked for the dictionaries that are to be sent before it.
ghost use Rattle.std.specs.Prelude.{◌≡◌, ◌≤◌, ◌&&◌, ◌||◌, ℤ, [], None, Some, true, false, not, nat_le, IfOk, is_some};
ghost use Rattle.std.specs.Option.{unwrap_or};
ghost use Rattle.arrow_arrays.specs.Heads.{indexed};
ghost use Rattle.arrow_arrays.specs.Parts.{nested, rows_in};
ghost use Rattle.arrow_arrays.specs.PartsOf.{parts_of, forest_of};
ghost use Rattle.ipc_fields.specs.IpcFields.{ids_of};
ghost use Rattle.ipc_fields.specs.Uses.{id_under};
ghost use Rattle.ipc_dictionaries.specs.NewDictionaries.{array_sent, arrays_sent, dictionary_sent, parts_sent, message_of, rows_from, has_several};
ghost use Rattle.ipc_dictionaries.specs.Used.{used_by, Adds};
ghost use Rattle.ipc_dictionaries.specs.Walks.{options_of, sending_of, Walks, Keeps, PartSent, PartsSent};

use crate::changes::{Change, replace};
use crate::comparison::{allowed, delta_start};
use crate::tracker::DictionaryTracker;
use crate::used::UsedIds;
use arrow_arrays::{Array, DictionaryArray};
use arrow_spec::IpcError;
use ipc_fields::IpcField;
use ipc_fields::uses::{fields_at, id_at};
use std::alloc::{AllocError, Global};
use std::slice;

/// A dictionary batch that is to be encoded.
pub struct ToEncode {
    /// The id of the dictionary.
    pub id: i64,
    /// The values: a part of the dictionary's.
    pub values: Array,
    /// Whether they go on with those that were sent under the id.
    pub is_delta: bool,
}

impl Drop for ToEncode {
    fn drop(self) {
        let ToEncode {
            id: _,
            values,
            is_delta: _,
        } = self;
        drop(values);
    }
}

/// What a walk has come to: the ids that are fixed, the messages and the changes of what is held.
#[derive(Drop)]
pub(crate) struct Progress {
    pub(crate) used: UsedIds,
    pub(crate) messages: Vec<ToEncode>,
    pub(crate) changes: Vec<Change>,
}

impl Progress {
    pub(crate) fn new(alloc: Global) -> Progress
        ensures used { (q : ℤ) → used_by result.used q ≡ false }
        ensures messages { result.messages.items ≡ [] }
        ensures changes { result.changes.items ≡ [] }
    {
        Progress {
            used: UsedIds::new(alloc),
            messages: Vec::new(alloc),
            changes: Vec::new(alloc),
        }
    }
}

/// A second owner of the rows from a row on.
fn rows_from(alloc: Global, part: &Array, row: usize) -> Result<Array, AllocError>
    requires { row ≤ rows_in (parts_of part.now) }
    ensures { IfOk result (λ a. parts_of a ≡ rows_from row (parts_of part.now)) }
{
    let rows = part.len();
    let copy = part.try_clone(alloc)?;
    if row == 0 {
        return Ok(copy);
    }
    Ok(copy.sliced(row, rows - row))
}

/// The id of a dictionary, 0 where none is given.
fn id_or_zero(id: Option<i64>) -> i64
    ensures { result ≡ id_under id }
{
    match id {
        Some(id) => id,
        None => 0,
    }
}

/// Whether the values under an id may not be replaced.
fn is_fixed(tracker: &DictionaryTracker, used: &UsedIds, id: i64) -> bool
    ensures { result ≡ (tracker.now.cannot_replace || used_by used.now id) }
{
    tracker.cannot_replace || used.contains(id)
}

/// Whether the parts of a dictionary that is sent whole need deltas, and none are sent.
#[tactic(auto, using(crate::proofs::Walking::several))]
fn lack_deltas(parts: &[Array], start: Option<u128>, deltas: bool) -> bool
    ensures { result ≡ (not (is_some start) && not deltas && has_several (forest_of parts.now)) }
{
    match start {
        Some(_) => false,
        None => !deltas && parts.len() > 1,
    }
}

/// Whether a part has no row that is sent: all of them stand before the rest, which goes on with what is held.
fn is_passed(rows: u128, rest: u128, is_delta: bool) -> bool
    ensures { result ≡ (is_delta && nat_le rows rest) }
{
    is_delta && rows <= rest
}

/// Walks an array under the ids of its IPC field.
#[cycle(walk)]
fn walk_array(
    alloc: Global,
    array: &Array,
    id: Option<i64>,
    fields: &[IpcField],
    tracker: &mut DictionaryTracker,
    progress: &mut Progress,
) -> Result<(), IpcError>
    ensures walks { Walks result (array_sent (options_of tracker.old) (parts_of array.now) id (ids_of fields.now) (sending_of tracker.old progress.old)) (sending_of tracker.new progress.new) }
    ensures adds { IfOk result (λ _. Adds progress.old.used progress.new.used) }
    ensures keeps { Keeps tracker.old progress.old tracker.new progress.new }
{
    match array {
        Array::List(list) => walk_arrays(
            alloc,
            slice::from_ref(list.values()),
            fields,
            tracker,
            progress,
        ),
        Array::FixedSizeList(list) => walk_arrays(
            alloc,
            slice::from_ref(list.values()),
            fields,
            tracker,
            progress,
        ),
        Array::Map(map) => walk_arrays(
            alloc,
            slice::from_ref(map.field()),
            fields,
            tracker,
            progress,
        ),
        Array::Struct(columns) => walk_arrays(alloc, columns.values(), fields, tracker, progress),
        Array::Union(union) => walk_arrays(alloc, union.fields(), fields, tracker, progress),
        Array::Dictionary(dictionary) => walk_dictionary(
            alloc,
            dictionary,
            id_or_zero(id),
            fields,
            tracker,
            progress,
        ),
        _ => Ok(()),
    }
}

/// Walks arrays under IPC fields, in order.
#[cycle(walk)]
pub(crate) fn walk_arrays(
    alloc: Global,
    arrays: &[Array],
    fields: &[IpcField],
    tracker: &mut DictionaryTracker,
    progress: &mut Progress,
) -> Result<(), IpcError>
    ensures walks { Walks result (arrays_sent (options_of tracker.old) (forest_of arrays.now) (ids_of fields.now) (sending_of tracker.old progress.old)) (sending_of tracker.new progress.new) }
    ensures adds { IfOk result (λ _. Adds progress.old.used progress.new.used) }
    ensures keeps { Keeps tracker.old progress.old tracker.new progress.new }
{
    for i in 0..arrays.len() {
        walk_array(
            alloc,
            &arrays[i],
            id_at(fields, i),
            fields_at(fields, i),
            tracker,
            progress,
        )?;
    }
    Ok(())
}

/// Walks a dictionary under an id.
#[cycle(walk)]
fn walk_dictionary(
    alloc: Global,
    dictionary: &DictionaryArray,
    id: i64,
    fields: &[IpcField],
    tracker: &mut DictionaryTracker,
    progress: &mut Progress,
) -> Result<(), IpcError>
    ensures walks { Walks result (array_sent (options_of tracker.old) (nested (indexed dictionary.now.head) dictionary.now.children) (Some id) (ids_of fields.now) (sending_of tracker.old progress.old)) (sending_of tracker.new progress.new) }
    ensures adds { IfOk result (λ _. Adds progress.old.used progress.new.used) }
    ensures keeps { Keeps tracker.old progress.old tracker.new progress.new }
{
    let standing = tracker.standing(id, dictionary);
    let is_fixed = is_fixed(tracker, &progress.used, id);
    match allowed(is_fixed, tracker.deltas, standing) {
        None => Err(IpcError::DictionaryReplaced { id }),
        Some(false) => progress.used.add(id),
        Some(true) => {
            let start = delta_start(tracker.deltas, standing);
            send_dictionary(
                alloc,
                dictionary.parts(),
                start,
                id,
                fields,
                tracker,
                progress,
            )
        }
    }
}

/// Sends the parts of a dictionary from a row on as deltas, or all of them, and holds them under the id.
#[cycle(walk)]
fn send_dictionary(
    alloc: Global,
    parts: &[Array],
    start: Option<u128>,
    id: i64,
    fields: &[IpcField],
    tracker: &mut DictionaryTracker,
    progress: &mut Progress,
) -> Result<(), IpcError>
    ensures walks { Walks result (dictionary_sent (options_of tracker.old) (Some true) start id (forest_of parts.now) (sending_of tracker.old progress.old) (parts_sent (options_of tracker.old) (used_by progress.old.used) id (ids_of fields.now) (is_some start) (unwrap_or start 0) (forest_of parts.now) (sending_of tracker.old progress.old))) (sending_of tracker.new progress.new) }
    ensures adds { IfOk result (λ _. Adds progress.old.used progress.new.used) }
    ensures keeps { Keeps tracker.old progress.old tracker.new progress.new }
{
    if lack_deltas(parts, start, tracker.deltas) {
        return Err(IpcError::NotRepresentable);
    }
    let count = progress.used.count();
    send_parts(alloc, parts, start, id, fields, tracker, progress)?;
    replace(
        alloc,
        &mut tracker.dictionaries,
        id,
        parts,
        &mut progress.changes,
    )?;
    progress.used.put_back(count)?;
    progress.used.add(id)
}

/// Sends the parts of a dictionary from a row on as deltas, or all of them: the first in place of what is held.
#[cycle(walk)]
fn send_parts(
    alloc: Global,
    parts: &[Array],
    start: Option<u128>,
    id: i64,
    fields: &[IpcField],
    tracker: &mut DictionaryTracker,
    progress: &mut Progress,
) -> Result<(), IpcError>
    ensures walks { PartsSent result tracker.new progress.old progress.new (parts_sent (options_of tracker.old) (used_by progress.old.used) id (ids_of fields.now) (is_some start) (unwrap_or start 0) (forest_of parts.now) (sending_of tracker.old progress.old)) }
    ensures keeps { Keeps tracker.old progress.old tracker.new progress.new }
{
    let mut is_delta = start.is_some();
    let mut rest = start.unwrap_or(0);
    for part in parts {
        let rows = part.len() as u128;
        if is_passed(rows, rest, is_delta) {
            rest -= rows;
            continue;
        }
        let row = rest as usize;
        send_part(alloc, part, row, id, is_delta, fields, tracker, progress)?;
        is_delta = true;
        rest = 0;
    }
    Ok(())
}

/// Sends the rows of a part from a row on, behind the dictionaries that stand in it. The ids that these fix are not fixed for the next part.
#[cycle(walk)]
fn send_part(
    alloc: Global,
    part: &Array,
    row: usize,
    id: i64,
    is_delta: bool,
    fields: &[IpcField],
    tracker: &mut DictionaryTracker,
    progress: &mut Progress,
) -> Result<(), IpcError>
    requires { row ≤ rows_in (parts_of part.now) }
    ensures walks { PartSent result tracker.new progress.old progress.new (message_of id is_delta (rows_from row (parts_of part.now))) (array_sent (options_of tracker.old) (parts_of part.now) None (ids_of fields.now) (sending_of tracker.old progress.old)) }
    ensures keeps { Keeps tracker.old progress.old tracker.new progress.new }
{
    let count = progress.used.count();
    walk_array(alloc, part, None, fields, tracker, progress)?;
    progress.used.take_off(count);
    let values = rows_from(alloc, part, row)?;
    let message = ToEncode {
        id,
        values,
        is_delta,
    };
    progress.messages.push(message)?;
    Ok(())
}
