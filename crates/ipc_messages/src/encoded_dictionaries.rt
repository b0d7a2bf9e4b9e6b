//! The dictionaries of one column, and one dictionary, as messages.
ghost use Rattle.std.specs.Prelude.{◌≡◌, [], ◌∷◌, not, ◌&&◌, true};
ghost use Rattle.arrow_arrays.specs.Parts.{also, kind_in, none};
ghost use Rattle.arrow_arrays.specs.PartsOf.{parts_of, forest_of};
ghost use Rattle.ipc_fields.specs.IpcFields.{ids_of};
ghost use Rattle.ipc_dictionaries.specs.NewDictionaries.{has_several};
ghost use Rattle.ipc_dictionaries.specs.Tracker.{is_indexed, values_in};
ghost use Rattle.ipc_messages.specs.Chunks.{AddsDictionary, AddsNew, cannot_be_sent};

use crate::encoded::{add_messages, add_parts};
use arrow_arrays::Array;
use arrow_spec::{Feature, IpcError};
use ipc_dictionaries::{DictionaryTracker, new_dictionaries};
use ipc_fields::IpcField;
use ipc_fields::representable::is_representable;
use ipc_write::{EncodedData, WriteOptions};
use std::alloc::Global;
use std::slice;

/// Adds the messages of what of a column's dictionaries is to be sent behind a list: of dictionaries that stand in one another the inner
/// first. What the tracker holds then was sent by these messages.
///
/// # Errors
///
/// `Unsupported(Compression)` where compression is asked for, also where nothing is to be sent. As for
/// [`ipc_dictionaries::new_dictionaries`] and then, of the first message that is refused, as for [`ipc_write::encode_any_values`].
/// Each leaves what the tracker holds, and the list.
pub fn encode_new_dictionaries(
    alloc: Global,
    field: &IpcField,
    array: &Array,
    options: &WriteOptions,
    tracker: &mut DictionaryTracker,
    encoded: &mut Vec<EncodedData>,
) -> Result<(), IpcError>
    requires deltas { tracker.old.deltas ≡ options.now.deltas }
    ensures adds { AddsNew result options.now tracker.old tracker.new (also (parts_of array.now) none) (ids_of (field.now ∷ [])) encoded.old.items encoded.new.items }
    ensures options { (tracker.new.cannot_replace ≡ tracker.old.cannot_replace) × (tracker.new.deltas ≡ tracker.old.deltas) }
{
    if options.compression.is_some() {
        return Err(IpcError::Unsupported(Feature::Compression));
    }
    let fields = slice::from_ref(field);
    let arrays = slice::from_ref(array);
    let new = new_dictionaries(alloc, fields, arrays, tracker)?;
    match add_messages(alloc, new.messages.as_slice(), options, encoded) {
        Ok(()) => Ok(()),
        Err(error) => {
            new.undo(tracker);
            Err(error)
        }
    }
}

/// The parts of a dictionary's values.
fn parts_in(array: &Array) -> &[Array]
    requires { is_indexed (parts_of array.now) ≡ true }
    ensures { forest_of result.now ≡ values_in (parts_of array.now) }
{
    match array {
        Array::Dictionary(dictionary) => dictionary.parts(),
        _ => unreachable!(),
    }
}

/// Whether a dictionary's parts need deltas, and none are sent.
#[tactic(auto, using(ipc_dictionaries::proofs::Walking::several))]
fn lack_deltas(parts: &[Array], options: &WriteOptions) -> bool
    ensures { result ≡ (not options.now.deltas && has_several (forest_of parts.now)) }
{
    !options.deltas && parts.len() > 1
}

/// Whether a dictionary cannot be sent: the tables of a schema cannot say its type, or its parts need deltas, and none are sent.
fn cannot_be_sent(array: &Array, options: &WriteOptions) -> bool
    requires { is_indexed (parts_of array.now) ≡ true }
    ensures { result ≡ cannot_be_sent options.now (kind_in (parts_of array.now)) (values_in (parts_of array.now)) }
{
    !is_representable(array.dtype()) || lack_deltas(parts_in(array), options)
}

/// Adds the messages of a dictionary's values under an id behind a list: the first part as the dictionary, each other that has rows as a delta.
///
/// # Errors
///
/// `Unsupported(Compression)` where compression is asked for; `NotRepresentable` where a dictionary stands directly in a dictionary or in an
/// extension, or a size, a precision or a scale passes 2^31 - 1, or where there are several parts and the options send no deltas; then, of
/// the first message that is refused, as for [`ipc_write::encode_any_values`]; `Memory`. Each leaves the list.
pub fn encode_dictionary(
    alloc: Global,
    id: i64,
    array: &Array,
    options: &WriteOptions,
    encoded: &mut Vec<EncodedData>,
) -> Result<(), IpcError>
    requires { is_indexed (parts_of array.now) ≡ true }
    ensures { AddsDictionary result options.now id (kind_in (parts_of array.now)) (values_in (parts_of array.now)) encoded.old.items encoded.new.items }
{
    if options.compression.is_some() {
        return Err(IpcError::Unsupported(Feature::Compression));
    }
    if cannot_be_sent(array, options) {
        return Err(IpcError::NotRepresentable);
    }
    add_parts(alloc, id, parts_in(array), options, encoded)
}
