//! The dictionaries that a writer has sent (Arrow Columnar Format, "Dictionary Messages").
ghost use Rattle.std.specs.Prelude.{◌≡◌, ℤ, true, None, IfOk, IfErr};
ghost use Rattle.arrow_spec.specs.declared.error.IpcError.TheVariants.{Memory};
ghost use Rattle.arrow_arrays.specs.Heads.{indexed, values_kind};
ghost use Rattle.arrow_arrays.specs.Parts.{nested, kind_in};
ghost use Rattle.arrow_arrays.specs.PartsOf.{parts_of, forest_of};
ghost use Rattle.ipc_dictionaries.specs.Standing.{delta_start, standing};
ghost use Rattle.ipc_dictionaries.specs.Tracker.{held_by, held_in, values_in, is_indexed, IsKept, IsPut, Inserts};

use crate::comparison::{Standing, allowed, delta_start, standing_to};
use arrow_arrays::{Array, DictionaryArray, clone_each};
use arrow_spec::IpcError;
use std::alloc::Global;
use std::collections::BTreeMap;

/// What a writer has sent of dictionaries: under each id the parts of its values, in order.
pub struct DictionaryTracker {
    /// The parts under each id.
    pub dictionaries: BTreeMap<i64, Vec<Array>>,
    /// Whether other values under an id are refused, as in a file.
    pub cannot_replace: bool,
    /// Whether values that begin with those that are held are sent as a delta.
    pub deltas: bool,
}

impl Drop for DictionaryTracker {
    fn drop(self) {
        let DictionaryTracker {
            dictionaries,
            cannot_replace: _,
            deltas: _,
        } = self;
        drop(dictionaries);
    }
}

/// An array that is a dictionary.
fn dictionary_of(array: &Array) -> &DictionaryArray
    requires { is_indexed (parts_of array.now) ≡ true }
    ensures { nested (indexed result.now.head) result.now.children ≡ parts_of array.now }
{
    match array {
        Array::Dictionary(dictionary) => dictionary,
        _ => unreachable!(),
    }
}

/// Puts second owners of these parts under an id, in place of those that it held.
fn hold(
    alloc: Global,
    dictionaries: &mut BTreeMap<i64, Vec<Array>>,
    id: i64,
    parts: &[Array],
) -> Result<(), IpcError>
    ensures put { IfOk result (λ _. IsPut id (forest_of parts.now) (held_in dictionaries.old) (held_in dictionaries.new)) }
    ensures kept { IfErr result (λ _. IsKept (held_in dictionaries.old) (held_in dictionaries.new)) }
    ensures memory { IfErr result (λ e. e ≡ Memory) }
{
    let copies = clone_each(alloc, parts)?;
    drop(dictionaries.insert(id, copies)?);
    Ok(())
}

impl DictionaryTracker {
    /// A tracker that holds nothing.
    pub fn new(alloc: Global, cannot_replace: bool, deltas: bool) -> DictionaryTracker
        ensures nothing { (id : ℤ) → held_by result id ≡ None }
        ensures options { (result.cannot_replace ≡ cannot_replace) × (result.deltas ≡ deltas) }
    {
        DictionaryTracker {
            dictionaries: BTreeMap::new(alloc),
            cannot_replace,
            deltas,
        }
    }

    /// How a dictionary's values stand to those that are held under an id.
    pub(crate) fn standing(&self, id: i64, dictionary: &DictionaryArray) -> Standing
        ensures { result ≡ standing (held_by self.now id) (values_kind dictionary.now.head.kind) dictionary.now.children }
    {
        match self.dictionaries.get(&id) {
            None => Standing::Absent,
            Some(held) => standing_to(held.as_slice(), dictionary.dtype(), dictionary.parts()),
        }
    }

    /// Puts a dictionary's values under an id, and answers whether they were not there yet.
    ///
    /// # Errors
    ///
    /// `DictionaryReplaced` where other values are held, which may not be replaced and which these do not go on; `Memory`.
    /// Each leaves what is held.
    pub fn insert(&mut self, alloc: Global, id: i64, array: &Array) -> Result<bool, IpcError>
        requires { is_indexed (parts_of array.now) ≡ true }
        ensures inserts { Inserts result self.old self.new id (parts_of array.now) }
        ensures options { (self.new.cannot_replace ≡ self.old.cannot_replace) × (self.new.deltas ≡ self.old.deltas) }
    {
        let dictionary = dictionary_of(array);
        let standing = self.standing(id, dictionary);
        match allowed(self.cannot_replace, self.deltas, standing) {
            None => Err(IpcError::DictionaryReplaced { id }),
            Some(false) => Ok(false),
            Some(true) => {
                hold(alloc, &mut self.dictionaries, id, dictionary.parts())?;
                Ok(true)
            }
        }
    }

    /// How many cells of a dictionary's values are held under an id already, where there are more, and where deltas are sent.
    pub fn delta_from(&self, id: i64, array: &Array) -> Option<u128>
        requires { is_indexed (parts_of array.now) ≡ true }
        ensures { result ≡ delta_start self.now.deltas (standing (held_by self.now id) (values_kind (kind_in (parts_of array.now))) (values_in (parts_of array.now))) }
    {
        delta_start(self.deltas, self.standing(id, dictionary_of(array)))
    }
}
