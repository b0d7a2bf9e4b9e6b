//! A list of values for all dictionaries that stand at one place of a schema.
ghost use Rattle.std.specs.Prelude.{◌≡◌, ◌+◌, ◌<◌, ◌≤◌, ◌^◌, IfOk, None, length};
ghost use Rattle.laws_unify.specs.Lists.{StandsAt, fit};
ghost use Rattle.laws_unify.specs.United.{behind, parts_from, rows_from};
ghost use Rattle.arrow_arrays.specs.Parts.{fault_each, none, rows_in};
ghost use Rattle.arrow_arrays.specs.PartsOf.{forest_of, parts_of};
ghost use Rattle.dictionary_places.specs.Below.{held_in, is_same_cell, place_in, values_of, with_parts};
ghost use Rattle.dictionary_places.specs.Lists.{IsKept, parts_in};
ghost use Rattle.dictionary_places.specs.Places.{AreRows, HaveRows, places_from, values_in};

use crate::rows::{Place, Rows, places_of, push_places};
use crate::search::{agree_from, fit_of};
use arrow_arrays::Array;
use std::alloc::{AllocError, Global};

/// The parts of a list, the place of each of their rows, and where the dictionary that was taken last stands in it.
#[derive(Drop)]
pub struct DictionaryList {
    pub(crate) parts: Vec<Array>,
    pub(crate) places: Vec<Place>,
    pub(crate) last: usize,
    pub(crate) last_rows: usize,
}

/// A second owner of a part's rows from a row on.
fn copy_from(alloc: Global, part: &Array, row: usize) -> Result<Array, AllocError>
    requires { row ≤ rows_in (parts_of part.now) }
    ensures { IfOk result (λ a. parts_of a ≡ rows_from row (parts_of part.now)) }
{
    let rows = part.len();
    let copy = part.try_clone(alloc)?;
    Ok(copy.sliced(row, rows - row))
}

impl DictionaryList {
    /// A list without parts.
    pub fn new(alloc: Global) -> DictionaryList
        ensures parts { parts_in result ≡ none }
        ensures kept { IsKept result }
    {
        DictionaryList {
            parts: Vec::new(alloc),
            places: Vec::new(alloc),
            last: 0,
            last_rows: 0,
        }
    }

    /// The parts, in order.
    pub fn parts(&self) -> &[Array]
        ensures { forest_of result.now ≡ parts_in self.now }
    {
        self.parts.as_slice()
    }

    /// The place at which rows fit: that of the last ones, where these begin with them and agree with the list from there on.
    fn find(&self, alloc: Global, rows: Rows) -> Result<usize, AllocError>
        requires kept { IsKept self.now }
        requires rows { HaveRows rows }
        ensures place { IfOk result (λ n. n ≡ fit is_same_cell (values_of (parts_in self.now)) (values_in rows.entry)) }
        ensures within { IfOk result (λ n. n ≤ length self.now.places.items) }
    {
        let own = Rows {
            parts: self.parts.as_slice(),
            places: self.places.as_slice(),
        };
        if self.last_rows <= rows.places.len() && agree_from(own, self.last, rows) {
            return Ok(self.last);
        }
        fit_of(alloc, own, rows)
    }

    /// Puts the rows of some parts from a row of them on behind the list, each part's as a part.
    fn append(&mut self, alloc: Global, parts: &[Array], held: usize) -> Result<(), AllocError>
        requires { AreRows self.old.parts.items self.old.places.items }
        ensures parts { IfOk result (λ _. parts_in self.new ≡ behind (parts_in self.old) (parts_from held (forest_of parts.now))) }
        ensures rows { IfOk result (λ _. AreRows self.new.parts.items self.new.places.items) }
    {
        let mut rest = held;
        for part in parts {
            let rows = part.len();
            if rows <= rest {
                rest -= rows;
                continue;
            }
            let copy = copy_from(alloc, part, rest)?;
            let count = self.parts.len();
            push_places(&mut self.places, count, rows - rest)?;
            self.parts.push(copy)?;
            rest = 0;
        }
        Ok(())
    }

    /// Takes a dictionary: what it has beyond the list's end, where the two are laid over one another at its place, is put behind the
    /// list. How many of its values the list held from that place on. Where memory runs out the list is of no further use.
    pub fn take(&mut self, alloc: Global, parts: &[Array]) -> Result<usize, AllocError>
        requires { IsKept self.old }
        ensures held { IfOk result (λ n. n ≡ held_in (parts_in self.old) (forest_of parts.now)) }
        ensures parts { IfOk result (λ _. parts_in self.new ≡ with_parts (parts_in self.old) (forest_of parts.now)) }
        ensures kept { IfOk result (λ _. IsKept self.new) }
    {
        let places = places_of(alloc, parts)?;
        let rows = Rows {
            parts,
            places: places.as_slice(),
        };
        let at = self.find(alloc, rows)?;
        let held = self.places.len() - at;
        self.append(alloc, parts, held)?;
        self.last = at;
        self.last_rows = places.len();
        Ok(held)
    }

    /// The place of a dictionary that was taken.
    pub fn place_of(&mut self, alloc: Global, parts: &[Array]) -> Result<usize, AllocError>
        requires kept { IsKept self.old }
        requires stands { StandsAt is_same_cell (values_of (parts_in self.old)) (values_of (forest_of parts.now)) }
        ensures place { IfOk result (λ n. n ≡ place_in (parts_in self.old) (forest_of parts.now)) }
        ensures within { IfOk result (λ n. n + length (values_of (forest_of parts.now)) < 2 ^ 64) }
        ensures parts { IfOk result (λ _. parts_in self.new ≡ parts_in self.old) }
        ensures kept { IfOk result (λ _. IsKept self.new) }
    {
        let places = places_of(alloc, parts)?;
        let rows = Rows {
            parts,
            places: places.as_slice(),
        };
        let at = self.find(alloc, rows)?;
        self.last = at;
        self.last_rows = places.len();
        Ok(at)
    }

    /// Puts other parts, which have as many rows each, in the place of the list's.
    pub fn set_parts(&mut self, parts: Vec<Array>)
        requires rows { AreRows self.old.parts.items self.old.places.items }
        requires same { places_from 0 (parts.items) ≡ places_from 0 self.old.parts.items }
        requires sound { fault_each (forest_of parts.items) ≡ None }
        ensures parts { parts_in self.new ≡ forest_of parts.items }
        ensures kept { IsKept self.new }
    {
        self.parts = parts;
        self.last = 0;
        self.last_rows = 0;
    }
}
