//! The rows of several parts, one after another.
ghost use Rattle.std.specs.Prelude.{◌≡◌, ◌↔◌, ◌<◌, ◌≤◌, ◌++◌, length, get_or, IfNone, IfOk, IfSome, IsTrue};
ghost use Rattle.arrow_spec.specs.Arrays.{from_on};
ghost use Rattle.arrow_spec.specs.Cells.{null};
ghost use Rattle.dictionary_places.specs.Places.{AreRows, AreSame, HaveRows, SomeDiffers, place, places_from, values_in};

use arrow_arrays::Array;
use same_rows::have_same_rows;
use std::alloc::{AllocError, Global};

/// A part, and a row of it.
#[derive(Clone, Copy)]
pub(crate) struct Place {
    pub(crate) part: usize,
    pub(crate) row: usize,
}

/// Some parts, and the place of each of their rows.
#[derive(Clone, Copy)]
pub(crate) struct Rows<'a> {
    pub(crate) parts: &'a [Array],
    pub(crate) places: &'a [Place],
}

/// Puts the places of a part's rows behind others.
pub(crate) fn push_places(
    places: &mut Vec<Place>,
    part: usize,
    rows: usize,
) -> Result<(), AllocError>
    ensures { IfOk result (λ _. places.new.items ≡ places.old.items ++ from_on (place part) 0 rows) }
{
    places.reserve(rows)?;
    for row in 0..rows {
        places.push(Place { part, row })?;
    }
    Ok(())
}

/// The places of the rows of some parts.
pub(crate) fn places_of(alloc: Global, parts: &[Array]) -> Result<Vec<Place>, AllocError>
    ensures { IfOk result (λ v. AreRows parts.now v.items) }
{
    let mut places = Vec::new(alloc);
    for i in 0..parts.len() {
        let rows = parts[i].len();
        push_places(&mut places, i, rows)?;
    }
    Ok(places)
}

/// Whether two rows hold the same.
pub(crate) fn is_same_row(u: Rows, i: usize, v: Rows, j: usize) -> bool
    requires u { HaveRows u }
    requires v { HaveRows v }
    requires i { i < length u.places.now }
    requires j { j < length v.places.now }
    ensures { IsTrue result ↔ (get_or (values_in u.entry) i null ≡ get_or (values_in v.entry) j null) }
{
    let a = u.places[i];
    let b = v.places[j];
    let x = &u.parts[a.part];
    let y = &v.parts[b.part];
    have_same_rows(x, a.row, 1, y, b.row, 1)
}

/// How many rows from two on hold the same one by one: as many as there are in one part of each, and at most so many. None, where
/// some of them differ.
pub(crate) fn same_run(u: Rows, i: usize, v: Rows, j: usize, most: usize) -> Option<usize>
    requires u { HaveRows u }
    requires v { HaveRows v }
    requires i { i < length u.places.now }
    requires j { j < length v.places.now }
    requires some { 0 < most }
    ensures same { IfSome result (λ n. AreSame (values_in u.entry) i (values_in v.entry) j n) }
    ensures onward { IfSome result (λ n. 0 < n) }
    ensures within { IfSome result (λ n. n ≤ most) }
    ensures other { IfNone result (SomeDiffers (values_in u.entry) i (values_in v.entry) j most) }
{
    let a = u.places[i];
    let b = v.places[j];
    let x = &u.parts[a.part];
    let y = &v.parts[b.part];
    let (rows, others) = (x.len(), y.len());
    let count = most.min((rows - a.row).min(others - b.row));
    if have_same_rows(x, a.row, count, y, b.row, count) {
        Some(count)
    } else {
        None
    }
}
