//! The place at which rows fit into others.
ghost use Rattle.std.specs.Prelude.{◌≡◌, ◌<◌, ◌≤◌, ◌+◌, drop, IfOk, length};
ghost use Rattle.laws_unify.specs.Lists.{agree, fit};
ghost use Rattle.dictionary_places.specs.Below.{is_same_cell};
ghost use Rattle.dictionary_places.specs.Places.{HaveRows, values_in};
ghost use Rattle.dictionary_places.specs.Shifts.{AreShifts, IsNext, Survives};

use crate::rows::{Rows, is_same_row, same_run};
use std::alloc::{AllocError, Global};

/// Whether rows from one on agree with others as far as both go.
pub(crate) fn agree_from(u: Rows, at: usize, v: Rows) -> bool
    requires u { HaveRows u }
    requires v { HaveRows v }
    requires within { at ≤ length u.places.now }
    ensures { result ≡ agree is_same_cell (drop at (values_in u.entry)) (values_in v.entry) }
{
    let count = v.places.len().min(u.places.len() - at);
    let mut j = 0;
    while j < count {
        match same_run(u, at + j, v, j, count - j) {
            Some(rows) => j += rows,
            None => return false,
        }
    }
    true
}

/// The first place from one on from which on rows and others agree up to one row more.
fn advance(u: Rows, v: Rows, shifts: &[usize], from: usize, i: usize) -> usize
    requires u { HaveRows u }
    requires v { HaveRows v }
    requires inside { i < length u.places.now }
    requires start { from ≤ i }
    requires short { i < from + length v.places.now }
    requires survives { Survives (values_in u) (values_in v) from i }
    requires shifts { AreShifts (values_in v) shifts.now }
    requires known { i < from + length shifts.now }
    ensures { IsNext (values_in u.entry) (values_in v.entry) from i result }
{
    let mut at = from;
    while at <= i && !is_same_row(v, i - at, u, i) {
        at += shifts[i - at];
    }
    at
}

/// Of each row, how far on the rows next agree with themselves up to there.
fn shifts_of(alloc: Global, v: Rows) -> Result<Vec<usize>, AllocError>
    requires v { HaveRows v }
    requires some { 0 < length v.places.now }
    ensures shifts { IfOk result (λ s. AreShifts (values_in v.entry) s.items) }
    ensures count { IfOk result (λ s. length s.items ≡ length v.entry.places.now) }
{
    let mut shifts = Vec::new(alloc);
    shifts.push(1)?;
    let mut shift = 1;
    for i in 1..v.places.len() {
        shifts.push(shift)?;
        shift = advance(v, v, shifts.as_slice(), shift, i);
    }
    Ok(shifts)
}

/// The least place from which on rows and others agree.
pub(crate) fn fit_of(alloc: Global, u: Rows, v: Rows) -> Result<usize, AllocError>
    requires u { HaveRows u }
    requires v { HaveRows v }
    ensures { IfOk result (λ n. n ≡ fit is_same_cell (values_in u.entry) (values_in v.entry)) }
{
    if v.places.is_empty() {
        return Ok(0);
    }
    let shifts = shifts_of(alloc, v)?;
    let mut at = 0;
    for i in 0..u.places.len() {
        at = advance(u, v, shifts.as_slice(), at, i);
        if i + 1 - at == v.places.len() {
            return Ok(at);
        }
    }
    Ok(at)
}
