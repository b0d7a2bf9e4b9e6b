//! The offsets of rows, and the items between them (Arrow Columnar Format, "Variable-size Binary Layout").
ghost use Rattle.std.specs.Prelude.{◌≡◌, ◌+◌, ◌-◌, ◌<◌, ◌≤◌, ◌++◌, [], ◌∷◌, length, map, pos, true, IfOk, OnOk};
ghost use Rattle.arrow_spec.specs.Needed.{numbers_from};
ghost use Rattle.arrow_buffers.specs.Variable.{are_offsets, place_at, variable_rows};
ghost use Rattle.array_filter.specs.Runs.{Climb, rows_in_runs, rows_of};
ghost use Rattle.array_filter.specs.Offsets.{ends_on, items_taken, offsets_taken, row_length};

use crate::runs::{Run, is_one};
use arrow_buffers::Buffer;
use arrow_types::Offset;
use std::alloc::{AllocError, Global};

/// The place of an offset, which an offset can say.
fn place_in<O: Offset>(offsets: &Buffer<O>, i: usize, limit: usize) -> usize
    requires rise { are_offsets (map O.number offsets.now) limit ≡ true }
    requires below { i < length offsets.now }
    ensures place { result ≡ place_at (map O.number offsets.now) i }
    ensures fits { result < O.limit }
    ensures within { result ≤ limit }
{
    match offsets.get(i).to_usize() {
        Some(place) => place,
        None => unreachable!(),
    }
}

/// A place as an offset.
fn offset_of<O: Offset>(place: usize) -> O
    requires { place < O.limit }
    ensures { O.number result ≡ pos place }
{
    match O::from_usize(place) {
        Some(offset) => offset,
        None => unreachable!(),
    }
}

/// Adds where the rows of a run end, the first of which begins at a place.
fn push_ends<O: Offset>(
    ends: &mut Vec<O>,
    offsets: &Buffer<O>,
    limit: usize,
    run: Run,
    begin: usize,
) -> Result<(), AllocError>
    requires rise { are_offsets (map O.number offsets.now) limit ≡ true }
    requires within { run.from + run.count < length offsets.now }
    requires low { begin ≤ place_at (map O.number offsets.now) run.from }
    ensures { OnOk result (map O.number ends.new.items ≡ map O.number ends.old.items ++ ends_on begin (map (row_length (map O.number offsets.now)) (rows_of run))) }
{
    let _count = offsets.len();
    let first = place_in(offsets, run.from, limit);
    for i in 0..run.count {
        let place = place_in(offsets, run.from + i + 1, limit);
        ends.push(offset_of(begin + (place - first)))?;
    }
    Ok(())
}

/// The places between which the items of a run of rows stand.
fn places_of_run<O: Offset>(offsets: &Buffer<O>, limit: usize, run: Run) -> (usize, usize)
    requires rise { are_offsets (map O.number offsets.now) limit ≡ true }
    requires within { run.from + run.count < length offsets.now }
    ensures from { result.0 ≡ place_at (map O.number offsets.now) run.from }
    ensures to { result.1 ≡ place_at (map O.number offsets.now) (run.from + run.count) }
    ensures ordered { result.0 ≤ result.1 }
    ensures within { result.1 ≤ limit }
{
    let _count = offsets.len();
    let from = place_in(offsets, run.from, limit);
    let to = place_in(offsets, run.from + run.count, limit);
    (from, to)
}

/// The offsets of the rows of runs, from 0 on.
fn offsets_of_runs<O: Offset>(
    alloc: Global,
    offsets: &Buffer<O>,
    limit: usize,
    runs: &[Run],
) -> Result<Vec<O>, AllocError>
    requires rise { are_offsets (map O.number offsets.now) limit ≡ true }
    requires climb { Climb 0 runs.now (variable_rows (map O.number offsets.now)) }
    ensures { IfOk result (λ v. map O.number v.items ≡ offsets_taken (rows_in_runs runs.now) (map O.number offsets.now)) }
{
    let _count = offsets.len();
    let _start = place_in(offsets, 0, limit);
    let mut ends = Vec::new(alloc);
    ends.push(offset_of(0))?;
    let mut begin = 0;
    for run in runs {
        push_ends(&mut ends, offsets, limit, *run, begin)?;
        let (from, to) = places_of_run(offsets, limit, *run);
        begin += to - from;
    }
    Ok(ends)
}

/// The runs of the items that the rows of runs have.
fn items_of_runs<O: Offset>(
    alloc: Global,
    offsets: &Buffer<O>,
    limit: usize,
    runs: &[Run],
) -> Result<Vec<Run>, AllocError>
    requires rise { are_offsets (map O.number offsets.now) limit ≡ true }
    requires climb { Climb 0 runs.now (variable_rows (map O.number offsets.now)) }
    ensures items { IfOk result (λ v. rows_in_runs v.items ≡ items_taken (rows_in_runs runs.now) (map O.number offsets.now)) }
    ensures climb { IfOk result (λ v. Climb 0 v.items limit) }
{
    let _count = offsets.len();
    let mut items = Vec::new(alloc);
    for run in runs {
        let (from, to) = places_of_run(offsets, limit, *run);
        items.push(Run {
            from,
            count: to - from,
        })?;
    }
    Ok(items)
}

/// Whether one run has all rows between offsets that begin at 0 and end at the limit.
pub(crate) fn are_all<O: Offset>(offsets: &Buffer<O>, limit: usize, runs: &[Run]) -> bool
    requires rise { are_offsets (map O.number offsets.now) limit ≡ true }
    ensures rows { result ≡ true → runs.now ≡ record { from = 0; count = variable_rows (map O.number offsets.now) } ∷ [] }
    ensures first { result ≡ true → place_at (map O.number offsets.now) 0 ≡ 0 }
    ensures last { result ≡ true → place_at (map O.number offsets.now) (variable_rows (map O.number offsets.now)) ≡ limit }
{
    let rows = offsets.len() - 1;
    is_one(runs, rows)
        && place_in(offsets, 0, limit) == 0
        && place_in(offsets, rows, limit) == limit
}

/// The offsets of the rows of runs, which share the memory where one run has all and the first is 0.
fn offsets_from_0<O: Offset>(
    alloc: Global,
    offsets: &Buffer<O>,
    limit: usize,
    runs: &[Run],
) -> Result<Buffer<O>, AllocError>
    requires rise { are_offsets (map O.number offsets.now) limit ≡ true }
    requires climb { Climb 0 runs.now (variable_rows (map O.number offsets.now)) }
    ensures { IfOk result (λ b. map O.number b ≡ offsets_taken (rows_in_runs runs.now) (map O.number offsets.now)) }
{
    let rows = offsets.len() - 1;
    if is_one(runs, rows) && place_in(offsets, 0, limit) == 0 {
        return offsets.try_clone();
    }
    Buffer::from_vec(offsets_of_runs(alloc, offsets, limit, runs)?)
}

/// The offsets of the rows of runs, and the runs of the items between them.
pub(crate) fn take_offsets<O: Offset>(
    alloc: Global,
    offsets: &Buffer<O>,
    limit: usize,
    runs: &[Run],
) -> Result<(Buffer<O>, Vec<Run>), AllocError>
    requires rise { are_offsets (map O.number offsets.now) limit ≡ true }
    requires climb { Climb 0 runs.now (variable_rows (map O.number offsets.now)) }
    ensures offsets { IfOk result (λ r. map O.number r.0 ≡ offsets_taken (rows_in_runs runs.now) (map O.number offsets.now)) }
    ensures items { IfOk result (λ r. rows_in_runs r.1.items ≡ items_taken (rows_in_runs runs.now) (map O.number offsets.now)) }
    ensures climb { IfOk result (λ r. Climb 0 r.1.items limit) }
{
    let taken = offsets_from_0(alloc, offsets, limit, runs)?;
    let items = items_of_runs(alloc, offsets, limit, runs)?;
    Ok((taken, items))
}
