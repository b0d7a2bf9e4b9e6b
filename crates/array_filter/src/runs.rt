//! Runs of rows.
ghost use Rattle.std.specs.Prelude.{◌≡◌, ◌+◌, ◌^◌, ◌<◌, ◌≤◌, ◌++◌, [], ◌∷◌, length, drop, get_or, true, false, None, IfOk, IfSome, OnOk};
ghost use Rattle.arrow_spec.specs.Needed.{numbers_from};
ghost use Rattle.array_filter.specs.Rows.{Rise, marked_from};
ghost use Rattle.array_filter.specs.Runs.{Climb, rows_in_runs, rows_of};

use std::alloc::{AllocError, Global};

/// Rows that stand one behind another.
#[derive(Clone, Copy, Debug, PartialEq, Eq)]
pub struct Run {
    /// The number of the first row.
    pub from: usize,
    /// How many rows there are.
    pub count: usize,
}

/// Adds a row behind a run that stood behind the others: the run has one row more, or another begins.
fn add_behind(runs: &mut Vec<Run>, last: Run, row: usize) -> Result<(), AllocError>
    requires before { Climb 0 runs.old.items last.from }
    requires within { last.from + last.count ≤ row }
    requires small { row + 1 < 2 ^ 64 }
    ensures rows { OnOk result (rows_in_runs runs.new.items ≡ rows_in_runs runs.old.items ++ rows_of last ++ row ∷ []) }
    ensures climb { OnOk result (Climb 0 runs.new.items (row + 1)) }
{
    if last.from + last.count == row {
        runs.push(Run {
            from: last.from,
            count: last.count + 1,
        })?;
        return Ok(());
    }
    runs.push(last)?;
    runs.push(Run {
        from: row,
        count: 1,
    })?;
    Ok(())
}

/// Adds a row behind those of the runs.
fn add_row(runs: &mut Vec<Run>, row: usize) -> Result<(), AllocError>
    requires climb { Climb 0 runs.old.items row }
    requires small { row + 1 < 2 ^ 64 }
    ensures rows { OnOk result (rows_in_runs runs.new.items ≡ rows_in_runs runs.old.items ++ row ∷ []) }
    ensures climb { OnOk result (Climb 0 runs.new.items (row + 1)) }
{
    match runs.pop() {
        Some(last) => add_behind(runs, last, row),
        None => {
            runs.push(Run {
                from: row,
                count: 1,
            })?;
            Ok(())
        }
    }
}

/// How many marked rows stand one behind another from one on.
fn run_length(marks: &[bool], from: usize) -> usize
    requires below { from < length marks.now }
    requires marked { get_or marks.now from false ≡ true }
    ensures rows { marked_from from (drop from marks.now) ≡ numbers_from from result ++ marked_from (from + result) (drop (from + result) marks.now) }
    ensures some { 0 < result }
    ensures within { from + result ≤ length marks.now }
{
    let held = marks.len() - from;
    for count in 1..held {
        if !marks[from + count] {
            return count;
        }
    }
    held
}

/// The first run of marked rows from a row on.
fn next_run(marks: &[bool], low: usize) -> Option<Run>
    ensures rows { IfSome result (λ r. marked_from low (drop low marks.now) ≡ rows_of r ++ marked_from (r.from + r.count) (drop (r.from + r.count) marks.now)) }
    ensures above { IfSome result (λ r. low ≤ r.from) }
    ensures some { IfSome result (λ r. 0 < r.count) }
    ensures within { IfSome result (λ r. r.from + r.count ≤ length marks.now) }
    ensures none { result ≡ None → marked_from low (drop low marks.now) ≡ [] }
{
    for from in low..marks.len() {
        if marks[from] {
            return Some(Run {
                from,
                count: run_length(marks, from),
            });
        }
    }
    None
}

/// The runs of the rows that are marked.
pub fn runs_of_marks(alloc: Global, marks: &[bool]) -> Result<Vec<Run>, AllocError>
    ensures rows { IfOk result (λ v. rows_in_runs v.items ≡ marked_from 0 marks.now) }
    ensures climb { IfOk result (λ v. Climb 0 v.items (length marks.now)) }
{
    let mut runs = Vec::new(alloc);
    let mut low = 0;
    while let Some(next) = next_run(marks, low) {
        runs.push(next)?;
        low = next.from + next.count;
    }
    Ok(runs)
}

/// The runs of rows whose numbers rise.
pub(crate) fn runs_of_rows(
    alloc: Global,
    rows: &[usize],
    held: usize,
) -> Result<Vec<Run>, AllocError>
    requires { Rise 0 rows.now held }
    ensures rows { IfOk result (λ v. rows_in_runs v.items ≡ rows.now) }
    ensures climb { IfOk result (λ v. Climb 0 v.items held) }
{
    let mut runs = Vec::new(alloc);
    for row in rows {
        add_row(&mut runs, *row)?;
    }
    Ok(runs)
}

/// How many rows the runs have.
pub(crate) fn row_count(runs: &[Run], held: usize) -> usize
    requires { Climb 0 runs.now held }
    ensures rows { result ≡ length (rows_in_runs runs.now) }
    ensures few { result ≤ held }
{
    let mut count = 0;
    for run in runs {
        count += run.count;
    }
    count
}

/// Whether there is one run, which has so many rows from the first on.
pub(crate) fn is_one(runs: &[Run], count: usize) -> bool
    ensures { result ≡ true → runs.now ≡ record { from = 0; count = count } ∷ [] }
{
    runs.len() == 1 && runs[0].from == 0 && runs[0].count == count
}
