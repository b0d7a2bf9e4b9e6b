//! Items of which some are selected by their numbers.
ghost use Rattle.std.specs.Prelude.{◌≡◌, ℕ, ◌+◌, ◌^◌, ◌<◌, ◌≤◌, length, true};
ghost use Rattle.arrow_spec.specs.Columns.{stands_in};
ghost use Rattle.ipc_read_laws.specs.Projection.{do_rise};
ghost use Rattle.ipc_projection.specs.Selections.{GivesMarked, selects};

use std::iter::Iterator;

/// An item, selected or not.
#[derive(Drop)]
pub enum ProjectionResult<A> {
    /// An item whose number is asked for.
    Selected(A),
    /// An item whose number is not asked for.
    NotSelected(A),
}

/// The items of an iterator, each with whether it is selected.
#[derive(Drop)]
pub struct ProjectionIter<'a, A, I: Iterator<Item = A>> {
    projection: &'a [usize],
    iter: I,
    count: usize,
    ghost rising: { do_rise count projection.now ≡ true },
}

/// Whether a number is the first of numbers that rise from it on, and the numbers behind it.
fn take_number(numbers: &[usize], number: usize) -> (bool, &[usize])
    requires rising { do_rise number numbers.now ≡ true }
    ensures first { result.0 ≡ stands_in numbers.now number }
    ensures others { (c : ℕ) → number < c → stands_in result.1.now c ≡ stands_in numbers.now c }
    ensures rising { do_rise (number + 1) result.1.now ≡ true }
    ensures last { 2 ^ 64 ≤ number + 1 → length result.1.now ≡ 0 }
{
    match numbers.split_first() {
        Some((first, others)) if *first == number => (true, others),
        _ => (false, numbers),
    }
}

impl<'a, A, I: Iterator<Item = A>> ProjectionIter<'a, A, I> {
    /// The items of an iterator, of which those at the projection's numbers, which rise, are selected.
    pub fn new(projection: &'a [usize], iter: I) -> Self
        requires rising { do_rise 0 projection.now ≡ true }
        ensures source { result.iter ≡ iter }
        ensures selects { (k : ℕ) → selects result.projection.now result.count k ≡ stands_in projection.now k }
    {
        ProjectionIter {
            projection,
            iter,
            count: 0,
        }
    }
}

impl<'a, A, I: Iterator<Item = A>> Iterator for ProjectionIter<'a, A, I> {
    type Item = ProjectionResult<A>;

    ghost can_next = { λ s. I.can_next s.iter };

    ghost next_gives = { λ s r t. GivesMarked I.next_gives s.iter t.iter (selects s.projection.now s.count) (selects t.projection.now t.count) r };

    ghost remaining = { λ s. I.remaining s.iter };

    fn next(&mut self) -> Option<ProjectionResult<A>> {
        let item = self.iter.next()?;
        let (is_selected, behind) = take_number(self.projection, self.count);
        self.projection = behind;
        self.count = self.count.saturating_add(1);
        if is_selected {
            Some(ProjectionResult::Selected(item))
        } else {
            Some(ProjectionResult::NotSelected(item))
        }
    }

    fn size_hint(&self) -> (usize, Option<usize>) {
        self.iter.size_hint()
    }
}
