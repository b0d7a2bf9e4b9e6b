//! How many rows the children of an array are read for (Arrow Columnar Format, "Physical Memory Layout").
ghost use Rattle.std.specs.Prelude.{◌≡◌, ℕ};
ghost use Rattle.arrow_spec.specs.Counts.{RecordBatch as Batch, Place, magnitude};
ghost use Rattle.arrow_spec.specs.Arrays.{node_of};
ghost use Rattle.arrow_spec.specs.Faults.{end_of};
ghost use Rattle.ipc_read.specs.ChildRows.{rows_by};
ghost use Rattle.ipc_read.specs.Queues.{Left};

use crate::integers::{is_negative, magnitude};
use arrow_spec::FieldNode;
use std::collections::VecDeque;

/// The rows of an array's children: the same for each, or for each as many as its node says.
#[derive(Clone, Copy)]
pub(crate) enum ChildRows {
    Same(usize),
    Stated,
}

/// The rows of the next node; 0 where there is none, or where it has a negative number.
pub(crate) fn next_rows(nodes: &VecDeque<FieldNode>) -> usize
    ensures { (m : Batch) (i : ℕ) → Left m.nodes i nodes.now.items → result ≡ magnitude (node_of m i).length }
{
    match nodes.front() {
        Some(node) => magnitude(node.length) as usize,
        None => 0,
    }
}

/// The rows of the next node, past which no offset is to be. Where there is none, or where it is negative, which is told
/// when it is taken, a number that no offset passes.
pub(crate) fn next_end(nodes: &VecDeque<FieldNode>) -> usize
    ensures { (m : Batch) (i : ℕ) → Left m.nodes i nodes.now.items → result ≡ end_of m i }
{
    match nodes.front() {
        Some(node) => {
            if is_negative(node.length) {
                return 9_223_372_036_854_775_807;
            }
            magnitude(node.length) as usize
        }
        None => 9_223_372_036_854_775_807,
    }
}

/// The rows of the next child.
pub(crate) fn rows_of_next(nodes: &VecDeque<FieldNode>, rows: ChildRows) -> usize
    ensures { (m : Batch) (p : Place) → Left m.nodes p.node nodes.now.items → result ≡ rows_by rows m p }
{
    match rows {
        ChildRows::Same(rows) => rows,
        ChildRows::Stated => next_rows(nodes),
    }
}
