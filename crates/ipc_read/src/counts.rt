//! The numbers of data buffers of view columns (Message.fbs, RecordBatch.variadicBufferCounts).
ghost use Rattle.std.specs.Prelude.{ℕ, suc, ◌^◌, ◌<◌, IfOk, IfErr};
ghost use Rattle.arrow_spec.specs.Counts.{RecordBatch as Batch, Place, count_at};
ghost use Rattle.arrow_spec.specs.Faults.{view_count_faults};
ghost use Rattle.arrow_spec.specs.Kinds.{binary_view};
ghost use Rattle.ipc_read.specs.Queues.{Left, Shortened};
ghost use Rattle.ipc_read.specs.Skips.{IsDamage, IsNextCount};
ghost use Rattle.ipc_read.specs.Sources.{Answers, IsRefusal};

use crate::integers::{is_negative, magnitude};
use arrow_spec::{IpcError, OutOfSpecKind};
use std::collections::VecDeque;

/// Takes the number of the next column's data buffers.
pub(crate) fn take_count(variadic: &mut VecDeque<i64>) -> Result<usize, IpcError>
    ensures count { IfOk result (λ n. (m : Batch) (i : ℕ) → Left m.variadic i variadic.old.items → IsNextCount m i n variadic.new.items) }
    ensures queue { IfOk result (λ _. (m : Batch) (i : ℕ) → Left m.variadic i variadic.old.items → Left m.variadic (suc i) variadic.new.items) }
    ensures gives { (m : Batch) (p : Place) → Left m.variadic p.view variadic.old.items → Answers (λ n. n) result (view_count_faults m binary_view p) (count_at m p.view) }
    ensures shortened { Shortened variadic.old.items 1 variadic.new.items }
    ensures small { IfOk result (λ n. n < 2 ^ 63) }
    ensures damage { IfErr result IsDamage }
    ensures refusal { IfErr result IsRefusal }
{
    let Some(count) = variadic.pop_front() else {
        return Err(IpcError::OutOfSpec(OutOfSpecKind::MissingVariadicCount));
    };
    if is_negative(count) {
        return Err(IpcError::OutOfSpec(OutOfSpecKind::UnexpectedNegativeInteger));
    }
    Ok(magnitude(count) as usize)
}
