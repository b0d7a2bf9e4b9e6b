//! Unions (Schema.fbs, Union).
ghost use Rattle.std.specs.Prelude.{◌≡◌, ◌+◌, ◌*◌, ◌<◌, ◌≤◌, ◌++◌, ◌∷◌, [], true, not, nat_eq, nat_lt, length, ◌&&◌, Ok, IfOk, IfErr, OnErr, Err, Some, None, pos, map, IsTrue};
ghost use Rattle.std.specs.Int.{w32};
ghost use Rattle.arrow_spec.specs.declared.error.IpcError.TheVariants.{Memory};
ghost use Rattle.ipc_fields.specs.Causes.{Decodes};
ghost use Rattle.arrow_spec.specs.Flat.{signed_at};
ghost use Rattle.arrow_spec.specs.Schema.{is_id, are_ids, is_id_behind, ids_at};
ghost use Rattle.ipc_fields.specs.UnionIds.{ids_in, ids_by, stated_at, numbers_in};

use arrow_flat::{Table, Vector};
use arrow_spec::{IpcError, OutOfSpecKind};
use arrow_types::union_ids::are_right;
use std::alloc::Global;

/// The number in one of the items of a vector.
#[tactic(auto, using(ipc_fields::proofs::UnionSteps::number_in))]
fn number_at(numbers: &Vector<'_>, i: usize) -> i32
    requires width { numbers.now.width ≡ 4 }
    requires within { i < numbers.now.vector.count }
    ensures { signed_at w32 numbers.now.bytes (numbers.now.vector.first + 4 * i) ≡ Ok result }
{
    let bytes = numbers.get(i);
    u32::from_le_bytes([bytes[0], bytes[1], bytes[2], bytes[3]]).cast_signed()
}

/// The numbers of a vector.
#[tactic(auto, using(ipc_fields::proofs::UnionSteps::numbers_begun, ipc_fields::proofs::UnionSteps::numbers_more, ipc_fields::proofs::UnionSteps::numbers_done))]
fn read_numbers(alloc: Global, numbers: &Vector<'_>) -> Result<Vec<i32>, IpcError>
    requires { numbers.now.width ≡ 4 }
    ensures gives { Decodes (λ v. v.items) result (numbers_in numbers.now) }
{
    let mut read = Vec::new(alloc);
    for i in 0..numbers.len() {
        let number = number_at(numbers, i);
        read.push(number)?;
    }
    Ok(read)
}

/// The ids that a union of so many children states.
#[tactic(auto, unfolding(arrow_spec::specs::Readings::bind, ipc_fields::specs::UnionIds::stated_at))]
fn read_stated(alloc: Global, ids: &Vector<'_>, children: usize) -> Result<Vec<i32>, IpcError>
    requires { ids.now.width ≡ 4 }
    ensures gives { Decodes (λ v. (true, v.items)) result (stated_at ids.now.bytes children ids.now.vector) }
{
    let ids = read_numbers(alloc, ids)?;
    if !are_right(&ids, children) {
        return Err(IpcError::OutOfSpec(OutOfSpecKind::InvalidDataType));
    }
    Ok(ids)
}

#[tactic(auto, using(arrow_types::proofs::UnionIds::counted_right, arrow_types::proofs::UnionIds::counted_wrong, arrow_types::proofs::UnionIds::counted_none), unfolding(arrow_spec::specs::Readings::bind, ipc_fields::specs::UnionIds::ids_by))]
fn read_ids_by(
    alloc: Global,
    table: &Table<'_>,
    children: usize,
) -> Result<Option<Vec<i32>>, IpcError>
    ensures gives { Decodes (ids_in children) result (ids_by table.now.bytes table.now.table children) }
{
    let ids = table.slot_vector(1, 4).map_err(|e| IpcError::OutOfSpec(
        OutOfSpecKind::InvalidFlatbufferSchema(e),
    ))?;
    let Some(ids) = ids else {
        if children == 0 || children > 128 {
            return Err(IpcError::OutOfSpec(OutOfSpecKind::InvalidDataType));
        }
        return Ok(None);
    };
    Ok(Some(read_stated(alloc, &ids, children)?))
}

/// The ids of a union of so many children, none where they are counted from 0.
#[tactic(auto, using(ipc_fields::proofs::UnionSteps::ids_given))]
pub(crate) fn read_ids(
    alloc: Global,
    table: &Table<'_>,
    children: usize,
) -> Result<Option<Vec<i32>>, IpcError>
    ensures gives { Decodes (ids_in children) result (ids_at table.now.bytes table.now.table children) }
{
    read_ids_by(alloc, table, children)
}
