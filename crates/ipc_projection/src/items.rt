//! Items in another order.
ghost use Rattle.std.specs.Prelude.{◌≡◌, length, map, Some, IfOk, IfErr};
ghost use Rattle.arrow_spec.specs.declared.error.IpcError.TheVariants.{Memory};
ghost use Rattle.ipc_projection.specs.Places.{ArePlaces, StandAt};

use arrow_spec::IpcError;
use std::alloc::Global;

/// Items that can be taken one by one.
fn slots_of<T: Drop>(alloc: Global, items: Vec<T>) -> Result<Vec<Option<T>>, IpcError>
    ensures slots { IfOk result (λ v. v.items ≡ map Some items.items) }
    ensures memory { IfErr result (λ e. e ≡ Memory) }
{
    let mut slots = Vec::new(alloc);
    for item in items {
        slots.push(Some(item))?;
    }
    Ok(slots)
}

/// The items at places, each place once, in the order of the places. They are moved there.
pub(crate) fn items_at<T: Drop>(
    alloc: Global,
    items: Vec<T>,
    places: &[usize],
) -> Result<Vec<T>, IpcError>
    requires places { ArePlaces places.now (length items.items) }
    ensures items { IfOk result (λ v. StandAt items.items places.now v.items) }
    ensures memory { IfErr result (λ e. e ≡ Memory) }
{
    let mut slots = slots_of(alloc, items)?;
    let mut moved = Vec::new(alloc);
    for i in 0..places.len() {
        let Some(item) = slots[places[i]].take() else {
            unreachable!()
        };
        moved.push(item)?;
    }
    Ok(moved)
}
