//! Flatbuffers that are built.
ghost use Rattle.std.specs.Prelude.{IfOk};
ghost use Rattle.arrow_flat.specs.Nodes.{node_of, IsTable, KeepsSlotLimit};

use arrow_flat::{Node, Slot, finish, size_of};
use std::alloc::{AllocError, Global};
use std::test::Fail;

// The vtable of 4 slots at 4, the table at 16 with the offsets at 24 and 28; the first vector at 32,
// the second at 44.
const VECTORS: [u8; 56] = [
    16, 0, 0, 0, 12, 0, 16, 0, 4, 0, 0, 0, 8, 0, 12, 0, 12, 0, 0, 0, 255, 0, 0, 0, 8, 0, 0, 0, 16,
    0, 0, 0, 2, 0, 0, 0, 1, 0, 0, 0, 254, 255, 255, 255, 1, 0, 0, 0, 253, 255, 255, 255, 255, 255,
    255, 255,
];

fn each_kind(alloc: Global) -> Result<Node, AllocError>
    ensures root { IfOk result (λ n. IsTable (node_of n)) }
    ensures slot_limit { IfOk result (λ n. KeepsSlotLimit (node_of n)) }
{
    let small = Slot::Child(Node::I32s(vec![in alloc; 1, -2]?));
    let large = Slot::Child(Node::I64s(vec![in alloc; -3]?));
    let slots = vec![in alloc; Slot::i8(-1, 0), Slot::Absent, small, large, Slot::u8(0, 0)]?;
    Ok(Node::Table(slots))
}

#[test]
fn builds_each_kind_of_slot_and_vector(rt: HostRuntime) -> Result<(), Fail> {
    let table = each_kind(rt.alloc())?;
    assert!(rt; size_of(&table) == 56);
    let bytes = finish(rt.alloc(), &table)?;
    assert!(rt; bytes.as_slice() == VECTORS.as_slice());
    Ok(())
}
