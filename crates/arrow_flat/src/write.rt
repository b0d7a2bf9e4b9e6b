//! The bytes of a layout.
ghost use Rattle.std.specs.Prelude.{◌≡◌, ◌+◌, ◌-◌, ◌*◌, ◌^◌, ◌<◌, ◌≤◌, ◌++◌, [], ◌∷◌, replicate, length, OnOk, IfOk, vec_len};
ghost use Rattle.std.specs.Int.{w16, w32, to_le_bytes};
ghost use Rattle.arrow_spec.specs.Layout.{table, tables, text, structs, numbers32, numbers64, zeros, u16, u32, up_to, before_eight, vtable_size, table_place, place_of, end_of, end_of_children, end_of_nodes, inline_end, inline_values, entries, offsets, laid, laid_children, laid_nodes, slot_count, layout, size};
ghost use Rattle.arrow_flat.specs.Nodes.{node_of, slot_of, slots_of, nodes_of, over, with_number, with_value, value_place, value_next, value_end, value_entry, value_laid, table_front, NumberFits, ValueFits, NumbersFit, SlotNumbersFit, NodeNumbersFit, KeepsSlotLimit, ValueKeepsSlotLimit, ChildrenKeepSlotLimit, NodesKeepSlotLimit};

use crate::measure::{self, slot_count};
use crate::node::{Node, Slot};
use std::alloc::AllocError;

fn put_zeros(out: &mut Vec<u8>, count: usize) -> Result<(), AllocError>
    ensures ok { OnOk result (out.new.items ≡ out.old.items ++ replicate count 0) }
    ensures len { OnOk result (length out.new.items ≡ length out.old.items + count) }
{
    for i in 0..count {
        out.push(0)?;
    }
    Ok(())
}

/// Zeros up to a length.
fn put_gap(out: &mut Vec<u8>, to: usize) -> Result<(), AllocError>
    ensures ok { OnOk result (out.new.items ≡ out.old.items ++ zeros (to - length out.old.items)) }
    ensures len { OnOk result (length out.old.items ≤ to → length out.new.items ≡ to) }
{
    put_zeros(out, to.saturating_sub(out.len()))
}

fn put_u16(out: &mut Vec<u8>, number: u16) -> Result<(), AllocError>
    ensures ok { OnOk result (out.new.items ≡ out.old.items ++ u16 number) }
    ensures len { OnOk result (length out.new.items ≡ length out.old.items + 2) }
{
    out.extend_from_slice(&number.to_le_bytes())
}

/// Puts a number of 32 bits at the end, the lowest byte first.
pub fn put_u32(out: &mut Vec<u8>, number: u32) -> Result<(), AllocError>
    ensures ok { OnOk result (out.new.items ≡ out.old.items ++ u32 number) }
    ensures len { OnOk result (length out.new.items ≡ length out.old.items + 4) }
{
    out.extend_from_slice(&number.to_le_bytes())
}

/// Writes bytes over others from a place on.
fn set_bytes(out: &mut Vec<u8>, at: usize, bytes: &[u8])
    requires { at + length bytes.now ≤ length out.old.items }
    ensures over { out.new.items ≡ over out.old.items at bytes.now }
    ensures len { length out.new.items ≡ length out.old.items }
{
    out[at..at + bytes.len()].copy_from_slice(bytes);
}

/// The next multiple of 8, less 4, that is not before a place.
fn before_eight(place: usize) -> usize
    requires { place < 2 ^ 32 }
    ensures { result ≡ before_eight place }
{
    place + (12 - place % 8) % 8
}

fn table_place(slots: &[Slot], cursor: usize) -> usize
    requires { table_place (slots_of slots.now) cursor < 2 ^ 31 }
    ensures { result ≡ table_place (slots_of slots.now) cursor }
{
    (cursor + (4 + 2 * slot_count(slots))).next_multiple_of(8)
}

/// Where a node stands that is laid at a cursor.
pub fn place_of(node: &Node, cursor: usize) -> usize
    requires { place_of (node_of node.now) cursor < 2 ^ 31 }
    ensures { result ≡ place_of (node_of node.now) cursor }
{
    match node {
        Node::Table(slots) => table_place(slots, cursor),
        Node::Text(_) | Node::I32s(_) | Node::Tables(_) => cursor.next_multiple_of(4),
        Node::Structs(_, _) | Node::I64s(_) => before_eight(cursor),
    }
}

/// Where the inline values of a table end.
fn inline_end(slots: &[Slot], start: usize) -> usize
    requires { inline_end (slots_of slots.now) start < 2 ^ 31 }
    ensures { result ≡ inline_end (slots_of slots.now) start }
{
    measure::inline_end(slots, start as u128) as usize
}

fn value_place(slot: &Slot, at: usize) -> usize
    requires { value_next (slot_of slot.now) at < 2 ^ 31 }
    ensures { result ≡ value_place (slot_of slot.now) at }
{
    match slot {
        Slot::Absent | Slot::U8(_) | Slot::I8(_) | Slot::Bool(_) => at,
        Slot::I16(_) => at.next_multiple_of(2),
        Slot::I32(_) | Slot::Child(_) => at.next_multiple_of(4),
        Slot::I64(_) => at.next_multiple_of(8),
    }
}

fn value_next(slot: &Slot, at: usize) -> usize
    requires { value_next (slot_of slot.now) at < 2 ^ 31 }
    ensures { result ≡ value_next (slot_of slot.now) at }
{
    measure::next(slot, at as u128) as usize
}

/// What the vtable has for a slot of the table at a place.
#[tactic(auto, using(crate::proofs::Fronts::places))]
fn put_entry(out: &mut Vec<u8>, slot: &Slot, place: usize, at: usize) -> Result<(), AllocError>
    requires behind { place ≤ at }
    requires near { value_next (slot_of slot.now) at < place + 2 ^ 16 }
    requires short { value_next (slot_of slot.now) at < 2 ^ 31 }
    ensures ok { OnOk result (out.new.items ≡ out.old.items ++ u16 (value_entry (slot_of slot.now) place at)) }
    ensures len { OnOk result (length out.new.items ≡ length out.old.items + 2) }
{
    let entry = if measure::is_absent(slot) {
        0
    } else {
        value_place(slot, at) - place
    };
    put_u16(out, entry as u16)
}

#[tactic(auto, using(crate::proofs::Steps::steps, crate::proofs::Fronts::places))]
fn put_entries(
    out: &mut Vec<u8>,
    slots: &[Slot],
    count: usize,
    place: usize,
) -> Result<(), AllocError>
    requires count { count ≤ length slots.now }
    requires near { inline_end (slots_of slots.now) (place + 4) < place + 2 ^ 16 }
    requires short { inline_end (slots_of slots.now) (place + 4) < 2 ^ 31 }
    ensures ok { OnOk result (out.new.items ≡ out.old.items ++ entries (slots_of slots.now) place (place + 4) count) }
    ensures len { OnOk result (length out.new.items ≡ length out.old.items + 2 * count) }
{
    let mut at = place + 4;
    for i in 0..count {
        let slot = &slots[i];
        put_entry(out, slot, place, at)?;
        at = value_next(slot, at);
    }
    Ok(())
}

/// A table up to its inline values.
#[tactic(auto, using(crate::proofs::Fronts::places), unfolding(crate::specs::Nodes::table_front))]
fn put_table_front(out: &mut Vec<u8>, slots: &[Slot]) -> Result<(), AllocError>
    requires slot_limit { slot_count (slots_of slots.now) ≤ 16 }
    requires short { end_of (table (slots_of slots.now)) (length out.old.items) < 2 ^ 31 }
    ensures ok { OnOk result (out.new.items ≡ out.old.items ++ table_front (slots_of slots.now) (length out.old.items)) }
    ensures len { OnOk result (length out.new.items ≡ table_place (slots_of slots.now) (length out.old.items) + 4) }
{
    let count = slot_count(slots);
    let vtable = 4 + 2 * count;
    let place = table_place(slots, out.len());
    let end = inline_end(slots, place + 4);
    put_gap(out, place - vtable)?;
    put_u16(out, vtable as u16)?;
    put_u16(out, (end - place) as u16)?;
    put_entries(out, slots, count, place)?;
    put_u32(out, vtable as u32)
}

/// Writes the number of a slot over the zeros behind a place.
fn set_number(out: &mut Vec<u8>, slot: &Slot, behind: usize)
    requires inside { value_next (slot_of slot.now) behind ≤ length out.old.items }
    requires short { length out.old.items < 2 ^ 31 }
    ensures ok { out.new.items ≡ with_number (slot_of slot.now) behind out.old.items }
    ensures len { length out.new.items ≡ length out.old.items }
    ensures fits { NumberFits (slot_of slot.now) }
{
    match slot {
        Slot::Absent | Slot::Child(_) => {}
        Slot::U8(number) => set_bytes(out, behind, &number.to_le_bytes()),
        Slot::I8(number) => set_bytes(out, behind, &number.to_le_bytes()),
        Slot::Bool(value) => set_bytes(out, behind, &u8::from(*value).to_le_bytes()),
        Slot::I16(number) => set_bytes(out, behind.next_multiple_of(2), &number.to_le_bytes()),
        Slot::I32(number) => set_bytes(out, behind.next_multiple_of(4), &number.to_le_bytes()),
        Slot::I64(number) => set_bytes(out, behind.next_multiple_of(8), &number.to_le_bytes()),
    }
}

fn put_text(out: &mut Vec<u8>, bytes: &[u8]) -> Result<(), AllocError>
    requires { end_of (text bytes.now) (length out.old.items) < 2 ^ 31 }
    ensures ok { OnOk result (out.new.items ≡ out.old.items ++ laid (text bytes.now) (length out.old.items)) }
    ensures len { OnOk result (length out.new.items ≡ end_of (text bytes.now) (length out.old.items)) }
{
    let place = out.len().next_multiple_of(4);
    put_gap(out, place)?;
    put_u32(out, bytes.len() as u32)?;
    out.extend_from_slice(bytes)?;
    out.push(0)?;
    Ok(())
}

fn put_structs(out: &mut Vec<u8>, count: u32, bytes: &[u8]) -> Result<(), AllocError>
    requires { end_of (structs count bytes.now) (length out.old.items) < 2 ^ 31 }
    ensures ok { OnOk result (out.new.items ≡ out.old.items ++ laid (structs count bytes.now) (length out.old.items)) }
    ensures len { OnOk result (length out.new.items ≡ end_of (structs count bytes.now) (length out.old.items)) }
    ensures fits { count < 2 ^ 32 }
{
    let place = before_eight(out.len());
    put_gap(out, place)?;
    put_u32(out, count)?;
    out.extend_from_slice(bytes)
}

fn put_i32s(out: &mut Vec<u8>, numbers: &[i32]) -> Result<(), AllocError>
    requires { end_of (numbers32 numbers.now) (length out.old.items) < 2 ^ 31 }
    ensures ok { OnOk result (out.new.items ≡ out.old.items ++ laid (numbers32 numbers.now) (length out.old.items)) }
    ensures len { OnOk result (length out.new.items ≡ end_of (numbers32 numbers.now) (length out.old.items)) }
{
    let place = out.len().next_multiple_of(4);
    put_gap(out, place)?;
    put_u32(out, numbers.len() as u32)?;
    for number in numbers {
        out.extend_from_slice(&number.to_le_bytes())?;
    }
    Ok(())
}

fn put_i64s(out: &mut Vec<u8>, numbers: &[i64]) -> Result<(), AllocError>
    requires { end_of (numbers64 numbers.now) (length out.old.items) < 2 ^ 31 }
    ensures ok { OnOk result (out.new.items ≡ out.old.items ++ laid (numbers64 numbers.now) (length out.old.items)) }
    ensures len { OnOk result (length out.new.items ≡ end_of (numbers64 numbers.now) (length out.old.items)) }
{
    let place = before_eight(out.len());
    put_gap(out, place)?;
    put_u32(out, numbers.len() as u32)?;
    for number in numbers {
        out.extend_from_slice(&number.to_le_bytes())?;
    }
    Ok(())
}

/// A node and all that it leads to, behind what is there.
#[cycle(put)]
pub fn put(out: &mut Vec<u8>, node: &Node) -> Result<(), AllocError>
    requires slot_limit { KeepsSlotLimit (node_of node.now) }
    requires short { end_of (node_of node.now) (length out.old.items) < 2 ^ 31 }
    ensures ok { OnOk result (out.new.items ≡ out.old.items ++ laid (node_of node.now) (length out.old.items)) }
    ensures len { OnOk result (length out.new.items ≡ end_of (node_of node.now) (length out.old.items)) }
    ensures fits { OnOk result (NumbersFit (node_of node.now)) }
{
    match node {
        Node::Table(slots) => put_table(out, slots),
        Node::Text(text) => put_text(out, text.as_bytes()),
        Node::Structs(count, bytes) => put_structs(out, *count, bytes),
        Node::I32s(numbers) => put_i32s(out, numbers),
        Node::I64s(numbers) => put_i64s(out, numbers),
        Node::Tables(nodes) => put_tables(out, nodes),
    }
}

#[cycle(put)]
#[tactic(auto, using(crate::proofs::Fronts::places, crate::proofs::Heads::heads))]
fn put_table(out: &mut Vec<u8>, slots: &[Slot]) -> Result<(), AllocError>
    requires slot_limit { KeepsSlotLimit (table (slots_of slots.now)) }
    requires short { end_of (table (slots_of slots.now)) (length out.old.items) < 2 ^ 31 }
    ensures ok { OnOk result (out.new.items ≡ out.old.items ++ laid (table (slots_of slots.now)) (length out.old.items)) }
    ensures len { OnOk result (length out.new.items ≡ end_of (table (slots_of slots.now)) (length out.old.items)) }
    ensures fits { OnOk result (SlotNumbersFit (slots_of slots.now)) }
{
    put_table_front(out, slots)?;
    put_slots(out, slots)
}

/// The inline values of a table, and then its children. The values are written over zeros, each offset once its
/// child's place is known.
#[cycle(put)]
#[tactic(auto, using(crate::proofs::Fronts::places, crate::proofs::Steps::steps))]
fn put_slots(out: &mut Vec<u8>, slots: &[Slot]) -> Result<(), AllocError>
    requires slot_limit { ChildrenKeepSlotLimit (slots_of slots.now) }
    requires short { end_of_children (slots_of slots.now) (inline_end (slots_of slots.now) (length out.old.items)) < 2 ^ 31 }
    ensures ok { OnOk result (let end = inline_end (slots_of slots.now) (length out.old.items) in
        out.new.items ≡ out.old.items ++ (inline_values (slots_of slots.now) (length out.old.items) end ++ laid_children (slots_of slots.now) end)) }
    ensures len { OnOk result (length out.new.items
        ≡ end_of_children (slots_of slots.now) (inline_end (slots_of slots.now) (length out.old.items))) }
    ensures fits { OnOk result (SlotNumbersFit (slots_of slots.now)) }
{
    let mut at = out.len();
    let end = inline_end(slots, at);
    put_gap(out, end)?;
    for slot in slots {
        put_slot(out, slot, at)?;
        at = value_next(slot, at);
    }
    Ok(())
}

/// The value of a slot, over the zeros behind a place, and its child at the end.
#[cycle(put)]
#[tactic(auto, using(crate::proofs::Fronts::places))]
fn put_slot(out: &mut Vec<u8>, slot: &Slot, behind: usize) -> Result<(), AllocError>
    requires inside { value_next (slot_of slot.now) behind ≤ length out.old.items }
    requires slot_limit { ValueKeepsSlotLimit (slot_of slot.now) }
    requires short { value_end (slot_of slot.now) (length out.old.items) < 2 ^ 31 }
    ensures ok { OnOk result (out.new.items
        ≡ with_value (slot_of slot.now) behind out.old.items ++ value_laid (slot_of slot.now) (length out.old.items)) }
    ensures len { OnOk result (length out.new.items ≡ value_end (slot_of slot.now) (length out.old.items)) }
    ensures fits { OnOk result (ValueFits (slot_of slot.now)) }
{
    match slot {
        Slot::Child(node) => put_child(out, node, behind.next_multiple_of(4)),
        _ => {
            set_number(out, slot, behind);
            Ok(())
        }
    }
}

/// A node at the end, and the offset to it at a place.
#[cycle(put)]
#[tactic(auto, using(crate::proofs::Fronts::places))]
fn put_child(out: &mut Vec<u8>, node: &Node, at: usize) -> Result<(), AllocError>
    requires inside { at + 4 ≤ length out.old.items }
    requires slot_limit { KeepsSlotLimit (node_of node.now) }
    requires short { end_of (node_of node.now) (length out.old.items) < 2 ^ 31 }
    ensures ok { OnOk result (out.new.items
        ≡ over out.old.items at (u32 (place_of (node_of node.now) (length out.old.items) - at))
        ++ laid (node_of node.now) (length out.old.items)) }
    ensures len { OnOk result (length out.new.items ≡ end_of (node_of node.now) (length out.old.items)) }
    ensures fits { OnOk result (NumbersFit (node_of node.now)) }
{
    let offset = place_of(node, out.len()) - at;
    set_bytes(out, at, &(offset as u32).to_le_bytes());
    put(out, node)
}

#[cycle(put)]
#[tactic(auto, using(crate::proofs::Fronts::places, crate::proofs::Steps::count_of_nodes, crate::proofs::Heads::heads))]
fn put_tables(out: &mut Vec<u8>, nodes: &[Node]) -> Result<(), AllocError>
    requires slot_limit { NodesKeepSlotLimit (nodes_of nodes.now) }
    requires short { end_of (tables (nodes_of nodes.now)) (length out.old.items) < 2 ^ 31 }
    ensures ok { OnOk result (out.new.items ≡ out.old.items ++ laid (tables (nodes_of nodes.now)) (length out.old.items)) }
    ensures len { OnOk result (length out.new.items ≡ end_of (tables (nodes_of nodes.now)) (length out.old.items)) }
    ensures fits { OnOk result (NodeNumbersFit (nodes_of nodes.now)) }
{
    let place = out.len().next_multiple_of(4);
    put_gap(out, place)?;
    put_u32(out, nodes.len() as u32)?;
    put_nodes(out, nodes)
}

/// The offsets to tables, and then the tables. Each offset is written over zeros once its table's place is known.
#[cycle(put)]
#[tactic(auto, using(crate::proofs::Fronts::places, crate::proofs::Steps::count_of_nodes))]
fn put_nodes(out: &mut Vec<u8>, nodes: &[Node]) -> Result<(), AllocError>
    requires slot_limit { NodesKeepSlotLimit (nodes_of nodes.now) }
    requires short { end_of_nodes (nodes_of nodes.now) (length out.old.items + 4 * length nodes.now) < 2 ^ 31 }
    ensures ok { OnOk result (let end = length out.old.items + 4 * length nodes.now in
        out.new.items ≡ out.old.items ++ (offsets (nodes_of nodes.now) (length out.old.items) end ++ laid_nodes (nodes_of nodes.now) end)) }
    ensures len { OnOk result (length out.new.items ≡ end_of_nodes (nodes_of nodes.now) (length out.old.items + 4 * length nodes.now)) }
    ensures fits { OnOk result (NodeNumbersFit (nodes_of nodes.now)) }
{
    let mut at = out.len();
    put_gap(out, at + 4 * nodes.len())?;
    for node in nodes {
        put_child(out, node, at)?;
        at += 4;
    }
    Ok(())
}
