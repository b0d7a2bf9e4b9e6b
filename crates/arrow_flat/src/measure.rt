//! How long a layout is. A length that passes the greatest u128 counts as that.
ghost use Rattle.std.specs.Prelude.{◌≡◌, ◌+◌, ◌-◌, ◌*◌, ◌^◌, ◌<◌, ◌≤◌, min, length};
ghost use Rattle.arrow_spec.specs.Layout.{table, tables, up_to, before_eight, inline_end, slot_count, end_of, end_of_children, end_of_nodes, size};
ghost use Rattle.arrow_flat.specs.Nodes.{node_of, slot_of, slots_of, nodes_of, is_nothing, value_next, value_end};

use crate::node::{Node, Slot};

fn up(place: u128, width: u128) -> u128
    requires { 0 < width }
    ensures { result ≡ min (up_to width place) (2 ^ 128 - 1) }
{
    place.saturating_add((width - place % width) % width)
}

fn before_eight(place: u128) -> u128
    ensures { result ≡ min (before_eight place) (2 ^ 128 - 1) }
{
    place.saturating_add((12 - place % 8) % 8)
}

/// Whether a slot is left out.
pub fn is_absent(slot: &Slot) -> bool
    ensures { result ≡ is_nothing (slot_of slot.now) }
{
    matches!(slot, Slot::Absent)
}

/// How many slots there are, up to the last present one.
#[tactic(auto, using(crate::proofs::Steps::steps))]
pub fn slot_count(slots: &[Slot]) -> usize
    ensures value { result ≡ slot_count (slots_of slots.now) }
    ensures within { result ≤ length slots.now }
{
    let mut count = 0;
    for (i, slot) in slots.iter().enumerate() {
        if !is_absent(slot) {
            count = i + 1;
        }
    }
    count
}

/// Where an inline value ends.
pub fn next(slot: &Slot, at: u128) -> u128
    ensures { result ≡ min (value_next (slot_of slot.now) at) (2 ^ 128 - 1) }
{
    match slot {
        Slot::Absent => at,
        Slot::U8(_) | Slot::I8(_) | Slot::Bool(_) => at.saturating_add(1),
        Slot::I16(_) => up(at, 2).saturating_add(2),
        Slot::I32(_) | Slot::Child(_) => up(at, 4).saturating_add(4),
        Slot::I64(_) => up(at, 8).saturating_add(8),
    }
}

/// Where the inline values end that begin at a place.
#[tactic(auto, using(crate::proofs::Steps::steps))]
pub fn inline_end(slots: &[Slot], start: u128) -> u128
    ensures { result ≡ min (inline_end (slots_of slots.now) start) (2 ^ 128 - 1) }
{
    let mut at = start;
    for slot in slots {
        at = next(slot, at);
    }
    at
}

/// The cursor behind a node that is laid from a cursor on, and behind all that it leads to.
#[cycle(measure)]
#[tactic(auto, using(crate::proofs::Steps::steps, crate::proofs::Cuts::cuts))]
pub fn end_of(node: &Node, cursor: u128) -> u128
    ensures { result ≡ min (end_of (node_of node.now) cursor) (2 ^ 128 - 1) }
{
    match node {
        Node::Table(slots) => end_of_table(slots, cursor),
        Node::Text(text) => up(cursor, 4).saturating_add(4 + text.len() as u128 + 1),
        Node::Structs(_, bytes) => before_eight(cursor).saturating_add(4 + bytes.len() as u128),
        Node::I32s(numbers) => up(cursor, 4).saturating_add(4 + 4 * numbers.len() as u128),
        Node::I64s(numbers) => before_eight(cursor).saturating_add(4 + 8 * numbers.len() as u128),
        Node::Tables(nodes) => end_of_tables(nodes, cursor),
    }
}

#[cycle(measure)]
#[tactic(auto, using(crate::proofs::Cuts::table_cut))]
fn end_of_table(slots: &[Slot], cursor: u128) -> u128
    ensures { result ≡ min (end_of (table (slots_of slots.now)) cursor) (2 ^ 128 - 1) }
{
    let vtable = 4 + 2 * slot_count(slots) as u128;
    let place = up(cursor.saturating_add(vtable), 8);
    end_of_children(slots, inline_end(slots, place.saturating_add(4)))
}

#[cycle(measure)]
#[tactic(auto, using(crate::proofs::Cuts::tables_cut, crate::proofs::Steps::count_of_nodes))]
fn end_of_tables(nodes: &[Node], cursor: u128) -> u128
    ensures { result ≡ min (end_of (tables (nodes_of nodes.now)) cursor) (2 ^ 128 - 1) }
{
    let items = 4 + 4 * nodes.len() as u128;
    end_of_nodes(nodes, up(cursor, 4).saturating_add(items))
}

#[cycle(measure)]
#[tactic(auto, using(crate::proofs::Steps::steps, crate::proofs::Cuts::cuts))]
fn end_of_child(slot: &Slot, cursor: u128) -> u128
    ensures { result ≡ min (value_end (slot_of slot.now) cursor) (2 ^ 128 - 1) }
{
    match slot {
        Slot::Child(node) => end_of(node, cursor),
        _ => cursor,
    }
}

#[cycle(measure)]
#[tactic(auto, using(crate::proofs::Steps::steps, crate::proofs::Cuts::cuts))]
fn end_of_children(slots: &[Slot], start: u128) -> u128
    ensures { result ≡ min (end_of_children (slots_of slots.now) start) (2 ^ 128 - 1) }
{
    let mut cursor = start;
    for slot in slots {
        cursor = end_of_child(slot, cursor);
    }
    cursor
}

#[cycle(measure)]
#[tactic(auto, using(crate::proofs::Steps::steps, crate::proofs::Cuts::cuts))]
fn end_of_nodes(nodes: &[Node], start: u128) -> u128
    ensures { result ≡ min (end_of_nodes (nodes_of nodes.now) start) (2 ^ 128 - 1) }
{
    let mut cursor = start;
    for node in nodes {
        cursor = end_of(node, cursor);
    }
    cursor
}

/// The length of the layout that [`finish`](crate::finish) gives, or `u128::MAX` where that is less.
#[tactic(auto, unfolding(arrow_spec::specs::Layout::size))]
pub fn size_of(node: &Node) -> u128
    ensures { result ≡ min (size (node_of node.now)) (2 ^ 128 - 1) }
{
    end_of(node, 4)
}
