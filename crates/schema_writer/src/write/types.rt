//! The tables of types (Schema.fbs, Type).
ghost use Rattle.std.specs.Prelude.{◌≡◌, ◌*◌, ℕ, [], ◌∷◌, true, false, if◌then◌else◌, IfOk, Option, String, pos, string_bytes};
ghost use Rattle.std.specs.Option.{option_map};
ghost use Rattle.std.specs.Int.{w16, w32, byte_len};
ghost use Rattle.arrow_spec.specs.Arrays.{integer_width, is_unsigned};
ghost use Rattle.arrow_spec.specs.Kinds as kind;
ghost use Rattle.arrow_spec.specs.Kinds.{Fields, unit_number};
ghost use Rattle.arrow_spec.specs.Layout.{table};
ghost use Rattle.arrow_spec.specs.Regular.{is_size};
ghost use Rattle.arrow_spec.specs.Sent as sent;
ghost use Rattle.arrow_flat.specs.Nodes.{node_of, slot_of, slots_of};
ghost use Rattle.arrow_types.specs.KindOf.{kind_of, are_stated, ids_of};
ghost use Rattle.schema_writer.specs.Tables.{sizes_fit};
ghost use Rattle.schema_writer.specs.SlotValues.{flag_value, nonzero, unit_value, mode_value, text_value};

use arrow_flat::{Node, Slot};
use arrow_types::{ArrowDataType, IntegerType, IntervalUnit, TimeUnit, UnionMode};
use std::alloc::{AllocError, Global};

/// The number of a type's table (Schema.fbs, Type). A dictionary's and an extension's is that of the type below.
pub fn type_tag(t: &ArrowDataType) -> u8
    ensures { pos result ≡ sent.type_tag (kind_of t.now) }
{
    match t {
        ArrowDataType::Null => 1,
        ArrowDataType::Int8
        | ArrowDataType::Int16
        | ArrowDataType::Int32
        | ArrowDataType::Int64
        | ArrowDataType::Int128
        | ArrowDataType::UInt8
        | ArrowDataType::UInt16
        | ArrowDataType::UInt32
        | ArrowDataType::UInt64 => 2,
        ArrowDataType::Float16 | ArrowDataType::Float32 | ArrowDataType::Float64 => 3,
        ArrowDataType::Binary => 4,
        ArrowDataType::Utf8 => 5,
        ArrowDataType::Boolean => 6,
        ArrowDataType::Decimal(_, _) | ArrowDataType::Decimal256(_, _) => 7,
        ArrowDataType::Date32 | ArrowDataType::Date64 => 8,
        ArrowDataType::Time32(_) | ArrowDataType::Time64(_) => 9,
        ArrowDataType::Timestamp(_, _) => 10,
        ArrowDataType::Interval(_) => 11,
        ArrowDataType::List(_) => 12,
        ArrowDataType::Struct(_) => 13,
        ArrowDataType::Union(_) => 14,
        ArrowDataType::FixedSizeBinary(_) => 15,
        ArrowDataType::FixedSizeList(_, _) => 16,
        ArrowDataType::Map(_, _) => 17,
        ArrowDataType::Duration(_) => 18,
        ArrowDataType::LargeBinary => 19,
        ArrowDataType::LargeUtf8 => 20,
        ArrowDataType::LargeList(_) => 21,
        ArrowDataType::BinaryView => 23,
        ArrowDataType::Utf8View => 24,
        ArrowDataType::Dictionary(_, values, _) => type_tag(values),
        ArrowDataType::Extension(e) => type_tag(&e.inner),
    }
}

fn no_slots(alloc: Global) -> Node
    ensures { node_of result ≡ sent.no_slots }
{
    Node::Table(Vec::new(alloc))
}

fn one_slot(alloc: Global, slot: Slot) -> Result<Node, AllocError>
    ensures { IfOk result (λ n. node_of n ≡ table (slots_of (slot ∷ []))) }
{
    Ok(Node::Table(vec![in alloc; slot]?))
}

fn two_slots(alloc: Global, first: Slot, second: Slot) -> Result<Node, AllocError>
    ensures { IfOk result (λ n. node_of n ≡ table (slots_of (first ∷ second ∷ []))) }
{
    Ok(Node::Table(vec![in alloc; first, second]?))
}

fn bit_width(t: IntegerType) -> i32
    ensures { result ≡ pos (8 * byte_len (integer_width t)) }
{
    match t {
        IntegerType::Int8 | IntegerType::UInt8 => 8,
        IntegerType::Int16 | IntegerType::UInt16 => 16,
        IntegerType::Int32 | IntegerType::UInt32 => 32,
        IntegerType::Int64 | IntegerType::UInt64 => 64,
        IntegerType::Int128 => 128,
    }
}

fn is_signed(t: IntegerType) -> bool
    ensures { result ≡ (if is_unsigned t then false else true) }
{
    match t {
        IntegerType::Int8
        | IntegerType::Int16
        | IntegerType::Int32
        | IntegerType::Int64
        | IntegerType::Int128 => true,
        IntegerType::UInt8 | IntegerType::UInt16 | IntegerType::UInt32 | IntegerType::UInt64 =>
            false,
    }
}

/// A flag, left out where it is false.
pub fn flag(value: bool) -> Slot
    ensures { slot_of result ≡ flag_value value }
{
    Slot::boolean(value, false)
}

/// The table of an integer type (Schema.fbs, Int).
#[tactic(auto, using(crate::proofs::SlotValues::front_flag))]
pub fn int_node(alloc: Global, t: IntegerType) -> Result<Node, AllocError>
    ensures { IfOk result (λ n. node_of n ≡ sent.int_node t) }
{
    two_slots(alloc, Slot::I32(bit_width(t)), flag(is_signed(t)))
}

// A size, a precision or a scale, left out where it is 0.
fn size_slot(n: usize) -> Slot
    requires { is_size n ≡ true }
    ensures { slot_of result ≡ nonzero w32 (pos n) }
{
    Slot::i32(n as i32, 0)
}

// A unit, left out where it is a Millisecond.
fn unit_slot(unit: TimeUnit) -> Slot
    ensures { slot_of result ≡ unit_value unit }
{
    match unit {
        TimeUnit::Second => Slot::I16(0),
        TimeUnit::Millisecond => Slot::Absent,
        TimeUnit::Microsecond => Slot::I16(2),
        TimeUnit::Nanosecond => Slot::I16(3),
    }
}

// A timestamp's unit, left out where it is a Second.
fn timestamp_unit(unit: TimeUnit) -> Slot
    ensures { slot_of result ≡ nonzero w16 (pos (unit_number unit)) }
{
    match unit {
        TimeUnit::Second => Slot::Absent,
        TimeUnit::Millisecond => Slot::I16(1),
        TimeUnit::Microsecond => Slot::I16(2),
        TimeUnit::Nanosecond => Slot::I16(3),
    }
}

fn text_slot(text: &Option<String>) -> Result<Slot, AllocError>
    ensures { IfOk result (λ s. slot_of s ≡ text_value (option_map string_bytes text.now)) }
{
    match text {
        None => Ok(Slot::Absent),
        Some(text) => Ok(Slot::Child(Node::Text(text.clone()?))),
    }
}

fn interval_node(alloc: Global, unit: IntervalUnit) -> Result<Node, AllocError>
    ensures { IfOk result (λ n. node_of n ≡ sent.type_node (kind.interval unit)) }
{
    match unit {
        IntervalUnit::YearMonth => Ok(no_slots(alloc)),
        IntervalUnit::DayTime => one_slot(alloc, Slot::I16(1)),
        IntervalUnit::MonthDayNano => one_slot(alloc, Slot::I16(2)),
    }
}

fn mode_slot(mode: UnionMode) -> Slot
    ensures { slot_of result ≡ mode_value mode }
{
    match mode {
        UnionMode::Sparse => Slot::Absent,
        UnionMode::Dense => Slot::I16(1),
    }
}

// The table of a union, with its ids where they are stated (Schema.fbs, Union).
#[tactic(auto, using(crate::proofs::SlotValues::union_without_ids, crate::proofs::SlotValues::union_with_ids))]
fn union_node(alloc: Global, mode: UnionMode, ids: &Option<Vec<i32>>) -> Result<Node, AllocError>
    ensures { IfOk result (λ t. (n : ℕ) (fs : Fields) → node_of t ≡ sent.type_node (kind.union mode (are_stated ids.now) (ids_of ids.now n) fs)) }
{
    match ids {
        None => one_slot(alloc, mode_slot(mode)),
        Some(ids) => {
            let ids = Slot::Child(Node::I32s(Vec::from_slice(alloc, ids.as_slice())?));
            two_slots(alloc, mode_slot(mode), ids)
        }
    }
}

fn decimal_node(alloc: Global, precision: usize, scale: usize) -> Result<Node, AllocError>
    requires { sizes_fit (kind.decimal precision scale) ≡ true }
    ensures { IfOk result (λ n. node_of n ≡ sent.type_node (kind.decimal precision scale)) }
{
    two_slots(alloc, size_slot(precision), size_slot(scale))
}

// A decimal of 256 bits says so.
fn decimal256_node(alloc: Global, precision: usize, scale: usize) -> Result<Node, AllocError>
    requires { sizes_fit (kind.decimal256 precision scale) ≡ true }
    ensures { IfOk result (λ n. node_of n ≡ sent.type_node (kind.decimal256 precision scale)) }
{
    let precision = size_slot(precision);
    let scale = size_slot(scale);
    Ok(Node::Table(vec![in alloc; precision, scale, Slot::I32(256)]?))
}

/// The table of a type. A dictionary's and an extension's is that of the type below.
pub fn type_node(alloc: Global, t: &ArrowDataType) -> Result<Node, AllocError>
    requires { sizes_fit (kind_of t.now) ≡ true }
    ensures { IfOk result (λ n. node_of n ≡ sent.type_node (kind_of t.now)) }
{
    match t {
        ArrowDataType::Null
        | ArrowDataType::Boolean
        | ArrowDataType::Float16
        | ArrowDataType::Date64
        | ArrowDataType::Binary
        | ArrowDataType::LargeBinary
        | ArrowDataType::Utf8
        | ArrowDataType::LargeUtf8
        | ArrowDataType::BinaryView
        | ArrowDataType::Utf8View
        | ArrowDataType::List(_)
        | ArrowDataType::LargeList(_)
        | ArrowDataType::Struct(_) => Ok(no_slots(alloc)),
        ArrowDataType::Int8 => int_node(alloc, IntegerType::Int8),
        ArrowDataType::Int16 => int_node(alloc, IntegerType::Int16),
        ArrowDataType::Int32 => int_node(alloc, IntegerType::Int32),
        ArrowDataType::Int64 => int_node(alloc, IntegerType::Int64),
        ArrowDataType::Int128 => int_node(alloc, IntegerType::Int128),
        ArrowDataType::UInt8 => int_node(alloc, IntegerType::UInt8),
        ArrowDataType::UInt16 => int_node(alloc, IntegerType::UInt16),
        ArrowDataType::UInt32 => int_node(alloc, IntegerType::UInt32),
        ArrowDataType::UInt64 => int_node(alloc, IntegerType::UInt64),
        ArrowDataType::Float32 => one_slot(alloc, Slot::I16(1)),
        ArrowDataType::Float64 => one_slot(alloc, Slot::I16(2)),
        ArrowDataType::Date32 => one_slot(alloc, Slot::I16(0)),
        ArrowDataType::Time32(unit) | ArrowDataType::Duration(unit) => {
            one_slot(alloc, unit_slot(*unit))
        }
        ArrowDataType::Time64(unit) => two_slots(alloc, unit_slot(*unit), Slot::I32(64)),
        ArrowDataType::Timestamp(unit, zone) => {
            two_slots(alloc, timestamp_unit(*unit), text_slot(zone)?)
        }
        ArrowDataType::Interval(unit) => interval_node(alloc, *unit),
        ArrowDataType::Decimal(precision, scale) => decimal_node(alloc, *precision, *scale),
        ArrowDataType::Decimal256(precision, scale) => decimal256_node(alloc, *precision, *scale),
        ArrowDataType::FixedSizeBinary(n) => one_slot(alloc, size_slot(*n)),
        ArrowDataType::FixedSizeList(_, n) => one_slot(alloc, size_slot(*n)),
        ArrowDataType::Map(_, is_sorted) => one_slot(alloc, flag(*is_sorted)),
        ArrowDataType::Union(u) => union_node(alloc, u.mode, &u.ids),
        ArrowDataType::Dictionary(_, values, _) => type_node(alloc, values),
        ArrowDataType::Extension(e) => type_node(alloc, &e.inner),
    }
}
