//! The texts of types.
ghost use Rattle.std.specs.Prelude.{◌≡◌, ◌++◌, Option, ℤ, true, pos, string_bytes, OnOk, codes, decimal};
ghost use Rattle.std.specs.Option.{option_map};
ghost use Rattle.arrow_spec.specs.Flat.{or_default};
ghost use Rattle.arrow_spec.specs.Kinds as kind;
ghost use Rattle.arrow_spec.specs.Kinds.{none};
ghost use Rattle.arrow_spec.specs.SchemaText as text;
ghost use Rattle.arrow_spec.specs.SchemaText.{type_text};
ghost use Rattle.arrow_types.specs.KindOf.{kind_of, ids_of};
ghost use Rattle.ipc_text.specs.Types.{dictionary_front, extension_front, is_named, type_text_with};

use crate::names::{integer_name, interval_name, mode_name, order_name, unit_name};
use crate::numbers::{push_ids, push_number, push_signed};
use crate::quoted::{push_quoted, push_text};
use arrow_spec::{IntegerType, IntervalUnit, TimeUnit, UnionMode};
use arrow_types::ArrowDataType;
use std::alloc::{AllocError, Global};

// A name with a unit in brackets.
fn push_with_unit(out: &mut Vec<u8>, name: &str, unit: TimeUnit) -> Result<(), AllocError>
    ensures { OnOk result (out.new.items ≡ out.old.items ++ (name.now ++ text.unit_name unit ++ codes ")")) }
{
    push_text(out, name)?;
    push_text(out, unit_name(unit))?;
    push_text(out, ")")
}

// A name with a size in brackets.
fn push_with_size(
    alloc: Global,
    out: &mut Vec<u8>,
    name: &str,
    size: usize,
) -> Result<(), AllocError>
    ensures { OnOk result (out.new.items ≡ out.old.items ++ (name.now ++ decimal size ++ codes ")")) }
{
    push_text(out, name)?;
    push_number(alloc, out, size)?;
    push_text(out, ")")
}

// A name with a precision and a scale in brackets.
fn push_decimal(
    alloc: Global,
    out: &mut Vec<u8>,
    name: &str,
    precision: usize,
    scale: usize,
) -> Result<(), AllocError>
    ensures { OnOk result (out.new.items ≡ out.old.items ++ (name.now ++ decimal precision ++ codes "," ++ decimal scale ++ codes ")")) }
{
    push_text(out, name)?;
    push_number(alloc, out, precision)?;
    push_text(out, ",")?;
    push_number(alloc, out, scale)?;
    push_text(out, ")")
}

fn push_interval(out: &mut Vec<u8>, unit: IntervalUnit) -> Result<(), AllocError>
    ensures { OnOk result (out.new.items ≡ out.old.items ++ type_text (kind.interval unit)) }
{
    push_text(out, "interval(")?;
    push_text(out, interval_name(unit))?;
    push_text(out, ")")
}

fn push_timestamp(
    alloc: Global,
    out: &mut Vec<u8>,
    unit: TimeUnit,
    zone: &Option<String>,
) -> Result<(), AllocError>
    ensures { OnOk result (out.new.items ≡ out.old.items ++ type_text (kind.timestamp unit (option_map string_bytes zone.now))) }
{
    match zone {
        None => push_with_unit(out, "timestamp(", unit),
        Some(zone) => {
            push_text(out, "timestamp(")?;
            push_text(out, unit_name(unit))?;
            push_text(out, ",")?;
            push_quoted(alloc, out, zone.as_str())?;
            push_text(out, ")")
        }
    }
}

fn push_union(
    alloc: Global,
    out: &mut Vec<u8>,
    mode: UnionMode,
    ids: &Option<Vec<i32>>,
    count: usize,
) -> Result<(), AllocError>
    ensures { OnOk result (out.new.items ≡ out.old.items ++ type_text (kind.union mode true (ids_of ids.now count) none)) }
{
    push_text(out, "union(")?;
    push_text(out, mode_name(mode))?;
    push_text(out, ":")?;
    push_ids(alloc, out, ids, count)?;
    push_text(out, ")")
}

// The index type, the id and the order of a dictionary; its values' type follows.
fn push_dictionary(
    alloc: Global,
    out: &mut Vec<u8>,
    index: IntegerType,
    id: i64,
    is_ordered: bool,
) -> Result<(), AllocError>
    ensures { OnOk result (out.new.items ≡ out.old.items ++ dictionary_front index is_ordered id) }
{
    push_text(out, "dictionary(")?;
    push_text(out, integer_name(index))?;
    push_text(out, ",")?;
    push_signed(alloc, out, id)?;
    push_text(out, order_name(is_ordered))
}

// The name and the metadata of an extension; the type below it follows.
fn push_extension(
    alloc: Global,
    out: &mut Vec<u8>,
    name: &String,
    metadata: &Option<String>,
) -> Result<(), AllocError>
    ensures { OnOk result (out.new.items ≡ out.old.items ++ extension_front (string_bytes name.now) (option_map string_bytes metadata.now)) }
{
    push_text(out, "extension(")?;
    push_quoted(alloc, out, name.as_str())?;
    if let Some(metadata) = metadata {
        push_text(out, ",")?;
        push_quoted(alloc, out, metadata.as_str())?;
    }
    push_text(out, ") ")
}

// The text of a type that is a name alone.
fn type_name(dtype: &ArrowDataType) -> &'static str
    requires { is_named (kind_of dtype.now) ≡ true }
    ensures { (id : Option ℤ) → result.now ≡ type_text_with (kind_of dtype.now) id }
{
    match dtype {
        ArrowDataType::Null => "null",
        ArrowDataType::Boolean => "bool",
        ArrowDataType::Int8 => "int8",
        ArrowDataType::Int16 => "int16",
        ArrowDataType::Int32 => "int32",
        ArrowDataType::Int64 => "int64",
        ArrowDataType::Int128 => "int128",
        ArrowDataType::UInt8 => "uint8",
        ArrowDataType::UInt16 => "uint16",
        ArrowDataType::UInt32 => "uint32",
        ArrowDataType::UInt64 => "uint64",
        ArrowDataType::Float16 => "float16",
        ArrowDataType::Float32 => "float32",
        ArrowDataType::Float64 => "float64",
        ArrowDataType::Date32 => "date32",
        ArrowDataType::Date64 => "date64",
        ArrowDataType::Binary => "binary",
        ArrowDataType::LargeBinary => "large_binary",
        ArrowDataType::Utf8 => "utf8",
        ArrowDataType::LargeUtf8 => "large_utf8",
        ArrowDataType::BinaryView => "binary_view",
        ArrowDataType::Utf8View => "utf8_view",
        ArrowDataType::List(_) => "list",
        ArrowDataType::LargeList(_) => "large_list",
        ArrowDataType::Struct(_) => "struct",
        ArrowDataType::Map(_, true) => "map(sorted)",
        ArrowDataType::Map(_, false) => "map",
        _ => "",
    }
}

/// A type, with the id of its dictionary; of nested types without their children.
pub(crate) fn push_type(
    alloc: Global,
    out: &mut Vec<u8>,
    dtype: &ArrowDataType,
    id: Option<i64>,
) -> Result<(), AllocError>
    ensures { OnOk result (out.new.items ≡ out.old.items ++ type_text_with (kind_of dtype.now) id) }
{
    match dtype {
        ArrowDataType::Time32(unit) => push_with_unit(out, "time32(", *unit),
        ArrowDataType::Time64(unit) => push_with_unit(out, "time64(", *unit),
        ArrowDataType::Duration(unit) => push_with_unit(out, "duration(", *unit),
        ArrowDataType::Timestamp(unit, zone) => push_timestamp(alloc, out, *unit, zone),
        ArrowDataType::Interval(unit) => push_interval(out, *unit),
        ArrowDataType::FixedSizeBinary(size) => push_with_size(alloc, out, "fixed_binary(", *size),
        ArrowDataType::Decimal(precision, scale) => push_decimal(
            alloc, out, "decimal(", *precision, *scale,
        ),
        ArrowDataType::Decimal256(precision, scale) => push_decimal(
            alloc,
            out,
            "decimal256(",
            *precision,
            *scale,
        ),
        ArrowDataType::FixedSizeList(_, size) => push_with_size(alloc, out, "fixed_list(", *size),
        ArrowDataType::Union(union) => push_union(
            alloc,
            out,
            union.mode,
            &union.ids,
            union.fields.len(),
        ),
        ArrowDataType::Dictionary(index, values, is_ordered) => {
            push_dictionary(alloc, out, *index, id.unwrap_or(0), *is_ordered)?;
            push_type(alloc, out, values, None)
        }
        ArrowDataType::Extension(extension) => {
            push_extension(alloc, out, &extension.name, &extension.metadata)?;
            push_type(alloc, out, &extension.inner, id)
        }
        _ => push_text(out, type_name(dtype)),
    }
}
