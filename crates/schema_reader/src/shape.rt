//! Types before their children (Schema.fbs, Type).
ghost use Rattle.std.specs.Prelude.{◌≡◌, Ok, IfOk, IfErr, false};
ghost use Rattle.ipc_fields.specs.Causes.{Decodes};
ghost use Rattle.arrow_spec.specs.Kinds.{Fields};
ghost use Rattle.arrow_spec.specs.Schema.{is_nested, type_at};
ghost use Rattle.schema_reader.specs.Parts.{one_child, union_applied, applied_at};
ghost use Rattle.schema_reader.specs.ReadViews.{tag_in, shape_kind, Takes};

use crate::data_type::{
    Shape, TypeTag, read_bool, read_choice, read_date, read_decimal, read_duration, read_float,
    read_integer, read_interval, read_size, read_time, read_timestamp,
};
use crate::union::read_ids;
use arrow_flat::Table;
use arrow_spec::{Feature, IpcError, OutOfSpecKind, UnionMode};
use arrow_types::ArrowDataType;
use std::alloc::Global;

/// A type with exactly one child.
#[tactic(auto, unfolding(arrow_spec::specs::Readings::bind))]
fn of_one_child(shape: Shape, children: usize) -> Result<Shape, IpcError>
    ensures gives { Decodes (λ s. s) result (one_child children shape) }
{
    if children != 1 {
        return Err(IpcError::OutOfSpec(OutOfSpecKind::InvalidDataType));
    }
    Ok(shape)
}

/// A union (Schema.fbs, Union).
#[tactic(auto, unfolding(arrow_spec::specs::Readings::bind, arrow_spec::specs::Schema::union_at))]
fn read_union(alloc: Global, table: &Table<'_>, children: usize) -> Result<Shape, IpcError>
    ensures gives { (fs : Fields) → Decodes (λ s. shape_kind children s fs) result (union_applied table.now.bytes table.now.table children fs) }
    ensures takes { IfOk result (Takes children) }
{
    let mode = read_choice(table, 0, 0, 2)?;
    let ids = read_ids(alloc, table, children)?;
    Ok(Shape::Union(UnionMode::sparse(mode == 0), ids))
}

/// A type by its tag and its table, with so many children; where the tag's children are not looked at there are none.
#[tactic(auto, unfolding(arrow_spec::specs::Readings::bind, arrow_spec::specs::Schema::type_at, crate::specs::Parts::float_at, crate::specs::Parts::date_at, crate::specs::Parts::interval_at, crate::specs::Parts::duration_at))]
fn read_applied(
    alloc: Global,
    tag: TypeTag,
    table: &Table<'_>,
    children: usize,
) -> Result<Shape, IpcError>
    requires { is_nested (tag_in tag) ≡ false → children ≡ 0 }
    ensures gives { (fs : Fields) → Decodes (λ s. shape_kind children s fs) result (applied_at table.now.bytes table.now.table children (tag_in tag) fs) }
    ensures takes { IfOk result (Takes children) }
{
    match tag {
        TypeTag::Null => Ok(Shape::Flat(ArrowDataType::Null)),
        TypeTag::Int => Ok(Shape::Flat(ArrowDataType::from(read_integer(table)?))),
        TypeTag::FloatingPoint => Ok(Shape::Flat(read_float(table)?)),
        TypeTag::Binary => Ok(Shape::Flat(ArrowDataType::Binary)),
        TypeTag::Utf8 => Ok(Shape::Flat(ArrowDataType::Utf8)),
        TypeTag::Bool => Ok(Shape::Flat(ArrowDataType::Boolean)),
        TypeTag::Decimal => Ok(Shape::Flat(read_decimal(table)?)),
        TypeTag::Date => Ok(Shape::Flat(read_date(table)?)),
        TypeTag::Time => Ok(Shape::Flat(read_time(table)?)),
        TypeTag::Timestamp => Ok(Shape::Flat(read_timestamp(alloc, table)?)),
        TypeTag::Interval => Ok(Shape::Flat(read_interval(table)?)),
        TypeTag::List => of_one_child(Shape::List, children),
        TypeTag::Struct => Ok(Shape::Struct),
        TypeTag::Union => read_union(alloc, table, children),
        TypeTag::FixedSizeBinary => {
            Ok(Shape::Flat(ArrowDataType::FixedSizeBinary(read_size(table)?)))
        }
        TypeTag::FixedSizeList => of_one_child(Shape::FixedSizeList(read_size(table)?), children),
        TypeTag::Map => of_one_child(Shape::Map(read_bool(table, 0)?), children),
        TypeTag::Duration => Ok(Shape::Flat(read_duration(table)?)),
        TypeTag::LargeBinary => Ok(Shape::Flat(ArrowDataType::LargeBinary)),
        TypeTag::LargeUtf8 => Ok(Shape::Flat(ArrowDataType::LargeUtf8)),
        TypeTag::LargeList => of_one_child(Shape::LargeList, children),
        TypeTag::RunEndEncoded => Err(IpcError::Unsupported(Feature::RunEnd)),
        TypeTag::BinaryView => Ok(Shape::Flat(ArrowDataType::BinaryView)),
        TypeTag::Utf8View => Ok(Shape::Flat(ArrowDataType::Utf8View)),
        TypeTag::ListView | TypeTag::LargeListView => {
            Err(IpcError::Unsupported(Feature::ListView))
        }
    }
}

/// A type by its tag and its table, with so many children; where the tag's children are not looked at there are none.
#[tactic(auto, using(crate::proofs::Shapes::applied))]
pub(crate) fn read_shape(
    alloc: Global,
    tag: TypeTag,
    table: &Table<'_>,
    children: usize,
) -> Result<Shape, IpcError>
    requires { is_nested (tag_in tag) ≡ false → children ≡ 0 }
    ensures gives { Decodes (shape_kind children) result (type_at table.now.bytes table.now.table children (tag_in tag)) }
    ensures takes { IfOk result (Takes children) }
{
    read_applied(alloc, tag, table, children)
}
