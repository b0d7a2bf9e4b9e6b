//! The array of any kind. A contract sees it as the tree of its parts.
ghost use Rattle.std.specs.Prelude.{◌≡◌, ◌+◌, ◌≤◌, length, false, None, IfOk, IfNone, IfSome};
ghost use Rattle.std.specs.Option.{option_map};
ghost use Rattle.arrow_types.specs.KindOf.{kind_of};
ghost use Rattle.arrow_buffers.specs.Rows.{part};
ghost use Rattle.arrow_arrays.specs.Parts.{has_children, kind_in, rows_in, validity_in, null_rows_in, cells_in, part_of, fault_in};
ghost use Rattle.arrow_arrays.specs.PartsOf.{parts_of};
ghost use Rattle.arrow_arrays.specs.declared.array.Array.TheVariants as arrays;
ghost use Rattle.arrow_arrays.specs.declared.array.ListArray.{ListArray};
ghost use Rattle.arrow_arrays.specs.declared.array.FixedSizeListArray.{FixedSizeListArray};
ghost use Rattle.arrow_arrays.specs.declared.array.MapArray.{MapArray};
ghost use Rattle.arrow_arrays.specs.declared.array.StructArray.{StructArray};
ghost use Rattle.arrow_arrays.specs.declared.array.UnionArray.{UnionArray};

use crate::keys::DictionaryKeys;
use crate::numbers::{narrow_numbers, number_rows};
use crate::offsets::ListOffsets;
use arrow_buffers::{
    BinaryArray, BinaryViewArray, Bitmap, BooleanArray, Buffer, FixedSizeBinaryArray, NullArray,
    PrimitiveArray, Utf8Array, Utf8ViewArray,
};
use arrow_types::{ArrowDataType, days_ms, months_days_ns};
use std::alloc::{AllocError, Global};
use std::marker::Model;

/// An array of any kind.
#[cycle(array)]
pub enum Array {
    /// Nulls.
    Null(NullArray),
    /// Truth values.
    Boolean(BooleanArray),
    /// Integers of 8 bits.
    Int8(PrimitiveArray<i8>),
    /// Integers of 16 bits.
    Int16(PrimitiveArray<i16>),
    /// Integers of 32 bits, days, times of day, and intervals of months.
    Int32(PrimitiveArray<i32>),
    /// Integers of 64 bits, dates, times, timestamps and durations.
    Int64(PrimitiveArray<i64>),
    /// Integers of 128 bits, and decimals.
    Int128(PrimitiveArray<i128>),
    /// Unsigned integers of 8 bits.
    UInt8(PrimitiveArray<u8>),
    /// Unsigned integers of 16 bits.
    UInt16(PrimitiveArray<u16>),
    /// Unsigned integers of 32 bits.
    UInt32(PrimitiveArray<u32>),
    /// Unsigned integers of 64 bits.
    UInt64(PrimitiveArray<u64>),
    /// Intervals of days and milliseconds.
    DaysMs(PrimitiveArray<days_ms>),
    /// Intervals of months, days and nanoseconds.
    MonthsDaysNs(PrimitiveArray<months_days_ns>),
    /// Byte strings between offsets of 32 bits.
    Binary(BinaryArray<i32>),
    /// Byte strings between offsets of 64 bits.
    LargeBinary(BinaryArray<i64>),
    /// Texts between offsets of 32 bits.
    Utf8(Utf8Array<i32>),
    /// Texts between offsets of 64 bits.
    LargeUtf8(Utf8Array<i64>),
    /// Views of byte strings.
    BinaryView(BinaryViewArray),
    /// Views of texts.
    Utf8View(Utf8ViewArray),
    /// Byte strings of one size.
    FixedSizeBinary(FixedSizeBinaryArray),
    /// Lists between offsets of either width.
    List(ListArray),
    /// Lists of one size.
    FixedSizeList(FixedSizeListArray),
    /// Maps of keys and values.
    Map(MapArray),
    /// Rows across several columns.
    Struct(StructArray),
    /// Rows of one of several columns each.
    Union(UnionArray),
    /// Rows of a dictionary.
    Dictionary(DictionaryArray),
}

impl Drop for Array {
    #[cycle(let_go)]
    fn drop(self) {
        match self {
            Array::Null(held) => drop(held),
            Array::Boolean(held) => drop(held),
            Array::Int8(held) => drop(held),
            Array::Int16(held) => drop(held),
            Array::Int32(held) => drop(held),
            Array::Int64(held) => drop(held),
            Array::Int128(held) => drop(held),
            Array::UInt8(held) => drop(held),
            Array::UInt16(held) => drop(held),
            Array::UInt32(held) => drop(held),
            Array::UInt64(held) => drop(held),
            Array::DaysMs(held) => drop(held),
            Array::MonthsDaysNs(held) => drop(held),
            Array::Binary(held) => drop(held),
            Array::LargeBinary(held) => drop(held),
            Array::Utf8(held) => drop(held),
            Array::LargeUtf8(held) => drop(held),
            Array::BinaryView(held) => drop(held),
            Array::Utf8View(held) => drop(held),
            Array::FixedSizeBinary(held) => drop(held),
            Array::List(held) => drop(held),
            Array::FixedSizeList(held) => drop(held),
            Array::Map(held) => drop(held),
            Array::Struct(held) => drop(held),
            Array::Union(held) => drop(held),
            Array::Dictionary(held) => drop(held),
        }
    }
}

/// Lists between offsets, seen as their top and the one child that the offsets lie in.
#[cycle(array)]
pub struct ListArray {
    pub(crate) dtype: ArrowDataType,
    pub(crate) offsets: ListOffsets,
    pub(crate) values: Box<Array>,
    pub(crate) validity: Option<Bitmap>,
}

impl Drop for ListArray {
    #[cycle(let_go)]
    fn drop(self) {
        let ListArray {
            dtype,
            offsets,
            values,
            validity,
        } = self;
        drop(dtype);
        drop(offsets);
        drop(values);
        drop(validity);
    }
}

/// Lists of one size, seen as their top and the one child that has their items.
#[cycle(array)]
pub struct FixedSizeListArray {
    pub(crate) dtype: ArrowDataType,
    pub(crate) rows: usize,
    pub(crate) values: Box<Array>,
    pub(crate) validity: Option<Bitmap>,
}

impl Drop for FixedSizeListArray {
    #[cycle(let_go)]
    fn drop(self) {
        let FixedSizeListArray {
            dtype,
            rows: _,
            values,
            validity,
        } = self;
        drop(dtype);
        drop(values);
        drop(validity);
    }
}

/// Maps between offsets, seen as their top and the one child that has their entries.
#[cycle(array)]
pub struct MapArray {
    pub(crate) dtype: ArrowDataType,
    pub(crate) offsets: Buffer<i32>,
    pub(crate) field: Box<Array>,
    pub(crate) validity: Option<Bitmap>,
}

impl Drop for MapArray {
    #[cycle(let_go)]
    fn drop(self) {
        let MapArray {
            dtype,
            offsets,
            field,
            validity,
        } = self;
        drop(dtype);
        drop(offsets);
        drop(field);
        drop(validity);
    }
}

/// Rows across several columns, seen as their top and the columns.
#[cycle(array)]
pub struct StructArray {
    pub(crate) dtype: ArrowDataType,
    pub(crate) rows: usize,
    pub(crate) values: Vec<Array>,
    pub(crate) validity: Option<Bitmap>,
}

impl Drop for StructArray {
    #[cycle(let_go)]
    fn drop(self) {
        let StructArray {
            dtype,
            rows: _,
            values,
            validity,
        } = self;
        drop(dtype);
        drop(values);
        drop(validity);
    }
}

/// Rows of one of several columns each, seen as their top and the columns.
#[cycle(array)]
pub struct UnionArray {
    pub(crate) dtype: ArrowDataType,
    pub(crate) types: Buffer<i8>,
    pub(crate) fields: Vec<Array>,
    pub(crate) offsets: Option<Buffer<i32>>,
}

impl Drop for UnionArray {
    #[cycle(let_go)]
    fn drop(self) {
        let UnionArray {
            dtype,
            types,
            fields,
            offsets,
        } = self;
        drop(dtype);
        drop(types);
        drop(fields);
        drop(offsets);
    }
}

/// Rows that are each a row of a dictionary, seen as their top and the parts of the dictionary.
#[cycle(array)]
pub struct DictionaryArray {
    pub(crate) dtype: ArrowDataType,
    pub(crate) keys: DictionaryKeys,
    pub(crate) parts: Vec<Array>,
}

impl Drop for DictionaryArray {
    #[cycle(let_go)]
    fn drop(self) {
        let DictionaryArray { dtype, keys, parts } = self;
        drop(dtype);
        drop(keys);
        drop(parts);
    }
}

impl Model for ListArray {
    ghost use Rattle.arrow_arrays.specs.Heads.{Listed};
    ghost use Rattle.arrow_arrays.specs.PartsCode.{Nested, nested_code, listed_code};

    ghost Value = { Nested Listed };

    ghost coded = { nested_code listed_code };

    ghost use Rattle.std.specs.Prelude.{◌≡◌, None};
    ghost use Rattle.arrow_types.specs.KindOf.{kind_of};
    ghost use Rattle.arrow_arrays.specs.Heads.{listed};
    ghost use Rattle.arrow_arrays.specs.Parts.{nested, fault_in, tree_size};
    ghost use Rattle.arrow_arrays.specs.OffsetsOf.{offsets_in, width_in};
    ghost use Rattle.arrow_arrays.specs.PartsOf.{only};

    ghost view = { λ a. record { head = record { kind = kind_of a.dtype; width = width_in a.offsets; offsets = offsets_in a.offsets; validity = a.validity }; children = only a.values.value } };

    ghost invariant = { λ a. fault_in (nested (listed (record { kind = kind_of a.dtype; width = width_in a.offsets; offsets = offsets_in a.offsets; validity = a.validity })) (only a.values.value)) ≡ None };

    ghost size = { λ v. tree_size (nested (listed v.head) v.children) };

    ghost use Rattle.arrow_arrays.specs.Falls.{only_falls};

    ghost size_decreases = { λ a h. only_falls a.values.value };
}

impl Model for FixedSizeListArray {
    ghost use Rattle.arrow_arrays.specs.Heads.{Counted};
    ghost use Rattle.arrow_arrays.specs.PartsCode.{Nested, nested_code, counted_code};

    ghost Value = { Nested Counted };

    ghost coded = { nested_code counted_code };

    ghost use Rattle.std.specs.Prelude.{◌≡◌, None};
    ghost use Rattle.arrow_types.specs.KindOf.{kind_of};
    ghost use Rattle.arrow_arrays.specs.Heads.{sized};
    ghost use Rattle.arrow_arrays.specs.Parts.{nested, fault_in, tree_size};
    ghost use Rattle.arrow_arrays.specs.PartsOf.{only};

    ghost view = { λ a. record { head = record { kind = kind_of a.dtype; rows = a.rows; validity = a.validity }; children = only a.values.value } };

    ghost invariant = { λ a. fault_in (nested (sized (record { kind = kind_of a.dtype; rows = a.rows; validity = a.validity })) (only a.values.value)) ≡ None };

    ghost size = { λ v. tree_size (nested (sized v.head) v.children) };

    ghost use Rattle.arrow_arrays.specs.Falls.{only_falls};

    ghost size_decreases = { λ a h. only_falls a.values.value };
}

impl Model for MapArray {
    ghost use Rattle.arrow_arrays.specs.Heads.{Listed};
    ghost use Rattle.arrow_arrays.specs.PartsCode.{Nested, nested_code, listed_code};

    ghost Value = { Nested Listed };

    ghost coded = { nested_code listed_code };

    ghost use Rattle.std.specs.Prelude.{◌≡◌, None};
    ghost use Rattle.arrow_spec.specs.Kinds.{small};
    ghost use Rattle.arrow_types.specs.KindOf.{kind_of};
    ghost use Rattle.arrow_arrays.specs.Heads.{mapped};
    ghost use Rattle.arrow_arrays.specs.Parts.{nested, fault_in, tree_size};
    ghost use Rattle.arrow_arrays.specs.PartsOf.{only};

    ghost view = { λ a. record { head = record { kind = kind_of a.dtype; width = small; offsets = a.offsets; validity = a.validity }; children = only a.field.value } };

    ghost invariant = { λ a. fault_in (nested (mapped (record { kind = kind_of a.dtype; width = small; offsets = a.offsets; validity = a.validity })) (only a.field.value)) ≡ None };

    ghost size = { λ v. tree_size (nested (mapped v.head) v.children) };

    ghost use Rattle.arrow_arrays.specs.Falls.{only_falls};

    ghost size_decreases = { λ a h. only_falls a.field.value };
}

impl Model for StructArray {
    ghost use Rattle.arrow_arrays.specs.Heads.{Counted};
    ghost use Rattle.arrow_arrays.specs.PartsCode.{Nested, nested_code, counted_code};

    ghost Value = { Nested Counted };

    ghost coded = { nested_code counted_code };

    ghost use Rattle.std.specs.Prelude.{◌≡◌, None};
    ghost use Rattle.arrow_types.specs.KindOf.{kind_of};
    ghost use Rattle.arrow_arrays.specs.Heads.{structured};
    ghost use Rattle.arrow_arrays.specs.Parts.{nested, fault_in, tree_size};
    ghost use Rattle.arrow_arrays.specs.PartsOf.{forest_of};

    ghost view = { λ a. record { head = record { kind = kind_of a.dtype; rows = a.rows; validity = a.validity }; children = forest_of a.values.items } };

    ghost invariant = { λ a. fault_in (nested (structured (record { kind = kind_of a.dtype; rows = a.rows; validity = a.validity })) (forest_of a.values.items)) ≡ None };

    ghost size = { λ v. tree_size (nested (structured v.head) v.children) };

    ghost use Rattle.arrow_arrays.specs.Falls.{several_fall};

    ghost size_decreases = { λ a h. several_fall a.values.items };
}

impl Model for UnionArray {
    ghost use Rattle.arrow_arrays.specs.Heads.{Tagged};
    ghost use Rattle.arrow_arrays.specs.PartsCode.{Nested, nested_code, tagged_code};

    ghost Value = { Nested Tagged };

    ghost coded = { nested_code tagged_code };

    ghost use Rattle.std.specs.Prelude.{◌≡◌, None};
    ghost use Rattle.arrow_types.specs.KindOf.{kind_of};
    ghost use Rattle.arrow_arrays.specs.Heads.{tagged};
    ghost use Rattle.arrow_arrays.specs.Parts.{nested, fault_in, tree_size};
    ghost use Rattle.arrow_arrays.specs.PartsOf.{forest_of};

    ghost view = { λ a. record { head = record { kind = kind_of a.dtype; types = a.types; offsets = a.offsets }; children = forest_of a.fields.items } };

    ghost invariant = { λ a. fault_in (nested (tagged (record { kind = kind_of a.dtype; types = a.types; offsets = a.offsets })) (forest_of a.fields.items)) ≡ None };

    ghost size = { λ v. tree_size (nested (tagged v.head) v.children) };

    ghost use Rattle.arrow_arrays.specs.Falls.{several_fall};

    ghost size_decreases = { λ a h. several_fall a.fields.items };
}

impl Model for DictionaryArray {
    ghost use Rattle.arrow_arrays.specs.Heads.{Indexed};
    ghost use Rattle.arrow_arrays.specs.PartsCode.{Nested, nested_code, indexed_code};

    ghost Value = { Nested Indexed };

    ghost coded = { nested_code indexed_code };

    ghost use Rattle.std.specs.Prelude.{◌≡◌, None};
    ghost use Rattle.arrow_types.specs.KindOf.{kind_of};
    ghost use Rattle.arrow_arrays.specs.Heads.{indexed};
    ghost use Rattle.arrow_arrays.specs.Parts.{nested, fault_in, tree_size};
    ghost use Rattle.arrow_arrays.specs.KeysOf.{indexed_by};
    ghost use Rattle.arrow_arrays.specs.PartsOf.{forest_of};

    ghost view = { λ a. record { head = indexed_by (kind_of a.dtype) a.keys; children = forest_of a.parts.items } };

    ghost invariant = { λ a. fault_in (nested (indexed (indexed_by (kind_of a.dtype) a.keys)) (forest_of a.parts.items)) ≡ None };

    ghost size = { λ v. tree_size (nested (indexed v.head) v.children) };

    ghost use Rattle.arrow_arrays.specs.Falls.{several_fall};

    ghost size_decreases = { λ a h. several_fall a.parts.items };
}

/// An array, which shares its memory with those that were cloned from it.
pub type ArrayRef = Array;

/// The array of a kind over a copy of what it holds.
macro_rules! copied {
    ($kind:ident, $array:ident, $alloc:ident) => {
        match $array.try_clone($alloc) {
            Ok(copy) => Ok(Array::$kind(copy)),
            Err(error) => Err(error),
        }
    };
}

impl Array {
    /// The array of lists that this is, if it is one.
    pub fn into_list(self) -> Option<ListArray>
        ensures same { IfSome result (λ lists. self ≡ arrays.List lists) }
        ensures other { IfNone result ((lists : ListArray) → self ≡ arrays.List lists → ⊥) }
    {
        match self {
            Array::List(lists) => Some(lists),
            _ => None,
        }
    }

    /// The array of lists of one size that this is, if it is one.
    pub fn into_fixed_size_list(self) -> Option<FixedSizeListArray>
        ensures same { IfSome result (λ lists. self ≡ arrays.FixedSizeList lists) }
        ensures other { IfNone result ((lists : FixedSizeListArray) → self ≡ arrays.FixedSizeList lists → ⊥) }
    {
        match self {
            Array::FixedSizeList(lists) => Some(lists),
            _ => None,
        }
    }

    /// The array of maps that this is, if it is one.
    pub fn into_map(self) -> Option<MapArray>
        ensures same { IfSome result (λ maps. self ≡ arrays.Map maps) }
        ensures other { IfNone result ((maps : MapArray) → self ≡ arrays.Map maps → ⊥) }
    {
        match self {
            Array::Map(maps) => Some(maps),
            _ => None,
        }
    }

    /// The array of structs that this is, if it is one.
    pub fn into_struct(self) -> Option<StructArray>
        ensures same { IfSome result (λ structs. self ≡ arrays.Struct structs) }
        ensures other { IfNone result ((structs : StructArray) → self ≡ arrays.Struct structs → ⊥) }
    {
        match self {
            Array::Struct(structs) => Some(structs),
            _ => None,
        }
    }

    /// The array of unions that this is, if it is one.
    pub fn into_union(self) -> Option<UnionArray>
        ensures same { IfSome result (λ unions. self ≡ arrays.Union unions) }
        ensures other { IfNone result ((unions : UnionArray) → self ≡ arrays.Union unions → ⊥) }
    {
        match self {
            Array::Union(unions) => Some(unions),
            _ => None,
        }
    }

    /// How many rows there are.
    pub fn len(&self) -> usize
        ensures rows { result ≡ rows_in (parts_of self.now) }
        ensures cells { result ≡ length (cells_in (parts_of self.now)) }
        ensures sound { fault_in (parts_of self.now) ≡ None }
    {
        match self {
            Array::Null(array) => array.len(),
            Array::Boolean(array) => array.len(),
            Array::Int8(array) => number_rows(array),
            Array::Int16(array) => number_rows(array),
            Array::Int32(array) => number_rows(array),
            Array::Int64(array) => number_rows(array),
            Array::Int128(array) => number_rows(array),
            Array::UInt8(array) => number_rows(array),
            Array::UInt16(array) => number_rows(array),
            Array::UInt32(array) => number_rows(array),
            Array::UInt64(array) => number_rows(array),
            Array::DaysMs(array) => number_rows(array),
            Array::MonthsDaysNs(array) => number_rows(array),
            Array::Binary(array) => array.len(),
            Array::LargeBinary(array) => array.len(),
            Array::Utf8(array) => array.len(),
            Array::LargeUtf8(array) => array.len(),
            Array::BinaryView(array) => array.len(),
            Array::Utf8View(array) => array.len(),
            Array::FixedSizeBinary(array) => array.len(),
            Array::List(array) => array.len(),
            Array::FixedSizeList(array) => array.len(),
            Array::Map(array) => array.len(),
            Array::Struct(array) => array.len(),
            Array::Union(array) => array.len(),
            Array::Dictionary(array) => array.len(),
        }
    }

    /// The type of the rows.
    pub fn dtype(&self) -> &ArrowDataType
        ensures { kind_of result.now ≡ kind_in (parts_of self.now) }
    {
        match self {
            Array::Null(array) => array.dtype(),
            Array::Boolean(array) => array.dtype(),
            Array::Int8(array) => array.dtype(),
            Array::Int16(array) => array.dtype(),
            Array::Int32(array) => array.dtype(),
            Array::Int64(array) => array.dtype(),
            Array::Int128(array) => array.dtype(),
            Array::UInt8(array) => array.dtype(),
            Array::UInt16(array) => array.dtype(),
            Array::UInt32(array) => array.dtype(),
            Array::UInt64(array) => array.dtype(),
            Array::DaysMs(array) => array.dtype(),
            Array::MonthsDaysNs(array) => array.dtype(),
            Array::Binary(array) => array.dtype(),
            Array::LargeBinary(array) => array.dtype(),
            Array::Utf8(array) => array.dtype(),
            Array::LargeUtf8(array) => array.dtype(),
            Array::BinaryView(array) => array.dtype(),
            Array::Utf8View(array) => array.dtype(),
            Array::FixedSizeBinary(array) => array.dtype(),
            Array::List(array) => array.dtype(),
            Array::FixedSizeList(array) => array.dtype(),
            Array::Map(array) => array.dtype(),
            Array::Struct(array) => array.dtype(),
            Array::Union(array) => array.dtype(),
            Array::Dictionary(array) => array.dtype(),
        }
    }

    /// Which rows are valid. Where it is not given every row is, but for an array of nulls alone.
    pub fn validity(&self) -> Option<&Bitmap>
        ensures { option_map (λ b. b.now) result ≡ validity_in (parts_of self.now) }
    {
        match self {
            Array::Null(array) => array.validity(),
            Array::Boolean(array) => array.validity(),
            Array::Int8(array) => array.validity(),
            Array::Int16(array) => array.validity(),
            Array::Int32(array) => array.validity(),
            Array::Int64(array) => array.validity(),
            Array::Int128(array) => array.validity(),
            Array::UInt8(array) => array.validity(),
            Array::UInt16(array) => array.validity(),
            Array::UInt32(array) => array.validity(),
            Array::UInt64(array) => array.validity(),
            Array::DaysMs(array) => array.validity(),
            Array::MonthsDaysNs(array) => array.validity(),
            Array::Binary(array) => array.validity(),
            Array::LargeBinary(array) => array.validity(),
            Array::Utf8(array) => array.validity(),
            Array::LargeUtf8(array) => array.validity(),
            Array::BinaryView(array) => array.validity(),
            Array::Utf8View(array) => array.validity(),
            Array::FixedSizeBinary(array) => array.validity(),
            Array::List(array) => array.validity(),
            Array::FixedSizeList(array) => array.validity(),
            Array::Map(array) => array.validity(),
            Array::Struct(array) => array.validity(),
            Array::Union(array) => array.validity(),
            Array::Dictionary(array) => array.validity(),
        }
    }

    /// How many rows are null.
    pub fn null_count(&self) -> usize
        ensures { result ≡ null_rows_in (parts_of self.now) }
    {
        match self {
            Array::Null(array) => array.null_count(),
            Array::Boolean(array) => array.null_count(),
            Array::Int8(array) => array.null_count(),
            Array::Int16(array) => array.null_count(),
            Array::Int32(array) => array.null_count(),
            Array::Int64(array) => array.null_count(),
            Array::Int128(array) => array.null_count(),
            Array::UInt8(array) => array.null_count(),
            Array::UInt16(array) => array.null_count(),
            Array::UInt32(array) => array.null_count(),
            Array::UInt64(array) => array.null_count(),
            Array::DaysMs(array) => array.null_count(),
            Array::MonthsDaysNs(array) => array.null_count(),
            Array::Binary(array) => array.null_count(),
            Array::LargeBinary(array) => array.null_count(),
            Array::Utf8(array) => array.null_count(),
            Array::LargeUtf8(array) => array.null_count(),
            Array::BinaryView(array) => array.null_count(),
            Array::Utf8View(array) => array.null_count(),
            Array::FixedSizeBinary(array) => array.null_count(),
            Array::List(array) => array.null_count(),
            Array::FixedSizeList(array) => array.null_count(),
            Array::Map(array) => array.null_count(),
            Array::Struct(array) => array.null_count(),
            Array::Union(array) => array.null_count(),
            Array::Dictionary(array) => array.null_count(),
        }
    }

    /// Leaves only the part, and copies nothing.
    #[cycle(narrow)]
    pub fn narrow(&mut self, offset: usize, rows: usize)
        requires { offset + rows ≤ rows_in (parts_of self.old) }
        ensures parts { parts_of self.new ≡ part_of offset rows (parts_of self.old) }
        ensures cells { cells_in (parts_of self.new) ≡ part offset rows (cells_in (parts_of self.old)) }
    {
        match self {
            Array::List(array) => array.narrow(offset, rows),
            Array::FixedSizeList(array) => array.narrow(offset, rows),
            Array::Map(array) => array.narrow(offset, rows),
            Array::Struct(array) => array.narrow(offset, rows),
            Array::Union(array) => array.narrow(offset, rows),
            Array::Dictionary(array) => array.narrow(offset, rows),
            leaf => narrow_leaf(leaf, offset, rows),
        }
    }

    /// The part, which shares the memory.
    pub fn sliced(self, offset: usize, rows: usize) -> Array
        requires { offset + rows ≤ rows_in (parts_of self) }
        ensures parts { parts_of result ≡ part_of offset rows (parts_of self) }
        ensures cells { cells_in (parts_of result) ≡ part offset rows (cells_in (parts_of self)) }
    {
        let mut part = self;
        part.narrow(offset, rows);
        part
    }

    /// A second owner of the same parts.
    #[cycle(copy)]
    pub fn try_clone(&self, alloc: Global) -> Result<Array, AllocError>
        ensures { IfOk result (λ a. parts_of a ≡ parts_of self.now) }
    {
        match self {
            Array::List(array) => copied!(List, array, alloc),
            Array::FixedSizeList(array) => copied!(FixedSizeList, array, alloc),
            Array::Map(array) => copied!(Map, array, alloc),
            Array::Struct(array) => copied!(Struct, array, alloc),
            Array::Union(array) => copied!(Union, array, alloc),
            Array::Dictionary(array) => copied!(Dictionary, array, alloc),
            leaf => clone_leaf(alloc, leaf),
        }
    }
}

/// A second owner of the parts of an array in which no arrays stand.
fn clone_leaf(alloc: Global, array: &Array) -> Result<Array, AllocError>
    requires { has_children (parts_of array.now) ≡ false }
    ensures { IfOk result (λ a. parts_of a ≡ parts_of array.now) }
{
    match array {
        Array::Null(array) => copied!(Null, array, alloc),
        Array::Boolean(array) => copied!(Boolean, array, alloc),
        Array::Int8(array) => copied!(Int8, array, alloc),
        Array::Int16(array) => copied!(Int16, array, alloc),
        Array::Int32(array) => copied!(Int32, array, alloc),
        Array::Int64(array) => copied!(Int64, array, alloc),
        Array::Int128(array) => copied!(Int128, array, alloc),
        Array::UInt8(array) => copied!(UInt8, array, alloc),
        Array::UInt16(array) => copied!(UInt16, array, alloc),
        Array::UInt32(array) => copied!(UInt32, array, alloc),
        Array::UInt64(array) => copied!(UInt64, array, alloc),
        Array::DaysMs(array) => copied!(DaysMs, array, alloc),
        Array::MonthsDaysNs(array) => copied!(MonthsDaysNs, array, alloc),
        Array::Binary(array) => copied!(Binary, array, alloc),
        Array::LargeBinary(array) => copied!(LargeBinary, array, alloc),
        Array::Utf8(array) => copied!(Utf8, array, alloc),
        Array::LargeUtf8(array) => copied!(LargeUtf8, array, alloc),
        Array::BinaryView(array) => copied!(BinaryView, array, alloc),
        Array::Utf8View(array) => copied!(Utf8View, array, alloc),
        Array::FixedSizeBinary(array) => copied!(FixedSizeBinary, array, alloc),
        _ => unreachable!(),
    }
}

/// Leaves only the part of an array in which no arrays stand.
fn narrow_leaf(array: &mut Array, offset: usize, rows: usize)
    requires leaf { has_children (parts_of array.old) ≡ false }
    requires room { offset + rows ≤ rows_in (parts_of array.old) }
    ensures parts { parts_of array.new ≡ part_of offset rows (parts_of array.old) }
    ensures cells { cells_in (parts_of array.new) ≡ part offset rows (cells_in (parts_of array.old)) }
{
    match array {
        Array::Null(array) => array.narrow(offset, rows),
        Array::Boolean(array) => array.narrow(offset, rows),
        Array::Int8(array) => narrow_numbers(array, offset, rows),
        Array::Int16(array) => narrow_numbers(array, offset, rows),
        Array::Int32(array) => narrow_numbers(array, offset, rows),
        Array::Int64(array) => narrow_numbers(array, offset, rows),
        Array::Int128(array) => narrow_numbers(array, offset, rows),
        Array::UInt8(array) => narrow_numbers(array, offset, rows),
        Array::UInt16(array) => narrow_numbers(array, offset, rows),
        Array::UInt32(array) => narrow_numbers(array, offset, rows),
        Array::UInt64(array) => narrow_numbers(array, offset, rows),
        Array::DaysMs(array) => narrow_numbers(array, offset, rows),
        Array::MonthsDaysNs(array) => narrow_numbers(array, offset, rows),
        Array::Binary(array) => array.narrow(offset, rows),
        Array::LargeBinary(array) => array.narrow(offset, rows),
        Array::Utf8(array) => array.narrow(offset, rows),
        Array::LargeUtf8(array) => array.narrow(offset, rows),
        Array::BinaryView(array) => array.narrow(offset, rows),
        Array::Utf8View(array) => array.narrow(offset, rows),
        Array::FixedSizeBinary(array) => array.narrow(offset, rows),
        _ => unreachable!(),
    }
}
