//! Arrays of structs (Arrow Columnar Format, "Struct Layout").
ghost use Rattle.std.specs.Prelude.{◌≡◌, ◌+◌, ◌≤◌, ◌<◌, length, map, Some, None, IfOk, IfErr, true, ◌&&◌};
ghost use Rattle.std.specs.Option.{option_map};
ghost use Rattle.arrow_types.specs.KindOf.{kind_of, fields_of};
ghost use Rattle.arrow_buffers.specs.Rows.{part, has_rows, null_rows};
ghost use Rattle.arrow_arrays.specs.Heads.{structured, counted_part, is_struct, child_fields, are_of, are_all, run};
ghost use Rattle.arrow_arrays.specs.Parts.{nested, kinds_each, rows_each, rows_in, cells_in, part_of, cut, fault_in, fault_each};
ghost use Rattle.arrow_arrays.specs.PartsOf.{parts_of, all_parts_of, forest_of};

use crate::array::{Array, StructArray};
use crate::list::is_of;
use arrow_buffers::{ArrayError, Bitmap, clone_validity, narrow_validity, nulls_in, validity_has};
use arrow_types::{ArrowDataType, Field};
use std::alloc::{AllocError, Global};

/// Whether a type is of structs of these columns.
fn fits(dtype: &ArrowDataType, values: &[Array]) -> bool
    ensures { result ≡ (is_struct (kind_of dtype.now) && are_of (child_fields (kind_of dtype.now)) (kinds_each (forest_of values.now))) }
{
    match dtype {
        ArrowDataType::Struct(fields) => are_under(fields.as_slice(), values),
        ArrowDataType::Extension(extension) => fits(&extension.inner, values),
        _ => false,
    }
}

/// Whether columns stand under fields, each of its field's type.
pub(crate) fn are_under(fields: &[Field], values: &[Array]) -> bool
    ensures { result ≡ are_of (fields_of fields.now) (kinds_each (forest_of values.now)) }
{
    if fields.len() != values.len() {
        return false;
    }
    for i in 0..fields.len() {
        if !is_of(&fields[i], values[i].dtype()) {
            return false;
        }
    }
    true
}

/// Whether each column has so many rows.
pub(crate) fn are_of_rows(values: &[Array], rows: usize) -> bool
    ensures rows { result ≡ are_all rows (rows_each (forest_of values.now)) }
    ensures sound { result ≡ true → fault_each (forest_of values.now) ≡ None }
{
    for array in values {
        if array.len() != rows {
            return false;
        }
    }
    true
}

impl StructArray {
    /// The array of these parts.
    pub fn try_new(
        dtype: ArrowDataType,
        rows: usize,
        values: Vec<Array>,
        validity: Option<Bitmap>,
    ) -> Result<StructArray, ArrayError>
        ensures ok { IfOk result (λ a. a ≡ record { head = record { kind = kind_of dtype; rows = rows; validity = validity }; children = forest_of values.items }) }
        ensures sound { IfOk result (λ _. fault_in (nested (structured (record { kind = kind_of dtype; rows = rows; validity = validity })) (forest_of values.items)) ≡ None) }
        ensures err { IfErr result (λ e. fault_in (nested (structured (record { kind = kind_of dtype; rows = rows; validity = validity })) (forest_of values.items)) ≡ Some e) }
    {
        if !fits(&dtype, values.as_slice()) {
            return Err(ArrayError::DataType);
        }
        if !validity_has(&validity, rows) || !are_of_rows(values.as_slice(), rows) {
            return Err(ArrayError::Length);
        }
        Ok(StructArray {
            dtype,
            rows,
            values,
            validity,
        })
    }

    /// How many rows there are.
    pub fn len(&self) -> usize
        ensures rows { result ≡ self.now.head.rows }
        ensures cells { result ≡ length (cells_in (nested (structured self.now.head) self.now.children)) }
        ensures sound { fault_in (nested (structured self.now.head) self.now.children) ≡ None }
    {
        self.rows
    }

    /// The type.
    pub fn dtype(&self) -> &ArrowDataType
        ensures { kind_of result.now ≡ self.now.head.kind }
    {
        &self.dtype
    }

    /// The columns, in order.
    pub fn values(&self) -> &[Array]
        ensures { forest_of result.now ≡ self.now.children }
    {
        self.values.as_slice()
    }

    /// Which rows are not null; all, where there is no bitmap.
    pub fn validity(&self) -> Option<&Bitmap>
        ensures bits { option_map (λ b. b.now) result ≡ self.now.head.validity }
        ensures rows { has_rows self.now.head.validity self.now.head.rows ≡ true }
    {
        self.validity.as_ref()
    }

    /// How many rows are null.
    pub fn null_count(&self) -> usize
        ensures { result ≡ null_rows self.now.head.validity }
    {
        nulls_in(&self.validity)
    }

    /// Leaves only the part, and copies nothing.
    #[cycle(narrow)]
    pub fn narrow(&mut self, offset: usize, rows: usize)
        requires { offset + rows ≤ self.old.head.rows }
        ensures parts { self.new ≡ record { head = counted_part offset rows self.old.head; children = cut (run offset rows) self.old.children } }
        ensures cells { cells_in (nested (structured self.new.head) self.new.children) ≡ part offset rows (cells_in (nested (structured self.old.head) self.old.children)) }
    {
        narrow_each(&mut self.values, self.rows, offset, rows);
        narrow_validity(&mut self.validity, offset, rows);
        self.rows = rows;
    }

    /// The part, which shares the memory.
    pub fn sliced(self, offset: usize, rows: usize) -> StructArray
        requires { offset + rows ≤ self.head.rows }
        ensures parts { result ≡ record { head = counted_part offset rows self.head; children = cut (run offset rows) self.children } }
        ensures cells { cells_in (nested (structured result.head) result.children) ≡ part offset rows (cells_in (nested (structured self.head) self.children)) }
    {
        let mut part = self;
        part.narrow(offset, rows);
        part
    }

    /// A second owner of the same parts.
    #[cycle(copy)]
    pub fn try_clone(&self, alloc: Global) -> Result<StructArray, AllocError>
        ensures { IfOk result (λ a. a ≡ self.now) }
    {
        let dtype = self.dtype.try_clone(alloc)?;
        let validity = clone_validity(&self.validity)?;
        Ok(StructArray {
            dtype,
            rows: self.rows,
            values: clone_each(alloc, self.values.as_slice())?,
            validity,
        })
    }
}

/// Leaves only the part of each array.
#[cycle(narrow)]
pub(crate) fn narrow_each(arrays: &mut Vec<Array>, held: usize, offset: usize, rows: usize)
    requires all { are_all held (rows_each (forest_of arrays.old.items)) ≡ true }
    requires room { offset + rows ≤ held }
    ensures { all_parts_of arrays.new.items ≡ map (part_of offset rows) (all_parts_of arrays.old.items) }
{
    for i in 0..arrays.len() {
        arrays[i].narrow(offset, rows);
    }
}

/// Second owners of some arrays, which share their memory.
#[cycle(copy)]
pub fn clone_each(alloc: Global, arrays: &[Array]) -> Result<Vec<Array>, AllocError>
    ensures { IfOk result (λ v. all_parts_of v.items ≡ all_parts_of arrays.now) }
{
    let mut clones = Vec::new(alloc);
    for array in arrays {
        clones.push(array.try_clone(alloc)?)?;
    }
    Ok(clones)
}

/// A second owner of an array, in a box of its own.
#[cycle(copy)]
pub(crate) fn clone_child(alloc: Global, array: &Array) -> Result<Box<Array>, AllocError>
    ensures { IfOk result (λ a. parts_of a.value ≡ parts_of array.now) }
{
    Ok(Box::new(alloc, array.try_clone(alloc)?)?)
}
