//! Arrays of lists of one size (Arrow Columnar Format, "Fixed-Size List Layout").
ghost use Rattle.std.specs.Prelude.{◌≡◌, ◌+◌, ◌*◌, ◌≤◌, ◌<◌, ◌≢◌, length, Some, None, IfOk, IfErr, true, ◌&&◌, [], ◌∷◌};
ghost use Rattle.std.specs.Option.{option_map};
ghost use Rattle.arrow_types.specs.KindOf.{kind_of};
ghost use Rattle.arrow_buffers.specs.declared.error.ArrayError.TheVariants.{Memory};
ghost use Rattle.arrow_buffers.specs.Rows.{part, has_rows, null_rows};
ghost use Rattle.arrow_arrays.specs.Heads.{sized, counted_part, first_or_0, is_sized, list_size, child_fields, are_of, are_all, run};
ghost use Rattle.arrow_arrays.specs.Parts.{nested, rows_each, cells_in, cut, fault_in};
ghost use Rattle.arrow_arrays.specs.PartsOf.{only};

use crate::array::{Array, FixedSizeListArray};
use crate::list::is_of;
use crate::structs::clone_child;
use arrow_buffers::{ArrayError, Bitmap, clone_validity, narrow_validity, nulls_in, validity_has};
use arrow_types::ArrowDataType;
use std::alloc::{AllocError, Global};

/// Whether a type is of lists of one size above 0 over values of this type.
fn fits(dtype: &ArrowDataType, values: &ArrowDataType) -> bool
    ensures { result ≡ (is_sized (kind_of dtype.now) && are_of (child_fields (kind_of dtype.now)) (kind_of values.now ∷ [])) }
{
    match dtype {
        ArrowDataType::FixedSizeList(field, size) => *size > 0 && is_of(field, values),
        ArrowDataType::Extension(extension) => fits(&extension.inner, values),
        _ => false,
    }
}

/// How many items each list has, extensions looked through; 0 for other types.
fn size_of(dtype: &ArrowDataType) -> usize
    ensures { result ≡ list_size (kind_of dtype.now) }
{
    match dtype {
        ArrowDataType::FixedSizeList(_, size) => *size,
        ArrowDataType::Extension(extension) => size_of(&extension.inner),
        _ => 0,
    }
}

/// Whether there are so many items, of each row one size.
fn are_whole(items: usize, size: usize, rows: usize) -> bool
    ensures { result ≡ are_all (size * rows) (items ∷ []) }
{
    match size.checked_mul(rows) {
        Some(count) => items == count,
        None => false,
    }
}

/// Where the items of some rows begin, and how many they are.
fn items_of(size: usize, offset: usize, rows: usize, held: usize, items: usize) -> (usize, usize)
    requires whole { items ≡ size * held }
    requires room { offset + rows ≤ held }
    ensures from { result.0 ≡ size * offset }
    ensures count { result.1 ≡ size * rows }
    ensures within { result.0 + result.1 ≤ items }
{
    (size * offset, size * rows)
}

impl FixedSizeListArray {
    /// The array of these parts.
    pub fn try_new(
        alloc: Global,
        dtype: ArrowDataType,
        length: usize,
        values: Array,
        validity: Option<Bitmap>,
    ) -> Result<FixedSizeListArray, ArrayError>
        ensures ok { IfOk result (λ a. a ≡ record { head = record { kind = kind_of dtype; rows = length; validity = validity }; children = only values }) }
        ensures sound { IfOk result (λ _. fault_in (nested (sized (record { kind = kind_of dtype; rows = length; validity = validity })) (only values)) ≡ None) }
        ensures err { IfErr result (λ e. e ≢ Memory → fault_in (nested (sized (record { kind = kind_of dtype; rows = length; validity = validity })) (only values)) ≡ Some e) }
    {
        if !fits(&dtype, values.dtype()) {
            return Err(ArrayError::DataType);
        }
        if !validity_has(&validity, length) || !are_whole(values.len(), size_of(&dtype), length) {
            return Err(ArrayError::Length);
        }
        match Box::new(alloc, values) {
            Ok(values) => Ok(FixedSizeListArray {
                dtype,
                rows: length,
                values,
                validity,
            }),
            Err(_) => Err(ArrayError::Memory),
        }
    }

    /// How many rows there are.
    pub fn len(&self) -> usize
        ensures rows { result ≡ self.now.head.rows }
        ensures cells { result ≡ length (cells_in (nested (sized self.now.head) self.now.children)) }
        ensures sound { fault_in (nested (sized self.now.head) self.now.children) ≡ None }
    {
        self.rows
    }

    /// The type.
    pub fn dtype(&self) -> &ArrowDataType
        ensures { kind_of result.now ≡ self.now.head.kind }
    {
        &self.dtype
    }

    /// How many items each list has.
    pub fn size(&self) -> usize
        ensures { result ≡ list_size self.now.head.kind }
    {
        size_of(&self.dtype)
    }

    /// The items of all rows, one after another.
    pub fn values(&self) -> &Array
        ensures { only result.now ≡ self.now.children }
    {
        &self.values
    }

    /// Where the items of a row begin among the values, and how many they are.
    pub fn range(&self, row: usize) -> (usize, usize)
        requires { row < self.now.head.rows }
        ensures from { result.0 ≡ list_size self.now.head.kind * row }
        ensures count { result.1 ≡ list_size self.now.head.kind }
        ensures within { result.0 + result.1 ≤ first_or_0 (rows_each self.now.children) }
    {
        items_of(self.size(), row, 1, self.rows, self.values.len())
    }

    /// Which rows are not null; all, where there is no bitmap.
    pub fn validity(&self) -> Option<&Bitmap>
        ensures bits { option_map (λ b. b.now) result ≡ self.now.head.validity }
        ensures rows { has_rows self.now.head.validity self.now.head.rows ≡ true }
    {
        self.validity.as_ref()
    }

    /// How many rows are null.
    pub fn null_count(&self) -> usize
        ensures { result ≡ null_rows self.now.head.validity }
    {
        nulls_in(&self.validity)
    }

    /// Leaves only the part, and copies nothing.
    #[cycle(narrow)]
    pub fn narrow(&mut self, offset: usize, rows: usize)
        requires { offset + rows ≤ self.old.head.rows }
        ensures parts { self.new ≡ record { head = counted_part offset rows self.old.head; children = cut (run (list_size self.old.head.kind * offset) (list_size self.old.head.kind * rows)) self.old.children } }
        ensures cells { cells_in (nested (sized self.new.head) self.new.children) ≡ part offset rows (cells_in (nested (sized self.old.head) self.old.children)) }
    {
        let size = size_of(&self.dtype);
        let items = self.values.len();
        let (from, count) = items_of(size, offset, rows, self.rows, items);
        self.values.narrow(from, count);
        narrow_validity(&mut self.validity, offset, rows);
        self.rows = rows;
    }

    /// The part, which shares the memory.
    pub fn sliced(self, offset: usize, rows: usize) -> FixedSizeListArray
        requires { offset + rows ≤ self.head.rows }
        ensures parts { result ≡ record { head = counted_part offset rows self.head; children = cut (run (list_size self.head.kind * offset) (list_size self.head.kind * rows)) self.children } }
        ensures cells { cells_in (nested (sized result.head) result.children) ≡ part offset rows (cells_in (nested (sized self.head) self.children)) }
    {
        let mut part = self;
        part.narrow(offset, rows);
        part
    }

    /// A second owner of the same parts.
    #[cycle(copy)]
    pub fn try_clone(&self, alloc: Global) -> Result<FixedSizeListArray, AllocError>
        ensures { IfOk result (λ a. a ≡ self.now) }
    {
        let dtype = self.dtype.try_clone(alloc)?;
        let validity = clone_validity(&self.validity)?;
        Ok(FixedSizeListArray {
            dtype,
            rows: self.rows,
            values: clone_child(alloc, &self.values)?,
            validity,
        })
    }
}
