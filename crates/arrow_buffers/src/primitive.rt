//! Arrays of numbers (Arrow Columnar Format, "Fixed-size Primitive Layout").
ghost use Rattle.std.specs.Prelude.{◌≡◌, ◌+◌, ◌≤◌, ◌<◌, length, slice_get, Some, None, IfOk, IfErr, true};
ghost use Rattle.std.specs.Option.{option_map};
ghost use Rattle.arrow_types.specs.KindOf.{kind_of};
ghost use Rattle.arrow_types.specs.Physical.{physical_of};
ghost use Rattle.arrow_buffers.specs.Rows.{part, has_rows, null_rows};
ghost use Rattle.arrow_buffers.specs.Layouts.{is_primitive};
ghost use Rattle.arrow_buffers.specs.Leaf.{leaf_part, leaf_cells, leaf_fault};

use crate::{
    ArrayError, Bitmap, Buffer, clone_validity, layout, narrow_validity, nulls_in, validity_has,
};
use arrow_types::{ArrowDataType, NativeType};
use std::alloc::{AllocError, Global};
use std::marker::Model;

/// An array of numbers, seen as its type's kind, its numbers and its validity.
pub struct PrimitiveArray<T: NativeType> {
    dtype: ArrowDataType,
    values: Buffer<T>,
    validity: Option<Bitmap>,
}

impl<T: NativeType> Drop for PrimitiveArray<T> {
    fn drop(self) {
        let PrimitiveArray {
            dtype,
            values,
            validity,
        } = self;
        drop(dtype);
        drop(values);
        drop(validity);
    }
}

impl<T: NativeType> Model for PrimitiveArray<T> {
    ghost use Rattle.std.specs.Prelude.{◌≡◌, None, length};
    ghost use Rattle.arrow_types.specs.KindOf.{kind_of};
    ghost use Rattle.arrow_types.specs.Physical.{physical_of};
    ghost use Rattle.arrow_buffers.specs.Layouts.{is_primitive};
    ghost use Rattle.arrow_buffers.specs.Leaf.{Leaf, leaf_code, leaf_fault};

    ghost Value = { Leaf T };

    ghost coded = { leaf_code T.code };

    ghost view = { λ a. record { kind = kind_of a.dtype; values = a.values; validity = a.validity } };

    ghost invariant = { λ a. leaf_fault (is_primitive T.PRIMITIVE (physical_of (kind_of a.dtype))) (length a.values) a.validity ≡ None };
}

impl<T: NativeType> PrimitiveArray<T> {
    /// The array of these parts.
    pub fn try_new(
        dtype: ArrowDataType,
        values: Buffer<T>,
        validity: Option<Bitmap>,
    ) -> Result<PrimitiveArray<T>, ArrayError>
        ensures ok { IfOk result (λ a. a ≡ record { kind = kind_of dtype; values = values; validity = validity }) }
        ensures sound { IfOk result (λ _. leaf_fault (is_primitive T.PRIMITIVE (physical_of (kind_of dtype))) (length values) validity ≡ None) }
        ensures err { IfErr result (λ e. leaf_fault (is_primitive T.PRIMITIVE (physical_of (kind_of dtype))) (length values) validity ≡ Some e) }
    {
        if !layout::is_primitive(&dtype, T::PRIMITIVE) {
            return Err(ArrayError::DataType);
        }
        if !validity_has(&validity, values.len()) {
            return Err(ArrayError::Length);
        }
        Ok(PrimitiveArray {
            dtype,
            values,
            validity,
        })
    }

    /// How many rows there are.
    pub fn len(&self) -> usize
        ensures values { result ≡ length self.now.values }
        ensures cells { result ≡ length (leaf_cells T.cell self.now) }
        ensures sound { leaf_fault (is_primitive T.PRIMITIVE (physical_of self.now.kind)) (length self.now.values) self.now.validity ≡ None }
    {
        self.values.len()
    }

    /// The type.
    pub fn dtype(&self) -> &ArrowDataType
        ensures { kind_of result.now ≡ self.now.kind }
    {
        &self.dtype
    }

    /// The numbers of the rows, which mean nothing where a row is null.
    pub fn values(&self) -> &Buffer<T>
        ensures { result.now ≡ self.now.values }
    {
        &self.values
    }

    /// Which rows are not null; all, where there is no bitmap.
    pub fn validity(&self) -> Option<&Bitmap>
        ensures bits { option_map (λ b. b.now) result ≡ self.now.validity }
        ensures rows { has_rows self.now.validity (length self.now.values) ≡ true }
    {
        self.validity.as_ref()
    }

    /// How many rows are null.
    pub fn null_count(&self) -> usize
        ensures { result ≡ null_rows self.now.validity }
    {
        nulls_in(&self.validity)
    }

    /// The number that a row holds, which means nothing where the row is null.
    pub fn value(&self, row: usize) -> T
        requires { row < length self.now.values }
        ensures { slice_get self.now.values row ≡ Some result }
    {
        self.values.get(row)
    }

    /// The same numbers under another validity.
    pub fn with_validity(self, validity: Option<Bitmap>) -> Result<PrimitiveArray<T>, ArrayError>
        ensures ok { IfOk result (λ a. a ≡ record { kind = self.kind; values = self.values; validity = validity }) }
        ensures err { IfErr result (λ e. leaf_fault (is_primitive T.PRIMITIVE (physical_of self.kind)) (length self.values) validity ≡ Some e) }
    {
        let PrimitiveArray {
            dtype,
            values,
            validity: before,
        } = self;
        drop(before);
        PrimitiveArray::try_new(dtype, values, validity)
    }

    /// Leaves only the part, and copies nothing.
    pub fn narrow(&mut self, offset: usize, rows: usize)
        requires { offset + rows ≤ length self.old.values }
        ensures parts { self.new ≡ leaf_part offset rows self.old }
        ensures cells { leaf_cells T.cell self.new ≡ part offset rows (leaf_cells T.cell self.old) }
    {
        self.values.narrow(offset, rows);
        narrow_validity(&mut self.validity, offset, rows);
    }

    /// The part, which shares the memory.
    pub fn sliced(self, offset: usize, rows: usize) -> PrimitiveArray<T>
        requires { offset + rows ≤ length self.values }
        ensures parts { result ≡ leaf_part offset rows self }
        ensures cells { leaf_cells T.cell result ≡ part offset rows (leaf_cells T.cell self) }
    {
        let mut part = self;
        part.narrow(offset, rows);
        part
    }

    /// A second owner of the same parts.
    pub fn try_clone(&self, alloc: Global) -> Result<PrimitiveArray<T>, AllocError>
        ensures { IfOk result (λ a. a ≡ self.now) }
    {
        Ok(PrimitiveArray {
            dtype: self.dtype.try_clone(alloc)?,
            values: self.values.try_clone()?,
            validity: clone_validity(&self.validity)?,
        })
    }
}
