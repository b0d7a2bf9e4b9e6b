//! Arrays of truth values (Arrow Columnar Format, "Fixed-size Primitive Layout").
ghost use Rattle.std.specs.Prelude.{◌≡◌, ◌+◌, ◌≤◌, ◌<◌, length, slice_get, Some, None, IfOk, IfErr, true};
ghost use Rattle.std.specs.Option.{option_map};
ghost use Rattle.arrow_spec.specs.Cells.{bool};
ghost use Rattle.arrow_types.specs.KindOf.{kind_of};
ghost use Rattle.arrow_types.specs.Physical.{physical_of};
ghost use Rattle.arrow_buffers.specs.Rows.{part, has_rows, null_rows};
ghost use Rattle.arrow_buffers.specs.Layouts.{is_boolean};
ghost use Rattle.arrow_buffers.specs.Leaf.{leaf_part, leaf_cells, leaf_fault};

use crate::{ArrayError, Bitmap, clone_validity, layout, narrow_validity, nulls_in, validity_has};
use arrow_types::ArrowDataType;
use std::alloc::{AllocError, Global};
use std::marker::Model;

/// An array of truth values, seen as its type's kind, its bits and its validity.
pub struct BooleanArray {
    dtype: ArrowDataType,
    values: Bitmap,
    validity: Option<Bitmap>,
}

impl Drop for BooleanArray {
    fn drop(self) {
        let BooleanArray {
            dtype,
            values,
            validity,
        } = self;
        drop(dtype);
        drop(values);
        drop(validity);
    }
}

impl Model for BooleanArray {
    ghost use Rattle.std.specs.Prelude.{◌≡◌, None, Bool, length};
    ghost use Rattle.std.specs.Coded.{coded_bool};
    ghost use Rattle.arrow_types.specs.KindOf.{kind_of};
    ghost use Rattle.arrow_types.specs.Physical.{physical_of};
    ghost use Rattle.arrow_buffers.specs.Layouts.{is_boolean};
    ghost use Rattle.arrow_buffers.specs.Leaf.{Leaf, leaf_code, leaf_fault};

    ghost Value = { Leaf Bool };

    ghost coded = { leaf_code coded_bool };

    ghost view = { λ a. record { kind = kind_of a.dtype; values = a.values; validity = a.validity } };

    ghost invariant = { λ a. leaf_fault (is_boolean (physical_of (kind_of a.dtype))) (length a.values) a.validity ≡ None };
}

impl BooleanArray {
    /// The array of these parts.
    pub fn try_new(
        dtype: ArrowDataType,
        values: Bitmap,
        validity: Option<Bitmap>,
    ) -> Result<BooleanArray, ArrayError>
        ensures ok { IfOk result (λ a. a ≡ record { kind = kind_of dtype; values = values; validity = validity }) }
        ensures sound { IfOk result (λ _. leaf_fault (is_boolean (physical_of (kind_of dtype))) (length values) validity ≡ None) }
        ensures err { IfErr result (λ e. leaf_fault (is_boolean (physical_of (kind_of dtype))) (length values) validity ≡ Some e) }
    {
        if !layout::is_boolean(&dtype) {
            return Err(ArrayError::DataType);
        }
        if !validity_has(&validity, values.len()) {
            return Err(ArrayError::Length);
        }
        Ok(BooleanArray {
            dtype,
            values,
            validity,
        })
    }

    /// How many rows there are.
    pub fn len(&self) -> usize
        ensures values { result ≡ length self.now.values }
        ensures cells { result ≡ length (leaf_cells bool self.now) }
        ensures sound { leaf_fault (is_boolean (physical_of self.now.kind)) (length self.now.values) self.now.validity ≡ None }
    {
        self.values.len()
    }

    /// The type.
    pub fn dtype(&self) -> &ArrowDataType
        ensures { kind_of result.now ≡ self.now.kind }
    {
        &self.dtype
    }

    /// The bits of the rows, which mean nothing where a row is null.
    pub fn values(&self) -> &Bitmap
        ensures { result.now ≡ self.now.values }
    {
        &self.values
    }

    /// Which rows are not null; all, where there is no bitmap.
    pub fn validity(&self) -> Option<&Bitmap>
        ensures bits { option_map (λ b. b.now) result ≡ self.now.validity }
        ensures rows { has_rows self.now.validity (length self.now.values) ≡ true }
    {
        self.validity.as_ref()
    }

    /// How many rows are null.
    pub fn null_count(&self) -> usize
        ensures { result ≡ null_rows self.now.validity }
    {
        nulls_in(&self.validity)
    }

    /// The bit that a row holds, which means nothing where the row is null.
    pub fn value(&self, row: usize) -> bool
        requires { row < length self.now.values }
        ensures { slice_get self.now.values row ≡ Some result }
    {
        self.values.get(row)
    }

    /// The same bits under another validity.
    pub fn with_validity(self, validity: Option<Bitmap>) -> Result<BooleanArray, ArrayError>
        ensures ok { IfOk result (λ a. a ≡ record { kind = self.kind; values = self.values; validity = validity }) }
        ensures err { IfErr result (λ e. leaf_fault (is_boolean (physical_of self.kind)) (length self.values) validity ≡ Some e) }
    {
        let BooleanArray {
            dtype,
            values,
            validity: before,
        } = self;
        drop(before);
        BooleanArray::try_new(dtype, values, validity)
    }

    /// Leaves only the part, and copies nothing.
    pub fn narrow(&mut self, offset: usize, rows: usize)
        requires { offset + rows ≤ length self.old.values }
        ensures parts { self.new ≡ leaf_part offset rows self.old }
        ensures cells { leaf_cells bool self.new ≡ part offset rows (leaf_cells bool self.old) }
    {
        self.values.narrow(offset, rows);
        narrow_validity(&mut self.validity, offset, rows);
    }

    /// The part, which shares the memory.
    pub fn sliced(self, offset: usize, rows: usize) -> BooleanArray
        requires { offset + rows ≤ length self.values }
        ensures parts { result ≡ leaf_part offset rows self }
        ensures cells { leaf_cells bool result ≡ part offset rows (leaf_cells bool self) }
    {
        let mut part = self;
        part.narrow(offset, rows);
        part
    }

    /// A second owner of the same parts.
    pub fn try_clone(&self, alloc: Global) -> Result<BooleanArray, AllocError>
        ensures { IfOk result (λ a. a ≡ self.now) }
    {
        Ok(BooleanArray {
            dtype: self.dtype.try_clone(alloc)?,
            values: self.values.try_clone()?,
            validity: clone_validity(&self.validity)?,
        })
    }
}
