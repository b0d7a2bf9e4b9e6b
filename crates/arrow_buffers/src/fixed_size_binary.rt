//! Arrays of byte strings of one size (Arrow Columnar Format, "Fixed-size Primitive Layout").
ghost use Rattle.std.specs.Prelude.{◌≡◌, ◌+◌, ◌*◌, ◌%◌, ◌/◌, ◌≤◌, ◌<◌, ◌&&◌, nat_eq, length, Some, None, IfOk, IfErr, true};
ghost use Rattle.std.specs.Option.{option_map};
ghost use Rattle.arrow_types.specs.KindOf.{kind_of};
ghost use Rattle.arrow_buffers.specs.Rows.{part, has_rows, null_rows};
ghost use Rattle.arrow_buffers.specs.Layouts.{binary_size};
ghost use Rattle.arrow_buffers.specs.Leaf.{Leaf, fixed_rows, fixed_row, fixed_part, fixed_cells, fixed_fault};

use crate::validity::are_whole_rows;
use crate::{ArrayError, Bitmap, Buffer, clone_validity, layout, narrow_validity, nulls_in};
use arrow_types::ArrowDataType;
use std::alloc::{AllocError, Global};
use std::marker::Model;

/// An array of byte strings of one size, seen as its type's kind, its bytes and its validity.
pub struct FixedSizeBinaryArray {
    dtype: ArrowDataType,
    values: Buffer<u8>,
    validity: Option<Bitmap>,
}

impl Drop for FixedSizeBinaryArray {
    fn drop(self) {
        let FixedSizeBinaryArray {
            dtype,
            values,
            validity,
        } = self;
        drop(dtype);
        drop(values);
        drop(validity);
    }
}

impl Model for FixedSizeBinaryArray {
    ghost use Rattle.std.specs.Prelude.{◌≡◌, ℕ, None};
    ghost use Rattle.std.specs.Coded.{coded_ℕ};
    ghost use Rattle.arrow_types.specs.KindOf.{kind_of};
    ghost use Rattle.arrow_buffers.specs.Leaf.{Leaf, leaf_code, fixed_fault};

    ghost Value = { Leaf ℕ };

    ghost coded = { leaf_code coded_ℕ };

    ghost view = { λ a. record { kind = kind_of a.dtype; values = a.values; validity = a.validity } };

    ghost invariant = { λ a. fixed_fault (record { kind = kind_of a.dtype; values = a.values; validity = a.validity }) ≡ None };
}

impl FixedSizeBinaryArray {
    /// The array of these parts.
    pub fn try_new(
        dtype: ArrowDataType,
        values: Buffer<u8>,
        validity: Option<Bitmap>,
    ) -> Result<FixedSizeBinaryArray, ArrayError>
        ensures ok { IfOk result (λ a. a ≡ record { kind = kind_of dtype; values = values; validity = validity }) }
        ensures sound { IfOk result (λ _. fixed_fault (record { kind = kind_of dtype; values = values; validity = validity }) ≡ None) }
        ensures err { IfErr result (λ e. fixed_fault (record { kind = kind_of dtype; values = values; validity = validity }) ≡ Some e) }
    {
        let size = layout::binary_size(&dtype);
        if size == 0 {
            return Err(ArrayError::DataType);
        }
        if !are_whole_rows(size, values.len(), &validity) {
            return Err(ArrayError::Length);
        }
        Ok(FixedSizeBinaryArray {
            dtype,
            values,
            validity,
        })
    }

    /// How many rows there are.
    pub fn len(&self) -> usize
        ensures rows { result ≡ fixed_rows self.now }
        ensures cells { result ≡ length (fixed_cells self.now) }
        ensures sound { fixed_fault self.now ≡ None }
    {
        self.values.len() / self.size()
    }

    /// The bytes of a row.
    pub fn size(&self) -> usize
        ensures size { result ≡ binary_size self.now.kind }
        ensures above { 0 < result }
    {
        layout::binary_size(&self.dtype)
    }

    /// The type.
    pub fn dtype(&self) -> &ArrowDataType
        ensures { kind_of result.now ≡ self.now.kind }
    {
        &self.dtype
    }

    /// The bytes of all rows, one after another.
    pub fn values(&self) -> &Buffer<u8>
        ensures { result.now ≡ self.now.values }
    {
        &self.values
    }

    /// Which rows are not null; all, where there is no bitmap.
    pub fn validity(&self) -> Option<&Bitmap>
        ensures bits { option_map (λ b. b.now) result ≡ self.now.validity }
        ensures rows { has_rows self.now.validity (fixed_rows self.now) ≡ true }
    {
        self.validity.as_ref()
    }

    /// How many rows are null.
    pub fn null_count(&self) -> usize
        ensures { result ≡ null_rows self.now.validity }
    {
        nulls_in(&self.validity)
    }

    /// The bytes that a row holds, which mean nothing where the row is null.
    pub fn value(&self, row: usize) -> &[u8]
        requires { row < fixed_rows self.now }
        ensures { result.now ≡ fixed_row (binary_size self.now.kind) self.now.values row }
    {
        let size = layout::binary_size(&self.dtype);
        let values = self.values.as_slice();
        let from = size * row;
        &values[from..from + size]
    }

    /// Leaves only the part, and copies nothing.
    pub fn narrow(&mut self, offset: usize, rows: usize)
        requires { offset + rows ≤ fixed_rows self.old }
        ensures parts { self.new ≡ fixed_part offset rows self.old }
        ensures cells { fixed_cells self.new ≡ part offset rows (fixed_cells self.old) }
    {
        let size = layout::binary_size(&self.dtype);
        prove!(self.values.len() / size >= offset + rows);
        self.values.narrow(size * offset, size * rows);
        narrow_validity(&mut self.validity, offset, rows);
    }

    /// The part, which shares the memory.
    pub fn sliced(self, offset: usize, rows: usize) -> FixedSizeBinaryArray
        requires { offset + rows ≤ fixed_rows self }
        ensures parts { result ≡ fixed_part offset rows self }
        ensures cells { fixed_cells result ≡ part offset rows (fixed_cells self) }
    {
        let mut part = self;
        part.narrow(offset, rows);
        part
    }

    /// A second owner of the same parts.
    pub fn try_clone(&self, alloc: Global) -> Result<FixedSizeBinaryArray, AllocError>
        ensures { IfOk result (λ a. a ≡ self.now) }
    {
        Ok(FixedSizeBinaryArray {
            dtype: self.dtype.try_clone(alloc)?,
            values: self.values.try_clone()?,
            validity: clone_validity(&self.validity)?,
        })
    }
}
