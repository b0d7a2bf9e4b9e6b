//! Arrays of nulls alone (Arrow Columnar Format, "Null Layout").
ghost use Rattle.std.specs.Prelude.{◌≡◌, ◌+◌, ◌≤◌, length, Some, None, IfOk, IfErr, IsNone};
ghost use Rattle.arrow_types.specs.KindOf.{kind_of};
ghost use Rattle.arrow_types.specs.Physical.{physical_of};
ghost use Rattle.arrow_buffers.specs.Rows.{part};
ghost use Rattle.arrow_buffers.specs.Layouts.{is_null};
ghost use Rattle.arrow_buffers.specs.Leaf.{null_cells, nulls_fault};

use crate::{ArrayError, Bitmap, layout};
use arrow_types::ArrowDataType;
use std::alloc::{AllocError, Global};
use std::marker::Model;

/// An array whose rows are all null, seen as its type's kind and the number of its rows.
pub struct NullArray {
    dtype: ArrowDataType,
    count: usize,
}

impl Drop for NullArray {
    fn drop(self) {
        let NullArray { dtype, count: _ } = self;
        drop(dtype);
    }
}

impl Model for NullArray {
    ghost use Rattle.std.specs.Prelude.{◌≡◌, None};
    ghost use Rattle.arrow_types.specs.KindOf.{kind_of};
    ghost use Rattle.arrow_types.specs.Physical.{physical_of};
    ghost use Rattle.arrow_buffers.specs.Layouts.{is_null};
    ghost use Rattle.arrow_buffers.specs.Leaf.{Nulls, nulls_code, nulls_fault};

    ghost Value = { Nulls };

    ghost coded = { nulls_code };

    ghost view = { λ a. record { kind = kind_of a.dtype; rows = a.count } };

    ghost invariant = { λ a. nulls_fault (is_null (physical_of (kind_of a.dtype))) ≡ None };
}

impl NullArray {
    /// The array of so many rows.
    pub fn try_new(dtype: ArrowDataType, length: usize) -> Result<NullArray, ArrayError>
        ensures ok { IfOk result (λ a. a ≡ record { kind = kind_of dtype; rows = length }) }
        ensures sound { IfOk result (λ _. nulls_fault (is_null (physical_of (kind_of dtype))) ≡ None) }
        ensures err { IfErr result (λ e. nulls_fault (is_null (physical_of (kind_of dtype))) ≡ Some e) }
    {
        if !layout::is_null(&dtype) {
            return Err(ArrayError::DataType);
        }
        Ok(NullArray {
            dtype,
            count: length,
        })
    }

    /// How many rows there are.
    pub fn len(&self) -> usize
        ensures rows { result ≡ self.now.rows }
        ensures cells { result ≡ length (null_cells self.now) }
        ensures sound { nulls_fault (is_null (physical_of self.now.kind)) ≡ None }
    {
        self.count
    }

    /// The type.
    pub fn dtype(&self) -> &ArrowDataType
        ensures { kind_of result.now ≡ self.now.kind }
    {
        &self.dtype
    }

    /// There is no validity, since no row is valid.
    pub fn validity(&self) -> Option<&Bitmap>
        ensures { IsNone result }
    {
        None
    }

    /// All rows are null.
    pub fn null_count(&self) -> usize
        ensures { result ≡ self.now.rows }
    {
        self.count
    }

    /// Leaves only the part.
    pub fn narrow(&mut self, offset: usize, rows: usize)
        requires { offset + rows ≤ self.old.rows }
        ensures parts { self.new ≡ record { kind = self.old.kind; rows = rows } }
        ensures cells { null_cells self.new ≡ part offset rows (null_cells self.old) }
    {
        let _ = offset;
        self.count = rows;
    }

    /// The part.
    pub fn sliced(self, offset: usize, rows: usize) -> NullArray
        requires { offset + rows ≤ self.rows }
        ensures parts { result ≡ record { kind = self.kind; rows = rows } }
        ensures cells { null_cells result ≡ part offset rows (null_cells self) }
    {
        let mut part = self;
        part.narrow(offset, rows);
        part
    }

    /// An equal array.
    pub fn try_clone(&self, alloc: Global) -> Result<NullArray, AllocError>
        ensures { IfOk result (λ a. a ≡ self.now) }
    {
        Ok(NullArray {
            dtype: self.dtype.try_clone(alloc)?,
            count: self.count,
        })
    }
}
