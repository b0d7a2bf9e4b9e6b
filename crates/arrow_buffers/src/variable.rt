//! Arrays of byte strings and texts (Arrow Columnar Format, "Variable-size Binary Layout").
ghost use Rattle.std.specs.Prelude.{◌≡◌, ◌+◌, ◌≤◌, ◌<◌, length, map, Some, None, IfOk, IfErr, true};
ghost use Rattle.std.specs.Option.{option_map};
ghost use Rattle.arrow_types.specs.KindOf.{kind_of};
ghost use Rattle.arrow_types.specs.Physical.{physical_of};
ghost use Rattle.arrow_buffers.specs.Rows.{part, has_rows, null_rows};
ghost use Rattle.arrow_buffers.specs.Layouts.{is_variable};
ghost use Rattle.arrow_buffers.specs.Variable.{variable_rows, row_bytes, variable_part, variable_cells, variable_fault};

use crate::offsets::{bytes_of, rise_within};
use crate::texts::are_texts;
use crate::{
    ArrayError, Bitmap, Buffer, ByteRows, TextRows, ViewType, clone_validity, layout,
    narrow_validity, nulls_in, validity_has,
};
use arrow_types::{ArrowDataType, Offset};
use std::alloc::{AllocError, Global};
use std::marker::{Model, PhantomData};

/// An array of byte strings or of texts, seen as its type's kind, its offsets, its bytes and its validity.
pub struct VariableArray<O: Offset, V: ViewType> {
    dtype: ArrowDataType,
    offsets: Buffer<O>,
    values: Buffer<u8>,
    validity: Option<Bitmap>,
    rows: PhantomData<V>,
}

impl<O: Offset, V: ViewType> Drop for VariableArray<O, V> {
    fn drop(self) {
        let VariableArray {
            dtype,
            offsets,
            values,
            validity,
            rows: _,
        } = self;
        drop(dtype);
        drop(offsets);
        drop(values);
        drop(validity);
    }
}

/// An array of byte strings.
pub type BinaryArray<O> = VariableArray<O, ByteRows>;

/// An array of texts.
pub type Utf8Array<O> = VariableArray<O, TextRows>;

impl<O: Offset, V: ViewType> Model for VariableArray<O, V> {
    ghost use Rattle.std.specs.Prelude.{◌≡◌, None, map};
    ghost use Rattle.arrow_types.specs.KindOf.{kind_of};
    ghost use Rattle.arrow_types.specs.Physical.{physical_of};
    ghost use Rattle.arrow_buffers.specs.Layouts.{is_variable};
    ghost use Rattle.arrow_buffers.specs.Variable.{Variable, variable_code, variable_fault};

    ghost Value = { Variable };

    ghost coded = { variable_code };

    ghost view = { λ a. record { kind = kind_of a.dtype; offsets = map O.number a.offsets; values = a.values; validity = a.validity } };

    ghost invariant = { λ a. variable_fault V.IS_TEXT (is_variable V.IS_TEXT O.IS_LARGE (physical_of (kind_of a.dtype))) (record { kind = kind_of a.dtype; offsets = map O.number a.offsets; values = a.values; validity = a.validity }) ≡ None };
}

impl<O: Offset, V: ViewType> VariableArray<O, V> {
    /// The array of these parts.
    pub fn try_new(
        dtype: ArrowDataType,
        offsets: Buffer<O>,
        values: Buffer<u8>,
        validity: Option<Bitmap>,
    ) -> Result<VariableArray<O, V>, ArrayError>
        ensures ok { IfOk result (λ a. a ≡ record { kind = kind_of dtype; offsets = map O.number offsets; values = values; validity = validity }) }
        ensures sound { IfOk result (λ _. variable_fault V.IS_TEXT (is_variable V.IS_TEXT O.IS_LARGE (physical_of (kind_of dtype))) (record { kind = kind_of dtype; offsets = map O.number offsets; values = values; validity = validity }) ≡ None) }
        ensures err { IfErr result (λ e. variable_fault V.IS_TEXT (is_variable V.IS_TEXT O.IS_LARGE (physical_of (kind_of dtype))) (record { kind = kind_of dtype; offsets = map O.number offsets; values = values; validity = validity }) ≡ Some e) }
    {
        if !layout::is_variable(&dtype, V::IS_TEXT, O::IS_LARGE) {
            return Err(ArrayError::DataType);
        }
        if !validity_has(&validity, offsets.len().saturating_sub(1)) {
            return Err(ArrayError::Length);
        }
        if !rise_within(&offsets, values.len()) {
            return Err(ArrayError::Offsets);
        }
        if V::IS_TEXT && !are_texts(&offsets, values.as_slice(), &validity) {
            return Err(ArrayError::Utf8);
        }
        Ok(VariableArray {
            dtype,
            offsets,
            values,
            validity,
            rows: PhantomData,
        })
    }

    /// How many rows there are.
    pub fn len(&self) -> usize
        ensures rows { result ≡ variable_rows self.now.offsets }
        ensures cells { result ≡ length (variable_cells V.IS_TEXT self.now) }
        ensures sound { variable_fault V.IS_TEXT (is_variable V.IS_TEXT O.IS_LARGE (physical_of self.now.kind)) self.now ≡ None }
    {
        self.offsets.len().saturating_sub(1)
    }

    /// The type.
    pub fn dtype(&self) -> &ArrowDataType
        ensures { kind_of result.now ≡ self.now.kind }
    {
        &self.dtype
    }

    /// Where each row begins among the values, and where the last one ends; one more than rows.
    pub fn offsets(&self) -> &Buffer<O>
        ensures { map O.number result.now ≡ self.now.offsets }
    {
        &self.offsets
    }

    /// The bytes that the offsets lie in.
    pub fn values(&self) -> &Buffer<u8>
        ensures { result.now ≡ self.now.values }
    {
        &self.values
    }

    /// Which rows are not null; all, where there is no bitmap.
    pub fn validity(&self) -> Option<&Bitmap>
        ensures bits { option_map (λ b. b.now) result ≡ self.now.validity }
        ensures rows { has_rows self.now.validity (variable_rows self.now.offsets) ≡ true }
    {
        self.validity.as_ref()
    }

    /// How many rows are null.
    pub fn null_count(&self) -> usize
        ensures { result ≡ null_rows self.now.validity }
    {
        nulls_in(&self.validity)
    }

    /// The bytes that a row holds, which mean nothing where the row is null.
    pub fn value(&self, row: usize) -> &[u8]
        requires { row < variable_rows self.now.offsets }
        ensures { result.now ≡ row_bytes self.now.offsets self.now.values row }
    {
        bytes_of(&self.offsets, self.values.as_slice(), row)
    }

    /// The same offsets and bytes under another validity. The texts of rows that are valid now are looked at.
    pub fn with_validity(self, validity: Option<Bitmap>) -> Result<VariableArray<O, V>, ArrayError>
        ensures ok { IfOk result (λ a. a ≡ record { kind = self.kind; offsets = self.offsets; values = self.values; validity = validity }) }
        ensures err { IfErr result (λ e. variable_fault V.IS_TEXT (is_variable V.IS_TEXT O.IS_LARGE (physical_of self.kind)) (record { kind = self.kind; offsets = self.offsets; values = self.values; validity = validity }) ≡ Some e) }
    {
        let VariableArray {
            dtype,
            offsets,
            values,
            validity: before,
            rows: _,
        } = self;
        drop(before);
        VariableArray::try_new(dtype, offsets, values, validity)
    }

    /// Leaves only the part, and copies nothing.
    pub fn narrow(&mut self, offset: usize, rows: usize)
        requires { offset + rows ≤ variable_rows self.old.offsets }
        ensures parts { self.new ≡ variable_part offset rows self.old }
        ensures cells { variable_cells V.IS_TEXT self.new ≡ part offset rows (variable_cells V.IS_TEXT self.old) }
    {
        prove!(self.offsets.len() > offset + rows);
        self.offsets.narrow(offset, rows + 1);
        narrow_validity(&mut self.validity, offset, rows);
    }

    /// The part, which shares the memory.
    pub fn sliced(self, offset: usize, rows: usize) -> VariableArray<O, V>
        requires { offset + rows ≤ variable_rows self.offsets }
        ensures parts { result ≡ variable_part offset rows self }
        ensures cells { variable_cells V.IS_TEXT result ≡ part offset rows (variable_cells V.IS_TEXT self) }
    {
        let mut part = self;
        part.narrow(offset, rows);
        part
    }

    /// A second owner of the same parts.
    pub fn try_clone(&self, alloc: Global) -> Result<VariableArray<O, V>, AllocError>
        ensures { IfOk result (λ a. a ≡ self.now) }
    {
        Ok(VariableArray {
            dtype: self.dtype.try_clone(alloc)?,
            offsets: self.offsets.try_clone()?,
            values: self.values.try_clone()?,
            validity: clone_validity(&self.validity)?,
            rows: PhantomData,
        })
    }
}
