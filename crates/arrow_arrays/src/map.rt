//! Arrays of maps, which are lists of entries (Arrow Columnar Format, "Map Layout").
ghost use Rattle.std.specs.Prelude.{suc, ◌≡◌, ◌+◌, ◌≤◌, ◌<◌, ◌≢◌, length, Some, None, IfOk, IfErr, true, nat_eq, ◌&&◌, [], ◌∷◌};
ghost use Rattle.std.specs.Option.{option_map};
ghost use Rattle.arrow_spec.specs.Kinds.{small, width};
ghost use Rattle.arrow_spec.specs.Schema.{is_struct_of_two};
ghost use Rattle.arrow_types.specs.KindOf.{kind_of, child_of};
ghost use Rattle.arrow_buffers.specs.declared.error.ArrayError.TheVariants.{Memory};
ghost use Rattle.arrow_buffers.specs.Rows.{part, has_rows, null_rows};
ghost use Rattle.arrow_buffers.specs.Variable.{variable_rows, place_at};
ghost use Rattle.arrow_arrays.specs.Heads.{mapped, listed_part, first_or_0, is_map, child_fields, are_of};
ghost use Rattle.arrow_arrays.specs.Parts.{nested, rows_each, cells_in, fault_in};
ghost use Rattle.arrow_arrays.specs.PartsOf.{parts_of, only};

use crate::array::{Array, MapArray};
use crate::list::is_of;
use crate::structs::clone_child;
use arrow_buffers::{
    ArrayError, Bitmap, Buffer, clone_validity, narrow_validity, nulls_in, range_of, rise_within,
    validity_has,
};
use arrow_types::ArrowDataType;
use std::alloc::{AllocError, Global};

/// Whether a type is of structs of two fields, extensions looked through.
pub(crate) fn is_entry(dtype: &ArrowDataType) -> bool
    ensures { result ≡ is_struct_of_two (kind_of dtype.now) }
{
    match dtype {
        ArrowDataType::Struct(fields) => fields.len() == 2,
        ArrowDataType::Extension(extension) => is_entry(&extension.inner),
        _ => false,
    }
}

/// Whether a type is of maps over entries of this type.
fn fits(dtype: &ArrowDataType, entries: &ArrowDataType) -> bool
    ensures { result ≡ (is_map small (kind_of dtype.now) && are_of (child_fields (kind_of dtype.now)) (kind_of entries.now ∷ [])) }
{
    match dtype {
        ArrowDataType::Map(field, _) => is_entry(field.dtype()) && is_of(field, entries),
        ArrowDataType::Extension(extension) => fits(&extension.inner, entries),
        _ => false,
    }
}

impl MapArray {
    /// The array of these parts.
    pub fn try_new(
        alloc: Global,
        dtype: ArrowDataType,
        offsets: Buffer<i32>,
        field: Array,
        validity: Option<Bitmap>,
    ) -> Result<MapArray, ArrayError>
        ensures ok { IfOk result (λ a. a ≡ record { head = record { kind = kind_of dtype; width = small; offsets = offsets; validity = validity }; children = only field }) }
        ensures sound { IfOk result (λ _. fault_in (nested (mapped (record { kind = kind_of dtype; width = small; offsets = offsets; validity = validity })) (only field)) ≡ None) }
        ensures err { IfErr result (λ e. e ≢ Memory → fault_in (nested (mapped (record { kind = kind_of dtype; width = small; offsets = offsets; validity = validity })) (only field)) ≡ Some e) }
    {
        if !fits(&dtype, field.dtype()) {
            return Err(ArrayError::DataType);
        }
        if !validity_has(&validity, offsets.len().saturating_sub(1)) {
            return Err(ArrayError::Length);
        }
        if !rise_within(&offsets, field.len()) {
            return Err(ArrayError::Offsets);
        }
        match Box::new(alloc, field) {
            Ok(field) => Ok(MapArray {
                dtype,
                offsets,
                field,
                validity,
            }),
            Err(_) => Err(ArrayError::Memory),
        }
    }

    /// How many rows there are.
    pub fn len(&self) -> usize
        ensures rows { result ≡ variable_rows self.now.head.offsets }
        ensures cells { result ≡ length (cells_in (nested (mapped self.now.head) self.now.children)) }
        ensures sound { fault_in (nested (mapped self.now.head) self.now.children) ≡ None }
    {
        self.offsets.len().saturating_sub(1)
    }

    /// The type.
    pub fn dtype(&self) -> &ArrowDataType
        ensures { kind_of result.now ≡ self.now.head.kind }
    {
        &self.dtype
    }

    /// Where each row begins among the entries, and where the last one ends; one more than rows.
    pub fn offsets(&self) -> &Buffer<i32>
        ensures { result.now ≡ self.now.head.offsets }
    {
        &self.offsets
    }

    /// The entries of all rows, one after another: structs of a key and a value.
    pub fn field(&self) -> &Array
        ensures { only result.now ≡ self.now.children }
    {
        &self.field
    }

    /// The two entries between which a map stands.
    pub fn range(&self, row: usize) -> (usize, usize)
        requires { row < variable_rows self.now.head.offsets }
        ensures from { result.0 ≡ place_at self.now.head.offsets row }
        ensures to { result.1 ≡ place_at self.now.head.offsets (suc row) }
        ensures ordered { result.0 ≤ result.1 }
        ensures within { result.1 ≤ first_or_0 (rows_each self.now.children) }
    {
        range_of(&self.offsets, row, self.field.len())
    }

    /// Which rows are not null; all, where there is no bitmap.
    pub fn validity(&self) -> Option<&Bitmap>
        ensures bits { option_map (λ b. b.now) result ≡ self.now.head.validity }
        ensures rows { has_rows self.now.head.validity (variable_rows self.now.head.offsets) ≡ true }
    {
        self.validity.as_ref()
    }

    /// How many rows are null.
    pub fn null_count(&self) -> usize
        ensures { result ≡ null_rows self.now.head.validity }
    {
        nulls_in(&self.validity)
    }

    /// Leaves only the part, and copies nothing.
    pub fn narrow(&mut self, offset: usize, rows: usize)
        requires { offset + rows ≤ variable_rows self.old.head.offsets }
        ensures parts { self.new ≡ record { head = listed_part offset rows self.old.head; children = self.old.children } }
        ensures cells { cells_in (nested (mapped self.new.head) self.new.children) ≡ part offset rows (cells_in (nested (mapped self.old.head) self.old.children)) }
    {
        prove!(self.offsets.len() > offset + rows);
        self.offsets.narrow(offset, rows + 1);
        narrow_validity(&mut self.validity, offset, rows);
    }

    /// The part, which shares the memory.
    pub fn sliced(self, offset: usize, rows: usize) -> MapArray
        requires { offset + rows ≤ variable_rows self.head.offsets }
        ensures parts { result ≡ record { head = listed_part offset rows self.head; children = self.children } }
        ensures cells { cells_in (nested (mapped result.head) result.children) ≡ part offset rows (cells_in (nested (mapped self.head) self.children)) }
    {
        let mut part = self;
        part.narrow(offset, rows);
        part
    }

    /// A second owner of the same parts.
    #[cycle(copy)]
    pub fn try_clone(&self, alloc: Global) -> Result<MapArray, AllocError>
        ensures { IfOk result (λ a. a ≡ self.now) }
    {
        let dtype = self.dtype.try_clone(alloc)?;
        let offsets = self.offsets.try_clone()?;
        let validity = clone_validity(&self.validity)?;
        Ok(MapArray {
            dtype,
            offsets,
            field: clone_child(alloc, &self.field)?,
            validity,
        })
    }
}
