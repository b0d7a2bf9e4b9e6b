//! Arrays of lists (Arrow Columnar Format, "Variable-size List Layout").
ghost use Rattle.std.specs.Prelude.{suc, ◌≡◌, ◌+◌, ◌≤◌, ◌<◌, ◌≢◌, length, Some, None, IfOk, IfErr, true, ◌&&◌, [], ◌∷◌};
ghost use Rattle.std.specs.Option.{option_map};
ghost use Rattle.arrow_types.specs.KindOf.{kind_of, child_of};
ghost use Rattle.arrow_types.specs.KindCode.{kind_eq};
ghost use Rattle.arrow_buffers.specs.declared.error.ArrayError.TheVariants.{Memory};
ghost use Rattle.arrow_buffers.specs.Rows.{part, has_rows, null_rows};
ghost use Rattle.arrow_buffers.specs.Variable.{variable_rows, place_at};
ghost use Rattle.arrow_arrays.specs.Heads.{listed, listed_part, first_or_0, is_list, child_fields, are_of};
ghost use Rattle.arrow_arrays.specs.Parts.{nested, kind_in, rows_in, rows_each, cells_in, part_of, fault_in};
ghost use Rattle.arrow_arrays.specs.OffsetsOf.{offsets_in, width_in};
ghost use Rattle.arrow_arrays.specs.PartsOf.{parts_of, only};

use crate::array::{Array, ListArray};
use crate::offsets::ListOffsets;
use crate::structs::clone_child;
use arrow_buffers::{ArrayError, Bitmap, clone_validity, narrow_validity, nulls_in, validity_has};
use arrow_types::{ArrowDataType, Field};
use std::alloc::{AllocError, Global};

/// Whether a type is of lists with offsets of this width over values of this type.
fn fits(dtype: &ArrowDataType, offsets: &ListOffsets, values: &ArrowDataType) -> bool
    ensures { result ≡ (is_list (width_in offsets.now) (kind_of dtype.now) && are_of (child_fields (kind_of dtype.now)) (kind_of values.now ∷ [])) }
{
    match dtype {
        ArrowDataType::List(field) => match offsets {
            ListOffsets::Small(_) => is_of(field, values),
            ListOffsets::Large(_) => false,
        },
        ArrowDataType::LargeList(field) => match offsets {
            ListOffsets::Large(_) => is_of(field, values),
            ListOffsets::Small(_) => false,
        },
        ArrowDataType::Extension(extension) => fits(&extension.inner, offsets, values),
        _ => false,
    }
}

/// Whether a field is of a type.
pub(crate) fn is_of(field: &Field, values: &ArrowDataType) -> bool
    ensures { result ≡ kind_eq (child_of field.now).kind (kind_of values.now) }
{
    *field.dtype() == *values
}

/// The array of lists of parts that are known to be one: nothing is looked at again.
pub fn list_of(
    alloc: Global,
    dtype: ArrowDataType,
    offsets: ListOffsets,
    values: Array,
    validity: Option<Bitmap>,
) -> Result<ListArray, AllocError>
    requires { fault_in (nested (listed (record { kind = kind_of dtype; width = width_in offsets; offsets = offsets_in offsets; validity = validity })) (only values)) ≡ None }
    ensures { IfOk result (λ a. a ≡ record { head = record { kind = kind_of dtype; width = width_in offsets; offsets = offsets_in offsets; validity = validity }; children = only values }) }
{
    Ok(ListArray {
        dtype,
        offsets,
        values: Box::new(alloc, values)?,
        validity,
    })
}

impl ListArray {
    /// The array of these parts.
    pub fn try_new(
        alloc: Global,
        dtype: ArrowDataType,
        offsets: ListOffsets,
        values: Array,
        validity: Option<Bitmap>,
    ) -> Result<ListArray, ArrayError>
        ensures ok { IfOk result (λ a. a ≡ record { head = record { kind = kind_of dtype; width = width_in offsets; offsets = offsets_in offsets; validity = validity }; children = only values }) }
        ensures sound { IfOk result (λ _. fault_in (nested (listed (record { kind = kind_of dtype; width = width_in offsets; offsets = offsets_in offsets; validity = validity })) (only values)) ≡ None) }
        ensures err { IfErr result (λ e. e ≢ Memory → fault_in (nested (listed (record { kind = kind_of dtype; width = width_in offsets; offsets = offsets_in offsets; validity = validity })) (only values)) ≡ Some e) }
    {
        if !fits(&dtype, &offsets, values.dtype()) {
            return Err(ArrayError::DataType);
        }
        if !validity_has(&validity, offsets.len().saturating_sub(1)) {
            return Err(ArrayError::Length);
        }
        if !offsets.rise_within(values.len()) {
            return Err(ArrayError::Offsets);
        }
        match Box::new(alloc, values) {
            Ok(values) => Ok(ListArray {
                dtype,
                offsets,
                values,
                validity,
            }),
            Err(_) => Err(ArrayError::Memory),
        }
    }

    /// How many rows there are.
    pub fn len(&self) -> usize
        ensures rows { result ≡ variable_rows self.now.head.offsets }
        ensures cells { result ≡ length (cells_in (nested (listed self.now.head) self.now.children)) }
        ensures sound { fault_in (nested (listed self.now.head) self.now.children) ≡ None }
    {
        self.offsets.len().saturating_sub(1)
    }

    /// The type.
    pub fn dtype(&self) -> &ArrowDataType
        ensures { kind_of result.now ≡ self.now.head.kind }
    {
        &self.dtype
    }

    /// Where each row begins among the values, and where the last one ends; one more than rows.
    pub fn offsets(&self) -> &ListOffsets
        ensures offsets { offsets_in result.now ≡ self.now.head.offsets }
        ensures width { width_in result.now ≡ self.now.head.width }
    {
        &self.offsets
    }

    /// What the offsets lie in.
    pub fn values(&self) -> &Array
        ensures { only result.now ≡ self.now.children }
    {
        &self.values
    }

    /// The two rows of the values between which a list stands.
    pub fn range(&self, row: usize) -> (usize, usize)
        requires { row < variable_rows self.now.head.offsets }
        ensures from { result.0 ≡ place_at self.now.head.offsets row }
        ensures to { result.1 ≡ place_at self.now.head.offsets (suc row) }
        ensures ordered { result.0 ≤ result.1 }
        ensures within { result.1 ≤ first_or_0 (rows_each self.now.children) }
    {
        self.offsets.range(row, self.values.len())
    }

    /// Which rows are not null; all, where there is no bitmap.
    pub fn validity(&self) -> Option<&Bitmap>
        ensures bits { option_map (λ b. b.now) result ≡ self.now.head.validity }
        ensures rows { has_rows self.now.head.validity (variable_rows self.now.head.offsets) ≡ true }
    {
        self.validity.as_ref()
    }

    /// How many rows are null.
    pub fn null_count(&self) -> usize
        ensures { result ≡ null_rows self.now.head.validity }
    {
        nulls_in(&self.validity)
    }

    /// Leaves only the part, and copies nothing.
    pub fn narrow(&mut self, offset: usize, rows: usize)
        requires { offset + rows ≤ variable_rows self.old.head.offsets }
        ensures parts { self.new ≡ record { head = listed_part offset rows self.old.head; children = self.old.children } }
        ensures cells { cells_in (nested (listed self.new.head) self.new.children) ≡ part offset rows (cells_in (nested (listed self.old.head) self.old.children)) }
    {
        prove!(self.offsets.len() > offset + rows);
        self.offsets.narrow(offset, rows + 1);
        narrow_validity(&mut self.validity, offset, rows);
    }

    /// The part, which shares the memory.
    pub fn sliced(self, offset: usize, rows: usize) -> ListArray
        requires { offset + rows ≤ variable_rows self.head.offsets }
        ensures parts { result ≡ record { head = listed_part offset rows self.head; children = self.children } }
        ensures cells { cells_in (nested (listed result.head) result.children) ≡ part offset rows (cells_in (nested (listed self.head) self.children)) }
    {
        let mut part = self;
        part.narrow(offset, rows);
        part
    }

    /// A second owner of the same parts.
    #[cycle(copy)]
    pub fn try_clone(&self, alloc: Global) -> Result<ListArray, AllocError>
        ensures { IfOk result (λ a. a ≡ self.now) }
    {
        let dtype = self.dtype.try_clone(alloc)?;
        let offsets = self.offsets.try_clone()?;
        let validity = clone_validity(&self.validity)?;
        Ok(ListArray {
            dtype,
            offsets,
            values: clone_child(alloc, &self.values)?,
            validity,
        })
    }
}
