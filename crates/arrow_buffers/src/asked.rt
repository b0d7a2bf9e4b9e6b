//! Rows as they are asked for one by one.
ghost use Rattle.std.specs.Prelude.{◌≡◌, length, nat_eq, Some, None, true, if◌then◌else◌};
ghost use Rattle.std.specs.Option.{option_map};
ghost use Rattle.arrow_buffers.specs.Rows.{has_rows, holds_row, lacks_row, row_of};
ghost use Rattle.arrow_buffers.specs.Layouts.{binary_size};
ghost use Rattle.arrow_buffers.specs.Leaf.{fixed_rows, fixed_row};
ghost use Rattle.arrow_buffers.specs.Variable.{variable_rows, row_bytes};
ghost use Rattle.arrow_buffers.specs.Views.{view_rows, view_at, view_bytes};

use crate::{
    BinaryViewArrayGeneric, Bitmap, BooleanArray, FixedSizeBinaryArray, NullArray, PrimitiveArray,
    TextRows, VariableArray, ViewType,
};
use arrow_types::{NativeType, Offset};
use std::str::from_utf8;

/// Whether there is such a row, and it is not null.
pub(crate) fn holds_row(validity: Option<&Bitmap>, rows: usize, row: usize) -> bool
    requires { has_rows (option_map (λ b. b.now) validity) rows ≡ true }
    ensures { result ≡ holds_row (option_map (λ b. b.now) validity.entry) rows row }
{
    match validity {
        None => row < rows,
        Some(bits) => row < rows && bits.get(row),
    }
}

/// Whether there is such a row, and it is null.
pub(crate) fn lacks_row(validity: Option<&Bitmap>, rows: usize, row: usize) -> bool
    requires { has_rows (option_map (λ b. b.now) validity) rows ≡ true }
    ensures { result ≡ lacks_row (option_map (λ b. b.now) validity.entry) rows row }
{
    match validity {
        None => false,
        Some(bits) => row < rows && !bits.get(row),
    }
}

impl<T: NativeType> PrimitiveArray<T> {
    /// Whether there is no row.
    pub fn is_empty(&self) -> bool
        ensures { result ≡ nat_eq (length self.now.values) 0 }
    {
        self.len() == 0
    }

    /// Whether there is such a row, and it is not null.
    pub fn is_valid(&self, row: usize) -> bool
        ensures { result ≡ holds_row self.now.validity (length self.now.values) row }
    {
        holds_row(self.validity(), self.len(), row)
    }

    /// Whether there is such a row, and it is null.
    pub fn is_null(&self, row: usize) -> bool
        ensures { result ≡ lacks_row self.now.validity (length self.now.values) row }
    {
        lacks_row(self.validity(), self.len(), row)
    }

    /// The number of a row, where there is such a row and it is not null.
    pub fn get(&self, row: usize) -> Option<T>
        ensures { result ≡ row_of self.now.validity self.now.values row }
    {
        if self.is_valid(row) {
            Some(self.value(row))
        } else {
            None
        }
    }
}

impl BooleanArray {
    /// Whether there is no row.
    pub fn is_empty(&self) -> bool
        ensures { result ≡ nat_eq (length self.now.values) 0 }
    {
        self.len() == 0
    }

    /// Whether there is such a row, and it is not null.
    pub fn is_valid(&self, row: usize) -> bool
        ensures { result ≡ holds_row self.now.validity (length self.now.values) row }
    {
        holds_row(self.validity(), self.len(), row)
    }

    /// Whether there is such a row, and it is null.
    pub fn is_null(&self, row: usize) -> bool
        ensures { result ≡ lacks_row self.now.validity (length self.now.values) row }
    {
        lacks_row(self.validity(), self.len(), row)
    }

    /// The bit of a row, where there is such a row and it is not null.
    pub fn get(&self, row: usize) -> Option<bool>
        ensures { result ≡ row_of self.now.validity self.now.values row }
    {
        if self.is_valid(row) {
            Some(self.value(row))
        } else {
            None
        }
    }
}

impl<O: Offset, V: ViewType> VariableArray<O, V> {
    /// Whether there is no row.
    pub fn is_empty(&self) -> bool
        ensures { result ≡ nat_eq (variable_rows self.now.offsets) 0 }
    {
        self.len() == 0
    }

    /// Whether there is such a row, and it is not null.
    pub fn is_valid(&self, row: usize) -> bool
        ensures { result ≡ holds_row self.now.validity (variable_rows self.now.offsets) row }
    {
        holds_row(self.validity(), self.len(), row)
    }

    /// Whether there is such a row, and it is null.
    pub fn is_null(&self, row: usize) -> bool
        ensures { result ≡ lacks_row self.now.validity (variable_rows self.now.offsets) row }
    {
        lacks_row(self.validity(), self.len(), row)
    }

    /// The bytes of a row, where there is such a row and it is not null.
    pub fn get(&self, row: usize) -> Option<&[u8]>
        ensures { option_map (λ b. b.now) result ≡ (if holds_row self.now.validity (variable_rows self.now.offsets) row then Some (row_bytes self.now.offsets self.now.values row) else None) }
    {
        if self.is_valid(row) {
            Some(self.value(row))
        } else {
            None
        }
    }
}

impl FixedSizeBinaryArray {
    /// Whether there is no row.
    pub fn is_empty(&self) -> bool
        ensures { result ≡ nat_eq (fixed_rows self.now) 0 }
    {
        self.len() == 0
    }

    /// Whether there is such a row, and it is not null.
    pub fn is_valid(&self, row: usize) -> bool
        ensures { result ≡ holds_row self.now.validity (fixed_rows self.now) row }
    {
        holds_row(self.validity(), self.len(), row)
    }

    /// Whether there is such a row, and it is null.
    pub fn is_null(&self, row: usize) -> bool
        ensures { result ≡ lacks_row self.now.validity (fixed_rows self.now) row }
    {
        lacks_row(self.validity(), self.len(), row)
    }

    /// The bytes of a row, where there is such a row and it is not null.
    pub fn get(&self, row: usize) -> Option<&[u8]>
        ensures { option_map (λ b. b.now) result ≡ (if holds_row self.now.validity (fixed_rows self.now) row then Some (fixed_row (binary_size self.now.kind) self.now.values row) else None) }
    {
        if self.is_valid(row) {
            Some(self.value(row))
        } else {
            None
        }
    }
}

impl<V: ViewType> BinaryViewArrayGeneric<V> {
    /// Whether there is no row.
    pub fn is_empty(&self) -> bool
        ensures { result ≡ nat_eq (view_rows self.now.views) 0 }
    {
        self.len() == 0
    }

    /// Whether there is such a row, and it is not null.
    pub fn is_valid(&self, row: usize) -> bool
        ensures { result ≡ holds_row self.now.validity (view_rows self.now.views) row }
    {
        holds_row(self.validity(), self.len(), row)
    }

    /// Whether there is such a row, and it is null.
    pub fn is_null(&self, row: usize) -> bool
        ensures { result ≡ lacks_row self.now.validity (view_rows self.now.views) row }
    {
        lacks_row(self.validity(), self.len(), row)
    }

    /// The bytes of a row, where there is such a row and it is not null.
    pub fn get(&self, row: usize) -> Option<&[u8]>
        ensures { option_map (λ b. b.now) result ≡ (if holds_row self.now.validity (view_rows self.now.views) row then Some (view_bytes self.now.buffers (view_at self.now.views row)) else None) }
    {
        if row < self.len() {
            self.value(row)
        } else {
            None
        }
    }
}

impl NullArray {
    /// Whether there is no row.
    pub fn is_empty(&self) -> bool
        ensures { result ≡ nat_eq self.now.rows 0 }
    {
        self.len() == 0
    }
}

impl<O: Offset> VariableArray<O, TextRows> {
    /// The text of a row, where there is such a row and it is not null. Its bytes are looked at once more.
    #[tactic(auto, using(crate::proofs::TextsAsked::texts_asked))]
    pub fn text(&self, row: usize) -> Option<&str>
        ensures { option_map (λ t. t.now) result ≡ (if holds_row self.now.validity (variable_rows self.now.offsets) row then Some (row_bytes self.now.offsets self.now.values row) else None) }
    {
        if row >= self.len() || !self.is_valid(row) {
            return None;
        }
        match from_utf8(self.value(row)) {
            Ok(text) => Some(text),
            Err(_) => None,
        }
    }
}

impl BinaryViewArrayGeneric<TextRows> {
    /// The text of a row, where there is such a row and it is not null. Its bytes are looked at once more.
    #[tactic(auto, using(crate::proofs::TextsAsked::texts_asked))]
    pub fn text(&self, row: usize) -> Option<&str>
        ensures { option_map (λ t. t.now) result ≡ (if holds_row self.now.validity (view_rows self.now.views) row then Some (view_bytes self.now.buffers (view_at self.now.views row)) else None) }
    {
        if row >= self.len() || !self.is_valid(row) {
            return None;
        }
        match from_utf8(self.value(row)?) {
            Ok(text) => Some(text),
            Err(_) => None,
        }
    }
}
