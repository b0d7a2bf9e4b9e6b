//! Numbers that a filter compares.
use arrow_types::NativeType;

/// A number that stands in a row, and that a filter compares.
pub(crate) trait FilterNumber: NativeType {
    ghost use Rattle.std.specs.Prelude.{◌≡◌, true, IfSome, int_lt};
    ghost use Rattle.arrow_spec.specs.Cells.{number};
    ghost use Rattle.arrow_spec.specs.Flat.{little};
    ghost use Rattle.arrow_spec.specs.Kinds.{Kind};
    ghost use Rattle.arrow_types.specs.Physical.{physical_of};
    ghost use Rattle.arrow_buffers.specs.Layouts.{is_primitive};
    ghost use Rattle.arrow_arrays.specs.LeafParts.{number_cell};
    ghost use Rattle.row_filters.specs.Filters.{number_in};

    /// The number.
    fn number(self) -> i128
        ensures cell { number result ≡ Self.cell self }
        ensures fits { Self.fits self };

    /// The number of the type that is this one, where there is one.
    fn from_number(wanted: i128) -> Option<Self>
        ensures { IfSome result (λ x. number_in (Self.cell x) ≡ wanted) };

    /// Whether the number is less than another.
    fn is_less(self, other: Self) -> bool
        ensures less { result ≡ int_lt (number_in (Self.cell self)) (number_in (Self.cell other)) };

    /// The cell that the number's bytes are under a kind of its layout.
    ghost cell_under: { (k : Kind) (x : Self) → Self.fits x → is_primitive Self.PRIMITIVE (physical_of k) ≡ true → number_cell k (Self.written little x) ≡ Self.cell x };
}

impl FilterNumber for i8 {
    ghost use Rattle.arrow_arrays.specs.RowLaws.{int8_cell};

    ghost cell_under = { int8_cell };

    fn number(self) -> i128 {
        self as i128
    }

    fn from_number(wanted: i128) -> Option<i8> {
        if wanted < i8::MIN as i128 || wanted > i8::MAX as i128 {
            return None;
        }
        Some(wanted as i8)
    }

    fn is_less(self, other: i8) -> bool {
        self < other
    }
}

impl FilterNumber for i16 {
    ghost use Rattle.arrow_arrays.specs.RowLaws.{int16_cell};

    ghost cell_under = { int16_cell };

    fn number(self) -> i128 {
        self as i128
    }

    fn from_number(wanted: i128) -> Option<i16> {
        if wanted < i16::MIN as i128 || wanted > i16::MAX as i128 {
            return None;
        }
        Some(wanted as i16)
    }

    fn is_less(self, other: i16) -> bool {
        self < other
    }
}

impl FilterNumber for i32 {
    ghost use Rattle.arrow_arrays.specs.RowLaws.{int32_cell};

    ghost cell_under = { int32_cell };

    fn number(self) -> i128 {
        self as i128
    }

    fn from_number(wanted: i128) -> Option<i32> {
        if wanted < i32::MIN as i128 || wanted > i32::MAX as i128 {
            return None;
        }
        Some(wanted as i32)
    }

    fn is_less(self, other: i32) -> bool {
        self < other
    }
}

impl FilterNumber for i64 {
    ghost use Rattle.arrow_arrays.specs.RowLaws.{int64_cell};

    ghost cell_under = { int64_cell };

    fn number(self) -> i128 {
        self as i128
    }

    fn from_number(wanted: i128) -> Option<i64> {
        if wanted < i64::MIN as i128 || wanted > i64::MAX as i128 {
            return None;
        }
        Some(wanted as i64)
    }

    fn is_less(self, other: i64) -> bool {
        self < other
    }
}

impl FilterNumber for i128 {
    ghost use Rattle.arrow_arrays.specs.RowLaws.{int128_cell};

    ghost cell_under = { int128_cell };

    fn number(self) -> i128 {
        self
    }

    fn from_number(wanted: i128) -> Option<i128> {
        Some(wanted)
    }

    fn is_less(self, other: i128) -> bool {
        self < other
    }
}

impl FilterNumber for u8 {
    ghost use Rattle.arrow_arrays.specs.RowLaws.{uint8_cell};

    ghost cell_under = { uint8_cell };

    fn number(self) -> i128 {
        self as i128
    }

    fn from_number(wanted: i128) -> Option<u8> {
        if wanted < u8::MIN as i128 || wanted > u8::MAX as i128 {
            return None;
        }
        Some(wanted as u8)
    }

    fn is_less(self, other: u8) -> bool {
        self < other
    }
}

impl FilterNumber for u16 {
    ghost use Rattle.arrow_arrays.specs.RowLaws.{uint16_cell};

    ghost cell_under = { uint16_cell };

    fn number(self) -> i128 {
        self as i128
    }

    fn from_number(wanted: i128) -> Option<u16> {
        if wanted < u16::MIN as i128 || wanted > u16::MAX as i128 {
            return None;
        }
        Some(wanted as u16)
    }

    fn is_less(self, other: u16) -> bool {
        self < other
    }
}

impl FilterNumber for u32 {
    ghost use Rattle.arrow_arrays.specs.RowLaws.{uint32_cell};

    ghost cell_under = { uint32_cell };

    fn number(self) -> i128 {
        self as i128
    }

    fn from_number(wanted: i128) -> Option<u32> {
        if wanted < u32::MIN as i128 || wanted > u32::MAX as i128 {
            return None;
        }
        Some(wanted as u32)
    }

    fn is_less(self, other: u32) -> bool {
        self < other
    }
}

impl FilterNumber for u64 {
    ghost use Rattle.arrow_arrays.specs.RowLaws.{uint64_cell};

    ghost cell_under = { uint64_cell };

    fn number(self) -> i128 {
        self as i128
    }

    fn from_number(wanted: i128) -> Option<u64> {
        if wanted < u64::MIN as i128 || wanted > u64::MAX as i128 {
            return None;
        }
        Some(wanted as u64)
    }

    fn is_less(self, other: u64) -> bool {
        self < other
    }
}
