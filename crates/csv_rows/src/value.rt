//! What stands in a row of an array, as it is shown in a text.
use arrow_types::{NativeType, days_ms, months_days_ns};

/// What stands in a row of an array. Rows in which rows of other arrays stand have no text, and are null here.
#[derive(Clone, Copy)]
pub(crate) enum Value<'a> {
    Null,
    Bit(bool),
    Number(i128),
    Interval(i32, i32, i64),
    Text(&'a [u8]),
    Bytes(&'a [u8]),
}

/// A number that stands in a row.
pub(crate) trait RowNumber: NativeType {
    ghost use Rattle.std.specs.Prelude.{◌≡◌, true};
    ghost use Rattle.arrow_spec.specs.Flat.{little};
    ghost use Rattle.arrow_spec.specs.Kinds.{Kind};
    ghost use Rattle.arrow_types.specs.Physical.{physical_of};
    ghost use Rattle.arrow_buffers.specs.Layouts.{is_primitive};
    ghost use Rattle.arrow_arrays.specs.LeafParts.{number_cell};
    ghost use Rattle.csv_rows.specs.Values.{cell_of};

    /// What a row that holds the number holds.
    fn row_value<'a>(self) -> Value<'a>
        ensures cell { cell_of result ≡ Self.cell self }
        ensures fits { Self.fits self };

    /// The cell that the number's bytes are under a kind of its layout.
    ghost cell_under: { (k : Kind) (x : Self) → Self.fits x → is_primitive Self.PRIMITIVE (physical_of k) ≡ true → number_cell k (Self.written little x) ≡ Self.cell x };
}

impl RowNumber for i8 {
    ghost use Rattle.arrow_arrays.specs.RowLaws.{int8_cell};

    ghost cell_under = { int8_cell };

    fn row_value<'a>(self) -> Value<'a> {
        Value::Number(self as i128)
    }
}

impl RowNumber for i16 {
    ghost use Rattle.arrow_arrays.specs.RowLaws.{int16_cell};

    ghost cell_under = { int16_cell };

    fn row_value<'a>(self) -> Value<'a> {
        Value::Number(self as i128)
    }
}

impl RowNumber for i32 {
    ghost use Rattle.arrow_arrays.specs.RowLaws.{int32_cell};

    ghost cell_under = { int32_cell };

    fn row_value<'a>(self) -> Value<'a> {
        Value::Number(self as i128)
    }
}

impl RowNumber for i64 {
    ghost use Rattle.arrow_arrays.specs.RowLaws.{int64_cell};

    ghost cell_under = { int64_cell };

    fn row_value<'a>(self) -> Value<'a> {
        Value::Number(self as i128)
    }
}

impl RowNumber for i128 {
    ghost use Rattle.arrow_arrays.specs.RowLaws.{int128_cell};

    ghost cell_under = { int128_cell };

    fn row_value<'a>(self) -> Value<'a> {
        Value::Number(self)
    }
}

impl RowNumber for u8 {
    ghost use Rattle.arrow_arrays.specs.RowLaws.{uint8_cell};

    ghost cell_under = { uint8_cell };

    fn row_value<'a>(self) -> Value<'a> {
        Value::Number(self as i128)
    }
}

impl RowNumber for u16 {
    ghost use Rattle.arrow_arrays.specs.RowLaws.{uint16_cell};

    ghost cell_under = { uint16_cell };

    fn row_value<'a>(self) -> Value<'a> {
        Value::Number(self as i128)
    }
}

impl RowNumber for u32 {
    ghost use Rattle.arrow_arrays.specs.RowLaws.{uint32_cell};

    ghost cell_under = { uint32_cell };

    fn row_value<'a>(self) -> Value<'a> {
        Value::Number(self as i128)
    }
}

impl RowNumber for u64 {
    ghost use Rattle.arrow_arrays.specs.RowLaws.{uint64_cell};

    ghost cell_under = { uint64_cell };

    fn row_value<'a>(self) -> Value<'a> {
        Value::Number(self as i128)
    }
}

impl RowNumber for days_ms {
    ghost use Rattle.arrow_arrays.specs.RowLaws.{days_ms_cell};

    ghost cell_under = { days_ms_cell };

    fn row_value<'a>(self) -> Value<'a> {
        Value::Interval(self.days, self.milliseconds, 0)
    }
}

impl RowNumber for months_days_ns {
    ghost use Rattle.arrow_arrays.specs.RowLaws.{months_days_ns_cell};

    ghost cell_under = { months_days_ns_cell };

    fn row_value<'a>(self) -> Value<'a> {
        Value::Interval(self.months, self.days, self.ns)
    }
}
