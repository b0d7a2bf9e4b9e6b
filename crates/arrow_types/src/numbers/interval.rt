//! The two intervals of more than one number (Arrow Columnar Format, Schema.fbs, "Interval").
ghost use Rattle.std.specs.Prelude.{◌≡◌, ◌++◌};

use crate::PrimitiveType;
use crate::numbers::native::NativeType;

/// Days and milliseconds.
#[derive(Clone, Copy, Debug, PartialEq, Eq, Hash)]
pub struct days_ms {
    /// Days.
    pub days: i32,
    /// Milliseconds.
    pub milliseconds: i32,
}

/// Months, days and nanoseconds.
#[derive(Clone, Copy, Debug, PartialEq, Eq, Hash)]
pub struct months_days_ns {
    /// Months.
    pub months: i32,
    /// Days.
    pub days: i32,
    /// Nanoseconds.
    pub ns: i64,
}

fn joined_8(a: [u8; 4], b: [u8; 4]) -> [u8; 8]
    ensures { result ≡ a ++ b }
{
    [a[0], a[1], a[2], a[3], b[0], b[1], b[2], b[3]]
}

fn joined_16(a: [u8; 8], b: [u8; 8]) -> [u8; 16]
    ensures { result ≡ a ++ b }
{
    [
        a[0], a[1], a[2], a[3], a[4], a[5], a[6], a[7], b[0], b[1], b[2], b[3], b[4], b[5], b[6],
        b[7],
    ]
}

impl NativeType for days_ms {
    ghost use Rattle.std.specs.Prelude.{pos};
    ghost use Rattle.std.specs.Int.{w32};
    ghost use Rattle.std.specs.Int.RustNames.{FitsSigned};
    ghost use Rattle.arrow_spec.specs.Cells.{interval};
    ghost use Rattle.std.proofs.Common.{refl};
    ghost use Rattle.arrow_types.specs.declared.physical.PrimitiveType.TheVariants.{DaysMs};
    ghost use Rattle.arrow_types.specs.Numbers.{days_ms_to_bytes, days_ms_from_bytes, days_ms_num};
    ghost use Rattle.arrow_types.specs.NumberLaws.{above};
    ghost use Rattle.arrow_types.specs.BytesBack.{days_ms_same};
    ghost use Rattle.arrow_types.specs.IntervalLaws.{days_ms_back, days_ms_width, days_ms_agrees};

    ghost WIDTH = { 8 };

    const WIDTH: usize = 8;

    ghost PRIMITIVE = { DaysMs };

    const PRIMITIVE: PrimitiveType = PrimitiveType::DaysMs;

    type Bytes = [u8; 8];

    ghost written = { days_ms_to_bytes };

    ghost read = { days_ms_from_bytes };

    ghost at_place = { days_ms_num };

    ghost fits = { λ x. FitsSigned w32 x.days × FitsSigned w32 x.milliseconds };

    ghost cell = { λ x. interval x.days x.milliseconds (pos 0) };

    ghost sized = { refl };

    ghost above = { above 7 };

    ghost reads_back = { days_ms_back };

    ghost writes_width = { days_ms_width };

    ghost writes_back = { days_ms_same };

    ghost agrees = { days_ms_agrees };

    fn to_le_bytes(self) -> [u8; 8] {
        joined_8(self.days.to_le_bytes(), self.milliseconds.to_le_bytes())
    }

    fn to_be_bytes(self) -> [u8; 8] {
        joined_8(self.days.to_be_bytes(), self.milliseconds.to_be_bytes())
    }

    fn from_le_bytes(bytes: &[u8]) -> days_ms {
        days_ms {
            days: <i32 as NativeType>::from_le_bytes(&bytes[..4]),
            milliseconds: <i32 as NativeType>::from_le_bytes(&bytes[4..]),
        }
    }

    fn from_be_bytes(bytes: &[u8]) -> days_ms {
        days_ms {
            days: <i32 as NativeType>::from_be_bytes(&bytes[..4]),
            milliseconds: <i32 as NativeType>::from_be_bytes(&bytes[4..]),
        }
    }
}

impl NativeType for months_days_ns {
    ghost use Rattle.std.specs.Int.{w32, w64};
    ghost use Rattle.std.specs.Int.RustNames.{FitsSigned};
    ghost use Rattle.arrow_spec.specs.Cells.{interval};
    ghost use Rattle.std.proofs.Common.{refl};
    ghost use Rattle.arrow_types.specs.declared.physical.PrimitiveType.TheVariants.{MonthDayNano};
    ghost use Rattle.arrow_types.specs.Numbers.{months_days_ns_to_bytes, months_days_ns_from_bytes, months_days_ns_num};
    ghost use Rattle.arrow_types.specs.NumberLaws.{above};
    ghost use Rattle.arrow_types.specs.BytesBack.{months_days_ns_same};
    ghost use Rattle.arrow_types.specs.IntervalLaws.{months_days_ns_back, months_days_ns_width, months_days_ns_agrees};

    ghost WIDTH = { 16 };

    const WIDTH: usize = 16;

    ghost PRIMITIVE = { MonthDayNano };

    const PRIMITIVE: PrimitiveType = PrimitiveType::MonthDayNano;

    type Bytes = [u8; 16];

    ghost written = { months_days_ns_to_bytes };

    ghost read = { months_days_ns_from_bytes };

    ghost at_place = { months_days_ns_num };

    ghost fits = { λ x. FitsSigned w32 x.months × FitsSigned w32 x.days × FitsSigned w64 x.ns };

    ghost cell = { λ x. interval x.months x.days x.ns };

    ghost sized = { refl };

    ghost above = { above 15 };

    ghost reads_back = { months_days_ns_back };

    ghost writes_width = { months_days_ns_width };

    ghost writes_back = { months_days_ns_same };

    ghost agrees = { months_days_ns_agrees };

    fn to_le_bytes(self) -> [u8; 16] {
        let first = joined_8(self.months.to_le_bytes(), self.days.to_le_bytes());
        joined_16(first, self.ns.to_le_bytes())
    }

    fn to_be_bytes(self) -> [u8; 16] {
        let first = joined_8(self.months.to_be_bytes(), self.days.to_be_bytes());
        joined_16(first, self.ns.to_be_bytes())
    }

    fn from_le_bytes(bytes: &[u8]) -> months_days_ns {
        months_days_ns {
            months: <i32 as NativeType>::from_le_bytes(&bytes[..4]),
            days: <i32 as NativeType>::from_le_bytes(&bytes[4..8]),
            ns: <i64 as NativeType>::from_le_bytes(&bytes[8..]),
        }
    }

    fn from_be_bytes(bytes: &[u8]) -> months_days_ns {
        months_days_ns {
            months: <i32 as NativeType>::from_be_bytes(&bytes[..4]),
            days: <i32 as NativeType>::from_be_bytes(&bytes[4..8]),
            ns: <i64 as NativeType>::from_be_bytes(&bytes[8..]),
        }
    }
}
