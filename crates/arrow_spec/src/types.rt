//! The small choices inside a data type (Arrow Columnar Format, Schema.fbs).
ghost use Rattle.std.specs.Prelude.{◌≡◌, ◌↔◌, IsTrue, if◌then◌else◌};

/// The type of a dictionary's index, or of a column of integers.
#[derive(Clone, Copy, Debug, PartialEq, Eq, Hash)]
pub enum IntegerType {
    /// Signed, 8 bits.
    Int8,
    /// Signed, 16 bits.
    Int16,
    /// Signed, 32 bits.
    Int32,
    /// Signed, 64 bits.
    Int64,
    /// Signed, 128 bits.
    Int128,
    /// Unsigned, 8 bits.
    UInt8,
    /// Unsigned, 16 bits.
    UInt16,
    /// Unsigned, 32 bits.
    UInt32,
    /// Unsigned, 64 bits.
    UInt64,
}

/// What a time, a timestamp or a duration counts.
#[derive(Clone, Copy, Debug, PartialEq, Eq, Hash)]
pub enum TimeUnit {
    /// Seconds.
    Second,
    /// Thousandths of a second.
    Millisecond,
    /// Millionths of a second.
    Microsecond,
    /// Billionths of a second.
    Nanosecond,
}

/// What an interval counts.
#[derive(Clone, Copy, Debug, PartialEq, Eq, Hash)]
pub enum IntervalUnit {
    /// Months, in 32 bits.
    YearMonth,
    /// Days and milliseconds, in 32 bits each.
    DayTime,
    /// Months and days in 32 bits each, and nanoseconds in 64.
    MonthDayNano,
}

/// Whether a union's children have a row for each row of the union.
#[derive(Clone, Copy, Debug, PartialEq, Eq, Hash)]
pub enum UnionMode {
    /// Each row says its row of the child.
    Dense,
    /// Each child has a row for each row.
    Sparse,
}

impl UnionMode {
    /// Sparse where it is said so, and else dense.
    pub const fn sparse(is_sparse: bool) -> UnionMode
        ensures { result ≡ (if is_sparse then UnionMode.Sparse else UnionMode.Dense) }
    {
        if is_sparse {
            UnionMode::Sparse
        } else {
            UnionMode::Dense
        }
    }

    /// Whether it is sparse.
    pub const fn is_sparse(&self) -> bool
        ensures { IsTrue result ↔ (self.now ≡ UnionMode.Sparse) }
    {
        matches!(self, UnionMode::Sparse)
    }

    /// Whether it is dense.
    pub const fn is_dense(&self) -> bool
        ensures { IsTrue result ↔ (self.now ≡ UnionMode.Dense) }
    {
        matches!(self, UnionMode::Dense)
    }
}
