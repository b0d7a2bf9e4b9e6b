//! What is asked of a row.
ghost use Rattle.std.specs.Prelude.{◌≡◌};
ghost use Rattle.std.specs.Ordering.{int_cmp};
ghost use Rattle.filter_types.specs.Comparisons.{holds};

/// How the number of a row is compared with that of a filter.
#[derive(Clone, Copy, Debug, PartialEq, Eq)]
pub enum FilterOp {
    /// It is the same.
    Equal,
    /// It is another.
    NotEqual,
    /// It is less.
    Less,
    /// It is less, or the same.
    LessOrEqual,
    /// It is greater.
    Greater,
    /// It is greater, or the same.
    GreaterOrEqual,
}

/// The rows of which a column's number meets a comparison. A row that is null meets none.
#[derive(Clone, Copy, Debug, PartialEq, Eq)]
pub struct Filter {
    /// The number of the column, counted from 0.
    pub column: usize,
    /// The comparison.
    pub op: FilterOp,
    /// The number that those of the rows are compared with.
    pub number: i128,
}

impl Filter {
    /// Whether a number meets the comparison.
    pub fn is_met_by(self, number: i128) -> bool
        ensures { result ≡ holds self.op (int_cmp number self.number) }
    {
        match self.op {
            FilterOp::Equal => number == self.number,
            FilterOp::NotEqual => number != self.number,
            FilterOp::Less => number < self.number,
            FilterOp::LessOrEqual => number <= self.number,
            FilterOp::Greater => number > self.number,
            FilterOp::GreaterOrEqual => number >= self.number,
        }
    }
}
