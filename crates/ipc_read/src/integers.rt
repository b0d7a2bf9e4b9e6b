//! The signed integers of a record batch's tables.
ghost use Rattle.std.specs.Prelude.{◌≡◌, ◌^◌, ◌<◌};
ghost use Rattle.arrow_spec.specs.Counts.{is_negative, magnitude};

pub(crate) fn is_negative(x: i64) -> bool
    ensures { result ≡ is_negative x }
{
    x < 0
}

/// A number, 0 where it is negative.
pub fn magnitude(x: i64) -> u64
    ensures value { result ≡ magnitude x }
    ensures small { result < 2 ^ 63 }
{
    if is_negative(x) { 0 } else { x as u64 }
}
