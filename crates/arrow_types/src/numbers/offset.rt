//! Offsets into values (Arrow Columnar Format, "Variable-size Binary Layout").
ghost use Rattle.std.specs.Prelude.{◌≡◌, ◌<◌, IfSome};
ghost use Rattle.std.specs.Option.{option_map};
ghost use Rattle.arrow_types.specs.Numbers.{usize_of, below_limit};

use crate::numbers::native::NativeType;

/// An offset of 32 or 64 bits.
pub trait Offset: NativeType {
    ghost use Rattle.std.specs.Prelude.{◌≡◌, ℕ, ℤ, Bool};
    ghost use Rattle.arrow_types.specs.Numbers.{ReadsOffsets};

    /// Whether the offsets have 64 bits, as in the layouts named large.
    ghost IS_LARGE: { Bool };

    /// Whether the offsets have 64 bits.
    const IS_LARGE: bool;

    /// The number that an offset is.
    ghost number: { Self → ℤ };

    /// What no offset reaches.
    ghost limit: { ℕ };

    /// The offset as a length; none where it is negative.
    fn to_usize(self) -> Option<usize>
        ensures length { result ≡ usize_of (number self) }
        ensures below { IfSome result (λ n. n < limit) };

    /// The length as an offset; none where no offset is so large.
    fn from_usize(length: usize) -> Option<Self>
        ensures { option_map number result ≡ below_limit limit length };

    /// An offset has its width, and is the number of its bytes.
    ghost reads_offsets: { ReadsOffsets IS_LARGE Self.WIDTH limit number Self.read };

    /// Two offsets of one number are the same.
    ghost number_same: { (x y : Self) → number x ≡ number y → x ≡ y };
}

impl Offset for i32 {
    ghost use Rattle.std.specs.Prelude.{false, ◌^◌};
    ghost use Rattle.arrow_types.specs.NumberLaws.{small_reads};

    ghost IS_LARGE = { false };

    const IS_LARGE: bool = false;

    ghost number = { λ x. x };

    ghost limit = { 2 ^ 31 };

    ghost reads_offsets = { small_reads };

    ghost number_same = { λ x y e. e };

    fn to_usize(self) -> Option<usize> {
        if self < 0 { None } else { Some(self as usize) }
    }

    fn from_usize(length: usize) -> Option<i32> {
        if length < 0x8000_0000 {
            Some(length as i32)
        } else {
            None
        }
    }
}

impl Offset for i64 {
    ghost use Rattle.std.specs.Prelude.{true, ◌^◌};
    ghost use Rattle.arrow_types.specs.NumberLaws.{large_reads};

    ghost IS_LARGE = { true };

    const IS_LARGE: bool = true;

    ghost number = { λ x. x };

    ghost limit = { 2 ^ 63 };

    ghost reads_offsets = { large_reads };

    ghost number_same = { λ x y e. e };

    fn to_usize(self) -> Option<usize> {
        if self < 0 { None } else { Some(self as usize) }
    }

    fn from_usize(length: usize) -> Option<i64> {
        if length < 0x8000_0000_0000_0000 {
            Some(length as i64)
        } else {
            None
        }
    }
}
