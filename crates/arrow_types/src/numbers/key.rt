//! Keys into a dictionary's values (Arrow Columnar Format, "Dictionary-encoded Layout").
ghost use Rattle.std.specs.Prelude.{◌≡◌};
ghost use Rattle.std.specs.Option.{option_map};
ghost use Rattle.arrow_types.specs.Numbers.{usize_of, below_limit};

use crate::numbers::native::NativeType;
use arrow_spec::IntegerType;

/// An integer that may be a dictionary's key.
pub trait DictionaryKey: NativeType {
    ghost use Rattle.std.specs.Prelude.{◌≡◌, ℕ, ℤ};
    ghost use Rattle.arrow_spec.specs.declared.types.IntegerType.{IntegerType};

    /// The type of the keys.
    ghost KEY_TYPE: { IntegerType };

    /// The type of the keys.
    const KEY_TYPE: IntegerType;

    /// The number that a key is.
    ghost number: { Self → ℤ };

    /// The least length that no key reaches.
    ghost limit: { ℕ };

    /// The key as an index; none where it is negative or above every index.
    fn to_usize(self) -> Option<usize>
        ensures { result ≡ usize_of (number self) };

    /// The index as a key; none where no key is so large.
    fn from_usize(index: usize) -> Option<Self>
        ensures { option_map number result ≡ below_limit limit index };

    /// Two keys of one number are the same.
    ghost number_same: { (x y : Self) → number x ≡ number y → x ≡ y };
}

impl DictionaryKey for i8 {
    ghost use Rattle.std.specs.Prelude.{◌^◌};
    ghost use Rattle.arrow_spec.specs.declared.types.IntegerType.TheVariants.{Int8};

    ghost KEY_TYPE = { Int8 };

    const KEY_TYPE: IntegerType = IntegerType::Int8;

    ghost number = { λ x. x };

    ghost limit = { 2 ^ 7 };

    ghost number_same = { λ x y e. e };

    fn to_usize(self) -> Option<usize> {
        if self < 0 { None } else { Some(self as usize) }
    }

    fn from_usize(index: usize) -> Option<i8> {
        if index < 0x80 {
            Some(index as i8)
        } else {
            None
        }
    }
}

impl DictionaryKey for i16 {
    ghost use Rattle.std.specs.Prelude.{◌^◌};
    ghost use Rattle.arrow_spec.specs.declared.types.IntegerType.TheVariants.{Int16};

    ghost KEY_TYPE = { Int16 };

    const KEY_TYPE: IntegerType = IntegerType::Int16;

    ghost number = { λ x. x };

    ghost limit = { 2 ^ 15 };

    ghost number_same = { λ x y e. e };

    fn to_usize(self) -> Option<usize> {
        if self < 0 { None } else { Some(self as usize) }
    }

    fn from_usize(index: usize) -> Option<i16> {
        if index < 0x8000 {
            Some(index as i16)
        } else {
            None
        }
    }
}

impl DictionaryKey for i32 {
    ghost use Rattle.std.specs.Prelude.{◌^◌};
    ghost use Rattle.arrow_spec.specs.declared.types.IntegerType.TheVariants.{Int32};

    ghost KEY_TYPE = { Int32 };

    const KEY_TYPE: IntegerType = IntegerType::Int32;

    ghost number = { λ x. x };

    ghost limit = { 2 ^ 31 };

    ghost number_same = { λ x y e. e };

    fn to_usize(self) -> Option<usize> {
        if self < 0 { None } else { Some(self as usize) }
    }

    fn from_usize(index: usize) -> Option<i32> {
        if index < 0x8000_0000 {
            Some(index as i32)
        } else {
            None
        }
    }
}

impl DictionaryKey for i64 {
    ghost use Rattle.std.specs.Prelude.{◌^◌};
    ghost use Rattle.arrow_spec.specs.declared.types.IntegerType.TheVariants.{Int64};

    ghost KEY_TYPE = { Int64 };

    const KEY_TYPE: IntegerType = IntegerType::Int64;

    ghost number = { λ x. x };

    ghost limit = { 2 ^ 63 };

    ghost number_same = { λ x y e. e };

    fn to_usize(self) -> Option<usize> {
        if self < 0 { None } else { Some(self as usize) }
    }

    fn from_usize(index: usize) -> Option<i64> {
        if index < 0x8000_0000_0000_0000 {
            Some(index as i64)
        } else {
            None
        }
    }
}

impl DictionaryKey for i128 {
    ghost use Rattle.std.specs.Prelude.{◌^◌};
    ghost use Rattle.arrow_spec.specs.declared.types.IntegerType.TheVariants.{Int128};

    ghost KEY_TYPE = { Int128 };

    const KEY_TYPE: IntegerType = IntegerType::Int128;

    ghost number = { λ x. x };

    ghost limit = { 2 ^ 64 };

    ghost number_same = { λ x y e. e };

    fn to_usize(self) -> Option<usize> {
        if self < 0 || 0xffff_ffff_ffff_ffff < self {
            None
        } else {
            Some(self as usize)
        }
    }

    fn from_usize(index: usize) -> Option<i128> {
        Some(index as i128)
    }
}

impl DictionaryKey for u8 {
    ghost use Rattle.std.specs.Prelude.{pos, ◌^◌};
    ghost use Rattle.arrow_spec.specs.declared.types.IntegerType.TheVariants.{UInt8};
    ghost use Rattle.arrow_types.specs.NumberLaws.{pos_same};

    ghost KEY_TYPE = { UInt8 };

    const KEY_TYPE: IntegerType = IntegerType::UInt8;

    ghost number = { pos };

    ghost limit = { 2 ^ 8 };

    ghost number_same = { λ x y e. pos_same x y e };

    fn to_usize(self) -> Option<usize> {
        Some(self as usize)
    }

    fn from_usize(index: usize) -> Option<u8> {
        if index < 0x100 {
            Some(index as u8)
        } else {
            None
        }
    }
}

impl DictionaryKey for u16 {
    ghost use Rattle.std.specs.Prelude.{pos, ◌^◌};
    ghost use Rattle.arrow_spec.specs.declared.types.IntegerType.TheVariants.{UInt16};
    ghost use Rattle.arrow_types.specs.NumberLaws.{pos_same};

    ghost KEY_TYPE = { UInt16 };

    const KEY_TYPE: IntegerType = IntegerType::UInt16;

    ghost number = { pos };

    ghost limit = { 2 ^ 16 };

    ghost number_same = { λ x y e. pos_same x y e };

    fn to_usize(self) -> Option<usize> {
        Some(self as usize)
    }

    fn from_usize(index: usize) -> Option<u16> {
        if index < 0x1_0000 {
            Some(index as u16)
        } else {
            None
        }
    }
}

impl DictionaryKey for u32 {
    ghost use Rattle.std.specs.Prelude.{pos, ◌^◌};
    ghost use Rattle.arrow_spec.specs.declared.types.IntegerType.TheVariants.{UInt32};
    ghost use Rattle.arrow_types.specs.NumberLaws.{pos_same};

    ghost KEY_TYPE = { UInt32 };

    const KEY_TYPE: IntegerType = IntegerType::UInt32;

    ghost number = { pos };

    ghost limit = { 2 ^ 32 };

    ghost number_same = { λ x y e. pos_same x y e };

    fn to_usize(self) -> Option<usize> {
        Some(self as usize)
    }

    fn from_usize(index: usize) -> Option<u32> {
        if index < 0x1_0000_0000 {
            Some(index as u32)
        } else {
            None
        }
    }
}

impl DictionaryKey for u64 {
    ghost use Rattle.std.specs.Prelude.{pos, ◌^◌};
    ghost use Rattle.arrow_spec.specs.declared.types.IntegerType.TheVariants.{UInt64};
    ghost use Rattle.arrow_types.specs.NumberLaws.{pos_same};

    ghost KEY_TYPE = { UInt64 };

    const KEY_TYPE: IntegerType = IntegerType::UInt64;

    ghost number = { pos };

    ghost limit = { 2 ^ 64 };

    ghost number_same = { λ x y e. pos_same x y e };

    fn to_usize(self) -> Option<usize> {
        Some(self as usize)
    }

    fn from_usize(index: usize) -> Option<u64> {
        Some(index as u64)
    }
}
