//! Rows of the keys of dictionaries (Arrow Columnar Format, "Dictionary-encoded Layout").
ghost use Rattle.std.specs.Prelude.{◌≡◌, length, IfOk};
ghost use Rattle.std.specs.Option.{option_map};
ghost use Rattle.arrow_arrays.specs.KeysOf.{keys_in, index_in, key_validity_in};
ghost use Rattle.array_filter.specs.Rows.{taken};
ghost use Rattle.array_filter.specs.Runs.{Climb, rows_in_runs};

use crate::leaves::take_primitive;
use crate::runs::Run;
use arrow_arrays::DictionaryKeys;
use std::alloc::{AllocError, Global};

/// The keys of an integer type over the rows of keys.
macro_rules! keys {
    ($kind:ident, $keys:ident, $alloc:ident, $runs:ident) => {
        match take_primitive($alloc, $keys, $runs) {
            Ok(taken) => Ok(DictionaryKeys::$kind(taken)),
            Err(error) => Err(error),
        }
    };
}

/// Rows of keys.
pub(crate) fn take_keys(
    alloc: Global,
    keys: &DictionaryKeys,
    runs: &[Run],
) -> Result<DictionaryKeys, AllocError>
    requires { Climb 0 runs.now (length (keys_in keys.now)) }
    ensures keys { IfOk result (λ k. keys_in k ≡ taken (rows_in_runs runs.now) (keys_in keys.now)) }
    ensures index { IfOk result (λ k. index_in k ≡ index_in keys.now) }
    ensures validity { IfOk result (λ k. key_validity_in k ≡ option_map (taken (rows_in_runs runs.now)) (key_validity_in keys.now)) }
{
    match keys {
        DictionaryKeys::Int8(keys) => keys!(Int8, keys, alloc, runs),
        DictionaryKeys::Int16(keys) => keys!(Int16, keys, alloc, runs),
        DictionaryKeys::Int32(keys) => keys!(Int32, keys, alloc, runs),
        DictionaryKeys::Int64(keys) => keys!(Int64, keys, alloc, runs),
        DictionaryKeys::Int128(keys) => keys!(Int128, keys, alloc, runs),
        DictionaryKeys::UInt8(keys) => keys!(UInt8, keys, alloc, runs),
        DictionaryKeys::UInt16(keys) => keys!(UInt16, keys, alloc, runs),
        DictionaryKeys::UInt32(keys) => keys!(UInt32, keys, alloc, runs),
        DictionaryKeys::UInt64(keys) => keys!(UInt64, keys, alloc, runs),
    }
}
