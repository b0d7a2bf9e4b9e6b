//! Rows of dictionaries: their keys alone (Arrow Columnar Format, "Dictionary-encoded Layout").
ghost use Rattle.std.specs.Prelude.{◌≡◌, ◌+◌, ◌^◌, ◌<◌, ◌≤◌, [], ◌∷◌, length, IfOk, IfErr};
ghost use Rattle.std.specs.List.{flat_map};
ghost use Rattle.arrow_spec.specs.Flat.{order_by};
ghost use Rattle.arrow_buffers.specs.Rows.{part};
ghost use Rattle.arrow_arrays.specs.Heads.{indexed};
ghost use Rattle.arrow_arrays.specs.KeysOf.{keys_in, index_in};
ghost use Rattle.arrow_arrays.specs.Parts.{nested};
ghost use Rattle.ipc_bodies.specs.Adding.{Appends};
ghost use Rattle.ipc_bodies.specs.Fitting.{AllFit};
ghost use Rattle.ipc_write_arrays.specs.Trims.{trim};
ghost use Rattle.ipc_write_arrays.specs.Pieces.{Fit, key_written};
ghost use Rattle.ipc_write_arrays.specs.OutputsOf.{outputs_of};
ghost use Rattle.ipc_write_arrays.specs.Outputs.{laid_behind, KeptAll};
ghost use Rattle.ipc_write_arrays.specs.Dictionaries.{KeyFits};

use crate::Outputs;
use crate::layouts::add_part;
use crate::trees::{add_top, validity_part};
use arrow_arrays::{DictionaryArray, DictionaryKeys};
use ipc_bodies::BodyBuffer;
use std::alloc::AllocError;

/// Adds rows of a dictionary, of which the keys are written, and not the values.
pub(crate) fn add_dictionary(
    array: &DictionaryArray,
    offset: usize,
    rows: usize,
    out: &mut Outputs,
    is_little_endian: bool,
) -> Result<(), AllocError>
    requires within { offset + rows ≤ length array.now.head.keys }
    requires few { rows < 2 ^ 63 }
    ensures ok { IfOk result (λ _. outputs_of out.new ≡ laid_behind (order_by is_little_endian) (trim offset rows (nested (indexed array.now.head) array.now.children)) (outputs_of out.old)) }
    ensures err { IfErr result (λ _. KeptAll (outputs_of out.old) (outputs_of out.new)) }
    ensures fit { IfOk result (λ _. Fit (trim offset rows (nested (indexed array.now.head) array.now.children))) }
{
    let _rows = array.len();
    let bits = array.validity();
    let validity = validity_part(bits, offset, rows)?;
    add_top(rows, &validity, out)?;
    add_keys(
        array.keys(),
        offset,
        rows,
        &mut out.buffers,
        is_little_endian,
    )
}

/// Adds the keys from one on, so many of them.
fn add_keys(
    keys: &DictionaryKeys,
    at: usize,
    count: usize,
    buffers: &mut Vec<BodyBuffer>,
    is_little: bool,
) -> Result<(), AllocError>
    requires within { at + count ≤ length (keys_in keys.now) }
    ensures bytes { Appends result buffers.old.items buffers.new.items (flat_map (key_written (order_by is_little) (index_in keys.now)) (part at count (keys_in keys.now)) ∷ []) }
    ensures fit { IfOk result (λ _. AllFit (KeyFits (index_in keys.now)) (part at count (keys_in keys.now))) }
{
    match keys {
        DictionaryKeys::Int8(keys) => add_part(keys.values(), at, count, buffers, is_little),
        DictionaryKeys::Int16(keys) => add_part(keys.values(), at, count, buffers, is_little),
        DictionaryKeys::Int32(keys) => add_part(keys.values(), at, count, buffers, is_little),
        DictionaryKeys::Int64(keys) => add_part(keys.values(), at, count, buffers, is_little),
        DictionaryKeys::Int128(keys) => add_part(keys.values(), at, count, buffers, is_little),
        DictionaryKeys::UInt8(keys) => add_part(keys.values(), at, count, buffers, is_little),
        DictionaryKeys::UInt16(keys) => add_part(keys.values(), at, count, buffers, is_little),
        DictionaryKeys::UInt32(keys) => add_part(keys.values(), at, count, buffers, is_little),
        DictionaryKeys::UInt64(keys) => add_part(keys.values(), at, count, buffers, is_little),
    }
}
