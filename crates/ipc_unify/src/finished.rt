//! Lists whose parts are over the lists behind them.
ghost use Rattle.std.specs.Prelude.{◌≡◌, suc, map, IfErr, IfOk, false, true};
ghost use Rattle.arrow_types.specs.KindOf.{kind_of};
ghost use Rattle.arrow_arrays.specs.Carried.{is_carried};
ghost use Rattle.arrow_arrays.specs.PartsOf.{forest_of};
ghost use Rattle.laws_unify.specs.Over.{over_parts, parts_large};
ghost use Rattle.laws_unify.specs.United.{finished, lists_large, put, some_part};
ghost use Rattle.ipc_unify.specs.Steps.{AreKept, IsRefused, MayFinish, MayFinishAll, lists_of};

use crate::over::parts_over;
use crate::taken::grow;
use arrow_arrays::{Array, clone_each, new_empty_array};
use arrow_spec::IpcError;
use arrow_types::ArrowDataType;
use dictionary_places::DictionaryList;
use std::alloc::{AllocError, Global};

/// Second owners of the parts of a list; one part without rows where there is none.
fn some_parts(
    alloc: Global,
    dtype: &ArrowDataType,
    parts: &[Array],
) -> Result<Vec<Array>, AllocError>
    requires { is_carried (kind_of dtype.now) ≡ true }
    ensures { IfOk result (λ v. forest_of v.items ≡ some_part (kind_of dtype.now) (forest_of parts.now)) }
{
    if parts.is_empty() {
        let dtype = dtype.try_clone(alloc)?;
        let mut filled = Vec::new(alloc);
        filled.push(new_empty_array(alloc, dtype)?)?;
        return Ok(filled);
    }
    clone_each(alloc, parts)
}

/// Puts the parts of the list of a number, or one part without rows, over the lists behind it.
fn finish_list(
    alloc: Global,
    dtype: &ArrowDataType,
    number: usize,
    lists: &mut Vec<DictionaryList>,
) -> Result<(), IpcError>
    requires kept { AreKept lists.old.items }
    requires may { MayFinish (kind_of dtype.now) (lists_of lists.old.items) number }
    ensures lists { IfOk result (λ _. lists_of lists.new.items ≡ put number (over_parts (lists_of lists.old.items) (some_part (kind_of dtype.now) (lists_of lists.old.items number)) (suc number)) (lists_of lists.old.items)) }
    ensures kept { IfOk result (λ _. AreKept lists.new.items) }
    ensures fits { IfOk result (λ _. parts_large (lists_of lists.old.items) (some_part (kind_of dtype.now) (lists_of lists.old.items number)) (suc number) ≡ false) }
    ensures refused { IfErr result (IsRefused (parts_large (lists_of lists.old.items) (some_part (kind_of dtype.now) (lists_of lists.old.items number)) (suc number))) }
{
    grow(alloc, lists, number)?;
    let filled = some_parts(alloc, dtype, lists[number].parts())?;
    match number.checked_add(1) {
        Some(inner) => {
            let over = parts_over(alloc, filled.as_slice(), inner, lists)?;
            lists[number].set_parts(over);
            Ok(())
        }
        None => Err(IpcError::Memory),
    }
}

/// Puts the parts of all lists over the lists, the last one first.
pub(crate) fn finish_lists(
    alloc: Global,
    types: &[ArrowDataType],
    lists: &mut Vec<DictionaryList>,
) -> Result<(), IpcError>
    requires kept { AreKept lists.old.items }
    requires may { MayFinishAll (map kind_of types.now) (lists_of lists.old.items) }
    ensures lists { IfOk result (λ _. lists_of lists.new.items ≡ finished (map kind_of types.now) 0 (lists_of lists.old.items)) }
    ensures kept { IfOk result (λ _. AreKept lists.new.items) }
    ensures fits { IfOk result (λ _. lists_large (finished (map kind_of types.now) 0 (lists_of lists.old.items)) (map kind_of types.now) 0 (lists_of lists.old.items) ≡ false) }
    ensures refused { IfErr result (IsRefused (lists_large (finished (map kind_of types.now) 0 (lists_of lists.old.items)) (map kind_of types.now) 0 (lists_of lists.old.items))) }
{
    let count = types.len();
    for turn in 0..count {
        let number = count - 1 - turn;
        finish_list(alloc, &types[number], number, lists)?;
    }
    Ok(())
}
