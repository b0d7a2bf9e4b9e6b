//! Numbers in decimal digits, and the ids of unions.
ghost use Rattle.std.specs.Prelude.{◌≡◌, ◌++◌, OnOk, length, decimal};
ghost use Rattle.std.specs.Fmt.{signed_decimal};
ghost use Rattle.arrow_spec.specs.Schema.{counted_ids};
ghost use Rattle.arrow_spec.specs.SchemaText.{ids_text};
ghost use Rattle.arrow_types.specs.KindOf.{ids_of};
ghost use Rattle.ipc_text.specs.Ids.{comma};

use crate::quoted::push_text;
use std::alloc::{AllocError, Global};

pub(crate) fn push_number(alloc: Global, out: &mut Vec<u8>, number: usize) -> Result<(), AllocError>
    ensures { OnOk result (out.new.items ≡ out.old.items ++ decimal number) }
{
    let digits = number.to_string(alloc)?;
    push_text(out, digits.as_str())
}

pub(crate) fn push_signed(alloc: Global, out: &mut Vec<u8>, number: i64) -> Result<(), AllocError>
    ensures { OnOk result (out.new.items ≡ out.old.items ++ signed_decimal number) }
{
    let digits = number.to_string(alloc)?;
    push_text(out, digits.as_str())
}

// A comma, but for the first of some ids.
fn push_comma(out: &mut Vec<u8>, index: usize) -> Result<(), AllocError>
    ensures { OnOk result (out.new.items ≡ out.old.items ++ comma index) }
{
    if index == 0 {
        return Ok(());
    }
    push_text(out, ",")
}

fn push_counted(alloc: Global, out: &mut Vec<u8>, count: usize) -> Result<(), AllocError>
    ensures { OnOk result (out.new.items ≡ out.old.items ++ ids_text (counted_ids 0 count)) }
{
    for id in 0..count {
        push_comma(out, id)?;
        push_number(alloc, out, id)?;
    }
    Ok(())
}

fn push_stated(alloc: Global, out: &mut Vec<u8>, ids: &[i32]) -> Result<(), AllocError>
    ensures { OnOk result (out.new.items ≡ out.old.items ++ ids_text ids.now) }
{
    for i in 0..ids.len() {
        push_comma(out, i)?;
        push_signed(alloc, out, i64::from(ids[i]))?;
    }
    Ok(())
}

/// The ids of a union with so many children: 0, 1, .. where none are stated.
pub(crate) fn push_ids(
    alloc: Global,
    out: &mut Vec<u8>,
    ids: &Option<Vec<i32>>,
    count: usize,
) -> Result<(), AllocError>
    ensures { OnOk result (out.new.items ≡ out.old.items ++ ids_text (ids_of ids.now count)) }
{
    match ids {
        None => push_counted(alloc, out, count),
        Some(ids) => push_stated(alloc, out, ids.as_slice()),
    }
}
