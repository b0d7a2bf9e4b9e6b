//! The lines of pairs, each behind its indent.
ghost use Rattle.std.specs.Prelude.{◌≡◌, ◌++◌, OnOk, string_bytes};
ghost use Rattle.arrow_spec.specs.SchemaText.{indent, pair_lines};
ghost use Rattle.arrow_types.specs.KindOf.{texts_of};
ghost use Rattle.ipc_text.specs.Pairs.{pair_line};

use crate::quoted::{push_quoted, push_text};
use arrow_types::Metadata;
use std::alloc::{AllocError, Global};

/// Two spaces a level.
pub(crate) fn push_indent(out: &mut Vec<u8>, level: usize) -> Result<(), AllocError>
    ensures { OnOk result (out.new.items ≡ out.old.items ++ indent level) }
{
    for _i in 0..level {
        push_text(out, "  ")?;
    }
    Ok(())
}

fn push_pair(
    alloc: Global,
    out: &mut Vec<u8>,
    level: usize,
    key: &String,
    value: &String,
) -> Result<(), AllocError>
    ensures { OnOk result (out.new.items ≡ out.old.items ++ pair_line level (string_bytes key.now, string_bytes value.now)) }
{
    push_indent(out, level)?;
    push_text(out, "@ ")?;
    push_quoted(alloc, out, key.as_str())?;
    push_text(out, " ")?;
    push_quoted(alloc, out, value.as_str())?;
    push_text(out, "\n")
}

/// A line of each pair, by key.
pub(crate) fn push_pairs(
    alloc: Global,
    out: &mut Vec<u8>,
    level: usize,
    pairs: &Metadata,
) -> Result<(), AllocError>
    ensures { OnOk result (out.new.items ≡ out.old.items ++ pair_lines level (texts_of pairs.now.entries)) }
{
    for (key, value) in pairs.iter() {
        push_pair(alloc, out, level, key, value)?;
    }
    Ok(())
}
