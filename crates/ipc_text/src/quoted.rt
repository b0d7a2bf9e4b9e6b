//! Texts as they stand, and texts in quotes.
ghost use Rattle.std.specs.Prelude.{◌≡◌, ◌++◌, OnOk};
ghost use Rattle.arrow_spec.specs.SchemaText.{escaped, quoted};

use std::alloc::{AllocError, Global};

/// A text as it stands.
pub(crate) fn push_text(out: &mut Vec<u8>, text: &str) -> Result<(), AllocError>
    ensures { OnOk result (out.new.items ≡ out.old.items ++ text.now) }
{
    out.extend_from_slice(text.as_bytes())
}

// A byte in quotes: a quotation mark and a backslash behind a backslash, a control character by its two digits.
fn push_escaped(alloc: Global, out: &mut Vec<u8>, byte: u8) -> Result<(), AllocError>
    ensures { OnOk result (out.new.items ≡ out.old.items ++ escaped byte) }
{
    if byte == b'"' || byte == b'\\' {
        out.push(b'\\')?;
        out.push(byte)?;
    } else if byte < b' ' || byte == 0x7f {
        let digits = hex::encode(alloc, [byte])?;
        push_text(out, "\\x")?;
        push_text(out, digits.as_str())?;
    } else {
        out.push(byte)?;
    }
    Ok(())
}

/// A text in double quotes.
pub(crate) fn push_quoted(alloc: Global, out: &mut Vec<u8>, text: &str) -> Result<(), AllocError>
    ensures { OnOk result (out.new.items ≡ out.old.items ++ quoted text.now) }
{
    out.push(b'"')?;
    for byte in text.as_bytes() {
        push_escaped(alloc, out, *byte)?;
    }
    out.push(b'"')?;
    Ok(())
}
