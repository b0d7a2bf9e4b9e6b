//! The prefix of a message (Arrow Columnar Format, "Encapsulated message format").
ghost use Rattle.std.specs.Prelude.{◌≡◌, ◌≢◌, ℕ, ◌+◌, ◌≤◌, List, length, IfOk, Err, IfErr};
ghost use Rattle.arrow_spec.specs.declared.error.IpcError.TheVariants.{ReadFault};
ghost use Rattle.ipc_fields.specs.Causes.{Decodes, IsOfBytes};
ghost use Rattle.arrow_spec.specs.Messages.{prefix_of, is_mark};
ghost use Rattle.ipc_schema.specs.Prefixes.{length_in, TellsLength};

use crate::number::i32_at;
use arrow_spec::{IpcError, OutOfSpecKind};

/// Whether four bytes are the mark of a prefix of eight bytes.
pub fn is_continuation(front: &[u8]) -> bool
    ensures { result ≡ is_mark front.now }
{
    front == [255, 255, 255, 255].as_slice()
}

#[tactic(auto, unfolding(arrow_spec::specs::Readings::bind, crate::specs::Prefixes::length_in))]
fn length_in(four: &[u8], start: usize, size: usize) -> Result<(usize, usize), IpcError>
    requires { start ≤ 8 }
    ensures gives { Decodes (λ p. p) result (length_in four.now start size) }
    ensures start { IfOk result (λ p. p.0 ≡ start) }
    ensures within { IfOk result (λ p. p.0 + p.1 ≤ size) }
{
    let length = i32_at(four, 0).map_err(|_| IpcError::OutOfSpec(OutOfSpecKind::MessageRange))?;
    if length < 0 {
        return Err(IpcError::OutOfSpec(OutOfSpecKind::UnexpectedNegativeInteger));
    }
    let length = length as usize;
    if start + length > size {
        return Err(IpcError::OutOfSpec(OutOfSpecKind::MessageRange));
    }
    Ok((start, length))
}

/// Where the metadata begins and how long it is, by the four bytes of its length, where the metadata begins at `start`
/// and so many bytes are there from the prefix on.
pub fn metadata_length(four: &[u8], start: usize, size: usize) -> Result<(usize, usize), IpcError>
    requires { start ≤ 8 }
    ensures gives { Decodes (λ p. p) result (length_in four.now start size) }

    // It is what the prefix of such bytes says.
    ensures quiet { IfErr result IsOfBytes }
    ensures prefix { (b : List ℕ) → length b ≡ size → TellsLength four.now start b → Decodes (λ p. p) result (prefix_of b) }
    ensures start { IfOk result (λ p. p.0 ≡ start) }
    ensures within { IfOk result (λ p. p.0 + p.1 ≤ size) }
{
    length_in(four, start, size)
}

/// Where a message's metadata begins, 4 or 8 bytes in, and its length, by bytes that begin with the message.
///
/// # Errors
///
/// `OutOfSpec(MessageRange)` where prefix or metadata pass the end of the bytes, `OutOfSpec(UnexpectedNegativeInteger)`
/// where the length is negative.
pub fn message_prefix(bytes: &[u8]) -> Result<(usize, usize), IpcError>
    ensures gives { Decodes (λ p. p) result (prefix_of bytes.now) }
{
    if bytes.len() < 4 {
        return Err(IpcError::OutOfSpec(OutOfSpecKind::MessageRange));
    }
    let (front, rest) = bytes.split_at(4);
    if !is_continuation(front) {
        return metadata_length(front, 4, bytes.len());
    }
    if rest.len() < 4 {
        return Err(IpcError::OutOfSpec(OutOfSpecKind::MessageRange));
    }
    let (four, _) = rest.split_at(4);
    metadata_length(four, 8, bytes.len())
}
