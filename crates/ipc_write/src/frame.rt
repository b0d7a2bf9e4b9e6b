//! Messages with their prefix and padding, put into a sink or in one piece (Arrow Columnar Format, "Encapsulated message format").
ghost use Rattle.std.specs.Prelude.{◌≡◌, ◌↔◌, ◌⊎◌, ◌+◌, ◌-◌, ◌*◌, ◌%◌, ◌^◌, ◌<◌, ◌≤◌, ◌++◌, length, IfOk, OnOk, IfErr, Err};
ghost use Rattle.arrow_spec.specs.Layout.{Node, layout, up_to, zeros};
ghost use Rattle.arrow_spec.specs.Framing.{body_bytes, message_bytes};
ghost use Rattle.arrow_spec.specs.declared.error.IpcError.TheVariants.{Memory, TooLarge};
ghost use Rattle.ipc_bodies.specs.Encodings.{made_width, text_of};
ghost use Rattle.ipc_bodies.specs.Puts.{moved, PutsText};
ghost use Rattle.ipc_write.specs.Outcomes.{continuation, metadata_frame, message_frame};
ghost use Rattle.ipc_write.specs.Puts.{PutsMessage};

use crate::{BodyPlan, EncodedData};
use arrow_spec::IpcError;
use ipc_bodies::{Encoding, put_body_as, put_bytes_as};
use ipc_schema::{PutError, Sink};
use std::alloc::{AllocError, Global};

/// The most bytes of a message's padded metadata.
pub(crate) const MOST_METADATA: usize = 0x7fff_ffff;

/// How many bytes are needed up to the next multiple of 64.
pub fn pad_to_64(length: usize) -> usize
    requires { up_to 64 length < 2 ^ 64 }
    ensures { result ≡ up_to 64 length - length }
{
    (64 - length % 64) % 64
}

fn put<W: Sink>(sink: &mut W, bytes: &[u8]) -> Result<(), IpcError>
    ensures puts { PutsText (moved (W.written sink.old) (W.written sink.new) (W.faults sink.old) (W.faults sink.new) (W.wants sink.old) (W.wants sink.new)) result bytes.now }
    ensures same_references { W.references sink.new ≡ W.references sink.old }
{
    sink.put(bytes)?;
    Ok(())
}

/// Puts bytes, and so many zeros.
fn put_padded<W: Sink>(sink: &mut W, bytes: &[u8], count: usize) -> Result<(), IpcError>
    requires { count < 64 }
    ensures puts { PutsText (moved (W.written sink.old) (W.written sink.new) (W.faults sink.old) (W.faults sink.new) (W.wants sink.old) (W.wants sink.new)) result (bytes.now ++ zeros count) }
    ensures same_references { W.references sink.new ≡ W.references sink.old }
{
    put(sink, bytes)?;
    put(sink, &[0; 64][..count])
}

/// The mark and a length.
fn prefix(length: i32) -> [u8; 8]
    ensures { result ≡ continuation length }
{
    let mut bytes = [255; 8];
    bytes[4..].copy_from_slice(&length.to_le_bytes());
    bytes
}

/// Puts the mark and a length, and answers how many bytes these are.
///
/// # Errors
///
/// `WriteFault` and `Memory` of the sink.
pub fn write_continuation<W: Sink>(sink: &mut W, total_len: i32) -> Result<usize, IpcError>
    ensures ok { IfOk result (λ n. n ≡ 8) }
    ensures puts { PutsText (moved (W.written sink.old) (W.written sink.new) (W.faults sink.old) (W.faults sink.new) (W.wants sink.old) (W.wants sink.new)) result (continuation total_len) }
    ensures same_references { W.references sink.new ≡ W.references sink.old }
{
    put(sink, &prefix(total_len))?;
    Ok(8)
}

/// Puts the mark and the length of metadata, and the metadata with zeros up to that length.
fn put_metadata<W: Sink>(sink: &mut W, metadata: &[u8], padded: usize) -> Result<(), IpcError>
    requires padded { padded ≡ up_to 8 (length metadata.now) }
    requires small { padded < 2 ^ 31 }
    ensures puts { PutsText (moved (W.written sink.old) (W.written sink.new) (W.faults sink.old) (W.faults sink.new) (W.wants sink.old) (W.wants sink.new)) result (metadata_frame metadata.now) }
    ensures same_references { W.references sink.new ≡ W.references sink.old }
{
    write_continuation(sink, padded as i32)?;
    put_padded(sink, metadata, padded - metadata.len())
}

/// Puts the parts of a message one after another.
fn put_message<W: Sink>(sink: &mut W, encoded: &EncodedData, padded: usize) -> Result<(), IpcError>
    requires padded { padded ≡ up_to 8 (length encoded.now.ipc_message.items) }
    requires small { padded < 2 ^ 31 }
    ensures puts { PutsText (moved (W.written sink.old) (W.written sink.new) (W.faults sink.old) (W.faults sink.new) (W.wants sink.old) (W.wants sink.new)) result (message_frame encoded.now.ipc_message.items encoded.now.arrow_data.items) }
    ensures same_references { W.references sink.new ≡ W.references sink.old }
{
    let metadata = encoded.ipc_message.as_slice();
    let body = encoded.arrow_data.as_slice();
    put_metadata(sink, metadata, padded)?;
    put_padded(sink, body, pad_to_64(body.len()))
}

/// Puts a message: the mark, the length of its padded metadata, the metadata with zeros up to a multiple of 8, and the body with
/// zeros up to a multiple of 64. It answers how many bytes stand before the body, and how many the padded body has.
///
/// # Errors
///
/// `TooLarge` where the padded metadata passes 2^31 - 1 bytes, before anything is put; `WriteFault` and `Memory` of the sink, which
/// leave a part of the message from its front.
pub fn write_message<W: Sink>(
    sink: &mut W,
    encoded: &EncodedData,
) -> Result<(usize, usize), IpcError>
    ensures ok { IfOk result (λ r. r ≡ (8 + up_to 8 (length encoded.now.ipc_message.items), up_to 64 (length encoded.now.arrow_data.items))) }
    ensures too_large { (result ≡ Err TooLarge) ↔ (2 ^ 31 ≤ up_to 8 (length encoded.now.ipc_message.items)) }
    ensures puts { PutsMessage (moved (W.written sink.old) (W.written sink.new) (W.faults sink.old) (W.faults sink.new) (W.wants sink.old) (W.wants sink.new)) result (up_to 8 (length encoded.now.ipc_message.items)) (message_frame encoded.now.ipc_message.items encoded.now.arrow_data.items) }
    ensures same_references { W.references sink.new ≡ W.references sink.old }
{
    let padded = encoded.ipc_message.len().next_multiple_of(8);
    if padded > MOST_METADATA {
        return Err(IpcError::TooLarge);
    }
    put_message(sink, encoded, padded)?;
    let body = encoded.arrow_data.len();
    Ok((8 + padded, body + pad_to_64(body)))
}

/// Puts bytes, and so many zeros.
fn put_padded_as<W: Sink>(
    sink: &mut W,
    bytes: &[u8],
    count: usize,
    encoding: Encoding,
    scratch: &mut [u8],
) -> Result<(), IpcError>
    requires count { count < 64 }
    requires scratch { 2 ≤ length scratch.old }
    ensures puts { PutsText (moved (W.written sink.old) (W.written sink.new) (W.faults sink.old) (W.faults sink.new) (W.wants sink.old) (W.wants sink.new)) result (text_of encoding (bytes.now ++ zeros count)) }
    ensures same_references { W.references sink.new ≡ W.references sink.old }
    ensures scratch { length scratch.new ≡ length scratch.old }
{
    put_bytes_as(sink, bytes, encoding, scratch)?;
    put_bytes_as(sink, &[0; 64][..count], encoding, scratch)
}

/// Puts the mark and the length of metadata, and the metadata with zeros up to that length.
fn put_metadata_as<W: Sink>(
    sink: &mut W,
    metadata: &[u8],
    padded: usize,
    encoding: Encoding,
    scratch: &mut [u8],
) -> Result<(), IpcError>
    requires padded { padded ≡ up_to 8 (length metadata.now) }
    requires small { padded < 2 ^ 31 }
    requires scratch { 2 ≤ length scratch.old }
    ensures puts { PutsText (moved (W.written sink.old) (W.written sink.new) (W.faults sink.old) (W.faults sink.new) (W.wants sink.old) (W.wants sink.new)) result (text_of encoding (metadata_frame metadata.now)) }
    ensures same_references { W.references sink.new ≡ W.references sink.old }
    ensures scratch { length scratch.new ≡ length scratch.old }
{
    put_bytes_as(sink, &prefix(padded as i32), encoding, scratch)?;
    put_padded_as(sink, metadata, padded - metadata.len(), encoding, scratch)
}

/// Puts the parts of a planned message one after another.
#[tactic(auto, using(ipc_bodies::proofs::Encoded::made_above))]
fn put_plan<W: Sink>(
    sink: &mut W,
    plan: &BodyPlan,
    padded: usize,
    encoding: Encoding,
    scratch: &mut [u8],
) -> Result<(), IpcError>
    requires padded { padded ≡ up_to 8 (length plan.now.ipc_message.items) }
    requires small { padded < 2 ^ 31 }
    requires scratch { 64 * made_width encoding ≤ length scratch.old }
    ensures puts { PutsText (moved (W.written sink.old) (W.written sink.new) (W.faults sink.old) (W.faults sink.new) (W.wants sink.old) (W.wants sink.new)) result (text_of encoding (message_frame plan.now.ipc_message.items (body_bytes 0 plan.now.buffers.items))) }
    ensures same_references { W.references sink.new ≡ W.references sink.old }
    ensures scratch { length scratch.new ≡ length scratch.old }
{
    let metadata = plan.ipc_message.as_slice();
    let buffers = plan.buffers.as_slice();
    put_metadata_as(sink, metadata, padded, encoding, scratch)?;
    put_body_as(sink, buffers, encoding, scratch)
}

/// Puts a planned message as `write_message` puts it, as bytes or as hex text, at most as many bytes at a time as the scratch has.
/// It answers how many bytes the message has before its body, and in it.
///
/// # Errors
///
/// Those of `write_message`.
pub fn write_plan_as<W: Sink>(
    sink: &mut W,
    plan: &BodyPlan,
    encoding: Encoding,
    scratch: &mut [u8],
) -> Result<(usize, usize), IpcError>
    requires { 64 * made_width encoding ≤ length scratch.old }
    ensures ok { IfOk result (λ r. r ≡ (8 + up_to 8 (length plan.now.ipc_message.items), plan.now.body_length)) }
    ensures too_large { (result ≡ Err TooLarge) ↔ (2 ^ 31 ≤ up_to 8 (length plan.now.ipc_message.items)) }
    ensures puts { PutsMessage (moved (W.written sink.old) (W.written sink.new) (W.faults sink.old) (W.faults sink.new) (W.wants sink.old) (W.wants sink.new)) result (up_to 8 (length plan.now.ipc_message.items)) (text_of encoding (message_frame plan.now.ipc_message.items (body_bytes 0 plan.now.buffers.items))) }
    ensures same_references { W.references sink.new ≡ W.references sink.old }
    ensures scratch { length scratch.new ≡ length scratch.old }
{
    let padded = plan.ipc_message.len().next_multiple_of(8);
    if padded > MOST_METADATA {
        return Err(IpcError::TooLarge);
    }
    put_plan(sink, plan, padded, encoding, scratch)?;
    Ok((8 + padded, plan.body_length))
}

/// Puts a planned message as `write_message` puts it, at most as many bytes at a time as the scratch has.
///
/// # Errors
///
/// Those of `write_message`.
pub fn write_plan<W: Sink>(
    sink: &mut W,
    plan: &BodyPlan,
    scratch: &mut [u8],
) -> Result<(usize, usize), IpcError>
    requires { 64 ≤ length scratch.old }
    ensures ok { IfOk result (λ r. r ≡ (8 + up_to 8 (length plan.now.ipc_message.items), plan.now.body_length)) }
    ensures too_large { (result ≡ Err TooLarge) ↔ (2 ^ 31 ≤ up_to 8 (length plan.now.ipc_message.items)) }
    ensures puts { PutsMessage (moved (W.written sink.old) (W.written sink.new) (W.faults sink.old) (W.faults sink.new) (W.wants sink.old) (W.wants sink.new)) result (up_to 8 (length plan.now.ipc_message.items)) (message_frame plan.now.ipc_message.items (body_bytes 0 plan.now.buffers.items)) }
    ensures same_references { W.references sink.new ≡ W.references sink.old }
    ensures scratch { length scratch.new ≡ length scratch.old }
{
    write_plan_as(sink, plan, Encoding::Bytes, scratch)
}

fn push_zeros(out: &mut Vec<u8>, count: usize) -> Result<(), AllocError>
    ensures { OnOk result (out.new.items ≡ out.old.items ++ zeros count) }
{
    for _ in 0..count {
        out.push(0)?;
    }
    Ok(())
}

/// The prefix, metadata with zeros up to a length, and a body with zeros up to a multiple of 64.
#[tactic(auto, unfolding(crate::specs::Outcomes::message_frame))]
fn joined(alloc: Global, metadata: &[u8], padded: usize, body: &[u8]) -> Result<Vec<u8>, AllocError>
    requires padded { padded ≡ up_to 8 (length metadata.now) }
    requires small { padded < 2 ^ 31 }
    ensures { IfOk result (λ v. v.items ≡ message_frame metadata.now body.now) }
{
    let padding = pad_to_64(body.len());
    let mut out = Vec::with_capacity(alloc, 8 + padded + body.len() + padding)?;
    out.extend_from_slice(&[255; 4])?;
    out.extend_from_slice(&(padded as u32).to_le_bytes())?;
    out.extend_from_slice(metadata)?;
    push_zeros(&mut out, padded - metadata.len())?;
    out.extend_from_slice(body)?;
    push_zeros(&mut out, padding)?;
    Ok(out)
}

/// A message in one piece, by its metadata and its body: the bytes that `write_message` puts. It takes memory once.
///
/// # Errors
///
/// `TooLarge` where the padded metadata passes 2^31 - 1 bytes; `Memory`.
pub fn message_to_bytes(alloc: Global, metadata: &[u8], body: &[u8]) -> Result<Vec<u8>, IpcError>
    ensures bytes { IfOk result (λ v. v.items ≡ message_frame metadata.now body.now) }
    ensures some { IfOk result (λ v. 0 < length v.items) }
    ensures small { OnOk result (up_to 8 (length metadata.now) < 2 ^ 31) }
    ensures err { IfErr result (λ e. (e ≡ Memory) ⊎ ((e ≡ TooLarge) × (2 ^ 31 ≤ up_to 8 (length metadata.now)))) }
    ensures too_large { (result ≡ Err TooLarge) ↔ (2 ^ 31 ≤ up_to 8 (length metadata.now)) }
    // Metadata of a node, and a body that ends at a multiple of 64, are the message of the two.
    ensures message { IfOk result (λ v. (n : Node) → metadata.now ≡ layout n → length body.now % 64 ≡ 0 → v.items ≡ message_bytes n body.now) }
{
    let padded = metadata.len().next_multiple_of(8);
    if padded > MOST_METADATA {
        return Err(IpcError::TooLarge);
    }
    Ok(joined(alloc, metadata, padded, body)?)
}
