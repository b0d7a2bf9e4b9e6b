//! The messages of a stream in memory, passed over one after another (Arrow Columnar Format, "IPC Streaming Format").
ghost use Rattle.std.specs.Prelude.{◌≡◌, ◌+◌, ◌-◌, ◌^◌, ◌<◌, ◌≤◌, Ok, IfOk, IfSome, drop, length, option_map};
ghost use Rattle.std.specs.Int.{w32};
ghost use Rattle.arrow_spec.specs.Flat.{signed_at};
ghost use Rattle.arrow_spec.specs.Streams.{behind_messages, next_message, stream_prefix};
ghost use Rattle.ipc_fields.specs.Causes.{Decodes};
ghost use Rattle.laws_logs.specs.Tables.{counted_in, dictionaries_from, next_pass, pass_of};
ghost use Rattle.ipc_log_records.specs.Passes.{framed_in, passed_in};

use arrow_spec::{FlatError, IpcError, OutOfSpecKind};
use ipc_schema::is_continuation;
use schema_reader::message::{Expected, read_message};

/// Where the metadata of a message begins, behind its prefix, and how long it is.
#[derive(Drop)]
pub(crate) struct Frame {
    pub(crate) at: usize,
    pub(crate) length: usize,
}

/// Where a message ends, and whether it is a dictionary.
#[derive(Drop)]
pub(crate) struct Pass {
    pub(crate) end: usize,
    pub(crate) is_dictionary: bool,
}

/// The signed number in the four bytes at a place.
#[tactic(auto, unfolding(arrow_spec::specs::Readings::bind))]
fn i32_at(bytes: &[u8], at: usize) -> Result<i32, FlatError>
    ensures { result ≡ signed_at w32 bytes.now at }
{
    if at > bytes.len() || bytes.len() - at < 4 {
        return Err(FlatError::Range);
    }
    let (x, _) = bytes[at..].split_at(4);
    Ok(u32::from_le_bytes([x[0], x[1], x[2], x[3]]).cast_signed())
}

/// Where the metadata of the next message begins, and how long it is, as the prefix says.
#[tactic(auto, unfolding(arrow_spec::specs::Readings::bind, arrow_spec::specs::Streams::stream_prefix))]
fn prefix_of(bytes: &[u8]) -> Result<(usize, usize), IpcError>
    requires { 4 ≤ length bytes.now }
    ensures gives { Decodes (λ p. p) result (stream_prefix bytes.now) }
    ensures near { IfOk result (λ p. (4 ≤ p.0) × (p.0 ≤ 8) × (p.1 < 2 ^ 31)) }
{
    let start = if is_continuation(&bytes[..4]) { 8 } else { 4 };
    let length = i32_at(bytes, start - 4).map_err(|_| IpcError::OutOfSpec(
        OutOfSpecKind::Truncated,
    ))?;
    if length < 0 {
        return Err(IpcError::OutOfSpec(OutOfSpecKind::UnexpectedNegativeInteger));
    }
    Ok((start, length as usize))
}

/// The metadata of the next message, if there is one.
#[tactic(auto, unfolding(arrow_spec::specs::Readings::bind, arrow_spec::specs::Streams::next_message, arrow_spec::specs::Streams::framed))]
fn next_frame(bytes: &[u8]) -> Result<Option<Frame>, IpcError>
    ensures gives { Decodes (option_map (framed_in bytes.now)) result (next_message bytes.now) }
    ensures inside { IfOk result (λ o. IfSome o (λ f. (4 ≤ f.at) × (f.at + f.length ≤ length bytes.now))) }
{
    if bytes.len() < 4 {
        return Ok(None);
    }
    let (at, length) = prefix_of(bytes)?;
    if length == 0 {
        return Ok(None);
    }
    if at + length > bytes.len() {
        return Err(IpcError::OutOfSpec(OutOfSpecKind::Truncated));
    }
    Ok(Some(Frame { at, length }))
}

/// Where a message ends that stands in bytes, with its body.
#[tactic(auto, unfolding(arrow_spec::specs::Readings::bind, arrow_spec::specs::Streams::body_in, laws_logs::specs::Tables::pass_of))]
fn pass_frame(bytes: &[u8], frame: &Frame) -> Result<Pass, IpcError>
    requires { frame.now.at + frame.now.length ≤ length bytes.now }
    ensures gives { Decodes (passed_in bytes.now) result (pass_of (framed_in bytes.now frame.now)) }
    ensures inside { IfOk result (λ p. (frame.now.at + frame.now.length ≤ p.end) × (p.end ≤ length bytes.now)) }
{
    let behind = frame.at + frame.length;
    let message = read_message(&bytes[frame.at..behind], Expected::Any)?;
    if message.body > (bytes.len() - behind) as u64 {
        return Err(IpcError::OutOfSpec(OutOfSpecKind::Truncated));
    }
    Ok(Pass {
        end: behind + message.body as usize,
        is_dictionary: message.tag == 2,
    })
}

/// The end of the next message, if there is one.
#[tactic(auto, unfolding(arrow_spec::specs::Readings::bind, laws_logs::specs::Tables::next_pass))]
fn next_end(bytes: &[u8]) -> Result<Option<Pass>, IpcError>
    ensures gives { Decodes (option_map (passed_in bytes.now)) result (next_pass bytes.now) }
    ensures inside { IfOk result (λ o. IfSome o (λ p. (4 ≤ p.end) × (p.end ≤ length bytes.now))) }
{
    match next_frame(bytes)? {
        None => Ok(None),
        Some(frame) => Ok(Some(pass_frame(bytes, &frame)?)),
    }
}

/// One more, if it is a dictionary.
fn counted(count: u64, is_dictionary: bool) -> u64
    requires { count + 1 < 2 ^ 64 }
    ensures { result ≡ counted_in is_dictionary count }
{
    if is_dictionary { count + 1 } else { count }
}

/// How many of the messages of a stream are dictionaries, and how many bytes are left behind the last message.
pub(crate) fn pass_messages(bytes: &[u8]) -> Result<(u64, usize), IpcError>
    ensures dictionaries { Decodes (λ p. p.0) result (dictionaries_from (length bytes.now) bytes.now) }
    ensures rest { IfOk result (λ p. behind_messages (length bytes.now) bytes.now ≡ Ok (drop (length bytes.now - p.1) bytes.now)) }
    ensures left { IfOk result (λ p. p.1 ≤ length bytes.now) }
{
    let mut rest = bytes;
    let mut dictionaries = 0;
    while let Some(pass) = next_end(rest)? {
        dictionaries = counted(dictionaries, pass.is_dictionary);
        rest = &rest[pass.end..];
    }
    Ok((dictionaries, rest.len()))
}
