//! Hex text from a feed.
ghost use Rattle.std.specs.Prelude.{◌≡◌, ◌<◌, ◌≤◌, ◌^◌, length, OnOk, IfOk, IfErr, IfSome, Some};
ghost use Rattle.std.specs.Io.KnownBytes.{IsAtEnd};
ghost use Rattle.arrow_spec.specs.Words.{bytes_of_hex};
ghost use Rattle.hex_input.specs.Decoding.{Follows, no_white};
ghost use Rattle.ipc_tool.specs.Input.{ReadCause, HexCause};

use crate::refusal::Refusal;
use hex_input::Decoder;
use ipc_io::Feed;
use std::alloc::{AllocError, Global};

const MAX_INPUT: usize = 1 << 27;

/// The most bytes that are pulled at once.
const PIECE_BYTES: usize = 65_536;

/// Zeros into which a feed is pulled.
fn room(alloc: Global) -> Result<Vec<u8>, AllocError>
    ensures { IfOk result (λ room. 0 < length room.items) }
{
    vec![in alloc; 0u8; PIECE_BYTES]
}

/// Decodes a feed, which is read to its end in pieces.
fn decode_feed<I: Feed>(alloc: Global, input: &mut I, room: &mut [u8]) -> Result<Decoder, Refusal>
    requires { 0 < length room.old }
    ensures whole { IfOk result (λ decoder. IfSome (I.rest input.old) (λ text. (length text ≤ 2 ^ 27) × Follows decoder (no_white text))) }
    ensures at_end { OnOk result (IsAtEnd (I.rest input.new)) }
    ensures cause { IfErr result (λ e. ReadCause e (I.rest input.old) (I.rest input.new) (I.faults input.old) (I.faults input.new)) }
    ensures reads { I.faults input.old ≤ I.faults input.new }
{
    let mut decoder = Decoder::new(alloc);
    let mut taken = 0;
    'pieces: loop {
        let count = input.pull(room)?;
        if count == 0 {
            return Ok(decoder);
        }
        if count > MAX_INPUT - taken {
            return Err(Refusal::InputTooLong);
        }
        taken += count;
        decoder.add_text(&room[..count])?;
    }
}

/// The bytes of a hex text, without its white space. The feed is read to its end.
#[tactic(auto, unfolding(arrow_spec::specs::Words::bytes_of_hex))]
pub fn read_hex<I: Feed>(alloc: Global, input: &mut I) -> Result<Vec<u8>, Refusal>
    ensures bytes { IfOk result (λ bytes. IfSome (I.rest input.old) (λ text. bytes_of_hex text ≡ Some bytes.items)) }
    ensures at_end { OnOk result (IsAtEnd (I.rest input.new)) }
    ensures cause { IfErr result (λ e. HexCause e (I.rest input.old) (I.rest input.new) (I.faults input.old) (I.faults input.new)) }
    ensures reads { I.faults input.old ≤ I.faults input.new }
{
    let mut room = room(alloc)?;
    let decoder = decode_feed(alloc, input, room.as_mut_slice())?;
    match decoder.finish() {
        Some(bytes) => Ok(bytes),
        None => Err(Refusal::NotHex),
    }
}
