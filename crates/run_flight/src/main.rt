//! Of an Arrow file, whose hex text comes on standard input, the messages that a flight hands over, framed one behind another and with the
//! end mark, as hex text: a stream that means the same. A body stands as it was handed over, with zeros up to a multiple of 8 bytes behind it
//! where its metadata counts them. Where a call refuses, `refused` and the refusal's name.
#![tactic(auto)]

mod messages;

use ipc_io::MemorySource;
use messages::messages_of;
use std::alloc::{AllocError, Global};
use std::io::Read;
use std::process::ExitCode;

/// A text without its white space.
fn digits_of(alloc: Global, text: &[u8]) -> Result<Vec<u8>, AllocError> {
    let mut digits = Vec::new(alloc);
    for byte in text {
        if !byte.is_ascii_whitespace() {
            digits.push(*byte)?;
        }
    }
    Ok(digits)
}

/// The hex digits of standard input.
fn digits(rt: &HostRuntime) -> Result<Vec<u8>, &'static str> {
    let mut text = Vec::new(rt.alloc());
    match rt.stdin().read_to_end(&mut text) {
        Ok(_) => match digits_of(rt.alloc(), &text) {
            Ok(digits) => Ok(digits),
            Err(_) => Err("Memory"),
        },
        Err(_) => Err("ReadFault"),
    }
}

/// The bytes of standard input's hex text.
fn input(rt: &HostRuntime) -> Result<Vec<u8>, &'static str> {
    let text = digits(rt)?;
    match hex::decode(rt.alloc(), text) {
        Ok(bytes) => Ok(bytes),
        Err(_) => Err("NotHex"),
    }
}

/// The hex text of a file's messages.
fn text_of(alloc: Global, file: Vec<u8>) -> Result<String, &'static str> {
    let mut source = MemorySource::new(file, Vec::new(alloc), Vec::new(alloc));
    match messages_of(alloc, &mut source) {
        Ok(messages) => match hex::encode(alloc, messages.as_slice()) {
            Ok(text) => Ok(text),
            Err(_) => Err("Memory"),
        },
        Err(error) => Err(error.name()),
    }
}

/// The hex text of the messages of the file on standard input.
fn output(rt: &HostRuntime) -> Result<String, &'static str> {
    let file = input(rt)?;
    text_of(rt.alloc(), file)
}

fn main(rt: HostRuntime) -> ExitCode {
    match output(&rt) {
        Ok(text) => {
            let _ = println!(rt; "{text}");
            ExitCode::SUCCESS
        }
        Err(name) => {
            let _ = println!(rt; "refused {name}");
            ExitCode::FAILURE
        }
    }
}
