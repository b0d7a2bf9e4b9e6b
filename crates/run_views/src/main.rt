//! Of Arrow files, whose hex text comes on standard input, what the accessors of lent views answer, chunk by chunk. A line says a batch's
//! number, rows and width, or a row of a column by its path: the column's number, then that of each child. Where a call refuses,
//! `refused` and the refusal's name. A line that begins with `==` is a title, which is printed: another file follows.
#![tactic(auto)]

mod chunks;
mod rows;

use chunks::show_chunks;
use std::alloc::AllocError;
use std::io::Read;
use std::process::ExitCode;

/// The digits of a line, without its white space, behind others.
fn push_digits(digits: &mut Vec<u8>, line: &[u8]) -> Result<(), AllocError> {
    for byte in line {
        if !byte.is_ascii_whitespace() {
            digits.push(*byte)?;
        }
    }
    Ok(())
}

/// The views of the file of some digits.
fn show_views(rt: &HostRuntime, digits: &[u8]) -> Result<(), &'static str> {
    let Ok(file) = hex::decode(rt.alloc(), digits) else {
        return Err("NotHex");
    };
    match show_chunks(rt, &file) {
        Ok(()) => Ok(()),
        Err(error) => Err(error.name()),
    }
}

/// Whether the file of some digits is refused, behind the lines of its views; no digits are no file.
fn is_refused(rt: &HostRuntime, digits: &[u8]) -> bool {
    if digits.is_empty() {
        return false;
    }
    match show_views(rt, digits) {
        Ok(()) => false,
        Err(name) => {
            let _ = println!(rt; "refused {name}");
            true
        }
    }
}

/// Whether one of the files of a text is refused.
fn is_one_refused(rt: &HostRuntime, text: &str) -> Result<bool, AllocError> {
    let mut digits = Vec::new(rt.alloc());
    let mut is_one = false;
    for line in text.lines() {
        if line.starts_with("==") {
            is_one = is_refused(rt, &digits) || is_one;
            digits.clear();
            let _ = println!(rt; "{line}");
        } else {
            push_digits(&mut digits, line.as_bytes())?;
        }
    }
    Ok(is_refused(rt, &digits) || is_one)
}

fn main(rt: HostRuntime) -> ExitCode {
    let mut text = String::new(rt.alloc());
    if rt.stdin().read_to_string(&mut text).is_err() {
        let _ = println!(rt; "refused ReadFault");
        return ExitCode::FAILURE;
    }
    match is_one_refused(&rt, &text) {
        Ok(false) => ExitCode::SUCCESS,
        Ok(true) => ExitCode::FAILURE,
        Err(_) => {
            let _ = println!(rt; "refused Memory");
            ExitCode::FAILURE
        }
    }
}
