//! The words of a call.
ghost use Rattle.std.specs.Prelude.{◌≡◌, ◌≢◌, IfOk, IfErr, Some, None};
ghost use Rattle.clap.specs.Words.{kind_of, subcommand_rows_of};
ghost use Rattle.ipc_words.specs.Requests.{asked, request_of};
ghost use Rattle.ipc_words.specs.Views.{request_view, texts};
ghost use Rattle.ipc_words.specs.declared.words_error.WordsError.TheVariants.{NoRequest};

use crate::commands::{program, read_command};
use crate::requests::Request;
use crate::words_error::WordsError;
use clap::error::ErrorKind;
use clap::{ArgMatches, Error};
use std::alloc::Global;

// Why a parse that failed gives no request.
fn refusal(error: &Error) -> WordsError
    ensures { result ≡ NoRequest → kind_of error.now ≢ ErrorKind.OutOfMemory }
{
    if error.kind() == ErrorKind::OutOfMemory {
        WordsError::Memory
    } else {
        WordsError::NoRequest
    }
}

// What a parse that passed asks for.
fn read_matches<'a>(alloc: Global, matches: &ArgMatches<'a>) -> Result<Request<'a>, WordsError>
    ensures asked { IfOk result (λ r. asked (subcommand_rows_of matches.now) ≡ Some (request_view r)) }
    ensures refused { IfErr result (λ e. e ≡ NoRequest → asked (subcommand_rows_of matches.now) ≡ None) }
{
    match matches.subcommand() {
        Some((name, found)) => read_command(alloc, name, found),
        None => Err(WordsError::NoRequest),
    }
}

/// What the words after the program's name ask for. They are refused as `NoRequest` only where they are no request.
pub fn read_words<'a>(alloc: Global, words: &'a [&'a str]) -> Result<Request<'a>, WordsError>
    ensures asked { IfOk result (λ r. request_of (texts words.entry.now) ≡ Some (request_view r)) }
    ensures refused { IfErr result (λ e. e ≡ NoRequest → request_of (texts words.entry.now) ≡ None) }
{
    let command = program(alloc)?;
    match command.try_get_matches_from(words) {
        Ok(matches) => read_matches(alloc, &matches),
        Err(error) => Err(refusal(&error)),
    }
}
