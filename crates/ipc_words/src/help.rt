//! The texts of help and of the version.
ghost use Rattle.std.specs.Prelude.{◌≡◌, ℕ, IfOk, is_some, option_map, true, false};
ghost use Rattle.clap.specs.Words.{kind_of};
ghost use Rattle.ipc_words.specs.Help.{asks_for_help, is_help};
ghost use Rattle.ipc_words.specs.Views.{texts};

use crate::commands::program;
use clap::Error;
use clap::error::ErrorKind;
use std::alloc::{AllocError, Global};

/// What stands behind the commands: how a file gets in, and the statuses.
pub(crate) fn statuses() -> &'static str {
    "\
A file is given by its NAME, or on standard input as hex text: xxd -p FILE | vokdrim stream

The status is 0 where all was written. Each other one has a line on standard error, as: refused 17 NoName
   1  OutOfSpec, by its kind     the bytes are not as the format says
   2  Unsupported, by its name   a feature that is not supported
   3  TooDeep                    fields that are nested too deep
   4  TooMany                    too many fields, pairs or dictionaries
   5  Projection                 a number of LIST or FILTER is no column, or one of LIST stands there twice
   6  TooLarge                   what is written would pass a limit of the format
   7  SchemaMismatch             fields that are not the same
   8  DictionaryReplaced         other values under the id of a dictionary
   9  NotRepresentable           a key or a type that the format does not carry
  10  State                      a call out of turn
  11  ReadFault                  reading failed, or opening
  12  WriteFault                 writing failed
  13  Memory                     want of memory
  14  Words                      the words are no request
  15  NotHex                     the input is no hex text
  16  InputTooLong               the input has more than 134,217,728 bytes
  17  NoName                     nothing stands under the name"
}

fn shows_text(kind: ErrorKind) -> bool
    ensures { result ≡ is_help kind }
{
    match kind {
        ErrorKind::DisplayHelp | ErrorKind::DisplayVersion => true,
        _ => false,
    }
}

// The text of an error, where it is help or the version.
fn text_of(alloc: Global, error: &Error) -> Result<Option<String>, AllocError>
    ensures { IfOk result (λ text. (is_some text ≡ is_help (kind_of error.now)) × (kind_of error.now ≡ ErrorKind.OutOfMemory → ⊥)) }
{
    if error.kind() == ErrorKind::OutOfMemory {
        return Err(AllocError);
    }
    if shows_text(error.kind()) {
        let text = error.to_string(alloc)?;
        return Ok(Some(text));
    }
    Ok(None)
}

/// The text that the words ask for, where they ask for help or for the version. `clap` states nothing of the text itself.
pub fn help_text(alloc: Global, words: &[&str]) -> Result<Option<String>, AllocError>
    ensures { IfOk result (λ text. is_some text ≡ asks_for_help (texts words.now)) }
{
    let command = program(alloc)?;
    match command.try_get_matches_from(words) {
        Ok(_) => Ok(None),
        Err(error) => text_of(alloc, &error),
    }
}
