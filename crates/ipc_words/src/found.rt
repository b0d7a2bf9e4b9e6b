//! What `clap` found of a command's own words.
ghost use Rattle.std.specs.Prelude.{◌≡◌, ◌<◌, IfOk, IfErr, Some, None, length, option_map};
ghost use Rattle.clap.specs.Walk.{all_of, first_of, rows_of};
ghost use Rattle.clap.specs.Words.{found_of};
ghost use Rattle.ipc_words.specs.Requests.{columns_in, filter_in, is_on, limit_in, name_in, names_in, number_in, target_in};
ghost use Rattle.ipc_words.specs.Views.{lent_texts, numbers, text, texts};
ghost use Rattle.ipc_words.specs.declared.words_error.WordsError.TheVariants.{NoRequest};

use crate::filter_words::read_filter;
use crate::numbers::{read_decimal, read_numbers};
use crate::words_error::WordsError;
use clap::ArgMatches;
use filter_types::Filter;
use std::alloc::Global;

// The first value under an id.
fn text_in<'a>(found: &ArgMatches<'a>, id: &str) -> Option<&'a str>
    ensures { option_map text result ≡ first_of id.now (rows_of (found_of found.now)) }
{
    found.get_str(id)
}

// All values under an id.
fn texts_in<'f, 'a>(found: &'f ArgMatches<'a>, id: &str) -> Option<&'f [&'a str]>
    ensures { option_map lent_texts result ≡ all_of id.now (rows_of (found_of found.entry.now)) }
{
    found.get_strs(id)
}

/// Whether a flag was given.
pub(crate) fn is_flag_in(found: &ArgMatches<'_>, id: &str) -> bool
    ensures { result ≡ is_on id.now (rows_of (found_of found.now)) }
{
    match text_in(found, id) {
        Some(value) => value == "true",
        None => false,
    }
}

/// --columns LIST
pub(crate) fn read_columns(
    alloc: Global,
    found: &ArgMatches<'_>,
) -> Result<Option<Vec<usize>>, WordsError>
    ensures asked { IfOk result (λ r. columns_in (rows_of (found_of found.now)) ≡ Some (option_map numbers r)) }
    ensures refused { IfErr result (λ e. e ≡ NoRequest → columns_in (rows_of (found_of found.now)) ≡ None) }
{
    match text_in(found, "columns") {
        Some(text) => {
            let columns = read_numbers(alloc, text.as_bytes())?;
            Ok(Some(columns))
        }
        None => Ok(None),
    }
}

/// --limit N
pub(crate) fn read_limit(found: &ArgMatches<'_>) -> Result<Option<usize>, WordsError>
    ensures asked { IfOk result (λ r. limit_in (rows_of (found_of found.now)) ≡ Some r) }
    ensures refused { IfErr result (λ e. e ≡ NoRequest → limit_in (rows_of (found_of found.now)) ≡ None) }
{
    match text_in(found, "limit") {
        Some(text) => match read_decimal(text.as_bytes()) {
            Some(limit) => Ok(Some(limit as usize)),
            None => Err(WordsError::NoRequest),
        },
        None => Ok(None),
    }
}

/// N
pub(crate) fn read_number(found: &ArgMatches<'_>) -> Result<u64, WordsError>
    ensures asked { IfOk result (λ r. number_in (rows_of (found_of found.now)) ≡ Some r) }
    ensures refused { IfErr result (λ e. e ≡ NoRequest → number_in (rows_of (found_of found.now)) ≡ None) }
{
    match text_in(found, "N") {
        Some(text) => match read_decimal(text.as_bytes()) {
            Some(number) => Ok(number),
            None => Err(WordsError::NoRequest),
        },
        None => Err(WordsError::NoRequest),
    }
}

/// FILTER
pub(crate) fn read_filter_word(found: &ArgMatches<'_>) -> Result<Filter, WordsError>
    ensures asked { IfOk result (λ r. filter_in (rows_of (found_of found.now)) ≡ Some r) }
    ensures refused { IfErr result (λ e. e ≡ NoRequest → filter_in (rows_of (found_of found.now)) ≡ None) }
{
    match text_in(found, "FILTER") {
        Some(text) => match read_filter(text.as_bytes()) {
            Some(filter) => Ok(filter),
            None => Err(WordsError::NoRequest),
        },
        None => Err(WordsError::NoRequest),
    }
}

/// TARGET
pub(crate) fn read_target<'a>(found: &ArgMatches<'a>) -> Result<&'a str, WordsError>
    ensures asked { IfOk result (λ r. target_in (rows_of (found_of found.now)) ≡ Some (text r)) }
    ensures refused { IfErr result (λ e. e ≡ NoRequest → target_in (rows_of (found_of found.now)) ≡ None) }
{
    match text_in(found, "TARGET") {
        Some(target) => Ok(target),
        None => Err(WordsError::NoRequest),
    }
}

/// [NAME], where `-` stands for the input.
pub(crate) fn read_name<'a>(found: &ArgMatches<'a>) -> Option<&'a str>
    ensures { option_map text result ≡ name_in (rows_of (found_of found.now)) }
{
    let name = text_in(found, "NAME")?;
    if name == "-" { None } else { Some(name) }
}

/// NAME..
pub(crate) fn read_names<'a>(
    alloc: Global,
    found: &ArgMatches<'a>,
) -> Result<Vec<&'a str>, WordsError>
    ensures asked { IfOk result (λ r. names_in (rows_of (found_of found.now)) ≡ Some (texts r.items)) }
    ensures some { IfOk result (λ r. 0 < length r.items) }
    ensures refused { IfErr result (λ e. e ≡ NoRequest → names_in (rows_of (found_of found.now)) ≡ None) }
{
    match texts_in(found, "NAME") {
        None | Some([]) => Err(WordsError::NoRequest),
        Some(names) => {
            let mut all = Vec::new(alloc);
            all.extend_from_slice(names)?;
            Ok(all)
        }
    }
}
