//! The options of the commands and their words by place, as `clap` is told of them.
ghost use Rattle.ipc_words.specs.CommandLine.{append, columns, filter, limit, name, names, number, raw, target};
ghost use Rattle.ipc_words.specs.Commands.{IsArg};

use clap::{Arg, ArgAction};
use std::alloc::Global;

/// --columns LIST
pub(crate) fn columns_option<'a>(alloc: Global) -> Arg<'a>
    ensures { IsArg columns result }
{
    Arg::new(alloc, "columns")
        .long("columns")
        .value_name("LIST")
        .help("The numbers of the columns, joined by commas, from 0 on; all where it is absent")
}

/// --limit N
pub(crate) fn limit_option<'a>(alloc: Global) -> Arg<'a>
    ensures { IsArg limit result }
{
    Arg::new(alloc, "limit")
        .long("limit")
        .value_name("N")
        .help("The greatest number of rows; all where it is absent")
}

/// --raw
pub(crate) fn raw_flag<'a>(alloc: Global) -> Arg<'a>
    ensures { IsArg raw result }
{
    Arg::new(alloc, "raw")
        .long("raw")
        .action(ArgAction::SetTrue)
        .help("Puts the bytes as they are, and not as hex text")
}

/// --append
pub(crate) fn append_flag<'a>(alloc: Global) -> Arg<'a>
    ensures { IsArg append result }
{
    Arg::new(alloc, "append")
        .long("append")
        .action(ArgAction::SetTrue)
        .help("Appends the batches of a stream, which standard input has as hex text")
}

/// NAME, which may be absent
pub(crate) fn name_word<'a>(alloc: Global) -> Arg<'a>
    ensures { IsArg name result }
{
    Arg::new(alloc, "NAME").help(
        "The file; where it is absent or -, standard input is read, as hex text",
    )
}

/// NAME, once or more
pub(crate) fn names_words<'a>(alloc: Global) -> Arg<'a>
    ensures { IsArg names result }
{
    Arg::new(alloc, "NAME")
        .required(true)
        .action(ArgAction::Append)
        .help("The files, one or more, in the order of their batches")
}

/// FILTER
pub(crate) fn filter_word<'a>(alloc: Global) -> Arg<'a>
    ensures { IsArg filter result }
{
    Arg::new(alloc, "FILTER").required(true).help(
        "A column's number, one of = != < <= > >=, and a number, in one word",
    )
}

/// TARGET, with what it is told to be
pub(crate) fn target_word<'a>(alloc: Global, help: &'a str) -> Arg<'a>
    ensures { IsArg target result }
{
    Arg::new(alloc, "TARGET").required(true).help(help)
}

/// N
pub(crate) fn number_word<'a>(alloc: Global) -> Arg<'a>
    ensures { IsArg number result }
{
    Arg::new(alloc, "N").required(true).help(
        "The number that the rows are made from, from 0 to 18446744073709551615",
    )
}
