//! The commands of the program: what `clap` is told of each, and what the words behind its name ask for.
ghost use Rattle.std.specs.Prelude.{◌≡◌, ◌∷◌, [], IfOk, IfErr, List, Some, None};
ghost use Rattle.clap.specs.Walk.{rows_of};
ghost use Rattle.clap.specs.Words.{found_of};
ghost use Rattle.ipc_words.specs.Commands.{HasCommands, IsCommand, Reads, asked_of};
ghost use Rattle.ipc_words.specs.Requests.{Entry, append_entry, asked_by, cat_entry, command_line, csv_entry, file_entry, gen_entry, log_entry, rows_entry, scan_entry, schema_entry, stream_entry};
ghost use Rattle.ipc_words.specs.Views.{request_view};
ghost use Rattle.ipc_words.specs.declared.words_error.WordsError.TheVariants.{NoRequest};

use crate::arguments::{
    append_flag, columns_option, filter_word, limit_option, name_word, names_words, number_word,
    raw_flag, target_word,
};
use crate::found::{
    is_flag_in, read_columns, read_filter_word, read_limit, read_name, read_names, read_number,
    read_target,
};
use crate::help::statuses;
use crate::requests::{Cat, Csv, File, Log, Request, Scan, Stream};
use crate::words_error::WordsError;
use clap::{ArgMatches, Command};
use std::alloc::{AllocError, Global};

fn stream_command<'a>(alloc: Global) -> Result<Command<'a>, AllocError>
    ensures { IfOk result (IsCommand stream_entry) }
{
    Command::new(alloc, "stream")
        .about("Writes a file as a stream")
        .arg(columns_option(alloc))?
        .arg(limit_option(alloc))?
        .arg(raw_flag(alloc))?
        .arg(name_word(alloc))
}

/// stream [--columns LIST] [--limit N] [--raw] [NAME]
pub(crate) fn read_stream<'a>(
    alloc: Global,
    found: &ArgMatches<'a>,
) -> Result<Request<'a>, WordsError>
    ensures asked { IfOk result (λ r. asked_of stream_entry found.now ≡ Some (request_view r)) }
    ensures refused { IfErr result (λ e. e ≡ NoRequest → asked_of stream_entry found.now ≡ None) }
{
    let columns = read_columns(alloc, found)?;
    let limit = read_limit(found)?;
    Ok(Request::Stream(Stream {
        columns,
        limit,
        raw: is_flag_in(found, "raw"),
        name: read_name(found),
    }))
}

fn schema_command<'a>(alloc: Global) -> Result<Command<'a>, AllocError>
    ensures { IfOk result (IsCommand schema_entry) }
{
    Command::new(alloc, "schema")
        .about("Prints the schema of a file")
        .arg(name_word(alloc))
}

/// schema [NAME]
pub(crate) fn read_schema<'a>(found: &ArgMatches<'a>) -> Request<'a>
    ensures { asked_of schema_entry found.now ≡ Some (request_view result) }
{
    Request::Schema(read_name(found))
}

fn rows_command<'a>(alloc: Global) -> Result<Command<'a>, AllocError>
    ensures { IfOk result (IsCommand rows_entry) }
{
    Command::new(alloc, "rows")
        .about("Prints how many rows a file has")
        .arg(name_word(alloc))
}

/// rows [NAME]
pub(crate) fn read_rows<'a>(found: &ArgMatches<'a>) -> Request<'a>
    ensures { asked_of rows_entry found.now ≡ Some (request_view result) }
{
    Request::Rows(read_name(found))
}

fn append_command<'a>(alloc: Global) -> Result<Command<'a>, AllocError>
    ensures { IfOk result (IsCommand append_entry) }
{
    Command::new(alloc, "append")
        .about("Appends the batches of a stream, which standard input has as hex text, to a file")
        .arg(target_word(alloc, "The file that is appended to"))
}

/// append TARGET
pub(crate) fn read_append<'a>(found: &ArgMatches<'a>) -> Result<Request<'a>, WordsError>
    ensures asked { IfOk result (λ r. asked_of append_entry found.now ≡ Some (request_view r)) }
    ensures refused { IfErr result (λ e. e ≡ NoRequest → asked_of append_entry found.now ≡ None) }
{
    Ok(Request::Append(read_target(found)?))
}

fn gen_command<'a>(alloc: Global) -> Result<Command<'a>, AllocError>
    ensures { IfOk result (IsCommand gen_entry) }
{
    Command::new(alloc, "gen")
        .about("Makes a file of 65,536 rows, reads it back as a stream, and prints their sizes")
        .arg(number_word(alloc))
}

/// gen N
pub(crate) fn read_gen<'a>(found: &ArgMatches<'a>) -> Result<Request<'a>, WordsError>
    ensures asked { IfOk result (λ r. asked_of gen_entry found.now ≡ Some (request_view r)) }
    ensures refused { IfErr result (λ e. e ≡ NoRequest → asked_of gen_entry found.now ≡ None) }
{
    Ok(Request::Gen(read_number(found)?))
}

fn cat_command<'a>(alloc: Global) -> Result<Command<'a>, AllocError>
    ensures { IfOk result (IsCommand cat_entry) }
{
    Command::new(alloc, "cat")
        .about("Writes files of one schema, one behind another, as one stream")
        .arg(raw_flag(alloc))?
        .arg(names_words(alloc))
}

/// cat [--raw] NAME..
pub(crate) fn read_cat<'a>(alloc: Global, found: &ArgMatches<'a>) -> Result<Request<'a>, WordsError>
    ensures asked { IfOk result (λ r. asked_of cat_entry found.now ≡ Some (request_view r)) }
    ensures refused { IfErr result (λ e. e ≡ NoRequest → asked_of cat_entry found.now ≡ None) }
{
    let names = read_names(alloc, found)?;
    Ok(Request::Cat(Cat {
        raw: is_flag_in(found, "raw"),
        names,
    }))
}

fn file_command<'a>(alloc: Global) -> Result<Command<'a>, AllocError>
    ensures { IfOk result (IsCommand file_entry) }
{
    Command::new(alloc, "file")
        .about("Writes a stream as a file")
        .arg(raw_flag(alloc))?
        .arg(name_word(alloc))
}

/// file [--raw] [NAME]
pub(crate) fn read_file<'a>(found: &ArgMatches<'a>) -> Request<'a>
    ensures { asked_of file_entry found.now ≡ Some (request_view result) }
{
    Request::File(File {
        raw: is_flag_in(found, "raw"),
        name: read_name(found),
    })
}

fn scan_command<'a>(alloc: Global) -> Result<Command<'a>, AllocError>
    ensures { IfOk result (IsCommand scan_entry) }
{
    Command::new(alloc, "scan")
        .about("Writes the rows of a file that pass a filter, as a stream")
        .arg(filter_word(alloc))?
        .arg(columns_option(alloc))?
        .arg(raw_flag(alloc))?
        .arg(name_word(alloc))
}

/// scan FILTER [--columns LIST] [--raw] [NAME]
pub(crate) fn read_scan<'a>(
    alloc: Global,
    found: &ArgMatches<'a>,
) -> Result<Request<'a>, WordsError>
    ensures asked { IfOk result (λ r. asked_of scan_entry found.now ≡ Some (request_view r)) }
    ensures refused { IfErr result (λ e. e ≡ NoRequest → asked_of scan_entry found.now ≡ None) }
{
    let filter = read_filter_word(found)?;
    let columns = read_columns(alloc, found)?;
    Ok(Request::Scan(Scan {
        filter,
        columns,
        raw: is_flag_in(found, "raw"),
        name: read_name(found),
    }))
}

fn csv_command<'a>(alloc: Global) -> Result<Command<'a>, AllocError>
    ensures { IfOk result (IsCommand csv_entry) }
{
    Command::new(alloc, "csv")
        .about("Prints the rows of a file as CSV")
        .arg(columns_option(alloc))?
        .arg(limit_option(alloc))?
        .arg(name_word(alloc))
}

/// csv [--columns LIST] [--limit N] [NAME]
pub(crate) fn read_csv<'a>(alloc: Global, found: &ArgMatches<'a>) -> Result<Request<'a>, WordsError>
    ensures asked { IfOk result (λ r. asked_of csv_entry found.now ≡ Some (request_view r)) }
    ensures refused { IfErr result (λ e. e ≡ NoRequest → asked_of csv_entry found.now ≡ None) }
{
    let columns = read_columns(alloc, found)?;
    let limit = read_limit(found)?;
    Ok(Request::Csv(Csv {
        columns,
        limit,
        name: read_name(found),
    }))
}

fn log_command<'a>(alloc: Global) -> Result<Command<'a>, AllocError>
    ensures { IfOk result (IsCommand log_entry) }
{
    Command::new(alloc, "log")
        .about("Writes the table of a crash-safe log as a stream, or appends to the log")
        .arg(append_flag(alloc))?
        .arg(raw_flag(alloc))?
        .arg(target_word(
            alloc,
            "The log, which --append makes where the file is empty",
        ))
}

/// log [--append] [--raw] TARGET
pub(crate) fn read_log<'a>(found: &ArgMatches<'a>) -> Result<Request<'a>, WordsError>
    ensures asked { IfOk result (λ r. asked_of log_entry found.now ≡ Some (request_view r)) }
    ensures refused { IfErr result (λ e. e ≡ NoRequest → asked_of log_entry found.now ≡ None) }
{
    let target = read_target(found)?;
    Ok(Request::Log(Log {
        appends: is_flag_in(found, "append"),
        raw: is_flag_in(found, "raw"),
        target,
    }))
}

// The program without commands.
fn bare_program<'a>(alloc: Global) -> Result<Command<'a>, AllocError>
    ensures { IfOk result (HasCommands []) }
{
    let program = Command::new(alloc, "vokdrim")
        .bin_name("vokdrim")?
        .about("Arrow files and streams")
        .after_help(statuses())
        .version("0.1.0")
        .no_binary_name(true)
        .disable_help_subcommand(true)
        .subcommand_required(true);
    Ok(program)
}

// The program with a command more.
fn with_command<'a>(
    program: Result<Command<'a>, AllocError>,
    command: Result<Command<'a>, AllocError>,
) -> Result<Command<'a>, AllocError>
    ensures { (es : List Entry) (e : Entry) → IfOk program.entry (HasCommands es) → IfOk command.entry (IsCommand e) → IfOk result (HasCommands (e ∷ es)) }
{
    program?.subcommand(command?)
}

/// The program's command line.
pub(crate) fn program<'a>(alloc: Global) -> Result<Command<'a>, AllocError>
    ensures { IfOk result (Reads command_line) }
{
    let mut program = bare_program(alloc);
    program = with_command(program, stream_command(alloc));
    program = with_command(program, schema_command(alloc));
    program = with_command(program, rows_command(alloc));
    program = with_command(program, append_command(alloc));
    program = with_command(program, gen_command(alloc));
    program = with_command(program, cat_command(alloc));
    program = with_command(program, file_command(alloc));
    program = with_command(program, scan_command(alloc));
    program = with_command(program, csv_command(alloc));
    program = with_command(program, log_command(alloc));
    program
}

/// What a command asks for, by its name and what was found of its own words.
pub(crate) fn read_command<'a>(
    alloc: Global,
    name: &str,
    found: &ArgMatches<'a>,
) -> Result<Request<'a>, WordsError>
    ensures asked { IfOk result (λ r. asked_by name.now (rows_of (found_of found.now)) ≡ Some (request_view r)) }
    ensures refused { IfErr result (λ e. e ≡ NoRequest → asked_by name.now (rows_of (found_of found.now)) ≡ None) }
{
    match name {
        "stream" => read_stream(alloc, found),
        "schema" => Ok(read_schema(found)),
        "rows" => Ok(read_rows(found)),
        "append" => read_append(found),
        "gen" => read_gen(found),
        "cat" => read_cat(alloc, found),
        "file" => Ok(read_file(found)),
        "scan" => read_scan(alloc, found),
        "csv" => read_csv(alloc, found),
        "log" => read_log(found),
        _ => Err(WordsError::NoRequest),
    }
}
