//! Uses of `arrow_ipc`, by words, of which one command may stand behind another:
//!
//! - `show`, as without any word, shows ten uses, of an Arrow file on standard input;
//! - `columns`, `dictionary`, `filter`, `grow`, `join`, `log`, `merge` and `scan` show uses of arrays and batches that are made in memory;
//! - `file-again FROM TO` and `stream-again FROM TO` write a file or a stream that they read, and `send FROM TO` a file as a stream;
//! - `look NAME` and `read NAME` count the rows of a file in memory, by views and by arrays, `sum-views NAME` and `sum-arrays NAME` add up its first column, and `load NAME` does neither;
//! - `write-file NAME BATCHES ROWS` and `write-stream NAME BATCHES ROWS` write numbers, and `append NAME BATCHES ROWS` behind the batches of a file;
//! - `read-log NAME BATCH COUNT` opens a log once, reads a batch by its number so many times, and prints the rows of all.
#![tactic(auto)]

mod again;
mod append_batch;
mod append_each;
mod by_name;
mod dictionary_file;
mod each_batch;
mod file_to_stream;
mod files_to_stream;
mod filter_stream;
mod flight;
mod lent;
mod log_batch;
mod log_service;
mod merge_streams;
mod numbers;
mod read_column;
mod read_stream;
mod scan_file;
mod show;
mod show_made;
mod sum_lent;
mod sums;
mod write_batch;
mod write_file;
mod write_stream;

use again::write_again;
use lent::count_file;
use log_batch::read_log;
use numbers::write_numbers;
use show::show_uses;
use show_made::show_use;
use std::env;
use std::process::ExitCode;

/// Writes a file or a stream again, by two names, and gives the words behind them.
fn do_again<'a>(
    rt: &HostRuntime,
    word: &str,
    words: &'a [String],
) -> Result<&'a [String], &'static str> {
    let [from, to, behind @ ..] = words else {
        return Err("two names");
    };
    write_again(rt, word, from, to)?;
    Ok(behind)
}

/// Counts what a word asks for of a file, by a name, and gives the words behind it.
fn do_count<'a>(
    rt: &HostRuntime,
    word: &str,
    words: &'a [String],
) -> Result<&'a [String], &'static str> {
    let [name, behind @ ..] = words else {
        return Err("a name");
    };
    count_file(rt, word, name)?;
    Ok(behind)
}

/// A number of the words.
fn number(text: &str) -> Result<u32, &'static str> {
    match text.parse::<u32>() {
        Ok(number) => Ok(number),
        Err(_) => Err("no number"),
    }
}

/// Writes numbers, by a name, a number of batches and one of rows, and gives the words behind them.
fn do_numbers<'a>(
    rt: &HostRuntime,
    word: &str,
    words: &'a [String],
) -> Result<&'a [String], &'static str> {
    let [name, batches, rows, behind @ ..] = words else {
        return Err("a name, a number of batches, and one of rows");
    };
    write_numbers(rt, word, name, number(batches)?, number(rows)?)?;
    Ok(behind)
}

/// Reads a batch of a log, by a name, the batch's number and how many times, and gives the words behind them.
fn do_log<'a>(rt: &HostRuntime, words: &'a [String]) -> Result<&'a [String], &'static str> {
    let [name, batch, count, behind @ ..] = words else {
        return Err("a name, the number of a batch, and how many times");
    };
    read_log(rt, name, number(batch)?, number(count)?)?;
    Ok(behind)
}

/// Does what a word asks for, and gives the words behind those that it takes.
fn do_word<'a>(
    rt: &HostRuntime,
    word: &str,
    words: &'a [String],
) -> Result<&'a [String], &'static str> {
    match word {
        "show" => {
            show_uses(rt)?;
            Ok(words)
        }
        "columns" | "dictionary" | "filter" | "grow" | "join" | "log" | "merge" | "scan" => {
            show_use(rt, word)?;
            Ok(words)
        }
        "file-again" | "stream-again" | "send" => do_again(rt, word, words),
        "load" | "look" | "read" | "sum-views" | "sum-arrays" => do_count(rt, word, words),
        "write-file" | "write-stream" | "append" => do_numbers(rt, word, words),
        "read-log" => do_log(rt, words),
        _ => Err("no such word"),
    }
}

/// Does what words ask for, one command after another.
fn do_words(rt: &HostRuntime, words: &[String]) -> Result<(), &'static str> {
    let mut left = words;
    for _ in 0..words.len() {
        match left {
            [] => return Ok(()),
            [word, behind @ ..] => left = do_word(rt, word, behind)?,
        }
    }
    Ok(())
}

fn run(rt: &HostRuntime) -> Result<(), &'static str> {
    let Ok(arguments) = env::args(rt) else {
        return Err("no words");
    };
    let Ok(words) = arguments.skip(1).collect::<Vec<String>>(rt.alloc()) else {
        return Err("no memory");
    };
    if words.is_empty() {
        return show_uses(rt);
    }
    do_words(rt, words.as_slice())
}

fn main(rt: HostRuntime) -> ExitCode {
    match run(&rt) {
        Ok(()) => ExitCode::SUCCESS,
        Err(reason) => {
            let _ = eprintln!(rt; "{reason}");
            ExitCode::FAILURE
        }
    }
}
