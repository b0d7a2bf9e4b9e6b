//! A run from words to status.
ghost use Rattle.std.specs.Prelude.{◌≡◌, [], IfSome, IsFalse, MatchOption};
ghost use Rattle.ipc_words.specs.Requests.{request_of};
ghost use Rattle.ipc_words.specs.Views.{texts};
ghost use Rattle.ipc_tool.specs.Commands.{LogSurvives, task_of};
ghost use Rattle.ipc_tool.specs.Notes.{noted_of};
ghost use Rattle.ipc_tool.specs.Outside.{outside_of};
ghost use Rattle.ipc_tool.specs.Runs.{Answers, Ran};

use crate::commands::perform;
use crate::note::note_refusal;
use crate::refusal::Refusal;
use ipc_io::{Feed, Sink};
use ipc_log_disk::VaultShelf;
use ipc_words::read_words;
use std::alloc::Global;

// A run but for its notes.
fn work<H: VaultShelf, I: Feed, W: Sink>(
    alloc: Global,
    words: &[&str],
    shelf: &mut H,
    input: &mut I,
    output: &mut W,
) -> Result<(), Refusal>
    ensures answered { Answers (texts words.now) result
        (outside_of H.held H.faults I.rest I.faults W.written W.faults W.wants shelf.old input.old output.old)
        (outside_of H.held H.faults I.rest I.faults W.written W.faults W.wants shelf.new input.new output.new) }
    ensures unread { MatchOption (request_of (texts words.now)) (input.new ≡ input.old) (λ r. IsFalse (task_of r).reads → input.new ≡ input.old) }
    ensures survives { IfSome (request_of (texts words.now)) (λ r. LogSurvives r
        (outside_of H.held H.faults I.rest I.faults W.written W.faults W.wants shelf.old input.old output.old) (H.left shelf.old) (H.left shelf.new)) }
    ensures unopened { MatchOption (request_of (texts words.now)) (shelf.new ≡ shelf.old) (λ r. (task_of r).opens ≡ [] → shelf.new ≡ shelf.old) }
{
    let request = read_words(alloc, words)?;
    perform(alloc, &request, shelf, input, output)
}

/// Answers what the words ask for.
///
/// The file is what stands on the shelf under NAME, which is opened, and closed before the answer. Without NAME, or with `-`, it is what the input's hex text stands for, which is read to its end.
/// `stream` adds to the output one stream that means what the file means: its bytes with `--raw`, and else their hex text and a line feed. With `--columns` it has the columns of these numbers, in this order, and with `--limit` at most so many rows in all.
/// `schema` adds the text of the schema that the file's footer says, for columns of all types and in either byte order, as it is and in one put; `rows` adds the number of the file's rows, by its footer and the messages of its record batches, in decimal digits, and a line feed, likewise.
/// `append TARGET` appends the batches of the stream that the input's hex text stands for to the file that stands on the shelf under TARGET, which is opened, and closed before the number of batches is added, in decimal digits, and a line feed.
/// `cat NAME..` adds one stream of the files under the names, which are all opened before the first is read, and closed before the answer: the fields and pairs of the first, and the batches of all, in order; its bytes with `--raw`, and else their hex text and a line feed.
/// `scan FILTER` adds one stream of the rows in which a column's number meets FILTER, as `stream` does it, without the record batches that have none.
/// `log TARGET` adds one stream of the batches of the log that stands on the shelf under TARGET; its bytes with `--raw`, and else their hex text and a line feed. With `--append` it appends the batches of the stream that the input's hex text stands for to that log, which is begun with the stream's schema where TARGET has no bytes, each acknowledged before the next, and adds their number, in decimal digits, and a line feed. The log is closed before the answer.
/// Words that ask for help or the version are no request here.
/// The status is 0 then, and else that of a refusal, of which one line is noted: `refused`, the status, the name. What the notes answer changes nothing.
pub fn run<H: VaultShelf, I: Feed, W: Sink, N: Sink>(
    alloc: Global,
    words: &[&str],
    shelf: &mut H,
    input: &mut I,
    output: &mut W,
    notes: &mut N,
) -> u8
    // The words are refused, or they are a request whose task the answer does; the status is the answer's, and a refusal's line was noted.
    ensures ran { Ran result (texts words.now)
        (outside_of H.held H.faults I.rest I.faults W.written W.faults W.wants shelf.old input.old output.old)
        (outside_of H.held H.faults I.rest I.faults W.written W.faults W.wants shelf.new input.new output.new)
        (noted_of N.written N.faults N.wants notes.old)
        (noted_of N.written N.faults N.wants notes.new) }
    ensures quiet { result ≡ 0 → notes.new ≡ notes.old }

    // Words that are no request, and a request that does not read the input or opens no name, leave the input, and the shelf, as they were.
    ensures unread { MatchOption (request_of (texts words.now)) (input.new ≡ input.old) (λ r. IsFalse (task_of r).reads → input.new ≡ input.old) }
    ensures unopened { MatchOption (request_of (texts words.now)) (shelf.new ≡ shelf.old) (λ r. (task_of r).opens ≡ [] → shelf.new ≡ shelf.old) }

    // At no moment while a log is open a crash leaves anything but its table, or that with some of the appended batches.
    ensures survives { IfSome (request_of (texts words.now)) (λ r. LogSurvives r
        (outside_of H.held H.faults I.rest I.faults W.written W.faults W.wants shelf.old input.old output.old) (H.left shelf.old) (H.left shelf.new)) }
{
    match work(alloc, words, shelf, input, output) {
        Ok(()) => 0,
        Err(refusal) => {
            note_refusal(notes, &refusal);
            refusal.status()
        }
    }
}
