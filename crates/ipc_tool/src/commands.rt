//! The commands, each in a file of its own.
ghost use Rattle.std.specs.Prelude.{◌≡◌, [], IsFalse};
ghost use Rattle.ipc_words.specs.Views.{request_view};
ghost use Rattle.ipc_tool.specs.Commands.{LogSurvives, task_of};
ghost use Rattle.ipc_tool.specs.Outside.{outside_of};
ghost use Rattle.ipc_tool.specs.Tasks.{Does};

mod append;
mod cat;
mod csv;
mod file;
mod generate;
mod log;
mod rows;
mod scan;
mod schema;
mod stream;

use crate::file_job::of_file;
use crate::refusal::Refusal;
use append::append_input;
use cat::cat_files;
use generate::put_generated_line;
use ipc_io::{Feed, Sink};
use ipc_log_disk::VaultShelf;
use ipc_words::Request;
use log::log_target;
use rows::RowCount;
use schema::SchemaText;
use std::alloc::Global;

/// What a request asks for.
pub(crate) fn perform<H: VaultShelf, I: Feed, W: Sink>(
    alloc: Global,
    request: &Request<'_>,
    shelf: &mut H,
    input: &mut I,
    output: &mut W,
) -> Result<(), Refusal>
    ensures does { Does (task_of (request_view request.now)) result
        (outside_of H.held H.faults I.rest I.faults W.written W.faults W.wants shelf.old input.old output.old)
        (outside_of H.held H.faults I.rest I.faults W.written W.faults W.wants shelf.new input.new output.new) }
    ensures unread { IsFalse (task_of (request_view request.now)).reads → input.new ≡ input.old }
    ensures survives { LogSurvives (request_view request.now)
        (outside_of H.held H.faults I.rest I.faults W.written W.faults W.wants shelf.old input.old output.old) (H.left shelf.old) (H.left shelf.new) }
    ensures unopened { (task_of (request_view request.now)).opens ≡ [] → shelf.new ≡ shelf.old }
{
    match request {
        Request::Stream(stream) => of_file(alloc, shelf, input, output, stream, stream.name),
        Request::Schema(name) => of_file(alloc, shelf, input, output, &SchemaText, *name),
        Request::Rows(name) => of_file(alloc, shelf, input, output, &RowCount, *name),
        Request::Append(target) => append_input(alloc, shelf, input, output, *target),
        Request::Gen(seed) => put_generated_line(alloc, shelf, input, output, *seed),
        Request::Cat(cat) => cat_files(alloc, shelf, input, output, cat),
        Request::Log(log) => log_target(alloc, shelf, input, output, log),
        Request::Csv(csv) => of_file(alloc, shelf, input, output, csv, csv.name),
        Request::File(file) => of_file(alloc, shelf, input, output, file, file.name),
        Request::Scan(scan) => of_file(alloc, shelf, input, output, scan, scan.name),
    }
}
