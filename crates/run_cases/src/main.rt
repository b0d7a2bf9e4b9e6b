//! Runs the cases of the files that its words name, one after another: those of the program, its readers and its devices; those of values,
//! in `values`; and those of writers and readers of messages, in `messages`. Bytes under names of the first stay known in the next ones.
#![tactic(auto)]

mod asked;
mod attempts;
mod calls;
mod crashes;
mod cuts;
mod endless;
mod groups;
mod readers;
mod runs;
mod shown;
mod streams;

use calls::Calls;
use device_words::run_files;
use run_messages::Messages;
use run_values::Values;
use std::process::ExitCode;

fn main(rt: HostRuntime) -> ExitCode {
    let are_runs_right = run_files::<Calls>(&rt, "");
    let are_values_right = run_files::<Values>(&rt, "values");
    let are_messages_right = run_files::<Messages>(&rt, "messages");
    if are_runs_right && are_values_right && are_messages_right {
        ExitCode::SUCCESS
    } else {
        ExitCode::FAILURE
    }
}
