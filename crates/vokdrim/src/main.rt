//! Of an Arrow file, by its name or as hex text on standard input, to standard output: a stream that means the same, as hex text or as its
//! bytes, the text of its schema, or how many rows it has. Or a stream, as hex text on standard input, whose record batches are appended to a
//! file by its name. Or the text of help or of the version.
#![tactic(auto)]

#[cfg(test)]
mod refusal_texts;

ghost use Rattle.std.specs.Process.{exit_status};
ghost use Rattle.ipc_tool.specs.CommandLine.{IsStatus};

use ipc_tool::status_of_process;
use std::alloc::AllocError;
use std::process::ExitCode;

/// The bytes of the block that is taken first.
const BLOCK_SIZE: usize = 4 << 20;

/// Takes a block and gives it back. The C library keeps free memory up to twice the largest block that it gave back to the system, so each
/// record batch stands in the memory of those before it, and no page is cleared anew. Where there is no such block nothing is lost.
fn keep_free_memory(rt: &HostRuntime) {
    let block: Result<Vec<u8>, AllocError> = Vec::with_capacity(rt.alloc(), BLOCK_SIZE);
    drop(block);
}

/// The exit code of the process.
fn exit_code(rt: &HostRuntime) -> ExitCode
    ensures { IsStatus (exit_status result) }
{
    ExitCode::from(status_of_process(rt))
}

fn main(rt: HostRuntime) -> ExitCode {
    keep_free_memory(&rt);
    exit_code(&rt)
}
