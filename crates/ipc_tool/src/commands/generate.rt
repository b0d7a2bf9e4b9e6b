//! gen N: one line on the table that is generated from a number.
ghost use Rattle.std.specs.Prelude.{◌≡◌, ◌≤◌, IfErr, OnOk};
ghost use Rattle.std.specs.Io.KnownBytes.{Appends};
ghost use Rattle.ipc_tool.specs.Commands.Gen.{LineRefused, generated_task};
ghost use Rattle.ipc_tool.specs.Outside.{outside_of};
ghost use Rattle.ipc_tool.specs.Tasks.{Does};

use crate::refusal::Refusal;
use ipc_disk::PlaceShelf;
use ipc_io::{Feed, Sink};
use ipc_round_trip::generated_line;
use std::alloc::Global;

fn put_line<W: Sink>(output: &mut W, text: &[u8]) -> Result<(), Refusal>
    ensures text { OnOk result (Appends (W.written output.old) (W.written output.new) text.now) }
    ensures refused { IfErr result (λ e. LineRefused e text.now (W.written output.old) (W.written output.new) (W.faults output.old) (W.faults output.new)) }
    ensures writes { W.faults output.old ≤ W.faults output.new }
{
    output.put(text)?;
    Ok(())
}

/// Puts one line on the file of the table that is generated from a number, on the stream that it becomes, and on what is read back.
pub(crate) fn put_generated_line<H: PlaceShelf, I: Feed, W: Sink>(
    alloc: Global,
    shelf: &mut H,
    input: &mut I,
    output: &mut W,
    seed: u64,
) -> Result<(), Refusal>
    ensures does { Does (generated_task seed) result
        (outside_of H.held H.faults I.rest I.faults W.written W.faults W.wants shelf.old input.old output.old)
        (outside_of H.held H.faults I.rest I.faults W.written W.faults W.wants shelf.new input.new output.new) }
    ensures unread { input.new ≡ input.old }
    ensures unopened { shelf.new ≡ shelf.old }
{
    let text = generated_line(alloc, seed)?;
    put_line(output, &text)
}
