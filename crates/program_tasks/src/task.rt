//! A tool that is given its stream.

ghost use Rattle.std.specs.Prelude.{◌≡◌, false, IfErr, OnOk};
ghost use Rattle.program_tasks.specs.Faults.{IsStuck};
ghost use Rattle.program_tasks.specs.Tasks.{IsDone, IsToolFault};

use crate::choice::{Stream, Task};
use crate::program_fault::ProgramFault;
use byte_io::{Sink, Source};
use file_store::FileStore;
use std::alloc::Global;
use tool_text::ToolFault;

/// Does a task: opens its file, or takes standard input, and prints what the tool makes of it.
pub fn perform<'a, S: FileStore, I: Source, W: Sink>(
    alloc: Global,
    store: &S,
    task: Task<'a>,
    input: &mut I,
    out: &mut W,
) -> Result<(), ProgramFault<'a>>
    requires input_sound { I.failed input.old ≡ false }
    requires out_sound { W.failed out.old ≡ false }
    ensures done { OnOk result (IsDone S.IsOpened S.Reader.HasLeft I.HasLeft W.HasTaken
        task.entry input.old input.new out.old out.new) }
    ensures told { IfErr result (IsToolFault S.IsOpened S.CannotOpen S.Reader.HasLeft S.Reader.failed
        I.HasLeft I.failed (IsStuck W.failed W.takes_some out.old out.new)
        task.entry input.old input.new) }
{
    let done = match task.stream {
        Stream::Standard => task.tool.print(alloc, input, out),
        Stream::Path(path) => match store.open(path) {
            Ok(mut file) => task.tool.print(alloc, &mut file, out),
            Err(_) => Err(ToolFault::Read),
        },
    };
    match done {
        Ok(()) => Ok(()),
        Err(fault) => Err(ProgramFault::of_tool(task.stream, fault)),
    }
}
