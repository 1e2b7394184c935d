//! Verdicts on files.

ghost use Rattle.std.specs.Prelude.{◌≡◌, false, map, IfErr, IfOk};
ghost use Rattle.program_tasks.specs.Checked.{AreFilesChecked, IsCheckingStopped};
ghost use Rattle.program_tasks.specs.Faults.{IsStuck};

use crate::choice::Stream;
use crate::program_fault::ProgramFault;
use byte_io::Sink;
use file_store::FileStore;
use smf_check::{CheckAnswer, check_files};
use std::alloc::Global;

/// Checks the files that words name, and those in the folders that they name, and prints a line for each, as
/// `check_files` does. Where `quiet` says so, only of those that are not whole; where `is_lenient` does, by the lenient
/// grammar.
pub fn check<S: FileStore, W: Sink>(
    alloc: Global,
    store: &S,
    words: &[&str],
    quiet: bool,
    is_lenient: bool,
    out: &mut W,
) -> Result<CheckAnswer, ProgramFault<'static>>
    requires { W.failed out.old ≡ false }
    ensures checked { IfOk result (λ answer. AreFilesChecked S.IsOpened S.Reader.HasLeft
        S.CannotOpen S.CannotList S.Reader.failed S.IsStanding S.HasNames W.HasTaken
        (map (λ w. w.now) words.now) quiet is_lenient answer out.old out.new) }
    ensures fault { IfErr result
        (IsCheckingStopped (IsStuck W.failed W.takes_some out.old out.new)) }
{
    match check_files(alloc, store, words, quiet, is_lenient, out) {
        Ok(answer) => Ok(answer),
        Err(fault) => Err(ProgramFault::of_tool(Stream::Standard, fault)),
    }
}
