//! How the program ends.

ghost use Rattle.std.specs.Prelude.{◌≡◌};
ghost use Rattle.byte_io.specs.Moved.{Took};
ghost use Rattle.program_tasks.specs.Program.{check_status, end_status, end_lines};

use crate::answer::CircleAnswer;
use crate::notes::Notes;
use crate::program_fault::{FaultLine, ProgramFault};
use crate::run_answer::RunAnswer;
use smf_check::CheckAnswer;

/// How the program ends where no fault came.
#[derive(Clone, Copy, Debug, PartialEq, Eq)]
pub enum Ended {
    /// It has done what its words ask for.
    Done,
    /// It has shown how it is used, with the status for that: 0 where help was asked for.
    Shown(u8),
    /// It has printed a circle, which is shut or open.
    Answered(CircleAnswer),
    /// It has run a session strictly.
    Judged(RunAnswer),
    /// It has checked files.
    Checked(CheckAnswer),
}

/// Ends the program: tells a fault in one line, and gives the status to end with.
pub fn finish<N: Notes>(ended: Result<Ended, ProgramFault<'_>>, notes: &mut N) -> u8
    ensures status { result ≡ end_status ended.entry }
    ensures told { Took N.HasTold notes.old (end_lines ended.entry) notes.new }
{
    match ended {
        Ok(Ended::Done) => 0,
        Ok(Ended::Shown(status)) => status,
        Ok(Ended::Answered(answer)) => answer.status(),
        Ok(Ended::Judged(answer)) => answer.status(),
        Ok(Ended::Checked(answer)) => status_of(answer),
        Err(fault) => {
            notes.tell(FaultLine(fault));
            fault.status()
        }
    }
}

/// The status where files were checked: 0 where each is whole, and 1 where one is not.
fn status_of(answer: CheckAnswer) -> u8
    ensures { result ≡ check_status answer }
{
    match answer {
        CheckAnswer::AllWhole => 0,
        CheckAnswer::SomeNot => 1,
    }
}
