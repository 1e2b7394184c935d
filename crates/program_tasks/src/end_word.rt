//! The words that say when a run ends.

ghost use Rattle.std.specs.Prelude.{◌≡◌, None, Some, IfErr, IfOk};
ghost use Rattle.program_tasks.specs.Times.{end_said, IsNoEnd};

use crate::program_fault::ProgramFault;
use crate::times::time_named;
use crate::words::until_named;
use session_circle::NO_END;

/// When a run ends, as words say it.
#[derive(Clone, Copy, Debug, PartialEq, Eq)]
pub enum EndWord<'a> {
    /// At a moment, in nanoseconds from its beginning.
    Until(&'a str),
    /// After a length of time, as `1m30s`.
    For(&'a str),
    /// When nothing is left that a running queue comes to.
    ToEnd,
}

impl<'a> EndWord<'a> {
    /// The moment at which the run ends, in nanoseconds from its beginning: one that goes on to its end has the
    /// last that there is. A word that says no end is the fault.
    pub fn moment(self) -> Result<u64, ProgramFault<'a>>
        ensures said { IfOk result (λ n. Some n ≡ end_said self.entry) }
        ensures unsaid { IfErr result (λ e. (end_said self.entry ≡ None) × IsNoEnd self.entry e) }
    {
        match self {
            EndWord::Until(word) => until_named(word).ok_or(ProgramFault::NotAMoment(word)),
            EndWord::For(word) => time_named(word).ok_or(ProgramFault::NotATime(word)),
            EndWord::ToEnd => Ok(NO_END),
        }
    }
}
