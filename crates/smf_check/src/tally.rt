//! How many files have which verdict.

ghost use Rattle.std.specs.Prelude.{◌≡◌};
ghost use Rattle.smf_check.specs.Checking.{answer_by, no_verdicts, with_verdict};

use crate::answer::CheckAnswer;
use crate::verdict::Verdict;

/// How many files were found whole, damaged and not to be read. No count goes beyond 2^64 - 1.
#[derive(Clone, Copy, Debug, PartialEq, Eq)]
pub(crate) struct Tally {
    pub(crate) whole: u64,
    pub(crate) damaged: u64,
    pub(crate) unread: u64,
}

impl Tally {
    pub(crate) fn new() -> Tally
        ensures { result ≡ no_verdicts }
    {
        Tally {
            whole: 0,
            damaged: 0,
            unread: 0,
        }
    }

    /// Counts one file more.
    pub(crate) fn add(&mut self, verdict: Verdict)
        ensures { self.new ≡ with_verdict self.old verdict }
    {
        match verdict {
            Verdict::Whole | Verdict::Forgiven { .. } => {
                self.whole = self.whole.saturating_add(1)
            }
            Verdict::Damaged(_) => self.damaged = self.damaged.saturating_add(1),
            Verdict::Unread(_) => self.unread = self.unread.saturating_add(1),
        }
    }

    /// Whether no file was found damaged or not to be read.
    pub(crate) fn answer(&self) -> CheckAnswer
        ensures { result ≡ answer_by self.now }
    {
        if self.damaged == 0 && self.unread == 0 {
            CheckAnswer::AllWhole
        } else {
            CheckAnswer::SomeNot
        }
    }
}
