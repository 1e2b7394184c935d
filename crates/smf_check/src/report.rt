//! What a check prints, gathered and written piece by piece.

ghost use Rattle.std.specs.Prelude.{◌≡◌, ◌∷◌, [], ◌++◌, false, IfOk, IfErr, OnOk, OnErr};
ghost use Rattle.byte_io.specs.Marks.{SinkMarks};
ghost use Rattle.byte_io.specs.Moved.{Took};
ghost use Rattle.tool_text.specs.Faults.{blames_sink, IsOutput};
ghost use Rattle.tool_text.specs.Gathered.{TookFirst};
ghost use Rattle.smf_check.specs.Checks.{judged_text, shown_text};
ghost use Rattle.smf_check.specs.Checking.{answer_by, end_text, no_verdicts, tally_text, IsReported};

use crate::answer::CheckAnswer;
use crate::tally::Tally;
use crate::verdict::Verdict;
use byte_io::Sink;
use folder_files::Escaped;
use memory::OutOfMemory;
use std::alloc::Global;
use tool_text::{ToolFault, flush, spill};

/// The lines that are not yet written, and how many files have which verdict.
#[derive(Drop)]
pub(crate) struct Report {
    /// Whether files that are whole are passed over, and how many there are.
    pub(crate) quiet: bool,
    pub(crate) text: Vec<u8>,
    pub(crate) tally: Tally,
}

impl Report {
    pub(crate) fn new(alloc: Global, quiet: bool) -> Report
        ensures quiet { result.quiet ≡ quiet }
        ensures text { result.text.items ≡ [] }
        ensures tally { result.tally ≡ no_verdicts }
    {
        Report {
            quiet,
            text: Vec::new(alloc),
            tally: Tally::new(),
        }
    }

    /// Adds a file with its verdict.
    pub(crate) fn add<W: Sink>(
        &mut self,
        alloc: Global,
        path: &str,
        verdict: Verdict,
        out: &mut W,
    ) -> Result<(), ToolFault>
        requires { W.failed out.old ≡ false }
        ensures reported { OnOk result (IsReported W.HasTaken out.old out.new self.old self.new
            (record { path = path.now; verdict = verdict } ∷ [])) }
        ensures short { OnErr result (TookFirst W.HasTaken out.old (self.old.text.items
            ++ shown_text self.old.quiet (record { path = path.now; verdict = verdict } ∷ []))
            out.new) }
        ensures marks { SinkMarks W.failed W.takes_some out.old out.new (blames_sink result) }
        ensures only { IfErr result IsOutput }
    {
        self.tally.add(verdict);
        if self.quiet && verdict.is_whole() {
            return Ok(());
        }
        push_file(alloc, path, verdict, &mut self.text)?;
        spill(&mut self.text, out)
    }

    /// Writes what is gathered, and, unless it is quiet, how many files have which verdict.
    pub(crate) fn finish<W: Sink>(
        &mut self,
        alloc: Global,
        out: &mut W,
    ) -> Result<CheckAnswer, ToolFault>
        requires { W.failed out.old ≡ false }
        ensures taken { OnOk result (Took W.HasTaken out.old
            (self.old.text.items ++ end_text self.old.quiet self.old.tally) out.new) }
        ensures short { OnErr result (TookFirst W.HasTaken out.old
            (self.old.text.items ++ end_text self.old.quiet self.old.tally) out.new) }
        ensures answer { IfOk result (λ answer. answer ≡ answer_by self.old.tally) }
        ensures marks { SinkMarks W.failed W.takes_some out.old out.new (blames_sink result) }
        ensures only { IfErr result IsOutput }
    {
        if !self.quiet {
            push_tally(alloc, &self.tally, &mut self.text)?;
        }
        flush(&mut self.text, out)?;
        Ok(self.tally.answer())
    }
}

/// Adds the line of a file.
fn push_file(
    alloc: Global,
    path: &str,
    verdict: Verdict,
    text: &mut Vec<u8>,
) -> Result<(), OutOfMemory>
    ensures { OnOk result (text.new.items ≡ text.old.items
        ++ judged_text (record { path = path.now; verdict = verdict })) }
{
    let path = Escaped(path);
    text.extend_from_slice(format!(in alloc; "{path}: {verdict}\n")?.as_bytes())?;
    Ok(())
}

/// Adds the last line.
fn push_tally(alloc: Global, tally: &Tally, text: &mut Vec<u8>) -> Result<(), OutOfMemory>
    ensures { OnOk result (text.new.items ≡ text.old.items ++ tally_text tally.now) }
{
    let whole = tally.whole;
    let damaged = tally.damaged;
    let unread = tally.unread;
    let line = format!(in alloc; "ok {whole} damaged {damaged} unread {unread}\n")?;
    text.extend_from_slice(line.as_bytes())?;
    Ok(())
}
