//! What is asked of the circles of a session, printed.

ghost use Rattle.std.specs.Prelude.{◌≡◌, ◌⊎◌, false, IfErr, IfOk};
ghost use Rattle.seq_session.specs.Rising.{AreRising};
ghost use Rattle.program_tasks.specs.Circles.{AreAnswersTold, IsCirclePrinted, IsOfTime, IsOfLines};
ghost use Rattle.program_tasks.specs.Faults.{IsOfScripts, IsOfOutput, IsStuck};
ghost use Rattle.program_tasks.specs.Sessions.{owners};

use crate::answer::{CircleAnswer, CircleTold};
use crate::choice::STANDARD;
use crate::circling::circle_told;
use crate::program_fault::ProgramFault;
use crate::question::CircleQuestion;
use crate::reading::read_scripts;
use crate::session::Session;
use crate::tabling::circles_told;
use byte_io::Sink;
use file_store::FileStore;
use seq_session::{NamedFiles, Script};
use std::alloc::Global;
use tool_text::send;

/// Reads the scripts of a session, and prints the circles that are asked for, in one piece. Before all is read nothing
/// is printed.
pub fn print_circle<'a, S: FileStore, W: Sink>(
    alloc: Global,
    store: &S,
    session: &Session<'a>,
    files: &NamedFiles<'_, '_>,
    question: CircleQuestion,
    out: &mut W,
) -> Result<CircleAnswer, ProgramFault<'a>>
    requires rising { AreRising (owners session.now.scripts.items) }
    requires sound { W.failed out.old ≡ false }
    ensures printed { IfOk result (λ answer. IsCirclePrinted S.IsOpened S.Reader.HasLeft
        W.HasTaken files.now session.now.until session.now.scripts.items question answer
        out.old out.new) }
    ensures fault { IfErr result (λ e.
        IsOfScripts S.IsOpened S.Reader.HasLeft S.CannotOpen S.Reader.failed
        session.now.scripts.items e
        ⊎ (IsOfTime S.IsOpened S.Reader.HasLeft files.now session.now.until
        session.now.scripts.items e
        ⊎ IsOfOutput (IsStuck W.failed W.takes_some out.old out.new) e)) }
{
    let scripts = read_scripts(alloc, store, session)?;
    let told = told(alloc, question, scripts.as_slice(), files, session.until)?;
    if send(out, told.text.as_slice()).is_err() {
        return Err(ProgramFault::CannotWrite(STANDARD));
    }
    Ok(told.answer)
}

/// The circles that are asked for, as text.
fn told(
    alloc: Global,
    question: CircleQuestion,
    scripts: &[Script],
    files: &NamedFiles<'_, '_>,
    until: u64,
) -> Result<CircleTold, ProgramFault<'static>>
    ensures told { IfOk result (λ t.
        AreAnswersTold files.now until scripts.now question t.answer t.text.items) }
    ensures fault { IfErr result (IsOfLines files.now until scripts.now) }
{
    match question {
        CircleQuestion::Of { owner, in_session } => {
            circle_told(alloc, owner, in_session, scripts, files, until)
        }
        CircleQuestion::OfAll => circles_told(alloc, scripts, files, until),
    }
}
