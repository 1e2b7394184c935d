//! A session run, its logs printed, and what there is to tell of it.

ghost use Rattle.std.specs.Prelude.{◌≡◌, ◌⊎◌, false, IfErr, IfOk};
ghost use Rattle.seq_session.specs.Rising.{AreRising};
ghost use Rattle.program_tasks.specs.Explained.{IsSessionExplained};
ghost use Rattle.program_tasks.specs.Faults.{IsOfScripts, IsOfOutput, IsStuck};
ghost use Rattle.program_tasks.specs.Sessions.{owners};

use crate::explanation::Explanation;
use crate::form_word::Printing;
use crate::held_log::held_of;
use crate::printing::print_texts;
use crate::program_fault::ProgramFault;
use crate::running::run_session;
use crate::session::Session;
use byte_io::Sink;
use file_store::FileStore;
use seq_session::NamedFiles;
use std::alloc::Global;

/// Runs the scripts of a session, and prints each client's log and, where asked for, the listing at the end, as
/// `print_session` does. It gives what the run did not do.
pub fn explain_session<'a, S: FileStore, W: Sink>(
    alloc: Global,
    store: &S,
    session: &Session<'a>,
    files: &NamedFiles<'_, '_>,
    printing: Printing,
    out: &mut W,
) -> Result<Explanation, ProgramFault<'a>>
    requires rising { AreRising (owners session.now.scripts.items) }
    requires sound { W.failed out.old ≡ false }
    ensures explained { IfOk result (λ x. IsSessionExplained S.IsOpened S.Reader.HasLeft W.HasTaken
        files.now session.now.until printing session.now.scripts.items x out.old out.new) }
    ensures fault { IfErr result (λ e.
        IsOfScripts S.IsOpened S.Reader.HasLeft S.CannotOpen S.Reader.failed
        session.now.scripts.items e
        ⊎ IsOfOutput (IsStuck W.failed W.takes_some out.old out.new) e) }
{
    let run = run_session(alloc, store, session, files)?;
    let explanation = Explanation::of_run(alloc, &run, &[])?;
    let texts = run.logs(alloc)?;
    let logs = held_of(alloc, texts)?;
    let listing = run.log.listing.as_slice();
    print_texts(alloc, session, logs.as_slice(), listing, printing, out)?;
    Ok(explanation)
}
