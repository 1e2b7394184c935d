//! A session run, and its logs printed.

ghost use Rattle.std.specs.Prelude.{◌≡◌, ◌⊎◌, false, map, IfErr, OnOk};
ghost use Rattle.byte_io.specs.Moved.{Took};
ghost use Rattle.seq_session.specs.Rising.{AreRising};
ghost use Rattle.program_tasks.specs.Faults.{IsOfMemory, IsOfScripts, IsOfOutput, IsStuck};
ghost use Rattle.program_tasks.specs.LogsPrinted.{listing_where, printed_in};
ghost use Rattle.program_tasks.specs.Printed.{IsSessionPrinted};
ghost use Rattle.program_tasks.specs.Sessions.{owners};

use crate::choice::STANDARD;
use crate::form_word::Printing;
use crate::formed::print_in;
use crate::held_log::HeldLog;
use crate::program_fault::ProgramFault;
use crate::running::hold_session;
use crate::session::Session;
use byte_io::Sink;
use file_store::FileStore;
use seq_session::{NamedFiles, Progress};
use std::alloc::Global;
use tool_text::ToolFault;

/// Runs the scripts of a session, and prints each client's log and, where `printing` says so, the listing at the end.
/// Before all is read and run nothing is printed. `progress` is told how far the run has come.
pub fn print_session<'a, S: FileStore, W: Sink, P: Progress>(
    alloc: Global,
    store: &S,
    session: &Session<'a>,
    files: &NamedFiles<'_, '_>,
    printing: Printing,
    out: &mut W,
    progress: &mut P,
) -> Result<(), ProgramFault<'a>>
    requires rising { AreRising (owners session.now.scripts.items) }
    requires sound { W.failed out.old ≡ false }
    ensures printed { OnOk result (IsSessionPrinted S.IsOpened S.Reader.HasLeft W.HasTaken
        files.now session.now.until printing session.now.scripts.items out.old out.new) }
    ensures fault { IfErr result (λ e.
        IsOfScripts S.IsOpened S.Reader.HasLeft S.CannotOpen S.Reader.failed
        session.now.scripts.items e
        ⊎ IsOfOutput (IsStuck W.failed W.takes_some out.old out.new) e) }
{
    let held = hold_session(alloc, store, session, files, progress)?;
    let logs = held.logs.as_slice();
    let listing = held.listing.as_slice();
    print_texts(alloc, session, logs, listing, printing, out)
}

/// Prints the log of each script's client, and the listing where `printing` says so.
pub(crate) fn print_texts<'a, W: Sink>(
    alloc: Global,
    session: &Session<'a>,
    logs: &[HeldLog],
    listing: &[u8],
    printing: Printing,
    out: &mut W,
) -> Result<(), ProgramFault<'a>>
    requires sound { W.failed out.old ≡ false }
    ensures printed { OnOk result (Took W.HasTaken out.old (printed_in printing.form
        session.now.scripts.items (map (λ l. l.taken) logs.now)
        (listing_where printing.listed listing.now)) out.new) }
    ensures fault { IfErr result (λ e. IsOfMemory e
        ⊎ IsOfOutput (IsStuck W.failed W.takes_some out.old out.new) e) }
{
    let listing = if printing.listed { Some(listing) } else { None };
    let scripts = session.scripts.as_slice();
    match print_in(alloc, printing.form, scripts, logs, listing, out) {
        Ok(()) => Ok(()),
        Err(ToolFault::OutOfMemory) => Err(ProgramFault::OutOfMemory),
        Err(_) => Err(ProgramFault::CannotWrite(STANDARD)),
    }
}
