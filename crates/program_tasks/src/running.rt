//! A session that is run from its files.

ghost use Rattle.std.specs.Prelude.{◌≡◌, IfErr, IfOk};
ghost use Rattle.seq_session.specs.AllLogs.{clients_read};
ghost use Rattle.seq_session.specs.Devices.{clients, AreSound};
ghost use Rattle.seq_session.specs.Rising.{AreRising};
ghost use Rattle.program_tasks.specs.Explained.{IsRunOfFiles};
ghost use Rattle.program_tasks.specs.Faults.{IsOfScripts};
ghost use Rattle.program_tasks.specs.Printed.{AreLogsHeld, HoldingStopsAs, IsSessionHeld};
ghost use Rattle.program_tasks.specs.Sessions.{owners};

use crate::held_log::{HeldLog, empty_logs};
use crate::program_fault::ProgramFault;
use crate::session::Session;
use agenda_heap::HeapAgenda;
use byte_io::Source;
use file_store::FileStore;
use memory::Items;
use seq_session::{NamedFiles, Progress, ScriptSource, SessionRun, run_scripts, stream_sessions};
use std::alloc::Global;

/// Opens the scripts of a session, and runs them.
pub(crate) fn run_session<'a, S: FileStore>(
    alloc: Global,
    store: &S,
    session: &Session<'a>,
    files: &NamedFiles<'_, '_>,
) -> Result<SessionRun, ProgramFault<'a>>
    requires { AreRising (owners session.now.scripts.items) }
    ensures run { IfOk result (IsRunOfFiles S.IsOpened S.Reader.HasLeft files.now
        session.now.until session.now.scripts.items) }
    ensures rising { IfOk result (λ run. AreRising (clients_read run.reads)) }
    ensures fault { IfErr result (IsOfScripts S.IsOpened S.Reader.HasLeft S.CannotOpen
        S.Reader.failed session.now.scripts.items) }
{
    let mut sources = session.open(alloc, store)?;
    let agenda = HeapAgenda::new(alloc);
    match run_scripts(alloc, sources.as_mut_slice(), files, agenda, session.until) {
        Ok(run) => Ok(run),
        Err(fault) => Err(session.fault_of(fault)),
    }
}

/// Logs that are held until they are printed, in the order of the scripts, and the listing at the end.
#[derive(Drop)]
pub(crate) struct HeldLogs {
    pub(crate) logs: Vec<HeldLog>,
    pub(crate) listing: Items<u8>,
}

/// Opens the scripts of a session, runs them, and holds their logs, to which many lines are added at once on the way.
pub(crate) fn hold_session<'a, S: FileStore, P: Progress>(
    alloc: Global,
    store: &S,
    session: &Session<'a>,
    files: &NamedFiles<'_, '_>,
    progress: &mut P,
) -> Result<HeldLogs, ProgramFault<'a>>
    requires { AreRising (owners session.now.scripts.items) }
    ensures held { IfOk result (IsSessionHeld S.IsOpened S.Reader.HasLeft files.now
        session.now.until session.now.scripts.items) }
    ensures fault { IfErr result (IsOfScripts S.IsOpened S.Reader.HasLeft S.CannotOpen
        S.Reader.failed session.now.scripts.items) }
{
    let mut sources = session.open(alloc, store)?;
    hold_from(alloc, session, files, sources.as_mut_slice(), progress)
}

/// Runs the scripts of these sources, and holds their logs.
// What owns the sources lends them, since there may be no memory for the logs.
fn hold_from<'a, R: Source, P: Progress>(
    alloc: Global,
    session: &Session<'a>,
    files: &NamedFiles<'_, '_>,
    sources: &mut [ScriptSource<R>],
    progress: &mut P,
) -> Result<HeldLogs, ProgramFault<'a>>
    requires rising { AreRising (owners session.now.scripts.items) }
    requires clients { clients sources.old ≡ owners session.now.scripts.items }
    requires readers { AreSound R.failed sources.old }
    ensures held { IfOk result (AreLogsHeld R.HasLeft files.now session.now.until
        sources.old sources.new) }
    ensures clients { clients sources.new ≡ clients sources.old }
    ensures stopped { IfErr result (HoldingStopsAs R.failed session.now.scripts.items sources.new) }
{
    let mut logs = empty_logs(alloc, sources.len())?;
    let agenda = HeapAgenda::new(alloc);
    match stream_sessions(
        alloc,
        sources,
        files,
        agenda,
        session.until,
        logs.as_mut_slice(),
        progress,
    ) {
        Ok(listing) => Ok(HeldLogs { logs, listing }),
        Err(fault) => Err(session.fault_of(fault)),
    }
}
