//! A session run, and its logs written to files on the way.

ghost use Rattle.std.specs.Prelude.{◌≡◌, ◌⊎◌, false, length, IfErr, IfOk, OnOk};
ghost use Rattle.byte_io.specs.Moved.{Took};
ghost use Rattle.seq_session.specs.Devices.{clients, AreSound, AreOpen};
ghost use Rattle.seq_session.specs.Rising.{AreRising};
ghost use Rattle.seq_session.specs.Streams.{IsStreamed};
ghost use Rattle.program_tasks.specs.Faults.{IsOfScripts, IsOfOutput, IsStuck};
ghost use Rattle.program_tasks.specs.LogFiles.{listing_if, AreLogsApart, AreLogsWritten, IsSessionStreamed, IsOfReadLog, IsOfLogs, StreamStopsAs};
ghost use Rattle.program_tasks.specs.Opened.{AreSourcesOf};
ghost use Rattle.program_tasks.specs.Sessions.{owners};

use crate::choice::STANDARD;
use crate::log_folder::LogFolder;
use crate::program_fault::ProgramFault;
use crate::session::Session;
use agenda_heap::HeapAgenda;
use byte_io::{Sink, Source, write_all};
use file_store::FileStore;
use memory::Items;
use seq_session::{NamedFiles, Progress, ScriptSource, stream_sessions};
use std::alloc::Global;

/// Runs the scripts of a session, and writes each client's log to a file of the folder, many lines at once, while the
/// session runs. At the end, where `listed` says so, it prints the listing.
///
/// No log may be one of the scripts. Where a log cannot be written, or memory is refused, each log has what it says up
/// to one input, the same for all but where a write stopped in between. `progress` is told how far the session has
/// come.
pub fn stream_session<'a, S: FileStore, W: Sink, P: Progress>(
    alloc: Global,
    store: &S,
    session: &Session<'a>,
    files: &NamedFiles<'_, '_>,
    logs: &LogFolder<'a>,
    listed: bool,
    out: &mut W,
    progress: &mut P,
) -> Result<(), ProgramFault<'a>>
    requires rising { AreRising (owners session.now.scripts.items) }
    requires sound { W.failed out.old ≡ false }
    ensures streamed { OnOk result (IsSessionStreamed S.IsOpened S.Reader.HasLeft S.IsPlaced
        S.Writer.HasTaken W.HasTaken files.now session.now.until logs.now listed
        session.now.scripts.items out.old out.new) }
    ensures apart { OnOk result (AreLogsApart S.AreApart logs.now.path.now
        session.now.scripts.items session.now.scripts.items) }
    ensures fault { IfErr result (λ e.
        IsOfReadLog S.AreOne logs.now.path.now session.now.scripts.items e
        ⊎ (IsOfScripts S.IsOpened S.Reader.HasLeft S.CannotOpen S.Reader.failed
        session.now.scripts.items e
        ⊎ (IsOfLogs S.IsOpened S.Reader.HasLeft S.IsPlaced S.Writer.HasTaken S.Writer.failed
        S.Writer.takes_some S.CannotPlace files.now session.now.until logs.now
        session.now.scripts.items e
        ⊎ IsOfOutput (IsStuck W.failed W.takes_some out.old out.new) e))) }
{
    logs.keep_apart(
        alloc,
        store,
        session.scripts.as_slice(),
        session.scripts.as_slice(),
    )?;
    let listing = write_logs(alloc, store, session, files, logs, progress)?;
    print_listing(listing.as_slice(), listed, out)
}

/// Opens the scripts of a session, begins the logs, and runs it. It gives the listing at the end.
fn write_logs<'a, S: FileStore, P: Progress>(
    alloc: Global,
    store: &S,
    session: &Session<'a>,
    files: &NamedFiles<'_, '_>,
    logs: &LogFolder<'a>,
    progress: &mut P,
) -> Result<Items<u8>, ProgramFault<'a>>
    requires { AreRising (owners session.now.scripts.items) }
    ensures written { IfOk result (AreLogsWritten S.IsOpened S.Reader.HasLeft S.IsPlaced
        S.Writer.HasTaken files.now session.now.until logs.now session.now.scripts.items) }
    ensures fault { IfErr result (λ e.
        IsOfScripts S.IsOpened S.Reader.HasLeft S.CannotOpen S.Reader.failed
        session.now.scripts.items e
        ⊎ IsOfLogs S.IsOpened S.Reader.HasLeft S.IsPlaced S.Writer.HasTaken S.Writer.failed
        S.Writer.takes_some S.CannotPlace files.now session.now.until logs.now
        session.now.scripts.items e) }
{
    let mut sources = session.open(alloc, store)?;
    write_from(
        alloc,
        store,
        session,
        files,
        logs,
        sources.as_mut_slice(),
        progress,
    )
}

/// Begins the logs, and runs the scripts of these sources.
// What owns the sources lends them, since the logs may not be begun.
fn write_from<'a, S: FileStore, P: Progress>(
    alloc: Global,
    store: &S,
    session: &Session<'a>,
    files: &NamedFiles<'_, '_>,
    logs: &LogFolder<'a>,
    sources: &mut [ScriptSource<S::Reader>],
    progress: &mut P,
) -> Result<Items<u8>, ProgramFault<'a>>
    requires rising { AreRising (owners session.now.scripts.items) }
    requires opened { AreSourcesOf S.IsOpened session.now.scripts.items sources.old }
    requires clients { clients sources.old ≡ owners session.now.scripts.items }
    requires readers { AreSound S.Reader.failed sources.old }
    ensures written { IfOk result (AreLogsWritten S.IsOpened S.Reader.HasLeft S.IsPlaced
        S.Writer.HasTaken files.now session.now.until logs.now session.now.scripts.items) }
    ensures fault { IfErr result (λ e.
        IsOfScripts S.IsOpened S.Reader.HasLeft S.CannotOpen S.Reader.failed
        session.now.scripts.items e
        ⊎ IsOfLogs S.IsOpened S.Reader.HasLeft S.IsPlaced S.Writer.HasTaken S.Writer.failed
        S.Writer.takes_some S.CannotPlace files.now session.now.until logs.now
        session.now.scripts.items e) }
{
    let mut writers = Vec::new(alloc);
    logs.begin(alloc, store, session.scripts.as_slice(), &mut writers)?;
    stream_to(
        alloc,
        session,
        files,
        logs,
        sources,
        writers.as_mut_slice(),
        progress,
    )
}

/// Runs the scripts of these sources, and writes the logs to these writers.
fn stream_to<'a, R: Source, V: Sink, P: Progress>(
    alloc: Global,
    session: &Session<'a>,
    files: &NamedFiles<'_, '_>,
    logs: &LogFolder<'a>,
    sources: &mut [ScriptSource<R>],
    writers: &mut [V],
    progress: &mut P,
) -> Result<Items<u8>, ProgramFault<'a>>
    requires rising { AreRising (owners session.now.scripts.items) }
    requires clients { clients sources.old ≡ owners session.now.scripts.items }
    requires as_many { length writers.old ≡ length sources.old }
    requires readers { AreSound R.failed sources.old }
    requires writers { AreOpen V.failed writers.old }
    ensures streamed { IfOk result (IsStreamed R.HasLeft V.HasTaken files.now session.now.until
        sources.old sources.new writers.old writers.new) }
    ensures clients { clients sources.new ≡ clients sources.old }
    ensures stopped { IfErr result (StreamStopsAs R.HasLeft R.failed V.HasTaken V.failed
        V.takes_some files.now session.now.until logs.now.path.now session.now.scripts.items
        sources.old sources.new writers.old writers.new) }
{
    let agenda = HeapAgenda::new(alloc);
    let until = session.until;
    match stream_sessions(alloc, sources, files, agenda, until, writers, progress) {
        Ok(listing) => Ok(listing),
        Err(fault) => Err(logs.fault_of(session, fault)),
    }
}

/// Prints the listing, where `listed` says so.
fn print_listing<W: Sink>(
    listing: &[u8],
    listed: bool,
    out: &mut W,
) -> Result<(), ProgramFault<'static>>
    requires sound { W.failed out.old ≡ false }
    ensures printed { OnOk result
        (Took W.HasTaken out.old (listing_if listed listing.now) out.new) }
    ensures fault { IfErr result (IsOfOutput (IsStuck W.failed W.takes_some out.old out.new)) }
{
    if listed && write_all(out, listing).is_err() {
        return Err(ProgramFault::CannotWrite(STANDARD));
    }
    Ok(())
}
