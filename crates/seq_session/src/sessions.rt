//! Sessions from the bytes of scripts to the bytes of logs.

ghost use Rattle.std.specs.Prelude.{◌≡◌, ◌⊎◌, true, false, map, length, IfOk, IfErr, IfSome, OnOk};
ghost use Rattle.std.specs.FinMap as finmap;
ghost use Rattle.seq_state.specs.State.{start};
ghost use Rattle.seq_state.specs.Step.{plain, state_after, IsTimed};
ghost use Rattle.seq_engine.specs.Ending.{listing_of};
ghost use Rattle.seq_engine.specs.Losses.{losses};
ghost use Rattle.seq_session.specs.AllLogs.{clients_read};
ghost use Rattle.seq_session.specs.Rising.{AreRising};
ghost use Rattle.seq_session.specs.Merging.{inputs_of};
ghost use Rattle.seq_session.specs.Sessions.{all_logs, listing_after, script_clients};
ghost use Rattle.seq_session.specs.Devices.{clients, AreSound, AreOpen, Wrote, IsSession, IsRun, IsRunOf};
ghost use Rattle.seq_session.specs.Streams.{logs_after, IsStoppedAt, IsStreamed, IsCutShort};
ghost use Rattle.seq_session.specs.Devices.{reader_blamed, log_blamed, blames_listing, has_read, IsAmong, IsReading, ReadersTell, IsTold, LogsTell};

use crate::fault::SessionFault;
use crate::logging::log_merged;
use crate::merged::Merged;
use crate::merging::merge;
use crate::named_files::NamedFiles;
use crate::parse::parse_all;
use crate::progress::Progress;
use crate::reading::read_all;
use crate::session_logs::SessionLogs;
use crate::session_run::SessionRun;
use crate::source::{Script, ScriptSource};
use crate::streaming::stream_merged;
use crate::writing::{write_listing, write_logs};
use agenda_heap::Agenda;
use byte_io::{Sink, Source};
use memory::{Items, OutOfMemory};
use seq_engine::{RunLog, run};
use std::alloc::Global;

/// Reads the script of each client, runs all of them together up to `until`, and writes each client's log, in the order
/// of the scripts, to a device while they run, many lines at once. It gives the listing at the end. `progress` is told
/// of each input, and of the end.
///
/// The numbers of the clients rise, `logs` are as many as the scripts, no device has failed, and the agenda is empty.
/// All scripts are read before anything is written; of one with more than `MOST_SCRIPT` bytes one byte more is read. A
/// reader that finds no memory is `Read`, a sink that finds none has failed, which is `Write`, and `OutOfMemory` is out
/// of memory anywhere else.
pub fn stream_sessions<'f, 'b, R: Source, W: Sink, A: Agenda + Drop, P: Progress>(
    alloc: Global,
    scripts: &mut [ScriptSource<R>],
    files: &NamedFiles<'f, 'b>,
    agenda: A,
    until: u64,
    logs: &mut [W],
    progress: &mut P,
) -> Result<Items<u8>, SessionFault>
    requires rising { AreRising (clients scripts.old) }
    requires as_many { length logs.old ≡ length scripts.old }
    requires readers { AreSound R.failed scripts.old }
    requires writers { AreOpen W.failed logs.old }
    requires empty { A.content agenda ≡ finmap.empty }

    // There are scripts, each what the calls of its reader gave, and each log has gained its text of the session of
    // just these, within each closed circle round its owner what it tells in the session of the circle alone.
    ensures streamed { IfOk result (IsStreamed R.HasLeft W.HasTaken files.now until
        scripts.old scripts.new logs.old logs.new) }

    // Before all is read nothing is written. After it, out of memory leaves all logs with what they say after one
    // turn of the session, and a write fault with what they say after one or, before the log that failed, another.
    ensures stopped { IfErr result (λ e. (IsReading e × (logs.new ≡ logs.old))
        ⊎ IsCutShort R.HasLeft W.HasTaken files.now until
        scripts.old scripts.new logs.old logs.new e) }

    // A device is blamed where it failed in this call, or is a sink that may take no byte, and wherever it failed.
    ensures clients { clients scripts.new ≡ clients scripts.old }
    ensures reader_marks { ReadersTell R.failed (reader_blamed result) scripts.new }
    ensures reader_blamed { IfSome (reader_blamed result) (λ k. IsAmong k (clients scripts.old)) }
    ensures log_marks { LogsTell W.failed W.takes_some (log_blamed result)
        (clients scripts.old) logs.new }
    ensures log_blamed { IfSome (log_blamed result) (λ k. IsAmong k (clients scripts.old)) }
{
    let mut told = Vec::new(alloc);
    read_all(alloc, scripts, &mut told)?;
    stream_told(alloc, told.as_slice(), files, agenda, until, logs, progress)
}

/// The same as `stream_sessions`, but that the logs, in the order of the scripts, and then the listing are written to
/// devices when the run is over.
///
/// The numbers of the clients rise, `logs` are as many as the scripts, no device has failed, and the
/// agenda is empty. All is read, and the texts of all logs and of the listing are made, before
/// anything is written. Of a script with more than `MOST_SCRIPT` bytes one byte more is read.
///
/// A sink that finds no memory has failed: that is `Write` or `WriteListing`. A reader that finds
/// none is `Read`. `OutOfMemory` is out of memory anywhere else.
pub fn run_sessions<'f, 'b, R: Source, W: Sink, A: Agenda + Drop>(
    alloc: Global,
    scripts: &mut [ScriptSource<R>],
    files: &NamedFiles<'f, 'b>,
    agenda: A,
    until: u64,
    logs: &mut [W],
    listing: &mut W,
) -> Result<(), SessionFault>
    requires rising { AreRising (clients scripts.old) }
    requires as_many { length logs.old ≡ length scripts.old }
    requires readers { AreSound R.failed scripts.old }
    requires writers { AreOpen W.failed logs.old }
    requires listing { W.failed listing.old ≡ false }
    requires empty { A.content agenda ≡ finmap.empty }

    // Once all is read, there are scripts, each what the calls of its reader gave, and what is written is that of the
    // session of just these: each log gains the client's log, and the listing its own at the end. Where a circle
    // of clients is closed round the owner of a log, what the log gains tells what it tells in the session of the
    // circle's scripts alone, whatever all others say. At a write fault the earlier logs are whole, that one has the
    // first part of its text, and nothing is written any more.
    ensures session { has_read result ≡ true → IsSession R.HasLeft W.HasTaken files.now until
        scripts.old scripts.new logs.old logs.new listing.old listing.new result }

    // Before all is read, and the texts are made, nothing is written.
    ensures unwritten { IfErr result (λ e. IsReading e
        → (logs.new ≡ logs.old) × (listing.new ≡ listing.old)) }

    // A device is blamed where it failed in this call, or is a sink that may take no byte, and wherever it failed.
    ensures clients { clients scripts.new ≡ clients scripts.old }
    ensures reader_marks { ReadersTell R.failed (reader_blamed result) scripts.new }
    ensures reader_blamed { IfSome (reader_blamed result) (λ k. IsAmong k (clients scripts.old)) }
    ensures log_marks { LogsTell W.failed W.takes_some (log_blamed result)
        (clients scripts.old) logs.new }
    ensures log_blamed { IfSome (log_blamed result) (λ k. IsAmong k (clients scripts.old)) }
    ensures listing_mark { IsTold (W.failed listing.new) (W.takes_some listing.new)
        (blames_listing result) }
{
    let mut told = Vec::new(alloc);
    read_all(alloc, scripts, &mut told)?;
    let texts = log_told(alloc, told.as_slice(), files, agenda, until)?;
    write_logs(told.as_slice(), logs, texts.logs.as_slice())?;
    write_listing(listing, texts.listing.as_slice())
}

/// Reads the script of each client and runs all of them together up to `until`, without writing their logs.
///
/// The numbers of the clients rise, no device has failed, and the agenda is empty. A reader that finds no memory is
/// `Read`; `OutOfMemory` is out of memory anywhere else.
pub fn run_scripts<'f, 'b, R: Source, A: Agenda + Drop>(
    alloc: Global,
    scripts: &mut [ScriptSource<R>],
    files: &NamedFiles<'f, 'b>,
    agenda: A,
    until: u64,
) -> Result<SessionRun, SessionFault>
    requires rising { AreRising (clients scripts.old) }
    requires readers { AreSound R.failed scripts.old }
    requires empty { A.content agenda ≡ finmap.empty }
    ensures run { IfOk result (λ run.
        IsRun R.HasLeft files.now until scripts.old scripts.new run) }
    ensures rising { IfOk result (λ run. AreRising (clients_read run.reads)) }
    ensures only { IfErr result IsReading }
    ensures clients { clients scripts.new ≡ clients scripts.old }
    ensures reader_marks { ReadersTell R.failed (reader_blamed result) scripts.new }
    ensures reader_blamed { IfSome (reader_blamed result) (λ k. IsAmong k (clients scripts.old)) }
{
    let mut told = Vec::new(alloc);
    read_all(alloc, scripts, &mut told)?;
    Ok(run_told(alloc, told, files, agenda, until)?)
}

/// Runs the scripts.
fn run_told<'f, 'b, A: Agenda + Drop>(
    alloc: Global,
    scripts: Vec<Script>,
    files: &NamedFiles<'f, 'b>,
    agenda: A,
    until: u64,
) -> Result<SessionRun, OutOfMemory>
    requires rising { AreRising (script_clients scripts.items) }
    requires empty { A.content agenda ≡ finmap.empty }
    ensures run { IfOk result (IsRunOf files.now until scripts.items) }
    ensures rising { IfOk result (λ run. AreRising (clients_read run.reads)) }
{
    let reads = parse_all(alloc, scripts.as_slice(), files, until)?;
    let merged = merge(alloc, reads.as_slice())?;
    let log = run_merged(alloc, files, agenda, &merged, until)?;
    Ok(SessionRun {
        scripts: Items::new(scripts),
        reads: Items::new(reads),
        merged,
        log,
    })
}

/// Runs the scripts, and makes their logs.
fn log_told<'f, 'b, A: Agenda + Drop>(
    alloc: Global,
    scripts: &[Script],
    files: &NamedFiles<'f, 'b>,
    agenda: A,
    until: u64,
) -> Result<SessionLogs, OutOfMemory>
    requires rising { AreRising (script_clients scripts.now) }
    requires empty { A.content agenda ≡ finmap.empty }
    ensures logs { IfOk result (λ s.
        map (λ l. l.items) s.logs ≡ all_logs files.now until scripts.now) }
    ensures listing { IfOk result (λ s. s.listing ≡ listing_after files.now until scripts.now) }
{
    let reads = parse_all(alloc, scripts, files, until)?;
    let merged = merge(alloc, reads.as_slice())?;
    log_merged(alloc, reads.as_slice(), &merged, files, agenda, until)
}

/// Runs the scripts, and writes their logs on the way.
fn stream_told<'f, 'b, W: Sink, A: Agenda + Drop, P: Progress>(
    alloc: Global,
    scripts: &[Script],
    files: &NamedFiles<'f, 'b>,
    agenda: A,
    until: u64,
    logs: &mut [W],
    progress: &mut P,
) -> Result<Items<u8>, SessionFault>
    requires rising { AreRising (script_clients scripts.now) }
    requires as_many { length logs.old ≡ length scripts.now }
    requires writers { AreOpen W.failed logs.old }
    requires empty { A.content agenda ≡ finmap.empty }
    ensures logs { OnOk result
        (Wrote W.HasTaken logs.old logs.new (all_logs files.now until scripts.now)) }
    ensures listing { IfOk result (λ listing.
        listing ≡ listing_after files.now until scripts.now) }
    ensures stopped { IfErr result (IsStoppedAt W.HasTaken
        (logs_after files.now until scripts.now) (script_clients scripts.now) logs.old logs.new) }
    ensures marks { LogsTell W.failed W.takes_some (log_blamed result)
        (script_clients scripts.now) logs.new }
    ensures blamed { IfSome (log_blamed result) (λ k. IsAmong k (script_clients scripts.now)) }
{
    let reads = parse_all(alloc, scripts, files, until)?;
    let merged = merge(alloc, reads.as_slice())?;
    stream_merged(
        alloc,
        scripts,
        reads.as_slice(),
        &merged,
        files,
        agenda,
        until,
        logs,
        progress,
    )
}

/// Runs the inputs of a session.
fn run_merged<'f, 'b, A: Agenda + Drop>(
    alloc: Global,
    files: &NamedFiles<'f, 'b>,
    agenda: A,
    merged: &Merged,
    until: u64,
) -> Result<RunLog, OutOfMemory>
    requires timed { IsTimed merged.now.inputs until }
    requires empty { A.content agenda ≡ finmap.empty }
    ensures plain { IfOk result (λ log.
        log.entries ≡ plain files.now.files merged.now.inputs until) }
    ensures listing { IfOk result (λ log.
        log.listing ≡ listing_of (state_after files.now.files start merged.now.inputs)) }
    ensures losses { IfOk result (λ log.
        log.losses ≡ losses files.now.files merged.now.inputs until) }
{
    match run(
        alloc,
        files.files(),
        agenda,
        merged.inputs.as_slice(),
        until,
    ) {
        Ok(log) => Ok(log),
        Err(_) => Err(OutOfMemory),
    }
}
