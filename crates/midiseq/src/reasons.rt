//! The subcommands that may explain what was not done, with the reason why a path could not be read.

ghost use Rattle.std.specs.Prelude.{◌≡◌, ◌⊎◌, false, IfErr, IfOk};
ghost use Rattle.clap.specs.Matches.{found_of};
ghost use Rattle.midiseq.specs.Given.{RunsAsGiven, RecordsAsGiven};
ghost use Rattle.midiseq.specs.Refused.{IsOfSessionWords, IsOfRecordingWords, IsRunStopped, IsRecordStopped, IsToldAsAsked, IsToldOf};
ghost use Rattle.program_tasks.specs.Faults.{IsStuck};

use crate::sessions::{self, is_asked};
use byte_io::Sink;
use clap::ArgMatches;
use file_store::FileStore;
use program_tasks::{Ended, Notes, ProgramFault, ProgressLine, reasoned};
use std::alloc::Global;

/// Runs scripts as `sessions::run` does, and tells why a path could not be read where that is asked for. The progress
/// line goes before anything more is told.
pub(crate) fn run<'a, S: FileStore, W: Sink, N: Notes, R: Eprint>(
    alloc: Global,
    store: &S,
    found: &ArgMatches<'a>,
    out: &mut W,
    notes: &mut N,
    progress: &mut ProgressLine<'_, R>,
) -> Result<Ended, ProgramFault<'a>>
    requires { W.failed out.old ≡ false }
    ensures ran { IfOk result (RunsAsGiven S.IsOpened S.Reader.HasLeft S.CannotOpen S.Reader.failed
        S.IsStanding S.HasNames S.IsPlaced S.Writer.HasTaken S.AreApart W.HasTaken N.HasTold
        (found_of found.now) out.old out.new notes.old notes.new) }
    ensures fault { IfErr result (IsToldOf S.IsStanding (found_of found.now)
        (λ e. IsOfSessionWords (found_of found.now) e
        ⊎ IsRunStopped S.IsOpened S.Reader.HasLeft S.CannotOpen S.CannotList S.Reader.failed
        S.IsStanding S.HasNames S.AreOne S.IsPlaced S.Writer.HasTaken S.Writer.failed
        S.Writer.takes_some S.CannotPlace (IsStuck W.failed W.takes_some out.old out.new) N.HasTold
        (found_of found.now) notes.old notes.new e)) }
{
    let ended = sessions::run(alloc, store, found, out, notes, progress);
    progress.end();
    match ended {
        Ok(ended) => Ok(ended),
        Err(fault) => Err(told(store, found, fault)),
    }
}

/// Records scripts as `sessions::record` does, and tells why a path could not be read where that is asked for.
pub(crate) fn record<'a, S: FileStore, N: Notes>(
    alloc: Global,
    store: &S,
    found: &ArgMatches<'a>,
    notes: &mut N,
) -> Result<Ended, ProgramFault<'a>>
    ensures recorded { IfOk result (RecordsAsGiven S.IsOpened S.Reader.HasLeft S.CannotOpen
        S.Reader.failed S.IsStanding S.HasNames S.IsBegun S.Writer.HasTaken S.IsStored N.HasTold
        (found_of found.now) notes.old notes.new) }
    ensures fault { IfErr result (IsToldOf S.IsStanding (found_of found.now)
        (λ e. IsOfSessionWords (found_of found.now) e
        ⊎ (IsOfRecordingWords S.IsOpened S.Reader.HasLeft S.CannotOpen S.Reader.failed
        (found_of found.now) e
        ⊎ IsRecordStopped S.IsOpened S.Reader.HasLeft S.CannotOpen S.CannotList S.Reader.failed
        S.IsStanding S.HasNames S.AreOne S.IsBegun S.Writer.failed S.Writer.takes_some S.CannotBegin
        S.CannotStore N.HasTold (found_of found.now) notes.old notes.new e))) }
{
    match sessions::record(alloc, store, found, notes) {
        Ok(ended) => Ok(ended),
        Err(fault) => Err(told(store, found, fault)),
    }
}

/// The fault as it is told: with --explain and --strict that of a path that could not be read says what stands there.
fn told<'a, S: FileStore>(
    store: &S,
    found: &ArgMatches<'a>,
    fault: ProgramFault<'a>,
) -> ProgramFault<'a>
    ensures { IsToldAsAsked S.IsStanding (found_of found.now) fault.entry result }
{
    if is_asked(found) {
        reasoned(store, fault)
    } else {
        fault
    }
}
