//! The circle round a client, or round each, whatever the end of the run.

ghost use Rattle.std.specs.Prelude.{◌≡◌, IfOk};
ghost use Rattle.session_circle.specs.EveryEnd.{line_back, first_back, AreForward};
ghost use Rattle.session_circle.specs.Found.{IsForEveryEnd, AreForEveryEnd, IsToldForEveryEnd};

use crate::circle::{SessionCircle, circle_of_readings};
use crate::table::{SessionCircles, circles_of_readings};
use memory::OutOfMemory;
use node_table::ClientId;
use seq_session::{NamedFiles, Script, ScriptRead, Skip, SkipReason, parse_all};
use std::alloc::Global;

/// The greatest end of a run, in nanoseconds: no line is past it.
pub const NO_END: u64 = 18_446_744_073_709_551_615;

/// What is found whatever the end of the run; or that there is no such thing, since scripts go back in time.
#[derive(Drop)]
pub enum EveryEnd<T> {
    /// No line goes back in time, and this is found in the session without an end.
    Found(T),
    /// The first line that goes back in time, of the first script that has one. Which of its lines are taken then hangs
    /// on the end.
    GoesBack { client: ClientId, line: u64 },
}

/// The first line that is skipped since it goes back in time.
fn line_back(skips: &[Skip]) -> Option<u64>
    ensures { result ≡ line_back skips.now }
{
    for skip in skips {
        if skip.why == SkipReason::Late {
            return Some(skip.line);
        }
    }
    None
}

/// The client of the first reading with a line that goes back in time, and that line.
fn first_back(reads: &[ScriptRead]) -> Option<(ClientId, u64)>
    ensures { result ≡ first_back reads.now }
{
    for read in reads {
        if let Some(line) = line_back(read.skips.as_slice()) {
            return Some((read.client, line));
        }
    }
    None
}

/// The readings of all scripts in the session without an end.
fn readings_forward(
    alloc: Global,
    scripts: &[Script],
    files: &NamedFiles<'_, '_>,
) -> Result<EveryEnd<Vec<ScriptRead>>, OutOfMemory>
    ensures { IfOk result (IsToldForEveryEnd files.now scripts.now
        (λ reads. AreForward files.now scripts.now reads.items)) }
{
    let reads = parse_all(alloc, scripts, files, NO_END)?;
    match first_back(reads.as_slice()) {
        Some((client, line)) => Ok(EveryEnd::GoesBack { client, line }),
        None => Ok(EveryEnd::Found(reads)),
    }
}

/// The least circle round a client, from the scripts of a session, and whether it is shut: of all ends of the run at
/// once. It asks that no line goes back in time, also none of a client outside the circle.
pub fn circle_for_every_end(
    alloc: Global,
    owner: ClientId,
    scripts: &[Script],
    files: &NamedFiles<'_, '_>,
) -> Result<EveryEnd<SessionCircle>, OutOfMemory>
    ensures { IfOk result (IsToldForEveryEnd files.now scripts.now
        (IsForEveryEnd files.now scripts.now owner)) }
{
    match readings_forward(alloc, scripts, files)? {
        EveryEnd::Found(reads) => {
            let found = circle_of_readings(alloc, owner, reads.as_slice())?;
            Ok(EveryEnd::Found(found))
        }
        EveryEnd::GoesBack { client, line } => Ok(EveryEnd::GoesBack { client, line }),
    }
}

/// The least circle round each client that has a script, and whether it is shut: of all ends of the run at once, as
/// `circle_for_every_end` says it of each.
pub fn circles_for_every_end(
    alloc: Global,
    scripts: &[Script],
    files: &NamedFiles<'_, '_>,
) -> Result<EveryEnd<SessionCircles>, OutOfMemory>
    ensures { IfOk result (IsToldForEveryEnd files.now scripts.now
        (AreForEveryEnd files.now scripts.now)) }
{
    match readings_forward(alloc, scripts, files)? {
        EveryEnd::Found(reads) => {
            let found = circles_of_readings(alloc, scripts, reads.as_slice())?;
            Ok(EveryEnd::Found(found))
        }
        EveryEnd::GoesBack { client, line } => Ok(EveryEnd::GoesBack { client, line }),
    }
}
