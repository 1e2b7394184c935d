//! Scripts as long as they may be, and longer.

ghost use Rattle.std.specs.Prelude.{◌≡◌};
ghost use Rattle.std.specs.FinMap as finmap;

use super::devices::Devices;
use super::sending::FIRST_NOTE;
use super::session::assert_text;
use super::strangers::{assert_among, run_plain};
use agenda_heap::{Agenda, HeapAgenda, SortedAgenda};
use std::alloc::Global;
use std::process::Abort;
use std::test::Fail;

/// The first note beside a script of client 131, which gets this log under both agendas. The
/// circle's logs are what they are without it.
fn assert_beside(rt: &impl Abort, alloc: Global, script: &[u8], log: &str) -> Result<(), Fail> {
    let mut circle = Devices::of(alloc, FIRST_NOTE.parts)?;
    let heap = HeapAgenda::new(alloc);
    run_plain(rt, alloc, &mut circle, heap, FIRST_NOTE.until)?;
    assert_run_beside(rt, alloc, script, HeapAgenda::new(alloc), log, &circle)?;
    assert_run_beside(rt, alloc, script, SortedAgenda::new(alloc), log, &circle)
}

/// The same under one agenda.
fn assert_run_beside<A: Agenda + Drop>(
    rt: &impl Abort,
    alloc: Global,
    script: &[u8],
    agenda: A,
    log: &str,
    circle: &Devices,
) -> Result<(), Fail>
    requires { A.content agenda ≡ finmap.empty }
{
    let mut devices = beside(alloc, script)?;
    run_plain(rt, alloc, &mut devices, agenda, FIRST_NOTE.until)?;
    assert_last(rt, &devices, log)?;
    assert_among(rt, circle, &devices)
}

fn beside(alloc: Global, script: &[u8]) -> Result<Devices, Fail> {
    let mut devices = Devices::of(alloc, FIRST_NOTE.parts)?;
    devices.add(alloc, 131, script)?;
    Ok(devices)
}

/// The last log is this.
fn assert_last(rt: &impl Abort, devices: &Devices, wanted: &str) -> Result<(), Fail> {
    let log = devices.logs.last().ok_or("a log")?;
    assert_text(rt, log.bytes(), wanted);
    Ok(())
}

/// So many line ends.
fn empty_lines(alloc: Global, count: usize) -> Result<Vec<u8>, Fail> {
    let mut script = Vec::new(alloc);
    script.resize(count, b'\n')?;
    Ok(script)
}

#[test]
fn script_of_full_size(rt: HostRuntime) -> Result<(), Fail> {
    let script = empty_lines(rt.alloc(), 1_048_576)?;
    assert_beside(&rt, rt.alloc(), script.as_slice(), "")
}

#[test]
fn script_that_is_too_long(rt: HostRuntime) -> Result<(), Fail> {
    let script = empty_lines(rt.alloc(), 1_048_577)?;
    assert_beside(&rt, rt.alloc(), script.as_slice(), "skip 0 too-long\n")
}

/// A script of full size, in which each line is refused.
#[test]
fn script_of_refused_lines(rt: HostRuntime) -> Result<(), Fail> {
    let alloc = rt.alloc();
    let mut script = Vec::new(alloc);
    let mut log = String::new(alloc);
    for line in 1..131_073 {
        script.extend_from_slice(b"0 pools\n")?;
        log.push_str(format!(in alloc; "0 line {line} refused 1 NotOpen\n")?.as_str())?;
    }
    assert_beside(&rt, alloc, script.as_slice(), log.as_str())
}
