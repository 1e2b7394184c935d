//! What a circle of clients hears beside a stranger.

ghost use Rattle.std.specs.Prelude.{◌≡◌};
ghost use Rattle.std.specs.FinMap as finmap;

use super::devices::Devices;
use super::patching::THIRD_CLIENTS;
use super::sending::{LISTENER, SENDER, TWO_COPIES, TWO_FILTERS};
use super::session::{Part, Session, assert_session};
use agenda_heap::{Agenda, HeapAgenda};
use seq_session::*;
use std::alloc::Global;
use std::process::Abort;
use std::test::Fail;

/// Two clients, a circle round each of them in the sessions below.
const CIRCLE: &[u8] = &[128, 129];

/// The logs of the circle are what they are in the session of its own scripts alone, byte for byte.
fn assert_alone(rt: &impl Abort, alloc: Global, session: &Session) -> Result<(), Fail> {
    let until = session.until;
    let mut all = Devices::of(alloc, session.parts)?;
    run_plain(rt, alloc, &mut all, HeapAgenda::new(alloc), until)?;
    let mut circle = Devices::of_circle(alloc, session.parts, CIRCLE)?;
    run_plain(rt, alloc, &mut circle, HeapAgenda::new(alloc), until)?;
    assert_among(rt, &circle, &all)
}

/// Runs a session without files.
pub fn run_plain<A: Agenda + Drop>(
    rt: &impl Abort,
    alloc: Global,
    devices: &mut Devices,
    agenda: A,
    until: u64,
) -> Result<(), Fail>
    requires { A.content agenda ≡ finmap.empty }
{
    let files = NamedFiles::new(&[], &[]).ok_or("no files")?;
    let fault = devices.run(alloc, &files, agenda, until)?;
    assert!(rt; fault.is_none());
    Ok(())
}

/// The logs of a circle are among all logs.
pub fn assert_among(rt: &impl Abort, circle: &Devices, all: &Devices) -> Result<(), Fail> {
    assert!(rt; circle.logs.len() == CIRCLE.len());
    for (source, log) in circle.scripts.iter().zip(circle.logs.iter()) {
        let among = all.log_of(source.client).ok_or("a log")?;
        assert!(rt; among == log.bytes());
    }
    Ok(())
}

/// The first note, and client 131, with lines that cannot be read, come late or after the end. It
/// joins itself to the sender.
pub const HOSTILE_THIRD_SCRIPT: Session = Session {
    parts: &[
        SENDER,
        LISTENER,
        Part {
            client: 131,
            script: "0 open x 1 1\n\
                zzz\n\
                1 port 0 in 66\n\
                0 close\n\
                2 connect 128:p0 131:p0\n\
                99 close\n\
                3 connect 131:p0 131:f0\n",
            log: "skip 2 unreadable\nskip 4 late\nskip 6 past-end\n\
                0 line 1 ok\n1 line 3 ok\n2 line 5 ok\n3 line 7 refused 9 NoDest\n\
                5 port 0 90 3C 40\n",
        },
    ],
    songs: &[],
    until: 10,
    listing: None,
};

#[test]
fn hostile_third_script(rt: HostRuntime) -> Result<(), Fail> {
    assert_session(&rt, rt.alloc(), &HOSTILE_THIRD_SCRIPT)?;
    assert_alone(&rt, rt.alloc(), &HOSTILE_THIRD_SCRIPT)
}

#[test]
fn third_clients_alone(rt: HostRuntime) -> Result<(), Fail> {
    assert_alone(&rt, rt.alloc(), &THIRD_CLIENTS)
}

/// Two filters between two clients, and client 131, which joins itself to one of them and to
/// itself, floods itself and closes.
const NOISY_STRANGER: Session = Session {
    parts: &[
        TWO_FILTERS,
        TWO_COPIES,
        Part {
            client: 131,
            script: "0 open x 1 1\n\
                0 port 0 y 99\n\
                0 connect 128:f1 131:p0\n\
                0 connect 131:p0 131:p0\n\
                0 queue 0 1 1\n\
                0 start 131:q0\n\
                0 schedule 131:q0 0 n5 FE\n\
                5 bytes 0 F6 F6 F6\n\
                6 close\n",
            log: "0 line 1 ok\n0 line 2 ok\n0 line 3 ok\n0 line 4 ok\n0 line 5 ok\n0 line 6 ok\n\
                0 line 7 ok\n5 port 0 FE\n5 line 8 ok 3\n6 line 9 ok\n",
        },
    ],
    songs: &[],
    until: 10,
    listing: None,
};

#[test]
fn noisy_stranger(rt: HostRuntime) -> Result<(), Fail> {
    assert_session(&rt, rt.alloc(), &NOISY_STRANGER)?;
    assert_alone(&rt, rt.alloc(), &NOISY_STRANGER)
}
