//! Messages that are sent at once.

use super::lines::At::P;
use super::lines::Say::*;
use super::lines::{Part, Say};
use super::logs::{Run, assert_bytes, assert_logs, ran};
use seq_engine::*;
use std::test::Fail;

/// One note, from one client to another.
pub const FIRST_NOTE: Run = Run {
    parts: &[SENDER, LISTENER],
    until: 10,
};

pub const SENDER: Part = Part {
    client: 128,
    says: &[
        (0, Open("a", 8, 8)),
        (0, Port(0, "out", 33)),
        (5, Bytes(0, b"\x90\x3C\x40")),
    ],
    log: "0 line 1 ok\n0 line 2 ok\n5 line 3 ok 1\n",
};

/// Client 129 subscribes to port 0 of client 128.
pub const LISTENS: &[(u64, Say)] = &[
    (0, Open("b", 8, 8)),
    (0, Port(0, "in", 66)),
    (0, Connect(P(128, 0), P(129, 0))),
];

pub const LISTENER: Part = Part {
    client: 129,
    says: LISTENS,
    log: "0 line 1 ok\n0 line 2 ok\n0 line 3 ok\n5 port 0 90 3C 40\n",
};

/// A run that always answers that it is out of memory fails here.
#[test]
fn first_note(rt: HostRuntime) -> Result<(), Fail> {
    let alloc = rt.alloc();
    let log = ran(&rt, alloc, &FIRST_NOTE)?;
    assert_logs(&rt, alloc, &log, FIRST_NOTE.parts)?;
    assert_bytes(&rt, &log, 129, b"\x90\x3C\x40")?;
    let listing =
        b"client 128 a in 8 out 8\nport 128:p0 out 33\nclient 129 b in 8 out 8\nport 129:p0 in 66\nedge 128:p0 129:p0\n";
    assert!(rt; log.listing.as_slice() == listing.as_slice());
    Ok(())
}
