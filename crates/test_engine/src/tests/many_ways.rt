//! Messages that go along many ways: their copies are counted, and the counts are kept.

use super::lines::At::{F, P};
use super::lines::Say::*;
use super::lines::{Lines, Part, RAISES};
use super::logs::{assert_logs, ran_of};
use seq_engine::*;
use std::alloc::Global;
use std::process::Abort;
use std::test::Fail;

/// What goes to a net: a note and a clock, the note again, with another velocity each time, and a note that is lower.
const SENDER: Part = Part {
    client: 128,
    says: &[
        (0, Open("a", 1, 1)),
        (0, Port(0, "out", 33)),
        (5, Bytes(0, b"\x90\x3C\x40")),
        (6, Bytes(0, b"\xF8")),
        (8, Bytes(0, b"\x90\x3C\x41")),
        (11, Bytes(0, b"\x90\x3C\x42")),
        (12, Bytes(0, b"\x90\x30\x40")),
    ],
    log: "0 line 1 ok\n0 line 2 ok\n5 line 3 ok 1\n6 line 4 ok 1\n8 line 5 ok 1\n\
        11 line 6 ok 1\n12 line 7 ok 1\n",
};

/// Twelve filters. Through one to seven of them lead 3,301 ways, and from each to two ports. The listener, who has room
/// for nine messages, takes two, and asks three times what was lost.
const TWELVE: &[Part] = &[
    SENDER,
    Part {
        client: 129,
        says: &[
            (0, Open("b", 9, 1)),
            (0, Port(0, "first", 66)),
            (0, Port(1, "last", 66)),
            (7, Pools),
            (9, Pools),
            (10, Receive(2)),
            (13, Pools),
        ],
        log: "0 line 1 ok\n0 line 2 ok\n0 line 3 ok\n\
            5 port 0 90 3D 40\n5 port 0 90 3E 40\n5 port 0 90 3F 40\n5 port 0 90 40 40\n5 port 0 90 41 40\n\
            5 port 0 90 42 40\n5 port 0 90 43 40\n5 port 1 90 43 40\n5 port 0 90 43 40\n\
            7 line 4 ok waiting 9 lost 13195 used 0\n9 line 5 ok waiting 9 lost 19797 used 0\n\
            10 line 6 ok 2\ngot 5 port 0 90 3D 40\ngot 5 port 0 90 3E 40\n\
            11 port 0 90 3D 42\n11 port 0 90 3E 42\n\
            13 line 7 ok waiting 9 lost 32999 used 0\n",
    },
];

/// Seven filters. Through them lead 127 ways, and from each to two ports: so few that they are walked where a copy
/// finds room.
const SEVEN: &[Part] = &[
    SENDER,
    Part {
        client: 129,
        says: &[
            (0, Open("b", 9, 1)),
            (0, Port(0, "first", 66)),
            (0, Port(1, "last", 66)),
            (7, Pools),
            (9, Pools),
            (10, Receive(2)),
            (13, Pools),
        ],
        log: "0 line 1 ok\n0 line 2 ok\n0 line 3 ok\n\
            5 port 0 90 3D 40\n5 port 0 90 3E 40\n5 port 0 90 3F 40\n5 port 0 90 40 40\n5 port 0 90 41 40\n\
            5 port 0 90 42 40\n5 port 0 90 43 40\n5 port 1 90 43 40\n5 port 1 90 42 40\n\
            7 line 4 ok waiting 9 lost 499 used 0\n9 line 5 ok waiting 9 lost 753 used 0\n\
            10 line 6 ok 2\ngot 5 port 0 90 3D 40\ngot 5 port 0 90 3E 40\n\
            11 port 0 90 3D 42\n11 port 0 90 3E 42\n\
            13 line 7 ok waiting 9 lost 1259 used 0\n",
    },
];

/// The net of client 130: each filter leads to the listener's first port, to the filters after it, and to the last.
fn add_net(lines: &mut Lines, filters: u8) -> Result<(), Fail> {
    lines.by(130);
    lines.say(0, Open("net", 1, 1))?;
    for at in 0..filters {
        lines.say(0, Filter(at, RAISES))?;
        lines.say(0, Connect(P(128, 0), F(130, at)))?;
    }
    for at in 0..filters {
        lines.say(0, Connect(F(130, at), P(129, 0)))?;
        for after in 0..filters {
            if after > at {
                lines.say(0, Connect(F(130, at), F(130, after)))?;
            }
        }
        lines.say(0, Connect(F(130, at), P(129, 1)))?;
    }
    Ok(())
}

/// What finds room comes in the order of the ways, and all else is counted as lost.
fn check(rt: &impl Abort, alloc: Global, filters: u8, parts: &'static [Part]) -> Result<(), Fail> {
    let mut lines = Lines::of(alloc, parts)?;
    add_net(&mut lines, filters)?;
    let log = ran_of(rt, alloc, lines.inputs(), 20)?;
    assert_logs(rt, alloc, &log, parts)
}

#[test]
fn more_ways_than_are_walked(rt: HostRuntime) -> Result<(), Fail> {
    check(&rt, rt.alloc(), 12, TWELVE)
}

#[test]
fn ways_that_are_counted_first(rt: HostRuntime) -> Result<(), Fail> {
    check(&rt, rt.alloc(), 7, SEVEN)
}
