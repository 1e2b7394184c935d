//! What a closed circle of clients hears, whatever the others do.

use super::lines::At::{F, P};
use super::lines::Say::*;
use super::lines::{ALL, Lines, Part};
use super::logs::{Run, assert_bytes, assert_log, assert_logs, heard_by, port_0_of, ran, ran_of};
use super::sending::{FIRST_NOTE, LISTENER, SENDER};
use seq_engine::*;
use std::alloc::Global;
use std::process::Abort;
use std::test::Fail;

/// All hear what was worked out, and client 129 the same as of its circle alone.
fn assert_alone(rt: &impl Abort, alloc: Global, run: &Run, circle: &[u8]) -> Result<(), Fail> {
    let log = ran(rt, alloc, run)?;
    assert_logs(rt, alloc, &log, run.parts)?;
    assert_same(rt, alloc, &log, &ran_alone(rt, alloc, run, circle)?)
}

/// The log of what a circle says in a run, without the others.
fn ran_alone(rt: &impl Abort, alloc: Global, run: &Run, circle: &[u8]) -> Result<RunLog, Fail> {
    let mut lines = Lines::of(alloc, run.parts)?;
    lines.only(circle);
    ran_of(rt, alloc, lines.inputs(), run.until)
}

/// Client 129 hears the same of both, though less was said in the one.
fn assert_same(rt: &impl Abort, alloc: Global, log: &RunLog, alone: &RunLog) -> Result<(), Fail> {
    assert!(rt; alone.entries.len() < log.entries.len());
    assert_log(rt, alloc, log, 129, heard_by(alloc, alone, 129)?.as_str())?;
    let port = port_0_of(129)?;
    assert_bytes(rt, log, 129, alone.port_bytes(port)?.as_slice())
}

/// Client 129 has room for two messages, and takes one out between the third and the fourth. What finds no room is lost
/// and counted, and keeps nothing from client 130.
const INPUT_OVERFLOW: Run = Run {
    parts: &[
        Part {
            client: 128,
            says: &[
                (0, Open("a", 8, 8)),
                (0, Port(0, "out", 33)),
                (5, Bytes(0, b"\x90\x01\x40\x02\x40\x03\x40")),
                (7, Send(0, b"\x90\x04\x40")),
            ],
            log: "0 line 1 ok\n0 line 2 ok\n5 line 3 ok 3\n7 line 4 ok\n",
        },
        Part {
            client: 129,
            says: &[
                (0, Open("b", 2, 8)),
                (0, Port(0, "in", 66)),
                (0, Connect(P(128, 0), P(129, 0))),
                (6, Pools),
                (6, Receive(1)),
            ],
            log: "0 line 1 ok\n0 line 2 ok\n0 line 3 ok\n\
                5 port 0 90 01 40\n5 port 0 90 02 40\n\
                6 line 4 ok waiting 2 lost 1 used 0\n6 line 5 ok 1\ngot 5 port 0 90 01 40\n\
                7 port 0 90 04 40\n",
        },
        Part {
            client: 130,
            says: &[
                (0, Open("c", 8, 8)),
                (0, Port(0, "in", 66)),
                (0, Connect(P(128, 0), P(130, 0))),
            ],
            log: "0 line 1 ok\n0 line 2 ok\n0 line 3 ok\n\
                5 port 0 90 01 40\n5 port 0 90 02 40\n5 port 0 90 03 40\n7 port 0 90 04 40\n",
        },
    ],
    until: 10,
};

#[test]
fn input_overflow_alone(rt: HostRuntime) -> Result<(), Fail> {
    assert_alone(&rt, rt.alloc(), &INPUT_OVERFLOW, &[128, 129])
}

/// The first note, and client 131, which joins itself to its sender and is refused a filter that is missing.
const HOSTILE_THIRD_SCRIPT: Run = Run {
    parts: &[
        SENDER,
        LISTENER,
        Part {
            client: 131,
            says: &[
                (0, Open("x", 1, 1)),
                (1, Port(0, "in", 66)),
                (2, Connect(P(128, 0), P(131, 0))),
                (3, Connect(P(131, 0), F(131, 0))),
            ],
            log: "0 line 1 ok\n1 line 2 ok\n2 line 3 ok\n3 line 4 refused 9 NoDest\n\
                5 port 0 90 3C 40\n",
        },
    ],
    ..FIRST_NOTE
};

#[test]
fn hostile_third_script(rt: HostRuntime) -> Result<(), Fail> {
    assert_alone(&rt, rt.alloc(), &HOSTILE_THIRD_SCRIPT, &[128, 129])
}

/// Port 0 of client 128 allows no third client, its port 1 only its owner. Client 130 owns neither node. A refused
/// Disconnect leaves the subscription.
const THIRD_CLIENTS: Run = Run {
    parts: &[
        Part {
            client: 128,
            says: &[
                (0, Open("a", 8, 8)),
                (0, Port(0, "o", 161)),
                (0, Port(1, "o", 1)),
                (2, Connect(P(128, 1), P(129, 0))),
                (4, Bytes(1, b"\x90\x3C\x40")),
            ],
            log: "0 line 1 ok\n0 line 2 ok\n0 line 3 ok\n2 line 4 ok\n4 line 5 ok 1\n",
        },
        Part {
            client: 129,
            says: &[
                (0, Open("b", 8, 8)),
                (0, Port(0, "i", 66)),
                (1, Connect(P(128, 0), P(129, 0))),
                (1, Connect(P(128, 1), P(129, 0))),
                (3, Disconnect(P(128, 0), P(129, 0))),
                (3, Disconnect(P(128, 0), P(129, 0))),
            ],
            log: "0 line 1 ok\n0 line 2 ok\n1 line 3 ok\n1 line 4 refused 10 NotPermitted\n\
                3 line 5 ok\n3 line 6 refused 12 NotConnected\n4 port 0 90 3C 40\n",
        },
        Part {
            client: 130,
            says: &[
                (0, Open("c", 8, 8)),
                (0, Connect(P(128, 0), P(129, 0))),
                (3, Disconnect(P(128, 1), P(129, 0))),
            ],
            log: "0 line 1 ok\n0 line 2 refused 10 NotPermitted\n\
                3 line 3 refused 10 NotPermitted\n",
        },
    ],
    until: 10,
};

#[test]
fn third_clients_alone(rt: HostRuntime) -> Result<(), Fail> {
    assert_alone(&rt, rt.alloc(), &THIRD_CLIENTS, &[128, 129])
}

/// Two filters lead from one port to another, the one that raises notes joined to the source last and to the target
/// first. The copies come by the age of the first edge of their paths; a note that would be raised past 127 is dropped.
const COPIES_BY_EDGE_AGE: Run = Run {
    parts: &[COPIED_SENDER, COPIED_LISTENER],
    until: 10,
};

const COPIED_SENDER: Part = Part {
    client: 128,
    says: &[
        (0, Open("a", 8, 8)),
        (0, Port(0, "out", 33)),
        (0, Filter(0, ALL)),
        (0, Filter(1, FIFTH_UP)),
        (0, Connect(P(128, 0), F(128, 0))),
        (0, Connect(P(128, 0), F(128, 1))),
        (5, Bytes(0, b"\x90\x3C\x40")),
        (6, Bytes(0, b"\x7D\x40")),
    ],
    log: "0 line 1 ok\n0 line 2 ok\n0 line 3 ok\n0 line 4 ok\n0 line 5 ok\n0 line 6 ok\n\
        5 line 7 ok 1\n6 line 8 ok 1\n",
};

const FIFTH_UP: RuleArgs = RuleArgs { shift: 7, ..ALL };

const COPIED_LISTENER: Part = Part {
    client: 129,
    says: &[
        (0, Open("b", 8, 8)),
        (0, Port(0, "in", 66)),
        (1, Connect(F(128, 1), P(129, 0))),
        (1, Connect(F(128, 0), P(129, 0))),
    ],
    log: "0 line 1 ok\n0 line 2 ok\n1 line 3 ok\n1 line 4 ok\n\
        5 port 0 90 3C 40\n5 port 0 90 43 40\n6 port 0 90 7D 40\n",
};

/// Two filters between two clients, and client 131, which joins itself to one of them, floods itself and closes.
const NOISY_STRANGER: Run = Run {
    parts: &[
        COPIED_SENDER,
        COPIED_LISTENER,
        Part {
            client: 131,
            says: &[
                (0, Open("x", 1, 1)),
                (0, Port(0, "y", 99)),
                (0, Connect(F(128, 1), P(131, 0))),
                (0, Connect(P(131, 0), P(131, 0))),
                (0, Queue(0, 1, 1)),
                (0, Start(131, 0)),
                (0, Schedule(131, DueAt::Nanos(5), b"\xFE")),
                (5, Bytes(0, b"\xF6\xF6\xF6")),
                (6, Close),
            ],
            log: "0 line 1 ok\n0 line 2 ok\n0 line 3 ok\n0 line 4 ok\n0 line 5 ok\n0 line 6 ok\n\
                0 line 7 ok\n5 port 0 FE\n5 line 8 ok 3\n6 line 9 ok\n",
        },
    ],
    ..COPIES_BY_EDGE_AGE
};

#[test]
fn noisy_stranger(rt: HostRuntime) -> Result<(), Fail> {
    assert_alone(&rt, rt.alloc(), &NOISY_STRANGER, &[128, 129])
}

/// Client 128 shares a queue, until it deletes it.
const SHARING_OWNER: Part = Part {
    client: 128,
    says: &[
        (0, Open("a", 8, 8)),
        (0, Queue(0, 480, 500_000)),
        (0, Share(128, 0)),
        (10, Start(128, 0)),
        (60, DeleteQueue(128, 0)),
    ],
    log: "0 line 1 ok\n0 line 2 ok\n0 line 3 ok\n10 line 4 ok\n60 line 5 ok\n",
};

const SHARED_LISTENER: Part = Part {
    client: 129,
    says: &[
        (0, Open("b", 8, 8)),
        (0, Port(0, "in", 66)),
        (1, Connect(P(130, 0), P(129, 0))),
    ],
    log: "0 line 1 ok\n0 line 2 ok\n1 line 3 ok\n30 port 0 90 01 40\n",
};

/// Client 130 sends by the queue.
const SHARED_GUEST: Part = Part {
    client: 130,
    says: &[
        (0, Open("c", 8, 2)),
        (0, Port(0, "out", 33)),
        (1, Schedule(128, DueAt::Nanos(20), b"\x90\x01\x40")),
        (1, Schedule(128, DueAt::Nanos(100), b"\x90\x02\x40")),
        (1, Status(128, 0)),
        (1, Start(128, 0)),
        (1, Status(128, 1)),
        (60, Pools),
        (61, Status(128, 0)),
    ],
    log: "0 line 1 ok\n0 line 2 ok\n1 line 3 ok\n1 line 4 ok\n1 line 5 ok stopped 0 0\n\
        1 line 6 refused 16 NotYours\n1 line 7 refused 16 NotYours\n\
        60 line 8 ok waiting 0 lost 0 used 0\n61 line 9 refused 16 NotYours\n",
};

/// A shared queue, and client 131, which fills itself by it and joins itself to the port that sends. The circle round
/// client 129 has the client that sends to it, and the one whose queue that uses.
const SHARED_QUEUE_STRANGER: Run = Run {
    parts: &[
        SHARING_OWNER,
        SHARED_LISTENER,
        SHARED_GUEST,
        Part {
            client: 131,
            says: &[
                (0, Open("x", 1, 2)),
                (0, Port(0, "y", 99)),
                (1, Connect(P(130, 0), P(131, 0))),
                (1, Connect(P(131, 0), P(131, 0))),
                (1, Schedule(128, DueAt::Nanos(20), b"\xFE")),
                (1, Schedule(128, DueAt::Nanos(70), b"\xFE")),
                (1, Start(128, 0)),
                (2, DeleteQueue(128, 0)),
                (61, Pools),
            ],
            log: "0 line 1 ok\n0 line 2 ok\n1 line 3 ok\n1 line 4 ok\n1 line 5 ok\n1 line 6 ok\n\
                1 line 7 refused 16 NotYours\n2 line 8 refused 16 NotYours\n\
                30 port 0 90 01 40\n61 line 9 ok waiting 1 lost 1 used 0\n",
        },
    ],
    until: 200,
};

#[test]
fn shared_queue_alone(rt: HostRuntime) -> Result<(), Fail> {
    assert_alone(&rt, rt.alloc(), &SHARED_QUEUE_STRANGER, &[128, 129, 130])
}
