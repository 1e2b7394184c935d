//! Clients, ports and subscriptions that go and come again.

use super::lines::At::P;
use super::lines::Part;
use super::lines::Say::*;
use super::logs::{Run, assert_bytes, assert_logs, assert_run, ran};
use seq_engine::*;
use std::test::Fail;

/// A third client joins and parts two nodes that allow it.
const A_THIRD_CLIENT_THAT_MAY: Run = Run {
    parts: &[
        Part {
            client: 128,
            says: &[
                (0, Open("a", 8, 8)),
                (0, Port(0, "out", 33)),
                (2, Bytes(0, b"\x90\x3C\x40")),
                (4, Bytes(0, b"\x90\x3E\x40")),
            ],
            log: "0 line 1 ok\n0 line 2 ok\n2 line 3 ok 1\n4 line 4 ok 1\n",
        },
        Part {
            client: 129,
            says: &[(0, Open("b", 8, 8)), (0, Port(0, "i", 66))],
            log: "0 line 1 ok\n0 line 2 ok\n2 port 0 90 3C 40\n",
        },
        Part {
            client: 130,
            says: &[
                (0, Open("c", 8, 8)),
                (1, Connect(P(128, 0), P(129, 0))),
                (3, Disconnect(P(128, 0), P(129, 0))),
            ],
            log: "0 line 1 ok\n1 line 2 ok\n3 line 3 ok\n",
        },
    ],
    until: 10,
};

#[test]
fn a_third_client_that_may(rt: HostRuntime) -> Result<(), Fail> {
    assert_run(&rt, rt.alloc(), &A_THIRD_CLIENT_THAT_MAY)
}

/// A port that is made again under its number begins with a new stream and no subscription. The client's other port is
/// left as it was.
const A_PORT_MADE_AGAIN: Run = Run {
    parts: &[
        Part {
            client: 128,
            says: &[
                (0, Open("a", 8, 8)),
                (0, Port(0, "out", 33)),
                (0, Port(1, "two", 33)),
                (1, Bytes(0, b"\x90\x3C")),
                (2, DeletePort(0)),
                (3, Bytes(0, b"\x40")),
                (3, DeletePort(0)),
                (4, Port(0, "out", 33)),
                (5, Bytes(0, b"\x40\x90\x3C\x40")),
                (6, Bytes(1, b"\x91\x3C\x40")),
            ],
            log: "0 line 1 ok\n0 line 2 ok\n0 line 3 ok\n1 line 4 ok 0\n2 line 5 ok\n\
                3 line 6 refused 7 NoNode\n3 line 7 refused 7 NoNode\n4 line 8 ok\n\
                5 line 9 ok 1\n6 line 10 ok 1\n",
        },
        Part {
            client: 129,
            says: &[
                (0, Open("b", 8, 8)),
                (0, Port(0, "in", 66)),
                (0, Connect(P(128, 0), P(129, 0))),
                (0, Connect(P(128, 1), P(129, 0))),
            ],
            log: "0 line 1 ok\n0 line 2 ok\n0 line 3 ok\n0 line 4 ok\n6 port 0 91 3C 40\n",
        },
    ],
    until: 10,
};

#[test]
fn a_port_made_again(rt: HostRuntime) -> Result<(), Fail> {
    let alloc = rt.alloc();
    let log = ran(&rt, alloc, &A_PORT_MADE_AGAIN)?;
    assert_logs(&rt, alloc, &log, A_PORT_MADE_AGAIN.parts)?;
    assert_bytes(&rt, &log, 129, b"\x91\x3C\x40")
}

/// A closed client hears and says nothing. Opened again it has no ports, and nobody's subscription to it is left.
const A_CLIENT_OPENED_AGAIN: Run = Run {
    parts: &[
        Part {
            client: 128,
            says: &[
                (0, Open("a", 8, 8)),
                (0, Port(0, "out", 33)),
                (2, Bytes(0, b"\x90\x3C\x40")),
                (5, Bytes(0, b"\x90\x3E\x40")),
                (7, Bytes(0, b"\x90\x40\x40")),
            ],
            log: "0 line 1 ok\n0 line 2 ok\n2 line 3 ok 1\n5 line 4 ok 1\n7 line 5 ok 1\n",
        },
        Part {
            client: 129,
            says: &[
                (0, Open("b", 8, 8)),
                (0, Port(0, "in", 66)),
                (0, Connect(P(128, 0), P(129, 0))),
                (1, Close),
                (1, Close),
                (3, DeletePort(0)),
                (4, Open("b", 8, 8)),
                (4, DeletePort(0)),
                (4, Port(0, "in", 66)),
                (6, Connect(P(128, 0), P(129, 0))),
            ],
            log: "0 line 1 ok\n0 line 2 ok\n0 line 3 ok\n1 line 4 ok\n1 line 5 refused 1 NotOpen\n\
                3 line 6 refused 1 NotOpen\n4 line 7 ok\n4 line 8 refused 7 NoNode\n4 line 9 ok\n\
                6 line 10 ok\n7 port 0 90 40 40\n",
        },
    ],
    until: 10,
};

#[test]
fn a_client_opened_again(rt: HostRuntime) -> Result<(), Fail> {
    assert_run(&rt, rt.alloc(), &A_CLIENT_OPENED_AGAIN)
}
