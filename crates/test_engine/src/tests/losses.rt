//! Messages that found no room.

use super::lines::At::P;
use super::lines::Part;
use super::lines::Say::*;
use super::logs::{Run, assert_logs, ran};
use seq_engine::*;
use std::alloc::Global;
use std::process::Abort;
use std::test::Fail;

/// All hear what was worked out, and this is what the clients lost.
fn assert_lost(
    rt: &impl Abort,
    alloc: Global,
    run: &Run,
    losses: &[(u8, u64)],
) -> Result<(), Fail> {
    let log = ran(rt, alloc, run)?;
    assert_logs(rt, alloc, &log, run.parts)?;
    assert!(rt; log.losses.len() == losses.len());
    for (found, loss) in log.losses.as_slice().iter().zip(losses) {
        assert!(rt; (found.client.number(), found.messages) == *loss);
    }
    Ok(())
}

/// Of three notes one finds room. What is due at the very moment of the close is lost before it.
const AT_A_CLOSE: Run = Run {
    parts: &[
        Part {
            client: 128,
            says: &[
                (0, Open("a", 8, 8)),
                (0, Port(0, "out", 33)),
                (0, Queue(0, 480, 500_000)),
                (2, Start(128, 0)),
                (2, Schedule(128, DueAt::Nanos(5), b"\x90\x03\x40")),
                (4, Send(0, b"\x90\x01\x40")),
                (5, Send(0, b"\x90\x02\x40")),
            ],
            log: "0 line 1 ok\n0 line 2 ok\n0 line 3 ok\n2 line 4 ok\n2 line 5 ok\n4 line 6 ok\n5 line 7 ok\n",
        },
        Part {
            client: 129,
            says: &[
                (0, Open("b", 1, 8)),
                (0, Port(0, "in", 66)),
                (1, Connect(P(128, 0), P(129, 0))),
                (7, Close),
            ],
            log: "0 line 1 ok\n0 line 2 ok\n1 line 3 ok\n4 port 0 90 01 40\n7 line 4 ok\n",
        },
    ],
    until: 10,
};

/// Those that are open at the end come last, by client. A client that opens anew has lost nothing yet.
const UNTIL_THE_END: Run = Run {
    parts: &[
        Part {
            client: 128,
            says: &[
                (0, Open("a", 1, 8)),
                (0, Port(0, "both", 99)),
                (0, Connect(P(128, 0), P(128, 0))),
                (4, Send(0, b"\xF8")),
                (5, Send(0, b"\xF8")),
                (6, Send(0, b"\xF8")),
            ],
            log: "0 line 1 ok\n0 line 2 ok\n0 line 3 ok\n4 port 0 F8\n4 line 4 ok\n5 line 5 ok\n6 line 6 ok\n",
        },
        Part {
            client: 129,
            says: &[
                (0, Open("b", 1, 8)),
                (0, Port(0, "in", 66)),
                (1, Connect(P(128, 0), P(129, 0))),
                (5, Close),
                (5, Open("b", 1, 8)),
            ],
            log: "0 line 1 ok\n0 line 2 ok\n1 line 3 ok\n4 port 0 F8\n5 line 4 ok\n5 line 5 ok\n",
        },
    ],
    until: 10,
};

#[test]
fn what_is_lost_until_a_close(rt: HostRuntime) -> Result<(), Fail> {
    assert_lost(&rt, rt.alloc(), &AT_A_CLOSE, &[(129, 2)])
}

#[test]
fn what_is_lost_until_the_end(rt: HostRuntime) -> Result<(), Fail> {
    assert_lost(&rt, rt.alloc(), &UNTIL_THE_END, &[(129, 1), (128, 2)])
}
