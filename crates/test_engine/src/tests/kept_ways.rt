//! Ways that are kept from one message to the next, until something changes on which they hang.

use super::lines::At::{F, P};
use super::lines::Say::*;
use super::lines::{ALL, Lines, Part, RAISES};
use super::logs::{assert_logs, ran_of};
use std::process::Abort;
use std::test::Fail;

/// Client 128 sends one note again and again, and between two of them something changes: of a stranger, of the client
/// whose filter leads to the listener, of one whose filters stand behind that, or of the sender itself.
const CHANGES: &[Part] = &[
    Part {
        client: 128,
        says: &[
            (0, Open("a", 1, 1)),
            (0, Port(0, "out", 33)),
            (1, Send(0, b"\x90\x3C\x40")),
            (3, Send(0, b"\x90\x3C\x40")),
            (5, Send(0, b"\x90\x3C\x40")),
            (7, Send(0, b"\x90\x3C\x40")),
            (9, Send(0, b"\x90\x3C\x40")),
            (11, Send(0, b"\x90\x3C\x40")),
            (13, Send(0, b"\x90\x3C\x40")),
            (14, Disconnect(P(128, 0), F(130, 0))),
            (15, Send(0, b"\x90\x3C\x40")),
            (16, Connect(P(128, 0), P(129, 0))),
            (17, Send(0, b"\x90\x3C\x40")),
        ],
        log: "0 line 1 ok\n0 line 2 ok\n1 line 3 ok\n3 line 4 ok\n5 line 5 ok\n7 line 6 ok\n9 line 7 ok\n\
            11 line 8 ok\n13 line 9 ok\n14 line 10 ok\n15 line 11 ok\n16 line 12 ok\n17 line 13 ok\n",
    },
    Part {
        client: 129,
        says: &[(0, Open("b", 20, 1)), (0, Port(0, "in", 66))],
        log: "0 line 1 ok\n0 line 2 ok\n\
            1 port 0 90 3D 40\n3 port 0 90 3D 40\n5 port 0 90 3C 40\n7 port 0 90 3C 40\n\
            9 port 0 90 3C 40\n9 port 0 90 3C 40\n11 port 0 90 3C 40\n11 port 0 90 3D 40\n\
            13 port 0 90 3C 40\n17 port 0 90 3C 40\n",
    },
    Part {
        client: 130,
        says: &[
            (0, Open("filter", 1, 1)),
            (0, Filter(0, RAISES)),
            (0, Connect(P(128, 0), F(130, 0))),
            (0, Connect(F(130, 0), P(129, 0))),
            (4, Rule(0, ALL)),
            (6, Connect(F(130, 0), F(131, 0))),
        ],
        log: "0 line 1 ok\n0 line 2 ok\n0 line 3 ok\n0 line 4 ok\n4 line 5 ok\n6 line 6 ok\n",
    },
    Part {
        client: 131,
        says: &[
            (0, Open("behind", 1, 1)),
            (0, Filter(0, ALL)),
            (0, Filter(1, ALL)),
            (2, Connect(F(131, 0), F(131, 1))),
            (8, Connect(F(131, 1), P(129, 0))),
            (10, Rule(1, RAISES)),
            (12, Close),
        ],
        log: "0 line 1 ok\n0 line 2 ok\n0 line 3 ok\n2 line 4 ok\n8 line 5 ok\n10 line 6 ok\n12 line 7 ok\n",
    },
];

#[test]
fn ways_hold_until_they_change(rt: HostRuntime) -> Result<(), Fail> {
    let lines = Lines::of(rt.alloc(), CHANGES)?;
    let log = ran_of(&rt, rt.alloc(), lines.inputs(), 20)?;
    assert_logs(&rt, rt.alloc(), &log, CHANGES)
}
