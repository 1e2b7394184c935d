//! Messages through trees of filters, of which each way from the port that sends is kept with one rule.

use super::lines::At::{F, P};
use super::lines::Say::*;
use super::lines::{ALL, Lines, Part, RAISES};
use super::logs::{assert_logs, ran_of};
use seq_engine::*;
use std::alloc::Global;
use std::process::Abort;
use std::test::Fail;

/// It raises notes up to 63, and stops those above.
const LOW_RAISED: RuleArgs = RuleArgs { high: 63, ..RAISES };

const NO_NOTE_ON: RuleArgs = RuleArgs {
    kinds: Kinds::NOTE_OFF,
    ..ALL
};

/// Filter 0 leads to the filters 1 and 2. One note is so high that filter 1 stops it. Then filter 3, behind filter 2, is
/// joined to a port to which filter 1 leads too, the rule of filter 2 changes, filter 0 stops all for a while, and
/// filter 3 comes to stand behind filter 1.
const CHANGES: &[Part] = &[
    Part {
        client: 128,
        says: &[
            (0, Open("a", 1, 1)),
            (0, Port(0, "out", 33)),
            (1, Send(0, b"\x90\x3C\x40")),
            (2, Send(0, b"\x90\x40\x40")),
            (4, Send(0, b"\x90\x3C\x40")),
            (6, Send(0, b"\x90\x3C\x40")),
            (8, Send(0, b"\x90\x3C\x40")),
            (10, Send(0, b"\x90\x3C\x40")),
            (12, Send(0, b"\x90\x3C\x40")),
            (14, Send(0, b"\x90\x3C\x40")),
        ],
        log: "0 line 1 ok\n0 line 2 ok\n1 line 3 ok\n2 line 4 ok\n4 line 5 ok\n6 line 6 ok\n8 line 7 ok\n\
            10 line 8 ok\n12 line 9 ok\n14 line 10 ok\n",
    },
    Part {
        client: 129,
        says: &[
            (0, Open("b", 20, 1)),
            (0, Port(0, "first", 66)),
            (0, Port(1, "last", 66)),
        ],
        log: "0 line 1 ok\n0 line 2 ok\n0 line 3 ok\n\
            1 port 0 90 3D 40\n1 port 1 90 3D 40\n2 port 1 90 41 40\n\
            4 port 0 90 3D 40\n4 port 0 90 3E 40\n4 port 1 90 3D 40\n\
            6 port 0 90 3D 40\n6 port 0 90 3D 40\n6 port 1 90 3C 40\n\
            10 port 0 90 3D 40\n10 port 0 90 3D 40\n10 port 1 90 3C 40\n\
            12 port 0 90 3D 40\n12 port 1 90 3C 40\n\
            14 port 0 90 3D 40\n14 port 0 90 3E 40\n14 port 1 90 3C 40\n",
    },
    Part {
        client: 130,
        says: &[
            (0, Open("tree", 1, 1)),
            (0, Filter(0, ALL)),
            (0, Filter(1, LOW_RAISED)),
            (0, Filter(2, RAISES)),
            (0, Filter(3, RAISES)),
            (0, Connect(P(128, 0), F(130, 0))),
            (0, Connect(F(130, 0), F(130, 1))),
            (0, Connect(F(130, 0), F(130, 2))),
            (0, Connect(F(130, 1), P(129, 0))),
            (0, Connect(F(130, 2), F(130, 3))),
            (0, Connect(F(130, 2), P(129, 1))),
            (3, Connect(F(130, 3), P(129, 0))),
            (5, Rule(2, ALL)),
            (7, Rule(0, NO_NOTE_ON)),
            (9, Rule(0, ALL)),
            (11, Disconnect(F(130, 2), F(130, 3))),
            (13, Connect(F(130, 1), F(130, 3))),
        ],
        log: "0 line 1 ok\n0 line 2 ok\n0 line 3 ok\n0 line 4 ok\n0 line 5 ok\n0 line 6 ok\n0 line 7 ok\n\
            0 line 8 ok\n0 line 9 ok\n0 line 10 ok\n0 line 11 ok\n3 line 12 ok\n5 line 13 ok\n7 line 14 ok\n\
            9 line 15 ok\n11 line 16 ok\n13 line 17 ok\n",
    },
];

/// Eight filters one behind the other. The eighth edge may lead to a port, the ninth not; and the first filter leads to
/// a port beside.
const DEEP: &[Part] = &[
    Part {
        client: 128,
        says: &[
            (0, Open("a", 1, 1)),
            (0, Port(0, "out", 33)),
            (1, Send(0, b"\x90\x3C\x40")),
        ],
        log: "0 line 1 ok\n0 line 2 ok\n1 line 3 ok\n",
    },
    Part {
        client: 129,
        says: &[
            (0, Open("b", 20, 1)),
            (0, Port(0, "far", 66)),
            (0, Port(1, "near", 66)),
        ],
        log: "0 line 1 ok\n0 line 2 ok\n0 line 3 ok\n1 port 0 90 43 40\n1 port 1 90 3D 40\n",
    },
    Part {
        client: 130,
        says: &[
            (0, Open("tree", 1, 1)),
            (0, Filter(0, RAISES)),
            (0, Filter(1, RAISES)),
            (0, Filter(2, RAISES)),
            (0, Filter(3, RAISES)),
            (0, Filter(4, RAISES)),
            (0, Filter(5, RAISES)),
            (0, Filter(6, RAISES)),
            (0, Filter(7, RAISES)),
            (0, Connect(P(128, 0), F(130, 0))),
            (0, Connect(F(130, 0), F(130, 1))),
            (0, Connect(F(130, 1), F(130, 2))),
            (0, Connect(F(130, 2), F(130, 3))),
            (0, Connect(F(130, 3), F(130, 4))),
            (0, Connect(F(130, 4), F(130, 5))),
            (0, Connect(F(130, 5), F(130, 6))),
            (0, Connect(F(130, 6), F(130, 7))),
            (0, Connect(F(130, 7), P(129, 0))),
            (0, Connect(F(130, 6), P(129, 0))),
            (0, Connect(F(130, 0), P(129, 1))),
        ],
        log: "0 line 1 ok\n0 line 2 ok\n0 line 3 ok\n0 line 4 ok\n0 line 5 ok\n0 line 6 ok\n0 line 7 ok\n\
            0 line 8 ok\n0 line 9 ok\n0 line 10 ok\n0 line 11 ok\n0 line 12 ok\n0 line 13 ok\n0 line 14 ok\n\
            0 line 15 ok\n0 line 16 ok\n0 line 17 ok\n0 line 18 ok\n0 line 19 ok\n0 line 20 ok\n",
    },
];

/// Each client hears what was worked out.
fn check(rt: &impl Abort, alloc: Global, parts: &'static [Part]) -> Result<(), Fail> {
    let lines = Lines::of(alloc, parts)?;
    let log = ran_of(rt, alloc, lines.inputs(), 20)?;
    assert_logs(rt, alloc, &log, parts)
}

#[test]
fn branches_hold_until_they_change(rt: HostRuntime) -> Result<(), Fail> {
    check(&rt, rt.alloc(), CHANGES)
}

#[test]
fn branches_end_after_eight_edges(rt: HostRuntime) -> Result<(), Fail> {
    check(&rt, rt.alloc(), DEEP)
}
