//! Messages that are sent at once.

use super::session::{Part, Session, assert_session};
use std::test::Fail;

/// One client's note, to another, and the listing of the two.
pub const FIRST_NOTE: Session = Session {
    parts: &[SENDER, LISTENER],
    songs: &[],
    until: 10,
    listing: Some(
        "client 128 a in 8 out 8\n\
        port 128:p0 out 33\n\
        client 129 b in 8 out 8\n\
        port 129:p0 in 66\n\
        edge 128:p0 129:p0\n",
    ),
};

pub const SENDER: Part = Part {
    client: 128,
    script: "0 open a 8 8\n\
        0 port 0 out 33\n\
        5 bytes 0 90 3C 40\n",
    log: "0 line 1 ok\n0 line 2 ok\n5 line 3 ok 1\n",
};

/// Client 129 subscribes to port 0 of client 128.
pub const LISTENS: &str = "0 open b 8 8\n\
    0 port 0 in 66\n\
    0 connect 128:p0 129:p0\n";

pub const LISTENER: Part = Part {
    client: 129,
    script: LISTENS,
    log: "0 line 1 ok\n0 line 2 ok\n0 line 3 ok\n5 port 0 90 3C 40\n",
};

#[test]
fn first_note(rt: HostRuntime) -> Result<(), Fail> {
    assert_session(&rt, rt.alloc(), &FIRST_NOTE)
}

/// Client 129 sends a note and a clock as soon as it is joined to client 128, and ends the note a second later.
const WHOLE_NOTE: Session = Session {
    parts: &[
        Part {
            client: 128,
            script: "0 open b 8 8\n0 port 0 in 66\n",
            log: "0 line 1 ok\n0 line 2 ok\n\
                0 port 0 90 3C 40\n0 port 0 F8\n1000000000 port 0 90 3C 00\n",
        },
        Part {
            client: 129,
            script: "0 open a 8 8\n0 port 0 out 33\n0 connect 129:p0 128:p0\n\
                0 bytes 0 90 3C 40 F8\n1000000000 send 0 90 3C 00\n",
            log: "0 line 1 ok\n0 line 2 ok\n0 line 3 ok\n0 line 4 ok 2\n1000000000 line 5 ok\n",
        },
    ],
    songs: &[],
    until: 1_000_000_000,
    listing: None,
};

#[test]
fn whole_note(rt: HostRuntime) -> Result<(), Fail> {
    assert_session(&rt, rt.alloc(), &WHOLE_NOTE)
}

/// A session of nobody.
#[test]
fn no_scripts(rt: HostRuntime) -> Result<(), Fail> {
    let nobody = Session {
        parts: &[],
        songs: &[],
        until: 10,
        listing: Some(""),
    };
    assert_session(&rt, rt.alloc(), &nobody)
}

/// A message sent between two halves of another leaves the stream as it is.
const SEND_INSIDE_MESSAGE: Session = Session {
    parts: &[
        Part {
            client: 128,
            script: "0 open a 8 8\n\
                0 port 0 out 33\n\
                5 bytes 0 90 3C\n\
                5 send 0 B0 07 7F\n\
                5 bytes 0 40\n",
            log: "0 line 1 ok\n0 line 2 ok\n5 line 3 ok 0\n5 line 4 ok\n5 line 5 ok 1\n",
        },
        Part {
            client: 129,
            script: LISTENS,
            log: "0 line 1 ok\n0 line 2 ok\n0 line 3 ok\n\
                5 port 0 B0 07 7F\n5 port 0 90 3C 40\n",
        },
    ],
    songs: &[],
    until: 10,
    listing: None,
};

#[test]
fn send_inside_message(rt: HostRuntime) -> Result<(), Fail> {
    assert_session(&rt, rt.alloc(), &SEND_INSIDE_MESSAGE)
}

/// Client 129 has room for two messages, and takes one out between the third and the fourth. What
/// finds no room is lost and counted, and keeps nothing from client 130.
const INPUT_OVERFLOW: Session = Session {
    parts: &[
        Part {
            client: 128,
            script: "0 open a 8 8\n\
                0 port 0 out 33\n\
                5 bytes 0 90 01 40 02 40 03 40\n\
                7 send 0 90 04 40\n",
            log: "0 line 1 ok\n0 line 2 ok\n5 line 3 ok 3\n7 line 4 ok\n",
        },
        Part {
            client: 129,
            script: "0 open b 2 8\n\
                0 port 0 in 66\n\
                0 connect 128:p0 129:p0\n\
                6 pools\n\
                6 receive 1\n",
            log: "0 line 1 ok\n0 line 2 ok\n0 line 3 ok\n\
                5 port 0 90 01 40\n5 port 0 90 02 40\n\
                6 line 4 ok waiting 2 lost 1 used 0\n\
                6 line 5 ok 1\ngot 5 port 0 90 01 40\n\
                7 port 0 90 04 40\n",
        },
        Part {
            client: 130,
            script: "0 open c 8 8\n\
                0 port 0 in 66\n\
                0 connect 128:p0 130:p0\n",
            log: "0 line 1 ok\n0 line 2 ok\n0 line 3 ok\n\
                5 port 0 90 01 40\n5 port 0 90 02 40\n5 port 0 90 03 40\n\
                7 port 0 90 04 40\n",
        },
    ],
    songs: &[],
    until: 10,
    listing: None,
};

#[test]
fn input_overflow(rt: HostRuntime) -> Result<(), Fail> {
    assert_session(&rt, rt.alloc(), &INPUT_OVERFLOW)
}

/// Two filters lead from one port to another; the one that raises notes is joined to the source
/// last and to the target first. The copies come by the age of the first edge of their paths, and a
/// note that would be raised past 127 is dropped.
pub const TWO_FILTERS: Part = Part {
    client: 128,
    script: "0 open a 8 8\n\
        0 port 0 out 33\n\
        0 filter 0 99 65535 1023 0 127 0\n\
        0 filter 1 99 65535 1023 0 127 7\n\
        0 connect 128:p0 128:f0\n\
        0 connect 128:p0 128:f1\n\
        5 bytes 0 90 3C 40\n\
        6 bytes 0 7D 40\n",
    log: "0 line 1 ok\n0 line 2 ok\n0 line 3 ok\n0 line 4 ok\n0 line 5 ok\n0 line 6 ok\n\
        5 line 7 ok 1\n6 line 8 ok 1\n",
};

pub const TWO_COPIES: Part = Part {
    client: 129,
    script: "0 open b 8 8\n\
        0 port 0 in 66\n\
        1 connect 128:f1 129:p0\n\
        1 connect 128:f0 129:p0\n",
    log: "0 line 1 ok\n0 line 2 ok\n1 line 3 ok\n1 line 4 ok\n\
        5 port 0 90 3C 40\n5 port 0 90 43 40\n6 port 0 90 7D 40\n",
};

const COPIES_BY_EDGE_AGE: Session = Session {
    parts: &[TWO_FILTERS, TWO_COPIES],
    songs: &[],
    until: 10,
    listing: None,
};

#[test]
fn copies_by_edge_age(rt: HostRuntime) -> Result<(), Fail> {
    assert_session(&rt, rt.alloc(), &COPIES_BY_EDGE_AGE)
}

/// A filter gets another rule between two notes, and then goes with its subscriptions.
const FILTER_CHANGED_MIDWAY: Session = Session {
    parts: &[
        Part {
            client: 128,
            script: "0 open a 8 8\n\
                0 port 0 out 33\n\
                0 filter 0 99 65535 1023 0 127 0\n\
                0 connect 128:p0 128:f0\n\
                4 bytes 0 90 3C 40\n\
                5 setfilter 0 65535 2 0 127 -61\n\
                5 bytes 0 90 3C 40 3D 40\n\
                6 unfilter 0\n\
                6 bytes 0 3D 40\n",
            log: "0 line 1 ok\n0 line 2 ok\n0 line 3 ok\n0 line 4 ok\n4 line 5 ok 1\n\
                5 line 6 ok\n5 line 7 ok 2\n6 line 8 ok\n6 line 9 ok 1\n",
        },
        Part {
            client: 129,
            script: "0 open b 8 8\n\
                0 port 0 in 66\n\
                1 connect 128:f0 129:p0\n",
            log: "0 line 1 ok\n0 line 2 ok\n1 line 3 ok\n4 port 0 90 3C 40\n5 port 0 90 00 40\n",
        },
    ],
    songs: &[],
    until: 10,
    listing: None,
};

#[test]
fn filter_changed_midway(rt: HostRuntime) -> Result<(), Fail> {
    assert_session(&rt, rt.alloc(), &FILTER_CHANGED_MIDWAY)
}

/// Filters 0 to 2 follow each other. Port 0 leads to the first; port 1 does by way of filter 3,
/// five edges from the listener.
const HOP_LIMIT: Session = Session {
    parts: &[
        Part {
            client: 128,
            script: "0 open a 8 8\n\
                0 port 0 o 33\n0 port 1 o 33\n\
                0 filter 0 99 65535 1023 0 127 0\n\
                0 filter 1 99 65535 1023 0 127 0\n\
                0 filter 2 99 65535 1023 0 127 0\n\
                0 filter 3 99 65535 1023 0 127 0\n\
                0 connect 128:p0 128:f0\n\
                0 connect 128:f0 128:f1\n\
                0 connect 128:f1 128:f2\n\
                0 connect 128:p1 128:f3\n\
                0 connect 128:f3 128:f0\n\
                5 bytes 1 90 3C 40\n\
                6 bytes 0 90 3C 40\n",
            log: "0 line 1 ok\n0 line 2 ok\n0 line 3 ok\n0 line 4 ok\n0 line 5 ok\n0 line 6 ok\n\
                0 line 7 ok\n0 line 8 ok\n0 line 9 ok\n0 line 10 ok\n0 line 11 ok\n0 line 12 ok\n\
                5 line 13 ok 1\n6 line 14 ok 1\n",
        },
        Part {
            client: 129,
            script: "0 open b 8 8\n\
                0 port 0 in 66\n\
                0 connect 128:f2 129:p0\n",
            log: "0 line 1 ok\n0 line 2 ok\n0 line 3 ok\n5 port 0 90 3C 40\n6 port 0 90 3C 40\n",
        },
    ],
    songs: &[],
    until: 10,
    listing: None,
};

#[test]
fn hop_limit(rt: HostRuntime) -> Result<(), Fail> {
    assert_session(&rt, rt.alloc(), &HOP_LIMIT)
}

/// Filters 0 to 7 follow each other. From port 0 it is nine edges to the listener, which carry
/// nothing, from port 1 eight. Filter 9 tests the channel that a message comes with, and gives it
/// another.
const EIGHT_HOPS_AND_CHANNEL: Session = Session {
    parts: &[
        Part {
            client: 128,
            script: "0 open a 8 8\n\
                0 port 0 o 33\n0 port 1 o 33\n\
                0 filter 0 99 65535 1023 0 127 0\n\
                0 filter 1 99 65535 1023 0 127 0\n\
                0 filter 2 99 65535 1023 0 127 0\n\
                0 filter 3 99 65535 1023 0 127 0\n\
                0 filter 4 99 65535 1023 0 127 0\n\
                0 filter 5 99 65535 1023 0 127 0\n\
                0 filter 6 99 65535 1023 0 127 0\n\
                0 filter 7 99 65535 1023 0 127 0\n\
                0 connect 128:p0 128:f0\n\
                0 connect 128:f0 128:f1\n\
                0 connect 128:f1 128:f2\n\
                0 connect 128:f2 128:f3\n\
                0 connect 128:f3 128:f4\n\
                0 connect 128:f4 128:f5\n\
                0 connect 128:f5 128:f6\n\
                0 connect 128:f6 128:f7\n\
                0 connect 128:p1 128:f1\n\
                5 bytes 0 90 3C 40\n\
                6 bytes 1 90 3C 40\n\
                7 filter 8 99 1 1023 0 127 0 16\n\
                8 filter 9 99 1 1023 0 127 0 9\n\
                8 connect 128:p0 128:f9\n\
                9 bytes 0 90 3C 40 E0 00 40 91 3C 40 F8 F6\n",
            log: "0 line 1 ok\n0 line 2 ok\n0 line 3 ok\n0 line 4 ok\n0 line 5 ok\n0 line 6 ok\n\
                0 line 7 ok\n0 line 8 ok\n0 line 9 ok\n0 line 10 ok\n0 line 11 ok\n0 line 12 ok\n\
                0 line 13 ok\n0 line 14 ok\n0 line 15 ok\n0 line 16 ok\n0 line 17 ok\n\
                0 line 18 ok\n0 line 19 ok\n0 line 20 ok\n\
                5 line 21 ok 1\n6 line 22 ok 1\n7 line 23 refused 5 BadRule\n\
                8 line 24 ok\n8 line 25 ok\n9 line 26 ok 5\n",
        },
        Part {
            client: 129,
            script: "0 open b 8 8\n\
                0 port 0 in 66\n\
                0 connect 128:f7 129:p0\n\
                8 connect 128:f9 129:p0\n",
            log: "0 line 1 ok\n0 line 2 ok\n0 line 3 ok\n6 port 0 90 3C 40\n8 line 4 ok\n\
                9 port 0 99 3C 40\n9 port 0 E9 00 40\n9 port 0 F8\n9 port 0 F6\n",
        },
    ],
    songs: &[],
    until: 10,
    listing: None,
};

#[test]
fn eight_hops_and_channel(rt: HostRuntime) -> Result<(), Fail> {
    assert_session(&rt, rt.alloc(), &EIGHT_HOPS_AND_CHANNEL)
}

/// Client 129 has room for two messages. It listens from moment 2 on: of three notes of moment 3 it hears two, and at
/// moment 4 one more, and what waited before waits still. From moment 5 on what comes waits again.
const LISTENED: Session = Session {
    parts: &[
        Part {
            client: 128,
            script: "0 open a 8 8\n\
                0 port 0 out 33\n\
                1 send 0 90 01 40\n\
                3 bytes 0 90 02 40 03 40 04 40\n\
                4 send 0 90 05 40\n\
                6 send 0 90 06 40\n",
            log: "0 line 1 ok\n0 line 2 ok\n1 line 3 ok\n3 line 4 ok 3\n4 line 5 ok\n6 line 6 ok\n",
        },
        Part {
            client: 129,
            script: "0 open b 2 8\n\
                0 port 0 in 66\n\
                0 connect 128:p0 129:p0\n\
                2 listen\n\
                4 pools\n\
                5 unlisten\n\
                7 receive 8\n\
                8 listen\n",
            log: "0 line 1 ok\n0 line 2 ok\n0 line 3 ok\n1 port 0 90 01 40\n2 line 4 ok\n\
                3 port 0 90 02 40\n3 port 0 90 03 40\n4 port 0 90 05 40\n\
                4 line 5 ok waiting 1 lost 1 used 0\n5 line 6 ok\n6 port 0 90 06 40\n\
                7 line 7 ok 2\ngot 1 port 0 90 01 40\ngot 6 port 0 90 06 40\n8 line 8 ok\n",
        },
    ],
    songs: &[],
    until: 10,
    listing: Some(
        "client 128 a in 8 out 8\n\
        port 128:p0 out 33\n\
        client 129 b in 2 out 8 listening\n\
        port 129:p0 in 66\n\
        edge 128:p0 129:p0\n",
    ),
};

#[test]
fn listened(rt: HostRuntime) -> Result<(), Fail> {
    assert_session(&rt, rt.alloc(), &LISTENED)
}
