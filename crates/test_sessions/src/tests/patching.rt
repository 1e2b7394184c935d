//! Nodes and subscriptions.

use super::files::SMALL;
use super::session::{Part, Session, assert_session};
use std::test::Fail;

/// Filters may be joined in a chain, and neither in a ring nor to themselves. Ports may be joined
/// both ways.
const FILTER_CYCLES: Session = Session {
    parts: &[Part {
        client: 128,
        script: "0 open a 8 8\n0 filter 0 99 65535 1023 0 127 0\n\
                0 filter 1 99 65535 1023 0 127 0\n0 connect 128:f0 128:f1\n\
                0 connect 128:f1 128:f0\n0 connect 128:f0 128:f0\n0 port 0 x 99\n0 port 1 y 99\n\
                0 connect 128:p0 128:p1\n0 connect 128:p1 128:p0\n0 connect 128:p0 128:p0\n\
                0 connect 128:f0 128:f1\n",
        log: "0 line 1 ok\n0 line 2 ok\n0 line 3 ok\n0 line 4 ok\n0 line 5 refused 14 Cycle\n\
                0 line 6 refused 14 Cycle\n0 line 7 ok\n0 line 8 ok\n0 line 9 ok\n0 line 10 ok\n\
                0 line 11 ok\n0 line 12 refused 11 AlreadyConnected\n",
    }],
    songs: &[],
    until: 10,
    listing: None,
};

#[test]
fn filter_cycles(rt: HostRuntime) -> Result<(), Fail> {
    assert_session(&rt, rt.alloc(), &FILTER_CYCLES)
}

/// Port 0 of client 128 allows no third client, its port 1 only its owner. Client 130 owns neither
/// node. A refused Disconnect leaves the subscription.
pub const THIRD_CLIENTS: Session = Session {
    parts: &[
        Part {
            client: 128,
            script: "0 open a 8 8\n0 port 0 o 161\n0 port 1 o 1\n2 connect 128:p1 129:p0\n\
                4 bytes 1 90 3C 40\n",
            log: "0 line 1 ok\n0 line 2 ok\n0 line 3 ok\n2 line 4 ok\n4 line 5 ok 1\n",
        },
        Part {
            client: 129,
            script: "0 open b 8 8\n0 port 0 i 66\n1 connect 128:p0 129:p0\n\
                1 connect 128:p1 129:p0\n\
                3 disconnect 128:p0 129:p0\n3 disconnect 128:p0 129:p0\n",
            log: "0 line 1 ok\n0 line 2 ok\n1 line 3 ok\n1 line 4 refused 10 NotPermitted\n\
                3 line 5 ok\n3 line 6 refused 12 NotConnected\n4 port 0 90 3C 40\n",
        },
        Part {
            client: 130,
            script: "0 open c 8 8\n0 connect 128:p0 129:p0\n3 disconnect 128:p1 129:p0\n",
            log: "0 line 1 ok\n0 line 2 refused 10 NotPermitted\n\
                3 line 3 refused 10 NotPermitted\n",
        },
    ],
    songs: &[],
    until: 10,
    listing: None,
};

#[test]
fn third_clients(rt: HostRuntime) -> Result<(), Fail> {
    assert_session(&rt, rt.alloc(), &THIRD_CLIENTS)
}

/// Sixteen ports that others may read.
const PORTS: Part = Part {
    client: 128,
    script: "0 open a 8 8\n0 port 0 o 33\n0 port 1 o 33\n0 port 2 o 33\n0 port 3 o 33\n\
        0 port 4 o 33\n0 port 5 o 33\n0 port 6 o 33\n0 port 7 o 33\n0 port 8 o 33\n\
        0 port 9 o 33\n0 port 10 o 33\n0 port 11 o 33\n0 port 12 o 33\n0 port 13 o 33\n\
        0 port 14 o 33\n0 port 15 o 33\n",
    log: "0 line 1 ok\n0 line 2 ok\n0 line 3 ok\n0 line 4 ok\n0 line 5 ok\n0 line 6 ok\n\
        0 line 7 ok\n0 line 8 ok\n0 line 9 ok\n0 line 10 ok\n0 line 11 ok\n0 line 12 ok\n\
        0 line 13 ok\n0 line 14 ok\n0 line 15 ok\n0 line 16 ok\n0 line 17 ok\n",
};

/// The same with a filter.
const PORTS_AND_A_FILTER: Part = Part {
    client: 128,
    script: "0 open a 8 8\n0 port 0 o 33\n0 port 1 o 33\n0 port 2 o 33\n0 port 3 o 33\n\
        0 port 4 o 33\n0 port 5 o 33\n0 port 6 o 33\n0 port 7 o 33\n0 port 8 o 33\n\
        0 port 9 o 33\n0 port 10 o 33\n0 port 11 o 33\n0 port 12 o 33\n0 port 13 o 33\n\
        0 port 14 o 33\n0 port 15 o 33\n0 filter 0 99 65535 1023 0 127 0\n",
    log: "0 line 1 ok\n0 line 2 ok\n0 line 3 ok\n0 line 4 ok\n0 line 5 ok\n0 line 6 ok\n\
        0 line 7 ok\n0 line 8 ok\n0 line 9 ok\n0 line 10 ok\n0 line 11 ok\n0 line 12 ok\n\
        0 line 13 ok\n0 line 14 ok\n0 line 15 ok\n0 line 16 ok\n0 line 17 ok\n\
        0 line 18 ok\n",
};

/// The sixteen ports of client 128 and its filter are all joined to one port.
const SOURCES_FULL: Session = Session {
    parts: &[
        PORTS_AND_A_FILTER,
        Part {
            client: 129,
            script: "0 open b 8 8\n0 port 0 i 66\n1 connect 128:p0 129:p0\n\
                1 connect 128:p1 129:p0\n\
                1 connect 128:p2 129:p0\n1 connect 128:p3 129:p0\n1 connect 128:p4 129:p0\n\
                1 connect 128:p5 129:p0\n1 connect 128:p6 129:p0\n1 connect 128:p7 129:p0\n\
                1 connect 128:p8 129:p0\n1 connect 128:p9 129:p0\n1 connect 128:p10 129:p0\n\
                1 connect 128:p11 129:p0\n1 connect 128:p12 129:p0\n1 connect 128:p13 129:p0\n\
                1 connect 128:p14 129:p0\n1 connect 128:p15 129:p0\n2 connect 128:f0 129:p0\n\
                2 connect 128:p0 129:p0\n",
            log: "0 line 1 ok\n0 line 2 ok\n1 line 3 ok\n1 line 4 ok\n1 line 5 ok\n1 line 6 ok\n\
                1 line 7 ok\n1 line 8 ok\n1 line 9 ok\n1 line 10 ok\n1 line 11 ok\n1 line 12 ok\n\
                1 line 13 ok\n1 line 14 ok\n1 line 15 ok\n1 line 16 ok\n1 line 17 ok\n\
                1 line 18 ok\n2 line 19 ok\n2 line 20 refused 11 AlreadyConnected\n",
        },
    ],
    songs: &[],
    until: 10,
    listing: None,
};

#[test]
fn sources_full(rt: HostRuntime) -> Result<(), Fail> {
    assert_session(&rt, rt.alloc(), &SOURCES_FULL)
}

/// A port takes thirty-two sources, and no more.
const THIRTY_TWO_SOURCES: Session = Session {
    parts: &[
        PORTS_AND_A_FILTER,
        Part {
            client: 129,
            script: "0 open b 8 8\n0 port 0 i 66\n1 connect 128:p0 129:p0\n\
                1 connect 128:p1 129:p0\n\
                1 connect 128:p2 129:p0\n1 connect 128:p3 129:p0\n1 connect 128:p4 129:p0\n\
                1 connect 128:p5 129:p0\n1 connect 128:p6 129:p0\n1 connect 128:p7 129:p0\n\
                1 connect 128:p8 129:p0\n1 connect 128:p9 129:p0\n1 connect 128:p10 129:p0\n\
                1 connect 128:p11 129:p0\n1 connect 128:p12 129:p0\n1 connect 128:p13 129:p0\n\
                1 connect 128:p14 129:p0\n1 connect 128:p15 129:p0\n1 connect 130:p0 129:p0\n\
                1 connect 130:p1 129:p0\n1 connect 130:p2 129:p0\n1 connect 130:p3 129:p0\n\
                1 connect 130:p4 129:p0\n1 connect 130:p5 129:p0\n1 connect 130:p6 129:p0\n\
                1 connect 130:p7 129:p0\n1 connect 130:p8 129:p0\n1 connect 130:p9 129:p0\n\
                1 connect 130:p10 129:p0\n1 connect 130:p11 129:p0\n1 connect 130:p12 129:p0\n\
                1 connect 130:p13 129:p0\n1 connect 130:p14 129:p0\n1 connect 130:p15 129:p0\n\
                2 connect 128:f0 129:p0\n2 connect 130:p15 129:p0\n",
            log: "0 line 1 ok\n0 line 2 ok\n1 line 3 ok\n1 line 4 ok\n1 line 5 ok\n1 line 6 ok\n\
                1 line 7 ok\n1 line 8 ok\n1 line 9 ok\n1 line 10 ok\n1 line 11 ok\n1 line 12 ok\n\
                1 line 13 ok\n1 line 14 ok\n1 line 15 ok\n1 line 16 ok\n1 line 17 ok\n\
                1 line 18 ok\n1 line 19 ok\n1 line 20 ok\n1 line 21 ok\n1 line 22 ok\n\
                1 line 23 ok\n1 line 24 ok\n1 line 25 ok\n1 line 26 ok\n1 line 27 ok\n\
                1 line 28 ok\n1 line 29 ok\n1 line 30 ok\n1 line 31 ok\n1 line 32 ok\n\
                1 line 33 ok\n1 line 34 ok\n2 line 35 refused 13 SourcesFull\n\
                2 line 36 refused 11 AlreadyConnected\n",
        },
        Part {
            client: 130,
            script: "0 open c 8 8\n0 port 0 o 33\n0 port 1 o 33\n0 port 2 o 33\n0 port 3 o 33\n\
                0 port 4 o 33\n0 port 5 o 33\n0 port 6 o 33\n0 port 7 o 33\n0 port 8 o 33\n\
                0 port 9 o 33\n0 port 10 o 33\n0 port 11 o 33\n0 port 12 o 33\n0 port 13 o 33\n\
                0 port 14 o 33\n0 port 15 o 33\n",
            log: "0 line 1 ok\n0 line 2 ok\n0 line 3 ok\n0 line 4 ok\n0 line 5 ok\n0 line 6 ok\n\
                0 line 7 ok\n0 line 8 ok\n0 line 9 ok\n0 line 10 ok\n0 line 11 ok\n0 line 12 ok\n\
                0 line 13 ok\n0 line 14 ok\n0 line 15 ok\n0 line 16 ok\n0 line 17 ok\n",
        },
    ],
    songs: &[],
    until: 10,
    listing: None,
};

#[test]
fn thirty_two_sources(rt: HostRuntime) -> Result<(), Fail> {
    assert_session(&rt, rt.alloc(), &THIRTY_TWO_SOURCES)
}

/// Sixteen ports of client 128 and one of client 130 are joined to one port, and the fourth is
/// parted again. The other subscriptions keep their order.
const A_SOURCE_GOES: Session = Session {
    parts: &[
        PORTS,
        Part {
            client: 129,
            script: "0 open b 8 8\n0 port 0 i 66\n1 connect 128:p0 129:p0\n\
                1 connect 128:p1 129:p0\n\
                1 connect 128:p2 129:p0\n1 connect 128:p3 129:p0\n1 connect 128:p4 129:p0\n\
                1 connect 128:p5 129:p0\n1 connect 128:p6 129:p0\n1 connect 128:p7 129:p0\n\
                1 connect 128:p8 129:p0\n1 connect 128:p9 129:p0\n1 connect 128:p10 129:p0\n\
                1 connect 128:p11 129:p0\n1 connect 128:p12 129:p0\n1 connect 128:p13 129:p0\n\
                1 connect 128:p14 129:p0\n1 connect 128:p15 129:p0\n2 connect 130:p0 129:p0\n\
                2 connect 128:p0 129:p0\n2 disconnect 128:p3 129:p0\n2 connect 130:p0 129:p0\n",
            log: "0 line 1 ok\n0 line 2 ok\n1 line 3 ok\n1 line 4 ok\n1 line 5 ok\n1 line 6 ok\n\
                1 line 7 ok\n1 line 8 ok\n1 line 9 ok\n1 line 10 ok\n1 line 11 ok\n1 line 12 ok\n\
                1 line 13 ok\n1 line 14 ok\n1 line 15 ok\n1 line 16 ok\n1 line 17 ok\n\
                1 line 18 ok\n2 line 19 ok\n2 line 20 refused 11 AlreadyConnected\n2 line 21 ok\n\
                2 line 22 refused 11 AlreadyConnected\n",
        },
        Part {
            client: 130,
            script: "0 open c 8 8\n0 port 0 o 33\n",
            log: "0 line 1 ok\n0 line 2 ok\n",
        },
    ],
    songs: &[],
    until: 10,
    listing: Some(
        "client 128 a in 8 out 8\nport 128:p0 o 33\nport 128:p1 o 33\nport 128:p2 o 33\n\
        port 128:p3 o 33\nport 128:p4 o 33\nport 128:p5 o 33\nport 128:p6 o 33\n\
        port 128:p7 o 33\nport 128:p8 o 33\nport 128:p9 o 33\nport 128:p10 o 33\n\
        port 128:p11 o 33\nport 128:p12 o 33\nport 128:p13 o 33\nport 128:p14 o 33\n\
        port 128:p15 o 33\nclient 129 b in 8 out 8\nport 129:p0 i 66\nclient 130 c in 8 out 8\n\
        port 130:p0 o 33\nedge 128:p0 129:p0\nedge 128:p1 129:p0\nedge 128:p2 129:p0\n\
        edge 128:p4 129:p0\nedge 128:p5 129:p0\nedge 128:p6 129:p0\nedge 128:p7 129:p0\n\
        edge 128:p8 129:p0\nedge 128:p9 129:p0\nedge 128:p10 129:p0\nedge 128:p11 129:p0\n\
        edge 128:p12 129:p0\nedge 128:p13 129:p0\nedge 128:p14 129:p0\nedge 128:p15 129:p0\n\
        edge 130:p0 129:p0\n",
    ),
};

#[test]
fn a_source_goes(rt: HostRuntime) -> Result<(), Fail> {
    assert_session(&rt, rt.alloc(), &A_SOURCE_GOES)
}

/// The same, and then client 130 closes and the port goes. No one can join what is gone, and no
/// subscription is left.
const SOURCES_AND_REMOVAL: Session = Session {
    parts: &[
        PORTS,
        Part {
            client: 129,
            script: "0 open b 8 8\n0 port 0 i 66\n1 connect 128:p0 129:p0\n\
                1 connect 128:p1 129:p0\n\
                1 connect 128:p2 129:p0\n1 connect 128:p3 129:p0\n1 connect 128:p4 129:p0\n\
                1 connect 128:p5 129:p0\n1 connect 128:p6 129:p0\n1 connect 128:p7 129:p0\n\
                1 connect 128:p8 129:p0\n1 connect 128:p9 129:p0\n1 connect 128:p10 129:p0\n\
                1 connect 128:p11 129:p0\n1 connect 128:p12 129:p0\n1 connect 128:p13 129:p0\n\
                1 connect 128:p14 129:p0\n1 connect 128:p15 129:p0\n2 connect 130:p0 129:p0\n\
                2 connect 128:p0 129:p0\n2 disconnect 128:p3 129:p0\n2 connect 130:p0 129:p0\n\
                4 connect 130:p0 129:p0\n4 unport 0\n",
            log: "0 line 1 ok\n0 line 2 ok\n1 line 3 ok\n1 line 4 ok\n1 line 5 ok\n1 line 6 ok\n\
                1 line 7 ok\n1 line 8 ok\n1 line 9 ok\n1 line 10 ok\n1 line 11 ok\n1 line 12 ok\n\
                1 line 13 ok\n1 line 14 ok\n1 line 15 ok\n1 line 16 ok\n1 line 17 ok\n\
                1 line 18 ok\n2 line 19 ok\n2 line 20 refused 11 AlreadyConnected\n2 line 21 ok\n\
                2 line 22 refused 11 AlreadyConnected\n4 line 23 refused 8 NoSender\n\
                4 line 24 ok\n",
        },
        Part {
            client: 130,
            script: "0 open c 8 8\n0 port 0 o 33\n3 close\n",
            log: "0 line 1 ok\n0 line 2 ok\n3 line 3 ok\n",
        },
    ],
    songs: &[],
    until: 10,
    listing: Some(
        "client 128 a in 8 out 8\nport 128:p0 o 33\nport 128:p1 o 33\nport 128:p2 o 33\n\
        port 128:p3 o 33\nport 128:p4 o 33\nport 128:p5 o 33\nport 128:p6 o 33\n\
        port 128:p7 o 33\nport 128:p8 o 33\nport 128:p9 o 33\nport 128:p10 o 33\n\
        port 128:p11 o 33\nport 128:p12 o 33\nport 128:p13 o 33\nport 128:p14 o 33\n\
        port 128:p15 o 33\nclient 129 b in 8 out 8\n",
    ),
};

#[test]
fn sources_and_removal(rt: HostRuntime) -> Result<(), Fail> {
    assert_session(&rt, rt.alloc(), &SOURCES_AND_REMOVAL)
}

/// Of several refusals that stand, the one with the lowest number is the reply. There is no file
/// `none.mid`.
const LOWEST_REFUSALS: Session = Session {
    parts: &[Part {
        client: 128,
        script: "0 close\n0 open a 0 8\n0 open a 8 8\n0 open a 0 8\n0 port 0 o 33\n0 port 0 o 33\n\
                0 unport 1\n0 filter 0 99 65535 1023 60 50 0\n0 connect 128:p1 128:p2\n\
                0 queue 0 96 500000\n0 queue 0 96 0\n0 queue 1 96 0\n0 start 129:q0\n\
                0 start 128:q1\n0 stop 128:q0\n0 start 128:q0\n0 start 128:q0\n\
                0 play 128:q0 0 none.mid\n0 play 128:q0 0 m.mid\n\
                1 schedule 128:q0 0 n+18446744073709551615 F8\n1 receive 0\n\
                1 queue 2 32768 500000\n1 port 2 NNNNNNNNNNNNNNNNNNNNNNNNNNNNNNNNN 33\n",
        log: "0 line 1 refused 1 NotOpen\n0 line 2 refused 4 BadSize\n0 line 3 ok\n\
                0 line 4 refused 2 AlreadyOpen\n0 line 5 ok\n0 line 6 refused 6 NodeExists\n\
                0 line 7 refused 7 NoNode\n0 line 8 refused 5 BadRule\n\
                0 line 9 refused 8 NoSender\n0 line 10 ok\n0 line 11 refused 15 QueueExists\n\
                0 line 12 refused 22 BadTempo\n0 line 13 refused 16 NotYours\n\
                0 line 14 refused 17 NoQueue\n0 line 15 refused 19 QueueStopped\n0 line 16 ok\n\
                0 line 17 refused 18 QueueRunning\n0 line 18 refused 20 NoFile\n\
                0 line 19 refused 21 DivisionDiffers\n1 line 20 refused 23 BadTime\n\
                1 line 21 refused 4 BadSize\n1 line 22 refused 4 BadSize\n\
                1 line 23 refused 3 BadName\n",
    }],
    songs: &[SMALL],
    until: 10,
    listing: None,
};

#[test]
fn lowest_refusals(rt: HostRuntime) -> Result<(), Fail> {
    assert_session(&rt, rt.alloc(), &LOWEST_REFUSALS)
}
