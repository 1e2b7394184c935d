//! Queues, and what is sent by them.

use super::files::{FRAMES, SMALL, notes};
use super::sending::LISTENS;
use super::session::{Part, Session, assert_played, assert_session};
use smf_files::{SmfFile, write_format0};
use std::test::Fail;

/// Two clients schedule a note for one moment, the one with the greater number first.
pub const EQUAL_MOMENTS: Session = Session {
    parts: &[LATER, OF_BOTH, EARLIER],
    songs: &[],
    until: 200,
    listing: None,
};

pub const LATER: Part = Part {
    client: 128,
    script: "0 open a 8 8\n\
        0 port 0 out 33\n\
        0 queue 0 480 500000\n\
        0 start 128:q0\n\
        2 schedule 128:q0 0 n100 90 01 40\n",
    log: "0 line 1 ok\n0 line 2 ok\n0 line 3 ok\n0 line 4 ok\n2 line 5 ok\n",
};

pub const OF_BOTH: Part = Part {
    client: 129,
    script: "0 open b 8 8\n\
        0 port 0 in 66\n\
        0 connect 128:p0 129:p0\n\
        1 connect 130:p0 129:p0\n",
    log: "0 line 1 ok\n0 line 2 ok\n0 line 3 ok\n1 line 4 ok\n\
        100 port 0 90 02 40\n100 port 0 90 01 40\n",
};

pub const EARLIER: Part = Part {
    client: 130,
    script: "0 open c 8 8\n\
        0 port 0 out 33\n\
        0 queue 0 480 500000\n\
        0 start 130:q0\n\
        1 schedule 130:q0 0 n100 90 02 40\n",
    log: "0 line 1 ok\n0 line 2 ok\n0 line 3 ok\n0 line 4 ok\n1 line 5 ok\n",
};

#[test]
fn equal_moments(rt: HostRuntime) -> Result<(), Fail> {
    assert_session(&rt, rt.alloc(), &EQUAL_MOMENTS)
}

/// A file and a message that is scheduled later come to one moment.
const PLAY_AND_SCHEDULE: Session = Session {
    parts: &[
        Part {
            client: 128,
            script: "0 open a 8 8\n\
                0 port 0 out 33\n\
                0 queuefrom 0 m.mid\n\
                0 play 128:q0 0 m.mid\n\
                1 schedule 128:q0 0 t480 90 05 40\n\
                1 start 128:q0\n",
            log: "0 line 1 ok\n0 line 2 ok\n0 line 3 ok\n0 line 4 ok\n1 line 5 ok\n1 line 6 ok\n",
        },
        Part {
            client: 129,
            script: LISTENS,
            log: "0 line 1 ok\n0 line 2 ok\n0 line 3 ok\n1 port 0 90 3C 40\n\
                500000001 port 0 90 3C 00\n500000001 port 0 90 05 40\n",
        },
    ],
    songs: &[SMALL],
    until: 600_000_000,
    listing: None,
};

#[test]
fn play_and_schedule(rt: HostRuntime) -> Result<(), Fail> {
    assert_session(&rt, rt.alloc(), &PLAY_AND_SCHEDULE)
}

/// A client with room for one message to send is refused a second, and has room again once the
/// first is sent.
const OUTPUT_FULL: Session = Session {
    parts: &[
        Part {
            client: 128,
            script: "0 open a 8 1\n\
                0 port 0 out 33\n\
                0 queue 0 480 500000\n\
                0 start 128:q0\n\
                0 schedule 128:q0 0 n100 90 01 40\n\
                0 schedule 128:q0 0 n100 90 01 40\n\
                100 schedule 128:q0 0 n+50 90 02 40\n",
            log: "0 line 1 ok\n0 line 2 ok\n0 line 3 ok\n0 line 4 ok\n0 line 5 ok\n\
                0 line 6 refused 24 OutFull\n100 line 7 ok\n",
        },
        Part {
            client: 129,
            script: LISTENS,
            log: "0 line 1 ok\n0 line 2 ok\n0 line 3 ok\n\
                100 port 0 90 01 40\n150 port 0 90 02 40\n",
        },
    ],
    songs: &[],
    until: 200,
    listing: None,
};

#[test]
fn output_full(rt: HostRuntime) -> Result<(), Fail> {
    assert_session(&rt, rt.alloc(), &OUTPUT_FULL)
}

/// A queue starts, is held, runs on and changes its tempo while three messages come, and one that
/// never comes.
const STOP_CONTINUE_TEMPO: Session = Session {
    parts: &[
        Part {
            client: 128,
            script: "0 open a 8 8\n\
                0 port 0 out 33\n\
                0 queue 0 480 500000\n\
                0 schedule 128:q0 0 n100 90 01 40\n\
                0 schedule 128:q0 0 n200 90 02 40\n\
                0 schedule 128:q0 0 n18446744073709551615 90 03 40\n\
                0 schedule 128:q0 0 t2 90 04 40\n\
                10 start 128:q0\n\
                110 stop 128:q0\n\
                400 continue 128:q0\n\
                1300 tempo 128:q0 250000\n\
                1562800 status 128:q0\n\
                1562800 pools\n",
            log: "0 line 1 ok\n0 line 2 ok\n0 line 3 ok\n0 line 4 ok\n0 line 5 ok\n0 line 6 ok\n\
                0 line 7 ok\n10 line 8 ok\n110 line 9 ok\n400 line 10 ok\n1300 line 11 ok\n\
                1562800 line 12 ok running 2 1562500\n\
                1562800 line 13 ok waiting 0 lost 0 used 1\n",
        },
        Part {
            client: 129,
            script: LISTENS,
            log: "0 line 1 ok\n0 line 2 ok\n0 line 3 ok\n\
                110 port 0 90 01 40\n500 port 0 90 02 40\n1562800 port 0 90 04 40\n",
        },
    ],
    songs: &[],
    until: 1_562_800,
    listing: None,
};

#[test]
fn stop_continue_tempo(rt: HostRuntime) -> Result<(), Fail> {
    assert_session(&rt, rt.alloc(), &STOP_CONTINUE_TEMPO)
}

/// What a port had still to send goes with it, and counts no more. Another client's note comes.
const DELETED_PORT: Session = Session {
    parts: &[
        Part {
            client: 128,
            script: "0 open a 8 8\n\
                0 port 0 out 33\n\
                0 queue 0 480 500000\n\
                0 start 128:q0\n\
                0 schedule 128:q0 0 n100 90 01 40\n\
                50 unport 0\n\
                50 pools\n",
            log: "0 line 1 ok\n0 line 2 ok\n0 line 3 ok\n0 line 4 ok\n0 line 5 ok\n\
                50 line 6 ok\n50 line 7 ok waiting 0 lost 0 used 0\n",
        },
        Part {
            client: 129,
            script: "0 open b 8 8\n\
                0 port 0 in 66\n\
                0 connect 128:p0 129:p0\n\
                1 connect 130:p0 129:p0\n",
            log: "0 line 1 ok\n0 line 2 ok\n0 line 3 ok\n1 line 4 ok\n100 port 0 90 02 40\n",
        },
        Part {
            client: 130,
            script: "0 open c 8 8\n\
                0 port 0 out 33\n\
                0 queue 0 480 500000\n\
                0 start 130:q0\n\
                60 schedule 130:q0 0 n100 90 02 40\n",
            log: "0 line 1 ok\n0 line 2 ok\n0 line 3 ok\n0 line 4 ok\n60 line 5 ok\n",
        },
    ],
    songs: &[],
    until: 200,
    listing: None,
};

#[test]
fn deleted_port(rt: HostRuntime) -> Result<(), Fail> {
    assert_session(&rt, rt.alloc(), &DELETED_PORT)
}

/// A file whose first message is sent before anyone listens, and what is dropped before it comes.
const DROP_OUTPUT: Session = Session {
    parts: &[
        Part {
            client: 128,
            script: "0 open a 8 2\n\
                0 port 0 out 33\n\
                0 queue 0 480 500000\n\
                0 start 128:q0\n\
                0 schedule 128:q0 0 n100 90 01 40\n\
                0 play 128:q0 0 m.mid\n\
                0 schedule 128:q0 0 n100 F8\n\
                50 drop\n\
                50 pools\n\
                50 unqueue 128:q0\n\
                50 status 128:q0\n",
            log: "0 line 1 ok\n0 line 2 ok\n0 line 3 ok\n0 line 4 ok\n0 line 5 ok\n0 line 6 ok\n\
                0 line 7 refused 24 OutFull\n50 line 8 ok\n\
                50 line 9 ok waiting 0 lost 0 used 0\n50 line 10 ok\n\
                50 line 11 refused 17 NoQueue\n",
        },
        Part {
            client: 129,
            script: LISTENS,
            log: "0 line 1 ok\n0 line 2 ok\n0 line 3 ok\n",
        },
    ],
    songs: &[SMALL],
    until: 600_000_000,
    listing: None,
};

#[test]
fn drop_output(rt: HostRuntime) -> Result<(), Fail> {
    assert_session(&rt, rt.alloc(), &DROP_OUTPUT)
}

/// A file far larger than the listener's pool is played by a client with room for one event.
const LONG_PLAY: Session = Session {
    parts: &[
        Part {
            client: 128,
            script: "0 open a 8 1\n\
                0 port 0 out 33\n\
                0 queuefrom 0 l.mid\n\
                0 play 128:q0 0 l.mid\n\
                1 start 128:q0\n\
                2 schedule 128:q0 0 n1 F8\n\
                6000000000 pools\n",
            log: "0 line 1 ok\n0 line 2 ok\n0 line 3 ok\n0 line 4 ok\n1 line 5 ok\n\
                2 line 6 refused 24 OutFull\n6000000000 line 7 ok waiting 0 lost 0 used 0\n",
        },
        Part {
            client: 129,
            script: "0 open b 8 8\n\
                0 port 0 in 66\n\
                0 connect 128:p0 129:p0\n\
                6000000000 pools\n",
            log: "0 line 1 ok\n0 line 2 ok\n0 line 3 ok\n\
                1 port 0 90 01 40\n1041668 port 0 90 01 40\n2083335 port 0 90 01 40\n\
                3125001 port 0 90 01 40\n4166668 port 0 90 01 40\n5208335 port 0 90 01 40\n\
                6250001 port 0 90 01 40\n7291668 port 0 90 01 40\n\
                6000000000 line 4 ok waiting 8 lost 4992 used 0\n",
        },
    ],
    songs: &[],
    until: 6_000_000_000,
    listing: None,
};

#[test]
fn long_play(rt: HostRuntime) -> Result<(), Fail> {
    let alloc = rt.alloc();
    let bytes = write_format0(alloc, 480, 500_000, notes(alloc, 5000)?.as_slice())?;
    let songs = [SmfFile::read(alloc, bytes.as_slice())?];
    let names = [Vec::from_slice(alloc, b"l.mid")?];
    assert_played(&rt, alloc, &LONG_PLAY, &names, &songs)
}

/// Client 130 sends by a queue that client 128 shares, until that deletes it.
const SHARED_QUEUE: Session = Session {
    parts: &[
        Part {
            client: 128,
            script: "0 open a 8 8\n\
                0 queue 0 480 500000\n\
                0 share 128:q0\n\
                10 start 128:q0\n\
                60 unqueue 128:q0\n",
            log: "0 line 1 ok\n0 line 2 ok\n0 line 3 ok\n10 line 4 ok\n60 line 5 ok\n",
        },
        Part {
            client: 129,
            script: "0 open b 8 8\n\
                0 port 0 in 66\n\
                1 connect 130:p0 129:p0\n",
            log: "0 line 1 ok\n0 line 2 ok\n1 line 3 ok\n30 port 0 90 01 40\n",
        },
        Part {
            client: 130,
            script: "0 open c 8 2\n\
                0 port 0 out 33\n\
                1 schedule 128:q0 0 n20 90 01 40\n\
                1 schedule 128:q0 0 n100 90 02 40\n\
                1 status 128:q0\n\
                1 start 128:q0\n\
                1 status 128:q1\n\
                60 pools\n\
                61 status 128:q0\n",
            log: "0 line 1 ok\n0 line 2 ok\n1 line 3 ok\n1 line 4 ok\n\
                1 line 5 ok stopped 0 0\n1 line 6 refused 16 NotYours\n\
                1 line 7 refused 16 NotYours\n60 line 8 ok waiting 0 lost 0 used 0\n\
                61 line 9 refused 16 NotYours\n",
        },
    ],
    songs: &[],
    until: 200,
    listing: None,
};

#[test]
fn shared_queue(rt: HostRuntime) -> Result<(), Fail> {
    assert_session(&rt, rt.alloc(), &SHARED_QUEUE)
}

/// A file that counts frames is played by a queue that is made from it, and by no other. Its tempo
/// cannot be set.
const SMPTE_FILE: Session = Session {
    parts: &[
        Part {
            client: 128,
            script: "0 open a 8 8\n\
                0 port 0 out 33\n\
                0 queuefrom 0 s.mid\n\
                0 play 128:q0 0 s.mid\n\
                0 tempo 128:q0 250000\n\
                0 queue 1 480 500000\n\
                0 play 128:q1 0 s.mid\n\
                1 start 128:q0\n",
            log: "0 line 1 ok\n0 line 2 ok\n0 line 3 ok\n0 line 4 ok\n\
                0 line 5 refused 22 BadTempo\n0 line 6 ok\n\
                0 line 7 refused 21 DivisionDiffers\n1 line 8 ok\n",
        },
        Part {
            client: 129,
            script: LISTENS,
            log: "0 line 1 ok\n0 line 2 ok\n0 line 3 ok\n\
                1 port 0 90 3C 40\n480000001 port 0 90 3C 00\n",
        },
    ],
    songs: &[FRAMES],
    until: 600_000_000,
    listing: None,
};

#[test]
fn smpte_file(rt: HostRuntime) -> Result<(), Fail> {
    assert_session(&rt, rt.alloc(), &SMPTE_FILE)
}
