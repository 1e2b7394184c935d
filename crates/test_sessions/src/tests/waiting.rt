//! What waits on a queue while the queue changes.

use super::sending::LISTENS;
use super::session::{Part, Session, assert_session};
use std::test::Fail;

/// A queue is started, held, run on and changed in tempo, at 1,000 ns a tick and then at 2,000. What is due by ticks
/// and what is due by nanoseconds comes by the queue as it runs in the end; what is dropped while it waits never comes.
const HELD_AND_RUN_ON: Session = Session {
    parts: &[
        Part {
            client: 128,
            script: "0 open a 8 8\n\
                0 port 0 out 33\n\
                0 port 1 out 33\n\
                0 queue 0 1000 1000\n\
                0 schedule 128:q0 0 t5 90 01 40\n\
                0 schedule 128:q0 0 n3000 90 02 40\n\
                0 schedule 128:q0 0 t1 90 03 40\n\
                0 schedule 128:q0 1 t4 90 04 40\n\
                10 start 128:q0\n\
                2010 stop 128:q0\n\
                3000 unport 1\n\
                4000 continue 128:q0\n\
                5500 tempo 128:q0 2000\n",
            log: "0 line 1 ok\n0 line 2 ok\n0 line 3 ok\n0 line 4 ok\n0 line 5 ok\n0 line 6 ok\n\
                0 line 7 ok\n0 line 8 ok\n10 line 9 ok\n2010 line 10 ok\n3000 line 11 ok\n\
                4000 line 12 ok\n5500 line 13 ok\n",
        },
        Part {
            client: 129,
            script: "0 open b 8 8\n\
                0 port 0 in 66\n\
                0 connect 128:p0 129:p0\n\
                0 connect 128:p1 129:p0\n",
            log: "0 line 1 ok\n0 line 2 ok\n0 line 3 ok\n0 line 4 ok\n1010 port 0 90 03 40\n\
                5000 port 0 90 02 40\n8000 port 0 90 01 40\n",
        },
    ],
    songs: &[],
    until: 20_000,
    listing: None,
};

/// Two ticks last one nanosecond: of what is due at both, what was accepted first comes first.
const LATER_TICK_FIRST: Session = Session {
    parts: &[
        Part {
            client: 128,
            script: "0 open a 8 8\n\
                0 port 0 out 33\n\
                0 queue 0 2000 1\n\
                0 schedule 128:q0 0 t2 90 01 40\n\
                0 schedule 128:q0 0 t1 90 02 40\n\
                10 start 128:q0\n",
            log: "0 line 1 ok\n0 line 2 ok\n0 line 3 ok\n0 line 4 ok\n0 line 5 ok\n10 line 6 ok\n",
        },
        Part {
            client: 129,
            script: LISTENS,
            log: "0 line 1 ok\n0 line 2 ok\n0 line 3 ok\n11 port 0 90 01 40\n11 port 0 90 02 40\n",
        },
    ],
    songs: &[],
    until: 20,
    listing: None,
};

/// Two clients wait on one queue while its owner holds it. What is due in the past when it is accepted comes at once.
const GUEST_WAITS: Session = Session {
    parts: &[
        Part {
            client: 128,
            script: "0 open a 8 8\n\
                0 port 0 out 33\n\
                0 queue 0 480 500000\n\
                0 share 128:q0\n\
                10 schedule 128:q0 0 n100 90 01 40\n\
                20 start 128:q0\n\
                150 stop 128:q0\n\
                200 continue 128:q0\n",
            log: "0 line 1 ok\n0 line 2 ok\n0 line 3 ok\n0 line 4 ok\n10 line 5 ok\n20 line 6 ok\n\
                150 line 7 ok\n200 line 8 ok\n",
        },
        Part {
            client: 129,
            script: "0 open b 8 8\n\
                0 port 0 in 66\n\
                0 connect 128:p0 129:p0\n\
                1 connect 130:p0 129:p0\n",
            log: "0 line 1 ok\n0 line 2 ok\n0 line 3 ok\n1 line 4 ok\n120 port 0 90 02 40\n\
                120 port 0 90 01 40\n220 port 0 90 04 40\n370 port 0 90 03 40\n",
        },
        Part {
            client: 130,
            script: "0 open c 8 8\n\
                0 port 0 out 33\n\
                1 schedule 128:q0 0 n100 90 02 40\n\
                1 schedule 128:q0 0 n300 90 03 40\n\
                220 schedule 128:q0 0 n140 90 04 40\n",
            log: "0 line 1 ok\n0 line 2 ok\n1 line 3 ok\n1 line 4 ok\n220 line 5 ok\n",
        },
    ],
    songs: &[],
    until: 400,
    listing: None,
};

#[test]
fn waiting_on_a_queue(rt: HostRuntime) -> Result<(), Fail> {
    for session in [HELD_AND_RUN_ON, LATER_TICK_FIRST, GUEST_WAITS] {
        assert_session(&rt, rt.alloc(), &session)?;
    }
    Ok(())
}
