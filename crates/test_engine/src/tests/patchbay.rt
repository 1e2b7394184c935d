//! The listing, what goes along the subscriptions, and when queues say that events are due.

use super::lines::At::{self, F, P};
use super::lines::{ALL, address, queue_at};
use super::setting_up::Step::{self, *};
use super::wiring::{join, take_all};
use midi_wire::Message;
use node_table::{ClientId, PortNo};
use route_filter::{Kinds, RuleArgs};
use seq_patchbay::Patchbay;
use seq_settle::Desk;
use seq_state::Delivery;
use std::alloc::Global;
use std::process::Abort;
use tempo_clock::Due;

/// What is done to a new patchbay, and what it says then.
#[derive(Clone, Copy)]
struct Case {
    name: &'static str,
    stages: &'static [Stage],
}

/// Changes of the clients, then of the subscriptions, and what the patchbay says after them.
#[derive(Clone, Copy)]
struct Stage {
    steps: &'static [(u8, Step)],
    edges: &'static [Edge],
    says: &'static [Said],
}

/// A change of the subscriptions.
#[derive(Clone, Copy)]
enum Edge {
    Join(At, At),
    Part(At, At),
}

#[derive(Clone, Copy)]
enum Said {
    Listing(&'static str),
    /// The notes that port 0 of client 128 sends, and the port and the note of each that comes.
    Sound(&'static [u8], &'static [(u8, u8)]),
    /// A queue of client 128, and the moment of an event that is due after 90 ns by it.
    Moment(u8, Option<u64>),
}

use self::Edge::*;
use self::Said::*;

const SYNTH: (u8, Step) = (128, Open(b"synth", 2, 3));

const OCTAVE_DOWN: RuleArgs = RuleArgs {
    low: 12,
    shift: -12,
    ..ALL
};

const TWO_OCTAVES_DOWN: RuleArgs = RuleArgs {
    low: 24,
    shift: -24,
    ..ALL
};

/// Notes that begin on the first channel go to the last.
const TO_LAST_CHANNEL: RuleArgs = RuleArgs {
    channels: 1,
    kinds: Kinds::NOTE_ON,
    channel: Some(15),
    ..ALL
};

/// Queue 1 runs, queue 0 is held, queue 7 is held and shared.
const THREE_QUEUES: &[(u8, Step)] = &[
    SYNTH,
    (128, Queue(0)),
    (128, Queue(1)),
    (128, Start(1, 10)),
    (128, Queue(7)),
    (128, Share(7)),
];

const NODES: &[(u8, Step)] = &[
    SYNTH,
    (128, Port(0)),
    (128, Filter(3, OCTAVE_DOWN)),
    (129, Open(b"drums", 2000, 1)),
    (129, Port(0)),
    (129, Port(1)),
];

/// Port 0 of client 128 goes to port 0 of client 129 through filter 3, and straight to its port 1.
const TWO_WAYS: &[Edge] = &[
    Join(F(128, 3), P(129, 0)),
    Join(P(128, 0), F(128, 3)),
    Join(P(128, 0), P(129, 1)),
];

const LISTINGS: &[Case] = &[
    Case {
        name: "nobody is listed at first",
        stages: &[Stage {
            steps: &[],
            edges: &[],
            says: &[Listing("")],
        }],
    },
    Case {
        name: "clients are listed by number",
        stages: &[Stage {
            steps: &[(191, Open(b"drums", 2000, 1)), SYNTH],
            edges: &[],
            says: &[Listing("client 128 synth in 2 out 3\nclient 191 drums in 2000 out 1\n")],
        }],
    },
    Case {
        name: "ports are listed by number",
        stages: &[Stage {
            steps: &[SYNTH, (128, Port(15)), (128, Port(0))],
            edges: &[],
            says: &[Listing(
                "client 128 synth in 2 out 3\nport 128:p0 out 1\nport 128:p15 out 1\n",
            )],
        }],
    },
    Case {
        name: "filters are listed with their rules",
        stages: &[Stage {
            steps: &[
                SYNTH,
                (128, Filter(3, TO_LAST_CHANNEL)),
                (128, Filter(0, OCTAVE_DOWN)),
            ],
            edges: &[],
            says: &[Listing(
                "client 128 synth in 2 out 3\n\
                filter 128:f0 2 65535 1023 12 127 -12\n\
                filter 128:f3 2 1 2 0 127 0 15\n",
            )],
        }],
    },
    Case {
        name: "queues are listed",
        stages: &[Stage {
            steps: THREE_QUEUES,
            edges: &[],
            says: &[Listing(
                "client 128 synth in 2 out 3\n\
                queue 128:q0 stopped\nqueue 128:q1 running\nqueue 128:q7 stopped shared\n",
            )],
        }],
    },
    Case {
        name: "a shared queue may run",
        stages: &[Stage {
            steps: &[SYNTH, (128, Queue(6)), (128, Share(6)), (128, Start(6, 10))],
            edges: &[],
            says: &[Listing("client 128 synth in 2 out 3\nqueue 128:q6 running shared\n")],
        }],
    },
    Case {
        name: "edges are listed at the end",
        stages: &[Stage {
            steps: NODES,
            edges: TWO_WAYS,
            says: &[Listing(
                "client 128 synth in 2 out 3\nport 128:p0 out 1\n\
                filter 128:f3 2 65535 1023 12 127 -12\n\
                client 129 drums in 2000 out 1\nport 129:p0 out 1\nport 129:p1 out 1\n\
                edge 128:f3 129:p0\nedge 128:p0 128:f3\nedge 128:p0 129:p1\n",
            )],
        }],
    },
    Case {
        name: "ports come before filters and queues",
        stages: &[Stage {
            steps: &[
                SYNTH,
                (128, Queue(0)),
                (128, Filter(15, TO_LAST_CHANNEL)),
                (128, Port(7)),
            ],
            edges: &[],
            says: &[Listing(
                "client 128 synth in 2 out 3\nport 128:p7 out 1\n\
                filter 128:f15 2 1 2 0 127 0 15\nqueue 128:q0 stopped\n",
            )],
        }],
    },
];

const SOUNDS: &[Case] = &[
    Case {
        // The filter takes no note below 12.
        name: "notes go both ways",
        stages: &[Stage {
            steps: NODES,
            edges: TWO_WAYS,
            says: &[Sound(&[60, 11], &[(0, 48), (1, 60), (1, 11)])],
        }],
    },
    Case {
        name: "another rule counts at once",
        stages: &[
            TWO_WAYS_SOUND,
            Stage {
                steps: &[(128, SetFilter(3, TWO_OCTAVES_DOWN))],
                edges: &[],
                says: &[Sound(&[60], &[(0, 36), (1, 60)])],
            },
        ],
    },
    Case {
        name: "another subscription counts at once",
        stages: &[
            TWO_WAYS_SOUND,
            Stage {
                steps: &[],
                edges: &[Join(F(128, 3), P(129, 1))],
                says: &[Sound(&[60], &[(0, 48), (1, 48), (1, 60)])],
            },
        ],
    },
    Case {
        name: "filters one after another are one rule",
        stages: &[
            Stage {
                steps: NODES,
                edges: TWO_WAYS,
                says: &[],
            },
            Stage {
                steps: &[(128, Filter(4, OCTAVE_DOWN))],
                edges: &[
                    Part(F(128, 3), P(129, 0)),
                    Join(F(128, 3), F(128, 4)),
                    Join(F(128, 4), P(129, 0)),
                ],
                says: &[Sound(&[60], &[(0, 36), (1, 60)])],
            },
        ],
    },
];

const TWO_WAYS_SOUND: Stage = Stage {
    steps: NODES,
    edges: TWO_WAYS,
    says: &[Sound(&[60], &[(0, 48), (1, 60)])],
};

const MOMENTS: &[Case] = &[Case {
    name: "moments are of queues that run",
    stages: &[Stage {
        steps: THREE_QUEUES,
        edges: &[],
        says: &[Moment(0, None), Moment(1, Some(100)), Moment(2, None)],
    }],
}];

#[test]
fn listings(rt: HostRuntime) {
    assert_cases(&rt, rt.alloc(), LISTINGS);
}

#[test]
fn sounds(rt: HostRuntime) {
    assert_cases(&rt, rt.alloc(), SOUNDS);
}

#[test]
fn moments(rt: HostRuntime) {
    assert_cases(&rt, rt.alloc(), MOMENTS);
}

fn assert_cases(rt: &impl Abort, alloc: Global, cases: &[Case]) {
    for case in cases {
        assert!(rt; holds(alloc, case) == Some(true), "{}", case.name);
    }
}

/// Whether a new patchbay says what it should. `None` where a change does not fit what is there, or memory is wanting.
fn holds(alloc: Global, case: &Case) -> Option<bool> {
    let mut patchbay = Patchbay::new(alloc);
    are_reached(&mut patchbay, alloc, case.stages)
}

fn are_reached(patchbay: &mut Patchbay, alloc: Global, stages: &[Stage]) -> Option<bool> {
    for stage in stages {
        if !is_reached(patchbay, alloc, stage)? {
            return Some(false);
        }
    }
    Some(true)
}

/// Makes the changes. Whether the patchbay says what it should then.
fn is_reached(patchbay: &mut Patchbay, alloc: Global, stage: &Stage) -> Option<bool> {
    take_all(patchbay, alloc, stage.steps)?;
    for edge in stage.edges {
        change(patchbay, *edge)?;
    }
    for said in stage.says {
        if !is_said(patchbay, alloc, *said)? {
            return Some(false);
        }
    }
    Some(true)
}

fn change(patchbay: &mut Patchbay, edge: Edge) -> Option<()> {
    let (Join(from, to) | Part(from, to)) = edge;
    let Some(source) = address(from) else {
        return None;
    };
    let Some(target) = address(to) else {
        return None;
    };
    match edge {
        Join(..) => join(patchbay, source, target),
        Part(..) => {
            patchbay.disconnect(&source, &target);
            Some(())
        }
    }
}

fn is_said(patchbay: &mut Patchbay, alloc: Global, said: Said) -> Option<bool> {
    match said {
        Listing(text) => Some(patchbay.listing(alloc).ok()?.as_slice() == text.as_bytes()),
        Sound(sent, wanted) => Some(is_heard(send(patchbay, alloc, sent)?.as_slice(), wanted)),
        Moment(queue, wanted) => {
            let due = Due::Nanos(90);
            Some(patchbay.moment_of(&queue_at(128, queue)?, 0, due) == wanted)
        }
    }
}

/// Sends notes from port 0 of client 128, one after another.
fn send(patchbay: &mut Patchbay, alloc: Global, notes: &[u8]) -> Option<Vec<Delivery>> {
    let client = ClientId::new(128)?;
    let port = PortNo::new(0)?;
    let messages = notes_on(alloc, notes)?;
    let mut out = Vec::new(alloc);
    let sent = patchbay.send_all(5, client, port, messages.as_slice(), &mut out);
    sent.ok()?;
    Some(out)
}

/// Notes on the first channel, with velocity 64.
fn notes_on(alloc: Global, notes: &[u8]) -> Option<Vec<Message>> {
    let mut messages = Vec::new(alloc);
    for note in notes {
        let message = Message::from_bytes(alloc, &[0x90, *note, 64]).ok()??;
        messages.push(message).ok()?;
    }
    Some(messages)
}

/// Whether these notes came, each to this port, and no more.
fn is_heard(out: &[Delivery], wanted: &[(u8, u8)]) -> bool {
    let heard = out.iter().map(|d| (d.target.port.number(), d.message.byte_at(1).unwrap_or(0)));
    heard.eq(wanted.iter().copied())
}
