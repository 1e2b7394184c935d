//! What becomes of messages, through the public calls.

use super::*;
use midi_wire::Message;
use node_table::{Addr, Caps, ClientId, FilterNo, Node, PortNo};
use patch_graph::MOST_SOURCES;
use route_filter::{Kinds, Rule, RuleArgs};
use seq_patchbay::Patchbay;
use std::alloc::Global;

/// A port of a client, or a filter of client 128.
#[derive(Clone, Copy)]
enum At {
    P(u8, u8),
    F(u8),
}

/// What should become of the message on a way.
#[derive(Clone, Copy)]
enum Told {
    StoppedBy(u8, Stop),
    Comes,
    LostOf(u32),
}

use self::At::*;
use self::Told::*;

/// What port 0 of client 128 sends at moment 5, and what becomes of it.
#[derive(Clone, Copy)]
struct Case {
    name: &'static str,
    /// The filters of client 128.
    rules: &'static [RuleArgs],
    edges: &'static [(At, At)],
    /// How many messages may wait for client 129.
    size: u32,
    /// Whether client 129 listens.
    listens: bool,
    /// What the port sends first, at this moment.
    before: Option<(u64, &'static [u8])>,
    sent: &'static [u8],
    most: usize,
    ways: &'static [(&'static [At], Told)],
    more: u64,
}

const ALL: RuleArgs = RuleArgs {
    channels: 65535,
    kinds: Kinds::ALL,
    low: 0,
    high: 127,
    shift: 0,
    channel: None,
};

/// Notes of the first channel from 60 to 120, an octave up, to the sixth channel.
const OCTAVE_UP: RuleArgs = RuleArgs {
    channels: 1,
    kinds: Kinds::NOTE_ON,
    low: 60,
    high: 120,
    shift: 12,
    channel: Some(5),
};

const NOT_HIGH: RuleArgs = RuleArgs { high: 80, ..ALL };

const FIRST_CHANNEL: RuleArgs = RuleArgs { channels: 1, ..ALL };

const TWO_WAYS: &[(At, At)] = &[(F(0), P(129, 0)), (P(128, 0), F(0)), (P(128, 0), P(129, 1))];

const THROUGH_BOTH: &[(At, At)] = &[(P(128, 0), F(0)), (F(0), F(1)), (F(1), P(129, 0))];

const FILTERED: &[At] = &[F(0), P(129, 0)];

const STRAIGHT: &[At] = &[P(129, 1)];

const CASE: Case = Case {
    name: "two ways with room",
    rules: &[OCTAVE_UP],
    edges: TWO_WAYS,
    size: 2,
    listens: false,
    before: None,
    sent: b"\x90\x3C\x40",
    most: 10,
    ways: &[(FILTERED, Comes), (STRAIGHT, Comes)],
    more: 0,
};

const STOPS: &[Case] = &[
    CASE,
    Case {
        name: "a note off is of another kind",
        sent: b"\x80\x3C\x40",
        ways: &[(FILTERED, StoppedBy(0, Stop::Kind)), (STRAIGHT, Comes)],
        ..CASE
    },
    Case {
        name: "a clock has no channel",
        sent: b"\xF8",
        ways: &[(FILTERED, StoppedBy(0, Stop::Kind)), (STRAIGHT, Comes)],
        ..CASE
    },
    Case {
        name: "the channel is tested before the note",
        sent: b"\x91\x3B\x40",
        ways: &[
            (FILTERED, StoppedBy(0, Stop::Channel(1))),
            (STRAIGHT, Comes),
        ],
        ..CASE
    },
    Case {
        name: "a note below the range",
        sent: b"\x90\x3B\x40",
        ways: &[
            (
                FILTERED,
                StoppedBy(0, Stop::NoteBelow { note: 59, low: 60 }),
            ),
            (STRAIGHT, Comes),
        ],
        ..CASE
    },
    Case {
        name: "a note above the range",
        sent: b"\x90\x79\x40",
        ways: &[
            (
                FILTERED,
                StoppedBy(
                    0,
                    Stop::NoteAbove {
                        note: 121,
                        high: 120,
                    },
                ),
            ),
            (STRAIGHT, Comes),
        ],
        ..CASE
    },
    Case {
        name: "a note that the shift takes out of the range of notes",
        sent: b"\x90\x74\x40",
        ways: &[
            (
                FILTERED,
                StoppedBy(
                    0,
                    Stop::NoteShifted {
                        note: 116,
                        shift: 12,
                    },
                ),
            ),
            (STRAIGHT, Comes),
        ],
        ..CASE
    },
    Case {
        name: "the second filter reads the note that the first has shifted",
        rules: &[OCTAVE_UP, NOT_HIGH],
        edges: THROUGH_BOTH,
        sent: b"\x90\x45\x40",
        ways: &[(
            &[F(0), F(1), P(129, 0)],
            StoppedBy(1, Stop::NoteAbove { note: 81, high: 80 }),
        )],
        ..CASE
    },
    Case {
        name: "and the channel that the first has given",
        rules: &[OCTAVE_UP, FIRST_CHANNEL],
        edges: THROUGH_BOTH,
        ways: &[(&[F(0), F(1), P(129, 0)], StoppedBy(1, Stop::Channel(5)))],
        ..CASE
    },
];

const ROOMS: &[Case] = &[
    Case {
        name: "the first copy takes the room",
        size: 1,
        ways: &[(FILTERED, Comes), (STRAIGHT, LostOf(1))],
        ..CASE
    },
    Case {
        name: "what is stopped takes no room",
        size: 1,
        sent: b"\x90\x3B\x40",
        ways: &[
            (
                FILTERED,
                StoppedBy(0, Stop::NoteBelow { note: 59, low: 60 }),
            ),
            (STRAIGHT, Comes),
        ],
        ..CASE
    },
    Case {
        name: "what waits takes room",
        size: 3,
        before: Some((4, b"\x90\x3C\x40")),
        ways: &[(FILTERED, Comes), (STRAIGHT, LostOf(3))],
        ..CASE
    },
    Case {
        name: "a full pool",
        before: Some((5, b"\x90\x3C\x40")),
        ways: &[(FILTERED, LostOf(2)), (STRAIGHT, LostOf(2))],
        ..CASE
    },
    Case {
        name: "who listens has room at each moment",
        listens: true,
        before: Some((4, b"\x90\x3C\x40")),
        ..CASE
    },
    Case {
        name: "and at one moment as much as may wait",
        listens: true,
        before: Some((5, b"\x90\x3C\x40")),
        ways: &[(FILTERED, LostOf(2)), (STRAIGHT, LostOf(2))],
        ..CASE
    },
];

/// From the port to two filters, from each of them to two others, and so on to two ports: 16 ways.
const DOUBLED: &[(At, At)] = &[
    (P(128, 0), F(0)),
    (P(128, 0), F(1)),
    (F(0), F(2)),
    (F(0), F(3)),
    (F(1), F(2)),
    (F(1), F(3)),
    (F(2), F(4)),
    (F(2), F(5)),
    (F(3), F(4)),
    (F(3), F(5)),
    (F(4), P(129, 0)),
    (F(4), P(129, 1)),
    (F(5), P(129, 0)),
    (F(5), P(129, 1)),
];

const COUNTS: &[Case] = &[
    Case {
        name: "no way",
        edges: &[(F(0), P(129, 0))],
        ways: &[],
        ..CASE
    },
    Case {
        name: "a filter that leads nowhere is on no way",
        edges: &[(P(128, 0), F(0)), (P(128, 0), P(129, 1))],
        ways: &[(STRAIGHT, Comes)],
        ..CASE
    },
    Case {
        name: "one way of two",
        most: 1,
        ways: &[(FILTERED, Comes)],
        more: 1,
        ..CASE
    },
    Case {
        name: "none of two",
        most: 0,
        ways: &[],
        more: 2,
        ..CASE
    },
    Case {
        name: "ways that part and meet",
        rules: &[ALL, ALL, ALL, ALL, ALL, ALL],
        edges: DOUBLED,
        most: 3,
        ways: &[
            (&[F(0), F(2), F(4), P(129, 0)], Comes),
            (&[F(0), F(2), F(4), P(129, 1)], Comes),
            (&[F(0), F(2), F(5), P(129, 0)], LostOf(2)),
        ],
        more: 13,
        ..CASE
    },
];

#[test]
fn stops(rt: HostRuntime) {
    for case in STOPS {
        assert!(rt; holds(rt.alloc(), case) == Some(true), "{}", case.name);
    }
}

#[test]
fn rooms_left(rt: HostRuntime) {
    for case in ROOMS {
        assert!(rt; holds(rt.alloc(), case) == Some(true), "{}", case.name);
    }
}

#[test]
fn counts(rt: HostRuntime) {
    for case in COUNTS {
        assert!(rt; holds(rt.alloc(), case) == Some(true), "{}", case.name);
    }
}

/// Whether what should become of a message does. `None` where the patchbay cannot be made, or memory is wanting.
fn holds(alloc: Global, case: &Case) -> Option<bool> {
    let mut patchbay = Patchbay::new(alloc);
    set_up(&mut patchbay, case)?;
    send_before(&mut patchbay, alloc, case.before)?;
    is_told(&patchbay, alloc, case)
}

fn is_told(patchbay: &Patchbay, alloc: Global, case: &Case) -> Option<bool> {
    let Some(source) = address(P(128, 0)) else {
        return None;
    };
    let message = Message::from_bytes(alloc, case.sent).ok()??;
    let told = fates(alloc, patchbay, 5, &source, &message, case.most).ok()?;
    Some(told.more == case.more && are_ways(told.ways.as_slice(), case.ways))
}

fn are_ways(told: &[WayFate], wanted: &[(&'static [At], Told)]) -> bool {
    told.len() == wanted.len()
        && told.iter().zip(wanted).all(|(way, (nodes, fate))| are_nodes(way.route.nodes(), nodes)
            && is_fate(way.fate, *fate))
}

fn are_nodes(nodes: &[Addr], wanted: &[At]) -> bool {
    nodes.len() == wanted.len()
        && nodes
            .iter()
            .zip(wanted)
            .all(|(node, at)| address(*at) == Some(*node))
}

fn is_fate(fate: Fate, wanted: Told) -> bool {
    match (fate, wanted) {
        (Fate::Stopped { filter, why }, StoppedBy(number, stop)) => {
            address(F(number)) == Some(filter) && why == stop
        }
        (Fate::Arrives, Comes) => true,
        (Fate::Lost { size }, LostOf(wanted)) => size == wanted,
        _ => false,
    }
}

fn address(at: At) -> Option<Addr> {
    let (client, node) = match at {
        P(client, port) => (client, Node::Port(PortNo::new(port)?)),
        F(filter) => (128, Node::Filter(FilterNo::new(filter)?)),
    };
    let client = ClientId::new(client)?;
    Some(Addr { client, node })
}

/// Opens both clients, with their nodes and subscriptions.
fn set_up(patchbay: &mut Patchbay, case: &Case) -> Option<()> {
    let (sender, receiver) = (ClientId::new(128)?, ClientId::new(129)?);
    open(patchbay, sender, 1)?;
    open(patchbay, receiver, case.size)?;
    make_port(patchbay, sender, 0)?;
    make_port(patchbay, receiver, 0)?;
    make_port(patchbay, receiver, 1)?;
    for (number, rule) in case.rules.iter().enumerate() {
        make_filter(patchbay, sender, u8::try_from(number).ok()?, *rule)?;
    }
    for (source, target) in case.edges {
        join(patchbay, *source, *target)?;
    }
    if case.listens {
        patchbay.listen(receiver);
    }
    Some(())
}

#[tactic(auto, using(seq_clients::proofs::Tested::none_if_not))]
fn open(patchbay: &mut Patchbay, client: ClientId, size: u32) -> Option<()> {
    if patchbay.clients().is_open(client) || size < 1 || size > 2000 {
        return None;
    }
    patchbay.open(client, b"keys", size, 1).ok()
}

fn make_port(patchbay: &mut Patchbay, client: ClientId, port: u8) -> Option<()> {
    let port = PortNo::new(port)?;
    let clients = patchbay.clients();
    if !clients.is_open(client) || clients.has_port(client, port) {
        return None;
    }
    patchbay.create_port(client, port, b"out", Caps::READ).ok()
}

fn make_filter(
    patchbay: &mut Patchbay,
    client: ClientId,
    filter: u8,
    args: RuleArgs,
) -> Option<()> {
    let filter = FilterNo::new(filter)?;
    let clients = patchbay.clients();
    if !clients.is_open(client) || clients.has_filter(client, filter) {
        return None;
    }
    let rule = Rule::new(args)?;
    patchbay
        .create_filter(client, filter, Caps::WRITE, rule)
        .ok()
}

/// Subscribes one node to another.
#[tactic(auto, unfolding(patch_graph::specs::Edges::most_sources))]
fn join(patchbay: &mut Patchbay, source: At, target: At) -> Option<()> {
    let Some(source) = address(source) else {
        return None;
    };
    let Some(target) = address(target) else {
        return None;
    };
    let graph = patchbay.graph();
    if graph.has_edge(&source, &target)
        || graph.sources(&target) >= MOST_SOURCES
        || graph.makes_cycle(&source, &target)
    {
        return None;
    }
    patchbay.connect(source, target).ok()
}

/// Sends what comes first from port 0 of client 128.
fn send_before(
    patchbay: &mut Patchbay,
    alloc: Global,
    before: Option<(u64, &'static [u8])>,
) -> Option<()> {
    let Some((moment, bytes)) = before else {
        return Some(());
    };
    let (client, port) = (ClientId::new(128)?, PortNo::new(0)?);
    let message = Message::from_bytes(alloc, bytes).ok()??;
    let mut out = Vec::new(alloc);
    patchbay
        .send_all(moment, client, port, &[message], &mut out)
        .ok()
}
