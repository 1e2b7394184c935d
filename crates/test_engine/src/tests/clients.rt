//! The open clients: what they have, and what waits for them.

use super::lines::ALL;
use super::setting_up::Step::{self, *};
use super::setting_up::take;
use bitflags::Flags;
use midi_wire::Message;
use node_table::{Addr, ClientId, FilterNo, Node, PortNo, QueueAddr, QueueNo};
use route_filter::{Kinds, RuleArgs};
use seq_clients::Clients;
use seq_state::Arrival;
use std::alloc::Global;
use std::process::Abort;

/// What client 128 does, from where nobody is open, and what the clients answer after each step.
#[derive(Clone, Copy)]
struct Case {
    name: &'static str,
    rows: &'static [(Step, &'static [Asked])],
}

/// What is asked, with the answer. Where it has no number of a client, it is asked of client 128.
#[derive(Clone, Copy)]
enum Asked {
    /// A client, its name where it is open, and the sizes of its input and its output.
    IsClient(u8, Option<&'static [u8]>, u32, u32),
    /// A port, and its name and its capabilities where it is there.
    IsPort(u8, Option<&'static [u8]>, Option<u8>),
    /// A filter, and the kinds that it lets pass where it is there.
    IsFilter(u8, Option<u16>),
    /// A queue, and whether it is shared where it is there.
    IsQueue(u8, Option<bool>),
    /// At a moment, whether a queue runs, and what it shows.
    Shows(u8, u64, bool, u64),
    /// The time in nanoseconds at which a queue reaches a tick.
    Reaches(u8, u64, u128),
    /// A piece of a port's stream, how many messages it completes, and their bytes.
    Feeds(u8, &'static [u8], usize, &'static [u8]),
    /// A client, the moment of a message for it, and whether there is room.
    Offers(u8, u64, bool),
    /// How many messages wait, and how many are lost.
    Waits(u32, u64),
    /// Whether it listens.
    Listens(bool),
    /// How many messages are taken at most, and the moment of the first.
    Receives(u32, u64),
}

use self::Asked::*;

const SYNTH: Step = Open(b"synth", 2, 3);

const KIND_0: RuleArgs = RuleArgs {
    kinds: Kinds::NOTE_OFF,
    ..ALL
};

const KIND_1: RuleArgs = RuleArgs {
    kinds: Kinds::NOTE_ON,
    ..ALL
};

const CASES: &[Case] = &[
    Case {
        name: "a client opens and closes",
        rows: &[
            (
                SYNTH,
                &[
                    IsClient(128, Some(b"synth"), 2, 3),
                    IsClient(129, None, 0, 0),
                ],
            ),
            (Close, &[IsClient(128, None, 0, 0)]),
        ],
    },
    Case {
        name: "ports are made and dropped",
        rows: &[
            (SYNTH, &[IsPort(15, None, None)]),
            (
                Port(15),
                &[IsPort(15, Some(b"out"), Some(1)), IsPort(0, None, None)],
            ),
            (DeletePort(15), &[IsPort(15, None, None)]),
        ],
    },
    Case {
        name: "filters have rules",
        rows: &[
            (SYNTH, &[IsFilter(3, None)]),
            (
                Filter(3, KIND_0),
                &[IsFilter(3, Some(1)), IsPort(3, None, None)],
            ),
            (SetFilter(3, KIND_1), &[IsFilter(3, Some(2))]),
            (DeleteFilter(3), &[IsFilter(3, None)]),
        ],
    },
    Case {
        name: "queues are made and shared",
        rows: &[
            (SYNTH, &[IsQueue(7, None)]),
            (Queue(7), &[IsQueue(7, Some(false)), IsQueue(0, None)]),
            (Share(7), &[IsQueue(7, Some(true))]),
            (DeleteQueue(7), &[IsQueue(7, None)]),
        ],
    },
    Case {
        name: "queues run",
        rows: &[
            (SYNTH, &[]),
            (Queue(0), &[Shows(0, 5, false, 0)]),
            (Start(0, 10), &[Shows(0, 30, true, 20)]),
            (Stop(0, 110), &[Shows(0, 399, false, 100)]),
            (Resume(0, 400), &[Shows(0, 500, true, 200)]),
        ],
    },
    Case {
        // 96 ticks last as long as a quarter note does.
        name: "a tempo is set",
        rows: &[
            (SYNTH, &[]),
            (Queue(0), &[Reaches(0, 96, 500_000_000)]),
            (DoubleTempo(0, 0), &[Reaches(0, 96, 250_000_000)]),
        ],
    },
    Case {
        name: "streams go on between pieces",
        rows: &[
            (SYNTH, &[]),
            (
                Port(0),
                &[
                    Feeds(0, &[0x90, 60], 0, &[]),
                    Feeds(0, &[], 0, &[]),
                    // Running status: the second note has no status of its own.
                    Feeds(0, &[64, 62, 64], 2, &[0x90, 60, 64, 0x90, 62, 64]),
                ],
            ),
        ],
    },
    Case {
        name: "a client listens",
        rows: &[
            (SYNTH, &[Offers(128, 10, true), Listens(false)]),
            (
                Listen,
                &[
                    Listens(true),
                    Offers(128, 20, true),
                    Offers(128, 20, true),
                    Offers(128, 20, false),
                    Offers(128, 21, true),
                    Waits(1, 1),
                ],
            ),
            (
                Unlisten,
                &[
                    Listens(false),
                    Offers(128, 21, true),
                    Offers(128, 22, false),
                    Waits(2, 2),
                    Receives(2, 10),
                ],
            ),
        ],
    },
    Case {
        name: "pools fill and drain",
        rows: &[(
            SYNTH,
            &[
                Offers(128, 10, true),
                Offers(128, 20, true),
                Offers(128, 30, false),
                Waits(2, 1),
                Receives(1, 10),
                Waits(1, 1),
                Offers(129, 40, false),
            ],
        )],
    },
];

#[test]
fn clients_answer(rt: HostRuntime) {
    assert_cases(&rt, rt.alloc(), CASES);
}

fn assert_cases(rt: &impl Abort, alloc: Global, cases: &[Case]) {
    for case in cases {
        assert!(rt; holds(alloc, case) == Some(true), "{}", case.name);
    }
}

/// Whether the answers are as they should be. `None` where a step does not fit what is there, or memory is wanting.
fn holds(alloc: Global, case: &Case) -> Option<bool> {
    let client = ClientId::new(128)?;
    let mut clients = Clients::new(alloc);
    are_so(&mut clients, alloc, client, case.rows)
}

fn are_so(
    clients: &mut Clients,
    alloc: Global,
    client: ClientId,
    rows: &[(Step, &[Asked])],
) -> Option<bool> {
    for (step, all_asked) in rows {
        take(clients, alloc, client, *step)?;
        for asked in *all_asked {
            if !is_so(clients, alloc, client, *asked)? {
                return Some(false);
            }
        }
    }
    Some(true)
}

fn is_so(clients: &mut Clients, alloc: Global, client: ClientId, asked: Asked) -> Option<bool> {
    match asked {
        IsClient(client, name, in_size, out_size) => {
            is_client(clients, client, name, in_size, out_size)
        }
        IsPort(port, name, caps) => is_port(clients, client, port, name, caps),
        IsFilter(filter, kinds) => is_filter(clients, client, filter, kinds),
        IsQueue(queue, shared) => is_queue(clients, client, queue, shared),
        Shows(queue, moment, running, elapsed) => {
            shows(clients, client, queue, moment, running, elapsed)
        }
        Reaches(queue, tick, nanos) => reaches(clients, client, queue, tick, nanos),
        Feeds(port, piece, count, bytes) => {
            feeds(clients, alloc, client, port, piece, count, bytes)
        }
        Offers(client, moment, kept) => offers(clients, alloc, client, moment, kept),
        Listens(listens) => Some(clients.is_listening(client) == listens),
        Waits(waiting, lost) => {
            Some(clients.waiting(client) == waiting && clients.lost(client) == lost)
        }
        Receives(max, moment) => receives(clients, client, max, moment),
    }
}

fn is_client(
    clients: &Clients,
    client: u8,
    name: Option<&[u8]>,
    in_size: u32,
    out_size: u32,
) -> Option<bool> {
    let client = ClientId::new(client)?;
    Some(
        clients.is_open(client) == name.is_some()
            && clients.name(client) == name
            && clients.in_size(client) == in_size
            && clients.out_size(client) == out_size,
    )
}

fn is_port(
    clients: &Clients,
    client: ClientId,
    port: u8,
    name: Option<&[u8]>,
    caps: Option<u8>,
) -> Option<bool> {
    let port = PortNo::new(port)?;
    let node = Node::Port(port);
    Some(
        clients.has_port(client, port) == name.is_some()
            && clients.port_name(client, port) == name
            && clients.caps(&Addr { client, node }).map(|c| c.bits()) == caps,
    )
}

fn is_filter(clients: &Clients, client: ClientId, filter: u8, kinds: Option<u16>) -> Option<bool> {
    let filter = FilterNo::new(filter)?;
    Some(
        clients.has_filter(client, filter) == kinds.is_some()
            && clients.rule(client, filter).map(|r| r.args().kinds.bits()) == kinds,
    )
}

fn is_queue(clients: &Clients, client: ClientId, queue: u8, shared: Option<bool>) -> Option<bool> {
    let queue = QueueNo::new(queue)?;
    let found = clients.queue(&QueueAddr { client, queue });
    Some(
        clients.has_queue(client, queue) == shared.is_some()
            && found.map(|q| q.is_shared()) == shared,
    )
}

fn shows(
    clients: &Clients,
    client: ClientId,
    queue: u8,
    moment: u64,
    running: bool,
    elapsed: u64,
) -> Option<bool> {
    let queue = QueueNo::new(queue)?;
    let clock = clients.queue(&QueueAddr { client, queue })?.clock();
    Some(clock.running() == running && clock.elapsed(moment) == elapsed)
}

fn reaches(clients: &Clients, client: ClientId, queue: u8, tick: u64, nanos: u128) -> Option<bool> {
    let queue = QueueNo::new(queue)?;
    let clock = clients.queue(&QueueAddr { client, queue })?.clock();
    Some(clock.map().nanos_at(tick) == nanos)
}

fn offers(
    clients: &mut Clients,
    alloc: Global,
    client: u8,
    moment: u64,
    kept: bool,
) -> Option<bool> {
    let client = ClientId::new(client)?;
    let arrival = note_off(alloc, moment)?;
    Some(clients.offer(client, arrival) == kept)
}

fn receives(clients: &mut Clients, client: ClientId, max: u32, moment: u64) -> Option<bool> {
    let taken = clients.receive(client, max).ok()?;
    Some(taken.as_slice().first()?.moment == moment)
}

fn feeds(
    clients: &mut Clients,
    alloc: Global,
    client: ClientId,
    port: u8,
    piece: &[u8],
    count: usize,
    wanted: &[u8],
) -> Option<bool> {
    let port = PortNo::new(port)?;
    if !clients.has_port(client, port) {
        return None;
    }
    let mut messages = Vec::new(alloc);
    let fed = clients.feed(client, port, piece, &mut messages).ok()?;
    let mut bytes = Vec::new(alloc);
    for message in messages.iter() {
        message.append_to(&mut bytes).ok()?;
    }
    Some(fed == count && bytes.as_slice() == wanted)
}

/// An arrival at port 0.
fn note_off(alloc: Global, moment: u64) -> Option<Arrival> {
    Some(Arrival {
        moment,
        port: PortNo::new(0)?,
        message: Message::from_bytes(alloc, &[0x80, 60, 0]).ok()??,
    })
}
