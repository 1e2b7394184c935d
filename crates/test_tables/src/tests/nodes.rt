//! Addresses, and tables of clients and their nodes.

use super::numbers::At::{self, F, P};
use super::numbers::{addr, client, filter, port};
use super::texts::assert_text;
use bitflags::Flags;
use node_table::{
    Addr, Caps, ClientId, CreateFault, FilterNo, NodeTable, OpenFault, PLACES, PortAddr, PortNo,
    QueueAddr, QueueNo, addr_at, is_name, make_places, permitted, place_of,
};
use std::process::Abort;
use std::test::Fail;

fn caps(rt: &impl Abort, bits: u8) -> Caps {
    Caps::from_bits(bits).expect(rt, "known capabilities")
}

fn port_of(addr: &Addr) -> Option<u8> {
    Some(addr.node.port()?.number())
}

fn filter_of(addr: &Addr) -> Option<u8> {
    Some(addr.node.filter()?.number())
}

/// Addresses, and the numbers of the port and the filter that each is.
const NODES: &[(At, Option<u8>, Option<u8>)] = &[
    (P(128, 15), Some(15), None),
    (F(128, 3), None, Some(3)),
];

#[test]
fn numbers_have_limits(rt: HostRuntime) {
    for number in 0..=255u8 {
        let taken = (
            ClientId::new(number).is_some(),
            PortNo::new(number).is_some(),
            FilterNo::new(number).is_some(),
            QueueNo::new(number).is_some(),
        );
        let client = (128..192).contains(&number);
        assert!(rt;
            taken == (client, number < 16, number < 16, number < 8),
            "{number}"
        );
    }
    assert!(rt; client(&rt, 191).number() == 191);
    assert!(rt; QueueNo::new(7).map(|queue| queue.number()) == Some(7));
    for (at, port, filter) in NODES {
        let addr = addr(&rt, *at);
        assert!(rt; (port_of(&addr), filter_of(&addr)) == (*port, *filter));
    }
}

#[test]
fn each_place_has_an_address(rt: HostRuntime) {
    for place in 0..PLACES {
        if let Some(addr) = addr_at(place) {
            assert!(rt; place_of(&addr) == place);
            assert!(rt; addr.is_filter() == (place % 32 >= 16));
        }
    }
    assert!(rt; place_of(&port(&rt, 128, 0)) == 0);
    assert!(rt; place_of(&filter(&rt, 191, 15)) == 2047);
    assert!(rt; addr_at(PLACES).is_none());
}

/// The table has all places, each with this value.
fn assert_made(rt: &impl Abort, table: &[u8], wanted: u8) {
    assert!(rt; table.len() == PLACES);
    for value in table {
        assert!(rt; *value == wanted);
    }
}

#[test]
fn a_table_is_made_once(rt: HostRuntime) -> Result<(), Fail> {
    let mut table = Vec::new(rt.alloc());
    make_places(&mut table, 7u8)?;
    assert_made(&rt, table.as_slice(), 7);
    make_places(&mut table, 8)?;
    assert_made(&rt, table.as_slice(), 7);
    Ok(())
}

#[test]
fn addresses_print(rt: HostRuntime) -> Result<(), Fail> {
    let alloc = rt.alloc();
    for (at, text) in [(P(128, 0), "128:p0"), (F(129, 3), "129:f3")] {
        assert_text(&rt, alloc, &addr(&rt, at), text)?;
    }
    let addr = PortAddr {
        client: client(&rt, 191),
        port: PortNo::new(15).expect(&rt, "a port's number"),
    };
    assert_text(&rt, alloc, &addr, "191:p15")
}

#[test]
fn queues_print(rt: HostRuntime) -> Result<(), Fail> {
    let queue = QueueNo::new(7).expect(&rt, "a queue's number");
    assert_text(&rt, rt.alloc(), &queue, "7")?;
    let client = client(&rt, 128);
    let text = QueueAddr { client, queue }.to_string(rt.alloc())?;
    assert!(rt; text.as_str() == "128:q7");
    Ok(())
}

/// Texts, and whether each is a name.
const NAMES: &[(&'static [u8], bool)] = &[
    (b"!", true),
    (b"~synth-1~", true),
    (b"12345678901234567890123456789012", true),
    (b"123456789012345678901234567890123", false),
    (b"", false),
    (b"a b", false),
    (b"a\x7F", false),
    (b"\xC3\xA9", false),
];

#[test]
fn names_are_visible_ascii(rt: HostRuntime) {
    for (bytes, valid) in NAMES {
        assert!(rt; is_name(bytes) == *valid, "of {bytes:?}");
    }
}

/// Why a node is not made.
#[derive(Clone, Copy)]
enum Refusal {
    NotOpen,
    BadName,
    Exists,
}

use self::Refusal::*;

/// A call on a table, and what comes of it. Clients and capabilities are named by their numbers.
#[derive(Clone, Copy)]
enum Step {
    Opens(u8, &'static [u8]),
    NotOpened(u8, &'static [u8], OpenFault),
    IsOpen(u8, bool),
    IsNamed(u8, Option<&'static [u8]>),
    Closes(u8, bool),
    /// A node with its name, capabilities and body is made.
    Makes(At, &'static [u8], u8, u32),
    /// It is not, and its body comes back.
    NotMade(At, &'static [u8], u32, Refusal),
    Writes(At, u32),
    Deletes(At, Option<u32>),
    /// There is a node with this body.
    Has(At, u32),
    HasNot(At),
    /// From this number on, the number and the body of a port of `FILLED`.
    NextPort(u8, u8, Option<(u8, u32)>),
    /// The same of a filter.
    NextFilter(u8, u8, Option<(u8, u32)>),
    /// What a client may join, and nothing where a node is missing.
    May(u8, At, At, Option<bool>),
}

use self::Step::*;

/// A table that is new before the first step.
struct Case {
    name: &'static str,
    before: &'static [Step],
    steps: &'static [Step],
}

/// Two clients with four nodes each, whose bodies count up.
const FILLED: &[Step] = &[
    Opens(128, b"c"),
    Makes(F(128, 0), b"", 3, 1),
    Makes(P(128, 2), b"p", 1, 2),
    Makes(P(128, 0), b"p", 1, 3),
    Makes(P(128, 15), b"p", 1, 4),
    Opens(191, b"c"),
    Makes(F(191, 0), b"", 3, 5),
    Makes(P(191, 2), b"p", 1, 6),
    Makes(P(191, 0), b"p", 1, 7),
    Makes(P(191, 15), b"p", 1, 8),
];

const CASES: &[Case] = &[
    Case {
        name: "open refuses in order",
        before: &[],
        steps: &[
            NotOpened(128, b"", OpenFault::BadName),
            IsOpen(128, false),
            Opens(128, b"one"),
            NotOpened(128, b"", OpenFault::AlreadyOpen),
            IsNamed(128, Some(b"one")),
            IsNamed(129, None),
        ],
    },
    Case {
        name: "a client with no nodes has none",
        before: &[],
        steps: &[
            Closes(191, false),
            Opens(191, b"one"),
            HasNot(P(191, 15)),
            Deletes(F(191, 15), None),
            NextPort(191, 0, None),
            NextFilter(191, 0, None),
            Closes(191, true),
        ],
    },
    Case {
        name: "create refuses in order",
        before: &[],
        steps: &[
            Opens(128, b"one"),
            NotMade(P(129, 0), b"", 1, NotOpen),
            Makes(P(128, 0), b"out", 243, 2),
            NotMade(P(128, 0), b"", 3, BadName),
            NotMade(F(128, 0), b"out", 4, BadName),
            NotMade(P(128, 0), b"in", 5, Exists),
            Has(P(128, 0), 2),
        ],
    },
    Case {
        name: "one node is written and deleted",
        before: FILLED,
        steps: &[
            Writes(P(128, 0), 30),
            HasNot(P(128, 1)),
            Has(P(128, 0), 30),
            Deletes(P(128, 0), Some(30)),
            Deletes(P(128, 0), None),
            Has(F(128, 0), 1),
            Has(P(191, 0), 7),
        ],
    },
    Case {
        name: "one client is closed",
        before: FILLED,
        steps: &[
            Closes(128, true),
            Closes(128, false),
            HasNot(F(128, 0)),
            Has(F(191, 0), 5),
            Opens(128, b"again"),
            NextPort(128, 0, None),
            NextFilter(128, 0, None),
        ],
    },
    Case {
        name: "nodes are listed in order of number",
        before: FILLED,
        steps: &[
            NextPort(191, 0, Some((0, 7))),
            NextPort(191, 1, Some((2, 6))),
            NextPort(191, 3, Some((15, 8))),
            NextPort(191, 16, None),
            NextFilter(191, 0, Some((0, 5))),
            NextFilter(191, 1, None),
        ],
    },
    Case {
        name: "the table knows capabilities",
        before: FILLED,
        steps: &[
            May(128, P(128, 0), F(191, 0), Some(false)),
            May(128, P(128, 0), F(128, 0), Some(true)),
            Deletes(F(191, 0), Some(5)),
            May(128, P(128, 0), F(191, 0), None),
            Makes(F(191, 0), b"", 66, 50),
            May(128, P(128, 0), F(191, 0), Some(true)),
            May(191, P(128, 0), F(191, 0), Some(false)),
        ],
    },
];

/// Whether a node is refused for this reason.
fn is_refused(outcome: Result<(), CreateFault<u32>>, body: u32, refusal: Refusal) -> bool {
    match outcome {
        Err(CreateFault::NotOpen(back)) => back == body && matches!(refusal, NotOpen),
        Err(CreateFault::BadName(back)) => back == body && matches!(refusal, BadName),
        Err(CreateFault::Exists(back)) => back == body && matches!(refusal, Exists),
        Ok(()) | Err(CreateFault::OutOfMemory(_)) => false,
    }
}

fn body(table: &NodeTable<u32>, addr: &Addr) -> Option<u32> {
    let node = table.find(addr)?;
    Some(*node.body())
}

fn writes(table: &mut NodeTable<u32>, addr: &Addr, body: u32) -> bool {
    match table.body_mut(addr) {
        Some(place) => {
            *place = body;
            true
        }
        None => false,
    }
}

fn is_next_port(table: &NodeTable<u32>, of: ClientId, from: u8, wanted: Option<(u8, u32)>) -> bool {
    match table.next_port(of, from) {
        Some((port, node)) => {
            wanted == Some((port.number(), *node.body()))
                && node.name() == b"p".as_slice()
                && node.caps() == Caps::READ
        }
        None => wanted.is_none(),
    }
}

fn is_next_filter(
    table: &NodeTable<u32>,
    of: ClientId,
    from: u8,
    wanted: Option<(u8, u32)>,
) -> bool {
    match table.next_filter(of, from) {
        Some((filter, node)) => {
            wanted == Some((filter.number(), *node.body())) && node.name().is_empty()
        }
        None => wanted.is_none(),
    }
}

fn may(table: &NodeTable<u32>, actor: ClientId, source: &Addr, target: &Addr) -> Option<bool> {
    table.find(source)?;
    table.find(target)?;
    Some(table.permitted(actor, source, target))
}

/// Whether a call gives what the step says.
fn holds(rt: &impl Abort, table: &mut NodeTable<u32>, step: Step) -> bool {
    match step {
        Opens(of, name) => table.open_client(client(rt, of), name) == Ok(()),
        NotOpened(of, name, fault) => table.open_client(client(rt, of), name) == Err(fault),
        IsOpen(of, wanted) => table.is_open(client(rt, of)) == wanted,
        IsNamed(of, wanted) => table.client_name(client(rt, of)) == wanted,
        Closes(of, wanted) => table.close_client(client(rt, of)) == wanted,
        Makes(at, name, bits, body) => table
            .create(addr(rt, at), name, caps(rt, bits), body)
            .is_ok(),
        NotMade(at, name, body, refusal) => {
            let outcome = table.create(addr(rt, at), name, caps(rt, 243), body);
            is_refused(outcome, body, refusal)
        }
        Writes(at, body) => writes(table, &addr(rt, at), body),
        Deletes(at, body) => table.delete(addr(rt, at)) == body,
        Has(at, wanted) => body(table, &addr(rt, at)) == Some(wanted),
        HasNot(at) => {
            let addr = addr(rt, at);
            table.find(&addr).is_none() && table.body_mut(&addr).is_none()
        }
        NextPort(of, from, wanted) => is_next_port(table, client(rt, of), from, wanted),
        NextFilter(of, from, wanted) => is_next_filter(table, client(rt, of), from, wanted),
        May(actor, source, target, wanted) => {
            may(
                table,
                client(rt, actor),
                &addr(rt, source),
                &addr(rt, target),
            ) == wanted
        }
    }
}

fn assert_steps(rt: &impl Abort, table: &mut NodeTable<u32>, name: &str, steps: &[Step]) {
    for (number, step) in steps.iter().enumerate() {
        assert!(rt; holds(rt, table, *step), "{name}: step {number}");
    }
}

#[test]
fn tables_answer_step_by_step(rt: HostRuntime) {
    for case in CASES {
        let mut table = NodeTable::new(rt.alloc());
        assert_steps(&rt, &mut table, "before", case.before);
        assert_steps(&rt, &mut table, case.name, case.steps);
    }
}

/// What an end allows: whether it is read or written at all, by others too, and whether it is the actor's.
fn end_allows(allowed: bool, others: bool, owned: bool) -> bool {
    match (allowed, others, owned) {
        (false, _, _) => false,
        (true, true, _) => true,
        (true, false, true) => true,
        (true, false, false) => false,
    }
}

// What both ends do to a third: a row for each case.
fn third_may(owns_one: bool, source_hidden: bool, target_hidden: bool) -> bool {
    match (owns_one, source_hidden, target_hidden) {
        (true, _, _) => true,
        (false, false, false) => true,
        (false, true, _) => false,
        (false, _, true) => false,
    }
}

// Of six bits the sets of capabilities: READ, WRITE, DUPLEX, SUBS_READ, SUBS_WRITE, NO_EXPORT.
fn bits_of(set: u8) -> u8 {
    (set & 3) | ((set & 60) << 2)
}

// Each two sets of capabilities at these ends, for the client 128.
fn follows_table(rt: &impl Abort, of_source: u8, of_target: u8) {
    let actor = client(rt, 128);
    let source = port(rt, of_source, 0);
    let target = port(rt, of_target, 1);
    let owns_source = of_source == 128;
    let owns_target = of_target == 128;
    for sets in 0..4096u16 {
        let read = bits_of((sets / 64) as u8);
        let write = bits_of((sets % 64) as u8);
        let want = end_allows(read & 1 != 0, read & 32 != 0, owns_source)
            && end_allows(write & 2 != 0, write & 64 != 0, owns_target)
            && third_may(
                owns_source || owns_target,
                read & 128 != 0,
                write & 128 != 0,
            );
        let may = permitted(actor, &source, caps(rt, read), &target, caps(rt, write));
        assert!(rt; may == want);
    }
}

#[test]
fn capabilities_follow_the_table(rt: HostRuntime) {
    for (of_source, of_target) in [(128, 128), (128, 129), (129, 128), (129, 130)] {
        follows_table(&rt, of_source, of_target);
    }
}

// Opens all clients and makes all their nodes, whose bodies are their places.
fn make_all(rt: &impl Abort, table: &mut NodeTable<u32>) {
    for number in 128..192 {
        assert!(rt; table.open_client(client(rt, number), b"full") == Ok(()));
    }
    for place in 0..PLACES {
        if let Some(addr) = addr_at(place) {
            let name = if addr.is_filter() {
                b"".as_slice()
            } else {
                b"port".as_slice()
            };
            assert!(rt; table.create(addr, name, caps(rt, 99), place as u32).is_ok());
        }
    }
}

const CLOSED_160: &[Step] = &[
    Closes(160, true),
    Has(P(159, 15), 1007),
    HasNot(P(160, 0)),
    Has(P(161, 0), 1056),
];

// All nodes are there, and then those of one client are not.
fn assert_all(rt: &impl Abort, table: &mut NodeTable<u32>) {
    for place in 0..PLACES {
        if let Some(addr) = addr_at(place) {
            assert!(rt; body(table, &addr) == Some(place as u32));
        }
    }
    assert_steps(rt, table, "one of all clients is closed", CLOSED_160);
}

#[test]
fn a_full_house_has_room_for_all(rt: HostRuntime) {
    let mut table: NodeTable<u32> = NodeTable::new(rt.alloc());
    make_all(&rt, &mut table);
    assert_all(&rt, &mut table);
}
