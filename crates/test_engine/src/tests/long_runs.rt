//! Runs with much in them.

use super::lines::At::P;
use super::lines::Say::*;
use super::lines::{ALL, Lines, Say};
use super::logs::{assert_bytes, assert_log, port_0_of, ran_of};
use super::sending::LISTENS;
use seq_engine::*;
use std::alloc::Global;
use std::process::Abort;
use std::test::Fail;

/// One note at each moment, which the listener takes.
fn add_notes(lines: &mut Lines, count: u64) -> Result<(), Fail> {
    for moment in 1..=count {
        lines.by(128);
        lines.say(moment, Send(0, b"\x90\x3C\x40"))?;
        lines.by(129);
        lines.say(moment, Receive(1))?;
    }
    Ok(())
}

/// A long run has all its replies and all its deliveries.
#[test]
fn a_hundred_thousand_notes(rt: HostRuntime) -> Result<(), Fail> {
    let alloc = rt.alloc();
    let mut lines = Lines::new(alloc);
    lines.by(128);
    lines.say_all(&[(0, Open("a", 8, 8)), (0, Port(0, "out", 33))])?;
    lines.by(129);
    lines.say_all(LISTENS)?;
    add_notes(&mut lines, 100_000)?;
    let log = ran_of(&rt, alloc, lines.inputs(), 100_000)?;
    assert!(rt; log.entries.len() == 300_005);
    // The status of the first note, and two bytes of each.
    assert!(rt; log.port_bytes(port_0_of(129)?)?.len() == 200_001);
    Ok(())
}

/// So many timing clocks.
fn ticks(alloc: Global, count: u64) -> Result<Vec<u8>, Fail> {
    let mut bytes = Vec::new(alloc);
    for _ in 0..count {
        bytes.push(0xF8)?;
    }
    Ok(bytes)
}

/// Ten thousand messages in one piece of bytes.
fn add_flood(lines: &mut Lines, piece: Vec<u8>) -> Result<(), Fail> {
    lines.by(128);
    lines.say_all(&[(0, Open("a", 8, 8)), (0, Port(0, "out", 33))])?;
    let port = PortNo::new(0).ok_or("a port number")?;
    let bytes = Items::new(piece);
    lines.give(1, Command::Bytes { port, bytes })?;
    lines.by(129);
    lines.say_all(FLOODED)
}

/// Client 129 has room for two thousand.
const FLOODED: &[(u64, Say)] = &[
    (0, Open("b", 2000, 8)),
    (0, Port(0, "in", 66)),
    (0, Connect(P(128, 0), P(129, 0))),
    (2, Pools),
];

/// A piece of bytes completes far more messages than the listener has room for.
#[test]
fn ten_thousand_messages_in_a_piece(rt: HostRuntime) -> Result<(), Fail> {
    let alloc = rt.alloc();
    let mut lines = Lines::new(alloc);
    add_flood(&mut lines, ticks(alloc, 10_000)?)?;
    let log = ran_of(&rt, alloc, lines.inputs(), 2)?;
    let sent = "0 line 1 ok\n0 line 2 ok\n1 line 3 ok 10000\n";
    assert_log(&rt, alloc, &log, 128, sent)?;
    assert!(rt; log.entries.len() == 2007);
    assert!(rt; is_pools(log.entries.as_slice().last(), 2000, 8000));
    assert_bytes(&rt, &log, 129, ticks(alloc, 2000)?.as_slice())
}

/// Whether so many wait and so many are lost.
fn is_pools(entry: Option<&LogEntry>, most: u32, dropped: u64) -> bool {
    match entry {
        Some(
            LogEntry::Replied {
                reply: Reply::Pools { waiting, lost, .. },
                ..
            },
        ) => *waiting == most && *lost == dropped,
        _ => false,
    }
}

/// All clients, each with all ports, filters and queues, and each port joined to its client's first.
fn add_full_house(lines: &mut Lines) -> Result<(), Fail> {
    for client in 128..192 {
        lines.by(client);
        lines.say(0, Open("c", 2000, 2000))?;
        add_full_client(lines)?;
        add_edges(lines, client)?;
    }
    Ok(())
}

fn add_full_client(lines: &mut Lines) -> Result<(), Fail> {
    for number in 0..16 {
        lines.say(0, Port(number, "p", 99))?;
        lines.say(0, Filter(number, ALL))?;
    }
    for queue in 0..8 {
        lines.say(0, Queue(queue, 480, 500_000))?;
    }
    Ok(())
}

/// Seventeen subscriptions.
fn add_edges(lines: &mut Lines, client: u8) -> Result<(), Fail> {
    for number in 0..16 {
        lines.say(0, Connect(P(client, number), P(client, 0)))?;
    }
    lines.say(0, Connect(P(client, 0), P(client, 1)))
}

/// A full output on another's queue, which is stopped half way and then made anew.
fn add_full_output(lines: &mut Lines) -> Result<(), Fail> {
    lines.by(128);
    lines.say_all(&[(1, Share(128, 0)), (1, Start(128, 0))])?;
    lines.by(129);
    for nanos in 1..=2000 {
        lines.say(1, Schedule(128, DueAt::Nanos(nanos), b"\x90\x3C\x40"))?;
    }
    lines.by(130);
    lines.say(1, Start(130, 0))?;
    lines.by(128);
    lines.say(1001, Stop(128, 0))?;
    lines.by(129);
    lines.say(1001, Pools)?;
    lines.by(128);
    lines.say_all(&[(1002, DeleteQueue(128, 0)), (1002, Queue(0, 480, 500_000))])?;
    lines.by(129);
    lines.say(1002, Pools)
}

/// Tempos that change nothing, each at a later tick of a running queue, which is made anew at the end.
fn add_tempos(lines: &mut Lines) -> Result<(), Fail> {
    lines.by(130);
    let mut moment = 0u64;
    for _ in 0..66 {
        moment = moment.wrapping_add(2_000_000);
        lines.say(moment, Tempo(130, 0, 500_000))?;
    }
    lines.say_all(&[
        (END, Status(130, 0)),
        (END, DeleteQueue(130, 0)),
        (END, Queue(0, 480, 500_000)),
    ])
}

/// When the long run of the full house ends.
const END: u64 = 132_000_001;

/// How many replies are this.
fn count_of(log: &RunLog, wanted: &Reply) -> usize {
    let mut count = 0usize;
    for entry in log.entries.as_slice() {
        if let LogEntry::Replied { reply, .. } = entry {
            if reply == wanted {
                count = count.wrapping_add(1);
            }
        }
    }
    count
}

/// The listing of the full house.
fn full_listing(alloc: Global) -> Result<String, Fail> {
    let mut text = String::new(alloc);
    for client in 128..192 {
        add_client(alloc, &mut text, client)?;
    }
    for client in 128..192 {
        add_edge_lines(alloc, &mut text, client)?;
    }
    Ok(text)
}

/// Adds the lines of a client's subscriptions.
fn add_edge_lines(alloc: Global, text: &mut String, client: u8) -> Result<(), Fail> {
    for number in 0..16 {
        let line = format!(in alloc; "edge {client}:p{number} {client}:p0\n")?;
        text.push_str(line.as_str())?;
    }
    text.push_str(format!(in alloc; "edge {client}:p0 {client}:p1\n")?.as_str())?;
    Ok(())
}

/// Adds a client of the full house.
fn add_client(alloc: Global, text: &mut String, client: u8) -> Result<(), Fail> {
    text.push_str(format!(in alloc; "client {client} c in 2000 out 2000\n")?.as_str())?;
    for owned in &OWNED {
        add_numbered(alloc, text, client, owned)?;
    }
    Ok(())
}

/// How lines show what a client has, and how many there are.
#[derive(Clone, Copy)]
struct Owned {
    kind: &'static str,
    letter: &'static str,
    end: &'static str,
    count: u8,
}

/// What each client of the full house has.
const OWNED: [Owned; 3] = [
    Owned {
        kind: "port",
        letter: "p",
        end: " p 99",
        count: 16,
    },
    Owned {
        kind: "filter",
        letter: "f",
        end: " 99 65535 1023 0 127 0",
        count: 16,
    },
    Owned {
        kind: "queue",
        letter: "q",
        end: " stopped",
        count: 8,
    },
];

/// Adds the lines of one kind, numbered from 0.
fn add_numbered(alloc: Global, text: &mut String, client: u8, owned: &Owned) -> Result<(), Fail> {
    let Owned {
        kind,
        letter,
        end,
        count,
    } = owned;
    for number in 0..*count {
        let line = format!(in alloc; "{kind} {client}:{letter}{number}{end}\n")?;
        text.push_str(line.as_str())?;
    }
    Ok(())
}

/// A full house has room for all, and each is listed: 1,088 subscriptions, 2,000 events of one client on another's
/// queue, of which half are left as that stops, and 66 changes of a tempo.
#[test]
fn a_full_house(rt: HostRuntime) -> Result<(), Fail> {
    let alloc = rt.alloc();
    let mut lines = Lines::new(alloc);
    add_full_house(&mut lines)?;
    add_full_output(&mut lines)?;
    add_tempos(&mut lines)?;
    let log = ran_of(&rt, alloc, lines.inputs(), END)?;
    assert_full_house(&rt, &log)?;
    assert!(rt; log.listing.as_slice() == full_listing(alloc)?.as_bytes());
    Ok(())
}

/// Each event that came went to two ports, and nothing was refused.
fn assert_full_house(rt: &impl Abort, log: &RunLog) -> Result<(), Fail> {
    assert!(rt; log.entries.len() == 2000 + 5786 + 3);
    assert!(rt; count_of(log, &Reply::Done) == 5786);
    assert!(rt; count_of(log, &pools(1000)) == 1);
    assert!(rt; count_of(log, &pools(0)) == 1);
    // Of 132 milliseconds, 480 ticks in each 500.
    let shown = Reply::Queue {
        running: true,
        tick: 126,
        nanos: 132_000_000,
    };
    assert!(rt; count_of(log, &shown) == 1);
    Ok(())
}

/// A full input, and so much still to send.
fn pools(used: u32) -> Reply {
    Reply::Pools {
        waiting: 2000,
        lost: 0,
        used,
    }
}
