//! The capabilities with which nodes were made, in a table by `place_of`.

ghost use Rattle.std.specs.Prelude.{◌≡◌, ◌++◌, ◌∷◌, [], List, Option, None, length, slice_get, IfOk};
ghost use Rattle.node_table.specs.Kept.{ReadsAs};
ghost use Rattle.node_table.specs.Numbers.{places};
ghost use Rattle.node_table.specs.declared.caps.Caps.{Caps};
ghost use Rattle.node_table.specs.declared.number.Addr.{Addr};
ghost use Rattle.seq_state.specs.declared.log.LogEntry.{LogEntry};
ghost use Rattle.seq_session.specs.Diagnostics.{made_by, made_where, made_in, last_made};
ghost use Rattle.seq_session.specs.MadeCaps.{AreAtPlaces};

use memory::OutOfMemory;
use node_table::{Addr, Caps, ClientId, Node, make_places, place_of};
use seq_state::{Command, Input, LogEntry, Reply};
use std::alloc::Global;

/// A node that a command makes, and its capabilities.
#[derive(Clone, Copy)]
pub(crate) struct Making {
    pub(crate) node: Addr,
    pub(crate) caps: Caps,
}

/// A table in which no node was made.
pub(crate) fn none_made(alloc: Global) -> Result<Vec<Option<Caps>>, OutOfMemory>
    ensures whole { IfOk result (λ t. length t.items ≡ places) }
    ensures none { IfOk result (λ t. ReadsAs None t.items []) }
{
    let mut table = Vec::new(alloc);
    make_places(&mut table, None)?;
    Ok(table)
}

/// The capabilities with which a node was last made, if it was.
pub(crate) fn caps_at(table: &[Option<Caps>], node: &Addr) -> Option<Caps>
    ensures { (made : Addr → Option Caps) → AreAtPlaces made table.now → result ≡ made node.now }
{
    match table.get(place_of(node)) {
        Some(caps) => *caps,
        None => None,
    }
}

/// Notes what the command of an entry has made.
pub(crate) fn note_made(table: &mut Vec<Option<Caps>>, inputs: &[Input], entry: &LogEntry)
    requires { length table.old.items ≡ places }
    ensures whole { length table.new.items ≡ places }
    ensures noted { (before : List LogEntry) →
        AreAtPlaces (last_made inputs.now before) table.old.items →
        AreAtPlaces (last_made inputs.now (before ++ entry.now ∷ [])) table.new.items }
{
    let Some(made) = made_in(inputs, entry) else {
        return;
    };
    table[place_of(&made.node)] = Some(made.caps);
}

/// What the command of an entry has made.
fn made_in(inputs: &[Input], entry: &LogEntry) -> Option<Making>
    ensures { result ≡ made_in inputs.now entry.now }
{
    match entry {
        LogEntry::Delivered(_) => None,
        LogEntry::Replied { index, reply, .. } => made_at(inputs, *index, reply),
    }
}

/// What the input at a place has made, where this is the reply to it.
fn made_at(inputs: &[Input], place: u64, reply: &Reply) -> Option<Making>
    ensures { result ≡ made_where reply.now (slice_get inputs.now place) }
{
    if *reply != Reply::Done {
        return None;
    }
    match inputs.get(place as usize) {
        Some(input) => made_by(input.actor, &input.command),
        None => None,
    }
}

/// The node that a command makes, with its capabilities.
fn made_by(actor: ClientId, command: &Command) -> Option<Making>
    ensures { result ≡ made_by actor command.now }
{
    match command {
        Command::CreatePort { port, caps, .. } => Some(Making {
            node: Addr {
                client: actor,
                node: Node::Port(*port),
            },
            caps: *caps,
        }),
        Command::CreateFilter { filter, caps, .. } => Some(Making {
            node: Addr {
                client: actor,
                node: Node::Filter(*filter),
            },
            caps: *caps,
        }),
        Command::Open { .. }
        | Command::Close
        | Command::DeletePort { .. }
        | Command::SetFilter { .. }
        | Command::DeleteFilter { .. }
        | Command::Connect { .. }
        | Command::Disconnect { .. }
        | Command::Bytes { .. }
        | Command::Send { .. }
        | Command::CreateQueue { .. }
        | Command::CreateQueueFrom { .. }
        | Command::DeleteQueue { .. }
        | Command::Start { .. }
        | Command::Stop { .. }
        | Command::Continue { .. }
        | Command::Tempo { .. }
        | Command::QueueStatus { .. }
        | Command::Share { .. }
        | Command::Schedule { .. }
        | Command::Play { .. }
        | Command::DropOutput
        | Command::Receive { .. }
        | Command::Listen
        | Command::Unlisten
        | Command::PoolStatus => None,
    }
}
