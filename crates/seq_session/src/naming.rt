//! What a refused command names that is at fault.

ghost use Rattle.std.specs.Prelude.{◌≡◌, Option};
ghost use Rattle.node_table.specs.declared.caps.Caps.{Caps};
ghost use Rattle.node_table.specs.declared.number.Addr.{Addr};
ghost use Rattle.seq_session.specs.Diagnostics.{about, about_caps, about_edge, about_own, about_queue, about_source, about_target, first_lack, lack_of, no_export_at};
ghost use Rattle.seq_session.specs.MadeCaps.{AreAtPlaces};

use crate::about::{About, Capability};
use crate::made_caps::caps_at;
use bitflags::Flags;
use node_table::{Addr, Caps, ClientId, FilterNo, Node, PortNo, QueueAddr, QueueNo};
use seq_state::{Command, Input, Refusal};

/// What the refusal of an input is about.
pub(crate) fn about(table: &[Option<Caps>], refusal: Refusal, input: &Input) -> About
    ensures { (made : Addr → Option Caps) → AreAtPlaces made table.now →
        result ≡ about made refusal input.now }
{
    match refusal {
        Refusal::NodeExists | Refusal::NoNode => about_own(input.actor, &input.command),
        Refusal::NoSender => about_source(&input.command),
        Refusal::NoDest | Refusal::SourcesFull => about_target(&input.command),
        Refusal::NotPermitted => about_caps(table, input.actor, &input.command),
        Refusal::AlreadyConnected | Refusal::NotConnected | Refusal::Cycle => {
            about_edge(&input.command)
        }
        Refusal::QueueExists
        | Refusal::NotYours
        | Refusal::NoQueue
        | Refusal::QueueRunning
        | Refusal::QueueStopped => about_queue(input.actor, &input.command),
        Refusal::NotOpen
        | Refusal::AlreadyOpen
        | Refusal::BadName
        | Refusal::BadSize
        | Refusal::BadRule
        | Refusal::NoFile
        | Refusal::DivisionDiffers
        | Refusal::BadTempo
        | Refusal::BadTime
        | Refusal::OutFull => About::Nothing,
    }
}

/// The node of its own that a command names.
fn about_own(actor: ClientId, command: &Command) -> About
    ensures { result ≡ about_own actor command.now }
{
    match command {
        Command::CreatePort { port, .. }
        | Command::DeletePort { port }
        | Command::Bytes { port, .. }
        | Command::Send { port, .. }
        | Command::Schedule { port, .. }
        | Command::Play { port, .. } => About::Node(Addr {
            client: actor,
            node: Node::Port(*port),
        }),
        Command::CreateFilter { filter, .. }
        | Command::SetFilter { filter, .. }
        | Command::DeleteFilter { filter } => About::Node(Addr {
            client: actor,
            node: Node::Filter(*filter),
        }),
        Command::Open { .. }
        | Command::Close
        | Command::Connect { .. }
        | Command::Disconnect { .. }
        | Command::CreateQueue { .. }
        | Command::CreateQueueFrom { .. }
        | Command::DeleteQueue { .. }
        | Command::Start { .. }
        | Command::Stop { .. }
        | Command::Continue { .. }
        | Command::Tempo { .. }
        | Command::QueueStatus { .. }
        | Command::Share { .. }
        | Command::DropOutput
        | Command::Receive { .. }
        | Command::Listen
        | Command::Unlisten
        | Command::PoolStatus => About::Nothing,
    }
}

fn about_edge(command: &Command) -> About
    ensures { result ≡ about_edge command.now }
{
    if let Command::Connect { source, target } | Command::Disconnect { source, target } = command {
        return About::Edge {
            source: *source,
            target: *target,
        };
    }
    About::Nothing
}

fn about_source(command: &Command) -> About
    ensures { result ≡ about_source command.now }
{
    if let Command::Connect { source, .. } | Command::Disconnect { source, .. } = command {
        return About::Node(*source);
    }
    About::Nothing
}

fn about_target(command: &Command) -> About
    ensures { result ≡ about_target command.now }
{
    if let Command::Connect { target, .. } | Command::Disconnect { target, .. } = command {
        return About::Node(*target);
    }
    About::Nothing
}

/// The queue that a command names; one that it makes is the actor's.
fn about_queue(actor: ClientId, command: &Command) -> About
    ensures { result ≡ about_queue actor command.now }
{
    match command {
        Command::CreateQueue { queue, .. } | Command::CreateQueueFrom { queue, .. } => {
            About::Queue(QueueAddr {
                client: actor,
                queue: *queue,
            })
        }
        Command::DeleteQueue { queue }
        | Command::Start { queue }
        | Command::Stop { queue }
        | Command::Continue { queue }
        | Command::Tempo { queue, .. }
        | Command::QueueStatus { queue }
        | Command::Share { queue }
        | Command::Schedule { queue, .. }
        | Command::Play { queue, .. } => About::Queue(*queue),
        Command::Open { .. }
        | Command::Close
        | Command::CreatePort { .. }
        | Command::DeletePort { .. }
        | Command::CreateFilter { .. }
        | Command::SetFilter { .. }
        | Command::DeleteFilter { .. }
        | Command::Connect { .. }
        | Command::Disconnect { .. }
        | Command::Bytes { .. }
        | Command::Send { .. }
        | Command::DropOutput
        | Command::Receive { .. }
        | Command::Listen
        | Command::Unlisten
        | Command::PoolStatus => About::Nothing,
    }
}

/// Which capability of a node stands in the way of a subscription.
fn about_caps(table: &[Option<Caps>], actor: ClientId, command: &Command) -> About
    ensures { (made : Addr → Option Caps) → AreAtPlaces made table.now →
        result ≡ about_caps made actor command.now }
{
    if let Command::Connect { source, target } | Command::Disconnect { source, target } = command {
        let read = caps_at(table, source);
        let write = caps_at(table, target);
        return lack_of(actor, source, read, target, write);
    }
    About::Nothing
}

/// What stands in the way, where both nodes were made.
fn lack_of(
    actor: ClientId,
    source: &Addr,
    read: Option<Caps>,
    target: &Addr,
    write: Option<Caps>,
) -> About
    ensures { result ≡ lack_of actor source.now read target.now write }
{
    let Some(read) = read else {
        return About::Nothing;
    };
    let Some(write) = write else {
        return About::Nothing;
    };
    first_lack(actor, source, read, target, write)
}

/// The first that stands in the way, in the order in which `permitted` tests it.
fn first_lack(actor: ClientId, source: &Addr, read: Caps, target: &Addr, write: Caps) -> About
    ensures { result ≡ first_lack actor source.now read.0 target.now write.0 }
{
    let owns_source = actor == source.client;
    let owns_target = actor == target.client;
    if !read.contains(Caps::READ) {
        return About::Lacks(*source, Capability::Read);
    }
    if !(owns_source || read.contains(Caps::SUBS_READ)) {
        return About::Lacks(*source, Capability::SubsRead);
    }
    if !write.contains(Caps::WRITE) {
        return About::Lacks(*target, Capability::Write);
    }
    if !(owns_target || write.contains(Caps::SUBS_WRITE)) {
        return About::Lacks(*target, Capability::SubsWrite);
    }
    no_export_at(owns_source || owns_target, source, read, target, write)
}

/// Which node has NO_EXPORT, where the actor owns neither.
fn no_export_at(owns_one: bool, source: &Addr, read: Caps, target: &Addr, write: Caps) -> About
    ensures { result ≡ no_export_at owns_one source.now read.0 target.now write.0 }
{
    if owns_one {
        return About::Nothing;
    }
    if read.contains(Caps::NO_EXPORT) {
        return About::NotExported(*source);
    }
    if write.contains(Caps::NO_EXPORT) {
        return About::NotExported(*target);
    }
    About::Nothing
}
