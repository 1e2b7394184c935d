//! What a member's command asks for, makes and reaches.

ghost use Rattle.std.specs.Prelude.{◌≡◌};
ghost use Rattle.std.specs.Option.{option_map};
ghost use Rattle.seq_state.specs.Circle.{is_inner, aims_outside};
ghost use Rattle.seq_state.specs.Table.{queue_named};
ghost use Rattle.seq_circle.specs.Shut.{is_joinable, opens, joined_client, asked_client, target_of};
ghost use Rattle.seq_circle.specs.Least.{is_member};
ghost use Rattle.seq_circle.specs.Mending.{making_of, closed_caps};

use crate::members::Members;
use bitflags::Flags;
use node_table::{Addr, Caps, ClientId, Node, QueueAddr};
use seq_state::Command;

/// Whether it is a port of the owner, or a filter of a client that is a member.
pub fn is_inner(owner: ClientId, node: &Addr, of_member: bool) -> bool
    ensures { result ≡ is_inner owner (λ c. of_member) node.now }
{
    match node.node {
        Node::Port(_) => node.client == owner,
        Node::Filter(_) => of_member,
    }
}

/// Whether it is a port of the owner, or a filter of a member.
fn is_inside(members: &Members, node: &Addr) -> bool
    ensures { result ≡ is_inner members.now.owner
        (is_member members.now.owner members.now.joined.items) node.now }
{
    is_inner(members.owner, node, members.has(node.client))
}

/// The target that a command joins or parts, if it does.
pub fn target_of(command: &Command) -> Option<Addr>
    ensures { result ≡ target_of command.now }
{
    match command {
        Command::Connect { target, .. } | Command::Disconnect { target, .. } => Some(*target),
        Command::Open { .. }
        | Command::Close
        | Command::CreatePort { .. }
        | Command::DeletePort { .. }
        | Command::CreateFilter { .. }
        | Command::SetFilter { .. }
        | Command::DeleteFilter { .. }
        | Command::Bytes { .. }
        | Command::Send { .. }
        | Command::CreateQueue { .. }
        | Command::CreateQueueFrom { .. }
        | Command::DeleteQueue { .. }
        | Command::Start { .. }
        | Command::Stop { .. }
        | Command::Continue { .. }
        | Command::Tempo { .. }
        | Command::QueueStatus { .. }
        | Command::Share { .. }
        | Command::Schedule { .. }
        | Command::Play { .. }
        | Command::DropOutput
        | Command::Receive { .. }
        | Command::Listen
        | Command::Unlisten
        | Command::PoolStatus => None,
    }
}

/// Whether a command joins or parts at a target outside.
pub(crate) fn aims_outside(members: &Members, command: &Command) -> bool
    ensures { result ≡ aims_outside members.now.owner
        (is_member members.now.owner members.now.joined.items) command.now }
{
    match target_of(command) {
        Some(target) => !is_inside(members, &target),
        None => false,
    }
}

/// The client of the source, where the target is inside.
fn joined_client(members: &Members, source: &Addr, target: &Addr) -> Option<ClientId>
    ensures { result ≡ joined_client members.now.owner
        (is_member members.now.owner members.now.joined.items) source.now target.now }
{
    if is_inside(members, target) {
        Some(source.client)
    } else {
        None
    }
}

/// The queue that a command names, if it does.
pub(crate) fn queue_named(command: &Command) -> Option<QueueAddr>
    ensures { result ≡ queue_named command.now }
{
    match command {
        Command::DeleteQueue { queue }
        | Command::Start { queue }
        | Command::Stop { queue }
        | Command::Continue { queue }
        | Command::Tempo { queue, .. }
        | Command::QueueStatus { queue }
        | Command::Share { queue }
        | Command::Schedule { queue, .. }
        | Command::Play { queue, .. } => Some(*queue),
        Command::Open { .. }
        | Command::Close
        | Command::CreatePort { .. }
        | Command::DeletePort { .. }
        | Command::CreateFilter { .. }
        | Command::SetFilter { .. }
        | Command::DeleteFilter { .. }
        | Command::Connect { .. }
        | Command::Disconnect { .. }
        | Command::Bytes { .. }
        | Command::Send { .. }
        | Command::CreateQueue { .. }
        | Command::CreateQueueFrom { .. }
        | Command::DropOutput
        | Command::Receive { .. }
        | Command::Listen
        | Command::Unlisten
        | Command::PoolStatus => None,
    }
}

/// The client that a member's command asks into the circle.
pub(crate) fn asked_client(members: &Members, command: &Command) -> Option<ClientId>
    ensures { result ≡ asked_client members.now.owner
        (is_member members.now.owner members.now.joined.items) command.now }
{
    if let Command::Connect { source, target } | Command::Disconnect { source, target } = command {
        return joined_client(members, source, target);
    }
    let queue = queue_named(command)?;
    Some(queue.client)
}

/// READ, WRITE, DUPLEX, SUBS_READ and NO_EXPORT: all but SUBS_WRITE.
const CLOSED: u8 = 1 + 2 + 16 + 32 + 128;

pub(crate) fn is_joinable(caps: Caps) -> bool
    ensures { result ≡ is_joinable caps.0 }
{
    caps.contains(Caps::WRITE) && caps.contains(Caps::SUBS_WRITE)
}

/// A node that a command makes.
#[derive(Clone, Copy)]
pub struct Making {
    pub node: Node,
    pub caps: Caps,
}

/// The node that a command makes, if it makes one.
pub fn making_of(command: &Command) -> Option<Making>
    ensures { option_map (λ m. (m.node, m.caps.0)) result ≡ making_of command.now }
{
    match command {
        Command::CreatePort { port, caps, .. } => Some(Making {
            node: Node::Port(*port),
            caps: *caps,
        }),
        Command::CreateFilter { filter, caps, .. } => Some(Making {
            node: Node::Filter(*filter),
            caps: *caps,
        }),
        Command::Open { .. }
        | Command::Close
        | Command::DeletePort { .. }
        | Command::SetFilter { .. }
        | Command::DeleteFilter { .. }
        | Command::Connect { .. }
        | Command::Disconnect { .. }
        | Command::Bytes { .. }
        | Command::Send { .. }
        | Command::CreateQueue { .. }
        | Command::CreateQueueFrom { .. }
        | Command::DeleteQueue { .. }
        | Command::Start { .. }
        | Command::Stop { .. }
        | Command::Continue { .. }
        | Command::Tempo { .. }
        | Command::QueueStatus { .. }
        | Command::Share { .. }
        | Command::Schedule { .. }
        | Command::Play { .. }
        | Command::DropOutput
        | Command::Receive { .. }
        | Command::Listen
        | Command::Unlisten
        | Command::PoolStatus => None,
    }
}

/// Whether a member's command makes a node inside that anyone may join.
pub(crate) fn opens(owner: ClientId, actor: ClientId, command: &Command) -> bool
    ensures { result ≡ opens owner actor command.now }
{
    let Some(made) = making_of(command) else {
        return false;
    };
    let place = Addr {
        client: actor,
        node: made.node,
    };
    is_inner(owner, &place, true) && is_joinable(made.caps)
}

/// The number of capabilities without SUBS_WRITE.
pub fn closed_bits(caps: Caps) -> u8
    ensures { result ≡ closed_caps caps.0 }
{
    caps.bits() & CLOSED
}
