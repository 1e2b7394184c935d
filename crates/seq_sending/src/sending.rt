//! What goes along the subscriptions.

ghost use Rattle.std.specs.Prelude.{◌≡◌, ◌<◌, ◌≤◌, ◌+◌, [], ◌∷◌, ◌++◌, List, vec_len, vec_capacity, Some, OnOk};
ghost use Rattle.std.specs.Option.{option_to_list};
ghost use Rattle.node_table.specs.declared.number.Addr.{Addr};
ghost use Rattle.patch_graph.specs.Cursor.{at_port};
ghost use Rattle.patch_graph.specs.Index.{targets_of};
ghost use Rattle.patch_graph.specs.declared.edge.Edge.{Edge};
ghost use Rattle.patch_graph.specs.Paths.{hops};
ghost use Rattle.seq_state.specs.Copies.{copy};
ghost use Rattle.seq_state.specs.Step.{pools_after, copies_with_room};
ghost use Rattle.seq_sending.specs.Carrying.{copies_to, copies_onward};
ghost use Rattle.seq_sending.specs.KeptCounts.{AreCountsKept};
ghost use Rattle.seq_sending.specs.Ways.{copies_by_branch, copies_by_branches, copies_on, copies_along, spread_all, AreWays};

use crate::carried::Carried;
use crate::counted::send_all_counted;
use crate::kept_counts::CountTable;
use crate::reach::Extent;
use crate::ways::{Branch, Way, Ways};
use memory::OutOfMemory;
use midi_wire::Message;
use node_table::{Addr, Node, PortAddr};
use patch_graph::{HOPS, PatchGraph};
use route_filter::VoiceMessage;
use seq_clients::Clients;
use seq_state::{Arrival, Delivery};
use std::alloc::Global;

/// Sends messages one after another to the nodes that a port is joined to, by the ways to these.
///
/// `Err` is out of memory, and may leave some copies sent.
pub(crate) fn send_each(
    alloc: Global,
    clients: &mut Clients,
    graph: &PatchGraph,
    moment: u64,
    source: &Addr,
    ways: &Ways,
    messages: &[Message],
    kept: &mut CountTable,
    out: &mut Vec<Delivery>,
) -> Result<(), OutOfMemory>
    requires ways { let targets = targets_of graph.now source.now in
        AreWays clients.old.clients graph.now targets ways.now }
    requires counts { AreCountsKept clients.old.clients graph.now kept.old.kept.items }
    ensures counts { AreCountsKept clients.old.clients graph.now kept.new.kept.items }
    ensures clients { clients.new.clients ≡ clients.old.clients }
    ensures pools { let c = clients.old in let targets = targets_of graph.now source.now in
        let ds = spread_all c.clients graph.now moment targets messages.now in
        OnOk result (clients.new.pools ≡ pools_after c.pools ds) }
    ensures sent { let c = clients.old in let targets = targets_of graph.now source.now in
        let ds = spread_all c.clients graph.now moment targets messages.now in
        OnOk result (out.new.items ≡ out.old.items ++ copies_with_room c.pools ds) }
{
    if let Some(end) = ways.straight_end() {
        return send_straight(clients, moment, end, messages, out);
    }
    if ways.extent() != Extent::Few {
        return send_all_counted(
            alloc, clients, graph, moment, source, ways, messages, kept, out,
        );
    }
    send_by_ways(clients, graph, moment, ways.as_slice(), messages, out)
}

/// Sends messages one after another by ways.
fn send_by_ways(
    clients: &mut Clients,
    graph: &PatchGraph,
    moment: u64,
    ways: &[Way],
    messages: &[Message],
    out: &mut Vec<Delivery>,
) -> Result<(), OutOfMemory>
    ensures clients { clients.new.clients ≡ clients.old.clients }
    ensures pools { let c = clients.old in (targets : List Addr) →
        AreWays c.clients graph.now targets ways.now →
        let ds = spread_all c.clients graph.now moment targets messages.now in
        OnOk result (clients.new.pools ≡ pools_after c.pools ds) }
    ensures sent { let c = clients.old in (targets : List Addr) →
        AreWays c.clients graph.now targets ways.now →
        let ds = spread_all c.clients graph.now moment targets messages.now in
        OnOk result (out.new.items ≡ out.old.items ++ copies_with_room c.pools ds) }
{
    for message in messages {
        send_message(clients, graph, moment, ways, message, out)?;
    }
    Ok(())
}

/// Sends messages one after another straight to a port: as they are, since no filter asks for their parts.
fn send_straight(
    clients: &mut Clients,
    moment: u64,
    end: PortAddr,
    messages: &[Message],
    out: &mut Vec<Delivery>,
) -> Result<(), OutOfMemory>
    ensures clients { clients.new.clients ≡ clients.old.clients }
    ensures pools { let c = clients.old in (edges : List Edge) (targets : List Addr) →
        AreWays c.clients edges targets (Way.Straight end ∷ []) →
        let ds = spread_all c.clients edges moment targets messages.now in
        OnOk result (clients.new.pools ≡ pools_after c.pools ds) }
    ensures sent { let c = clients.old in (edges : List Edge) (targets : List Addr) →
        AreWays c.clients edges targets (Way.Straight end ∷ []) →
        let ds = spread_all c.clients edges moment targets messages.now in
        OnOk result (out.new.items ≡ out.old.items ++ copies_with_room c.pools ds) }
{
    // At most one copy of each comes, so that room for them all is made once.
    out.reserve(messages.len())?;
    for message in messages {
        deliver_reserved(clients, moment, end, message.duplicate()?, out)?;
    }
    Ok(())
}

/// Sends a message to the nodes behind a port, by the ways to these: a channel message in its parts.
#[inline(always)]
pub(crate) fn send_message(
    clients: &mut Clients,
    graph: &PatchGraph,
    moment: u64,
    ways: &[Way],
    message: &Message,
    out: &mut Vec<Delivery>,
) -> Result<(), OutOfMemory>
    ensures clients { clients.new.clients ≡ clients.old.clients }
    ensures pools { let c = clients.old in (targets : List Addr) →
        AreWays c.clients graph.now targets ways.now →
        let ds = copies_onward c.clients graph.now moment hops targets message.now in
        OnOk result (clients.new.pools ≡ pools_after c.pools ds) }
    ensures sent { let c = clients.old in (targets : List Addr) →
        AreWays c.clients graph.now targets ways.now →
        let ds = copies_onward c.clients graph.now moment hops targets message.now in
        OnOk result (out.new.items ≡ out.old.items ++ copies_with_room c.pools ds) }
{
    match VoiceMessage::of(message) {
        Some(voice) => send_along(clients, graph, moment, ways, voice, out),
        None => send_along(clients, graph, moment, ways, message.duplicate()?, out),
    }
}

/// Sends a message along ways, one after another.
// Not inline, so that the loop over messages that go straight to one port stays small.
#[inline(never)]
fn send_along<M: Carried + Drop>(
    clients: &mut Clients,
    graph: &PatchGraph,
    moment: u64,
    ways: &[Way],
    message: M,
    out: &mut Vec<Delivery>,
) -> Result<(), OutOfMemory>
    ensures clients { clients.new.clients ≡ clients.old.clients }
    ensures pools { let c = clients.old in
        let ds = copies_along c.clients graph.now moment ways.now (M.bytes message) in
        OnOk result (clients.new.pools ≡ pools_after c.pools ds) }
    ensures sent { let c = clients.old in
        let ds = copies_along c.clients graph.now moment ways.now (M.bytes message) in
        OnOk result (out.new.items ≡ out.old.items ++ copies_with_room c.pools ds) }
{
    // Of one way nothing has to be kept for the next.
    if let [way] = ways {
        return send_by(clients, graph, moment, way, message, out);
    }
    // Mostly one copy comes by each way.
    out.reserve(ways.len())?;
    for way in ways {
        let message = message.once_more()?;
        send_by(clients, graph, moment, way, message, out)?;
    }
    Ok(())
}

/// Sends a message along a way.
#[inline(always)]
fn send_by<M: Carried + Drop>(
    clients: &mut Clients,
    graph: &PatchGraph,
    moment: u64,
    way: &Way,
    message: M,
    out: &mut Vec<Delivery>,
) -> Result<(), OutOfMemory>
    ensures clients { clients.new.clients ≡ clients.old.clients }
    ensures pools { let c = clients.old in
        let ds = copies_on c.clients graph.now moment (M.bytes message) way.now in
        OnOk result (clients.new.pools ≡ pools_after c.pools ds) }
    ensures sent { let c = clients.old in
        let ds = copies_on c.clients graph.now moment (M.bytes message) way.now in
        OnOk result (out.new.items ≡ out.old.items ++ copies_with_room c.pools ds) }
{
    match way {
        Way::Straight(end) => deliver(clients, moment, *end, message, out),
        Way::Filtered(rule, end) => match message.through(Some(rule)) {
            Some(passed) => deliver(clients, moment, *end, passed, out),
            None => Ok(()),
        },
        Way::Parted(rule, branches) => {
            if message.once_more()?.through(rule.as_ref()).is_none() {
                return Ok(());
            }
            send_parted(clients, moment, branches, message, out)
        }
        Way::Parting(node) => send_to(clients, graph, moment, HOPS - 1, node, message, out),
        Way::Nowhere => Ok(()),
    }
}

/// Sends a message along branches, one after another.
fn send_parted<M: Carried + Drop>(
    clients: &mut Clients,
    moment: u64,
    branches: &[Branch],
    message: M,
    out: &mut Vec<Delivery>,
) -> Result<(), OutOfMemory>
    ensures clients { clients.new.clients ≡ clients.old.clients }
    ensures pools { let ds = copies_by_branches moment (M.bytes message) branches.now in
        OnOk result (clients.new.pools ≡ pools_after clients.old.pools ds) }
    ensures sent { let ds = copies_by_branches moment (M.bytes message) branches.now in
        OnOk result (out.new.items ≡ out.old.items ++ copies_with_room clients.old.pools ds) }
{
    // At most one copy comes by each branch.
    out.reserve(branches.len())?;
    for branch in branches {
        let message = message.once_more()?;
        send_by_branch(clients, moment, branch, message, out)?;
    }
    Ok(())
}

/// Sends a message along a branch, where there is room for one delivery more.
#[inline(always)]
fn send_by_branch<M: Carried + Drop>(
    clients: &mut Clients,
    moment: u64,
    branch: &Branch,
    message: M,
    out: &mut Vec<Delivery>,
) -> Result<(), OutOfMemory>
    requires room { vec_len out.old < vec_capacity out.old }
    ensures clients { clients.new.clients ≡ clients.old.clients }
    ensures pools { let ds = copies_by_branch moment (M.bytes message) branch.now in
        OnOk result (clients.new.pools ≡ pools_after clients.old.pools ds) }
    ensures sent { let ds = copies_by_branch moment (M.bytes message) branch.now in
        OnOk result (out.new.items ≡ out.old.items ++ copies_with_room clients.old.pools ds) }
    ensures one { vec_len out.new ≤ vec_len out.old + 1 }
    ensures capacity { vec_capacity out.new ≡ vec_capacity out.old }
{
    match message.through(branch.rule.as_ref()) {
        Some(passed) => deliver_reserved(clients, moment, branch.end, passed, out),
        None => Ok(()),
    }
}

/// Sends a message on to nodes, along at most `hops` edges: a copy to each port whose client's pool has room, and what
/// each filter lets through on to the nodes behind it.
#[cycle(spread)]
fn spread<M: Carried + Drop>(
    clients: &mut Clients,
    graph: &PatchGraph,
    moment: u64,
    hops: usize,
    targets: &[Addr],
    message: M,
    out: &mut Vec<Delivery>,
) -> Result<(), OutOfMemory>
    ensures clients { clients.new.clients ≡ clients.old.clients }
    ensures pools { let c = clients.old in
        let ds = copies_onward c.clients graph.now moment hops targets.now (M.bytes message) in
        OnOk result (clients.new.pools ≡ pools_after c.pools ds) }
    ensures sent { let c = clients.old in
        let ds = copies_onward c.clients graph.now moment hops targets.now (M.bytes message) in
        OnOk result (out.new.items ≡ out.old.items ++ copies_with_room c.pools ds) }
{
    if hops == 0 {
        return Ok(());
    }
    for target in targets {
        let message = message.once_more()?;
        send_to(clients, graph, moment, hops - 1, target, message, out)?;
    }
    Ok(())
}

/// Sends a message on to a node, and along at most `hops` edges behind it.
// Where a filter leads to one node only, it goes on to that in place: a call would cost as much as a filter does.
#[cycle(spread)]
#[inline(always)]
fn send_to<'g, M: Carried + Drop>(
    clients: &mut Clients,
    graph: &'g PatchGraph,
    moment: u64,
    hops: usize,
    node: &'g Addr,
    message: M,
    out: &mut Vec<Delivery>,
) -> Result<(), OutOfMemory>
    ensures clients { clients.new.clients ≡ clients.old.clients }
    ensures pools { let c = clients.old in
        let ds = copies_to c.clients graph.now moment hops node.now (M.bytes message) in
        OnOk result (clients.new.pools ≡ pools_after c.pools ds) }
    ensures sent { let c = clients.old in
        let ds = copies_to c.clients graph.now moment hops node.now (M.bytes message) in
        OnOk result (out.new.items ≡ out.old.items ++ copies_with_room c.pools ds) }
{
    let (mut hops, mut node, mut message) = (hops, node, message);
    loop {
        let client = node.client;
        let passed = match node.node {
            Node::Port(port) => {
                let end = PortAddr { client, port };
                return deliver(clients, moment, end, message, out);
            }
            Node::Filter(filter) => message.through(clients.rule(client, filter)),
        };
        let Some(passed) = passed else {
            return Ok(());
        };
        if hops == 0 {
            return Ok(());
        }
        match graph.targets(node) {
            [next] => {
                node = next;
                hops -= 1;
                message = passed;
            }
            behind => return spread(clients, graph, moment, hops, behind, passed, out),
        }
    }
}

/// Offers a copy to the pool of the client that it is for.
// Inline, since a call would save and load as much as it does.
#[inline(always)]
pub fn deliver<M: Carried + Drop>(
    clients: &mut Clients,
    moment: u64,
    target: PortAddr,
    message: M,
    out: &mut Vec<Delivery>,
) -> Result<(), OutOfMemory>
    ensures clients { clients.new.clients ≡ clients.old.clients }
    ensures pools { let c = copy moment (at_port target) (Some (M.bytes message)) in
        OnOk result (clients.new.pools ≡ pools_after clients.old.pools (option_to_list c)) }
    ensures sent { let c = copy moment (at_port target) (Some (M.bytes message)) in
        OnOk result (out.new.items
        ≡ out.old.items ++ copies_with_room clients.old.pools (option_to_list c)) }
{
    out.reserve(1)?;
    deliver_reserved(clients, moment, target, message, out)
}

/// Offers a copy, as `deliver` does, where there is room for one delivery more.
#[inline(always)]
fn deliver_reserved<M: Carried + Drop>(
    clients: &mut Clients,
    moment: u64,
    target: PortAddr,
    message: M,
    out: &mut Vec<Delivery>,
) -> Result<(), OutOfMemory>
    requires room { vec_len out.old < vec_capacity out.old }
    ensures clients { clients.new.clients ≡ clients.old.clients }
    ensures pools { let c = copy moment (at_port target) (Some (M.bytes message)) in
        OnOk result (clients.new.pools ≡ pools_after clients.old.pools (option_to_list c)) }
    ensures sent { let c = copy moment (at_port target) (Some (M.bytes message)) in
        OnOk result (out.new.items
        ≡ out.old.items ++ copies_with_room clients.old.pools (option_to_list c)) }
    ensures one { vec_len out.new ≤ vec_len out.old + 1 }
    ensures capacity { vec_capacity out.new ≡ vec_capacity out.old }
{
    let PortAddr { client, port } = target;
    let arrival = Arrival {
        moment,
        port,
        message: message.once_more()?.into_message(),
    };
    if clients.offer(client, arrival) {
        out.push_reserved(Delivery {
            moment,
            target,
            message: message.into_message(),
        });
    }
    Ok(())
}
