//! A walk along all ways of a message that leaves out those on which nothing finds room.

ghost use Rattle.std.specs.Prelude.{◌≡◌, ◌++◌, ℕ, Some, OnOk};
ghost use Rattle.std.specs.Option.{option_to_list};
ghost use Rattle.patch_graph.specs.Cursor.{at_port};
ghost use Rattle.seq_state.specs.Copies.{copy};
ghost use Rattle.seq_state.specs.Step.{pools_after, copies_with_room};
ghost use Rattle.seq_sending.specs.Barren.{AreBarren};
ghost use Rattle.seq_sending.specs.Carrying.{copies_to, copies_onward};

use crate::barren::Barren;
use crate::carried::Carried;
use crate::sending::deliver;
use memory::OutOfMemory;
use node_table::{Addr, FilterNo, Node, PortAddr};
use patch_graph::PatchGraph;
use seq_clients::Clients;
use seq_state::Delivery;

/// Offers a copy where there is room, and nothing else.
fn keep<M: Carried + Drop>(
    clients: &mut Clients,
    moment: u64,
    target: PortAddr,
    message: &M,
    out: &mut Vec<Delivery>,
) -> Result<(), OutOfMemory>
    ensures clients { clients.new.clients ≡ clients.old.clients }
    ensures pools { let was = clients.old.pools in
        let ds = option_to_list (copy moment (at_port target) (Some (M.bytes message.now))) in
        OnOk result (clients.new.pools ≡ pools_after was (copies_with_room was ds)) }
    ensures sent { let was = clients.old.pools in
        let ds = option_to_list (copy moment (at_port target) (Some (M.bytes message.now))) in
        OnOk result (out.new.items ≡ out.old.items ++ copies_with_room was ds) }
{
    if !clients.has_room(target.client, moment) {
        return Ok(());
    }
    let message = message.once_more()?;
    deliver(clients, moment, target, message, out)
}

/// Sends what finds room of a message on to nodes, along at most `hops` edges.
#[cycle(walk)]
pub(crate) fn walk_all<M: Carried + Drop>(
    clients: &mut Clients,
    graph: &PatchGraph,
    moment: u64,
    hops: u8,
    targets: &[Addr],
    message: &M,
    barren: &mut Barren<M>,
    out: &mut Vec<Delivery>,
) -> Result<(), OutOfMemory>
    requires { AreBarren M.bytes clients.old.clients graph.now moment clients.old.pools
        barren.old.marks.items }
    ensures clients { clients.new.clients ≡ clients.old.clients }
    ensures pools { let c = clients.old in
        let ds = copies_onward c.clients graph.now moment hops targets.now (M.bytes message.now) in
        OnOk result (clients.new.pools ≡ pools_after c.pools (copies_with_room c.pools ds)) }
    ensures sent { let c = clients.old in
        let ds = copies_onward c.clients graph.now moment hops targets.now (M.bytes message.now) in
        OnOk result (out.new.items ≡ out.old.items ++ copies_with_room c.pools ds) }
    ensures barren { OnOk result (AreBarren M.bytes clients.old.clients graph.now moment
        clients.new.pools barren.new.marks.items) }
{
    if hops == 0 {
        return Ok(());
    }
    for target in targets {
        walk_to(
            clients,
            graph,
            moment,
            hops - 1,
            target,
            message,
            barren,
            out,
        )?;
    }
    Ok(())
}

/// Sends what finds room of a message on to a node, and along at most `hops` edges behind it.
#[cycle(walk)]
fn walk_to<M: Carried + Drop>(
    clients: &mut Clients,
    graph: &PatchGraph,
    moment: u64,
    hops: u8,
    node: &Addr,
    message: &M,
    barren: &mut Barren<M>,
    out: &mut Vec<Delivery>,
) -> Result<(), OutOfMemory>
    requires { AreBarren M.bytes clients.old.clients graph.now moment clients.old.pools
        barren.old.marks.items }
    ensures clients { clients.new.clients ≡ clients.old.clients }
    ensures pools { let c = clients.old in
        let ds = copies_to c.clients graph.now moment hops node.now (M.bytes message.now) in
        OnOk result (clients.new.pools ≡ pools_after c.pools (copies_with_room c.pools ds)) }
    ensures sent { let c = clients.old in
        let ds = copies_to c.clients graph.now moment hops node.now (M.bytes message.now) in
        OnOk result (out.new.items ≡ out.old.items ++ copies_with_room c.pools ds) }
    ensures barren { OnOk result (AreBarren M.bytes clients.old.clients graph.now moment
        clients.new.pools barren.new.marks.items) }
{
    let client = node.client;
    match node.node {
        Node::Port(port) => keep(clients, moment, PortAddr { client, port }, message, out),
        Node::Filter(filter) => {
            if barren.has(node, hops, message) {
                return Ok(());
            }
            let before = out.len();
            walk_behind(
                clients, graph, moment, hops, node, filter, message, barren, out,
            )?;
            if out.len() != before {
                return Ok(());
            }
            let message = message.once_more()?;
            barren.add(node, hops, message)
        }
    }
}

/// Sends what finds room of a message that comes to a filter on to the nodes behind it.
#[cycle(walk)]
fn walk_behind<M: Carried + Drop>(
    clients: &mut Clients,
    graph: &PatchGraph,
    moment: u64,
    hops: u8,
    node: &Addr,
    filter: FilterNo,
    message: &M,
    barren: &mut Barren<M>,
    out: &mut Vec<Delivery>,
) -> Result<(), OutOfMemory>
    requires filter { node.now.node ≡ Node.Filter filter }
    requires barren { AreBarren M.bytes clients.old.clients graph.now moment clients.old.pools
        barren.old.marks.items }
    ensures clients { clients.new.clients ≡ clients.old.clients }
    ensures pools { let c = clients.old in
        let ds = copies_to c.clients graph.now moment hops node.now (M.bytes message.now) in
        OnOk result (clients.new.pools ≡ pools_after c.pools (copies_with_room c.pools ds)) }
    ensures sent { let c = clients.old in
        let ds = copies_to c.clients graph.now moment hops node.now (M.bytes message.now) in
        OnOk result (out.new.items ≡ out.old.items ++ copies_with_room c.pools ds) }
    ensures barren { OnOk result (AreBarren M.bytes clients.old.clients graph.now moment
        clients.new.pools barren.new.marks.items) }
{
    let message = message.once_more()?;
    let passed = message.through(clients.rule(node.client, filter));
    match passed {
        Some(passed) => {
            let targets = graph.targets(node);
            walk_all(clients, graph, moment, hops, targets, &passed, barren, out)
        }
        None => Ok(()),
    }
}
