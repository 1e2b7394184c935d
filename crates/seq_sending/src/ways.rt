//! The ways from a port. Filters one after another are one rule, so that a message is changed once on a way.

ghost use Rattle.std.specs.Prelude.{◌≡◌, ◌≢◌, ◌<◌, ℕ, List, [], ◌∷◌, ◌++◌, length, IfOk, IfSome, IfNone, OnOk};
ghost use Rattle.std.specs.List.{remove};
ghost use Rattle.std.specs.Ordering.{nat_cmp};
ghost use Rattle.std.specs.FinMap as map;
ghost use Rattle.std.specs.Option.{option_and_then, option_copied, option_to_list};
ghost use Rattle.midi_wire.specs.Messages.{IsMessage};
ghost use Rattle.patch_graph.specs.declared.edge.Edge.{Edge};
ghost use Rattle.patch_graph.specs.Cursor.{at_port};
ghost use Rattle.seq_state.specs.Copies.{copy};
ghost use Rattle.seq_state.specs.State.{Client};
ghost use Rattle.seq_sending.specs.Carrying.{let_through, of_some, copies_onward, copies_to};
ghost use Rattle.seq_sending.specs.Ways.{copies_on, copies_by_branches, IsWay, AreWaysTo, PartsFrom};

use crate::reach::{Extent, MOST_UNCOUNTED};
use memory::OutOfMemory;
use node_table::{Addr, Node, PortAddr};
use patch_graph::{HOPS, PatchGraph};
use route_filter::Rule;
use seq_clients::Clients;
use std::alloc::Global;
use std::marker::Model;

/// A way to a port, with the rule of all filters on it.
#[derive(Clone, Copy, Debug)]
pub(crate) struct Branch {
    pub(crate) rule: Option<Rule>,
    pub(crate) end: PortAddr,
}

/// What comes of the messages that go to a node which a port is joined to.
#[derive(Debug, Drop)]
pub(crate) enum Way {
    /// They come to a port as they are.
    Straight(PortAddr),
    /// They come to a port as a rule lets them through.
    Filtered(Rule, PortAddr),
    /// They come to ports along these branches, one after another, since more than one way leads on from the node or
    /// from a filter behind it. What does not pass this rule, that of the filters before the branches part, passes none
    /// of theirs: it stands here so that it is asked once.
    Parted(Option<Rule>, Vec<Branch>),
    /// They go on to this node, since so many ways lead on from it that they are not listed.
    Parting(Addr),
    /// They come to no port.
    Nowhere,
}

/// The ways from a port, in the order of its subscriptions. They are seen as their list.
#[derive(Drop)]
pub(crate) struct Ways {
    ways: Vec<Way>,
    /// How many nodes they come to, at least where these are few. Nothing rests on it but speed.
    nodes: usize,
}

impl Model for Ways {
    ghost use Rattle.std.specs.Prelude.{List};
    ghost use Rattle.seq_sending.specs.declared.ways.Way.{Way};

    ghost Value = { List Way };

    ghost view = { λ w. w.ways.items };
}

impl Ways {
    /// The ways as they are kept.
    #[inline(always)]
    pub(crate) fn as_slice(&self) -> &[Way]
        ensures { result.now ≡ self.now }
    {
        self.ways.as_slice()
    }

    /// The room of these ways, for others.
    pub(crate) fn emptied(self) -> Vec<Way>
        ensures { result.items ≡ [] }
    {
        let mut ways = self.ways;
        ways.clear();
        ways
    }

    /// How many nodes they come to.
    #[inline(always)]
    pub(crate) fn extent(&self) -> Extent {
        Extent::of(self.nodes)
    }

    /// How many ways there are.
    pub(crate) fn len(&self) -> usize
        ensures { result ≡ length self.now }
    {
        self.ways.len()
    }

    /// How many nodes they come to, at least where these are few.
    pub(crate) fn nodes(&self) -> usize {
        self.nodes
    }

    /// How many nodes more they may come to and still be few.
    pub(crate) fn room(&self) -> usize {
        MOST_UNCOUNTED.saturating_sub(self.nodes)
    }

    /// Adds the way to one node more, after which so many nodes more may come and the ways still be few. `Err` leaves
    /// the ways.
    pub(crate) fn join(
        &mut self,
        clients: &Clients,
        graph: &PatchGraph,
        target: &Addr,
        room: usize,
    ) -> Result<(), OutOfMemory>
        ensures { let cs = clients.now.clients in OnOk result ((nodes : List Addr) →
            AreWaysTo cs graph.now nodes self.old →
            AreWaysTo cs graph.now (nodes ++ target.now ∷ []) self.new) }
    {
        let way = way_to(*self.ways.allocator(), clients, graph, target, Extent::Few)?;
        self.ways.push(way)?;
        self.nodes = MOST_UNCOUNTED.saturating_sub(room);
        Ok(())
    }

    /// Takes out the way at a place, so that the others come to so many nodes.
    pub(crate) fn remove(&mut self, place: usize, nodes: usize)
        requires { place < length self.old }
        ensures { self.new ≡ remove self.old place }
    {
        self.ways.remove(place);
        self.nodes = nodes;
    }

    /// The port that messages go to by these ways, where that is all that they do.
    #[inline(always)]
    pub(crate) fn straight_end(&self) -> Option<PortAddr>
        ensures some { IfSome result (λ end. self.now ≡ Way.Straight end ∷ []) }
        ensures none { IfNone result ((end : PortAddr) → self.now ≢ Way.Straight end ∷ []) }
    {
        if let [Way::Straight(end)] = self.ways.as_slice() {
            return Some(*end);
        }
        None
    }
}

/// The rule of two filters, one after the other. A filter that is not there lets all through.
fn chained(first: Option<Rule>, next: Option<&Rule>) -> Option<Rule>
    ensures { (m : List ℕ) → IsMessage m → let_through result m
        ≡ option_and_then (let_through (option_copied next.entry)) (let_through first m) }
{
    match (first, next) {
        (Some(first), Some(next)) => Some(first.then(next)),
        (Some(first), None) => Some(first),
        (None, Some(next)) => Some(*next),
        (None, None) => None,
    }
}

/// The way to a node which a port is joined to, where the ways come to so many nodes.
fn way_to<'g>(
    alloc: Global,
    clients: &Clients,
    graph: &'g PatchGraph,
    target: &'g Addr,
    extent: Extent,
) -> Result<Way, OutOfMemory>
    ensures way { IfOk result (λ way. IsWay clients.now.clients graph.now target.now way) }
    ensures parts { IfOk result (λ way. PartsFrom target.now way) }
{
    let (mut hops, mut node, mut rule) = (HOPS - 1, target, None);
    loop {
        let client = node.client;
        match node.node {
            Node::Port(port) => return Ok(way_by(rule, PortAddr { client, port })),
            Node::Filter(filter) => rule = chained(rule, clients.rule(client, filter)),
        }
        if hops == 0 {
            return Ok(Way::Nowhere);
        }
        match graph.targets(node) {
            [next] => {
                node = next;
                hops -= 1;
            }
            [] => return Ok(Way::Nowhere),
            behind if extent == Extent::Few => {
                return parted(alloc, clients, graph, hops, behind, rule);
            }
            _ => return Ok(Way::Parting(*target)),
        }
    }
}

/// The way to a port, with the rule of the filters before it if there are any.
fn way_by(rule: Option<Rule>, end: PortAddr) -> Way
    ensures copies { (clients : map.FinMap nat_cmp Client) (edges : List Edge) (moment : ℕ)
        (m : List ℕ) → copies_on clients edges moment m result
        ≡ option_to_list (copy moment (at_port end) (let_through rule m)) }
    ensures whole { (node : Addr) → PartsFrom node result }
{
    match rule {
        Some(rule) => Way::Filtered(rule, end),
        None => Way::Straight(end),
    }
}

/// The way to ports by the branches behind a filter, which leads to these nodes, along at most `hops` edges. The rule is
/// that of all filters up to it.
fn parted(
    alloc: Global,
    clients: &Clients,
    graph: &PatchGraph,
    hops: usize,
    targets: &[Addr],
    rule: Option<Rule>,
) -> Result<Way, OutOfMemory>
    requires { hops ≢ 0 }
    ensures copies { IfOk result (λ way. (edges : List Edge) (moment : ℕ) (m : List ℕ) → IsMessage m →
        copies_on clients.now.clients edges moment m way
        ≡ of_some (λ x. copies_onward clients.now.clients graph.now moment hops targets.now x)
        (let_through rule m)) }
    ensures parts { IfOk result (λ way. (node : Addr) → PartsFrom node way) }
{
    let mut branches = Vec::new(alloc);
    for target in targets {
        add_branches(
            clients,
            graph,
            hops - 1,
            target,
            rule.as_ref(),
            &mut branches,
        )?;
    }
    Ok(Way::Parted(rule, branches))
}

/// Adds the branches by which a node leads to ports, along at most `hops` edges, behind filters with this rule.
fn add_branches(
    clients: &Clients,
    graph: &PatchGraph,
    hops: usize,
    node: &Addr,
    rule: Option<&Rule>,
    branches: &mut Vec<Branch>,
) -> Result<(), OutOfMemory>
    ensures { (moment : ℕ) (m : List ℕ) → IsMessage m → OnOk result (
        copies_by_branches moment m branches.new.items
        ≡ copies_by_branches moment m branches.old.items
        ++ of_some (λ x. copies_to clients.now.clients graph.now moment hops node.now x)
        (let_through (option_copied rule.entry) m)) }
{
    let client = node.client;
    let filter = match node.node {
        Node::Port(port) => {
            let (rule, end) = (rule.copied(), PortAddr { client, port });
            branches.push(Branch { rule, end })?;
            return Ok(());
        }
        Node::Filter(filter) => filter,
    };
    if hops == 0 {
        return Ok(());
    }
    let chain = chained(rule.copied(), clients.rule(client, filter));
    for target in graph.targets(node) {
        add_branches(clients, graph, hops - 1, target, chain.as_ref(), branches)?;
    }
    Ok(())
}

/// The ways to the nodes which a port is joined to, in their order, put into the room that is given. They come to so
/// many nodes.
pub(crate) fn ways_to(
    room: Vec<Way>,
    clients: &Clients,
    graph: &PatchGraph,
    targets: &[Addr],
    nodes: usize,
) -> Result<Ways, OutOfMemory>
    requires { room.items ≡ [] }
    ensures { IfOk result (λ ways. AreWaysTo clients.now.clients graph.now targets.now ways) }
{
    let mut ways = room;
    let (alloc, extent) = (*ways.allocator(), Extent::of(nodes));
    ways.reserve(targets.len())?;
    for target in targets {
        let way = way_to(alloc, clients, graph, target, extent)?;
        ways.push(way)?;
    }
    Ok(Ways { ways, nodes })
}
