//! How far ways lead, and through whose filters.

ghost use Rattle.std.specs.Prelude.{◌≡◌, ◌≢◌, ◌≤◌, ℕ, ◌+◌, true, nat_lt, length, take, IfOk, OnOk};
ghost use Rattle.std.specs.List.{filter};
ghost use Rattle.seq_sending.specs.Reach.{is_passed, MayLeadThrough, LeadWithin, LeadsWithin, LeadInOrder};

use memory::OutOfMemory;
use node_table::{Addr, ClientId};
use patch_graph::{HOPS, PatchGraph};
use std::alloc::Global;

/// How many nodes ways come to, each as often as there is a way to it. Nothing rests on it but speed.
#[derive(Clone, Copy, Debug, PartialEq, Eq)]
pub(crate) enum Extent {
    /// So few that a walk along them costs no more than to look up how many copies come of it.
    Few,
    /// More than `MOST_UNCOUNTED`: they are walked where some copy finds room.
    Many,
    /// More than `MOST_WALKED`: they are never walked without marks.
    TooMany,
}

/// The most nodes to which ways come whose copies are not counted before they are sent.
pub(crate) const MOST_UNCOUNTED: usize = 128;

/// The most nodes that a walk without marks comes to.
pub(crate) const MOST_WALKED: usize = 8_192;

/// A client through whose filters ways lead, and the first of them that does.
#[derive(Clone, Copy, Debug)]
pub(crate) struct Passed {
    pub(crate) client: ClientId,
    /// Its place among the ways.
    pub(crate) way: usize,
}

/// The clients through whose filters ways lead.
#[derive(Drop)]
pub(crate) enum Through {
    /// These, each of them once.
    These(Vec<Passed>),
    /// Anyone: the ways are too many to look.
    Anyone,
}

impl Through {
    /// Their room, for others.
    pub(crate) fn emptied(self, alloc: Global) -> Vec<Passed> {
        match self {
            Through::These(passed) => {
                let mut passed = passed;
                passed.clear();
                passed
            }
            Through::Anyone => Vec::new(alloc),
        }
    }
}

impl Extent {
    /// That of ways which come to so many nodes.
    #[inline(always)]
    pub(crate) fn of(nodes: usize) -> Extent {
        if nodes <= MOST_UNCOUNTED {
            Extent::Few
        } else if nodes < MOST_WALKED {
            Extent::Many
        } else {
            Extent::TooMany
        }
    }
}

/// How far ways lead.
#[derive(Drop)]
pub(crate) struct Reach {
    /// How many nodes they come to: `MOST_WALKED` of as many or more.
    pub(crate) nodes: usize,
    pub(crate) through: Through,
}

/// Whether a client is one of those that the ways up to one of them lead through.
fn is_passed(passed: &[Passed], way: usize, client: ClientId) -> bool
    ensures { result ≡ is_passed passed.now way client }
{
    passed
        .iter()
        .any(|other| other.client == client && other.way <= way)
}

/// Notes that a way leads through filters of a client.
fn note(passed: &mut Vec<Passed>, way: usize, client: ClientId) -> Result<(), OutOfMemory>
    ensures noted { OnOk result (is_passed passed.new.items way client ≡ true) }
    ensures kept { (w c : ℕ) → is_passed passed.old.items w c ≡ true
        → is_passed passed.new.items w c ≡ true }
{
    if is_passed(passed, way, client) {
        return Ok(());
    }
    passed.push(Passed { client, way })?;
    Ok(())
}

/// Leaves those that some way before this place leads through.
pub(crate) fn leave_before(passed: &mut Vec<Passed>, place: usize)
    ensures { passed.new.items ≡ filter (λ x. nat_lt x.way place) passed.old.items }
{
    passed.retain(|other| other.way < place);
}

/// What is left of a number of nodes after those to which a way leads on, along at most `hops` subscriptions, whatever
/// the filters let through. It notes whose filters these are, as long as any are left.
#[cycle(look)]
fn look_at_all(
    graph: &PatchGraph,
    hops: usize,
    nodes: &[Addr],
    most: usize,
    passed: &mut Vec<Passed>,
    way: usize,
) -> Result<usize, OutOfMemory>
    ensures within { IfOk result (λ left. left ≢ 0 →
        LeadWithin (λ c. is_passed passed.new.items way c ≡ true) graph.now (hops + 1) nodes.now) }
    ensures kept { (w c : ℕ) → is_passed passed.old.items w c ≡ true
        → is_passed passed.new.items w c ≡ true }
{
    let mut left = most;
    for node in nodes {
        if left == 0 {
            return Ok(0);
        }
        left = look_at(graph, hops, node, left - 1, passed, way)?;
    }
    Ok(left)
}

/// The same of one node, where a way of at most `hops` subscriptions leads on from it.
#[cycle(look)]
pub(crate) fn look_at(
    graph: &PatchGraph,
    hops: usize,
    node: &Addr,
    most: usize,
    passed: &mut Vec<Passed>,
    way: usize,
) -> Result<usize, OutOfMemory>
    ensures within { IfOk result (λ left. left ≢ 0 →
        LeadsWithin (λ c. is_passed passed.new.items way c ≡ true) graph.now hops node.now) }
    ensures kept { (w c : ℕ) → is_passed passed.old.items w c ≡ true
        → is_passed passed.new.items w c ≡ true }
{
    if !node.is_filter() {
        return Ok(most);
    }
    note(passed, way, node.client)?;
    if hops == 0 {
        return Ok(most);
    }
    look_at_all(graph, hops - 1, graph.targets(node), most, passed, way)
}

/// What is left of a number of nodes after those to which the ways lead from this place on, each to one of the nodes
/// that a port is joined to.
pub(crate) fn look_from(
    graph: &PatchGraph,
    nodes: &[Addr],
    first: usize,
    most: usize,
    passed: &mut Vec<Passed>,
) -> Result<usize, OutOfMemory>
    requires { first ≤ length nodes.now }
    ensures { IfOk result (λ left. left ≢ 0 →
        LeadInOrder (λ way c. is_passed passed.old.items way c ≡ true) graph.now
        (take first nodes.now) →
        LeadInOrder (λ way c. is_passed passed.new.items way c ≡ true) graph.now nodes.now) }
{
    let mut left = most;
    for way in first..nodes.len() {
        if left == 0 {
            return Ok(0);
        }
        left = look_at(graph, HOPS - 1, &nodes[way], left - 1, passed, way)?;
    }
    Ok(left)
}

/// How far ways lead from these nodes on, to which a port is joined. The clients are put into the room that is given.
pub(crate) fn reach_of(
    room: Vec<Passed>,
    graph: &PatchGraph,
    nodes: &[Addr],
) -> Result<Reach, OutOfMemory>
    ensures { IfOk result
        (λ reach. LeadInOrder (MayLeadThrough reach.through) graph.now nodes.now) }
{
    let mut passed = room;
    let left = look_from(graph, nodes, 0, MOST_WALKED, &mut passed)?;
    if left == 0 {
        return Ok(Reach {
            nodes: MOST_WALKED,
            through: Through::Anyone,
        });
    }
    Ok(Reach {
        nodes: MOST_WALKED.saturating_sub(left),
        through: Through::These(passed),
    })
}
