//! The graph of subscriptions.

ghost use Rattle.std.specs.Prelude.{◌≡◌, ◌≤◌, ◌<◌, ◌+◌, ◌*◌, ◌^◌, ◌==◌, ◌↔◌, ℕ, true, false, not, is_some, Some, List, [], ◌∷◌, ◌++◌, length, map, slice_get, slice_index_or, slice_set, OnOk, OnErr, IfOk, IfSome, IfNone, IsErrOf, IsTrue};
ghost use Rattle.std.specs.Bool.{OnTrue, OnFalse};
ghost use Rattle.std.specs.List.{AllByRecursion, filter, list_any, position, zip};
ghost use Rattle.std.specs.List.Sorted.{IsPermutation, IsNonDecreasingBy};
ghost use Rattle.std.specs.Map.{lookup};
ghost use Rattle.node_table.specs.Addresses.{same, is_filter};
ghost use Rattle.node_table.specs.Kept.{IsPlace, IsTable, ReadsAs};
ghost use Rattle.node_table.specs.declared.number.Addr.{Addr};
ghost use Rattle.node_table.specs.Numbers.{places};
ghost use Rattle.patch_graph.specs.Edges.{edge, has_edge, without_edge, touches, touches_client, ends_at_client, sources_of, most_sources};
ghost use Rattle.patch_graph.specs.Chains.{Reaches, makes_cycle};
ghost use Rattle.patch_graph.specs.Found.{addr_of, with_filters};
ghost use Rattle.patch_graph.specs.Index.{targets_of, origins_of, LosesOne};
ghost use Rattle.patch_graph.specs.Aged.{IsRising, TellsPlace, all_of, youngest};

use crate::edge::{Edge, Origin};
use crate::fault::EdgeFault;
use crate::found::Found;
use crate::links::{Links, join};
use memory::OutOfMemory;
use node_table::{Addr, ClientId, PLACES, addr_at, place_of, row_of};
use std::alloc::{AllocError, Global};
use std::marker::Model;

/// How many edges may end at a node.
pub const MOST_SOURCES: usize = 32;

/// How many nodes a client may have, each with a place of its own.
const NODES: usize = 32;

/// How many edges can be given an age.
const MOST_ADDED: u64 = u64::MAX / PLACES as u64;

/// The subscriptions, oldest first.
///
/// Two edges never join one pair of nodes in one direction, at most `MOST_SOURCES` edges end at a node, and no chain of
/// filters leads back to its beginning.
#[derive(Drop)]
pub struct PatchGraph {
    alloc: Global,
    // By `place_of`: the targets of a node, and its sources. Both are empty until the first edge is added.
    targets: Vec<Links>,
    sources: Vec<Links>,
    // How many edges have been added in all, by which the age of the next is above those of all older ones.
    added: u64,
    count: usize,
}

impl Model for PatchGraph {
    ghost use Rattle.std.specs.Prelude.{List, ◌*◌};
    ghost use Rattle.node_table.specs.Numbers.{places};
    ghost use Rattle.patch_graph.specs.declared.edge.Edge.{Edge};
    ghost use Rattle.patch_graph.specs.Aged.{aged_edges, edges_of, AreAged};

    ghost Value = { List Edge };

    ghost view = { λ g. edges_of (aged_edges g.targets.items g.sources.items) };

    ghost invariant = { λ g. AreAged (aged_edges g.targets.items g.sources.items)
        g.targets.items g.sources.items (g.added * places) g.count };
}

/// Makes the places of a table that has none yet, each with nothing. One that has them stays as it is.
fn make_lists(alloc: Global, lists: &mut Vec<Links>) -> Result<(), AllocError>
    requires { IsTable lists.old.items }
    ensures whole { OnOk result (length lists.new.items ≡ places) }
    ensures err { OnErr result (lists.new.items ≡ lists.old.items) }
    ensures same { ReadsAs [] lists.new.items lists.old.items }
{
    lists.resize_with(PLACES, || Links::new(alloc))?;
    Ok(())
}

/// The nodes that a table has at the place of a node, which are none where the table has no places.
fn nodes_at<'t>(lists: &'t [Links], node: &Addr) -> &'t [Addr]
    ensures { (row place : ℕ) × IsPlace node.now row place
        × (result.now ≡ map (λ x. x.0) (slice_index_or lists.now place [])) }
{
    match lists.get(place_of(node)) {
        Some(list) => list.nodes(),
        None => &[],
    }
}

/// The age of the edge between two nodes, by the table that the first is a place of.
fn age_at(lists: &[Links], node: &Addr, other: &Addr) -> Option<u64>
    ensures { (row place : ℕ) × IsPlace node.now row place
        × (result ≡ lookup (same other.now) (slice_index_or lists.now place [])) }
{
    match lists.get(place_of(node)) {
        Some(list) => list.age_of(other),
        None => None,
    }
}

/// Adds the filters that a table has at a place to what a search has found.
// Inline, as all that is called for each node of a search, since a call takes as long as the edges of a few sources.
#[inline(always)]
fn find_at(lists: &[Links], place: usize, found: &mut Found)
    requires { AllByRecursion (λ x. TellsPlace x.1 x.0) (slice_index_or lists.now place []) }
    ensures { found.new ≡ with_filters found.old
        (map (λ x. x.0) (slice_index_or lists.now place [])) }
{
    if let Some(list) = lists.get(place) {
        found.add_filters(list.nodes(), list.ages());
    }
}

/// Removes the youngest edge at the place of a node, and gives the node at its other end and its age.
fn pop_at(lists: &mut [Links], node: &Addr) -> Option<(Addr, u64)>
    requires { length lists.old ≡ places }
    ensures { (row place : ℕ) × IsPlace node.now row place
        × (result ≡ youngest (slice_index_or lists.old place []))
        × IfSome result (λ x. lists.new ≡ slice_set lists.old place
        (filter (λ y. not (y.1 == x.1)) (slice_index_or lists.old place [])))
        × IfNone result (lists.new ≡ lists.old) }
{
    lists[place_of(node)].pop()
}

/// Removes the edge of an age at the place of a node, and gives where it stood there.
fn remove_at(lists: &mut [Links], node: &Addr, age: u64) -> Option<usize>
    requires { length lists.old ≡ places }
    ensures { (row place : ℕ) × IsPlace node.now row place
        × (lists.new ≡ slice_set lists.old place
        (filter (λ x. not (x.1 == age)) (slice_index_or lists.old place [])))
        × (result ≡ position (λ x. x.1 == age) (slice_index_or lists.old place [])) }
{
    lists[place_of(node)].remove(age)
}

/// Removes an edge at the places of both its ends, and gives where it stood among those of its source.
fn unlink(
    targets: &mut [Links],
    sources: &mut [Links],
    source: &Addr,
    target: &Addr,
    age: u64,
) -> Option<usize>
    requires { (length targets.old ≡ places) × (length sources.old ≡ places) }
    ensures onward { (row place : ℕ) × IsPlace source.now row place
        × (targets.new ≡ slice_set targets.old place
        (filter (λ x. not (x.1 == age)) (slice_index_or targets.old place [])))
        × (result ≡ position (λ x. x.1 == age) (slice_index_or targets.old place [])) }
    ensures back { (row place : ℕ) × IsPlace target.now row place
        × (sources.new ≡ slice_set sources.old place
        (filter (λ x. not (x.1 == age)) (slice_index_or sources.old place []))) }
{
    remove_at(sources, target, age);
    remove_at(targets, source, age)
}

/// Adds an edge at the places of both its ends.
fn join_at(
    targets: &mut [Links],
    sources: &mut [Links],
    source: &Addr,
    target: &Addr,
    age: u64,
) -> Result<(), OutOfMemory>
    requires places { (length targets.old ≡ places) × (length sources.old ≡ places) }
    requires young { (node : Addr) (row place : ℕ) → IsPlace node row place
        → IsRising 0 (slice_index_or targets.old place []) age
        × IsRising 0 (slice_index_or sources.old place []) age }
    ensures onward { (row place : ℕ) × IsPlace source.now row place × OnOk result
        (targets.new ≡ slice_set targets.old place
        (slice_index_or targets.old place [] ++ (target.now, age) ∷ [])) }
    ensures back { (row place : ℕ) × IsPlace target.now row place × OnOk result
        (sources.new ≡ slice_set sources.old place
        (slice_index_or sources.old place [] ++ (source.now, age) ∷ [])) }
    ensures err { OnErr result ((targets.new ≡ targets.old) × (sources.new ≡ sources.old)) }
{
    let onward = &mut targets[place_of(source)];
    let back = &mut sources[place_of(target)];
    join(onward, target, back, source, age)
}

/// The age of an edge that is added after so many others. It is above theirs, and modulo `PLACES` it is the place where
/// the edge begins, so that a search reads one number for each source.
fn age_after(added: u64, source: &Addr) -> Option<u64>
    ensures told { IfSome result (λ age. TellsPlace age source.now) }
    ensures above { IfSome result (λ age. added * places ≤ age) }
    ensures below { IfSome result (λ age. age < (added + 1) * places) }
    ensures few { IfSome result (λ age. age + 1 < 2 ^ 64) }
{
    // No number is given twice, and no run is so long that it gives all of them.
    if added >= MOST_ADDED {
        return None;
    }
    Some(added * PLACES as u64 + place_of(source) as u64)
}

/// All that stands in a table, by age.
fn by_age(alloc: Global, lists: &[Links]) -> Result<Vec<(Addr, u64)>, OutOfMemory>
    ensures all { IfOk result (λ links. IsPermutation (all_of lists.now) links.items) }
    ensures sorted { IfOk result (λ links. IsNonDecreasingBy (λ x. x.1) links.items) }
{
    let mut links = Vec::new(alloc);
    for list in lists {
        list.copy_to(&mut links)?;
    }
    links.sort_unstable_by_key(|link| link.1);
    Ok(links)
}

/// The edges to these targets from these sources.
fn edges_between(
    alloc: Global,
    targets: &[(Addr, u64)],
    sources: &[(Addr, u64)],
) -> Result<Vec<Edge>, OutOfMemory>
    requires { length targets.now ≡ length sources.now }
    ensures { IfOk result (λ edges. edges.items
        ≡ map (λ p. edge p.1.0 p.0.0) (zip targets.now sources.now)) }
{
    let mut edges = Vec::new(alloc);
    for turn in 0..targets.len() {
        edges.push(Edge {
            source: sources[turn].0,
            target: targets[turn].0,
        })?;
    }
    Ok(edges)
}

impl PatchGraph {
    /// A graph with no edges.
    pub fn new(alloc: Global) -> PatchGraph
        ensures { result ≡ [] }
    {
        PatchGraph {
            alloc,
            targets: Vec::new(alloc),
            sources: Vec::new(alloc),
            added: 0,
            count: 0,
        }
    }

    pub(crate) fn alloc(&self) -> Global {
        self.alloc
    }

    /// Whether one node is subscribed to the other.
    pub fn has_edge(&self, source: &Addr, target: &Addr) -> bool
        ensures { result ≡ has_edge self.now source.now target.now }
    {
        self.origins(target).contains(source)
    }

    /// How many edges there are.
    pub fn len(&self) -> usize
        ensures { result ≡ length self.now }
    {
        self.count
    }

    /// Whether there is no edge.
    pub fn is_empty(&self) -> bool
        ensures { result ≡ (length self.now == 0) }
    {
        self.count == 0
    }

    /// All edges, oldest first.
    pub fn edges(&self, alloc: Global) -> Result<Vec<Edge>, OutOfMemory>
        ensures { IfOk result (λ edges. edges.items ≡ self.now) }
    {
        let targets = by_age(alloc, &self.targets)?;
        let sources = by_age(alloc, &self.sources)?;
        edges_between(alloc, &targets, &sources)
    }

    /// How many edges end at a node, in constant time.
    pub fn sources(&self, target: &Addr) -> usize
        ensures count { result ≡ sources_of self.now target.now }
        ensures few { result ≤ most_sources }
    {
        nodes_at(&self.sources, target).len()
    }

    /// The nodes that are joined to a node, the oldest edge first.
    pub fn origins(&self, target: &Addr) -> &[Addr]
        ensures { result.now ≡ origins_of self.now target.now }
    {
        nodes_at(&self.sources, target)
    }

    /// An edge that ends at a node of a client, if there is one.
    pub fn edge_into(&self, client: ClientId) -> Option<Edge>
        ensures there { IfSome result (λ e. has_edge self.now e.source e.target ≡ true) }
        ensures into { IfSome result (λ e. e.target.client ≡ client) }
        ensures none { IfNone result (list_any (ends_at_client client) self.now ≡ false) }
    {
        if self.count == 0 {
            return None;
        }
        let start = row_of(client) * NODES;
        for place in start..start + NODES {
            if let Some(target) = addr_at(place) {
                if let Some(source) = self.origins(&target).last() {
                    return Some(Edge {
                        source: *source,
                        target,
                    });
                }
            }
        }
        None
    }

    /// The nodes that a node is joined to, the oldest edge first.
    pub fn targets(&self, source: &Addr) -> &[Addr]
        ensures { result.now ≡ targets_of self.now source.now }
    {
        nodes_at(&self.targets, source)
    }

    /// Removes an edge, and says whether it was there. It takes no memory.
    pub fn disconnect(&mut self, source: &Addr, target: &Addr) -> bool
        ensures there { result ≡ has_edge self.old source.now target.now }
        ensures rest { self.new ≡ without_edge self.old source.now target.now }
    {
        self.part(source, target).is_some()
    }

    /// Removes an edge, and gives where its target stood among those of its source. It takes no memory.
    pub fn part(&mut self, source: &Addr, target: &Addr) -> Option<usize>
        ensures there { is_some result ≡ has_edge self.old source.now target.now }
        ensures rest { self.new ≡ without_edge self.old source.now target.now }
        ensures place { IfSome result (λ place.
            slice_get (targets_of self.old source.now) place ≡ Some target.now) }
        ensures kept { IfNone result (self.new ≡ self.old) }
    {
        let Some(age) = age_at(&self.sources, target, source) else {
            return None;
        };
        let place = unlink(&mut self.targets, &mut self.sources, source, target, age).unwrap();
        self.count -= 1;
        Some(place)
    }

    /// Removes the youngest edge that begins at a node, and says whether there was one.
    // Not by `disconnect`, which would look for the age. So `pop_source` too.
    fn pop_target(&mut self, source: &Addr) -> bool
        ensures gone { OnTrue result (LosesOne source.now self.old self.new) }
        ensures none { OnFalse result (targets_of self.old source.now ≡ []) }
        ensures kept { OnFalse result (self.new ≡ self.old) }
    {
        if self.count == 0 {
            return false;
        }
        let Some((target, age)) = pop_at(&mut self.targets, source) else {
            return false;
        };
        remove_at(&mut self.sources, &target, age);
        self.count -= 1;
        true
    }

    /// Removes the youngest edge that ends at a node, and gives where it began. It takes no memory.
    pub fn pop_source(&mut self, target: &Addr) -> Option<Origin>
        ensures there { IfSome result (λ from.
            has_edge self.old from.source target.now ≡ true) }
        ensures rest { IfSome result (λ from.
            self.new ≡ without_edge self.old from.source target.now) }
        ensures place { IfSome result (λ from.
            slice_get (targets_of self.old from.source) from.place ≡ Some target.now) }
        ensures none { IfNone result (origins_of self.old target.now ≡ []) }
        ensures kept { IfNone result (self.new ≡ self.old) }
    {
        if self.count == 0 {
            return None;
        }
        let Some((source, age)) = pop_at(&mut self.sources, target) else {
            return None;
        };
        let place = remove_at(&mut self.targets, &source, age).unwrap();
        self.count -= 1;
        Some(Origin { source, place })
    }

    /// Removes the edges that begin or end at a node, and looks at no others but those of its neighbours. It takes no
    /// memory.
    pub fn remove_node(&mut self, node: &Addr)
        ensures { self.new ≡ filter (λ e. not (touches node.now e)) self.old }
    {
        while self.pop_target(node) {}
        while self.pop_source(node).is_some() {}
    }

    /// Removes the edges that begin or end at a node of a client, as `remove_node` does for each of its nodes. It takes
    /// no memory.
    pub fn remove_client(&mut self, client: ClientId)
        ensures { self.new ≡ filter (λ e. not (touches_client client e)) self.old }
    {
        if self.count == 0 {
            return;
        }
        let first = row_of(client) * NODES;
        for place in first..first + NODES {
            if let Some(node) = addr_at(place) {
                self.remove_node(&node);
            }
        }
    }

    /// Whether a chain of edges leads from one node to the other through filters alone, both of them filters too. It
    /// takes no memory, and goes along each edge between filters at most once.
    // From the end, since at most `MOST_SOURCES` edges end at a node, where any number may begin there.
    // Not inline: what a search has found takes 6 KiB of stack, which a caller need not have where a port is joined.
    #[inline(never)]
    pub fn reaches(&self, from: &Addr, to: &Addr) -> bool
        ensures { IsTrue result ↔ Reaches self.now from.now to.now }
    {
        if !from.is_filter() {
            return false;
        }
        if !to.is_filter() {
            return false;
        }
        if self.origins(to).is_empty() {
            return false;
        }
        if !self.leads_on(from) {
            return false;
        }
        let mut found = Found::new();
        self.find_filters(place_of(to), &mut found);
        let mut turn = 0;
        while let Some(place) = found.place(turn) {
            self.find_filters(place, &mut found);
            turn += 1;
        }
        found.contains(from)
    }

    /// Whether some edge leads from a node to a filter.
    fn leads_on(&self, node: &Addr) -> bool
        ensures { result ≡ list_any is_filter (targets_of self.now node.now) }
    {
        self.targets(node).iter().any(|target| target.is_filter())
    }

    /// Adds the filters that are joined to the node of a place.
    #[inline(always)]
    fn find_filters(&self, place: usize, found: &mut Found)
        requires { place < places }
        ensures { found.new ≡ with_filters found.old (origins_of self.now (addr_of place)) }
    {
        find_at(&self.sources, place, found);
    }

    /// Whether an edge from the source to the target would let a message come back to a filter that it has passed.
    pub fn makes_cycle(&self, source: &Addr, target: &Addr) -> bool
        ensures { result ≡ makes_cycle self.now source.now target.now }
    {
        source.is_filter() && (target == source || self.reaches(target, source))
    }

    /// Adds an edge, the youngest of all. The refusals are tested in the order of `EdgeFault`, and each leaves all as
    /// it was.
    #[tactic(auto, unfolding(crate::specs::Edges::most_sources))]
    pub fn connect(&mut self, source: Addr, target: Addr) -> Result<(), EdgeFault>
        ensures ok { OnOk result (self.new ≡ self.old ++ edge source target ∷ []) }
        ensures err { OnErr result (self.new ≡ self.old) }
        ensures already_connected { IsErrOf result EdgeFault.AlreadyConnected
            ↔ (has_edge self.old source target ≡ true) }
        ensures sources_full { IsErrOf result EdgeFault.SourcesFull
            ↔ ((has_edge self.old source target ≡ false)
            × (most_sources ≤ sources_of self.old target)) }
        ensures cycle { IsErrOf result EdgeFault.Cycle
            ↔ ((has_edge self.old source target ≡ false)
            × (sources_of self.old target < most_sources)
            × (makes_cycle self.old source target ≡ true)) }
    {
        if self.has_edge(&source, &target) {
            return Err(EdgeFault::AlreadyConnected);
        }
        if self.sources(&target) >= MOST_SOURCES {
            return Err(EdgeFault::SourcesFull);
        }
        if self.makes_cycle(&source, &target) {
            return Err(EdgeFault::Cycle);
        }
        self.add(source, target)?;
        Ok(())
    }

    /// Adds an edge, the youngest of all, for a caller that has made the tests of `connect`. `Err` leaves all as it
    /// was.
    pub fn add(&mut self, source: Addr, target: Addr) -> Result<(), OutOfMemory>
        requires fresh { has_edge self.old source target ≡ false }
        requires room { sources_of self.old target < most_sources }
        requires clear { makes_cycle self.old source target ≡ false }
        ensures ok { OnOk result (self.new ≡ self.old ++ edge source target ∷ []) }
        ensures err { OnErr result (self.new ≡ self.old) }
    {
        make_lists(self.alloc, &mut self.targets)?;
        make_lists(self.alloc, &mut self.sources)?;
        let Some(age) = age_after(self.added, &source) else {
            return Err(OutOfMemory);
        };
        join_at(&mut self.targets, &mut self.sources, &source, &target, age)?;
        self.added += 1;
        self.count += 1;
        Ok(())
    }
}
