//! What is known of the ways from a port, kept where subscriptions of it come and go, so that nobody who joins it and
//! parts from it again makes what it sends dearer. The way to a node that it is joined to meanwhile is
//! found when it sends next.

ghost use Rattle.std.specs.Prelude.{◌≡◌, ◌≤◌, ◌+◌, ℕ, true, false, not, is_some, List, [], ◌∷◌, ◌++◌, length, take, Some, slice_get};
ghost use Rattle.std.specs.List.{filter, remove};
ghost use Rattle.std.specs.Ordering.{nat_cmp};
ghost use Rattle.std.specs.FinMap as map;
ghost use Rattle.node_table.specs.Addresses.{is_filter, same};
ghost use Rattle.node_table.specs.Kept.{IsPlace};
ghost use Rattle.node_table.specs.declared.number.Addr.{Addr};
ghost use Rattle.patch_graph.specs.Edges.{edge, without_edge};
ghost use Rattle.patch_graph.specs.Index.{targets_of};
ghost use Rattle.patch_graph.specs.declared.edge.Edge.{Edge};
ghost use Rattle.seq_state.specs.State.{Client};
ghost use Rattle.seq_sending.specs.Reach.{MayLeadThrough, LeadInOrder};
ghost use Rattle.seq_sending.specs.Table.{AreWaysThrough, AreWaysSoFar, AreWaysKept, IsSlotFound};

use crate::changes::Changes;
use crate::reach::{MOST_WALKED, Through, leave_before, look_at, look_from};
use crate::table::{Found, WayTable};
use node_table::{Addr, place_of};
use patch_graph::{HOPS, PatchGraph};
use seq_clients::Clients;

impl Found {
    /// Counts one node more to which no way is known yet, and says whether it could.
    fn join(&mut self) -> bool
        ensures { result ≡ true → self.new ≡ record self.old { newer = self.old.newer + 1 } }
    {
        let Some(newer) = self.newer.checked_add(1) else {
            return false;
        };
        self.newer = newer;
        true
    }

    /// Adds the ways to the nodes that the port was joined to since it sent, and says whether all ways are known then:
    /// where they would be many, or memory was refused, they are not.
    pub(crate) fn catch_up(
        &mut self,
        clients: &Clients,
        graph: &PatchGraph,
        targets: &[Addr],
    ) -> bool
        ensures all { result ≡ true → self.new.newer ≡ 0 }
        ensures ways { result ≡ true →
            AreWaysSoFar clients.now.clients graph.now targets.now self.old →
            AreWaysSoFar clients.now.clients graph.now targets.now self.new }
    {
        for way in self.ways.len()..targets.len() {
            if !self.add(clients, graph, &targets[way]) {
                return false;
            }
        }
        self.newer = 0;
        true
    }

    /// Adds the way to one node more, and says whether the ways still are known: where they would be many, or memory
    /// was refused, they are not.
    fn add(&mut self, clients: &Clients, graph: &PatchGraph, target: &Addr) -> bool
        ensures { result ≡ true → (nodes : List Addr) →
            AreWaysThrough (MayLeadThrough self.old.through) clients.now.clients graph.now nodes
            self.old.ways →
            AreWaysThrough (MayLeadThrough self.new.through) clients.now.clients graph.now
            (nodes ++ target.now ∷ []) self.new.ways }
    {
        let room = self.ways.room();
        let Through::These(through) = &mut self.through else {
            return false;
        };
        if room == 0 {
            return false;
        }
        let way = self.ways.len();
        let Ok(room) = look_at(graph, HOPS - 1, target, room - 1, through, way) else {
            return false;
        };
        room != 0 && self.ways.join(clients, graph, target, room).is_ok()
    }
}

impl Found {
    /// Follows the end of the port's subscription to the node at a place, and says whether the ways still are known: of
    /// many they are not, and not where memory was refused.
    fn part(&mut self, graph: &PatchGraph, source: &Addr, target: &Addr, place: usize) -> bool
        ensures at { self.new.at ≡ self.old.at }
        ensures ways { let left = targets_of graph.now source.now in result ≡ true →
            (clients : map.FinMap nat_cmp Client) (nodes : List Addr) →
            slice_get nodes place ≡ Some target.now →
            left ≡ filter (λ x. not (same target.now x)) nodes →
            AreWaysSoFar clients graph.now nodes self.old →
            AreWaysSoFar clients graph.now left self.new }
    {
        let targets = graph.targets(source);
        let known = self.ways.len();
        let Some(nodes) = known.checked_add(self.newer) else {
            return false;
        };
        if nodes != targets.len() + 1 || place >= nodes {
            return false;
        }
        if place >= known {
            self.newer -= 1;
            return true;
        }
        self.take_out(graph, &targets[..known - 1], target, place)
    }

    /// Takes out the way at a place, to this node, where the others lead to those that are left, and says whether they
    /// still are known.
    fn take_out(&mut self, graph: &PatchGraph, left: &[Addr], gone: &Addr, place: usize) -> bool
        requires within { place ≤ length left.now }
        requires many { length self.old.ways ≡ length left.now + 1 }
        ensures at { self.new.at ≡ self.old.at }
        ensures newer { self.new.newer ≡ self.old.newer }
        ensures ways { result ≡ true → self.new.ways ≡ remove self.old.ways place }
        ensures through { result ≡ true →
            LeadInOrder (MayLeadThrough self.old.through) graph.now (take place left.now) →
            LeadInOrder (MayLeadThrough self.new.through) graph.now left.now }
    {
        if self.ways.room() == 0 {
            return false;
        }
        let Some(nodes) = self.look_again(graph, left, gone, place) else {
            return false;
        };
        self.ways.remove(place, nodes);
        true
    }

    /// How many nodes the ways come to where that at a place, to this node, is to be taken out, and through whose
    /// filters they lead then: what is known of those before it stays, and only the others are looked at again.
    fn look_again(
        &mut self,
        graph: &PatchGraph,
        targets: &[Addr],
        gone: &Addr,
        place: usize,
    ) -> Option<usize>
        requires { place ≤ length targets.now }
        ensures at { self.new.at ≡ self.old.at }
        ensures ways { self.new.ways ≡ self.old.ways }
        ensures newer { self.new.newer ≡ self.old.newer }
        ensures through { is_some result ≡ true →
            LeadInOrder (MayLeadThrough self.old.through) graph.now (take place targets.now) →
            LeadInOrder (MayLeadThrough self.new.through) graph.now targets.now }
    {
        let Through::These(passed) = &mut self.through else {
            return None;
        };
        let others = self.ways.nodes().saturating_sub(1);
        // Its own clients are known already, so nothing is noted here that would stay.
        let Ok(nodes) = look_at(graph, HOPS - 1, gone, others, passed, place) else {
            return None;
        };
        leave_before(passed, place);
        match look_from(graph, targets, place, MOST_WALKED, passed) {
            Ok(left) if left != 0 => Some(nodes),
            _ => None,
        }
    }
}

/// Keeps what stands at the place of a port, which is joined to one node more now.
fn join_slot(slot: &mut Option<Found>)
    ensures { (clients : map.FinMap nat_cmp Client) (edges : List Edge) (changes : Changes)
        (source target : Addr) (row place : ℕ) → IsPlace source row place →
        is_filter source ≡ false → IsSlotFound clients edges changes place slot.old →
        IsSlotFound clients (edges ++ edge source target ∷ []) changes place slot.new }
{
    let known = match slot {
        Some(found) => found.join(),
        None => return,
    };
    if !known {
        *slot = None;
    }
}

/// Keeps what stands at the place of a port, which is joined no more to the node that stood at a place among its
/// targets.
fn part_slot(
    slot: &mut Option<Found>,
    changes: &Changes,
    graph: &PatchGraph,
    source: &Addr,
    target: &Addr,
    place: usize,
)
    ensures { (clients : map.FinMap nat_cmp Client) (edges : List Edge) (row at : ℕ) →
        IsPlace source.now row at → is_filter source.now ≡ false →
        graph.now ≡ without_edge edges source.now target.now →
        slice_get (targets_of edges source.now) place ≡ Some target.now →
        IsSlotFound clients edges changes.now at slot.old →
        IsSlotFound clients graph.now changes.now at slot.new }
{
    let known = match slot {
        Some(found) => {
            changes.is_current(found.at, source.client, &found.through)
                && found.part(graph, source, target, place)
        }
        None => return,
    };
    if !known {
        *slot = None;
    }
}

impl WayTable {
    /// Follows a subscription that was added as the youngest: what is known of the ways from a port stays so, and what
    /// hangs on the client of a filter is forgotten. It takes no memory.
    pub fn join(&mut self, source: &Addr)
        ensures { (clients : map.FinMap nat_cmp Client) (edges : List Edge) (target : Addr) →
            AreWaysKept clients edges self.old →
            AreWaysKept clients (edges ++ edge source.now target ∷ []) self.new }
    {
        if source.is_filter() {
            self.forget_client(source.client);
            return;
        }
        self.counts.clear();
        let place = place_of(source);
        if place < self.places.len() {
            let slot = &mut self.places[place];
            join_slot(slot);
        }
    }

    /// Follows a subscription that went, of a node that stood at such a place among the targets, as `join` follows one
    /// that came. Where memory is refused it does without.
    pub fn part(&mut self, graph: &PatchGraph, source: &Addr, target: &Addr, place: usize)
        ensures { (clients : map.FinMap nat_cmp Client) (edges : List Edge) →
            graph.now ≡ without_edge edges source.now target.now →
            slice_get (targets_of edges source.now) place ≡ Some target.now →
            AreWaysKept clients edges self.old → AreWaysKept clients graph.now self.new }
    {
        if source.is_filter() {
            self.forget_client(source.client);
            return;
        }
        self.counts.clear();
        let at = place_of(source);
        if at < self.places.len() {
            let slot = &mut self.places[at];
            part_slot(slot, &self.changes, graph, source, target, place);
        }
    }
}
