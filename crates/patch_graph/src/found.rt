//! The filters that a search has found.

ghost use Rattle.std.specs.Prelude.{◌≡◌, ◌≤◌, ◌<◌, ℕ, [], ◌∷◌, true, false, Some, None, IfSome, IfNone, length, slice_get, slice_index, slice_index_or};
ghost use Rattle.std.specs.List.{list_any};
ghost use Rattle.node_table.specs.Addresses.{same, is_filter};
ghost use Rattle.node_table.specs.Kept.{IsPlace};
ghost use Rattle.node_table.specs.declared.number.Addr.{Addr};
ghost use Rattle.node_table.specs.Numbers.{places};
ghost use Rattle.patch_graph.specs.Aged.{TellsPlace};
ghost use Rattle.patch_graph.specs.Found.{addr_of, with_filters};

use node_table::{Addr, PLACES, place_of};
use std::marker::Model;

/// How many nodes a search looks at in one turn.
const AT_ONCE: usize = 8;

/// Filters, each once, in the order in which they were found. It takes no memory.
#[derive(Drop)]
pub struct Found {
    // By place: the filters that are there, and ports that were come to.
    marked: [bool; PLACES],
    // The places of the filters, so that a search need not reckon them again.
    listed: [u16; PLACES],
    count: usize,
}

impl Model for Found {
    ghost use Rattle.std.specs.Prelude.{List, map, take};
    ghost use Rattle.node_table.specs.declared.number.Addr.{Addr};
    ghost use Rattle.patch_graph.specs.Found.{IsFound, addr_of};

    ghost Value = { List Addr };

    ghost view = { λ f. map addr_of (take f.count f.listed) };

    ghost invariant = { λ f. IsFound f.marked f.listed f.count };
}

fn unmarked<const N: usize>() -> [bool; N]
    ensures len { length result ≡ N }
    ensures none { (i : ℕ) → slice_index_or result i false ≡ false }
{
    [false; N]
}

fn zeros<const N: usize>() -> [u16; N]
    ensures len { length result ≡ N }
    ensures zeros { (i : ℕ) → slice_index result i ≡ 0 }
{
    [0; N]
}

impl Found {
    /// Nothing is found yet.
    pub fn new() -> Found
        ensures { result ≡ [] }
    {
        Found {
            marked: unmarked(),
            listed: zeros(),
            count: 0,
        }
    }

    /// Adds the filters among nodes. Beside each stands an age that tells its place.
    // So many in one turn, since nearly all that a search comes to is marked, and then takes four instructions.
    #[inline(always)]
    pub fn add_filters(&mut self, nodes: &[Addr], ages: &[u64])
        requires beside { length ages.now ≡ length nodes.now }
        requires told { (i : ℕ) (a : Addr) → slice_get nodes.now i ≡ Some a
            → TellsPlace (slice_index ages.now i) a }
        ensures { self.new ≡ with_filters self.old nodes.now }
    {
        let mut done = 0;
        while nodes.len() - done >= AT_ONCE {
            for step in 0..AT_ONCE {
                self.add(ages[done + step], &nodes[done + step]);
            }
            done += AT_ONCE;
        }
        for turn in done..nodes.len() {
            self.add(ages[turn], &nodes[turn]);
        }
    }

    /// Adds a node if it is a filter that is not there.
    #[inline(always)]
    fn add(&mut self, age: u64, node: &Addr)
        requires { TellsPlace age node.now }
        ensures { self.new ≡ with_filters self.old (node.now ∷ []) }
    {
        let place = (age % PLACES as u64) as usize;
        if !self.marked[place] {
            self.mark(place, node);
        }
    }

    /// Marks the node of a place, and adds it if it is a filter.
    // Not inline, so that the turn is short. A port is marked too, so that it comes here once.
    #[inline(never)]
    fn mark(&mut self, place: usize, node: &Addr)
        requires place { (row : ℕ) × IsPlace node.now row place }
        requires fresh { is_filter node.now ≡ true → list_any (same node.now) self.old ≡ false }
        ensures { self.new ≡ with_filters self.old (node.now ∷ []) }
    {
        self.marked[place] = true;
        if node.is_filter() {
            self.listed[self.count] = place as u16;
            self.count += 1;
        }
    }

    /// Whether a filter is there.
    pub fn contains(&self, node: &Addr) -> bool
        requires { is_filter node.now ≡ true }
        ensures { result ≡ list_any (same node.now) self.now }
    {
        self.marked[place_of(node)]
    }

    /// The place of the filter that was found at this turn, the first at 0.
    pub fn place(&self, turn: usize) -> Option<usize>
        ensures node { IfSome result (λ place. slice_get self.now turn ≡ Some (addr_of place)) }
        ensures small { IfSome result (λ place. place < places) }
        ensures none { IfNone result (slice_get self.now turn ≡ None) }
        ensures few { length self.now ≤ places }
    {
        if turn >= self.count {
            return None;
        }
        Some(self.listed[turn] as usize)
    }
}
