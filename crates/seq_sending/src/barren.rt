//! What is barren: the nodes behind which no copy of a message finds room.

ghost use Rattle.std.specs.Prelude.{◌≡◌, ◌++◌, ◌∷◌, ℕ, List, [], true, OnOk};
ghost use Rattle.std.specs.Ordering.{nat_cmp};
ghost use Rattle.std.specs.FinMap as map;
ghost use Rattle.patch_graph.specs.declared.edge.Edge.{Edge};
ghost use Rattle.seq_state.specs.State.{Client, ClientPool};
ghost use Rattle.seq_sending.specs.Barren.{IsBarren, AreBarren};

use crate::carried::Carried;
use crate::front::are_one;
use crate::hints::Hints;
use memory::OutOfMemory;
use node_table::{Addr, PLACES, place_of};
use patch_graph::HOPS;
use std::alloc::Global;

/// A node, a form of a message, and a number of edges: of what comes there, and along so many edges behind it, nothing
/// finds room.
#[derive(Drop)]
pub(crate) struct Mark<M> {
    pub(crate) node: Addr,
    pub(crate) hops: u8,
    pub(crate) message: M,
}

impl<M: Carried> Mark<M> {
    /// Whether it is the mark of this node with this form and this number of edges.
    fn is_of(&self, node: &Addr, hops: u8, message: &M) -> bool
        ensures { result ≡ true → (self.now.node ≡ node.now) × (self.now.hops ≡ hops)
            × (M.bytes self.now.message ≡ M.bytes message.now) }
    {
        are_one(&self.node, node) && self.hops == hops && self.message.is_same(message)
    }
}

/// Marks of what comes to nothing.
#[derive(Drop)]
pub(crate) struct Barren<M> {
    pub(crate) marks: Vec<Mark<M>>,
    // By `place_at`.
    hints: Hints,
}

/// The place of a node for a number of edges.
fn place_at(node: &Addr, hops: u8) -> usize {
    hops as usize % HOPS * PLACES + place_of(node)
}

impl<M> Barren<M> {
    /// No marks. It takes no memory.
    pub(crate) fn new(alloc: Global) -> Barren<M>
        ensures { result.marks.items ≡ [] }
    {
        Barren {
            marks: Vec::new(alloc),
            hints: Hints::new(alloc),
        }
    }
}

impl<M: Carried + Drop> Barren<M> {
    /// Whether this node is marked with this form and this number of edges.
    pub(crate) fn has(&self, node: &Addr, hops: u8, message: &M) -> bool
        ensures { (clients : map.FinMap nat_cmp Client) (edges : List Edge) (moment : ℕ)
            (pools : map.FinMap nat_cmp ClientPool) →
            AreBarren M.bytes clients edges moment pools self.now.marks.items → result ≡ true →
            IsBarren clients edges moment pools hops node.now (M.bytes message.now) }
    {
        let place = place_at(node, hops);
        self.has_at(self.hints.first(place), node, hops, message)
            || self.has_at(self.hints.later(place, message.form()), node, hops, message)
    }

    /// Whether the mark at a place in the list is of this node with this form and this number of edges.
    fn has_at(&self, at: usize, node: &Addr, hops: u8, message: &M) -> bool
        ensures { (clients : map.FinMap nat_cmp Client) (edges : List Edge) (moment : ℕ)
            (pools : map.FinMap nat_cmp ClientPool) →
            AreBarren M.bytes clients edges moment pools self.now.marks.items → result ≡ true →
            IsBarren clients edges moment pools hops node.now (M.bytes message.now) }
    {
        match self.marks.get(at) {
            Some(mark) => mark.is_of(node, hops, message),
            None => false,
        }
    }

    /// Marks a node.
    pub(crate) fn add(&mut self, node: &Addr, hops: u8, message: M) -> Result<(), OutOfMemory>
        ensures { OnOk result (self.new.marks.items ≡ self.old.marks.items
            ++ record { node = node.now; hops = hops; message = message } ∷ []) }
    {
        self.note(node, hops, message.form())?;
        self.marks.push(Mark {
            node: *node,
            hops,
            message,
        })?;
        Ok(())
    }

    /// Notes that the next mark is of this node with this form and this number of edges.
    fn note(&mut self, node: &Addr, hops: u8, form: usize) -> Result<(), OutOfMemory>
        ensures { self.new.marks ≡ self.old.marks }
    {
        let place = place_at(node, hops);
        let at = self.marks.len();
        let is_known = match self.marks.get(self.hints.first(place)) {
            Some(first) => first.hops == hops && are_one(&first.node, node),
            None => false,
        };
        if is_known {
            self.hints.note_later(place, form, at)
        } else {
            self.hints.note_first(place, at)
        }
    }
}
