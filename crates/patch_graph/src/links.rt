//! What stands at one place of the tables of a graph.

ghost use Rattle.std.specs.Prelude.{◌≡◌, ◌==◌, ◌<◌, ◌-◌, ◌≤◌, ℕ, not, List, [], ◌∷◌, ◌++◌, length, map, drop, slice_index, vec_len, vec_capacity, OnOk, OnErr, IfOk, IfSome, IfNone};
ghost use Rattle.std.specs.List.{filter, position};
ghost use Rattle.std.specs.Map.{lookup};
ghost use Rattle.node_table.specs.Addresses.{same};
ghost use Rattle.patch_graph.specs.Aged.{IsRising, youngest};

use crate::closing::{close_downward, close_upward};
use crate::search::place_of_age;
use memory::OutOfMemory;
use node_table::Addr;
use std::alloc::Global;
use std::marker::Model;

/// The nodes at the other ends of the edges of a node, each with the age of its edge, oldest first.
#[derive(Drop)]
pub struct Links {
    // In two lists, so that callers can have the nodes as one slice.
    nodes: Vec<Addr>,
    ages: Vec<u64>,
    // What stands before this place in both lists is of no edge any more. So the oldest edge goes at once too, and of
    // others only the shorter side moves.
    first: usize,
}

impl Model for Links {
    ghost use Rattle.std.specs.Prelude.{◌≡◌, ◌≤◌, ℕ, ◌^◌, List, length, drop};
    ghost use Rattle.std.specs.List.{zip};
    ghost use Rattle.node_table.specs.declared.number.Addr.{Addr};
    ghost use Rattle.patch_graph.specs.Aged.{IsRising};

    ghost Value = { List (Addr × ℕ) };

    ghost view = { λ l. zip (drop l.first l.nodes.items) (drop l.first l.ages.items) };

    ghost invariant = { λ l. (length l.ages.items ≡ length l.nodes.items)
        × (l.first ≤ length l.nodes.items)
        × IsRising 0 (zip (drop l.first l.nodes.items) (drop l.first l.ages.items)) (2 ^ 64) };
}

/// Moves what stands from a place on to the beginning, and leaves out the rest.
fn close_gap<T: Copy>(items: &mut Vec<T>, first: usize)
    requires { first ≤ length items.old.items }
    ensures { items.new.items ≡ drop first items.old.items }
{
    let count = items.len() - first;
    items.copy_within(first.., 0);
    items.truncate(count);
}

/// Makes room for one more in each of two lists. What stands before `first` gives it where that is half of all, so that
/// the lists of edges that come and go stay short.
fn reserve(nodes: &mut Vec<Addr>, ages: &mut Vec<u64>, first: &mut usize) -> Result<(), OutOfMemory>
    requires within { first.old ≤ length nodes.old.items }
    requires beside { length ages.old.items ≡ length nodes.old.items }
    ensures nodes { drop first.new nodes.new.items ≡ drop first.old nodes.old.items }
    ensures ages { drop first.new ages.new.items ≡ drop first.old ages.old.items }
    ensures within { first.new ≤ length nodes.new.items }
    ensures beside { length ages.new.items ≡ length nodes.new.items }
    ensures room { OnOk result ((vec_len nodes.new < vec_capacity nodes.new)
        × (vec_len ages.new < vec_capacity ages.new)) }
{
    let count = nodes.len();
    if count < nodes.capacity() && count < ages.capacity() {
        return Ok(());
    }
    make_room(nodes, ages, first)
}

/// `reserve` where some list is full.
#[cold]
#[inline(never)]
fn make_room(
    nodes: &mut Vec<Addr>,
    ages: &mut Vec<u64>,
    first: &mut usize,
) -> Result<(), OutOfMemory>
    requires within { first.old ≤ length nodes.old.items }
    requires beside { length ages.old.items ≡ length nodes.old.items }
    ensures nodes { drop first.new nodes.new.items ≡ drop first.old nodes.old.items }
    ensures ages { drop first.new ages.new.items ≡ drop first.old ages.old.items }
    ensures within { first.new ≤ length nodes.new.items }
    ensures beside { length ages.new.items ≡ length nodes.new.items }
    ensures room { OnOk result ((vec_len nodes.new < vec_capacity nodes.new)
        × (vec_len ages.new < vec_capacity ages.new)) }
{
    if *first >= nodes.len() - *first {
        close_gap(nodes, *first);
        close_gap(ages, *first);
        *first = 0;
    }
    nodes.reserve(1)?;
    ages.reserve(1)?;
    Ok(())
}

// For a list that has room. Generic, since the borrow checker does not cover the call where an address goes in.
fn push_within<T: Copy>(items: &mut Vec<T>, item: &T)
    requires { vec_len items.old < vec_capacity items.old }
    ensures { items.new.items ≡ items.old.items ++ item.now ∷ [] }
{
    items.push(*item).ok().unwrap();
}

impl Links {
    pub fn new(alloc: Global) -> Links
        ensures { result ≡ [] }
    {
        Links {
            nodes: Vec::new(alloc),
            ages: Vec::new(alloc),
            first: 0,
        }
    }

    pub fn nodes(&self) -> &[Addr]
        ensures { result.now ≡ map (λ x. x.0) self.now }
    {
        &self.nodes[self.first..]
    }

    pub fn ages(&self) -> &[u64]
        ensures { result.now ≡ map (λ x. x.1) self.now }
    {
        &self.ages[self.first..]
    }

    /// The age of the edge to a node.
    pub fn age_of(&self, node: &Addr) -> Option<u64>
        ensures { result ≡ lookup (same node.now) self.now }
    {
        let nodes = self.nodes();
        let ages = self.ages();
        for place in 0..nodes.len() {
            if nodes[place] == *node {
                return Some(ages[place]);
            }
        }
        None
    }

    /// Removes the youngest edge, and gives its node and its age.
    pub fn pop(&mut self) -> Option<(Addr, u64)>
        ensures value { result ≡ youngest self.old }
        ensures rest { IfSome result (λ x. self.new ≡ filter (λ y. not (y.1 == x.1)) self.old) }
        ensures none { IfNone result (self.new ≡ self.old) }
    {
        if self.first == self.nodes.len() {
            return None;
        }
        let node = self.nodes.pop().unwrap();
        let age = self.ages.pop().unwrap();
        Some((node, age))
    }

    /// Removes the edge of an age, and gives the place where it stood. It takes no memory.
    pub fn remove(&mut self, age: u64) -> Option<usize>
        ensures rest { self.new ≡ filter (λ x. not (x.1 == age)) self.old }
        ensures place { result ≡ position (λ x. x.1 == age) self.old }
    {
        let Some(before) = place_of_age(self.ages(), age) else {
            return None;
        };
        let place = self.first + before;
        if before < self.nodes.len() - place {
            close_upward(&mut self.nodes, &mut self.ages, self.first, place);
            self.first += 1;
        } else {
            close_downward(&mut self.nodes, &mut self.ages, place);
        }
        Some(before)
    }

    /// Adds all of them to a vector.
    pub fn copy_to(&self, links: &mut Vec<(Addr, u64)>) -> Result<(), OutOfMemory>
        ensures { OnOk result (links.new.items ≡ links.old.items ++ self.now) }
    {
        let nodes = self.nodes();
        let ages = self.ages();
        for place in 0..nodes.len() {
            links.push((nodes[place], ages[place]))?;
        }
        Ok(())
    }
}

/// Adds the target of an edge to the links of its source, and the source to those of its target. `Err` leaves both as
/// they were.
pub fn join(
    onward: &mut Links,
    target: &Addr,
    back: &mut Links,
    source: &Addr,
    age: u64,
) -> Result<(), OutOfMemory>
    requires onward { IsRising 0 onward.old age }
    requires back { IsRising 0 back.old age }
    ensures onward { OnOk result (onward.new ≡ onward.old ++ (target.now, age) ∷ []) }
    ensures back { OnOk result (back.new ≡ back.old ++ (source.now, age) ∷ []) }
    ensures err { OnErr result ((onward.new ≡ onward.old) × (back.new ≡ back.old)) }
{
    reserve(&mut onward.nodes, &mut onward.ages, &mut onward.first)?;
    reserve(&mut back.nodes, &mut back.ages, &mut back.first)?;
    push_within(&mut onward.nodes, target);
    push_within(&mut onward.ages, &age);
    push_within(&mut back.nodes, source);
    push_within(&mut back.ages, &age);
    Ok(())
}
