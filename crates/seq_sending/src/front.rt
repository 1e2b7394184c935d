//! A front: the nodes to which a message has come along so many edges.

ghost use Rattle.std.specs.Prelude.{◌≡◌, ◌+◌, ◌*◌, ℕ, List, [], true, false, IfOk, OnOk};
ghost use Rattle.node_table.specs.declared.number.Addr.{Addr};
ghost use Rattle.seq_sending.specs.Counts.{ways_in};

use crate::carried::Carried;
use crate::count_fault::CountFault;
use crate::hints::Hints;
use memory::OutOfMemory;
use node_table::{Addr, place_of};
use std::alloc::Global;

/// A node to which a message goes, the form in which it comes there, and how many ways lead to that.
#[derive(Drop)]
pub(crate) struct Entry<M> {
    pub(crate) node: Addr,
    pub(crate) message: M,
    pub(crate) ways: u64,
}

/// The nodes to which a message goes along one edge more, each once for each form in which it comes there.
#[derive(Drop)]
pub(crate) struct Front<M> {
    pub(crate) entries: Vec<Entry<M>>,
    // By `place_of` the node.
    hints: Hints,
}

/// Whether two addresses are one.
#[inline]
pub(crate) fn are_one(one: &Addr, other: &Addr) -> bool
    ensures { result ≡ true → one.now ≡ other.now }
{
    one == other
}

impl<M: Carried> Entry<M> {
    /// Adds ways, where it is the entry of this node and this form, and says whether it is.
    fn add(&mut self, node: &Addr, message: &M, ways: u64) -> Result<bool, CountFault>
        ensures there { IfOk result (λ there. there ≡ true →
            (self.new ≡ record self.old { ways = self.old.ways + ways })
            × (self.old.node ≡ node.now) × (M.bytes self.old.message ≡ M.bytes message.now)) }
        ensures other { IfOk result (λ there. there ≡ false → self.new ≡ self.old) }
    {
        if !are_one(&self.node, node) || !self.message.is_same(message) {
            return Ok(false);
        }
        if self.ways > u64::MAX - ways {
            return Err(CountFault::TooMany);
        }
        self.ways += ways;
        Ok(true)
    }
}

/// Adds ways to the entry at a place, where that is of this node and this form, and says whether it is.
fn add_at<M: Carried>(
    entries: &mut Vec<Entry<M>>,
    at: usize,
    node: &Addr,
    message: &M,
    ways: u64,
) -> Result<bool, CountFault>
    ensures added { (f : Addr → List ℕ → ℕ) → IfOk result (λ there. there ≡ true →
        ways_in M.bytes f entries.new.items
        ≡ ways_in M.bytes f entries.old.items + ways * f node.now (M.bytes message.now)) }
    ensures other { IfOk result (λ there. there ≡ false → entries.new.items ≡ entries.old.items) }
{
    if at >= entries.len() {
        return Ok(false);
    }
    entries[at].add(node, message, ways)
}

/// Adds an entry.
fn push<M: Carried + Drop>(
    entries: &mut Vec<Entry<M>>,
    node: &Addr,
    message: &M,
    ways: u64,
) -> Result<(), OutOfMemory>
    ensures { (f : Addr → List ℕ → ℕ) → OnOk result (
        ways_in M.bytes f entries.new.items
        ≡ ways_in M.bytes f entries.old.items + ways * f node.now (M.bytes message.now)) }
{
    let message = message.once_more()?;
    entries.push(Entry {
        node: *node,
        message,
        ways,
    })?;
    Ok(())
}

impl<M> Front<M> {
    /// A front without nodes. It takes no memory.
    pub(crate) fn new(alloc: Global) -> Front<M>
        ensures { result.entries.items ≡ [] }
    {
        Front {
            entries: Vec::new(alloc),
            hints: Hints::new(alloc),
        }
    }
}

impl<M: Carried + Drop> Front<M> {
    /// Leaves no node. It keeps its memory.
    pub(crate) fn clear(&mut self)
        ensures { self.new.entries.items ≡ [] }
    {
        self.entries.clear();
    }

    /// Adds ways to a node in a form.
    pub(crate) fn add(&mut self, node: &Addr, message: &M, ways: u64) -> Result<(), CountFault>
        ensures { (f : Addr → List ℕ → ℕ) → OnOk result (
            ways_in M.bytes f self.new.entries.items
            ≡ ways_in M.bytes f self.old.entries.items + ways * f node.now (M.bytes message.now)) }
    {
        if self.add_known(node, message, ways)? {
            return Ok(());
        }
        self.note(node, message.form())?;
        push(&mut self.entries, node, message, ways)?;
        Ok(())
    }

    /// Adds ways to a node in a form, where it is known in that form, and says whether it is.
    fn add_known(&mut self, node: &Addr, message: &M, ways: u64) -> Result<bool, CountFault>
        ensures added { (f : Addr → List ℕ → ℕ) → IfOk result (λ there. there ≡ true →
            ways_in M.bytes f self.new.entries.items
            ≡ ways_in M.bytes f self.old.entries.items + ways * f node.now (M.bytes message.now)) }
        ensures other { IfOk result (λ there. there ≡ false →
            self.new.entries.items ≡ self.old.entries.items) }
    {
        let place = place_of(node);
        let first = self.hints.first(place);
        if add_at(&mut self.entries, first, node, message, ways)? {
            return Ok(true);
        }
        let later = self.hints.later(place, message.form());
        add_at(&mut self.entries, later, node, message, ways)
    }

    /// Notes that the next entry is of this node and this form.
    fn note(&mut self, node: &Addr, form: usize) -> Result<(), OutOfMemory>
        ensures { self.new.entries ≡ self.old.entries }
    {
        let place = place_of(node);
        let at = self.entries.len();
        let is_known = match self.entries.get(self.hints.first(place)) {
            Some(first) => are_one(&first.node, node),
            None => false,
        };
        if is_known {
            self.hints.note_later(place, form, at)
        } else {
            self.hints.note_first(place, at)
        }
    }
}
