//! Counts that are kept from one message to the next, so that a flood of messages is counted once.

ghost use Rattle.std.specs.Prelude.{◌≡◌, ◌<◌, List, [], true, IfSome};
ghost use Rattle.node_table.specs.Numbers.{places};
ghost use Rattle.std.specs.Ordering.{nat_cmp};
ghost use Rattle.std.specs.FinMap as map;
ghost use Rattle.patch_graph.specs.Index.{targets_of};
ghost use Rattle.patch_graph.specs.declared.edge.Edge.{Edge};
ghost use Rattle.seq_state.specs.State.{Client};
ghost use Rattle.seq_sending.specs.KeptCounts.{AreClassCounts, AreCountsKept};

use crate::class::WayClass;
use memory::OutOfMemory;
use midi_wire::NOTE_OFF;
use node_table::{Addr, MOST_CLIENTS, place_of};
use std::alloc::Global;

/// How many copies a message of a class leaves with each client, where it leaves a port.
#[derive(Drop)]
pub(crate) struct KeptCount {
    // `place_of` the port.
    pub(crate) place: usize,
    pub(crate) class: WayClass,
    // By the client's row.
    pub(crate) counts: [u64; MOST_CLIENTS],
}

/// The counts of messages that were sent since a rule or a subscription changed: of so many that what strangers send
/// takes two megabytes at most.
#[derive(Drop)]
pub(crate) struct CountTable {
    pub(crate) kept: Vec<KeptCount>,
    // By `slot_of`: where in `kept` it may stand. That is tested, so nothing rests on it but speed.
    slots: Vec<u16>,
}

/// The most counts that are kept. One more, and all are forgotten.
const MOST_KEPT: usize = 4_096;

/// How many slots there are: enough that each class of one port has its own.
const SLOTS: usize = 32_768;

/// The slot of a port, by its place, and a class.
fn slot_of(place: usize, class: WayClass) -> usize
    requires { place < places }
{
    let number = usize::from(class.status) * usize::from(NOTE_OFF)
        + usize::from(class.first.unwrap_or(0));
    (place * 10_007 + number) % SLOTS
}

impl KeptCount {
    /// Whether it is of the port with this place and of this class.
    fn is_of(&self, place: usize, class: WayClass) -> bool
        ensures { result ≡ true → (self.now.place ≡ place) × (self.now.class ≡ class) }
    {
        self.place == place && self.class == class
    }
}

impl CountTable {
    /// No counts. It takes no memory.
    pub(crate) fn new(alloc: Global) -> CountTable
        ensures { result.kept.items ≡ [] }
    {
        CountTable {
            kept: Vec::new(alloc),
            slots: Vec::new(alloc),
        }
    }

    /// How many copies a message of a class leaves with each client where it leaves a port, if that is kept.
    pub(crate) fn get(&self, source: &Addr, class: WayClass) -> Option<&[u64]>
        ensures { (clients : map.FinMap nat_cmp Client) (edges : List Edge)
            → AreCountsKept clients edges self.now.kept.items
            → let targets = targets_of edges source.now in IfSome result
            (λ counts. AreClassCounts clients edges targets class counts.now) }
    {
        let place = place_of(source);
        let at = usize::from(*self.slots.get(slot_of(place, class))?);
        let kept = self.kept.get(at)?;
        if !kept.is_of(place, class) {
            return None;
        }
        Some(&kept.counts)
    }

    /// Keeps counts. `Err` is out of memory, and leaves nothing kept that is not so.
    pub(crate) fn insert(
        &mut self,
        source: &Addr,
        class: WayClass,
        counts: [u64; MOST_CLIENTS],
    ) -> Result<(), OutOfMemory>
        ensures { (clients : map.FinMap nat_cmp Client) (edges : List Edge)
            → AreClassCounts clients edges (targets_of edges source.now) class counts
            → AreCountsKept clients edges self.old.kept.items
            → AreCountsKept clients edges self.new.kept.items }
    {
        self.make_room();
        let place = place_of(source);
        self.note(place, class)?;
        self.kept.push(KeptCount {
            place,
            class,
            counts,
        })?;
        Ok(())
    }

    /// Makes room for one count more: where there are as many as may be, all are forgotten.
    fn make_room(&mut self)
        ensures { (clients : map.FinMap nat_cmp Client) (edges : List Edge)
            → AreCountsKept clients edges self.old.kept.items
            → AreCountsKept clients edges self.new.kept.items }
    {
        if self.kept.len() < MOST_KEPT {
            return;
        }
        self.kept.clear();
    }

    /// Notes that the next counts are of this port and this class.
    fn note(&mut self, place: usize, class: WayClass) -> Result<(), OutOfMemory>
        requires { place < places }
        ensures { self.new.kept ≡ self.old.kept }
    {
        if self.slots.is_empty() {
            self.slots.resize(SLOTS, 0)?;
        }
        let at = self.kept.len().min(MOST_KEPT) as u16;
        if let Some(slot) = self.slots.get_mut(slot_of(place, class)) {
            *slot = at;
        }
        Ok(())
    }

    /// Forgets all counts. It takes no memory, and keeps what it has.
    pub(crate) fn clear(&mut self)
        ensures { self.new.kept.items ≡ [] }
    {
        self.kept.clear();
    }
}
