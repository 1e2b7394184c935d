//! An agenda that is kept sorted.

ghost use Rattle.std.specs.Prelude.{◌≡◌, ◌≤◌, length, take};
ghost use Rattle.std.specs.List.{AllByRecursion};
ghost use Rattle.std.specs.declared.cmp.Ordering.TheVariants.{Less};
ghost use Rattle.std.specs.FinMap as map;
ghost use Rattle.agenda_heap.specs.Due.{due_cmp, IsNotAfter};

use crate::agenda::Agenda;
use crate::due_key::DueKey;
use cell_pools::CellKey;
use memory::OutOfMemory;
use std::alloc::Global;
use std::marker::Model;

/// An agenda that is easy to follow, for tests: each change moves all cells that are due before.
// The greatest key stands first, so that the least is the last.
#[derive(Drop)]
pub struct SortedAgenda {
    entries: Vec<(CellKey, DueKey)>,
}

impl Model for SortedAgenda {
    ghost use Rattle.std.specs.Ordering.{nat_cmp};
    ghost use Rattle.std.specs.Coded.{coded_ℕ};
    ghost use Rattle.std.specs.FinMap as map;
    ghost use Rattle.agenda_heap.specs.declared.due_key.DueKey.{DueKey};
    ghost use Rattle.agenda_heap.specs.Due.{coded_due_key, KeysFall};

    ghost Value = { map.FinMap nat_cmp DueKey };

    ghost coded = { map.code coded_ℕ coded_due_key };

    ghost view = { λ a. map.from_entries a.entries.items };

    ghost invariant = { λ a. KeysFall a.entries.items };
}

impl SortedAgenda {
    /// An agenda without a cell.
    pub fn new(alloc: Global) -> SortedAgenda
        ensures { result ≡ map.empty }
    {
        SortedAgenda {
            entries: Vec::new(alloc),
        }
    }
}

impl Agenda for SortedAgenda {
    ghost content = { λ a. a };

    fn insert(&mut self, cell: CellKey, key: DueKey) -> Result<(), OutOfMemory> {
        let place = insertion_place(self.entries.as_slice(), key);
        self.entries.insert(place, (cell, key))?;
        Ok(())
    }

    fn rekey(&mut self, cell: CellKey, key: DueKey) -> Result<(), OutOfMemory> {
        // First, so that no cell is lost where memory is refused.
        self.entries.reserve(1)?;
        self.entries.retain(|other| other.0 != cell);
        let place = insertion_place(self.entries.as_slice(), key);
        match self.entries.insert(place, (cell, key)) {
            Ok(()) => Ok(()),
            Err(_) => unreachable!(),
        }
    }

    fn remove(&mut self, cell: CellKey) {
        self.entries.retain(|entry| entry.0 != cell);
    }

    fn pop_due(&mut self, moment: u64) -> Option<(CellKey, DueKey)> {
        let last = self.entries.pop()?;
        if last.1.moment > moment {
            self.entries.push(last).ok().unwrap();
            return None;
        }
        Some(last)
    }

    fn first(&mut self) -> Option<DueKey> {
        let last = self.entries.pop()?;
        let key = last.1;
        self.entries.push(last).ok().unwrap();
        Some(key)
    }

    fn len(&self) -> usize {
        self.entries.len()
    }
}

/// Where a key goes: after the greater ones.
fn insertion_place(entries: &[(CellKey, DueKey)], key: DueKey) -> usize
    ensures within { result ≤ length entries.now }
    ensures greater { AllByRecursion (λ e. due_cmp key e.1 ≡ Less) (take result entries.now) }
    ensures stops { IsNotAfter key result entries.now }
{
    let mut place = 0;
    while place < entries.len() && key < entries[place].1 {
        place += 1;
    }
    place
}
