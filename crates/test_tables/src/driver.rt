//! An agenda driven by moments alone.

ghost use Rattle.std.specs.Prelude.{◌≡◌, ◌<◌, OnOk, OnErr, IfSome, IfNone};
ghost use Rattle.std.specs.FinMap as map;
ghost use Rattle.agenda_heap.specs.Due.{IsFirstDue, NoneDue};
ghost use Rattle.test_tables.specs.Tracked.{IsTracked, with_key};

use agenda_heap::{Agenda, DueKey, OutOfMemory};
use cell_pools::CellKey;

/// How many cells a driver uses.
pub const CELLS: usize = 100;

/// An agenda, and which cells are in it. A key's rank is the number of its cell, so that no two cells have one key.
#[derive(Drop)]
pub struct Driver<A: Agenda> {
    /// The agenda. What is in it is set through the driver.
    pub agenda: A,
    there: [bool; CELLS],
    ghost tracked: { IsTracked (A.content agenda) there },
}

impl<A: Agenda> Driver<A> {
    /// Drives an agenda that holds nothing.
    pub fn new(agenda: A) -> Driver<A>
        requires empty { A.content agenda ≡ map.empty }
        ensures { A.content result.agenda ≡ map.empty }
    {
        Driver {
            agenda,
            there: [false; CELLS],
        }
    }

    /// Gives a cell, there or not, a key of this moment. Where memory is refused, nothing is changed.
    pub fn set(&mut self, cell: usize, moment: u64) -> Result<(), OutOfMemory>
        requires { cell < CELLS }
        ensures ok { OnOk result
            (A.content self.new.agenda ≡ with_key (A.content self.old.agenda) cell moment) }
        ensures err { OnErr result (A.content self.new.agenda ≡ A.content self.old.agenda) }
    {
        let key = DueKey {
            moment,
            rank: cell as u64,
            place: 0,
        };
        if self.there[cell] {
            self.agenda.rekey(CellKey::new(cell), key)?;
            return Ok(());
        }
        self.agenda.insert(CellKey::new(cell), key)?;
        self.there[cell] = true;
        Ok(())
    }

    /// Drops a cell if it is there.
    pub fn remove(&mut self, cell: usize)
        requires { cell < CELLS }
        ensures { A.content self.new.agenda ≡ map.remove (A.content self.old.agenda) cell }
    {
        self.agenda.remove(CellKey::new(cell));
        self.there[cell] = false;
    }

    /// Removes the cell with the least key, where its moment is at most `moment`, and gives both.
    pub fn pop_due(&mut self, moment: u64) -> Option<(CellKey, DueKey)>
        ensures due { IfSome result (λ r. IsFirstDue (A.content self.old.agenda) r.0 r.1 moment) }
        ensures popped { IfSome result
            (λ r. A.content self.new.agenda ≡ map.remove (A.content self.old.agenda) r.0) }
        ensures none { IfNone result (NoneDue (A.content self.old.agenda) moment) }
        ensures kept { IfNone result (A.content self.new.agenda ≡ A.content self.old.agenda) }
    {
        let due = self.agenda.pop_due(moment)?;
        let number = due.0.number();
        if number < CELLS {
            self.there[number] = false;
        }
        Some(due)
    }
}
