//! For each queue the cells that the agenda may have.

ghost use Rattle.std.specs.Prelude.{◌≡◌, ◌≢◌, ℕ, [], ◌↔◌, IsTrue, OnOk};
ghost use Rattle.seq_settle.specs.Lists.{list_at, IsIn, IsLive};

use crate::playback::Playback;
use cell_pools::{CellKey, CellStore};
use memory::OutOfMemory;
use std::alloc::Global;
use std::marker::Model;
use std::mem;

/// The room that a list has at least.
const LEAST: usize = 16;

/// A cell that came to the agenda.
#[derive(Clone, Copy, Debug)]
pub struct Listed {
    pub cell: CellKey,
    /// The number of its command among all inputs.
    pub rank: u64,
}

/// A list of cells for each queue, by its row. What went may be listed still, until its list has to grow.
#[derive(Drop)]
pub struct QueueLists {
    alloc: Global,
    rows: Vec<Vec<Listed>>,
}

impl Model for QueueLists {
    ghost use Rattle.std.specs.Prelude.{List, map};
    ghost use Rattle.std.specs.Coded.{coded_list};
    ghost use Rattle.seq_settle.specs.Lists.{coded_listed};
    ghost use Rattle.seq_settle.specs.declared.lists.Listed.{Listed};

    ghost Value = { List (List Listed) };

    ghost coded = { coded_list (coded_list coded_listed) };

    ghost view = { λ l. map (λ v. v.items) l.rows.items };
}

impl QueueLists {
    /// No cell is listed. It takes no memory yet.
    pub fn new(alloc: Global) -> QueueLists
        ensures { result ≡ [] }
    {
        QueueLists {
            alloc,
            rows: Vec::new(alloc),
        }
    }

    /// Lists a cell in a row.
    // Inline where there is room, so that an event pays for little more than what it writes.
    #[inline(always)]
    pub fn add(
        &mut self,
        cells: &CellStore<Playback<'_>>,
        row: usize,
        listed: Listed,
    ) -> Result<(), OutOfMemory>
        ensures own { OnOk result (IsIn listed (list_at self.new row)) }
        ensures kept { OnOk result ((e : Listed) → IsLive cells.now.cells e →
            IsIn e (list_at self.old row) → IsIn e (list_at self.new row)) }
        ensures others { OnOk result ((r : ℕ) → r ≢ row → list_at self.new r ≡ list_at self.old r) }
    {
        if row < self.rows.len() && self.rows[row].len() < self.rows[row].capacity() {
            self.rows[row].push_reserved(listed);
            return Ok(());
        }
        self.add_swept(cells, row, listed)
    }

    /// Lists a cell in a row, of which those go first that are no more.
    ///
    /// There is room then for twice as many as stay, so that each that is listed pays for looking at one or two.
    #[cold]
    #[inline(never)]
    fn add_swept(
        &mut self,
        cells: &CellStore<Playback<'_>>,
        row: usize,
        listed: Listed,
    ) -> Result<(), OutOfMemory>
        ensures own { OnOk result (IsIn listed (list_at self.new row)) }
        ensures kept { OnOk result ((e : Listed) → IsLive cells.now.cells e →
            IsIn e (list_at self.old row) → IsIn e (list_at self.new row)) }
        ensures others { OnOk result ((r : ℕ) → r ≢ row → list_at self.new r ≡ list_at self.old r) }
    {
        while self.rows.len() <= row {
            self.rows.push(Vec::new(self.alloc))?;
        }
        let list = &mut self.rows[row];
        list.retain(|e| is_live(cells, e));
        list.reserve(list.len().saturating_mul(2).saturating_add(LEAST))?;
        list.push(listed)?;
        Ok(())
    }

    /// Takes all that is listed in a row. It takes no memory.
    pub fn take(&mut self, row: usize) -> Vec<Listed>
        ensures taken { result.items ≡ list_at self.old row }
        ensures others { (r : ℕ) → r ≢ row → list_at self.new r ≡ list_at self.old r }
    {
        if row >= self.rows.len() {
            return Vec::new(self.alloc);
        }
        mem::replace(&mut self.rows[row], Vec::new(self.alloc))
    }
}

/// Whether the playback that was listed is in its cell still.
fn is_live(cells: &CellStore<Playback<'_>>, listed: &Listed) -> bool
    ensures { IsTrue result ↔ IsLive cells.now.cells listed.now }
{
    match cells.get(listed.cell) {
        Some(playing) => playing.rank() == listed.rank,
        None => false,
    }
}
