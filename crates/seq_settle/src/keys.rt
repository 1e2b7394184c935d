//! The keys by which cells are due.

ghost use Rattle.std.specs.Prelude.{◌≡◌, ℕ, Some, None, IsOk, OnOk};
ghost use Rattle.std.specs.FinMap as map;
ghost use Rattle.agenda_heap.specs.declared.due_key.DueKey.{DueKey};
ghost use Rattle.seq_state.specs.State.{with_entry};
ghost use Rattle.seq_settle.specs.Sends.{key_of_head};

use crate::desk::Desk;
use crate::head::PlaybackHead;
use agenda_heap::{Agenda, DueKey};
use cell_pools::CellKey;
use memory::OutOfMemory;

/// The key of a cell's first event, where it has one that has a moment. A command has one cell, so its place is 0.
#[inline(always)]
pub(crate) fn key_of<D: Desk>(desk: &D, head: &PlaybackHead) -> Option<DueKey>
    ensures { result ≡ key_of_head (D.clients desk.now) head.now }
{
    let due = head.due?;
    let moment = desk.moment_of(&head.queue, head.accepted, due)?;
    Some(DueKey {
        moment,
        rank: head.rank,
        place: 0,
    })
}

/// Gives a cell that has no key this one, if it is one.
#[inline(always)]
pub(crate) fn add_key<A: Agenda>(
    agenda: &mut A,
    cell: CellKey,
    key: Option<DueKey>,
) -> Result<(), OutOfMemory>
    requires absent { map.get (A.content agenda.old) cell ≡ None }
    requires free { (k : DueKey) (q : ℕ) → key ≡ Some k →
        map.get (A.content agenda.old) q ≡ Some k → q ≡ cell }
    ensures { OnOk result (A.content agenda.new ≡ with_entry (A.content agenda.old) cell key) }
{
    match key {
        Some(key) => agenda.insert(cell, key),
        None => Ok(()),
    }
}
