//! What waits, and is due.

ghost use Rattle.std.specs.Prelude.{◌≡◌, ◌<◌, ◌≤◌, ◌-◌, ◌^◌, ℕ, None, Some, IsOk, OnOk, if◌then◌else◌, unwrap_or};
ghost use Rattle.std.specs.Ordering.{nat_cmp};
ghost use Rattle.std.specs.FinMap as map;
ghost use Rattle.agenda_heap.specs.declared.due_key.DueKey.{DueKey};
ghost use Rattle.seq_settle.specs.Cells.{PlaybackCell, AreCells, key_of};
ghost use Rattle.seq_settle.specs.Moments.{moment_at};
ghost use Rattle.tempo_clock.specs.declared.due.Due.{Due};
ghost use Rattle.seq_settle.specs.Order.{AreLater, AreTimed, NoneComes};
ghost use Rattle.seq_settle.specs.Sends.{head_of};
ghost use Rattle.seq_settle.specs.Waiting.{cell_at, is_same};
ghost use Rattle.seq_settle.specs.Waking.{IsLeastMoment};
ghost use Rattle.seq_state.specs.State.{Client};

use crate::cells::head_at;
use crate::desk::Desk;
use crate::head::PlaybackHead;
use crate::keys::key_of;
use crate::lists::Listed;
use crate::order::{QueueOrder, row_of};
use crate::playback::Playback;
use crate::waiting::{FIRST, QueueKey};
use agenda_heap::{Agenda, DueKey};
use cell_pools::{CellKey, CellStore};
use memory::OutOfMemory;

/// Brings all that waits and is due by a moment into the agenda.
// Inline where nothing is, so that an event pays for one comparison.
#[inline(always)]
pub(crate) fn wake<D: Desk, A: Agenda>(
    desk: &D,
    cells: &CellStore<Playback<'_>>,
    order: &mut QueueOrder,
    agenda: &mut A,
    steps: u64,
    moment: u64,
) -> Result<(), OutOfMemory>
    requires cells { AreCells cells.now.cells steps }
    requires timed { AreTimed (D.clients desk.now) cells.now.cells order.old
        (A.content agenda.old) }
    ensures timed { OnOk result
        (AreTimed (D.clients desk.now) cells.now.cells order.new (A.content agenda.new)) }
    ensures later { OnOk result (AreLater (D.clients desk.now) cells.now.cells order.new moment) }

    // Where nothing is due no memory is asked for.
    ensures idle { NoneComes (D.clients desk.now) cells.now.cells moment → IsOk result }
{
    if moment < order.earliest {
        return Ok(());
    }
    wake_due(desk, cells, order, agenda, steps, moment)
}

/// Brings all that waits and is due by a moment into the agenda.
///
/// Of each queue only what is due is looked at, and one cell more. Running out of memory may leave a cell that is in
/// neither.
#[inline(never)]
fn wake_due<D: Desk, A: Agenda>(
    desk: &D,
    cells: &CellStore<Playback<'_>>,
    order: &mut QueueOrder,
    agenda: &mut A,
    steps: u64,
    moment: u64,
) -> Result<(), OutOfMemory>
    requires cells { AreCells cells.now.cells steps }
    requires timed { AreTimed (D.clients desk.now) cells.now.cells order.old
        (A.content agenda.old) }
    ensures timed { OnOk result
        (AreTimed (D.clients desk.now) cells.now.cells order.new (A.content agenda.new)) }
    ensures later { OnOk result (AreLater (D.clients desk.now) cells.now.cells order.new moment) }

    // Where nothing is due no memory is asked for.
    ensures idle { NoneComes (D.clients desk.now) cells.now.cells moment → IsOk result }
{
    let mut earliest = u64::MAX;
    let mut from = FIRST;
    while let Some(first) = order.waiting.first_from(from) {
        let key = first.0;
        let Some(head) = head_at(cells, first.1) else {
            unreachable!()
        };
        let least = least_moment(desk, &head);
        if least > moment {
            // Nor is what waits behind it in its row.
            earliest = earliest.min(least);
            from = QueueKey {
                row: key.row + 1,
                time: 0,
                rank: 0,
            };
            continue;
        }
        from = QueueKey {
            row: key.row,
            time: key.time,
            rank: key.rank + 1,
        };
        let Some(due) = key_of(desk, &head) else {
            continue;
        };
        if due.moment <= moment {
            wake_one(cells, order, agenda, steps, key, first.1, &head, due)?;
        } else {
            earliest = earliest.min(due.moment);
        }
    }
    order.earliest = earliest;
    Ok(())
}

/// No event of a cell's queue that is due by its due time or later has an earlier moment than this, in nanoseconds.
fn least_moment<D: Desk>(desk: &D, head: &PlaybackHead) -> u64
    ensures bound { IsLeastMoment (D.clients desk.now) head.now result }
    ensures greatest { (due : Due) → head.now.due ≡ Some due →
        result ≡ unwrap_or (moment_at (D.clients desk.now) head.now.queue 0 due) (2 ^ 64 - 1) }
{
    let Some(due) = head.due else {
        return u64::MAX;
    };
    desk.moment_of(&head.queue, 0, due).unwrap_or(u64::MAX)
}

/// Brings a cell that waits into the agenda.
fn wake_one<A: Agenda>(
    cells: &CellStore<Playback<'_>>,
    order: &mut QueueOrder,
    agenda: &mut A,
    steps: u64,
    key: QueueKey,
    cell: CellKey,
    head: &PlaybackHead,
    due: DueKey,
) -> Result<(), OutOfMemory>
    requires cells { AreCells cells.now.cells steps }
    requires waits { cell_at order.old.waiting key ≡ Some cell }
    requires here { (c : PlaybackCell) × (map.get cells.now.cells cell ≡ Some c)
        × (head.now ≡ head_of c) }
    requires timed { (clients : map.FinMap nat_cmp Client)
        × (key_of clients (map.get cells.now.cells cell) ≡ Some due)
        × AreTimed clients cells.now.cells order.old (A.content agenda.old) }
    ensures timed { OnOk result ((clients : map.FinMap nat_cmp Client) →
        key_of clients (map.get cells.now.cells cell) ≡ Some due →
        AreTimed clients cells.now.cells order.old (A.content agenda.old) →
        AreTimed clients cells.now.cells order.new (A.content agenda.new)) }
    ensures waiting { OnOk result ((k : QueueKey) → cell_at order.new.waiting k
        ≡ (if is_same key k then None else cell_at order.old.waiting k)) }
    ensures earliest { order.new.earliest ≡ order.old.earliest }
{
    order.waiting.remove(key);
    let listed = Listed {
        cell,
        rank: head.rank,
    };
    order.lists.add(cells, row_of(&head.queue), listed)?;
    agenda.insert(cell, due)
}
