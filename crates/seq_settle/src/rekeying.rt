//! A queue that changed.

ghost use Rattle.std.specs.Prelude.{◌≡◌, ℕ, ◌≤◌, List, [], ◌∷◌, ◌++◌, Some, OnOk};
ghost use Rattle.std.specs.Ordering.{nat_cmp};
ghost use Rattle.std.specs.FinMap as map;
ghost use Rattle.tempo_clock.specs.declared.due.Due.{Due};
ghost use Rattle.seq_settle.specs.declared.lists.Listed.{Listed};
ghost use Rattle.seq_state.specs.State.{Client};
ghost use Rattle.seq_settle.specs.Cells.{AreCells};
ghost use Rattle.seq_settle.specs.Moments.{moment_at};
ghost use Rattle.seq_settle.specs.Order.{base_of, waiting_key, time_of, AreTimed};
ghost use Rattle.seq_settle.specs.Rekeyed.{AreLeaving, OthersSame};
ghost use Rattle.seq_settle.specs.Waiting.{cell_at};

use crate::cells::head_at;
use crate::desk::Desk;
use crate::lists::Listed;
use crate::order::{QueueOrder, queue_key, row_of};
use crate::playback::Playback;
use agenda_heap::Agenda;
use cell_pools::CellStore;
use memory::OutOfMemory;
use node_table::QueueAddr;
use tempo_clock::Due;

/// Lets all cells on a queue that changed wait in the order of the queue, from which they come back when they are due.
///
/// It goes over what came to the agenda since the queue changed before, and over no more. Running out of memory may
/// leave the agenda without a cell.
pub fn rekey_all<D: Desk, A: Agenda>(
    desk: &D,
    cells: &CellStore<Playback<'_>>,
    order: &mut QueueOrder,
    agenda: &mut A,
    steps: u64,
    queue: &QueueAddr,
) -> Result<(), OutOfMemory>
    requires cells { AreCells cells.now.cells steps }
    requires timed { (was : map.FinMap nat_cmp Client)
        × OthersSame was (D.clients desk.now) queue.now
        × AreTimed was cells.now.cells order.old (A.content agenda.old) }
    ensures { OnOk result
        (AreTimed (D.clients desk.now) cells.now.cells order.new (A.content agenda.new)) }
{
    let mut left = order.lists.take(row_of(queue));
    while let Some(listed) = left.pop() {
        lay_aside(cells, order, agenda, steps, queue, listed)?;
    }
    hasten(desk, order, queue, Due::Tick(0));
    hasten(desk, order, queue, Due::Nanos(0));
    Ok(())
}

/// Lets a cell that is listed wait, if it is there still.
fn lay_aside<A: Agenda>(
    cells: &CellStore<Playback<'_>>,
    order: &mut QueueOrder,
    agenda: &mut A,
    steps: u64,
    queue: &QueueAddr,
    listed: Listed,
) -> Result<(), OutOfMemory>
    requires cells { AreCells cells.now.cells steps }
    ensures { OnOk result ((clients : map.FinMap nat_cmp Client) (left : List Listed) →
        AreLeaving clients cells.now.cells order.old (A.content agenda.old) queue.now
        (left ++ listed ∷ []) →
        AreLeaving clients cells.now.cells order.new (A.content agenda.new) queue.now left) }
{
    let Some(head) = head_at(cells, listed.cell) else {
        return Ok(());
    };
    let Some(due) = head.due else {
        return Ok(());
    };
    if head.rank == listed.rank && head.queue == *queue {
        agenda.remove(listed.cell);
        let key = queue_key(queue, due, head.rank);
        order.waiting.insert(key, listed.cell)?;
    }
    Ok(())
}

/// Sets the earliest moment no later than that at which anything is due that waits on a queue, in ticks or in
/// nanoseconds as `first`, the least due time, is.
fn hasten<D: Desk>(desk: &D, order: &mut QueueOrder, queue: &QueueAddr, first: Due)
    requires { time_of first ≡ 0 }
    ensures waiting { order.new.waiting ≡ order.old.waiting }
    ensures lists { order.new.lists ≡ order.old.lists }
    ensures sooner { order.new.earliest ≤ order.old.earliest }
    ensures bound { (due : Due) (rank q accepted m : ℕ) → base_of due ≡ base_of first →
        cell_at order.old.waiting (waiting_key queue.now rank due) ≡ Some q →
        moment_at (D.clients desk.now) queue.now accepted due ≡ Some m →
        order.new.earliest ≤ m }
{
    let from = queue_key(queue, first, 0);
    let Some((key, _)) = order.waiting.first_from(from) else {
        return;
    };
    if key.row != from.row {
        return;
    }
    let due = due_like(first, key.time);
    if let Some(moment) = desk.moment_of(queue, 0, due) {
        order.earliest = order.earliest.min(moment);
    }
}

/// A due time that is counted in ticks or in nanoseconds, as another is.
fn due_like(other: Due, time: u64) -> Due
    ensures base { base_of result ≡ base_of other }
    ensures time { time_of result ≡ time }
{
    match other {
        Due::Tick(_) => Due::Tick(time),
        Due::Nanos(_) => Due::Nanos(time),
    }
}
