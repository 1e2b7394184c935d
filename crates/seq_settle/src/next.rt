//! When something is due next.

ghost use Rattle.std.specs.Prelude.{◌≡◌, Some, IfSome, IfNone};
ghost use Rattle.std.specs.Ordering.{nat_cmp};
ghost use Rattle.std.specs.FinMap as map;
ghost use Rattle.std.specs.Option.{option_map};
ghost use Rattle.agenda_heap.specs.declared.due_key.DueKey.{DueKey};
ghost use Rattle.agenda_heap.specs.Due.{IsBare};
ghost use Rattle.tempo_clock.specs.declared.due.Due.{Due};
ghost use Rattle.seq_settle.specs.Cells.{AreCells, seen_state};
ghost use Rattle.seq_settle.specs.Moments.{moment_at};
ghost use Rattle.seq_settle.specs.Next.{next_moment};
ghost use Rattle.seq_settle.specs.Order.{AreTimed};
ghost use Rattle.seq_settle.specs.Sends.{key_of_head};
ghost use Rattle.seq_settle.specs.Soonest.{is_sooner, sooner, IsFirstMoment, IsSoonest, WaitsUntil};

use crate::cells::head_at;
use crate::desk::Desk;
use crate::head::PlaybackHead;
use crate::keys::key_of;
use crate::order::QueueOrder;
use crate::playback::Playback;
use crate::waiting::{FIRST, QueueKey};
use agenda_heap::Agenda;
use cell_pools::CellStore;

/// When the next event is due, in nanoseconds, by the queues as they run now; `None` where no event has a moment.
///
/// `steps` is the number of inputs so far. It takes no memory.
pub fn soonest<D: Desk, A: Agenda>(
    desk: &D,
    cells: &CellStore<Playback<'_>>,
    order: &mut QueueOrder,
    agenda: &mut A,
    steps: u64,
) -> Option<u64>
    requires cells { AreCells cells.now.cells steps }
    requires timed { AreTimed (D.clients desk.now) cells.now.cells order.old
        (A.content agenda.old) }
    ensures moment { let now = desk.now in
        result ≡ next_moment
        (seen_state (D.clients now) (D.pools now) (D.edges now) cells.now.cells steps) }
    ensures timed { AreTimed (D.clients desk.now) cells.now.cells order.new
        (A.content agenda.new) }
{
    let first = first_moment(agenda);
    // Nothing that waits is sooner than what the agenda has.
    if !is_sooner(Some(order.earliest), first) {
        return first;
    }
    let waiting = soonest_waiting(desk, cells, order, steps);
    // So that what waits is not looked at again before it may be the next.
    order.earliest = waiting.unwrap_or(u64::MAX);
    sooner(first, waiting)
}

/// The moment of the agenda's least key.
fn first_moment<A: Agenda>(agenda: &mut A) -> Option<u64>
    ensures some { IfSome result (λ m. IsFirstMoment (A.content agenda.old) m) }
    ensures none { IfNone result (IsBare (A.content agenda.old)) }
    ensures same { A.content agenda.new ≡ A.content agenda.old }
{
    let key = agenda.first()?;
    Some(key.moment)
}

/// When the next event is due of all cells that wait.
///
/// Of each queue only what may be the next is looked at: mostly one cell of those that are due by ticks, and one of
/// those that are due by nanoseconds.
fn soonest_waiting<D: Desk>(
    desk: &D,
    cells: &CellStore<Playback<'_>>,
    order: &QueueOrder,
    steps: u64,
) -> Option<u64>
    requires cells { AreCells cells.now.cells steps }
    requires timed { (agenda : map.FinMap nat_cmp DueKey)
        × AreTimed (D.clients desk.now) cells.now.cells order.now agenda }
    ensures { IsSoonest (WaitsUntil (D.clients desk.now) cells.now.cells order.now) result }
{
    let mut least = None;
    let mut from = FIRST;
    while let Some(first) = order.waiting.first_from(from) {
        let key = first.0;
        let Some(head) = head_at(cells, first.1) else {
            unreachable!()
        };
        least = sooner(least, moment_of_first(desk, &head));
        if is_sooner(lower_bound(desk, &head), least) {
            from = QueueKey {
                row: key.row,
                time: key.time,
                rank: key.rank + 1,
            };
            continue;
        }
        // Nor is what waits behind it in its row.
        from = QueueKey {
            row: key.row + 1,
            time: 0,
            rank: 0,
        };
    }
    least
}

/// The moment of a cell's first event, if it has one.
fn moment_of_first<D: Desk>(desk: &D, head: &PlaybackHead) -> Option<u64>
    ensures { result ≡ option_map (λ k. k.moment) (key_of_head (D.clients desk.now) head.now) }
{
    let key = key_of(desk, head)?;
    Some(key.moment)
}

/// No event of a cell's queue that is due by its due time or later has an earlier moment; `None` where none has one.
fn lower_bound<D: Desk>(desk: &D, head: &PlaybackHead) -> Option<u64>
    ensures { (due : Due) → head.now.due ≡ Some due →
        result ≡ moment_at (D.clients desk.now) head.now.queue 0 due }
{
    let due = head.due?;
    desk.moment_of(&head.queue, 0, due)
}

/// Whether a moment comes before another, where `None` never comes.
fn is_sooner(moment: Option<u64>, other: Option<u64>) -> bool
    ensures { result ≡ is_sooner moment other }
{
    match (moment, other) {
        (None, _) => false,
        (Some(_), None) => true,
        (Some(moment), Some(other)) => moment < other,
    }
}

/// The sooner of two moments.
fn sooner(moment: Option<u64>, other: Option<u64>) -> Option<u64>
    ensures { result ≡ sooner moment other }
{
    if is_sooner(other, moment) {
        other
    } else {
        moment
    }
}
