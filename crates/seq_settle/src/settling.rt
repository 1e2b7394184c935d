//! Sending all that is due.

ghost use Rattle.std.specs.Prelude.{◌≡◌, ℕ, ◌++◌, IsOk, IfOk, OnOk};
ghost use Rattle.cell_pools.specs.Cells.{size_of};
ghost use Rattle.seq_state.specs.Step.{pools_after, copies_with_room, settle};
ghost use Rattle.seq_settle.specs.Cells.{AreCells, seen_state};
ghost use Rattle.seq_settle.specs.Order.{AreTimed, NoneComes};
ghost use Rattle.seq_settle.specs.Sends.{copies_of};

use crate::cells::{pop_first, pop_scheduled};
use crate::desk::Desk;
use crate::head::{PlaybackHead, PoppedMessage};
use crate::keys::{add_key, key_of};
use crate::order::QueueOrder;
use crate::playback::Playback;
use crate::waking::wake;
use agenda_heap::Agenda;
use cell_pools::CellStore;
use memory::OutOfMemory;
use seq_state::Delivery;

/// Sends all that is due by a moment, in order, and adds what came to ports to `out`.
///
/// `steps` is the number of inputs so far. Running out of memory may leave the agenda without a cell.
pub fn settle_all<D: Desk, A: Agenda>(
    desk: &mut D,
    cells: &mut CellStore<Playback<'_>>,
    order: &mut QueueOrder,
    agenda: &mut A,
    steps: u64,
    moment: u64,
    out: &mut Vec<Delivery>,
) -> Result<(), OutOfMemory>
    requires cells { AreCells cells.old.cells steps }
    requires timed { AreTimed (D.clients desk.old) cells.old.cells order.old
        (A.content agenda.old) }
    ensures state { let was = desk.old in
        let s = seen_state (D.clients was) (D.pools was) (D.edges was) cells.old.cells steps in
        OnOk result
        (seen_state (D.clients desk.new) (D.pools desk.new) (D.edges desk.new) cells.new.cells steps
        ≡ (settle s moment).state) }
    ensures delivered { let was = desk.old in
        let s = seen_state (D.clients was) (D.pools was) (D.edges was) cells.old.cells steps in
        OnOk result (out.new.items ≡ out.old.items ++ (settle s moment).delivered) }
    ensures cells { OnOk result (AreCells cells.new.cells steps) }
    ensures timed { OnOk result
        (AreTimed (D.clients desk.new) cells.new.cells order.new (A.content agenda.new)) }
    ensures sizes { OnOk result ((client : ℕ) →
        size_of cells.new client ≡ size_of cells.old client) }

    // Where nothing is due no memory is asked for.
    ensures idle { NoneComes (D.clients desk.old) cells.old.cells moment → IsOk result }
{
    wake(desk, cells, order, agenda, steps, moment)?;
    while let Some(due) = agenda.pop_due(moment) {
        // A message that was scheduled has no event behind it, so that its cell gets no key.
        if let Some(popped) = pop_scheduled(cells, due.0)? {
            send_popped(desk, due.1.moment, popped, out)?;
            continue;
        }
        let Some(popped) = pop_first(cells, due.0)? else {
            unreachable!()
        };
        let head = send_popped(desk, due.1.moment, popped, out)?;
        let key = key_of(desk, &head);
        add_key(agenda, due.0, key)?;
    }
    Ok(())
}

/// Sends an event that left its cell, and gives what the cell says of itself without it.
// Inline, so that the head is not stored where the caller drops it.
#[inline(always)]
fn send_popped<D: Desk>(
    desk: &mut D,
    moment: u64,
    popped: PoppedMessage,
    out: &mut Vec<Delivery>,
) -> Result<PlaybackHead, OutOfMemory>
    ensures head { IfOk result (λ h. h ≡ popped.head) }
    ensures clients { OnOk result (D.clients desk.new ≡ D.clients desk.old) }
    ensures edges { OnOk result (D.edges desk.new ≡ D.edges desk.old) }
    ensures pools { let h = popped.head in
        let ds = copies_of (D.clients desk.old) (D.edges desk.old)
        moment h.client h.port popped.message in
        OnOk result (D.pools desk.new ≡ pools_after (D.pools desk.old) ds) }
    ensures sent { let h = popped.head in
        let ds = copies_of (D.clients desk.old) (D.edges desk.old)
        moment h.client h.port popped.message in
        OnOk result (out.new.items ≡ out.old.items ++ copies_with_room (D.pools desk.old) ds) }
{
    let PoppedMessage { message, head } = popped;
    desk.send(moment, head.client, head.port, message, out)?;
    Ok(head)
}
