//! A playback more.

ghost use Rattle.std.specs.Prelude.{◌≡◌, ℕ, ◌<◌, ◌+◌, ◌++◌, [], ◌∷◌, true, OnOk};
ghost use Rattle.std.specs.List.{filter};
ghost use Rattle.cell_pools.specs.Cells.{size_of, used_by};
ghost use Rattle.seq_state.specs.Step.{is_left};
ghost use Rattle.seq_settle.specs.Cells.{AreCells, are_in_order, pending_in, playbacks};
ghost use Rattle.seq_settle.specs.Order.{AreTimed};
ghost use Rattle.seq_settle.specs.Sends.{new_left};

use crate::desk::Desk;
use crate::events::Events;
use crate::keys::{add_key, key_of};
use crate::lists::Listed;
use crate::order::{QueueOrder, row_of};
use crate::playback::Playback;
use agenda_heap::Agenda;
use cell_pools::CellStore;
use memory::OutOfMemory;
use node_table::{ClientId, PortNo, QueueAddr};

/// What a command that is accepted now has to send.
#[derive(Drop)]
pub struct Accepted<'b> {
    pub client: ClientId,
    pub port: PortNo,
    pub queue: QueueAddr,
    /// In nanoseconds.
    pub moment: u64,
    pub events: Events<'b>,
}

/// Adds what the command of this rank has to send, if it has an event.
#[inline(always)]
pub fn add_playback<'b, D: Desk, A: Agenda>(
    desk: &D,
    cells: &mut CellStore<Playback<'b>>,
    order: &mut QueueOrder,
    agenda: &mut A,
    rank: u64,
    accepted: Accepted<'b>,
) -> Result<(), OutOfMemory>
    requires cells { AreCells cells.old.cells rank }
    requires timed { AreTimed (D.clients desk.now) cells.old.cells order.old
        (A.content agenda.old) }
    requires ordered { are_in_order accepted.events ≡ true }
    requires room { used_by cells.old.cells accepted.client < size_of cells.old accepted.client }
    ensures added { let a = accepted.entry in
        let added = pending_in (a.client, new_left rank a.port a.queue a.moment a.events) in
        OnOk result (playbacks cells.new.cells (rank + 1)
        ≡ playbacks cells.old.cells rank ++ filter is_left (added ∷ [])) }
    ensures cells { OnOk result (AreCells cells.new.cells (rank + 1)) }
    ensures timed { OnOk result
        (AreTimed (D.clients desk.now) cells.new.cells order.new (A.content agenda.new)) }
    ensures sizes { OnOk result ((client : ℕ) →
        size_of cells.new client ≡ size_of cells.old client) }
{
    let Accepted {
        client,
        port,
        queue,
        moment,
        events,
    } = accepted;
    let Some(_) = events.first_due() else {
        return Ok(());
    };
    let row = row_of(&queue);
    let playing = Playback::new(rank, port, queue, moment, events);
    let key = key_of(desk, &playing.head(client));
    let Ok(cell) = cells.add(client, playing) else {
        return Err(OutOfMemory);
    };
    order.lists.add(cells, row, Listed { cell, rank })?;
    add_key(agenda, cell, key)
}
