//! Playbacks that go.

ghost use Rattle.std.specs.Prelude.{◌≡◌, ℕ, true, false, Some, if◌then◌else◌};
ghost use Rattle.std.specs.List.{filter};
ghost use Rattle.std.specs.Ordering.{nat_cmp};
ghost use Rattle.std.specs.FinMap as map;
ghost use Rattle.cell_pools.specs.Cells.{size_of, is_of};
ghost use Rattle.seq_state.specs.State.{Client};
ghost use Rattle.seq_settle.specs.Cells.{PlaybackCell, AreCells, pending_in, playbacks};
ghost use Rattle.seq_settle.specs.Drops.{cell_goes, kept_cell, stays, IsDropped};
ghost use Rattle.seq_settle.specs.Order.{AreTimed};

use crate::cells::{drop_cell, head_at};
use crate::head::PlaybackHead;
use crate::order::{QueueOrder, queue_key};
use crate::playback::Playback;
use crate::which::Which;
use agenda_heap::Agenda;
use cell_pools::{CellKey, CellStore};
use node_table::{ClientId, FIRST_CLIENT, LAST_CLIENT};

/// Drops what goes with a client, or with something of a client's. It takes no memory.
///
/// `foreign` says whether others may have something on the client's queues: without it only the client's own cells are
/// looked at.
pub fn drop_playbacks<A: Agenda>(
    cells: &mut CellStore<Playback<'_>>,
    order: &mut QueueOrder,
    agenda: &mut A,
    steps: u64,
    client: ClientId,
    which: &Which,
    foreign: bool,
)
    requires cells { AreCells cells.old.cells steps }
    requires alone { foreign ≡ false → (q : ℕ) (c : PlaybackCell) → map.get cells.old.cells q ≡ Some c
        → stays client which.now (pending_in c) ≡ false → c.0 ≡ client }
    ensures playbacks { playbacks cells.new.cells steps
        ≡ filter (stays client which.now) (playbacks cells.old.cells steps) }
    ensures cells { AreCells cells.new.cells steps }
    ensures timed { (clients : map.FinMap nat_cmp Client) →
        AreTimed clients cells.old.cells order.old (A.content agenda.old)
        → AreTimed clients cells.new.cells order.new (A.content agenda.new) }
    ensures left { (q : ℕ) (c : PlaybackCell) → map.get cells.new.cells q ≡ Some c →
        stays client which.now (pending_in c) ≡ true }
    ensures sizes { (owner : ℕ) → size_of cells.new owner ≡ size_of cells.old owner }
{
    if !foreign {
        drop_of(cells, order, agenda, client, client, which);
        return;
    }
    cells.cells_are_of_clients();
    for number in FIRST_CLIENT..LAST_CLIENT + 1 {
        let owner = ClientId::new(number).unwrap();
        drop_of(cells, order, agenda, owner, client, which);
    }
}

/// Drops those of one owner's cells that go.
fn drop_of<A: Agenda>(
    cells: &mut CellStore<Playback<'_>>,
    order: &mut QueueOrder,
    agenda: &mut A,
    owner: ClientId,
    client: ClientId,
    which: &Which,
)
    ensures cells { (q : ℕ) →
        map.get cells.new.cells q ≡ (if is_of owner (map.get cells.old.cells q)
        then kept_cell (stays client which.now) (map.get cells.old.cells q)
        else map.get cells.old.cells q) }
    ensures timed { (clients : map.FinMap nat_cmp Client) (n : ℕ) → AreCells cells.old.cells n
        → AreTimed clients cells.old.cells order.old (A.content agenda.old)
        → AreTimed clients cells.new.cells order.new (A.content agenda.new) }
    ensures sizes { (other : ℕ) → size_of cells.new other ≡ size_of cells.old other }
{
    for index in (0..cells.used(owner)).rev() {
        if let Some(cell) = cells.nth_of(owner, index) {
            drop_one(cells, order, agenda, cell, client, which);
        }
    }
}

/// Drops a cell, if it is there and goes.
fn drop_one<A: Agenda>(
    cells: &mut CellStore<Playback<'_>>,
    order: &mut QueueOrder,
    agenda: &mut A,
    cell: CellKey,
    client: ClientId,
    which: &Which,
)
    ensures cells { IsDropped client which.now cells.old cells.new cell }
    ensures timed { (clients : map.FinMap nat_cmp Client) (n : ℕ) → AreCells cells.old.cells n
        → AreTimed clients cells.old.cells order.old (A.content agenda.old)
        → AreTimed clients cells.new.cells order.new (A.content agenda.new) }
{
    if let Some(head) = head_at(cells, cell) {
        if chosen(&head, client, which) {
            drop_cell(cells, cell);
            agenda.remove(cell);
            if let Some(due) = head.due {
                let key = queue_key(&head.queue, due, head.rank);
                order.waiting.remove(key);
            }
        }
    }
}

/// Whether the cell goes.
fn chosen(head: &PlaybackHead, client: ClientId, which: &Which) -> bool
    ensures { result ≡ cell_goes client which.now head.now }
{
    let own = head.client == client;
    let on_own = head.queue.client == client;
    match *which {
        Which::OfPort(port) => own && head.port == port,
        Which::OnQueue(queue) => on_own && head.queue.queue == queue,
        Which::All => own,
        Which::AllAndOnQueues => own || on_own,
    }
}
