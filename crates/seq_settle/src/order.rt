//! What waits in the order of its queue, beside an agenda.

ghost use Rattle.std.specs.Prelude.{◌≡◌, None};
ghost use Rattle.seq_settle.specs.Cells.{IsQueue};
ghost use Rattle.seq_settle.specs.Order.{queue_row, waiting_key};
ghost use Rattle.seq_settle.specs.Waiting.{cell_at};

use crate::lists::QueueLists;
use crate::waiting::{QueueKey, WaitingCells};
use node_table::{FIRST_CLIENT, MOST_QUEUES, QueueAddr};
use std::alloc::Global;
use tempo_clock::Due;

/// What is beside an agenda: a cell that is not in it waits in the order of its queue's own time, which no change of
/// the queue changes.
///
/// So a change of a queue moves what the agenda has of it into that order, and each cell pays once for having come to
/// the agenda. A cell comes back when it is due.
#[derive(Drop)]
pub struct QueueOrder {
    pub(crate) waiting: WaitingCells,
    /// What came to the agenda.
    pub(crate) lists: QueueLists,
    /// Nothing that waits is due before this moment, in nanoseconds.
    pub(crate) earliest: u64,
}

impl QueueOrder {
    /// Nothing waits. It takes no memory yet.
    pub fn new(alloc: Global) -> QueueOrder
        ensures { (k : QueueKey) → cell_at result.waiting k ≡ None }
    {
        QueueOrder {
            waiting: WaitingCells::new(alloc),
            lists: QueueLists::new(alloc),
            earliest: u64::MAX,
        }
    }
}

/// The row of a queue among those of all clients.
pub(crate) fn row_of(queue: &QueueAddr) -> usize
    ensures row { result ≡ queue_row queue.now }
    ensures is_queue { IsQueue queue.now }
{
    let client = usize::from(queue.client.number() - FIRST_CLIENT);
    client * usize::from(MOST_QUEUES) + usize::from(queue.queue.number())
}

/// Where something stands that is due by a queue.
pub(crate) fn queue_key(queue: &QueueAddr, due: Due, rank: u64) -> QueueKey
    ensures { result ≡ waiting_key queue.now rank due }
{
    let row = 2 * row_of(queue) as u32;
    match due {
        Due::Tick(time) => QueueKey { row, time, rank },
        Due::Nanos(time) => QueueKey {
            row: row + 1,
            time,
            rank,
        },
    }
}
