//! The queues of one client, by their numbers.

ghost use Rattle.std.specs.Prelude.{◌≡◌, true, false};
ghost use Rattle.std.specs.Option.{option_copied};
ghost use Rattle.std.specs.FinMap as map;
ghost use Rattle.seq_clients.specs.Roster.{NoneShared, SomeShared};

use crate::queue::Queue;
use node_table::{MOST_QUEUES, QueueNo, nothing};
use std::marker::Model;

/// One for each queue that a client may have.
const SLOTS: usize = MOST_QUEUES as usize;

/// The queues of one client.
#[derive(Drop)]
pub(crate) struct QueueTable {
    // By the number of the queue.
    queues: [Option<Queue>; SLOTS],
}

impl Model for QueueTable {
    ghost use Rattle.std.specs.Prelude.{◌≡◌, None, length, slice_index_or};
    ghost use Rattle.std.specs.Ordering.{nat_cmp};
    ghost use Rattle.std.specs.Coded.{coded_ℕ};
    ghost use Rattle.std.specs.FinMap as map;
    ghost use Rattle.node_table.specs.Numbers.{most_queues};
    ghost use Rattle.node_table.specs.Kept.{numbered_map};
    ghost use Rattle.seq_state.specs.State as state;
    ghost use Rattle.seq_state.specs.Codes.{coded_queue};

    ghost Value = { map.FinMap nat_cmp state.Queue };

    ghost coded = { map.code coded_ℕ coded_queue };

    ghost view = { λ t. numbered_map 0 most_queues (λ number. slice_index_or t.queues number None) };

    ghost invariant = { λ t. length t.queues ≡ most_queues };
}

impl QueueTable {
    pub(crate) fn new() -> QueueTable
        ensures { result ≡ map.empty }
    {
        QueueTable { queues: nothing() }
    }

    pub(crate) fn get(&self, queue: QueueNo) -> Option<&Queue>
        ensures { option_copied result ≡ map.get self.now queue }
    {
        self.queues[queue.number() as usize].as_ref()
    }

    /// Puts a queue in the place of one that may be there.
    pub(crate) fn insert(&mut self, queue: QueueNo, held: Queue)
        ensures { self.new ≡ map.insert self.old queue held }
    {
        self.queues[queue.number() as usize] = Some(held);
    }

    pub(crate) fn remove(&mut self, queue: QueueNo) -> Option<Queue>
        ensures value { result ≡ map.get self.old queue }
        ensures left { self.new ≡ map.remove self.old queue }
    {
        self.queues[queue.number() as usize].take()
    }

    /// Whether clients other than its own may use one of them.
    pub(crate) fn has_shared(&self) -> bool
        ensures none { result ≡ false → NoneShared self.now }
        ensures some { result ≡ true → SomeShared self.now }
    {
        for number in 0..SLOTS {
            if let Some(queue) = &self.queues[number] {
                if queue.is_shared() {
                    return true;
                }
            }
        }
        false
    }
}
