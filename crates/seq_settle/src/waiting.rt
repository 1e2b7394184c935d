//! Cells that wait in the order of their queues.

ghost use Rattle.std.specs.Prelude.{◌≡◌, ℕ, true, false, None, Some, IfSome, IfNone, OnOk, if◌then◌else◌};
ghost use Rattle.seq_settle.specs.Waiting.{cell_at, is_before, is_same};

use cell_pools::CellKey;
use memory::OutOfMemory;
use std::alloc::Global;
use std::collections::BTreeMap;

/// Where a cell stands among all that wait: by its queue and whether it counts ticks or nanoseconds, then by its due
/// time, then by rank.
#[derive(Clone, Copy, Debug, PartialEq, Eq, PartialOrd, Ord)]
pub struct QueueKey {
    /// Two for each queue: what is due by ticks, and what is due by nanoseconds.
    pub row: u32,
    /// The due time, in ticks or nanoseconds of the queue.
    pub time: u64,
    /// The number of its command among all inputs.
    pub rank: u64,
}

/// The least key.
pub(crate) const FIRST: QueueKey = QueueKey {
    row: 0,
    time: 0,
    rank: 0,
};

/// Cells that wait in the order of their queues.
#[derive(Drop)]
pub struct WaitingCells {
    cells: BTreeMap<QueueKey, CellKey>,
}

impl WaitingCells {
    pub fn new(alloc: Global) -> WaitingCells
        ensures { (k : QueueKey) → cell_at result k ≡ None }
    {
        WaitingCells {
            cells: BTreeMap::new(alloc),
        }
    }

    /// The first that stands at a key or behind it.
    pub fn first_from(&self, from: QueueKey) -> Option<(QueueKey, CellKey)>
        ensures there { IfSome result (λ r. cell_at self.now r.0 ≡ Some r.1) }
        ensures behind { IfSome result (λ r. is_before r.0 from ≡ false) }
        ensures least { IfSome result (λ r. (k : QueueKey) (q : ℕ) → cell_at self.now k ≡ Some q →
            is_before k from ≡ false → is_before k r.0 ≡ false) }
        ensures none { IfNone result ((k : QueueKey) (q : ℕ) → cell_at self.now k ≡ Some q →
            is_before k from ≡ true) }
    {
        let (key, cell) = self.cells.range(from..).next()?;
        Some((*key, *cell))
    }

    /// Puts a cell at a key, in place of what stands there.
    pub fn insert(&mut self, key: QueueKey, cell: CellKey) -> Result<(), OutOfMemory>
        ensures { OnOk result ((k : QueueKey) →
            cell_at self.new k ≡ (if is_same key k then Some cell else cell_at self.old k)) }
    {
        self.cells.insert(key, cell)?;
        Ok(())
    }

    /// Takes away what stands at a key. It takes no memory.
    pub fn remove(&mut self, key: QueueKey)
        ensures { (k : QueueKey) →
            cell_at self.new k ≡ (if is_same key k then None else cell_at self.old k) }
    {
        self.cells.remove(&key);
    }
}
