//! What a client has beside its name and its nodes.

ghost use Rattle.std.specs.Prelude.{◌≡◌, true, IfOk};
ghost use Rattle.cell_pools.specs.Pools.{is_size};
ghost use Rattle.seq_clients.specs.Rows.{new_row};

use crate::queues::QueueTable;
use cell_pools::{InPool, PoolFault};
use memory::OutOfMemory;
use seq_state::Arrival;
use std::alloc::Global;

/// What a client has beside its name and its nodes.
#[derive(Drop)]
pub(crate) struct ClientRow {
    pub(crate) in_size: u32,
    pub(crate) out_size: u32,
    pub(crate) queues: QueueTable,
    pub(crate) pool: InPool<Arrival>,
}

impl ClientRow {
    /// The row of a client that is opened with pools of these sizes.
    pub(crate) fn new(
        alloc: Global,
        in_size: u32,
        out_size: u32,
    ) -> Result<Box<ClientRow>, OutOfMemory>
        requires { is_size in_size ≡ true }
        ensures { IfOk result (λ row. row.value ≡ new_row in_size out_size) }
    {
        let pool = match InPool::new(alloc, in_size) {
            Ok(pool) => pool,
            Err(PoolFault::OutOfMemory) => return Err(OutOfMemory),
            Err(PoolFault::BadSize) => unreachable!(),
        };
        let row = ClientRow {
            in_size,
            out_size,
            queues: QueueTable::new(),
            pool,
        };
        Ok(Box::new(alloc, row)?)
    }
}
