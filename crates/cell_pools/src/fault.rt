//! What a pool and a store answer in place of what was asked.

use std::alloc::AllocError;
use std::fmt;
use thiserror::Error;

/// Why a pool was not made, in the order in which it is tested.
#[derive(Clone, Copy, Debug, Drop, PartialEq, Eq, Error)]
pub enum PoolFault {
    BadSize,
    OutOfMemory,
}

impl fmt::Display for PoolFault {
    ghost use Rattle.std.specs.Prelude.{Some};
    ghost use Rattle.cell_pools.specs.Faults.{pool_fault_text};

    ghost output = { λ x. Some (pool_fault_text x) };

    fn fmt<W: fmt::Write>(&self, f: &mut fmt::Formatter<W>) -> fmt::Result {
        f.write_str(match self {
            PoolFault::BadSize => "a pool's size is 1 to 2000",
            PoolFault::OutOfMemory => "out of memory",
        })
    }
}

impl From<AllocError> for PoolFault {
    ghost use Rattle.std.specs.Prelude.{◌≡◌};
    ghost use Rattle.cell_pools.specs.declared.fault.PoolFault.TheVariants.{OutOfMemory};

    ghost from_gives = { λ _ e. e ≡ OutOfMemory };

    fn from(_error: AllocError) -> PoolFault {
        PoolFault::OutOfMemory
    }
}

/// Why a value was not put into a store, in the order in which it is tested. Each gives the value
/// back.
#[derive(Debug, Drop)]
pub enum PutFault<T> {
    /// The client has as many cells as its size allows.
    Full(T),
    /// A growth was refused.
    OutOfMemory(T),
}
