//! The faults of counting.

use memory::OutOfMemory;

/// Why copies are not counted.
#[derive(Clone, Copy, Debug, Drop, PartialEq, Eq)]
pub(crate) enum CountFault {
    /// A number does not fit in 64 bits. Ways of eight edges in a graph of 2,048 nodes with 32 sources each are fewer.
    TooMany,
    OutOfMemory,
}

impl From<OutOfMemory> for CountFault {
    ghost use Rattle.std.specs.Prelude.{◌≡◌};
    ghost use Rattle.seq_sending.specs.declared.count_fault.CountFault.TheVariants.{OutOfMemory};

    ghost from_gives = { λ _ e. e ≡ OutOfMemory };

    fn from(_error: OutOfMemory) -> CountFault {
        CountFault::OutOfMemory
    }
}
