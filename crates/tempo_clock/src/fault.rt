//! What can go wrong.

use memory::OutOfMemory;
use std::alloc::AllocError;
use std::fmt;
use thiserror::Error;

/// Why there is no tempo map.
#[derive(Clone, Copy, Debug, Drop, PartialEq, Eq, Error)]
pub enum MapFault {
    BadMap,
    OutOfMemory,
}

impl fmt::Display for MapFault {
    ghost use Rattle.std.specs.Prelude.{Some};
    ghost use Rattle.tempo_clock.specs.Faults.{map_fault_text};

    ghost output = { λ x. Some (map_fault_text x) };

    fn fmt<W: fmt::Write>(&self, f: &mut fmt::Formatter<W>) -> fmt::Result {
        f.write_str(match self {
            MapFault::BadMap => "no tempo map",
            MapFault::OutOfMemory => "out of memory",
        })
    }
}

impl From<OutOfMemory> for MapFault {
    ghost use Rattle.std.specs.Prelude.{◌≡◌};
    ghost use Rattle.tempo_clock.specs.declared.fault.MapFault.TheVariants.{OutOfMemory};

    ghost from_gives = { λ _ e. e ≡ OutOfMemory };

    fn from(_error: OutOfMemory) -> MapFault {
        MapFault::OutOfMemory
    }
}

impl From<AllocError> for MapFault {
    ghost use Rattle.std.specs.Prelude.{◌≡◌};
    ghost use Rattle.tempo_clock.specs.declared.fault.MapFault.TheVariants.{OutOfMemory};

    ghost from_gives = { λ _ e. e ≡ OutOfMemory };

    fn from(_error: AllocError) -> MapFault {
        MapFault::OutOfMemory
    }
}
