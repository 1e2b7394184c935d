//! What can go wrong.

use memory::OutOfMemory;
use std::fmt;
use thiserror::Error;

/// What a parser answers in place of messages.
#[derive(Clone, Copy, Debug, Drop, PartialEq, Eq, Error)]
pub enum WireFault {
    OutOfMemory,
    Failed,
}

impl fmt::Display for WireFault {
    ghost use Rattle.std.specs.Prelude.{Some};
    ghost use Rattle.midi_wire.specs.Faults.{wire_fault_text};

    ghost output = { λ x. Some (wire_fault_text x) };

    fn fmt<W: fmt::Write>(&self, f: &mut fmt::Formatter<W>) -> fmt::Result {
        f.write_str(match self {
            WireFault::OutOfMemory => "out of memory",
            WireFault::Failed => "an earlier call found no memory",
        })
    }
}

impl From<OutOfMemory> for WireFault {
    ghost use Rattle.std.specs.Prelude.{◌≡◌};
    ghost use Rattle.midi_wire.specs.declared.fault.WireFault.TheVariants.{OutOfMemory};

    ghost from_gives = { λ _ e. e ≡ OutOfMemory };

    fn from(_error: OutOfMemory) -> WireFault {
        WireFault::OutOfMemory
    }
}
