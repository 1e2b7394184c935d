//! Why a tool stops.

use memory::OutOfMemory;
use midi_wire::WireFault;
use seq_engine::EngineFault;
use smf_files::SmfFault;
use std::alloc::AllocError;
use std::fmt;
use thiserror::Error;

/// Why a tool stops.
#[derive(Clone, Copy, Debug, Drop, PartialEq, Eq, Error)]
pub enum ToolFault {
    /// A growth was refused.
    OutOfMemory,
    /// A read failed, or there were more bytes than may come.
    Read,
    /// A write failed, or took no byte.
    Write,
    /// The bytes are no Standard MIDI File that can be read. It is never out of memory.
    Smf(SmfFault),
}

impl fmt::Display for ToolFault {
    ghost use Rattle.std.specs.Prelude.{Some};
    ghost use Rattle.tool_text.specs.Faults.{tool_fault_text};

    ghost output = { λ x. Some (tool_fault_text x) };

    fn fmt<W: fmt::Write>(&self, f: &mut fmt::Formatter<W>) -> fmt::Result {
        match self {
            ToolFault::OutOfMemory => f.write_str("out of memory"),
            ToolFault::Read => f.write_str("a read failed"),
            ToolFault::Write => f.write_str("a write failed"),
            ToolFault::Smf(fault) => write!(f, "{fault}"),
        }
    }
}

impl From<OutOfMemory> for ToolFault {
    ghost use Rattle.std.specs.Prelude.{◌≡◌};
    ghost use Rattle.tool_text.specs.declared.fault.ToolFault.TheVariants.{OutOfMemory};

    ghost from_gives = { λ _ e. e ≡ OutOfMemory };

    fn from(_error: OutOfMemory) -> ToolFault {
        ToolFault::OutOfMemory
    }
}

impl From<AllocError> for ToolFault {
    ghost use Rattle.std.specs.Prelude.{◌≡◌};
    ghost use Rattle.tool_text.specs.declared.fault.ToolFault.TheVariants.{OutOfMemory};

    ghost from_gives = { λ _ e. e ≡ OutOfMemory };

    fn from(_error: AllocError) -> ToolFault {
        ToolFault::OutOfMemory
    }
}

/// An engine fails only where it found no memory.
impl From<EngineFault> for ToolFault {
    ghost use Rattle.std.specs.Prelude.{◌≡◌};
    ghost use Rattle.tool_text.specs.declared.fault.ToolFault.TheVariants.{OutOfMemory};

    ghost from_gives = { λ _ e. e ≡ OutOfMemory };

    fn from(_error: EngineFault) -> ToolFault {
        ToolFault::OutOfMemory
    }
}

/// A parser fails only where it found no memory.
impl From<WireFault> for ToolFault {
    ghost use Rattle.std.specs.Prelude.{◌≡◌};
    ghost use Rattle.tool_text.specs.declared.fault.ToolFault.TheVariants.{OutOfMemory};

    ghost from_gives = { λ _ e. e ≡ OutOfMemory };

    fn from(_error: WireFault) -> ToolFault {
        ToolFault::OutOfMemory
    }
}

/// Out of memory is that of the tool.
impl From<SmfFault> for ToolFault {
    ghost use Rattle.std.specs.Prelude.{◌≡◌};
    ghost use Rattle.tool_text.specs.Faults.{tool_fault};

    ghost from_gives = { λ x e. e ≡ tool_fault x };

    fn from(fault: SmfFault) -> ToolFault {
        match fault {
            SmfFault::OutOfMemory => ToolFault::OutOfMemory,
            other => ToolFault::Smf(other),
        }
    }
}
