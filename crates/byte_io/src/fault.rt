//! What a device answers in place of a count.

use memory::OutOfMemory;
use std::alloc::AllocError;
use std::fmt;
use thiserror::Error;

/// Why a device moved no byte.
#[derive(Clone, Copy, Debug, Drop, PartialEq, Eq, Error)]
pub enum DeviceFault {
    /// The device failed, in this call or an earlier one.
    Broken,
    /// A growth was refused.
    OutOfMemory,
}

/// Why some of the bytes were not written.
#[derive(Clone, Copy, Debug, Drop, PartialEq, Eq, Error)]
pub enum SinkFault {
    /// The device failed, and is marked.
    Device(DeviceFault),
    /// The device took no byte where there were some, and is not marked.
    TookNothing,
}

impl fmt::Display for DeviceFault {
    ghost use Rattle.std.specs.Prelude.{Some};
    ghost use Rattle.byte_io.specs.Faults.{device_fault_text};

    ghost output = { λ x. Some (device_fault_text x) };

    fn fmt<W: fmt::Write>(&self, f: &mut fmt::Formatter<W>) -> fmt::Result {
        f.write_str(match self {
            DeviceFault::Broken => "the device is broken",
            DeviceFault::OutOfMemory => "out of memory",
        })
    }
}

impl fmt::Display for SinkFault {
    ghost use Rattle.std.specs.Prelude.{Some};
    ghost use Rattle.byte_io.specs.Faults.{sink_fault_text};

    ghost output = { λ x. Some (sink_fault_text x) };

    fn fmt<W: fmt::Write>(&self, f: &mut fmt::Formatter<W>) -> fmt::Result {
        match self {
            SinkFault::Device(device) => write!(f, "{device}"),
            SinkFault::TookNothing => f.write_str("the device took no byte"),
        }
    }
}

impl From<AllocError> for DeviceFault {
    ghost use Rattle.std.specs.Prelude.{◌≡◌};
    ghost use Rattle.byte_io.specs.declared.fault.DeviceFault.TheVariants.{OutOfMemory};

    ghost from_gives = { λ _ e. e ≡ OutOfMemory };

    fn from(_error: AllocError) -> DeviceFault {
        DeviceFault::OutOfMemory
    }
}

impl From<OutOfMemory> for DeviceFault {
    ghost use Rattle.std.specs.Prelude.{◌≡◌};
    ghost use Rattle.byte_io.specs.declared.fault.DeviceFault.TheVariants.{OutOfMemory};

    ghost from_gives = { λ _ e. e ≡ OutOfMemory };

    fn from(_error: OutOfMemory) -> DeviceFault {
        DeviceFault::OutOfMemory
    }
}

impl From<DeviceFault> for SinkFault {
    ghost use Rattle.std.specs.Prelude.{◌≡◌};
    ghost use Rattle.byte_io.specs.declared.fault.SinkFault.TheVariants.{Device};

    ghost from_gives = { λ fault e. e ≡ Device fault };

    fn from(fault: DeviceFault) -> SinkFault {
        SinkFault::Device(fault)
    }
}
