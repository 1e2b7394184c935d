//! Why a subscription is refused.

use memory::OutOfMemory;
use std::fmt;
use thiserror::Error;

/// Why `PatchGraph::connect` refuses, in the order in which it tests.
#[derive(Clone, Copy, Debug, Drop, PartialEq, Eq, Error)]
pub enum EdgeFault {
    AlreadyConnected,
    /// As many edges as may end at the target do so.
    SourcesFull,
    /// Filters would feed one another in a circle.
    Cycle,
    OutOfMemory,
}

impl fmt::Display for EdgeFault {
    ghost use Rattle.std.specs.Prelude.{Some};
    ghost use Rattle.patch_graph.specs.Faults.{edge_fault_text};

    ghost output = { λ x. Some (edge_fault_text x) };

    fn fmt<W: fmt::Write>(&self, f: &mut fmt::Formatter<W>) -> fmt::Result {
        f.write_str(match self {
            EdgeFault::AlreadyConnected => "already connected",
            EdgeFault::SourcesFull => "too many sources",
            EdgeFault::Cycle => "a cycle of filters",
            EdgeFault::OutOfMemory => "out of memory",
        })
    }
}

impl From<OutOfMemory> for EdgeFault {
    ghost use Rattle.std.specs.Prelude.{◌≡◌};
    ghost use Rattle.patch_graph.specs.declared.fault.EdgeFault.TheVariants.{OutOfMemory};

    ghost from_gives = { λ _ e. e ≡ OutOfMemory };

    fn from(_error: OutOfMemory) -> EdgeFault {
        EdgeFault::OutOfMemory
    }
}
