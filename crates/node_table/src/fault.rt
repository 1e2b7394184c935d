//! What a table answers in place of a client or a node.

use memory::OutOfMemory;
use std::fmt;
use thiserror::Error;

/// Why a client was not opened, in the order in which it is tested.
#[derive(Clone, Copy, Debug, Drop, PartialEq, Eq, Error)]
pub enum OpenFault {
    AlreadyOpen,
    BadName,
    OutOfMemory,
}

impl fmt::Display for OpenFault {
    ghost use Rattle.std.specs.Prelude.{Some};
    ghost use Rattle.node_table.specs.Faults.{open_fault_text};

    ghost output = { λ x. Some (open_fault_text x) };

    fn fmt<W: fmt::Write>(&self, f: &mut fmt::Formatter<W>) -> fmt::Result {
        f.write_str(match self {
            OpenFault::AlreadyOpen => "the client is open already",
            OpenFault::BadName => "this is no name",
            OpenFault::OutOfMemory => "out of memory",
        })
    }
}

impl From<OutOfMemory> for OpenFault {
    ghost use Rattle.std.specs.Prelude.{◌≡◌};
    ghost use Rattle.node_table.specs.declared.fault.OpenFault.TheVariants.{OutOfMemory};

    ghost from_gives = { λ _ e. e ≡ OutOfMemory };

    fn from(_error: OutOfMemory) -> OpenFault {
        OpenFault::OutOfMemory
    }
}

/// Why a node was not made, in the order in which it is tested. Each gives the node's body back.
#[derive(Debug, Drop)]
pub enum CreateFault<P> {
    /// The client is not open.
    NotOpen(P),
    /// A port's name has to be a name, and a filter's has to be empty.
    BadName(P),
    /// There is a node at the address.
    Exists(P),
    /// A growth was refused.
    OutOfMemory(P),
}
