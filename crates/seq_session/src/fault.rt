//! Why a session stops.

use memory::OutOfMemory;
use node_table::ClientId;
use std::alloc::AllocFailed;
use std::fmt;
use thiserror::Error;

/// Why a session stops.
#[derive(Clone, Copy, Debug, Drop, PartialEq, Eq, Error)]
pub enum SessionFault {
    /// A growth was refused.
    OutOfMemory,
    /// The reader of the client's script failed.
    Read { client: ClientId },
    /// The client's log failed, or took no byte.
    Write { client: ClientId },
    /// The sink of the listing failed, or took no byte.
    WriteListing,
}

impl fmt::Display for SessionFault {
    ghost use Rattle.std.specs.Prelude.{Some};
    ghost use Rattle.seq_session.specs.Faults.{session_fault_text};

    ghost output = { λ x. Some (session_fault_text x) };

    fn fmt<W: fmt::Write>(&self, f: &mut fmt::Formatter<W>) -> fmt::Result {
        match *self {
            SessionFault::OutOfMemory => f.write_str("out of memory"),
            SessionFault::Read { client } => {
                write!(f, "the script of client {client} cannot be read")
            }
            SessionFault::Write { client } => {
                write!(f, "the log of client {client} cannot be written")
            }
            SessionFault::WriteListing => f.write_str("the listing cannot be written"),
        }
    }
}

impl From<OutOfMemory> for SessionFault {
    ghost use Rattle.std.specs.Prelude.{◌≡◌};
    ghost use Rattle.seq_session.specs.declared.fault.SessionFault.TheVariants.{OutOfMemory};

    ghost from_gives = { λ _ e. e ≡ OutOfMemory };

    fn from(_error: OutOfMemory) -> SessionFault {
        SessionFault::OutOfMemory
    }
}

impl<T: Drop> From<AllocFailed<T>> for SessionFault {
    ghost use Rattle.std.specs.Prelude.{◌≡◌};
    ghost use Rattle.seq_session.specs.declared.fault.SessionFault.TheVariants.{OutOfMemory};

    ghost from_gives = { λ _ e. e ≡ OutOfMemory };

    fn from(_error: AllocFailed<T>) -> SessionFault {
        SessionFault::OutOfMemory
    }
}
