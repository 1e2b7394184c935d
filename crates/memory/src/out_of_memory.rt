//! The fault of a refused growth.

use std::alloc::{AllocError, AllocFailed};
use std::fmt;
use thiserror::Error;

/// A growth was refused.
#[derive(Clone, Copy, Debug, Drop, PartialEq, Eq, Error)]
pub struct OutOfMemory;

impl fmt::Display for OutOfMemory {
    ghost use Rattle.std.specs.Prelude.{Some};
    ghost use Rattle.memory.specs.Faults.{out_of_memory_text};

    ghost output = { λ _. Some out_of_memory_text };

    fn fmt<W: fmt::Write>(&self, f: &mut fmt::Formatter<W>) -> fmt::Result {
        f.write_str("out of memory")
    }
}

impl From<AllocError> for OutOfMemory {
    fn from(_error: AllocError) -> OutOfMemory {
        OutOfMemory
    }
}

impl<T: Drop> From<AllocFailed<T>> for OutOfMemory {
    fn from(_error: AllocFailed<T>) -> OutOfMemory {
        OutOfMemory
    }
}
