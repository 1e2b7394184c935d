//! Why a line says no event.

use memory::OutOfMemory;
use std::alloc::{AllocError, AllocFailed};

#[derive(Clone, Copy, Debug, PartialEq, Eq)]
pub(crate) enum Unsaid {
    /// It has not the form of one.
    Nothing,
    /// A growth was refused.
    OutOfMemory,
}

impl From<OutOfMemory> for Unsaid {
    ghost use Rattle.std.specs.Prelude.{◌≡◌};
    ghost use Rattle.smf_make.specs.declared.unsaid.Unsaid.TheVariants.{OutOfMemory};

    ghost from_gives = { λ _ e. e ≡ OutOfMemory };

    fn from(_error: OutOfMemory) -> Unsaid {
        Unsaid::OutOfMemory
    }
}

impl From<AllocError> for Unsaid {
    ghost use Rattle.std.specs.Prelude.{◌≡◌};
    ghost use Rattle.smf_make.specs.declared.unsaid.Unsaid.TheVariants.{OutOfMemory};

    ghost from_gives = { λ _ e. e ≡ OutOfMemory };

    fn from(_error: AllocError) -> Unsaid {
        Unsaid::OutOfMemory
    }
}

impl<T: Drop> From<AllocFailed<T>> for Unsaid {
    ghost use Rattle.std.specs.Prelude.{◌≡◌};
    ghost use Rattle.smf_make.specs.declared.unsaid.Unsaid.TheVariants.{OutOfMemory};

    ghost from_gives = { λ _ e. e ≡ OutOfMemory };

    fn from(_error: AllocFailed<T>) -> Unsaid {
        Unsaid::OutOfMemory
    }
}
