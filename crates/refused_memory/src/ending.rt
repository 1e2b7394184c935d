//! Why a session does not come to its end.

use memory::OutOfMemory;
use smf_files::SmfFault;
use std::alloc::{AllocError, AllocFailed};

#[derive(Clone, Copy, Debug)]
pub enum Ending {
    /// The words, or what they name, cannot be run.
    Unusable,
    /// This call ran out of memory, and all was as promised.
    NoMemory(&'static str),
    /// This is otherwise than promised.
    Otherwise(&'static str),
}

impl Ending {
    /// The call that ran out of memory, or what is wrong.
    pub fn told(&self) -> &'static str {
        match *self {
            Ending::Unusable => "the words, or what they name, can't be run",
            Ending::NoMemory(call) => call,
            Ending::Otherwise(what) => what,
        }
    }

    pub fn status(&self) -> u8 {
        match *self {
            Ending::Unusable => 2,
            Ending::NoMemory(_) => 3,
            Ending::Otherwise(_) => 4,
        }
    }
}

impl From<OutOfMemory> for Ending {
    fn from(_fault: OutOfMemory) -> Ending {
        Ending::NoMemory("this program")
    }
}

impl From<AllocError> for Ending {
    fn from(_fault: AllocError) -> Ending {
        Ending::NoMemory("this program")
    }
}

impl<T: Drop> From<AllocFailed<T>> for Ending {
    fn from(_fault: AllocFailed<T>) -> Ending {
        Ending::NoMemory("this program")
    }
}

impl From<SmfFault> for Ending {
    fn from(fault: SmfFault) -> Ending {
        match fault {
            SmfFault::OutOfMemory => Ending::NoMemory("SmfFile::read"),
            _ => Ending::Unusable,
        }
    }
}
