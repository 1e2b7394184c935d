//! Why a path could not be read, where that is asked for.

ghost use Rattle.std.specs.Prelude.{◌≡◌};
ghost use Rattle.program_tasks.specs.Program.{IsReasoned};

use crate::choice::STANDARD;
use crate::program_fault::ProgramFault;
use file_store::FileStore;

/// The fault with what stands at its path, where it is that a path could not be read.
pub fn reasoned<'a, S: FileStore>(store: &S, fault: ProgramFault<'a>) -> ProgramFault<'a>
    ensures { IsReasoned S.IsStanding fault.entry result }
{
    let ProgramFault::CannotRead(path) = fault else {
        return fault;
    };
    if path == STANDARD {
        return fault;
    }
    let there = store.look(path);
    ProgramFault::Unreadable { path, there }
}
