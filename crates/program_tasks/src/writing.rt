//! A file that is written whole, or not at all.

ghost use Rattle.std.specs.Prelude.{IfErr, OnOk};
ghost use Rattle.program_tasks.specs.Faults.{IsOfWriting};
ghost use Rattle.program_tasks.specs.Recorded.{IsFileWritten};

use crate::program_fault::ProgramFault;
use byte_io::{DeviceFault, write_all};
use file_store::FileStore;
use std::alloc::Global;

/// Writes a file. What stands at the path stays until the new file is whole, and on a fault stays.
pub fn write_file<'a, S: FileStore>(
    alloc: Global,
    store: &S,
    path: &'a str,
    bytes: &[u8],
) -> Result<(), ProgramFault<'a>>
    ensures written { OnOk result
        (IsFileWritten S.IsBegun S.Writer.HasTaken S.IsStored path.now bytes.now) }
    ensures fault { IfErr result (IsOfWriting S.IsBegun S.Writer.failed S.Writer.takes_some
        S.CannotBegin S.CannotStore path.now) }
{
    let mut file = match store.begin(alloc, path) {
        Ok(file) => file,
        Err(DeviceFault::OutOfMemory) => return Err(ProgramFault::OutOfMemory),
        Err(DeviceFault::Broken) => return Err(ProgramFault::CannotWrite(path)),
    };
    if write_all(&mut file, bytes).is_err() {
        store.discard(file);
        return Err(ProgramFault::CannotWrite(path));
    }
    match store.store(path, file) {
        Ok(()) => Ok(()),
        Err(_) => Err(ProgramFault::CannotWrite(path)),
    }
}
