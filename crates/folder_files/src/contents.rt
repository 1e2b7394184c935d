//! What files hold.

ghost use Rattle.std.specs.Prelude.{IfOk};
ghost use Rattle.folder_files.specs.Contents.{bytes_read, IsContent};

use byte_io::{Source, read_to};
use file_store::{FileStore, Standing};
use memory::OutOfMemory;
use smf_grammar::MOST_BYTES;
use std::alloc::Global;

/// One byte more than a Standard MIDI File may have.
pub const MOST_READ: usize = MOST_BYTES + 1;

/// What the regular file at a path holds, up to one byte more than a Standard MIDI File may have; if it cannot be read,
/// what stands there.
pub fn content_of<S: FileStore>(
    alloc: Global,
    store: &S,
    path: &str,
) -> Result<Result<Vec<u8>, Standing>, OutOfMemory>
    ensures { IfOk result (λ content. IsContent S.IsOpened S.Reader.HasLeft S.CannotOpen
        S.Reader.failed S.IsStanding path.now (bytes_read content)) }
{
    let Ok(mut source) = store.open_regular(path) else {
        return Ok(Err(store.look(path)));
    };
    match read_to(alloc, &mut source, MOST_READ) {
        Ok(bytes) => Ok(Ok(bytes)),
        Err(_) => {
            if source.has_failed() {
                return Ok(Err(store.look(path)));
            }
            Err(OutOfMemory)
        }
    }
}
