//! What was read of a file, mended.

ghost use Rattle.std.specs.Prelude.{IfOk, IfErr};
ghost use Rattle.smf_files.specs.Taken.{Faulty};
ghost use Rattle.smf_mend.specs.Unwrapping.{IsMendedIn, IsRefusedIn};

use crate::container::unwrapped;
use crate::forgiven::Mended;
use crate::mending::mend;
use smf_grammar::{MOST_BYTES, SmfFault};
use std::alloc::Global;

/// Mends the file that these bytes are, or that is in the container that they are, as `mend` does.
///
/// Places are counted from the start of that file. More than 16,777,216 bytes are `TooLarge`, and not looked into: of a
/// longer file no more may have been read.
pub fn mend_unwrapped(alloc: Global, bytes: &[u8]) -> Result<Mended, SmfFault>
    ensures mended { IfOk result (IsMendedIn bytes.now) }
    ensures refused { IfErr result (λ x. Faulty (IsRefusedIn bytes.now) x) }
{
    if bytes.len() > MOST_BYTES {
        return Err(SmfFault::TooLarge);
    }
    mend(alloc, unwrapped(bytes))
}
