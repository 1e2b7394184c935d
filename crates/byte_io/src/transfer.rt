//! Moving many bytes from a source or to a sink.

ghost use Rattle.std.specs.Prelude.{◌≡◌, ◌≤◌, [], length, true, false, IfOk, IfErr, OnOk, OnErr, IsOk, IsErrOf};
ghost use Rattle.byte_io.specs.Moved.{GaveAll, GaveSome, Took, TookPart, is_device_fault};

use crate::fault::{DeviceFault, SinkFault};
use crate::sink::Sink;
use crate::source::Source;
use std::alloc::Global;

/// How many bytes are read at once.
const CHUNK: usize = 8192;

/// Reads until the device gives no more, or `most` bytes are there.
///
/// `Err(Broken)` says that the device failed in this call. `Err(OutOfMemory)` comes where memory
/// for the bytes was refused, and from a device that found none, which is marked then. What was
/// read before an error is lost.
pub fn read_to<R: Source>(alloc: Global, input: &mut R, most: usize) -> Result<Vec<u8>, DeviceFault>
    requires sound { R.failed input.old ≡ false }
    ensures within { IfOk result (λ read. length read.items ≤ most) }
    ensures bytes { IfOk result (λ read.
        GaveAll R.HasLeft most input.old read.items input.new) }
    ensures lost { OnErr result (GaveSome R.HasLeft most input.old input.new) }
    ensures unmarked { OnOk result (R.failed input.new ≡ false) }
    ensures broken { IsErrOf result DeviceFault.Broken → R.failed input.new ≡ true }
{
    let mut all = Vec::new(alloc);
    let mut chunk = [0u8; CHUNK];
    while all.len() < most {
        let window = (most - all.len()).min(CHUNK);
        let n = input.read(&mut chunk[..window])?;
        if n == 0 {
            break;
        }
        all.extend_from_slice(&chunk[..n])?;
    }
    Ok(all)
}

/// Writes all of the bytes. On an error the device has taken the first of them, and not all.
pub fn write_all<W: Sink>(out: &mut W, bytes: &[u8]) -> Result<(), SinkFault>
    requires sound { W.failed out.old ≡ false }
    ensures written { OnOk result (Took W.HasTaken out.old bytes.now out.new) }
    ensures part { OnErr result (TookPart W.HasTaken out.old bytes.now out.new) }
    ensures unmarked { OnOk result (W.failed out.new ≡ false) }
    ensures eager { W.takes_some out.new ≡ W.takes_some out.old }
    ensures fault { IfErr result (λ e. W.failed out.new ≡ is_device_fault e) }
    ensures took_nothing { IsErrOf result SinkFault.TookNothing → W.takes_some out.old ≡ false }
    ensures nothing { bytes.now ≡ [] → IsOk result × (out.new ≡ out.old) }
{
    let mut at = 0;
    while at < bytes.len() {
        let n = out.write(&bytes[at..])?;
        if n == 0 {
            return Err(SinkFault::TookNothing);
        }
        at += n;
    }
    Ok(())
}
