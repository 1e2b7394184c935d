//! A file that the lenient grammar takes, made one that the strict grammar takes.

ghost use Rattle.std.specs.Prelude.{IfOk, IfErr};
ghost use Rattle.smf_files.specs.Taken.{Faulty};
ghost use Rattle.smf_mend.specs.Mending.{IsMended, IsUnmended};

use crate::forgiven::{Mended, Tally};
use crate::growth::Growth;
use crate::soft_tracks::mend_tracks;
use smf_grammar::{SmfFault, header_at};
use std::alloc::Global;

/// Reads a file by a grammar that takes two things more than the strict one, and writes what it says as a strict file.
///
/// It takes a message of a channel that leaves out its status behind an exclusive or a meta event, though these cancel
/// running status (Standard MIDI Files 1.0, "Track Chunks"): the last status of the track still runs. And it takes a
/// program change, with its status, whose data byte has bit 7 set, which no data byte has (MIDI 1.0, "Data Bytes"):
/// that bit is cleared. Nothing else is forgiven; no status runs before the first of a track.
///
/// In the bytes each delta time and length has its shortest spelling, a status is left out where it is the running one
/// by the strict grammar, and there is no chunk but the header and the tracks. What was forgiven is told by its kind,
/// with the place, in the bytes that were given, of the first pair of which it was.
///
/// A fault is that of the first item that this grammar does not take. It is `TooLarge`, too, where only the written
/// file has more than 16,777,216 bytes, since statuses came to it, and `OutOfMemory` where a growth is refused.
pub fn mend(alloc: Global, bytes: &[u8]) -> Result<Mended, SmfFault>
    ensures mended { IfOk result (λ m. IsMended bytes.now m) }
    ensures refused { IfErr result (λ x. Faulty (IsUnmended bytes.now) x) }
{
    let (header, after) = header_at(bytes)?;
    let mut out = match Growth::headed(alloc, bytes.len(), header) {
        Ok(out) => out,
        Err(_) => return Err(SmfFault::OutOfMemory),
    };
    let mut tally = Tally {
        running_status: None,
        high_data: None,
    };
    mend_tracks(bytes, after, header.tracks, &mut tally, &mut out)?;
    if out.is_outgrown {
        return Err(SmfFault::TooLarge);
    }
    Ok(Mended {
        bytes: out.bytes,
        running_status: tally.running_status,
        high_data: tally.high_data,
    })
}
