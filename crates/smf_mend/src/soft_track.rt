//! One track, read by the lenient grammar and written as the strict one has it.

ghost use Rattle.std.specs.Prelude.{◌≤◌, ◌+◌, ◌^◌, length, IfErr, OnOk};
ghost use Rattle.smf_grammar.specs.Chunks.{most_bytes};
ghost use Rattle.smf_files.specs.Taken.{Faulty};
ghost use Rattle.smf_mend.specs.Lenient.{LenientTrackFault};
ghost use Rattle.smf_mend.specs.Tallies.{IsBelow};
ghost use Rattle.smf_mend.specs.Growing.{IsTrackWritten};

use crate::forgiven::Tally;
use crate::growth::Growth;
use crate::soft_pair::{lenient_pair_at, lenient_running};
use smf_grammar::{SmfFault, fault_of_pair};

/// Reads a track through, writes it, and adds what is forgiven of it.
///
/// Its content stands at a place of the file, after so many other tracks.
pub(crate) fn mend_track(
    content: &[u8],
    track: u64,
    place: u64,
    tally: &mut Tally,
    out: &mut Growth,
) -> Result<(), SmfFault>
    requires small { length content.now ≤ 2 ^ 24 }
    requires near { place ≤ 2 ^ 24 }
    requires few { IsBelow tally.old place }
    requires room { length out.old.bytes.items ≤ most_bytes }
    ensures ok { OnOk result (IsTrackWritten content.now place tally.old tally.new
        out.old out.new) }
    ensures few { OnOk result (IsBelow tally.new (place + length content.now)) }
    ensures fault { IfErr result (λ x. Faulty (LenientTrackFault content.now track place) x) }
{
    let start = match out.begin_track() {
        Ok(start) => start,
        Err(_) => return Err(SmfFault::OutOfMemory),
    };
    let mut left = content;
    let mut strict: Option<u8> = None;
    let mut running: Option<u8> = None;
    'pairs: loop {
        let at = place + (content.len() - left.len()) as u64;
        let (pair, rest) = match lenient_pair_at(running, left) {
            Ok(found) => found,
            Err(fault) => return Err(fault_of_pair(fault, track, at)),
        };
        tally.forgive(strict, left, at);
        if out.push_pair(strict, &pair).is_err() {
            return Err(SmfFault::OutOfMemory);
        }
        if pair.event.is_end() {
            out.end_track(start);
            return Ok(());
        }
        strict = pair.event.status_after();
        running = lenient_running(running, &pair.event);
        left = rest;
    }
}
