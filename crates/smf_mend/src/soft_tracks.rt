//! The tracks of a file, read by the lenient grammar and written as the strict one has them.

ghost use Rattle.std.specs.Prelude.{◌≤◌, ◌-◌, ◌^◌, length, IfErr, OnOk};
ghost use Rattle.smf_grammar.specs.Chunks.{most_bytes};
ghost use Rattle.smf_files.specs.Taken.{Faulty};
ghost use Rattle.smf_mend.specs.Tallies.{IsBelow, IsTracksFault};
ghost use Rattle.smf_mend.specs.Growing.{AreTracksWritten};

use crate::forgiven::Tally;
use crate::growth::Growth;
use crate::soft_track::mend_track;
use smf_grammar::{ChunkFault, SmfFault, chunk_at};

/// Reads so many tracks of a file, whose chunks stand after its header, writes them, and adds what is forgiven of them.
pub(crate) fn mend_tracks(
    bytes: &[u8],
    after: &[u8],
    count: u16,
    tally: &mut Tally,
    out: &mut Growth,
) -> Result<(), SmfFault>
    requires small { length bytes.now ≤ 2 ^ 24 }
    requires within { length after.now ≤ length bytes.now }
    requires few { IsBelow tally.old (length bytes.now - length after.now) }
    requires room { length out.old.bytes.items ≤ most_bytes }
    ensures ok { OnOk result (AreTracksWritten (length bytes.now) after.now count
        tally.old tally.new out.old out.new) }
    ensures fault { IfErr result (λ x. Faulty (IsTracksFault (length bytes.now) after.now count) x) }
{
    let mut left = after;
    let mut done = 0u16;
    'chunks: while done < count {
        let place = (bytes.len() - left.len()) as u64;
        let (chunk, rest) = match chunk_at(left) {
            Ok(found) => found,
            Err(ChunkFault::Missing) => return Err(SmfFault::TrackMissing),
            Err(ChunkFault::Cut) => return Err(SmfFault::Truncated { at: place }),
        };
        if chunk.is_track {
            mend_track(chunk.content, done as u64, place + 8, tally, out)?;
            done += 1;
        }
        left = rest;
    }
    Ok(())
}
