//! A file of what came to ports.

ghost use Rattle.std.specs.Prelude.{◌≡◌, ◌∷◌, map, None, Some, IfOk, IfErr, IfSome, OnOk};
ghost use Rattle.smf_files.specs.Refusals.{told_of_tracks};
ghost use Rattle.smf_grammar.specs.Files.{IsFile};
ghost use Rattle.smf_grammar.specs.Seen.{pair_seen, tracks_seen};
ghost use Rattle.smf_grammar.specs.Written.{written_file, file_refusal};
ghost use Rattle.port_files.specs.Seen.{tracks_kept, capped};
ghost use Rattle.port_files.specs.Tracks.{tempo_track, port_track, ports_file};

use crate::pair::OwnPair;
use crate::track::{port_track, tempo_track};
use memory::OutOfMemory;
use node_table::PortAddr;
use seq_state::LogEntry;
use smf_files::{TracksFault, write_tracks};
use smf_grammar::PairBytes;
use std::alloc::Global;
use tempo_clock::TempoMap;

/// The tracks of a file.
fn tracks_of(
    alloc: Global,
    clock: &TempoMap,
    ports: &[PortAddr],
    entries: &[LogEntry],
) -> Result<Vec<Vec<OwnPair>>, OutOfMemory>
    ensures { IfOk result (λ tracks. tracks_kept tracks.items
        ≡ tempo_track clock.now ∷ map (port_track clock.now entries.now) ports.now) }
{
    let mut tracks = Vec::new(alloc);
    tracks.push(tempo_track(alloc, clock)?)?;
    for port in ports {
        tracks.push(port_track(alloc, clock, entries, port)?)?;
    }
    Ok(tracks)
}

/// The pairs of a track with their bytes lent.
fn lent_pairs(alloc: Global, pairs: &[OwnPair]) -> Result<Vec<PairBytes<'_>>, OutOfMemory>
    ensures { IfOk result (λ lent. map pair_seen lent.items ≡ map capped pairs.now) }
{
    let mut lent = Vec::with_capacity(alloc, pairs.len())?;
    for pair in pairs {
        lent.push(pair.lent())?;
    }
    Ok(lent)
}

/// The tracks with their bytes lent.
fn lent_tracks(
    alloc: Global,
    tracks: &[Vec<OwnPair>],
) -> Result<Vec<Vec<PairBytes<'_>>>, OutOfMemory>
    ensures { IfOk result
        (λ lent. tracks_seen lent.items ≡ map (map capped) (tracks_kept tracks.now)) }
{
    let mut lent = Vec::with_capacity(alloc, tracks.len())?;
    for pairs in tracks {
        lent.push(lent_pairs(alloc, pairs.as_slice())?)?;
    }
    Ok(lent)
}

/// What came to several ports, as a Standard MIDI File of format 1 with the division of `clock`: a track of its tempos,
/// and behind it a track for each port, named as `129:p0` (Standard MIDI Files 1.0, "Header Chunks", "Sequence/Track
/// Name" and "Set Tempo").
///
/// Each message of a channel and each exclusive one stands at the last tick that has come by its moment; system common
/// and real time messages have no place in a file. The moments are not to fall, as those of a run never do: from one
/// that falls on, messages stand too late. `grid_is_kept` has what the file keeps.
///
/// `BadPair` is the fault where more than 268,435,455 ticks lie before a message or a tempo: track 0 is that of the
/// tempos, track 1 that of the first port, and pair 0 of a port's track its name. `BadTrackCount` is that of more than
/// 65,534 ports. Memory comes first, so that `OutOfMemory` may be told in place of another fault.
pub fn record_ports(
    alloc: Global,
    clock: &TempoMap,
    ports: &[PortAddr],
    entries: &[LogEntry],
) -> Result<Vec<u8>, TracksFault>
    ensures text { IfOk result
        (λ file. file.items ≡ written_file (ports_file clock.now ports.now entries.now)) }
    ensures taken { OnOk result
        (file_refusal (ports_file clock.now ports.now entries.now) ≡ None) }
    ensures refused { IfErr result (λ x. IfSome (told_of_tracks x)
        (λ r. file_refusal (ports_file clock.now ports.now entries.now) ≡ Some r)) }
    ensures reads_back { IfOk result
        (λ file. IsFile file.items (ports_file clock.now ports.now entries.now)) }
{
    let tracks = tracks_of(alloc, clock, ports, entries)?;
    let lent = lent_tracks(alloc, tracks.as_slice())?;
    write_tracks(alloc, 1, clock.division(), lent.as_slice())
}
