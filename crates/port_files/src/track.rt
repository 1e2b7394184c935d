//! The tracks of a file.

ghost use Rattle.std.specs.Prelude.{◌≡◌, ◌++◌, IfOk, OnOk};
ghost use Rattle.byteorder.specs.Endian.{big_bytes};
ghost use Rattle.port_files.specs.Tracks.{is_recorded, recording_of, event_pairs, tempo_pairs, name_pair, tempos_of, tempo_track, port_track};

use crate::pair::OwnPair;
use memory::OutOfMemory;
use node_table::PortAddr;
use seq_state::{Delivery, LogEntry};
use smf_files::stands_in_files;
use smf_grammar::counts_frames;
use std::alloc::Global;
use tempo_clock::{TempoEntry, TempoMap};
use text_forms::push_port_addr;

/// The type of the meta event that names a track.
const TRACK_NAME: u8 = 0x03;

/// The type of the meta event that sets the tempo.
const SET_TEMPO: u8 = 0x51;

/// The track of the tempos.
pub(crate) fn tempo_track(alloc: Global, clock: &TempoMap) -> Result<Vec<OwnPair>, OutOfMemory>
    ensures { IfOk result (λ pairs. pairs.items ≡ tempo_track clock.now) }
{
    let tempos = tempos_of(alloc, clock)?;
    let mut pairs = Vec::new(alloc);
    push_tempos(alloc, tempos.as_slice(), &mut pairs)?;
    pairs.push(OwnPair::end(alloc))?;
    Ok(pairs)
}

/// The tempos that count.
fn tempos_of(alloc: Global, clock: &TempoMap) -> Result<Vec<TempoEntry>, OutOfMemory>
    ensures { IfOk result (λ entries. entries.items ≡ tempos_of clock.now) }
{
    let mut tempos = Vec::new(alloc);
    if counts_frames(clock.division()) {
        return Ok(tempos);
    }
    let (first, more) = clock.entries();
    tempos.extend_from_slice(first)?;
    tempos.extend_from_slice(more)?;
    Ok(tempos)
}

/// Adds an event for each tempo.
fn push_tempos(
    alloc: Global,
    entries: &[TempoEntry],
    pairs: &mut Vec<OwnPair>,
) -> Result<(), OutOfMemory>
    ensures { OnOk result (pairs.new.items ≡ pairs.old.items ++ tempo_pairs 0 entries.now) }
{
    let mut before = 0;
    for entry in entries {
        let payload = tempo_bytes(alloc, entry.tempo)?;
        pairs.push(OwnPair::meta(entry.tick.saturating_sub(before), SET_TEMPO, payload))?;
        before = entry.tick;
    }
    Ok(())
}

/// The three bytes of a tempo, the highest first.
fn tempo_bytes(alloc: Global, tempo: u32) -> Result<Vec<u8>, OutOfMemory>
    ensures { IfOk result (λ bytes. bytes.items ≡ big_bytes 3 tempo) }
{
    let [_, high, middle, low] = tempo.to_be_bytes();
    Ok(Vec::from_slice(alloc, &[high, middle, low])?)
}

/// The track of a port.
pub(crate) fn port_track(
    alloc: Global,
    clock: &TempoMap,
    entries: &[LogEntry],
    port: &PortAddr,
) -> Result<Vec<OwnPair>, OutOfMemory>
    ensures { IfOk result (λ pairs. pairs.items ≡ port_track clock.now entries.now port.now) }
{
    let mut pairs = Vec::new(alloc);
    pairs.push(name_pair(alloc, port)?)?;
    push_events(alloc, clock, entries, port, &mut pairs)?;
    pairs.push(OwnPair::end(alloc))?;
    Ok(pairs)
}

/// The name of a port's track.
fn name_pair(alloc: Global, port: &PortAddr) -> Result<OwnPair, OutOfMemory>
    ensures { IfOk result (λ pair. pair ≡ name_pair port.now) }
{
    let mut name = Vec::new(alloc);
    push_port_addr(&mut name, port)?;
    Ok(OwnPair::meta(0, TRACK_NAME, name))
}

/// Adds what came to a port.
fn push_events(
    alloc: Global,
    clock: &TempoMap,
    entries: &[LogEntry],
    port: &PortAddr,
    pairs: &mut Vec<OwnPair>,
) -> Result<(), OutOfMemory>
    ensures { OnOk result (pairs.new.items
        ≡ pairs.old.items ++ event_pairs 0 (recording_of clock.now port.now entries.now)) }
{
    let mut before = 0;
    for entry in entries {
        if let LogEntry::Delivered(delivery) = entry {
            if is_recorded(port, delivery) {
                let tick = clock.tick_at(delivery.moment);
                let delta = tick.saturating_sub(before);
                pairs.push(OwnPair::of_message(alloc, delta, &delivery.message)?)?;
                before = tick;
            }
        }
    }
    Ok(())
}

/// Whether a delivery stands in the track of a port.
fn is_recorded(port: &PortAddr, delivery: &Delivery) -> bool
    ensures { result ≡ is_recorded port.now delivery.now }
{
    delivery.target.client == port.client
        && delivery.target.port == port.port
        && stands_in_files(&delivery.message)
}
