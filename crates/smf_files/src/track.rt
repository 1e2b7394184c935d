//! One track, read through.

ghost use Rattle.std.specs.Prelude.{◌≡◌, ◌≤◌, ◌^◌, ◌++◌, ◌∷◌, [], length, if◌then◌else◌, IfOk, IfErr, IfSome, IsTrue, OnOk};
ghost use Rattle.tempo_clock.specs.Entries.{is_tempo};
ghost use Rattle.smf_grammar.specs.Files.{TrackFault};
ghost use Rattle.smf_grammar.specs.Contents.{entry_if, tempo_in, tempo_of, is_skipped};
ghost use Rattle.smf_grammar.specs.Seen.{event_seen};
ghost use Rattle.smf_files.specs.Kept.{are_tempos};
ghost use Rattle.smf_files.specs.Taken.{TrackTaken, Faulty};

use smf_grammar::{EventBytes, SmfFault, fault_of_pair, pair_at, tempo_in};
use tempo_clock::TempoEntry;

/// The tempo that these bytes of FF 51 set.
#[inline]
fn tempo_from(payload: &[u8]) -> Option<u32>
    ensures value { result ≡ tempo_in payload.now }
    ensures in_range { IfSome result (λ tempo. IsTrue (is_tempo tempo)) }
{
    tempo_in(payload)
}

/// The tempo that an event sets.
#[inline]
fn tempo_of(event: &EventBytes<'_>) -> Option<u32>
    ensures value { result ≡ tempo_of (event_seen event.now) }
    ensures in_range { IfSome result (λ tempo. IsTrue (is_tempo tempo)) }
{
    match event {
        EventBytes::Meta { kind, payload } if *kind == 0x51 => tempo_from(payload),
        _ => None,
    }
}

/// Appends the tempo that an event sets at a tick, where tempo counts.
#[inline]
fn note_tempo(
    event: &EventBytes<'_>,
    metrical: bool,
    tick: u64,
    tempos: &mut Vec<TempoEntry>,
) -> Result<(), SmfFault>
    requires in_range { IsTrue (are_tempos tempos.old.items) }
    ensures in_range { OnOk result (IsTrue (are_tempos tempos.new.items)) }
    ensures ok { OnOk result (tempos.new.items
        ≡ (if metrical then (tempos.old.items ++ entry_if tick (tempo_of (event_seen event.now)))
        else tempos.old.items)) }
    ensures err { IfErr result (λ x. x ≡ SmfFault.OutOfMemory) }
{
    if metrical {
        if let Some(tempo) = tempo_of(event) {
            if tempos.push(TempoEntry { tick, tempo }).is_err() {
                return Err(SmfFault::OutOfMemory);
            }
        }
    }
    Ok(())
}

/// How many events are skipped with this one.
#[inline]
fn skips(event: &EventBytes<'_>, metrical: bool) -> u64
    ensures value { result ≡ (if is_skipped metrical (event_seen event.now) then 1 else 0) }
    ensures few { result ≤ 1 }
{
    if event.is_skipped(metrical) { 1 } else { 0 }
}

/// Reads a track through: appends the tempos that it sets, and counts the events that are skipped.
///
/// Its content stands at a place of the file, after so many other tracks.
pub(crate) fn read_track(
    content: &[u8],
    track: u64,
    place: u64,
    metrical: bool,
    tempos: &mut Vec<TempoEntry>,
) -> Result<u64, SmfFault>
    requires small { length content.now ≤ 2 ^ 24 }
    requires near { place ≤ 2 ^ 24 }
    requires in_range { IsTrue (are_tempos tempos.old.items) }
    ensures in_range { OnOk result (IsTrue (are_tempos tempos.new.items)) }
    ensures ok { IfOk result
        (λ skipped. TrackTaken metrical content.now tempos.old.items tempos.new.items skipped) }
    ensures few { IfOk result (λ skipped. skipped ≤ 2 ^ 24) }
    ensures fault { IfErr result (λ x. Faulty (TrackFault content.now track place) x) }
{
    let mut left = content;
    let mut running: Option<u8> = None;
    let mut tick = 0u64;
    let mut skipped = 0u64;
    'pairs: loop {
        let (pair, rest) = match pair_at(running, left) {
            Ok(found) => found,
            Err(fault) => {
                let at = place + (content.len() - left.len()) as u64;
                return Err(fault_of_pair(fault, track, at));
            }
        };
        if pair.event.is_end() {
            return Ok(skipped);
        }
        tick += pair.delta as u64;
        note_tempo(&pair.event, metrical, tick, tempos)?;
        skipped += skips(&pair.event, metrical);
        running = pair.event.status_after();
        left = rest;
    }
}
