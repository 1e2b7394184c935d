//! A file of any tracks, written from the pairs of each.

ghost use Rattle.std.specs.Prelude.{◌≡◌, ◌≤◌, ◌<◌, ◌+◌, ◌^◌, ◌++◌, ◌∷◌, [], None, length, map, IsTrue, IfOk, IfErr, OnOk, MatchOption, if◌then◌else◌};
ghost use Rattle.std.specs.Option.{option_map};
ghost use Rattle.std.specs.List.{AllByRecursion};
ghost use Rattle.smf_grammar.specs.Pairs.{Voice};
ghost use Rattle.smf_grammar.specs.Files.{IsFile};
ghost use Rattle.smf_grammar.specs.Seen.{event_seen, pair_seen, tracks_seen, file_seen, is_event_sound};
ghost use Rattle.smf_grammar.specs.Written.{is_running, sized_text, event_text, pairs_text, tracks_text, written_file, are_bytes, has_bytes, can_stand, track_refusal, tracks_refusal, header_refusal, file_refusal};
ghost use Rattle.smf_files.specs.declared.tracks.TheConstants.{MOST_TRACK_BYTES};
ghost use Rattle.smf_files.specs.Refusals.{fault_of, told_of_tracks};

use crate::fault::TracksFault;
use crate::write::{MOST_DELTA, push_chunk_header, push_quantity, push_u16, quantity_size};
use memory::OutOfMemory;
use midi_wire::{END_OF_EXCLUSIVE, EXCLUSIVE, NOTE_OFF, PITCH_BEND, PROGRAM_CHANGE};
use smf_grammar::{EventBytes, MOST_BYTES, PairBytes, header_of};
use std::alloc::Global;

/// The first byte of a meta event.
const META: u8 = 0xFF;

/// The most tracks that two bytes can count.
const MOST_TRACKS: usize = 65_535;

/// How many bytes the header of a file has.
const HEADER: usize = 14;

/// How many bytes a chunk has before its content.
const CHUNK_HEADER: usize = 8;

/// How many bytes the tracks of a file have at most.
const MOST_TRACK_BYTES: usize = MOST_BYTES - HEADER;

/// Whether these are a message of a channel with one data byte.
#[tactic(auto, unfolding(midi_wire::specs::Messages::begins))]
fn is_voice_of_one(status: u8, first: u8) -> bool
    ensures { result ≡ is_event_sound (Voice status (first ∷ [])) }
{
    status >= PROGRAM_CHANGE && status < PITCH_BEND && first < 0x80
}

/// Whether these are a message of a channel with two data bytes.
#[tactic(auto, unfolding(midi_wire::specs::Messages::begins))]
fn is_voice_of_two(status: u8, first: u8, second: u8) -> bool
    ensures { result ≡ is_event_sound (Voice status (first ∷ second ∷ [])) }
{
    let of_two = if status < PROGRAM_CHANGE {
        status >= NOTE_OFF
    } else {
        status >= PITCH_BEND && status < EXCLUSIVE
    };
    of_two && first < 0x80 && second < 0x80
}

/// Whether a quantity can count these bytes.
fn is_short(bytes: &[u8]) -> bool
    ensures { result ≡ are_bytes bytes.now }
{
    bytes.len() as u64 <= MOST_DELTA
}

/// Whether a track can have the pair.
fn can_stand(pair: &PairBytes<'_>) -> bool
    ensures { result ≡ can_stand (pair_seen pair.now) }
{
    if u64::from(pair.delta) > MOST_DELTA {
        return false;
    }
    match pair.event {
        EventBytes::VoiceOfOne { status, first } => is_voice_of_one(status, first),
        EventBytes::VoiceOfTwo {
            status,
            first,
            second,
        } => is_voice_of_two(status, first, second),
        EventBytes::Exclusive(payload) => is_short(payload),
        EventBytes::Escape(payload) => is_short(payload),
        EventBytes::Meta { kind, payload } => {
            // Read here, so that it is known to be a byte.
            let _kind = kind;
            is_short(payload)
        }
    }
}

/// What is wrong with a track of this index.
fn track_fault(track: usize, pairs: &[PairBytes<'_>]) -> Option<TracksFault>
    ensures { result ≡ option_map fault_of (track_refusal track 0 (map pair_seen pairs.now)) }
{
    for (pair, found) in pairs.iter().enumerate() {
        if !can_stand(found) {
            return Some(TracksFault::BadPair { track, pair });
        }
        if found.event.is_end() {
            if pair + 1 < pairs.len() {
                return Some(TracksFault::EarlyEnd { track, pair });
            }
            return None;
        }
    }
    Some(TracksFault::NoEnd { track })
}

/// What is wrong with the first track that can't be written.
fn tracks_fault(tracks: &[Vec<PairBytes<'_>>]) -> Option<TracksFault>
    ensures { result ≡ option_map fault_of (tracks_refusal 0 (tracks_seen tracks.now)) }
{
    for (track, pairs) in tracks.iter().enumerate() {
        if let Some(fault) = track_fault(track, pairs.as_slice()) {
            return Some(fault);
        }
    }
    None
}

/// What is wrong with the numbers of a header.
fn header_fault(format: u16, tracks: usize, division: u16) -> Option<TracksFault>
    ensures { result ≡ option_map fault_of (header_refusal format tracks division) }
{
    if format > 1 {
        return Some(TracksFault::BadFormat);
    }
    let is_track_count = if format == 0 {
        tracks == 1
    } else {
        tracks != 0
    };
    if !is_track_count || tracks > MOST_TRACKS {
        return Some(TracksFault::BadTrackCount);
    }
    match header_of(format, tracks as u16, division) {
        Ok(_) => None,
        Err(_) => Some(TracksFault::BadDivision),
    }
}

/// Whether a status is the running one.
fn is_running(running: Option<u8>, status: u8) -> bool
    ensures { result ≡ is_running running status }
{
    running == Some(status)
}

/// How many bytes these have with their number before them.
fn sized_size(bytes: &[u8]) -> usize
    ensures value { result ≡ length (sized_text bytes.now) }
    ensures few { result ≤ 2 ^ 63 + 4 }
{
    quantity_size(bytes.len() as u64) + bytes.len()
}

/// How many bytes an event has where this is the running status.
fn event_size(running: Option<u8>, event: &EventBytes<'_>) -> usize
    ensures value { result ≡ length (event_text running (event_seen event.now)) }
    ensures few { result ≤ 2 ^ 63 + 8 }
{
    match event {
        EventBytes::VoiceOfOne { status, .. } => {
            if is_running(running, *status) { 1 } else { 2 }
        }
        EventBytes::VoiceOfTwo { status, .. } => {
            if is_running(running, *status) { 2 } else { 3 }
        }
        EventBytes::Exclusive(payload) => 1 + sized_size(payload),
        EventBytes::Escape(payload) => 1 + sized_size(payload),
        EventBytes::Meta { payload, .. } => 2 + sized_size(payload),
    }
}

/// How many bytes the pairs of a track have; none where they are too many for a file.
fn track_size(pairs: &[PairBytes<'_>]) -> Option<usize>
    ensures { MatchOption result
        (MOST_TRACK_BYTES < length (pairs_text None (map pair_seen pairs.now)))
        (λ n. (n ≡ length (pairs_text None (map pair_seen pairs.now))) × (n ≤ MOST_TRACK_BYTES)) }
{
    let mut size = 0;
    let mut running = None;
    for pair in pairs {
        size += quantity_size(pair.delta as u64) + event_size(running, &pair.event);
        if size > MOST_TRACK_BYTES {
            return None;
        }
        running = pair.event.status_after();
    }
    Some(size)
}

/// How many bytes the chunks of tracks have; none where they are too many for a file.
fn tracks_size(tracks: &[Vec<PairBytes<'_>>]) -> Option<usize>
    ensures { MatchOption result (MOST_TRACK_BYTES < length (tracks_text (tracks_seen tracks.now)))
        (λ n. (n ≡ length (tracks_text (tracks_seen tracks.now))) × (n ≤ MOST_TRACK_BYTES)) }
{
    let mut size = 0;
    for pairs in tracks {
        let Some(content) = track_size(pairs.as_slice()) else {
            return None;
        };
        size += CHUNK_HEADER + content;
        if size > MOST_TRACK_BYTES {
            return None;
        }
    }
    Some(size)
}

/// Adds a status, unless it is the running one.
fn push_status(running: Option<u8>, status: u8, out: &mut Vec<u8>) -> Result<(), OutOfMemory>
    ensures { OnOk result (out.new.items ≡ out.old.items
        ++ (if is_running running status then [] else (status ∷ []))) }
{
    if !is_running(running, status) {
        out.push(status)?;
    }
    Ok(())
}

/// Adds bytes behind how many they are.
fn push_sized(bytes: &[u8], out: &mut Vec<u8>) -> Result<(), OutOfMemory>
    requires { IsTrue (are_bytes bytes.now) }
    ensures { OnOk result (out.new.items ≡ out.old.items ++ sized_text bytes.now) }
{
    push_quantity(bytes.len() as u32, out)?;
    out.extend_from_slice(bytes)?;
    Ok(())
}

/// Adds an event as it stands in a track where this is the running status.
pub fn push_event(
    running: Option<u8>,
    event: &EventBytes<'_>,
    out: &mut Vec<u8>,
) -> Result<(), OutOfMemory>
    requires { IsTrue (has_bytes (event_seen event.now)) }
    ensures { OnOk result (out.new.items ≡ out.old.items
        ++ event_text running (event_seen event.now)) }
{
    match event {
        EventBytes::VoiceOfOne { status, first } => {
            push_status(running, *status, out)?;
            out.push(*first)?;
            Ok(())
        }
        EventBytes::VoiceOfTwo {
            status,
            first,
            second,
        } => {
            push_status(running, *status, out)?;
            out.extend_from_slice(&[*first, *second])?;
            Ok(())
        }
        EventBytes::Exclusive(payload) => {
            out.push(EXCLUSIVE)?;
            push_sized(payload, out)
        }
        EventBytes::Escape(payload) => {
            out.push(END_OF_EXCLUSIVE)?;
            push_sized(payload, out)
        }
        EventBytes::Meta { kind, payload } => {
            out.extend_from_slice(&[META, *kind])?;
            push_sized(payload, out)
        }
    }
}

/// Adds the pairs of a track.
fn push_pairs(pairs: &[PairBytes<'_>], out: &mut Vec<u8>) -> Result<(), OutOfMemory>
    requires { AllByRecursion (λ p. IsTrue (can_stand p)) (map pair_seen pairs.now) }
    ensures { OnOk result (out.new.items ≡ out.old.items
        ++ pairs_text None (map pair_seen pairs.now)) }
{
    let mut running = None;
    for pair in pairs {
        push_quantity(pair.delta, out)?;
        push_event(running, &pair.event, out)?;
        running = pair.event.status_after();
    }
    Ok(())
}

/// Adds a chunk for each track.
fn push_tracks(tracks: &[Vec<PairBytes<'_>>], out: &mut Vec<u8>) -> Result<(), OutOfMemory>
    requires good { tracks_refusal 0 (tracks_seen tracks.now) ≡ None }
    requires small { length (tracks_text (tracks_seen tracks.now)) ≤ MOST_TRACK_BYTES }
    ensures { OnOk result (out.new.items ≡ out.old.items ++ tracks_text (tracks_seen tracks.now)) }
{
    for pairs in tracks {
        let size = match track_size(pairs.as_slice()) {
            Some(size) => size,
            None => unreachable!(),
        };
        push_chunk_header(b"MTrk", size as u32, out)?;
        push_pairs(pairs.as_slice(), out)?;
    }
    Ok(())
}

/// A file whose tracks take so many bytes.
fn written(
    alloc: Global,
    format: u16,
    division: u16,
    tracks: &[Vec<PairBytes<'_>>],
    size: usize,
) -> Result<Vec<u8>, OutOfMemory>
    requires few { length tracks.now ≤ 65535 }
    requires good { tracks_refusal 0 (tracks_seen tracks.now) ≡ None }
    requires measured { size ≡ length (tracks_text (tracks_seen tracks.now)) }
    requires small { size ≤ MOST_TRACK_BYTES }
    ensures { IfOk result
        (λ file. file.items ≡ written_file (file_seen format division tracks.now)) }
{
    let mut out = Vec::with_capacity(alloc, HEADER + size)?;
    push_chunk_header(b"MThd", 6, &mut out)?;
    push_u16(format, &mut out)?;
    push_u16(tracks.len() as u16, &mut out)?;
    push_u16(division, &mut out)?;
    push_tracks(tracks, &mut out)?;
    Ok(out)
}

/// Writes a file of format 0 or 1 from the pairs of each track, the last of which ends it (Standard MIDI Files 1.0,
/// "Header Chunks" and "Track Chunks").
///
/// Each delta time and length has its shortest spelling, and a status is left out where it is the running one. All
/// tests come before the first request for memory.
pub fn write_tracks(
    alloc: Global,
    format: u16,
    division: u16,
    tracks: &[Vec<PairBytes<'_>>],
) -> Result<Vec<u8>, TracksFault>
    ensures text { IfOk result
        (λ file. file.items ≡ written_file (file_seen format division tracks.now)) }
    ensures taken { OnOk result (file_refusal (file_seen format division tracks.now) ≡ None) }
    ensures refused { IfErr result
        (λ x. file_refusal (file_seen format division tracks.now) ≡ told_of_tracks x) }
    ensures reads_back { IfOk result
        (λ file. IsFile file.items (file_seen format division tracks.now)) }
{
    if let Some(fault) = header_fault(format, tracks.len(), division) {
        return Err(fault);
    }
    if let Some(fault) = tracks_fault(tracks) {
        return Err(fault);
    }
    let Some(size) = tracks_size(tracks) else {
        return Err(TracksFault::TooLarge);
    };
    Ok(written(alloc, format, division, tracks, size)?)
}
