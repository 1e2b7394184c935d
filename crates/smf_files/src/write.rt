//! A file of format 0, written.

ghost use Rattle.std.specs.Prelude.{◌≡◌, ◌≤◌, ◌<◌, ◌+◌, ◌^◌, ◌++◌, ◌∷◌, [], None, length, map, IsTrue, IfOk, IfErr, IfNone, OnOk, MatchOption};
ghost use Rattle.byteorder.specs.Endian.{big_bytes};
ghost use Rattle.midi_wire.specs.Messages.{IsMessage, AllMessages, begins};
ghost use Rattle.midi_wire.specs.Writings.{status_of};
ghost use Rattle.smf_grammar.specs.Laws.{ReadsBack};
ghost use Rattle.smf_grammar.specs.Texts.{shortest, message_text, events_text, file_text, stands_in_files, can_follow, bad_event};
ghost use Rattle.smf_files.specs.declared.write.TheConstants.{MOST_EVENT_BYTES};
ghost use Rattle.smf_files.specs.Refusals.{write_refusal, told_refusal};

use crate::fault::WriteFault;
use byteorder::{BigEndian, ByteOrder};
use memory::OutOfMemory;
use midi_wire::{EXCLUSIVE, Message};
use smf_grammar::{Event, MOST_BYTES};
use std::alloc::Global;
use tempo_clock::{MOST_PPQ, MOST_TEMPO};

/// The greatest delta time, 0FFFFFFF.
pub(crate) const MOST_DELTA: u64 = 268_435_455;

/// How many bytes a file has besides its events: the headers of the file and of the track, the tempo and the end of
/// track.
const FRAME: usize = 33;

/// How many bytes of a track stand beside its events.
const TRACK_FRAME: u32 = 11;

/// How many bytes events have at most in a file.
const MOST_EVENT_BYTES: usize = MOST_BYTES - FRAME;

/// Whether an event can stand after one at the tick `before`.
fn can_follow(before: u64, event: &Event) -> bool
    ensures value { result ≡ can_follow before event.now }
    ensures message { IsTrue result → IsMessage event.now.message }
{
    event.tick >= before && event.tick - before <= MOST_DELTA && stands_in_files(&event.message)
}

/// Whether a file can hold a message: one of a channel, or exclusive.
pub fn stands_in_files(message: &Message) -> bool
    ensures value { result ≡ stands_in_files (begins (status_of message.now)) }
    ensures message { IsMessage message.now }
{
    // System common and real time have the statuses above it.
    message.status() <= EXCLUSIVE
}

/// The index of the first event that cannot be written.
fn first_bad(events: &[Event]) -> Option<usize>
    ensures value { result ≡ bad_event 0 events.now }
    ensures messages { IfNone result (AllMessages (map (λ e. e.message) events.now)) }
{
    let mut before = 0;
    for (i, event) in events.iter().enumerate() {
        if !can_follow(before, event) {
            return Some(i);
        }
        before = event.tick;
    }
    None
}

/// How many bytes the shortest spelling of a quantity has.
#[tactic(auto, unfolding(smf_grammar::specs::Texts::shortest))]
pub(crate) fn quantity_size(value: u64) -> usize
    ensures value { result ≡ length (shortest value) }
    ensures few { result ≤ 4 }
{
    match value {
        0..=0x7F => 1,
        0x80..=0x3FFF => 2,
        0x4000..=0x1F_FFFF => 3,
        _ => 4,
    }
}

/// How many bytes a message has in a track.
fn message_size(message: &Message) -> usize
    ensures value { result ≡ length (message_text message.now) }
    ensures few { result ≤ 2 ^ 17 }
{
    let size = message.len();
    if message.status() != EXCLUSIVE {
        return size;
    }
    size + quantity_size(size as u64 - 1)
}

/// How many bytes the events have in a track; none where they are too many for a file.
fn events_size(events: &[Event]) -> Option<usize>
    requires { bad_event 0 events.now ≡ None }
    ensures { MatchOption result (MOST_EVENT_BYTES < length (events_text 0 events.now))
        (λ n. (n ≡ length (events_text 0 events.now)) × (n ≤ MOST_EVENT_BYTES)) }
{
    let mut size = 0;
    let mut before = 0;
    for event in events {
        size += quantity_size(event.tick - before) + message_size(&event.message);
        if size > MOST_EVENT_BYTES {
            return None;
        }
        before = event.tick;
    }
    Some(size)
}

/// Adds the shortest spelling of a quantity.
#[tactic(auto, unfolding(smf_grammar::specs::Texts::shortest))]
pub fn push_quantity(value: u32, out: &mut Vec<u8>) -> Result<(), OutOfMemory>
    requires { value < 2 ^ 28 }
    ensures { OnOk result (out.new.items ≡ out.old.items ++ shortest value) }
{
    if value < 0x80 {
        out.push(value as u8)?;
        return Ok(());
    }
    let last = (value % 128) as u8;
    if value < 0x4000 {
        out.extend_from_slice(&[0x80 + (value / 128) as u8, last])?;
        return Ok(());
    }
    let third = 0x80 + (value / 128 % 128) as u8;
    if value < 0x20_0000 {
        out.extend_from_slice(&[0x80 + (value / 128 / 128) as u8, third, last])?;
        return Ok(());
    }
    let second = 0x80 + (value / 128 / 128 % 128) as u8;
    let first = 0x80 + (value / 128 / 128 / 128) as u8;
    out.extend_from_slice(&[first, second, third, last])?;
    Ok(())
}

/// Adds a message as it stands in a track: an exclusive one with the length of what follows F0.
///
/// What was in `bytes` is lost.
fn push_message(
    message: &Message,
    bytes: &mut Vec<u8>,
    out: &mut Vec<u8>,
) -> Result<(), OutOfMemory>
    ensures { OnOk result (out.new.items ≡ out.old.items ++ message_text message.now) }
{
    if message.status() != EXCLUSIVE {
        return message.append_to(out);
    }
    bytes.clear();
    message.append_to(bytes)?;
    let tail = &bytes[1..];
    out.push(EXCLUSIVE)?;
    push_quantity(tail.len() as u32, out)?;
    out.extend_from_slice(tail)?;
    Ok(())
}

/// Adds the events of a track.
fn push_events(alloc: Global, events: &[Event], out: &mut Vec<u8>) -> Result<(), OutOfMemory>
    requires { bad_event 0 events.now ≡ None }
    ensures { OnOk result (out.new.items ≡ out.old.items ++ events_text 0 events.now) }
{
    let mut bytes = Vec::new(alloc);
    let mut before = 0;
    for event in events {
        push_quantity((event.tick - before) as u32, out)?;
        push_message(&event.message, &mut bytes, out)?;
        before = event.tick;
    }
    Ok(())
}

/// Adds the type and the length of a chunk.
pub fn push_chunk_header(kind: &[u8], size: u32, out: &mut Vec<u8>) -> Result<(), OutOfMemory>
    ensures { OnOk result (out.new.items ≡ out.old.items ++ kind.now ++ big_bytes 4 size) }
{
    let mut length = [0; 4];
    BigEndian::write_u32(&mut length, size);
    out.extend_from_slice(kind)?;
    out.extend_from_slice(&length)?;
    Ok(())
}

/// Adds a number of two bytes.
pub fn push_u16(value: u16, out: &mut Vec<u8>) -> Result<(), OutOfMemory>
    ensures { OnOk result (out.new.items ≡ out.old.items ++ big_bytes 2 value) }
{
    let mut bytes = [0; 2];
    BigEndian::write_u16(&mut bytes, value);
    out.extend_from_slice(&bytes)?;
    Ok(())
}

/// Adds a tempo event at the start of a track.
fn push_tempo(tempo: u32, out: &mut Vec<u8>) -> Result<(), OutOfMemory>
    requires { tempo < 2 ^ 24 }
    ensures { OnOk result (out.new.items ≡ out.old.items ++ (0 ∷ 255 ∷ 81 ∷ 3 ∷ [])
        ++ big_bytes 3 tempo) }
{
    let mut bytes = [0; 3];
    BigEndian::write_u24(&mut bytes, tempo);
    out.extend_from_slice(&[0x00, 0xFF, 0x51, 0x03])?;
    out.extend_from_slice(&bytes)?;
    Ok(())
}

/// A file whose events take so many bytes.
fn written(
    alloc: Global,
    ppq: u16,
    tempo: u32,
    events: &[Event],
    size: usize,
) -> Result<Vec<u8>, OutOfMemory>
    requires short { tempo < 2 ^ 24 }
    requires good { bad_event 0 events.now ≡ None }
    requires measured { size ≡ length (events_text 0 events.now) }
    requires small { size ≤ MOST_EVENT_BYTES }
    ensures { IfOk result (λ file. file.items ≡ file_text ppq tempo events.now) }
{
    let mut out = Vec::with_capacity(alloc, FRAME + size)?;
    push_chunk_header(b"MThd", 6, &mut out)?;
    push_u16(0, &mut out)?;
    push_u16(1, &mut out)?;
    push_u16(ppq, &mut out)?;
    push_chunk_header(b"MTrk", size as u32 + TRACK_FRAME, &mut out)?;
    push_tempo(tempo, &mut out)?;
    push_events(alloc, events, &mut out)?;
    out.extend_from_slice(&[0x00, 0xFF, 0x2F, 0x00])?;
    Ok(out)
}

/// Writes events as a file of format 0: `ppq` ticks per quarter note, one tempo in microseconds per quarter note, and
/// the events at their ticks.
///
/// All tests come before the first request for memory.
pub fn write_format0(
    alloc: Global,
    ppq: u16,
    tempo: u32,
    events: &[Event],
) -> Result<Vec<u8>, WriteFault>
    ensures text { IfOk result (λ file. file.items ≡ file_text ppq tempo events.now) }
    ensures taken { OnOk result (write_refusal ppq tempo events.now ≡ None) }
    ensures refused { IfErr result (λ x. write_refusal ppq tempo events.now ≡ told_refusal x) }
    ensures reads_back { OnOk result (ReadsBack ppq tempo events.now) }
{
    if ppq == 0 || u32::from(ppq) > MOST_PPQ {
        return Err(WriteFault::BadPpq);
    }
    if tempo == 0 || tempo > MOST_TEMPO {
        return Err(WriteFault::BadTempo);
    }
    if let Some(index) = first_bad(events) {
        return Err(WriteFault::BadEvent { index });
    }
    let Some(size) = events_size(events) else {
        return Err(WriteFault::TooLarge);
    };
    Ok(written(alloc, ppq, tempo, events, size)?)
}
