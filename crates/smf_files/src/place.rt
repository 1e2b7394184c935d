//! Where a track that is played stands.

ghost use Rattle.std.specs.Prelude.{◌≡◌, ◌≤◌, ◌+◌, ◌*◌, ◌^◌, ◌∷◌, length, IsTrue, IfOk, IfSome, OnErr, Some, is_some};
ghost use Rattle.midi_wire.specs.Messages.{is_message};
ghost use Rattle.smf_grammar.specs.Contents.{message_of, events_from};
ghost use Rattle.smf_grammar.specs.Seen.{event_seen, is_event_sound, IsRunning};
ghost use Rattle.smf_files.specs.Playing.{event_in, running_in, left_in, left_of, rest_of, is_whole, to_come_if, IsPlaceIn, IsShortDelta, IsExclusive};

use crate::heads::TrackHead;
use memory::OutOfMemory;
use midi_wire::{EXCLUSIVE, Message};
use smf_grammar::{EventBytes, pair_at};
use std::alloc::Global;

/// The next message of a track: the event, the running status after it, and what is left after it.
#[derive(Clone, Copy)]
pub(crate) struct Opened<'b> {
    pub event: EventBytes<'b>,
    pub running: Option<u8>,
    pub left: &'b [u8],
}

/// Reads the next message of a track with this content.
// It was read before, to find its tick: a head of 16 bytes has no room for what it says.
#[inline(always)]
pub(crate) fn open<'b>(head: TrackHead, content: &'b [u8]) -> Opened<'b>
    requires within { head.left ≤ length content.now }
    requires some { IsTrue (is_some (message_of (event_in head (left_of content.now head)))) }
    requires status { IsRunning head.running }
    ensures event { event_seen result.event ≡ event_in head (left_of content.now head) }
    ensures running { result.running ≡ running_in head (left_of content.now head) }
    ensures left { result.left.now ≡ left_in head (left_of content.now head) }
{
    let (_, left) = content.split_at(content.len() - head.left as usize);
    match pair_at(head.running, left) {
        Ok((pair, left)) => Opened {
            event: pair.event,
            running: pair.event.status_after(),
            left,
        },
        Err(_) => unreachable!(),
    }
}

/// The delta time of one byte before a message of a channel, where these stand first.
#[inline(always)]
fn short_delta(left: &[u8]) -> Option<u8>
    ensures { IfSome result (λ delta. IsShortDelta delta left.now) }
{
    if left.len() < 2 || left[0] >= 0x80 || left[1] >= EXCLUSIVE {
        return None;
    }
    Some(left[0])
}

/// Goes on to the next message of a track, of which so much is left at a tick.
#[inline(always)]
pub(crate) fn find(track: u16, tick: u64, running: Option<u8>, left: &[u8]) -> Option<TrackHead>
    requires whole { IsTrue (is_whole running left.now) }
    requires status { IsRunning running }
    requires early { tick + length left.now * 2 ^ 28 ≤ 2 ^ 52 }
    ensures events { to_come_if left.entry.now result
        ≡ events_from tick (rest_of running left.entry.now) }
    ensures place { IfSome result (λ h. IsPlaceIn left.entry.now h) }
    ensures track { IfSome result (λ h. h.track ≡ track) }
{
    let mut tick = tick;
    let mut running = running;
    let mut left = left;
    'pairs: loop {
        // Most messages are told by two bytes, and are read only when they are given.
        if let Some(delta) = short_delta(left) {
            return Some(TrackHead {
                tick: tick + delta as u64,
                left: left.len() as u32,
                track,
                running,
            });
        }
        let (pair, rest) = match pair_at(running, left) {
            Ok(found) => found,
            Err(_) => unreachable!(),
        };
        if pair.event.is_end() {
            return None;
        }
        tick += pair.delta as u64;
        if pair.event.is_message() {
            return Some(TrackHead {
                tick,
                left: left.len() as u32,
                track,
                running,
            });
        }
        running = pair.event.status_after();
        left = rest;
    }
}

/// The exclusive message of F0 and these bytes.
fn exclusive(alloc: Global, payload: &[u8]) -> Result<Message, OutOfMemory>
    requires { IsTrue (is_message (240 ∷ payload.now)) }
    ensures { IfOk result (λ m. m ≡ 240 ∷ payload.now) }
{
    let data_bytes = &payload[..payload.len() - 1];
    Message::exclusive(alloc, data_bytes)
}

/// The message of an event. Memory is taken only for an exclusive one.
#[inline(always)]
pub(crate) fn message_of(alloc: Global, event: &EventBytes<'_>) -> Result<Message, OutOfMemory>
    requires some { IsTrue (is_some (message_of (event_seen event.now))) }
    requires sound { IsTrue (is_event_sound (event_seen event.now)) }
    ensures ok { IfOk result (λ m. message_of (event_seen event.now) ≡ Some m) }
    ensures exclusive { OnErr result (IsExclusive (event_seen event.now)) }
{
    match event {
        EventBytes::VoiceOfOne { status, first } => Ok(Message::with_one(*status, *first)),
        EventBytes::VoiceOfTwo {
            status,
            first,
            second,
        } => Ok(Message::with_two(*status, *first, *second)),
        EventBytes::Exclusive(payload) => exclusive(alloc, payload),
        EventBytes::Escape(_) | EventBytes::Meta { .. } => unreachable!(),
    }
}
