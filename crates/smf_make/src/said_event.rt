//! Events that lines say.

ghost use Rattle.std.specs.Prelude.{◌≡◌, ◌∷◌, [], Some};
ghost use Rattle.std.specs.Option.{option_map, option_and_then};
ghost use Rattle.script_text.specs.Numbers.{hex_bytes, only_if};
ghost use Rattle.script_text.specs.Words.{words};
ghost use Rattle.smf_grammar.specs.Pairs.{Voice};
ghost use Rattle.smf_grammar.specs.Seen.{event_seen, is_event_sound};
ghost use Rattle.smf_grammar.specs.Written.{are_bytes, has_bytes};
ghost use Rattle.smf_make.specs.Events.{said_event};

use crate::numbers::byte_said;
use crate::words::is_wordless;
use midi_wire::{EXCLUSIVE, NOTE_OFF, PITCH_BEND, PROGRAM_CHANGE};
use smf_grammar::EventBytes;

/// The most bytes that a length can count, 0FFFFFFF.
const MOST_LENGTH: usize = 268_435_455;

/// An event that a line says.
#[derive(Drop)]
pub(crate) enum SaidEvent {
    VoiceOfOne { status: u8, first: u8 },
    VoiceOfTwo { status: u8, first: u8, second: u8 },
    Exclusive(Vec<u8>),
    Escape(Vec<u8>),
    Meta { kind: u8, payload: Vec<u8> },
}

impl SaidEvent {
    /// The event as it is written.
    pub(crate) fn as_bytes(&self) -> EventBytes<'_>
        ensures { event_seen result ≡ said_event self.now }
    {
        match self {
            SaidEvent::VoiceOfOne { status, first } => EventBytes::VoiceOfOne {
                status: *status,
                first: *first,
            },
            SaidEvent::VoiceOfTwo {
                status,
                first,
                second,
            } => EventBytes::VoiceOfTwo {
                status: *status,
                first: *first,
                second: *second,
            },
            SaidEvent::Exclusive(payload) => EventBytes::Exclusive(payload.as_slice()),
            SaidEvent::Escape(payload) => EventBytes::Escape(payload.as_slice()),
            SaidEvent::Meta { kind, payload } => EventBytes::Meta {
                kind: *kind,
                payload: payload.as_slice(),
            },
        }
    }
}

/// Whether these are a message of a channel with one data byte.
#[tactic(auto, unfolding(midi_wire::specs::Messages::begins))]
fn is_voice_of_one(status: u8, first: u8) -> bool
    ensures { result ≡ is_event_sound (Voice status (first ∷ [])) }
{
    status >= PROGRAM_CHANGE && status < PITCH_BEND && first < 0x80
}

/// Whether these are a message of a channel with two data bytes.
#[tactic(auto, unfolding(midi_wire::specs::Messages::begins))]
fn is_voice_of_two(status: u8, first: u8, second: u8) -> bool
    ensures { result ≡ is_event_sound (Voice status (first ∷ second ∷ [])) }
{
    let of_two = if status < PROGRAM_CHANGE {
        status >= NOTE_OFF
    } else {
        status >= PITCH_BEND && status < EXCLUSIVE
    };
    of_two && first < 0x80 && second < 0x80
}

/// The message of a channel with these bytes.
fn voice_of_one(status: u8, first: u8) -> Option<SaidEvent>
    ensures { option_map said_event result
        ≡ only_if is_event_sound (Some (Voice status (first ∷ []))) }
{
    if !is_voice_of_one(status, first) {
        return None;
    }
    Some(SaidEvent::VoiceOfOne { status, first })
}

/// The message of a channel with these bytes.
fn voice_of_two(status: u8, first: u8, second: u8) -> Option<SaidEvent>
    ensures { option_map said_event result
        ≡ only_if is_event_sound (Some (Voice status (first ∷ second ∷ []))) }
{
    if !is_voice_of_two(status, first, second) {
        return None;
    }
    Some(SaidEvent::VoiceOfTwo {
        status,
        first,
        second,
    })
}

/// The message of a channel with this status and the data bytes that all words say.
// Most lines say one: no vector is made of its bytes.
pub(crate) fn voice_said(status: u8, text: &[u8]) -> Option<SaidEvent>
    ensures { option_map said_event result
        ≡ option_and_then (λ bytes. only_if is_event_sound (Some (Voice status bytes)))
        (hex_bytes (words text.now)) }
{
    let (first, rest) = byte_said(text)?;
    if is_wordless(rest) {
        return voice_of_one(status, first);
    }
    let (second, rest) = byte_said(rest)?;
    if !is_wordless(rest) {
        return None;
    }
    voice_of_two(status, first, second)
}

/// Whether a length can count the bytes.
fn is_short(bytes: &[u8]) -> bool
    ensures { result ≡ are_bytes bytes.now }
{
    bytes.len() <= MOST_LENGTH
}

/// Whether a length can count the bytes of an event.
pub(crate) fn has_bytes(event: &SaidEvent) -> bool
    ensures { result ≡ has_bytes (said_event event.now) }
{
    match event {
        SaidEvent::VoiceOfOne { .. } | SaidEvent::VoiceOfTwo { .. } => true,
        SaidEvent::Exclusive(payload) => is_short(payload.as_slice()),
        SaidEvent::Escape(payload) => is_short(payload.as_slice()),
        SaidEvent::Meta { kind, payload } => {
            // Read here, so that it is known to be a byte.
            let _kind = *kind;
            is_short(payload.as_slice())
        }
    }
}
