//! Pairs of a track that own their bytes.

ghost use Rattle.std.specs.Prelude.{◌≡◌, ◌∷◌, [], IsTrue, IfOk};
ghost use Rattle.midi_wire.specs.Messages.{begins};
ghost use Rattle.midi_wire.specs.Writings.{status_of};
ghost use Rattle.smf_grammar.specs.Pairs.{Meta};
ghost use Rattle.smf_grammar.specs.Seen.{pair_seen, event_seen};
ghost use Rattle.smf_grammar.specs.Texts.{stands_in_files};
ghost use Rattle.port_files.specs.Seen.{event_kept, capped};
ghost use Rattle.port_files.specs.Tracks.{pair_of, track_event, end_pair};

use memory::OutOfMemory;
use midi_wire::{EXCLUSIVE, FullBytes, Message, ShortMessage};
use smf_grammar::{EventBytes, PairBytes};
use std::alloc::Global;
use std::marker::Model;

/// The type of the meta event that ends a track.
const END_OF_TRACK: u8 = 0x2F;

/// An event of a track with the bytes that it holds.
#[derive(Debug, Drop)]
enum OwnEvent {
    VoiceOfOne { status: u8, first: u8 },
    VoiceOfTwo { status: u8, first: u8, second: u8 },
    Exclusive(Vec<u8>),
    Meta { kind: u8, payload: Vec<u8> },
}

/// A delta time and an event.
#[derive(Debug, Drop)]
pub(crate) struct OwnPair {
    /// In ticks, also more than a file can hold.
    delta: u64,
    event: OwnEvent,
}

impl Model for OwnPair {
    ghost use Rattle.smf_grammar.specs.Pairs.{Pair};
    ghost use Rattle.port_files.specs.Seen.{event_kept};

    ghost Value = { Pair };

    ghost view = { λ p. record { delta = p.delta; event = event_kept p.event } };
}

impl OwnPair {
    /// A message after so many ticks.
    pub(crate) fn of_message(
        alloc: Global,
        delta: u64,
        message: &Message,
    ) -> Result<OwnPair, OutOfMemory>
        requires { IsTrue (stands_in_files (begins (status_of message.now))) }
        ensures { IfOk result (λ p. p ≡ pair_of delta (track_event message.now)) }
    {
        let event = own_event(alloc, message)?;
        Ok(OwnPair { delta, event })
    }

    /// A meta event after so many ticks.
    pub(crate) fn meta(delta: u64, kind: u8, payload: Vec<u8>) -> OwnPair
        ensures { result ≡ pair_of delta (Meta kind payload.items) }
    {
        OwnPair {
            delta,
            event: OwnEvent::Meta { kind, payload },
        }
    }

    /// The end of a track.
    pub(crate) fn end(alloc: Global) -> OwnPair
        ensures { result ≡ end_pair }
    {
        OwnPair::meta(0, END_OF_TRACK, Vec::new(alloc))
    }

    /// The pair with its bytes lent. A delta time past 32 bits is cut to the greatest, which no file can hold either.
    pub(crate) fn lent(&self) -> PairBytes<'_>
        ensures { pair_seen result ≡ capped self.now }
    {
        PairBytes {
            delta: u32::try_from(self.delta).unwrap_or(u32::MAX),
            event: event_lent(&self.event),
        }
    }
}

/// A message as an event.
fn own_event(alloc: Global, message: &Message) -> Result<OwnEvent, OutOfMemory>
    requires { IsTrue (stands_in_files (begins (status_of message.now))) }
    ensures { IfOk result (λ event. event_kept event ≡ track_event message.now) }
{
    if message.status() == EXCLUSIVE {
        let mut payload = Vec::new(alloc);
        message.append_to(&mut payload)?;
        payload.remove(0);
        return Ok(OwnEvent::Exclusive(payload));
    }
    match message.full_bytes() {
        FullBytes::Short(ShortMessage::Two(status, first)) => {
            Ok(OwnEvent::VoiceOfOne { status, first })
        }
        FullBytes::Short(ShortMessage::Three(status, first, second)) => {
            Ok(OwnEvent::VoiceOfTwo {
                status,
                first,
                second,
            })
        }
        FullBytes::Short(ShortMessage::One(_)) | FullBytes::Exclusive(_) => unreachable!(),
    }
}

/// An event with its bytes lent.
fn event_lent(event: &OwnEvent) -> EventBytes<'_>
    ensures { event_seen result ≡ event_kept event.now }
{
    match event {
        OwnEvent::VoiceOfOne { status, first } => EventBytes::VoiceOfOne {
            status: *status,
            first: *first,
        },
        OwnEvent::VoiceOfTwo {
            status,
            first,
            second,
        } => EventBytes::VoiceOfTwo {
            status: *status,
            first: *first,
            second: *second,
        },
        OwnEvent::Exclusive(payload) => EventBytes::Exclusive(payload.as_slice()),
        OwnEvent::Meta { kind, payload } => EventBytes::Meta {
            kind: *kind,
            payload: payload.as_slice(),
        },
    }
}
