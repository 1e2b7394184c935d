//! What events say.

ghost use Rattle.std.specs.Prelude.{◌≡◌, ℕ, is_some};
ghost use Rattle.smf_grammar.specs.Pairs.{is_end, running_after};
ghost use Rattle.smf_grammar.specs.Contents.{message_of, tempo_in, tempo_of, is_skipped};
ghost use Rattle.smf_grammar.specs.Seen.{event_seen};
ghost use Rattle.smf_grammar.specs.Files.{fault_of_pair};

use crate::fault::{PairFault, SmfFault};
use crate::pair::EventBytes;
use byteorder::{BigEndian, ByteOrder};
use midi_wire::is_exclusive_tail;

/// The tempo that these bytes of FF 51 set: three, and not all 0.
pub fn tempo_in(payload: &[u8]) -> Option<u32>
    ensures { result ≡ tempo_in payload.now }
{
    if payload.len() != 3 {
        return None;
    }
    let tempo = BigEndian::read_u24(payload);
    if tempo == 0 {
        return None;
    }
    Some(tempo)
}

impl EventBytes<'_> {
    /// Whether it ends its track.
    #[inline]
    pub fn is_end(&self) -> bool
        ensures { result ≡ is_end (event_seen self.now) }
    {
        match self {
            EventBytes::Meta { kind, .. } => *kind == 0x2F,
            _ => false,
        }
    }

    /// The running status after it.
    #[inline]
    pub fn status_after(&self) -> Option<u8>
        ensures { result ≡ running_after (event_seen self.now) }
    {
        match self {
            EventBytes::VoiceOfOne { status, .. } => Some(*status),
            EventBytes::VoiceOfTwo { status, .. } => Some(*status),
            _ => None,
        }
    }

    /// The tempo that it sets.
    #[inline]
    pub fn tempo(&self) -> Option<u32>
        ensures { result ≡ tempo_of (event_seen self.now) }
    {
        match self {
            EventBytes::Meta { kind, payload } => {
                if *kind == 0x51 {
                    tempo_in(payload)
                } else {
                    None
                }
            }
            _ => None,
        }
    }

    /// Whether it is skipped and counted; `metrical` where tempo counts.
    #[inline]
    pub fn is_skipped(&self, metrical: bool) -> bool
        ensures { result ≡ is_skipped metrical (event_seen self.now) }
    {
        match self {
            EventBytes::Exclusive(payload) => !is_exclusive_tail(payload),
            EventBytes::Escape(_) => true,
            EventBytes::Meta { kind, payload } => {
                metrical && *kind == 0x51 && tempo_in(payload).is_none()
            }
            _ => false,
        }
    }

    /// Whether it is a message.
    #[inline]
    pub fn is_message(&self) -> bool
        ensures { result ≡ is_some (message_of (event_seen self.now)) }
    {
        match self {
            EventBytes::VoiceOfOne { .. } => true,
            EventBytes::VoiceOfTwo { .. } => true,
            EventBytes::Exclusive(payload) => is_exclusive_tail(payload),
            _ => false,
        }
    }
}

/// A fault of a pair, by the number of its track and the place of its delta time.
pub fn fault_of_pair(fault: PairFault, track: u64, place: u64) -> SmfFault
    ensures { result ≡ fault_of_pair fault track place }
{
    match fault {
        PairFault::NoPair => SmfFault::NoEndOfTrack { track },
        PairFault::Truncated => SmfFault::Truncated { at: place },
        PairFault::LongQuantity => SmfFault::LongQuantity { at: place },
        PairFault::NoStatus => SmfFault::NoStatus { at: place },
        PairFault::BadStatus => SmfFault::BadStatus { at: place },
        PairFault::BadData => SmfFault::BadData { at: place },
    }
}
