//! Channel messages taken apart.

ghost use Rattle.std.specs.Prelude.{◌≡◌, ◌≤◌, ◌<◌, true, IfSome, IfNone};
ghost use Rattle.midi_wire.specs.Messages.{IsMessage};
ghost use Rattle.midi_wire.specs.Writings.{status_of};
ghost use Rattle.route_filter.specs.VoiceBytes.{has_one_data};

use midi_wire::{CHANNELS, EXCLUSIVE, Message, NOTE_OFF, PITCH_BEND, PROGRAM_CHANGE};
use std::marker::Model;

/// How many forms a channel message may take on its way: a channel and a first data byte.
pub const FORMS: usize = 2048;

/// A channel message as a status and its data, which cost nothing to pass on. It is seen as its full bytes.
#[derive(Debug, Drop)]
pub struct VoiceMessage {
    pub(crate) status: u8,
    pub(crate) first: u8,
    // It counts only where the message has two data bytes.
    pub(crate) second: u8,
}

impl Model for VoiceMessage {
    ghost use Rattle.std.specs.Prelude.{List, ℕ};
    ghost use Rattle.route_filter.specs.VoiceBytes.{voice_bytes, IsVoice};

    ghost Value = { List ℕ };

    ghost view = { λ v. voice_bytes v.status v.first v.second };

    ghost invariant = { λ v. IsVoice v.status v.first v.second };
}

impl VoiceMessage {
    /// The parts of a channel message; nothing, where it is one of the system.
    #[inline]
    pub fn of(message: &Message) -> Option<VoiceMessage>
        ensures voice { IfSome result (λ v. v ≡ message.now) }
        ensures system { IfNone result (240 ≤ status_of message.now) }
        ensures message { IsMessage message.now }
    {
        let status = message.status();
        if status >= EXCLUSIVE {
            return None;
        }
        Some(VoiceMessage {
            status,
            first: message.byte_at(1).unwrap_or(0),
            second: message.byte_at(2).unwrap_or(0),
        })
    }

    /// The same once more.
    #[inline]
    pub fn duplicate(&self) -> VoiceMessage
        ensures { result ≡ self.now }
    {
        VoiceMessage {
            status: self.status,
            first: self.first,
            second: self.second,
        }
    }

    /// Whether it is the same message as another.
    #[inline]
    pub fn is_same(&self, other: &VoiceMessage) -> bool
        ensures same { result ≡ true → self.now ≡ other.now }
        ensures other { self.now ≡ other.now → result ≡ true }
    {
        if self.status != other.status || self.first != other.first {
            return false;
        }
        has_one_data(self.status) || self.second == other.second
    }

    /// A number below `FORMS` by its channel and its first data byte, which are all that filters change.
    #[inline]
    pub fn form(&self) -> usize
        ensures { result < FORMS }
    {
        usize::from(self.status % CHANNELS) * usize::from(NOTE_OFF) + usize::from(self.first)
    }

    /// The message of these parts. It takes no memory.
    #[inline]
    pub fn message(&self) -> Message
        ensures { result ≡ self.now }
    {
        if has_one_data(self.status) {
            return Message::with_one(self.status, self.first);
        }
        Message::with_two(self.status, self.first, self.second)
    }
}

/// Whether channel messages with this status have one data byte: program changes and channel pressures.
#[inline]
fn has_one_data(status: u8) -> bool
    ensures { result ≡ has_one_data status }
{
    status >= PROGRAM_CHANGE && status < PITCH_BEND
}
