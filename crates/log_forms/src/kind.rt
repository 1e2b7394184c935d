//! The kinds of messages, as logs name them.

ghost use Rattle.std.specs.Prelude.{◌≡◌};
ghost use Rattle.log_forms.specs.Kinds.{kind_of, kind_name, status_in, first_data, second_data, channel_from_1};

use midi_wire::{CHANNELS, StatusClass};

/// The kinds of messages (MIDI 1.0 Detailed Specification, "Summary of Status Bytes").
#[derive(Clone, Copy, Debug, PartialEq, Eq)]
pub(crate) enum MessageKind {
    NoteOff,
    NoteOn,
    PolyPressure,
    ControlChange,
    ProgramChange,
    ChannelPressure,
    PitchBend,
    Exclusive,
    QuarterFrame,
    SongPosition,
    SongSelect,
    TuneRequest,
    Clock,
    Start,
    Continue,
    Stop,
    ActiveSensing,
    Reset,
    /// F4, F5, F7, F9, FD, and what is no status: these begin no message.
    Undefined,
}

/// The bytes of a message, as far as its kind, channel and data tell of them.
#[derive(Clone, Copy, Debug, PartialEq, Eq)]
pub(crate) enum Shape {
    One(u8),
    Two(u8, u8),
    Three(u8, u8, u8),
    /// An exclusive message, of which only the status is told.
    Other(u8),
}

impl Shape {
    pub(crate) fn status(self) -> u8
        ensures { result ≡ status_in self }
    {
        match self {
            Shape::One(status)
            | Shape::Two(status, _)
            | Shape::Three(status, _, _)
            | Shape::Other(status) => status,
        }
    }

    pub(crate) fn first_data(self) -> Option<u8>
        ensures { result ≡ first_data self }
    {
        match self {
            Shape::Two(_, first) | Shape::Three(_, first, _) => Some(first),
            Shape::One(_) | Shape::Other(_) => None,
        }
    }

    pub(crate) fn second_data(self) -> Option<u8>
        ensures { result ≡ second_data self }
    {
        match self {
            Shape::Three(_, _, second) => Some(second),
            Shape::One(_) | Shape::Two(_, _) | Shape::Other(_) => None,
        }
    }
}

/// The kind of a message with this status.
#[tactic(auto, unfolding(crate::specs::Kinds::kind_of))]
pub(crate) fn kind_of(status: u8) -> MessageKind
    ensures { result ≡ kind_of status }
{
    match status {
        0x80..=0x8F => MessageKind::NoteOff,
        0x90..=0x9F => MessageKind::NoteOn,
        0xA0..=0xAF => MessageKind::PolyPressure,
        0xB0..=0xBF => MessageKind::ControlChange,
        0xC0..=0xCF => MessageKind::ProgramChange,
        0xD0..=0xDF => MessageKind::ChannelPressure,
        0xE0..=0xEF => MessageKind::PitchBend,
        0xF0 => MessageKind::Exclusive,
        0xF1 => MessageKind::QuarterFrame,
        0xF2 => MessageKind::SongPosition,
        0xF3 => MessageKind::SongSelect,
        0xF6 => MessageKind::TuneRequest,
        0xF8 => MessageKind::Clock,
        0xFA => MessageKind::Start,
        0xFB => MessageKind::Continue,
        0xFC => MessageKind::Stop,
        0xFE => MessageKind::ActiveSensing,
        0xFF => MessageKind::Reset,
        0x00..=0x7F | 0xF4 | 0xF5 | 0xF7 | 0xF9 | 0xFD => MessageKind::Undefined,
    }
}

impl MessageKind {
    pub(crate) fn name(self) -> &'static [u8]
        ensures { result.now ≡ kind_name self }
    {
        match self {
            MessageKind::NoteOff => b"note_off",
            MessageKind::NoteOn => b"note_on",
            MessageKind::PolyPressure => b"poly_pressure",
            MessageKind::ControlChange => b"control_change",
            MessageKind::ProgramChange => b"program_change",
            MessageKind::ChannelPressure => b"channel_pressure",
            MessageKind::PitchBend => b"pitch_bend",
            MessageKind::Exclusive => b"exclusive",
            MessageKind::QuarterFrame => b"quarter_frame",
            MessageKind::SongPosition => b"song_position",
            MessageKind::SongSelect => b"song_select",
            MessageKind::TuneRequest => b"tune_request",
            MessageKind::Clock => b"clock",
            MessageKind::Start => b"start",
            MessageKind::Continue => b"continue",
            MessageKind::Stop => b"stop",
            MessageKind::ActiveSensing => b"active_sensing",
            MessageKind::Reset => b"reset",
            MessageKind::Undefined => b"undefined",
        }
    }
}

/// The channel of a message with this status, from 1 on, where it has one.
pub(crate) fn channel_from_1(status: u8) -> Option<u8>
    ensures { result ≡ channel_from_1 status }
{
    if StatusClass::of(status).is_channel() {
        Some(status % CHANNELS + 1)
    } else {
        None
    }
}
