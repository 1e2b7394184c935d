//! The kinds of messages.

ghost use Rattle.std.specs.Prelude.{◌≡◌, ◌≤◌};
ghost use Rattle.midi_wire.specs.Kinds.{kind_of_status};

use crate::status::{EXCLUSIVE, FIRST_STATUS};

/// The kind of a message, by its status (MIDI 1.0 Detailed Specification, "Messages").
///
/// `NoteOff` to `PitchBend` are the channel voice messages, 8n to En; control changes 120 to 127 are the channel mode
/// messages.
#[derive(Clone, Copy, Debug, PartialEq, Eq)]
pub enum Kind {
    NoteOff,
    NoteOn,
    PolyPressure,
    ControlChange,
    ProgramChange,
    ChannelPressure,
    PitchBend,
    /// F1, F2, F3 and F6: time code quarter frame, song position pointer, song select, tune request.
    SystemCommon,
    /// F8, FA, FB, FC, FE and FF.
    RealTime,
    /// F0 with its data and F7.
    Exclusive,
}

/// The kind of a message with this status.
#[tactic(auto, unfolding(crate::specs::Kinds::kind_of_status))]
pub(crate) fn kind_of_status(status: u8) -> Kind
    requires { FIRST_STATUS ≤ status }
    ensures { result ≡ kind_of_status status }
{
    match status {
        0x80..=0x8F => Kind::NoteOff,
        0x90..=0x9F => Kind::NoteOn,
        0xA0..=0xAF => Kind::PolyPressure,
        0xB0..=0xBF => Kind::ControlChange,
        0xC0..=0xCF => Kind::ProgramChange,
        0xD0..=0xDF => Kind::ChannelPressure,
        0xE0..=0xEF => Kind::PitchBend,
        EXCLUSIVE => Kind::Exclusive,
        0xF1..=0xF7 => Kind::SystemCommon,
        0xF8..=0xFF => Kind::RealTime,
        0x00..=0x7F => unreachable!(),
    }
}
