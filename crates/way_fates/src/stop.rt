//! Why a filter stops a message.

ghost use Rattle.std.specs.Prelude.{◌≡◌, ◌<◌};
ghost use Rattle.midi_wire.specs.Kinds.{channels};
ghost use Rattle.route_filter.specs.Passing.{note_of};
ghost use Rattle.route_filter.specs.Rules.{kind_bit, has_kind, has_channel};
ghost use Rattle.way_fates.specs.Stops.{kind_stop, channel_stop, note_stop, stop_by};

use bitflags::Flags;
use midi_wire::{Kind, Message};
use route_filter::{Kinds, RuleArgs};

/// Why a filter lets a message not pass: the first test of its rule that the message fails.
#[derive(Clone, Copy, Debug, PartialEq, Eq)]
pub enum Stop {
    /// The rule does not take the kind of the message.
    Kind,
    /// The rule does not take messages of this channel, 0 to 15.
    Channel(u8),
    /// The note is below the lowest that the rule takes.
    NoteBelow { note: u8, low: u8 },
    /// The note is above the highest that the rule takes.
    NoteAbove { note: u8, high: u8 },
    /// The note, raised by so many semitones, would not be one from 0 to 127.
    NoteShifted { note: u8, shift: i16 },
}

/// The set of a kind alone.
fn set_of(kind: Kind) -> u16
    ensures { result ≡ kind_bit kind }
{
    let set = match kind {
        Kind::NoteOff => Kinds::NOTE_OFF,
        Kind::NoteOn => Kinds::NOTE_ON,
        Kind::PolyPressure => Kinds::POLY_PRESSURE,
        Kind::ControlChange => Kinds::CONTROL_CHANGE,
        Kind::ProgramChange => Kinds::PROGRAM_CHANGE,
        Kind::ChannelPressure => Kinds::CHANNEL_PRESSURE,
        Kind::PitchBend => Kinds::PITCH_BEND,
        Kind::SystemCommon => Kinds::SYSTEM_COMMON,
        Kind::RealTime => Kinds::REAL_TIME,
        Kind::Exclusive => Kinds::EXCLUSIVE,
    };
    set.bits()
}

fn takes_kind(rule: &RuleArgs, kind: Kind) -> bool
    ensures { result ≡ has_kind rule.now.kinds.0 kind }
{
    rule.kinds.bits() & set_of(kind) != 0
}

fn takes_channel(rule: &RuleArgs, channel: u8) -> bool
    requires { channel < channels }
    ensures { result ≡ has_channel rule.now.channels channel }
{
    rule.channels & (1 << channel) != 0
}

/// The note of a message, where it has one.
fn note_of(message: &Message) -> Option<u8>
    ensures { result ≡ note_of message.now }
{
    match message.kind() {
        Kind::NoteOff | Kind::NoteOn | Kind::PolyPressure => {
            Some(message.byte_at(1).unwrap_or(0))
        }
        _ => None,
    }
}

/// Why a rule does not take the kind of a message.
fn kind_stop(rule: &RuleArgs, message: &Message) -> Option<Stop>
    ensures { result ≡ kind_stop rule.now message.now }
{
    if takes_kind(rule, message.kind()) {
        return None;
    }
    Some(Stop::Kind)
}

/// Why a rule does not take the channel of a message.
fn channel_stop(rule: &RuleArgs, message: &Message) -> Option<Stop>
    ensures { result ≡ channel_stop rule.now message.now }
{
    let channel = message.channel_of()?;
    if takes_channel(rule, channel) {
        return None;
    }
    Some(Stop::Channel(channel))
}

/// Why a rule does not take the note of a message.
fn note_stop(rule: &RuleArgs, message: &Message) -> Option<Stop>
    ensures { result ≡ note_stop rule.now message.now }
{
    let note = note_of(message)?;
    let RuleArgs {
        low,
        high,
        shift,
        ..
    } = *rule;
    if note < low {
        return Some(Stop::NoteBelow { note, low });
    }
    if note > high {
        return Some(Stop::NoteAbove { note, high });
    }
    let shifted = i32::from(note) + i32::from(shift);
    if !(0..=127).contains(&shifted) {
        return Some(Stop::NoteShifted { note, shift });
    }
    None
}

/// The first test of a rule that a message fails: of its kind, of its channel, and of its note.
pub(crate) fn stop_by(rule: &RuleArgs, message: &Message) -> Option<Stop>
    ensures { result ≡ stop_by rule.now message.now }
{
    kind_stop(rule, message)
        .or_else(|| channel_stop(rule, message))
        .or_else(|| note_stop(rule, message))
}
