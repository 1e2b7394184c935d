//! Sets of kinds of messages.

ghost use Rattle.std.specs.Prelude.{◌≡◌, nat_le};
ghost use Rattle.route_filter.specs.Rules.{kind_bit};

use bitflags::{Flag, Flags, bitflag_items};
use midi_wire::Kind;

/// A set of the kinds of messages of MIDI 1.0. `from_bits_retain` makes it from a number, which may have bits that are
/// of no kind.
#[derive(Clone, Copy, Debug, PartialEq, Eq)]
pub struct Kinds(pub(crate) u16);

bitflag_items! {
    impl Kinds: u16 {
        const NOTE_OFF = 1;
        const NOTE_ON = 2;
        const POLY_PRESSURE = 4;
        const CONTROL_CHANGE = 8;
        const PROGRAM_CHANGE = 16;
        const CHANNEL_PRESSURE = 32;
        const PITCH_BEND = 64;
        const SYSTEM_COMMON = 128;
        const REAL_TIME = 256;
        const EXCLUSIVE = 512;
    }
}

impl Flags for Kinds {
    ghost use Rattle.std.specs.Prelude.{⊤, codes, [], ◌∷◌};

    type Bits = u16;

    ghost exact = { ⊤ };

    ghost table = { (codes "NOTE_OFF", 1) ∷ (codes "NOTE_ON", 2) ∷ (codes "POLY_PRESSURE", 4)
        ∷ (codes "CONTROL_CHANGE", 8) ∷ (codes "PROGRAM_CHANGE", 16)
        ∷ (codes "CHANNEL_PRESSURE", 32) ∷ (codes "PITCH_BEND", 64) ∷ (codes "SYSTEM_COMMON", 128)
        ∷ (codes "REAL_TIME", 256) ∷ (codes "EXCLUSIVE", 512) ∷ [] };

    ghost set_of = { λ k. k.0 };

    fn flags<'a>() -> &'a [Flag<Kinds>] {
        Kinds::FLAGS
    }

    fn bits(&self) -> u16 {
        self.0
    }

    fn from_bits_retain(bits: u16) -> Kinds {
        Kinds(bits)
    }
}

impl Kinds {
    pub const ALL: Kinds = Kinds(1023);

    /// All but note off, note on and polyphonic pressure.
    pub(crate) const WITHOUT_NOTE: Kinds = Kinds(1016);

    /// Whether each of its bits is of a kind.
    pub(crate) fn are_known(&self) -> bool
        ensures { result ≡ nat_le self.now.0 1023 }
    {
        !self.contains_unknown_bits()
    }

    /// The set of this kind alone.
    pub(crate) fn of(kind: Kind) -> Kinds
        ensures { result.0 ≡ kind_bit kind }
    {
        match kind {
            Kind::NoteOff => Kinds::NOTE_OFF,
            Kind::NoteOn => Kinds::NOTE_ON,
            Kind::PolyPressure => Kinds::POLY_PRESSURE,
            Kind::ControlChange => Kinds::CONTROL_CHANGE,
            Kind::ProgramChange => Kinds::PROGRAM_CHANGE,
            Kind::ChannelPressure => Kinds::CHANNEL_PRESSURE,
            Kind::PitchBend => Kinds::PITCH_BEND,
            Kind::SystemCommon => Kinds::SYSTEM_COMMON,
            Kind::RealTime => Kinds::REAL_TIME,
            Kind::Exclusive => Kinds::EXCLUSIVE,
        }
    }
}
