//! What a rule is made of.

ghost use Rattle.std.specs.Prelude.{◌≡◌, ◌≤◌, ◌<◌};
ghost use Rattle.midi_wire.specs.Kinds.{channels, kind_of_status};
ghost use Rattle.route_filter.specs.Rules.{has_kind, has_channel, is_rule};

use crate::kinds::Kinds;
use bitflags::Flags;
use midi_wire::{CHANNELS, Kind};

/// What a filter rule says.
#[derive(Clone, Copy, Debug, PartialEq, Eq)]
pub struct RuleArgs {
    /// The channels it takes messages of: bit n for channel n, counted from 0.
    pub channels: u16,
    /// The kinds that it takes.
    pub kinds: Kinds,
    /// The lowest note that it takes, before the shift.
    pub low: u8,
    /// The highest note that it takes, before the shift.
    pub high: u8,
    /// How many semitones it raises a note by, -127 to 127.
    pub shift: i16,
    /// The channel, 0 to 15, that it gives to the channel messages which it lets pass.
    pub channel: Option<u8>,
}

impl RuleArgs {
    /// Whether they make a rule.
    pub fn is_rule(&self) -> bool
        ensures { result ≡ is_rule self.now }
    {
        self.kinds.are_known()
            && self.low <= self.high
            && self.high <= 127
            && self.shift.unsigned_abs() <= 127
            && self.channel.unwrap_or(0) < CHANNELS
    }

    /// Whether the kind is in the set of kinds.
    pub(crate) fn has_kind(&self, kind: Kind) -> bool
        ensures { result ≡ has_kind self.now.kinds.0 kind }
    {
        self.kinds.contains(Kinds::of(kind))
    }

    /// Whether the kind of a channel message with this status is in the set of kinds.
    #[inline]
    pub(crate) fn has_voice_kind(&self, status: u8) -> bool
        requires least { 128 ≤ status }
        requires most { status < 240 }
        ensures { result ≡ has_kind self.now.kinds.0 (kind_of_status status) }
    {
        // The bits of these kinds stand in the order of their statuses, 8n to En.
        self.kinds.0 & (1 << (status / 16 - 8)) != 0
    }

    /// Whether the channel is in the mask of channels.
    #[inline]
    pub(crate) fn has_channel(&self, channel: u8) -> bool
        requires { channel < channels }
        ensures { result ≡ has_channel self.now.channels channel }
    {
        self.channels & (1 << channel) != 0
    }
}
