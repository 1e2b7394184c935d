//! What two filter rules make together, the one after the other.

ghost use Rattle.std.specs.Prelude.{◌≡◌, ◌≤◌, ◌<◌, ◌&&◌, ℕ, List, None, unwrap_or, option_and_then, unsigned_abs, IsTrue, IfSome, IfNone};
ghost use Rattle.midi_wire.specs.Kinds.{channels};
ghost use Rattle.midi_wire.specs.Messages.{IsMessage};
ghost use Rattle.route_filter.specs.Rules.{has_channel, is_channel_choice, is_rule};
ghost use Rattle.route_filter.specs.Passing.{rule_output};
ghost use Rattle.route_filter.specs.Chains.{note_after, moved_twice};

use crate::kinds::Kinds;
use crate::rule_args::RuleArgs;
use bitflags::Flags;

/// The notes from the lowest to the highest, raised by this many semitones.
#[derive(Clone, Copy)]
struct RaisedNotes {
    low: u8,
    high: u8,
    shift: i16,
}

impl RuleArgs {
    /// The rule that makes of each message what `next` makes of what this one lets through.
    pub(crate) fn then(&self, next: &RuleArgs) -> RuleArgs
        requires first { IsTrue (is_rule self.now) }
        requires second { IsTrue (is_rule next.now) }
        ensures rule { IsTrue (is_rule result) }
        ensures passed { (m : List ℕ) → IsMessage m
            → rule_output result m ≡ option_and_then (rule_output next.now) (rule_output self.now m) }
    {
        let channels = self.channels_then(next);
        let kinds = self.kinds.intersection(next.kinds);
        let channel = next.channel.or(self.channel);
        match self.notes_then(next) {
            Some(notes) => RuleArgs {
                channels,
                kinds,
                low: notes.low,
                high: notes.high,
                shift: notes.shift,
                channel,
            },
            // A range has a note at least, so the kinds with notes have to go.
            None => RuleArgs {
                channels,
                kinds: kinds.intersection(Kinds::WITHOUT_NOTE),
                low: 0,
                high: 127,
                shift: 0,
                channel,
            },
        }
    }

    /// The channels whose messages both take, this rule having given them its channel before `next` sees them.
    fn channels_then(&self, next: &RuleArgs) -> u16
        requires { IsTrue (is_channel_choice self.now.channel) }
        ensures { (n : ℕ) → n < channels → has_channel result n
            ≡ (has_channel self.now.channels n
            && has_channel next.now.channels (unwrap_or self.now.channel n)) }
    {
        let Some(channel) = self.channel else {
            return self.channels & next.channels;
        };
        if !next.has_channel(channel) {
            return 0;
        }
        self.channels
    }

    /// The notes that both take, `next` after the shift of this one; nothing, where no note passes both.
    fn notes_then(&self, next: &RuleArgs) -> Option<RaisedNotes>
        requires first { IsTrue (is_rule self.now) }
        requires second { IsTrue (is_rule next.now) }
        ensures range { IfSome result (λ r. (r.low ≤ r.high) × (r.high ≤ 127)) }
        ensures shift { IfSome result (λ r. unsigned_abs r.shift ≤ 127) }
        ensures both { IfSome result (λ r. (n : ℕ) →
            note_after r.low r.high r.shift n ≡ moved_twice self.now next.now n) }
        ensures none { IfNone result ((n : ℕ) → moved_twice self.now next.now n ≡ None) }
    {
        let low = i16::from(self.low).max(i16::from(next.low) - self.shift);
        let high = i16::from(self.high).min(i16::from(next.high) - self.shift);
        let shift = self.shift + next.shift;
        if low > high || shift.unsigned_abs() > 127 {
            return None;
        }
        Some(RaisedNotes {
            low: low as u8,
            high: high as u8,
            shift,
        })
    }
}
