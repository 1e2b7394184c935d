//! Filter rules.

ghost use Rattle.std.specs.Prelude.{◌≡◌, ℕ, List, IsTrue, Some, None, option_and_then, if◌then◌else◌};
ghost use Rattle.midi_wire.specs.Messages.{IsMessage};
ghost use Rattle.midi_wire.specs.Kinds.{kind_of_status};
ghost use Rattle.route_filter.specs.Rules.{is_rule};
ghost use Rattle.route_filter.specs.Passing.{has_note, rule_output};
ghost use Rattle.route_filter.specs.VoiceBytes.{first_byte_after};

use crate::rule_args::RuleArgs;
use crate::voice::VoiceMessage;
use midi_wire::{CHANNELS, CONTROL_CHANGE, Message};
use std::marker::Model;

/// A filter rule: which messages pass, and how they are changed. It is seen as its arguments.
#[derive(Clone, Copy, Debug, PartialEq, Eq)]
pub struct Rule {
    args: RuleArgs,
}

impl Model for Rule {
    ghost use Rattle.std.specs.Prelude.{IsTrue};
    ghost use Rattle.route_filter.specs.declared.rule_args.RuleArgs.{RuleArgs};
    ghost use Rattle.route_filter.specs.Rules.{is_rule};

    ghost Value = { RuleArgs };

    ghost view = { λ r. r.args };

    ghost invariant = { λ r. IsTrue (is_rule r.args) };

    ghost inverse = { λ args. record { args = args } };
}

impl Rule {
    /// The rule with these arguments, if they make one. A rule may take no channel and no kind at all.
    pub fn new(args: RuleArgs) -> Option<Rule>
        ensures { result ≡ (if is_rule args then Some args else None) }
    {
        if !args.is_rule() {
            return None;
        }
        Some(Rule { args })
    }

    /// The arguments that it was made of.
    pub fn args(&self) -> RuleArgs
        ensures value { result ≡ self.now }
        ensures rule { IsTrue (is_rule self.now) }
    {
        self.args
    }

    /// What it makes of a message: nothing, where the message does not pass.
    ///
    /// A message is tested by its own channel and note, before it gets others (MIDI 1.0 Detailed Specification,
    /// "Channel Voice Messages"). A system message has neither.
    pub fn pass(&self, message: Message) -> Option<Message>
        ensures { result ≡ rule_output self.now message }
    {
        if let Some(voice) = VoiceMessage::of(&message) {
            let passed = self.pass_voice(voice)?;
            return Some(passed.message());
        }
        if !self.args.has_kind(message.kind()) {
            return None;
        }
        Some(message)
    }

    /// The rule that makes of each message what `next` makes of what this one lets through.
    pub fn then(&self, next: &Rule) -> Rule
        ensures { (m : List ℕ) → IsMessage m
            → rule_output result m ≡ option_and_then (rule_output next.now) (rule_output self.now m) }
    {
        Rule {
            args: self.args.then(&next.args),
        }
    }

    /// What it makes of a channel message, as `pass` does.
    #[inline]
    pub fn pass_voice(&self, voice: VoiceMessage) -> Option<VoiceMessage>
        ensures { result ≡ rule_output self.now voice }
    {
        let status = voice.status;
        let channel = status % CHANNELS;
        if !self.args.has_voice_kind(status) {
            return None;
        }
        if !self.args.has_channel(channel) {
            return None;
        }
        let first = self.moved(has_note(status), voice.first)?;
        Some(VoiceMessage {
            status: status - channel + self.args.channel.unwrap_or(channel),
            first,
            second: voice.second,
        })
    }

    /// Where the first data byte of a channel message goes. A note in the range is shifted, if that leaves a note.
    #[inline]
    fn moved(&self, is_note: bool, first: u8) -> Option<u8>
        ensures { result ≡ first_byte_after self.now is_note first }
    {
        if !is_note {
            return Some(first);
        }
        if first < self.args.low || first > self.args.high {
            return None;
        }
        let shifted = i16::from(first) + self.args.shift;
        if !(0..=127).contains(&shifted) {
            return None;
        }
        Some(shifted as u8)
    }
}

/// Whether the first data byte of such a channel message is a note: note off, note on and polyphonic pressure, 8n to
/// An.
#[inline]
fn has_note(status: u8) -> bool
    ensures { result ≡ has_note (kind_of_status status) }
{
    status < CONTROL_CHANGE
}
