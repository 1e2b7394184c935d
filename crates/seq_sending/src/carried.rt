//! Messages on their way through filters.

ghost use Rattle.std.specs.Prelude.{◌≡◌, ℕ, List, true, IfOk};
ghost use Rattle.std.specs.Option.{option_copied, option_map};
ghost use Rattle.seq_sending.specs.Carrying.{let_through};

use memory::OutOfMemory;
use midi_wire::Message;
use route_filter::{Rule, VoiceMessage};

/// A message on its way through filters, seen as its full bytes.
pub trait Carried: Sized {
    ghost bytes: { Self → List ℕ };

    /// The same once more.
    fn once_more(&self) -> Result<Self, OutOfMemory>
        ensures { IfOk result (λ m. bytes m ≡ bytes self.now) };

    /// What a rule lets through of it, and all where there is no rule.
    fn through(self, rule: Option<&Rule>) -> Option<Self>
        ensures { option_map bytes result ≡ let_through (option_copied rule.entry) (bytes self) };

    /// Whether it is the same message as another.
    fn is_same(&self, other: &Self) -> bool
        ensures { result ≡ true → bytes self.now ≡ bytes other.now };

    /// A number below `FORMS` that tells it from what else its message becomes. Nothing rests on it but speed.
    fn form(&self) -> usize;

    /// The message that comes to a port.
    fn into_message(self) -> Message
        ensures { result ≡ bytes self };
}

impl Carried for VoiceMessage {
    ghost bytes = { λ m. m };

    #[inline]
    fn once_more(&self) -> Result<VoiceMessage, OutOfMemory> {
        Ok(self.duplicate())
    }

    #[inline]
    fn through(self, rule: Option<&Rule>) -> Option<VoiceMessage> {
        match rule {
            Some(rule) => rule.pass_voice(self),
            None => Some(self),
        }
    }

    #[inline]
    fn is_same(&self, other: &VoiceMessage) -> bool {
        VoiceMessage::is_same(self, other)
    }

    #[inline]
    fn form(&self) -> usize {
        VoiceMessage::form(self)
    }

    #[inline]
    fn into_message(self) -> Message {
        self.message()
    }
}

impl Carried for Message {
    ghost bytes = { λ m. m };

    fn once_more(&self) -> Result<Message, OutOfMemory> {
        self.duplicate()
    }

    fn through(self, rule: Option<&Rule>) -> Option<Message> {
        match rule {
            Some(rule) => rule.pass(self),
            None => Some(self),
        }
    }

    fn is_same(&self, other: &Message) -> bool {
        self == other
    }

    // No filter changes it.
    fn form(&self) -> usize {
        0
    }

    fn into_message(self) -> Message {
        self
    }
}
