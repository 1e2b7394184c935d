//! What words of commands have to be.

ghost use Rattle.std.specs.Prelude.{◌≡◌};
ghost use Rattle.script_text.specs.LineFaults.{says};

use crate::address::{addr_of, due_of, hex_byte, queue_of};
use crate::number::{caps_of, port_of, queue_no_of, shift_of, u8_of, u16_of, u32_of};
use std::fmt;

/// What a word of a command has to be.
#[derive(Clone, Copy, Debug, PartialEq, Eq)]
pub enum WordKind {
    /// Any word.
    Name,
    Number8,
    Number16,
    Number32,
    /// A number of semitones.
    Shift,
    /// The number of a port or of a filter.
    NodeNumber,
    QueueNumber,
    /// A sum of capabilities.
    Caps,
    /// Two hexadecimal digits.
    Byte,
    /// The address of a node.
    Address,
    /// The address of a queue.
    Queue,
    Due,
    /// The name of a file: any word.
    File,
}

impl WordKind {
    /// Whether a word is of this kind.
    pub(crate) fn is_said_by(self, word: &[u8]) -> bool
        ensures { result ≡ says self word.now }
    {
        match self {
            WordKind::Name | WordKind::File => true,
            WordKind::Number8 => u8_of(word).is_some(),
            WordKind::Number16 => u16_of(word).is_some(),
            WordKind::Number32 => u32_of(word).is_some(),
            WordKind::Shift => shift_of(word).is_some(),
            WordKind::NodeNumber => port_of(word).is_some(),
            WordKind::QueueNumber => queue_no_of(word).is_some(),
            WordKind::Caps => caps_of(word).is_some(),
            WordKind::Byte => hex_byte(word).is_some(),
            WordKind::Address => addr_of(word).is_some(),
            WordKind::Queue => queue_of(word).is_some(),
            WordKind::Due => due_of(word).is_some(),
        }
    }
}

impl fmt::Display for WordKind {
    ghost use Rattle.std.specs.Prelude.{Some};
    ghost use Rattle.script_text.specs.LineFaults.{kind_text};

    ghost output = { λ kind. Some (kind_text kind) };

    fn fmt<W: fmt::Write>(&self, f: &mut fmt::Formatter<W>) -> fmt::Result {
        f.write_str(match self {
            WordKind::Name => "a name",
            WordKind::Number8 => "a number up to 255",
            WordKind::Number16 => "a number up to 65535",
            WordKind::Number32 => "a number up to 4294967295",
            WordKind::Shift => "a shift in semitones (as -12)",
            WordKind::NodeNumber => "a port or filter number 0 to 15",
            WordKind::QueueNumber => "a queue number 0 to 7",
            WordKind::Caps => "a sum of capabilities (as 33)",
            WordKind::Byte => "a byte (as 3C)",
            WordKind::Address => "a node (as 128:p0)",
            WordKind::Queue => "a queue (as 128:q0)",
            WordKind::Due => "a due time (as t480, t+480, n100 or n+100)",
            WordKind::File => "a file",
        })
    }
}
