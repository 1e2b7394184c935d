//! The words of meta events.

ghost use Rattle.std.specs.Prelude.{◌≡◌, Some, None, IfOk, IsErrOf};
ghost use Rattle.std.specs.Option.{option_map};
ghost use Rattle.std.specs.Str.{bytes_eq};
ghost use Rattle.smf_make.specs.SaidEvents.{type_named, shape_said};
ghost use Rattle.smf_make.specs.Words.{shape_seen, type_seen};

use crate::numbers::{each_number, hex_bytes, key_bytes, three_bytes, two_bytes};
use crate::quoting::quoted_bytes;
use crate::unsaid::Unsaid;
use std::alloc::Global;

/// How the bytes of a meta event are said.
#[derive(Clone, Copy)]
pub(crate) enum MetaShape {
    /// Between quotation marks.
    Quoted,
    /// As a number of two bytes.
    Two,
    /// As a number of three bytes.
    Three,
    /// As a number for each byte, of which there are so many.
    Each(usize),
    /// As sharps, or flats as a negative number, and 0 for major or 1 for minor.
    Key,
    /// In hexadecimal.
    Bytes,
}

/// A type of meta events, its word, and how their bytes are said.
#[derive(Clone, Copy)]
pub(crate) struct NamedType {
    pub name: &'static [u8],
    pub kind: u8,
    pub shape: MetaShape,
}

const NAMED_TYPES: [NamedType; 18] = [
    NamedType {
        name: b"sequence",
        kind: 0,
        shape: MetaShape::Two,
    },
    NamedType {
        name: b"text",
        kind: 1,
        shape: MetaShape::Quoted,
    },
    NamedType {
        name: b"copyright",
        kind: 2,
        shape: MetaShape::Quoted,
    },
    NamedType {
        name: b"name",
        kind: 3,
        shape: MetaShape::Quoted,
    },
    NamedType {
        name: b"instrument",
        kind: 4,
        shape: MetaShape::Quoted,
    },
    NamedType {
        name: b"lyric",
        kind: 5,
        shape: MetaShape::Quoted,
    },
    NamedType {
        name: b"marker",
        kind: 6,
        shape: MetaShape::Quoted,
    },
    NamedType {
        name: b"cue",
        kind: 7,
        shape: MetaShape::Quoted,
    },
    NamedType {
        name: b"program",
        kind: 8,
        shape: MetaShape::Quoted,
    },
    NamedType {
        name: b"device",
        kind: 9,
        shape: MetaShape::Quoted,
    },
    NamedType {
        name: b"channel",
        kind: 0x20,
        shape: MetaShape::Each(1),
    },
    NamedType {
        name: b"port",
        kind: 0x21,
        shape: MetaShape::Each(1),
    },
    NamedType {
        name: b"end",
        kind: 0x2F,
        shape: MetaShape::Each(0),
    },
    NamedType {
        name: b"tempo",
        kind: 0x51,
        shape: MetaShape::Three,
    },
    NamedType {
        name: b"smpte",
        kind: 0x54,
        shape: MetaShape::Each(5),
    },
    NamedType {
        name: b"time",
        kind: 0x58,
        shape: MetaShape::Each(4),
    },
    NamedType {
        name: b"key",
        kind: 0x59,
        shape: MetaShape::Key,
    },
    NamedType {
        name: b"sequencer",
        kind: 0x7F,
        shape: MetaShape::Bytes,
    },
];

/// Whether a word names the type.
fn is_named(named: &NamedType, word: &[u8]) -> bool
    ensures { result ≡ bytes_eq named.now.name.now word.now }
{
    named.name == word
}

/// The type of meta events that a word names.
#[tactic(auto, unfolding(smf_text::specs::AllTexts::meta_words))]
pub(crate) fn type_named(word: &[u8]) -> Option<NamedType>
    ensures { option_map type_seen result ≡ type_named word.now }
{
    for named in &NAMED_TYPES {
        if is_named(named, word) {
            return Some(*named);
        }
    }
    None
}

/// The bytes of a meta event of this shape.
pub(crate) fn shaped(alloc: Global, shape: MetaShape, text: &[u8]) -> Result<Vec<u8>, Unsaid>
    ensures ok { IfOk result (λ x. shape_said (shape_seen shape) text.now ≡ Some x.items) }
    ensures err { IsErrOf result Unsaid.Nothing → shape_said (shape_seen shape) text.now ≡ None }
{
    match shape {
        MetaShape::Quoted => quoted_bytes(alloc, text),
        MetaShape::Two => two_bytes(alloc, text),
        MetaShape::Three => three_bytes(alloc, text),
        MetaShape::Each(count) => each_number(alloc, count, text),
        MetaShape::Key => key_bytes(alloc, text),
        MetaShape::Bytes => hex_bytes(alloc, text),
    }
}
