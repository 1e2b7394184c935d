//! The words of meta events, and the shapes of their bytes.

ghost use Rattle.std.specs.Prelude.{◌≡◌, ◌==◌};
ghost use Rattle.std.specs.Map.{lookup};
ghost use Rattle.smf_text.specs.AllTexts.{meta_words, fits};
ghost use Rattle.smf_text.specs.Words.{shape_seen, word_seen};

/// How the bytes of a meta event are written.
#[derive(Clone, Copy)]
pub(crate) enum MetaShape {
    /// Between quotation marks.
    Quoted,
    /// As a number of two bytes.
    Two,
    /// As a number of three bytes.
    Three,
    /// As a number for each byte, of which there are so many.
    Each(usize),
    /// As sharps, or flats as a negative number, and 0 for major or 1 for minor.
    Key,
    /// In hexadecimal.
    Bytes,
}

/// The word of a type of meta events, and their shape.
#[derive(Clone, Copy)]
pub(crate) struct MetaWord {
    pub name: &'static [u8],
    pub shape: MetaShape,
}

/// A word with its shape.
fn word(name: &'static [u8], shape: MetaShape) -> Option<MetaWord>
    ensures { result ≡ Some (record { name = name.entry; shape = shape }) }
{
    Some(MetaWord { name, shape })
}

/// The word of a type, where it has one.
#[tactic(auto, unfolding(crate::specs::AllTexts::meta_words))]
pub(crate) fn word_of(kind: u8) -> Option<MetaWord>
    ensures { word_seen result ≡ lookup (λ k. k == kind) meta_words }
{
    match kind {
        0 => word(b"sequence", MetaShape::Two),
        1 => word(b"text", MetaShape::Quoted),
        2 => word(b"copyright", MetaShape::Quoted),
        3 => word(b"name", MetaShape::Quoted),
        4 => word(b"instrument", MetaShape::Quoted),
        5 => word(b"lyric", MetaShape::Quoted),
        6 => word(b"marker", MetaShape::Quoted),
        7 => word(b"cue", MetaShape::Quoted),
        8 => word(b"program", MetaShape::Quoted),
        9 => word(b"device", MetaShape::Quoted),
        0x20 => word(b"channel", MetaShape::Each(1)),
        0x21 => word(b"port", MetaShape::Each(1)),
        0x2F => word(b"end", MetaShape::Each(0)),
        0x51 => word(b"tempo", MetaShape::Three),
        0x54 => word(b"smpte", MetaShape::Each(5)),
        0x58 => word(b"time", MetaShape::Each(4)),
        0x59 => word(b"key", MetaShape::Key),
        0x7F => word(b"sequencer", MetaShape::Bytes),
        _ => None,
    }
}

impl MetaShape {
    /// Whether it can have so many bytes.
    pub(crate) fn fits(&self, count: usize) -> bool
        ensures { result ≡ fits (shape_seen self.now) count }
    {
        match self {
            MetaShape::Quoted => true,
            MetaShape::Two => count == 2,
            MetaShape::Three => count == 3,
            MetaShape::Each(numbers) => count == *numbers,
            MetaShape::Key => count == 2,
            MetaShape::Bytes => true,
        }
    }
}
