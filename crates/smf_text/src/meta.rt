//! Meta events as text.

ghost use Rattle.std.specs.Prelude.{◌≡◌, ◌++◌, length, IsTrue, OnOk};
ghost use Rattle.smf_text.specs.AllTexts.{fits, shape_text, plain_meta, meta_text};
ghost use Rattle.smf_text.specs.Words.{shape_seen};

use crate::numbers::{push_each, push_key, push_number};
use crate::quoting::push_quoted;
use crate::words::{MetaShape, word_of};
use byteorder::{BigEndian, ByteOrder};
use memory::OutOfMemory;
use text_forms::{hex_of, push_spaced};

/// Adds the bytes of a meta event that can have this shape.
fn push_shaped(shape: MetaShape, payload: &[u8], text: &mut Vec<u8>) -> Result<(), OutOfMemory>
    requires { IsTrue (fits (shape_seen shape) (length payload.now)) }
    ensures { OnOk result (text.new.items
        ≡ text.old.items ++ shape_text (shape_seen shape) payload.now) }
{
    match shape {
        MetaShape::Quoted => {
            text.push(b' ')?;
            push_quoted(payload, text)
        }
        MetaShape::Two => push_number(BigEndian::read_u16(payload) as u64, text),
        MetaShape::Three => push_number(BigEndian::read_u24(payload) as u64, text),
        MetaShape::Each(_) => push_each(payload, text),
        MetaShape::Key => push_key(payload, text),
        MetaShape::Bytes => push_spaced(text, payload),
    }
}

/// Adds a meta event by its type.
fn push_plain(kind: u8, payload: &[u8], text: &mut Vec<u8>) -> Result<(), OutOfMemory>
    ensures { OnOk result (text.new.items ≡ text.old.items ++ plain_meta kind payload.now) }
{
    text.extend_from_slice(b"meta ")?;
    text.extend_from_slice(&hex_of(kind))?;
    push_spaced(text, payload)
}

/// Adds a meta event: by its word where its type has one and its bytes have that shape, by its type otherwise.
pub(crate) fn push_meta(kind: u8, payload: &[u8], text: &mut Vec<u8>) -> Result<(), OutOfMemory>
    ensures { OnOk result (text.new.items ≡ text.old.items ++ meta_text kind payload.now) }
{
    let Some(word) = word_of(kind) else {
        return push_plain(kind, payload, text);
    };
    if !word.shape.fits(payload.len()) {
        return push_plain(kind, payload, text);
    }
    text.extend_from_slice(word.name)?;
    push_shaped(word.shape, payload, text)
}
