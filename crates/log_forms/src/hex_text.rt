//! Bytes in hexadecimal, as a line spells them.

ghost use Rattle.std.specs.Prelude.{◌≡◌, ◌<◌, IsTrue};
ghost use Rattle.std.specs.List.{list_all};
ghost use Rattle.text_forms.specs.Hex.{in_hex};
ghost use Rattle.log_forms.specs.Lines.{words, is_hex_digit, is_hex_byte, digit_value, byte_of, bytes_of};
ghost use Rattle.log_forms.specs.Kinds.{shape_of};

use crate::kind::Shape;
use crate::word::Words;
use midi_wire::EXCLUSIVE;
use std::marker::Model;

fn is_hex_digit(byte: u8) -> bool
    ensures { result ≡ is_hex_digit byte }
{
    byte >= b'0' && byte <= b'9' || byte >= b'A' && byte <= b'F'
}

/// Whether a word is two digits.
fn is_hex_byte(word: &[u8]) -> bool
    ensures { result ≡ is_hex_byte word.now }
{
    match word {
        [high, low] => is_hex_digit(*high) && is_hex_digit(*low),
        _ => false,
    }
}

fn digit_value(digit: u8) -> u8
    requires { IsTrue (is_hex_digit digit) }
    ensures value { result ≡ digit_value digit }
    ensures small { result < 16 }
{
    if digit < b'A' {
        digit - b'0'
    } else {
        digit - b'A' + 10
    }
}

/// The byte that a word spells.
fn byte_of(word: &[u8]) -> u8
    requires { IsTrue (is_hex_byte word.now) }
    ensures { result ≡ byte_of word.now }
{
    match word {
        [high, low] => digit_value(*high) * 16 + digit_value(*low),
        _ => 0,
    }
}

/// Bytes in hexadecimal, two digits each, with single spaces between.
#[derive(Drop)]
pub(crate) struct HexText<'b> {
    text: &'b [u8],
}

impl<'b> Model for HexText<'b> {
    ghost use Rattle.std.specs.Prelude.{List, ℕ, IsTrue, map};
    ghost use Rattle.std.specs.List.{list_all};
    ghost use Rattle.log_forms.specs.Lines.{words, is_hex_byte, byte_of};

    ghost Value = { List ℕ };

    ghost view = { λ h. map byte_of (words h.text.now) };

    ghost invariant = { λ h. IsTrue (list_all is_hex_byte (words h.text.now)) };
}

/// Whether all words are two digits.
fn are_hex_bytes(text: &[u8]) -> bool
    ensures { result ≡ list_all is_hex_byte (words text.now) }
{
    let mut words = Words::new(text);
    while let Some(word) = words.word() {
        if !is_hex_byte(word) {
            return false;
        }
    }
    true
}

impl<'b> HexText<'b> {
    /// The bytes that a text spells, if it does.
    pub(crate) fn new(text: &'b [u8]) -> Option<HexText<'b>>
        ensures { result ≡ bytes_of (words text.now) }
    {
        if are_hex_bytes(text) {
            Some(HexText { text })
        } else {
            None
        }
    }

    /// The text that spells them.
    pub(crate) fn as_text(&self) -> &'b [u8]
        ensures { result.now ≡ in_hex self.now }
    {
        self.text
    }

    pub(crate) fn shape(&self) -> Shape
        ensures { result ≡ shape_of self.now }
    {
        let mut words = Words::new(self.text);
        let Some(status) = words.word() else {
            return Shape::Other(0);
        };
        let status = byte_of(status);
        if status == EXCLUSIVE {
            return Shape::Other(status);
        }
        let Some(first) = words.word() else {
            return Shape::One(status);
        };
        let Some(second) = words.word() else {
            return Shape::Two(status, byte_of(first));
        };
        if words.is_done() {
            Shape::Three(status, byte_of(first), byte_of(second))
        } else {
            Shape::Other(status)
        }
    }
}
