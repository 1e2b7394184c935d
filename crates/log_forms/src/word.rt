//! The words of a line.

ghost use Rattle.std.specs.Prelude.{◌≡◌, ◌≤◌, ◌∷◌, [], length, IfSome, IfNone};
ghost use Rattle.std.specs.List.{list_all, position, position_or_len};
ghost use Rattle.log_forms.specs.Lines.{is_space, words, is_number, is_plain, is_digit, is_plain_byte, is_none_left};

use std::marker::Model;

fn first_space(text: &[u8]) -> Option<usize>
    ensures { result ≡ position is_space text.now }
{
    text.iter().position(|b| *b == b' ')
}

/// How many bytes stand before the first space.
fn word_len(text: &[u8]) -> usize
    ensures value { result ≡ position_or_len is_space text.now }
    ensures within { result ≤ length text.now }
{
    first_space(text).unwrap_or(text.len())
}

/// The words of a line that are left.
#[derive(Drop)]
pub(crate) struct Words<'b> {
    // None behind the last word: an empty text has an empty word.
    rest: Option<&'b [u8]>,
}

impl<'b> Model for Words<'b> {
    ghost use Rattle.std.specs.Prelude.{List, ℕ};
    ghost use Rattle.log_forms.specs.Kept.{words_left};

    ghost Value = { List (List ℕ) };

    ghost view = { λ w. words_left w.rest };
}

impl<'b> Words<'b> {
    pub(crate) fn new(line: &'b [u8]) -> Words<'b>
        ensures { result ≡ words line.now }
    {
        Words { rest: Some(line) }
    }

    /// The next word.
    pub(crate) fn word(&mut self) -> Option<&'b [u8]>
        ensures some { IfSome result (λ w. self.old ≡ w.now ∷ self.new) }
        ensures none { IfNone result (self.old ≡ []) }
    {
        let line = self.rest?;
        let end = word_len(line);
        self.rest = if end < line.len() {
            Some(&line[end + 1..])
        } else {
            None
        };
        Some(&line[..end])
    }

    /// The text of the words that are left.
    pub(crate) fn text(&self) -> Option<&'b [u8]>
        ensures some { IfSome result (λ t. self.now ≡ words t.now) }
        ensures none { IfNone result (self.now ≡ []) }
    {
        self.rest
    }

    /// Whether no word is left.
    pub(crate) fn is_done(&self) -> bool
        ensures { result ≡ is_none_left self.now }
    {
        self.rest.is_none()
    }
}

fn is_digit(byte: u8) -> bool
    ensures { result ≡ is_digit byte }
{
    byte >= b'0' && byte <= b'9'
}

fn are_digits(word: &[u8]) -> bool
    ensures { result ≡ list_all is_digit word.now }
{
    word.iter().all(|b| is_digit(*b))
}

/// Whether a word is a decimal number without zeros in front.
pub(crate) fn is_number(word: &[u8]) -> bool
    ensures { result ≡ is_number word.now }
{
    match word {
        [] => false,
        [digit] => is_digit(*digit),
        [first, ..] => *first != b'0' && are_digits(word),
    }
}

fn is_plain_byte(byte: u8) -> bool
    ensures { result ≡ is_plain_byte byte }
{
    is_digit(byte) || byte >= b'A' && byte <= b'Z' || byte >= b'a' && byte <= b'z' || byte == b'-'
}

/// Whether a word needs no escape and no quotes.
pub(crate) fn is_plain(word: &[u8]) -> bool
    ensures { result ≡ is_plain word.now }
{
    word.iter().all(|b| is_plain_byte(*b))
}
