//! The lines of a text.

ghost use Rattle.std.specs.Prelude.{◌≡◌, ◌≤◌, ◌∷◌, [], length, IfSome, IfNone};
ghost use Rattle.std.specs.List.{position_or_len};
ghost use Rattle.log_forms.specs.Lines.{is_line_feed, lines};

use memchr::memchr;
use std::marker::Model;

/// How many bytes stand before the first line feed.
fn line_len(text: &[u8]) -> usize
    ensures value { result ≡ position_or_len is_line_feed text.now }
    ensures within { result ≤ length text.now }
{
    memchr(b'\n', text).unwrap_or(text.len())
}

/// The lines of a text that are left.
#[derive(Drop)]
pub(crate) struct Lines<'b> {
    rest: &'b [u8],
}

impl<'b> Model for Lines<'b> {
    ghost use Rattle.std.specs.Prelude.{List, ℕ};
    ghost use Rattle.log_forms.specs.Lines.{lines};

    ghost Value = { List (List ℕ) };

    ghost view = { λ l. lines l.rest.now };
}

impl<'b> Lines<'b> {
    pub(crate) fn new(text: &'b [u8]) -> Lines<'b>
        ensures { result ≡ lines text.now }
    {
        Lines { rest: text }
    }

    /// The next line, without its line feed.
    pub(crate) fn next_line(&mut self) -> Option<&'b [u8]>
        ensures some { IfSome result (λ l. self.old ≡ l.now ∷ self.new) }
        ensures none { IfNone result (self.old ≡ []) }
    {
        let text = self.rest;
        if text.is_empty() {
            return None;
        }
        let end = line_len(text);
        self.rest = if end < text.len() {
            &text[end + 1..]
        } else {
            &text[end..]
        };
        Some(&text[..end])
    }
}
