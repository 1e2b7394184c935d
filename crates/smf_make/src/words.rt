//! The words of a line, one after another.

ghost use Rattle.std.specs.Prelude.{◌≡◌, ◌≤◌, ◌<◌, ◌∷◌, [], length, IfSome, IfNone};
ghost use Rattle.script_text.specs.Table.{no_more};
ghost use Rattle.script_text.specs.Words.{words};
ghost use Rattle.smf_make.specs.SaidEvents.{unindented, behind_word, is_passed_over};

use script_text::word_len;

/// What stands behind the blanks at the front.
pub(crate) fn unindented(line: &[u8]) -> &[u8]
    ensures value { result.now ≡ unindented line.now }
    ensures within { length result.now ≤ length line.now }
{
    let mut left = line;
    while let [b' ' | b'\t', rest @ ..] = left {
        left = rest;
    }
    left
}

/// The first word, and what stands behind it.
pub(crate) fn split_word(line: &[u8]) -> Option<(&[u8], &[u8])>
    ensures some { IfSome result (λ w. words line.now ≡ w.0.now ∷ words w.1.now) }
    ensures behind { IfSome result (λ w. w.1.now ≡ behind_word line.now) }
    ensures shorter { IfSome result (λ w. length w.1.now < length line.now) }
    ensures none { IfNone result (words line.now ≡ []) }
{
    let text = unindented(line);
    if text.is_empty() {
        return None;
    }
    Some(text.split_at(word_len(text)))
}

/// Whether there is no word.
pub(crate) fn is_wordless(text: &[u8]) -> bool
    ensures { result ≡ no_more (words text.now) }
{
    unindented(text).is_empty()
}

/// Whether a line has no words, or is a remark.
pub(crate) fn is_passed_over(line: &[u8]) -> bool
    ensures { result ≡ is_passed_over line.now }
{
    // Most lines begin with a tick.
    if let [b'0'..=b'9', ..] = line {
        return false;
    }
    match split_word(line) {
        Some(([b'#', ..], _)) | None => true,
        Some(_) => false,
    }
}
