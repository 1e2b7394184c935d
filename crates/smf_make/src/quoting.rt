//! Bytes between quotation marks.

ghost use Rattle.std.specs.Prelude.{◌≡◌, ◌<◌, ◌∷◌, [], length, if◌then◌else◌, Some, None, IfSome, IfNone, IfOk, IsErrOf};
ghost use Rattle.std.specs.Option.{option_map};
ghost use Rattle.smf_make.specs.SaidEvents.{Whole, Escaping, quoted_from, quoted_said};
ghost use Rattle.smf_make.specs.Words.{closes, mark_closed};

use crate::unsaid::Unsaid;
use crate::words::unindented;
use script_text::hex_byte;
use std::alloc::Global;

/// Whether nothing but blanks is there.
fn is_blank_only(text: &[u8]) -> bool
    ensures { result ≡ closes text.now }
{
    unindented(text).is_empty()
}

/// The byte that an `x` and two digits say, and what stands behind them.
fn escaped_byte(text: &[u8]) -> Option<(u8, &[u8])>
    ensures some { IfSome result (λ b. quoted_from Escaping text.now
        ≡ option_map (λ more. b.0 ∷ more) (quoted_from Whole b.1.now)) }
    ensures shorter { IfSome result (λ b. length b.1.now < length text.now) }
    ensures none { IfNone result (quoted_from Escaping text.now ≡ None) }
{
    if text.len() < 3 || text[0] != b'x' {
        return None;
    }
    let byte = hex_byte(&text[1..3])?;
    Some((byte, &text[3..]))
}

/// The byte that is said first, and what stands behind it.
fn first_byte(text: &[u8]) -> Option<(u8, &[u8])>
    ensures some { IfSome result (λ b. quoted_from Whole text.now
        ≡ option_map (λ more. b.0 ∷ more) (quoted_from Whole b.1.now)) }
    ensures shorter { IfSome result (λ b. length b.1.now < length text.now) }
    ensures none { IfNone result (quoted_from Whole text.now ≡ mark_closed text.now) }
{
    if text.is_empty() || text[0] == b'"' {
        return None;
    }
    if text[0] == b'\\' {
        return escaped_byte(&text[1..]);
    }
    Some((text[0], &text[1..]))
}

/// Whether a quotation mark stands there, and nothing but blanks behind it.
fn is_closed(text: &[u8]) -> bool
    ensures { mark_closed text.now ≡ (if result then Some [] else None) }
{
    let [b'"', rest @ ..] = text else {
        return false;
    };
    is_blank_only(rest)
}

/// The bytes that are said up to a quotation mark, behind which are only blanks.
fn up_to_mark(alloc: Global, text: &[u8]) -> Result<Vec<u8>, Unsaid>
    ensures ok { IfOk result (λ x. quoted_from Whole text.now ≡ Some x.items) }
    ensures err { IsErrOf result Unsaid.Nothing → quoted_from Whole text.now ≡ None }
{
    let mut bytes = Vec::new(alloc);
    let mut left = text;
    while let Some((byte, rest)) = first_byte(left) {
        bytes.push(byte)?;
        left = rest;
    }
    if !is_closed(left) {
        return Err(Unsaid::Nothing);
    }
    Ok(bytes)
}

/// The bytes between two quotation marks, which blanks may surround.
pub(crate) fn quoted_bytes(alloc: Global, text: &[u8]) -> Result<Vec<u8>, Unsaid>
    ensures ok { IfOk result (λ x. quoted_said text.now ≡ Some x.items) }
    ensures err { IsErrOf result Unsaid.Nothing → quoted_said text.now ≡ None }
{
    match unindented(text) {
        [b'"', rest @ ..] => up_to_mark(alloc, rest),
        _ => Err(Unsaid::Nothing),
    }
}
