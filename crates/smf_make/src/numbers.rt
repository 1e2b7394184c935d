//! Numbers and bytes that words say.

ghost use Rattle.std.specs.Prelude.{◌≡◌, ◌≤◌, ◌∷◌, [], length, take, replicate, true, Some, None, IfSome, IfOk, IsErrOf};
ghost use Rattle.std.specs.List.{list_all, position_or_len};
ghost use Rattle.std.specs.Option.{option_map};
ghost use Rattle.script_text.specs.Numbers as says;
ghost use Rattle.script_text.specs.Table.{word_as};
ghost use Rattle.script_text.specs.Words.{is_blank, words};
ghost use Rattle.smf_make.specs.SaidEvents.{behind_word, numbers_said, signed_said, key_said};
ghost use Rattle.smf_make.specs.Words.{only_number};

use crate::unsaid::Unsaid;
use crate::words::split_word;
use byteorder::{BigEndian, ByteOrder};
use script_text::{hex_byte, is_blank, number_of, up_to};
use std::alloc::Global;

/// The number that the only word says, where it is not greater.
fn only_number(text: &[u8], most: u64) -> Option<u64>
    ensures { result ≡ only_number most (words text.now) }
{
    let (word, rest) = split_word(text)?;
    if split_word(rest).is_some() {
        return None;
    }
    up_to(word, most)
}

/// The number at the front and how many digits it has, where a word of 1 to 19 digits stands there. So many fit.
// Looking for the word's end first would take two passes over the digits.
#[inline]
fn front_number(line: &[u8]) -> Option<(u64, usize)>
    ensures value { IfSome result (λ n. says.u64 (take n.1 line.now) ≡ Some n.0) }
    ensures digits { IfSome result (λ n. list_all says.is_digit (take n.1 line.now) ≡ true) }
    ensures whole { IfSome result (λ n. n.1 ≡ position_or_len is_blank line.now) }
    ensures within { IfSome result (λ n. n.1 ≤ length line.now) }
    ensures some { IfSome result (λ n. 1 ≤ n.1) }
{
    let most = line.len().min(19);
    let mut value = 0;
    let mut n = 0;
    while n < most && line[n] >= b'0' && line[n] <= b'9' {
        value = value * 10 + u64::from(line[n] - b'0');
        n += 1;
    }
    if n == 0 || (n < line.len() && !is_blank(line[n])) {
        return None;
    }
    Some((value, n))
}

/// The number that the first word says, and what stands behind it.
#[inline]
pub(crate) fn number_said(line: &[u8]) -> Option<(u64, &[u8])>
    ensures said { option_map (λ n. (n.0, words n.1.now)) result
        ≡ word_as says.u64 (words line.now) }
    ensures behind { IfSome result (λ n. n.1.now ≡ behind_word line.now) }
{
    match front_number(line) {
        Some((value, len)) => Some((value, &line[len..])),
        None => parted_number(line),
    }
}

/// The same, wherever the word stands: most lines begin with it.
#[inline(never)]
fn parted_number(line: &[u8]) -> Option<(u64, &[u8])>
    ensures said { option_map (λ n. (n.0, words n.1.now)) result
        ≡ word_as says.u64 (words line.now) }
    ensures behind { IfSome result (λ n. n.1.now ≡ behind_word line.now) }
{
    let (word, rest) = split_word(line)?;
    let number = number_of(word)?;
    Some((number, rest))
}

/// The byte that the first word says, and what stands behind it, where one space stands before the word and one or
/// nothing behind it.
#[inline]
fn spaced_byte(text: &[u8]) -> Option<(u8, &[u8])>
    ensures { IfSome result (λ b.
        word_as says.hex_byte (words text.now) ≡ Some (b.0, words b.1.now)) }
{
    if let [b' ', high, low, rest @ ..] = text {
        if let [] | [b' ', ..] = rest {
            let byte = hex_byte(&[*high, *low])?;
            return Some((byte, rest));
        }
    }
    None
}

/// The byte that the first word says, and what stands behind it.
#[inline]
pub(crate) fn byte_said(text: &[u8]) -> Option<(u8, &[u8])>
    ensures { option_map (λ b. (b.0, words b.1.now)) result
        ≡ word_as says.hex_byte (words text.now) }
{
    match spaced_byte(text) {
        Some(said) => Some(said),
        None => parted_byte(text),
    }
}

/// The same, whatever blanks part the words: those of most lines are parted by single spaces.
#[inline(never)]
fn parted_byte(text: &[u8]) -> Option<(u8, &[u8])>
    ensures { option_map (λ b. (b.0, words b.1.now)) result
        ≡ word_as says.hex_byte (words text.now) }
{
    let (word, rest) = split_word(text)?;
    let byte = hex_byte(word)?;
    Some((byte, rest))
}

/// The bytes that all words say.
pub(crate) fn hex_bytes(alloc: Global, text: &[u8]) -> Result<Vec<u8>, Unsaid>
    ensures ok { IfOk result (λ x. says.hex_bytes (words text.now) ≡ Some x.items) }
    ensures err { IsErrOf result Unsaid.Nothing → says.hex_bytes (words text.now) ≡ None }
{
    let mut bytes = Vec::new(alloc);
    let mut left = text;
    while let Some((word, rest)) = split_word(left) {
        let byte = hex_byte(word).ok_or(Unsaid::Nothing)?;
        bytes.push(byte)?;
        left = rest;
    }
    Ok(bytes)
}

/// The two bytes of a number, the highest first.
pub(crate) fn two_bytes(alloc: Global, text: &[u8]) -> Result<Vec<u8>, Unsaid>
    ensures ok { IfOk result (λ x. numbers_said (2 ∷ []) (words text.now) ≡ Some x.items) }
    ensures err { IsErrOf result Unsaid.Nothing → numbers_said (2 ∷ []) (words text.now) ≡ None }
{
    let number = only_number(text, 0xFFFF).ok_or(Unsaid::Nothing)?;
    let mut bytes = [0; 2];
    BigEndian::write_u16(&mut bytes, number as u16);
    Ok(Vec::from_slice(alloc, &bytes)?)
}

/// The three bytes of a number, the highest first.
pub(crate) fn three_bytes(alloc: Global, text: &[u8]) -> Result<Vec<u8>, Unsaid>
    ensures ok { IfOk result (λ x. numbers_said (3 ∷ []) (words text.now) ≡ Some x.items) }
    ensures err { IsErrOf result Unsaid.Nothing → numbers_said (3 ∷ []) (words text.now) ≡ None }
{
    let number = only_number(text, 0xFF_FFFF).ok_or(Unsaid::Nothing)?;
    let mut bytes = [0; 3];
    BigEndian::write_u24(&mut bytes, number as u32);
    Ok(Vec::from_slice(alloc, &bytes)?)
}

/// So many bytes, each by a number.
pub(crate) fn each_number(alloc: Global, count: usize, text: &[u8]) -> Result<Vec<u8>, Unsaid>
    ensures ok { IfOk result
        (λ x. numbers_said (replicate count 1) (words text.now) ≡ Some x.items) }
    ensures err { IsErrOf result Unsaid.Nothing →
        numbers_said (replicate count 1) (words text.now) ≡ None }
{
    let mut bytes = Vec::new(alloc);
    let mut left = text;
    for _i in 0..count {
        let Some((word, rest)) = split_word(left) else {
            return Err(Unsaid::Nothing);
        };
        let Some(byte) = up_to(word, 0xFF) else {
            return Err(Unsaid::Nothing);
        };
        bytes.push(byte as u8)?;
        left = rest;
    }
    if split_word(left).is_some() {
        return Err(Unsaid::Nothing);
    }
    Ok(bytes)
}

/// The byte of a number from -128 to 127.
fn signed(word: &[u8]) -> Option<u8>
    ensures { result ≡ signed_said word.now }
{
    if let [b'-', digits @ ..] = word {
        let value = up_to(digits, 128)?;
        Some(((256 - value) % 256) as u8)
    } else {
        let value = up_to(word, 127)?;
        Some(value as u8)
    }
}

/// The two bytes of a key: a number from -128 to 127 and one from 0 to 255.
pub(crate) fn key_bytes(alloc: Global, text: &[u8]) -> Result<Vec<u8>, Unsaid>
    ensures ok { IfOk result (λ x. key_said (words text.now) ≡ Some x.items) }
    ensures err { IsErrOf result Unsaid.Nothing → key_said (words text.now) ≡ None }
{
    let (word, rest) = split_word(text).ok_or(Unsaid::Nothing)?;
    let key = signed(word).ok_or(Unsaid::Nothing)?;
    let mode = only_number(rest, 0xFF).ok_or(Unsaid::Nothing)?;
    Ok(Vec::from_slice(alloc, &[key, mode as u8])?)
}
