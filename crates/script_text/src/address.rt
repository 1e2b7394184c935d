//! Addresses, due times and bytes in words.

ghost use Rattle.std.specs.Prelude.{◌≡◌, ◌∷◌, ◌≤◌, ◌<◌, ◌^◌, [], IfSome, IfNone, map, length};
ghost use Rattle.std.specs.List.{position, position_or_len};
ghost use Rattle.std.specs.Option.{option_map};
ghost use Rattle.std.specs.Str.{bytes_eq};
ghost use Rattle.script_text.specs.Numbers as says;
ghost use Rattle.script_text.specs.Words.{is_colon};
ghost use Rattle.script_text.specs.declared.script.TheConstants.{MOST_FILES};

use crate::number::{client_of, filter_of, number_of, port_of, queue_no_of};
use node_table::{Addr, Node, QueueAddr};
use seq_state::DueAt;

fn first_colon(word: &[u8]) -> Option<usize>
    ensures { result ≡ position is_colon word.now }
{
    word.iter().position(|b| *b == b':')
}

/// How many bytes stand before the first colon.
fn before_colon(word: &[u8]) -> usize
    ensures value { result ≡ position_or_len is_colon word.now }
    ensures within { result ≤ length word.now }
{
    first_colon(word).unwrap_or(word.len())
}

/// The part of a word up to its one colon, the letter after it, and what follows.
fn parts(word: &[u8]) -> Option<(&[u8], u8, &[u8])>
    ensures { option_map (λ p. (p.0.now, (p.1, p.2.now))) result ≡ says.parts word.now }
{
    let colon = before_colon(word);
    if word.len() - colon < 2 {
        return None;
    }
    let letter = word[colon + 1];
    let number = &word[colon + 2..];
    if letter == b':' {
        return None;
    }
    if before_colon(number) < number.len() {
        return None;
    }
    Some((&word[..colon], letter, number))
}

fn node_of(letter: u8, word: &[u8]) -> Option<Node>
    ensures { result ≡ says.node letter word.now }
{
    match letter {
        b'p' => {
            let port = port_of(word)?;
            Some(Node::Port(port))
        }
        b'f' => {
            let filter = filter_of(word)?;
            Some(Node::Filter(filter))
        }
        _ => None,
    }
}

/// The node that a word names, `128:p0` or `128:f0`.
pub(crate) fn addr_of(word: &[u8]) -> Option<Addr>
    ensures { result ≡ says.addr word.now }
{
    let (client, letter, number) = parts(word)?;
    let client = client_of(client)?;
    let node = node_of(letter, number)?;
    Some(Addr { client, node })
}

/// `128:q0`.
pub(crate) fn queue_of(word: &[u8]) -> Option<QueueAddr>
    ensures { result ≡ says.queue word.now }
{
    let (client, letter, number) = parts(word)?;
    if letter != b'q' {
        return None;
    }
    let client = client_of(client)?;
    let queue = queue_no_of(number)?;
    Some(QueueAddr { client, queue })
}

/// `t480`, `t+480`, `n100` or `n+100`.
pub(crate) fn due_of(word: &[u8]) -> Option<DueAt>
    ensures { result ≡ says.due_word word.now }
{
    match word {
        [b't', b'+', digits @ ..] => {
            let ticks = number_of(digits)?;
            Some(DueAt::TickAfter(ticks))
        }
        [b'n', b'+', digits @ ..] => {
            let nanos = number_of(digits)?;
            Some(DueAt::NanosAfter(nanos))
        }
        [b't', digits @ ..] => {
            let ticks = number_of(digits)?;
            Some(DueAt::Tick(ticks))
        }
        [b'n', digits @ ..] => {
            let nanos = number_of(digits)?;
            Some(DueAt::Nanos(nanos))
        }
        _ => None,
    }
}

#[inline]
pub(crate) fn hex_digit(byte: u8) -> Option<u8>
    ensures { result ≡ says.hex_digit byte }
{
    match byte {
        b'0'..=b'9' => Some(byte - 48),
        b'A'..=b'F' => Some(byte - 55),
        b'a'..=b'f' => Some(byte - 87),
        _ => None,
    }
}

/// The byte that two hexadecimal digits say, in either case.
#[inline]
pub fn hex_byte(word: &[u8]) -> Option<u8>
    ensures { result ≡ says.hex_byte word.now }
{
    if let [high, low] = word {
        let high = hex_digit(*high)?;
        let low = hex_digit(*low)?;
        Some(high * 16 + low)
    } else {
        None
    }
}

/// The place of the first file with this name; where there is none, one past the last.
pub(crate) fn number_of_name(names: &[Vec<u8>], name: &[u8]) -> u32
    requires { length names.now ≤ MOST_FILES }
    ensures { result ≡ says.number_of_name name.now (map (λ n. n.items) names.now) }
{
    first_named(names, name).unwrap_or(names.len()) as u32
}

fn first_named(names: &[Vec<u8>], name: &[u8]) -> Option<usize>
    ensures { result ≡ position (λ n. bytes_eq n.items name.now) names.now }
{
    names.iter().position(|n| n.as_slice() == name)
}
