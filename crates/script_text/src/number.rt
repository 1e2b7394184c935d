//! Numbers in words.

ghost use Rattle.std.specs.Prelude.{◌≡◌, ◌≤◌, ◌<◌, ◌^◌, if◌then◌else◌, ℤ, Some, None, IfSome, length};
ghost use Rattle.std.specs.List.{list_all};
ghost use Rattle.script_text.specs.Numbers as says;

use node_table::{
    Caps, ClientId, FilterNo, LAST_CLIENT, MOST_FILTERS, MOST_PORTS, MOST_QUEUES, PortNo, QueueNo,
};

/// The number that 1 to 20 decimal digits say, where it fits.
#[inline]
pub fn number_of(word: &[u8]) -> Option<u64>
    ensures { result ≡ says.u64 word.now }
{
    match word.len() {
        1..=19 => value_of(word),
        20 => twenty_digits(word),
        _ => None,
    }
}

/// What digits say. So many fit whatever they are.
#[inline]
fn value_of(word: &[u8]) -> Option<u64>
    requires { length word.now ≤ 19 }
    ensures value { result ≡
        (if list_all says.is_digit word.now then Some (says.read_on 0 word.now) else None) }
    ensures small { IfSome result (λ n. n < 2 ^ 64) }
{
    let mut value = 0;
    for byte in word {
        if *byte < b'0' || *byte > b'9' {
            return None;
        }
        value = value * 10 + u64::from(*byte - b'0');
    }
    Some(value)
}

/// The number that 20 digits say, where it fits: the last may be too much.
#[cold]
#[inline(never)]
fn twenty_digits(word: &[u8]) -> Option<u64>
    requires { length word.now ≡ 20 }
    ensures { result ≡ says.u64 word.now }
{
    let (front, last) = word.split_at(19);
    let value = value_of(front)?;
    let digit = value_of(last)?;
    let value = value.checked_mul(10)?.checked_add(digit)?;
    Some(value)
}

/// The number that a word says, where it is not greater than `most`.
#[inline]
pub fn up_to(word: &[u8], most: u64) -> Option<u64>
    ensures { result ≡ says.up_to most word.now }
{
    let value = number_of(word)?;
    if value <= most { Some(value) } else { None }
}

pub(crate) fn u32_of(word: &[u8]) -> Option<u32>
    ensures { result ≡ says.u32 word.now }
{
    let value = up_to(word, 4_294_967_295)?;
    Some(value as u32)
}

pub(crate) fn u16_of(word: &[u8]) -> Option<u16>
    ensures { result ≡ says.u16 word.now }
{
    let value = up_to(word, 65_535)?;
    Some(value as u16)
}

pub(crate) fn u8_of(word: &[u8]) -> Option<u8>
    ensures { result ≡ says.u8 word.now }
{
    let value = up_to(word, 255)?;
    Some(value as u8)
}

/// A number of semitones, with a minus or none.
pub(crate) fn shift_of(word: &[u8]) -> Option<i16>
    ensures { result ≡ says.shift word.now }
{
    if let [b'-', digits @ ..] = word {
        let value = up_to(digits, 32_768)?;
        Some((-(value as i32)) as i16)
    } else {
        let value = up_to(word, 32_767)?;
        Some(value as i16)
    }
}

/// The port whose number, 0 to 15, a word says.
pub fn port_of(word: &[u8]) -> Option<PortNo>
    ensures { result ≡ says.node_number word.now }
{
    let value = up_to(word, MOST_PORTS as u64 - 1)?;
    PortNo::new(value as u8)
}

pub(crate) fn filter_of(word: &[u8]) -> Option<FilterNo>
    ensures { result ≡ says.node_number word.now }
{
    let value = up_to(word, MOST_FILTERS as u64 - 1)?;
    FilterNo::new(value as u8)
}

pub(crate) fn queue_no_of(word: &[u8]) -> Option<QueueNo>
    ensures { result ≡ says.queue_number word.now }
{
    let value = up_to(word, MOST_QUEUES as u64 - 1)?;
    QueueNo::new(value as u8)
}

/// The client whose number, 128 to 191, a word says.
pub fn client_of(word: &[u8]) -> Option<ClientId>
    ensures { result ≡ says.client_number word.now }
{
    let value = up_to(word, LAST_CLIENT as u64)?;
    ClientId::new(value as u8)
}

/// A sum of capabilities.
pub(crate) fn caps_of(word: &[u8]) -> Option<Caps>
    ensures { result ≡ says.caps word.now }
{
    let value = up_to(word, 255)?;
    Caps::new(value as u8)
}
