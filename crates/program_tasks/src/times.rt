//! Lengths of time in words, as `1m30s`.

ghost use Rattle.std.specs.Prelude.{◌≡◌, ◌≤◌, ◌<◌, ◌∷◌, length};
ghost use Rattle.std.specs.List.{position, position_or_len};
ghost use Rattle.script_text.specs.Numbers.{is_digit};
ghost use Rattle.program_tasks.specs.Times.{is_no_digit, parts_of_time, time_said, unit_nanos};

use script_text::number_of;

/// The length of time that a word says, in nanoseconds: one or more numbers, each with its unit, which are added up.
/// The units are `h`, `m`, `s`, `ms`, `us` and `ns`.
pub fn time_named(word: &str) -> Option<u64>
    ensures { result ≡ time_said word.now }
{
    if word.is_empty() {
        return None;
    }
    let mut rest = word.as_bytes();
    let mut sum = 0u64;
    while !rest.is_empty() {
        let (number, unit, behind) = first_part(rest);
        let nanos = number_of(number)?.checked_mul(nanos_in(unit)?)?;
        sum = sum.checked_add(nanos)?;
        rest = behind;
    }
    Some(sum)
}

/// The number and the unit at the front, and what stands behind them.
fn first_part<'w>(word: &'w [u8]) -> (&'w [u8], &'w [u8], &'w [u8])
    requires { 0 < length word.now }
    ensures part { parts_of_time word.now
        ≡ record { digits = result.0.now; unit = result.1.now } ∷ parts_of_time result.2.now }
    ensures shorter { length result.2.now < length word.now }
{
    let (number, behind) = word.split_at(digits_len(word));
    let (unit, rest) = behind.split_at(unit_len(behind));
    (number, unit, rest)
}

/// How many nanoseconds a unit has.
fn nanos_in(unit: &[u8]) -> Option<u64>
    ensures { result ≡ unit_nanos unit.now }
{
    match unit {
        b"ns" => Some(1),
        b"us" => Some(1_000),
        b"ms" => Some(1_000_000),
        b"s" => Some(1_000_000_000),
        b"m" => Some(60_000_000_000),
        b"h" => Some(3_600_000_000_000),
        _ => None,
    }
}

fn is_digit(byte: u8) -> bool
    ensures { result ≡ is_digit byte }
{
    byte.is_ascii_digit()
}

fn first_digit(word: &[u8]) -> Option<usize>
    ensures { result ≡ position is_digit word.now }
{
    word.iter().position(|b| is_digit(*b))
}

fn first_other(word: &[u8]) -> Option<usize>
    ensures { result ≡ position is_no_digit word.now }
{
    word.iter().position(|b| !is_digit(*b))
}

/// How many digits stand at the front.
fn digits_len(word: &[u8]) -> usize
    ensures value { result ≡ position_or_len is_no_digit word.now }
    ensures within { result ≤ length word.now }
{
    first_other(word).unwrap_or(word.len())
}

/// How many bytes stand before the first digit.
fn unit_len(word: &[u8]) -> usize
    ensures value { result ≡ position_or_len is_digit word.now }
    ensures within { result ≤ length word.now }
{
    first_digit(word).unwrap_or(word.len())
}
