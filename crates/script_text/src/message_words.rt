//! Words that say one message, without memory for its bytes.

ghost use Rattle.std.specs.Prelude.{◌≡◌, ◌&&◌, ◌==◌, nat_le, nat_lt, ◌+◌, length};
ghost use Rattle.std.specs.Option.{is_some};
ghost use Rattle.midi_wire.specs.Messages.{all_data, is_tail, ends_data};
ghost use Rattle.midi_wire.specs.declared.status.StatusClass.TheVariants.{Exclusive};
ghost use Rattle.script_text.specs.Numbers.{only_if, hex_bytes, message};

use crate::address::hex_byte;
use crate::words::Words;
use midi_wire::{END_OF_EXCLUSIVE, StatusClass, Width};

/// How many data bytes an exclusive message has at most.
const MOST_DATA: usize = 65536;

/// Whether bit 7 of a byte is clear.
fn is_data(byte: u8) -> bool
    ensures { result ≡ nat_lt byte 128 }
{
    byte < 0x80
}

/// Whether all words say the full bytes of one message.
pub(crate) fn say_message(words: &mut Words) -> bool
    ensures { result ≡ is_some (message words.old) }
{
    let Some(word) = words.word() else {
        return false;
    };
    let Some(status) = hex_byte(word) else {
        return false;
    };
    say_tail(StatusClass::of(status), words)
}

/// Whether all words say what may follow a status in a message.
fn say_tail(class: StatusClass, words: &mut Words) -> bool
    ensures { result ≡ is_some (only_if (is_tail class) (hex_bytes words.old)) }
{
    match class {
        StatusClass::Channel(Width::One) | StatusClass::Common(Width::One) => say_data(1, words),
        StatusClass::Channel(Width::Two) | StatusClass::Common(Width::Two) => say_data(2, words),
        StatusClass::TuneRequest | StatusClass::RealTime => say_data(0, words),
        StatusClass::Exclusive => say_exclusive_tail(words),
        StatusClass::Nothing => false,
    }
}

/// Whether all words say data bytes, so many.
fn say_data(count: usize, words: &mut Words) -> bool
    ensures { result ≡ is_some
        (only_if (λ bytes. (length bytes == count) && all_data bytes) (hex_bytes words.old)) }
{
    let mut left = count;
    while let Some(word) = words.word() {
        let Some(byte) = hex_byte(word) else {
            return false;
        };
        if left == 0 || !is_data(byte) {
            return false;
        }
        left -= 1;
    }
    left == 0
}

/// Whether all words say data bytes, not too many, and then F7.
fn say_exclusive_tail(words: &mut Words) -> bool
    ensures { result ≡ is_some (only_if (is_tail Exclusive) (hex_bytes words.old)) }
{
    let mut left = MOST_DATA;
    while let Some(word) = words.word() {
        let Some(byte) = hex_byte(word) else {
            return false;
        };
        if byte == END_OF_EXCLUSIVE {
            return words.word().is_none();
        }
        if left == 0 || !is_data(byte) {
            return false;
        }
        left -= 1;
    }
    false
}
