//! Bytes as numbers in decimal, each behind a space.

ghost use Rattle.std.specs.Prelude.{◌≡◌, ◌∷◌, ◌++◌, length, OnOk};
ghost use Rattle.std.specs.Fmt.{decimal};
ghost use Rattle.smf_text.specs.AllTexts.{signed, key_text};
ghost use Rattle.smf_text.specs.Words.{each_text};

use memory::OutOfMemory;
use text_forms::push_decimal;

/// Adds a number.
pub(crate) fn push_number(number: u64, text: &mut Vec<u8>) -> Result<(), OutOfMemory>
    ensures { OnOk result (text.new.items ≡ text.old.items ++ 32 ∷ decimal number) }
{
    text.push(b' ')?;
    push_decimal(text, number)
}

/// Adds each byte as a number.
pub(crate) fn push_each(bytes: &[u8], text: &mut Vec<u8>) -> Result<(), OutOfMemory>
    ensures { OnOk result (text.new.items ≡ text.old.items ++ each_text bytes.now) }
{
    for byte in bytes {
        push_number(*byte as u64, text)?;
    }
    Ok(())
}

/// Adds a byte as a number from -128 to 127.
fn push_signed(byte: u8, text: &mut Vec<u8>) -> Result<(), OutOfMemory>
    ensures { OnOk result (text.new.items ≡ text.old.items ++ signed byte) }
{
    if byte < 0x80 {
        return push_decimal(text, byte as u64);
    }
    text.push(b'-')?;
    push_decimal(text, 256 - byte as u64)
}

/// Adds a key of two bytes: a number from -128 to 127 and one from 0 to 255.
pub(crate) fn push_key(bytes: &[u8], text: &mut Vec<u8>) -> Result<(), OutOfMemory>
    requires { length bytes.now ≡ 2 }
    ensures { OnOk result (text.new.items ≡ text.old.items ++ key_text bytes.now) }
{
    text.push(b' ')?;
    push_signed(bytes[0], text)?;
    push_number(bytes[1] as u64, text)
}
