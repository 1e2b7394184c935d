//! Bytes between quotation marks.

ghost use Rattle.std.specs.Prelude.{◌≡◌, ◌++◌, OnOk};
ghost use Rattle.smf_text.specs.AllTexts.{quoted_byte, quoted};

use memory::OutOfMemory;
use text_forms::hex_of;

/// Adds a byte as it stands between quotation marks.
fn push_quoted_byte(byte: u8, text: &mut Vec<u8>) -> Result<(), OutOfMemory>
    ensures { OnOk result (text.new.items ≡ text.old.items ++ quoted_byte byte) }
{
    let is_plain = byte >= b' ' && byte <= b'~' && byte != b'"' && byte != b'\\';
    if is_plain {
        text.push(byte)?;
        return Ok(());
    }
    let [high, low] = hex_of(byte);
    text.extend_from_slice(&[b'\\', b'x', high, low])?;
    Ok(())
}

/// Adds bytes between quotation marks.
pub(crate) fn push_quoted(bytes: &[u8], text: &mut Vec<u8>) -> Result<(), OutOfMemory>
    ensures { OnOk result (text.new.items ≡ text.old.items ++ quoted bytes.now) }
{
    text.push(b'"')?;
    for byte in bytes {
        push_quoted_byte(*byte, text)?;
    }
    text.push(b'"')?;
    Ok(())
}
