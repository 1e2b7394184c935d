//! The lines of a text.

ghost use Rattle.std.specs.Prelude.{◌≡◌, map, IfOk};
ghost use Rattle.script_text.specs.Words.{lines};

use crate::script::line_len;
use memory::OutOfMemory;
use std::alloc::Global;

/// The lines of a text, without their line ends. What stands after the last line end is a line too.
pub fn lines_of(alloc: Global, text: &[u8]) -> Result<Vec<&[u8]>, OutOfMemory>
    ensures { IfOk result (λ found. map (λ l. l.now) found.items ≡ lines text.now) }
{
    let mut found = Vec::new(alloc);
    let mut rest = text;
    let mut end = line_len(rest);
    while end < rest.len() {
        found.push(&rest[..end])?;
        rest = &rest[end + 1..];
        end = line_len(rest);
    }
    found.push(rest)?;
    Ok(found)
}
