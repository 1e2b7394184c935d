//! The state of a file that is made of lines.

ghost use Rattle.std.specs.Prelude.{IsTrue};
ghost use Rattle.smf_make.specs.WrittenParts.{is_placed};

use crate::written_part::WrittenPart;
use std::alloc::Global;

/// A file that is made of the lines of a text, given one after another (Standard MIDI Files 1.0).
///
/// It keeps the bytes of the file, and of a line no more than those of its event while it is read.
#[derive(Drop)]
pub struct Maker {
    pub(crate) alloc: Global,
    pub(crate) bytes: Vec<u8>,
    /// How many lines there were.
    pub(crate) lines: u64,
    pub(crate) part: WrittenPart,
    ghost placed: { IsTrue (is_placed bytes.items part) },
}
