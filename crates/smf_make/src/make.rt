//! A file that is made of the lines of a text.

ghost use Rattle.std.specs.Prelude.{◌≡◌, ◌≢◌, ◌≤◌, ◌<◌, ◌^◌, ◌∷◌, [], length, Ok, Err, IfSome, IfNone, IfOk, IfErr, OnOk};
ghost use Rattle.script_text.specs.Words.{lines};
ghost use Rattle.smf_make.specs.SaidFiles.{Unheaded, without_empty_last, said_file};
ghost use Rattle.smf_make.specs.Making.{IsMaking, IsLineTaken, IsLineRefused, IsFinished, IsUnfinished, IsFileMade};

use crate::fault::MakeFault;
use crate::maker::Maker;
use crate::written_part::{LineStop, WrittenPart, take_line};
use memchr::memchr;
use script_text::without_return;
use std::alloc::Global;

impl Maker {
    /// Of no line so far.
    pub fn new(alloc: Global) -> Maker
        ensures { IsMaking result 0 Unheaded }
    {
        Maker {
            alloc,
            bytes: Vec::new(alloc),
            lines: 0,
            part: WrittenPart::Unheaded,
        }
    }

    /// Takes the next line, without its line end. A fault ends the making. Lines are counted up to 2^64 - 1, and no
    /// further.
    pub fn line(self, line: &[u8]) -> Result<Maker, MakeFault>
        ensures taken { IfOk result (IsLineTaken self line.now) }
        ensures refused { IfErr result (IsLineRefused self line.now) }
    {
        let mut maker = self;
        maker.take(line)?;
        Ok(maker)
    }

    /// The same where the maker stands. After a fault it is of no use.
    // Moving a maker in and out would cost as much as a word of the line.
    pub(crate) fn take(&mut self, line: &[u8]) -> Result<(), MakeFault>
        ensures taken { OnOk result (IsLineTaken self.old line.now self.new) }
        ensures refused { IfErr result (IsLineRefused self.old line.now) }
    {
        let lines = self.lines.saturating_add(1);
        self.lines = lines;
        let part = self.part;
        // Nothing is known of the bytes until the line is taken.
        self.part = WrittenPart::Unheaded;
        match take_line(self.alloc, part, without_return(line), &mut self.bytes) {
            Ok(next) => {
                self.part = next;
                Ok(())
            }
            Err(LineStop::Unexpected) => Err(MakeFault::Line {
                line: lines,
                expected: part.expected(),
            }),
            Err(LineStop::TooLarge) => Err(MakeFault::TooLarge { line: lines }),
            Err(LineStop::OutOfMemory) => Err(MakeFault::OutOfMemory),
        }
    }

    /// The file, where all its tracks have ended.
    pub fn finish(self) -> Result<Vec<u8>, MakeFault>
        ensures ended { IfOk result (λ bytes. IsFinished self bytes.items) }
        ensures unended { IfErr result (IsUnfinished self) }
    {
        let Maker {
            alloc: _,
            bytes,
            lines,
            part,
        } = self;
        if let WrittenPart::Between { tracks, ended } = part {
            if ended == tracks {
                return Ok(bytes);
            }
        }
        Err(MakeFault::Line {
            line: lines.saturating_add(1),
            expected: part.expected(),
        })
    }
}

/// The first line of a text, without its line end, and what stands behind it. After the last line end stands a line
/// only where something does.
fn first_line(text: &[u8]) -> Option<(&[u8], &[u8])>
    ensures some { IfSome result (λ l. without_empty_last (lines text.now)
        ≡ l.0.now ∷ without_empty_last (lines l.1.now)) }
    ensures shorter { IfSome result (λ l. length l.1.now < length text.now) }
    ensures none { IfNone result (without_empty_last (lines text.now) ≡ []) }
{
    if text.is_empty() {
        return None;
    }
    match memchr(b'\n', text) {
        Some(end) => Some((&text[..end], &text[end + 1..])),
        None => Some((text, &[])),
    }
}

/// A text has no more bytes than a slice has at most. It does nothing.
fn are_few(text: &[u8])
    ensures { length text.now ≤ 2 ^ 63 }
{}

/// The file that a text says.
///
/// A line says the header, the number of a track, or a tick and an event; blank lines and those that begin with `#` are
/// passed over. Each delta time and length has its shortest spelling, and a status is left out where it is the running
/// one.
pub fn make_file(alloc: Global, text: &[u8]) -> Result<Vec<u8>, MakeFault>
    ensures ok { IfOk result (λ bytes. IsFileMade text.now bytes.items) }
    ensures err { IfErr result (λ x. x ≢ MakeFault.OutOfMemory → said_file text.now ≡ Err x) }
{
    are_few(text);
    let mut maker = Maker::new(alloc);
    let mut left = text;
    while let Some((line, rest)) = first_line(left) {
        maker.take(line)?;
        left = rest;
    }
    maker.finish()
}
