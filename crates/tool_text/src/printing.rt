//! Text that is printed as it comes, and text that is gathered and printed piece by piece.

ghost use Rattle.std.specs.Prelude.{◌≡◌, ◌<◌, ◌+◌, ◌++◌, ◌⊎◌, ℕ, List, [], true, false, length, IfErr, OnOk, OnErr, IsErrOf};
ghost use Rattle.byte_io.specs.Marks.{SinkMarks};
ghost use Rattle.byte_io.specs.Moved.{GaveSome, Took, TookPart};
ghost use Rattle.tool_text.specs.Gathered.{IsGathered, TookFirst};
ghost use Rattle.tool_text.specs.Stream.{HasRoom, IsPassed, IsRenderedInPart, IsRenderedSoFar, GaveMoreThan};
ghost use Rattle.tool_text.specs.Faults.{blames_sink, IsOfStream, IsOutput};

use crate::fault::ToolFault;
use crate::limits::CHUNK;
use byte_io::{Sink, Source, write_all};
use std::alloc::Global;

/// How much text is gathered before it is written.
const PIECE: usize = 65_536;

/// What prints a stream that it is given in pieces, as `print_stream` gives it.
pub trait Printer {
    ghost use Rattle.std.specs.Prelude.{ℕ, List};

    /// It was fed these bytes, and no others.
    ghost WasFed: { Self → List ℕ → Type 0 };

    /// The lines for a stream. They may hang on what the printer holds, which no piece changes.
    ghost lines: { Self → List ℕ → List ℕ };

    /// How many bytes it takes at most.
    ghost most: { ℕ };

    /// Takes the next piece of the stream, and adds the lines that it makes whole to an empty text. The lines for what
    /// was fed before are printed already, and stay as they are.
    fn take(&mut self, piece: &[u8], text: &mut Vec<u8>) -> Result<(), ToolFault>
        requires some { 0 < length piece.now }
        requires room { HasRoom most (WasFed self.old) piece.now }
        requires empty { text.old.items ≡ [] }
        ensures fed { (read : List ℕ) → WasFed self.old read
            → OnOk result (WasFed self.new (read ++ piece.now)) }
        ensures text { (read : List ℕ) → WasFed self.old read
            → OnOk result (lines self.old (read ++ piece.now)
            ≡ lines self.old read ++ text.new.items) }
        ensures same { OnOk result (lines self.new ≡ lines self.old) }
        ensures only { IfErr result (λ e. e ≡ ToolFault.OutOfMemory) };
}

/// Prints the lines for the stream that `input` gives, as they come: what a piece makes whole is written before the
/// next is read. The stream may have `most` bytes, as many as the printer takes: of a longer one a byte more is read,
/// and the answer is `Read`, as where a read failed.
///
/// At a fault the sink has taken the first part of the text. What is held here in memory beside the printer is one
/// piece, and the lines for it.
pub fn print_stream<R: Source, W: Sink, P: Printer>(
    alloc: Global,
    printer: &mut P,
    input: &mut R,
    out: &mut W,
    most: u64,
) -> Result<(), ToolFault>
    requires fresh { P.WasFed printer.old [] }
    requires empty { P.lines printer.old [] ≡ [] }
    requires bound { most ≡ P.most }
    requires input_sound { R.failed input.old ≡ false }
    requires out_sound { W.failed out.old ≡ false }

    ensures passed { OnOk result (IsPassed P.most R.HasLeft W.HasTaken (P.WasFed printer.new)
        (P.lines printer.old) input.old input.new out.old out.new) }
    ensures short { OnErr result (IsRenderedInPart R.HasLeft W.HasTaken (P.lines printer.old)
        input.old input.new out.old out.new) }
    ensures bounded { GaveSome R.HasLeft (P.most + 1) input.old input.new }

    // Whichever read fails, the lines for all that came before it were written: none waits for what is still to come.
    ensures prompt { IsErrOf result ToolFault.Read → R.failed input.new ≡ true →
        IsRenderedSoFar R.HasLeft W.HasTaken (P.lines printer.old)
        input.old input.new out.old out.new }
    ensures read { IsErrOf result ToolFault.Read → (R.failed input.new ≡ true)
        ⊎ GaveMoreThan P.most R.HasLeft input.old input.new }
    ensures unread { IsErrOf result ToolFault.OutOfMemory → R.failed input.new ≡ false }
    ensures input_unmarked { OnOk result (R.failed input.new ≡ false) }
    ensures marks { SinkMarks W.failed W.takes_some out.old out.new (blames_sink result) }
    ensures only { IfErr result IsOfStream }
{
    let mut text = Vec::new(alloc);
    let mut chunk = [0u8; CHUNK];
    let mut room = most;
    'pieces: loop {
        // one byte more than may come, to tell that there is one
        let window = room.saturating_add(1).min(CHUNK as u64) as usize;
        let n = match input.read(&mut chunk[..window]) {
            Ok(n) => n,
            Err(_) => return Err(ToolFault::Read),
        };
        if n == 0 {
            return Ok(());
        }
        if n as u64 > room {
            return Err(ToolFault::Read);
        }
        room -= n as u64;
        printer.take(&chunk[..n], &mut text)?;
        flush(&mut text, out)?;
    }
}

/// Writes a text.
pub fn send<W: Sink>(out: &mut W, text: &[u8]) -> Result<(), ToolFault>
    requires { W.failed out.old ≡ false }
    ensures written { OnOk result (Took W.HasTaken out.old text.now out.new) }
    ensures part { OnErr result (TookPart W.HasTaken out.old text.now out.new) }
    ensures marks { SinkMarks W.failed W.takes_some out.old out.new (blames_sink result) }
    ensures only { IfErr result (λ e. e ≡ ToolFault.Write) }
{
    if write_all(out, text).is_err() {
        return Err(ToolFault::Write);
    }
    Ok(())
}

/// Writes the text that was gathered once it is long enough.
#[inline(always)]
pub fn spill<W: Sink>(text: &mut Vec<u8>, out: &mut W) -> Result<(), ToolFault>
    requires { W.failed out.old ≡ false }
    ensures sent { OnOk result
        (IsGathered W.HasTaken out.old out.new text.new.items [] text.old.items) }
    ensures short { OnErr result (TookFirst W.HasTaken out.old text.old.items out.new) }
    ensures marks { SinkMarks W.failed W.takes_some out.old out.new (blames_sink result) }
    ensures only { IfErr result IsOutput }
{
    if text.len() < PIECE {
        return Ok(());
    }
    flush(text, out)
}

/// Writes the text that was gathered.
pub fn flush<W: Sink>(text: &mut Vec<u8>, out: &mut W) -> Result<(), ToolFault>
    requires { W.failed out.old ≡ false }
    ensures sent { OnOk result (Took W.HasTaken out.old text.old.items out.new) }
    ensures empty { OnOk result (text.new.items ≡ []) }
    ensures short { OnErr result (TookFirst W.HasTaken out.old text.old.items out.new) }
    ensures marks { SinkMarks W.failed W.takes_some out.old out.new (blames_sink result) }
    ensures only { IfErr result IsOutput }
{
    send(out, text.as_slice())?;
    text.clear();
    Ok(())
}
