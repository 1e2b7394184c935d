//! A stream read and written back.

ghost use Rattle.std.specs.Prelude.{◌≡◌, ◌+◌, ◌++◌, ◌⊎◌, [], true, false, IfErr, OnOk, OnErr, IsErrOf};
ghost use Rattle.std.specs.List.{flat_map};
ghost use Rattle.midi_wire.specs.Readings.{reading, rest};
ghost use Rattle.midi_wire.specs.Writings.{written_after, status_after_all};
ghost use Rattle.byte_io.specs.Marks.{SinkMarks};
ghost use Rattle.byte_io.specs.Moved.{GaveSome, Took};
ghost use Rattle.smf_grammar.specs.Chunks.{most_bytes};
ghost use Rattle.text_forms.specs.Hex.{spaced_hex, hex_line};
ghost use Rattle.tool_text.specs.Faults.{blames_sink, IsOfStream, IsOutput};
ghost use Rattle.tool_text.specs.Gathered.{IsGathered, TookFirst};
ghost use Rattle.tool_text.specs.Stream.{message_lines, IsRendered, IsRenderedInPart, GaveTooMany};
ghost use Rattle.tool_text.specs.Wire.{written_line, wire_text, IsCopied};

use crate::fault::ToolFault;
use crate::limits::MOST;
use crate::printing::{Printer, flush, print_stream, spill};
use byte_io::{Sink, Source};
use memory::OutOfMemory;
use midi_wire::{Message, StreamParser, StreamWriter};
use std::alloc::Global;
use text_forms::{push_hex_line, push_spaced};

/// How many bytes of the last line are added to the text at once.
const PART: usize = 4096;

/// Prints each message of the MIDI stream that `input` gives on a line, and then the bytes that they are all written as
/// in one stream, with running status (MIDI 1.0 Detailed Specification, "Running Status").
///
/// At a fault the sink has taken the first part of the text. What it holds in memory grows only with the bytes of the
/// last line, which are turned into text piece by piece.
pub fn wire_text<R: Source, W: Sink>(
    alloc: Global,
    input: &mut R,
    out: &mut W,
) -> Result<(), ToolFault>
    requires input_sound { R.failed input.old ≡ false }
    requires out_sound { W.failed out.old ≡ false }

    ensures text { OnOk result (IsRendered R.HasLeft W.HasTaken wire_text
        input.old input.new out.old out.new) }
    ensures short { OnErr result (IsRenderedInPart R.HasLeft W.HasTaken wire_text
        input.old input.new out.old out.new) }
    ensures bounded { GaveSome R.HasLeft (most_bytes + 1) input.old input.new }

    // `Read` comes where a read failed or there were too many bytes, and out of memory is reported only where the
    // source did not fail. Only `Write` blames the sink.
    ensures read { IsErrOf result ToolFault.Read → (R.failed input.new ≡ true)
        ⊎ GaveTooMany R.HasLeft input.old input.new }
    ensures unread { IsErrOf result ToolFault.OutOfMemory → R.failed input.new ≡ false }
    ensures marks { SinkMarks W.failed W.takes_some out.old out.new (blames_sink result) }
    ensures only { IfErr result IsOfStream }
{
    let mut copier = Copier::new(alloc);
    print_stream(alloc, &mut copier, input, out, MOST as u64)?;
    print_written(alloc, copier.written.as_slice(), out)
}

/// Reads a stream in pieces and writes it back.
#[derive(Drop)]
struct Copier {
    parser: StreamParser,
    writer: StreamWriter,
    written: Vec<u8>,
    messages: Vec<Message>,
    bytes: Vec<u8>,
}

impl Copier {
    /// No byte was read.
    fn new(alloc: Global) -> Copier
        ensures { IsCopied result.parser result.writer result.written.items [] }
    {
        Copier {
            parser: StreamParser::new(alloc),
            writer: StreamWriter::new(),
            written: Vec::new(alloc),
            messages: Vec::new(alloc),
            bytes: Vec::new(alloc),
        }
    }

    /// Takes the next piece of the stream, and adds a line for each message that is whole now.
    fn copy(&mut self, piece: &[u8], text: &mut Vec<u8>) -> Result<(), ToolFault>
        requires sound { self.old.parser.failed ≡ false }

        ensures text { let stream = self.old.parser.rest ++ piece.now in
            OnOk result (text.new.items ≡ text.old.items ++ message_lines hex_line stream) }
        ensures parser { let stream = self.old.parser.rest ++ piece.now in
            OnOk result (self.new.parser ≡ record { rest = rest stream; failed = false }) }
        ensures written { let read = reading (self.old.parser.rest ++ piece.now) in
            OnOk result (self.new.written.items
            ≡ self.old.written.items ++ written_after self.old.writer read) }
        ensures writer { let read = reading (self.old.parser.rest ++ piece.now) in
            OnOk result (self.new.writer ≡ status_after_all self.old.writer read) }
        ensures only { IfErr result (λ e. e ≡ ToolFault.OutOfMemory) }
    {
        self.messages.clear();
        self.parser.feed(piece, &mut self.messages)?;
        let messages = self.messages.as_slice();
        add_lines(messages, &mut self.bytes, text)?;
        write_on(messages, &mut self.writer, &mut self.written)?;
        Ok(())
    }
}

impl Printer for Copier {
    ghost use Rattle.tool_text.specs.Stream.{message_lines};
    ghost use Rattle.smf_grammar.specs.Chunks.{most_bytes};
    ghost use Rattle.text_forms.specs.Hex.{hex_line};
    ghost use Rattle.tool_text.specs.Wire.{IsCopied};

    ghost WasFed = { λ c read. IsCopied c.parser c.writer c.written.items read };

    ghost lines = { λ _. message_lines hex_line };

    ghost most = { most_bytes };

    fn take(&mut self, piece: &[u8], text: &mut Vec<u8>) -> Result<(), ToolFault> {
        self.copy(piece, text)
    }
}

/// Adds a line for each message. What was in `bytes` is lost.
fn add_lines(
    messages: &[Message],
    bytes: &mut Vec<u8>,
    text: &mut Vec<u8>,
) -> Result<(), OutOfMemory>
    ensures { OnOk result (text.new.items ≡ text.old.items ++ flat_map hex_line messages.now) }
{
    for message in messages {
        bytes.clear();
        message.append_to(bytes)?;
        push_hex_line(text, bytes.as_slice())?;
    }
    Ok(())
}

/// Writes messages after those that were written before.
fn write_on(
    messages: &[Message],
    writer: &mut StreamWriter,
    written: &mut Vec<u8>,
) -> Result<(), OutOfMemory>
    ensures bytes { OnOk result
        (written.new.items ≡ written.old.items ++ written_after writer.old messages.now) }
    ensures status { OnOk result (writer.new ≡ status_after_all writer.old messages.now) }
{
    for message in messages {
        writer.write(message, written)?;
    }
    Ok(())
}

/// Prints the last line.
fn print_written<W: Sink>(alloc: Global, written: &[u8], out: &mut W) -> Result<(), ToolFault>
    requires { W.failed out.old ≡ false }
    ensures text { OnOk result (Took W.HasTaken out.old (written_line written.now) out.new) }
    ensures short { OnErr result (TookFirst W.HasTaken out.old (written_line written.now) out.new) }
    ensures marks { SinkMarks W.failed W.takes_some out.old out.new (blames_sink result) }
    ensures only { IfErr result IsOutput }
{
    let mut text = Vec::new(alloc);
    text.extend_from_slice(b"written")?;
    print_spaced(written, &mut text, out)?;
    text.extend_from_slice(b"\n")?;
    flush(&mut text, out)
}

/// Prints bytes in hexadecimal after a text that was gathered.
fn print_spaced<W: Sink>(bytes: &[u8], text: &mut Vec<u8>, out: &mut W) -> Result<(), ToolFault>
    requires { W.failed out.old ≡ false }
    ensures sent { OnOk result (IsGathered W.HasTaken out.old out.new text.new.items []
        (text.old.items ++ spaced_hex bytes.now)) }
    ensures short { OnErr result (TookFirst W.HasTaken out.old
        (text.old.items ++ spaced_hex bytes.now) out.new) }
    ensures marks { SinkMarks W.failed W.takes_some out.old out.new (blames_sink result) }
    ensures only { IfErr result IsOutput }
{
    for part in bytes.chunks(PART) {
        push_spaced(text, part)?;
        spill(text, out)?;
    }
    Ok(())
}
