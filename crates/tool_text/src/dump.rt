//! What a Standard MIDI File says.

ghost use Rattle.std.specs.Prelude.{◌≡◌, ◌≢◌, ◌+◌, ◌++◌, [], true, false, Err, IfErr, OnOk, OnErr, IsErrOf};
ghost use Rattle.std.specs.List.{flat_map};
ghost use Rattle.byte_io.specs.Marks.{SinkMarks};
ghost use Rattle.byte_io.specs.Moved.{GaveSome, Took};
ghost use Rattle.smf_grammar.specs.declared.fault.SmfFault.TheVariants as smf;
ghost use Rattle.smf_grammar.specs.Chunks.{most_bytes};
ghost use Rattle.tool_text.specs.Faults.{blames_sink, IsOutput};
ghost use Rattle.tool_text.specs.Gathered.{IsGathered, TookFirst};
ghost use Rattle.tool_text.specs.Dump.{head_line, tempo_line, event_line, skipped_line, dump_of, IsDumped, IsDumpedInPart, TellsFault};

use crate::fault::ToolFault;
use crate::limits::MOST;
use crate::printing::{flush, spill};
use byte_io::{Sink, Source, read_to};
use memory::OutOfMemory;
use smf_files::{Cursor, Event, SmfFile, TempoEntry};
use std::alloc::Global;
use text_forms::{push_decimal, push_spaced_line};

/// Prints what the Standard MIDI File that `input` gives says: a line on its header, one for each tempo entry, one for
/// each event by tick, track and place, and how many events are skipped.
///
/// Nothing is written before the whole file was read and accepted; at a later fault the sink has taken the first
/// part of the text. A file of more than 16,777,216 bytes is not read to its end.
pub fn dump_text<R: Source, W: Sink>(
    alloc: Global,
    input: &mut R,
    out: &mut W,
) -> Result<(), ToolFault>
    requires input_sound { R.failed input.old ≡ false }
    requires out_sound { W.failed out.old ≡ false }

    ensures text { OnOk result (IsDumped R.HasLeft W.HasTaken
        input.old input.new out.old out.new) }
    ensures short { OnErr result (IsDumpedInPart R.HasLeft W.HasTaken
        input.old input.new out.old out.new) }
    ensures bounded { GaveSome R.HasLeft (most_bytes + 1) input.old input.new }

    // `Smf` tells the fault of what was read, and is the answer wherever that has one, unless a read failed or a growth
    // was refused.
    ensures told { IfErr result (TellsFault R.HasLeft input.old input.new) }
    ensures memory { result ≢ Err (ToolFault.Smf smf.OutOfMemory) }
    ensures read { IsErrOf result ToolFault.Read → R.failed input.new ≡ true }
    ensures unread { IsErrOf result ToolFault.OutOfMemory → R.failed input.new ≡ false }
    ensures marks { SinkMarks W.failed W.takes_some out.old out.new (blames_sink result) }
{
    let bytes = match read_to(alloc, input, MOST + 1) {
        Ok(bytes) => bytes,
        Err(_) => {
            if input.has_failed() {
                return Err(ToolFault::Read);
            }
            return Err(ToolFault::OutOfMemory);
        }
    };
    let file = match SmfFile::read(alloc, bytes.as_slice()) {
        Ok(file) => file,
        Err(fault) => return Err(ToolFault::from(fault)),
    };
    print_dump(alloc, &file, out)
}

/// Prints what a file says, as `dump_text` prints it. At a fault the sink has taken the first part of the text.
pub fn print_dump<W: Sink>(alloc: Global, file: &SmfFile<'_>, out: &mut W) -> Result<(), ToolFault>
    requires { W.failed out.old ≡ false }
    ensures text { OnOk result (Took W.HasTaken out.old (dump_of file.now) out.new) }
    ensures short { OnErr result (TookFirst W.HasTaken out.old (dump_of file.now) out.new) }
    ensures marks { SinkMarks W.failed W.takes_some out.old out.new (blames_sink result) }
    ensures only { IfErr result IsOutput }
{
    let mut cursor = file.cursor()?;
    let mut text = Vec::new(alloc);
    push_head(file, &mut text)?;
    print_tempos(file.tempo_entries(), &mut text, out)?;
    print_events(alloc, &mut cursor, &mut text, out)?;
    push_skipped(file.skipped(), &mut text)?;
    flush(&mut text, out)
}

/// Adds the line on a file's header: its format, its number of tracks and its division word.
pub fn push_head(file: &SmfFile<'_>, text: &mut Vec<u8>) -> Result<(), OutOfMemory>
    ensures { OnOk result (text.new.items ≡ text.old.items ++ head_line file.now) }
{
    text.extend_from_slice(b"format ")?;
    push_decimal(text, file.format() as u64)?;
    text.extend_from_slice(b" tracks ")?;
    push_decimal(text, file.tracks() as u64)?;
    text.extend_from_slice(b" division ")?;
    push_decimal(text, file.division() as u64)?;
    text.push(b'\n')?;
    Ok(())
}

/// Adds the line of a tempo entry.
fn push_tempo(entry: &TempoEntry, text: &mut Vec<u8>) -> Result<(), OutOfMemory>
    ensures { OnOk result (text.new.items ≡ text.old.items ++ tempo_line entry.now) }
{
    text.extend_from_slice(b"tempo ")?;
    push_decimal(text, entry.tick)?;
    text.push(b' ')?;
    push_decimal(text, entry.tempo as u64)?;
    text.push(b'\n')?;
    Ok(())
}

/// Adds the line of an event. What was in `bytes` is lost.
#[inline(always)]
fn push_event(event: &Event, bytes: &mut Vec<u8>, text: &mut Vec<u8>) -> Result<(), OutOfMemory>
    ensures { OnOk result (text.new.items ≡ text.old.items ++ event_line event.now) }
{
    push_decimal(text, event.tick)?;
    bytes.clear();
    event.message.append_to(bytes)?;
    push_spaced_line(text, bytes.as_slice())?;
    Ok(())
}

/// Adds the last line.
fn push_skipped(skipped: u64, text: &mut Vec<u8>) -> Result<(), OutOfMemory>
    ensures { OnOk result (text.new.items ≡ text.old.items ++ skipped_line skipped) }
{
    text.extend_from_slice(b"skipped ")?;
    push_decimal(text, skipped)?;
    text.push(b'\n')?;
    Ok(())
}

/// Prints tempo entries after a text that was gathered.
fn print_tempos<W: Sink>(
    entries: &[TempoEntry],
    text: &mut Vec<u8>,
    out: &mut W,
) -> Result<(), ToolFault>
    requires { W.failed out.old ≡ false }
    ensures sent { OnOk result (IsGathered W.HasTaken out.old out.new text.new.items []
        (text.old.items ++ flat_map tempo_line entries.now)) }
    ensures short { OnErr result (TookFirst W.HasTaken out.old
        (text.old.items ++ flat_map tempo_line entries.now) out.new) }
    ensures marks { SinkMarks W.failed W.takes_some out.old out.new (blames_sink result) }
    ensures only { IfErr result IsOutput }
{
    for entry in entries {
        push_tempo(entry, text)?;
        spill(text, out)?;
    }
    Ok(())
}

/// Prints the events that are still to come after a text that was gathered.
fn print_events<W: Sink>(
    alloc: Global,
    cursor: &mut Cursor<'_>,
    text: &mut Vec<u8>,
    out: &mut W,
) -> Result<(), ToolFault>
    requires { W.failed out.old ≡ false }
    ensures sent { OnOk result (IsGathered W.HasTaken out.old out.new text.new.items []
        (text.old.items ++ flat_map event_line cursor.old)) }
    ensures short { OnErr result (TookFirst W.HasTaken out.old
        (text.old.items ++ flat_map event_line cursor.old) out.new) }
    ensures marks { SinkMarks W.failed W.takes_some out.old out.new (blames_sink result) }
    ensures only { IfErr result IsOutput }
{
    let mut bytes = Vec::new(alloc);
    'events: while let Some(event) = cursor.next()? {
        push_event(&event, &mut bytes, text)?;
        spill(text, out)?;
    }
    Ok(())
}
