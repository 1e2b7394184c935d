//! The calls that print all that a Standard MIDI File says.

ghost use Rattle.std.specs.Prelude.{◌≡◌, ◌≢◌, ◌+◌, ◌++◌, ◌⊎◌, [], true, false, Err, IfErr, OnOk, OnErr, IsErrOf};
ghost use Rattle.byte_io.specs.Marks.{SinkMarks};
ghost use Rattle.byte_io.specs.Moved.{GaveSome, Took};
ghost use Rattle.smf_grammar.specs.declared.fault.SmfFault.TheVariants as smf;
ghost use Rattle.smf_grammar.specs.Chunks.{most_bytes};
ghost use Rattle.smf_grammar.specs.Files.{IsFile};
ghost use Rattle.tool_text.specs.Dump.{TellsFault};
ghost use Rattle.tool_text.specs.Faults.{blames_sink, IsOutput};
ghost use Rattle.tool_text.specs.Gathered.{TookFirst};
ghost use Rattle.smf_text.specs.AllTexts.{all_text};
ghost use Rattle.smf_text.specs.PlacedTexts.{placed_text};
ghost use Rattle.smf_text.specs.AllDumped.{IsAllDumped, IsAllDumpedInPart};
ghost use Rattle.smf_text.specs.PlacesDumped.{IsPlacesDumped, IsPlacesDumpedInPart};
ghost use Rattle.smf_text.specs.Walking.{IsFileRead};

use crate::lines::push_place;
use crate::walk::print_tracks;
use byte_io::{Sink, Source, read_to};
use smf_files::SmfFile;
use smf_grammar::{MOST_BYTES, header_at};
use std::alloc::Global;
use tool_text::{ToolFault, flush, push_head};

/// Prints all that the Standard MIDI File that `input` gives says: a line on its header, and, track by track, a line
/// with the track's number and one for each event at its tick.
///
/// Nothing is written before the whole file was read and accepted; at a later fault the sink has taken the first
/// part of the text. A file of more than 16,777,216 bytes is not read to its end.
pub fn dump_all_text<R: Source, W: Sink>(
    alloc: Global,
    input: &mut R,
    out: &mut W,
) -> Result<(), ToolFault>
    requires input_sound { R.failed input.old ≡ false }
    requires out_sound { W.failed out.old ≡ false }

    ensures text { OnOk result (IsAllDumped R.HasLeft W.HasTaken
        input.old input.new out.old out.new) }
    ensures short { OnErr result (IsAllDumpedInPart R.HasLeft W.HasTaken
        input.old input.new out.old out.new) }
    ensures bounded { GaveSome R.HasLeft (most_bytes + 1) input.old input.new }

    // `Smf` tells the fault of what was read, and is the answer wherever that has one, unless a read failed or a growth
    // was refused.
    ensures told { IfErr result (TellsFault R.HasLeft input.old input.new) }
    ensures memory { result ≢ Err (ToolFault.Smf smf.OutOfMemory) }
    ensures read { IsErrOf result ToolFault.Read → R.failed input.new ≡ true }
    ensures unread { IsErrOf result ToolFault.OutOfMemory → R.failed input.new ≡ false }
    ensures marks { SinkMarks W.failed W.takes_some out.old out.new (blames_sink result) }
{
    dump_file(false, alloc, input, out)
}

/// Prints what `dump_all_text` does, each line behind its place in the file: which byte begins what the line tells,
/// counted from 0. A track's is where its chunk begins, an event's where its delta time does.
///
/// Nothing is written before the whole file was read and accepted; at a later fault the sink has taken the first
/// part of the text. A file of more than 16,777,216 bytes is not read to its end.
pub fn dump_places_text<R: Source, W: Sink>(
    alloc: Global,
    input: &mut R,
    out: &mut W,
) -> Result<(), ToolFault>
    requires input_sound { R.failed input.old ≡ false }
    requires out_sound { W.failed out.old ≡ false }

    ensures text { OnOk result (IsPlacesDumped R.HasLeft W.HasTaken
        input.old input.new out.old out.new) }
    ensures short { OnErr result (IsPlacesDumpedInPart R.HasLeft W.HasTaken
        input.old input.new out.old out.new) }
    ensures bounded { GaveSome R.HasLeft (most_bytes + 1) input.old input.new }

    // `Smf` tells the fault of what was read, and is the answer wherever that has one, unless a read failed or a growth
    // was refused.
    ensures told { IfErr result (TellsFault R.HasLeft input.old input.new) }
    ensures memory { result ≢ Err (ToolFault.Smf smf.OutOfMemory) }
    ensures read { IsErrOf result ToolFault.Read → R.failed input.new ≡ true }
    ensures unread { IsErrOf result ToolFault.OutOfMemory → R.failed input.new ≡ false }
    ensures marks { SinkMarks W.failed W.takes_some out.old out.new (blames_sink result) }
{
    dump_file(true, alloc, input, out)
}

/// Prints all that a file says, as `dump_all_text` does. It was read from these bytes.
pub fn print_all<W: Sink>(
    alloc: Global,
    file: &SmfFile<'_>,
    bytes: &[u8],
    out: &mut W,
) -> Result<(), ToolFault>
    requires file { IsFile bytes.now file.now }
    requires sound { W.failed out.old ≡ false }
    ensures text { OnOk result (Took W.HasTaken out.old (all_text file.now) out.new) }
    ensures short { OnErr result (TookFirst W.HasTaken out.old (all_text file.now) out.new) }
    ensures marks { SinkMarks W.failed W.takes_some out.old out.new (blames_sink result) }
    ensures only { IfErr result IsOutput }
{
    print_file(false, alloc, file, bytes, out)
}

/// Reads a file and prints all that it says, with places or without.
fn dump_file<R: Source, W: Sink>(
    is_placed: bool,
    alloc: Global,
    input: &mut R,
    out: &mut W,
) -> Result<(), ToolFault>
    requires input_sound { R.failed input.old ≡ false }
    requires out_sound { W.failed out.old ≡ false }

    ensures text { OnOk result (IsFileRead R.HasLeft input.old input.new is_placed
        (λ text. Took W.HasTaken out.old text out.new)) }
    ensures short { OnErr result ((Took W.HasTaken out.old [] out.new)
        ⊎ IsFileRead R.HasLeft input.old input.new is_placed
        (λ text. TookFirst W.HasTaken out.old text out.new)) }
    ensures bounded { GaveSome R.HasLeft (most_bytes + 1) input.old input.new }
    ensures told { IfErr result (TellsFault R.HasLeft input.old input.new) }
    ensures memory { result ≢ Err (ToolFault.Smf smf.OutOfMemory) }
    ensures read { IsErrOf result ToolFault.Read → R.failed input.new ≡ true }
    ensures unread { IsErrOf result ToolFault.OutOfMemory → R.failed input.new ≡ false }
    ensures marks { SinkMarks W.failed W.takes_some out.old out.new (blames_sink result) }
{
    let bytes = match read_to(alloc, input, MOST_BYTES + 1) {
        Ok(bytes) => bytes,
        Err(_) => {
            if input.has_failed() {
                return Err(ToolFault::Read);
            }
            return Err(ToolFault::OutOfMemory);
        }
    };
    let file = match SmfFile::read(alloc, bytes.as_slice()) {
        Ok(file) => file,
        Err(fault) => return Err(ToolFault::from(fault)),
    };
    print_file(is_placed, alloc, &file, bytes.as_slice(), out)
}

/// Prints all that the file says which these bytes are, with places or without.
fn print_file<W: Sink>(
    is_placed: bool,
    alloc: Global,
    file: &SmfFile<'_>,
    bytes: &[u8],
    out: &mut W,
) -> Result<(), ToolFault>
    requires file { IsFile bytes.now file.now }
    requires sound { W.failed out.old ≡ false }
    ensures text { OnOk result ((w : IsFile bytes.now file.now) →
        Took W.HasTaken out.old (placed_text is_placed bytes.now w) out.new) }
    ensures short { OnErr result ((w : IsFile bytes.now file.now) →
        TookFirst W.HasTaken out.old (placed_text is_placed bytes.now w) out.new) }
    ensures marks { SinkMarks W.failed W.takes_some out.old out.new (blames_sink result) }
    ensures only { IfErr result IsOutput }
{
    let (_header, after) = match header_at(bytes) {
        Ok(found) => found,
        Err(_) => unreachable!(),
    };
    let mut text = Vec::new(alloc);
    push_place(is_placed, 0, &mut text)?;
    push_head(file, &mut text)?;
    print_tracks(is_placed, file, bytes, after, &mut text, out)?;
    flush(&mut text, out)
}
