//! The calls that print a file that is read by the lenient grammar.

ghost use Rattle.std.specs.Prelude.{◌≡◌, ◌≢◌, ◌+◌, true, false, Err, IfErr, OnOk, OnErr, IsErrOf};
ghost use Rattle.byte_io.specs.Marks.{SinkMarks};
ghost use Rattle.byte_io.specs.Moved.{GaveSome};
ghost use Rattle.smf_grammar.specs.declared.fault.SmfFault.TheVariants as smf;
ghost use Rattle.smf_grammar.specs.Chunks.{most_bytes};
ghost use Rattle.tool_text.specs.Dump.{dump_of};
ghost use Rattle.tool_text.specs.Faults.{blames_sink};
ghost use Rattle.smf_text.specs.AllTexts.{all_text};
ghost use Rattle.lenient_text.specs.LenientDumped.{IsDumpedLeniently, IsDumpedLenientlyInPart, TellsLenientFault};

use crate::forgiven::print_forgiven;
use crate::reading::{read_leniently, strict_file};
use byte_io::{Sink, Source};
use smf_text::print_all;
use std::alloc::Global;
use tool_text::{ToolFault, print_dump};

/// Prints what `dump_text` prints of the Standard MIDI File that `input` gives, which is read by the lenient grammar
/// and may stand in a RIFF container. Behind it stands a line for each kind of which something was forgiven: how many
/// times, and where first.
///
/// Places, also those that faults tell, are counted in bytes from the start of the file: in a container, from that of
/// the content of its chunk `data`. Of a file that the strict grammar takes just what `dump_text` prints is printed.
///
/// Nothing is written before the whole file was read and accepted; at a later fault the sink has taken the first
/// part of the text. What has more than 16,777,216 bytes, those of its container counted, is not read to its end, and
/// is too large.
pub fn dump_leniently<R: Source, W: Sink>(
    alloc: Global,
    input: &mut R,
    out: &mut W,
) -> Result<(), ToolFault>
    requires input_sound { R.failed input.old ≡ false }
    requires out_sound { W.failed out.old ≡ false }

    ensures text { OnOk result (IsDumpedLeniently dump_of R.HasLeft W.HasTaken
        input.old input.new out.old out.new) }
    ensures short { OnErr result (IsDumpedLenientlyInPart dump_of R.HasLeft W.HasTaken
        input.old input.new out.old out.new) }
    ensures bounded { GaveSome R.HasLeft (most_bytes + 1) input.old input.new }

    // `Smf` tells the fault of what was read, and is the answer wherever that has one, unless a read failed or a growth
    // was refused.
    ensures told { IfErr result (TellsLenientFault R.HasLeft input.old input.new) }
    ensures memory { result ≢ Err (ToolFault.Smf smf.OutOfMemory) }
    ensures read { IsErrOf result ToolFault.Read → R.failed input.new ≡ true }
    ensures unread { IsErrOf result ToolFault.OutOfMemory → R.failed input.new ≡ false }
    ensures marks { SinkMarks W.failed W.takes_some out.old out.new (blames_sink result) }
{
    let mended = read_leniently(alloc, input)?;
    let file = strict_file(alloc, &mended)?;
    print_dump(alloc, &file, out)?;
    print_forgiven(alloc, &mended, out)
}

/// The same with all that the file says, as `dump_all_text` prints it.
pub fn dump_all_leniently<R: Source, W: Sink>(
    alloc: Global,
    input: &mut R,
    out: &mut W,
) -> Result<(), ToolFault>
    requires input_sound { R.failed input.old ≡ false }
    requires out_sound { W.failed out.old ≡ false }

    ensures text { OnOk result (IsDumpedLeniently all_text R.HasLeft W.HasTaken
        input.old input.new out.old out.new) }
    ensures short { OnErr result (IsDumpedLenientlyInPart all_text R.HasLeft W.HasTaken
        input.old input.new out.old out.new) }
    ensures bounded { GaveSome R.HasLeft (most_bytes + 1) input.old input.new }

    // Faults are told as by `dump_leniently`.
    ensures told { IfErr result (TellsLenientFault R.HasLeft input.old input.new) }
    ensures memory { result ≢ Err (ToolFault.Smf smf.OutOfMemory) }
    ensures read { IsErrOf result ToolFault.Read → R.failed input.new ≡ true }
    ensures unread { IsErrOf result ToolFault.OutOfMemory → R.failed input.new ≡ false }
    ensures marks { SinkMarks W.failed W.takes_some out.old out.new (blames_sink result) }
{
    let mended = read_leniently(alloc, input)?;
    let file = strict_file(alloc, &mended)?;
    print_all(alloc, &file, mended.bytes.as_slice(), out)?;
    print_forgiven(alloc, &mended, out)
}
