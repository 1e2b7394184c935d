//! What was forgiven of a file, as lines.

ghost use Rattle.std.specs.Prelude.{◌≡◌, ◌++◌, false, IfErr, OnOk, OnErr};
ghost use Rattle.byte_io.specs.Marks.{SinkMarks};
ghost use Rattle.byte_io.specs.Moved.{Took};
ghost use Rattle.tool_text.specs.Faults.{blames_sink, IsOutput};
ghost use Rattle.tool_text.specs.Gathered.{TookFirst};
ghost use Rattle.lenient_text.specs.LenientDumped.{forgiven_line, forgiven_lines};

use byte_io::Sink;
use memory::OutOfMemory;
use smf_mend::{Forgiven, ForgivenText, Lenience, Mended};
use std::alloc::Global;
use tool_text::{ToolFault, flush};

/// Adds the line of a kind, where something of it was forgiven.
fn push_forgiven(
    alloc: Global,
    kind: Lenience,
    forgiven: Option<Forgiven>,
    text: &mut Vec<u8>,
) -> Result<(), OutOfMemory>
    ensures { OnOk result (text.new.items ≡ text.old.items ++ forgiven_line kind forgiven) }
{
    if let Some(forgiven) = forgiven {
        let told = ForgivenText(kind, forgiven);
        text.extend_from_slice(format!(in alloc; "{told}\n")?.as_bytes())?;
    }
    Ok(())
}

/// Prints what was forgiven.
pub(crate) fn print_forgiven<W: Sink>(
    alloc: Global,
    mended: &Mended,
    out: &mut W,
) -> Result<(), ToolFault>
    requires { W.failed out.old ≡ false }
    ensures text { OnOk result (Took W.HasTaken out.old (forgiven_lines mended.now) out.new) }
    ensures short { OnErr result
        (TookFirst W.HasTaken out.old (forgiven_lines mended.now) out.new) }
    ensures marks { SinkMarks W.failed W.takes_some out.old out.new (blames_sink result) }
    ensures only { IfErr result IsOutput }
{
    let mut text = Vec::new(alloc);
    push_forgiven(
        alloc,
        Lenience::RunningStatus,
        mended.running_status,
        &mut text,
    )?;
    push_forgiven(alloc, Lenience::ProgramChange, mended.high_data, &mut text)?;
    flush(&mut text, out)
}
