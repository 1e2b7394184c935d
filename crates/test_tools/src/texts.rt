//! What a tool prints of bytes in memory.

ghost use Rattle.std.specs.Prelude.{◌≡◌, ◌≤◌, length, IfOk, IfErr, IsErr, IsTrue, OnOk};
ghost use Rattle.smf_grammar.specs.declared.fault.SmfFault.{SmfFault};
ghost use Rattle.smf_grammar.specs.Chunks.{most_bytes};
ghost use Rattle.smf_grammar.specs.Files.{Fault};
ghost use Rattle.test_tools.specs.Texts.{IsTextOf, reads_file, IsFaultOf};

use byte_io::{MemSink, MemSource};
use program_tasks::Tool;
use std::alloc::Global;
use tool_text::ToolFault;

/// All that the tool prints of these bytes. A fault of a file is theirs, and bytes that have one are not dumped.
pub fn printed(alloc: Global, tool: Tool, bytes: &[u8]) -> Result<Vec<u8>, ToolFault>
    ensures text { IfOk result (λ text. IsTextOf tool bytes.now text.items) }
    ensures bounded { OnOk result (length bytes.now ≤ most_bytes) }
    ensures told { IfErr result (IsFaultOf tool bytes.now) }
    ensures refused { IsTrue (reads_file tool) → (x : SmfFault) → Fault bytes.now x
        → IsErr result }
{
    let mut input = MemSource::new(Vec::from_slice(alloc, bytes)?);
    let mut out = MemSink::new(alloc, 0)?;
    tool.print(alloc, &mut input, &mut out)?;
    Ok(Vec::from_slice(alloc, out.bytes())?)
}
