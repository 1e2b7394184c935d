//! The printing of logs.

ghost use Rattle.std.specs.Prelude.{◌≡◌, ◌++◌, false, map, IfErr, OnOk, OnErr};
ghost use Rattle.std.specs.Option.{option_map};
ghost use Rattle.byte_io.specs.Marks.{SinkMarks};
ghost use Rattle.byte_io.specs.Moved.{Took, TookPart};
ghost use Rattle.tool_text.specs.Faults.{blames_sink};
ghost use Rattle.program_tasks.specs.LogsPrinted.{client_heading, headed_log, logs_text, printed_text, IsOfPrinting};

use crate::held_log::HeldLog;
use crate::words::ScriptWord;
use byte_io::Sink;
use memory::OutOfMemory;
use node_table::ClientId;
use std::alloc::Global;
use text_forms::push_decimal;
use tool_text::{ToolFault, send};

/// Prints the number of each script's client and the log in the same place, and then the listing where there is one.
/// Where one of both lists is longer, what is left of it is not printed. The pieces of a log are written as they are,
/// and only the lines with the numbers take memory.
///
/// At a fault the sink has taken the first part of the text.
pub fn print_logs<W: Sink>(
    alloc: Global,
    scripts: &[ScriptWord<'_>],
    logs: &[HeldLog],
    listing: Option<&[u8]>,
    out: &mut W,
) -> Result<(), ToolFault>
    requires sound { W.failed out.old ≡ false }

    ensures text { OnOk result (Took W.HasTaken out.old
        (printed_text scripts.now (map (λ l. l.taken) logs.now)
        (option_map (λ l. l.now) listing.entry)) out.new) }
    ensures short { OnErr result (TookPart W.HasTaken out.old
        (printed_text scripts.now (map (λ l. l.taken) logs.now)
        (option_map (λ l. l.now) listing.entry)) out.new) }
    ensures marks { SinkMarks W.failed W.takes_some out.old out.new (blames_sink result) }
    ensures only { IfErr result IsOfPrinting }
{
    let mut line = Vec::new(alloc);
    print_all(scripts, logs, &mut line, out)?;
    match listing {
        Some(listing) => send(out, listing),
        None => Ok(()),
    }
}

/// Prints each client's number and its log. What was in `line` is lost.
// There are at most as many as clients, so this goes no deeper.
fn print_all<W: Sink>(
    scripts: &[ScriptWord<'_>],
    logs: &[HeldLog],
    line: &mut Vec<u8>,
    out: &mut W,
) -> Result<(), ToolFault>
    requires sound { W.failed out.old ≡ false }
    ensures text { OnOk result
        (Took W.HasTaken out.old (logs_text scripts.now (map (λ l. l.taken) logs.now)) out.new) }
    ensures short { OnErr result (TookPart W.HasTaken out.old
        (logs_text scripts.now (map (λ l. l.taken) logs.now)) out.new) }
    ensures marks { SinkMarks W.failed W.takes_some out.old out.new (blames_sink result) }
    ensures only { IfErr result IsOfPrinting }
{
    let Some((script, more_scripts)) = scripts.split_first() else {
        return Ok(());
    };
    let Some((log, more_logs)) = logs.split_first() else {
        return Ok(());
    };
    print_log(script.client, log, line, out)?;
    print_all(more_scripts, more_logs, line, out)
}

/// Prints a client's number and its log. What was in `line` is lost.
fn print_log<W: Sink>(
    client: ClientId,
    log: &HeldLog,
    line: &mut Vec<u8>,
    out: &mut W,
) -> Result<(), ToolFault>
    requires { W.failed out.old ≡ false }
    ensures text { OnOk result (Took W.HasTaken out.old (headed_log client log.now.taken) out.new) }
    ensures short { OnErr result
        (TookPart W.HasTaken out.old (headed_log client log.now.taken) out.new) }
    ensures marks { SinkMarks W.failed W.takes_some out.old out.new (blames_sink result) }
    ensures only { IfErr result IsOfPrinting }
{
    line.clear();
    push_client(line, client)?;
    send(out, line.as_slice())?;
    log.send_to(out)
}

fn push_client(line: &mut Vec<u8>, client: ClientId) -> Result<(), OutOfMemory>
    ensures { OnOk result (line.new.items ≡ line.old.items ++ client_heading client) }
{
    line.extend_from_slice(b"client ")?;
    push_decimal(line, u64::from(client.number()))?;
    line.push(b'\n')?;
    Ok(())
}
