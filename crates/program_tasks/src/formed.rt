//! The printing of logs in a form.

ghost use Rattle.std.specs.Prelude.{◌≡◌, ◌++◌, false, map, Some, IfErr, OnOk};
ghost use Rattle.std.specs.Option.{option_map};
ghost use Rattle.byte_io.specs.Marks.{SinkMarks};
ghost use Rattle.byte_io.specs.Moved.{Took};
ghost use Rattle.log_forms.specs.Forms.{head_of, log_in};
ghost use Rattle.tool_text.specs.Faults.{blames_sink};
ghost use Rattle.program_tasks.specs.LogsPrinted.{logs_in, listing_there, printed_in, IsOfPrinting};

use crate::held_log::HeldLog;
use crate::logs::print_logs;
use crate::words::ScriptWord;
use byte_io::Sink;
use log_forms::{LogForm, push_head, push_listing, push_log};
use memory::OutOfMemory;
use node_table::ClientId;
use std::alloc::Global;
use tool_text::{ToolFault, send};

/// Prints each client's log, and then the listing where there is one, in a form. Where one of the lists of scripts and
/// logs is longer, what is left of it is not printed.
pub(crate) fn print_in<W: Sink>(
    alloc: Global,
    form: LogForm,
    scripts: &[ScriptWord<'_>],
    logs: &[HeldLog],
    listing: Option<&[u8]>,
    out: &mut W,
) -> Result<(), ToolFault>
    requires sound { W.failed out.old ≡ false }
    ensures text { OnOk result (Took W.HasTaken out.old
        (printed_in form scripts.now (map (λ l. l.taken) logs.now)
        (option_map (λ l. l.now) listing.entry)) out.new) }
    ensures marks { SinkMarks W.failed W.takes_some out.old out.new (blames_sink result) }
    ensures only { IfErr result IsOfPrinting }
{
    match form {
        LogForm::Text => print_logs(alloc, scripts, logs, listing, out),
        LogForm::Json => print_formed(alloc, LogForm::Json, scripts, logs, listing, out),
        LogForm::Csv => print_formed(alloc, LogForm::Csv, scripts, logs, listing, out),
    }
}

/// Prints what stands before all logs in a form, each client's log, and then the listing where there is one. A log is
/// made whole, and what is made of it is held until it is written.
fn print_formed<W: Sink>(
    alloc: Global,
    form: LogForm,
    scripts: &[ScriptWord<'_>],
    logs: &[HeldLog],
    listing: Option<&[u8]>,
    out: &mut W,
) -> Result<(), ToolFault>
    requires sound { W.failed out.old ≡ false }
    ensures text { OnOk result (Took W.HasTaken out.old (head_of form
        ++ (logs_in form scripts.now (map (λ l. l.taken) logs.now)
        ++ listing_there form (option_map (λ l. l.now) listing.entry))) out.new) }
    ensures marks { SinkMarks W.failed W.takes_some out.old out.new (blames_sink result) }
    ensures only { IfErr result IsOfPrinting }
{
    let mut text = Vec::new(alloc);
    push_head(&mut text, form)?;
    send(out, text.as_slice())?;
    let mut whole = Vec::new(alloc);
    print_each(form, scripts, logs, &mut whole, &mut text, out)?;
    match listing {
        Some(listing) => print_listing_in(form, listing, &mut text, out),
        None => Ok(()),
    }
}

/// Prints each client's log. What was in `whole` and in `text` is lost.
// There are at most as many as clients, so this goes no deeper.
fn print_each<W: Sink>(
    form: LogForm,
    scripts: &[ScriptWord<'_>],
    logs: &[HeldLog],
    whole: &mut Vec<u8>,
    text: &mut Vec<u8>,
    out: &mut W,
) -> Result<(), ToolFault>
    requires sound { W.failed out.old ≡ false }
    ensures text { OnOk result (Took W.HasTaken out.old
        (logs_in form scripts.now (map (λ l. l.taken) logs.now)) out.new) }
    ensures marks { SinkMarks W.failed W.takes_some out.old out.new (blames_sink result) }
    ensures only { IfErr result IsOfPrinting }
{
    let Some((script, more_scripts)) = scripts.split_first() else {
        return Ok(());
    };
    let Some((log, more_logs)) = logs.split_first() else {
        return Ok(());
    };
    text.clear();
    push_held(text, form, script.client, log, whole)?;
    send(out, text.as_slice())?;
    print_each(form, more_scripts, more_logs, whole, text, out)
}

/// Adds a client's log in a form. The log is made whole in `whole`, and what was in it is lost.
fn push_held(
    text: &mut Vec<u8>,
    form: LogForm,
    client: ClientId,
    log: &HeldLog,
    whole: &mut Vec<u8>,
) -> Result<(), OutOfMemory>
    ensures { OnOk result (text.new.items ≡ text.old.items ++ log_in form client log.now.taken) }
{
    whole.clear();
    log.push_whole(whole)?;
    push_log(text, form, client, whole.as_slice())
}

/// Prints the listing. What was in `text` is lost.
fn print_listing_in<W: Sink>(
    form: LogForm,
    listing: &[u8],
    text: &mut Vec<u8>,
    out: &mut W,
) -> Result<(), ToolFault>
    requires sound { W.failed out.old ≡ false }
    ensures text { OnOk result
        (Took W.HasTaken out.old (listing_there form (Some listing.now)) out.new) }
    ensures marks { SinkMarks W.failed W.takes_some out.old out.new (blames_sink result) }
    ensures only { IfErr result IsOfPrinting }
{
    text.clear();
    push_listing(text, form, listing)?;
    send(out, text.as_slice())
}
