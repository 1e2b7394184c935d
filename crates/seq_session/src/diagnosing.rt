//! The lines of scripts that did nothing, read off a run.

ghost use Rattle.std.specs.Prelude.{◌≡◌, ◌++◌, Option, map, slice_get, OnOk};
ghost use Rattle.node_table.specs.declared.caps.Caps.{Caps};
ghost use Rattle.node_table.specs.declared.number.Addr.{Addr};
ghost use Rattle.seq_session.specs.Diagnostics.{all_skipped_lines, skipped_line, skip_cause, fault_at, about_input, refused_line, refused_lines, refusal_of, refusal_numbered};
ghost use Rattle.seq_session.specs.MadeCaps.{AreAtPlaces};

use crate::about::About;
use crate::diagnostic::{Cause, Diagnostic};
use crate::made_caps::{none_made, note_made};
use crate::merged::Merged;
use crate::naming::about;
use crate::source::Script;
use memory::OutOfMemory;
use node_table::{Caps, ClientId};
use script_text::{LineFault, ScriptRead, Skip, SkipReason, line_fault, lines_of};
use seq_state::{Input, LogEntry, Refusal, Reply};
use std::alloc::Global;

/// Adds the lines of the scripts that are skipped, script by script.
// There are at most as many scripts as clients, so this goes no deeper.
pub(crate) fn push_all_skipped(
    alloc: Global,
    told: &mut Vec<Diagnostic>,
    scripts: &[Script],
    reads: &[ScriptRead],
) -> Result<(), OutOfMemory>
    ensures { OnOk result
        (told.new.items ≡ told.old.items ++ all_skipped_lines scripts.now reads.now) }
{
    let Some((script, more_scripts)) = scripts.split_first() else {
        return Ok(());
    };
    let Some((read, more_reads)) = reads.split_first() else {
        return Ok(());
    };
    let lines = lines_of(alloc, script.text.as_slice())?;
    push_skipped(told, script.client, lines.as_slice(), read.skips.as_slice())?;
    push_all_skipped(alloc, told, more_scripts, more_reads)
}

/// Adds the lines of a script that are skipped.
fn push_skipped(
    told: &mut Vec<Diagnostic>,
    client: ClientId,
    lines: &[&[u8]],
    skips: &[Skip],
) -> Result<(), OutOfMemory>
    ensures { OnOk result (told.new.items ≡ told.old.items
        ++ map (skipped_line client (map (λ l. l.now) lines.now)) skips.now) }
{
    for skip in skips {
        told.push(Diagnostic {
            client,
            line: skip.line,
            cause: skip_cause(lines, *skip),
        })?;
    }
    Ok(())
}

/// Why a line is skipped.
fn skip_cause(lines: &[&[u8]], skip: Skip) -> Cause
    ensures { result ≡ skip_cause (map (λ l. l.now) lines.now) skip }
{
    if skip.why != SkipReason::Unreadable {
        return Cause::Skipped(skip.why);
    }
    match fault_at(lines, skip.line) {
        Some(fault) => Cause::Unreadable(fault),
        None => Cause::Skipped(skip.why),
    }
}

/// Why the line of this number is unreadable, if it is. Lines count from 1.
fn fault_at(lines: &[&[u8]], number: u64) -> Option<LineFault>
    ensures { result ≡ fault_at (map (λ l. l.now) lines.now) number }
{
    if number == 0 {
        return None;
    }
    let line = lines.get((number - 1) as usize)?;
    line_fault(line)
}

/// Adds the lines whose commands were refused.
pub(crate) fn push_all_refused(
    alloc: Global,
    told: &mut Vec<Diagnostic>,
    merged: &Merged,
    entries: &[LogEntry],
) -> Result<(), OutOfMemory>
    ensures { OnOk result (told.new.items
        ≡ told.old.items ++ refused_lines merged.now.lines merged.now.inputs entries.now) }
{
    let lines = merged.lines.as_slice();
    let inputs = merged.inputs.as_slice();
    let mut made = none_made(alloc)?;
    for entry in entries {
        push_refused(told, lines, inputs, made.as_slice(), entry)?;
        note_made(&mut made, inputs, entry);
    }
    Ok(())
}

/// Adds the line of an entry, where its command was refused.
fn push_refused(
    told: &mut Vec<Diagnostic>,
    lines: &[u64],
    inputs: &[Input],
    table: &[Option<Caps>],
    entry: &LogEntry,
) -> Result<(), OutOfMemory>
    ensures { (made : Addr → Option Caps) → AreAtPlaces made table.now →
        OnOk result (told.new.items
        ≡ told.old.items ++ refused_line lines.now inputs.now made entry.now) }
{
    match entry {
        LogEntry::Delivered(_) => {}
        LogEntry::Replied {
            index,
            client,
            reply,
            ..
        } => {
            let Some(line) = line_at(lines, *index) else {
                return Ok(());
            };
            let Some(refusal) = refusal_of(reply) else {
                return Ok(());
            };
            let about = about_at(table, refusal, inputs, *index);
            told.push(Diagnostic {
                client: *client,
                line,
                cause: Cause::Refused(refusal, about),
            })?;
        }
    }
    Ok(())
}

/// What the refusal of the input at a place is about.
fn about_at(table: &[Option<Caps>], refusal: Refusal, inputs: &[Input], place: u64) -> About
    ensures { (made : Addr → Option Caps) → AreAtPlaces made table.now →
        result ≡ about_input made refusal (slice_get inputs.now place) }
{
    match inputs.get(place as usize) {
        Some(input) => about(table, refusal, input),
        None => About::Nothing,
    }
}

/// The line of the input at a place, if there is one.
pub(crate) fn line_at(lines: &[u64], place: u64) -> Option<u64>
    ensures { result ≡ slice_get lines.now place }
{
    lines.get(place as usize).copied()
}

/// Why a command was refused, if it was.
fn refusal_of(reply: &Reply) -> Option<Refusal>
    ensures { result ≡ refusal_of reply.now }
{
    match reply {
        Reply::Refused(number) => refusal_numbered(*number),
        Reply::Done
        | Reply::Messages(_)
        | Reply::Received(_)
        | Reply::Queue { .. }
        | Reply::Pools { .. } => None,
    }
}

fn refusal_numbered(number: u8) -> Option<Refusal>
    ensures { result ≡ refusal_numbered number }
{
    Refusal::from_number(number)
}
