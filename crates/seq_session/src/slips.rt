//! The lines of scripts that did most likely not what was meant, read off a run.

ghost use Rattle.std.specs.Prelude.{◌≡◌, ◌++◌, OnOk};
ghost use Rattle.std.specs.List.{flat_map};
ghost use Rattle.seq_session.specs.Slips.{tempo_slip, channels_slip, slip_of, slip_in, slip_line};

use crate::diagnosing::line_at;
use crate::made_ports::is_done;
use crate::slip::{Slip, SlipOnLine};
use memory::OutOfMemory;
use seq_state::{Command, Input, LogEntry};

/// Adds the lines with slips whose commands were done.
pub(crate) fn push_all_slips(
    told: &mut Vec<SlipOnLine>,
    inputs: &[Input],
    lines: &[u64],
    entries: &[LogEntry],
) -> Result<(), OutOfMemory>
    ensures { OnOk result (told.new.items
        ≡ told.old.items ++ flat_map (slip_line inputs.now lines.now) entries.now) }
{
    for entry in entries {
        push_slip(told, inputs, lines, entry)?;
    }
    Ok(())
}

/// Adds the line of an entry, where its command was done and has a slip.
fn push_slip(
    told: &mut Vec<SlipOnLine>,
    inputs: &[Input],
    lines: &[u64],
    entry: &LogEntry,
) -> Result<(), OutOfMemory>
    ensures { OnOk result (told.new.items
        ≡ told.old.items ++ slip_line inputs.now lines.now entry.now) }
{
    match entry {
        LogEntry::Delivered(_) => {}
        LogEntry::Replied {
            index,
            client,
            reply,
            ..
        } => {
            if !is_done(reply) {
                return Ok(());
            }
            let Some(line) = line_at(lines, *index) else {
                return Ok(());
            };
            let Some(slip) = slip_in(inputs, *index) else {
                return Ok(());
            };
            told.push(SlipOnLine {
                client: *client,
                line,
                slip,
            })?;
        }
    }
    Ok(())
}

/// The slip of the input at a place, if it has one.
fn slip_in(inputs: &[Input], place: u64) -> Option<Slip>
    ensures { result ≡ slip_in inputs.now place }
{
    let input = inputs.get(place as usize)?;
    slip_of(&input.command)
}

/// The slip of a command, if it has one.
fn slip_of(command: &Command) -> Option<Slip>
    ensures { result ≡ slip_of command.now }
{
    match command {
        Command::CreateQueue { tempo, .. } | Command::Tempo { tempo, .. } => tempo_slip(*tempo),
        Command::CreateFilter { rule, .. } | Command::SetFilter { rule, .. } => {
            channels_slip(rule.channels)
        }
        _ => None,
    }
}

fn tempo_slip(tempo: u32) -> Option<Slip>
    ensures { result ≡ tempo_slip tempo }
{
    if 0 < tempo && tempo < 1000 {
        Some(Slip::TempoAsBpm(tempo))
    } else {
        None
    }
}

fn channels_slip(channels: u16) -> Option<Slip>
    ensures { result ≡ channels_slip channels }
{
    if channels == 10 {
        Some(Slip::ChannelsTen)
    } else {
        None
    }
}
