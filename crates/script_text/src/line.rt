//! What becomes of a line.

ghost use Rattle.std.specs.Prelude.{◌≡◌, ◌≤◌, length, map, IfOk};
ghost use Rattle.std.specs.Option.{option_map};
ghost use Rattle.script_text.specs.Scripts.{fate, fate_in_time};
ghost use Rattle.script_text.specs.Table.{command};
ghost use Rattle.script_text.specs.Words.{without_return};
ghost use Rattle.script_text.specs.declared.script.TheConstants.{MOST_FILES};

use crate::command::command_of;
use crate::number::number_of;
use crate::reading::SkipReason;
use crate::unread::Unread;
use crate::words::Words;
use memory::OutOfMemory;
use seq_state::Command;
use std::alloc::Global;

#[derive(Drop)]
pub(crate) enum Fate {
    /// It has no words, or is a remark.
    PassedOver,
    Skipped(SkipReason),
    /// It is a command at a moment.
    Taken(u64, Command),
}

/// The line without a carriage return at its end. Of two one stays.
#[inline]
pub fn without_return(line: &[u8]) -> &[u8]
    ensures { result.now ≡ without_return line.now }
{
    if !line.is_empty() && line[line.len() - 1] == b'\r' {
        return &line[..line.len() - 1];
    }
    line
}

/// What becomes of a line of a run that ends at `until`, after a line of the moment `latest` was taken.
pub(crate) fn fate_of(
    alloc: Global,
    names: &[Vec<u8>],
    until: u64,
    latest: u64,
    line: &[u8],
) -> Result<Fate, OutOfMemory>
    requires { length names.now ≤ MOST_FILES }
    ensures { IfOk result (λ f. f ≡ fate (map (λ n. n.items) names.now) until latest line.now) }
{
    let mut words = Words::new(without_return(line));
    if let Some(moment) = words.first_number() {
        return timed_fate(alloc, names, until, latest, moment, &mut words);
    }
    let Some(first) = words.word() else {
        return Ok(Fate::PassedOver);
    };
    if let [b'#', ..] = first {
        return Ok(Fate::PassedOver);
    }
    let Some(moment) = number_of(first) else {
        return Ok(Fate::Skipped(SkipReason::Unreadable));
    };
    timed_fate(alloc, names, until, latest, moment, &mut words)
}

/// What becomes of a line whose words after its moment are these.
fn timed_fate(
    alloc: Global,
    names: &[Vec<u8>],
    until: u64,
    latest: u64,
    moment: u64,
    words: &mut Words,
) -> Result<Fate, OutOfMemory>
    requires { length names.now ≤ MOST_FILES }
    ensures { IfOk result (λ f. f ≡ fate_in_time until latest
        (option_map (λ c. (moment, c)) (command (map (λ n. n.items) names.now) words.old))) }
{
    match command_of(alloc, names, words) {
        Ok(command) => {
            if moment > until {
                Ok(Fate::Skipped(SkipReason::PastEnd))
            } else if moment < latest {
                Ok(Fate::Skipped(SkipReason::Late))
            } else {
                Ok(Fate::Taken(moment, command))
            }
        }
        Err(Unread::Unreadable) => Ok(Fate::Skipped(SkipReason::Unreadable)),
        Err(Unread::OutOfMemory) => Err(OutOfMemory),
    }
}
