//! A text to its inputs and the lines that are skipped.

ghost use Rattle.std.specs.Prelude.{◌≡◌, ◌≤◌, ◌<◌, ◌+◌, ◌^◌, ℕ, List, [], length, map, take, IfOk, OnOk};
ghost use Rattle.std.specs.List.{position_or_len};
ghost use Rattle.script_text.specs.Scripts.{script, read_from};
ghost use Rattle.script_text.specs.Words.{is_line_end, lines};
ghost use Rattle.script_text.specs.Parsing.{IsLineRead};

use crate::line::{Fate, fate_of};
use crate::reading::{ScriptInput, ScriptRead, Skip, SkipReason};
use memchr::memchr;
use memory::{Items, OutOfMemory};
use node_table::ClientId;
use seq_state::Input;
use std::alloc::Global;

/// How many bytes a script has at most.
pub const MOST_SCRIPT: usize = 1_048_576;

/// How many files a run has at most.
pub const MOST_FILES: usize = 256;

/// The reading of a client's script, for a run that has files of these names and ends at `until`, in nanoseconds.
///
/// No line stops it: one that has the form of no command, one past the end and one that is late are skipped. A file
/// that a line names and `names` has not gets the number of files.
pub fn parse_script(
    alloc: Global,
    client: ClientId,
    text: &[u8],
    names: &[Vec<u8>],
    until: u64,
) -> Result<ScriptRead, OutOfMemory>
    requires { length names.now ≤ MOST_FILES }
    ensures { IfOk result (λ r. r ≡ script client (map (λ n. n.items) names.now) until text.now) }
{
    if text.len() > MOST_SCRIPT {
        let mut skips = Vec::new(alloc);
        skips.push(Skip {
            line: 0,
            why: SkipReason::TooLong,
        })?;
        return Ok(ScriptRead {
            client,
            inputs: Items::new(Vec::new(alloc)),
            skips: Items::new(skips),
        });
    }
    read_lines(alloc, client, text, names, until)
}

/// What the lines so far have said.
#[derive(Drop)]
struct Reading {
    inputs: Vec<ScriptInput>,
    skips: Vec<Skip>,
    /// The moment of the last line that was taken.
    latest: u64,
    /// The number of the last line.
    number: u64,
}

impl Reading {
    /// Takes the next line.
    fn take(
        &mut self,
        alloc: Global,
        client: ClientId,
        names: &[Vec<u8>],
        until: u64,
        line: &[u8],
    ) -> Result<(), OutOfMemory>
        requires few { length names.now ≤ MOST_FILES }
        requires small { self.old.number < 2 ^ 32 }
        ensures goes_on { OnOk result (IsLineRead
            client (map (λ n. n.items) names.now) until line.now
            self.old.inputs.items self.old.skips.items self.old.latest self.old.number
            self.new.inputs.items self.new.skips.items self.new.latest) }
        ensures number { OnOk result (self.new.number ≡ self.old.number + 1) }
    {
        self.number += 1;
        match fate_of(alloc, names, until, self.latest, line)? {
            Fate::PassedOver => Ok(()),
            Fate::Skipped(why) => {
                self.skips.push(Skip {
                    line: self.number,
                    why,
                })?;
                Ok(())
            }
            Fate::Taken(moment, command) => {
                self.latest = moment;
                let input = Input {
                    moment,
                    actor: client,
                    command,
                };
                self.inputs.push(ScriptInput {
                    line: self.number,
                    input,
                })?;
                Ok(())
            }
        }
    }
}

/// How many bytes stand before the first line end.
pub(crate) fn line_len(text: &[u8]) -> usize
    ensures value { result ≡ position_or_len is_line_end text.now }
    ensures within { result ≤ length text.now }
{
    memchr(b'\n', text).unwrap_or(text.len())
}

fn read_lines(
    alloc: Global,
    client: ClientId,
    text: &[u8],
    names: &[Vec<u8>],
    until: u64,
) -> Result<ScriptRead, OutOfMemory>
    requires few { length names.now ≤ MOST_FILES }
    requires short { length text.now ≤ MOST_SCRIPT }
    ensures { IfOk result (λ r.
        r ≡ read_from client (map (λ n. n.items) names.now) until 0 1 (lines text.now)) }
{
    let mut reading = Reading {
        inputs: Vec::new(alloc),
        skips: Vec::new(alloc),
        latest: 0,
        number: 0,
    };
    let mut rest = text;
    let mut end = line_len(rest);
    while end < rest.len() {
        reading.take(alloc, client, names, until, &rest[..end])?;
        rest = &rest[end + 1..];
        end = line_len(rest);
    }
    reading.take(alloc, client, names, until, rest)?;
    let Reading {
        inputs,
        skips,
        latest: _,
        number: _,
    } = reading;
    Ok(ScriptRead {
        client,
        inputs: Items::new(inputs),
        skips: Items::new(skips),
    })
}
