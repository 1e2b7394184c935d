//! What a line says in a session to which many clients talk while it runs.

ghost use Rattle.std.specs.Prelude.{◌≡◌, ◌≤◌, length, map, IfOk};
ghost use Rattle.script_text.specs.LiveLines.{live_line, word_line};
ghost use Rattle.script_text.specs.declared.script.TheConstants.{MOST_FILES};

use crate::command::command_of;
use crate::line::without_return;
use crate::number::{client_of, number_of};
use crate::unread::Unread;
use crate::words::Words;
use memory::OutOfMemory;
use node_table::ClientId;
use seq_state::Command;
use std::alloc::Global;

/// What a line says. Moments are nanoseconds.
#[derive(Drop)]
pub enum LiveLine {
    /// It has no words, or is a remark.
    Nothing,
    /// It has no form that is known. Where its second word is the number of a client, it is a line of that client.
    Unknown(Option<ClientId>),
    /// A client says a command at a moment.
    Says(ClientId, u64, Command),
    /// Time passes up to a moment.
    Passes(u64),
    /// It asks for the listing.
    Asks,
}

/// What a line says, for a run that has files of these names: `MOMENT CLIENT COMMAND ..`, a moment alone, or `list`.
///
/// A file that a line names and `names` has not gets the number of files.
pub fn live_line(alloc: Global, names: &[Vec<u8>], line: &[u8]) -> Result<LiveLine, OutOfMemory>
    requires { length names.now ≤ MOST_FILES }
    ensures { IfOk result (λ l. l ≡ live_line (map (λ n. n.items) names.now) line.now) }
{
    let mut words = Words::new(without_return(line));
    let Some(first) = words.word() else {
        return Ok(LiveLine::Nothing);
    };
    if let [b'#', ..] = first {
        return Ok(LiveLine::Nothing);
    }
    let Some(second) = words.word() else {
        return Ok(word_line(first));
    };
    let Some(client) = client_of(second) else {
        return Ok(LiveLine::Unknown(None));
    };
    let Some(moment) = number_of(first) else {
        return Ok(LiveLine::Unknown(Some(client)));
    };
    match command_of(alloc, names, &mut words) {
        Ok(command) => Ok(LiveLine::Says(client, moment, command)),
        Err(Unread::Unreadable) => Ok(LiveLine::Unknown(Some(client))),
        Err(Unread::OutOfMemory) => Err(OutOfMemory),
    }
}

/// What a line of one word says.
fn word_line(word: &[u8]) -> LiveLine
    ensures { result ≡ word_line word.now }
{
    if word == b"list".as_slice() {
        return LiveLine::Asks;
    }
    match number_of(word) {
        Some(moment) => LiveLine::Passes(moment),
        None => LiveLine::Unknown(None),
    }
}
