//! What the program is asked of a message that did not come, or of a line that did nothing.

ghost use Rattle.std.specs.Prelude.{◌≡◌, IfErr, IfOk};
ghost use Rattle.std.specs.Option.{option_map};
ghost use Rattle.program_tasks.specs.Why.{is_at, port_behind, source_named, message_said, line_behind, line_named, IsOfSource, IsOfMessage, IsOfLineWord};

use crate::program_fault::ProgramFault;
use crate::words::ScriptWord;
use midi_wire::Message;
use node_table::{ClientId, PortAddr, PortNo};
use script_text::{client_of, message_of, number_of, port_of};
use std::alloc::Global;

/// What is asked of a session, as words say it.
#[derive(Clone, Copy, Debug, PartialEq, Eq)]
pub enum WhyQuestion<'a> {
    /// What becomes of a message that is sent from a port at the end of the session, as `128:p0` and `90 24 64`.
    Message { from: &'a str, message: &'a str },
    /// What a line of a script did not do, as `synth.txt:4`.
    Line(&'a str),
}

/// The number of a port behind a `p`.
fn port_behind(word: &str) -> Option<PortNo>
    ensures { result ≡ port_behind word.now }
{
    match word.as_bytes() {
        [b'p', digits @ ..] => port_of(digits),
        _ => None,
    }
}

/// The port that a word names, `128:p0`.
fn source_of(word: &str) -> Option<PortAddr>
    ensures { result ≡ source_named word.now }
{
    let (client, port) = word.split_once(':')?;
    let client = client_of(client.as_bytes())?;
    let port = port_behind(port)?;
    Some(PortAddr { client, port })
}

/// The port that a word names, `128:p0`; another word is a fault.
pub(crate) fn source_named<'a>(word: &'a str) -> Result<PortAddr, ProgramFault<'a>>
    ensures named { IfOk result (λ p. source_named word.now ≡ Some p) }
    ensures fault { IfErr result (IsOfSource word.now) }
{
    match source_of(word) {
        Some(port) => Ok(port),
        None => Err(ProgramFault::NotASource(word)),
    }
}

/// The message whose bytes a word says in hexadecimal.
pub(crate) fn message_said<'a>(alloc: Global, word: &'a str) -> Result<Message, ProgramFault<'a>>
    ensures said { IfOk result (λ m. message_said word.now ≡ Some m) }
    ensures fault { IfErr result (IsOfMessage word.now) }
{
    match message_of(alloc, word.as_bytes())? {
        Some(message) => Ok(message),
        None => Err(ProgramFault::NotAMessage(word)),
    }
}

/// A line of a client's script.
#[derive(Clone, Copy, Debug, PartialEq, Eq)]
pub(crate) struct ScriptLine {
    pub(crate) client: ClientId,
    /// From 1; 0 for the whole script.
    pub(crate) line: u64,
}

impl ScriptLine {
    /// Whether it is the line of this number of the client's script.
    pub(crate) fn is(&self, client: ClientId, line: u64) -> bool
        ensures { result ≡ is_at self.now.client self.now.line client line }
    {
        client == self.client && line == self.line
    }
}

/// The line that a word names behind this path, `PATH:LINE`.
fn line_behind(path: &str, word: &str) -> Option<u64>
    ensures { result ≡ line_behind path.now word.now }
{
    match word.as_bytes().strip_prefix(path.as_bytes())? {
        [b':', digits @ ..] => number_of(digits),
        _ => None,
    }
}

/// The line that a word names behind the path of one of these scripts.
// There are at most as many as clients, so this goes no deeper.
fn first_line_named(scripts: &[ScriptWord<'_>], word: &str) -> Option<ScriptLine>
    ensures { option_map (λ l. (l.client, l.line)) result ≡ line_named scripts.now word.now }
{
    let (first, more) = scripts.split_first()?;
    match line_behind(first.path, word) {
        Some(line) => Some(ScriptLine {
            client: first.client,
            line,
        }),
        None => first_line_named(more, word),
    }
}

/// The line that a word names of one of these scripts, `PATH:LINE`.
pub(crate) fn line_named<'a>(
    scripts: &[ScriptWord<'_>],
    word: &'a str,
) -> Result<ScriptLine, ProgramFault<'a>>
    ensures named { IfOk result (λ l. line_named scripts.now word.now ≡ Some (l.client, l.line)) }
    ensures fault { IfErr result (IsOfLineWord scripts.now word.now) }
{
    match first_line_named(scripts, word) {
        Some(line) => Ok(line),
        None => Err(ProgramFault::NotALine(word)),
    }
}
