//! Whether a port was ever there, read off a run.

ghost use Rattle.std.specs.Prelude.{◌≡◌, slice_get};
ghost use Rattle.seq_session.specs.MadePorts.{is_done, makes, asks_for, tells_of, had_port};

use node_table::{PortAddr, PortNo};
use seq_state::{Command, Input, LogEntry, Reply};

/// Whether a port was ever there, in a run of these inputs.
pub(crate) fn had_port(port: PortAddr, inputs: &[Input], entries: &[LogEntry]) -> bool
    ensures { result ≡ had_port port inputs.now entries.now }
{
    entries.iter().any(|entry| tells_of(port, inputs, entry))
}

/// Whether an entry tells that a port was made.
fn tells_of(port: PortAddr, inputs: &[Input], entry: &LogEntry) -> bool
    ensures { result ≡ tells_of port inputs.now entry.now }
{
    match entry {
        LogEntry::Delivered(_) => false,
        LogEntry::Replied { index, reply, .. } => is_done(reply) && asks_for(port, inputs, *index),
    }
}

/// Whether a command was done, by its reply.
pub(crate) fn is_done(reply: &Reply) -> bool
    ensures { result ≡ is_done reply.now }
{
    match reply {
        Reply::Done => true,
        Reply::Messages(_)
        | Reply::Queue { .. }
        | Reply::Received(_)
        | Reply::Pools { .. }
        | Reply::Refused(_) => false,
    }
}

/// Whether the input at a place asks for a port.
fn asks_for(port: PortAddr, inputs: &[Input], place: u64) -> bool
    ensures { result ≡ asks_for port (slice_get inputs.now place) }
{
    match inputs.get(place as usize) {
        Some(input) => input.actor == port.client && makes(port.port, &input.command),
        None => false,
    }
}

/// Whether a command makes the client's port of this number.
fn makes(number: PortNo, command: &Command) -> bool
    ensures { result ≡ makes number command.now }
{
    match command {
        Command::CreatePort { port, .. } => *port == number,
        _ => false,
    }
}
