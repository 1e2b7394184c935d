//! What an input asks for or makes, as text.

ghost use Rattle.std.specs.Prelude.{◌≡◌, ◌++◌, Some, OnOk, slice_get};
ghost use Rattle.session_circle.specs.Printed.{nodes_text, use_text, asking_text, made_text, making_text, closing_text, deed_text, line_client_text, input_text, text_at};

use bitflags::Flags;
use memory::OutOfMemory;
use node_table::{Addr, ClientId, Node, QueueAddr};
use seq_circle::{closed_bits, making_of};
use seq_state::{Command, Input};
use std::alloc::Global;

fn push_nodes(
    text: &mut Vec<u8>,
    alloc: Global,
    verb: &str,
    source: &Addr,
    between: &str,
    target: &Addr,
) -> Result<(), OutOfMemory>
    ensures { OnOk result (text.new.items
        ≡ text.old.items ++ nodes_text verb.now source.now between.now target.now) }
{
    text.extend_from_slice(verb.as_bytes())?;
    text.extend_from_slice(format!(in alloc; "{source}")?.as_bytes())?;
    text.extend_from_slice(between.as_bytes())?;
    text.extend_from_slice(format!(in alloc; "{target}")?.as_bytes())?;
    Ok(())
}

fn push_use(
    text: &mut Vec<u8>,
    alloc: Global,
    verb: &str,
    queue: &QueueAddr,
) -> Result<(), OutOfMemory>
    ensures { OnOk result (text.new.items ≡ text.old.items ++ use_text verb.now queue.now) }
{
    text.extend_from_slice(verb.as_bytes())?;
    text.extend_from_slice(format!(in alloc; "{queue}")?.as_bytes())?;
    Ok(())
}

/// Adds what a command asks for.
fn push_asks(text: &mut Vec<u8>, alloc: Global, command: &Command) -> Result<(), OutOfMemory>
    ensures { OnOk result (text.new.items ≡ text.old.items ++ asking_text command.now) }
{
    match command {
        Command::Connect { source, target } => {
            push_nodes(text, alloc, " connects ", source, " to ", target)
        }
        Command::Disconnect { source, target } => {
            push_nodes(text, alloc, " disconnects ", source, " from ", target)
        }
        Command::DeleteQueue { queue } => push_use(text, alloc, " drops ", queue),
        Command::Start { queue } => push_use(text, alloc, " starts ", queue),
        Command::Stop { queue } => push_use(text, alloc, " stops ", queue),
        Command::Continue { queue } => push_use(text, alloc, " continues ", queue),
        Command::Tempo { queue, .. } => push_use(text, alloc, " sets the tempo of ", queue),
        Command::QueueStatus { queue } => push_use(text, alloc, " asks ", queue),
        Command::Share { queue } => push_use(text, alloc, " shares ", queue),
        Command::Schedule { queue, .. } => push_use(text, alloc, " schedules on ", queue),
        Command::Play { queue, .. } => push_use(text, alloc, " plays on ", queue),
        Command::Open { .. }
        | Command::Close
        | Command::CreatePort { .. }
        | Command::DeletePort { .. }
        | Command::CreateFilter { .. }
        | Command::SetFilter { .. }
        | Command::DeleteFilter { .. }
        | Command::Bytes { .. }
        | Command::Send { .. }
        | Command::CreateQueue { .. }
        | Command::CreateQueueFrom { .. }
        | Command::DropOutput
        | Command::Receive { .. }
        | Command::Listen
        | Command::Unlisten
        | Command::PoolStatus => Ok(()),
    }
}

/// Adds a node, with these bits as its capabilities.
fn push_node(text: &mut Vec<u8>, alloc: Global, node: Node, bits: u8) -> Result<(), OutOfMemory>
    ensures { OnOk result (text.new.items ≡ text.old.items ++ made_text (Some (node, bits))) }
{
    let made = match node {
        Node::Port(port) => format!(in alloc; " port {port} caps {bits}")?,
        Node::Filter(filter) => format!(in alloc; " filter {filter} caps {bits}")?,
    };
    text.extend_from_slice(made.as_bytes())?;
    Ok(())
}

/// Adds what a command makes.
fn push_makes(text: &mut Vec<u8>, alloc: Global, command: &Command) -> Result<(), OutOfMemory>
    ensures { OnOk result (text.new.items ≡ text.old.items ++ making_text command.now) }
{
    let Some(made) = making_of(command) else {
        return Ok(());
    };
    push_node(text, alloc, made.node, made.caps.bits())
}

/// Adds what a command would make without SUBS_WRITE.
fn push_closes(text: &mut Vec<u8>, alloc: Global, command: &Command) -> Result<(), OutOfMemory>
    ensures { OnOk result (text.new.items ≡ text.old.items ++ closing_text command.now) }
{
    let Some(made) = making_of(command) else {
        return Ok(());
    };
    push_node(text, alloc, made.node, closed_bits(made.caps))
}

/// Adds the line and the client that say an input.
fn push_place(
    text: &mut Vec<u8>,
    alloc: Global,
    line: u64,
    actor: ClientId,
) -> Result<(), OutOfMemory>
    ensures { OnOk result (text.new.items ≡ text.old.items ++ line_client_text line actor) }
{
    text.extend_from_slice(format!(in alloc; " line {line} of {actor}")?.as_bytes())?;
    Ok(())
}

/// What is said of an input.
#[derive(Clone, Copy)]
pub(crate) enum Deed {
    /// What it asks for.
    Asks,
    /// What it makes.
    Makes,
    /// What it would make without SUBS_WRITE.
    Closes,
}

/// Adds what is said of a command.
fn push_deed(
    text: &mut Vec<u8>,
    alloc: Global,
    deed: Deed,
    command: &Command,
) -> Result<(), OutOfMemory>
    ensures { OnOk result (text.new.items ≡ text.old.items ++ deed_text deed command.now) }
{
    match deed {
        Deed::Asks => push_asks(text, alloc, command),
        Deed::Makes => push_makes(text, alloc, command),
        Deed::Closes => push_closes(text, alloc, command),
    }
}

/// Adds the line and the client of an input, and what is said of it.
fn push_input(
    text: &mut Vec<u8>,
    alloc: Global,
    deed: Deed,
    line: u64,
    input: &Input,
) -> Result<(), OutOfMemory>
    ensures { OnOk result (text.new.items
        ≡ text.old.items ++ input_text (deed_text deed) line input.now) }
{
    push_place(text, alloc, line, input.actor)?;
    push_deed(text, alloc, deed, &input.command)?;
    Ok(())
}

/// Adds the line and the client of the input at a place, and what is said of it.
pub(crate) fn push_at(
    text: &mut Vec<u8>,
    alloc: Global,
    deed: Deed,
    lines: &[u64],
    inputs: &[Input],
    place: usize,
) -> Result<(), OutOfMemory>
    ensures { OnOk result (text.new.items
        ≡ text.old.items ++ text_at (deed_text deed) lines.now inputs.now place) }
{
    let Some(line) = lines.get(place) else {
        return Ok(());
    };
    let Some(input) = inputs.get(place) else {
        return Ok(());
    };
    push_input(text, alloc, deed, *line, input)
}
