//! A line's words to a command: a function for each row of the table.

ghost use Rattle.std.specs.Prelude.{◌≡◌, ◌∷◌, ◌≤◌, List, [], map, length, codes, Some, None, IfSome, IfOk, IfErr, OnErr, IsErrOf};
ghost use Rattle.route_filter.specs.declared.rule_args.RuleArgs.{RuleArgs};
ghost use Rattle.seq_state.specs.declared.input.Command.{Command};
ghost use Rattle.std.specs.List.{position, position_or_len};
ghost use Rattle.std.specs.Str.{bytes_eq};
ghost use Rattle.midi_wire.specs.Messages.{is_message};
ghost use Rattle.script_text.specs.Numbers as says;
ghost use Rattle.script_text.specs.Numbers.{only_if};
ghost use Rattle.script_text.specs.Table.{command, rule};
ghost use Rattle.script_text.specs.declared.script.TheConstants.{MOST_FILES};

use crate::unread::Unread;
use crate::words::Words;
use bitflags::Flags;
use memory::Items;
use midi_wire::{Message, StatusClass, Width};
use route_filter::{Kinds, RuleArgs};
use seq_state::Command;
use std::alloc::Global;

fn open(alloc: Global, words: &mut Words) -> Result<Command, Unread>
    ensures ok { IfOk result (λ c. command [] (codes "open" ∷ words.old) ≡ Some c) }
    ensures err { IsErrOf result Unread.Unreadable → command [] (codes "open" ∷ words.old) ≡ None }
{
    let name = words.any()?;
    let in_size = words.u32()?;
    let out_size = words.u32()?;
    words.end()?;
    Ok(Command::Open {
        name: Items::new(Vec::from_slice(alloc, name)?),
        in_size,
        out_size,
    })
}

fn create_port(alloc: Global, words: &mut Words) -> Result<Command, Unread>
    ensures ok { IfOk result (λ c. command [] (codes "port" ∷ words.old) ≡ Some c) }
    ensures err { IsErrOf result Unread.Unreadable → command [] (codes "port" ∷ words.old) ≡ None }
{
    let port = words.port()?;
    let name = words.any()?;
    let caps = words.caps()?;
    words.end()?;
    Ok(Command::CreatePort {
        port,
        name: Items::new(Vec::from_slice(alloc, name)?),
        caps,
    })
}

fn connect(words: &mut Words) -> Result<Command, Unread>
    ensures ok { IfOk result (λ c. command [] (codes "connect" ∷ words.old) ≡ Some c) }
    ensures err { IsErrOf result Unread.Unreadable
        → command [] (codes "connect" ∷ words.old) ≡ None }
{
    let source = words.addr()?;
    let target = words.addr()?;
    words.end()?;
    Ok(Command::Connect { source, target })
}

fn close(words: &mut Words) -> Result<Command, Unread>
    ensures ok { IfOk result (λ c. command [] (codes "close" ∷ words.old) ≡ Some c) }
    ensures err { IsErrOf result Unread.Unreadable → command [] (codes "close" ∷ words.old) ≡ None }
{
    words.end()?;
    Ok(Command::Close)
}

fn delete_port(words: &mut Words) -> Result<Command, Unread>
    ensures ok { IfOk result (λ c. command [] (codes "unport" ∷ words.old) ≡ Some c) }
    ensures err { IsErrOf result Unread.Unreadable
        → command [] (codes "unport" ∷ words.old) ≡ None }
{
    let port = words.port()?;
    words.end()?;
    Ok(Command::DeletePort { port })
}

fn delete_filter(words: &mut Words) -> Result<Command, Unread>
    ensures ok { IfOk result (λ c. command [] (codes "unfilter" ∷ words.old) ≡ Some c) }
    ensures err { IsErrOf result Unread.Unreadable
        → command [] (codes "unfilter" ∷ words.old) ≡ None }
{
    let filter = words.filter()?;
    words.end()?;
    Ok(Command::DeleteFilter { filter })
}

fn disconnect(words: &mut Words) -> Result<Command, Unread>
    ensures ok { IfOk result (λ c. command [] (codes "disconnect" ∷ words.old) ≡ Some c) }
    ensures err { IsErrOf result Unread.Unreadable
        → command [] (codes "disconnect" ∷ words.old) ≡ None }
{
    let source = words.addr()?;
    let target = words.addr()?;
    words.end()?;
    Ok(Command::Disconnect { source, target })
}

fn bytes(alloc: Global, words: &mut Words) -> Result<Command, Unread>
    ensures ok { IfOk result (λ c. command [] (codes "bytes" ∷ words.old) ≡ Some c) }
    ensures err { IsErrOf result Unread.Unreadable → command [] (codes "bytes" ∷ words.old) ≡ None }
{
    let port = words.port()?;
    let bytes = words.bytes(alloc)?;
    Ok(Command::Bytes {
        port,
        bytes: Items::new(Vec::from_slice(alloc, bytes.as_slice())?),
    })
}

fn send(alloc: Global, words: &mut Words) -> Result<Command, Unread>
    ensures ok { IfOk result (λ c. command [] (codes "send" ∷ words.old) ≡ Some c) }
    ensures err { IsErrOf result Unread.Unreadable → command [] (codes "send" ∷ words.old) ≡ None }
{
    let port = words.port()?;
    let message = message(alloc, words)?;
    Ok(Command::Send { port, message })
}

fn create_queue(words: &mut Words) -> Result<Command, Unread>
    ensures ok { IfOk result (λ c. command [] (codes "queue" ∷ words.old) ≡ Some c) }
    ensures err { IsErrOf result Unread.Unreadable → command [] (codes "queue" ∷ words.old) ≡ None }
{
    let queue = words.queue_no()?;
    let ppq = words.u32()?;
    let tempo = words.u32()?;
    words.end()?;
    Ok(Command::CreateQueue { queue, ppq, tempo })
}

fn create_queue_from(names: &[Vec<u8>], words: &mut Words) -> Result<Command, Unread>
    requires { length names.now ≤ MOST_FILES }
    ensures ok { IfOk result (λ c.
        command (map (λ n. n.items) names.now) (codes "queuefrom" ∷ words.old) ≡ Some c) }
    ensures err { IsErrOf result Unread.Unreadable
        → command (map (λ n. n.items) names.now) (codes "queuefrom" ∷ words.old) ≡ None }
{
    let queue = words.queue_no()?;
    let file = words.file(names)?;
    words.end()?;
    Ok(Command::CreateQueueFrom { queue, file })
}

fn delete_queue(words: &mut Words) -> Result<Command, Unread>
    ensures ok { IfOk result (λ c. command [] (codes "unqueue" ∷ words.old) ≡ Some c) }
    ensures err { IsErrOf result Unread.Unreadable
        → command [] (codes "unqueue" ∷ words.old) ≡ None }
{
    let queue = words.queue()?;
    words.end()?;
    Ok(Command::DeleteQueue { queue })
}

fn start(words: &mut Words) -> Result<Command, Unread>
    ensures ok { IfOk result (λ c. command [] (codes "start" ∷ words.old) ≡ Some c) }
    ensures err { IsErrOf result Unread.Unreadable → command [] (codes "start" ∷ words.old) ≡ None }
{
    let queue = words.queue()?;
    words.end()?;
    Ok(Command::Start { queue })
}

fn stop(words: &mut Words) -> Result<Command, Unread>
    ensures ok { IfOk result (λ c. command [] (codes "stop" ∷ words.old) ≡ Some c) }
    ensures err { IsErrOf result Unread.Unreadable → command [] (codes "stop" ∷ words.old) ≡ None }
{
    let queue = words.queue()?;
    words.end()?;
    Ok(Command::Stop { queue })
}

fn resume(words: &mut Words) -> Result<Command, Unread>
    ensures ok { IfOk result (λ c. command [] (codes "continue" ∷ words.old) ≡ Some c) }
    ensures err { IsErrOf result Unread.Unreadable
        → command [] (codes "continue" ∷ words.old) ≡ None }
{
    let queue = words.queue()?;
    words.end()?;
    Ok(Command::Continue { queue })
}

fn tempo(words: &mut Words) -> Result<Command, Unread>
    ensures ok { IfOk result (λ c. command [] (codes "tempo" ∷ words.old) ≡ Some c) }
    ensures err { IsErrOf result Unread.Unreadable → command [] (codes "tempo" ∷ words.old) ≡ None }
{
    let queue = words.queue()?;
    let tempo = words.u32()?;
    words.end()?;
    Ok(Command::Tempo { queue, tempo })
}

fn queue_status(words: &mut Words) -> Result<Command, Unread>
    ensures ok { IfOk result (λ c. command [] (codes "status" ∷ words.old) ≡ Some c) }
    ensures err { IsErrOf result Unread.Unreadable
        → command [] (codes "status" ∷ words.old) ≡ None }
{
    let queue = words.queue()?;
    words.end()?;
    Ok(Command::QueueStatus { queue })
}

fn share(words: &mut Words) -> Result<Command, Unread>
    ensures ok { IfOk result (λ c. command [] (codes "share" ∷ words.old) ≡ Some c) }
    ensures err { IsErrOf result Unread.Unreadable → command [] (codes "share" ∷ words.old) ≡ None }
{
    let queue = words.queue()?;
    words.end()?;
    Ok(Command::Share { queue })
}

fn schedule(alloc: Global, words: &mut Words) -> Result<Command, Unread>
    ensures ok { IfOk result (λ c. command [] (codes "schedule" ∷ words.old) ≡ Some c) }
    ensures err { IsErrOf result Unread.Unreadable
        → command [] (codes "schedule" ∷ words.old) ≡ None }
{
    let queue = words.queue()?;
    let port = words.port()?;
    let due_at = words.due()?;
    let message = message(alloc, words)?;
    Ok(Command::Schedule {
        queue,
        port,
        due_at,
        message,
    })
}

fn play(names: &[Vec<u8>], words: &mut Words) -> Result<Command, Unread>
    requires { length names.now ≤ MOST_FILES }
    ensures ok { IfOk result (λ c.
        command (map (λ n. n.items) names.now) (codes "play" ∷ words.old) ≡ Some c) }
    ensures err { IsErrOf result Unread.Unreadable
        → command (map (λ n. n.items) names.now) (codes "play" ∷ words.old) ≡ None }
{
    let queue = words.queue()?;
    let port = words.port()?;
    let file = words.file(names)?;
    words.end()?;
    Ok(Command::Play { queue, port, file })
}

fn drop_output(words: &mut Words) -> Result<Command, Unread>
    ensures ok { IfOk result (λ c. command [] (codes "drop" ∷ words.old) ≡ Some c) }
    ensures err { IsErrOf result Unread.Unreadable → command [] (codes "drop" ∷ words.old) ≡ None }
{
    words.end()?;
    Ok(Command::DropOutput)
}

fn receive(words: &mut Words) -> Result<Command, Unread>
    ensures ok { IfOk result (λ c. command [] (codes "receive" ∷ words.old) ≡ Some c) }
    ensures err { IsErrOf result Unread.Unreadable
        → command [] (codes "receive" ∷ words.old) ≡ None }
{
    let max = words.u32()?;
    words.end()?;
    Ok(Command::Receive { max })
}

fn listen(words: &mut Words) -> Result<Command, Unread>
    ensures ok { IfOk result (λ c. command [] (codes "listen" ∷ words.old) ≡ Some c) }
    ensures err { IsErrOf result Unread.Unreadable
        → command [] (codes "listen" ∷ words.old) ≡ None }
{
    words.end()?;
    Ok(Command::Listen)
}

fn unlisten(words: &mut Words) -> Result<Command, Unread>
    ensures ok { IfOk result (λ c. command [] (codes "unlisten" ∷ words.old) ≡ Some c) }
    ensures err { IsErrOf result Unread.Unreadable
        → command [] (codes "unlisten" ∷ words.old) ≡ None }
{
    words.end()?;
    Ok(Command::Unlisten)
}

fn pool_status(words: &mut Words) -> Result<Command, Unread>
    ensures ok { IfOk result (λ c. command [] (codes "pools" ∷ words.old) ≡ Some c) }
    ensures err { IsErrOf result Unread.Unreadable → command [] (codes "pools" ∷ words.old) ≡ None }
{
    words.end()?;
    Ok(Command::PoolStatus)
}

fn create_filter(words: &mut Words) -> Result<Command, Unread>
    ensures ok { IfOk result (λ c. command [] (codes "filter" ∷ words.old) ≡ Some c) }
    ensures err { IsErrOf result Unread.Unreadable
        → command [] (codes "filter" ∷ words.old) ≡ None }
{
    let filter = words.filter()?;
    let caps = words.caps()?;
    let rule = rule(words)?;
    Ok(Command::CreateFilter { filter, caps, rule })
}

fn set_filter(words: &mut Words) -> Result<Command, Unread>
    ensures ok { IfOk result (λ c. command [] (codes "setfilter" ∷ words.old) ≡ Some c) }
    ensures err { IsErrOf result Unread.Unreadable
        → command [] (codes "setfilter" ∷ words.old) ≡ None }
{
    let filter = words.filter()?;
    let rule = rule(words)?;
    Ok(Command::SetFilter { filter, rule })
}

/// The message whose full bytes all words say.
pub(crate) fn message(alloc: Global, words: &mut Words) -> Result<Message, Unread>
    ensures ok { IfOk result (λ m. says.message words.old ≡ Some m) }
    ensures err { IsErrOf result Unread.Unreadable → says.message words.old ≡ None }
{
    // Most messages are such.
    if let Some((status, first, second)) = words.three_bytes() {
        if let Some(message) = with_two_data(status, first, second) {
            return Ok(message);
        }
    }
    any_message(alloc, words)
}

/// The message with this status and two data bytes, where that is one.
#[inline]
fn with_two_data(status: u8, first: u8, second: u8) -> Option<Message>
    ensures { IfSome result
        (λ m. only_if is_message (Some (status ∷ first ∷ second ∷ [])) ≡ Some m) }
{
    match StatusClass::of(status) {
        StatusClass::Channel(Width::Two) | StatusClass::Common(Width::Two) => {
            if first < 0x80 && second < 0x80 {
                Some(Message::with_two(status, first, second))
            } else {
                None
            }
        }
        _ => None,
    }
}

/// The message whose full bytes all words say, of any kind.
#[inline(never)]
fn any_message(alloc: Global, words: &mut Words) -> Result<Message, Unread>
    ensures ok { IfOk result (λ m. says.message words.old ≡ Some m) }
    ensures err { IsErrOf result Unread.Unreadable → says.message words.old ≡ None }
{
    let bytes = words.bytes(alloc)?;
    let message = Message::from_bytes(alloc, bytes.as_slice())?;
    message.ok_or(Unread::Unreadable)
}

/// What all words say of a filter's rule.
fn rule(words: &mut Words) -> Result<RuleArgs, Unread>
    ensures ok { IfOk result (λ r.
        (make : RuleArgs → Command) → rule make words.old ≡ Some (make r)) }
    ensures err { OnErr result ((make : RuleArgs → Command) → rule make words.old ≡ None) }
    ensures only { IfErr result (λ e. e ≡ Unread.Unreadable) }
{
    let channels = words.u16()?;
    let kinds = Kinds::from_bits_retain(words.u16()?);
    let low = words.u8()?;
    let high = words.u8()?;
    let shift = words.shift()?;
    let channel = words.maybe_u8()?;
    Ok(RuleArgs {
        channels,
        kinds,
        low,
        high,
        shift,
        channel,
    })
}

/// The words of the commands, in the order of the table: those that long scripts are full of come first.
const KEYWORDS: [&[u8]; 27] = [
    b"schedule",
    b"send",
    b"bytes",
    b"play",
    b"receive",
    b"open",
    b"close",
    b"port",
    b"unport",
    b"filter",
    b"setfilter",
    b"unfilter",
    b"connect",
    b"disconnect",
    b"queue",
    b"queuefrom",
    b"unqueue",
    b"start",
    b"stop",
    b"continue",
    b"tempo",
    b"status",
    b"share",
    b"drop",
    b"listen",
    b"unlisten",
    b"pools",
];

/// The place of a word in the table; that past the last where it is none of them.
pub(crate) fn keyword(word: &[u8]) -> usize
    ensures { result ≡ position_or_len (λ k. bytes_eq k.now word.now) KEYWORDS }
{
    place_in(&KEYWORDS, word)
}

fn place_in(keywords: &[&[u8]], word: &[u8]) -> usize
    ensures { result ≡ position_or_len (λ k. bytes_eq k.now word.now) keywords.now }
{
    first_in(keywords, word).unwrap_or(keywords.len())
}

fn first_in(keywords: &[&[u8]], word: &[u8]) -> Option<usize>
    ensures { result ≡ position (λ k. bytes_eq k.now word.now) keywords.now }
{
    keywords.iter().position(|k| *k == word)
}

/// The command that all words say.
pub(crate) fn command_of(
    alloc: Global,
    names: &[Vec<u8>],
    words: &mut Words,
) -> Result<Command, Unread>
    requires { length names.now ≤ MOST_FILES }
    ensures ok { IfOk result (λ c. command (map (λ n. n.items) names.now) words.old ≡ Some c) }
    ensures err { IsErrOf result Unread.Unreadable
        → command (map (λ n. n.items) names.now) words.old ≡ None }
{
    // Long scripts are full of these.
    if words.pass_schedule() {
        return schedule(alloc, words);
    }
    row_of(alloc, names, words)
}

/// The same, by the table.
// A call of its own hands the command over as a whole, and not field by field.
#[inline(never)]
fn row_of(alloc: Global, names: &[Vec<u8>], words: &mut Words) -> Result<Command, Unread>
    requires { length names.now ≤ MOST_FILES }
    ensures ok { IfOk result (λ c. command (map (λ n. n.items) names.now) words.old ≡ Some c) }
    ensures err { IsErrOf result Unread.Unreadable
        → command (map (λ n. n.items) names.now) words.old ≡ None }
{
    let word = words.any()?;
    match keyword(word) {
        0 => schedule(alloc, words),
        1 => send(alloc, words),
        2 => bytes(alloc, words),
        3 => play(names, words),
        4 => receive(words),
        5 => open(alloc, words),
        6 => close(words),
        7 => create_port(alloc, words),
        8 => delete_port(words),
        9 => create_filter(words),
        10 => set_filter(words),
        11 => delete_filter(words),
        12 => connect(words),
        13 => disconnect(words),
        14 => create_queue(words),
        15 => create_queue_from(names, words),
        16 => delete_queue(words),
        17 => start(words),
        18 => stop(words),
        19 => resume(words),
        20 => tempo(words),
        21 => queue_status(words),
        22 => share(words),
        23 => drop_output(words),
        24 => listen(words),
        25 => unlisten(words),
        26 => pool_status(words),
        _ => Err(Unread::Unreadable),
    }
}
