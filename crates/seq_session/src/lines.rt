//! The lines of logs.

ghost use Rattle.std.specs.Prelude.{◌≡◌, ◌++◌, Some, OnOk, codes, slice_get};
ghost use Rattle.std.specs.Fmt.{decimal};
ghost use Rattle.std.specs.List.{flat_map};
ghost use Rattle.script_text.specs.Reasons.{reason_text};
ghost use Rattle.seq_session.specs.Logs.{skip_line, skips_text, arrival_text, delivery_line, got_line, name_numbered, outcome, below, reply_text, entry_text};

use crate::moment::MomentText;
use memory::OutOfMemory;
use midi_wire::{FullBytes, Message, ShortMessage};
use node_table::{ClientId, PortNo};
use script_text::{Skip, SkipReason};
use seq_state::{Arrival, Delivery, LogEntry, Refusal, Reply};
use std::alloc::Global;
use text_forms::{push_decimal, push_spaced_line};

/// What is kept from one line of logs to the next, for speed alone.
#[derive(Drop)]
pub struct Scratch {
    /// The bytes of the last long message.
    bytes: Vec<u8>,
    /// The last moment.
    moment: MomentText,
}

impl Scratch {
    /// It takes no memory yet.
    pub fn new(alloc: Global) -> Scratch {
        Scratch {
            bytes: Vec::new(alloc),
            moment: MomentText::new(0),
        }
    }
}

fn reason_word(why: SkipReason) -> &'static [u8]
    ensures { result.now ≡ reason_text why }
{
    match why {
        SkipReason::Unreadable => b"unreadable",
        SkipReason::PastEnd => b"past-end",
        SkipReason::Late => b"late",
        SkipReason::TooLong => b"too-long",
    }
}

/// Adds the line of a skipped line. After an error the text ends within it.
pub fn push_skip(text: &mut Vec<u8>, skip: Skip) -> Result<(), OutOfMemory>
    ensures { OnOk result (text.new.items ≡ text.old.items ++ skip_line skip) }
{
    text.extend_from_slice(b"skip ")?;
    push_decimal(text, skip.line)?;
    text.push(b' ')?;
    text.extend_from_slice(reason_word(skip.why))?;
    text.push(b'\n')?;
    Ok(())
}

/// Adds a line for each skipped line.
pub(crate) fn push_skips(text: &mut Vec<u8>, skips: &[Skip]) -> Result<(), OutOfMemory>
    ensures { OnOk result (text.new.items ≡ text.old.items ++ skips_text skips.now) }
{
    for skip in skips {
        push_skip(text, *skip)?;
    }
    Ok(())
}

/// Adds the line of a message that came to a port at a moment.
// Most messages are short, and their number of bytes is known here.
#[inline(always)]
fn push_came(
    text: &mut Vec<u8>,
    scratch: &mut Scratch,
    moment: u64,
    port: PortNo,
    message: &Message,
) -> Result<(), OutOfMemory>
    ensures { OnOk result (text.new.items
        ≡ text.old.items ++ decimal moment ++ arrival_text port message.now) }
{
    match message.full_bytes() {
        FullBytes::Short(ShortMessage::Three(status, first, second)) => {
            scratch
                .moment
                .push_line(text, moment, port, &[status, first, second])
        }
        FullBytes::Short(ShortMessage::Two(status, first)) => {
            scratch
                .moment
                .push_line(text, moment, port, &[status, first])
        }
        FullBytes::Short(ShortMessage::One(status)) => {
            scratch.moment.push_line(text, moment, port, &[status])
        }
        FullBytes::Exclusive(_) => push_long(text, scratch, moment, port, message),
    }
}

/// The same of a long message.
#[inline(never)]
fn push_long(
    text: &mut Vec<u8>,
    scratch: &mut Scratch,
    moment: u64,
    port: PortNo,
    message: &Message,
) -> Result<(), OutOfMemory>
    ensures { OnOk result (text.new.items
        ≡ text.old.items ++ decimal moment ++ arrival_text port message.now) }
{
    scratch.bytes.clear();
    message.append_to(&mut scratch.bytes)?;
    scratch.moment.push(text, moment)?;
    push_word_and_number(text, b" port ", u64::from(port.number()))?;
    push_spaced_line(text, scratch.bytes.as_slice())
}

/// Adds the line of a delivery. After an error the text ends within it.
#[inline(always)]
pub fn push_delivery(
    text: &mut Vec<u8>,
    scratch: &mut Scratch,
    delivery: &Delivery,
) -> Result<(), OutOfMemory>
    ensures { OnOk result (text.new.items ≡ text.old.items ++ delivery_line delivery.now) }
{
    push_came(
        text,
        scratch,
        delivery.moment,
        delivery.target.port,
        &delivery.message,
    )
}

fn push_got(text: &mut Vec<u8>, scratch: &mut Scratch, arrival: &Arrival) -> Result<(), OutOfMemory>
    ensures { OnOk result (text.new.items ≡ text.old.items ++ got_line arrival.now) }
{
    text.extend_from_slice(b"got ")?;
    push_came(
        text,
        scratch,
        arrival.moment,
        arrival.port,
        &arrival.message,
    )
}

fn push_gots(
    text: &mut Vec<u8>,
    scratch: &mut Scratch,
    arrivals: &[Arrival],
) -> Result<(), OutOfMemory>
    ensures { OnOk result (text.new.items ≡ text.old.items ++ flat_map got_line arrivals.now) }
{
    for arrival in arrivals {
        push_got(text, scratch, arrival)?;
    }
    Ok(())
}

fn push_word_and_number(text: &mut Vec<u8>, word: &[u8], n: u64) -> Result<(), OutOfMemory>
    ensures { OnOk result (text.new.items ≡ text.old.items ++ word.now ++ decimal n) }
{
    text.extend_from_slice(word)?;
    push_decimal(text, n)
}

/// Adds how a command ended, and below it what was received.
fn push_outcome(text: &mut Vec<u8>, scratch: &mut Scratch, reply: &Reply) -> Result<(), OutOfMemory>
    ensures { OnOk result (text.new.items
        ≡ text.old.items ++ outcome reply.now ++ codes "\n" ++ below reply.now) }
{
    match reply {
        Reply::Done => {
            text.extend_from_slice(b" ok\n")?;
        }
        Reply::Messages(n) => {
            push_word_and_number(text, b" ok ", *n)?;
            text.push(b'\n')?;
        }
        Reply::Queue {
            running,
            tick,
            nanos,
        } => {
            if *running {
                text.extend_from_slice(b" ok running")?;
            } else {
                text.extend_from_slice(b" ok stopped")?;
            }
            push_word_and_number(text, b" ", *tick)?;
            push_word_and_number(text, b" ", *nanos)?;
            text.push(b'\n')?;
        }
        Reply::Received(arrivals) => {
            push_word_and_number(text, b" ok ", arrivals.len() as u64)?;
            text.push(b'\n')?;
            push_gots(text, scratch, arrivals.as_slice())?;
        }
        Reply::Pools {
            waiting,
            lost,
            used,
        } => {
            push_word_and_number(text, b" ok waiting ", u64::from(*waiting))?;
            push_word_and_number(text, b" lost ", *lost)?;
            push_word_and_number(text, b" used ", u64::from(*used))?;
            text.push(b'\n')?;
        }
        Reply::Refused(number) => {
            push_word_and_number(text, b" refused ", u64::from(*number))?;
            text.push(b' ')?;
            text.extend_from_slice(name_numbered(*number))?;
            text.push(b'\n')?;
        }
    }
    Ok(())
}

/// The name of the refusal that has the number, and nothing for another number.
fn name_numbered(number: u8) -> &'static [u8]
    ensures { result.now ≡ name_numbered number }
{
    match Refusal::from_number(number) {
        Some(refusal) => refusal.name().as_bytes(),
        None => b"",
    }
}

/// Adds the lines of a reply to the input of a line, at a moment in nanoseconds. After an error the text ends within
/// them.
pub fn push_reply(
    text: &mut Vec<u8>,
    scratch: &mut Scratch,
    moment: u64,
    line: u64,
    reply: &Reply,
) -> Result<(), OutOfMemory>
    ensures { OnOk result (text.new.items
        ≡ text.old.items ++ reply_text moment (Some line) reply.now) }
{
    scratch.moment.push(text, moment)?;
    push_word_and_number(text, b" line ", line)?;
    push_outcome(text, scratch, reply)
}

/// Adds a reply to the input at a place, if that has a line.
pub(crate) fn push_reply_at(
    text: &mut Vec<u8>,
    scratch: &mut Scratch,
    lines: &[u64],
    place: u64,
    moment: u64,
    reply: &Reply,
) -> Result<(), OutOfMemory>
    ensures { OnOk result (text.new.items
        ≡ text.old.items ++ reply_text moment (slice_get lines.now place) reply.now) }
{
    let Some(line) = lines.get(place as usize) else {
        return Ok(());
    };
    push_reply(text, scratch, moment, *line, reply)
}

/// Adds what an entry of a run says to a client.
pub(crate) fn push_entry(
    text: &mut Vec<u8>,
    scratch: &mut Scratch,
    client: ClientId,
    lines: &[u64],
    entry: &LogEntry,
) -> Result<(), OutOfMemory>
    ensures { OnOk result (text.new.items
        ≡ text.old.items ++ entry_text client lines.now entry.now) }
{
    match entry {
        LogEntry::Delivered(delivery) => {
            if delivery.target.client == client {
                push_delivery(text, scratch, delivery)?;
            }
        }
        LogEntry::Replied {
            index,
            moment,
            client: actor,
            reply,
        } => {
            if *actor != client {
                return Ok(());
            }
            push_reply_at(text, scratch, lines, *index, *moment, reply)?;
        }
    }
    Ok(())
}
