//! The logs of a run: of one client, and of all in one pass.

ghost use Rattle.std.specs.Prelude.{◌≡◌, ◌==◌, ◌<◌, ◌≤◌, ◌+◌, ℕ, [], ◌∷◌, count_by, IfOk, OnOk, map, length, get_or, ◌++◌};
ghost use Rattle.std.specs.List.{position_or_len};
ghost use Rattle.node_table.specs.Numbers.{first_client, most_clients};
ghost use Rattle.seq_session.specs.Rising.{AreRising};
ghost use Rattle.seq_session.specs.AllLogs.{clients_read, hearer, AreSeats, logs_of, TellMore, AreRising-prop};
ghost use Rattle.seq_session.specs.Logs.{log_text, skips_text, entries_text};

use crate::lines::{Scratch, push_delivery, push_entry, push_reply_at, push_skips};
use crate::merged::Merged;
use memory::OutOfMemory;
use node_table::{ClientId, FIRST_CLIENT, MOST_CLIENTS, row_of};
use script_text::ScriptRead;
use seq_engine::{RunLog, StepOut};
use seq_state::{Delivery, Input, LogEntry, Reply};
use std::alloc::Global;

/// Most lines are no longer. A text gets room for as many, so that it is seldom moved as it grows.
const LINE: usize = 32;

/// The log of one client.
pub fn log_text(
    alloc: Global,
    read: &ScriptRead,
    merged: &Merged,
    log: &RunLog,
) -> Result<Vec<u8>, OutOfMemory>
    ensures { IfOk result (λ t. t.items ≡ log_text read.now merged.now.lines log.now.entries) }
{
    let mut text = Vec::new(alloc);
    let mut scratch = Scratch::new(alloc);
    push_skips(&mut text, read.skips.as_slice())?;
    let lines = merged.lines.as_slice();
    push_entries(
        &mut text,
        &mut scratch,
        read.client,
        lines,
        log.entries.as_slice(),
    )?;
    Ok(text)
}

/// Adds what the entries of a run say to a client.
fn push_entries(
    text: &mut Vec<u8>,
    scratch: &mut Scratch,
    client: ClientId,
    lines: &[u64],
    entries: &[LogEntry],
) -> Result<(), OutOfMemory>
    ensures { OnOk result (text.new.items
        ≡ text.old.items ++ entries_text client lines.now entries.now) }
{
    for entry in entries {
        push_entry(text, scratch, client, lines, entry)?;
    }
    Ok(())
}

/// The logs of all clients, in one pass over the entries of the run.
pub fn log_texts(
    alloc: Global,
    reads: &[ScriptRead],
    merged: &Merged,
    log: &RunLog,
) -> Result<Vec<Vec<u8>>, OutOfMemory>
    requires rising { AreRising (clients_read reads.now) }
    ensures { IfOk result (λ ts. map (λ t. t.items) ts.items
        ≡ map (λ r. log_text r merged.now.lines log.now.entries) reads.now) }
{
    let heard = entries_heard(log.entries.as_slice());
    let mut texts = started(alloc, reads, &heard)?;
    let mut scratch = Scratch::new(alloc);
    let seating = Seating::new(reads, merged.lines.as_slice());
    push_all(&seating, &mut texts, &mut scratch, log.entries.as_slice())?;
    Ok(texts)
}

/// How many entries each client hears of, by `row_of`.
fn entries_heard(entries: &[LogEntry]) -> [usize; MOST_CLIENTS]
    ensures { (k : ℕ) → k < most_clients →
        get_or result k 0 ≡ count_by (λ e. hearer e == (first_client + k)) entries.now }
{
    let mut counts = [0usize; MOST_CLIENTS];
    for entry in entries {
        counts[row_of(hearer(entry))] += 1;
    }
    counts
}

/// Each client's log with its skipped lines, and room for the entries that it hears of.
pub(crate) fn started(
    alloc: Global,
    reads: &[ScriptRead],
    heard: &[usize; MOST_CLIENTS],
) -> Result<Vec<Vec<u8>>, OutOfMemory>
    ensures { IfOk result (λ ts. map (λ t. t.items) ts.items
        ≡ map (λ r. skips_text r.skips) reads.now) }
{
    let mut texts = Vec::new(alloc);
    for read in reads {
        let lines = heard[row_of(read.client)];
        let mut text = Vec::with_capacity(alloc, lines.saturating_mul(LINE))?;
        push_skips(&mut text, read.skips.as_slice())?;
        texts.push(text)?;
    }
    Ok(texts)
}

/// The client that hears of an entry.
fn hearer(entry: &LogEntry) -> ClientId
    ensures { result ≡ hearer entry.now }
{
    match entry {
        LogEntry::Delivered(delivery) => delivery.target.client,
        LogEntry::Replied { client, .. } => *client,
    }
}

/// Where a client's script stands; past the last where it has none.
fn seat_of(reads: &[ScriptRead], client: u8) -> usize
    ensures value { result ≡ position_or_len (λ r. r.client == client) reads.now }
    ensures within { result ≤ length reads.now }
{
    let mut seat = 0;
    while seat < reads.len() && reads[seat].client.number() != client {
        seat += 1;
    }
    seat
}

/// Where each client's script stands, by `row_of`.
fn seats_of(reads: &[ScriptRead]) -> [usize; MOST_CLIENTS]
    ensures { AreSeats reads.now result }
{
    let mut seats = [0usize; MOST_CLIENTS];
    for k in 0..MOST_CLIENTS {
        seats[k] = seat_of(reads, FIRST_CLIENT + k as u8);
    }
    seats
}

/// In which log a client's lines stand, and the line of each input.
#[derive(Drop)]
pub(crate) struct Seating<'r> {
    reads: &'r [ScriptRead],
    lines: &'r [u64],
    /// Where each client's script stands, by `row_of`; past the last where it has none.
    seats: [usize; MOST_CLIENTS],
    ghost rising: { AreRising (clients_read reads.now) } by { AreRising-prop (clients_read reads.now) },
    ghost seated: { AreSeats reads.now seats },
}

impl<'r> Seating<'r> {
    pub(crate) fn new(reads: &'r [ScriptRead], lines: &'r [u64]) -> Seating<'r>
        requires { AreRising (clients_read reads.now) }
        ensures reads { result.reads.now ≡ reads.now }
        ensures lines { result.lines.now ≡ lines.now }
    {
        let seats = seats_of(reads);
        Seating {
            reads,
            lines,
            seats,
        }
    }
}

/// Adds each entry to the log of the client that hears of it.
fn push_all(
    seating: &Seating<'_>,
    texts: &mut Vec<Vec<u8>>,
    scratch: &mut Scratch,
    entries: &[LogEntry],
) -> Result<(), OutOfMemory>
    requires started { map (λ t. t.items) texts.old.items
        ≡ map (λ r. skips_text r.skips) seating.now.reads.now }
    ensures { OnOk result (map (λ t. t.items) texts.new.items
        ≡ logs_of seating.now.reads.now seating.now.lines.now entries.now) }
{
    for entry in entries {
        push_heard(seating, texts, scratch, entry)?;
    }
    Ok(())
}

/// Adds an entry to the log of the client that hears of it.
fn push_heard(
    seating: &Seating<'_>,
    texts: &mut Vec<Vec<u8>>,
    scratch: &mut Scratch,
    entry: &LogEntry,
) -> Result<(), OutOfMemory>
    ensures { OnOk result (TellMore seating.now.reads.now seating.now.lines.now (entry.now ∷ [])
        (map (λ t. t.items) texts.old.items) (map (λ t. t.items) texts.new.items)) }
{
    match entry {
        LogEntry::Delivered(delivery) => push_delivered(seating, texts, scratch, delivery),
        LogEntry::Replied {
            index,
            moment,
            client,
            reply,
        } => push_replied(seating, texts, scratch, *index, *moment, *client, reply),
    }
}

/// Adds a delivery to the log of the client to whose port it came, if it has one.
fn push_delivered(
    seating: &Seating<'_>,
    texts: &mut Vec<Vec<u8>>,
    scratch: &mut Scratch,
    delivery: &Delivery,
) -> Result<(), OutOfMemory>
    ensures { OnOk result (TellMore seating.now.reads.now seating.now.lines.now
        (LogEntry.Delivered delivery.now ∷ [])
        (map (λ t. t.items) texts.old.items) (map (λ t. t.items) texts.new.items)) }
{
    let seat = seating.seats[row_of(delivery.target.client)];
    if let Some(text) = texts.get_mut(seat) {
        push_delivery(text, scratch, delivery)?;
    }
    Ok(())
}

/// Adds the reply to the input at a place to the log of the client that it is told, if it has one.
fn push_replied(
    seating: &Seating<'_>,
    texts: &mut Vec<Vec<u8>>,
    scratch: &mut Scratch,
    place: u64,
    moment: u64,
    client: ClientId,
    reply: &Reply,
) -> Result<(), OutOfMemory>
    ensures { OnOk result (TellMore seating.now.reads.now seating.now.lines.now
        (LogEntry.Replied place moment client reply.now ∷ [])
        (map (λ t. t.items) texts.old.items) (map (λ t. t.items) texts.new.items)) }
{
    let seat = seating.seats[row_of(client)];
    if let Some(text) = texts.get_mut(seat) {
        push_reply_at(text, scratch, seating.lines, place, moment, reply)?;
    }
    Ok(())
}

/// Adds what one input gave: what was delivered, and then the reply.
pub(crate) fn push_out(
    seating: &Seating<'_>,
    texts: &mut Vec<Vec<u8>>,
    scratch: &mut Scratch,
    index: u64,
    input: &Input,
    out: &StepOut,
) -> Result<(), OutOfMemory>
    ensures { OnOk result (TellMore seating.now.reads.now seating.now.lines.now
        (map (λ d. LogEntry.Delivered d) out.now.delivered
        ++ LogEntry.Replied index input.now.moment input.now.actor out.now.reply ∷ [])
        (map (λ t. t.items) texts.old.items) (map (λ t. t.items) texts.new.items)) }
{
    let client = input.actor;
    let moment = input.moment;
    push_all_delivered(seating, texts, scratch, out.delivered.as_slice())?;
    push_replied(seating, texts, scratch, index, moment, client, &out.reply)
}

/// Adds each delivery to the log of the client to whose port it came.
pub(crate) fn push_all_delivered(
    seating: &Seating<'_>,
    texts: &mut Vec<Vec<u8>>,
    scratch: &mut Scratch,
    delivered: &[Delivery],
) -> Result<(), OutOfMemory>
    ensures { OnOk result (TellMore seating.now.reads.now seating.now.lines.now
        (map (λ d. LogEntry.Delivered d) delivered.now)
        (map (λ t. t.items) texts.old.items) (map (λ t. t.items) texts.new.items)) }
{
    for delivery in delivered {
        push_delivered(seating, texts, scratch, delivery)?;
    }
    Ok(())
}
