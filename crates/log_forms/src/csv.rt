//! Entries as rows of CSV.

ghost use Rattle.std.specs.Prelude.{◌≡◌, ◌++◌, OnOk, codes};
ghost use Rattle.std.specs.List.{flat_map, list_any, position};
ghost use Rattle.log_forms.specs.Csv.{is_quote, needs_quotes, doubled, field, row, maybe, message_columns, outcome_columns, csv_arrival, csv_reply, csv_skip, csv_listed, csv_entry, head};
ghost use Rattle.text_forms.specs.Hex.{in_hex};
ghost use Rattle.log_forms.specs.Kinds.{shape_of};
ghost use Rattle.log_forms.specs.Kept.{arrival_seen, outcome_seen, entry_seen};

use crate::entry::{Arrival, Entry, Outcome};
use crate::hex_text::HexText;
use crate::kind::{channel_from_1, kind_of};
use crate::pieces::push_pieces;
use memory::OutOfMemory;
use text_forms::push_decimal;

// ---- fields

fn is_quote(byte: u8) -> bool
    ensures { result ≡ is_quote byte }
{
    byte == b'"'
}

fn first_quote(text: &[u8]) -> Option<usize>
    ensures { result ≡ position is_quote text.now }
{
    text.iter().position(|b| is_quote(*b))
}

fn needs_quotes(byte: u8) -> bool
    ensures { result ≡ needs_quotes byte }
{
    is_quote(byte) || byte == b',' || byte == b'\n' || byte == b'\r'
}

fn any_needs_quotes(text: &[u8]) -> bool
    ensures { result ≡ list_any needs_quotes text.now }
{
    text.iter().any(|b| needs_quotes(*b))
}

/// Adds a text with its quotation marks doubled.
// Text between them is copied at once.
fn push_doubled(out: &mut Vec<u8>, text: &[u8]) -> Result<(), OutOfMemory>
    ensures { OnOk result (out.new.items ≡ out.old.items ++ flat_map doubled text.now) }
{
    let mut rest = text;
    while let Some(at) = first_quote(rest) {
        out.extend_from_slice(&rest[..at])?;
        out.extend_from_slice(b"\"\"")?;
        rest = &rest[at + 1..];
    }
    out.extend_from_slice(rest)?;
    Ok(())
}

/// Adds a text as a field.
fn push_field(out: &mut Vec<u8>, text: &[u8]) -> Result<(), OutOfMemory>
    ensures { OnOk result (out.new.items ≡ out.old.items ++ field text.now) }
{
    if any_needs_quotes(text) {
        out.push(b'"')?;
        push_doubled(out, text)?;
        out.push(b'"')?;
    } else {
        out.extend_from_slice(text)?;
    }
    Ok(())
}

// ---- entries

/// Adds the names of the columns.
pub(crate) fn push_head(out: &mut Vec<u8>) -> Result<(), OutOfMemory>
    ensures { OnOk result (out.new.items ≡ out.old.items ++ head) }
{
    out.extend_from_slice(
        b"entry,client,line,moment,port,outcome,detail,kind,channel,data1,data2,bytes\n",
    )?;
    Ok(())
}

/// Adds a comma, and a number if there is one.
fn push_number(out: &mut Vec<u8>, number: Option<u8>) -> Result<(), OutOfMemory>
    ensures { OnOk result (out.new.items ≡ out.old.items ++ codes "," ++ maybe number) }
{
    out.push(b',')?;
    if let Some(number) = number {
        push_decimal(out, u64::from(number))?;
    }
    Ok(())
}

/// Adds the columns from the kind on.
fn push_message(out: &mut Vec<u8>, message: &HexText) -> Result<(), OutOfMemory>
    ensures { OnOk result (out.new.items ≡ out.old.items
        ++ row (message_columns (shape_of message.now) (in_hex message.now))) }
{
    let shape = message.shape();
    out.extend_from_slice(kind_of(shape.status()).name())?;
    push_number(out, channel_from_1(shape.status()))?;
    push_number(out, shape.first_data())?;
    push_number(out, shape.second_data())?;
    push_pieces(out, &[b",", message.as_text(), b"\n"])
}

fn push_arrival(
    out: &mut Vec<u8>,
    entry: &[u8],
    client: &[u8],
    arrival: &Arrival,
) -> Result<(), OutOfMemory>
    ensures { OnOk result (out.new.items
        ≡ out.old.items ++ csv_arrival entry.now client.now (arrival_seen arrival.now)) }
{
    push_pieces(
        out,
        &[
            entry,
            b",",
            client,
            b",,",
            arrival.moment,
            b",",
            arrival.port,
            b",,,",
        ],
    )?;
    push_message(out, &arrival.message)
}

/// Adds the columns from the outcome on.
fn push_outcome(out: &mut Vec<u8>, outcome: &Outcome) -> Result<(), OutOfMemory>
    ensures { OnOk result (out.new.items
        ≡ out.old.items ++ row (outcome_columns (outcome_seen outcome.now))) }
{
    match outcome {
        Outcome::Done => push_pieces(out, &[b"ok,,,,,,\n"]),
        Outcome::Count(count) => push_pieces(out, &[b"ok,", count, b",,,,,\n"]),
        Outcome::Queue { state, tick, nanos } => push_pieces(
            out,
            &[b"ok,", state, b" ", tick, b" ", nanos, b",,,,,\n"],
        ),
        Outcome::Pools {
            waiting,
            lost,
            used,
        } => push_pieces(
            out,
            &[
                b"ok,waiting ",
                waiting,
                b" lost ",
                lost,
                b" used ",
                used,
                b",,,,,\n",
            ],
        ),
        Outcome::Refused { number, name } => push_pieces(
            out,
            &[b"refused,", number, b" ", name, b",,,,,\n"],
        ),
    }
}

fn push_reply(
    out: &mut Vec<u8>,
    client: &[u8],
    moment: &[u8],
    line: &[u8],
    outcome: &Outcome,
) -> Result<(), OutOfMemory>
    ensures { OnOk result (out.new.items ≡ out.old.items
        ++ csv_reply client.now moment.now line.now (outcome_seen outcome.now)) }
{
    push_pieces(out, &[b"reply,", client, b",", line, b",", moment, b",,"])?;
    push_outcome(out, outcome)
}

fn push_skip(
    out: &mut Vec<u8>,
    client: &[u8],
    line: &[u8],
    reason: &[u8],
) -> Result<(), OutOfMemory>
    ensures { OnOk result (out.new.items
        ≡ out.old.items ++ csv_skip client.now line.now reason.now) }
{
    push_pieces(
        out,
        &[b"skip,", client, b",", line, b",,,,", reason, b",,,,,\n"],
    )
}

/// Adds a line of a listing.
pub(crate) fn push_listed(out: &mut Vec<u8>, text: &[u8]) -> Result<(), OutOfMemory>
    ensures { OnOk result (out.new.items ≡ out.old.items ++ csv_listed text.now) }
{
    out.extend_from_slice(b"list,,,,,,")?;
    push_field(out, text)?;
    out.extend_from_slice(b",,,,,\n")?;
    Ok(())
}

/// Adds an entry of a client's log.
pub(crate) fn push_entry(out: &mut Vec<u8>, client: &[u8], entry: &Entry) -> Result<(), OutOfMemory>
    ensures { OnOk result (out.new.items
        ≡ out.old.items ++ csv_entry client.now (entry_seen entry.now)) }
{
    match entry {
        Entry::Skip { line, reason } => push_skip(out, client, line, reason),
        Entry::Delivery(arrival) => push_arrival(out, b"delivery", client, arrival),
        Entry::Received(arrival) => push_arrival(out, b"received", client, arrival),
        Entry::Reply {
            moment,
            line,
            outcome,
        } => push_reply(out, client, moment, line, outcome),
        Entry::Listed(text) => push_listed(out, text),
    }
}
