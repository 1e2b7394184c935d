//! Entries as objects of JSON.

ghost use Rattle.std.specs.Prelude.{◌≡◌, ◌++◌, ◌<◌, ◌∷◌, [], OnOk, codes};
ghost use Rattle.std.specs.List.{flat_map, position};
ghost use Rattle.std.specs.Fmt.{decimal};
ghost use Rattle.log_forms.specs.Json.{Number, needs_escape, escaped, members, one_datum, two_data, data_members, channel_members, message_members, json_arrival, outcome_members, json_reply, json_skip, json_listed, json_entry, fourteen_bits, small_digit};
ghost use Rattle.log_forms.specs.Kept.{arrival_seen, outcome_seen, entry_seen};

use crate::entry::{Arrival, Entry, Outcome};
use crate::kind::{MessageKind, Shape, channel_from_1, kind_of};
use crate::pieces::push_pieces;
use itoa::Buffer;
use memory::OutOfMemory;

// ---- strings

fn needs_escape(byte: u8) -> bool
    ensures { result ≡ needs_escape byte }
{
    byte == b'"' || byte == b'\\' || byte < b' '
}

fn first_escape(text: &[u8]) -> Option<usize>
    ensures { result ≡ position needs_escape text.now }
{
    text.iter().position(|b| needs_escape(*b))
}

fn small_digit(value: u8) -> u8
    requires { value < 16 }
    ensures { result ≡ small_digit value }
{
    if value < 10 {
        b'0' + value
    } else {
        b'a' + (value - 10)
    }
}

/// Adds a byte with the escape that it needs.
fn push_escaped(out: &mut Vec<u8>, byte: u8) -> Result<(), OutOfMemory>
    ensures { OnOk result (out.new.items ≡ out.old.items ++ escaped byte) }
{
    match byte {
        b'"' => out.extend_from_slice(b"\\\"")?,
        b'\\' => out.extend_from_slice(b"\\\\")?,
        0x00..=0x1F => {
            let high = small_digit(byte / 16);
            let low = small_digit(byte % 16);
            out.extend_from_slice(&[b'\\', b'u', b'0', b'0', high, low])?
        }
        _ => out.push(byte)?,
    }
    Ok(())
}

/// Adds a text with the escapes that it needs.
// Text between escapes is copied at once.
fn push_all_escaped(out: &mut Vec<u8>, text: &[u8]) -> Result<(), OutOfMemory>
    ensures { OnOk result (out.new.items ≡ out.old.items ++ flat_map escaped text.now) }
{
    let mut rest = text;
    while let Some(at) = first_escape(rest) {
        out.extend_from_slice(&rest[..at])?;
        push_escaped(out, rest[at])?;
        rest = &rest[at + 1..];
    }
    out.extend_from_slice(rest)?;
    Ok(())
}

// ---- messages

/// The number of 14 bits whose less significant seven come first.
fn fourteen_bits(first: u8, second: u8) -> u16
    ensures { result ≡ fourteen_bits first second }
{
    u16::from(first) + 128 * u16::from(second)
}

/// Adds a member that is a number.
fn push_number(out: &mut Vec<u8>, name: &[u8], value: u16) -> Result<(), OutOfMemory>
    ensures { OnOk result (out.new.items
        ≡ out.old.items ++ (codes ",\"" ++ (name.now ++ (codes "\":" ++ decimal value)))) }
{
    let mut digits = Buffer::new();
    push_pieces(
        out,
        &[b",\"", name, b"\":", digits.format(value).as_bytes()],
    )
}

/// Adds a member that is a number, and the end of the object.
fn push_last_number(out: &mut Vec<u8>, name: &[u8], value: u16) -> Result<(), OutOfMemory>
    ensures { OnOk result (out.new.items
        ≡ out.old.items ++ members (Number name.now (decimal value) ∷ [])) }
{
    let mut digits = Buffer::new();
    push_pieces(
        out,
        &[
            b",\"",
            name,
            b"\":",
            digits.format(value).as_bytes(),
            b"}\n",
        ],
    )
}

/// Adds two members that are numbers, and the end of the object.
fn push_two_numbers(
    out: &mut Vec<u8>,
    first_name: &[u8],
    first: u8,
    second_name: &[u8],
    second: u8,
) -> Result<(), OutOfMemory>
    ensures { OnOk result (out.new.items ≡ out.old.items
        ++ members (Number first_name.now (decimal first)
        ∷ Number second_name.now (decimal second) ∷ [])) }
{
    push_number(out, first_name, u16::from(first))?;
    push_last_number(out, second_name, u16::from(second))
}

/// Adds the end of an object.
fn push_end(out: &mut Vec<u8>) -> Result<(), OutOfMemory>
    ensures { OnOk result (out.new.items ≡ out.old.items ++ members []) }
{
    out.extend_from_slice(b"}\n")?;
    Ok(())
}

/// Adds the data of a message of two bytes, and the end of the object.
fn push_one_datum(out: &mut Vec<u8>, kind: MessageKind, datum: u8) -> Result<(), OutOfMemory>
    ensures { OnOk result (out.new.items ≡ out.old.items ++ members (one_datum kind datum)) }
{
    match kind {
        MessageKind::ProgramChange => push_last_number(out, b"program", u16::from(datum)),
        MessageKind::ChannelPressure => push_last_number(out, b"pressure", u16::from(datum)),
        MessageKind::QuarterFrame => push_last_number(out, b"data", u16::from(datum)),
        MessageKind::SongSelect => push_last_number(out, b"song", u16::from(datum)),
        _ => push_end(out),
    }
}

/// Adds the data of a message of three bytes, and the end of the object.
fn push_two_data(
    out: &mut Vec<u8>,
    kind: MessageKind,
    first: u8,
    second: u8,
) -> Result<(), OutOfMemory>
    ensures { OnOk result (out.new.items ≡ out.old.items ++ members (two_data kind first second)) }
{
    match kind {
        MessageKind::NoteOff | MessageKind::NoteOn => {
            push_two_numbers(out, b"note", first, b"velocity", second)
        }
        MessageKind::PolyPressure => push_two_numbers(out, b"note", first, b"pressure", second),
        MessageKind::ControlChange => {
            push_two_numbers(out, b"controller", first, b"value", second)
        }
        MessageKind::PitchBend => push_last_number(out, b"value", fourteen_bits(first, second)),
        MessageKind::SongPosition => {
            push_last_number(out, b"position", fourteen_bits(first, second))
        }
        _ => push_end(out),
    }
}

/// Adds the data of a message, and the end of the object.
fn push_data(out: &mut Vec<u8>, kind: MessageKind, message: Shape) -> Result<(), OutOfMemory>
    ensures { OnOk result (out.new.items ≡ out.old.items ++ members (data_members kind message)) }
{
    match message {
        Shape::Two(_, datum) => push_one_datum(out, kind, datum),
        Shape::Three(_, first, second) => push_two_data(out, kind, first, second),
        Shape::One(_) | Shape::Other(_) => push_end(out),
    }
}

/// Adds the channel of a message, where it has one, its data, and the end of the object.
fn push_channel(out: &mut Vec<u8>, kind: MessageKind, message: Shape) -> Result<(), OutOfMemory>
    ensures { OnOk result (out.new.items ≡ out.old.items
        ++ members (channel_members kind message)) }
{
    if let Some(channel) = channel_from_1(message.status()) {
        push_number(out, b"channel", u16::from(channel))?;
    }
    push_data(out, kind, message)
}

/// Adds what a message says, and the end of the object.
fn push_message(out: &mut Vec<u8>, message: Shape) -> Result<(), OutOfMemory>
    ensures { OnOk result (out.new.items ≡ out.old.items ++ members (message_members message)) }
{
    let kind = kind_of(message.status());
    push_pieces(out, &[b",\"kind\":\"", kind.name(), b"\""])?;
    push_channel(out, kind, message)
}

// ---- entries

fn push_arrival(
    out: &mut Vec<u8>,
    entry: &[u8],
    client: &[u8],
    arrival: &Arrival,
) -> Result<(), OutOfMemory>
    ensures { OnOk result (out.new.items
        ≡ out.old.items ++ json_arrival entry.now client.now (arrival_seen arrival.now)) }
{
    push_pieces(
        out,
        &[
            b"{\"entry\":\"",
            entry,
            b"\",\"client\":",
            client,
            b",\"moment\":",
            arrival.moment,
            b",\"port\":",
            arrival.port,
            b",\"bytes\":\"",
            arrival.message.as_text(),
            b"\"",
        ],
    )?;
    push_message(out, arrival.message.shape())
}

/// Adds how a command ended, and the end of the object.
fn push_outcome(out: &mut Vec<u8>, outcome: &Outcome) -> Result<(), OutOfMemory>
    ensures { OnOk result (out.new.items
        ≡ out.old.items ++ members (outcome_members (outcome_seen outcome.now))) }
{
    match outcome {
        Outcome::Done => push_pieces(out, &[b",\"outcome\":\"ok\"}\n"]),
        Outcome::Count(count) => push_pieces(
            out,
            &[b",\"outcome\":\"ok\",\"count\":", count, b"}\n"],
        ),
        Outcome::Queue { state, tick, nanos } => push_pieces(
            out,
            &[
                b",\"outcome\":\"ok\",\"queue\":\"",
                state,
                b"\",\"tick\":",
                tick,
                b",\"nanos\":",
                nanos,
                b"}\n",
            ],
        ),
        Outcome::Pools {
            waiting,
            lost,
            used,
        } => push_pieces(
            out,
            &[
                b",\"outcome\":\"ok\",\"waiting\":",
                waiting,
                b",\"lost\":",
                lost,
                b",\"used\":",
                used,
                b"}\n",
            ],
        ),
        Outcome::Refused { number, name } => push_pieces(
            out,
            &[
                b",\"outcome\":\"refused\",\"refusal\":",
                number,
                b",\"name\":\"",
                name,
                b"\"}\n",
            ],
        ),
    }
}

fn push_reply(
    out: &mut Vec<u8>,
    client: &[u8],
    moment: &[u8],
    line: &[u8],
    outcome: &Outcome,
) -> Result<(), OutOfMemory>
    ensures { OnOk result (out.new.items ≡ out.old.items
        ++ json_reply client.now moment.now line.now (outcome_seen outcome.now)) }
{
    push_pieces(
        out,
        &[
            b"{\"entry\":\"reply\",\"client\":",
            client,
            b",\"moment\":",
            moment,
            b",\"line\":",
            line,
        ],
    )?;
    push_outcome(out, outcome)
}

fn push_skip(
    out: &mut Vec<u8>,
    client: &[u8],
    line: &[u8],
    reason: &[u8],
) -> Result<(), OutOfMemory>
    ensures { OnOk result (out.new.items
        ≡ out.old.items ++ json_skip client.now line.now reason.now) }
{
    push_pieces(
        out,
        &[
            b"{\"entry\":\"skip\",\"client\":",
            client,
            b",\"line\":",
            line,
            b",\"reason\":\"",
            reason,
            b"\"}\n",
        ],
    )
}

/// Adds a line of a listing.
pub(crate) fn push_listed(out: &mut Vec<u8>, text: &[u8]) -> Result<(), OutOfMemory>
    ensures { OnOk result (out.new.items ≡ out.old.items ++ json_listed text.now) }
{
    out.extend_from_slice(b"{\"entry\":\"list\",\"text\":\"")?;
    push_all_escaped(out, text)?;
    out.extend_from_slice(b"\"}\n")?;
    Ok(())
}

/// Adds an entry of a client's log.
pub(crate) fn push_entry(out: &mut Vec<u8>, client: &[u8], entry: &Entry) -> Result<(), OutOfMemory>
    ensures { OnOk result (out.new.items
        ≡ out.old.items ++ json_entry client.now (entry_seen entry.now)) }
{
    match entry {
        Entry::Skip { line, reason } => push_skip(out, client, line, reason),
        Entry::Delivery(arrival) => push_arrival(out, b"delivery", client, arrival),
        Entry::Received(arrival) => push_arrival(out, b"received", client, arrival),
        Entry::Reply {
            moment,
            line,
            outcome,
        } => push_reply(out, client, moment, line, outcome),
        Entry::Listed(text) => push_listed(out, text),
    }
}
