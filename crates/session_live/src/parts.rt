//! The parts of answers, as text.

ghost use Rattle.std.specs.Prelude.{◌≡◌, ◌++◌, [], false, Some, map, codes, OnOk};
ghost use Rattle.std.specs.Fmt.{decimal};
ghost use Rattle.seq_session.specs.Logs.{below, reply_text};
ghost use Rattle.session_live.specs.Answers.{fronted, to_client, part_text, parts_text};
ghost use Rattle.session_live.specs.Answers as part;

use crate::cutting::line_end;
use memory::OutOfMemory;
use node_table::ClientId;
use script_text::{Skip, SkipReason};
use seq_session::{Scratch, push_delivery, push_reply, push_skip};
use seq_state::{Delivery, Reply};
use std::alloc::Global;
use text_forms::push_decimal;

/// Adds the parts of answers to texts.
#[derive(Drop)]
pub(crate) struct Writer {
    scratch: Scratch,
    /// Lines that a log would have, before each gets its front.
    lines: Vec<u8>,
}

impl Writer {
    pub(crate) fn new(alloc: Global) -> Writer {
        Writer {
            scratch: Scratch::new(alloc),
            lines: Vec::new(alloc),
        }
    }

    /// Adds a line for each delivery.
    pub(crate) fn push_comes(
        &mut self,
        text: &mut Vec<u8>,
        delivered: &[Delivery],
    ) -> Result<(), OutOfMemory>
        ensures { OnOk result (text.new.items
            ≡ text.old.items ++ parts_text (map part.Comes delivered.now)) }
    {
        for delivery in delivered {
            self.push_come(text, delivery)?;
        }
        Ok(())
    }

    /// Adds the line of a delivery.
    fn push_come(&mut self, text: &mut Vec<u8>, delivery: &Delivery) -> Result<(), OutOfMemory>
        ensures { OnOk result
            (text.new.items ≡ text.old.items ++ part_text (part.Comes delivery.now)) }
    {
        push_front(text, delivery.target.client)?;
        push_delivery(text, &mut self.scratch, delivery)
    }

    /// Adds the lines of a reply to a client, at a moment in nanoseconds.
    pub(crate) fn push_answer(
        &mut self,
        text: &mut Vec<u8>,
        client: ClientId,
        moment: u64,
        number: u64,
        reply: &Reply,
    ) -> Result<(), OutOfMemory>
        ensures { OnOk result (text.new.items ≡ text.old.items
            ++ to_client client (reply_text moment (Some number) reply.now)) }
    {
        if has_more_below(reply) {
            self.lines.clear();
            push_reply(&mut self.lines, &mut self.scratch, moment, number, reply)?;
            return self.push_lines(text, client);
        }
        push_front(text, client)?;
        push_reply(text, &mut self.scratch, moment, number, reply)
    }

    /// Adds the line of a skipped line.
    pub(crate) fn push_skipped(
        &mut self,
        text: &mut Vec<u8>,
        client: &Option<ClientId>,
        number: u64,
        why: SkipReason,
    ) -> Result<(), OutOfMemory>
        ensures { OnOk result (text.new.items
            ≡ text.old.items ++ part_text (part.Skips client.now number why)) }
    {
        let skip = Skip { line: number, why };
        let Some(client) = *client else {
            return push_skip(text, skip);
        };
        self.lines.clear();
        push_skip(&mut self.lines, skip)?;
        self.push_lines(text, client)
    }

    /// Adds the lines that were made, each with the client before it.
    fn push_lines(&mut self, text: &mut Vec<u8>, client: ClientId) -> Result<(), OutOfMemory>
        ensures { OnOk result
            (text.new.items ≡ text.old.items ++ to_client client self.old.lines.items) }
    {
        let front = front_of(client);
        push_fronted(text, &front, self.lines.as_slice())
    }
}

/// Whether the reply may have lines below its own.
fn has_more_below(reply: &Reply) -> bool
    ensures { result ≡ false → below reply.now ≡ [] }
{
    matches!(reply, Reply::Received(_))
}

/// The number of a client, which has three digits, as it stands before its lines.
#[inline(always)]
fn front_of(client: ClientId) -> [u8; 4]
    ensures { result ≡ decimal client ++ codes " " }
{
    let number = client.number();
    [b'1', b'0' + number / 10 % 10, b'0' + number % 10, b' ']
}

/// Adds the number of a client, as it stands before its lines.
#[inline(always)]
fn push_front(text: &mut Vec<u8>, client: ClientId) -> Result<(), OutOfMemory>
    ensures { OnOk result (text.new.items ≡ text.old.items ++ decimal client ++ codes " ") }
{
    text.extend_from_slice(&front_of(client))?;
    Ok(())
}

/// Adds each line of a text, with some bytes before it. What stands behind the last line feed is no line.
pub(crate) fn push_fronted(
    text: &mut Vec<u8>,
    front: &[u8],
    lines: &[u8],
) -> Result<(), OutOfMemory>
    ensures { OnOk result (text.new.items ≡ text.old.items ++ fronted front.now lines.now) }
{
    let mut rest = lines;
    while let Some(end) = line_end(rest) {
        text.extend_from_slice(front)?;
        text.extend_from_slice(&rest[..end])?;
        text.push(b'\n')?;
        rest = &rest[end + 1..];
    }
    Ok(())
}

/// Adds when something is due next, in nanoseconds.
pub(crate) fn push_next(text: &mut Vec<u8>, moment: Option<u64>) -> Result<(), OutOfMemory>
    ensures { OnOk result (text.new.items ≡ text.old.items ++ part_text (part.Next moment)) }
{
    text.extend_from_slice(b"next ")?;
    match moment {
        Some(moment) => push_decimal(text, moment)?,
        None => {
            text.extend_from_slice(b"never")?;
        }
    }
    text.push(b'\n')?;
    Ok(())
}
