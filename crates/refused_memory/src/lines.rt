//! The text of a session, in lines that begin with a client's number.

use crate::ending::Ending;
use byte_io::{Sink, write_all};
use midi_wire::Message;
use node_table::PortNo;
use script_text::ScriptRead;
use seq_engine::{Delivery, Input, Refusal, Reply};
use std::alloc::Global;
use text_forms::{push_decimal, push_spaced};

/// Room for the lines of one call.
const ROOM: usize = 65_536;

/// Writes bytes.
pub fn print<W: Sink>(out: &mut W, bytes: &[u8]) -> Result<(), Ending> {
    if out.has_failed() || write_all(out, bytes).is_err() {
        return Err(Ending::Unusable);
    }
    Ok(())
}

/// Prints the lines that are skipped of a script.
pub fn print_skips<W: Sink>(alloc: Global, read: &ScriptRead, out: &mut W) -> Result<(), Ending> {
    for skip in read.skips.as_slice() {
        let client = read.client.number();
        let line = format!(in alloc; "{client} skip {} {}\n", skip.line, skip.why)?;
        print(out, line.as_bytes())?;
    }
    Ok(())
}

/// The lines of one call.
#[derive(Drop)]
pub struct Text {
    lines: Vec<u8>,
    bytes: Vec<u8>,
}

impl Text {
    pub fn new(alloc: Global) -> Result<Text, Ending> {
        Ok(Text {
            lines: Vec::with_capacity(alloc, ROOM)?,
            bytes: Vec::with_capacity(alloc, ROOM)?,
        })
    }

    /// Prints the lines, and begins anew.
    pub fn print<W: Sink>(&mut self, out: &mut W) -> Result<(), Ending> {
        print(out, self.lines.as_slice())?;
        self.lines.clear();
        Ok(())
    }

    fn push_number(&mut self, word: &[u8], number: u64) -> Result<(), Ending> {
        self.lines.extend_from_slice(word)?;
        push_decimal(&mut self.lines, number)?;
        Ok(())
    }

    /// Adds a message as it came to a port.
    fn push_message(&mut self, port: PortNo, message: &Message) -> Result<(), Ending> {
        self.bytes.clear();
        message.append_to(&mut self.bytes)?;
        self.push_number(b" port ", u64::from(port.number()))?;
        push_spaced(&mut self.lines, self.bytes.as_slice())?;
        Ok(())
    }

    pub fn push_deliveries(&mut self, deliveries: &[Delivery]) -> Result<(), Ending> {
        for delivery in deliveries {
            self.push_number(b"", u64::from(delivery.target.client.number()))?;
            self.push_number(b" ", delivery.moment)?;
            self.push_message(delivery.target.port, &delivery.message)?;
            self.lines.push(b'\n')?;
        }
        Ok(())
    }

    /// Adds the reply to the input of a script's line.
    pub fn push_reply(&mut self, input: &Input, line: u64, reply: &Reply) -> Result<(), Ending> {
        let client = u64::from(input.actor.number());
        self.push_number(b"", client)?;
        self.push_number(b" ", input.moment)?;
        self.push_number(b" line ", line)?;
        self.push_outcome(client, reply)
    }

    /// Adds how a command ended, and below it what was received.
    fn push_outcome(&mut self, client: u64, reply: &Reply) -> Result<(), Ending> {
        match reply {
            Reply::Done => self.lines.extend_from_slice(b" ok")?,
            Reply::Messages(n) => self.push_number(b" ok ", *n)?,
            Reply::Queue {
                running,
                tick,
                nanos,
            } => {
                let word = if *running {
                    b" ok running "
                } else {
                    b" ok stopped "
                };
                self.push_number(word, *tick)?;
                self.push_number(b" ", *nanos)?;
            }
            Reply::Received(arrivals) => {
                self.push_number(b" ok ", arrivals.len() as u64)?;
                for arrival in arrivals.as_slice() {
                    self.push_number(b"\n", client)?;
                    self.push_number(b" got ", arrival.moment)?;
                    self.push_message(arrival.port, &arrival.message)?;
                }
            }
            Reply::Pools {
                waiting,
                lost,
                used,
            } => {
                self.push_number(b" ok waiting ", u64::from(*waiting))?;
                self.push_number(b" lost ", *lost)?;
                self.push_number(b" used ", u64::from(*used))?;
            }
            Reply::Refused(number) => self.push_refusal(*number)?,
        }
        self.lines.push(b'\n')?;
        Ok(())
    }

    fn push_refusal(&mut self, number: u8) -> Result<(), Ending> {
        self.push_number(b" refused ", u64::from(number))?;
        if let Some(refusal) = Refusal::from_number(number) {
            self.lines.push(b' ')?;
            self.lines.extend_from_slice(refusal.name().as_bytes())?;
        }
        Ok(())
    }
}
