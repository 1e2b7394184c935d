//! Runs, and what clients hear of them.

use super::lines::{Lines, Part};
use crate::run_under_both;
use midi_wire::Message;
use seq_engine::*;
use std::alloc::Global;
use std::process::Abort;
use std::test::Fail;

/// What clients say, and what they hear of it.
#[derive(Clone, Copy)]
pub struct Run {
    pub parts: &'static [Part],
    pub until: u64,
}

/// Carries a run out under both agendas. Each client hears what was worked out.
pub fn assert_run(rt: &impl Abort, alloc: Global, run: &Run) -> Result<(), Fail> {
    assert_logs(rt, alloc, &ran(rt, alloc, run)?, run.parts)
}

/// Each client hears what was worked out.
pub fn assert_logs(
    rt: &impl Abort,
    alloc: Global,
    log: &RunLog,
    parts: &[Part],
) -> Result<(), Fail> {
    for part in parts {
        assert_log(rt, alloc, log, part.client, part.log)?;
    }
    Ok(())
}

/// The log of a run.
pub fn ran(rt: &impl Abort, alloc: Global, run: &Run) -> Result<RunLog, Fail> {
    let lines = Lines::of(alloc, run.parts)?;
    ran_of(rt, alloc, lines.inputs(), run.until)
}

/// The log of these inputs, which is the same under both agendas.
pub fn ran_of(
    rt: &impl Abort,
    alloc: Global,
    inputs: &[Input],
    until: u64,
) -> Result<RunLog, Fail> {
    assert!(rt; is_timed(inputs, until));
    let (log, sorted) = run_under_both(alloc, &[], inputs, until)?;
    assert!(rt; log.entries.len() == sorted.entries.len());
    for client in 128..132 {
        let heard = heard_by(alloc, &sorted, client)?;
        assert_log(rt, alloc, &log, client, heard.as_str())?;
    }
    assert!(rt; log.listing.as_slice() == sorted.listing.as_slice());
    Ok(log)
}

/// What a client hears of a run, a line for each reply to one of its own lines and for each delivery at its ports.
pub fn heard_by(alloc: Global, log: &RunLog, client: u8) -> Result<String, Fail> {
    let mut text = String::new(alloc);
    let mut line = 0u64;
    for entry in log.entries.as_slice() {
        match entry {
            LogEntry::Delivered(delivery) => {
                if delivery.target.client.number() == client {
                    let port = delivery.target.port;
                    add_message(alloc, &mut text, delivery.moment, port, &delivery.message)?;
                }
            }
            LogEntry::Replied {
                moment,
                client: actor,
                reply,
                ..
            } => {
                if actor.number() == client {
                    line = line.wrapping_add(1);
                    text.push_str(format!(in alloc; "{moment} line {line} ")?.as_str())?;
                    add_reply(alloc, &mut text, reply)?;
                }
            }
        }
    }
    Ok(text)
}

/// Adds a message at a port.
fn add_message(
    alloc: Global,
    text: &mut String,
    moment: u64,
    port: PortNo,
    message: &Message,
) -> Result<(), Fail> {
    let port = port.number();
    text.push_str(format!(in alloc; "{moment} port {port}")?.as_str())?;
    let mut bytes = Vec::new(alloc);
    message.append_to(&mut bytes)?;
    for byte in bytes.as_slice() {
        text.push_str(format!(in alloc; " {byte:02X}")?.as_str())?;
    }
    text.push_str("\n")?;
    Ok(())
}

/// Adds a reply.
fn add_reply(alloc: Global, text: &mut String, reply: &Reply) -> Result<(), Fail> {
    let line = match reply {
        Reply::Done => String::from_str(alloc, "ok")?,
        Reply::Messages(count) => format!(in alloc; "ok {count}")?,
        Reply::Queue {
            running,
            tick,
            nanos,
        } => {
            let state = if *running { "running" } else { "stopped" };
            format!(in alloc; "ok {state} {tick} {nanos}")?
        }
        Reply::Received(arrivals) => return add_arrivals(alloc, text, arrivals.as_slice()),
        Reply::Pools {
            waiting,
            lost,
            used,
        } => format!(in alloc; "ok waiting {waiting} lost {lost} used {used}")?,
        Reply::Refused(number) => {
            let refusal = Refusal::from_number(*number).ok_or("a refusal")?;
            format!(in alloc; "refused {refusal}")?
        }
    };
    text.push_str(line.as_str())?;
    text.push_str("\n")?;
    Ok(())
}

/// Adds what was received.
fn add_arrivals(alloc: Global, text: &mut String, arrivals: &[Arrival]) -> Result<(), Fail> {
    let count = arrivals.len();
    text.push_str(format!(in alloc; "ok {count}\n")?.as_str())?;
    for arrival in arrivals {
        text.push_str("got ")?;
        add_message(alloc, text, arrival.moment, arrival.port, &arrival.message)?;
    }
    Ok(())
}

/// A client hears this.
pub fn assert_log(
    rt: &impl Abort,
    alloc: Global,
    log: &RunLog,
    client: u8,
    wanted: &str,
) -> Result<(), Fail> {
    let heard = heard_by(alloc, log, client)?;
    assert!(rt; heard.as_str() == wanted);
    Ok(())
}

/// This came to port 0 of a client, byte for byte.
pub fn assert_bytes(rt: &impl Abort, log: &RunLog, client: u8, wanted: &[u8]) -> Result<(), Fail> {
    let bytes = log.port_bytes(port_0_of(client)?)?;
    assert!(rt; bytes.as_slice() == wanted);
    Ok(())
}

pub fn port_0_of(client: u8) -> Result<PortAddr, Fail> {
    Ok(PortAddr {
        client: ClientId::new(client).ok_or("a client number")?,
        port: PortNo::new(0).ok_or("a port number")?,
    })
}
