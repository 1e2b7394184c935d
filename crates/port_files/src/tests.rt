//! Files of what came to ports, byte for byte, with ample memory.

use crate::record_ports;
use midi_wire::Message;
use node_table::{ClientId, PortAddr, PortNo};
use seq_state::{Delivery, LogEntry};
use smf_files::TracksFault;
use std::alloc::Global;
use std::test::Fail;
use tempo_clock::{TempoEntry, TempoMap};

/// A message that came to a port.
#[derive(Clone, Copy)]
struct Came {
    moment: u64,
    client: u8,
    port: u8,
    message: &'static [u8],
}

/// What came to ports 129:p0 and 130:p1, and to another.
const CAME: &[Came] = &[
    Came {
        moment: 10_416_666,
        client: 130,
        port: 1,
        message: b"\x90\x3E\x40",
    },
    Came {
        moment: 400_000_000,
        client: 131,
        port: 0,
        message: b"\x90\x3F\x40",
    },
    Came {
        moment: 500_000_000,
        client: 129,
        port: 0,
        message: b"\x90\x3C\x40",
    },
    Came {
        moment: 501_000_000,
        client: 129,
        port: 0,
        message: b"\xF8",
    },
    Came {
        moment: 505_208_333,
        client: 130,
        port: 1,
        message: b"\x90\x3E\x00",
    },
    Came {
        moment: 1_000_000_000,
        client: 129,
        port: 0,
        message: b"\xF0\x7D\x01\xF7",
    },
];

/// Half a second per quarter note of 96 ticks, and from tick 96 on a quarter of one.
const TEMPOS: [TempoEntry; 2] = [
    TempoEntry {
        tick: 0,
        tempo: 500_000,
    },
    TempoEntry {
        tick: 96,
        tempo: 250_000,
    },
];

/// Tick 98 comes at 505,208,334 nanoseconds. A delta time of 192 is 81 40, and the second note of port 130:p1 has the
/// running status.
const TWO_PORTS: &[u8] = b"MThd\x00\x00\x00\x06\x00\x01\x00\x03\x00\x60\
    MTrk\x00\x00\x00\x12\x00\xFF\x51\x03\x07\xA1\x20\x60\xFF\x51\x03\x03\xD0\x90\x00\xFF\x2F\x00\
    MTrk\x00\x00\x00\x19\x00\xFF\x03\x06129:p0\x60\x90\x3C\x40\x81\x40\xF0\x03\x7D\x01\xF7\
    \x00\xFF\x2F\x00\
    MTrk\x00\x00\x00\x15\x00\xFF\x03\x06130:p1\x01\x90\x3E\x40\x60\x3E\x00\x00\xFF\x2F\x00";

/// The same by 25 frames per second of 40 ticks each: a tick for each millisecond, and no tempo. A delta time of 500 is
/// 83 74.
const BY_FRAMES: &[u8] = b"MThd\x00\x00\x00\x06\x00\x01\x00\x02\xE7\x28\
    MTrk\x00\x00\x00\x04\x00\xFF\x2F\x00\
    MTrk\x00\x00\x00\x1A\x00\xFF\x03\x06129:p0\x83\x74\x90\x3C\x40\x83\x74\xF0\x03\x7D\x01\xF7\
    \x00\xFF\x2F\x00";

#[test]
fn records_two_ports(rt: HostRuntime) -> Result<(), Fail> {
    let clock = TempoMap::new(rt.alloc(), 96, &TEMPOS)?;
    let entries = entries(rt.alloc(), CAME)?;
    let ports = [a_port(129, 0)?, a_port(130, 1)?];
    let file = record_ports(rt.alloc(), &clock, &ports, entries.as_slice())?;
    assert!(rt; file.as_slice() == TWO_PORTS);
    Ok(())
}

#[test]
fn records_by_frames(rt: HostRuntime) -> Result<(), Fail> {
    let clock = TempoMap::smpte(rt.alloc(), 25, 40)?;
    let entries = entries(rt.alloc(), CAME)?;
    let ports = [a_port(129, 0)?];
    let file = record_ports(rt.alloc(), &clock, &ports, entries.as_slice())?;
    assert!(rt; file.as_slice() == BY_FRAMES);
    Ok(())
}

/// A delta time is at most 268,435,455 ticks. One of 2^32 and 5 ticks is no delta time of 5.
#[test]
fn refuses_a_long_gap(rt: HostRuntime) -> Result<(), Fail> {
    let clock = TempoMap::smpte(rt.alloc(), 25, 40)?;
    let ports = [a_port(130, 0)?, a_port(129, 0)?];
    for moment in [268_435_456_000_000, 4_294_967_301_000_000] {
        let came = Came {
            moment,
            client: 129,
            port: 0,
            message: b"\x90\x3C\x40",
        };
        let entries = entries(rt.alloc(), &[came])?;
        let refused = record_ports(rt.alloc(), &clock, &ports, entries.as_slice()).err();
        assert!(rt; refused == Some(TracksFault::BadPair { track: 2, pair: 1 }));
    }
    Ok(())
}

fn a_port(client: u8, port: u8) -> Result<PortAddr, Fail> {
    Ok(PortAddr {
        client: ClientId::new(client).ok_or("a client's number")?,
        port: PortNo::new(port).ok_or("a port's number")?,
    })
}

fn entries(alloc: Global, came: &[Came]) -> Result<Vec<LogEntry>, Fail> {
    let mut entries = Vec::new(alloc);
    for arrival in came {
        let message = Message::from_bytes(alloc, arrival.message)?.ok_or("a message")?;
        entries.push(LogEntry::Delivered(Delivery {
            moment: arrival.moment,
            target: a_port(arrival.client, arrival.port)?,
            message,
        }))?;
    }
    Ok(entries)
}
