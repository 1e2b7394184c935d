//! Files of what came to ports.

use super::circles::MemFiles;
use agenda_heap::HeapAgenda;
use byte_io::MemSource;
use node_table::{ClientId, PortAddr, PortNo};
use program_tasks::{GridWords, ProgramFault, Recorded, record_file, recorded_bytes};
use seq_engine::RunLog;
use seq_session::{NamedFiles, ScriptSource, clients_rise, readers_are_sound, run_scripts};
use smf_files::WriteFault;
use std::alloc::Global;
use std::process::Abort;
use std::test::Fail;

/// What comes to port 0 of a client in a run of two clients, as a file.
struct Recording {
    /// What client 128 says, and what client 129 says.
    scripts: [&'static str; 2],
    client: u8,
    /// Or the place of the message that can't be written.
    file: Result<&'static [u8], usize>,
}

/// Client 129 sends a note and a clock as soon as it is joined to client 128, and ends the note a second later.
const WHOLE_NOTE: [&str; 2] = [
    "0 open b 8 8\n0 port 0 in 66\n",
    "0 open a 8 8\n0 port 0 out 33\n0 connect 129:p0 128:p0\n0 bytes 0 90 3C 40 F8\n\
        1000000000 send 0 90 3C 00\n",
];

/// Client 129 subscribes to a port of client 128, which sends a note.
const FIRST_NOTE: [&str; 2] = [
    "0 open a 8 8\n0 port 0 out 33\n5 bytes 0 90 3C 40\n",
    "0 open b 8 8\n0 port 0 in 66\n0 connect 128:p0 129:p0\n",
];

/// Client 129 sends a clock and two notes, the second 268,800,000 ticks behind the first.
const DAYS_APART: [&str; 2] = [
    "0 open b 8 8\n0 port 0 in 66\n",
    "0 open a 8 8\n0 port 0 out 33\n0 connect 129:p0 128:p0\n0 bytes 0 F8 90 3C 40\n\
        280000000000000 send 0 90 3C 00\n",
];

const RECORDINGS: &[Recording] = &[
    // 960 ticks are 87 40 as a delta time.
    Recording {
        scripts: WHOLE_NOTE,
        client: 128,
        file: Ok(
            b"MThd\x00\x00\x00\x06\x00\x00\x00\x01\x01\xE0MTrk\x00\x00\x00\x14\
            \x00\xFF\x51\x03\x07\xA1\x20\x00\x90\x3C\x40\x87\x40\x90\x3C\x00\x00\xFF\x2F\x00",
        ),
    },
    // Nothing comes to the port that sends.
    Recording {
        scripts: WHOLE_NOTE,
        client: 129,
        file: Ok(
            b"MThd\x00\x00\x00\x06\x00\x00\x00\x01\x01\xE0MTrk\x00\x00\x00\x0B\
            \x00\xFF\x51\x03\x07\xA1\x20\x00\xFF\x2F\x00",
        ),
    },
    Recording {
        scripts: FIRST_NOTE,
        client: 129,
        file: Ok(
            b"MThd\x00\x00\x00\x06\x00\x00\x00\x01\x01\xE0MTrk\x00\x00\x00\x0F\
            \x00\xFF\x51\x03\x07\xA1\x20\x00\x90\x3C\x40\x00\xFF\x2F\x00",
        ),
    },
    // A delta time is at most 268,435,455 ticks.
    Recording {
        scripts: DAYS_APART,
        client: 128,
        file: Err(1),
    },
];

#[test]
fn records_what_comes(rt: HostRuntime) -> Result<(), Fail> {
    for recording in RECORDINGS {
        assert_recorded(&rt, rt.alloc(), recording)?;
    }
    Ok(())
}

fn assert_recorded(rt: &impl Abort, alloc: Global, recording: &Recording) -> Result<(), Fail> {
    let [first, second] = recording.scripts;
    let log = ran(alloc, first, second)?;
    let port = port(recording.client, 0)?;
    assert!(rt; is_as_told(&recording.file, record_file(alloc, &log, port)));
    Ok(())
}

/// Client 129 sends a note and a clock to one port of client 128, and a note on another channel to the other,
/// 10,416,667 nanoseconds later. It ends the first a second after it began.
const TWO_PORTS: [&str; 2] = [
    "0 open b 8 8\n0 port 0 in 66\n0 port 1 in 66\n",
    "0 open a 8 8\n0 port 0 out 33\n0 port 1 out 33\n0 connect 129:p0 128:p0\n0 connect 129:p1 128:p1\n\
        0 bytes 0 90 3C 40 F8\n10416667 bytes 1 91 3E 40\n1000000000 send 0 90 3C 00\n",
];

/// By 96 ticks per quarter note of half a second tick 2 comes at 10,416,667 nanoseconds, and tick 192 at a second: 192
/// is 81 40 as a delta time.
const TWO_TRACKS: &[u8] = b"MThd\x00\x00\x00\x06\x00\x01\x00\x03\x00\x60\
    MTrk\x00\x00\x00\x0B\x00\xFF\x51\x03\x07\xA1\x20\x00\xFF\x2F\x00\
    MTrk\x00\x00\x00\x16\x00\xFF\x03\x06128:p0\x00\x90\x3C\x40\x81\x40\x3C\x00\x00\xFF\x2F\x00\
    MTrk\x00\x00\x00\x12\x00\xFF\x03\x06128:p1\x02\x91\x3E\x40\x00\xFF\x2F\x00";

/// Records two ports of client 128 in a run of two scripts, by so many ticks per quarter note and 120 quarter notes a
/// minute.
fn recorded_by(
    alloc: Global,
    ppq: &'static str,
    scripts: [&str; 2],
) -> Result<Result<Vec<u8>, ProgramFault<'static>>, Fail> {
    let [first, second] = scripts;
    let log = ran(alloc, first, second)?;
    let ports = [port(128, 0)?, port(128, 1)?];
    let words = GridWords::Said {
        ppq: Some(ppq),
        bpm: Some("120"),
    };
    let store = MemFiles { alloc, files: &[] };
    let grid = words.grid(alloc, &store).ok().ok_or("a grid")?;
    let what = Recorded::Ports {
        ports: &ports,
        clock: &grid,
    };
    Ok(recorded_bytes(alloc, &log, &what))
}

#[test]
fn records_two_ports(rt: HostRuntime) -> Result<(), Fail> {
    let file = recorded_by(rt.alloc(), "96", TWO_PORTS)?;
    let file = file.ok().ok_or("a file")?;
    assert!(rt; file.as_slice() == TWO_TRACKS);
    Ok(())
}

/// The second note comes 268,800,000 ticks behind the first, of at most 268,435,455.
#[test]
fn refuses_two_ports_days_apart(rt: HostRuntime) -> Result<(), Fail> {
    let refused = recorded_by(rt.alloc(), "480", DAYS_APART)?.err();
    assert!(rt; refused == Some(ProgramFault::CannotRecord));
    Ok(())
}

fn is_as_told(told: &Result<&[u8], usize>, recorded: Result<Vec<u8>, WriteFault>) -> bool {
    match (told, recorded) {
        (Ok(told), Ok(file)) => file.as_slice() == *told,
        (Err(place), Err(WriteFault::BadEvent { index })) => index == *place,
        _ => false,
    }
}

/// A run of the two scripts, to the last of their lines.
fn ran(alloc: Global, first: &str, second: &str) -> Result<RunLog, Fail> {
    let mut scripts = [
        script_of(alloc, 128, first)?,
        script_of(alloc, 129, second)?,
    ];
    if !clients_rise(&scripts) || !readers_are_sound(&scripts) {
        return Err("scripts that can be run".into());
    }
    let files = NamedFiles::new(&[], &[]).ok_or("a name for each file")?;
    let run = run_scripts(
        alloc,
        &mut scripts,
        &files,
        HeapAgenda::new(alloc),
        280_000_000_000_000,
    );
    let run = run.ok().ok_or("a run")?;
    Ok(run.log)
}

fn script_of(alloc: Global, number: u8, text: &str) -> Result<ScriptSource<MemSource>, Fail> {
    Ok(ScriptSource {
        client: client(number)?,
        reader: MemSource::new(Vec::from_slice(alloc, text.as_bytes())?),
    })
}

fn port(of: u8, number: u8) -> Result<PortAddr, Fail> {
    Ok(PortAddr {
        client: client(of)?,
        port: PortNo::new(number).ok_or("a port number")?,
    })
}

fn client(number: u8) -> Result<ClientId, Fail> {
    Ok(ClientId::new(number).ok_or("a client number")?)
}
