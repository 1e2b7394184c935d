//! Dumps of worked files, and of damaged ones. The small file is among the tests of devices that fail.

use super::failing_devices::SMALL;
use crate::printed;
use byte_io::{MemSink, MemSource};
use program_tasks::{Grammar, Tool};
use smf_files::SmfFault;
use std::test::Fail;
use tool_text::{ToolFault, dump_text};

/// 25 frames per second, 40 ticks in each, and the same track.
const FRAMES: [u8; 41] = [
    0x4D, 0x54, 0x68, 0x64, 0x00, 0x00, 0x00, 0x06, 0x00, 0x00, 0x00, 0x01, 0xE7, 0x28, 0x4D, 0x54,
    0x72, 0x6B, 0x00, 0x00, 0x00, 0x13, 0x00, 0xFF, 0x51, 0x03, 0x07, 0xA1, 0x20, 0x00, 0x90, 0x3C,
    0x40, 0x83, 0x60, 0x3C, 0x00, 0x00, 0xFF, 0x2F, 0x00,
];

/// An exclusive message, one with a status inside, and an escape.
const EXCLUSIVES: [u8; 41] = [
    0x4D, 0x54, 0x68, 0x64, 0x00, 0x00, 0x00, 0x06, 0x00, 0x00, 0x00, 0x01, 0x01, 0xE0, 0x4D, 0x54,
    0x72, 0x6B, 0x00, 0x00, 0x00, 0x13, 0x00, 0xF0, 0x03, 0x7D, 0x01, 0xF7, 0x00, 0xF0, 0x02, 0x7D,
    0x01, 0x00, 0xF7, 0x01, 0xF8, 0x00, 0xFF, 0x2F, 0x00,
];

/// Two tracks with notes at one tick, and a tempo in each.
const TWO_TRACKS: [u8; 64] = [
    0x4D, 0x54, 0x68, 0x64, 0x00, 0x00, 0x00, 0x06, 0x00, 0x01, 0x00, 0x02, 0x00, 0x60, 0x4D, 0x54,
    0x72, 0x6B, 0x00, 0x00, 0x00, 0x0F, 0x00, 0xFF, 0x51, 0x03, 0x03, 0xD0, 0x90, 0x60, 0x90, 0x01,
    0x40, 0x00, 0xFF, 0x2F, 0x00, 0x4D, 0x54, 0x72, 0x6B, 0x00, 0x00, 0x00, 0x13, 0x60, 0x90, 0x02,
    0x40, 0x00, 0xFF, 0x51, 0x03, 0x07, 0xA1, 0x20, 0x00, 0x90, 0x03, 0x40, 0x00, 0xFF, 0x2F, 0x00,
];

/// A file, and its dump.
const DUMPS: &[(&'static [u8], &'static [u8])] = &[
    (
        &FRAMES,
        b"format 0 tracks 1 division 59176\n0 90 3C 40\n480 90 3C 00\nskipped 0\n",
    ),
    (
        &EXCLUSIVES,
        b"format 0 tracks 1 division 480\ntempo 0 500000\n0 F0 7D 01 F7\nskipped 2\n",
    ),
    (
        &TWO_TRACKS,
        b"format 1 tracks 2 division 96\ntempo 0 250000\ntempo 96 500000\n\
            96 90 01 40\n96 90 02 40\n96 90 03 40\nskipped 0\n",
    ),
];

/// A name with a quotation mark and a byte that is no visible character, the meta events that are numbers, one of the
/// sequencer's own, one without a name and one of a length that its type has not; a note, a program, and the end late.
const METAS: &[u8] = &[
    0x4D, 0x54, 0x68, 0x64, 0x00, 0x00, 0x00, 0x06, 0x00, 0x00, 0x00, 0x01, 0x00, 0x60, 0x4D, 0x54,
    0x72, 0x6B, 0x00, 0x00, 0x00, 0x46, 0x00, 0xFF, 0x03, 0x06, 0x4C, 0x61, 0x22, 0x20, 0xE9, 0x0A,
    0x00, 0xFF, 0x00, 0x02, 0x01, 0x00, 0x00, 0xFF, 0x58, 0x04, 0x06, 0x03, 0x24, 0x08, 0x00, 0xFF,
    0x59, 0x02, 0xFD, 0x01, 0x00, 0xFF, 0x54, 0x05, 0x41, 0x00, 0x03, 0x00, 0x28, 0x00, 0xFF, 0x7F,
    0x02, 0x43, 0x00, 0x00, 0xFF, 0x60, 0x01, 0x05, 0x00, 0xFF, 0x51, 0x01, 0x07, 0x00, 0xC5, 0x07,
    0x60, 0x90, 0x3C, 0x40, 0x00, 0x3C, 0x00, 0x82, 0x00, 0xFF, 0x2F, 0x00,
];

/// A file, and all that it says.
const ALL_DUMPS: &[(&'static [u8], &'static [u8])] = &[
    (
        &FRAMES,
        b"format 0 tracks 1 division 59176\ntrack 0\n0 tempo 500000\n0 90 3C 40\n\
            480 90 3C 00\n480 end\n",
    ),
    (
        &EXCLUSIVES,
        b"format 0 tracks 1 division 480\ntrack 0\n0 F0 7D 01 F7\n0 F0 7D 01\n0 F7 F8\n0 end\n",
    ),
    (
        &TWO_TRACKS,
        b"format 1 tracks 2 division 96\ntrack 0\n0 tempo 250000\n96 90 01 40\n96 end\n\
            track 1\n96 90 02 40\n96 tempo 500000\n96 90 03 40\n96 end\n",
    ),
    (
        METAS,
        b"format 0 tracks 1 division 96\ntrack 0\n0 name \"La\\x22 \\xE9\\x0A\"\n0 sequence 256\n\
            0 time 6 3 36 8\n0 key -3 1\n0 smpte 65 0 3 0 40\n0 sequencer 43 00\n0 meta 60 05\n\
            0 meta 51 07\n0 C5 07\n96 90 3C 40\n96 90 3C 00\n352 end\n",
    ),
];

/// A program change with bit 7, and a status that is left out behind a text.
pub(super) const FORGIVEN: &[u8] = &[
    0x4D, 0x54, 0x68, 0x64, 0x00, 0x00, 0x00, 0x06, 0x00, 0x00, 0x00, 0x01, 0x00, 0x60, 0x4D, 0x54,
    0x72, 0x6B, 0x00, 0x00, 0x00, 0x13, 0x00, 0xC0, 0x85, 0x00, 0x90, 0x3C, 0x40, 0x00, 0xFF, 0x01,
    0x01, 0x41, 0x60, 0x3C, 0x00, 0x00, 0xFF, 0x2F, 0x00,
];

/// What is printed with the flags that the tables above don't try.
const FLAGGED: &[(Tool, &'static [u8], &'static [u8])] = &[
    (
        Tool::DumpPlaces,
        &TWO_TRACKS,
        b"0 format 1 tracks 2 division 96\n14 track 0\n22 0 tempo 250000\n29 96 90 01 40\n\
            33 96 end\n37 track 1\n45 96 90 02 40\n49 96 tempo 500000\n56 96 90 03 40\n60 96 end\n",
    ),
    (
        Tool::Dump(Grammar::Lenient),
        FORGIVEN,
        b"format 0 tracks 1 division 96\ntempo 0 500000\n0 C0 05\n0 90 3C 40\n96 90 3C 00\n\
            skipped 0\nforgiven 1 running status 34\nforgiven 1 program change 22\n",
    ),
    (
        Tool::DumpAll(Grammar::Lenient),
        FORGIVEN,
        b"format 0 tracks 1 division 96\ntrack 0\n0 C0 05\n0 90 3C 40\n0 text \"A\"\n96 90 3C 00\n\
            96 end\nforgiven 1 running status 34\nforgiven 1 program change 22\n",
    ),
];

#[test]
fn dumps_files(rt: HostRuntime) -> Result<(), Fail> {
    for (file, text) in DUMPS {
        assert!(rt; printed(rt.alloc(), Tool::Dump(Grammar::Strict), file)?.as_slice() == *text);
    }
    for (file, text) in ALL_DUMPS {
        assert!(rt; printed(rt.alloc(), Tool::DumpAll(Grammar::Strict), file)?.as_slice() == *text);
    }
    for (tool, file, text) in FLAGGED {
        assert!(rt; printed(rt.alloc(), *tool, file)?.as_slice() == *text);
    }
    Ok(())
}

/// Nothing is written for a damaged file.
#[test]
fn tells_the_fault_of_a_file(rt: HostRuntime) -> Result<(), Fail> {
    let cut = SMALL.get(..47).ok_or("47 bytes")?;
    let mut input = MemSource::new(Vec::from_slice(rt.alloc(), cut)?);
    let mut out = MemSink::new(rt.alloc(), 0)?;
    let outcome = dump_text(rt.alloc(), &mut input, &mut out);
    let fault = SmfFault::Truncated { at: 24 };
    assert!(rt; outcome == Err(ToolFault::Smf(fault)));
    assert!(rt; out.bytes() == b"".as_slice());
    let line = format!(in rt.alloc(); "{fault}")?;
    assert!(rt; line.as_str() == "10 Truncated 24");
    Ok(())
}
