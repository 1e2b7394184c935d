//! Files that are read leniently, with their texts worked out by hand, and what is told of others.

ghost use Rattle.std.specs.Prelude.{◌≡◌, false, IfOk};

use crate::{dump_all_leniently, dump_leniently};
use byte_io::{MemSink, MemSource, OutOfMemory};
use smf_grammar::SmfFault;
use std::alloc::Global;
use std::process::Abort;
use std::test::Fail;
use tool_text::{ToolFault, dump_text};

/// A note on, a text, and the note off with no status; so also behind an exclusive event.
const OVER_OTHERS: &[u8] = b"MThd\x00\x00\x00\x06\x00\x00\x00\x01\x00\x60MTrk\x00\x00\x00\x17\
    \x00\x90\x3C\x40\x00\xFF\x01\x01a\x60\x3C\x00\x00\xF0\x01\xF7\x00\x3E\x40\x00\xFF\x2F\x00";

/// A program change whose data byte is 85, behind a delta time of two bytes, and one by running status.
const HIGH_PROGRAMS: &[u8] = b"MThd\x00\x00\x00\x06\x00\x00\x00\x01\x00\x60MTrk\x00\x00\x00\x0A\
    \x81\x00\xC0\x85\x00\x06\x00\xFF\x2F\x00";

/// Both, in a container: behind a chunk of odd length, and of odd length, so that each has a byte of padding.
const CONTAINED: &[u8] = b"RIFF\x42\x00\x00\x00RMIDDISP\x03\x00\x00\x00abc\x00\
    data\x29\x00\x00\x00MThd\x00\x00\x00\x06\x00\x00\x00\x01\x00\x60MTrk\x00\x00\x00\x13\
    \x00\xC0\x85\x00\x90\x3C\x40\x00\xFF\x01\x01a\x60\x3C\x00\x00\xFF\x2F\x00\x00";

/// A strict file, of which nothing is forgiven.
const STRICT: &[u8] = b"MThd\x00\x00\x00\x06\x00\x00\x00\x01\x00\x60MTrk\x00\x00\x00\x0B\
    \x00\x90\x3C\x40\x60\x3C\x00\x00\xFF\x2F\x00";

/// A file, what is printed of it, and all that is.
struct Row {
    name: &'static str,
    given: &'static [u8],
    text: &'static [u8],
    all: &'static [u8],
}

const ROWS: &[Row] = &[
    Row {
        name: "running status over a meta and an exclusive event",
        given: OVER_OTHERS,
        text: b"format 0 tracks 1 division 96\ntempo 0 500000\n0 90 3C 40\n96 90 3C 00\n\
            96 F0 F7\n96 90 3E 40\nskipped 0\nforgiven 2 running status 31\n",
        all: b"format 0 tracks 1 division 96\ntrack 0\n0 90 3C 40\n0 text \"a\"\n96 90 3C 00\n\
            96 F0 F7\n96 90 3E 40\n96 end\nforgiven 2 running status 31\n",
    },
    Row {
        name: "a program change with bit 7",
        given: HIGH_PROGRAMS,
        text: b"format 0 tracks 1 division 96\ntempo 0 500000\n128 C0 05\n128 C0 06\nskipped 0\n\
            forgiven 1 program change 22\n",
        all: b"format 0 tracks 1 division 96\ntrack 0\n128 C0 05\n128 C0 06\n128 end\n\
            forgiven 1 program change 22\n",
    },
    Row {
        name: "both in a container",
        given: CONTAINED,
        text: b"format 0 tracks 1 division 96\ntempo 0 500000\n0 C0 05\n0 90 3C 40\n96 90 3C 00\n\
            skipped 0\nforgiven 1 running status 34\nforgiven 1 program change 22\n",
        all: b"format 0 tracks 1 division 96\ntrack 0\n0 C0 05\n0 90 3C 40\n0 text \"a\"\n\
            96 90 3C 00\n96 end\nforgiven 1 running status 34\nforgiven 1 program change 22\n",
    },
    Row {
        name: "a strict file",
        given: STRICT,
        text: b"format 0 tracks 1 division 96\ntempo 0 500000\n0 90 3C 40\n96 90 3C 00\nskipped 0\n",
        all: b"format 0 tracks 1 division 96\ntrack 0\n0 90 3C 40\n96 90 3C 00\n96 end\n",
    },
];

/// One of the two calls.
#[derive(Clone, Copy)]
enum Call {
    Text,
    All,
}

fn source(alloc: Global, bytes: &[u8]) -> Result<MemSource, OutOfMemory>
    ensures { IfOk result (λ s. s.broken ≡ false) }
{
    Ok(MemSource::new(Vec::from_slice(alloc, bytes)?))
}

fn sink(alloc: Global) -> Result<MemSink, OutOfMemory>
    ensures { IfOk result (λ s. s.broken ≡ false) }
{
    MemSink::new(alloc, 0)
}

/// What a call prints of a file.
fn printed(alloc: Global, call: Call, bytes: &[u8]) -> Result<Vec<u8>, ToolFault> {
    let mut input = source(alloc, bytes)?;
    let mut out = sink(alloc)?;
    match call {
        Call::Text => dump_leniently(alloc, &mut input, &mut out)?,
        Call::All => dump_all_leniently(alloc, &mut input, &mut out)?,
    }
    Ok(Vec::from_slice(alloc, out.bytes())?)
}

fn prints_row(rt: &impl Abort, alloc: Global, row: &Row) -> Result<(), Fail> {
    let name = row.name;
    assert!(rt;
        printed(alloc, Call::Text, row.given)?.as_slice() == row.text,
        "{name}"
    );
    assert!(rt;
        printed(alloc, Call::All, row.given)?.as_slice() == row.all,
        "{name}"
    );
    Ok(())
}

#[test]
fn prints_files(rt: HostRuntime) -> Result<(), Fail> {
    for row in ROWS {
        prints_row(&rt, rt.alloc(), row)?;
    }
    Ok(())
}

#[test]
fn prints_a_strict_file_as_the_strict_grammar_has_it(rt: HostRuntime) -> Result<(), Fail> {
    let mut input = source(rt.alloc(), STRICT)?;
    let mut out = sink(rt.alloc())?;
    dump_text(rt.alloc(), &mut input, &mut out)?;
    let text = printed(rt.alloc(), Call::Text, STRICT)?;
    assert!(rt; text.as_slice() == out.bytes());
    Ok(())
}

/// Data before any status, behind a text; and in a container, whose bytes before the file are not counted.
const FAULTS: &[(&'static [u8], SmfFault)] = &[
    (
        b"MThd\x00\x00\x00\x06\x00\x00\x00\x01\x00\x60MTrk\x00\x00\x00\x0B\
            \x00\xFF\x01\x00\x00\x3C\x40\x00\xFF\x2F\x00",
        SmfFault::NoStatus { at: 26 },
    ),
    (
        b"RIFF\x2E\x00\x00\x00RMIDdata\x21\x00\x00\x00\
            MThd\x00\x00\x00\x06\x00\x00\x00\x01\x00\x60MTrk\x00\x00\x00\x0B\
            \x00\xFF\x01\x00\x00\x3C\x40\x00\xFF\x2F\x00\x00",
        SmfFault::NoStatus { at: 26 },
    ),
];

#[test]
fn tells_the_faults_of_files(rt: HostRuntime) -> Result<(), Fail> {
    for (bytes, fault) in FAULTS {
        for call in [Call::Text, Call::All] {
            match printed(rt.alloc(), call, bytes) {
                Ok(_) => return Err(Fail::new("a text")),
                Err(told) => assert!(rt; told == ToolFault::Smf(*fault), "told {told}"),
            }
        }
    }
    Ok(())
}

#[test]
fn prints_nothing_where_a_read_fails(rt: HostRuntime) -> Result<(), Fail> {
    let mut input = source(rt.alloc(), OVER_OTHERS)?;
    input.fail_at(1);
    let mut out = sink(rt.alloc())?;
    let outcome = dump_leniently(rt.alloc(), &mut input, &mut out);
    assert!(rt; outcome == Err(ToolFault::Read));
    assert!(rt; out.bytes().is_empty());
    Ok(())
}
