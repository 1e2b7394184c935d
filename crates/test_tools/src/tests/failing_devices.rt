//! Each read and each write of a tool fails in turn.

ghost use Rattle.std.specs.Prelude.{◌≡◌, IfOk, false};

use byte_io::{MemSink, MemSource, OutOfMemory};
use program_tasks::{Grammar, Tool};
use std::alloc::Global;
use std::process::Abort;
use std::test::Fail;
use tool_text::ToolFault;

/// Two notes under running status, and real time.
const STREAM: &[u8] = &[0x90, 0x3C, 0x40, 0xF8, 0x3E, 0xF8, 0x40];

const PASSED: &[u8] = b"0 129:p0 90 3C 40\n0 129:p0 F8\n0 129:p0 F8\n0 129:p0 90 3E 40\n";

const COPIED: &[u8] = b"90 3C 40\nF8\nF8\n90 3E 40\nwritten 90 3C 40 F8 F8 3E 40\n";

/// A chunk of another type, and a track with a tempo and a note that sounds for 480 ticks.
pub(super) const SMALL: &[u8] = &[
    0x4D, 0x54, 0x68, 0x64, 0x00, 0x00, 0x00, 0x06, 0x00, 0x00, 0x00, 0x01, 0x01, 0xE0, 0x58, 0x59,
    0x5A, 0x31, 0x00, 0x00, 0x00, 0x02, 0xAA, 0xBB, 0x4D, 0x54, 0x72, 0x6B, 0x00, 0x00, 0x00, 0x13,
    0x00, 0xFF, 0x51, 0x03, 0x07, 0xA1, 0x20, 0x00, 0x90, 0x3C, 0x40, 0x83, 0x60, 0x3C, 0x00, 0x00,
    0xFF, 0x2F, 0x00,
];

const DUMPED: &[u8] =
    b"format 0 tracks 1 division 480\ntempo 0 500000\n0 90 3C 40\n480 90 3C 00\nskipped 0\n";

const ALL_DUMPED: &[u8] =
    b"format 0 tracks 1 division 480\ntrack 0\n0 tempo 500000\n0 90 3C 40\n480 90 3C 00\n480 end\n";

fn source(alloc: Global, bytes: &[u8]) -> Result<MemSource, OutOfMemory>
    ensures { IfOk result (λ s. s.broken ≡ false) }
{
    Ok(MemSource::new(Vec::from_slice(alloc, bytes)?))
}

/// A tool prints a text of bytes. To a sink that takes a byte at a time, and fails at a write, it prints those of the
/// writes before.
fn assert_writes(
    rt: &impl Abort,
    alloc: Global,
    tool: Tool,
    bytes: &[u8],
    text: &[u8],
) -> Result<(), Fail> {
    for write in 0..text.len() {
        let mut input = source(alloc, bytes)?;
        let mut out = MemSink::new(alloc, text.len())?;
        out.piece(1);
        out.fail_at(write as u64);
        let outcome = tool.print(alloc, &mut input, &mut out);
        assert!(rt; outcome == Err(ToolFault::Write));
        assert!(rt; out.bytes() == &text[..write]);
    }
    let mut input = source(alloc, bytes)?;
    let mut out = MemSink::new(alloc, text.len())?;
    out.piece(1);
    assert!(rt; tool.print(alloc, &mut input, &mut out) == Ok(()));
    assert!(rt; out.bytes() == text);
    Ok(())
}

/// A tool prints a text of bytes in so many reads. Where one of them fails, it prints a first part of the text, and of
/// a file nothing.
fn assert_reads(
    rt: &impl Abort,
    alloc: Global,
    tool: Tool,
    bytes: &[u8],
    reads: u64,
    text: &[u8],
) -> Result<(), Fail> {
    for read in 0..reads {
        let mut input = source(alloc, bytes)?;
        input.fail_at(read);
        let mut out = MemSink::new(alloc, text.len())?;
        let outcome = tool.print(alloc, &mut input, &mut out);
        assert!(rt; outcome == Err(ToolFault::Read));
        assert!(rt; text.starts_with(out.bytes()));
        let is_stream = tool == Tool::Thru || tool == Tool::Wire;
        assert!(rt; is_stream || out.bytes().is_empty());
    }
    let mut input = source(alloc, bytes)?;
    input.fail_at(reads);
    let mut out = MemSink::new(alloc, text.len())?;
    assert!(rt; tool.print(alloc, &mut input, &mut out) == Ok(()));
    assert!(rt; out.bytes() == text);
    Ok(())
}

#[test]
fn each_write_of_thru_fails(rt: HostRuntime) -> Result<(), Fail> {
    assert_writes(&rt, rt.alloc(), Tool::Thru, STREAM, PASSED)
}

#[test]
fn each_write_of_wire_fails(rt: HostRuntime) -> Result<(), Fail> {
    assert_writes(&rt, rt.alloc(), Tool::Wire, STREAM, COPIED)
}

#[test]
fn each_write_of_dump_fails(rt: HostRuntime) -> Result<(), Fail> {
    assert_writes(&rt, rt.alloc(), Tool::Dump(Grammar::Strict), SMALL, DUMPED)?;
    assert_writes(
        &rt,
        rt.alloc(),
        Tool::DumpAll(Grammar::Strict),
        SMALL,
        ALL_DUMPED,
    )
}

/// So many notes under one status. They are read in pieces of 4,096 bytes, of which the first ends within a note.
fn notes(alloc: Global, count: usize) -> Result<Vec<u8>, Fail> {
    let mut stream = Vec::from_slice(alloc, &[0x90])?;
    for _note in 0..count {
        stream.extend_from_slice(&[0x3C, 0x40])?;
    }
    Ok(stream)
}

/// A text so many times.
pub(super) fn repeated(alloc: Global, text: &[u8], count: usize) -> Result<Vec<u8>, Fail> {
    let mut all = Vec::new(alloc);
    for _time in 0..count {
        all.extend_from_slice(text)?;
    }
    Ok(all)
}

/// What `wire` prints of these notes, without the end of the last line.
fn copied_notes(alloc: Global, count: usize) -> Result<Vec<u8>, Fail> {
    let mut text = repeated(alloc, b"90 3C 40\n", count)?;
    text.extend_from_slice(b"written 90")?;
    text.extend_from_slice(repeated(alloc, b" 3C 40", count)?.as_slice())?;
    Ok(text)
}

#[test]
fn each_read_of_thru_fails(rt: HostRuntime) -> Result<(), Fail> {
    let alloc = rt.alloc();
    let stream = notes(alloc, 5000)?;
    let text = repeated(alloc, b"0 129:p0 90 3C 40\n", 5000)?;
    assert_reads(
        &rt,
        alloc,
        Tool::Thru,
        stream.as_slice(),
        4,
        text.as_slice(),
    )
}

#[test]
fn each_read_of_wire_fails(rt: HostRuntime) -> Result<(), Fail> {
    let alloc = rt.alloc();
    let stream = notes(alloc, 5000)?;
    let mut text = copied_notes(alloc, 5000)?;
    text.push(b'\n')?;
    assert_reads(
        &rt,
        alloc,
        Tool::Wire,
        stream.as_slice(),
        4,
        text.as_slice(),
    )
}

/// The stream is read in six pieces, whose lines take a write each. The last line takes two: it has more than 65,536
/// characters, and its end comes alone.
#[test]
fn the_last_write_of_a_long_line_fails(rt: HostRuntime) -> Result<(), Fail> {
    let alloc = rt.alloc();
    let stream = notes(alloc, 12_000)?;
    let text = copied_notes(alloc, 12_000)?;
    let mut input = source(alloc, stream.as_slice())?;
    let mut out = MemSink::new(alloc, text.len())?;
    out.fail_at(7);
    let outcome = Tool::Wire.print(alloc, &mut input, &mut out);
    assert!(rt; outcome == Err(ToolFault::Write));
    assert!(rt; out.bytes() == text.as_slice());
    Ok(())
}

/// What follows the last track is passed over.
#[test]
fn each_read_of_dump_fails(rt: HostRuntime) -> Result<(), Fail> {
    let alloc = rt.alloc();
    let mut file = Vec::from_slice(alloc, SMALL)?;
    file.resize(20_000, 0)?;
    assert_reads(
        &rt,
        alloc,
        Tool::Dump(Grammar::Strict),
        file.as_slice(),
        4,
        DUMPED,
    )?;
    assert_reads(
        &rt,
        alloc,
        Tool::DumpAll(Grammar::Strict),
        file.as_slice(),
        4,
        ALL_DUMPED,
    )
}
