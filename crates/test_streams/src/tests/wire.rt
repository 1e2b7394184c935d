//! Worked streams, each in one piece, byte by byte, and in every cut into two pieces.

ghost use Rattle.std.specs.Prelude.{◌<◌};

use crate::read_in_two;
use memory::OutOfMemory;
use midi_wire::{Kind, Message, StreamParser, StreamWriter, WireFault};
use std::alloc::Global;
use std::process::Abort;
use std::test::Fail;

/// The full bytes of the messages. Each begins with a status, so the bytes tell where each begins.
fn full_bytes(alloc: Global, messages: &[Message]) -> Result<Vec<u8>, OutOfMemory> {
    let mut bytes = Vec::new(alloc);
    for message in messages {
        message.append_to(&mut bytes)?;
    }
    Ok(bytes)
}

/// The messages of pieces of this length, but for the last, which may be shorter.
fn read_pieces(alloc: Global, stream: &[u8], length: usize) -> Result<Vec<Message>, WireFault>
    requires { 0 < length }
{
    let mut parser = StreamParser::new(alloc);
    let mut messages = Vec::new(alloc);
    for piece in stream.chunks(length) {
        parser.feed(piece, &mut messages)?;
    }
    Ok(messages)
}

/// A stream, how many messages it has, the full bytes of these, and what a writer makes of them.
struct Reading {
    name: &'static str,
    stream: &'static [u8],
    count: usize,
    full: &'static [u8],
    written: &'static [u8],
}

const READINGS: &[Reading] = &[
    Reading {
        name: "running status with real time",
        stream: &[0x90, 0x3C, 0x40, 0xF8, 0x3E, 0xF8, 0x40],
        count: 4,
        full: &[0x90, 0x3C, 0x40, 0xF8, 0xF8, 0x90, 0x3E, 0x40],
        written: &[0x90, 0x3C, 0x40, 0xF8, 0xF8, 0x3E, 0x40],
    },
    Reading {
        name: "real time inside an exclusive message",
        stream: &[0xF0, 0x7D, 0x01, 0xFE, 0x02, 0xF7],
        count: 2,
        full: &[0xFE, 0xF0, 0x7D, 0x01, 0x02, 0xF7],
        written: &[0xFE, 0xF0, 0x7D, 0x01, 0x02, 0xF7],
    },
    Reading {
        name: "a status ends an exclusive message",
        stream: &[0xF0, 0x7D, 0x01, 0x90, 0x3C, 0x40],
        count: 2,
        full: &[0xF0, 0x7D, 0x01, 0xF7, 0x90, 0x3C, 0x40],
        written: &[0xF0, 0x7D, 0x01, 0xF7, 0x90, 0x3C, 0x40],
    },
    Reading {
        name: "real time and a status among exclusive messages",
        stream: &[
            0xF0, 0x01, 0xF7, 0xF0, 0x02, 0xF8, 0x03, 0xF7, 0xF0, 0x04, 0x90, 0x3C, 0x40, 0xF0,
            0xF7,
        ],
        count: 6,
        full: &[
            0xF0, 0x01, 0xF7, 0xF8, 0xF0, 0x02, 0x03, 0xF7, 0xF0, 0x04, 0xF7, 0x90, 0x3C, 0x40,
            0xF0, 0xF7,
        ],
        written: &[
            0xF0, 0x01, 0xF7, 0xF8, 0xF0, 0x02, 0x03, 0xF7, 0xF0, 0x04, 0xF7, 0x90, 0x3C, 0x40,
            0xF0, 0xF7,
        ],
    },
    Reading {
        name: "a tune request ends running status",
        stream: &[0x90, 0x3C, 0x40, 0xF6, 0x3C, 0x40],
        count: 2,
        full: &[0x90, 0x3C, 0x40, 0xF6],
        written: &[0x90, 0x3C, 0x40, 0xF6],
    },
    Reading {
        name: "after a tune request the status is written again",
        stream: &[0x90, 0x3C, 0x40, 0xF6, 0x90, 0x3C, 0x40],
        count: 3,
        full: &[0x90, 0x3C, 0x40, 0xF6, 0x90, 0x3C, 0x40],
        written: &[0x90, 0x3C, 0x40, 0xF6, 0x90, 0x3C, 0x40],
    },
    Reading {
        name: "an undefined status ends running status",
        stream: &[0x90, 0x3C, 0x40, 0xF4, 0x3C, 0x40],
        count: 1,
        full: &[0x90, 0x3C, 0x40],
        written: &[0x90, 0x3C, 0x40],
    },
    Reading {
        name: "two statuses are written",
        stream: &[0xB0, 0x07, 0x7F, 0x90, 0x3C, 0x40],
        count: 2,
        full: &[0xB0, 0x07, 0x7F, 0x90, 0x3C, 0x40],
        written: &[0xB0, 0x07, 0x7F, 0x90, 0x3C, 0x40],
    },
];

// Lists of messages are made by one function and lent to the next, so that each is dropped at one place alone: that is
// proved sooner.

/// Whether there are so many messages, with these full bytes.
fn are(alloc: Global, messages: &[Message], count: usize, full: &[u8]) -> Result<bool, Fail> {
    Ok(messages.len() == count && full_bytes(alloc, messages)?.as_slice() == full)
}

/// Whether a stream in two pieces has these.
fn has_in_two(
    alloc: Global,
    (front, back): (&[u8], &[u8]),
    count: usize,
    full: &[u8],
) -> Result<bool, Fail> {
    are(
        alloc,
        read_in_two(alloc, front, back)?.as_slice(),
        count,
        full,
    )
}

/// Whether a stream has these, byte by byte and wherever it is cut into two.
fn has(alloc: Global, stream: &[u8], count: usize, full: &[u8]) -> Result<bool, Fail> {
    if !are(
        alloc,
        read_pieces(alloc, stream, 1)?.as_slice(),
        count,
        full,
    )? {
        return Ok(false);
    }
    for cut in 0..=stream.len() {
        if !has_in_two(alloc, stream.split_at(cut), count, full)? {
            return Ok(false);
        }
    }
    Ok(true)
}

/// The messages as a writer writes them.
fn written(alloc: Global, messages: &[Message]) -> Result<Vec<u8>, OutOfMemory> {
    let mut writer = StreamWriter::new();
    let mut bytes = Vec::new(alloc);
    for message in messages {
        writer.write(message, &mut bytes)?;
    }
    Ok(bytes)
}

/// Whether the messages of a stream are written so.
fn writes(alloc: Global, stream: &[u8], wanted: &[u8]) -> Result<bool, Fail> {
    let messages = read_in_two(alloc, stream, &[])?;
    Ok(written(alloc, messages.as_slice())?.as_slice() == wanted)
}

fn assert_reading(rt: &impl Abort, alloc: Global, reading: &Reading) -> Result<(), Fail> {
    let Reading {
        name,
        stream,
        count,
        full,
        written,
    } = reading;
    assert!(rt; has(alloc, stream, *count, full)?, "{name}: read");
    assert!(rt; writes(alloc, stream, written)?, "{name}: written");
    Ok(())
}

#[test]
fn streams_are_read_and_written(rt: HostRuntime) -> Result<(), Fail> {
    for reading in READINGS {
        assert_reading(&rt, rt.alloc(), reading)?;
    }
    Ok(())
}

/// A stream in two pieces has these messages.
fn check_same(
    rt: &impl Abort,
    alloc: Global,
    (front, back): (&[u8], &[u8]),
    whole: &[Message],
) -> Result<(), Fail> {
    let messages = read_in_two(alloc, front, back)?;
    assert!(rt; messages.as_slice() == whole);
    Ok(())
}

/// The same of a stream that is cut anywhere.
fn check_each_cut(
    rt: &impl Abort,
    alloc: Global,
    stream: &[u8],
    whole: &[Message],
) -> Result<(), Fail> {
    for cut in 0..=stream.len() {
        check_same(rt, alloc, stream.split_at(cut), whole)?;
    }
    Ok(())
}

/// A stream has the messages that it has in one piece, wherever it is cut into two.
fn check_cuts(rt: &impl Abort, alloc: Global, stream: &[u8]) -> Result<(), Fail> {
    let whole = read_in_two(alloc, stream, &[])?;
    check_each_cut(rt, alloc, stream, whole.as_slice())
}

/// No byte, each other kind of message under running status or without, and what is passed over.
const STREAMS: [&[u8]; 6] = [
    &[],
    &[
        0xC5, 0x01, 0x02, 0xD3, 0x10, 0x11, 0xE0, 0x00, 0x40, 0x01, 0x41, 0xA0, 0x3C, 0x01,
    ],
    &[
        0xF1, 0x05, 0x06, 0xF2, 0x10, 0x01, 0x02, 0x03, 0xF3, 0x07, 0xF8, 0xFA, 0xFB, 0xFC, 0xFF,
    ],
    &[
        0x3C, 0x40, 0xF7, 0x90, 0xF9, 0x3C, 0xFD, 0x40, 0xF5, 0x3E, 0x40, 0x80, 0x3E, 0xB0, 0x07,
    ],
    &[
        0xF0, 0xF7, 0xF0, 0x7E, 0xF8, 0x7F, 0x06, 0x01, 0xF7, 0xF7, 0x3C, 0xF0, 0x01, 0xF4, 0x02,
    ],
    &[
        0xF0, 0x01, 0xF0, 0x02, 0xF6, 0xF0, 0x03, 0xF2, 0x10, 0xF8, 0x01, 0xF0, 0x04, 0x05,
    ],
];

#[test]
fn streams_in_every_cut(rt: HostRuntime) -> Result<(), Fail> {
    for stream in STREAMS {
        check_cuts(&rt, rt.alloc(), stream)?;
    }
    Ok(())
}

/// Feeds an exclusive message with `first` and 65,536 data bytes more.
fn feed_long(
    parser: &mut StreamParser,
    first: &[u8],
    messages: &mut Vec<Message>,
) -> Result<(), Fail> {
    let data = [0x01; 4096];
    parser.feed(&[0xF0], messages)?;
    parser.feed(first, messages)?;
    for _part in 0..16 {
        parser.feed(&data, messages)?;
    }
    parser.feed(&[0xF7], messages)?;
    Ok(())
}

/// The longest message is kept, and the next, which is longer, is dropped.
fn check_bound(
    rt: &(impl Abort + AllocGlobal),
    parser: &mut StreamParser,
    messages: &mut Vec<Message>,
) -> Result<(), Fail> {
    feed_long(parser, &[], messages)?;
    assert!(rt; messages.len() == 1);
    assert!(rt; full_bytes(rt.alloc(), messages.as_slice())?.len() == 65538);
    feed_long(parser, &[0x01], messages)?;
    assert!(rt; messages.len() == 1);
    Ok(())
}

#[test]
fn exclusive_bound(rt: HostRuntime) -> Result<(), Fail> {
    let mut parser = StreamParser::new(rt.alloc());
    let mut messages = Vec::new(rt.alloc());
    check_bound(&rt, &mut parser, &mut messages)
}

/// An exclusive message of so many data bytes, whole.
fn exclusive(alloc: Global, length: u16) -> Result<Vec<u8>, OutOfMemory> {
    let mut stream = Vec::new(alloc);
    extend_exclusive(&mut stream, length)?;
    Ok(stream)
}

fn extend_exclusive(stream: &mut Vec<u8>, length: u16) -> Result<(), OutOfMemory> {
    stream.push(0xF0)?;
    for _data in 0..length {
        stream.push(0x2A)?;
    }
    stream.push(0xF7)?;
    Ok(())
}

/// No data, and data on both sides of what stands whole among 128 bytes, and of 128 bytes, the most that takes one
/// allocation.
#[test]
fn exclusive_messages_of_many_lengths(rt: HostRuntime) -> Result<(), Fail> {
    for length in [0, 1, 125, 126, 127, 128, 129] {
        let stream = exclusive(rt.alloc(), length)?;
        assert!(rt;
            has(rt.alloc(), stream.as_slice(), 1, stream.as_slice())?,
            "of {length}"
        );
    }
    Ok(())
}

/// One behind the other, with 0 to 19 data bytes: 230 bytes, so that more than one allocation is shared.
#[test]
fn exclusive_messages_in_a_row(rt: HostRuntime) -> Result<(), Fail> {
    let mut stream = Vec::new(rt.alloc());
    check_row(&rt, rt.alloc(), &mut stream)
}

fn check_row(rt: &impl Abort, alloc: Global, stream: &mut Vec<u8>) -> Result<(), Fail> {
    for length in 0..20 {
        extend_exclusive(stream, length)?;
    }
    assert!(rt; has(alloc, stream.as_slice(), 20, stream.as_slice())?);
    Ok(())
}

/// A kind, a channel and two data bytes, and the bytes of the channel message.
const CHANNEL_MESSAGES: &[(Kind, u8, u8, u8, &'static [u8])] = &[
    (Kind::PitchBend, 5, 0x00, 0x40, &[0xE5, 0x00, 0x40]),
    (Kind::ProgramChange, 15, 0x7F, 0, &[0xCF, 0x7F]),
];

fn is_channel_message(message: &Message, kind: Kind, channel: u8, bytes: &[u8]) -> bool {
    for (place, byte) in bytes.iter().enumerate() {
        if message.byte_at(place) != Some(*byte) {
            return false;
        }
    }
    message.len() == bytes.len()
        && message.byte_at(bytes.len()) == None
        && bytes.first() == Some(&message.status())
        && message.kind() == kind
        && message.channel_of() == Some(channel)
}

#[test]
fn channel_messages(rt: HostRuntime) -> Result<(), Fail> {
    for (kind, channel, first, second, bytes) in CHANNEL_MESSAGES {
        let message = Message::channel(*kind, *channel, *first, *second).ok_or("a message")?;
        assert!(rt;
            is_channel_message(&message, *kind, *channel, bytes),
            "of {bytes:?}"
        );
    }
    Ok(())
}

#[test]
fn no_channel_messages(rt: HostRuntime) {
    for (kind, channel, first, second) in [
        (Kind::ProgramChange, 0, 1, 1),
        (Kind::NoteOn, 16, 0x3C, 0x40),
        (Kind::NoteOn, 0, 0x80, 0x40),
        (Kind::RealTime, 0, 0, 0),
    ] {
        assert!(rt; Message::channel(kind, channel, first, second).is_none());
    }
}

/// Bytes that are no message.
const NO_MESSAGES: &[&[u8]] = &[&[0x90, 0x3C], &[0xF6, 0x00], &[0xF4], &[0xF0, 0x7E]];

#[test]
fn no_messages_from_bytes(rt: HostRuntime) -> Result<(), Fail> {
    for bytes in NO_MESSAGES {
        assert!(rt;
            Message::from_bytes(rt.alloc(), bytes)?.is_none(),
            "of {bytes:?}"
        );
    }
    Ok(())
}

#[test]
fn a_song_position_from_bytes(rt: HostRuntime) -> Result<(), Fail> {
    let song = Message::from_bytes(rt.alloc(), &[0xF2, 0x10, 0x01])?.ok_or("a message")?;
    assert!(rt; song.kind() == Kind::SystemCommon);
    assert!(rt; song.channel_of() == None);
    Ok(())
}

#[test]
fn an_exclusive_message_from_bytes(rt: HostRuntime) -> Result<(), Fail> {
    let bytes = [0xF0, 0x7E, 0x7F, 0x06, 0x01, 0xF7];
    let inquiry = Message::from_bytes(rt.alloc(), &bytes)?.ok_or("a message")?;
    check_copy(&rt, rt.alloc(), inquiry.duplicate()?, &bytes)
}

fn check_copy(rt: &impl Abort, alloc: Global, copy: Message, bytes: &[u8]) -> Result<(), Fail> {
    assert!(rt; copy.kind() == Kind::Exclusive);
    assert!(rt; copy.byte_at(5) == Some(0xF7));
    assert!(rt; full_bytes(alloc, &[copy])?.as_slice() == bytes);
    Ok(())
}

#[test]
fn equal_messages(rt: HostRuntime) -> Result<(), Fail> {
    let song = Message::from_bytes(rt.alloc(), &[0xF2, 0x10, 0x01])?.ok_or("a message")?;
    let bytes = [0xF0, 0x7E, 0x7F, 0x06, 0x01, 0xF7];
    let inquiry = Message::from_bytes(rt.alloc(), &bytes)?.ok_or("a message")?;
    check_equal(&rt, &song, &inquiry)
}

fn check_equal(rt: &impl Abort, song: &Message, inquiry: &Message) -> Result<(), Fail> {
    assert!(rt; inquiry.duplicate()? == *inquiry);
    assert!(rt; *song != *inquiry);
    Ok(())
}

/// Where memory is refused, the parser answers that it has failed from then on.
#[test]
fn refused_growth(rt: HostRuntime) {
    let mut parser = StreamParser::new(rt.alloc());
    let mut messages = Vec::new(rt.alloc());
    match parser.feed(&[0xF0, 0x7D, 0xF7, 0xFE], &mut messages) {
        Ok(count) => assert!(rt; count == 2),
        Err(fault) => {
            assert!(rt; fault == WireFault::OutOfMemory);
            assert!(rt; parser.feed(&[], &mut messages) == Err(WireFault::Failed));
        }
    }
}

fn extend_notes(stream: &mut Vec<u8>) -> Result<(), OutOfMemory> {
    stream.push(0x90)?;
    for _ in 0..10_000 {
        stream.extend_from_slice(b"\x3C\x40")?;
    }
    Ok(())
}

/// Ten thousand messages, all in one piece.
fn check_many(
    rt: &(impl Abort + AllocGlobal),
    stream: &mut Vec<u8>,
    messages: &mut Vec<Message>,
) -> Result<(), Fail> {
    extend_notes(stream)?;
    let mut parser = StreamParser::new(rt.alloc());
    assert!(rt; parser.feed(stream.as_slice(), messages)? == 10_000);
    assert!(rt; messages.len() == 10_000);
    let last = full_bytes(rt.alloc(), &messages.as_slice()[9_999..])?;
    assert!(rt; last.as_slice() == [0x90, 0x3C, 0x40].as_slice());
    Ok(())
}

#[test]
fn many_messages_in_one_piece(rt: HostRuntime) -> Result<(), Fail> {
    let mut stream = Vec::new(rt.alloc());
    let mut messages = Vec::new(rt.alloc());
    check_many(&rt, &mut stream, &mut messages)
}
