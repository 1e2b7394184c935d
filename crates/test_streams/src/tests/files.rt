//! Worked files, and written files with each kind of event.

use midi_wire::{Kind, Message};
use smf_files::{
    Cursor, Event, EventBytes, OutOfMemory, PairBytes, QuantityFault, SmfFault, SmfFile,
    TempoEntry, TracksFault, WriteFault, quantity, write_format0, write_tracks,
};
use std::alloc::Global;
use std::process::Abort;
use std::test::Fail;
use tempo_clock::TempoMap;

/// A chunk of another type, and a track with a tempo and a note that sounds for 480 ticks.
const SMALL: [u8; 51] = [
    0x4D, 0x54, 0x68, 0x64, 0x00, 0x00, 0x00, 0x06, 0x00, 0x00, 0x00, 0x01, 0x01, 0xE0, 0x58, 0x59,
    0x5A, 0x31, 0x00, 0x00, 0x00, 0x02, 0xAA, 0xBB, 0x4D, 0x54, 0x72, 0x6B, 0x00, 0x00, 0x00, 0x13,
    0x00, 0xFF, 0x51, 0x03, 0x07, 0xA1, 0x20, 0x00, 0x90, 0x3C, 0x40, 0x83, 0x60, 0x3C, 0x00, 0x00,
    0xFF, 0x2F, 0x00,
];

/// Two tracks with notes at one tick, and a tempo in each.
const TWO_TRACKS: [u8; 64] = [
    0x4D, 0x54, 0x68, 0x64, 0x00, 0x00, 0x00, 0x06, 0x00, 0x01, 0x00, 0x02, 0x00, 0x60, 0x4D, 0x54,
    0x72, 0x6B, 0x00, 0x00, 0x00, 0x0F, 0x00, 0xFF, 0x51, 0x03, 0x03, 0xD0, 0x90, 0x60, 0x90, 0x01,
    0x40, 0x00, 0xFF, 0x2F, 0x00, 0x4D, 0x54, 0x72, 0x6B, 0x00, 0x00, 0x00, 0x13, 0x60, 0x90, 0x02,
    0x40, 0x00, 0xFF, 0x51, 0x03, 0x07, 0xA1, 0x20, 0x00, 0x90, 0x03, 0x40, 0x00, 0xFF, 0x2F, 0x00,
];

/// An exclusive message, one with a status inside, and an escape.
const EXCLUSIVES: [u8; 41] = [
    0x4D, 0x54, 0x68, 0x64, 0x00, 0x00, 0x00, 0x06, 0x00, 0x00, 0x00, 0x01, 0x01, 0xE0, 0x4D, 0x54,
    0x72, 0x6B, 0x00, 0x00, 0x00, 0x13, 0x00, 0xF0, 0x03, 0x7D, 0x01, 0xF7, 0x00, 0xF0, 0x02, 0x7D,
    0x01, 0x00, 0xF7, 0x01, 0xF8, 0x00, 0xFF, 0x2F, 0x00,
];

/// Running status after an exclusive event.
const STATUS_GONE: [u8; 37] = [
    0x4D, 0x54, 0x68, 0x64, 0x00, 0x00, 0x00, 0x06, 0x00, 0x00, 0x00, 0x01, 0x01, 0xE0, 0x4D, 0x54,
    0x72, 0x6B, 0x00, 0x00, 0x00, 0x0F, 0x00, 0x90, 0x3C, 0x40, 0x00, 0xF0, 0x01, 0xF7, 0x00, 0x3C,
    0x40, 0x00, 0xFF, 0x2F, 0x00,
];

/// The small file with 40 ticks in each of 25 frames a second.
const FRAMES: [u8; 51] = [
    0x4D, 0x54, 0x68, 0x64, 0x00, 0x00, 0x00, 0x06, 0x00, 0x00, 0x00, 0x01, 0xE7, 0x28, 0x58, 0x59,
    0x5A, 0x31, 0x00, 0x00, 0x00, 0x02, 0xAA, 0xBB, 0x4D, 0x54, 0x72, 0x6B, 0x00, 0x00, 0x00, 0x13,
    0x00, 0xFF, 0x51, 0x03, 0x07, 0xA1, 0x20, 0x00, 0x90, 0x3C, 0x40, 0x83, 0x60, 0x3C, 0x00, 0x00,
    0xFF, 0x2F, 0x00,
];

/// A quantity, and its number with how many bytes it has.
const QUANTITIES: &[(&'static [u8], Result<(u32, usize), QuantityFault>)] = &[
    (&[0x81, 0x00], Ok((128, 2))),
    (&[0xFF, 0xFF, 0xFF, 0x7F], Ok((268_435_455, 4))),
    (&[0x80, 0x00], Ok((0, 2))),
    (&[0x80, 0x80, 0x80, 0x80, 0x00], Err(QuantityFault::Long)),
    (&[0x81], Err(QuantityFault::Short)),
    (&[], Err(QuantityFault::Short)),
];

#[test]
fn reads_quantities(rt: HostRuntime) {
    for (bytes, number) in QUANTITIES {
        assert!(rt; quantity(bytes) == *number, "of {bytes:?}");
    }
}

/// A file, and what it says.
struct Said {
    name: &'static str,
    bytes: &'static [u8],
    format: u16,
    tracks: u16,
    division: u16,
    tempos: &'static [TempoEntry],
    /// The tick and the bytes of each event.
    events: &'static [(u64, &'static [u8])],
}

const HALF_SECONDS: TempoEntry = TempoEntry {
    tick: 0,
    tempo: 500_000,
};

const FILES: &[Said] = &[
    Said {
        name: "a track, and a chunk of another type",
        bytes: &SMALL,
        format: 0,
        tracks: 1,
        division: 480,
        tempos: &[HALF_SECONDS],
        events: &[(0, &[0x90, 0x3C, 0x40]), (480, &[0x90, 0x3C, 0x00])],
    },
    Said {
        name: "a file that counts frames has no tempo",
        bytes: &FRAMES,
        format: 0,
        tracks: 1,
        division: 59_176,
        tempos: &[],
        events: &[(0, &[0x90, 0x3C, 0x40]), (480, &[0x90, 0x3C, 0x00])],
    },
    Said {
        name: "events of one tick go by track",
        bytes: &TWO_TRACKS,
        format: 1,
        tracks: 2,
        division: 96,
        tempos: &[
            TempoEntry {
                tick: 0,
                tempo: 250_000,
            },
            TempoEntry {
                tick: 96,
                tempo: 500_000,
            },
        ],
        events: &[
            (96, &[0x90, 0x01, 0x40]),
            (96, &[0x90, 0x02, 0x40]),
            (96, &[0x90, 0x03, 0x40]),
        ],
    },
];

/// All bytes of a message.
fn full_bytes(alloc: Global, message: &Message) -> Result<Vec<u8>, OutOfMemory> {
    let mut full = Vec::new(alloc);
    message.append_to(&mut full)?;
    Ok(full)
}

fn is_event(alloc: Global, event: &Event, tick: u64, bytes: &[u8]) -> Result<bool, OutOfMemory> {
    Ok(event.tick == tick && full_bytes(alloc, &event.message)?.as_slice() == bytes)
}

// A cursor is lent by the function that makes it, so that it is dropped at one place alone: that is proved sooner.

/// Whether the next event has this tick, which is told before, and these bytes.
fn is_next(
    alloc: Global,
    cursor: &mut Cursor<'_>,
    tick: u64,
    bytes: &[u8],
) -> Result<bool, OutOfMemory> {
    let peeked = cursor.peek_tick();
    match cursor.next()? {
        Some(event) => Ok(peeked == Some(tick) && is_event(alloc, &event, tick, bytes)?),
        None => Ok(false),
    }
}

fn is_at_end(cursor: &mut Cursor<'_>) -> Result<bool, OutOfMemory> {
    Ok(cursor.peek_tick() == None && cursor.next()?.is_none())
}

fn plays(
    alloc: Global,
    cursor: &mut Cursor<'_>,
    events: &[(u64, &[u8])],
) -> Result<bool, OutOfMemory> {
    for (tick, bytes) in events {
        if !is_next(alloc, cursor, *tick, bytes)? {
            return Ok(false);
        }
    }
    is_at_end(cursor)
}

fn says(file: &SmfFile<'_>, said: &Said) -> bool {
    (file.format(), file.tracks(), file.division()) == (said.format, said.tracks, said.division)
        && file.tempo_entries() == said.tempos
        && file.skipped() == 0
}

fn assert_said(rt: &impl Abort, alloc: Global, said: &Said) -> Result<(), Fail> {
    let file = SmfFile::read(alloc, said.bytes)?;
    assert!(rt; says(&file, said), "{}", said.name);
    assert!(rt;
        plays(alloc, &mut file.cursor()?, said.events)?,
        "{}",
        said.name
    );
    Ok(())
}

#[test]
fn files_say_and_play(rt: HostRuntime) -> Result<(), Fail> {
    for said in FILES {
        assert_said(&rt, rt.alloc(), said)?;
    }
    Ok(())
}

/// The fault of bytes, if they have one.
fn fault_of(alloc: Global, bytes: &[u8]) -> Option<SmfFault> {
    SmfFile::read(alloc, bytes).err()
}

#[test]
fn tells_cuts(rt: HostRuntime) {
    for cut in 0..51 {
        let expected = match cut {
            0..=3 => SmfFault::NotMidi,
            4..=13 => SmfFault::ShortHeader,
            14..=21 | 24..=31 => SmfFault::TrackMissing,
            22 | 23 => SmfFault::Truncated { at: 14 },
            _ => SmfFault::Truncated { at: 24 },
        };
        assert!(rt; fault_of(rt.alloc(), &SMALL[..cut]) == Some(expected));
    }
}

/// The bytes of a file, with another byte at a place.
fn damaged(alloc: Global, file: &[u8], at: usize, byte: u8) -> Result<Vec<u8>, OutOfMemory> {
    let mut bytes = Vec::from_slice(alloc, file)?;
    if let Some(place) = bytes.get_mut(at) {
        *place = byte;
    }
    Ok(bytes)
}

/// A file, how many of its bytes are there, a byte at a place, and the fault that it has then.
struct Damage {
    file: &'static [u8],
    length: usize,
    at: usize,
    byte: u8,
    fault: SmfFault,
}

const DAMAGES: &[Damage] = &[
    Damage {
        file: &SMALL,
        length: 51,
        at: 9,
        byte: 2,
        fault: SmfFault::Format2,
    },
    // The track ends before its last event.
    Damage {
        file: &SMALL,
        length: 47,
        at: 31,
        byte: 15,
        fault: SmfFault::NoEndOfTrack { track: 0 },
    },
    Damage {
        file: &SMALL,
        length: 51,
        at: 12,
        byte: 0xE3,
        fault: SmfFault::DropFrame,
    },
    Damage {
        file: &SMALL,
        length: 51,
        at: 12,
        byte: 0xE0,
        fault: SmfFault::SmpteDivision,
    },
    Damage {
        file: &TWO_TRACKS,
        length: 64,
        at: 11,
        byte: 3,
        fault: SmfFault::TrackMissing,
    },
];

fn fault_of_damage(alloc: Global, damage: &Damage) -> Result<Option<SmfFault>, Fail> {
    let bytes = damaged(alloc, damage.file, damage.at, damage.byte)?;
    let front = bytes
        .as_slice()
        .get(..damage.length)
        .ok_or("so many bytes")?;
    Ok(fault_of(alloc, front))
}

#[test]
fn tells_damage(rt: HostRuntime) -> Result<(), Fail> {
    for damage in DAMAGES {
        let fault = fault_of_damage(rt.alloc(), damage)?;
        assert!(rt;
            fault == Some(damage.fault),
            "in place of {:?}",
            damage.fault
        );
    }
    assert!(rt; fault_of(rt.alloc(), &STATUS_GONE) == Some(SmfFault::NoStatus { at: 30 }));
    Ok(())
}

/// What follows the tracks that the header tells of is passed over.
#[test]
fn reads_one_of_two_tracks(rt: HostRuntime) -> Result<(), Fail> {
    let bytes = damaged(rt.alloc(), &TWO_TRACKS, 11, 1)?;
    assert!(rt; SmfFile::read(rt.alloc(), bytes.as_slice())?.tracks() == 1);
    Ok(())
}

/// Ticks of a map, and the moments in nanoseconds at which they come.
type Moments = &'static [(u64, u128)];

fn reaches(map: &TempoMap, moments: &[(u64, u128)]) -> bool {
    for (tick, nanos) in moments {
        if map.nanos_at(*tick) != *nanos {
            return false;
        }
    }
    true
}

/// 96 ticks per quarter note: a quarter of a second each up to tick 96, then half a second.
const TWO_TEMPOS: Moments = &[
    (0, 0),
    (1, 2_604_167),
    (96, 250_000_000),
    (97, 255_208_334),
    (192, 750_000_000),
];

#[test]
fn plays_by_tempos(rt: HostRuntime) -> Result<(), Fail> {
    let map = SmfFile::read(rt.alloc(), &TWO_TRACKS)?.tempo_map()?;
    assert!(rt; map.ppq() == 96);
    assert!(rt; reaches(&map, TWO_TEMPOS));
    Ok(())
}

fn assert_one_tempo(rt: &impl Abort, map: &TempoMap) {
    let (shared, own) = map.entries();
    assert!(rt; shared == [HALF_SECONDS].as_slice() && own.is_empty());
    assert!(rt; reaches(map, &[(480, 500_000_000)]));
}

#[test]
fn plays_by_one_tempo(rt: HostRuntime) -> Result<(), Fail> {
    let file = SmfFile::read(rt.alloc(), &SMALL)?;
    file.plays_in_order();
    assert_one_tempo(&rt, &file.tempo_map()?);
    Ok(())
}

/// A division by frames, and when ticks 1 and 480 come: no tempo counts.
const DIVISIONS: &[(u8, u8, Moments)] = &[
    (0xE8, 4, &[(1, 10_416_667), (480, 5_000_000_000)]),
    (0xE7, 40, &[(1, 1_000_000), (480, 480_000_000)]),
    (0xE2, 80, &[(1, 416_667), (480, 200_000_000)]),
];

fn has_no_tempo(map: &TempoMap) -> bool {
    let (shared, own) = map.entries();
    shared.is_empty() && own.is_empty()
}

/// The map of the small file with another division.
fn divided(alloc: Global, minus_frames: u8, per_frame: u8) -> Result<TempoMap, Fail> {
    let bytes = damaged(alloc, &SMALL, 12, minus_frames)?;
    let bytes = damaged(alloc, bytes.as_slice(), 13, per_frame)?;
    Ok(SmfFile::read(alloc, bytes.as_slice())?.tempo_map()?)
}

#[test]
fn plays_by_frames(rt: HostRuntime) -> Result<(), Fail> {
    for (minus_frames, per_frame, moments) in DIVISIONS {
        let map = divided(rt.alloc(), *minus_frames, *per_frame)?;
        assert!(rt; has_no_tempo(&map) && reaches(&map, moments));
    }
    Ok(())
}

/// Where memory is refused, the cursor stays at its event, which comes when it is asked again.
#[test]
fn plays_exclusive_messages(rt: HostRuntime) -> Result<(), Fail> {
    let file = SmfFile::read(rt.alloc(), &EXCLUSIVES)?;
    assert!(rt; file.skipped() == 2);
    assert_exclusive(&rt, rt.alloc(), &mut file.cursor()?)
}

fn assert_exclusive(rt: &impl Abort, alloc: Global, cursor: &mut Cursor<'_>) -> Result<(), Fail> {
    let first = next_or_again(rt, cursor)?.ok_or("an event")?;
    assert!(rt; is_event(alloc, &first, 0, &[0xF0, 0x7D, 0x01, 0xF7])?);
    assert!(rt; is_at_end(cursor)?);
    Ok(())
}

fn next_or_again(rt: &impl Abort, cursor: &mut Cursor<'_>) -> Result<Option<Event>, OutOfMemory> {
    match cursor.next() {
        Ok(first) => Ok(first),
        Err(_) => {
            assert!(rt; cursor.peek_tick() == Some(0));
            cursor.next()
        }
    }
}

/// An exclusive message of so many data bytes.
fn exclusive(alloc: Global, count: usize) -> Result<Message, Fail> {
    let mut bytes = Vec::new(alloc);
    bytes.push(0xF0)?;
    for _byte in 0..count {
        bytes.push(0x55)?;
    }
    bytes.push(0xF7)?;
    Ok(Message::from_bytes(alloc, bytes.as_slice())?.ok_or("a message")?)
}

/// Messages of each kind that a file has, with delta times of one to four bytes.
fn all_kinds(alloc: Global) -> Result<Vec<Event>, Fail> {
    let mut events = Vec::new(alloc);
    let kinds = [
        (0, Kind::NoteOff),
        (127, Kind::NoteOn),
        (255, Kind::PolyPressure),
        (16_638, Kind::ControlChange),
        (33_022, Kind::PitchBend),
        (2_130_173, Kind::NoteOn),
        (4_227_325, Kind::NoteOn),
        (272_662_780, Kind::NoteOff),
    ];
    for (tick, kind) in kinds {
        let message = Message::channel(kind, 3, 0x11, 0x7F).ok_or("a message")?;
        events.push(Event { tick, message })?;
    }
    for (kind, first) in [(Kind::ProgramChange, 5), (Kind::ChannelPressure, 6)] {
        let message = Message::channel(kind, 15, first, 0).ok_or("a message")?;
        events.push(Event {
            tick: 272_662_780,
            message,
        })?;
    }
    for count in [0, 65_536] {
        events.push(Event {
            tick: 272_662_781,
            message: exclusive(alloc, count)?,
        })?;
    }
    Ok(events)
}

/// The bytes are a file of these events, with this tempo from its beginning.
fn assert_written(
    rt: &impl Abort,
    alloc: Global,
    bytes: &[u8],
    tempo: u32,
    events: &[Event],
) -> Result<(), Fail> {
    let file = SmfFile::read(alloc, bytes)?;
    assert!(rt; file.tempo_entries() == [TempoEntry { tick: 0, tempo }].as_slice());
    assert!(rt; file.skipped() == 0);
    assert!(rt; plays_all(alloc, &mut file.cursor()?, events)?);
    Ok(())
}

fn plays_all(
    alloc: Global,
    cursor: &mut Cursor<'_>,
    events: &[Event],
) -> Result<bool, OutOfMemory> {
    for event in events {
        let full = full_bytes(alloc, &event.message)?;
        if !is_next(alloc, cursor, event.tick, full.as_slice())? {
            return Ok(false);
        }
    }
    is_at_end(cursor)
}

#[test]
fn writes_what_it_reads(rt: HostRuntime) -> Result<(), Fail> {
    let events = all_kinds(rt.alloc())?;
    let bytes = write_format0(rt.alloc(), 480, 250_000, events.as_slice())?;
    assert_written(
        &rt,
        rt.alloc(),
        bytes.as_slice(),
        250_000,
        events.as_slice(),
    )
}

#[test]
fn writes_one_note(rt: HostRuntime) -> Result<(), Fail> {
    let message = Message::channel(Kind::NoteOn, 0, 0x3C, 0x40).ok_or("a message")?;
    let bytes = write_format0(rt.alloc(), 480, 500_000, &[Event { tick: 0, message }])?;
    let expected = [
        0x4D, 0x54, 0x68, 0x64, 0x00, 0x00, 0x00, 0x06, 0x00, 0x00, 0x00, 0x01, 0x01, 0xE0, 0x4D,
        0x54, 0x72, 0x6B, 0x00, 0x00, 0x00, 0x0F, 0x00, 0xFF, 0x51, 0x03, 0x07, 0xA1, 0x20, 0x00,
        0x90, 0x3C, 0x40, 0x00, 0xFF, 0x2F, 0x00,
    ];
    assert!(rt; bytes.as_slice() == expected.as_slice());
    Ok(())
}

/// Ticks per quarter note and a tempo, and why a clock at tick 7 is not written.
const REFUSED: &[(u16, u32, WriteFault)] = &[
    (480, 500_000, WriteFault::BadEvent { index: 0 }),
    (0, 0, WriteFault::BadPpq),
    (32_767, 16_777_216, WriteFault::BadTempo),
];

#[test]
fn refuses_real_time(rt: HostRuntime) -> Result<(), Fail> {
    let message = Message::from_bytes(rt.alloc(), &[0xF8])?.ok_or("a message")?;
    let events = [Event { tick: 7, message }];
    for (ppq, tempo, fault) in REFUSED {
        let refused = write_format0(rt.alloc(), *ppq, *tempo, &events).err();
        assert!(rt; refused == Some(*fault));
    }
    Ok(())
}

fn meta(delta: u32, kind: u8, payload: &[u8]) -> PairBytes<'_> {
    PairBytes {
        delta,
        event: EventBytes::Meta { kind, payload },
    }
}

fn voice(delta: u32, status: u8, first: u8, second: u8) -> PairBytes<'static> {
    PairBytes {
        delta,
        event: EventBytes::VoiceOfTwo {
            status,
            first,
            second,
        },
    }
}

fn program(delta: u32, status: u8, first: u8) -> PairBytes<'static> {
    PairBytes {
        delta,
        event: EventBytes::VoiceOfOne { status, first },
    }
}

/// A tempo, and the end a quarter note later.
fn tempo_pairs(alloc: Global) -> Result<Vec<PairBytes<'static>>, Fail> {
    let pairs = [meta(0, 0x51, &[0x07, 0xA1, 0x20]), meta(96, 0x2F, &[])];
    Ok(Vec::from_slice(alloc, &pairs)?)
}

/// Events of each kind, and the end some ticks later.
fn all_pairs(alloc: Global) -> Result<Vec<PairBytes<'static>>, Fail> {
    let pairs = [
        voice(0, 0x90, 0x3C, 0x40),
        voice(96, 0x90, 0x3C, 0x00),
        meta(0, 0x01, &[0x41]),
        voice(0, 0x90, 0x3E, 0x40),
        PairBytes {
            delta: 128,
            event: EventBytes::Exclusive(&[0x7D, 0x01, 0xF7]),
        },
        PairBytes {
            delta: 0,
            event: EventBytes::Escape(&[0xF8]),
        },
        program(5, 0xC2, 0x07),
        program(0, 0xC2, 0x08),
        meta(7, 0x2F, &[]),
    ];
    Ok(Vec::from_slice(alloc, &pairs)?)
}

/// These tracks as a file: the status runs on to the second note and to the second program, and not over the meta
/// event.
const WRITTEN_TRACKS: [u8; 77] = [
    0x4D, 0x54, 0x68, 0x64, 0x00, 0x00, 0x00, 0x06, 0x00, 0x01, 0x00, 0x02, 0x00, 0x60, 0x4D, 0x54,
    0x72, 0x6B, 0x00, 0x00, 0x00, 0x0B, 0x00, 0xFF, 0x51, 0x03, 0x07, 0xA1, 0x20, 0x60, 0xFF, 0x2F,
    0x00, 0x4D, 0x54, 0x72, 0x6B, 0x00, 0x00, 0x00, 0x24, 0x00, 0x90, 0x3C, 0x40, 0x60, 0x3C, 0x00,
    0x00, 0xFF, 0x01, 0x01, 0x41, 0x00, 0x90, 0x3E, 0x40, 0x81, 0x00, 0xF0, 0x03, 0x7D, 0x01, 0xF7,
    0x00, 0xF7, 0x01, 0xF8, 0x05, 0xC2, 0x07, 0x00, 0x08, 0x07, 0xFF, 0x2F, 0x00,
];

/// The tick and the bytes of each message of these tracks.
const TRACK_EVENTS: &[(u64, &'static [u8])] = &[
    (0, &[0x90, 0x3C, 0x40]),
    (96, &[0x90, 0x3C, 0x00]),
    (96, &[0x90, 0x3E, 0x40]),
    (224, &[0xF0, 0x7D, 0x01, 0xF7]),
    (229, &[0xC2, 0x07]),
    (229, &[0xC2, 0x08]),
];

fn assert_two_tracks(rt: &impl Abort, alloc: Global, bytes: &[u8]) -> Result<(), Fail> {
    let file = SmfFile::read(alloc, bytes)?;
    assert!(rt; (file.format(), file.tracks(), file.division()) == (1, 2, 96));
    assert!(rt; file.skipped() == 1);
    assert!(rt; plays(alloc, &mut file.cursor()?, TRACK_EVENTS)?);
    Ok(())
}

#[test]
fn writes_tracks(rt: HostRuntime) -> Result<(), Fail> {
    let tracks = [tempo_pairs(rt.alloc())?, all_pairs(rt.alloc())?];
    let bytes = write_tracks(rt.alloc(), 1, 96, &tracks)?;
    assert!(rt; bytes.as_slice() == WRITTEN_TRACKS.as_slice());
    assert_two_tracks(&rt, rt.alloc(), bytes.as_slice())
}

const END: PairBytes<'static> = PairBytes {
    delta: 0,
    event: EventBytes::Meta {
        kind: 0x2F,
        payload: &[],
    },
};

/// A delta time that four bytes can't spell.
const LATE_END: PairBytes<'static> = PairBytes {
    delta: 0x1000_0000,
    event: EventBytes::Meta {
        kind: 0x2F,
        payload: &[],
    },
};

/// A note whose second data byte is a status.
const NO_NOTE: PairBytes<'static> = PairBytes {
    delta: 0,
    event: EventBytes::VoiceOfTwo {
        status: 0x90,
        first: 0x3C,
        second: 0x80,
    },
};

/// A file of one track that is not written.
struct RefusedTrack {
    format: u16,
    division: u16,
    pairs: &'static [PairBytes<'static>],
    fault: TracksFault,
}

const REFUSED_TRACKS: &[RefusedTrack] = &[
    RefusedTrack {
        format: 2,
        division: 96,
        pairs: &[END],
        fault: TracksFault::BadFormat,
    },
    // 29 frames per second.
    RefusedTrack {
        format: 0,
        division: 0xE328,
        pairs: &[END],
        fault: TracksFault::BadDivision,
    },
    RefusedTrack {
        format: 1,
        division: 96,
        pairs: &[],
        fault: TracksFault::NoEnd { track: 0 },
    },
    RefusedTrack {
        format: 1,
        division: 96,
        pairs: &[END, END],
        fault: TracksFault::EarlyEnd { track: 0, pair: 0 },
    },
    RefusedTrack {
        format: 0,
        division: 96,
        pairs: &[LATE_END],
        fault: TracksFault::BadPair { track: 0, pair: 0 },
    },
    RefusedTrack {
        format: 0,
        division: 96,
        pairs: &[NO_NOTE, END],
        fault: TracksFault::BadPair { track: 0, pair: 0 },
    },
];

/// Why the one track is not written.
fn fault_of_track(alloc: Global, refused: &RefusedTrack) -> Result<Option<TracksFault>, Fail> {
    let tracks = [Vec::from_slice(alloc, refused.pairs)?];
    Ok(write_tracks(alloc, refused.format, refused.division, &tracks).err())
}

#[test]
fn refuses_tracks(rt: HostRuntime) -> Result<(), Fail> {
    for refused in REFUSED_TRACKS {
        let fault = fault_of_track(rt.alloc(), refused)?;
        assert!(rt;
            fault == Some(refused.fault),
            "in place of {:?}",
            refused.fault
        );
    }
    Ok(())
}

#[test]
fn refuses_two_tracks_in_format_0(rt: HostRuntime) -> Result<(), Fail> {
    let tracks = [tempo_pairs(rt.alloc())?, tempo_pairs(rt.alloc())?];
    let fault = write_tracks(rt.alloc(), 0, 96, &tracks).err();
    assert!(rt; fault == Some(TracksFault::BadTrackCount));
    Ok(())
}
