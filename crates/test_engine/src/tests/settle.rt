//! What one command has still to send, event by event.

use midi_wire::{Kind, Message};
use seq_settle::Events;
use smf_files::SmfFile;
use std::process::Abort;
use std::test::Fail;
use tempo_clock::Due;

/// The next event goes, with this first data byte and this last one.
fn assert_next(rt: &impl Abort, events: &mut Events<'_>, first: u8, last: u8) -> Result<(), Fail> {
    let message = events.next()?.expect(rt, "an event");
    assert!(rt; message.byte_at(1) == Some(first));
    assert!(rt; message.byte_at(2) == Some(last));
    Ok(())
}

/// No event is left.
fn assert_end(rt: &impl Abort, events: &mut Events<'_>) -> Result<(), Fail> {
    assert!(rt; events.first_due().is_none());
    assert!(rt; events.next()?.is_none());
    Ok(())
}

// Events are lent by the test that makes them, so that they are dropped at one place alone: that is proved sooner.

fn assert_scheduled(rt: &impl Abort, events: &mut Events<'_>) -> Result<(), Fail> {
    assert!(rt; events.first_due() == Some(Due::Nanos(7)));
    assert_next(rt, events, 60, 64)?;
    assert_end(rt, events)
}

#[test]
fn a_scheduled_message_goes_once(rt: HostRuntime) -> Result<(), Fail> {
    let note = Message::channel(Kind::NoteOn, 0, 60, 64).ok_or("a message")?;
    let mut events = Events::scheduled(Due::Nanos(7), note);
    assert_scheduled(&rt, &mut events)
}

/// A format 0 file with a division of 480: 500,000 microseconds a quarter note, a note on at tick 0 and its end, by
/// running status, at tick 480.
const NOTE_FILE: &[u8] =
    b"MThd\x00\x00\x00\x06\x00\x00\x00\x01\x01\xE0MTrk\x00\x00\x00\x13\x00\xFF\x51\x03\x07\xA1\x20\x00\x90\x3C\x40\x83\x60\x3C\x00\x00\xFF\x2F\x00";

fn assert_played(rt: &impl Abort, events: &mut Events<'_>) -> Result<(), Fail> {
    for (tick, velocity) in [(0, 64), (480, 0)] {
        assert!(rt; events.first_due() == Some(Due::Tick(tick)));
        assert_next(rt, events, 60, velocity)?;
    }
    assert_end(rt, events)
}

#[test]
fn a_file_plays_by_tick(rt: HostRuntime) -> Result<(), Fail> {
    let file = SmfFile::read(rt.alloc(), NOTE_FILE)?;
    let mut events = Events::played(file.cursor()?);
    assert_played(&rt, &mut events)
}
