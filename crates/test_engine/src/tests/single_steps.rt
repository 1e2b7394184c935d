//! An engine that is taken step by step, and what it answers when memory runs out.

use super::lines::At::P;
use super::lines::Say::*;
use super::lines::{Lines, Say};
use super::logs::{heard_by, ran_of};
use agenda_heap::HeapAgenda;
use seq_engine::*;
use std::alloc::Global;
use std::process::Abort;
use std::test::Fail;

#[test]
fn settles_with_nothing_due(rt: HostRuntime) -> Result<(), Fail> {
    let alloc = rt.alloc();
    let mut engine = Engine::new(alloc, &[], HeapAgenda::new(alloc));
    assert_idle(&rt, &mut engine)
}

/// A new engine has nothing to send.
fn assert_idle(rt: &impl Abort, engine: &mut Engine<'_, '_, HeapAgenda>) -> Result<(), Fail> {
    assert!(rt; engine.now() == 0);
    assert!(rt; engine.steps() == 0);
    assert!(rt; engine.settle(10)?.len() == 0);
    assert!(rt; engine.now() == 10);
    assert!(rt; engine.steps() == 0);
    assert!(rt; engine.listing()?.len() == 0);
    Ok(())
}

/// A note that is scheduled for 6, and one that is sent at 9.
const ONE_DUE_AND_ONE_SENT: &[(u64, Say)] = &[
    (0, Open("a", 8, 8)),
    (0, Port(0, "out", 33)),
    (0, Port(1, "in", 66)),
    (0, Connect(P(128, 0), P(128, 1))),
    (1, Queue(0, 480, 500_000)),
    (1, Start(128, 0)),
    (1, Schedule(128, DueAt::Nanos(5), b"\x90\x01\x40")),
    (9, Send(0, b"\x90\x02\x40")),
];

/// A step's deliveries are those of the settling before it, and then those of its command.
#[test]
fn settles_before_the_command(rt: HostRuntime) -> Result<(), Fail> {
    let alloc = rt.alloc();
    let mut lines = Lines::new(alloc);
    lines.say_all(ONE_DUE_AND_ONE_SENT)?;
    let mut engine = Engine::new(alloc, &[], HeapAgenda::new(alloc));
    assert_taken(&rt, &mut engine, &lines)
}

/// Each input is taken, and the last delivers at 6 and 9.
fn assert_taken(
    rt: &impl Abort,
    engine: &mut Engine<'_, '_, HeapAgenda>,
    lines: &Lines,
) -> Result<(), Fail> {
    for input in lines.inputs() {
        assert_step(rt, engine, input)?;
    }
    assert!(rt; engine.now() == 9);
    assert!(rt; engine.steps() == 8);
    Ok(())
}

fn assert_step(
    rt: &impl Abort,
    engine: &mut Engine<'_, '_, HeapAgenda>,
    input: &Input,
) -> Result<(), Fail> {
    assert!(rt; engine.now() <= input.moment);
    assert!(rt; engine.steps() < u64::MAX);
    let out = engine.step(input)?;
    match out.delivered.as_slice() {
        [] => assert!(rt; input.moment < 9),
        [first, second] => {
            assert!(rt; first.moment == 6);
            assert!(rt; second.moment == 9);
        }
        _ => panic!(rt; "one delivery, or more than two"),
    }
    Ok(())
}

/// What is said, a queue that stops and starts again among it, and when something is due next after each.
const HELD_AND_STARTED_AGAIN: &[(u64, Say)] = &[
    (0, Open("a", 8, 8)),
    (0, Port(0, "out", 33)),
    (0, Queue(0, 480, 500_000)),
    (0, Schedule(128, DueAt::Nanos(5), b"\x90\x01\x40")),
    (1, Start(128, 0)),
    (3, Stop(128, 0)),
    (9, Start(128, 0)),
    // Its time has passed, so that it is due at once.
    (10, Schedule(128, DueAt::Nanos(0), b"\x90\x02\x40")),
    (12, Pools),
    (14, Pools),
];

const DUE_AFTER: &[Option<u64>] = &[
    None,
    None,
    None,
    None,
    Some(6),
    None,
    Some(14),
    Some(10),
    Some(14),
    None,
];

#[test]
fn tells_when_something_is_due(rt: HostRuntime) -> Result<(), Fail> {
    let alloc = rt.alloc();
    let mut lines = Lines::new(alloc);
    lines.say_all(HELD_AND_STARTED_AGAIN)?;
    let mut engine = Engine::new(alloc, &[], HeapAgenda::new(alloc));
    assert_due(&rt, &mut engine, &lines)
}

fn assert_due(
    rt: &impl Abort,
    engine: &mut Engine<'_, '_, HeapAgenda>,
    lines: &Lines,
) -> Result<(), Fail> {
    for (input, due) in lines.inputs().iter().zip(DUE_AFTER) {
        assert!(rt; engine.now() <= input.moment);
        assert!(rt; engine.steps() < u64::MAX);
        drop(engine.step(input)?);
        assert!(rt; engine.next_due()? == *due);
    }
    assert!(rt; engine.steps() == 10);
    Ok(())
}

/// A run of nothing has an empty log.
#[test]
fn nobody_says_anything(rt: HostRuntime) -> Result<(), Fail> {
    let alloc = rt.alloc();
    let log = ran_of(&rt, alloc, &[], u64::MAX)?;
    assert!(rt; log.entries.len() == 0);
    assert!(rt; log.listing.len() == 0);
    assert!(rt; heard_by(alloc, &log, 128)?.as_str() == "");
    Ok(())
}
