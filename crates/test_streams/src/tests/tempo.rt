//! Worked examples, computed by hand from the definitions.

ghost use Rattle.std.specs.Prelude.{◌≡◌, ◌<◌, IfOk, None};

use std::process::Abort;
use tempo_clock::{Due, MapFault, QueueClock, TempoEntry, TempoMap};

/// 480 ticks per quarter note, two quarter notes a second.
fn two_a_second(rt: &HostRuntime) -> Result<TempoMap, MapFault>
    ensures { IfOk result (λ m. m.division ≡ 480) }
{
    let entry = TempoEntry {
        tick: 0,
        tempo: 500_000,
    };
    TempoMap::new(rt.alloc(), 480, &[entry])
}

// Each map is lent by the test that makes it, so that it is dropped at one place alone: that is proved sooner.

fn assert_one_tempo(rt: &impl Abort, map: &TempoMap) {
    assert!(rt; map.division() == 480);
    assert!(rt; map.ppq() == 480);
    for (tick, nanos) in [(0, 0), (1, 1_041_667), (3, 3_125_000), (480, 500_000_000)] {
        assert!(rt; map.nanos_at(tick) == nanos);
    }
    assert!(rt; map.tick_at(1_041_666) == 0);
    assert!(rt; map.tick_at(1_041_667) == 1);
    assert!(rt; map.first_tick_from(1_041_666) == Some(1));
    assert!(rt; map.first_tick_from(1_041_667) == Some(2));
}

fn assert_changed(rt: &impl Abort, map: &mut TempoMap) -> Result<(), MapFault>
    requires { map.old.division ≡ 480 }
{
    map.change(1, 250_000)?;
    // 1,041,666 and two thirds, and half of that: rounded once, at the end.
    assert!(rt; map.nanos_at(2) == 1_562_500);
    Ok(())
}

#[test]
fn ticks_of_one_tempo(rt: HostRuntime) -> Result<(), MapFault> {
    let mut map = two_a_second(&rt)?;
    assert_one_tempo(&rt, &map);
    assert_changed(&rt, &mut map)
}

fn assert_three_tempos(rt: &impl Abort, map: &TempoMap) {
    for (tick, nanos) in [
        (96, 500_000_000),
        (144, 625_000_000),
        (192, 750_000_000),
        (288, 1_750_000_000),
    ] {
        assert!(rt; map.nanos_at(tick) == nanos);
        assert!(rt; map.tick_at(nanos as u64) == tick);
        assert!(rt; map.first_tick_from(nanos as u64) == Some(tick));
    }
}

/// A change leaves a copy of the map as it was.
fn assert_copied(
    rt: &impl Abort,
    map: &mut TempoMap,
    copy: &TempoMap,
    entries: &[TempoEntry],
) -> Result<(), MapFault>
    requires { map.old.division < 32768 }
{
    let change = TempoEntry {
        tick: 96,
        tempo: 500_000,
    };
    map.change(change.tick, change.tempo)?;
    let (shared, own) = map.entries();
    assert!(rt; shared.len() == 1);
    assert!(rt; own == [change].as_slice());
    assert!(rt; map.nanos_at(192) == 1_000_000_000);
    let (shared, own) = copy.entries();
    assert!(rt; shared == entries && own.is_empty());
    Ok(())
}

#[test]
fn ticks_of_three_tempos(rt: HostRuntime) -> Result<(), MapFault> {
    let entries = [(0, 500_000), (96, 250_000), (192, 1_000_000)].map(|e| TempoEntry {
        tick: e.0,
        tempo: e.1,
    });
    let mut map = TempoMap::new(rt.alloc(), 96, &entries)?;
    assert_three_tempos(&rt, &map);
    let copy = map.duplicate()?;
    assert_copied(&rt, &mut map, &copy, &entries)
}

fn assert_frames(rt: &impl Abort, map: &TempoMap) {
    assert!(rt; map.nanos_at(1) == 416_667);
    assert!(rt; map.nanos_at(3) == 1_250_000);
    assert!(rt; map.tick_at(416_666) == 0);
    assert!(rt; map.ppq() == 2_400);
    assert!(rt; map.division() == 0xE250);
    let (shared, own) = map.entries();
    assert!(rt; shared.is_empty() && own.is_empty());
}

#[test]
fn frames(rt: HostRuntime) -> Result<(), MapFault> {
    let map = TempoMap::smpte(rt.alloc(), 30, 80)?;
    assert_frames(&rt, &map);
    Ok(())
}

#[test]
fn refused_frames(rt: HostRuntime) -> Result<(), MapFault> {
    assert!(rt; is_bad(TempoMap::smpte(rt.alloc(), 29, 80)));
    assert!(rt; is_bad(TempoMap::smpte(rt.alloc(), 25, 0)));
    assert!(rt; TempoMap::smpte(rt.alloc(), 25, 40)?.division() == 0xE728);
    Ok(())
}

fn is_bad(map: Result<TempoMap, MapFault>) -> bool {
    matches!(map, Err(MapFault::BadMap))
}

#[test]
fn refused_maps(rt: HostRuntime) {
    let good = [TempoEntry { tick: 0, tempo: 1 }];
    let late = [TempoEntry { tick: 1, tempo: 1 }];
    let twice = [good[0], good[0]];
    let slow = [TempoEntry {
        tick: 0,
        tempo: 16_777_216,
    }];
    assert!(rt; TempoMap::new(rt.alloc(), 32_767, &good).is_ok());
    for ppq in [0, 32_768] {
        assert!(rt; is_bad(TempoMap::new(rt.alloc(), ppq, &good)));
    }
    for entries in [&[], &late[..], &twice[..], &slow[..]] {
        assert!(rt; is_bad(TempoMap::new(rt.alloc(), 1, entries)));
    }
}

#[test]
fn ends_of_the_range(rt: HostRuntime) -> Result<(), MapFault> {
    let slow = TempoEntry {
        tick: 0,
        tempo: 16_777_215,
    };
    let map = TempoMap::new(rt.alloc(), 1, &[slow])?;
    assert!(rt; map.nanos_at(u64::MAX) == 309_484_991_374_600_994_998_452_225_000);
    let fast = TempoEntry { tick: 0, tempo: 1 };
    let map = TempoMap::new(rt.alloc(), 32_767, &[fast])?;
    assert!(rt; map.tick_at(u64::MAX) == u64::MAX);
    assert!(rt; map.first_tick_from(u64::MAX) == None);
    Ok(())
}

/// The clock starts, stops, goes on and changes its tempo.
fn run_on(rt: &impl Abort, clock: &mut QueueClock) -> Result<(), MapFault>
    requires held { clock.old.since ≡ None }
    requires first { clock.old.time ≡ 0 }
    requires metrical { clock.old.map.division ≡ 480 }
{
    assert!(rt; clock.due_moment(Due::Tick(2), 0) == None);
    clock.start(10);
    clock.stop(110);
    assert!(rt; !clock.running());
    assert!(rt; clock.elapsed(399) == 100);
    clock.resume(400);
    assert!(rt; clock.running());
    clock.set_tempo(1_300, 250_000)?;
    assert!(rt; clock.elapsed(1_300) == 1_000);
    Ok(())
}

/// The clock after that.
fn assert_run_on(rt: &impl Abort, clock: &QueueClock) {
    let entries = [(0, 500_000), (1, 250_000)].map(|e| TempoEntry {
        tick: e.0,
        tempo: e.1,
    });
    let (shared, own) = clock.map().entries();
    assert!(rt; shared == &entries[..1]);
    assert!(rt; own == &entries[1..]);
    assert!(rt; clock.due_moment(Due::Tick(2), 0) == Some(1_562_800));
    assert!(rt; clock.due_moment(Due::Tick(2), 2_000_000) == Some(2_000_000));
    assert!(rt; clock.due_moment(Due::Nanos(50), 0) == Some(400));
    assert!(rt; clock.due_moment(Due::Nanos(u64::MAX), 0) == None);
    assert!(rt; clock.tick(1_562_800) == 2);
    assert!(rt; clock.tick(1_562_799) == 1);
}

#[test]
fn clock_of_a_queue(rt: HostRuntime) -> Result<(), MapFault> {
    let mut clock = QueueClock::new(two_a_second(&rt)?);
    run_on(&rt, &mut clock)?;
    assert_run_on(&rt, &clock);
    Ok(())
}
