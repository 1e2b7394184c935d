//! The list and the heap with their stale entries, and both bodies at the same calls.

ghost use Rattle.std.specs.Prelude.{◌≡◌};

use crate::{CELLS, Driver};
use agenda_heap::{Agenda, DueKey, HeapAgenda, OutOfMemory, SortedAgenda};
use cell_pools::CellKey;
use std::process::Abort;

fn at(moment: u64) -> DueKey
    ensures { result ≡ record { moment = moment; rank = 0; place = 0 } }
{
    DueKey {
        moment,
        rank: 0,
        place: 0,
    }
}

#[test]
fn stale_entries(rt: HostRuntime) -> Result<(), OutOfMemory> {
    let cell = CellKey::new(0);
    let mut agenda = HeapAgenda::new(rt.alloc());
    agenda.insert(cell, at(0))?;
    assert!(rt; agenda.stored() <= 66);
    for turn in 0..1000 {
        agenda.rekey(cell, at(turn + 1))?;
        assert!(rt; agenda.stored() <= 66);
    }
    assert!(rt; agenda.pop_due(999) == None);
    assert!(rt; agenda.pop_due(1000) == Some((cell, at(1000))));
    assert!(rt; agenda.len() == 0);
    Ok(())
}

/// The next of a row of numbers that look random.
fn after(x: u64) -> u64 {
    let y = x ^ (x << 13);
    let z = y ^ (y >> 7);
    z ^ (z << 17)
}

/// One call on both, which answer alike. Most moments are `latest`, so that keys come in order; the others are few and
/// early, so that keys also come in between, and cells come back to earlier ones.
fn turn(
    rt: &impl Abort,
    heap: &mut Driver<HeapAgenda>,
    sorted: &mut Driver<SortedAgenda>,
    latest: u64,
    chance: u64,
) -> Result<(), OutOfMemory> {
    let cell = (chance % CELLS as u64) as usize;
    let moment = if (chance >> 24) % 4 == 0 {
        (chance >> 8) % 8
    } else {
        latest
    };
    match (chance >> 16) % 8 {
        0 => {
            heap.remove(cell);
            sorted.remove(cell);
        }
        1 => assert!(rt; heap.pop_due(moment) == sorted.pop_due(moment)),
        _ => {
            heap.set(cell, moment)?;
            sorted.set(cell, moment)?;
        }
    }
    assert!(rt; heap.agenda.len() == sorted.agenda.len());
    assert!(rt; heap.agenda.stored() <= 2 * CELLS + 64);
    Ok(())
}

#[test]
fn both_bodies_agree(rt: HostRuntime) -> Result<(), OutOfMemory> {
    let mut heap = Driver::new(HeapAgenda::new(rt.alloc()));
    let mut sorted = Driver::new(SortedAgenda::new(rt.alloc()));
    for cell in 0..CELLS {
        heap.set(cell, 0)?;
        sorted.set(cell, 0)?;
    }
    let mut chance = 88_172_645_463_325_252;
    for count in 0..6000 {
        chance = after(chance);
        turn(&rt, &mut heap, &mut sorted, count / 4, chance)?;
    }
    for _cell in 0..=CELLS {
        assert!(rt; heap.pop_due(u64::MAX) == sorted.pop_due(u64::MAX));
    }
    assert!(rt; heap.agenda.len() == 0);
    Ok(())
}
