//! Entries looked at one after another, of which those that are stale are dropped.

ghost use Rattle.std.specs.Prelude.{◌<◌, ◌++◌, length};
ghost use Rattle.std.specs.BinaryHeap.{IsHeap};
ghost use Rattle.agenda_heap.specs.Stored.{reversed_cmp, Ascends, HoldsCells};

use crate::entry::Entry;
use crate::sifting::{push, take_at};
use crate::table::KeyTable;
use std::cmp::Reverse;
use std::collections::VecDeque;

/// How many entries a call looks at.
// A call leaves one entry that is stale at most, and a third of those that it looks at are.
const LOOKED_AT: usize = 5;

/// Looks at some entries, and drops those that are stale: from the last place of the heap to the first, and then from
/// the list's end on.
pub(crate) fn sweep(
    ascending: &mut VecDeque<Reverse<Entry>>,
    heap: &mut Vec<Reverse<Entry>>,
    table: &KeyTable,
    unswept: &mut usize,
)
    requires ascends { Ascends ascending.old.items }
    requires order { IsHeap reversed_cmp heap.old.items }
    requires held { HoldsCells table.now (ascending.old.items ++ heap.old.items) }
    ensures ascends { Ascends ascending.new.items }
    ensures order { IsHeap reversed_cmp heap.new.items }
    ensures held { HoldsCells table.now (ascending.new.items ++ heap.new.items) }
{
    for _turn in 0..LOOKED_AT {
        let places = (*unswept).min(heap.len());
        if places > 0 {
            *unswept = places - 1;
            look_at(ascending, heap, table, places - 1);
        } else {
            *unswept = look_at_last(ascending, heap, table);
        }
    }
}

/// Drops the entry at a place of the heap if it is stale.
#[inline]
fn look_at(
    ascending: &VecDeque<Reverse<Entry>>,
    heap: &mut Vec<Reverse<Entry>>,
    table: &KeyTable,
    place: usize,
)
    requires within { place < length heap.old.items }
    requires order { IsHeap reversed_cmp heap.old.items }
    requires held { HoldsCells table.now (ascending.now.items ++ heap.old.items) }
    ensures order { IsHeap reversed_cmp heap.new.items }
    ensures held { HoldsCells table.now (ascending.now.items ++ heap.new.items) }
{
    let entry = heap[place].0;
    if !table.has(&entry) {
        take_at(heap, place);
    }
}

/// Takes the last entry out of the list, and puts it into the heap where it is not stale; answers how many places of
/// the heap are to be looked at next: none, and all once the list is empty.
///
/// The last entries of the list come late, so that they rise little in the heap.
fn look_at_last(
    ascending: &mut VecDeque<Reverse<Entry>>,
    heap: &mut Vec<Reverse<Entry>>,
    table: &KeyTable,
) -> usize
    requires ascends { Ascends ascending.old.items }
    requires order { IsHeap reversed_cmp heap.old.items }
    requires held { HoldsCells table.now (ascending.old.items ++ heap.old.items) }
    ensures ascends { Ascends ascending.new.items }
    ensures order { IsHeap reversed_cmp heap.new.items }
    ensures held { HoldsCells table.now (ascending.new.items ++ heap.new.items) }
{
    // There is room first, so that no entry is lost where memory is refused.
    if heap.reserve(1).is_err() {
        return heap.len();
    }
    let Some(last) = ascending.pop_back() else {
        return heap.len();
    };
    if table.has(&last.0) {
        match push(heap, last) {
            Ok(()) => {}
            Err(_) => unreachable!(),
        }
    }
    0
}
