//! An agenda over a list and a heap, in which old entries stay until they are met, swept or cleared.

ghost use Rattle.std.specs.Prelude.{◌≡◌, ◌≤◌, ◌+◌, ◌*◌, ◌↔◌, [], ◌∷◌, ◌++◌, IsTrue, OnOk, OnErr, IfSome, IfNone, length, slice_get, if◌then◌else◌};
ghost use Rattle.std.specs.FinMap as map;
ghost use Rattle.std.specs.BinaryHeap.{IsHeap, KeepsHeap};
ghost use Rattle.std.specs.VecDeque.{deque_len};
ghost use Rattle.agenda_heap.specs.Due.{IsFirst, IsFirstDue, IsBare, NoneDue};
ghost use Rattle.agenda_heap.specs.Stored.{heap_item, reversed_cmp, slack, AllLater, Ascends, GainsEntry, IsLeast, IsStored, HoldsCells, HoldsOthers};

use crate::agenda::Agenda;
use crate::due_key::DueKey;
use crate::entry::Entry;
use crate::sifting::{greatest, push, take_at};
use crate::sweeping::sweep;
use crate::table::KeyTable;
use cell_pools::CellKey;
use memory::OutOfMemory;
use std::alloc::Global;
use std::cmp::Reverse;
use std::collections::{BinaryHeap, VecDeque};
use std::marker::Model;
use std::mem;

/// How many entries may stand beyond two for each cell.
const SLACK: usize = 64;

/// An agenda of entries, ordered by key and then by cell: a cell that goes or gets another key leaves its entry behind.
///
/// An entry that is greater than the last of a list goes to its end, in constant time, and any other into a heap, in
/// logarithmic time. So the list ascends, and the least entry is its first or the heap's top.
///
/// An entry is stale once its cell went or got another key, and of equal entries all but one are. Where more than
/// three entries for two cells and 32 stand, each call that may leave one looks at five of them, one after another, and
/// drops those that are stale. So two for each cell and 64 are hardly ever exceeded; a call after which they would be
/// drops all that are stale, in linear time and in place.
///
/// Beside the entries stands a table as long as the greatest number of a cell so far; it never shrinks.
pub struct HeapAgenda {
    alloc: Global,
    // Reversed as the heap's are, so that one function clears both.
    ascending: VecDeque<Reverse<Entry>>,
    heap: Vec<Reverse<Entry>>,
    table: KeyTable,
    // How many places of the heap are still to be looked at; then comes the list.
    unswept: usize,
}

// Not derived: so what it has is taken apart here alone, and not in each crate that drops an agenda.
impl Drop for HeapAgenda {
    fn drop(self) {
        let HeapAgenda {
            alloc: _,
            ascending: _,
            heap: _,
            table: _,
            unswept: _,
        } = self;
    }
}

impl Model for HeapAgenda {
    ghost use Rattle.std.specs.Prelude.{◌+◌};
    ghost use Rattle.std.specs.Vec.{vec_len};
    ghost use Rattle.std.specs.VecDeque.{deque_len};
    ghost use Rattle.agenda_heap.specs.Stored.{HeapState, coded_heap, IsStored};

    ghost Value = { HeapState };

    ghost coded = { coded_heap };

    ghost view = { λ a.
        record { keys = a.table; stored = deque_len a.ascending + vec_len a.heap } };

    ghost invariant = { λ a. IsStored a.table a.ascending.items a.heap.items };
}

impl HeapAgenda {
    /// An agenda without a cell.
    pub fn new(alloc: Global) -> HeapAgenda
        ensures empty { result.keys ≡ map.empty }
        ensures stored { result.stored ≡ 0 }
    {
        HeapAgenda {
            alloc,
            ascending: VecDeque::new(alloc),
            heap: Vec::new(alloc),
            table: KeyTable::new(alloc),
            unswept: 0,
        }
    }

    /// How many entries stand in the list and the heap, stale ones too.
    pub fn stored(&self) -> usize
        ensures value { result ≡ self.now.stored }
        ensures few { result ≤ 2 * map.len self.now.keys + slack }
    {
        self.ascending.len() + self.heap.len()
    }
}

impl Agenda for HeapAgenda {
    ghost content = { λ a. a.keys };

    #[inline]
    fn insert(&mut self, cell: CellKey, key: DueKey) -> Result<(), OutOfMemory> {
        store(
            &mut self.ascending,
            &mut self.heap,
            &mut self.table,
            cell.number(),
            key,
        )?;
        Ok(())
    }

    #[inline]
    fn rekey(&mut self, cell: CellKey, key: DueKey) -> Result<(), OutOfMemory> {
        store(
            &mut self.ascending,
            &mut self.heap,
            &mut self.table,
            cell.number(),
            key,
        )?;
        trim(
            self.alloc,
            &mut self.ascending,
            &mut self.heap,
            &mut self.table,
            &mut self.unswept,
        );
        Ok(())
    }

    #[inline]
    fn remove(&mut self, cell: CellKey) {
        self.table.remove(cell.number());
        trim(
            self.alloc,
            &mut self.ascending,
            &mut self.heap,
            &mut self.table,
            &mut self.unswept,
        );
    }

    #[inline]
    fn pop_due(&mut self, moment: u64) -> Option<(CellKey, DueKey)> {
        let entry = pop_live(&mut self.ascending, &mut self.heap, &self.table, moment)?;
        self.table.remove(entry.cell);
        trim(
            self.alloc,
            &mut self.ascending,
            &mut self.heap,
            &mut self.table,
            &mut self.unswept,
        );
        Some((CellKey::new(entry.cell), entry.key))
    }

    #[inline]
    fn first(&mut self) -> Option<DueKey> {
        first_live(&mut self.ascending, &mut self.heap, &self.table)
    }

    #[inline]
    fn len(&self) -> usize {
        self.table.len()
    }
}

/// Drops the entries before the first that is not stale, and gives its key.
fn first_live(
    ascending: &mut VecDeque<Reverse<Entry>>,
    heap: &mut Vec<Reverse<Entry>>,
    table: &KeyTable,
) -> Option<DueKey>
    requires { IsStored table.now ascending.old.items heap.old.items }
    ensures some { IfSome result (λ key. IsFirst table.now key) }
    ensures none { IfNone result (IsBare table.now) }
    ensures kept { IsStored table.now ascending.new.items heap.new.items }
{
    while let Some((least, is_listed)) = first_of(ascending, heap) {
        if table.has(&least) {
            return Some(least.key);
        }
        drop_first(ascending, heap, least, is_listed);
    }
    None
}

/// Drops the list's first entry or the heap's top, which is this.
#[inline]
fn drop_first(
    ascending: &mut VecDeque<Reverse<Entry>>,
    heap: &mut Vec<Reverse<Entry>>,
    first: Entry,
    is_listed: bool,
)
    requires ascends { Ascends ascending.old.items }
    requires order { IsHeap reversed_cmp heap.old.items }
    requires place { slice_get (if is_listed then ascending.old.items else heap.old.items) 0
        ≡ Some (record { 0 = first }) }
    ensures ascends { Ascends ascending.new.items }
    ensures order { IsHeap reversed_cmp heap.new.items }
    ensures popped { GainsEntry (ascending.new.items ++ heap.new.items)
        (ascending.old.items ++ heap.old.items) first.key first.cell }
{
    if is_listed {
        ascending.pop_front();
    } else {
        take_at(heap, 0);
    }
}

/// Gives a cell a key, and adds their entry.
#[inline]
fn store(
    ascending: &mut VecDeque<Reverse<Entry>>,
    heap: &mut Vec<Reverse<Entry>>,
    table: &mut KeyTable,
    cell: usize,
    key: DueKey,
) -> Result<(), OutOfMemory>
    requires { Ascends ascending.old.items }
    ensures ascends { Ascends ascending.new.items }
    ensures order { KeepsHeap reversed_cmp heap.old.items heap.new.items }
    ensures gained { OnOk result (GainsEntry (ascending.old.items ++ heap.old.items)
        (ascending.new.items ++ heap.new.items) key cell) }
    ensures keyed { OnOk result (table.new ≡ map.insert table.old cell key) }
    ensures listed { OnErr result (ascending.new.items ≡ ascending.old.items) }
    ensures items { OnErr result (heap.new.items ≡ heap.old.items) }
    ensures err { OnErr result (table.new ≡ table.old) }
{
    // There is room first, so that the entry finds its place once the cell has its key.
    let entry = Entry { key, cell };
    if comes_last(ascending, &entry) {
        ascending.reserve(1)?;
        table.put(cell, key)?;
        ascending.push_back_reserved(Reverse(entry));
        return Ok(());
    }
    heap.reserve(1)?;
    table.put(cell, key)?;
    match push(heap, Reverse(entry)) {
        Ok(()) => Ok(()),
        Err(_) => unreachable!(),
    }
}

/// The list still ascends with the entry at its end.
#[inline]
fn comes_last(ascending: &VecDeque<Reverse<Entry>>, entry: &Entry) -> bool
    requires { Ascends ascending.now.items }
    ensures { IsTrue result
        ↔ Ascends (ascending.now.items ++ heap_item entry.now.key entry.now.cell ∷ []) }
{
    match ascending.back() {
        Some(last) => last.0 < *entry,
        None => true,
    }
}

/// Removes entries up to the first that is not stale, where its moment is at most `moment`, and gives it.
#[inline]
fn pop_live(
    ascending: &mut VecDeque<Reverse<Entry>>,
    heap: &mut Vec<Reverse<Entry>>,
    table: &KeyTable,
    moment: u64,
) -> Option<Entry>
    requires { IsStored table.now ascending.old.items heap.old.items }
    ensures ascends { Ascends ascending.new.items }
    ensures order { IsHeap reversed_cmp heap.new.items }
    ensures some { IfSome result (λ e. IsFirstDue table.now e.cell e.key moment) }
    ensures others { IfSome result (λ e.
        HoldsOthers table.now e.cell (ascending.new.items ++ heap.new.items)) }
    ensures few { length ascending.new.items + length heap.new.items
        ≤ length ascending.old.items + length heap.old.items }
    ensures none { IfNone result (NoneDue table.now moment) }
    ensures kept { IfNone result (IsStored table.now ascending.new.items heap.new.items) }
{
    while let Some(first) = pop_first(ascending, heap, moment) {
        if table.has(&first) {
            return Some(first);
        }
    }
    None
}

/// Removes the least entry, where its moment is at most `moment`, and gives it.
#[inline]
fn pop_first(
    ascending: &mut VecDeque<Reverse<Entry>>,
    heap: &mut Vec<Reverse<Entry>>,
    moment: u64,
) -> Option<Entry>
    requires ascends { Ascends ascending.old.items }
    requires order { IsHeap reversed_cmp heap.old.items }
    ensures ascends { Ascends ascending.new.items }
    ensures order { IsHeap reversed_cmp heap.new.items }
    ensures due { IfSome result (λ e. e.key.moment ≤ moment) }
    ensures least { IfSome result (λ e. IsLeast e (ascending.old.items ++ heap.old.items)) }
    ensures popped { IfSome result (λ e. GainsEntry (ascending.new.items ++ heap.new.items)
        (ascending.old.items ++ heap.old.items) e.key e.cell) }
    ensures none { IfNone result (AllLater moment (ascending.old.items ++ heap.old.items)) }
    ensures listed { IfNone result (ascending.new.items ≡ ascending.old.items) }
    ensures items { IfNone result (heap.new.items ≡ heap.old.items) }
{
    let (first, is_listed) = first_of(ascending, heap)?;
    // What is stale and still to come stays, since all else is still to come too.
    if first.key.moment > moment {
        return None;
    }
    drop_first(ascending, heap, first, is_listed);
    Some(first)
}

/// The least entry, and whether it is the list's first and not the heap's top.
#[inline]
fn first_of(
    ascending: &VecDeque<Reverse<Entry>>,
    heap: &Vec<Reverse<Entry>>,
) -> Option<(Entry, bool)>
    requires ascends { Ascends ascending.now.items }
    requires order { IsHeap reversed_cmp heap.now.items }
    ensures least { IfSome result (λ r. IsLeast r.0 (ascending.now.items ++ heap.now.items)) }
    ensures place { IfSome result (λ r.
        slice_get (if r.1 then ascending.now.items else heap.now.items) 0
        ≡ Some (record { 0 = r.0 })) }
    ensures none { IfNone result (ascending.now.items ++ heap.now.items ≡ []) }
{
    let front = match ascending.front() {
        Some(front) => front.0,
        None => return Some((greatest(heap)?.0, false)),
    };
    if let Some(top) = greatest(heap) {
        if top.0 < front {
            return Some((top.0, false));
        }
    }
    Some((front, true))
}

/// Drops stale entries where there are many.
#[inline(always)]
fn trim(
    alloc: Global,
    ascending: &mut VecDeque<Reverse<Entry>>,
    heap: &mut Vec<Reverse<Entry>>,
    table: &mut KeyTable,
    unswept: &mut usize,
)
    requires ascends { Ascends ascending.old.items }
    requires order { IsHeap reversed_cmp heap.old.items }
    requires held { HoldsCells table.old (ascending.old.items ++ heap.old.items) }
    ensures same { table.new ≡ table.old }
    ensures kept { IsStored table.old ascending.new.items heap.new.items }
{
    if ascending.len() + heap.len() > many(table.len()) {
        drop_some(alloc, ascending, heap, table, unswept);
    }
}

/// How many entries may stand beside so many cells before stale ones are looked for.
// A sum that wraps is too small, and entries that are dropped too early do no harm.
#[inline(always)]
fn many(cells: usize) -> usize
    ensures { result ≤ 2 * cells + slack }
{
    (cells / 2).wrapping_add(cells).wrapping_add(SLACK / 2)
}

/// Looks at some entries and drops those that are stale, and clears all that are where there are too many.
// Not inline, so that a call that drops nothing costs little.
#[cold]
#[inline(never)]
fn drop_some(
    alloc: Global,
    ascending: &mut VecDeque<Reverse<Entry>>,
    heap: &mut Vec<Reverse<Entry>>,
    table: &mut KeyTable,
    unswept: &mut usize,
)
    requires ascends { Ascends ascending.old.items }
    requires order { IsHeap reversed_cmp heap.old.items }
    requires held { HoldsCells table.old (ascending.old.items ++ heap.old.items) }
    ensures same { table.new ≡ table.old }
    ensures kept { IsStored table.old ascending.new.items heap.new.items }
{
    sweep(ascending, heap, table, unswept);
    let stored = ascending.len() + heap.len();
    if stored <= many(table.len()) {
        // So that the list is left alone while the heap has enough that is stale.
        *unswept = heap.len();
        return;
    }
    if stored > table.len().wrapping_mul(2).wrapping_add(SLACK) {
        clear(alloc, ascending, heap, table);
    }
}

/// Clears the stale entries. It takes no memory: the heap goes through a vector in place.
fn clear(
    alloc: Global,
    ascending: &mut VecDeque<Reverse<Entry>>,
    heap: &mut Vec<Reverse<Entry>>,
    table: &mut KeyTable,
)
    requires ascends { Ascends ascending.old.items }
    requires held { HoldsCells table.old (ascending.old.items ++ heap.old.items) }
    ensures same { table.new ≡ table.old }
    ensures kept { IsStored table.old ascending.new.items heap.new.items }
{
    table.keep_live(ascending, heap);
    let entries = mem::replace(heap, Vec::new(alloc));
    *heap = BinaryHeap::from(entries).into_vec();
}
