//! Tempo maps: when each tick comes.

ghost use Rattle.std.specs.Prelude.{◌≡◌, ◌≤◌, ◌<◌, ◌*◌, ◌^◌, ◌↔◌, true, false, [], ◌++◌, take, length, IfOk, OnOk, OnErr, IsErrOf, IsOk, ◌&&◌, filter, nat_lt};
ghost use Rattle.std.specs.Rc.{rc_value};
ghost use Rattle.tempo_clock.specs.Entries.{is_tempo, is_ppq, are_entries, is_smpte_rate, smpte_word};
ghost use Rattle.tempo_clock.specs.Ticks.{resolution, numerator, nanos_at, tick_at, first_tick_from, with_tempo_from};
ghost use Rattle.tempo_clock.specs.Shared.{table_of, HasRoomForTempo};

use crate::added::Added;
use crate::entry::TempoEntry;
use crate::fault::MapFault;
use crate::search::{entries_before, entries_to, starts_to};
use crate::tempo_table::TempoTable;
use memory::OutOfMemory;
use std::alloc::Global;
use std::marker::Model;
use std::rc::Rc;

/// The table that a map is made of.
#[derive(Debug, Drop)]
enum BaseTable {
    /// By frames: it has no entries, so that it takes no memory.
    Frames(TempoTable),
    Shared(Rc<TempoTable>),
}

impl BaseTable {
    fn table(&self) -> &TempoTable
        ensures { result.now ≡ table_of self.now }
    {
        match self {
            BaseTable::Frames(table) => table,
            BaseTable::Shared(table) => table.as_ref(),
        }
    }

    fn duplicate(&self) -> Result<BaseTable, OutOfMemory>
        ensures { IfOk result (λ s. table_of s ≡ table_of self.now) }
    {
        Ok(match self {
            BaseTable::Frames(table) => BaseTable::Frames(table.duplicate()?),
            BaseTable::Shared(table) => BaseTable::Shared(table.clone()?),
        })
    }
}

/// A tempo map: which tick comes when, in whole nanoseconds from the start.
///
/// The division is that of a Standard MIDI File 1.0 (RP-001): ticks per quarter note, with entries that set the tempo,
/// or ticks per frame at 24, 25 or 30 frames per second, where no tempo counts. Tick 0 comes at 0. Each tick comes at
/// the least whole nanosecond that is not before its exact time: nothing is rounded on the way, at a change of tempo
/// neither.
///
/// Its entries are the first of a table, which maps may share, and behind them its own, which changes of tempo have
/// set.
#[derive(Debug, Drop)]
pub struct TempoMap {
    base: BaseTable,
    /// So many of the table's entries count: all, until the tempo is changed before one of them.
    kept: usize,
    added: Added,
}

impl Model for TempoMap {
    ghost use Rattle.std.specs.Prelude.{◌<◌};
    ghost use Rattle.tempo_clock.specs.Ticks.{Tempos};
    ghost use Rattle.tempo_clock.specs.Shared.{table_of, tempos_seen, IsMapKept, HasRoomForTempo};

    ghost Value = { Tempos };

    ghost view = { λ m. tempos_seen (table_of m.base) m.kept m.added.entries.items };

    ghost invariant = { λ m.
        IsMapKept (table_of m.base) m.kept m.added.entries.items m.added.starts.items
        × ((table_of m.base).division < 32768 → HasRoomForTempo m.added) };
}

impl TempoMap {
    /// A map of `ppq` ticks per quarter note, 1 to 32,767, with tempos of 1 to 16,777,215 microseconds per quarter
    /// note. The first entry stands at tick 0, and the ticks rise. It takes memory for a table of its own.
    pub fn new(alloc: Global, ppq: u32, entries: &[TempoEntry]) -> Result<TempoMap, MapFault>
        ensures ok { IfOk result (λ m. m ≡ record { division = ppq; entries = entries.now }) }
        ensures bad { IsErrOf result MapFault.BadMap
            ↔ ((is_ppq ppq && are_entries entries.now) ≡ false) }
    {
        let table = TempoTable::new(alloc, ppq, entries)?;
        Ok(TempoMap::alone(alloc, table)?)
    }

    /// A map of `per_frame` ticks, at least one, in each of 24, 25 or 30 frames per second. It takes no memory.
    pub fn smpte(alloc: Global, frames: u8, per_frame: u8) -> Result<TempoMap, MapFault>
        ensures ok { IfOk result
            (λ m. m ≡ record { division = smpte_word frames per_frame; entries = [] }) }
        ensures taken { IsOk result ↔ (is_smpte_rate frames per_frame ≡ true) }
        ensures bad { IsErrOf result MapFault.BadMap ↔ (is_smpte_rate frames per_frame ≡ false) }
    {
        let table = TempoTable::smpte(alloc, frames, per_frame)?;
        Ok(TempoMap {
            base: BaseTable::Frames(table),
            kept: 0,
            added: Added::none(alloc),
        })
    }

    /// A map of a table, which it shares. It takes memory for one entry of its own, 32 bytes, and none by frames.
    pub fn of(alloc: Global, table: &Rc<TempoTable>) -> Result<TempoMap, OutOfMemory>
        ensures { IfOk result (λ m. m ≡ rc_value table.now) }
    {
        TempoMap::over(alloc, table.clone()?)
    }

    /// A map that has a table for itself.
    fn alone(alloc: Global, table: TempoTable) -> Result<TempoMap, OutOfMemory>
        ensures { IfOk result (λ m. m ≡ table) }
    {
        TempoMap::over(alloc, Rc::new(alloc, table)?)
    }

    /// A map of all entries of a table.
    fn over(alloc: Global, table: Rc<TempoTable>) -> Result<TempoMap, OutOfMemory>
        ensures { IfOk result (λ m. m ≡ rc_value table) }
    {
        let kept = table.as_ref().len();
        let added = room_for(alloc, table.as_ref().division())?;
        Ok(TempoMap {
            base: BaseTable::Shared(table),
            kept,
            added,
        })
    }

    /// The division word as in the header of a Standard MIDI File: the ticks per quarter note, or, with bit 15 set,
    /// minus the frames per second in the high byte and the ticks per frame in the low byte.
    pub fn division(&self) -> u16
        ensures { result ≡ self.now.division }
    {
        self.base.table().division()
    }

    /// The ticks per quarter note, or the ticks per second of a map by frames.
    pub fn ppq(&self) -> u32
        ensures value { result ≡ resolution self.now }
        ensures some { 0 < result }
    {
        self.base.table().ppq()
    }

    /// The entries in order of tick, none on a map by frames: those of its table, and behind them its own.
    pub fn entries(&self) -> (&[TempoEntry], &[TempoEntry])
        ensures { result.0.now ++ result.1.now ≡ self.now.entries }
    {
        let table = self.base.table().entries();
        (&table[..self.kept], self.added.entries.as_slice())
    }

    /// How long all ticks before a tick last, in nanoseconds times the ticks per quarter note or second. Its own
    /// entries are tried first, as time mostly runs at the end.
    fn numerator_at(&self, tick: u64) -> u128
        ensures value { result ≡ numerator self.now tick }
        ensures small { result ≤ tick * 2 ^ 34 }
    {
        let after = entries_to(self.added.entries.as_slice(), tick);
        if after == 0 {
            return self.base.table().numerator_at(tick);
        }
        self.added.segment(after).numerator_at(tick)
    }

    /// When a tick comes, in nanoseconds.
    // Not inline, so that a due time in nanoseconds costs little.
    #[inline(never)]
    pub fn nanos_at(&self, tick: u64) -> u128
        ensures value { result ≡ nanos_at self.now tick }
        ensures small { result ≤ tick * 2 ^ 34 }
    {
        self.numerator_at(tick).div_ceil(self.ppq() as u128)
    }

    /// The last tick that comes within so many nanoseconds: the greatest u64 tick whose `nanos_at` is at most that.
    pub fn tick_at(&self, nanos: u64) -> u64
        ensures { result ≡ tick_at self.now nanos }
    {
        let table = self.base.table();
        let limit = nanos as u128 * table.ppq() as u128;
        let after = starts_to(self.added.starts.as_slice(), limit);
        if after == 0 {
            return table.tick_at(nanos);
        }
        self.added.segment(after).tick_within(limit)
    }

    /// The first tick whose exact time, before any rounding, is at least so many nanoseconds; none where that of the
    /// greatest u64 tick is less.
    pub fn first_tick_from(&self, nanos: u64) -> Option<u64>
        ensures { result ≡ first_tick_from self.now nanos }
    {
        // That each tick lasts is known only once a field is read.
        let _kept = self.kept;
        let tick = self.tick_at(nanos);
        if self.numerator_at(tick) == nanos as u128 * self.ppq() as u128 {
            return Some(tick);
        }
        tick.checked_add(1)
    }

    /// Sets one tempo from a tick on: the entries at the tick and later go. It asks for memory only where there are
    /// none. A table that other maps share stays as it is.
    pub fn change(&mut self, from_tick: u64, tempo: u32) -> Result<(), OutOfMemory>
        requires tempo { is_tempo tempo ≡ true }
        requires metrical { self.old.division < 32768 }
        ensures ok { OnOk result (self.new ≡ with_tempo_from self.old from_tick tempo) }
        ensures err { OnErr result (self.new ≡ self.old) }
        ensures memory { OnErr result
            (self.old.entries ≡ filter (λ e. nat_lt e.tick from_tick) self.old.entries) }
    {
        let start = self.numerator_at(from_tick);
        let kept = entries_before(&self.base.table().entries()[..self.kept], from_tick);
        let own = entries_before(self.added.entries.as_slice(), from_tick);
        let entry = TempoEntry {
            tick: from_tick,
            tempo,
        };
        self.added.replace_from(own, entry, start)?;
        self.kept = kept;
        Ok(())
    }

    /// A second map like this one, of the same table.
    pub fn duplicate(&self) -> Result<TempoMap, OutOfMemory>
        ensures { IfOk result (λ m. m ≡ self.now) }
    {
        Ok(TempoMap {
            base: self.base.duplicate()?,
            kept: self.kept,
            added: self.added.duplicate()?,
        })
    }
}

/// No entries, with room for one unless the division counts frames.
fn room_for(alloc: Global, division: u16) -> Result<Added, OutOfMemory>
    ensures entries { IfOk result (λ a. a.entries.items ≡ []) }
    ensures starts { IfOk result (λ a. a.starts.items ≡ []) }
    ensures room { IfOk result (λ a. division < 32768 → HasRoomForTempo a) }
{
    if division >= 32768 {
        return Ok(Added::none(alloc));
    }
    Added::with_room(alloc)
}
