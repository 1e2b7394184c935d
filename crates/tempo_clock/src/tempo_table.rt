//! Tables of tempos, which tempo maps share.

ghost use Rattle.std.specs.Prelude.{◌≡◌, ◌≤◌, ◌<◌, ◌+◌, ◌*◌, ◌-◌, ◌^◌, ◌↔◌, ℕ, true, false, [], length, IfOk, IsErrOf, IsOk, ◌&&◌};
ghost use Rattle.tempo_clock.specs.Entries.{is_ppq, are_entries, is_smpte_rate, smpte_word};
ghost use Rattle.tempo_clock.specs.Ticks.{resolution, numerator, tick_at};
ghost use Rattle.tempo_clock.specs.Kept.{entry_at, AreOrdered, AreTemposSound, AreStarts, IsSplit};

use crate::entry::TempoEntry;
use crate::fault::MapFault;
use crate::range::{is_ppq, is_smpte_rate, is_tempo};
use crate::search::{entries_to, starts_to};
use crate::segment::Segment;
use memory::OutOfMemory;
use std::alloc::Global;
use std::marker::Model;

/// How long one tick lasts by a division in frames: a second, in nanoseconds, over the ticks per second.
const SECOND: u128 = 1_000_000_000;

/// What a tempo map is made of: a division, and entries, which never change, so that all maps of one table share it.
///
/// It takes 32 bytes of memory for each entry, and is seen as the map of all its entries.
#[derive(Debug, Drop)]
pub struct TempoTable {
    division: u16,
    ppq: u32,
    entries: Vec<TempoEntry>,
    starts: Vec<u128>,
}

impl Model for TempoTable {
    ghost use Rattle.tempo_clock.specs.Ticks.{Tempos};
    ghost use Rattle.tempo_clock.specs.Kept.{AreStartsKept};

    ghost Value = { Tempos };

    ghost view = { λ t. record { division = t.division; entries = t.entries.items } };

    ghost invariant = { λ t.
        AreStartsKept (record { division = t.division; entries = t.entries.items }) t.ppq t.starts.items };
}

/// Whether entries make a map.
fn are_entries(entries: &[TempoEntry]) -> bool
    ensures { result ≡ are_entries entries.now }
{
    let Some(first) = entries.first() else {
        return false;
    };
    if first.tick != 0 || !is_tempo(first.tempo) {
        return false;
    }
    let mut before = 0;
    for entry in &entries[1..] {
        if entry.tick <= before || !is_tempo(entry.tempo) {
            return false;
        }
        before = entry.tick;
    }
    true
}

/// The numerator of each entry's tick.
fn starts_of(alloc: Global, entries: &[TempoEntry]) -> Result<Vec<u128>, OutOfMemory>
    requires { AreOrdered entries.now }
    ensures { IfOk result
        (λ starts. AreStarts (record { division = 0; entries = entries.now }) starts.items) }
{
    let mut starts = Vec::with_capacity(alloc, entries.len())?;
    let mut start = 0u128;
    let mut before = TempoEntry { tick: 0, tempo: 0 };
    for entry in entries {
        start += (entry.tick - before.tick) as u128 * (before.tempo as u128 * 1000);
        starts.push(start)?;
        before = *entry;
    }
    Ok(starts)
}

impl TempoTable {
    /// A table of these entries, under the conditions of `TempoMap::new`. They are copied once these hold.
    pub fn new(alloc: Global, ppq: u32, entries: &[TempoEntry]) -> Result<TempoTable, MapFault>
        ensures ok { IfOk result (λ t. t ≡ record { division = ppq; entries = entries.now }) }
        ensures bad { IsErrOf result MapFault.BadMap
            ↔ ((is_ppq ppq && are_entries entries.now) ≡ false) }
    {
        if !is_ppq(ppq) || !are_entries(entries) {
            return Err(MapFault::BadMap);
        }
        let entries = Vec::from_slice(alloc, entries)?;
        Ok(TempoTable::of_sound(alloc, ppq, entries)?)
    }

    /// A table that takes these entries over, without a copy, under the conditions of `TempoMap::new`. Room that they
    /// do not use is given back.
    pub fn from_entries(
        alloc: Global,
        ppq: u32,
        entries: Vec<TempoEntry>,
    ) -> Result<TempoTable, MapFault>
        ensures ok { IfOk result (λ t. t ≡ record { division = ppq; entries = entries.items }) }
        ensures bad { IsErrOf result MapFault.BadMap
            ↔ ((is_ppq ppq && are_entries entries.items) ≡ false) }
    {
        if !is_ppq(ppq) || !are_entries(entries.as_slice()) {
            return Err(MapFault::BadMap);
        }
        let mut entries = entries;
        entries.shrink_to_fit();
        Ok(TempoTable::of_sound(alloc, ppq, entries)?)
    }

    fn of_sound(
        alloc: Global,
        ppq: u32,
        entries: Vec<TempoEntry>,
    ) -> Result<TempoTable, OutOfMemory>
        requires ppq { is_ppq ppq ≡ true }
        requires entries { are_entries entries.items ≡ true }
        ensures { IfOk result (λ t. t ≡ record { division = ppq; entries = entries.items }) }
    {
        let starts = starts_of(alloc, entries.as_slice())?;
        Ok(TempoTable {
            division: ppq as u16,
            ppq,
            entries,
            starts,
        })
    }

    /// A table without entries, of `per_frame` ticks, at least one, in each of 24, 25 or 30 frames per second. It takes
    /// no memory.
    pub fn smpte(alloc: Global, frames: u8, per_frame: u8) -> Result<TempoTable, MapFault>
        ensures ok { IfOk result
            (λ t. t ≡ record { division = smpte_word frames per_frame; entries = [] }) }
        ensures taken { IsOk result ↔ (is_smpte_rate frames per_frame ≡ true) }
        ensures bad { IsErrOf result MapFault.BadMap ↔ (is_smpte_rate frames per_frame ≡ false) }
    {
        if !is_smpte_rate(frames, per_frame) {
            return Err(MapFault::BadMap);
        }
        Ok(TempoTable {
            division: u16::from_be_bytes([frames.wrapping_neg(), per_frame]),
            ppq: frames as u32 * per_frame as u32,
            entries: Vec::new(alloc),
            starts: Vec::new(alloc),
        })
    }

    /// The division word, as that of a `TempoMap`.
    pub fn division(&self) -> u16
        ensures { result ≡ self.now.division }
    {
        self.division
    }

    /// The ticks per quarter note, or the ticks per second of a table by frames.
    pub fn ppq(&self) -> u32
        ensures value { result ≡ resolution self.now }
        ensures some { 0 < result }
    {
        self.ppq
    }

    /// The entries in order of tick; none in a table by frames.
    pub fn entries(&self) -> &[TempoEntry]
        ensures { result.now ≡ self.now.entries }
    {
        self.entries.as_slice()
    }

    /// How many entries it has.
    pub(crate) fn len(&self) -> usize
        ensures value { result ≡ length self.now.entries }
        ensures sound { AreTemposSound self.now }
    {
        self.entries.len()
    }

    /// The same table once more. Without entries it takes no memory.
    pub(crate) fn duplicate(&self) -> Result<TempoTable, OutOfMemory>
        ensures { IfOk result (λ t. t ≡ self.now) }
    {
        Ok(TempoTable {
            division: self.division,
            ppq: self.ppq,
            entries: self.entries.clone()?,
            starts: self.starts.clone()?,
        })
    }

    /// How many entries stand at a tick or before it.
    fn entries_to(&self, tick: u64) -> usize
        ensures { IsSplit (λ t. t) self.now.entries tick result }
    {
        entries_to(self.entries.as_slice(), tick)
    }

    /// How many entries have a numerator up to a limit.
    fn entries_within(&self, limit: u128) -> usize
        ensures { IsSplit (numerator self.now) self.now.entries limit result }
    {
        starts_to(self.starts.as_slice(), limit)
    }

    /// The ticks from the last of the first `after` entries on.
    fn segment(&self, after: usize) -> Segment
        requires within { after ≤ length self.now.entries }
        requires some { after ≡ 0 → length self.now.entries ≡ 0 }
        ensures tick { result.tick ≡ (entry_at self.now.entries (after - 1)).tick }
        ensures start { result.start ≡ numerator self.now result.tick }
        ensures covers { (t : ℕ) → result.tick ≤ t
            → (after < length self.now.entries → t ≤ (entry_at self.now.entries after).tick)
            → numerator self.now t ≡ result.start + (t - result.tick) * result.step }
        ensures step { 0 < result.step }
        ensures step_small { result.step ≤ 2 ^ 34 }
        ensures start_small { result.start ≤ result.tick * 2 ^ 34 }
    {
        let entries = self.entries.as_slice();
        if after == 0 {
            return Segment {
                tick: 0,
                start: 0,
                step: SECOND,
            };
        }
        let entry = entries[after - 1];
        Segment {
            tick: entry.tick,
            start: self.starts.as_slice()[after - 1],
            step: entry.tempo as u128 * 1000,
        }
    }

    /// How long all ticks before a tick last, in nanoseconds times the ticks per quarter note or second.
    pub(crate) fn numerator_at(&self, tick: u64) -> u128
        ensures value { result ≡ numerator self.now tick }
        ensures small { result ≤ tick * 2 ^ 34 }
    {
        self.segment(self.entries_to(tick)).numerator_at(tick)
    }

    /// The last tick that comes within so many nanoseconds.
    pub(crate) fn tick_at(&self, nanos: u64) -> u64
        ensures { result ≡ tick_at self.now nanos }
    {
        let limit = nanos as u128 * self.ppq as u128;
        self.segment(self.entries_within(limit)).tick_within(limit)
    }
}
