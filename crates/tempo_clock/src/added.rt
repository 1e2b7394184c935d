//! The entries that a tempo map has of its own.

ghost use Rattle.std.specs.Prelude.{◌≡◌, ◌≤◌, ◌<◌, ◌*◌, ◌-◌, [], ◌∷◌, ◌++◌, length, take, slice_index, IfOk, OnOk, OnErr, vec_len, vec_capacity};
ghost use Rattle.tempo_clock.specs.Kept.{entry_at};
ghost use Rattle.tempo_clock.specs.Shared.{HasRoomForTempo};

use crate::entry::TempoEntry;
use crate::segment::Segment;
use memory::OutOfMemory;
use std::alloc::Global;

/// Entries that stand behind those of a table, each with the numerator of its tick.
#[derive(Debug, Drop)]
pub(crate) struct Added {
    pub(crate) entries: Vec<TempoEntry>,
    pub(crate) starts: Vec<u128>,
}

/// Makes room for one more after the first items.
fn make_room<T>(items: &mut Vec<T>, kept: usize) -> Result<(), OutOfMemory>
    requires { kept ≤ vec_len items.old }
    ensures same { items.new.items ≡ items.old.items }
    ensures room { OnOk result (kept < vec_capacity items.new) }
    ensures grows { vec_capacity items.old ≤ vec_capacity items.new }
    ensures full { OnErr result (kept ≡ vec_len items.old) }
    ensures none_left { OnErr result (kept ≡ vec_capacity items.old) }
{
    if kept == items.capacity() {
        items.reserve(1)?;
    }
    Ok(())
}

impl Added {
    /// None. It takes no memory.
    pub(crate) fn none(alloc: Global) -> Added
        ensures entries { result.entries.items ≡ [] }
        ensures starts { result.starts.items ≡ [] }
    {
        Added {
            entries: Vec::new(alloc),
            starts: Vec::new(alloc),
        }
    }

    /// None, with room for one.
    pub(crate) fn with_room(alloc: Global) -> Result<Added, OutOfMemory>
        ensures entries { IfOk result (λ a. a.entries.items ≡ []) }
        ensures starts { IfOk result (λ a. a.starts.items ≡ []) }
        ensures room { IfOk result (λ a. HasRoomForTempo a) }
    {
        Ok(Added {
            entries: Vec::with_capacity(alloc, 1)?,
            starts: Vec::with_capacity(alloc, 1)?,
        })
    }

    /// The ticks from the last of the first `after` entries on.
    pub(crate) fn segment(&self, after: usize) -> Segment
        requires some { 0 < after }
        requires within { after ≤ length self.now.entries.items }
        requires counted { length self.now.starts.items ≡ length self.now.entries.items }
        ensures tick { result.tick ≡ (entry_at self.now.entries.items (after - 1)).tick }
        ensures start { result.start ≡ slice_index self.now.starts.items (after - 1) }
        ensures step { result.step ≡ (entry_at self.now.entries.items (after - 1)).tempo * 1000 }
    {
        let entry = self.entries.as_slice()[after - 1];
        Segment {
            tick: entry.tick,
            start: self.starts.as_slice()[after - 1],
            step: entry.tempo as u128 * 1000,
        }
    }

    /// Puts an entry behind the first `at`, in place of all others. Where there is room for one, it asks for memory
    /// only if all stay.
    pub(crate) fn replace_from(
        &mut self,
        at: usize,
        entry: TempoEntry,
        start: u128,
    ) -> Result<(), OutOfMemory>
        requires within { at ≤ length self.old.entries.items }
        requires counted { length self.old.starts.items ≡ length self.old.entries.items }
        ensures entries { OnOk result
            (self.new.entries.items ≡ take at self.old.entries.items ++ entry ∷ []) }
        ensures starts { OnOk result
            (self.new.starts.items ≡ take at self.old.starts.items ++ start ∷ []) }
        ensures entries_stay { OnErr result (self.new.entries.items ≡ self.old.entries.items) }
        ensures starts_stay { OnErr result (self.new.starts.items ≡ self.old.starts.items) }
        ensures room { HasRoomForTempo self.old → HasRoomForTempo self.new }
        ensures some { OnErr result (HasRoomForTempo self.old → 0 < at) }
        ensures full { OnErr result (at ≡ length self.old.entries.items) }
    {
        make_room(&mut self.entries, at)?;
        make_room(&mut self.starts, at)?;
        self.entries.truncate(at);
        self.starts.truncate(at);
        self.entries.push(entry).ok().unwrap();
        self.starts.push(start).ok().unwrap();
        Ok(())
    }

    /// The same entries once more, with room for one where these have it.
    pub(crate) fn duplicate(&self) -> Result<Added, OutOfMemory>
        ensures entries { IfOk result (λ a. a.entries.items ≡ self.now.entries.items) }
        ensures starts { IfOk result (λ a. a.starts.items ≡ self.now.starts.items) }
        ensures room { IfOk result (λ a. HasRoomForTempo self.now → HasRoomForTempo a) }
    {
        Ok(Added {
            entries: copy_of(&self.entries)?,
            starts: copy_of(&self.starts)?,
        })
    }
}

/// The same items, with room for one where these have it.
fn copy_of<T: Copy>(items: &Vec<T>) -> Result<Vec<T>, OutOfMemory>
    ensures same { IfOk result (λ copy. copy.items ≡ items.now.items) }
    ensures room { IfOk result (λ copy. 0 < vec_capacity items.now → 0 < vec_capacity copy) }
{
    let least = items.capacity().min(1);
    let mut copy = Vec::with_capacity(*items.allocator(), items.len().max(least))?;
    copy.extend_from_slice(items.as_slice())?;
    Ok(copy)
}
