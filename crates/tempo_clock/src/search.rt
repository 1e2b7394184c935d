//! Where a tick or a numerator stands among those that rise.

ghost use Rattle.std.specs.Prelude.{length, slice_index};
ghost use Rattle.std.specs.List.Sorted.{IsNonDecreasingBy};
ghost use Rattle.tempo_clock.specs.Kept.{entry_at, IsCut, AreBefore};

use crate::entry::TempoEntry;

/// How many entries stand at a tick or before it. The last entry is tried first, as time mostly runs at the end.
pub(crate) fn entries_to(entries: &[TempoEntry], tick: u64) -> usize
    requires { IsNonDecreasingBy (λ e. e.tick) entries.now }
    ensures { IsCut (λ i. (entry_at entries.now i).tick) (length entries.now) tick result }
{
    let count = entries.len();
    if count > 0 && entries[count - 1].tick <= tick {
        return count;
    }
    entries.partition_point(|e| e.tick <= tick)
}

/// How many entries stand before a tick. The last entry is tried first.
pub(crate) fn entries_before(entries: &[TempoEntry], tick: u64) -> usize
    requires { IsNonDecreasingBy (λ e. e.tick) entries.now }
    ensures { AreBefore entries.now tick result }
{
    let count = entries.len();
    if count > 0 && entries[count - 1].tick < tick {
        return count;
    }
    entries.partition_point(|e| e.tick < tick)
}

/// How many numerators are up to a limit.
pub(crate) fn starts_to(starts: &[u128], limit: u128) -> usize
    requires { IsNonDecreasingBy (λ s. s) starts.now }
    ensures { IsCut (slice_index starts.now) (length starts.now) limit result }
{
    starts.partition_point(|s| *s <= limit)
}
