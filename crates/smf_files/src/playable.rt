//! The tempos of a file, by which its maps play.

ghost use Rattle.std.specs.Prelude.{◌≡◌, [], IfOk, IfErr, IsTrue, false, true};
ghost use Rattle.std.specs.Rc.{rc_value};
ghost use Rattle.tempo_clock.specs.Entries.{are_entries};
ghost use Rattle.smf_grammar.specs.Chunks.{is_frame_division};
ghost use Rattle.smf_files.specs.Kept.{is_division};

use smf_grammar::{SmfFault, counts_frames};
use std::alloc::Global;
use std::rc::Rc;
use tempo_clock::{MapFault, TempoEntry, TempoTable};

/// The table of a division of so many frames per second, and so many ticks in each.
fn table_by_frames(alloc: Global, division: u16) -> TempoTable
    requires division { IsTrue (is_division division) }
    requires frames { is_frame_division division ≡ true }
    ensures { result ≡ record { division = division; entries = [] } }
{
    let frames = (256 - division / 256) as u8;
    let per_frame = (division % 256) as u8;
    match TempoTable::smpte(alloc, frames, per_frame) {
        Ok(table) => table,
        Err(_) => unreachable!(),
    }
}

/// The table of a division with these entries, which it takes over.
fn table_of(alloc: Global, division: u16, entries: Vec<TempoEntry>) -> Result<TempoTable, SmfFault>
    requires division { IsTrue (is_division division) }
    requires metrical { is_frame_division division ≡ false → are_entries entries.items ≡ true }
    requires frames { is_frame_division division ≡ true → entries.items ≡ [] }
    ensures ok { IfOk result
        (λ table. table ≡ record { division = division; entries = entries.items }) }
    ensures err { IfErr result (λ x. x ≡ SmfFault.OutOfMemory) }
{
    if counts_frames(division) {
        return Ok(table_by_frames(alloc, division));
    }
    match TempoTable::from_entries(alloc, division as u32, entries) {
        Ok(table) => Ok(table),
        Err(MapFault::OutOfMemory) => Err(SmfFault::OutOfMemory),
        Err(MapFault::BadMap) => unreachable!(),
    }
}

/// The same table, for maps to share.
pub(crate) fn shared_table(
    alloc: Global,
    division: u16,
    entries: Vec<TempoEntry>,
) -> Result<Rc<TempoTable>, SmfFault>
    requires division { IsTrue (is_division division) }
    requires metrical { is_frame_division division ≡ false → are_entries entries.items ≡ true }
    requires frames { is_frame_division division ≡ true → entries.items ≡ [] }
    ensures ok { IfOk result
        (λ table. rc_value table ≡ record { division = division; entries = entries.items }) }
    ensures err { IfErr result (λ x. x ≡ SmfFault.OutOfMemory) }
{
    match Rc::new(alloc, table_of(alloc, division, entries)?) {
        Ok(table) => Ok(table),
        Err(_) => Err(SmfFault::OutOfMemory),
    }
}
