//! The logs of a session, made while it runs.

ghost use Rattle.std.specs.Prelude.{◌≡◌, map, IfOk, OnOk};
ghost use Rattle.std.specs.FinMap as finmap;
ghost use Rattle.seq_state.specs.State.{start};
ghost use Rattle.seq_state.specs.Step.{plain, state_after, IsTimed};
ghost use Rattle.seq_engine.specs.Begun.{seen_at_start};
ghost use Rattle.seq_engine.specs.Ending.{listing_of};
ghost use Rattle.seq_session.specs.AllLogs.{clients_read, logs_of};
ghost use Rattle.seq_session.specs.Logs.{skips_text};
ghost use Rattle.seq_session.specs.Rising.{AreRising};

use crate::lines::Scratch;
use crate::log::{Seating, push_all_delivered, push_out, started};
use crate::merged::Merged;
use crate::named_files::NamedFiles;
use crate::session_logs::SessionLogs;
use agenda_heap::Agenda;
use memory::{Items, OutOfMemory};
use node_table::MOST_CLIENTS;
use script_text::ScriptRead;
use seq_engine::{Engine, EngineFault};
use seq_state::Input;
use std::alloc::Global;

/// Runs the inputs of a session up to `until`, and adds what each gives to the logs at once.
pub(crate) fn log_merged<'f, 'b, A: Agenda + Drop>(
    alloc: Global,
    reads: &[ScriptRead],
    merged: &Merged,
    files: &NamedFiles<'f, 'b>,
    agenda: A,
    until: u64,
) -> Result<SessionLogs, OutOfMemory>
    requires rising { AreRising (clients_read reads.now) }
    requires timed { IsTimed merged.now.inputs until }
    requires empty { A.content agenda ≡ finmap.empty }
    ensures logs { IfOk result (λ s. map (λ l. l.items) s.logs
        ≡ logs_of reads.now merged.now.lines (plain files.now.files merged.now.inputs until)) }
    ensures listing { IfOk result (λ s.
        s.listing ≡ listing_of (state_after files.now.files start merged.now.inputs)) }
{
    let mut engine = Engine::new(alloc, files.files(), agenda);
    match log_run(alloc, &mut engine, reads, merged, until) {
        Ok(logs) => Ok(logs),
        Err(_) => Err(OutOfMemory),
    }
}

/// Makes the logs and the listing.
// The engine is lent, so that it is dropped in one place and not wherever memory is refused.
fn log_run<A: Agenda>(
    alloc: Global,
    engine: &mut Engine<'_, '_, A>,
    reads: &[ScriptRead],
    merged: &Merged,
    until: u64,
) -> Result<SessionLogs, EngineFault>
    requires rising { AreRising (clients_read reads.now) }
    requires timed { IsTimed merged.now.inputs until }
    requires begun { engine.old ≡ seen_at_start engine.old.files }
    ensures logs { IfOk result (λ s. map (λ l. l.items) s.logs
        ≡ logs_of reads.now merged.now.lines (plain engine.old.files merged.now.inputs until)) }
    ensures listing { IfOk result (λ s.
        s.listing ≡ listing_of (state_after engine.old.files start merged.now.inputs)) }
{
    // How many lines a log will have is not known yet.
    let mut texts = started(alloc, reads, &[0usize; MOST_CLIENTS])?;
    let seating = Seating::new(reads, merged.lines.as_slice());
    let mut scratch = Scratch::new(alloc);
    let inputs = merged.inputs.as_slice();
    push_run(engine, &seating, &mut texts, &mut scratch, inputs, until)?;
    let listing = engine.listing()?;
    Ok(SessionLogs {
        logs: Items::new(texts),
        listing: Items::new(listing),
    })
}

/// Takes all inputs, in order, and then settles to a last moment, and adds all to the logs.
fn push_run<A: Agenda>(
    engine: &mut Engine<'_, '_, A>,
    seating: &Seating<'_>,
    texts: &mut Vec<Vec<u8>>,
    scratch: &mut Scratch,
    inputs: &[Input],
    until: u64,
) -> Result<(), EngineFault>
    requires timed { IsTimed inputs.now until }
    requires begun { engine.old ≡ seen_at_start engine.old.files }
    requires started { map (λ t. t.items) texts.old.items
        ≡ map (λ r. skips_text r.skips) seating.now.reads.now }
    ensures logs { OnOk result (map (λ t. t.items) texts.new.items
        ≡ logs_of seating.now.reads.now seating.now.lines.now
        (plain engine.old.files inputs.now until)) }
    ensures listing { OnOk result (listing_of engine.new.state
        ≡ listing_of (state_after engine.old.files start inputs.now)) }
{
    for (index, input) in inputs.iter().enumerate() {
        let out = engine.step(input)?;
        push_out(seating, texts, scratch, index as u64, input, &out)?;
    }
    let last = engine.settle(until)?;
    push_all_delivered(seating, texts, scratch, last.as_slice())?;
    Ok(())
}
