//! One run under both agendas.

ghost use Rattle.std.specs.Prelude.{◌≡◌, map, IfOk, IfErr};
ghost use Rattle.std.specs.FinMap as finmap;
ghost use Rattle.smf_grammar.specs.Played.{as_played};
ghost use Rattle.seq_state.specs.State.{start};
ghost use Rattle.seq_state.specs.Step.{plain, state_after, IsTimed};
ghost use Rattle.seq_engine.specs.Ending.{listing_of};

use agenda_heap::{Agenda, HeapAgenda, SortedAgenda};
use seq_engine::{EngineFault, Input, RunLog, run};
use smf_files::SmfFile;
use std::alloc::Global;

/// Takes all inputs under the program's agenda, and again under the other. Both give one log and one listing.
///
/// The only fault is out of memory.
pub fn run_under_both(
    alloc: Global,
    files: &[SmfFile<'_>],
    inputs: &[Input],
    until: u64,
) -> Result<(RunLog, RunLog), EngineFault>
    requires timed { IsTimed inputs.now until }
    ensures plain { IfOk result
        (λ logs. logs.0.entries ≡ plain (map as_played files.now) inputs.now until) }
    ensures same_entries { IfOk result (λ logs. logs.1.entries ≡ logs.0.entries) }
    ensures listing { IfOk result (λ logs. logs.0.listing
        ≡ listing_of (state_after (map as_played files.now) start inputs.now)) }
    ensures same_listing { IfOk result (λ logs. logs.1.listing ≡ logs.0.listing) }
    ensures out_of_memory { IfErr result (λ e. e ≡ EngineFault.OutOfMemory) }
{
    let log = run_under(alloc, files, HeapAgenda::new(alloc), inputs, until)?;
    let sorted = run_under(alloc, files, SortedAgenda::new(alloc), inputs, until)?;
    Ok((log, sorted))
}

/// The same under one agenda.
// Apart, so that the long contract of `run` is read once.
fn run_under<A: Agenda + Drop>(
    alloc: Global,
    files: &[SmfFile<'_>],
    agenda: A,
    inputs: &[Input],
    until: u64,
) -> Result<RunLog, EngineFault>
    requires timed { IsTimed inputs.now until }
    requires empty { A.content agenda ≡ finmap.empty }
    ensures plain { IfOk result (λ log.
        log.entries ≡ plain (map as_played files.now) inputs.now until) }
    ensures listing { IfOk result (λ log.
        log.listing ≡ listing_of (state_after (map as_played files.now) start inputs.now)) }
    ensures out_of_memory { IfErr result (λ e. e ≡ EngineFault.OutOfMemory) }
{
    run(alloc, files, agenda, inputs, until)
}
