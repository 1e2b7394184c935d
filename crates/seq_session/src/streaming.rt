//! The logs of a session, written while it runs.

ghost use Rattle.std.specs.Prelude.{◌≡◌, ◌<◌, ◌≤◌, ◌+◌, ◌-◌, ◌^◌, List, [], ◌∷◌, ◌++◌, map, length, IfOk, IfErr, IfSome, IsSome, OnOk};
ghost use Rattle.std.specs.FinMap as finmap;
ghost use Rattle.seq_state.specs.State.{start};
ghost use Rattle.seq_state.specs.Step.{state_after, step, settle, IsTimed};
ghost use Rattle.seq_engine.specs.Begun.{seen_at_start};
ghost use Rattle.seq_engine.specs.Ending.{listing_of};
ghost use Rattle.seq_session.specs.AllLogs.{clients_read, TellMore};
ghost use Rattle.seq_session.specs.Devices.{AreOpen, Wrote, WroteUpTo, LogsTell, log_blamed, log_of_fault, IsAmong};
ghost use Rattle.seq_session.specs.Rising.{AreRising};
ghost use Rattle.seq_session.specs.Sessions.{script_clients};
ghost use Rattle.seq_session.specs.Streams.{emptied, texts_after, IsStoppedAt};

use crate::fault::SessionFault;
use crate::lines::Scratch;
use crate::log::{Seating, push_all_delivered, push_out, started};
use crate::merged::Merged;
use crate::named_files::NamedFiles;
use crate::progress::Progress;
use crate::source::Script;
use crate::writing::write_logs;
use agenda_heap::Agenda;
use byte_io::Sink;
use memory::{Items, OutOfMemory};
use node_table::MOST_CLIENTS;
use script_text::ScriptRead;
use seq_engine::Engine;
use seq_state::{Input, LogEntry};
use std::alloc::Global;

/// As soon as lines of so many bytes are held, they are written.
const MOST_HELD: usize = 1 << 16;

/// The readings, with nothing in them.
fn all_emptied(alloc: Global, reads: &[ScriptRead]) -> Result<Vec<ScriptRead>, OutOfMemory>
    ensures { IfOk result (λ rs. rs.items ≡ map emptied reads.now) }
{
    let mut empty = Vec::new(alloc);
    for read in reads {
        empty.push(ScriptRead {
            client: read.client,
            inputs: Items::new(Vec::new(alloc)),
            skips: Items::new(Vec::new(alloc)),
        })?;
    }
    Ok(empty)
}

/// Empties the texts, and keeps their room.
// There are at most as many as clients, so this goes no deeper.
fn clear_all(texts: &mut [Vec<u8>])
    ensures { map (λ t. t.items) texts.new ≡ map (λ t. []) texts.old }
{
    let Some((text, more)) = texts.split_first_mut() else {
        return;
    };
    text.clear();
    clear_all(more);
}

/// Whether the texts have so many bytes that they are to be written. Nothing rests on it but memory.
fn are_long(texts: &[Vec<u8>]) -> bool {
    let mut held: usize = 0;
    for text in texts {
        held = held.saturating_add(text.len());
    }
    held >= MOST_HELD
}

/// Takes an input, and adds what it gives to the texts.
fn push_turn<A: Agenda, P: Progress>(
    engine: &mut Engine<'_, '_, A>,
    seating: &Seating<'_>,
    texts: &mut Vec<Vec<u8>>,
    scratch: &mut Scratch,
    progress: &mut P,
    index: u64,
    input: &Input,
) -> Result<(), OutOfMemory>
    requires in_time { engine.old.moment ≤ input.now.moment }
    requires counted { engine.old.steps < 2 ^ 64 - 1 }
    ensures state { OnOk result (engine.new ≡ record engine.old {
      state = (step engine.old.files engine.old.state input.now).state;
      moment = input.now.moment;
      steps = engine.old.steps + 1;
    }) }
    ensures told { let out = step engine.old.files engine.old.state input.now in
        OnOk result (TellMore seating.now.reads.now seating.now.lines.now
        (map (λ d. LogEntry.Delivered d) out.delivered
        ++ LogEntry.Replied index input.now.moment input.now.actor out.reply ∷ [])
        (map (λ t. t.items) texts.old.items) (map (λ t. t.items) texts.new.items)) }
{
    let Ok(out) = engine.step(input) else {
        return Err(OutOfMemory);
    };
    progress.advance(input.moment, out.delivered.len());
    push_out(seating, texts, scratch, index, input, &out)
}

/// Settles to the last moment, and adds what came to the texts.
fn push_last<A: Agenda, P: Progress>(
    engine: &mut Engine<'_, '_, A>,
    seating: &Seating<'_>,
    texts: &mut Vec<Vec<u8>>,
    scratch: &mut Scratch,
    progress: &mut P,
    until: u64,
) -> Result<(), OutOfMemory>
    requires { engine.old.moment ≤ until }
    ensures state { OnOk result (engine.new ≡ record engine.old {
      state = (settle engine.old.state until).state;
      moment = until;
    }) }
    ensures told { OnOk result (TellMore seating.now.reads.now seating.now.lines.now
        (map (λ d. LogEntry.Delivered d) (settle engine.old.state until).delivered)
        (map (λ t. t.items) texts.old.items) (map (λ t. t.items) texts.new.items)) }
{
    let Ok(last) = engine.settle(until) else {
        return Err(OutOfMemory);
    };
    progress.advance(until, last.len());
    push_all_delivered(seating, texts, scratch, last.as_slice())
}

/// Writes the texts, and empties them. `Err` leaves them.
fn flush<W: Sink>(
    scripts: &[Script],
    logs: &mut [W],
    texts: &mut [Vec<u8>],
) -> Result<(), SessionFault>
    requires rising { AreRising (script_clients scripts.now) }
    requires logs { length logs.old ≡ length scripts.now }
    requires texts { length texts.old ≡ length scripts.now }
    requires sound { AreOpen W.failed logs.old }
    ensures wrote { OnOk result
        (Wrote W.HasTaken logs.old logs.new (map (λ t. t.items) texts.old)) }
    ensures empty { OnOk result (map (λ t. t.items) texts.new ≡ map (λ t. []) texts.old) }
    ensures part { IfSome (log_blamed result) (λ k. WroteUpTo W.HasTaken k
        (script_clients scripts.now) logs.old logs.new (map (λ t. t.items) texts.old)) }
    ensures marks { LogsTell W.failed W.takes_some (log_blamed result)
        (script_clients scripts.now) logs.new }
    ensures blamed { IfSome (log_blamed result) (λ k. IsAmong k (script_clients scripts.now)) }
    ensures only { IfErr result (λ e. IsSome (log_of_fault e)) }
{
    write_logs(scripts, logs, texts)?;
    clear_all(texts);
    Ok(())
}

/// Takes all inputs, in order, and then settles to the last moment. As soon as the texts are long they are written, and
/// at the end. Before, the skipped lines were written.
fn stream_turns<W: Sink, A: Agenda, P: Progress>(
    engine: &mut Engine<'_, '_, A>,
    seating: &Seating<'_>,
    texts: &mut Vec<Vec<u8>>,
    scratch: &mut Scratch,
    scripts: &[Script],
    inputs: &[Input],
    until: u64,
    logs: &mut [W],
    progress: &mut P,
) -> Result<(), SessionFault>
    requires timed { IsTimed inputs.now until }
    requires begun { engine.old ≡ seen_at_start engine.old.files }
    requires rising { AreRising (script_clients scripts.now) }
    requires logs { length logs.old ≡ length scripts.now }
    requires seats { length seating.now.reads.now ≡ length scripts.now }
    requires silent { seating.now.reads.now ≡ map emptied seating.now.reads.now }
    requires empty { map (λ t. t.items) texts.old.items ≡ map (λ r. []) seating.now.reads.now }
    requires sound { AreOpen W.failed logs.old }
    ensures wrote { OnOk result ((reads : List ScriptRead) (olds : List W) →
        seating.now.reads.now ≡ map emptied reads →
        let after = texts_after reads seating.now.lines.now engine.old.files inputs.now until in
        Wrote W.HasTaken olds logs.old (after 1) →
        Wrote W.HasTaken olds logs.new (after (length inputs.now + 2))) }
    ensures stopped { IfErr result (λ e. (reads : List ScriptRead) (olds : List W) →
        seating.now.reads.now ≡ map emptied reads →
        let after = texts_after reads seating.now.lines.now engine.old.files inputs.now until in
        Wrote W.HasTaken olds logs.old (after 1) →
        IsStoppedAt W.HasTaken after (script_clients scripts.now) olds logs.new e) }
    ensures listing { OnOk result (listing_of engine.new.state
        ≡ listing_of (state_after engine.old.files start inputs.now)) }
    ensures marks { LogsTell W.failed W.takes_some (log_blamed result)
        (script_clients scripts.now) logs.new }
    ensures blamed { IfSome (log_blamed result) (λ k. IsAmong k (script_clients scripts.now)) }
{
    for (index, input) in inputs.iter().enumerate() {
        push_turn(
            engine,
            seating,
            texts,
            scratch,
            progress,
            index as u64,
            input,
        )?;
        if are_long(texts.as_slice()) {
            flush(scripts, logs, texts.as_mut_slice())?;
        }
    }
    push_last(engine, seating, texts, scratch, progress, until)?;
    flush(scripts, logs, texts.as_mut_slice())
}

/// Writes the skipped lines, and then what the inputs give, and makes the listing at the end.
// The engine is lent, so that it is dropped in one place and not wherever memory is refused.
fn stream_run<W: Sink, A: Agenda, P: Progress>(
    alloc: Global,
    engine: &mut Engine<'_, '_, A>,
    scripts: &[Script],
    reads: &[ScriptRead],
    merged: &Merged,
    until: u64,
    logs: &mut [W],
    progress: &mut P,
) -> Result<Items<u8>, SessionFault>
    requires clients { clients_read reads.now ≡ script_clients scripts.now }
    requires timed { IsTimed merged.now.inputs until }
    requires begun { engine.old ≡ seen_at_start engine.old.files }
    requires rising { AreRising (script_clients scripts.now) }
    requires logs { length logs.old ≡ length scripts.now }
    requires sound { AreOpen W.failed logs.old }
    ensures wrote { let inputs = merged.now.inputs in
        let after = texts_after reads.now merged.now.lines engine.old.files inputs until in
        OnOk result (Wrote W.HasTaken logs.old logs.new (after (length inputs + 2))) }
    ensures stopped { let inputs = merged.now.inputs in
        let after = texts_after reads.now merged.now.lines engine.old.files inputs until in
        IfErr result (IsStoppedAt W.HasTaken after (script_clients scripts.now) logs.old logs.new) }
    ensures listing { IfOk result (λ listing.
        listing ≡ listing_of (state_after engine.old.files start merged.now.inputs)) }
    ensures marks { LogsTell W.failed W.takes_some (log_blamed result)
        (script_clients scripts.now) logs.new }
    ensures blamed { IfSome (log_blamed result) (λ k. IsAmong k (script_clients scripts.now)) }
{
    // How many lines a log will have is not known yet.
    let mut texts = started(alloc, reads, &[0usize; MOST_CLIENTS])?;
    let empty = all_emptied(alloc, reads)?;
    flush(scripts, logs, texts.as_mut_slice())?;
    let seating = Seating::new(empty.as_slice(), merged.lines.as_slice());
    let mut scratch = Scratch::new(alloc);
    let inputs = merged.inputs.as_slice();
    stream_turns(
        engine,
        &seating,
        &mut texts,
        &mut scratch,
        scripts,
        inputs,
        until,
        logs,
        progress,
    )?;
    match engine.listing() {
        Ok(listing) => Ok(Items::new(listing)),
        Err(_) => Err(SessionFault::OutOfMemory),
    }
}

/// Runs the inputs of a session up to `until`, writes what each gives to the logs, many lines at once, and makes the
/// listing at the end.
pub(crate) fn stream_merged<'f, 'b, W: Sink, A: Agenda + Drop, P: Progress>(
    alloc: Global,
    scripts: &[Script],
    reads: &[ScriptRead],
    merged: &Merged,
    files: &NamedFiles<'f, 'b>,
    agenda: A,
    until: u64,
    logs: &mut [W],
    progress: &mut P,
) -> Result<Items<u8>, SessionFault>
    requires clients { clients_read reads.now ≡ script_clients scripts.now }
    requires timed { IsTimed merged.now.inputs until }
    requires empty { A.content agenda ≡ finmap.empty }
    requires rising { AreRising (script_clients scripts.now) }
    requires logs { length logs.old ≡ length scripts.now }
    requires sound { AreOpen W.failed logs.old }
    ensures wrote { let inputs = merged.now.inputs in
        let after = texts_after reads.now merged.now.lines files.now.files inputs until in
        OnOk result (Wrote W.HasTaken logs.old logs.new (after (length inputs + 2))) }
    ensures stopped { let inputs = merged.now.inputs in
        let after = texts_after reads.now merged.now.lines files.now.files inputs until in
        IfErr result (IsStoppedAt W.HasTaken after (script_clients scripts.now) logs.old logs.new) }
    ensures listing { IfOk result (λ listing.
        listing ≡ listing_of (state_after files.now.files start merged.now.inputs)) }
    ensures marks { LogsTell W.failed W.takes_some (log_blamed result)
        (script_clients scripts.now) logs.new }
    ensures blamed { IfSome (log_blamed result) (λ k. IsAmong k (script_clients scripts.now)) }
{
    let mut engine = Engine::new(alloc, files.files(), agenda);
    stream_run(
        alloc,
        &mut engine,
        scripts,
        reads,
        merged,
        until,
        logs,
        progress,
    )
}
