//! The calls of an engine, each with what has to hold after it ran out of memory.

ghost use Rattle.std.specs.Prelude.{◌≡◌};

use crate::ending::Ending;
use crate::lines::{Text, print};
use agenda_heap::HeapAgenda;
use byte_io::Sink;
use node_table::ClientId;
use seq_engine::{Command, Delivery, Engine, EngineFault, Input, StepOut};
use seq_session::Merged;
use smf_files::SmfFile;
use std::alloc::Global;

/// Gives an engine the inputs one by one, settles it, and asks for the listing. All is printed as it comes.
pub fn play<W: Sink>(
    alloc: Global,
    files: &[SmfFile<'_>],
    merged: &Merged,
    until: u64,
    out: &mut W,
) -> Result<(), Ending> {
    let mut text = Text::new(alloc)?;
    let mut engine = Engine::new(alloc, files, HeapAgenda::new(alloc));
    take_all(&mut engine, merged, &mut text, out)?;
    come_to(&mut engine, until, &mut text, out)?;
    list(&mut engine, out)
}

fn take_all<W: Sink>(
    engine: &mut Engine<'_, '_, HeapAgenda>,
    merged: &Merged,
    text: &mut Text,
    out: &mut W,
) -> Result<(), Ending> {
    let inputs = merged.inputs.as_slice();
    for (input, line) in inputs.iter().zip(merged.lines.as_slice().iter()) {
        take(engine, input, *line, text, out)?;
    }
    Ok(())
}

/// Gives an engine the input of a script's line.
fn take<W: Sink>(
    engine: &mut Engine<'_, '_, HeapAgenda>,
    input: &Input,
    line: u64,
    text: &mut Text,
    out: &mut W,
) -> Result<(), Ending> {
    let given = step(engine, input)?;
    text.push_deliveries(given.delivered.as_slice())?;
    text.push_reply(input, line, &given.reply)?;
    text.print(out)
}

fn come_to<W: Sink>(
    engine: &mut Engine<'_, '_, HeapAgenda>,
    until: u64,
    text: &mut Text,
    out: &mut W,
) -> Result<(), Ending> {
    let delivered = settle(engine, until)?;
    text.push_deliveries(delivered.as_slice())?;
    text.print(out)
}

fn step(engine: &mut Engine<'_, '_, HeapAgenda>, input: &Input) -> Result<StepOut, Ending> {
    let before = (engine.now(), engine.steps());
    if input.moment < before.0 || before.1 == u64::MAX {
        return Err(Ending::Unusable);
    }
    match engine.step(input) {
        Ok(given) => Ok(given),
        Err(EngineFault::OutOfMemory) => Err(failed(engine, before, "step")),
        Err(EngineFault::Failed) => Err(Ending::Otherwise("step failed at first")),
    }
}

fn settle(engine: &mut Engine<'_, '_, HeapAgenda>, until: u64) -> Result<Vec<Delivery>, Ending> {
    let before = (engine.now(), engine.steps());
    if until < before.0 {
        return Err(Ending::Unusable);
    }
    match engine.settle(until) {
        Ok(delivered) => Ok(delivered),
        Err(EngineFault::OutOfMemory) => Err(failed(engine, before, "settle")),
        Err(EngineFault::Failed) => Err(Ending::Otherwise("settle failed at first")),
    }
}

/// Prints the listing. After it ran out of memory another call may give it.
fn list<W: Sink>(engine: &mut Engine<'_, '_, HeapAgenda>, out: &mut W) -> Result<(), Ending> {
    let before = (engine.now(), engine.steps());
    match engine.listing() {
        Ok(text) => return print(out, text.as_slice()),
        Err(EngineFault::OutOfMemory) => {}
        Err(EngineFault::Failed) => return Err(Ending::Otherwise("listing failed at first")),
    }
    if (engine.now(), engine.steps()) != before {
        return Err(Ending::Otherwise("the engine moved at a listing"));
    }
    match engine.listing() {
        Ok(text) => print(out, text.as_slice())?,
        Err(EngineFault::OutOfMemory) => {}
        Err(EngineFault::Failed) => return Err(Ending::Otherwise("listing failed after listing")),
    }
    Err(answers(engine, "listing"))
}

/// A question at the present moment. It takes no memory, where nothing is due.
fn question(engine: &Engine<'_, '_, HeapAgenda>) -> Input
    ensures { result.moment ≡ engine.now.moment }
{
    Input {
        moment: engine.now(),
        actor: ClientId::new(128).unwrap(),
        command: Command::PoolStatus,
    }
}

/// After a call ran out of memory an engine has its moment and its number of steps, and every call answers `Failed`.
fn failed(
    engine: &mut Engine<'_, '_, HeapAgenda>,
    before: (u64, u64),
    call: &'static str,
) -> Ending {
    for _turn in 0..2 {
        if (engine.now(), engine.steps()) != before {
            return Ending::Otherwise("a failed engine moved");
        }
        if !all_fail(engine) {
            return Ending::Otherwise("a failed engine did not answer Failed");
        }
    }
    Ending::NoMemory(call)
}

fn all_fail(engine: &mut Engine<'_, '_, HeapAgenda>) -> bool {
    if engine.steps() == u64::MAX {
        return false;
    }
    let question = question(engine);
    let Err(EngineFault::Failed) = engine.step(&question) else {
        return false;
    };
    let Err(EngineFault::Failed) = engine.settle(engine.now()) else {
        return false;
    };
    match engine.listing() {
        Err(EngineFault::Failed) => true,
        _ => false,
    }
}

/// After a listing ran out of memory an engine answers as ever.
fn answers(engine: &mut Engine<'_, '_, HeapAgenda>, call: &'static str) -> Ending {
    if engine.steps() == u64::MAX {
        return Ending::Unusable;
    }
    let question = question(engine);
    if engine.step(&question).is_err() {
        return Ending::Otherwise("step after listing");
    }
    if engine.settle(engine.now()).is_err() {
        return Ending::Otherwise("settle after listing");
    }
    Ending::NoMemory(call)
}
