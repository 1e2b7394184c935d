//! What becomes of a message in a session at a moment.

ghost use Rattle.std.specs.Prelude.{◌≡◌, ◌-◌, take, IfOk, OnOk};
ghost use Rattle.std.specs.FinMap.{get};
ghost use Rattle.seq_state.specs.Effect.{has_port};
ghost use Rattle.seq_state.specs.Step.{IsTimed, port_addr};
ghost use Rattle.seq_engine.specs.Begun.{seen_at_start};
ghost use Rattle.way_fates.specs.Counts.{way_count};
ghost use Rattle.way_fates.specs.Fates.{fates};
ghost use Rattle.way_fates.specs.Laws.{fates_of};
ghost use Rattle.session_fates.specs.Asked.{state_by, state_at, is_there};

use agenda_heap::{Agenda, HeapAgenda};
use memory::OutOfMemory;
use midi_wire::Message;
use node_table::{Addr, PortAddr};
use seq_engine::{Engine, EngineFault};
use seq_patchbay::Patchbay;
use seq_session::{NamedFiles, Script, merge, parse_all};
use seq_state::Input;
use std::alloc::Global;
use way_fates::{Fates, fates};

/// What becomes of a message from a port.
#[derive(Drop)]
pub struct SessionFates {
    pub fates: Fates,
    /// Whether the port is there.
    pub is_there: bool,
}

/// Takes all inputs, in order, and then settles to a moment.
fn run_to<A: Agenda>(
    engine: &mut Engine<'_, '_, A>,
    inputs: &[Input],
    moment: u64,
) -> Result<(), EngineFault>
    requires timed { IsTimed inputs.now moment }
    requires begun { engine.old ≡ seen_at_start engine.old.files }
    ensures { OnOk result (engine.new.state ≡ state_by engine.old.files inputs.now moment) }
{
    for input in inputs {
        drop(engine.step(input)?);
    }
    drop(engine.settle(moment)?);
    Ok(())
}

/// What becomes of a message from a port.
fn fates_from(
    alloc: Global,
    patchbay: &Patchbay,
    moment: u64,
    port: PortAddr,
    message: &Message,
    most: usize,
) -> Result<SessionFates, OutOfMemory>
    ensures ways { let source = port_addr port.client port.port in
        let meant = fates patchbay.now.clients patchbay.now.graph moment source message.now in
        IfOk result (λ f. f.fates.ways ≡ take most meant) }
    ensures more { let source = port_addr port.client port.port in
        IfOk result (λ f. f.fates.more ≡ way_count patchbay.now.graph source - most) }
    ensures there { let client = get patchbay.now.clients.clients port.client in
        IfOk result (λ f. f.is_there ≡ has_port client port.port) }
{
    let source = Addr::from(port);
    Ok(SessionFates {
        fates: fates(alloc, patchbay, moment, &source, message, most)?,
        is_there: patchbay.clients().has_port(port.client, port.port),
    })
}

/// What becomes of a message from a port once these inputs were taken, and what is due by a moment was sent.
// The engine is lent, so that it is dropped in one place and not wherever memory is refused.
fn fates_by<A: Agenda>(
    alloc: Global,
    engine: &mut Engine<'_, '_, A>,
    inputs: &[Input],
    moment: u64,
    port: PortAddr,
    message: &Message,
    most: usize,
) -> Result<SessionFates, OutOfMemory>
    requires timed { IsTimed inputs.now moment }
    requires begun { engine.old ≡ seen_at_start engine.old.files }
    ensures ways { let source = port_addr port.client port.port in
        let s = state_by engine.old.files inputs.now moment in
        IfOk result (λ f. f.fates.ways ≡ take most (fates_of s moment source message.now)) }
    ensures more { let source = port_addr port.client port.port in
        let s = state_by engine.old.files inputs.now moment in
        IfOk result (λ f. f.fates.more ≡ way_count s.edges source - most) }
    ensures there { let s = state_by engine.old.files inputs.now moment in
        IfOk result (λ f. f.is_there ≡ is_there s port) }
{
    let Ok(()) = run_to(engine, inputs, moment) else {
        return Err(OutOfMemory);
    };
    fates_from(alloc, engine.patchbay(), moment, port, message, most)
}

/// Runs the scripts of a session up to a moment, in nanoseconds, and says what would become of a message that were then
/// sent from a port: on the first `most` ways from there, the oldest first, and how many ways more there are. All lines
/// of that moment have done their work, and what is due by then was sent.
pub fn session_fates(
    alloc: Global,
    scripts: &[Script],
    files: &NamedFiles<'_, '_>,
    moment: u64,
    port: PortAddr,
    message: &Message,
    most: usize,
) -> Result<SessionFates, OutOfMemory>
    ensures ways { let source = port_addr port.client port.port in
        let s = state_at files.now moment scripts.now in
        IfOk result (λ f. f.fates.ways ≡ take most (fates_of s moment source message.now)) }
    ensures more { let source = port_addr port.client port.port in
        let s = state_at files.now moment scripts.now in
        IfOk result (λ f. f.fates.more ≡ way_count s.edges source - most) }
    ensures there { let s = state_at files.now moment scripts.now in
        IfOk result (λ f. f.is_there ≡ is_there s port) }
{
    let reads = parse_all(alloc, scripts, files, moment)?;
    let merged = merge(alloc, reads.as_slice())?;
    let mut engine = Engine::new(alloc, files.files(), HeapAgenda::new(alloc));
    let inputs = merged.inputs.as_slice();
    fates_by(alloc, &mut engine, inputs, moment, port, message, most)
}
