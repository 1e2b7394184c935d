//! A file of what came to a port.

ghost use Rattle.std.specs.Prelude.{◌≡◌, ◌++◌, None, Some, IfOk, IfErr, IfSome, OnOk};
ghost use Rattle.std.specs.Option.{option_to_list};
ghost use Rattle.smf_files.specs.Refusals.{write_refusal, told_refusal};
ghost use Rattle.smf_grammar.specs.Laws.{ReadsBack};
ghost use Rattle.port_files.specs.Tracks.{is_recorded};
ghost use Rattle.program_tasks.specs.Recording.{recording_ppq, recording_tempo, recording_clock, recording_text, recorded_event, recording_of};

use crate::grid::one_tempo;
use memory::OutOfMemory;
use node_table::PortAddr;
use seq_engine::{Delivery, LogEntry, RunLog};
use smf_files::{Event, WriteFault, stands_in_files, write_format0};
use std::alloc::Global;
use tempo_clock::TempoMap;

/// Ticks per quarter note.
const PPQ: u16 = 480;

/// Microseconds per quarter note.
const TEMPO: u32 = 500_000;

/// What came to a port in a run, as a Standard MIDI File of format 0 with 480 ticks per quarter note, of half a second
/// each.
///
/// Each message of a channel and each exclusive one stands at the last tick that has come by its moment; system common
/// and real time messages have no place in a file. `BadEvent` is the fault where more than 268,435,455 ticks lie
/// between two.
pub fn record_file(alloc: Global, log: &RunLog, port: PortAddr) -> Result<Vec<u8>, WriteFault>
    ensures text { IfOk result (λ file. file.items ≡ recording_text port log.now.entries) }
    ensures taken { let events = recording_of port log.now.entries in
        OnOk result (write_refusal recording_ppq recording_tempo events ≡ None) }
    ensures refused { let events = recording_of port log.now.entries in
        IfErr result (λ x. IfSome (told_refusal x) (λ r.
        write_refusal recording_ppq recording_tempo events ≡ Some r)) }
    ensures reads_back { let events = recording_of port log.now.entries in
        OnOk result (ReadsBack recording_ppq recording_tempo events) }
{
    let clock = one_tempo(alloc, u32::from(PPQ), TEMPO)?;
    let mut events = Vec::new(alloc);
    for entry in log.entries.as_slice() {
        add_event(&clock, &port, entry, &mut events)?;
    }
    write_format0(alloc, PPQ, TEMPO, events.as_slice())
}

/// Adds the event of an entry, where it came to the port.
fn add_event(
    clock: &TempoMap,
    port: &PortAddr,
    entry: &LogEntry,
    events: &mut Vec<Event>,
) -> Result<(), OutOfMemory>
    requires { clock.now ≡ recording_clock }
    ensures { OnOk result (events.new.items
        ≡ events.old.items ++ option_to_list (recorded_event port.now entry.now)) }
{
    if let LogEntry::Delivered(delivery) = entry {
        if is_recorded(port, delivery) {
            let event = Event {
                tick: clock.tick_at(delivery.moment),
                message: delivery.message.duplicate()?,
            };
            events.push(event)?;
        }
    }
    Ok(())
}

fn is_recorded(port: &PortAddr, delivery: &Delivery) -> bool
    ensures { result ≡ is_recorded port.now delivery.now }
{
    delivery.target.client == port.client
        && delivery.target.port == port.port
        && stands_in_files(&delivery.message)
}
