//! The notes that sound, in order.

ghost use Rattle.std.specs.Prelude.{◌≡◌, ◌<◌, ◌++◌, ◌∷◌, [], if◌then◌else◌, IfOk, OnOk};
ghost use Rattle.std.specs.List.{filter};
ghost use Rattle.midi_wire.specs.Kinds.{channels};
ghost use Rattle.sounding_notes.specs.Kept.{reads_in, reads_at};
ghost use Rattle.sounding_notes.specs.Sounding.{sounding, all_notes, notes_of_client, notes_of_port, notes_of_channel};

use crate::port_notes::{NOTES, PortNotes};
use crate::table::{NoteTable, heard};
use memory::OutOfMemory;
use midi_wire::CHANNELS;
use node_table::{ClientId, FIRST_CLIENT, LAST_CLIENT, MOST_PORTS, PortAddr, PortNo};
use seq_state::LogEntry;
use std::alloc::Global;

/// A note that sounds at a port.
#[derive(Clone, Copy, Debug, PartialEq, Eq)]
pub struct SoundingNote {
    pub target: PortAddr,
    /// From 0 to 15.
    pub channel: u8,
    /// From 0 to 127: 60 is middle C.
    pub note: u8,
}

fn push_if(
    found: &mut Vec<SoundingNote>,
    note: SoundingNote,
    sounds: bool,
) -> Result<(), OutOfMemory>
    ensures { OnOk result
        (found.new.items ≡ found.old.items ++ (if sounds then note ∷ [] else [])) }
{
    if sounds {
        found.push(note)?;
    }
    Ok(())
}

/// Adds the notes of a channel that sound.
fn add_channel(
    found: &mut Vec<SoundingNote>,
    notes: &PortNotes,
    target: &PortAddr,
    channel: u8,
) -> Result<(), OutOfMemory>
    requires { channel < channels }
    ensures { OnOk result (found.new.items
        ≡ found.old.items ++ filter (reads_in notes.now) (notes_of_channel target.now channel)) }
{
    for note in 0..NOTES {
        let sounding = SoundingNote {
            target: *target,
            channel,
            note,
        };
        push_if(found, sounding, notes.sounds(channel, note))?;
    }
    Ok(())
}

/// Adds the notes of a port that sound.
fn add_port(
    found: &mut Vec<SoundingNote>,
    notes: &PortNotes,
    target: &PortAddr,
) -> Result<(), OutOfMemory>
    ensures { OnOk result (found.new.items
        ≡ found.old.items ++ filter (reads_in notes.now) (notes_of_port target.now)) }
{
    if notes.is_empty() {
        return Ok(());
    }
    for channel in 0..CHANNELS {
        add_channel(found, notes, target, channel)?;
    }
    Ok(())
}

/// Adds the notes of the ports of a client that sound.
fn add_client(
    found: &mut Vec<SoundingNote>,
    table: &NoteTable,
    client: ClientId,
) -> Result<(), OutOfMemory>
    ensures { OnOk result (found.new.items
        ≡ found.old.items ++ filter (reads_at table.now) (notes_of_client client)) }
{
    for number in 0..MOST_PORTS {
        let port = PortNo::new(number).unwrap();
        let target = PortAddr { client, port };
        add_port(found, table.notes_of(&target), &target)?;
    }
    Ok(())
}

/// The notes that a table holds as sounding.
fn listed(alloc: Global, table: &NoteTable) -> Result<Vec<SoundingNote>, OutOfMemory>
    ensures { IfOk result (λ ns. ns.items ≡ filter (reads_at table.now) all_notes) }
{
    let mut found = Vec::new(alloc);
    for number in FIRST_CLIENT..LAST_CLIENT + 1 {
        let client = ClientId::new(number).unwrap();
        add_client(&mut found, table, client)?;
    }
    Ok(found)
}

/// The notes that still sound at ports after these entries of a log, rising by client, port, channel and note.
///
/// A note on starts a note. A note off, a note on with velocity 0, all sound off, all notes off and the mode messages
/// behind it end it, and so does a system reset (MIDI 1.0 Detailed Specification, "Channel Voice Messages", "Channel
/// Mode Messages", "System Real Time Messages"). One note off ends a note that was started twice. A port that was
/// deleted, or whose client closed, counts like any other. It goes over the entries once, in constant time for each,
/// and keeps 2 KiB for each port to which a channel message came.
pub fn sounding_notes(alloc: Global, entries: &[LogEntry]) -> Result<Vec<SoundingNote>, OutOfMemory>
    ensures { IfOk result (λ ns. ns.items ≡ sounding entries.now) }
{
    let table = heard(alloc, entries)?;
    listed(alloc, &table)
}
