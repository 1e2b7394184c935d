//! The notes of all ports.

ghost use Rattle.std.specs.Prelude.{◌≡◌, ◌<◌, ◌≤◌, ◌+◌, ◌-◌, ◌*◌, ℕ, false, length, [], IfOk, OnOk, slice_index_or};
ghost use Rattle.node_table.specs.Numbers.{first_client, most_ports};
ghost use Rattle.sounding_notes.specs.Kept.{reads_at, after_entry, all_ports, port_number, port_notes, IsNote};
ghost use Rattle.sounding_notes.specs.Sounding.{sounds};
ghost use Rattle.sounding_notes.specs.declared.listing.SoundingNote.{SoundingNote};

use crate::port_notes::PortNotes;
use memory::OutOfMemory;
use node_table::{MOST_PORTS, PortAddr, row_of};
use seq_state::LogEntry;
use std::alloc::Global;
use std::marker::Model;

/// How many ports there are.
const PORTS: usize = 1024;

/// Which notes of all ports sound.
#[derive(Drop)]
pub(crate) struct NoteTable {
    // By client and port.
    ports: Vec<PortNotes>,
}

impl Model for NoteTable {
    ghost use Rattle.std.specs.Prelude.{List, Bool, ◌≡◌, length};
    ghost use Rattle.sounding_notes.specs.Kept.{all_ports};

    ghost Value = { List (List Bool) };

    ghost view = { λ t. t.ports.items };

    ghost invariant = { λ t. length t.ports.items ≡ all_ports };
}

/// The place of a port among those of all clients.
fn place_of(target: &PortAddr) -> usize
    ensures place { result ≡ port_number target.now }
    ensures small { result < all_ports }
    ensures client { first_client ≤ target.now.client }
    ensures port { target.now.port < most_ports }
{
    row_of(target.client) * MOST_PORTS as usize + target.port.number() as usize
}

fn silent_ports(alloc: Global) -> Result<Vec<PortNotes>, OutOfMemory>
    ensures len { IfOk result (λ v. length v.items ≡ all_ports) }
    ensures silent { IfOk result (λ v. (i : ℕ) → slice_index_or v.items i [] ≡ []) }
{
    let mut ports = Vec::with_capacity(alloc, PORTS)?;
    for _ in 0..PORTS {
        ports.push(PortNotes::new(alloc))?;
    }
    Ok(ports)
}

impl NoteTable {
    /// No note sounds.
    pub(crate) fn new(alloc: Global) -> Result<NoteTable, OutOfMemory>
        ensures { IfOk result (λ t. (n : SoundingNote) → reads_at t n ≡ false) }
    {
        Ok(NoteTable {
            ports: silent_ports(alloc)?,
        })
    }

    pub(crate) fn notes_of(&self, target: &PortAddr) -> &PortNotes
        ensures { result.now ≡ port_notes self.now target.now }
    {
        &self.ports[place_of(target)]
    }

    /// Hears the message of an entry, if it is a delivery.
    pub(crate) fn hear(&mut self, entry: &LogEntry) -> Result<(), OutOfMemory>
        ensures { OnOk result ((n : SoundingNote) → IsNote n →
            reads_at self.new n ≡ after_entry n (reads_at self.old n) entry.now) }
    {
        if let LogEntry::Delivered(delivery) = entry {
            self.ports[place_of(&delivery.target)].hear(&delivery.message)?;
        }
        Ok(())
    }
}

/// Which notes sound after these entries.
pub(crate) fn heard(alloc: Global, entries: &[LogEntry]) -> Result<NoteTable, OutOfMemory>
    ensures { IfOk result (λ t. (n : SoundingNote) → IsNote n →
        reads_at t n ≡ sounds entries.now n) }
{
    let mut table = NoteTable::new(alloc)?;
    for entry in entries {
        table.hear(entry)?;
    }
    Ok(table)
}
