//! Which notes still sound at the ports of clients after the entries of a log.
//!
//! A note sounds after the messages of a port as the MIDI 1.0 Detailed Specification says ("Note Off", "Note On",
//! "Channel Mode Messages", "System Reset"). `specs/Sounding.antt` is the definition, and `specs/Laws.antt` says what
//! it means.
#![tactic(auto)]

mod laws;
mod listing;
mod port_notes;
mod rows;
mod table;
#[cfg(test)]
mod tests;

pub use laws::sounds_from_a_start;
pub use listing::{SoundingNote, sounding_notes};
pub use rows::worked_notes;
