//! What came to several ports in a run, as a Standard MIDI File of format 1 (RP-001): a track of tempos, and a track
//! for each port.
#![tactic(auto)]

mod file;
mod laws;
mod pair;
mod rows;
mod track;

pub use file::record_ports;
pub use laws::grid_is_kept;
pub use rows::worked_ports;

#[cfg(test)]
mod tests;
