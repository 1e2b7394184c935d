//! A stream read in two pieces, and tests of streams, tempo maps and Standard MIDI Files, through the public calls of
//! their crates. Nothing stands on this crate, so that its tests and those crates are proved side by side, and none of
//! these twice.
#![tactic(auto)]

mod reading;
#[cfg(test)]
mod tests;

pub use reading::read_in_two;
