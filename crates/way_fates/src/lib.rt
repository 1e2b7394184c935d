//! What becomes of a message on each way from a port: a filter stops it, it arrives, or it is lost.
//!
//! `specs/Fates.antt` is the definition, and `specs/Laws.antt` says what it means for the copies that are sent.
#![tactic(auto)]

mod counting;
mod fate;
mod laws;
mod passing;
mod rooms;
mod rows;
mod stop;
#[cfg(test)]
mod tests;
mod ways;

pub use fate::{Fate, Fates, WayFate};
pub use laws::{fates_are_copies, stops_are_true};
pub use rows::worked_fates;
pub use stop::Stop;
pub use ways::fates;
