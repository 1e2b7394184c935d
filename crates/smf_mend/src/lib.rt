//! Standard MIDI Files that the strict grammar refuses and other readers take, made files that it takes.
#![tactic(auto)]

mod container;
mod forgiven;
mod growth;
mod laws;
mod mending;
mod soft_pair;
mod soft_track;
mod soft_tracks;
mod told;
mod unwrapping;

pub use container::unwrapped;
pub use forgiven::{Forgiven, Mended};
pub use laws::{forgives_softened, one_lenient_reading, strict_is_lenient, worked_mends};
pub use mending::mend;
pub use told::{ForgivenText, Lenience};
pub use unwrapping::mend_unwrapped;

#[cfg(test)]
mod tests;
