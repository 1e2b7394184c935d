//! What Standard MIDI Files say that are read by the lenient grammar, as text, and what was forgiven of them.
#![tactic(auto)]

mod dumping;
mod forgiven;
mod reading;
#[cfg(test)]
mod tests;

pub use dumping::{dump_all_leniently, dump_leniently};
