//! Sessions that were worked out by hand, from the bytes of scripts to the bytes of logs.
//!
//! As laws they are computed from the definitions of `seq_session` over the runs of `seq_examples`, and as tests they
//! go through its public calls. The tests of `script_text` are here too. Nothing stands on this crate.
#![tactic(auto)]

mod rows;
#[cfg(test)]
mod tests;

pub use rows::{clocked_session, overflow_session, played_session, tied_session};
