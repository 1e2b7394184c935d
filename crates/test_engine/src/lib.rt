//! Runs of the sequencer that were worked out by hand, through the public calls of `seq_engine` and under both agendas,
//! and tests of the layers from `seq_state` to `seq_engine`, through the public calls of each. Nothing stands on this
//! crate, so that its tests and those crates are proved side by side, and none of these twice.
#![tactic(auto)]

mod agendas;
#[cfg(test)]
mod tests;

pub use agendas::run_under_both;
