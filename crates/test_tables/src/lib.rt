//! An agenda driven by moments alone, and tests of addresses, pools of events, agendas, the graph of subscriptions and
//! filters, through the public calls of their crates. Nothing stands on this crate, so that its tests and those crates
//! are proved side by side, and none of these twice.
#![tactic(auto)]

mod driver;
#[cfg(test)]
mod tests;

pub use driver::{CELLS, Driver};
