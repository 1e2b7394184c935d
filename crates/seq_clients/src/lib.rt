//! The open clients: their ports with streams, their filters with rules, their queues with clocks, and the pools of
//! what waits to be read.
//!
//! Every contract of `Clients` is an equation with the definitions of `seq_state`.
#![tactic(auto)]

mod body;
mod changes;
mod clients;
mod port;
mod queue;
mod queues;
mod row;
mod rows;

pub use clients::Clients;
pub use queue::Queue;
