//! What a sequencer does with each command: the clients with their subscriptions, what is still to be sent, and the
//! files that may be played.
//!
//! Every contract here is an equation with the definitions of `seq_state`.
#![tactic(auto)]

mod carrying;
mod commands;
mod edges;
mod files;
mod nodes;
mod playbacks;
mod pools;
mod queue_refusals;
mod queues;
mod refusals;
mod sending;
mod sequencer;

pub use files::Files;
pub use sequencer::{Sequencer, Turn};
