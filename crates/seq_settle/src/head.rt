//! What a cell says of itself.

use midi_wire::Message;
use node_table::{ClientId, PortNo, QueueAddr};
use tempo_clock::Due;

/// What a cell says of itself, with the due time of its first event.
#[derive(Clone, Copy, Debug, Drop)]
pub struct PlaybackHead {
    pub client: ClientId,
    pub port: PortNo,
    pub queue: QueueAddr,
    /// When its command was accepted, in nanoseconds.
    pub accepted: u64,
    /// The number of its command among all inputs.
    pub rank: u64,
    /// `None` where it has no event left.
    pub due: Option<Due>,
}

/// An event that left its cell, and what the cell says of itself without it.
#[derive(Drop)]
pub struct PoppedMessage {
    pub message: Message,
    pub head: PlaybackHead,
}
