//! What clients hear.

use memory::Items;
use midi_wire::Message;
use node_table::{ClientId, PortAddr, PortNo};

/// What became of a command.
#[derive(Debug, Drop, PartialEq, Eq)]
pub enum Reply {
    Done,
    /// So many messages were completed and sent.
    Messages(u64),
    /// What a queue shows.
    Queue {
        running: bool,
        /// The last tick that has come.
        tick: u64,
        /// How long the queue has run since its last start.
        nanos: u64,
    },
    /// What was taken from the input pool, the oldest first.
    Received(Items<Arrival>),
    /// How full the pools are.
    Pools {
        /// How many messages wait in the input pool.
        waiting: u32,
        /// How many found no room there. The count stays at its greatest value once it comes to it.
        lost: u64,
        /// How many scheduled messages and files the client has still to send.
        used: u32,
    },
    /// The number of a `Refusal`. The command changed nothing.
    Refused(u8),
}

/// A message that waits in a client's input pool.
#[derive(Debug, Drop, PartialEq, Eq)]
pub struct Arrival {
    /// When it came, in nanoseconds from the beginning of the run.
    pub moment: u64,
    /// The client's port that it came to.
    pub port: PortNo,
    pub message: Message,
}

/// A message that came to a port.
#[derive(Debug, Drop, PartialEq, Eq)]
pub struct Delivery {
    /// In nanoseconds from the beginning of the run.
    pub moment: u64,
    pub target: PortAddr,
    pub message: Message,
}

/// An entry of the log of a run.
#[derive(Debug, Drop, PartialEq, Eq)]
pub enum LogEntry {
    Delivered(Delivery),
    Replied {
        /// The place of the input in the list, from 0.
        index: u64,
        moment: u64,
        client: ClientId,
        reply: Reply,
    },
}
