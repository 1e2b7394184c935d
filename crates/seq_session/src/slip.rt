//! What there is to say of a line of a script that did most likely not what was meant.

use node_table::ClientId;

/// What was most likely meant otherwise.
#[derive(Clone, Copy, Debug, PartialEq, Eq)]
pub enum Slip {
    /// A tempo of so few microseconds per quarter note, 1 to 999: beats per minute were meant.
    TempoAsBpm(u32),
    /// Channels 2 and 4, which are 10 as a sum: channel 10 was meant.
    ChannelsTen,
}

/// A line of a client's script that did what it says, and most likely not what was meant.
#[derive(Clone, Copy, Debug, PartialEq, Eq)]
pub struct SlipOnLine {
    pub client: ClientId,
    /// From 1.
    pub line: u64,
    pub slip: Slip,
}
