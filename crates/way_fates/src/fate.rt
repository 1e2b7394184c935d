//! What becomes of a message on its ways.

use crate::stop::Stop;
use memory::Items;
use node_table::Addr;
use patch_graph::Route;

/// What becomes of a message on a way.
#[derive(Clone, Copy, Debug, PartialEq, Eq)]
pub enum Fate {
    /// This filter stops it.
    Stopped { filter: Addr, why: Stop },
    /// It comes to the port, and finds room in the input pool of its client.
    Arrives,
    /// It comes to the port, and finds no room: the input pool of its client has this size.
    Lost { size: u32 },
}

/// A way from a port, and what becomes of a message there.
#[derive(Debug, Drop)]
pub struct WayFate {
    pub route: Route,
    pub fate: Fate,
}

/// What becomes of a message on the first ways from a port.
#[derive(Debug, Drop)]
pub struct Fates {
    /// The oldest first.
    pub ways: Items<WayFate>,
    /// How many ways more there are, where all ways are counted up to 2^64 - 1.
    pub more: u64,
}
