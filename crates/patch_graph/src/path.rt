//! The paths of a message.

use memory::Items;
use node_table::{Addr, PortAddr};

/// The path of a message from a node to a port.
#[derive(Debug, Drop)]
pub struct Path {
    /// The filters that it goes through, in order: at most seven.
    pub filters: Items<Addr>,
    pub last: PortAddr,
}
