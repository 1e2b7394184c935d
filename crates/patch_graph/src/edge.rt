//! Subscriptions.

use node_table::Addr;

/// A subscription: what leaves the source reaches the target.
#[derive(Clone, Copy, Debug, PartialEq, Eq, Hash)]
pub struct Edge {
    pub source: Addr,
    pub target: Addr,
}

/// Where an edge began that is gone.
#[derive(Clone, Copy, Debug, PartialEq, Eq)]
pub struct Origin {
    pub source: Addr,
    /// Where the node at which it ended stood among the targets of the source, counted from 0.
    pub place: usize,
}
