//! What a refusal is about.

use node_table::{Addr, QueueAddr};

/// A capability that a subscription may need of a node.
#[derive(Clone, Copy, Debug, PartialEq, Eq)]
pub enum Capability {
    Read,
    SubsRead,
    Write,
    SubsWrite,
}

/// What a refused command names, where that is at fault.
#[derive(Clone, Copy, Debug, PartialEq, Eq)]
pub enum About {
    /// Nothing that has an address.
    Nothing,
    /// A port or a filter.
    Node(Addr),
    /// A subscription, which is there or not.
    Edge { source: Addr, target: Addr },
    Queue(QueueAddr),
    /// A node that lacks what a subscription needs of it.
    Lacks(Addr, Capability),
    /// A node that has NO_EXPORT, where both nodes are other clients'.
    NotExported(Addr),
}
