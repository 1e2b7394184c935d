//! What goes with a client, or with something of a client's.

use node_table::{PortNo, QueueNo};

/// Which playbacks go.
#[derive(Clone, Copy, Debug, Drop)]
pub enum Which {
    /// What is sent from a port of the client.
    OfPort(PortNo),
    /// What waits on a queue of the client, whoever's it is.
    OnQueue(QueueNo),
    /// What is the client's.
    All,
    /// That, and what waits on any queue of the client, whoever's it is.
    AllAndOnQueues,
}
