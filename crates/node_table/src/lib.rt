//! The open clients: the numbers of clients and nodes, their addresses, their names, and what a node allows.
//!
//! The numbers and the capabilities are those of the ALSA sequencer interface, within limits of our own: clients 128 to
//! 191, ports and filters 0 to 15 of each client.
#![tactic(auto)]

mod caps;
mod fault;
mod info;
mod name;
mod number;
mod place;
mod slots;
mod table;

pub use caps::{Caps, permitted};
pub use fault::{CreateFault, OpenFault};
pub use info::NodeInfo;
pub use name::is_name;
pub use number::{
    Addr, ClientId, FIRST_CLIENT, FilterNo, LAST_CLIENT, MOST_FILTERS, MOST_PORTS, MOST_QUEUES,
    Node, PortAddr, PortNo, QueueAddr, QueueNo,
};
pub use place::{MOST_CLIENTS, PLACES, addr_at, make_places, place_of, row_of};
pub use slots::nothing;
pub use table::NodeTable;
