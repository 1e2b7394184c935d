//! The graph of subscriptions: who is joined to whom, in order of age, and the paths that a message takes.
#![tactic(auto)]

mod closing;
mod edge;
mod fault;
mod found;
mod graph;
mod laws;
mod links;
mod path;
mod route;
mod search;

pub use edge::{Edge, Origin};
pub use fault::EdgeFault;
pub use graph::{MOST_SOURCES, PatchGraph};
pub use laws::joined_is_reached;
pub use path::Path;
pub use route::{HOPS, Route, Routes};
