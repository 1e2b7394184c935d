//! What waits to be sent, and what waits to be read, each in a bounded place.
#![tactic(auto)]

mod clients;
mod fault;
mod key;
mod laws;
mod listening;
mod pool;
mod store;

pub use fault::{PoolFault, PutFault};
pub use key::CellKey;
pub use laws::take_all;
pub use pool::{InPool, MOST_WAITING, is_size};
pub use store::CellStore;
