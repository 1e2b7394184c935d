//! What a session tells.

use memory::Items;

/// The logs of a session, and its listing.
#[derive(Drop)]
pub struct SessionLogs {
    /// The log of each client, in the order of the scripts.
    pub logs: Items<Vec<u8>>,
    /// The listing at the end.
    pub listing: Items<u8>,
}
