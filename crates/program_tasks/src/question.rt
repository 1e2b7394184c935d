//! What the program is asked of circles.

use node_table::ClientId;

/// Whose circles are asked for.
#[derive(Clone, Copy, Debug, PartialEq, Eq)]
pub enum CircleQuestion {
    /// That of a client; and where `in_session` says so, whether it is closed in the session of these very scripts.
    Of { owner: ClientId, in_session: bool },
    /// That of each client that has a script.
    OfAll,
}
