//! Who follows a session while it runs.

/// Is told how far a session has come. What it does with it changes nothing of the session.
pub trait Progress {
    /// The session has come to a moment, in nanoseconds, and on the way so many messages came to ports.
    fn advance(&mut self, moment: u64, delivered: usize);
}

/// Nobody follows the session.
#[derive(Clone, Copy, Debug, Drop)]
pub struct Unwatched;

impl Progress for Unwatched {
    fn advance(&mut self, _moment: u64, _delivered: usize) {}
}
