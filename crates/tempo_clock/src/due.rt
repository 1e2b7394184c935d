//! Due times of events.

/// When an event is due, counted on its queue's clock.
#[derive(Clone, Copy, Debug, PartialEq, Eq)]
pub enum Due {
    /// At a tick of the queue's tempo map.
    Tick(u64),
    /// At a time in nanoseconds.
    Nanos(u64),
}
