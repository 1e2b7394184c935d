//! The queues of a client.

ghost use Rattle.std.specs.Prelude.{◌≡◌, ◌≤◌, ◌<◌, true, None, IsSome, OnOk, OnErr};
ghost use Rattle.tempo_clock.specs.Entries.{is_tempo};
ghost use Rattle.tempo_clock.specs.Clocks.{running_from_zero, at_rest, running_on, with_tempo};
ghost use Rattle.seq_state.specs.Effect.{held_queue, with_clock, public};

use memory::OutOfMemory;
use std::marker::Model;
use tempo_clock::{QueueClock, TempoMap};

/// A queue: a clock, and whether other clients may use it.
#[derive(Drop)]
pub struct Queue {
    clock: QueueClock,
    shared: bool,
}

impl Model for Queue {
    ghost use Rattle.seq_state.specs.State as state;
    ghost use Rattle.seq_state.specs.Codes.{coded_queue};

    ghost Value = { state.Queue };

    ghost coded = { coded_queue };

    ghost view = { λ q. record { clock = q.clock; shared = q.shared } };
}

impl Queue {
    /// A private queue that is held at 0.
    pub(crate) fn new(map: TempoMap) -> Queue
        ensures { result ≡ held_queue map }
    {
        Queue {
            clock: QueueClock::new(map),
            shared: false,
        }
    }

    /// Its clock, which shows ticks and nanoseconds.
    pub fn clock(&self) -> &QueueClock
        ensures { result.now ≡ self.now.clock }
    {
        &self.clock
    }

    /// Whether clients other than its own may use it.
    pub fn is_shared(&self) -> bool
        ensures { result ≡ self.now.shared }
    {
        self.shared
    }

    pub(crate) fn start(&mut self, moment: u64)
        requires { self.old.clock.since ≡ None }
        ensures { self.new ≡ with_clock (λ k. running_from_zero k moment) self.old }
    {
        self.clock.start(moment);
    }

    pub(crate) fn stop(&mut self, moment: u64)
        requires { IsSome self.old.clock.since }
        ensures { self.new ≡ with_clock (λ k. at_rest k moment) self.old }
    {
        self.clock.stop(moment);
    }

    pub(crate) fn resume(&mut self, moment: u64)
        requires held { self.old.clock.since ≡ None }
        requires later { self.old.clock.time ≤ moment }
        ensures { self.new ≡ with_clock (λ k. running_on k moment) self.old }
    {
        self.clock.resume(moment);
    }

    /// Sets one tempo, in microseconds per quarter note, from the present on. `Err` leaves all as it was.
    pub(crate) fn set_tempo(&mut self, moment: u64, tempo: u32) -> Result<(), OutOfMemory>
        requires tempo { is_tempo tempo ≡ true }
        requires metrical { self.old.clock.map.division < 32768 }
        ensures ok { OnOk result (self.new ≡ with_clock (λ k. with_tempo k moment tempo) self.old) }
        ensures err { OnErr result (self.new ≡ self.old) }
    {
        self.clock.set_tempo(moment, tempo)
    }

    /// Lets other clients use it.
    pub(crate) fn share(&mut self)
        ensures { self.new ≡ public self.old }
    {
        self.shared = true;
    }
}
