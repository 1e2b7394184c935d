//! The clocks of queues.

ghost use Rattle.std.specs.Prelude.{◌≡◌, ◌≤◌, ◌<◌, true, OnOk, OnErr, None, is_some, IsSome, IsNone};
ghost use Rattle.tempo_clock.specs.Entries.{is_tempo};
ghost use Rattle.tempo_clock.specs.Ticks.{is_smpte, tick_at, first_tick_from};
ghost use Rattle.tempo_clock.specs.Clocks.{elapsed_time, running_from_zero, at_rest, running_on, with_tempo, moment_of};

use crate::due::Due;
use crate::tempo_map::TempoMap;
use memory::OutOfMemory;
use std::marker::Model;

/// The clock of a queue: a tempo map, and a time that runs with the moments which the caller passes, or is held.
///
/// Moments and times are in nanoseconds. The time is how long the clock has run since its last `start` or, before the
/// first, since it was made. At the moment of `start` and `resume` it runs; at that of `stop` it no longer does.
#[derive(Debug, Drop)]
pub struct QueueClock {
    map: TempoMap,
    time: u64,
    since: Option<u64>,
}

impl Model for QueueClock {
    ghost use Rattle.std.specs.Prelude.{◌≤◌};
    ghost use Rattle.std.specs.Option.{ForSome};
    ghost use Rattle.tempo_clock.specs.Clocks.{Clock};

    ghost Value = { Clock };

    ghost view = { λ c. record { map = c.map; time = c.time; since = c.since } };

    ghost invariant = { λ c. ForSome c.since (λ since. c.time ≤ since) };
}

impl QueueClock {
    /// A clock that is held at 0.
    pub fn new(map: TempoMap) -> QueueClock
        ensures { result ≡ record { map = map; time = 0; since = None } }
    {
        QueueClock {
            map,
            time: 0,
            since: None,
        }
    }

    /// Runs it from 0.
    pub fn start(&mut self, moment: u64)
        requires { self.old.since ≡ None }
        ensures { self.new ≡ running_from_zero self.old moment }
    {
        self.time = 0;
        self.resume(moment);
    }

    /// Holds it. The moment is not before the last `start` or `resume`.
    pub fn stop(&mut self, moment: u64)
        requires { IsSome self.old.since }
        ensures { self.new ≡ at_rest self.old moment }
    {
        self.time = self.elapsed(moment);
        self.since = None;
    }

    /// Runs it on. A clock never shows more than the moment at which it was last used, so the premise holds where
    /// moments do not fall.
    pub fn resume(&mut self, moment: u64)
        requires held { self.old.since ≡ None }
        requires later { self.old.time ≤ moment }
        ensures { self.new ≡ running_on self.old moment }
    {
        self.since = Some(moment);
    }

    /// Whether it runs.
    pub fn running(&self) -> bool
        ensures { result ≡ is_some self.now.since }
    {
        self.since.is_some()
    }

    /// The division word of its tempo map.
    pub fn division(&self) -> u16
        ensures { result ≡ self.now.map.division }
    {
        self.map.division()
    }

    /// Whether it counts frames per second, and so has no tempo.
    pub fn counts_frames(&self) -> bool
        ensures { result ≡ is_smpte self.now.map }
    {
        self.division() >= 32768
    }

    /// What it shows at a moment that is not before the last `start` or `resume`.
    pub fn elapsed(&self, moment: u64) -> u64
        ensures { result ≡ elapsed_time self.now moment }
    {
        match self.since {
            None => self.time,
            Some(since) => self.time + moment.saturating_sub(since),
        }
    }

    /// The last tick that comes within what it shows at a moment.
    pub fn tick(&self, moment: u64) -> u64
        ensures { result ≡ tick_at self.now.map (elapsed_time self.now moment) }
    {
        self.map.tick_at(self.elapsed(moment))
    }

    /// The first moment, not before the event was accepted nor before the last `start` or `resume`, at which the clock
    /// shows the due time; none where it is held or no u64 moment is late enough.
    #[inline(always)]
    pub fn due_moment(&self, due: Due, accepted: u64) -> Option<u64>
        ensures { result ≡ moment_of self.now accepted due }
    {
        let since = self.since?;
        let time = match due {
            Due::Tick(tick) => self.map.nanos_at(tick),
            Due::Nanos(nanos) => nanos as u128,
        };
        let wait = time.saturating_sub(self.time as u128);
        let moment = (since as u128 + wait).max(accepted as u128);
        u64::try_from(moment).ok()
    }

    /// Sets one tempo from the first tick on whose exact time is not before what the clock shows. Nothing changes where
    /// there is no such tick.
    pub fn set_tempo(&mut self, moment: u64, tempo: u32) -> Result<(), OutOfMemory>
        requires tempo { is_tempo tempo ≡ true }
        requires metrical { self.old.map.division < 32768 }
        ensures ok { OnOk result (self.new ≡ with_tempo self.old moment tempo) }
        ensures err { OnErr result (self.new ≡ self.old) }
        ensures memory { OnErr result
            (IsSome (first_tick_from self.old.map (elapsed_time self.old moment))) }
    {
        let nanos = self.elapsed(moment);
        if let Some(tick) = self.map.first_tick_from(nanos) {
            self.map.change(tick, tempo)?;
        }
        Ok(())
    }

    /// The tempo map.
    pub fn map(&self) -> &TempoMap
        ensures { result.now ≡ self.now.map }
    {
        &self.map
    }
}
