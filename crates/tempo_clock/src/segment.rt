//! Ticks that last alike.

ghost use Rattle.std.specs.Prelude.{◌≡◌, ◌≤◌, ◌<◌, ◌+◌, ◌*◌, ◌-◌, ◌/◌, ◌^◌, min};

/// Ticks that last alike: the first, its numerator, and by how much the numerator grows at each.
#[derive(Clone, Copy)]
pub(crate) struct Segment {
    pub(crate) tick: u64,
    pub(crate) start: u128,
    pub(crate) step: u128,
}

impl Segment {
    /// The numerator of one of its ticks.
    pub(crate) fn numerator_at(self, tick: u64) -> u128
        requires from { self.tick ≤ tick }
        requires step_small { self.step ≤ 2 ^ 34 }
        requires start_small { self.start ≤ self.tick * 2 ^ 34 }
        ensures value { result ≡ self.start + (tick - self.tick) * self.step }
        ensures small { result ≤ tick * 2 ^ 34 }
    {
        self.start + (tick - self.tick) as u128 * self.step
    }

    /// The last of its ticks, up to the greatest u64, whose numerator is at most a limit.
    pub(crate) fn tick_within(self, limit: u128) -> u64
        requires reached { self.start ≤ limit }
        requires lasts { 0 < self.step }
        ensures { result
            ≡ self.tick + min ((limit - self.start) / self.step) (2 ^ 64 - 1 - self.tick) }
    {
        let ticks = (limit - self.start) / self.step;
        let most = u64::MAX - self.tick;
        self.tick + ticks.min(most as u128) as u64
    }
}
