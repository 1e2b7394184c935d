//! What comes to a pool that listens.

ghost use Rattle.std.specs.Prelude.{◌≡◌, nat_lt, if◌then◌else◌};
ghost use Rattle.cell_pools.specs.Pools.{came_at, one_more, nothing_came};

/// How much has come to a pool that listens, at the moment of the last that came.
#[derive(Clone, Copy)]
pub(crate) struct Listening {
    moment: u64,
    count: u32,
}

impl Listening {
    pub(crate) fn new() -> Listening
        ensures { result ≡ nothing_came }
    {
        Listening {
            moment: 0,
            count: 0,
        }
    }

    /// How much has come at this moment.
    pub(crate) fn came_at(&self, moment: u64) -> u32
        ensures { result ≡ came_at moment self.now }
    {
        if self.moment == moment { self.count } else { 0 }
    }

    /// Counts one more at this moment, where not so many came at it.
    pub(crate) fn take(&mut self, moment: u64, most: u32) -> bool
        ensures taken { result ≡ nat_lt (came_at moment self.old) most }
        ensures after { let room = nat_lt (came_at moment self.old) most in
            self.new ≡ (if room then one_more moment self.old else self.old) }
    {
        let came = self.came_at(moment);
        if came >= most {
            return false;
        }
        self.moment = moment;
        self.count = came + 1;
        true
    }
}
