//! What was forgiven of a file.

ghost use Rattle.std.specs.Prelude.{◌≡◌, ◌≤◌, ◌<◌, ◌+◌, ◌^◌};
ghost use Rattle.smf_mend.specs.Tallies.{times_of, with_place, with_places, IsBelow};
ghost use Rattle.smf_mend.specs.Forgiving.{forgives_status, forgives_data, place_if};

use crate::soft_pair::{begins_with_data, event_left, has_high_data};

/// What was forgiven of a kind: how many times, and the place of the first.
#[derive(Clone, Copy, Debug, PartialEq, Eq)]
pub struct Forgiven {
    pub times: u64,
    /// Where the delta time of the first pair stands of which it was forgiven, counted in bytes from 0.
    pub first: u64,
}

/// The bytes of a strict file, and what was forgiven of those that it was made of.
#[derive(Drop)]
pub struct Mended {
    pub bytes: Vec<u8>,
    /// Messages that left out their status behind a meta or an exclusive event.
    pub running_status: Option<Forgiven>,
    /// Program changes whose data byte had bit 7 set.
    pub high_data: Option<Forgiven>,
}

/// What was forgiven so far.
#[derive(Clone, Copy)]
pub(crate) struct Tally {
    pub running_status: Option<Forgiven>,
    pub high_data: Option<Forgiven>,
}

/// What was forgiven of a kind, with one more place.
fn with_place(forgiven: Option<Forgiven>, place: u64) -> Option<Forgiven>
    requires { times_of forgiven < 2 ^ 63 }
    ensures value { result ≡ with_place forgiven place }
    ensures few { times_of result ≤ times_of forgiven + 1 }
{
    match forgiven {
        None => Some(Forgiven {
            times: 1,
            first: place,
        }),
        Some(before) => Some(Forgiven {
            times: before.times + 1,
            first: before.first,
        }),
    }
}

/// The same where something is forgiven there.
fn with_place_if(forgiven: Option<Forgiven>, is_there: bool, place: u64) -> Option<Forgiven>
    requires { times_of forgiven < 2 ^ 63 }
    ensures value { result ≡ with_places forgiven (place_if is_there place) }
    ensures few { times_of result ≤ times_of forgiven + 1 }
{
    if is_there {
        return with_place(forgiven, place);
    }
    forgiven
}

impl Tally {
    /// Adds what is forgiven of the pair that stands first, at this place of the file, where this is the running status
    /// of the strict grammar.
    pub(crate) fn forgive(&mut self, strict: Option<u8>, left: &[u8], place: u64)
        requires near { place < 2 ^ 62 }
        requires few { IsBelow self.old place }
        ensures few { IsBelow self.new (place + 1) }
        ensures status { self.new.running_status
            ≡ with_places self.old.running_status (place_if (forgives_status strict left.now) place) }
        ensures data_bytes { self.new.high_data
            ≡ with_places self.old.high_data (place_if (forgives_data strict left.now) place) }
    {
        let event = event_left(left);
        let has_no_status = strict.is_none() && begins_with_data(event);
        self.running_status = with_place_if(self.running_status, has_no_status, place);
        self.high_data = with_place_if(self.high_data, has_high_data(event), place);
    }
}
