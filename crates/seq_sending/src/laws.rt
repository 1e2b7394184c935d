//! Copies that find no room need not be told one from another. All copies of a message are of one moment. These
//! functions do nothing: their contracts are the laws.

ghost use Rattle.seq_sending.specs.Laws.{EachPoolLaw, FirstLaw, LossesLaw, CutLaw, OnwardLaw, CountLaw, ClassLaw};

/// What copies of one moment do to a pool hangs on those for its client alone: the first that find room are taken, and
/// the others are counted.
pub fn each_pool_alone()
    ensures pools { EachPoolLaw }
    ensures first { FirstLaw }
{}

/// The lost copies may be counted first, by their number, and those that find room offered then.
pub fn losses_come_first()
    ensures { LossesLaw }
{}

/// Where nothing of some copies finds room, nothing does later at their moment.
pub fn cuts_stay()
    ensures { CutLaw }
{}

/// A walk that offers only what finds room goes on at its moment as one that offers all.
pub fn onward_from_kept()
    ensures { OnwardLaw }
{}

/// How many copies are for a client is found by counting.
pub fn copies_are_counted()
    ensures { CountLaw }
{}

/// As many copies come of a message for each client as of another of its class.
pub fn one_class_goes_the_same_ways()
    ensures { ClassLaw }
{}
