//! What the definition means. The functions do nothing: their contracts are the laws.

ghost use Rattle.way_fates.specs.Laws.{FatesAreCopies, StopsAreTrue};

/// The messages that arrive or are lost are the copies that are sent, in order, and those that arrive are the copies
/// that find room.
pub fn fates_are_copies()
    ensures { FatesAreCopies }
{}

/// Where a filter stops a message, it fails the test that is told, as it comes there, and none before it.
pub fn stops_are_true()
    ensures { StopsAreTrue }
{}
