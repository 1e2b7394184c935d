//! What the definition of the listing says of a few clients.

ghost use Rattle.seq_patchbay.specs.Rows.{WorkedListing};

/// Clients, ports, filters and queues by number, and the subscriptions last: a line of each kind.
pub fn worked_listing()
    ensures { WorkedListing }
{}
