//! What holds of the moment at which something is due next.

ghost use Rattle.seq_engine.specs.NextLaws.{NextLaw};

/// Before the moment at which something is due next nothing is due, at it something is sent, and once that is settled
/// what is due next is later.
pub fn nothing_before_next()
    ensures { NextLaw }
{}
