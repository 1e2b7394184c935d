//! Fates worked by hand from the definition.

ghost use Rattle.way_fates.specs.Rows.{WorkedFates};

/// What becomes of a few messages. The function does nothing: its contract is the rows.
pub fn worked_fates()
    ensures { WorkedFates }
{}
