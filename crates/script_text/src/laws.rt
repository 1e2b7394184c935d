//! What holds of all lines. This function does nothing: its contract is the law.

ghost use Rattle.script_text.specs.Laws.{FaultLaw};

/// A fault is told exactly of the lines that are unreadable.
pub fn unreadable_lines_have_faults()
    ensures { FaultLaw }
{}
