//! Worked lines.

ghost use Rattle.session_fates.specs.Rows.{WorkedLines};

/// Lines of ways, worked out by hand.
pub fn worked_lines()
    ensures { WorkedLines }
{}
