//! Notes worked by hand from the definition.

ghost use Rattle.sounding_notes.specs.Rows.{WorkedNotes};

/// What sounds after a few messages. The function does nothing: its contract is the rows.
pub fn worked_notes()
    ensures { WorkedNotes }
{}
