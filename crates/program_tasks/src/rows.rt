//! What the definitions say of a few messages.

ghost use Rattle.program_tasks.specs.Rows.{WorkedRecording};

/// Each message stands at the last tick that has come, not at the nearest or the next; what came to other ports, and a
/// message that has no place in a file, are left out.
pub fn worked_recording()
    ensures { WorkedRecording }
{}
