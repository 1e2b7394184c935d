//! What holds of all sessions. These functions do nothing: their contracts are the laws.

ghost use Rattle.seq_session.specs.Laws.{MergeLaw, SortedLaw, TimedLaw, LogLaw, LaterEndLaw};

/// To merge the scripts of a circle is to keep of the merged list what its members say.
pub fn merges_of_a_circle()
    ensures { MergeLaw }
{}

/// The readings of scripts are sorted, as `merge` asks.
pub fn readings_are_sorted()
    ensures { SortedLaw }
{}

/// The inputs of a session are well-timed.
pub fn sessions_are_timed()
    ensures { TimedLaw }
{}

/// Isolation, from the bytes of scripts to the bytes of logs: where a circle is closed round the owner of a script, its
/// log is, but for the outcomes at targets outside, what it is in the session of the circle's scripts alone.
pub fn logs_alone()
    ensures { LogLaw }
{}

/// A later end of a session says no more, where no line stands between both ends and nothing is due there: all logs
/// are the same.
pub fn later_ends_say_no_more()
    ensures { LaterEndLaw }
{}
