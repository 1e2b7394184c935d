//! Scripts and their logs. These functions do nothing: their contracts are the logs.

ghost use Rattle.test_sessions.specs.Rows.{Overflow, Clocked, Tied, Played};

/// A pool of two takes two of three notes; what is received stands below its reply.
pub fn overflow_session()
    ensures { Overflow }
{}

/// A queue is asked what it shows, and the pools how full they are.
pub fn clocked_session()
    ensures { Clocked }
{}

/// Two clients each schedule a note for one moment, the one with the greater number first. Scripts are merged by moment
/// before they are by client, so its note comes first.
pub fn tied_session()
    ensures { Tied }
{}

/// A file is named by its name, and played.
pub fn played_session()
    ensures { Played }
{}
