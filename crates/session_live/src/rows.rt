//! What the definitions say of a few lines.

ghost use Rattle.session_live.specs.Rows.{LineForms, CircleForms, PartForms, LogForms, TextForms, RunForms};

/// Each kind of line, what of lines is a circle's, each part of an answer, what of a text is a client's, whole answers,
/// and the lines of two scripts as those of one session.
pub fn worked_lines()
    ensures lines { LineForms }
    ensures circles { CircleForms }
    ensures parts { PartForms }
    ensures logs { LogForms }
    ensures texts { TextForms }
    ensures runs { RunForms }
{}
