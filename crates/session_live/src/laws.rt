//! What holds of the answers, for all lines. These functions do nothing: their contracts are the
//! laws.

ghost use Rattle.session_live.specs.Laws.{TimedLaw, PlainLaw, AloneLaw, LinesLaw, TextLaw, BytesLaw, AgreeLinesLaw, ShutLinesLaw, RunLaw};

/// What is delivered and replied is what the plain run of the inputs delivers and replies:
/// settlings in between change nothing.
pub fn live_is_plain()
    ensures moments { TimedLaw }
    ensures log { PlainLaw }
{}

/// The owner of a circle is answered what it is answered where all that strangers say is but time
/// that passes.
pub fn live_alone()
    ensures items { AloneLaw }
    ensures lines { LinesLaw }
{}

/// The lines of the text that begin with a client's number are, without it, what the client's log
/// has of the answers.
pub fn text_of_client()
    ensures { TextLaw }
{}

/// From bytes to bytes: what stands in the answers for the owner of a closed circle is, but for the
/// outcomes at targets outside, what stands there where all that strangers say is but time that
/// passes; and it is the same for two lists of lines that are the same for the circle.
pub fn live_isolated()
    ensures alone { BytesLaw }
    ensures agree { AgreeLinesLaw }
{}

/// What stands in the answers for the owner of a shut circle is the same, but for the outcomes at
/// targets outside, whatever strangers say, where the lines are the same for the circle: its
/// members' lines, and how far time has passed before each of them that is skipped, and at the end.
pub fn live_shut()
    ensures { ShutLinesLaw }
{}

/// A session answers each client what the run of its scripts gives it as its log, but for the
/// skipped lines, which stand first in a log.
pub fn live_is_run()
    ensures { RunLaw }
{}
