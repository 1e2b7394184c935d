//! What the texts of files mean.

ghost use Rattle.smf_make.specs.Laws.{ReadsMade, MakesPrinted, SaysRead};
ghost use Rattle.smf_make.specs.Rows.{NamedMetasRead, PlainMetasRead, QuotedMetasRead, EventsRead, PassedOverLines, MakeFaults, WholeFilesRead};

/// The file that a text says can be written, and the bytes that are written are just this file.
pub fn reads_made()
    ensures { ReadsMade }
{}

/// What is printed of a file that can be written says that file.
pub fn makes_printed()
    ensures { MakesPrinted }
{}

/// What is printed of a file that was read says that file, which is written in no more bytes than it had: all that
/// `smf_text` prints is read back here.
pub fn says_read()
    ensures { SaysRead }
{}

/// What is read of each type of meta events that has a name, of types by their number, of bytes between quotation
/// marks, of each kind of events, and of lines that are passed over; each fault; and a whole file.
pub fn worked_makes()
    ensures named { NamedMetasRead }
    ensures plain { PlainMetasRead }
    ensures quoted { QuotedMetasRead }
    ensures events { EventsRead }
    ensures passed { PassedOverLines }
    ensures faults { MakeFaults }
    ensures files { WholeFilesRead }
{}
