//! What the texts mean.

ghost use Rattle.smf_text.specs.Laws.{LineForEach, SameWithoutPlaces, OnePlacedText};
ghost use Rattle.smf_text.specs.Rows.{NamedMetas, PlainMetas, QuotedMetas, KindsOfEvents, WholeFile, PlacedFile};

/// Whatever bytes a file has, what is printed of it is visible ASCII characters, spaces and line ends, with a line for
/// its header, for each track and for each event.
pub fn prints_lines()
    ensures { LineForEach }
{}

/// Where places are left out, the text is all that a file says; and a file has one text with places.
pub fn places_add_nothing_else()
    ensures same { SameWithoutPlaces }
    ensures one { OnePlacedText }
{}

/// What is printed of each type of meta events that has a name, of lengths that their types have not, of the bytes that
/// are escaped, of each kind of events, and of a whole file, without places and with them.
pub fn worked_texts()
    ensures named { NamedMetas }
    ensures plain { PlainMetas }
    ensures quoted { QuotedMetas }
    ensures events { KindsOfEvents }
    ensures file { WholeFile }
    ensures placed { PlacedFile }
{}
