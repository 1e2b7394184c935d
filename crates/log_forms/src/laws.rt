//! What holds of all logs. The functions do nothing: their contracts are the laws.

ghost use Rattle.log_forms.specs.Laws.{WrittenInPieces, FieldsAreKept, MessagesAreBytes};

/// A log that is written in pieces of whole lines is the log that is written at once.
pub fn written_in_pieces()
    ensures { WrittenInPieces }
{}

/// The fields of each line are the numbers, the bytes and the words that the line was made of.
pub fn fields_are_kept()
    ensures { FieldsAreKept }
{}

/// A message is one byte or more, so that the fields of its line are kept.
pub fn messages_are_bytes()
    ensures { MessagesAreBytes }
{}
