//! What the texts mean.

ghost use Rattle.tool_text.specs.Rows.{WorkedTexts};
ghost use Rattle.tool_text.specs.Thru.{ThruLaw};

/// What `thru_text` prints, the deliveries of a run of the sequencer, is a line for each message of the stream.
pub fn thru_prints_messages()
    ensures { ThruLaw }
{}

/// What `thru` and `wire` print of a note, and of two with running status and a clock between them.
pub fn worked_texts()
    ensures { WorkedTexts }
{}
