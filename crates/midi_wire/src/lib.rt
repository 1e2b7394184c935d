//! MIDI 1.0 messages as streams of bytes: read in any pieces, and written with running status.
//!
//! Follows the MIDI 1.0 Detailed Specification. `specs/Readings.antt` says what the messages of a stream are,
//! `specs/Writings.antt` what is written for messages, `specs/Laws.antt` how both fit together.
#![tactic(auto)]

mod fault;
mod kind;
mod message;
mod parser;
mod status;
mod writer;

ghost use Rattle.midi_wire.specs.Rows.{RunningStatus, RealTimeInside, EndedByAnother, EndedByTune, TuneEndsRunning, UnusedEndsRunning, StillMatters, RunningStatusWritten, WrittenBack, TwoStatusesWritten};
ghost use Rattle.midi_wire.specs.Laws.{TestsMessages, ReadsMessages, ReadsInTwo, RestsInTwo, ReadsInPieces, RestsInPieces, RestsAreShort, ReadsWritten, WritesInTwo, WritesOneMore};

pub use fault::WireFault;
pub use kind::Kind;
pub use message::{FullBytes, Message, ShortMessage};
pub use parser::StreamParser;
pub use status::{
    CHANNEL_PRESSURE, CHANNELS, CONTROL_CHANGE, END_OF_EXCLUSIVE, EXCLUSIVE, NOTE_OFF, NOTE_ON,
    PITCH_BEND, POLY_PRESSURE, PROGRAM_CHANGE, StatusClass, Width, is_exclusive_tail,
};
pub use writer::StreamWriter;

/// A list of bytes passes the test of a message exactly where it is one.
pub fn tests_messages()
    ensures { TestsMessages }
{}

/// What is read is messages.
pub fn reads_messages()
    ensures { ReadsMessages }
{}

/// A stream may be read in two goes.
pub fn reads_in_two()
    ensures { ReadsInTwo }
{}

/// What of a stream still matters is found in two goes.
pub fn rests_in_two()
    ensures { RestsInTwo }
{}

/// A stream may be read in any pieces, one after another.
pub fn reads_in_pieces()
    ensures messages { ReadsInPieces }
    ensures rests { RestsInPieces }
{}

/// What still matters of a stream is short, however long the stream is.
pub fn rests_are_short()
    ensures { RestsAreShort }
{}

/// What is written is read back.
pub fn reads_written()
    ensures { ReadsWritten }
{}

/// A list of messages may be written in two parts, or one by one.
pub fn writes_in_two()
    ensures parts { WritesInTwo }
    ensures one_more { WritesOneMore }
{}

/// What the definitions say of a few streams: running status, real time inside a message, cut exclusive messages.
pub fn worked_streams()
    ensures running { RunningStatus }
    ensures inside { RealTimeInside }
    ensures another { EndedByAnother }
    ensures tune { EndedByTune }
    ensures tune_ends { TuneEndsRunning }
    ensures unused_ends { UnusedEndsRunning }
    ensures matters { StillMatters }
    ensures running_written { RunningStatusWritten }
    ensures written_back { WrittenBack }
    ensures two_statuses { TwoStatusesWritten }
{}
