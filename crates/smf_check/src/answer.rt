//! What a check answers.

/// Whether each file that was checked is a Standard MIDI File.
#[derive(Clone, Copy, Debug, PartialEq, Eq)]
pub enum CheckAnswer {
    AllWhole,
    SomeNot,
}
