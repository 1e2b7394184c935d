//! The MIDI files of a folder: their names, their paths, what they hold, and how a path is told.
#![tactic(auto)]

mod contents;
mod escaped;
mod names;
mod path;
mod standing_text;

pub use contents::{MOST_READ, content_of};
pub use escaped::Escaped;
pub use names::{capital_files, midi_files};
pub use path::path_in;
pub use standing_text::unread_text;
