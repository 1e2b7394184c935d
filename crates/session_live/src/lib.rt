//! What a sequencer answers to those who talk to it while it runs, line by line.
//!
//! `live_text` reads the lines and writes the answers. Its contract says that they are those of the whole lines,
//! however the text comes in pieces.
#![tactic(auto)]

mod answers;
mod cutting;
mod heard;
mod laws;
mod live;
mod open_line;
mod parts;
mod rows;
mod talk;

pub use heard::MOST_LINE;
pub use laws::{live_alone, live_is_plain, live_isolated, live_shut, text_of_client};
pub use live::live_text;
pub use rows::worked_lines;
