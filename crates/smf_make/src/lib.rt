//! The Standard MIDI File that a text says (Standard MIDI Files 1.0): the other half of `smf_text`, which prints one.
#![tactic(auto)]

mod event_line;
mod fault;
mod file_lines;
mod laws;
mod make;
mod maker;
mod meta_types;
mod numbers;
mod quoting;
mod said_event;
mod stream;
mod unsaid;
mod words;
mod written_part;

pub use fault::{Expected, MakeFault};
pub use laws::{makes_printed, reads_made, says_read, worked_makes};
pub use make::make_file;
pub use maker::Maker;
pub use stream::{MOST_TEXT, make_text};

#[cfg(test)]
mod tests;
