//! All that a Standard MIDI File says, as text.
#![tactic(auto)]

mod dump_all;
mod laws;
mod lines;
mod meta;
mod numbers;
mod quoting;
mod walk;
mod words;

pub use dump_all::{dump_all_text, dump_places_text, print_all};
pub use laws::{places_add_nothing_else, prints_lines, worked_texts};
