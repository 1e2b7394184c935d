//! Scripts: a line of text to an input, a text to its inputs and the lines that are skipped, and why a line is
//! unreadable.
#![tactic(auto)]

mod address;
mod command;
mod laws;
mod line;
mod line_faults;
mod line_form;
mod line_slices;
mod live_lines;
mod message_words;
mod number;
mod reading;
mod rows;
mod said_message;
mod script;
mod unread;
mod word_kind;
mod words;

pub use address::hex_byte;
pub use laws::unreadable_lines_have_faults;
pub use line::without_return;
pub use line_faults::{LineFault, line_fault};
pub use line_slices::lines_of;
pub use live_lines::{LiveLine, live_line};
pub use number::{client_of, number_of, port_of, up_to};
pub use reading::{ScriptInput, ScriptRead, Skip, SkipReason};
pub use rows::{worked_faults, worked_scripts};
pub use said_message::message_of;
pub use script::{MOST_FILES, MOST_SCRIPT, parse_script};
pub use word_kind::WordKind;
pub use words::{is_blank, word_len};
