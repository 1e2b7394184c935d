//! The logs of clients as JSON Lines (RFC 8259, an object on each line) and as CSV (RFC 4180).
//!
//! `specs/Entries.antt` says what a line of a log is read as, `specs/Json.antt` and `specs/Csv.antt` how that is
//! written, and `specs/Laws.antt` what it comes to for the lines that a run writes.
#![tactic(auto)]

mod csv;
mod entry;
mod form;
mod hex_text;
mod json;
mod kind;
mod laws;
mod line;
mod pieces;
mod rows;
#[cfg(test)]
mod tests;
mod word;

pub use form::{LogForm, push_head, push_listing, push_log};
pub use laws::{fields_are_kept, messages_are_bytes, written_in_pieces};
pub use rows::{worked_csv, worked_json, worked_lines, worked_others};
