//! Texts that the program's tools print, the circles of sessions, and what the program does with its words, through
//! the public calls of `tool_text`, `session_circle` and `program_tasks`. Nothing stands on this crate, so that its
//! tests and those crates are proved side by side.
#![tactic(auto)]

#[cfg(test)]
mod tests;
mod texts;

pub use texts::printed;
