//! Why a message did not come: what becomes of it on each way from a port, as a session stands at a moment, as text.
//!
//! `session_fates` runs the scripts up to the moment and asks then. Nothing is sent.
#![tactic(auto)]

mod asking;
mod phrases;
mod rows;
mod text;

pub use asking::{SessionFates, session_fates};
pub use rows::worked_lines;
pub use text::{MOST_TOLD, fates_text};
