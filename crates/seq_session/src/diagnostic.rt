//! What there is to say of a line of a script that did nothing.

use crate::about::About;
use node_table::ClientId;
use script_text::{LineFault, SkipReason};
use seq_state::Refusal;

/// Why a line did nothing.
#[derive(Clone, Copy, Debug, PartialEq, Eq)]
pub enum Cause {
    /// It is skipped, since this word is wrong.
    Unreadable(LineFault),
    /// It is skipped for another reason.
    Skipped(SkipReason),
    /// Its command was refused, and this is what that is about.
    Refused(Refusal, About),
}

/// A line of a client's script that did nothing.
#[derive(Clone, Copy, Debug, PartialEq, Eq)]
pub struct Diagnostic {
    pub client: ClientId,
    /// From 1; 0 for the whole script.
    pub line: u64,
    pub cause: Cause,
}
