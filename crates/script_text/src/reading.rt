//! What a script says.

use memory::Items;
use node_table::ClientId;
use seq_state::Input;
use std::fmt;

/// Why a line is skipped, printed as a log has it, as in `past-end`.
#[derive(Clone, Copy, Debug, PartialEq, Eq)]
pub enum SkipReason {
    /// It has the form of no command.
    Unreadable,
    /// Its moment lies past the end of the run.
    PastEnd,
    /// Its moment is below that of an earlier line that was taken.
    Late,
    /// The script has too many bytes: none of its lines counts.
    TooLong,
}

impl fmt::Display for SkipReason {
    ghost use Rattle.std.specs.Prelude.{Some};
    ghost use Rattle.script_text.specs.Reasons.{reason_text};

    ghost output = { λ why. Some (reason_text why) };

    fn fmt<W: fmt::Write>(&self, f: &mut fmt::Formatter<W>) -> fmt::Result {
        f.write_str(match self {
            SkipReason::Unreadable => "unreadable",
            SkipReason::PastEnd => "past-end",
            SkipReason::Late => "late",
            SkipReason::TooLong => "too-long",
        })
    }
}

/// A line that is skipped.
#[derive(Clone, Copy, Debug, PartialEq, Eq)]
pub struct Skip {
    /// From 1; 0 for the whole script.
    pub line: u64,
    pub why: SkipReason,
}

/// A line that is an input.
#[derive(Drop)]
pub struct ScriptInput {
    /// From 1.
    pub line: u64,
    pub input: Input,
}

/// The reading of a client's script.
#[derive(Drop)]
pub struct ScriptRead {
    pub client: ClientId,
    pub inputs: Items<ScriptInput>,
    pub skips: Items<Skip>,
}
