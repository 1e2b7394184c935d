//! What the program answers of a run.

ghost use Rattle.std.specs.Prelude.{◌≡◌};
ghost use Rattle.program_tasks.specs.Program.{run_status};

/// Whether a run did all that its scripts say: it skipped no line, refused no command, lost no message and left out no
/// file. A recording is incomplete, too, where a port of it was never there.
#[derive(Clone, Copy, Debug, PartialEq, Eq)]
pub enum RunAnswer {
    Complete,
    Incomplete,
}

impl RunAnswer {
    /// The status that the program ends with where it was asked to be strict: 0 where the run is complete, and else 3.
    pub fn status(self) -> u8
        ensures { result ≡ run_status self }
    {
        match self {
            RunAnswer::Complete => 0,
            RunAnswer::Incomplete => 3,
        }
    }
}
