//! What the program answers of a circle.

ghost use Rattle.std.specs.Prelude.{◌≡◌};
ghost use Rattle.program_tasks.specs.Program.{answer_status};

/// Whether the least circle round a client is shut, or of all circles whether each is.
#[derive(Clone, Copy, Debug, PartialEq, Eq)]
pub enum CircleAnswer {
    Shut,
    Open,
}

impl CircleAnswer {
    /// The status that the program ends with: 0 where the circle is shut, and 3 where it is open.
    pub fn status(self) -> u8
        ensures { result ≡ answer_status self }
    {
        match self {
            CircleAnswer::Shut => 0,
            CircleAnswer::Open => 3,
        }
    }
}

/// What is asked of circles as text, with the answer.
#[derive(Drop)]
pub(crate) struct CircleTold {
    pub(crate) text: Vec<u8>,
    pub(crate) answer: CircleAnswer,
}
