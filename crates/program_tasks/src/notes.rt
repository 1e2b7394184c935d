//! What the program tells its user beside what it prints.

ghost use Rattle.std.specs.Prelude.{◌++◌, ◌∷◌, [], IfSome};
ghost use Rattle.byte_io.specs.Moved.{Took};

use std::fmt::Display;

/// Lines that a program tells its user beside what it prints, as on standard error.
///
/// A line that cannot be told is lost, since there is nobody else to tell.
pub trait Notes {
    ghost use Rattle.std.specs.Prelude.{ℕ, List};

    /// These bytes were told. Of standard error it is known only what each call has added.
    ghost HasTold: { Self → List ℕ → Type 0 };

    /// Tells a line.
    fn tell<D: Display + Drop>(&mut self, line: D)
        ensures { IfSome (D.output line) (λ text.
            Took HasTold self.old (text ++ 10 ∷ []) self.new) };
}

/// Standard error, by the runtime that reaches it. What it shows nobody can prove.
#[derive(Drop)]
pub struct StandardError<'r, R: Eprint> {
    rt: &'r R,
}

impl<'r, R: Eprint> StandardError<'r, R> {
    pub fn new(rt: &'r R) -> Self {
        StandardError { rt }
    }
}

impl<'r, R: Eprint> Notes for StandardError<'r, R> {
    ghost HasTold = { λ _ _. Unit {0} };

    fn tell<D: Display + Drop>(&mut self, line: D) {
        let _ = self.rt.eprintln(line);
    }
}
