//! What was forgiven, in words.

use crate::forgiven::Forgiven;
use std::fmt;

/// What the lenient grammar takes and the strict one does not. It is printed as `running status` or `program change`.
#[derive(Clone, Copy, Debug, PartialEq, Eq)]
pub enum Lenience {
    /// A message of a channel leaves out its status behind a meta or an exclusive event.
    RunningStatus,
    /// The data byte of a program change has bit 7 set.
    ProgramChange,
}

impl fmt::Display for Lenience {
    ghost use Rattle.std.specs.Prelude.{Some};
    ghost use Rattle.smf_mend.specs.Told.{lenience_text};

    ghost output = { λ x. Some (lenience_text x) };

    fn fmt<W: fmt::Write>(&self, f: &mut fmt::Formatter<W>) -> fmt::Result {
        f.write_str(match self {
            Lenience::RunningStatus => "running status",
            Lenience::ProgramChange => "program change",
        })
    }
}

/// How many times something of a kind was forgiven, and where first: `forgiven 3 running status 6977`.
#[derive(Clone, Copy)]
pub struct ForgivenText(pub Lenience, pub Forgiven);

impl fmt::Display for ForgivenText {
    ghost use Rattle.std.specs.Prelude.{Some};
    ghost use Rattle.smf_mend.specs.Told.{forgiven_text};

    ghost output = { λ x. Some (forgiven_text x.0 x.1) };

    fn fmt<W: fmt::Write>(&self, f: &mut fmt::Formatter<W>) -> fmt::Result {
        let ForgivenText(kind, forgiven) = *self;
        let times = forgiven.times;
        let first = forgiven.first;
        write!(f, "forgiven {times} {kind} {first}")
    }
}
