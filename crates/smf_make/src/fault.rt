//! Why a text is no file.

use memory::OutOfMemory;
use std::alloc::AllocError;
use std::fmt;
use thiserror::Error;

/// What a line has to say.
#[derive(Clone, Copy, Debug, PartialEq, Eq)]
pub enum Expected {
    /// The format, the number of tracks and the division, of which a file can be made.
    Header,
    /// The number of the next track, counted from 0.
    Track(u16),
    /// An event of the track, at a tick not below this and at most 0FFFFFFF above it.
    Event { from: u64 },
    /// Nothing: all tracks have ended.
    End,
}

impl fmt::Display for Expected {
    ghost use Rattle.std.specs.Prelude.{Some};
    ghost use Rattle.smf_make.specs.Faults.{expected_text};

    ghost output = { λ x. Some (expected_text x) };

    fn fmt<W: fmt::Write>(&self, f: &mut fmt::Formatter<W>) -> fmt::Result {
        match self {
            Expected::Header => f.write_str("the header"),
            Expected::Track(track) => write!(f, "the line of track {track}"),
            Expected::Event { from } => write!(f, "an event from tick {from} on"),
            Expected::End => f.write_str("the end of the text"),
        }
    }
}

/// Why no file can be made of a text. Lines are counted from 1.
#[derive(Clone, Copy, Debug, Drop, PartialEq, Eq, Error)]
pub enum MakeFault {
    /// The first line that doesn't say what was expected, which may be the one after the last.
    Line { line: u64, expected: Expected },
    /// The line with which the file would have more than 16,777,216 bytes.
    TooLarge { line: u64 },
    /// A growth was refused.
    OutOfMemory,
    /// A read of the text failed.
    Read,
    /// The text has more than `MOST_TEXT` bytes.
    TooLong,
}

impl fmt::Display for MakeFault {
    ghost use Rattle.std.specs.Prelude.{Some};
    ghost use Rattle.smf_make.specs.Faults.{make_fault_text};

    ghost output = { λ x. Some (make_fault_text x) };

    fn fmt<W: fmt::Write>(&self, f: &mut fmt::Formatter<W>) -> fmt::Result {
        match self {
            MakeFault::Line { line, expected } => write!(f, "line {line}: expected {expected}"),
            MakeFault::TooLarge { line } => write!(f, "line {line}: the file is too large"),
            MakeFault::OutOfMemory => f.write_str("out of memory"),
            MakeFault::Read => f.write_str("a read failed"),
            MakeFault::TooLong => f.write_str("the text has more than 1073741824 bytes"),
        }
    }
}

impl From<OutOfMemory> for MakeFault {
    ghost use Rattle.std.specs.Prelude.{◌≡◌};
    ghost use Rattle.smf_make.specs.declared.fault.MakeFault.TheVariants.{OutOfMemory};

    ghost from_gives = { λ _ e. e ≡ OutOfMemory };

    fn from(_error: OutOfMemory) -> MakeFault {
        MakeFault::OutOfMemory
    }
}

impl From<AllocError> for MakeFault {
    ghost use Rattle.std.specs.Prelude.{◌≡◌};
    ghost use Rattle.smf_make.specs.declared.fault.MakeFault.TheVariants.{OutOfMemory};

    ghost from_gives = { λ _ e. e ≡ OutOfMemory };

    fn from(_error: AllocError) -> MakeFault {
        MakeFault::OutOfMemory
    }
}
