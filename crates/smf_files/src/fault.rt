//! Why events and tracks cannot be written as a file.

use memory::OutOfMemory;
use std::alloc::AllocError;
use std::fmt;
use thiserror::Error;

/// What keeps events from being written as a file of format 0.
#[derive(Clone, Copy, Debug, Drop, PartialEq, Eq, Error)]
pub enum WriteFault {
    /// Ticks per quarter note that are 0 or above 32,767.
    BadPpq,
    /// A tempo that is 0 or above 16,777,215 microseconds per quarter note.
    BadTempo,
    /// The first event whose tick is below the one before it or more than 0FFFFFFF above it, or whose message is system
    /// common or real time.
    BadEvent { index: usize },
    /// The file would have more than 16,777,216 bytes.
    TooLarge,
    /// A growth was refused.
    OutOfMemory,
}

impl fmt::Display for WriteFault {
    ghost use Rattle.std.specs.Prelude.{Some};
    ghost use Rattle.smf_files.specs.Faults.{write_fault_text};

    ghost output = { λ x. Some (write_fault_text x) };

    fn fmt<W: fmt::Write>(&self, f: &mut fmt::Formatter<W>) -> fmt::Result {
        match self {
            WriteFault::BadPpq => f.write_str("the ticks per quarter note are out of range"),
            WriteFault::BadTempo => f.write_str("the tempo is out of range"),
            WriteFault::BadEvent { index } => write!(f, "event {index} can't be written"),
            WriteFault::TooLarge => f.write_str("the file is too large"),
            WriteFault::OutOfMemory => f.write_str("out of memory"),
        }
    }
}

impl From<OutOfMemory> for WriteFault {
    ghost use Rattle.std.specs.Prelude.{◌≡◌};
    ghost use Rattle.smf_files.specs.declared.fault.WriteFault.TheVariants.{OutOfMemory};

    ghost from_gives = { λ _ e. e ≡ OutOfMemory };

    fn from(_error: OutOfMemory) -> WriteFault {
        WriteFault::OutOfMemory
    }
}

impl From<AllocError> for WriteFault {
    ghost use Rattle.std.specs.Prelude.{◌≡◌};
    ghost use Rattle.smf_files.specs.declared.fault.WriteFault.TheVariants.{OutOfMemory};

    ghost from_gives = { λ _ e. e ≡ OutOfMemory };

    fn from(_error: AllocError) -> WriteFault {
        WriteFault::OutOfMemory
    }
}

/// What keeps tracks from being written as a file. Tracks and the pairs of each are counted from 0.
#[derive(Clone, Copy, Debug, Drop, PartialEq, Eq, Error)]
pub enum TracksFault {
    /// Another format than 0 and 1.
    BadFormat,
    /// Another number of tracks than one in format 0, than 1 to 65,535 in format 1.
    BadTrackCount,
    /// A division of 0, or by frames at another rate than 24, 25 and 30 or with no ticks.
    BadDivision,
    /// A pair whose delta time or length is above 0FFFFFFF, or that is no whole message of a channel.
    BadPair { track: usize, pair: usize },
    /// A pair that ends its track, though others follow.
    EarlyEnd { track: usize, pair: usize },
    /// A track that no pair ends.
    NoEnd { track: usize },
    /// The file would have more than 16,777,216 bytes.
    TooLarge,
    /// A growth was refused.
    OutOfMemory,
}

impl fmt::Display for TracksFault {
    ghost use Rattle.std.specs.Prelude.{Some};
    ghost use Rattle.smf_files.specs.Faults.{tracks_fault_text};

    ghost output = { λ x. Some (tracks_fault_text x) };

    fn fmt<W: fmt::Write>(&self, f: &mut fmt::Formatter<W>) -> fmt::Result {
        match self {
            TracksFault::BadFormat => f.write_str("the format is neither 0 nor 1"),
            TracksFault::BadTrackCount => f.write_str("the format has another number of tracks"),
            TracksFault::BadDivision => f.write_str("no file has this division"),
            TracksFault::BadPair { track, pair } => {
                write!(f, "pair {pair} of track {track} can't be written")
            }
            TracksFault::EarlyEnd { track, pair } => {
                write!(f, "pair {pair} of track {track} ends it too early")
            }
            TracksFault::NoEnd { track } => write!(f, "track {track} has no end"),
            TracksFault::TooLarge => f.write_str("the file is too large"),
            TracksFault::OutOfMemory => f.write_str("out of memory"),
        }
    }
}

impl From<OutOfMemory> for TracksFault {
    ghost use Rattle.std.specs.Prelude.{◌≡◌};
    ghost use Rattle.smf_files.specs.declared.fault.TracksFault.TheVariants.{OutOfMemory};

    ghost from_gives = { λ _ e. e ≡ OutOfMemory };

    fn from(_error: OutOfMemory) -> TracksFault {
        TracksFault::OutOfMemory
    }
}
