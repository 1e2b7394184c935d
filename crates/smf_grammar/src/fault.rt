//! What can be wrong with a file.

ghost use Rattle.std.specs.Prelude.{◌≡◌};

use std::fmt;
use thiserror::Error;

/// Why no quantity stands first.
#[derive(Clone, Copy, Debug, Drop, PartialEq, Eq, Error)]
pub enum QuantityFault {
    /// The bytes end before a byte with bit 7 clear.
    Short,
    /// Four bytes have bit 7 set.
    Long,
}

impl fmt::Display for QuantityFault {
    ghost use Rattle.std.specs.Prelude.{Some};
    ghost use Rattle.smf_grammar.specs.Faults.{quantity_fault_text};

    ghost output = { λ x. Some (quantity_fault_text x) };

    fn fmt<W: fmt::Write>(&self, f: &mut fmt::Formatter<W>) -> fmt::Result {
        f.write_str(match self {
            QuantityFault::Short => "the quantity is cut",
            QuantityFault::Long => "the quantity has more than four bytes",
        })
    }
}

/// Why no pair of a delta time and an event stands first in what is left of a track.
#[derive(Clone, Copy, Debug, Drop, PartialEq, Eq, Error)]
pub enum PairFault {
    /// Nothing is left, and no event ended the track.
    NoPair,
    /// The content ends inside the pair.
    Truncated,
    LongQuantity,
    /// A data byte, and no running status.
    NoStatus,
    /// F1 to F6 or F8 to FE in the place of a status.
    BadStatus,
    /// A status in the place of a data byte.
    BadData,
}

impl fmt::Display for PairFault {
    ghost use Rattle.std.specs.Prelude.{Some};
    ghost use Rattle.smf_grammar.specs.Faults.{pair_fault_text};

    ghost output = { λ x. Some (pair_fault_text x) };

    fn fmt<W: fmt::Write>(&self, f: &mut fmt::Formatter<W>) -> fmt::Result {
        f.write_str(match self {
            PairFault::NoPair => "no end of track",
            PairFault::Truncated => "the event is cut",
            PairFault::LongQuantity => "a quantity has more than four bytes",
            PairFault::NoStatus => "no running status",
            PairFault::BadStatus => "no status of a file",
            PairFault::BadData => "no data byte",
        })
    }
}

/// Why no chunk stands first in what is left of a file.
#[derive(Clone, Copy, Debug, Drop, PartialEq, Eq, Error)]
pub enum ChunkFault {
    /// Fewer than eight bytes are left.
    Missing,
    /// Its content is longer than what is left.
    Cut,
}

impl fmt::Display for ChunkFault {
    ghost use Rattle.std.specs.Prelude.{Some};
    ghost use Rattle.smf_grammar.specs.Faults.{chunk_fault_text};

    ghost output = { λ x. Some (chunk_fault_text x) };

    fn fmt<W: fmt::Write>(&self, f: &mut fmt::Formatter<W>) -> fmt::Result {
        f.write_str(match self {
            ChunkFault::Missing => "no chunk",
            ChunkFault::Cut => "the chunk is cut",
        })
    }
}

/// Why bytes are no Standard MIDI File that can be read. Printed, it is its number and its name, then its place or
/// track, if it has one.
#[derive(Clone, Copy, Debug, Drop, PartialEq, Eq)]
pub enum SmfFault {
    /// The first four bytes are not `MThd`.
    NotMidi,
    /// The header ends before its length, is shorter than 6, or is cut.
    ShortHeader,
    UnknownFormat,
    /// Patterns without one time line.
    Format2,
    /// Format 0 with another number of tracks than one, or format 1 with none.
    BadTrackCount,
    ZeroDivision,
    /// A number of frames per second other than 24, 25, 29 and 30.
    SmpteDivision,
    /// 29 frames per second, of which some are left out.
    DropFrame,
    /// Fewer than eight bytes are left, and tracks are missing.
    TrackMissing,
    /// A chunk, or a pair within a track, is cut. `at` is the chunk's first byte, or that of the delta time.
    Truncated { at: u64 },
    LongQuantity { at: u64 },
    /// A data byte where no running status is in force.
    NoStatus { at: u64 },
    /// F1 to F6 or F8 to FE in the place of a status.
    BadStatus { at: u64 },
    /// A status in the place of a data byte.
    BadData { at: u64 },
    /// The track's content ends and no event ended the track. Tracks are counted from 0.
    NoEndOfTrack { track: u64 },
    /// More than 16,777,216 bytes.
    TooLarge,
    OutOfMemory,
}

impl SmfFault {
    ghost use Rattle.smf_grammar.specs.Faults.{fault_number, fault_name, fault_place};

    /// Its number, 1 to 17.
    pub fn number(&self) -> u8
        ensures { result ≡ fault_number self.now }
    {
        match self {
            SmfFault::NotMidi => 1,
            SmfFault::ShortHeader => 2,
            SmfFault::UnknownFormat => 3,
            SmfFault::Format2 => 4,
            SmfFault::BadTrackCount => 5,
            SmfFault::ZeroDivision => 6,
            SmfFault::SmpteDivision => 7,
            SmfFault::DropFrame => 8,
            SmfFault::TrackMissing => 9,
            SmfFault::Truncated { .. } => 10,
            SmfFault::LongQuantity { .. } => 11,
            SmfFault::NoStatus { .. } => 12,
            SmfFault::BadStatus { .. } => 13,
            SmfFault::BadData { .. } => 14,
            SmfFault::NoEndOfTrack { .. } => 15,
            SmfFault::TooLarge => 16,
            SmfFault::OutOfMemory => 17,
        }
    }

    /// Its name, as it is printed.
    pub fn name(&self) -> &'static str
        ensures { result.now ≡ fault_name self.now }
    {
        match self {
            SmfFault::NotMidi => "NotMidi",
            SmfFault::ShortHeader => "ShortHeader",
            SmfFault::UnknownFormat => "UnknownFormat",
            SmfFault::Format2 => "Format2",
            SmfFault::BadTrackCount => "BadTrackCount",
            SmfFault::ZeroDivision => "ZeroDivision",
            SmfFault::SmpteDivision => "SmpteDivision",
            SmfFault::DropFrame => "DropFrame",
            SmfFault::TrackMissing => "TrackMissing",
            SmfFault::Truncated { .. } => "Truncated",
            SmfFault::LongQuantity { .. } => "LongQuantity",
            SmfFault::NoStatus { .. } => "NoStatus",
            SmfFault::BadStatus { .. } => "BadStatus",
            SmfFault::BadData { .. } => "BadData",
            SmfFault::NoEndOfTrack { .. } => "NoEndOfTrack",
            SmfFault::TooLarge => "TooLarge",
            SmfFault::OutOfMemory => "OutOfMemory",
        }
    }

    /// Its place in the file, or the number of the track that has no end.
    pub fn place(&self) -> Option<u64>
        ensures { result ≡ fault_place self.now }
    {
        match self {
            SmfFault::Truncated { at }
            | SmfFault::LongQuantity { at }
            | SmfFault::NoStatus { at }
            | SmfFault::BadStatus { at }
            | SmfFault::BadData { at } => Some(*at),
            SmfFault::NoEndOfTrack { track } => Some(*track),
            _ => None,
        }
    }
}

impl fmt::Display for SmfFault {
    ghost use Rattle.std.specs.Prelude.{Some};
    ghost use Rattle.smf_grammar.specs.Faults.{fault_text};

    ghost output = { λ x. Some (fault_text x) };

    fn fmt<W: fmt::Write>(&self, f: &mut fmt::Formatter<W>) -> fmt::Result {
        let number = self.number();
        let name = self.name();
        match self.place() {
            Some(place) => write!(f, "{number} {name} {place}"),
            None => write!(f, "{number} {name}"),
        }
    }
}

impl std::error::Error for SmfFault {}
