//! The numbers that a tempo map may have.

ghost use Rattle.std.specs.Prelude.{◌≡◌};
ghost use Rattle.tempo_clock.specs.Entries.{is_tempo, is_ppq, is_smpte_rate};

/// The most ticks per quarter note: a division has 15 bits for them (Standard MIDI Files 1.0, "Header Chunks").
pub const MOST_PPQ: u32 = 32_767;

/// The slowest tempo, in microseconds per quarter note: an event has 24 bits for it (Standard MIDI Files 1.0, "Set
/// Tempo").
pub const MOST_TEMPO: u32 = 16_777_215;

/// Whether a number of ticks per quarter note fits a division.
pub fn is_ppq(ppq: u32) -> bool
    ensures { result ≡ is_ppq ppq }
{
    (1..=MOST_PPQ).contains(&ppq)
}

/// Whether a tempo is in range.
pub fn is_tempo(tempo: u32) -> bool
    ensures { result ≡ is_tempo tempo }
{
    (1..=MOST_TEMPO).contains(&tempo)
}

/// Whether a division by frames is one that a file can name, without drop-frame.
pub(crate) fn is_smpte_rate(frames: u8, per_frame: u8) -> bool
    ensures { result ≡ is_smpte_rate frames per_frame }
{
    matches!(frames, 24 | 25 | 30) && per_frame > 0
}
