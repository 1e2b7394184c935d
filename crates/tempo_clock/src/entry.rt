//! Entries of a tempo map.

/// A tempo, and the tick from which it holds until the next entry's.
#[derive(Clone, Copy, Debug, PartialEq, Eq)]
pub struct TempoEntry {
    /// Ticks from the start.
    pub tick: u64,
    /// Microseconds per quarter note, as in the Set Tempo event of a Standard MIDI File (FF 51).
    pub tempo: u32,
}
