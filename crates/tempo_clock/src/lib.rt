//! Tempo maps and the clocks of queues, exact to the nanosecond.
#![tactic(auto)]

mod added;
mod clock;
mod due;
mod entry;
mod fault;
mod laws;
mod range;
mod search;
mod segment;
mod tempo_map;
mod tempo_table;

pub use clock::QueueClock;
pub use due::Due;
pub use entry::TempoEntry;
pub use fault::MapFault;
pub use laws::{
    clocks_follow_moments, moments_are_found, moments_rise, tempo_changes_what_is_to_come,
    ticks_are_found, ticks_come_back, ticks_come_in_order, worked_ticks,
};
pub use memory::OutOfMemory;
pub use range::{MOST_PPQ, MOST_TEMPO, is_ppq, is_tempo};
pub use tempo_map::TempoMap;
pub use tempo_table::TempoTable;
