//! Standard MIDI Files 1.0 (RP-001), read from lent bytes, and written: events as format 0, tracks as they are.
#![tactic(auto)]

mod cursor;
mod entries;
mod fault;
mod file;
mod heads;
mod place;
mod playable;
mod track;
mod tracks;
mod write;

pub use cursor::Cursor;
pub use fault::{TracksFault, WriteFault};
pub use file::SmfFile;
pub use memory::OutOfMemory;
pub use smf_grammar::{Event, EventBytes, PairBytes, QuantityFault, SmfFault, quantity};
pub use tempo_clock::{TempoEntry, TempoMap};
pub use tracks::{push_event, write_tracks};
pub use write::{push_chunk_header, push_quantity, push_u16, stands_in_files, write_format0};
