//! Standard MIDI Files 1.0 (RP-001): what bytes are a file, what is wrong with all others, and what a file says.
#![tactic(auto)]

mod chunk;
mod content;
mod event;
mod fault;
mod laws;
mod pair;
mod rows;

pub use chunk::{ChunkBytes, Header, MOST_BYTES, chunk_at, counts_frames, header_at, header_of};
pub use content::{fault_of_pair, tempo_in};
pub use event::Event;
pub use fault::{ChunkFault, PairFault, QuantityFault, SmfFault};
pub use laws::{events_in_order, faults_of_bytes, one_reading, reads_text, reads_written};
pub use pair::{EventBytes, PairBytes, pair_at, quantity};
pub use rows::worked_files;
