//! What the program's tools print, from a source of bytes to a sink.
#![tactic(auto)]

mod dump;
mod fault;
mod heading;
mod laws;
mod limits;
mod printing;
mod thru;
mod wire;

pub use dump::{dump_text, print_dump, push_head};
pub use fault::ToolFault;
pub use laws::{thru_prints_messages, worked_texts};
pub use printing::{Printer, flush, print_stream, send, spill};
pub use thru::thru_text;
pub use wire::wire_text;
