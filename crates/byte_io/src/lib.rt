//! Sources and sinks of bytes.
//!
//! A device is seen as a relation to the bytes that it has left or has taken, and as a mark that
//! `has_failed` answers, which is not set at first. `Ok(n)` moves the first `n` bytes; a source
//! that is not empty gives a buffer with room one byte or more. `Err` moves no byte and sets the
//! mark, which nothing else does, and a marked device answers nothing but `Err`.
//!
//! The devices over memory say exactly what each call does, and can be told to fail at one call.
//! The devices over a reader or a writer of the standard library keep the one that they were given,
//! and move what it gives or takes, where its own contract says that. Of a file or a
//! terminal nothing is known but what the calls say, since no contract can say what it holds.
#![tactic(auto)]

mod fault;
mod mem_sink;
mod mem_source;
mod sink;
mod source;
mod std_sink;
mod std_source;
mod transfer;

pub use fault::{DeviceFault, SinkFault};
pub use mem_sink::MemSink;
pub use mem_source::MemSource;
pub use memory::OutOfMemory;
pub use sink::Sink;
pub use source::Source;
pub use std_sink::StdSink;
pub use std_source::StdSource;
pub use transfer::{read_to, write_all};
