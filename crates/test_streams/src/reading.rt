//! A stream in two pieces.

ghost use Rattle.std.specs.Prelude.{◌≡◌, ◌++◌, IfOk, IfErr};
ghost use Rattle.midi_wire.specs.Readings.{reading};

use midi_wire::{Message, StreamParser, WireFault, reads_in_two};
use std::alloc::Global;

/// The messages of a stream that is fed to a parser in two pieces.
pub fn read_in_two(alloc: Global, front: &[u8], back: &[u8]) -> Result<Vec<Message>, WireFault>
    ensures messages { IfOk result (λ ms. ms.items ≡ reading (front.now ++ back.now)) }
    ensures only { IfErr result (λ e. e ≡ WireFault.OutOfMemory) }
{
    reads_in_two();
    let mut parser = StreamParser::new(alloc);
    let mut messages = Vec::new(alloc);
    parser.feed(front, &mut messages)?;
    parser.feed(back, &mut messages)?;
    Ok(messages)
}
