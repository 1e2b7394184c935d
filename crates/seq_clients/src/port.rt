//! What a port keeps of its stream.

ghost use Rattle.std.specs.Prelude.{◌≡◌, [], ◌++◌, length, IsOk, IfOk, OnOk, OnErr};
ghost use Rattle.midi_wire.specs.Parsing.{GainsPrefix};
ghost use Rattle.midi_wire.specs.Readings.{reading, rest};

use memory::OutOfMemory;
use midi_wire::{Message, StreamParser};
use std::alloc::Global;
use std::marker::Model;

/// The parser of a port's stream, which has not failed.
#[derive(Drop)]
pub(crate) struct PortStream {
    alloc: Global,
    parser: StreamParser,
}

impl Model for PortStream {
    ghost use Rattle.std.specs.Prelude.{◌≡◌, ℕ, List, false};
    ghost use Rattle.midi_wire.specs.Readings.{rest};

    ghost Value = { List ℕ };

    ghost view = { λ p. p.parser.rest };

    ghost invariant = { λ p. (p.parser.failed ≡ false) × (rest p.parser.rest ≡ p.parser.rest) };
}

impl PortStream {
    /// A port at the beginning of its stream.
    pub(crate) fn new(alloc: Global) -> PortStream
        ensures { result ≡ [] }
    {
        PortStream {
            alloc,
            parser: StreamParser::new(alloc),
        }
    }

    /// Takes the next piece of the stream, adds each message that is whole now to `out`, and answers their number.
    /// Running out of memory begins the stream anew.
    pub(crate) fn feed(
        &mut self,
        bytes: &[u8],
        out: &mut Vec<Message>,
    ) -> Result<usize, OutOfMemory>
        ensures fed { OnOk result (self.new ≡ rest (self.old ++ bytes.now)) }
        ensures told { let read = reading (self.old ++ bytes.now) in
            OnOk result (out.new.items ≡ out.old.items ++ read) }
        ensures number { IfOk result (λ n. n ≡ length (reading (self.old ++ bytes.now))) }
        ensures empty { bytes.now ≡ [] → IsOk result }
        ensures anew { OnErr result (self.new ≡ []) }
        ensures first { OnErr result
            (GainsPrefix out.old.items out.new.items (reading (self.old ++ bytes.now))) }
    {
        let parser = &mut self.parser;
        if bytes.is_empty() {
            return Ok(0);
        }
        match parser.feed(bytes, out) {
            Ok(count) => Ok(count),
            Err(_) => {
                *parser = StreamParser::new(self.alloc);
                Err(OutOfMemory)
            }
        }
    }
}
