//! What a node has beside its name and its capabilities.

ghost use Rattle.std.specs.Prelude.{◌≡◌, [], ◌++◌, true, length, IsOk, IfOk, OnOk, OnErr};
ghost use Rattle.std.specs.Option.{option_copied};
ghost use Rattle.midi_wire.specs.Parsing.{GainsPrefix};
ghost use Rattle.midi_wire.specs.Readings.{reading, rest};

use crate::port::PortStream;
use memory::OutOfMemory;
use midi_wire::Message;
use route_filter::Rule;

/// What a node has beside its name and its capabilities.
#[derive(Drop)]
pub(crate) enum NodeBody {
    /// Of a port.
    Stream(PortStream),
    /// Of a filter.
    Rule(Rule),
}

impl NodeBody {
    ghost use Rattle.seq_clients.specs.Bodies.{is_stream, stream_of, rule_in};

    /// The rule of a filter.
    #[inline]
    pub(crate) fn rule(&self) -> Option<&Rule>
        ensures { option_copied result ≡ rule_in self.now }
    {
        match self {
            NodeBody::Stream(_) => None,
            NodeBody::Rule(rule) => Some(rule),
        }
    }

    /// Feeds the stream of a port, as `PortStream::feed` does.
    pub(crate) fn feed(
        &mut self,
        bytes: &[u8],
        out: &mut Vec<Message>,
    ) -> Result<usize, OutOfMemory>
        requires { is_stream self.old ≡ true }
        ensures stays { is_stream self.new ≡ true }
        ensures fed { OnOk result (stream_of self.new ≡ rest (stream_of self.old ++ bytes.now)) }
        ensures told { let read = reading (stream_of self.old ++ bytes.now) in
            OnOk result (out.new.items ≡ out.old.items ++ read) }
        ensures number { let read = reading (stream_of self.old ++ bytes.now) in
            IfOk result (λ n. n ≡ length read) }
        ensures empty { bytes.now ≡ [] → IsOk result }
        ensures anew { OnErr result (stream_of self.new ≡ []) }
        ensures first { let read = reading (stream_of self.old ++ bytes.now) in
            OnErr result (GainsPrefix out.old.items out.new.items read) }
    {
        match self {
            NodeBody::Stream(stream) => stream.feed(bytes, out),
            NodeBody::Rule(_) => unreachable!(),
        }
    }
}
