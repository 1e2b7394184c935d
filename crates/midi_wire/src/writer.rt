//! Messages as one stream, with running status.

ghost use Rattle.std.specs.Prelude.{◌≡◌, [], ◌∷◌, ◌++◌, ◌+◌, ◌<◌, length, vec_len, vec_capacity, None, OnOk, OnErr};
ghost use Rattle.midi_wire.specs.Messages.{IsMessage};
ghost use Rattle.midi_wire.specs.Writings.{written_after, status_after};

use crate::message::Message;
use crate::status::StatusClass;
use memory::OutOfMemory;
use std::marker::Model;

/// Writes messages as one stream, seen as the channel status that is in force, or none.
///
/// Each channel message leaves out its status where it repeats the last one ("Running Status"). Real time messages
/// leave the status in force, system common and exclusive messages end it.
#[derive(Drop)]
pub struct StreamWriter {
    status: Option<u8>,
}

impl Model for StreamWriter {
    ghost use Rattle.std.specs.Prelude.{Option, ℕ};

    ghost Value = { Option ℕ };

    ghost view = { λ w. w.status };
}

impl StreamWriter {
    /// A writer at the beginning of a stream.
    pub fn new() -> StreamWriter
        ensures { result ≡ None }
    {
        StreamWriter { status: None }
    }

    /// Appends a message, without its status where that is still in force. Where there is no memory, nothing changes.
    pub fn write(&mut self, message: &Message, out: &mut Vec<u8>) -> Result<(), OutOfMemory>
        ensures message { IsMessage message.now }
        ensures ok { OnOk result
            (out.new.items ≡ out.old.items ++ written_after self.old (message.now ∷ [])) }
        ensures state { OnOk result (self.new ≡ status_after self.old message.now) }
        ensures err { OnErr result (out.new.items ≡ out.old.items) }
        ensures kept { OnErr result (self.new ≡ self.old) }
        ensures full { OnErr result (vec_capacity out.old < vec_len out.old
            + length (written_after self.old (message.now ∷ []))) }
    {
        let status = message.status();
        let class = StatusClass::of(status);
        if class.is_channel() && self.status == Some(status) {
            return message.append_tail(out);
        }
        message.append_to(out)?;
        match class {
            StatusClass::Channel(_) => self.status = Some(status),
            StatusClass::RealTime => {}
            _ => self.status = None,
        }
        Ok(())
    }
}
