//! Classes of messages: those of one class go the same ways.

ghost use Rattle.std.specs.Prelude.{◌≡◌};
ghost use Rattle.seq_sending.specs.Classes.{way_class};

use midi_wire::{EXCLUSIVE, Message};

/// What of a message its ways hang on: the status, and of a channel message the first data byte.
#[derive(Clone, Copy, Debug, Drop, PartialEq, Eq)]
pub(crate) struct WayClass {
    /// The status, 128 to 255.
    pub(crate) status: u8,
    /// The first data byte of a channel message.
    pub(crate) first: Option<u8>,
}

impl WayClass {
    /// The class of a message.
    pub(crate) fn of(message: &Message) -> WayClass
        ensures { result ≡ way_class message.now }
    {
        let status = message.status();
        WayClass {
            status,
            first: if status < EXCLUSIVE {
                message.byte_at(1)
            } else {
                None
            },
        }
    }
}
