//! A message as a text of its bytes.

ghost use Rattle.std.specs.Prelude.{◌≡◌, IfOk};
ghost use Rattle.script_text.specs.Numbers.{message};
ghost use Rattle.script_text.specs.Words.{words};

use crate::command::message;
use crate::unread::Unread;
use crate::words::Words;
use memory::OutOfMemory;
use midi_wire::Message;
use std::alloc::Global;

/// The message whose full bytes the words of a text say, each in two hexadecimal digits, as `90 24 64`.
pub fn message_of(alloc: Global, text: &[u8]) -> Result<Option<Message>, OutOfMemory>
    ensures { IfOk result (λ m. m ≡ message (words text.now)) }
{
    match message(alloc, &mut Words::new(text)) {
        Ok(message) => Ok(Some(message)),
        Err(Unread::Unreadable) => Ok(None),
        Err(Unread::OutOfMemory) => Err(OutOfMemory),
    }
}
