//! The beginning of a line, kept for the lines that follow.

ghost use Rattle.std.specs.Prelude.{◌≡◌, ◌≤◌, ◌<◌, ◌+◌, [], ◌∷◌, ◌++◌, length, vec_len, take, IfOk, IfSome, IfNone, OnOk};
ghost use Rattle.std.specs.Option.{ForSome};
ghost use Rattle.midi_wire.specs.Messages.{exclusive_message};
ghost use Rattle.text_forms.specs.Hex.{spaced_hex};
ghost use Rattle.tool_text.specs.Thru.{heading};
ghost use Rattle.tool_text.specs.Headings.{IsBlock, IsRoomy};
ghost use Rattle.tool_text.specs.declared.heading.TheConstants.{BLOCK, ROOM};

use memory::OutOfMemory;
use node_table::PortAddr;
use std::alloc::Global;
use text_forms::{overwrite_spaced_line, push_decimal, push_port_addr, push_spaced};

/// How many bytes are copied at once where a text and the room behind it have no more.
const BLOCK: usize = 32;

/// How many bytes follow the beginning of a line that ends with three bytes in hexadecimal.
const ROOM: usize = 10;

/// A moment and a port, as the line of a delivery begins. Mostly many lines have the same, so that it is made once.
#[derive(Drop)]
pub(crate) struct Heading {
    alloc: Global,
    moment: u64,
    target: PortAddr,
    // The text in its first `len` bytes, and spaces behind it.
    text: Vec<u8>,
    len: usize,
    // The same, where the text is short.
    block: Option<[u8; BLOCK]>,
    ghost said: { IsRoomy len (heading moment target) text.items },
    ghost same: { ForSome block (IsBlock len (heading moment target)) },
}

impl Heading {
    // Apart, so that `turn_to` stays small where the moment and the port are the last ones.
    #[inline(never)]
    pub(crate) fn new(alloc: Global, moment: u64, target: PortAddr) -> Result<Heading, OutOfMemory>
        ensures moment { IfOk result (λ h. h.moment ≡ moment) }
        ensures target { IfOk result (λ h. h.target ≡ target) }
    {
        let mut text = Vec::new(alloc);
        push_decimal(&mut text, moment)?;
        text.push(b' ')?;
        push_port_addr(&mut text, &target)?;
        let len = text.len();
        text.extend_from_slice(&[b' '; BLOCK])?;
        let block = block_of(text.as_slice(), len);
        Ok(Heading {
            alloc,
            moment,
            target,
            text,
            len,
            block,
        })
    }

    /// Takes another moment and port. After an error all stays as it was.
    #[cold]
    #[inline(never)]
    fn renew(&mut self, moment: u64, target: PortAddr) -> Result<(), OutOfMemory>
        ensures moment { OnOk result (self.new.moment ≡ moment) }
        ensures target { OnOk result (self.new.target ≡ target) }
    {
        *self = Heading::new(self.alloc, moment, target)?;
        Ok(())
    }

    /// Is of this moment and this port from now on. After an error all stays as it was.
    #[inline(always)]
    pub(crate) fn turn_to(&mut self, moment: u64, target: PortAddr) -> Result<(), OutOfMemory>
        ensures moment { OnOk result (self.new.moment ≡ moment) }
        ensures target { OnOk result (self.new.target ≡ target) }
    {
        if moment != self.moment || target != self.target {
            self.renew(moment, target)?;
        }
        Ok(())
    }

    /// Adds the beginning of a line.
    fn push(&self, text: &mut Vec<u8>) -> Result<(), OutOfMemory>
        ensures { OnOk result (text.new.items
            ≡ text.old.items ++ heading self.now.moment self.now.target) }
    {
        let end = text.len() + self.len;
        self.push_roomy(text)?;
        text.truncate(end);
        Ok(())
    }

    /// Adds a line: its beginning, and a space and two digits for each of at most three bytes.
    #[inline(always)]
    pub(crate) fn push_line(&self, text: &mut Vec<u8>, bytes: &[u8]) -> Result<(), OutOfMemory>
        requires { length bytes.now ≤ 3 }
        ensures { OnOk result (text.new.items ≡ text.old.items
            ++ heading self.now.moment self.now.target ++ spaced_hex bytes.now ++ 10 ∷ []) }
    {
        let end = text.len() + self.len;
        self.push_roomy(text)?;
        overwrite_spaced_line(text, end, bytes);
        Ok(())
    }

    /// Adds a line: its beginning, and an exclusive message of this data.
    pub(crate) fn push_exclusive(
        &self,
        text: &mut Vec<u8>,
        payload: &[u8],
    ) -> Result<(), OutOfMemory>
        ensures { let message = exclusive_message payload.now in
            OnOk result (text.new.items ≡ text.old.items
            ++ heading self.now.moment self.now.target ++ spaced_hex message ++ 10 ∷ []) }
    {
        self.push(text)?;
        text.extend_from_slice(b" F0")?;
        push_spaced(text, payload)?;
        text.extend_from_slice(b" F7\n")?;
        Ok(())
    }

    /// Adds the beginning of a line, and bytes behind it to write over.
    #[inline(always)]
    fn push_roomy(&self, text: &mut Vec<u8>) -> Result<(), OutOfMemory>
        ensures front { OnOk result (take (vec_len text.old + self.now.len) text.new.items
            ≡ text.old.items ++ heading self.now.moment self.now.target) }
        ensures room { OnOk result (vec_len text.old + self.now.len + ROOM ≤ vec_len text.new) }
    {
        match self.block {
            // A copy of a fixed length takes no call.
            Some(block) => text.extend_from_slice(&block)?,
            None => text.extend_from_slice(self.text.as_slice())?,
        }
        Ok(())
    }
}

/// A block of the first bytes, where the text in the first `len` and the room behind it stand in it.
fn block_of(bytes: &[u8], len: usize) -> Option<[u8; BLOCK]>
    requires { len + BLOCK ≤ length bytes.now }
    ensures some { IfSome result (IsBlock len (take len bytes.now)) }
    ensures none { IfNone result (BLOCK < len + ROOM) }
{
    match bytes.first_chunk::<BLOCK>() {
        Some(block) if len + ROOM <= BLOCK => Some(*block),
        _ => None,
    }
}
