//! The line that has no line feed yet.

ghost use Rattle.std.specs.Prelude.{◌≡◌, ◌≤◌, ◌++◌, [], List, ℕ, length, true, false, OnOk, IsTrue, IfSome, IfNone};
ghost use Rattle.session_live.specs.Talk.{IsOpenLine};
ghost use Rattle.session_live.specs.declared.heard.TheConstants.{MOST_LINE};

use crate::heard::MOST_LINE;
use memory::OutOfMemory;
use std::alloc::Global;

/// A line that has no line feed yet. One that is too long is not kept: it takes no memory.
#[derive(Drop)]
pub(crate) struct OpenLine {
    bytes: Vec<u8>,
    is_too_long: bool,
    ghost within: { length bytes.items ≤ MOST_LINE },
}

impl OpenLine {
    /// A line without a byte.
    pub(crate) fn new(alloc: Global) -> OpenLine
        ensures { IsOpenLine result.bytes.items result.is_too_long [] }
    {
        OpenLine {
            bytes: Vec::new(alloc),
            is_too_long: false,
        }
    }

    /// Adds a part of the line. `Err` may leave any line.
    pub(crate) fn keep(&mut self, part: &[u8]) -> Result<(), OutOfMemory>
        ensures { OnOk result ((line : List ℕ) →
            IsOpenLine self.old.bytes.items self.old.is_too_long line →
            IsOpenLine self.new.bytes.items self.new.is_too_long (line ++ part.now)) }
    {
        if self.is_too_long {
            return Ok(());
        }
        if part.len() > MOST_LINE - self.bytes.len() {
            self.is_too_long = true;
            self.bytes.clear();
            return Ok(());
        }
        self.bytes.extend_from_slice(part)?;
        Ok(())
    }

    /// Whether no byte of it has come. One that is too long is not empty.
    pub(crate) fn is_empty(&self) -> bool
        ensures { IsTrue result → IsOpenLine self.now.bytes.items self.now.is_too_long [] }
    {
        self.bytes.is_empty() && !self.is_too_long
    }

    /// What has come of it, unless it is too long.
    pub(crate) fn line(&self) -> Option<&[u8]>
        ensures kept { IfSome result (λ line. (line.now ≡ self.now.bytes.items)
            × (self.now.is_too_long ≡ false)) }
        ensures too_long { IfNone result (self.now.is_too_long ≡ true) }
    {
        if self.is_too_long {
            return None;
        }
        Some(self.bytes.as_slice())
    }

    /// The line has ended, and another begins.
    pub(crate) fn clear(&mut self)
        ensures { IsOpenLine self.new.bytes.items self.new.is_too_long [] }
    {
        self.bytes.clear();
        self.is_too_long = false;
    }
}
