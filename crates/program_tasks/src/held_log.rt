//! Logs that are held in memory until they are printed.

ghost use Rattle.std.specs.Prelude.{◌≡◌, ◌++◌, [], true, false, length, map, replicate, IfErr, IfOk, IsErr, OnErr, OnOk};
ghost use Rattle.std.specs.List.{flat_map};
ghost use Rattle.byte_io.specs.Marks.{SinkMarks};
ghost use Rattle.byte_io.specs.Moved.{Took, TookPart};
ghost use Rattle.tool_text.specs.Faults.{blames_sink};
ghost use Rattle.program_tasks.specs.Held.{nothing_held};

use byte_io::{DeviceFault, Sink};
use memory::OutOfMemory;
use std::alloc::Global;
use std::marker::Model;
use tool_text::{ToolFault, send};

/// A log that is held in memory until it is printed. What each write brings is a piece of its own, and is never moved.
#[derive(Drop)]
pub struct HeldLog {
    alloc: Global,
    pieces: Vec<Vec<u8>>,
    failed: bool,
}

impl Model for HeldLog {
    ghost use Rattle.std.specs.List.{flat_map};
    ghost use Rattle.program_tasks.specs.Held.{HeldText};

    ghost Value = { HeldText };

    ghost view = { λ h. record {
      taken = flat_map (λ p. p.items) h.pieces.items;
      failed = h.failed;
    } };
}

impl HeldLog {
    /// An empty log.
    pub fn new(alloc: Global) -> HeldLog
        ensures { result ≡ nothing_held }
    {
        HeldLog {
            alloc,
            pieces: Vec::new(alloc),
            failed: false,
        }
    }

    /// A log with this text, which is not copied.
    pub fn of_text(alloc: Global, text: Vec<u8>) -> Result<HeldLog, OutOfMemory>
        ensures { IfOk result (λ log. log ≡ record { taken = text.items; failed = false }) }
    {
        let mut pieces = Vec::new(alloc);
        pieces.push(text)?;
        Ok(HeldLog {
            alloc,
            pieces,
            failed: false,
        })
    }

    /// Writes all that the log holds.
    pub fn send_to<W: Sink>(&self, out: &mut W) -> Result<(), ToolFault>
        requires { W.failed out.old ≡ false }
        ensures written { OnOk result (Took W.HasTaken out.old self.now.taken out.new) }
        ensures part { OnErr result (TookPart W.HasTaken out.old self.now.taken out.new) }
        ensures marks { SinkMarks W.failed W.takes_some out.old out.new (blames_sink result) }
        ensures only { IfErr result (λ e. e ≡ ToolFault.Write) }
    {
        for piece in &self.pieces {
            send(out, piece.as_slice())?;
        }
        Ok(())
    }

    /// Adds all that the log holds to a text.
    pub fn push_whole(&self, text: &mut Vec<u8>) -> Result<(), OutOfMemory>
        ensures { OnOk result (text.new.items ≡ text.old.items ++ self.now.taken) }
    {
        for piece in &self.pieces {
            text.extend_from_slice(piece.as_slice())?;
        }
        Ok(())
    }
}

impl Sink for HeldLog {
    ghost HasTaken = { λ h bytes. h.taken ≡ bytes };

    ghost failed = { λ h. h.failed };

    ghost takes_some = { λ _. true };

    fn write(&mut self, bytes: &[u8]) -> Result<usize, DeviceFault>
        ensures all { IfOk result (λ n. n ≡ length bytes.now) }
        ensures ok { OnOk result
            (self.new ≡ record self.old { taken = self.old.taken ++ bytes.now }) }
        ensures err { OnErr result (self.new ≡ record self.old { failed = true }) }
        ensures only { IfErr result (λ e. e ≡ DeviceFault.OutOfMemory) }
        ensures stuck { self.old.failed ≡ true → IsErr result }
    {
        if self.failed || push_piece(self.alloc, &mut self.pieces, bytes).is_err() {
            self.failed = true;
            return Err(DeviceFault::OutOfMemory);
        }
        Ok(bytes.len())
    }

    fn has_failed(&self) -> bool {
        self.failed
    }
}

/// Adds the bytes as one piece, where there are any.
fn push_piece(alloc: Global, pieces: &mut Vec<Vec<u8>>, bytes: &[u8]) -> Result<(), OutOfMemory>
    ensures ok { OnOk result (flat_map (λ p. p.items) pieces.new.items
        ≡ flat_map (λ p. p.items) pieces.old.items ++ bytes.now) }
    ensures err { OnErr result (pieces.new.items ≡ pieces.old.items) }
{
    if !bytes.is_empty() {
        pieces.push(Vec::from_slice(alloc, bytes)?)?;
    }
    Ok(())
}

/// So many empty logs.
pub(crate) fn empty_logs(alloc: Global, count: usize) -> Result<Vec<HeldLog>, OutOfMemory>
    ensures { IfOk result (λ logs. logs.items ≡ replicate count nothing_held) }
{
    let mut logs = Vec::new(alloc);
    for _log in 0..count {
        logs.push(HeldLog::new(alloc))?;
    }
    Ok(logs)
}

/// Each text as a log of its own.
pub(crate) fn held_of(alloc: Global, texts: Vec<Vec<u8>>) -> Result<Vec<HeldLog>, OutOfMemory>
    ensures { IfOk result (λ logs.
        map (λ log. log.taken) logs.items ≡ map (λ t. t.items) texts.items) }
{
    let mut logs = Vec::new(alloc);
    for text in texts {
        logs.push(HeldLog::of_text(alloc, text)?)?;
    }
    Ok(logs)
}
