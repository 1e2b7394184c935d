//! A sink into memory.

ghost use Rattle.std.specs.Prelude.{◌≡◌, ◌<◌, ◌+◌, ◌++◌, ◌↔◌, length, take, true, false, [], None, Some, IfOk, IsOk, OnErr, IsErrOf};
ghost use Rattle.byte_io.specs.Memory.{one_more, WriteFails, takes_at_once, may_take};

use crate::fault::DeviceFault;
use crate::sink::Sink;
use memory::OutOfMemory;
use std::alloc::Global;
use std::marker::Model;

/// A sink into memory. It fails only at the write that `fail_at` names or where its growth was
/// refused, and from then on.
#[derive(Debug, Drop)]
pub struct MemSink {
    bytes: Vec<u8>,
    room: usize,
    piece: Option<usize>,
    writes: u64,
    fail_at: Option<u64>,
    broken: bool,
}

impl Model for MemSink {
    ghost use Rattle.std.specs.Prelude.{◌≤◌, vec_capacity};
    ghost use Rattle.byte_io.specs.Memory.{MemOutput};

    ghost Value = { MemOutput };

    ghost view = { λ s. record {
      taken = s.bytes.items;
      room = s.room;
      piece = s.piece;
      writes = s.writes;
      fail_at = s.fail_at;
      broken = s.broken;
    } };

    ghost invariant = { λ s. s.room ≤ vec_capacity s.bytes };
}

impl MemSink {
    /// An empty sink, whose first `room` bytes need no growth.
    pub fn new(alloc: Global, room: usize) -> Result<MemSink, OutOfMemory>
        ensures no_room { room ≡ 0 → IsOk result }
        ensures value { IfOk result (λ s. s
            ≡ record {
              taken = [];
              room = room;
              piece = None;
              writes = 0;
              fail_at = None;
              broken = false;
            }) }
    {
        Ok(MemSink {
            bytes: Vec::with_capacity(alloc, room)?,
            room,
            piece: None,
            writes: 0,
            fail_at: None,
            broken: false,
        })
    }

    /// Makes write number `k` fail, counted from 0 since the sink was made, in place of any write
    /// named before.
    pub fn fail_at(&mut self, k: u64)
        ensures { self.new ≡ record self.old { fail_at = Some k } }
    {
        self.fail_at = Some(k);
    }

    /// From now on a write takes at most `n` bytes.
    pub fn piece(&mut self, n: usize)
        ensures { self.new ≡ record self.old { piece = Some n } }
    {
        self.piece = Some(n);
    }

    /// The bytes that it has taken.
    pub fn bytes(&self) -> &[u8]
        ensures { result.now ≡ self.now.taken }
    {
        self.bytes.as_slice()
    }
}

impl Sink for MemSink {
    ghost HasTaken = { λ s bytes. s.taken ≡ bytes };

    ghost failed = { λ s. s.broken };

    ghost takes_some = { λ s. may_take s.piece };

    fn write(&mut self, bytes: &[u8]) -> Result<usize, DeviceFault>
        ensures fails { IsErrOf result DeviceFault.Broken ↔ WriteFails self.old }
        ensures grows { IsErrOf result DeviceFault.OutOfMemory
            → self.old.room
            < length self.old.taken + takes_at_once self.old.piece (length bytes.now) }
        ensures count { IfOk result (λ n. n ≡ takes_at_once self.old.piece (length bytes.now)) }
        ensures ok { IfOk result (λ n. self.new
            ≡ record self.old {
              taken = self.old.taken ++ take n bytes.now;
              writes = one_more self.old.writes;
            }) }
        ensures err { OnErr result
            (self.new ≡ record self.old { writes = one_more self.old.writes; broken = true }) }
    {
        let number = self.writes;
        self.writes = number.saturating_add(1);
        if self.broken || self.fail_at == Some(number) {
            self.broken = true;
            return Err(DeviceFault::Broken);
        }
        let n = match self.piece {
            Some(piece) => piece.min(bytes.len()),
            None => bytes.len(),
        };
        if self.bytes.extend_from_slice(&bytes[..n]).is_err() {
            self.broken = true;
            return Err(DeviceFault::OutOfMemory);
        }
        Ok(n)
    }

    fn has_failed(&self) -> bool {
        self.broken
    }
}
