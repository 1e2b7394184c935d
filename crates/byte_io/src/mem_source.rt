//! A source over memory.

ghost use Rattle.std.specs.Prelude.{◌≡◌, ◌++◌, ◌↔◌, min, length, take, drop, true, false, None, Some, IfOk, IfErr, OnErr, IsErr};
ghost use Rattle.byte_io.specs.Memory.{one_more, ReadFails};

use crate::fault::DeviceFault;
use crate::source::Source;
use std::marker::Model;

/// A source over memory, which gives as many bytes as are left and fit. It fails only at the read
/// that `fail_at` names, and from then on.
#[derive(Debug, Drop)]
pub struct MemSource {
    bytes: Vec<u8>,
    at: usize,
    reads: u64,
    fail_at: Option<u64>,
    broken: bool,
}

impl Model for MemSource {
    ghost use Rattle.std.specs.Prelude.{◌≤◌, length, drop};
    ghost use Rattle.byte_io.specs.Memory.{MemInput};

    ghost Value = { MemInput };

    ghost view = { λ s. record {
      left = drop s.at s.bytes.items;
      reads = s.reads;
      fail_at = s.fail_at;
      broken = s.broken;
    } };

    ghost invariant = { λ s. s.at ≤ length s.bytes.items };
}

impl MemSource {
    /// A source that gives these bytes.
    pub fn new(bytes: Vec<u8>) -> Self
        ensures { result
            ≡ record { left = bytes.items; reads = 0; fail_at = None; broken = false } }
    {
        MemSource {
            bytes,
            at: 0,
            reads: 0,
            fail_at: None,
            broken: false,
        }
    }

    /// Makes read number `k` fail, counted from 0 since the source was made, in place of any read
    /// named before.
    pub fn fail_at(&mut self, k: u64)
        ensures { self.new ≡ record self.old { fail_at = Some k } }
    {
        self.fail_at = Some(k);
    }
}

impl Source for MemSource {
    ghost HasLeft = { λ s rest. s.left ≡ rest };

    ghost failed = { λ s. s.broken };

    fn read(&mut self, buffer: &mut [u8]) -> Result<usize, DeviceFault>
        ensures fails { IsErr result ↔ ReadFails self.old }
        ensures fault { IfErr result (λ e. e ≡ DeviceFault.Broken) }
        ensures count { IfOk result (λ n. n ≡ min (length self.old.left) (length buffer.old)) }
        ensures given { IfOk result (λ n. self.old.left ≡ take n buffer.new ++ self.new.left) }
        ensures tail { IfOk result (λ n. drop n buffer.new ≡ drop n buffer.old) }
        ensures ok { IfOk result (λ n. self.new
            ≡ record self.old { left = drop n self.old.left; reads = one_more self.old.reads }) }
        ensures err { OnErr result
            (self.new ≡ record self.old { reads = one_more self.old.reads; broken = true }) }
        ensures untouched { OnErr result (buffer.new ≡ buffer.old) }
    {
        let number = self.reads;
        self.reads = number.saturating_add(1);
        if self.broken || self.fail_at == Some(number) {
            self.broken = true;
            return Err(DeviceFault::Broken);
        }
        let rest = &self.bytes.as_slice()[self.at..];
        let n = rest.len().min(buffer.len());
        buffer[..n].copy_from_slice(&rest[..n]);
        self.at += n;
        Ok(n)
    }

    fn has_failed(&self) -> bool {
        self.broken
    }
}
