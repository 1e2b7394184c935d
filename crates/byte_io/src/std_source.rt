//! A source over a reader of the standard library.

ghost use Rattle.std.specs.Prelude.{◌≡◌, ◌≤◌, ◌<◌, [], length, take, true, false, is_err, IfOk, IfErr, IsErr, OnErr};
ghost use Rattle.byte_io.specs.Moved.{Gave};
ghost use Rattle.byte_io.specs.Std.{HasUnread};

use crate::fault::DeviceFault;
use crate::source::Source;
use std::io::Read;
use std::marker::Model;

/// A source over a reader of the standard library. Any error of the reader marks it, that of an
/// interrupted call too, and a marked source leaves the reader alone.
///
/// What it has left is what its reader has, where that is known.
#[derive(Drop)]
pub struct StdSource<R: Read + Drop> {
    reader: R,
    broken: bool,
}

impl<R: Read + Drop> Model for StdSource<R> {
    ghost use Rattle.byte_io.specs.Std.{StdInput};

    ghost Value = { StdInput R };

    ghost view = { λ s. record { reader = s.reader; broken = s.broken } };
}

impl<R: Read + Drop> StdSource<R> {
    /// A source that has not failed.
    pub fn new(reader: R) -> Self
        ensures { result ≡ record { reader = reader; broken = false } }
    {
        StdSource {
            reader,
            broken: false,
        }
    }
}

impl<R: Read + Drop> Source for StdSource<R> {
    ghost HasLeft = { λ s rest. HasUnread R.remaining s rest };

    ghost failed = { λ s. s.broken };

    fn read(&mut self, buffer: &mut [u8]) -> Result<usize, DeviceFault>
        ensures within { IfOk result (λ n. n ≤ length buffer.old) }
        ensures gave { IfOk result (λ n.
            Gave (HasUnread R.remaining) self.old (take n buffer.new) self.new) }
        ensures ended { IfOk result (λ n.
            n ≡ 0 → 0 < length buffer.old → HasUnread R.remaining self.new []) }
        ensures unmoved { OnErr result (Gave (HasUnread R.remaining) self.old [] self.new) }
        ensures fault { IfErr result (λ e. e ≡ DeviceFault.Broken) }
        ensures mark { self.new.broken ≡ is_err result }
        ensures stuck { self.old.broken ≡ true → IsErr result }
        ensures still { self.old.broken ≡ true → (self.new ≡ self.old) × (buffer.new ≡ buffer.old) }
    {
        if self.broken {
            return Err(DeviceFault::Broken);
        }
        match self.reader.read(buffer) {
            Ok(n) => Ok(n),
            Err(_) => {
                self.broken = true;
                Err(DeviceFault::Broken)
            }
        }
    }

    fn has_failed(&self) -> bool {
        self.broken
    }
}
