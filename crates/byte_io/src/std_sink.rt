//! A sink over a writer of the standard library.

ghost use Rattle.std.specs.Prelude.{◌≡◌, ◌≤◌, true, false, [], length, take, IfOk, IfErr, IsErr, OnErr, is_err};
ghost use Rattle.byte_io.specs.Moved.{Took};
ghost use Rattle.byte_io.specs.Std.{KeepsBytes, HasWritten};

use crate::fault::DeviceFault;
use crate::sink::Sink;
use std::io::Write;
use std::marker::Model;

/// A sink over a writer of the standard library. Any error of the writer marks it, that of an
/// interrupted call too, and a marked sink leaves the writer alone.
///
/// What it has taken is what its writer has, where that is known.
///
/// Over a `BufWriter` a write only fills the buffer, so a caller ends with `flush`.
#[derive(Drop)]
pub struct StdSink<W: Write + Drop> {
    writer: W,
    broken: bool,
}

impl<W: Write + Drop> Model for StdSink<W> {
    ghost use Rattle.byte_io.specs.Std.{StdOutput};

    ghost Value = { StdOutput W };

    ghost view = { λ s. record { writer = s.writer; broken = s.broken } };
}

impl<W: Write + Drop> StdSink<W> {
    /// A sink that has not failed.
    pub fn new(writer: W) -> Self
        ensures { result ≡ record { writer = writer; broken = false } }
    {
        StdSink {
            writer,
            broken: false,
        }
    }

    /// Passes on what the writer still buffers. An error marks the sink, and a marked sink answers
    /// `Err`.
    pub fn flush(&mut self) -> Result<(), DeviceFault>
        ensures bytes { self.old.broken ≡ false → KeepsBytes W.contents self.old self.new }
        ensures fault { IfErr result (λ e. e ≡ DeviceFault.Broken) }
        ensures mark { self.new.broken ≡ is_err result }
        ensures stuck { self.old.broken ≡ true → IsErr result }
        ensures still { self.old.broken ≡ true → self.new ≡ self.old }
    {
        if !self.broken && self.writer.flush().is_ok() {
            return Ok(());
        }
        self.broken = true;
        Err(DeviceFault::Broken)
    }
}

impl<W: Write + Drop> Sink for StdSink<W> {
    ghost takes_some = { λ _. false };

    ghost HasTaken = { λ s bytes. HasWritten W.contents s bytes };

    ghost failed = { λ s. s.broken };

    fn write(&mut self, bytes: &[u8]) -> Result<usize, DeviceFault>
        ensures within { IfOk result (λ n. n ≤ length bytes.now) }
        ensures took { IfOk result (λ n.
            Took (HasWritten W.contents) self.old (take n bytes.now) self.new) }
        ensures unmoved { OnErr result (Took (HasWritten W.contents) self.old [] self.new) }
        ensures fault { IfErr result (λ e. e ≡ DeviceFault.Broken) }
        ensures mark { self.new.broken ≡ is_err result }
        ensures stuck { self.old.broken ≡ true → IsErr result }
        ensures still { self.old.broken ≡ true → self.new ≡ self.old }
    {
        if self.broken {
            return Err(DeviceFault::Broken);
        }
        match self.writer.write(bytes) {
            Ok(n) => Ok(n),
            Err(_) => {
                self.broken = true;
                Err(DeviceFault::Broken)
            }
        }
    }

    fn has_failed(&self) -> bool {
        self.broken
    }
}
