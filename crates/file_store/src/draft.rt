//! A file that is not yet at its path.

ghost use Rattle.std.specs.Prelude.{false};
ghost use Rattle.byte_io.specs.Std.{HasWritten};

use byte_io::{DeviceFault, Sink, StdSink};
use std::io::Write;

/// A file that is written. Until it is whole it has a path of its own, beside the one that it is for; what is no
/// regular file, as a terminal or a pipe, is written where it stands.
#[derive(Drop)]
pub struct Draft<W: Write + Drop> {
    pub(crate) sink: StdSink<W>,
    /// Where it stands until it is whole, and where it belongs; none where it is written in place.
    pub(crate) paths: Option<DraftPaths>,
}

/// The paths of a file that is not yet where it belongs.
#[derive(Drop)]
pub(crate) struct DraftPaths {
    pub(crate) beside: String,
    pub(crate) target: String,
}

impl<W: Write + Drop> Sink for Draft<W> {
    ghost takes_some = { λ _. false };

    ghost HasTaken = { λ d bytes. HasWritten W.contents d.sink bytes };

    ghost failed = { λ d. d.sink.broken };

    fn write(&mut self, bytes: &[u8]) -> Result<usize, DeviceFault> {
        self.sink.write(bytes)
    }

    fn has_failed(&self) -> bool {
        self.sink.has_failed()
    }
}
