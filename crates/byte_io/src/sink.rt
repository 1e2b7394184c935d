//! Devices that take bytes.

ghost use Rattle.std.specs.Prelude.{◌≡◌, ◌<◌, ◌≤◌, [], length, take, true, IfOk, OnOk, OnErr, IsErr};
ghost use Rattle.byte_io.specs.Moved.{Took};

use crate::fault::DeviceFault;

/// A device that takes bytes. A failed write takes none, and each later write fails too.
pub trait Sink {
    ghost use Rattle.std.specs.Prelude.{ℕ, List, Bool};

    /// It has taken these bytes. A device over memory says so of just one list; of a file or a terminal it is known
    /// only what each write has added.
    ghost HasTaken: { Self → List ℕ → Type 0 };

    /// Whether it has failed.
    ghost failed: { Self → Bool };

    /// Whether each write takes at least one byte of those that it is given.
    ghost takes_some: { Self → Bool };

    /// Takes the first of `bytes`, and gives their number. A device may take fewer than it is
    /// given, even none.
    fn write(&mut self, bytes: &[u8]) -> Result<usize, DeviceFault>
        ensures within { IfOk result (λ n. n ≤ length bytes.now) }
        ensures took { IfOk result (λ n. Took HasTaken self.old (take n bytes.now) self.new) }
        ensures some { takes_some self.old ≡ true
            → IfOk result (λ n. 0 < length bytes.now → 0 < n) }
        ensures eager { takes_some self.new ≡ takes_some self.old }
        ensures unmoved { OnErr result (Took HasTaken self.old [] self.new) }
        ensures marked { OnErr result (failed self.new ≡ true) }
        ensures unmarked { OnOk result (failed self.new ≡ failed self.old) }
        ensures stuck { failed self.old ≡ true → IsErr result };

    /// Whether a write has failed: from then on each write answers `Err`.
    fn has_failed(&self) -> bool
        ensures { result ≡ failed self.now };
}
