//! Devices that give bytes.

ghost use Rattle.std.specs.Prelude.{◌≡◌, ◌≤◌, ◌<◌, [], length, take, true, IfOk, OnOk, OnErr, IsErr};
ghost use Rattle.byte_io.specs.Moved.{Gave};

use crate::fault::DeviceFault;

/// A device that gives bytes. A failed read moves none, and each later read fails too.
pub trait Source {
    ghost use Rattle.std.specs.Prelude.{ℕ, List, Bool};

    /// These bytes are left. A device over memory says so of just one list; what a file or a terminal has left is known
    /// only by reading it to its end.
    ghost HasLeft: { Self → List ℕ → Type 0 };

    /// Whether it has failed.
    ghost failed: { Self → Bool };

    /// Moves the first of the bytes that are left to the beginning of `buffer`, and gives their number: 0 where none is
    /// left or `buffer` is empty. A device may give fewer than there is room for.
    fn read(&mut self, buffer: &mut [u8]) -> Result<usize, DeviceFault>
        ensures within { IfOk result (λ n. n ≤ length buffer.old) }
        ensures gave { IfOk result (λ n. Gave HasLeft self.old (take n buffer.new) self.new) }
        ensures ended { IfOk result (λ n. n ≡ 0 → 0 < length buffer.old → HasLeft self.new []) }
        ensures unmoved { OnErr result (Gave HasLeft self.old [] self.new) }
        ensures marked { OnErr result (failed self.new ≡ true) }
        ensures unmarked { OnOk result (failed self.new ≡ failed self.old) }
        ensures stuck { failed self.old ≡ true → IsErr result };

    /// Whether a read has failed: from then on each read answers `Err`.
    fn has_failed(&self) -> bool
        ensures { result ≡ failed self.now };
}
