//! The keys of what is pending.

ghost use Rattle.std.specs.Prelude.{◌≡◌};

use std::marker::Model;

/// The key of a pending cell.
#[derive(Clone, Copy, Debug, PartialEq, Eq, PartialOrd, Ord)]
pub struct CellKey(usize);

impl Model for CellKey {
    ghost use Rattle.std.specs.Prelude.{ℕ};

    ghost Value = { ℕ };

    ghost view = { λ k. k.0 };

    ghost inverse = { λ n. record { 0 = n } };
}

impl CellKey {
    /// The cell with this number.
    pub fn new(number: usize) -> CellKey
        ensures { result ≡ number }
    {
        CellKey(number)
    }

    /// Its number.
    pub fn number(self) -> usize
        ensures { result ≡ self }
    {
        self.0
    }
}
