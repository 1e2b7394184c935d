//! The members of a circle.

ghost use Rattle.std.specs.Prelude.{◌≡◌, ◌+◌, ◌<◌, ℕ, ◌++◌, ◌∷◌, [], IsFalse, OnOk, false, length, slice_index_or};
ghost use Rattle.seq_circle.specs.Finding.{absent_count, AreSeats};
ghost use Rattle.seq_circle.specs.Least.{is_member};

use memory::OutOfMemory;
use node_table::{ClientId, MOST_CLIENTS, row_of};
use std::alloc::Global;

/// A client of a circle beside its owner.
#[derive(Clone, Copy, Debug, PartialEq, Eq)]
pub struct Joined {
    pub client: ClientId,
    /// The place of an input of a member before it, which asks for it, from 0.
    pub place: usize,
}

/// The owner of a circle and who has joined it, with a table, so that it costs no search to ask who is there.
#[derive(Drop)]
pub(crate) struct Members {
    pub(crate) owner: ClientId,
    pub(crate) joined: Vec<Joined>,
    /// Whether the client of each row is there.
    seats: [bool; MOST_CLIENTS],
    ghost seated: { AreSeats owner joined.items seats },
}

/// No seat is taken.
fn free_seats<const N: usize>() -> [bool; N]
    ensures len { length result ≡ N }
    ensures free { (row : ℕ) → slice_index_or result row false ≡ false }
{
    [false; N]
}

impl Members {
    /// The owner alone.
    pub(crate) fn new(alloc: Global, owner: ClientId) -> Members
        ensures owner { result.owner ≡ owner }
        ensures alone { result.joined.items ≡ [] }
    {
        let mut seats = free_seats();
        seats[row_of(owner)] = true;
        Members {
            owner,
            joined: Vec::new(alloc),
            seats,
        }
    }

    pub(crate) fn has(&self, client: ClientId) -> bool
        ensures { result ≡ is_member self.now.owner self.now.joined.items client }
    {
        self.seats[row_of(client)]
    }

    /// Adds a client that is not there.
    pub(crate) fn join(&mut self, next: Joined) -> Result<(), OutOfMemory>
        requires new { IsFalse (is_member self.old.owner self.old.joined.items next.client) }
        ensures owner { self.new.owner ≡ self.old.owner }
        ensures joined { OnOk result (self.new.joined.items ≡ self.old.joined.items ++ next ∷ []) }
        ensures fewer { OnOk result (absent_count self.new.owner self.new.joined.items
            < absent_count self.old.owner self.old.joined.items) }
    {
        let row = row_of(next.client);
        self.joined.push(next)?;
        self.seats[row] = true;
        Ok(())
    }
}
