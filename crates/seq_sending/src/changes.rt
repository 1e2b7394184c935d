//! How often rules and subscriptions changed, and whose.

ghost use Rattle.std.specs.Prelude.{◌≡◌, ◌≤◌, ◌<◌, ℕ, true, length, slice_index_or};
ghost use Rattle.node_table.specs.Numbers.{most_clients};
ghost use Rattle.seq_sending.specs.Changes.{last_change, IsCurrent};
ghost use Rattle.seq_sending.specs.Reach.{is_among};

use crate::reach::{Passed, Through};
use node_table::{ClientId, MOST_CLIENTS, row_of};

/// How often a rule or a subscription has changed, and which of the changes was the last of each client: of its rules,
/// or of what leaves its nodes.
#[derive(Drop)]
pub(crate) struct Changes {
    pub(crate) count: u64,
    // By `row_of`.
    pub(crate) last: [u64; MOST_CLIENTS],
}

/// The same number for each client.
pub(crate) fn all_at(change: u64) -> [u64; MOST_CLIENTS]
    ensures rows { length result ≡ most_clients }
    ensures each { (r : ℕ) → r < most_clients → slice_index_or result r 0 ≡ change }
{
    [change; MOST_CLIENTS]
}

impl Changes {
    /// Nothing has changed.
    pub(crate) fn new() -> Changes
        ensures { length result.last ≡ most_clients }
    {
        Changes {
            count: 0,
            last: all_at(0),
        }
    }

    /// Whether what was found after the first `at` changes still is so: of the ways from a client's port, which lead
    /// through others' filters.
    #[inline]
    pub(crate) fn is_current(&self, at: u64, client: ClientId, through: &Through) -> bool
        ensures { result ≡ true → IsCurrent self.now at client through.now }
    {
        if self.last[row_of(client)] > at {
            return false;
        }
        match through {
            Through::These(passed) => self.are_unchanged(at, passed.as_slice()),
            Through::Anyone => self.count <= at,
        }
    }

    /// Whether none of these clients changed after the first `at` changes.
    #[inline]
    fn are_unchanged(&self, at: u64, passed: &[Passed]) -> bool
        ensures { result ≡ true → (c : ℕ) → is_among passed.now c ≡ true
            → last_change self.now c ≤ at }
    {
        for other in passed {
            if self.last[row_of(other.client)] > at {
                return false;
            }
        }
        true
    }
}
