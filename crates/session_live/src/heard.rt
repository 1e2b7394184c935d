//! How many lines were heard.

ghost use Rattle.std.specs.Prelude.{◌≡◌, ℕ, length, slice_index_or, IfOk, OnOk};
ghost use Rattle.session_live.specs.Lines.{Heard, nothing_heard};
ghost use Rattle.session_live.specs.Talk.{counted, next_number, AreCounts};

use memory::OutOfMemory;
use node_table::{ClientId, MOST_CLIENTS, row_of};

/// How many bytes a line has at most, without its line feed: room for the longest exclusive message in hexadecimal.
pub const MOST_LINE: usize = 262_144;

/// How many lines each client has said, and how many named no client.
#[derive(Drop)]
pub(crate) struct HeardLines {
    said: [u64; MOST_CLIENTS],
    loose: u64,
}

fn no_lines<const N: usize>() -> [u64; N]
    ensures rows { length result ≡ N }
    ensures none { (seat : ℕ) → slice_index_or result seat 0 ≡ 0 }
{
    [0; N]
}

impl HeardLines {
    /// No line was heard.
    pub(crate) fn new() -> HeardLines
        ensures { AreCounts result.said result.loose nothing_heard }
    {
        HeardLines {
            said: no_lines(),
            loose: 0,
        }
    }

    /// Counts a line that names this client, or none, and gives its number. `Err` changes nothing.
    pub(crate) fn count(&mut self, client: &Option<ClientId>) -> Result<u64, OutOfMemory>
        ensures number { (h : Heard) → AreCounts self.old.said self.old.loose h →
            IfOk result (λ n. n ≡ next_number h client.now) }
        ensures counts { (h : Heard) → AreCounts self.old.said self.old.loose h →
            OnOk result (AreCounts self.new.said self.new.loose (counted h client.now)) }
    {
        // No run has so many lines.
        match *client {
            Some(client) => {
                let row = row_of(client);
                let number = self.said[row].checked_add(1).ok_or(OutOfMemory)?;
                self.said[row] = number;
                Ok(number)
            }
            None => {
                self.loose = self.loose.checked_add(1).ok_or(OutOfMemory)?;
                Ok(self.loose)
            }
        }
    }
}
