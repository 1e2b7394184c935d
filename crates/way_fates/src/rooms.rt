//! How much room there is left for a message, client by client.

ghost use Rattle.std.specs.Prelude.{◌≡◌, ℕ, nat_lt, slice_index, IfOk};
ghost use Rattle.std.specs.FinMap.{get};
ghost use Rattle.seq_clients.specs.Roster.{room_of};
ghost use Rattle.way_fates.specs.Kept.{one_less, AreRooms};

use memory::OutOfMemory;
use node_table::{ClientId, LAST_CLIENT};
use seq_clients::Clients;
use std::alloc::Global;
use std::marker::Model;

/// A place for each number up to that of the last client.
const PLACES: u8 = LAST_CLIENT + 1;

/// How many messages more the input pool of each client has room for at a moment.
#[derive(Drop)]
pub(crate) struct Rooms {
    // By the client's number.
    left: Vec<u32>,
}

impl Model for Rooms {
    ghost use Rattle.std.specs.Prelude.{◌≡◌, ◌+◌, List, ℕ, length};
    ghost use Rattle.node_table.specs.Numbers.{last_client};

    ghost Value = { List ℕ };

    ghost view = { λ r. r.left.items };

    ghost invariant = { λ r. length r.left.items ≡ last_client + 1 };
}

/// The room in the input pool of the client with a number, which may be no client's.
fn room_of_number(clients: &Clients, number: u8, moment: u64) -> u32
    ensures { result ≡ room_of moment (get clients.now.pools number) }
{
    clients.pools_are_of_clients();
    match ClientId::new(number) {
        Some(client) => clients.room(client, moment),
        None => 0,
    }
}

impl Rooms {
    /// The rooms at a moment.
    pub(crate) fn new(alloc: Global, clients: &Clients, moment: u64) -> Result<Rooms, OutOfMemory>
        ensures { IfOk result (AreRooms moment clients.now.pools) }
    {
        clients.pools_are_of_clients();
        let mut left = Vec::new(alloc);
        for number in 0..PLACES {
            left.push(room_of_number(clients, number, moment))?;
        }
        Ok(Rooms { left })
    }

    /// Whether there is room for a message at a client, which it then takes.
    pub(crate) fn take(&mut self, client: ClientId) -> bool
        ensures room { result ≡ nat_lt 0 (slice_index self.old client) }
        ensures left { self.new ≡ one_less self.old client }
    {
        let place = client.number() as usize;
        let room = self.left[place];
        self.left[place] = room.saturating_sub(1);
        room > 0
    }
}
