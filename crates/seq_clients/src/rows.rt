//! The rows of the clients, by their numbers.

ghost use Rattle.std.specs.Prelude.{◌≡◌, ◌+◌, ◌<◌, ◌≤◌, ◌⊎◌, ℕ, None};
ghost use Rattle.node_table.specs.Numbers.{first_client, most_clients};
ghost use Rattle.std.specs.Option.{option_copied, option_map};
ghost use Rattle.std.specs.FinMap as map;
ghost use Rattle.cell_pools.specs.Pools.{after_offer, after_losses_of, listening_on, not_listening};
ghost use Rattle.seq_state.specs.State.{with_entry};
ghost use Rattle.seq_state.specs.Step.{pool_has_room};
ghost use Rattle.seq_clients.specs.Rows.{with_pool_changed};

use crate::row::ClientRow;
use node_table::{ClientId, MOST_CLIENTS, nothing, row_of};
use seq_state::Arrival;
use std::marker::Model;

/// What each client that is open has beside its name and its nodes.
#[derive(Drop)]
pub(crate) struct RowTable {
    // By `row_of` the client.
    rows: [Option<Box<ClientRow>>; MOST_CLIENTS],
}

impl Model for RowTable {
    ghost use Rattle.std.specs.Prelude.{◌≡◌, None, length, slice_index_or};
    ghost use Rattle.std.specs.Option.{option_map};
    ghost use Rattle.std.specs.Ordering.{nat_cmp};
    ghost use Rattle.std.specs.Coded.{coded_ℕ};
    ghost use Rattle.std.specs.FinMap as map;
    ghost use Rattle.node_table.specs.Numbers.{first_client, most_clients};
    ghost use Rattle.node_table.specs.Kept.{numbered_map};
    ghost use Rattle.seq_clients.specs.Rows.{coded_row};
    ghost use Rattle.seq_clients.specs.declared.row.ClientRow.{ClientRow};

    ghost Value = { map.FinMap nat_cmp ClientRow };

    ghost coded = { map.code coded_ℕ coded_row };

    ghost view = { λ t.
        numbered_map first_client most_clients
        (λ row. option_map (λ b. b.value) (slice_index_or t.rows row None)) };

    ghost invariant = { λ t. length t.rows ≡ most_clients };
}

impl RowTable {
    pub(crate) fn new() -> RowTable
        ensures { result ≡ map.empty }
    {
        RowTable { rows: nothing() }
    }

    pub(crate) fn get(&self, client: ClientId) -> Option<&ClientRow>
        ensures { option_copied result ≡ map.get self.now client }
    {
        match &self.rows[row_of(client)] {
            Some(row) => Some(&**row),
            None => None,
        }
    }

    /// Puts a row in the place of one that may be there.
    pub(crate) fn insert(&mut self, client: ClientId, row: Box<ClientRow>)
        ensures { self.new ≡ map.insert self.old client row.value }
    {
        self.rows[row_of(client)] = Some(row);
    }

    pub(crate) fn remove(&mut self, client: ClientId) -> Option<Box<ClientRow>>
        ensures value { option_map (λ b. b.value) result ≡ map.get self.old client }
        ensures left { self.new ≡ map.remove self.old client }
    {
        self.rows[row_of(client)].take()
    }

    /// Whether a client that may be there has an input pool with room at a moment.
    pub(crate) fn has_room(&self, client: ClientId, moment: u64) -> bool
        ensures { let pool = option_map (λ r. r.pool) (map.get self.now client) in
            result ≡ pool_has_room moment pool }
    {
        match &self.rows[row_of(client)] {
            Some(row) => row.pool.has_room(moment),
            None => false,
        }
    }

    /// Counts as lost what finds no room in the input pool of a client that may be there, where so many messages come
    /// at a moment.
    pub(crate) fn lose_beyond(&mut self, client: ClientId, moment: u64, copies: u64)
        ensures { let lost = with_pool_changed (after_losses_of moment copies) in
            self.new ≡ with_entry self.old client (option_map lost (map.get self.old client)) }
    {
        match &mut self.rows[row_of(client)] {
            Some(row) => row.pool.lose_beyond(moment, copies),
            None => {}
        }
    }

    /// Lets a client that may be there listen.
    pub(crate) fn listen(&mut self, client: ClientId)
        ensures { let listening = with_pool_changed listening_on in
            self.new ≡ with_entry self.old client (option_map listening (map.get self.old client)) }
    {
        match &mut self.rows[row_of(client)] {
            Some(row) => row.pool.listen(),
            None => {}
        }
    }

    /// Lets what comes to a client that may be there wait again.
    pub(crate) fn unlisten(&mut self, client: ClientId)
        ensures { let waits = with_pool_changed not_listening in
            self.new ≡ with_entry self.old client (option_map waits (map.get self.old client)) }
    {
        match &mut self.rows[row_of(client)] {
            Some(row) => row.pool.unlisten(),
            None => {}
        }
    }

    /// No row is of a number that no client has.
    pub(crate) fn rows_are_of_clients(&self)
        ensures { (n : ℕ) → (n < first_client) ⊎ (first_client + most_clients ≤ n)
            → map.get self.now n ≡ None }
    {
        let _rows = &self.rows;
    }

    /// Offers a message to the input pool of a client that may be there.
    pub(crate) fn offer(&mut self, client: ClientId, arrival: Arrival) -> bool
        ensures kept { let pool = option_map (λ r. r.pool) (map.get self.old client) in
            result ≡ pool_has_room arrival.moment pool }
        ensures after { let offered = with_pool_changed (λ p. after_offer arrival.moment p arrival) in
            self.new ≡ with_entry self.old client (option_map offered (map.get self.old client)) }
    {
        match &mut self.rows[row_of(client)] {
            Some(row) => row.pool.offer(arrival.moment, arrival),
            None => false,
        }
    }
}
