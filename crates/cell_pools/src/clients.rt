//! What each client has in a store.

ghost use Rattle.std.specs.Prelude.{◌≡◌, ◌≤◌, ◌+◌, ◌<◌, ◌^◌, ℕ, [], ◌∷◌, ◌++◌, length, slice_get, slice_index_or, OnOk, OnErr};
ghost use Rattle.std.specs.List.{swap_remove};
ghost use Rattle.node_table.specs.Numbers.{first_client, most_clients};
ghost use Rattle.cell_pools.specs.Cells.{no_cells, holding_of, keys_in, with_its_size, with_its_keys};

use crate::key::CellKey;
use memory::OutOfMemory;
use node_table::{ClientId, MOST_CLIENTS, row_of};
use std::alloc::Global;
use std::array;
use std::marker::Model;

/// How many cells a client may have, and the keys of those that it has.
#[derive(Drop)]
pub(crate) struct ClientCells {
    size: u32,
    keys: Vec<CellKey>,
}

impl Model for ClientCells {
    ghost use Rattle.std.specs.Prelude.{◌<◌, ◌^◌, length};
    ghost use Rattle.cell_pools.specs.Cells.{Holding, coded_holding};

    ghost Value = { Holding };

    ghost coded = { coded_holding };

    ghost view = { λ c. record { size = c.size; keys = c.keys.items } };

    ghost invariant = { λ c. length c.keys.items < 2 ^ 32 };
}

impl ClientCells {
    fn new(alloc: Global) -> ClientCells
        ensures { result ≡ no_cells }
    {
        ClientCells {
            size: 0,
            keys: Vec::new(alloc),
        }
    }

    pub(crate) fn size(&self) -> u32
        ensures { result ≡ self.now.size }
    {
        self.size
    }

    pub(crate) fn keys(&self) -> &[CellKey]
        ensures value { result.now ≡ self.now.keys }
        ensures few { length self.now.keys < 2 ^ 32 }
    {
        self.keys.as_slice()
    }

    /// The key at a place, from 0 on.
    pub(crate) fn key_at(&self, index: usize) -> Option<CellKey>
        ensures { result ≡ slice_get self.now.keys index }
    {
        self.keys.get(index).copied()
    }

    fn set_size(&mut self, size: u32)
        ensures { self.new ≡ record self.old { size = size } }
    {
        self.size = size;
    }

    fn push(&mut self, key: CellKey) -> Result<(), OutOfMemory>
        requires { length self.old.keys + 1 < 2 ^ 32 }
        ensures ok { OnOk result (self.new ≡ record self.old { keys = self.old.keys ++ key ∷ [] }) }
        ensures err { OnErr result (self.new ≡ self.old) }
    {
        self.keys.push(key)?;
        Ok(())
    }

    fn swap_remove(&mut self, index: usize)
        requires { index < length self.old.keys }
        ensures { self.new ≡ record self.old { keys = swap_remove self.old.keys index 0 } }
    {
        self.keys.swap_remove(index);
    }
}

/// What each client that there may be has.
#[derive(Drop)]
pub(crate) struct ClientTable {
    // By `row_of` the client.
    rows: [ClientCells; MOST_CLIENTS],
}

impl Model for ClientTable {
    ghost use Rattle.std.specs.Prelude.{◌≡◌, length, slice_index_or, Some};
    ghost use Rattle.node_table.specs.Numbers.{first_client, most_clients};
    ghost use Rattle.node_table.specs.Kept.{numbered_map};
    ghost use Rattle.cell_pools.specs.Cells.{Clients, coded_clients, no_cells};

    ghost Value = { Clients };

    ghost coded = { coded_clients };

    ghost view = { λ t. numbered_map first_client most_clients
        (λ row. Some (slice_index_or t.rows row no_cells)) };

    ghost invariant = { λ t. length t.rows ≡ most_clients };
}

fn empty_rows<const N: usize>(alloc: Global) -> [ClientCells; N]
    ensures len { length result ≡ N }
    ensures none { (i : ℕ) → slice_index_or result i no_cells ≡ no_cells }
{
    array::from_fn(|_| ClientCells::new(alloc))
}

impl ClientTable {
    pub(crate) fn new(alloc: Global) -> ClientTable
        ensures { (client : ℕ) → holding_of result client ≡ no_cells }
    {
        ClientTable {
            rows: empty_rows(alloc),
        }
    }

    pub(crate) fn get(&self, client: ClientId) -> &ClientCells
        ensures value { result.now ≡ holding_of self.now client }
        ensures low { first_client ≤ client }
        ensures high { client < first_client + most_clients }
    {
        &self.rows[row_of(client)]
    }

    pub(crate) fn set_size(&mut self, client: ClientId, size: u32)
        ensures { self.new ≡ with_its_size self.old client size }
    {
        self.rows[row_of(client)].set_size(size);
    }

    /// Adds a key, the last of its client's. After an error all is as it was.
    pub(crate) fn push(&mut self, client: ClientId, key: CellKey) -> Result<(), OutOfMemory>
        requires { length (keys_in self.old client) + 1 < 2 ^ 32 }
        ensures ok { let keys = keys_in self.old client ++ key ∷ [] in
            OnOk result (self.new ≡ with_its_keys self.old client keys) }
        ensures err { OnErr result (self.new ≡ self.old) }
    {
        self.rows[row_of(client)].push(key)
    }

    /// Removes the key at a place, which the client's last key takes.
    pub(crate) fn swap_remove(&mut self, client: ClientId, index: usize)
        requires { index < length (keys_in self.old client) }
        ensures { let keys = swap_remove (keys_in self.old client) index 0 in
            self.new ≡ with_its_keys self.old client keys }
    {
        self.rows[row_of(client)].swap_remove(index);
    }
}
