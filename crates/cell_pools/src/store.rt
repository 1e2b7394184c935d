//! What waits to be sent.

ghost use Rattle.std.specs.Prelude.{◌≡◌, ◌↔◌, ◌<◌, ℕ, Some, None, slice_get, length, [], IfOk, OnErr, IfErr, IfNone, IsErrOf};
ghost use Rattle.std.specs.Option.{option_copied, option_copied_mut};
ghost use Rattle.std.specs.Borrow.{sem};
ghost use Rattle.std.specs.FinMap as map;
ghost use Rattle.cell_pools.specs.Cells.{size_of, keys_of, value_at, client_at, cells_of, used_by, IsFull, with_size, with_cell, AreKeys, IsTaken};
ghost use Rattle.cell_pools.specs.Faults.{value_of};
ghost use Rattle.cell_pools.specs.Kept.{IsClient};

use crate::clients::ClientTable;
use crate::fault::PutFault;
use crate::key::CellKey;
use memory::OutOfMemory;
use node_table::{ClientId, FIRST_CLIENT, LAST_CLIENT};
use slab::Slab;
use std::alloc::{AllocFailed, Global};
use std::marker::Model;

/// What is pending, whose it is, and where its key stands among those of its client.
#[derive(Drop)]
struct Cell<T> {
    client: ClientId,
    index: usize,
    value: T,
}

/// What all clients have pending, up to a size for each client.
///
/// The keys of a client stand in a list of their own, so but for `keys` and a growth of the memory
/// no call costs more as other clients have more. A new key is the last of its client's, and where
/// a key is taken, the last takes its place. So who goes over a client's keys from the last to the
/// first, by `used` and `nth_of`, may take each cell that it comes to. Only `put`, `keys_of` and
/// `keys` take memory.
#[derive(Drop)]
pub struct CellStore<T> {
    alloc: Global,
    clients: ClientTable,
    cells: Slab<Cell<T>>,
}

impl<T> Cell<T> {
    ghost use Rattle.cell_pools.specs.Lends.{LendsCellValue};

    fn client(&self) -> ClientId
        ensures { result ≡ self.now.client }
    {
        self.client
    }

    fn value_mut(&mut self) -> &mut T
        ensures* writes_back { sem 𝓛 (LendsCellValue T.row self.entry result) }
        ensures value { result.now ≡ self.old.value }
    {
        &mut self.value
    }
}

impl<T> Model for CellStore<T> {
    ghost use Rattle.cell_pools.specs.Cells.{Store, coded_store};

    ghost Value = { Store T };

    ghost coded = { coded_store T.code };

    ghost use Rattle.cell_pools.specs.Kept.{cells_kept, AreCellsKept};

    ghost view = { λ s. record { cells = cells_kept s.cells.slots; clients = s.clients } };

    ghost invariant = { λ s. AreCellsKept s.clients s.cells.slots };
}

impl<T> CellStore<T> {
    ghost use Rattle.cell_pools.specs.LendsStored.{LendsValue};

    /// A store with no cells, in which no client may have one.
    pub fn new(alloc: Global) -> CellStore<T>
        ensures empty { result.cells ≡ map.empty }
        ensures no_sizes { (client : ℕ) → size_of result client ≡ 0 }
        ensures no_keys { (client : ℕ) → keys_of result client ≡ [] }
    {
        CellStore {
            alloc,
            clients: ClientTable::new(alloc),
            cells: Slab::new(alloc),
        }
    }

    /// Sets how many cells a client may have. A client that has more keeps them.
    pub fn set_size(&mut self, client: ClientId, size: u32)
        ensures { self.new ≡ with_size self.old client size }
    {
        self.clients.set_size(client, size);
    }

    /// How many cells a client may have: 0 before `set_size`.
    pub fn size(&self, client: ClientId) -> u32
        ensures { result ≡ size_of self.now client }
    {
        self.clients.get(client).size()
    }

    /// How many cells a client has, in constant time.
    pub fn used(&self, client: ClientId) -> u32
        ensures count { result ≡ used_by self.now.cells client }
        ensures listed { result ≡ length (keys_of self.now client) }
        ensures keys { AreKeys (cells_of self.now.cells client) (keys_of self.now client) }
    {
        self.clients.get(client).keys().len() as u32
    }

    /// Adds a cell of a client. The refusals are tested in the order of `PutFault`, and each leaves
    /// all as it was and gives the value back.
    pub fn put(&mut self, client: ClientId, value: T) -> Result<CellKey, PutFault<T>>
        ensures ok { IfOk result (λ key. self.new ≡ with_cell self.old client key value) }
        ensures vacant { IfOk result (λ key. map.get self.old.cells key ≡ None) }
        ensures err { OnErr result (self.new ≡ self.old) }
        ensures value_back { IfErr result (λ e. value_of e ≡ value) }
        ensures full { IsErrOf result (PutFault.Full value) ↔ IsFull self.old client }
    {
        if self.used(client) >= self.size(client) {
            return Err(PutFault::Full(value));
        }
        match self.add(client, value) {
            Ok(cell) => Ok(cell),
            Err(failed) => Err(PutFault::OutOfMemory(failed.value)),
        }
    }

    /// Adds a cell of a client, as `put` does, for a caller that has made its test. `Err` leaves all
    /// as it was and gives the value back.
    #[inline(always)]
    pub fn add(&mut self, client: ClientId, value: T) -> Result<CellKey, AllocFailed<T>>
        requires room { used_by self.old.cells client < size_of self.old client }
        ensures ok { IfOk result (λ key. self.new ≡ with_cell self.old client key value) }
        ensures vacant { IfOk result (λ key. map.get self.old.cells key ≡ None) }
        ensures err { OnErr result (self.new ≡ self.old) }
        ensures value_back { IfErr result (λ failed. failed.value ≡ value) }
    {
        let used = self.used(client);
        let size = self.size(client);
        prove!(used < size);
        let Ok(()) = self.cells.reserve(1) else {
            return Err(AllocFailed { value });
        };
        let key = CellKey::new(self.cells.vacant_key());
        let index = self.clients.get(client).keys().len();
        let Ok(()) = self.clients.push(client, key) else {
            return Err(AllocFailed { value });
        };
        self.cells.insert_reserved(Cell {
            client,
            index,
            value,
        });
        Ok(key)
    }

    /// Each cell is a client's, whose number is 128 to 191.
    pub fn cells_are_of_clients(&self)
        ensures { (key client : ℕ) → client_at self.now key ≡ Some client → IsClient client }
    {
        let _ = &self.cells;
    }

    /// What is under a key.
    pub fn get(&self, key: CellKey) -> Option<&T>
        ensures { option_copied result ≡ value_at self.now key }
    {
        match self.cells.get(key.number()) {
            Some(cell) => Some(&cell.value),
            None => None,
        }
    }

    /// Whose cell is under a key.
    pub fn client_of(&self, key: CellKey) -> Option<ClientId>
        ensures { result ≡ client_at self.now key }
    {
        match self.cells.get(key.number()) {
            Some(cell) => Some(cell.client()),
            None => None,
        }
    }

    /// What is under a key, to be changed.
    pub fn get_mut(&mut self, key: CellKey) -> Option<&mut T>
        ensures* writes_back { sem 𝓛 (LendsValue T.row self.entry key result) }
        ensures value { option_copied_mut result ≡ value_at self.old key }
    {
        match self.cells.get_mut(key.number()) {
            Some(cell) => Some(cell.value_mut()),
            None => None,
        }
    }

    /// Takes what is under a key, in constant time and with no memory. The last of its client's
    /// keys takes its place among them.
    pub fn take(&mut self, key: CellKey) -> Option<T>
        ensures value { result ≡ value_at self.old key }
        ensures taken { IsTaken self.old self.new key }
        ensures absent { IfNone result (self.new ≡ self.old) }
    {
        let (_client, value) = self.take_owned(key)?;
        Some(value)
    }

    /// Takes what is under a key, as `take` does, with its client: one look-up for both.
    #[inline(always)]
    pub fn take_owned(&mut self, key: CellKey) -> Option<(ClientId, T)>
        ensures value { result ≡ map.get self.old.cells key }
        ensures taken { IsTaken self.old self.new key }
        ensures absent { IfNone result (self.new ≡ self.old) }
    {
        let Cell {
            client,
            index,
            value,
        } = self.cells.try_remove(key.number())?;
        self.clients.swap_remove(client, index);
        if let Some(moved) = self.clients.get(client).key_at(index) {
            self.cells[moved.number()].index = index;
        }
        Some((client, value))
    }

    /// The key at a place among a client's, from 0 up to and without `used`. It takes no memory.
    pub fn nth_of(&self, client: ClientId, index: u32) -> Option<CellKey>
        ensures value { result ≡ slice_get (keys_of self.now client) index }
        ensures keys { AreKeys (cells_of self.now.cells client) (keys_of self.now client) }
    {
        self.clients.get(client).key_at(index as usize)
    }

    /// The keys of a client's cells, each once.
    pub fn keys_of(&self, client: ClientId) -> Result<Vec<CellKey>, OutOfMemory>
        ensures value { IfOk result (λ keys. keys.items ≡ keys_of self.now client) }
        ensures keys { IfOk result (λ keys. AreKeys (cells_of self.now.cells client) keys.items) }
    {
        let keys = Vec::from_slice(self.alloc, self.clients.get(client).keys())?;
        Ok(keys)
    }

    /// The keys of all clients' cells, each once.
    pub fn keys(&self) -> Result<Vec<CellKey>, OutOfMemory>
        ensures { IfOk result (λ keys. AreKeys self.now.cells keys.items) }
    {
        let mut keys = Vec::with_capacity(self.alloc, self.cells.len())?;
        for number in FIRST_CLIENT..LAST_CLIENT + 1 {
            let client = ClientId::new(number).unwrap();
            keys.extend_from_slice(self.clients.get(client).keys())?;
        }
        Ok(keys)
    }
}
