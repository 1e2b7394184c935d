//! Laws of going over a store.

ghost use Rattle.std.specs.Prelude.{◌≡◌, ℕ, false};
ghost use Rattle.std.specs.FinMap as map;
ghost use Rattle.cell_pools.specs.Cells.{size_of, used_by, owns};

use crate::store::CellStore;
use node_table::ClientId;

/// Goes over a client's cells from the last to the first and takes each, with no memory: none is
/// left, and all others stay.
pub fn take_all<T: Drop>(store: &mut CellStore<T>, client: ClientId)
    ensures none { used_by store.new.cells client ≡ 0 }
    ensures others { (key : ℕ) → owns store.old client key ≡ false →
        map.get store.new.cells key ≡ map.get store.old.cells key }
    ensures sizes { (q : ℕ) → size_of store.new q ≡ size_of store.old q }
{
    for index in (0..store.used(client)).rev() {
        if let Some(key) = store.nth_of(client, index) {
            drop(store.take(key));
        }
    }
}
