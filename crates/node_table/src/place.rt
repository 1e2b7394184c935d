//! A place for each address, so that a table by address is one vector.

ghost use Rattle.std.specs.Prelude.{◌≡◌, ℕ, ◌+◌, ◌<◌, ◌↔◌, length, IsSome, IfSome, OnOk, OnErr};
ghost use Rattle.node_table.specs.Numbers.{first_client, most_clients, places};
ghost use Rattle.node_table.specs.Kept.{IsPlace, IsTable, ReadsAs};

use crate::number::{Addr, ClientId, FIRST_CLIENT, FilterNo, MOST_PORTS, Node, PortNo};
use std::alloc::AllocError;

/// How many clients may be open.
pub const MOST_CLIENTS: usize = 64;

/// How many places each client has: one for each port, then one for each filter.
pub(crate) const CLIENT_PLACES: usize = 32;

/// How many addresses there are.
pub const PLACES: usize = 2048;

/// The row of a client among all that may be open, 0 to 63.
pub fn row_of(client: ClientId) -> usize
    ensures start { client ≡ first_client + result }
    ensures small { result < most_clients }
{
    client.number() as usize - FIRST_CLIENT as usize
}

/// The place of an address among all that may be: each client has sixteen ports, then sixteen filters.
// All is reckoned in `usize`, so that what is constant goes into the address of what stands there.
pub fn place_of(addr: &Addr) -> usize
    ensures place { (row : ℕ) × IsPlace addr.now row result }
    ensures small { result < places }
{
    let number = match addr.node {
        Node::Port(port) => port.number() as usize,
        Node::Filter(filter) => MOST_PORTS as usize + filter.number() as usize,
    };
    row_of(addr.client) * CLIENT_PLACES + number
}

/// The address that has a place.
pub fn addr_at(place: usize) -> Option<Addr>
    ensures there { IsSome result ↔ (place < places) }
    ensures place { IfSome result (λ addr. (row : ℕ) × IsPlace addr row place) }
{
    if place >= PLACES {
        return None;
    }
    let client = ClientId::new(FIRST_CLIENT + (place / CLIENT_PLACES) as u8)?;
    let number = (place % CLIENT_PLACES) as u8;
    let node = if number < MOST_PORTS {
        Node::Port(PortNo::new(number)?)
    } else {
        Node::Filter(FilterNo::new(number - MOST_PORTS)?)
    };
    Some(Addr { client, node })
}

/// Makes the places of a table that has none yet, each with the value. One that has them stays as it is.
pub fn make_places<T: Copy>(table: &mut Vec<T>, value: T) -> Result<(), AllocError>
    requires { IsTable table.old.items }
    ensures whole { OnOk result (length table.new.items ≡ places) }
    ensures err { OnErr result (table.new.items ≡ table.old.items) }
    ensures same { ReadsAs value table.new.items table.old.items }
{
    table.resize(PLACES, value)
}
