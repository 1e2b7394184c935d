//! The open clients: what is asked of them.

ghost use Rattle.std.specs.Prelude.{◌≡◌, ◌+◌, ◌<◌, ◌≤◌, ◌⊎◌, ℕ, None, true, false, is_some};
ghost use Rattle.node_table.specs.Numbers.{first_client, most_clients};
ghost use Rattle.std.specs.FinMap.{get};
ghost use Rattle.std.specs.Option.{option_copied, option_map};
ghost use Rattle.seq_state.specs.Effect.{has_port, has_filter, has_queue, node_caps, port_of, filter_of, queue_of, out_size};
ghost use Rattle.seq_state.specs.State.{queues_of};
ghost use Rattle.seq_state.specs.Step.{port_addr, filter_addr};
ghost use Rattle.seq_clients.specs.Roster.{nobody, input_size, waiting, room_of, lost_count, listens, NoneShared, SomeShared};

use crate::body::NodeBody;
use crate::queue::Queue;
use crate::rows::RowTable;
use node_table::{Addr, Caps, ClientId, FilterNo, Node, NodeTable, PortNo, QueueAddr, QueueNo};
use route_filter::Rule;
use std::alloc::Global;
use std::marker::Model;

/// The open clients, each with its ports, filters and queues, the sizes of its pools, and its input pool.
///
/// What a call asks for is found in constant time. What a call needs of its arguments stands in its contract, so no
/// call refuses: `Err` is out of memory.
#[derive(Drop)]
pub struct Clients {
    pub(crate) alloc: Global,
    pub(crate) nodes: NodeTable<NodeBody>,
    pub(crate) rows: RowTable,
}

impl Model for Clients {
    ghost use Rattle.seq_clients.specs.Roster.{Roster, coded_roster};

    ghost Value = { Roster };

    ghost coded = { coded_roster };

    ghost use Rattle.seq_clients.specs.Kept.{roster, AreRowsKept};

    ghost view = { λ c. roster c.nodes c.rows };

    ghost invariant = { λ c. AreRowsKept c.nodes c.rows };
}

/// The address of a client's port.
pub(crate) fn port_addr(client: ClientId, port: PortNo) -> Addr
    ensures { result ≡ port_addr client port }
{
    Addr {
        client,
        node: Node::Port(port),
    }
}

/// The address of a client's filter.
pub(crate) fn filter_addr(client: ClientId, filter: FilterNo) -> Addr
    ensures { result ≡ filter_addr client filter }
{
    Addr {
        client,
        node: Node::Filter(filter),
    }
}

impl Clients {
    /// Nobody is open. It takes no memory.
    pub fn new(alloc: Global) -> Clients
        ensures { result ≡ nobody }
    {
        Clients {
            alloc,
            nodes: NodeTable::new(alloc),
            rows: RowTable::new(),
        }
    }

    /// Whether a client is open.
    pub fn is_open(&self, client: ClientId) -> bool
        ensures { result ≡ is_some (get self.now.clients client) }
    {
        self.nodes.is_open(client)
    }

    /// The name of a client that is open, 1 to 32 visible characters of ASCII.
    pub fn name(&self, client: ClientId) -> Option<&[u8]>
        ensures { option_copied result ≡ option_map (λ c. c.name) (get self.now.clients client) }
    {
        self.nodes.client_name(client)
    }

    /// How many messages the client's input pool holds, 1 to 2,000; 0 where it is not open.
    pub fn in_size(&self, client: ClientId) -> u32
        ensures { result ≡ input_size (get self.now.clients client) }
    {
        match self.rows.get(client) {
            Some(row) => row.in_size,
            None => 0,
        }
    }

    /// How many scheduled messages and files the client may have still to send; 0 where it is not open.
    pub fn out_size(&self, client: ClientId) -> u32
        ensures { result ≡ out_size (get self.now.clients client) }
    {
        match self.rows.get(client) {
            Some(row) => row.out_size,
            None => 0,
        }
    }

    /// No input pool is of a number that no client has.
    pub fn pools_are_of_clients(&self)
        ensures { (n : ℕ) → (n < first_client) ⊎ (first_client + most_clients ≤ n)
            → get self.now.pools n ≡ None }
    {
        self.rows.rows_are_of_clients();
    }

    /// Whether a client is open and has this port.
    pub fn has_port(&self, client: ClientId, port: PortNo) -> bool
        ensures { result ≡ has_port (get self.now.clients client) port }
    {
        self.nodes.find(&port_addr(client, port)).is_some()
    }

    /// Whether a client is open and has this filter.
    pub fn has_filter(&self, client: ClientId, filter: FilterNo) -> bool
        ensures { result ≡ has_filter (get self.now.clients client) filter }
    {
        self.nodes.find(&filter_addr(client, filter)).is_some()
    }

    /// Whether a client is open and has this queue.
    pub fn has_queue(&self, client: ClientId, queue: QueueNo) -> bool
        ensures { result ≡ has_queue (get self.now.clients client) queue }
    {
        self.queue_of(client, queue).is_some()
    }

    /// What a node allows, if it is there.
    pub fn caps(&self, addr: &Addr) -> Option<Caps>
        ensures { result ≡ node_caps (get self.now.clients addr.now.client) addr.now.node }
    {
        match self.nodes.find(addr) {
            Some(node) => Some(node.caps()),
            None => None,
        }
    }

    /// The name of a port that is there, 1 to 32 visible characters of ASCII.
    pub fn port_name(&self, client: ClientId, port: PortNo) -> Option<&[u8]>
        ensures { let p = port_of (get self.now.clients client) port in
            option_copied result ≡ option_map (λ p. p.name) p }
    {
        match self.nodes.find(&port_addr(client, port)) {
            Some(node) => Some(node.name()),
            None => None,
        }
    }

    /// The rule of a filter that is there.
    #[inline]
    pub fn rule(&self, client: ClientId, filter: FilterNo) -> Option<&Rule>
        ensures { let f = filter_of (get self.now.clients client) filter in
            option_copied result ≡ option_map (λ f. f.rule) f }
    {
        match self.nodes.find(&filter_addr(client, filter)) {
            Some(node) => node.body().rule(),
            None => None,
        }
    }

    /// A queue that is there.
    pub fn queue(&self, addr: &QueueAddr) -> Option<&Queue>
        ensures { let c = get self.now.clients addr.now.client in
            option_copied result ≡ queue_of c addr.now.queue }
    {
        self.queue_of(addr.client, addr.queue)
    }

    fn queue_of(&self, client: ClientId, queue: QueueNo) -> Option<&Queue>
        ensures { option_copied result ≡ queue_of (get self.now.clients client) queue }
    {
        match self.rows.get(client) {
            Some(row) => row.queues.get(queue),
            None => None,
        }
    }

    /// Whether other clients may use one of the client's queues.
    pub fn shares_queue(&self, client: ClientId) -> bool
        ensures none { result ≡ false → NoneShared (queues_of (get self.now.clients client)) }
        ensures some { result ≡ true → SomeShared (queues_of (get self.now.clients client)) }
    {
        match self.rows.get(client) {
            Some(row) => row.queues.has_shared(),
            None => false,
        }
    }

    /// How many messages wait in the client's input pool; 0 where it is not open.
    pub fn waiting(&self, client: ClientId) -> u32
        ensures { result ≡ waiting (get self.now.pools client) }
    {
        match self.rows.get(client) {
            Some(row) => row.pool.waiting(),
            None => 0,
        }
    }

    /// For how many messages of a moment there is room in the client's input pool beside what waits there, or beside
    /// what came at that moment where the client listens; 0 where it is not open.
    pub fn room(&self, client: ClientId, moment: u64) -> u32
        ensures { result ≡ room_of moment (get self.now.pools client) }
    {
        match self.rows.get(client) {
            Some(row) => row.pool.room(moment),
            None => 0,
        }
    }

    /// Whether the client listens; not where it is not open.
    pub fn is_listening(&self, client: ClientId) -> bool
        ensures { result ≡ listens (get self.now.pools client) }
    {
        match self.rows.get(client) {
            Some(row) => row.pool.is_listening(),
            None => false,
        }
    }

    /// How many messages found no room in the client's input pool; 0 where it is not open. The count stays at 2^64 - 1.
    pub fn lost(&self, client: ClientId) -> u64
        ensures { result ≡ lost_count (get self.now.pools client) }
    {
        match self.rows.get(client) {
            Some(row) => row.pool.lost(),
            None => 0,
        }
    }
}
