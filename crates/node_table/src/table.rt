//! The clients that are open, and their nodes.

ghost use Rattle.std.specs.Prelude.{◌≡◌, ℕ, ◌+◌, ◌<◌, ◌≤◌, ◌↔◌, true, false, length, slice_index_or, is_some, Some, None, IsSome, IfSome, IfNone, OnOk, OnErr, IfErr, IsErrOf, IsTrue};
ghost use Rattle.std.specs.Option.{option_copied, option_copied_mut, option_map};
ghost use Rattle.std.specs.Borrow.{sem};
ghost use Rattle.std.specs.FinMap as map;
ghost use Rattle.node_table.specs.Names.{is_name};
ghost use Rattle.node_table.specs.Capabilities.{permits};
ghost use Rattle.node_table.specs.Nodes.{empty_client, name_of, node_seen, is_name_for, is_open, ports_in, filters_in, node_at, with_node, without_node, bits_of};
ghost use Rattle.node_table.specs.Listing.{IsNext, NoneFrom};
ghost use Rattle.node_table.specs.Faults.{body_of};

use crate::caps::{self, Caps};
use crate::fault::{CreateFault, OpenFault};
use crate::info::NodeInfo;
use crate::name::is_name;
use crate::number::{Addr, ClientId, FilterNo, MOST_FILTERS, MOST_PORTS, Node, PortNo};
use crate::place::{CLIENT_PLACES, MOST_CLIENTS, make_places, place_of, row_of};
use crate::slots::nothing;
use memory::OutOfMemory;
use slab::Slab;
use std::alloc::{AllocFailed, Global};
use std::marker::Model;

/// The clients that are open, each with its name and its nodes.
///
/// What is at an address is found in constant time. Only the calls that open a client or make a node take memory, and
/// that of a node that went is given back or serves a later one.
#[derive(Drop)]
pub struct NodeTable<P> {
    alloc: Global,
    // By `row_of` the client.
    names: [Option<Vec<u8>>; MOST_CLIENTS],
    // By `place_of`: where the node is in `nodes`. It is empty until the first node is made.
    keys: Vec<Option<usize>>,
    nodes: Slab<NodeInfo<P>>,
}

impl<P> Model for NodeTable<P> {
    ghost use Rattle.std.specs.Prelude.{ℕ, slice_index_or, None};
    ghost use Rattle.std.specs.Option.{option_map};
    ghost use Rattle.std.specs.Ordering.{nat_cmp};
    ghost use Rattle.std.specs.Coded.{coded_ℕ};
    ghost use Rattle.std.specs.FinMap as map;
    ghost use Rattle.node_table.specs.Nodes.{ClientNodes, coded_client_nodes};
    ghost use Rattle.node_table.specs.Kept.{clients_kept, at_place, AreNodesKept};

    ghost Value = { map.FinMap nat_cmp (ClientNodes P) };

    ghost coded = { map.code coded_ℕ (coded_client_nodes P.code) };

    ghost view = { λ t. clients_kept
        (λ row. option_map (λ v. v.items) (slice_index_or t.names row None))
        (at_place t.keys.items t.nodes.slots) };

    ghost invariant = { λ t. AreNodesKept t.names t.keys.items t.nodes.slots };
}

/// Where the node of a place is.
fn key_at(keys: &[Option<usize>], place: usize) -> Option<usize>
    ensures { result ≡ slice_index_or keys.now place None }
{
    *keys.get(place)?
}

fn is_name_for(node: Node, name: &[u8]) -> bool
    ensures { result ≡ is_name_for node name.now }
{
    match node {
        Node::Port(_) => is_name(name),
        Node::Filter(_) => name.is_empty(),
    }
}

impl<P> NodeTable<P> {
    ghost use Rattle.node_table.specs.LendsNode.{LendsIfThere, LendsThere};

    /// A table in which no client is open.
    pub fn new(alloc: Global) -> NodeTable<P>
        ensures { result ≡ map.empty }
    {
        NodeTable {
            alloc,
            names: nothing(),
            keys: Vec::new(alloc),
            nodes: Slab::new(alloc),
        }
    }

    /// Opens a client with no nodes. The refusals are tested in the order of `OpenFault`, and each leaves all as it
    /// was.
    pub fn open_client(&mut self, client: ClientId, name: &[u8]) -> Result<(), OpenFault>
        ensures ok { OnOk result (self.new ≡ map.insert self.old client (empty_client name.now)) }
        ensures err { OnErr result (self.new ≡ self.old) }
        ensures already_open { IsErrOf result OpenFault.AlreadyOpen
            ↔ (is_open self.old client ≡ true) }
        ensures bad_name { IsErrOf result OpenFault.BadName
            ↔ ((is_open self.old client ≡ false) × (is_name name.now ≡ false)) }
    {
        if self.is_open(client) {
            return Err(OpenFault::AlreadyOpen);
        }
        if !is_name(name) {
            return Err(OpenFault::BadName);
        }
        self.add_client(client, name)?;
        Ok(())
    }

    /// Opens a client with no nodes, as `open_client` does, for a caller that has made its tests. `Err` leaves all as
    /// it was.
    pub fn add_client(&mut self, client: ClientId, name: &[u8]) -> Result<(), OutOfMemory>
        requires fresh { is_open self.old client ≡ false }
        requires named { is_name name.now ≡ true }
        ensures ok { OnOk result (self.new ≡ map.insert self.old client (empty_client name.now)) }
        ensures err { OnErr result (self.new ≡ self.old) }
    {
        let name = Vec::from_slice(self.alloc, name)?;
        self.names[row_of(client)] = Some(name);
        Ok(())
    }

    /// Closes a client and deletes its nodes, and says whether it was open.
    pub fn close_client(&mut self, client: ClientId) -> bool
    where
        P: Drop,
        ensures open { result ≡ is_open self.old client }
        ensures closed { self.new ≡ map.remove self.old client }
    {
        if !self.is_open(client) {
            return false;
        }
        let row = row_of(client);
        let first = row * CLIENT_PLACES;
        for place in first..first + CLIENT_PLACES {
            if let Some(key) = key_at(&self.keys, place) {
                self.keys[place] = None;
                self.nodes.remove(key);
            }
        }
        self.names[row] = None;
        true
    }

    /// Whether a client is open.
    pub fn is_open(&self, client: ClientId) -> bool
        ensures { result ≡ is_open self.now client }
    {
        self.names[row_of(client)].is_some()
    }

    /// The name of a client that is open.
    pub fn client_name(&self, client: ClientId) -> Option<&[u8]>
        ensures { option_copied result ≡ name_of (map.get self.now client) }
    {
        match &self.names[row_of(client)] {
            Some(name) => Some(name.as_slice()),
            None => None,
        }
    }

    /// Makes a node of a client that is open. The refusals are tested in the order of `CreateFault`, and each leaves
    /// all as it was and gives the body back.
    pub fn create(
        &mut self,
        addr: Addr,
        name: &[u8],
        caps: Caps,
        body: P,
    ) -> Result<(), CreateFault<P>>
        ensures ok { OnOk result
            (self.new ≡ with_node self.old addr (node_seen name.now caps body)) }
        ensures err { OnErr result (self.new ≡ self.old) }
        ensures body_back { IfErr result (λ e. body_of e ≡ body) }
        ensures not_open { IsErrOf result (CreateFault.NotOpen body)
            ↔ (is_open self.old addr.client ≡ false) }
        ensures bad_name { IsErrOf result (CreateFault.BadName body)
            ↔ ((is_open self.old addr.client ≡ true) × (is_name_for addr.node name.now ≡ false)) }
        ensures exists { IsErrOf result (CreateFault.Exists body)
            ↔ ((is_open self.old addr.client ≡ true)
            × (is_name_for addr.node name.now ≡ true) × IsSome (node_at self.old addr)) }
    {
        if !self.is_open(addr.client) {
            return Err(CreateFault::NotOpen(body));
        }
        if !is_name_for(addr.node, name) {
            return Err(CreateFault::BadName(body));
        }
        if self.find(&addr).is_some() {
            return Err(CreateFault::Exists(body));
        }
        match self.add_node(addr, name, caps, body) {
            Ok(()) => Ok(()),
            Err(failed) => Err(CreateFault::OutOfMemory(failed.value)),
        }
    }

    /// Makes a node, as `create` does, for a caller that has made its tests. `Err` leaves all as it was and gives the
    /// body back.
    pub fn add_node(
        &mut self,
        addr: Addr,
        name: &[u8],
        caps: Caps,
        body: P,
    ) -> Result<(), AllocFailed<P>>
        requires open { is_open self.old addr.client ≡ true }
        requires named { is_name_for addr.node name.now ≡ true }
        requires fresh { node_at self.old addr ≡ None }
        ensures ok { OnOk result
            (self.new ≡ with_node self.old addr (node_seen name.now caps body)) }
        ensures err { OnErr result (self.new ≡ self.old) }
        ensures body_back { IfErr result (λ failed. failed.value ≡ body) }
    {
        let Ok(()) = make_places(&mut self.keys, None) else {
            return Err(AllocFailed { value: body });
        };
        let Ok(name) = Vec::from_slice(self.alloc, name) else {
            return Err(AllocFailed { value: body });
        };
        match self.nodes.insert(NodeInfo::new(name, caps, body)) {
            Ok(key) => {
                self.keys[place_of(&addr)] = Some(key);
                Ok(())
            }
            Err(failed) => Err(AllocFailed {
                value: failed.value.into_body(),
            }),
        }
    }

    /// Deletes a node and gives its body, where there is one.
    pub fn delete(&mut self, addr: Addr) -> Option<P>
        ensures body { result ≡ option_map (λ n. n.body) (node_at self.old addr) }
        ensures deleted { self.new ≡ without_node self.old addr }
    {
        let place = place_of(&addr);
        let key = key_at(&self.keys, place)?;
        self.keys[place] = None;
        Some(self.nodes.remove(key).into_body())
    }

    /// The node at an address.
    pub fn find(&self, addr: &Addr) -> Option<&NodeInfo<P>>
        ensures { option_copied result ≡ node_at self.now addr.now }
    {
        match key_at(&self.keys, place_of(addr)) {
            Some(key) => self.nodes.get(key),
            None => None,
        }
    }

    /// The body of a node, to be changed.
    pub fn body_mut(&mut self, addr: &Addr) -> Option<&mut P>
        ensures* writes_back { sem 𝓛 (LendsIfThere P.row self.entry addr.now result) }
        ensures value { option_copied_mut result
            ≡ option_map (λ n. n.body) (node_at self.old addr.now) }
    {
        if self.find(addr).is_some() {
            Some(self.body_there(addr))
        } else {
            None
        }
    }

    fn body_there(&mut self, addr: &Addr) -> &mut P
        requires { IsSome (node_at self.old addr.now) }
        ensures* writes_back { sem 𝓛 (LendsThere P.row self.entry addr.now result) }
        ensures value { option_map (λ n. n.body) (node_at self.old addr.now) ≡ Some result.now }
    {
        let key = key_at(&self.keys, place_of(addr)).unwrap();
        self.nodes[key].body_mut()
    }

    /// Whether an actor may join or part two nodes that are there, by the rule of `permitted`.
    pub fn permitted(&self, actor: ClientId, source: &Addr, target: &Addr) -> bool
        requires source { IsSome (node_at self.now source.now) }
        requires target { IsSome (node_at self.now target.now) }
        ensures { result ≡ permits actor
            source.now (bits_of (node_at self.now source.now))
            target.now (bits_of (node_at self.now target.now)) }
    {
        let read = self.find(source).unwrap().caps();
        let write = self.find(target).unwrap().caps();
        caps::permitted(actor, source, read, target, write)
    }

    /// The client's port with the least number at or after `from`, to list them in order.
    pub fn next_port(&self, client: ClientId, from: u8) -> Option<(PortNo, &NodeInfo<P>)>
        ensures next { IfSome result
            (λ r. IsNext (ports_in (map.get self.now client)) from r.0 r.1.now) }
        ensures none { IfNone result (NoneFrom (ports_in (map.get self.now client)) from) }
    {
        let first = row_of(client) * CLIENT_PLACES;
        for number in from..MOST_PORTS {
            if let Some(key) = key_at(&self.keys, first + number as usize) {
                return Some((PortNo::new(number).unwrap(), &self.nodes[key]));
            }
        }
        None
    }

    /// The client's filter with the least number at or after `from`, to list them in order.
    pub fn next_filter(&self, client: ClientId, from: u8) -> Option<(FilterNo, &NodeInfo<P>)>
        ensures next { IfSome result
            (λ r. IsNext (filters_in (map.get self.now client)) from r.0 r.1.now) }
        ensures none { IfNone result (NoneFrom (filters_in (map.get self.now client)) from) }
    {
        let first = row_of(client) * CLIENT_PLACES + MOST_PORTS as usize;
        for number in from..MOST_FILTERS {
            if let Some(key) = key_at(&self.keys, first + number as usize) {
                return Some((FilterNo::new(number).unwrap(), &self.nodes[key]));
            }
        }
        None
    }
}
