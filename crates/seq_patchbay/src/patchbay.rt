//! The open clients and the subscriptions between their nodes.

ghost use Rattle.std.specs.Prelude.{◌≡◌, true, [], ◌++◌, length, IsOk, IfOk, OnOk, OnErr};
ghost use Rattle.std.specs.FinMap.{get};
ghost use Rattle.midi_wire.specs.Readings.{reading};
ghost use Rattle.seq_state.specs.Effect.{has_port, port_of, fed_of, port_fed, put_port, with_change, oldest, without_oldest, with_listening, without_listening};
ghost use Rattle.seq_state.specs.Step.{pools_after, copies_with_room};
ghost use Rattle.seq_clients.specs.Roster.{nobody, with_client, with_pool};
ghost use Rattle.seq_patchbay.specs.Leaving.{copies_of_all};

use memory::OutOfMemory;
use midi_wire::Message;
use node_table::{Addr, ClientId, Node, PortNo, QueueAddr};
use patch_graph::PatchGraph;
use seq_clients::Clients;
use seq_sending::{WayTable, deliver};
use seq_settle::Desk;
use seq_state::{Arrival, Delivery};
use std::alloc::Global;
use std::marker::Model;
use std::slice;
use tempo_clock::Due;

/// The open clients and the subscriptions between their nodes.
#[derive(Drop)]
pub struct Patchbay {
    pub(crate) clients: Clients,
    pub(crate) graph: PatchGraph,
    pub(crate) ways: WayTable,
}

impl Model for Patchbay {
    ghost use Rattle.seq_patchbay.specs.Network.{Network, coded_network};
    ghost use Rattle.seq_sending.specs.Table.{AreWaysKept};

    ghost Value = { Network };

    ghost coded = { coded_network };

    ghost view = { λ p. record { clients = p.clients; graph = p.graph } };

    ghost invariant = { λ p. AreWaysKept p.clients.clients p.graph p.ways };
}

impl Patchbay {
    /// Nobody is open. It takes no memory.
    pub fn new(alloc: Global) -> Patchbay
        ensures clients { result.clients ≡ nobody }
        ensures graph { result.graph ≡ [] }
    {
        Patchbay {
            clients: Clients::new(alloc),
            graph: PatchGraph::new(alloc),
            ways: WayTable::new(alloc),
        }
    }

    /// The open clients.
    #[inline]
    pub fn clients(&self) -> &Clients
        ensures { result.now ≡ self.now.clients }
    {
        &self.clients
    }

    /// The subscriptions, oldest first.
    #[inline]
    pub fn graph(&self) -> &PatchGraph
        ensures { result.now ≡ self.now.graph }
    {
        &self.graph
    }

    /// Feeds the stream of a port, as `Clients::feed` does. It changes no way of a message.
    pub fn feed(
        &mut self,
        client: ClientId,
        port: PortNo,
        bytes: &[u8],
        out: &mut Vec<Message>,
    ) -> Result<usize, OutOfMemory>
        requires { has_port (get self.old.clients.clients client) port ≡ true }
        ensures fed { let was = self.old.clients in let c = get was.clients client in
            let fed = put_port port (port_fed bytes.now (port_of c port)) in
            OnOk result (self.new.clients ≡ with_client was client (with_change c fed)) }
        ensures graph { self.new.graph ≡ self.old.graph }
        ensures told { let fed = fed_of (port_of (get self.old.clients.clients client) port) in
            OnOk result (out.new.items ≡ out.old.items ++ reading (fed ++ bytes.now)) }
        ensures number { let fed = fed_of (port_of (get self.old.clients.clients client) port) in
            IfOk result (λ n. n ≡ length (reading (fed ++ bytes.now))) }
        ensures empty { bytes.now ≡ [] → IsOk result }
    {
        let fed = self.clients.feed(client, port, bytes, out);
        if fed.is_err() {
            self.ways.clear();
        }
        fed
    }

    /// Takes what waits in a client's input pool, as `Clients::receive` does. It changes no way of a message.
    pub fn receive(&mut self, client: ClientId, max: u32) -> Result<Vec<Arrival>, OutOfMemory>
        ensures ok { let pool = get self.old.clients.pools client in
            IfOk result (λ items. items.items ≡ oldest max pool) }
        ensures left { let pool = without_oldest max (get self.old.clients.pools client) in
            OnOk result (self.new.clients ≡ with_pool self.old.clients client pool) }
        ensures graph { self.new.graph ≡ self.old.graph }
        ensures err { OnErr result (self.new ≡ self.old) }
    {
        self.clients.receive(client, max)
    }

    /// Lets a client listen, as `Clients::listen` does. It changes no way of a message.
    pub fn listen(&mut self, client: ClientId)
        ensures clients { let pool = with_listening (get self.old.clients.pools client) in
            self.new.clients ≡ with_pool self.old.clients client pool }
        ensures graph { self.new.graph ≡ self.old.graph }
    {
        self.clients.listen(client);
    }

    /// Lets what comes to a client wait again, as `Clients::unlisten` does. It changes no way of a message.
    pub fn unlisten(&mut self, client: ClientId)
        ensures clients { let pool = without_listening (get self.old.clients.pools client) in
            self.new.clients ≡ with_pool self.old.clients client pool }
        ensures graph { self.new.graph ≡ self.old.graph }
    {
        self.clients.unlisten(client);
    }

    /// Sends messages from a port, one after another. No messages take no memory; out of memory may leave some copies
    /// sent.
    pub fn send_all(
        &mut self,
        moment: u64,
        client: ClientId,
        port: PortNo,
        messages: &[Message],
        out: &mut Vec<Delivery>,
    ) -> Result<(), OutOfMemory>
        ensures clients { OnOk result (self.new.clients.clients ≡ self.old.clients.clients) }
        ensures graph { OnOk result (self.new.graph ≡ self.old.graph) }
        ensures pools { let r = self.old.clients in
            let ds = copies_of_all r.clients self.old.graph moment client port messages.now in
            OnOk result (self.new.clients.pools ≡ pools_after r.pools ds) }
        ensures sent { let r = self.old.clients in
            let ds = copies_of_all r.clients self.old.graph moment client port messages.now in
            OnOk result (out.new.items ≡ out.old.items ++ copies_with_room r.pools ds) }
        ensures none { messages.now ≡ [] → IsOk result }
    {
        // Where a piece of a stream completes no message, no way is looked for, which might take memory.
        if messages.is_empty() {
            return Ok(());
        }
        let source = Addr {
            client,
            node: Node::Port(port),
        };
        let (clients, graph) = (&mut self.clients, &self.graph);
        self.ways
            .send_all(clients, graph, moment, &source, messages, out)
    }
}

impl Desk for Patchbay {
    ghost clients = { λ p. p.clients.clients };

    ghost pools = { λ p. p.clients.pools };

    ghost edges = { λ p. p.graph };

    #[inline(always)]
    fn moment_of(&self, queue: &QueueAddr, accepted: u64, due: Due) -> Option<u64> {
        let queue = self.clients.queue(queue)?;
        queue.clock().due_moment(due, accepted)
    }

    #[inline(always)]
    fn send(
        &mut self,
        moment: u64,
        client: ClientId,
        port: PortNo,
        message: Message,
        out: &mut Vec<Delivery>,
    ) -> Result<(), OutOfMemory> {
        let source = Addr {
            client,
            node: Node::Port(port),
        };
        // Most messages go straight to one port.
        if let Some(end) = self.ways.straight(&source) {
            message.is_message();
            return deliver(&mut self.clients, moment, end, message, out);
        }
        self.send_all(moment, client, port, slice::from_ref(&message), out)
    }
}
