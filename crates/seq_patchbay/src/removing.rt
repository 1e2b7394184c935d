//! Nodes and clients that go with their subscriptions: the ways that hang on others stay known.

ghost use Rattle.std.specs.Prelude.{◌≡◌, false, not, [], None};
ghost use Rattle.std.specs.Bool.{OnTrue, OnFalse};
ghost use Rattle.std.specs.FinMap.{get};
ghost use Rattle.std.specs.List as list;
ghost use Rattle.std.specs.List.{list_any};
ghost use Rattle.node_table.specs.Addresses.{same};
ghost use Rattle.patch_graph.specs.Index.{origins_of, LosesOne};
ghost use Rattle.patch_graph.specs.Edges.{touches, touches_client, ends_at_client};
ghost use Rattle.seq_state.specs.Effect.{with_change, put_port, put_filter};
ghost use Rattle.seq_state.specs.Step.{port_addr, filter_addr};
ghost use Rattle.seq_clients.specs.Roster.{with_client, with_pool};

use crate::patchbay::Patchbay;
use node_table::{Addr, ClientId, FilterNo, MOST_FILTERS, MOST_PORTS, Node, PortNo};
use patch_graph::Origin;

impl Patchbay {
    /// Closes a client, with its subscriptions. It takes no memory.
    pub fn close(&mut self, client: ClientId)
        ensures clients { self.new.clients
            ≡ with_pool (with_client self.old.clients client None) client None }
        ensures graph { self.new.graph
            ≡ list.filter (λ e. not (touches_client client e)) self.old.graph }
    {
        self.end_into_client(client);
        self.ways.forget_client(client);
        self.graph.remove_client(client);
        self.clients.close(client);
    }

    /// Drops a port that may be there, with its subscriptions. It takes no memory.
    pub fn delete_port(&mut self, client: ClientId, port: PortNo)
        ensures clients { let was = self.old.clients in
            let c = with_change (get was.clients client) (put_port port None) in
            self.new.clients ≡ with_client was client c }
        ensures graph { self.new.graph
            ≡ list.filter (λ e. not (touches (port_addr client port) e)) self.old.graph }
    {
        let node = Addr {
            client,
            node: Node::Port(port),
        };
        self.end_into(&node);
        self.ways.forget_client(client);
        self.graph.remove_node(&node);
        self.clients.delete_port(client, port);
    }

    /// Drops a filter that may be there, with its subscriptions. It takes no memory.
    pub fn delete_filter(&mut self, client: ClientId, filter: FilterNo)
        ensures clients { let was = self.old.clients in
            let c = with_change (get was.clients client) (put_filter filter None) in
            self.new.clients ≡ with_client was client c }
        ensures graph { self.new.graph
            ≡ list.filter (λ e. not (touches (filter_addr client filter) e)) self.old.graph }
    {
        let node = Addr {
            client,
            node: Node::Filter(filter),
        };
        self.end_into(&node);
        self.ways.forget_client(client);
        self.graph.remove_node(&node);
        self.clients.delete_filter(client, filter);
    }

    /// Ends the subscriptions to a node, so that what hangs on their sources' clients is forgotten.
    fn end_into(&mut self, node: &Addr)
        ensures clients { self.new.clients ≡ self.old.clients }
        ensures rest { list.filter (λ e. not (touches node.now e)) self.new.graph
            ≡ list.filter (λ e. not (touches node.now e)) self.old.graph }
        ensures none { list_any (λ e. same node.now e.target) self.new.graph ≡ false }
    {
        while self.end_youngest_into(node) {}
    }

    /// Ends the youngest subscription to a node, and says whether there was one.
    fn end_youngest_into(&mut self, node: &Addr) -> bool
        ensures clients { self.new.clients ≡ self.old.clients }
        ensures gone { OnTrue result (LosesOne node.now self.old.graph self.new.graph) }
        ensures none { OnFalse result (origins_of self.old.graph node.now ≡ []) }
        ensures kept { OnFalse result (self.new.graph ≡ self.old.graph) }
    {
        let Some(Origin { source, place }) = self.graph.pop_source(node) else {
            return false;
        };
        self.ways.part(&self.graph, &source, node, place);
        true
    }

    /// Ends the subscriptions to a client's nodes, as `end_into` does.
    fn end_into_client(&mut self, client: ClientId)
        ensures clients { self.new.clients ≡ self.old.clients }
        ensures rest { list.filter (λ e. not (touches_client client e)) self.new.graph
            ≡ list.filter (λ e. not (touches_client client e)) self.old.graph }
        ensures none { list_any (ends_at_client client) self.new.graph ≡ false }
    {
        // Node by node, since `edge_into` looks at all nodes of the client for each edge. None is left for it.
        for number in 0..MOST_PORTS {
            if let Some(port) = PortNo::new(number) {
                let node = Node::Port(port);
                self.end_into(&Addr { client, node });
            }
        }
        for number in 0..MOST_FILTERS {
            if let Some(filter) = FilterNo::new(number) {
                let node = Node::Filter(filter);
                self.end_into(&Addr { client, node });
            }
        }
        while let Some(edge) = self.graph.edge_into(client) {
            self.disconnect(&edge.source, &edge.target);
        }
    }
}
