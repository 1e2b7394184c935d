//! Changes of one client's filters, and of what leaves its nodes: the ways that hang on others stay known.

ghost use Rattle.std.specs.Prelude.{◌≡◌, ◌<◌, true, false, is_some, Some, [], ◌∷◌, ◌++◌, OnOk, OnErr};
ghost use Rattle.std.specs.FinMap.{get};
ghost use Rattle.patch_graph.specs.Chains.{makes_cycle};
ghost use Rattle.patch_graph.specs.Edges.{edge, has_edge, without_edge, sources_of, most_sources};
ghost use Rattle.seq_state.specs.Effect.{has_filter, filter_of, filter_ruled, with_change, put_filter, new_filter};
ghost use Rattle.seq_clients.specs.Roster.{with_client};

use crate::patchbay::Patchbay;
use memory::OutOfMemory;
use node_table::{Addr, Caps, ClientId, FilterNo};
use route_filter::Rule;

impl Patchbay {
    /// Makes a filter, as `Clients::create_filter` does. `Err` leaves all as it was.
    pub fn create_filter(
        &mut self,
        client: ClientId,
        filter: FilterNo,
        caps: Caps,
        rule: Rule,
    ) -> Result<(), OutOfMemory>
        requires open { is_some (get self.old.clients.clients client) ≡ true }
        requires free { has_filter (get self.old.clients.clients client) filter ≡ false }
        ensures ok { let made = put_filter filter (Some (new_filter caps rule)) in
            let c = with_change (get self.old.clients.clients client) made in
            OnOk result (self.new.clients ≡ with_client self.old.clients client c) }
        ensures graph { self.new.graph ≡ self.old.graph }
        ensures err { OnErr result (self.new ≡ self.old) }
    {
        self.ways.forget_client(client);
        self.clients.create_filter(client, filter, caps, rule)
    }

    /// Gives a filter that is there another rule. It takes no memory.
    pub fn set_filter(&mut self, client: ClientId, filter: FilterNo, rule: Rule)
        requires { has_filter (get self.old.clients.clients client) filter ≡ true }
        ensures clients { let c = get self.old.clients.clients client in
            let ruled = put_filter filter (filter_ruled rule (filter_of c filter)) in
            self.new.clients ≡ with_client self.old.clients client (with_change c ruled) }
        ensures graph { self.new.graph ≡ self.old.graph }
    {
        self.ways.forget_client(client);
        self.clients.set_filter(client, filter, rule);
    }

    /// Adds a subscription, as `PatchGraph::add` does. `Err` leaves all as it was.
    pub fn connect(&mut self, source: Addr, target: Addr) -> Result<(), OutOfMemory>
        requires fresh { has_edge self.old.graph source target ≡ false }
        requires room { sources_of self.old.graph target < most_sources }
        requires clear { makes_cycle self.old.graph source target ≡ false }
        ensures clients { self.new.clients ≡ self.old.clients }
        ensures ok { OnOk result (self.new.graph ≡ self.old.graph ++ edge source target ∷ []) }
        ensures err { OnErr result (self.new ≡ self.old) }
    {
        self.graph.add(source, target)?;
        self.ways.join(&source);
        Ok(())
    }

    /// Ends a subscription that may be there. It takes no memory.
    pub fn disconnect(&mut self, source: &Addr, target: &Addr)
        ensures clients { self.new.clients ≡ self.old.clients }
        ensures graph { self.new.graph ≡ without_edge self.old.graph source.now target.now }
    {
        if let Some(place) = self.graph.part(source, target) {
            self.ways.part(&self.graph, source, target, place);
        }
    }
}
