//! What is known of the ways from the ports that have sent.

ghost use Rattle.std.specs.Prelude.{◌≡◌, ◌++◌, ◌<◌, ◌≤◌, List, [], ◌∷◌, length, None, IfOk, IfSome, OnOk};
ghost use Rattle.std.specs.Ordering.{nat_cmp};
ghost use Rattle.std.specs.FinMap as map;
ghost use Rattle.node_table.specs.Kept.{ReadsAs};
ghost use Rattle.patch_graph.specs.Index.{targets_of};
ghost use Rattle.patch_graph.specs.declared.edge.Edge.{Edge};
ghost use Rattle.seq_state.specs.State.{Client};
ghost use Rattle.seq_state.specs.Step.{pools_after, copies_with_room};
ghost use Rattle.seq_sending.specs.Changes.{AgreeBut};
ghost use Rattle.seq_sending.specs.Table.{AreWaysSoFar, AreWaysFound, AreEarlier, AreWaysKept, IsKnownSoFar, IsSlotFound};
ghost use Rattle.seq_sending.specs.Ways.{AreWays, spread_all};
ghost use Rattle.seq_sending.specs.declared.ways.Way.{Way};

use crate::changes::{Changes, all_at};
use crate::kept_counts::CountTable;
use crate::reach::{Passed, Reach, Through, reach_of};
use crate::sending::send_each;
use crate::ways::{Way, Ways, ways_to};
use memory::OutOfMemory;
use midi_wire::Message;
use node_table::{Addr, ClientId, PortAddr, place_of, row_of};
use patch_graph::PatchGraph;
use seq_clients::Clients;
use seq_state::Delivery;
use std::alloc::Global;

/// The ways from a port, after how many changes they were found, and through whose filters they lead.
#[derive(Drop)]
pub(crate) struct Found {
    pub(crate) at: u64,
    pub(crate) through: Through,
    pub(crate) ways: Ways,
    /// To how many nodes no way is known yet: the port was joined to them since it sent, so they are the last.
    pub(crate) newer: usize,
}

/// The ways from the ports that have sent, and the counts of their messages.
///
/// Ways are known until a rule or a subscription changes of the port's own client, or of one through whose filters they
/// lead, and counts until any changes.
#[derive(Drop)]
pub struct WayTable {
    pub(crate) alloc: Global,
    // By `place_of`; it ends behind the last port that has sent. Ways that are not current any more stay in their
    // places, known no more.
    pub(crate) places: Vec<Option<Found>>,
    pub(crate) changes: Changes,
    pub(crate) counts: CountTable,
}

impl Found {
    /// Its room, for others.
    fn emptied(self, alloc: Global) -> (Vec<Way>, Vec<Passed>)
        ensures { result.0.items ≡ [] }
    {
        (self.ways.emptied(), self.through.emptied(alloc))
    }
}

/// Makes a place in a table, and those before it. `Err` leaves what stands in it.
fn make_place(places: &mut Vec<Option<Found>>, place: usize) -> Result<(), OutOfMemory>
    ensures there { OnOk result (place < length places.new.items) }
    ensures same { ReadsAs None places.new.items places.old.items }
{
    while places.len() <= place {
        places.push(None)?;
    }
    Ok(())
}

/// The ways from a port, where nothing changed on which they hang, and it was joined to no node since.
#[inline]
fn known<'t>(places: &'t [Option<Found>], changes: &Changes, source: &Addr) -> Option<&'t Ways>
    ensures { (clients : map.FinMap nat_cmp Client) (edges : List Edge)
        → AreWaysFound clients edges changes.now places.now
        → IfSome result (λ ways. AreWays clients edges (targets_of edges source.now) ways.now) }
{
    match places.get(place_of(source)) {
        Some(Some(found))
            if found.newer == 0 && changes.is_current(found.at, source.client, &found.through) => {
            Some(&found.ways)
        }
        _ => None,
    }
}

/// Takes what stands at a place out of a table: what is known of the others stays.
fn take(places: &mut Vec<Option<Found>>, place: usize) -> Option<Found>
    ensures taken { (clients : map.FinMap nat_cmp Client) (edges : List Edge) (changes : Changes)
        → AreWaysFound clients edges changes places.old.items
        → IsSlotFound clients edges changes place result }
    ensures left { (clients : map.FinMap nat_cmp Client) (edges : List Edge) (changes : Changes)
        → AreWaysFound clients edges changes places.old.items
        → AreWaysFound clients edges changes places.new.items }
{
    if place >= places.len() {
        return None;
    }
    places[place].take()
}

/// Keeps the ways from a port, as they were found. `Err` leaves what is known.
fn keep_ways(
    places: &mut Vec<Option<Found>>,
    source: &Addr,
    found: Found,
) -> Result<(), OutOfMemory>
    ensures { (clients : map.FinMap nat_cmp Client) (edges : List Edge) (changes : Changes)
        → AreWaysSoFar clients edges (targets_of edges source.now) found
        → found.at ≤ changes.count → AreWaysFound clients edges changes places.old.items
        → AreWaysFound clients edges changes places.new.items }
{
    let place = place_of(source);
    make_place(places, place)?;
    places[place] = Some(found);
    Ok(())
}

/// Finds the ways from a port, of which something was known or nothing: what is current stays known.
fn find(
    known: Option<Found>,
    alloc: Global,
    clients: &Clients,
    graph: &PatchGraph,
    changes: &Changes,
    source: &Addr,
) -> Result<Found, OutOfMemory>
    requires { IsKnownSoFar clients.now.clients graph.now changes.now source.now known }
    ensures at { IfOk result (λ found. found.at ≡ changes.now.count) }
    ensures all { IfOk result (λ found. found.newer ≡ 0) }
    ensures ways { let targets = targets_of graph.now source.now in
        IfOk result (λ found. AreWaysSoFar clients.now.clients graph.now targets found) }
{
    let targets = graph.targets(source);
    let (ways, through) = match known {
        Some(found) => {
            let mut found = found;
            if changes.is_current(found.at, source.client, &found.through)
                && found.catch_up(clients, graph, targets)
            {
                found.at = changes.count;
                return Ok(found);
            }
            found.emptied(alloc)
        }
        None => (Vec::new(alloc), Vec::new(alloc)),
    };
    let Reach { nodes, through } = reach_of(through, graph, targets)?;
    let ways = ways_to(ways, clients, graph, targets, nodes)?;
    Ok(Found {
        at: changes.count,
        through,
        ways,
        newer: 0,
    })
}

impl WayTable {
    /// No ways are known. It takes no memory.
    pub fn new(alloc: Global) -> WayTable
        ensures { (clients : map.FinMap nat_cmp Client) (edges : List Edge)
            → AreWaysKept clients edges result }
    {
        WayTable {
            alloc,
            places: Vec::new(alloc),
            changes: Changes::new(),
            counts: CountTable::new(alloc),
        }
    }

    /// The one port to which all that a port sends goes unchanged, if that is known.
    #[inline(always)]
    pub fn straight(&self, source: &Addr) -> Option<PortAddr>
        ensures { (clients : map.FinMap nat_cmp Client) (edges : List Edge)
            → AreWaysKept clients edges self.now → IfSome result
            (λ end. AreWays clients edges (targets_of edges source.now) (Way.Straight end ∷ [])) }
    {
        known(self.places.as_slice(), &self.changes, source)?.straight_end()
    }

    /// Sends messages one after another from a port, and keeps the ways by which they go.
    ///
    /// What reaches nobody takes no memory. `Err` is out of memory, and may leave some copies sent.
    pub fn send_all(
        &mut self,
        clients: &mut Clients,
        graph: &PatchGraph,
        moment: u64,
        source: &Addr,
        messages: &[Message],
        out: &mut Vec<Delivery>,
    ) -> Result<(), OutOfMemory>
        requires { AreWaysKept clients.old.clients graph.now self.old }
        ensures kept { AreWaysKept clients.old.clients graph.now self.new }
        ensures clients { clients.new.clients ≡ clients.old.clients }
        ensures pools { let c = clients.old in let targets = targets_of graph.now source.now in
            let ds = spread_all c.clients graph.now moment targets messages.now in
            OnOk result (clients.new.pools ≡ pools_after c.pools ds) }
        ensures sent { let c = clients.old in let targets = targets_of graph.now source.now in
            let ds = spread_all c.clients graph.now moment targets messages.now in
            OnOk result (out.new.items ≡ out.old.items ++ copies_with_room c.pools ds) }
    {
        let alloc = self.alloc;
        let (changes, counts) = (&self.changes, &mut self.counts);
        if let Some(ways) = known(self.places.as_slice(), changes, source) {
            return send_each(
                alloc, clients, graph, moment, source, ways, messages, counts, out,
            );
        }
        if graph.targets(source).is_empty() {
            return Ok(());
        }
        let known = take(&mut self.places, place_of(source));
        let found = find(known, alloc, clients, graph, changes, source)?;
        let ways = &found.ways;
        send_each(
            alloc, clients, graph, moment, source, ways, messages, counts, out,
        )?;
        keep_ways(&mut self.places, source, found)
    }

    /// Forgets what hangs on a client, since its rules or what leaves its nodes change, and all counts. It takes no
    /// memory, and keeps what it has.
    pub fn forget_client(&mut self, client: ClientId)
        ensures { (clients others : map.FinMap nat_cmp Client) (edges other_edges : List Edge)
            → AgreeBut client clients others edges other_edges
            → AreWaysKept clients edges self.old → AreWaysKept others other_edges self.new }
    {
        let change = self.next_change();
        self.changes.last[row_of(client)] = change;
    }

    /// Forgets all, since rules or subscriptions of anybody change. It takes no memory, and keeps what it has.
    pub fn clear(&mut self)
        ensures { (clients others : map.FinMap nat_cmp Client) (edges other_edges : List Edge)
            → AreWaysKept clients edges self.old → AreWaysKept others other_edges self.new }
    {
        let change = self.next_change();
        self.changes.last = all_at(change);
    }

    /// Counts one change more, and gives its number: all that stands in the table was found before it. No count stays.
    fn next_change(&mut self) -> u64
        ensures changes { self.new.changes ≡ record self.old.changes { count = result } }
        ensures counts { self.new.counts.kept.items ≡ [] }
        ensures earlier { (clients : map.FinMap nat_cmp Client) (edges : List Edge)
            → AreWaysFound clients edges self.old.changes self.old.places.items
            → AreWaysFound clients edges self.old.changes self.new.places.items
            × AreEarlier result self.new.places.items }
    {
        self.counts.clear();
        if self.changes.count == u64::MAX {
            self.places.clear();
            return u64::MAX;
        }
        self.changes.count += 1;
        self.changes.count
    }
}
