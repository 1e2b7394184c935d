//! What becomes of a message on each way from a port.

ghost use Rattle.std.specs.Prelude.{◌≡◌, ◌-◌, take, IfOk, OnOk};
ghost use Rattle.patch_graph.specs.Paths.{routes};
ghost use Rattle.way_fates.specs.Counts.{way_count};
ghost use Rattle.way_fates.specs.Fates.{fates};
ghost use Rattle.way_fates.specs.Kept.{fate_by, rooms_past, fates_by};

use crate::counting::count_ways;
use crate::fate::{Fate, Fates, WayFate};
use crate::passing::stopped_at;
use crate::rooms::Rooms;
use memory::{Items, OutOfMemory};
use midi_wire::Message;
use node_table::Addr;
use patch_graph::{PatchGraph, Route};
use seq_clients::Clients;
use seq_patchbay::Patchbay;
use std::alloc::Global;

/// What becomes of a message on a way, and what room is left then.
fn fate_on(
    clients: &Clients,
    rooms: &mut Rooms,
    route: &Route,
    message: &Message,
) -> Result<Fate, OutOfMemory>
    ensures fate { let c = clients.now.clients in
        IfOk result (λ fate. fate ≡ fate_by c message.now rooms.old route.now) }
    ensures left { let c = clients.now.clients in
        OnOk result (rooms.new ≡ rooms_past c message.now rooms.old route.now) }
{
    if let Some(stopped) = stopped_at(clients, route.nodes(), message)? {
        return Ok(stopped);
    }
    let client = route.last().client;
    if rooms.take(client) {
        return Ok(Fate::Arrives);
    }
    let size = clients.in_size(client);
    Ok(Fate::Lost { size })
}

/// What becomes of a message on the first ways from a node.
fn first_fates(
    alloc: Global,
    clients: &Clients,
    graph: &PatchGraph,
    rooms: &mut Rooms,
    source: &Addr,
    message: &Message,
    most: usize,
) -> Result<Vec<WayFate>, OutOfMemory>
    ensures { let all = routes graph.now source.now in
        let by = fates_by clients.now.clients message.now rooms.old all in
        IfOk result (λ ways. ways.items ≡ take most by) }
{
    let mut ways = Vec::new(alloc);
    let mut routes = graph.routes(source);
    for _turn in 0..most {
        let Some(route) = routes.next() else {
            return Ok(ways);
        };
        let fate = fate_on(clients, rooms, &route, message)?;
        ways.push(WayFate { route, fate })?;
    }
    Ok(ways)
}

/// What becomes of a message that is sent from a port at a moment, on the first `most` ways from there, and how many
/// ways more there are.
///
/// Nothing is sent, and nothing changes. Memory is for the ways that are told, and some 40 KiB beside them.
pub fn fates(
    alloc: Global,
    patchbay: &Patchbay,
    moment: u64,
    source: &Addr,
    message: &Message,
    most: usize,
) -> Result<Fates, OutOfMemory>
    ensures ways { let clients = patchbay.now.clients in
        let meant = fates clients patchbay.now.graph moment source.now message.now in
        IfOk result (λ f. f.ways ≡ take most meant) }
    ensures more { let count = way_count patchbay.now.graph source.now in
        IfOk result (λ f. f.more ≡ count - most) }
{
    let (clients, graph) = (patchbay.clients(), patchbay.graph());
    let mut rooms = Rooms::new(alloc, clients, moment)?;
    let ways = first_fates(alloc, clients, graph, &mut rooms, source, message, most)?;
    let count = count_ways(alloc, graph, source)?;
    Ok(Fates {
        ways: Items::new(ways),
        more: count.saturating_sub(most as u64),
    })
}
