//! Steps that set a patchbay up.

use super::setting_up::Step::{self, *};
use node_table::{Addr, Caps, ClientId, FilterNo, PortNo, QueueAddr, QueueNo, is_name};
use patch_graph::MOST_SOURCES;
use route_filter::{Rule, RuleArgs};
use seq_patchbay::Patchbay;
use std::alloc::Global;
use tempo_clock::{TempoEntry, TempoMap};

/// Carries out what clients do, one step after another. `None` where one does not fit what is there, is none of these,
/// or memory is wanting.
pub fn take_all(patchbay: &mut Patchbay, alloc: Global, steps: &[(u8, Step)]) -> Option<()> {
    for (client, step) in steps {
        take(patchbay, alloc, ClientId::new(*client)?, *step)?;
    }
    Some(())
}

fn take(patchbay: &mut Patchbay, alloc: Global, client: ClientId, step: Step) -> Option<()> {
    match step {
        Open(name, in_size, out_size) => open(patchbay, client, name, in_size, out_size),
        Port(port) => make_port(patchbay, client, port),
        Filter(filter, args) => make_filter(patchbay, client, filter, args),
        SetFilter(filter, args) => set_filter(patchbay, client, filter, args),
        Queue(queue) => make_queue(patchbay, alloc, client, queue),
        Share(queue) => share(patchbay, client, queue),
        Start(queue, moment) => start(patchbay, client, queue, moment),
        _ => None,
    }
}

#[tactic(auto, using(seq_clients::proofs::Tested::none_if_not))]
fn open(
    patchbay: &mut Patchbay,
    client: ClientId,
    name: &[u8],
    in_size: u32,
    out_size: u32,
) -> Option<()> {
    if patchbay.clients().is_open(client) || !is_name(name) || in_size < 1 || in_size > 2000 {
        return None;
    }
    patchbay.open(client, name, in_size, out_size).ok()
}

fn make_port(patchbay: &mut Patchbay, client: ClientId, port: u8) -> Option<()> {
    let port = PortNo::new(port)?;
    let clients = patchbay.clients();
    if !clients.is_open(client) || clients.has_port(client, port) {
        return None;
    }
    patchbay.create_port(client, port, b"out", Caps::READ).ok()
}

fn make_filter(
    patchbay: &mut Patchbay,
    client: ClientId,
    filter: u8,
    args: RuleArgs,
) -> Option<()> {
    let filter = FilterNo::new(filter)?;
    let clients = patchbay.clients();
    if !clients.is_open(client) || clients.has_filter(client, filter) {
        return None;
    }
    let rule = Rule::new(args)?;
    patchbay
        .create_filter(client, filter, Caps::WRITE, rule)
        .ok()
}

fn set_filter(patchbay: &mut Patchbay, client: ClientId, filter: u8, args: RuleArgs) -> Option<()> {
    let filter = FilterNo::new(filter)?;
    if !patchbay.clients().has_filter(client, filter) {
        return None;
    }
    patchbay.set_filter(client, filter, Rule::new(args)?);
    Some(())
}

fn make_queue(patchbay: &mut Patchbay, alloc: Global, client: ClientId, queue: u8) -> Option<()> {
    let queue = QueueNo::new(queue)?;
    let entry = TempoEntry {
        tick: 0,
        tempo: 500_000,
    };
    patchbay.create_queue(client, queue, TempoMap::new(alloc, 96, &[entry]).ok()?);
    Some(())
}

fn share(patchbay: &mut Patchbay, client: ClientId, queue: u8) -> Option<()> {
    patchbay.share(client, QueueNo::new(queue)?);
    Some(())
}

#[tactic(auto, using(seq_clients::proofs::Tested::none_if_not))]
fn start(patchbay: &mut Patchbay, client: ClientId, queue: u8, moment: u64) -> Option<()> {
    let queue = QueueNo::new(queue)?;
    let clock = patchbay
        .clients()
        .queue(&QueueAddr { client, queue })?
        .clock();
    if clock.running() {
        return None;
    }
    patchbay.start(client, queue, moment);
    Some(())
}

/// Subscribes one node to another, where that may be.
#[tactic(auto, unfolding(patch_graph::specs::Edges::most_sources))]
pub fn join(patchbay: &mut Patchbay, source: Addr, target: Addr) -> Option<()> {
    let graph = patchbay.graph();
    if graph.has_edge(&source, &target)
        || graph.sources(&target) >= MOST_SOURCES
        || graph.makes_cycle(&source, &target)
    {
        return None;
    }
    patchbay.connect(source, target).ok()
}
