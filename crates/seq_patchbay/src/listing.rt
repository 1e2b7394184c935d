//! The listing.

ghost use Rattle.std.specs.Prelude.{◌≡◌, ◌++◌, OnOk, IfOk};
ghost use Rattle.std.specs.FinMap as map;
ghost use Rattle.seq_state.specs.Effect.{port_of, filter_of, queue_of};
ghost use Rattle.seq_clients.specs.Roster.{listens};
ghost use Rattle.seq_patchbay.specs.Listing.{listening_text, client_line, port_line, rule_text, channel_text, filter_line, queue_line, edge_line, client_lines, port_lines, filter_lines, queue_lines, client_texts, port_texts, filter_texts, queue_texts, edge_texts, listing};

use crate::patchbay::Patchbay;
use bitflags::Flags;
use memory::OutOfMemory;
use node_table::{
    Addr, Caps, ClientId, FIRST_CLIENT, FilterNo, LAST_CLIENT, MOST_FILTERS, MOST_PORTS,
    MOST_QUEUES, Node, PortNo, QueueAddr, QueueNo,
};
use patch_graph::{Edge, PatchGraph};
use route_filter::RuleArgs;
use seq_clients::{Clients, Queue};
use std::alloc::Global;

impl Patchbay {
    /// The listing: a line for each open client by number, with its ports, its filters and its queues by
    /// number, and then one for each subscription, the oldest first.
    pub fn listing(&self, alloc: Global) -> Result<Vec<u8>, OutOfMemory>
        ensures { IfOk result (λ text.
            text.items ≡ listing self.now.clients self.now.graph) }
    {
        let mut text = Vec::new(alloc);
        list_clients(alloc, self.clients(), &mut text)?;
        list_edges(alloc, self.graph(), &mut text)?;
        Ok(text)
    }
}

/// Adds the lines of every open client, by number.
fn list_clients(alloc: Global, clients: &Clients, out: &mut Vec<u8>) -> Result<(), OutOfMemory>
    ensures { OnOk result (out.new.items ≡ out.old.items ++ client_texts clients.now) }
{
    for number in FIRST_CLIENT..LAST_CLIENT + 1 {
        list_client_at(alloc, clients, ClientId::new(number).unwrap(), out)?;
    }
    Ok(())
}

/// Adds the lines of a client, if it is open.
fn list_client_at(
    alloc: Global,
    clients: &Clients,
    client: ClientId,
    out: &mut Vec<u8>,
) -> Result<(), OutOfMemory>
    ensures { let c = map.get clients.now.clients client in
        let listens = listens (map.get clients.now.pools client) in
        OnOk result (out.new.items ≡ out.old.items ++ client_lines client c listens) }
{
    if let Some(name) = clients.name(client) {
        let in_size = clients.in_size(client);
        let out_size = clients.out_size(client);
        let listens = clients.is_listening(client);
        list_client(alloc, client, name, in_size, out_size, listens, out)?;
        list_ports(alloc, clients, client, out)?;
        list_filters(alloc, clients, client, out)?;
        list_queues(alloc, clients, client, out)?;
    }
    Ok(())
}

fn list_client(
    alloc: Global,
    client: ClientId,
    name: &[u8],
    in_size: u32,
    out_size: u32,
    listens: bool,
    out: &mut Vec<u8>,
) -> Result<(), OutOfMemory>
    ensures { let line = client_line client name.now in_size out_size listens in
        OnOk result (out.new.items ≡ out.old.items ++ line) }
{
    out.extend_from_slice(format!(in alloc; "client {client} ")?.as_bytes())?;
    out.extend_from_slice(name)?;
    out.extend_from_slice(format!(in alloc; " in {in_size} out {out_size}")?.as_bytes())?;
    list_listening(listens, out)?;
    out.extend_from_slice(b"\n")?;
    Ok(())
}

fn list_listening(listens: bool, out: &mut Vec<u8>) -> Result<(), OutOfMemory>
    ensures { OnOk result (out.new.items ≡ out.old.items ++ listening_text listens) }
{
    if listens {
        out.extend_from_slice(b" listening")?;
    }
    Ok(())
}

fn list_ports(
    alloc: Global,
    clients: &Clients,
    client: ClientId,
    out: &mut Vec<u8>,
) -> Result<(), OutOfMemory>
    ensures { let c = map.get clients.now.clients client in
        OnOk result (out.new.items ≡ out.old.items ++ port_texts client c) }
{
    for number in 0..MOST_PORTS {
        list_port_at(alloc, clients, client, PortNo::new(number).unwrap(), out)?;
    }
    Ok(())
}

/// Adds the line of a port, if it is there.
fn list_port_at(
    alloc: Global,
    clients: &Clients,
    client: ClientId,
    port: PortNo,
    out: &mut Vec<u8>,
) -> Result<(), OutOfMemory>
    ensures { let p = port_of (map.get clients.now.clients client) port in
        OnOk result (out.new.items ≡ out.old.items ++ port_lines client port p) }
{
    let node = Node::Port(port);
    if let Some(caps) = clients.caps(&Addr { client, node }) {
        if let Some(name) = clients.port_name(client, port) {
            list_port(alloc, client, port, name, caps, out)?;
        }
    }
    Ok(())
}

fn list_port(
    alloc: Global,
    client: ClientId,
    port: PortNo,
    name: &[u8],
    caps: Caps,
    out: &mut Vec<u8>,
) -> Result<(), OutOfMemory>
    ensures { let line = port_line client port name.now caps.0 in
        OnOk result (out.new.items ≡ out.old.items ++ line) }
{
    out.extend_from_slice(format!(in alloc; "port {client}:p{port} ")?.as_bytes())?;
    out.extend_from_slice(name)?;
    let bits = caps.bits();
    out.extend_from_slice(format!(in alloc; " {bits}\n")?.as_bytes())?;
    Ok(())
}

fn list_filters(
    alloc: Global,
    clients: &Clients,
    client: ClientId,
    out: &mut Vec<u8>,
) -> Result<(), OutOfMemory>
    ensures { let c = map.get clients.now.clients client in
        OnOk result (out.new.items ≡ out.old.items ++ filter_texts client c) }
{
    for number in 0..MOST_FILTERS {
        list_filter_at(alloc, clients, client, FilterNo::new(number).unwrap(), out)?;
    }
    Ok(())
}

/// Adds the line of a filter, if it is there.
fn list_filter_at(
    alloc: Global,
    clients: &Clients,
    client: ClientId,
    filter: FilterNo,
    out: &mut Vec<u8>,
) -> Result<(), OutOfMemory>
    ensures { let f = filter_of (map.get clients.now.clients client) filter in
        OnOk result (out.new.items ≡ out.old.items ++ filter_lines client filter f) }
{
    let node = Node::Filter(filter);
    if let Some(caps) = clients.caps(&Addr { client, node }) {
        if let Some(rule) = clients.rule(client, filter) {
            list_filter(alloc, client, filter, caps, &rule.args(), out)?;
        }
    }
    Ok(())
}

fn list_filter(
    alloc: Global,
    client: ClientId,
    filter: FilterNo,
    caps: Caps,
    rule: &RuleArgs,
    out: &mut Vec<u8>,
) -> Result<(), OutOfMemory>
    ensures { let line = filter_line client filter caps.0 rule.now in
        OnOk result (out.new.items ≡ out.old.items ++ line) }
{
    let bits = caps.bits();
    out.extend_from_slice(format!(in alloc; "filter {client}:f{filter} {bits}")?.as_bytes())?;
    list_rule(alloc, rule, out)?;
    list_channel(alloc, rule.channel, out)?;
    out.extend_from_slice(b"\n")?;
    Ok(())
}

fn list_rule(alloc: Global, rule: &RuleArgs, out: &mut Vec<u8>) -> Result<(), OutOfMemory>
    ensures { OnOk result (out.new.items ≡ out.old.items ++ rule_text rule.now) }
{
    let RuleArgs {
        channels,
        kinds,
        low,
        high,
        shift,
        channel: _,
    } = *rule;
    let kinds = kinds.bits();
    out.extend_from_slice(format!(in alloc; " {channels} {kinds}")?.as_bytes())?;
    out.extend_from_slice(format!(in alloc; " {low} {high} {shift}")?.as_bytes())?;
    Ok(())
}

/// Adds the channel that a rule gives, if it gives one.
fn list_channel(alloc: Global, channel: Option<u8>, out: &mut Vec<u8>) -> Result<(), OutOfMemory>
    ensures { OnOk result (out.new.items ≡ out.old.items ++ channel_text channel) }
{
    if let Some(channel) = channel {
        out.extend_from_slice(format!(in alloc; " {channel}")?.as_bytes())?;
    }
    Ok(())
}

fn list_queues(
    alloc: Global,
    clients: &Clients,
    client: ClientId,
    out: &mut Vec<u8>,
) -> Result<(), OutOfMemory>
    ensures { let c = map.get clients.now.clients client in
        OnOk result (out.new.items ≡ out.old.items ++ queue_texts client c) }
{
    for number in 0..MOST_QUEUES {
        list_queue_at(alloc, clients, client, QueueNo::new(number).unwrap(), out)?;
    }
    Ok(())
}

/// Adds the line of a queue, if it is there.
fn list_queue_at(
    alloc: Global,
    clients: &Clients,
    client: ClientId,
    queue: QueueNo,
    out: &mut Vec<u8>,
) -> Result<(), OutOfMemory>
    ensures { let q = queue_of (map.get clients.now.clients client) queue in
        OnOk result (out.new.items ≡ out.old.items ++ queue_lines client queue q) }
{
    if let Some(held) = clients.queue(&QueueAddr { client, queue }) {
        list_queue(alloc, client, queue, held, out)?;
    }
    Ok(())
}

fn list_queue(
    alloc: Global,
    client: ClientId,
    queue: QueueNo,
    held: &Queue,
    out: &mut Vec<u8>,
) -> Result<(), OutOfMemory>
    ensures { let line = queue_line client queue held.now in
        OnOk result (out.new.items ≡ out.old.items ++ line) }
{
    out.extend_from_slice(format!(in alloc; "queue {client}:q{queue}")?.as_bytes())?;
    let state = if held.clock().running() {
        b" running"
    } else {
        b" stopped"
    };
    out.extend_from_slice(state)?;
    if held.is_shared() {
        out.extend_from_slice(b" shared")?;
    }
    out.extend_from_slice(b"\n")?;
    Ok(())
}

/// Adds the lines of the subscriptions, oldest first.
fn list_edges(alloc: Global, graph: &PatchGraph, out: &mut Vec<u8>) -> Result<(), OutOfMemory>
    ensures { OnOk result (out.new.items ≡ out.old.items ++ edge_texts graph.now) }
{
    let edges = graph.edges(alloc)?;
    list_each_edge(alloc, edges.as_slice(), out)
}

/// Adds the lines of subscriptions, one after another.
fn list_each_edge(alloc: Global, edges: &[Edge], out: &mut Vec<u8>) -> Result<(), OutOfMemory>
    ensures { OnOk result (out.new.items ≡ out.old.items ++ edge_texts edges.now) }
{
    for edge in edges {
        list_edge(alloc, &edge.source, &edge.target, out)?;
    }
    Ok(())
}

fn list_edge(
    alloc: Global,
    source: &Addr,
    target: &Addr,
    out: &mut Vec<u8>,
) -> Result<(), OutOfMemory>
    ensures { OnOk result (out.new.items ≡ out.old.items ++ edge_line source.now target.now) }
{
    out.extend_from_slice(format!(in alloc; "edge {source} {target}\n")?.as_bytes())?;
    Ok(())
}
