//! Steps that set clients up.

use node_table::{Caps, ClientId, FilterNo, PortNo, QueueAddr, QueueNo, is_name};
use route_filter::{Rule, RuleArgs};
use seq_clients::Clients;
use std::alloc::Global;
use tempo_clock::{TempoEntry, TempoMap};

/// A change that a client makes.
#[derive(Clone, Copy)]
pub enum Step {
    /// A name, and the sizes of the input and the output.
    Open(&'static [u8], u32, u32),
    Close,
    /// A port named `out` that may be read.
    Port(u8),
    DeletePort(u8),
    /// A filter that may be written to.
    Filter(u8, RuleArgs),
    SetFilter(u8, RuleArgs),
    DeleteFilter(u8),
    /// A queue of 96 ticks per quarter note, two of them a second.
    Queue(u8),
    Share(u8),
    DeleteQueue(u8),
    /// A queue and a moment, here and below.
    Start(u8, u64),
    Stop(u8, u64),
    Resume(u8, u64),
    /// Four quarter notes a second from then on.
    DoubleTempo(u8, u64),
    Listen,
    Unlisten,
}

use self::Step::*;

/// Carries out what a client does. `None` where it does not fit what is there, or memory is wanting.
pub fn take(clients: &mut Clients, alloc: Global, client: ClientId, step: Step) -> Option<()> {
    match step {
        Open(name, in_size, out_size) => open(clients, client, name, in_size, out_size),
        Port(port) => make_port(clients, client, port),
        Filter(filter, args) => make_filter(clients, client, filter, args),
        SetFilter(filter, args) => set_filter(clients, client, filter, args),
        Queue(queue) => make_queue(clients, alloc, client, queue),
        Listen => Some(clients.listen(client)),
        Unlisten => Some(clients.unlisten(client)),
        Close | DeletePort(_) | DeleteFilter(_) | DeleteQueue(_) => delete(clients, client, step),
        _ => take_for_queue(clients, client, step),
    }
}

/// The same of a step that changes a queue.
fn take_for_queue(clients: &mut Clients, client: ClientId, step: Step) -> Option<()> {
    match step {
        Share(queue) => share(clients, client, queue),
        Start(queue, moment) => start(clients, client, queue, moment),
        Stop(queue, moment) => stop(clients, client, queue, moment),
        Resume(queue, moment) => resume(clients, client, queue, moment),
        DoubleTempo(queue, moment) => double_tempo(clients, client, queue, moment),
        _ => None,
    }
}

fn delete(clients: &mut Clients, client: ClientId, step: Step) -> Option<()> {
    match step {
        DeletePort(port) => clients.delete_port(client, PortNo::new(port)?),
        DeleteFilter(filter) => clients.delete_filter(client, FilterNo::new(filter)?),
        DeleteQueue(queue) => clients.delete_queue(client, QueueNo::new(queue)?),
        _ => clients.close(client),
    }
    Some(())
}

#[tactic(auto, using(seq_clients::proofs::Tested::none_if_not))]
fn open(
    clients: &mut Clients,
    client: ClientId,
    name: &[u8],
    in_size: u32,
    out_size: u32,
) -> Option<()> {
    if clients.is_open(client) || !is_name(name) || in_size < 1 || in_size > 2000 {
        return None;
    }
    clients.open(client, name, in_size, out_size).ok()
}

fn make_port(clients: &mut Clients, client: ClientId, port: u8) -> Option<()> {
    let port = PortNo::new(port)?;
    if !clients.is_open(client) || clients.has_port(client, port) {
        return None;
    }
    clients.create_port(client, port, b"out", Caps::READ).ok()
}

fn make_filter(clients: &mut Clients, client: ClientId, filter: u8, args: RuleArgs) -> Option<()> {
    let filter = FilterNo::new(filter)?;
    if !clients.is_open(client) || clients.has_filter(client, filter) {
        return None;
    }
    let rule = Rule::new(args)?;
    let caps = Caps::WRITE;
    clients.create_filter(client, filter, caps, rule).ok()
}

fn set_filter(clients: &mut Clients, client: ClientId, filter: u8, args: RuleArgs) -> Option<()> {
    let filter = FilterNo::new(filter)?;
    if !clients.has_filter(client, filter) {
        return None;
    }
    clients.set_filter(client, filter, Rule::new(args)?);
    Some(())
}

fn make_queue(clients: &mut Clients, alloc: Global, client: ClientId, queue: u8) -> Option<()> {
    let queue = QueueNo::new(queue)?;
    let entry = TempoEntry {
        tick: 0,
        tempo: 500_000,
    };
    clients.create_queue(client, queue, TempoMap::new(alloc, 96, &[entry]).ok()?);
    Some(())
}

fn share(clients: &mut Clients, client: ClientId, queue: u8) -> Option<()> {
    clients.share(client, QueueNo::new(queue)?);
    Some(())
}

#[tactic(auto, using(seq_clients::proofs::Tested::none_if_not))]
fn start(clients: &mut Clients, client: ClientId, queue: u8, moment: u64) -> Option<()> {
    let queue = QueueNo::new(queue)?;
    let clock = clients.queue(&QueueAddr { client, queue })?.clock();
    if clock.running() {
        return None;
    }
    clients.start(client, queue, moment);
    Some(())
}

#[tactic(auto, using(seq_clients::proofs::Tested::some_if))]
fn stop(clients: &mut Clients, client: ClientId, queue: u8, moment: u64) -> Option<()> {
    let queue = QueueNo::new(queue)?;
    let clock = clients.queue(&QueueAddr { client, queue })?.clock();
    if !clock.running() {
        return None;
    }
    clients.stop(client, queue, moment);
    Some(())
}

/// A clock never shows more than the moment, where moments do not fall.
#[tactic(auto, using(seq_clients::proofs::Tested::none_if_not, crate::proofs::Shown::shown_by))]
fn resume(clients: &mut Clients, client: ClientId, queue: u8, moment: u64) -> Option<()> {
    let queue = QueueNo::new(queue)?;
    let clock = clients.queue(&QueueAddr { client, queue })?.clock();
    if clock.running() || clock.elapsed(moment) > moment {
        return None;
    }
    clients.resume(client, queue, moment);
    Some(())
}

fn double_tempo(clients: &mut Clients, client: ClientId, queue: u8, moment: u64) -> Option<()> {
    let queue = QueueNo::new(queue)?;
    let clock = clients.queue(&QueueAddr { client, queue })?.clock();
    // A queue that counts frames has no tempo.
    if clock.counts_frames() {
        return None;
    }
    clients.set_tempo(client, queue, moment, 250_000).ok()
}
