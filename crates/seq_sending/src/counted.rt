//! Sending where the ways are too many to walk: the copies that find no room are counted.

ghost use Rattle.std.specs.Prelude.{◌≡◌, ◌≢◌, ◌+◌, ◌++◌, ◌<◌, ◌≤◌, ◌⊎◌, ℕ, false, length, slice_index, IfOk, OnOk};
ghost use Rattle.std.specs.FinMap.{get};
ghost use Rattle.node_table.specs.Numbers.{first_client, most_clients};
ghost use Rattle.patch_graph.specs.Index.{targets_of};
ghost use Rattle.patch_graph.specs.Paths.{hops};
ghost use Rattle.seq_state.specs.Step.{pool_has_room, pools_after, copies_with_room};
ghost use Rattle.seq_sending.specs.Carrying.{copies_onward};
ghost use Rattle.seq_sending.specs.KeptCounts.{AreCounts, AreCountsKept};
ghost use Rattle.seq_sending.specs.Rooms.{with_losses};
ghost use Rattle.seq_sending.specs.Ways.{spread_all, AreWays};

use crate::barren::Barren;
use crate::carried::Carried;
use crate::class::WayClass;
use crate::count_fault::CountFault;
use crate::counting::count_copies;
use crate::front::Front;
use crate::kept_counts::CountTable;
use crate::reach::Extent;
use crate::sending::send_message;
use crate::walking::walk_all;
use crate::ways::Ways;
use memory::OutOfMemory;
use midi_wire::Message;
use node_table::{Addr, ClientId, FIRST_CLIENT, MOST_CLIENTS};
use patch_graph::{HOPS, PatchGraph};
use route_filter::VoiceMessage;
use seq_clients::Clients;
use seq_state::Delivery;
use std::alloc::Global;

/// The client of a row.
fn client_of(row: usize) -> ClientId
    requires { row < most_clients }
    ensures { result ≡ first_client + row }
{
    match ClientId::new(FIRST_CLIENT + row as u8) {
        Some(client) => client,
        None => unreachable!(),
    }
}

/// Counts as lost what finds no room in the input pool of the client of a row, where so many copies come to it at a
/// moment.
fn lose(clients: &mut Clients, moment: u64, row: usize, copies: u64)
    requires { row < most_clients }
    ensures clients { clients.new.clients ≡ clients.old.clients }
    ensures lost { get clients.new.pools (first_client + row)
        ≡ with_losses moment copies (get clients.old.pools (first_client + row)) }
    ensures others { (c : ℕ) → c ≢ first_client + row
        → get clients.new.pools c ≡ get clients.old.pools c }
{
    if copies == 0 {
        return;
    }
    clients.lose_beyond(client_of(row), moment, copies);
}

/// Counts as lost what finds no room in each client's input pool, where so many copies come to it at a moment.
fn lose_all(clients: &mut Clients, moment: u64, counts: &[u64])
    requires { length counts.now ≡ most_clients }
    ensures clients { clients.new.clients ≡ clients.old.clients }
    ensures lost { (row : ℕ) → row < most_clients → get clients.new.pools (first_client + row)
        ≡ with_losses moment (slice_index counts.now row)
        (get clients.old.pools (first_client + row)) }
    ensures others { (c : ℕ) → (c < first_client) ⊎ (first_client + most_clients ≤ c)
        → get clients.new.pools c ≡ get clients.old.pools c }
{
    for row in 0..MOST_CLIENTS {
        lose(clients, moment, row, counts[row]);
    }
}

/// Whether some client has both copies and room for one at a moment.
fn finds_room(clients: &Clients, moment: u64, counts: &[u64]) -> bool
    requires { length counts.now ≡ most_clients }
    ensures { result ≡ false → (row : ℕ) → row < most_clients → (slice_index counts.now row ≡ 0)
        ⊎ (pool_has_room moment (get clients.now.pools (first_client + row)) ≡ false) }
{
    for row in 0..MOST_CLIENTS {
        if counts[row] > 0 && clients.has_room(client_of(row), moment) {
            return true;
        }
    }
    false
}

/// A count of zero for each client.
fn no_counts<const N: usize>() -> [u64; N]
    ensures long { length result ≡ N }
    ensures none { (row : ℕ) → slice_index result row ≡ 0 }
{
    [0; N]
}

/// How many copies of a message that goes to nodes are for each client, by its row.
fn counts_of<M: Carried + Drop>(
    alloc: Global,
    clients: &Clients,
    graph: &PatchGraph,
    targets: &[Addr],
    message: &M,
) -> Result<[u64; MOST_CLIENTS], CountFault>
    ensures { let bytes = M.bytes message.now in IfOk result
        (λ counts. AreCounts clients.now.clients graph.now targets.now bytes counts) }
{
    let (mut front, mut next) = (Front::new(alloc), Front::new(alloc));
    let mut counts: [u64; MOST_CLIENTS] = no_counts();
    count_copies(
        clients,
        graph,
        targets,
        message,
        &mut front,
        &mut next,
        &mut counts,
    )?;
    Ok(counts)
}

/// The same of a message that goes in its parts, where it is a channel message.
fn counts_in_parts(
    alloc: Global,
    clients: &Clients,
    graph: &PatchGraph,
    targets: &[Addr],
    message: &Message,
) -> Result<[u64; MOST_CLIENTS], CountFault>
    ensures { IfOk result
        (λ counts. AreCounts clients.now.clients graph.now targets.now message.now counts) }
{
    match VoiceMessage::of(message) {
        Some(voice) => counts_of(alloc, clients, graph, targets, &voice),
        None => counts_of(alloc, clients, graph, targets, message),
    }
}

/// Walks along all ways of a message, with no marks at first: what finds room is delivered in order.
fn walk<M: Carried + Drop>(
    alloc: Global,
    clients: &mut Clients,
    graph: &PatchGraph,
    moment: u64,
    targets: &[Addr],
    message: &M,
    out: &mut Vec<Delivery>,
) -> Result<(), OutOfMemory>
    ensures clients { clients.new.clients ≡ clients.old.clients }
    ensures pools { let c = clients.old in
        let ds = copies_onward c.clients graph.now moment hops targets.now (M.bytes message.now) in
        OnOk result (clients.new.pools ≡ pools_after c.pools (copies_with_room c.pools ds)) }
    ensures sent { let c = clients.old in
        let ds = copies_onward c.clients graph.now moment hops targets.now (M.bytes message.now) in
        OnOk result (out.new.items ≡ out.old.items ++ copies_with_room c.pools ds) }
{
    let mut barren = Barren::new(alloc);
    let hops = HOPS as u8;
    walk_all(
        clients,
        graph,
        moment,
        hops,
        targets,
        message,
        &mut barren,
        out,
    )
}

/// The same of a message that goes in its parts, where it is a channel message.
fn walk_in_parts(
    alloc: Global,
    clients: &mut Clients,
    graph: &PatchGraph,
    moment: u64,
    targets: &[Addr],
    message: &Message,
    out: &mut Vec<Delivery>,
) -> Result<(), OutOfMemory>
    ensures clients { clients.new.clients ≡ clients.old.clients }
    ensures pools { let c = clients.old in
        let ds = copies_onward c.clients graph.now moment hops targets.now message.now in
        OnOk result (clients.new.pools ≡ pools_after c.pools (copies_with_room c.pools ds)) }
    ensures sent { let c = clients.old in
        let ds = copies_onward c.clients graph.now moment hops targets.now message.now in
        OnOk result (out.new.items ≡ out.old.items ++ copies_with_room c.pools ds) }
{
    match VoiceMessage::of(message) {
        Some(voice) => walk(alloc, clients, graph, moment, targets, &voice, out),
        None => walk(alloc, clients, graph, moment, targets, message, out),
    }
}

/// Sends a message of which so many copies are for each client, by its row: what finds room is delivered in order, and
/// the rest is lost by its number.
fn send_by_counts(
    alloc: Global,
    clients: &mut Clients,
    graph: &PatchGraph,
    moment: u64,
    targets: &[Addr],
    message: &Message,
    counts: &[u64],
    out: &mut Vec<Delivery>,
) -> Result<(), OutOfMemory>
    requires { AreCounts clients.old.clients graph.now targets.now message.now counts.now }
    ensures clients { clients.new.clients ≡ clients.old.clients }
    ensures pools { let c = clients.old in
        let ds = copies_onward c.clients graph.now moment hops targets.now message.now in
        OnOk result (clients.new.pools ≡ pools_after c.pools ds) }
    ensures sent { let c = clients.old in
        let ds = copies_onward c.clients graph.now moment hops targets.now message.now in
        OnOk result (out.new.items ≡ out.old.items ++ copies_with_room c.pools ds) }
{
    clients.pools_are_of_clients();
    lose_all(clients, moment, counts);
    if !finds_room(clients, moment, counts) {
        return Ok(());
    }
    walk_in_parts(alloc, clients, graph, moment, targets, message, out)
}

/// Sends a message by counts, or by its ways where these are not too many and some copy finds room.
fn send_known(
    alloc: Global,
    clients: &mut Clients,
    graph: &PatchGraph,
    moment: u64,
    targets: &[Addr],
    ways: &Ways,
    message: &Message,
    counts: &[u64],
    out: &mut Vec<Delivery>,
) -> Result<(), OutOfMemory>
    requires ways { AreWays clients.old.clients graph.now targets.now ways.now }
    requires counts { AreCounts clients.old.clients graph.now targets.now message.now counts.now }
    ensures clients { clients.new.clients ≡ clients.old.clients }
    ensures pools { let c = clients.old in
        let ds = copies_onward c.clients graph.now moment hops targets.now message.now in
        OnOk result (clients.new.pools ≡ pools_after c.pools ds) }
    ensures sent { let c = clients.old in
        let ds = copies_onward c.clients graph.now moment hops targets.now message.now in
        OnOk result (out.new.items ≡ out.old.items ++ copies_with_room c.pools ds) }
{
    if ways.extent() == Extent::Many && finds_room(clients, moment, counts) {
        return send_message(clients, graph, moment, ways.as_slice(), message, out);
    }
    send_by_counts(alloc, clients, graph, moment, targets, message, counts, out)
}

/// Sends a message from a port by counts, which are kept from one message of its class to the next.
fn send_counted(
    alloc: Global,
    clients: &mut Clients,
    graph: &PatchGraph,
    moment: u64,
    source: &Addr,
    ways: &Ways,
    message: &Message,
    kept: &mut CountTable,
    out: &mut Vec<Delivery>,
) -> Result<(), OutOfMemory>
    requires ways { let targets = targets_of graph.now source.now in
        AreWays clients.old.clients graph.now targets ways.now }
    requires counts { AreCountsKept clients.old.clients graph.now kept.old.kept.items }
    ensures counts { AreCountsKept clients.old.clients graph.now kept.new.kept.items }
    ensures clients { clients.new.clients ≡ clients.old.clients }
    ensures pools { let c = clients.old in let targets = targets_of graph.now source.now in
        let ds = copies_onward c.clients graph.now moment hops targets message.now in
        OnOk result (clients.new.pools ≡ pools_after c.pools ds) }
    ensures sent { let c = clients.old in let targets = targets_of graph.now source.now in
        let ds = copies_onward c.clients graph.now moment hops targets message.now in
        OnOk result (out.new.items ≡ out.old.items ++ copies_with_room c.pools ds) }
{
    let targets = graph.targets(source);
    let class = WayClass::of(message);
    if let Some(counts) = kept.get(source, class) {
        return send_known(
            alloc, clients, graph, moment, targets, ways, message, counts, out,
        );
    }
    match counts_in_parts(alloc, clients, graph, targets, message) {
        Ok(counts) => {
            kept.insert(source, class, counts)?;
            send_known(
                alloc, clients, graph, moment, targets, ways, message, &counts, out,
            )
        }
        // Nothing is sent yet.
        Err(CountFault::TooMany) => send_message(
            clients,
            graph,
            moment,
            ways.as_slice(),
            message,
            out,
        ),
        Err(CountFault::OutOfMemory) => Err(OutOfMemory),
    }
}

/// Sends messages from a port one after another by counts, which are kept from one message of a class to the next.
pub(crate) fn send_all_counted(
    alloc: Global,
    clients: &mut Clients,
    graph: &PatchGraph,
    moment: u64,
    source: &Addr,
    ways: &Ways,
    messages: &[Message],
    kept: &mut CountTable,
    out: &mut Vec<Delivery>,
) -> Result<(), OutOfMemory>
    requires ways { let targets = targets_of graph.now source.now in
        AreWays clients.old.clients graph.now targets ways.now }
    requires counts { AreCountsKept clients.old.clients graph.now kept.old.kept.items }
    ensures counts { AreCountsKept clients.old.clients graph.now kept.new.kept.items }
    ensures clients { clients.new.clients ≡ clients.old.clients }
    ensures pools { let c = clients.old in let targets = targets_of graph.now source.now in
        let ds = spread_all c.clients graph.now moment targets messages.now in
        OnOk result (clients.new.pools ≡ pools_after c.pools ds) }
    ensures sent { let c = clients.old in let targets = targets_of graph.now source.now in
        let ds = spread_all c.clients graph.now moment targets messages.now in
        OnOk result (out.new.items ≡ out.old.items ++ copies_with_room c.pools ds) }
{
    for message in messages {
        send_counted(
            alloc, clients, graph, moment, source, ways, message, kept, out,
        )?;
    }
    Ok(())
}
