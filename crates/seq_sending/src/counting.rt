//! How many copies of a message are for each client.

ghost use Rattle.std.specs.Prelude.{◌≡◌, ◌+◌, ◌*◌, ◌<◌, ℕ, List, length, sum_by, slice_index, OnOk};
ghost use Rattle.node_table.specs.Numbers.{first_client, most_clients};
ghost use Rattle.node_table.specs.declared.number.Addr.{Addr};
ghost use Rattle.patch_graph.specs.Paths.{hops};
ghost use Rattle.seq_sending.specs.Counts.{ways_at, ways_for, ways_behind, ways_in, ways_known};

use crate::carried::Carried;
use crate::count_fault::CountFault;
use crate::front::{Entry, Front};
use node_table::{Addr, Node, row_of};
use patch_graph::{HOPS, PatchGraph};
use seq_clients::Clients;
use std::mem;

/// Lets a message come to a node by so many ways: to a port, where its copies are for the client, or to a filter, from
/// where it goes on.
fn reach<M: Carried + Drop>(
    node: &Addr,
    message: &M,
    ways: u64,
    front: &mut Front<M>,
    counts: &mut [u64],
) -> Result<(), CountFault>
    requires { length counts.old ≡ most_clients }
    ensures { (row : ℕ) (past : Addr → List ℕ → ℕ) → row < most_clients → OnOk result (
        ways_known M.bytes past row counts.new front.new.entries.items
        ≡ ways_known M.bytes past row counts.old front.old.entries.items
        + ways * ways_at (first_client + row) past (M.bytes message.now) node.now) }
{
    if node.is_filter() {
        return front.add(node, message, ways);
    }
    let row = row_of(node.client);
    if counts[row] > u64::MAX - ways {
        return Err(CountFault::TooMany);
    }
    counts[row] += ways;
    Ok(())
}

/// Lets a message come to nodes by so many ways.
fn reach_all<M: Carried + Drop>(
    targets: &[Addr],
    message: &M,
    ways: u64,
    front: &mut Front<M>,
    counts: &mut [u64],
) -> Result<(), CountFault>
    requires { length counts.old ≡ most_clients }
    ensures { (row : ℕ) (past : Addr → List ℕ → ℕ) → row < most_clients → OnOk result (
        ways_known M.bytes past row counts.new front.new.entries.items
        ≡ ways_known M.bytes past row counts.old front.old.entries.items
        + ways * sum_by (ways_at (first_client + row) past (M.bytes message.now)) targets.now) }
{
    for target in targets {
        reach(target, message, ways, front, counts)?;
    }
    Ok(())
}

/// Lets a message go on from a node: what a filter lets through comes to all nodes behind it.
fn go_on<M: Carried + Drop>(
    clients: &Clients,
    graph: &PatchGraph,
    entry: &Entry<M>,
    front: &mut Front<M>,
    counts: &mut [u64],
) -> Result<(), CountFault>
    requires { length counts.old ≡ most_clients }
    ensures { (row n : ℕ) → row < most_clients → OnOk result (
        let behind = ways_behind clients.now.clients graph.now (first_client + row) in
        ways_known M.bytes (behind n) row counts.new front.new.entries.items
        ≡ ways_known M.bytes (behind n) row counts.old front.old.entries.items
        + entry.now.ways * behind (n + 1) entry.now.node (M.bytes entry.now.message)) }
{
    let node = &entry.node;
    let client = node.client;
    let message = entry.message.once_more()?;
    let rule = match node.node {
        Node::Port(_) => None,
        Node::Filter(filter) => clients.rule(client, filter),
    };
    match message.through(rule) {
        Some(passed) => {
            let targets = graph.targets(node);
            reach_all(targets, &passed, entry.ways, front, counts)
        }
        None => Ok(()),
    }
}

/// Lets a message go on from all nodes of a front, to the next.
fn go_on_all<M: Carried + Drop>(
    clients: &Clients,
    graph: &PatchGraph,
    entries: &[Entry<M>],
    front: &mut Front<M>,
    counts: &mut [u64],
) -> Result<(), CountFault>
    requires { length counts.old ≡ most_clients }
    ensures { (row n : ℕ) → row < most_clients → OnOk result (
        let behind = ways_behind clients.now.clients graph.now (first_client + row) in
        ways_known M.bytes (behind n) row counts.new front.new.entries.items
        ≡ ways_known M.bytes (behind n) row counts.old front.old.entries.items
        + ways_in M.bytes (behind (n + 1)) entries.now) }
{
    for entry in entries {
        go_on(clients, graph, entry, front, counts)?;
    }
    Ok(())
}

/// Counts the copies of a message that goes to nodes, for each client by its row, beside what was counted.
///
/// The two fronts lend their memory: what stands in them goes.
pub(crate) fn count_copies<M: Carried + Drop>(
    clients: &Clients,
    graph: &PatchGraph,
    targets: &[Addr],
    message: &M,
    front: &mut Front<M>,
    next: &mut Front<M>,
    counts: &mut [u64],
) -> Result<(), CountFault>
    requires { length counts.old ≡ most_clients }
    ensures { (row : ℕ) → row < most_clients → OnOk result (
        slice_index counts.new row ≡ slice_index counts.old row
        + ways_for clients.now.clients graph.now (first_client + row) hops targets.now
        (M.bytes message.now)) }
{
    front.clear();
    reach_all(targets, message, 1, front, counts)?;
    for _hop in 1..HOPS {
        next.clear();
        let entries = front.entries.as_slice();
        go_on_all(clients, graph, entries, next, counts)?;
        mem::swap(front, next);
    }
    Ok(())
}
