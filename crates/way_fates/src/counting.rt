//! How many ways lead from a port. There may be many more than can be walked: how many lead on from a filter is found
//! once for all ways through it.

ghost use Rattle.std.specs.Prelude.{◌≡◌, ℕ, List, suc, length, IfOk};
ghost use Rattle.node_table.specs.Numbers.{places};
ghost use Rattle.patch_graph.specs.declared.edge.Edge.{Edge};
ghost use Rattle.way_fates.specs.Counts.{way_count};
ghost use Rattle.way_fates.specs.Counting.{AreCounts, IsCountAt, ways_on, ways_through, up_to_most};

use memory::OutOfMemory;
use node_table::{Addr, PLACES, addr_at, make_places, place_of};
use patch_graph::{HOPS, PatchGraph};
use std::alloc::Global;

/// How many ways lead to a node and on from it, by how many lead on from each filter.
fn count_through(counts: &[u64], node: &Addr) -> u64
    requires { length counts.now ≡ places }
    ensures { (n : ℕ) (edges : List Edge) → AreCounts n edges counts.now
        → result ≡ up_to_most (ways_through n edges node.now) }
{
    if node.is_filter() {
        counts[place_of(node)]
    } else {
        1
    }
}

/// The same of many nodes.
fn count_on(counts: &[u64], nodes: &[Addr]) -> u64
    requires { length counts.now ≡ places }
    ensures { (n : ℕ) (edges : List Edge) → AreCounts n edges counts.now
        → result ≡ up_to_most (ways_on (suc n) edges nodes.now) }
{
    let mut total: u64 = 0;
    for node in nodes {
        total = total.saturating_add(count_through(counts, node));
    }
    total
}

/// How many ways lead on from the node at a place, along one subscription more.
fn count_from(graph: &PatchGraph, counts: &[u64], place: usize) -> u64
    requires { length counts.now ≡ places }
    ensures { (n : ℕ) → AreCounts n graph.now counts.now
        → IsCountAt (suc n) graph.now place result }
{
    if let Some(node) = addr_at(place) {
        return count_on(counts, graph.targets(&node));
    }
    0
}

/// How many ways lead on from each node, along one subscription more.
fn one_hop_more(alloc: Global, graph: &PatchGraph, counts: &[u64]) -> Result<Vec<u64>, OutOfMemory>
    requires { length counts.now ≡ places }
    ensures whole { IfOk result (λ more. length more.items ≡ places) }
    ensures more { IfOk result (λ more. (n : ℕ) → AreCounts n graph.now counts.now
        → AreCounts (suc n) graph.now more.items) }
{
    let mut more = Vec::with_capacity(alloc, PLACES)?;
    for place in 0..PLACES {
        more.push(count_from(graph, counts, place))?;
    }
    Ok(more)
}

/// How many ways lead from a node, up to 2^64 - 1. It goes along each subscription at most eight times.
pub(crate) fn count_ways(
    alloc: Global,
    graph: &PatchGraph,
    source: &Addr,
) -> Result<u64, OutOfMemory>
    ensures { IfOk result (λ n. n ≡ way_count graph.now source.now) }
{
    let mut counts = Vec::new(alloc);
    make_places(&mut counts, 0)?;
    for _hop in 0..HOPS - 1 {
        counts = one_hop_more(alloc, graph, &counts)?;
    }
    Ok(count_on(&counts, graph.targets(source)))
}
