//! The paths of a message from a node, one by one.

ghost use Rattle.std.specs.Prelude.{◌≡◌, ◌≤◌, ℕ, List, [], ◌∷◌, ◌++◌, true, take, length, Some, IfSome, IfNone, IfOk};
ghost use Rattle.std.specs.List.{list_all, filter_map};
ghost use Rattle.node_table.specs.Addresses.{is_filter};
ghost use Rattle.node_table.specs.declared.number.Addr.{Addr};
ghost use Rattle.patch_graph.specs.declared.route.TheConstants.{HOPS};
ghost use Rattle.patch_graph.specs.Paths.{hops, paths, path_of, routes};
ghost use Rattle.patch_graph.specs.Cursor.{at_port, is_route, path_from};

use crate::graph::PatchGraph;
use crate::path::Path;
use memory::{Items, OutOfMemory};
use node_table::{Addr, PortAddr};
use std::alloc::Global;
use std::marker::Model;

/// How many edges a message goes along at most.
pub const HOPS: usize = 8;

/// The nodes of a path behind its beginning: the filters that it goes through, and the port where it ends.
#[derive(Clone, Debug, Drop)]
pub struct Route {
    nodes: [Addr; HOPS],
    count: usize,
}

impl Model for Route {
    ghost use Rattle.std.specs.Prelude.{◌≡◌, ◌≤◌, List, take, length, true};
    ghost use Rattle.node_table.specs.declared.number.Addr.{Addr};
    ghost use Rattle.patch_graph.specs.declared.route.TheConstants.{HOPS};
    ghost use Rattle.patch_graph.specs.Cursor.{is_route};

    ghost Value = { List Addr };

    ghost view = { λ r. take r.count r.nodes };

    ghost invariant = { λ r. (r.count ≤ HOPS) × (length r.nodes ≡ HOPS)
        × (is_route (take r.count r.nodes) ≡ true) };
}

impl Route {
    /// The first `count` of these nodes.
    fn new(nodes: &[Addr], count: usize) -> Route
        requires whole { length nodes.now ≡ HOPS }
        requires within { count ≤ HOPS }
        requires route { is_route (take count nodes.now) ≡ true }
        ensures { result ≡ take count nodes.now }
    {
        let mut own = [nodes[0]; HOPS];
        own.copy_from_slice(nodes);
        Route { nodes: own, count }
    }

    /// The filters in their order, and then the port.
    pub fn nodes(&self) -> &[Addr]
        ensures nodes { result.now ≡ self.now }
        ensures few { length self.now ≤ hops }
    {
        &self.nodes[..self.count]
    }

    /// The filters on the path, from the first on: all its nodes but the last.
    pub fn filters(&self) -> &[Addr]
        ensures front { (last : Addr) × (self.now ≡ result.now ++ last ∷ []) }
        ensures all { list_all is_filter result.now ≡ true }
    {
        &self.nodes[..self.count - 1]
    }

    /// The same as a `Path`, whose filters lie in a vector.
    pub fn to_path(&self, alloc: Global) -> Result<Path, OutOfMemory>
        ensures { IfOk result (λ p. path_from self.now ≡ Some p) }
    {
        Ok(Path {
            filters: Items::new(Vec::from_slice(alloc, self.filters())?),
            last: self.last(),
        })
    }

    /// Where the path ends.
    pub fn last(&self) -> PortAddr
        ensures { (front : List Addr) × (self.now ≡ front ++ at_port result ∷ []) }
    {
        let last = self.nodes[self.count - 1];
        PortAddr {
            client: last.client,
            port: last.node.port().unwrap(),
        }
    }
}

/// The paths from a node that are still to come, the oldest first: by the age of their first edges, then of their
/// second ones, and so on.
#[derive(Drop)]
pub struct Routes<'g> {
    graph: &'g PatchGraph,
    // By depth: the node gone to, and what is left of the targets of the one before.
    nodes: [Addr; HOPS],
    left: [&'g [Addr]; HOPS],
    depth: usize,
}

impl<'g> Model for Routes<'g> {
    ghost use Rattle.std.specs.Prelude.{List, map};
    ghost use Rattle.node_table.specs.declared.number.Addr.{Addr};
    ghost use Rattle.patch_graph.specs.Cursor.{coming, IsCursor};

    ghost Value = { List (List Addr) };

    ghost view = { λ r. coming r.graph.now r.nodes (map (λ s. s.now) r.left) r.depth };

    ghost invariant = { λ r. IsCursor r.nodes (map (λ s. s.now) r.left) r.depth };
}

impl<'g> Routes<'g> {
    /// The next path, and `None` when there is none left.
    pub fn next(&mut self) -> Option<Route>
        ensures given { IfSome result (λ r. self.old ≡ r ∷ self.new) }
        ensures done { IfNone result (self.old ≡ []) }
        ensures kept { IfNone result (self.new ≡ []) }
    {
        while self.depth > 0 {
            let depth = self.depth;
            let level = depth - 1;
            let stack = &mut self.left[..];
            let targets = stack[level];
            match targets.split_first() {
                None => self.depth = level,
                Some((target, rest)) => {
                    stack[level] = rest;
                    let nodes = &mut self.nodes[..];
                    nodes[level] = *target;
                    if !target.is_filter() {
                        return Some(Route::new(nodes, depth));
                    }
                    if depth < HOPS {
                        let below = self.graph.targets(target);
                        let stack = &mut self.left[..];
                        stack[depth] = below;
                        self.depth = depth + 1;
                    }
                }
            }
        }
        None
    }
}

impl PatchGraph {
    /// The paths from a node, one by one. It takes no memory.
    pub fn routes(&self, from: &Addr) -> Routes<'_>
        ensures { result ≡ routes self.now from.now }
    {
        Routes {
            graph: self,
            nodes: [*from; HOPS],
            left: [self.targets(from); HOPS],
            depth: 1,
        }
    }

    /// All the paths from a node.
    pub fn walk(&self, from: &Addr) -> Result<Vec<Path>, OutOfMemory>
        ensures { IfOk result (λ ps. ps.items ≡ filter_map path_of (paths self.now from.now)) }
    {
        let mut paths = Vec::new(self.alloc());
        let mut routes = self.routes(from);
        while let Some(route) = routes.next() {
            paths.push(route.to_path(self.alloc())?)?;
        }
        Ok(paths)
    }
}
