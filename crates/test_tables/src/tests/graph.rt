//! Graphs of subscriptions: what they answer to one call after another.

use super::numbers::At::{self, F, P};
use super::numbers::{addr, client, port};
use memory::OutOfMemory;
use node_table::{Addr, PortAddr};
use patch_graph::{EdgeFault, PatchGraph, Path, Routes};
use std::alloc::Global;
use std::process::Abort;
use std::test::Fail;

/// From one node to the other.
type Edge = (At, At);

/// What a graph answers of two nodes, in order, by yes or no.
#[derive(Clone, Copy)]
enum Question {
    Disconnect,
    HasEdge,
    Reaches,
    MakesCycle,
}

use self::Question::*;

/// A call on a graph, and what comes of it.
#[derive(Clone, Copy)]
enum Step {
    /// These edges are taken, one after another.
    Joins(&'static [Edge]),
    /// Edges from the ports 0 to 15 of a client to this node are taken.
    JoinsPorts(u8, At),
    Refuses(Edge, EdgeFault),
    Asks(Question, Edge, bool),
    RemovesNode(At),
    RemovesClient(u8),
    /// So many edges there are.
    Has(usize),
    /// These are all edges, oldest first.
    HasEdges(&'static [Edge]),
    /// The edge at a place, by age.
    HasAt(usize, Edge),
    Sources(At, usize),
    Targets(At, &'static [At]),
    /// The ways from a node, each with all nodes behind it.
    Ways(At, &'static [&'static [At]]),
}

use self::Step::*;

/// A graph that is new before the first step.
struct Case {
    name: &'static str,
    steps: &'static [Step],
}

/// Filters 0 and 1 feed ports 0 and 1; the edges to the ports are older than those to the filters.
const CROSSED: &[Edge] = &[
    (F(128, 0), P(129, 1)),
    (F(128, 1), P(129, 1)),
    (F(128, 1), P(129, 0)),
    (F(128, 0), P(129, 0)),
    (P(128, 0), F(128, 1)),
    (P(128, 0), P(129, 2)),
    (P(128, 0), F(128, 0)),
];

/// Ports of client 130 feed one of client 128 and one of client 131.
const BESIDE: &[Edge] = &[
    (P(130, 1), P(131, 0)),
    (P(130, 0), P(128, 0)),
    (P(130, 0), P(131, 0)),
];

/// Seven edges, each to the next of the filters 0 to 6.
const CHAIN: &[Edge] = &[
    (P(128, 0), F(128, 0)),
    (F(128, 0), F(128, 1)),
    (F(128, 1), F(128, 2)),
    (F(128, 2), F(128, 3)),
    (F(128, 3), F(128, 4)),
    (F(128, 4), F(128, 5)),
    (F(128, 5), F(128, 6)),
];

const CASES: &[Case] = &[
    Case {
        name: "a new graph joins nobody",
        steps: &[
            Sources(P(128, 0), 0),
            Targets(P(128, 0), &[]),
            Ways(P(128, 0), &[]),
            Asks(Disconnect, (P(128, 0), P(128, 0)), false),
            RemovesNode(P(128, 0)),
            RemovesClient(191),
            Has(0),
        ],
    },
    Case {
        name: "the 33rd source is refused",
        steps: &[
            JoinsPorts(128, P(150, 0)),
            Sources(P(150, 0), 16),
            JoinsPorts(129, P(150, 0)),
            Sources(P(150, 0), 32),
            Sources(P(128, 0), 0),
            Refuses((P(130, 0), P(150, 0)), EdgeFault::SourcesFull),
            Has(32),
        ],
    },
    Case {
        name: "a source comes back as the youngest",
        steps: &[
            JoinsPorts(128, P(150, 0)),
            JoinsPorts(129, P(150, 0)),
            Refuses((P(128, 0), P(150, 0)), EdgeFault::AlreadyConnected),
            Asks(Disconnect, (P(128, 0), P(150, 0)), true),
            Asks(Disconnect, (P(128, 0), P(150, 0)), false),
            Asks(HasEdge, (P(128, 0), P(150, 0)), false),
            Sources(P(150, 0), 31),
            Joins(&[(P(128, 0), P(150, 0))]),
            Sources(P(150, 0), 32),
            HasAt(0, (P(128, 1), P(150, 0))),
            HasAt(31, (P(128, 0), P(150, 0))),
            Has(32),
        ],
    },
    Case {
        name: "filters in a cycle are refused",
        steps: &[
            Refuses((F(128, 0), F(128, 0)), EdgeFault::Cycle),
            Joins(&[(F(128, 0), F(128, 1))]),
            Refuses((F(128, 1), F(128, 0)), EdgeFault::Cycle),
            Joins(&[(F(128, 1), F(128, 2))]),
            Refuses((F(128, 2), F(128, 0)), EdgeFault::Cycle),
            Joins(&[(F(128, 0), F(128, 2))]),
            Has(3),
            Asks(Reaches, (F(128, 0), F(128, 2)), true),
            Asks(Reaches, (F(128, 2), F(128, 0)), false),
            Asks(Reaches, (F(128, 0), F(128, 0)), false),
        ],
    },
    Case {
        name: "a port ends a chain of filters",
        steps: &[
            Joins(&[(F(128, 0), P(128, 0)), (P(128, 0), F(129, 0))]),
            Asks(Reaches, (F(128, 0), F(129, 0)), false),
            Asks(MakesCycle, (F(129, 0), F(128, 0)), false),
            Joins(&[(F(129, 0), F(128, 0))]),
            Asks(MakesCycle, (F(128, 0), F(129, 0)), true),
        ],
    },
    Case {
        name: "ports are joined both ways, and to themselves",
        steps: &[
            Joins(&[
                (P(128, 0), P(129, 0)),
                (P(129, 0), P(128, 0)),
                (P(128, 0), P(128, 0)),
            ]),
            Has(3),
            Ways(P(128, 0), &[&[P(129, 0)], &[P(128, 0)]]),
        ],
    },
    Case {
        name: "ways go by the age of their edges",
        steps: &[
            Joins(CROSSED),
            Ways(
                P(128, 0),
                &[
                    &[F(128, 1), P(129, 1)],
                    &[F(128, 1), P(129, 0)],
                    &[P(129, 2)],
                    &[F(128, 0), P(129, 1)],
                    &[F(128, 0), P(129, 0)],
                ],
            ),
        ],
    },
    Case {
        name: "eight edges are walked",
        steps: &[
            Joins(CHAIN),
            Joins(&[(F(128, 6), P(129, 0))]),
            Has(8),
            Ways(
                P(128, 0),
                &[&[
                    F(128, 0),
                    F(128, 1),
                    F(128, 2),
                    F(128, 3),
                    F(128, 4),
                    F(128, 5),
                    F(128, 6),
                    P(129, 0),
                ]],
            ),
        ],
    },
    Case {
        name: "nine edges are not walked",
        steps: &[
            Joins(CHAIN),
            Joins(&[(F(128, 6), F(128, 7)), (F(128, 7), P(129, 0))]),
            Has(9),
            Ways(P(128, 0), &[]),
            Ways(
                F(128, 0),
                &[&[
                    F(128, 1),
                    F(128, 2),
                    F(128, 3),
                    F(128, 4),
                    F(128, 5),
                    F(128, 6),
                    F(128, 7),
                    P(129, 0),
                ]],
            ),
        ],
    },
    Case {
        name: "a node goes with its edges",
        steps: &[
            Joins(CROSSED),
            RemovesNode(F(128, 1)),
            HasEdges(&[
                (F(128, 0), P(129, 1)),
                (F(128, 0), P(129, 0)),
                (P(128, 0), P(129, 2)),
                (P(128, 0), F(128, 0)),
            ]),
            Sources(P(129, 1), 1),
            Targets(P(128, 0), &[P(129, 2), F(128, 0)]),
            Targets(F(128, 1), &[]),
        ],
    },
    Case {
        name: "a client goes with its edges",
        steps: &[
            Joins(CROSSED),
            Joins(BESIDE),
            RemovesClient(128),
            HasEdges(&[(P(130, 1), P(131, 0)), (P(130, 0), P(131, 0))]),
            Targets(P(130, 0), &[P(131, 0)]),
            Sources(P(129, 0), 0),
            RemovesClient(131),
            Has(0),
        ],
    },
];

// Each of these says whether all came as wanted. One assertion for all then names the case and its step.

fn joins(rt: &impl Abort, graph: &mut PatchGraph, edges: &[Edge]) -> bool {
    for (from, to) in edges {
        if graph.connect(addr(rt, *from), addr(rt, *to)) != Ok(()) {
            return false;
        }
    }
    true
}

fn joins_ports(rt: &impl Abort, graph: &mut PatchGraph, of: u8, to: At) -> bool {
    for number in 0..16 {
        if graph.connect(port(rt, of, number), addr(rt, to)) != Ok(()) {
            return false;
        }
    }
    true
}

fn has(alloc: Global, graph: &PatchGraph, count: usize) -> Result<bool, OutOfMemory> {
    let edges = graph.edges(alloc)?;
    Ok(graph.len() == count && graph.is_empty() == (count == 0) && edges.len() == count)
}

fn has_at(
    rt: &impl Abort,
    alloc: Global,
    graph: &PatchGraph,
    place: usize,
    edge: Edge,
) -> Result<bool, OutOfMemory> {
    let edges = graph.edges(alloc)?;
    Ok(match edges.get(place) {
        Some(found) => found.source == addr(rt, edge.0) && found.target == addr(rt, edge.1),
        None => false,
    })
}

fn has_edges(
    rt: &impl Abort,
    alloc: Global,
    graph: &PatchGraph,
    edges: &[Edge],
) -> Result<bool, OutOfMemory> {
    for (place, edge) in edges.iter().enumerate() {
        if !has_at(rt, alloc, graph, place, *edge)? {
            return Ok(false);
        }
    }
    has(alloc, graph, edges.len())
}

fn are(rt: &impl Abort, nodes: &[Addr], wanted: &[At]) -> bool {
    for (node, at) in nodes.iter().zip(wanted) {
        if *node != addr(rt, *at) {
            return false;
        }
    }
    nodes.len() == wanted.len()
}

/// The filters of a way and the port at its end are all its nodes.
fn is_way(rt: &impl Abort, filters: &[Addr], last: PortAddr, wanted: &[At]) -> bool {
    match wanted.split_last() {
        Some((end, front)) => are(rt, filters, front) && Addr::from(last) == addr(rt, *end),
        None => false,
    }
}

fn routes_are(rt: &impl Abort, routes: &mut Routes<'_>, ways: &[&[At]]) -> bool {
    for wanted in ways {
        let Some(way) = routes.next() else {
            return false;
        };
        if !are(rt, way.nodes(), wanted) || !is_way(rt, way.filters(), way.last(), wanted) {
            return false;
        }
    }
    routes.next().is_none()
}

fn paths_are(rt: &impl Abort, paths: &[Path], ways: &[&[At]]) -> bool {
    for (path, wanted) in paths.iter().zip(ways) {
        if !is_way(rt, path.filters.as_slice(), path.last, wanted) {
            return false;
        }
    }
    paths.len() == ways.len()
}

/// The ways from a node, one by one and as they are walked.
fn goes(
    rt: &impl Abort,
    graph: &PatchGraph,
    from: &Addr,
    ways: &[&[At]],
) -> Result<bool, OutOfMemory> {
    let walked = paths_are(rt, graph.walk(from)?.as_slice(), ways);
    Ok(walked && routes_are(rt, &mut graph.routes(from), ways))
}

fn answer(graph: &mut PatchGraph, question: Question, from: &Addr, to: &Addr) -> bool {
    match question {
        Disconnect => graph.disconnect(from, to),
        HasEdge => graph.has_edge(from, to),
        Reaches => graph.reaches(from, to),
        MakesCycle => graph.makes_cycle(from, to),
    }
}

/// Whether a call gives what the step says.
fn holds(
    rt: &impl Abort,
    alloc: Global,
    graph: &mut PatchGraph,
    step: Step,
) -> Result<bool, OutOfMemory> {
    Ok(match step {
        Joins(edges) => joins(rt, graph, edges),
        JoinsPorts(of, to) => joins_ports(rt, graph, of, to),
        Refuses((from, to), fault) => graph.connect(addr(rt, from), addr(rt, to)) == Err(fault),
        Asks(question, (from, to), wanted) => {
            answer(graph, question, &addr(rt, from), &addr(rt, to)) == wanted
        }
        RemovesNode(node) => {
            graph.remove_node(&addr(rt, node));
            true
        }
        RemovesClient(number) => {
            graph.remove_client(client(rt, number));
            true
        }
        Has(count) => has(alloc, graph, count)?,
        HasEdges(edges) => has_edges(rt, alloc, graph, edges)?,
        HasAt(place, edge) => has_at(rt, alloc, graph, place, edge)?,
        Sources(of, count) => graph.sources(&addr(rt, of)) == count,
        Targets(of, nodes) => are(rt, graph.targets(&addr(rt, of)), nodes),
        Ways(from, ways) => goes(rt, graph, &addr(rt, from), ways)?,
    })
}

/// Takes the steps of a case, from a new graph on.
fn assert_case(
    rt: &impl Abort,
    alloc: Global,
    graph: &mut PatchGraph,
    case: &Case,
) -> Result<(), OutOfMemory> {
    for (number, step) in case.steps.iter().enumerate() {
        assert!(rt;
            holds(rt, alloc, graph, *step)?,
            "{}: step {number}",
            case.name
        );
    }
    Ok(())
}

#[test]
fn graphs_answer_step_by_step(rt: HostRuntime) -> Result<(), Fail> {
    for case in CASES {
        let mut graph = PatchGraph::new(rt.alloc());
        assert_case(&rt, rt.alloc(), &mut graph, case)?;
    }
    Ok(())
}

/// Joins each port that there may be to 32 others.
fn fill_house(rt: &impl Abort, graph: &mut PatchGraph) {
    for number in 128..192 {
        for target in 0..16 {
            let to = P(number, target);
            assert!(rt; joins_ports(rt, graph, 128, to) && joins_ports(rt, graph, 129, to));
        }
    }
}

/// The ways of a port lead to each port that there may be.
fn assert_ways_to_all(rt: &impl Abort, routes: &mut Routes<'_>) {
    for number in 128..192 {
        for target in 0..16 {
            let way = routes.next().expect(rt, "one more way");
            assert!(rt; are(rt, way.nodes(), &[P(number, target)]));
        }
    }
    assert!(rt; routes.next().is_none());
}

/// Each port has 32 sources, and each way leads to one of them.
fn assert_full_house(rt: &impl Abort, graph: &mut PatchGraph) {
    fill_house(rt, graph);
    assert!(rt; graph.len() == 32_768);
    for number in 128..192 {
        let last = port(rt, number, 15);
        assert!(rt; graph.sources(&last) == 32);
        let refused = graph.connect(port(rt, 130, 0), last);
        assert!(rt; refused == Err(EdgeFault::SourcesFull));
    }
    assert_ways_to_all(rt, &mut graph.routes(&port(rt, 129, 3)));
}

#[test]
fn a_full_house_of_ports_has_32_sources_at_each(rt: HostRuntime) {
    let mut graph = PatchGraph::new(rt.alloc());
    assert_full_house(&rt, &mut graph);
}
