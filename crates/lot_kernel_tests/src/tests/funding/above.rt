//! The currencies above a node, in a graph with an edge of each kind.
ghost use Rattle.std.specs.Prelude.{◌≡◌};
ghost use Rattle.lot_graph.specs.Places.{layout_of};

use super::graph::{Scene, Step, played};
use crate::tests::nodes::is_node;
use crate::tests::same::check_same_at;
use lot_graph::{Above, Graph};
use lot_machine::{Node, Target};
use std::alloc::Global;
use std::process::Abort;

const BASE: u32 = 0;

const ALICE: u32 = 1;

const TASK: u32 = 2;

const BOB: u32 = 3;

/// Base funds alice and bob. Alice funds task, which funds thread 1, and bob funds thread 3. Thread 1 lends to
/// thread 2, which owns mutex 1, and thread 3 waits for the mutex.
const GRAPH: Scene<'static> = (
    "above",
    &[
        Step::MakeCurrency(ALICE),
        Step::AddThread,
        Step::MakeCurrency(TASK),
        Step::AddThread,
        Step::MakeCurrency(BOB),
        Step::AddThread,
        Step::Link(BASE, Target::Currency(ALICE)),
        Step::Link(BASE, Target::Currency(BOB)),
        Step::Link(ALICE, Target::Currency(TASK)),
        Step::Link(TASK, Target::Thread(1)),
        Step::Link(BOB, Target::Thread(3)),
        Step::Lend(1, 2, true),
        Step::Give(1, 2),
        Step::Wait(3, 1, true),
    ],
);

/// Searches from an existing node.
fn find(rt: &impl Abort, above: &mut Above, graph: &Graph, node: Node)
    requires { above.old.layout ≡ layout_of graph.now }
    ensures { above.new.layout ≡ above.old.layout }
{
    assert!(rt; is_node(graph, node));
    above.find(graph, node);
}

/// Whether the last search found an existing currency.
fn has_found(rt: &impl Abort, above: &Above, graph: &Graph, currency: u32) -> bool
    requires { above.now.layout ≡ layout_of graph.now }
{
    assert!(rt; graph.is_currency(currency));
    above.has(currency)
}

/// Whether a search finds the currency above the second node, after a search from the first.
fn finds(
    rt: &impl Abort,
    alloc: Global,
    graph: &Graph,
    nodes: (Node, Node),
    currency: u32,
) -> bool {
    let mut above = Above::new(alloc, graph.layout()).expect(rt, "memory");
    find(rt, &mut above, graph, nodes.0);
    find(rt, &mut above, graph, nodes.1);
    has_found(rt, &above, graph, currency)
}

/// A node, a currency, and whether the currency is above the node.
const ROWS: &[(Node, u32, bool)] = &[
    (Node::Currency(BASE), BASE, true),
    (Node::Currency(BASE), ALICE, false),
    (Node::Currency(ALICE), BASE, true),
    (Node::Currency(ALICE), ALICE, true),
    (Node::Currency(ALICE), TASK, false),
    (Node::Currency(TASK), ALICE, true),
    (Node::Currency(TASK), BOB, false),
    (Node::Thread(1), BASE, true),
    (Node::Thread(1), ALICE, true),
    (Node::Thread(1), TASK, true),
    (Node::Thread(1), BOB, false),
    // Through the lender, and through the mutex.
    (Node::Thread(2), TASK, true),
    (Node::Thread(2), ALICE, true),
    (Node::Thread(2), BOB, true),
    (Node::Thread(2), BASE, true),
    (Node::Mutex(1), BOB, true),
    (Node::Mutex(1), BASE, true),
    (Node::Mutex(1), TASK, false),
    (Node::Thread(3), BOB, true),
    (Node::Thread(3), TASK, false),
    (Node::Thread(3), ALICE, false),
];

fn check_row(
    rt: &impl Abort,
    alloc: Global,
    graph: &Graph,
    (node, currency, is): (Node, u32, bool),
) {
    // Every currency is above thread 2, so the second search must forget the first.
    let found = finds(rt, alloc, graph, (Node::Thread(2), node), currency);
    check_same_at(rt, &(node, currency), &found, &is);
}

#[test]
fn currencies_above_nodes(rt: HostRuntime) {
    let graph = played(&rt, rt.alloc(), GRAPH);
    for row in ROWS {
        check_row(&rt, rt.alloc(), &graph, *row);
    }
}
