//! Values that are touched are stale.
ghost use Rattle.std.specs.Prelude.{◌≡◌, IfOk};
ghost use Rattle.lot_graph.specs.Places.{layout_of};

use crate::tests::same::check_same;
use lot_graph::Graph;
use lot_machine::{Limits, Node, Sizes};
use lot_value::Values;
use std::alloc::Global;
use std::process::Abort;
use std::test::Fail;

/// Base alone, with room for two tickets, one currency and two threads, and one mutex.
fn small_graph(rt: &impl Abort, alloc: Global) -> Result<Graph, Fail>
    ensures limits { IfOk result (λ g. (g.currency_limit ≡ 1) × (g.thread_limit ≡ 2)) }
{
    let limits = Limits::new(Sizes {
        tickets: 2,
        currencies: 1,
        threads: 2,
        mutexes: 1,
        ..Sizes::SMALLEST
    });
    let limits = limits.expect(rt, "limits are not in bounds");
    Ok(Graph::new(alloc, &limits)?)
}

/// Touches one of two threads, and checks that it is the only stale node.
fn check_touch(rt: &impl Abort, graph: &Graph, values: &mut Values)
    requires layout { values.old.layout ≡ layout_of graph.now }
    requires threads { graph.now.thread_limit ≡ 2 }
{
    check_same(rt, &values.value_of(Node::Thread(2)), &0);
    check_same(rt, &values.is_stale(Node::Thread(2)), &false);
    values.touch(graph, Node::Thread(2));
    check_same(rt, &values.is_stale(Node::Thread(2)), &true);
    check_same(rt, &values.is_stale(Node::Thread(1)), &false);
}

fn touch_in_a_small_graph(rt: &impl Abort, alloc: Global) -> Result<(), Fail> {
    let graph = small_graph(rt, alloc)?;
    let mut values = Values::new(alloc, &graph, 1)?;
    check_touch(rt, &graph, &mut values);
    Ok(())
}

#[test]
fn touched_nodes_are_stale(rt: HostRuntime) -> Result<(), Fail> {
    touch_in_a_small_graph(&rt, rt.alloc())
}
