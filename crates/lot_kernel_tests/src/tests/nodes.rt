//! The nodes of a graph, and the targets that a ticket may have there.
ghost use Rattle.std.specs.Prelude.{◌≤◌, IsTrue};
ghost use Rattle.lot_machine.specs.declared.funding.Node.TheVariants.{Thread as ThreadNode, Mutex as MutexNode};
ghost use Rattle.lot_graph.specs.Graphs.{IsMutex, IsNode, IsNodeOf, IsTarget, IsThread};

use lot_graph::Graph;
use lot_machine::{Node, Target};

/// Whether a thread has this number.
pub(crate) fn is_thread(graph: &Graph, thread: u32) -> bool
    ensures there { IsTrue result → IsThread graph.now.funding thread }
    ensures node { IsTrue result → IsNodeOf graph.now (ThreadNode thread) }
    ensures within { IsTrue result → thread ≤ graph.now.thread_limit }
{
    0 < thread && thread <= graph.threads()
}

/// Whether a mutex has this number.
pub(crate) fn is_mutex(graph: &Graph, mutex: u32) -> bool
    ensures there { IsTrue result → IsMutex graph.now.funding mutex }
    ensures node { IsTrue result → IsNodeOf graph.now (MutexNode mutex) }
{
    0 < mutex && mutex <= graph.mutexes()
}

/// Whether a ticket may fund the target.
pub(crate) fn is_target(graph: &Graph, target: Target) -> bool
    ensures { IsTrue result → IsTarget graph.now.funding target }
{
    match target {
        Target::Unfunded => false,
        Target::Currency(currency) => 0 < currency && graph.is_currency(currency),
        Target::Thread(thread) => is_thread(graph, thread),
    }
}

/// Whether the graph has this node.
pub(crate) fn is_node(graph: &Graph, node: Node) -> bool
    ensures within { IsTrue result → IsNodeOf graph.now node }
    ensures there { IsTrue result → IsNode graph.now.funding node }
{
    match node {
        Node::Currency(currency) => graph.is_currency(currency),
        Node::Thread(thread) => 0 < thread && thread <= graph.threads(),
        Node::Mutex(mutex) => 0 < mutex && mutex <= graph.mutexes(),
    }
}
