//! Updates of the funding graph for each thread: whether it is live, and its lend.
ghost use Rattle.std.specs.Prelude.{◌≡◌, ◌↔◌, ◌≤◌, Some, IsTrue};
ghost use Rattle.lot_machine.specs.declared.funding.Node.TheVariants.{Thread as ThreadNode};
ghost use Rattle.lot_machine.specs.Numbered.{at_number, set_number};
ghost use Rattle.lot_machine.specs.State as states;
ghost use Rattle.lot_machine.specs.State.{sizes_of};
ghost use Rattle.lot_draw.specs.Competing as competing;
ghost use Rattle.lot_graph.specs.Changes.{with_lends};
ghost use Rattle.lot_graph.specs.Graphs.{IsMutex, IsNodeOf, IsThread};
ghost use Rattle.lot_value.specs.Changing.{CanLend};
ghost use Rattle.lot_value.specs.Valued.{Becomes};
ghost use Rattle.lot_threads.specs.Timely.{IsBelowQuantum, IsTimely};

use lot_draw::Competitor;
use lot_machine::{Lend, Limits, Node, Record, Status};
use lot_value::{GraphChange, ValuedGraph};

/// The receiver of a thread's lend: a served thread's server, a waiting thread's mutex, with `queued_lend` the holder
/// of a queued thread's port, or nobody; in a kernel without lending always nobody (3.1, 4.6, 6.1).
pub(crate) fn lend_of(limits: &Limits, status: Status) -> Lend
    ensures { result ≡ states.lend_of (sizes_of limits.now) status }
{
    if limits.without_lending {
        return Lend::Nobody;
    }
    match status {
        Status::Queued(port) if limits.queued_lend && port <= limits.ports => {
            Lend::ToMutex(limits.mutexes + port)
        }
        Status::Served(server) => Lend::ToThread(server),
        Status::Waiting(mutex) => Lend::ToMutex(mutex),
        _ => Lend::Nobody,
    }
}

/// Whether a thread with this status is live: Ready or Running.
pub(crate) fn is_live(status: Status) -> bool
    ensures { result ≡ states.is_live_status status }
{
    matches!(status, Status::Ready | Status::Running { .. })
}

/// Updates the graph to a thread's new status: whether the thread is live, and its lend. If neither changes, it does
/// nothing.
#[inline(always)]
pub(crate) fn follow_status(
    graph: &mut ValuedGraph,
    limits: &Limits,
    thread: u32,
    before: Status,
    now: Status,
)
    requires thread { IsThread graph.old.now.funding thread }
    requires lend { CanLend graph.old.now.funding thread (states.lend_of (sizes_of limits.now) now) }
    requires lent { at_number graph.old.now.funding.lends thread ≡ Some (states.lend_of (sizes_of limits.now) before) }
    requires lived { at_number graph.old.live thread ≡ Some (states.is_live_status before) }
    ensures follows { Becomes graph.old graph.new
        (with_lends graph.old.now
        (set_number graph.old.now.funding.lends thread (states.lend_of (sizes_of limits.now) now)))
        (set_number graph.old.live thread (states.is_live_status now)) }
{
    let live = is_live(now);
    let lend = lend_of(limits, now);
    if live != is_live(before) || lend != lend_of(limits, before) {
        graph.apply(GraphChange::PutThread { thread, lend, live });
    }
}

/// The thread's part in a draw: with its compensation if it is Ready, otherwise none (4.2, 4.5).
pub(crate) fn competitor_of(of: Record) -> Option<Competitor>
    ensures { result ≡ competing.competitor_of of }
{
    if of.status == Status::Ready {
        return Some(Competitor {
            compensation: of.compensation,
        });
    }
    None
}

/// Whether a compensation, if any, is at least one tick, and a running thread has used less than the quantum.
pub(crate) fn is_timely(of: Record, quantum: u32) -> bool
    ensures { IsTrue result ↔ IsTimely quantum of }
{
    is_below(of.status, quantum) && of.compensation != Some(0)
}

fn is_below(status: Status, quantum: u32) -> bool
    ensures { IsTrue result ↔ IsBelowQuantum quantum status }
{
    match status {
        Status::Running { used, .. } => used < quantum,
        _ => true,
    }
}

/// Whether the thread exists.
pub(crate) fn is_thread(graph: &ValuedGraph, thread: u32) -> bool
    ensures there { IsTrue result ↔ IsThread graph.now.now.funding thread }
    ensures within { IsTrue result → thread ≤ graph.now.now.thread_limit }
{
    thread > 0 && thread <= graph.graph().threads()
}

fn is_mutex(graph: &ValuedGraph, mutex: u32) -> bool
    ensures { IsTrue result ↔ IsMutex graph.now.now.funding mutex }
{
    mutex > 0 && mutex <= graph.graph().mutexes()
}

/// Whether the borrower, if any, exists and doesn't reach the thread. It changes nothing.
pub(crate) fn can_lend(graph: &mut ValuedGraph, thread: u32, lend: Lend) -> bool
    requires { IsNodeOf graph.old.now (ThreadNode thread) }
    ensures can { IsTrue result ↔ CanLend graph.old.now.funding thread lend }
    ensures unchanged { graph.new ≡ graph.old }
{
    match lend {
        Lend::Nobody => true,
        Lend::ToThread(server) => {
            is_thread(graph, server) && !graph.reaches(Node::Thread(server), Node::Thread(thread))
        }
        Lend::ToMutex(mutex) => {
            is_mutex(graph, mutex) && !graph.reaches(Node::Mutex(mutex), Node::Thread(thread))
        }
    }
}
