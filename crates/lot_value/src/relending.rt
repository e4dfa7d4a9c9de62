//! Changing a thread's lend, and whether it is live.
ghost use Rattle.std.specs.Prelude.{◌≡◌, ◌↔◌, Some, IsTrue};
ghost use Rattle.lot_machine.specs.declared.funding.Lend.TheVariants.{Nobody};
ghost use Rattle.lot_machine.specs.Numbered.{at_number, set_number};
ghost use Rattle.lot_graph.specs.Changes.{with_lends};
ghost use Rattle.lot_graph.specs.Graphs.{IsThread};
ghost use Rattle.lot_value.specs.declared.change.GraphChange.TheVariants.{PutThread};
ghost use Rattle.lot_value.specs.Changing.{CanApply, CanLend, StaleBy, applied};
ghost use Rattle.lot_value.specs.Valued.{FollowsGraph};

use crate::valued_graph::ValuedGraph;
use lot_machine::Lend;

/// Makes a thread live or not, and sets its lend. A thread that is live before or after stays live in between, so that
/// a server doesn't become inactive while a client's funding moves to it.
///
/// A draw and an end of a quantum change no thread's lend and leave it live, so they never call it. The compiler never
/// inlines it, since it would take registers from them.
#[inline(never)]
pub(crate) fn put_thread(graph: &mut ValuedGraph, thread: u32, lend: Lend, live: bool)
    requires allowed { CanApply graph.old.now graph.old.live (PutThread thread lend live) }
    ensures applied { graph.new ≡ applied graph.old (PutThread thread lend live) graph.new.known.stale }
    ensures stale { StaleBy (PutThread thread lend live) graph.old graph.new }
{
    if live {
        graph.set_live(thread, true);
        relend(graph, thread, lend);
    } else {
        relend(graph, thread, lend);
        graph.set_live(thread, false);
    }
}

/// Sets a thread's lend.
#[inline(always)]
fn relend(graph: &mut ValuedGraph, thread: u32, lend: Lend)
    requires thread { IsThread graph.old.now.funding thread }
    requires lend { CanLend graph.old.now.funding thread lend }
    ensures follows { FollowsGraph graph.old graph.new
        (with_lends graph.old.now (set_number graph.old.now.funding.lends thread lend)) }
{
    if lends(graph, thread, lend) {
        return;
    }
    unlend(graph, thread);
    if lend != Lend::Nobody {
        graph.lend(thread, lend);
    }
}

/// Ends a thread's lend.
#[inline(always)]
fn unlend(graph: &mut ValuedGraph, thread: u32)
    requires thread { IsThread graph.old.now.funding thread }
    ensures follows { FollowsGraph graph.old graph.new
        (with_lends graph.old.now (set_number graph.old.now.funding.lends thread Nobody)) }
{
    if !lends(graph, thread, Lend::Nobody) {
        graph.unlend(thread);
    }
}

/// Whether this is the thread's lend.
fn lends(graph: &ValuedGraph, thread: u32, lend: Lend) -> bool
    ensures { IsTrue result ↔ (at_number graph.now.now.funding.lends thread ≡ Some lend) }
{
    graph.graph().lend_of(thread) == Some(lend)
}
