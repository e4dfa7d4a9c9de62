//! Tests of the premises of a graph's calls. Most of these end the test where the premise doesn't hold.
ghost use Rattle.std.specs.Prelude.{◌≡◌, ◌<◌, ◌≤◌, None, Some, IsTrue, length};
ghost use Rattle.lot_machine.specs.declared.funding.Lend.TheVariants.{Nobody};
ghost use Rattle.lot_machine.specs.declared.funding.Node.TheVariants.{Thread as ThreadNode, Mutex as MutexNode};
ghost use Rattle.lot_machine.specs.Funding.{owner_of};
ghost use Rattle.lot_machine.specs.Numbered.{at_number};
ghost use Rattle.lot_graph.specs.Graphs.{IsBorrower, IsCurrency, IsMutex, IsNodeOf, IsThread, LendReaches, Reaches};

use crate::tests::nodes::{is_mutex, is_thread};
use lot_graph::Graph;
use lot_machine::{Lend, Node};
use std::process::Abort;

/// Ends the test unless one more thread may be made.
pub(super) fn check_room(rt: &impl Abort, graph: &Graph)
    ensures { length graph.now.funding.lends < graph.now.thread_limit }
{
    assert!(rt; graph.threads() < graph.layout().threads);
}

/// Ends the test unless the currency may issue this amount.
pub(super) fn check_issue(rt: &impl Abort, graph: &Graph, currency: u32, amount: u32)
    ensures amount { 0 < amount }
    ensures currency { IsCurrency graph.now.funding currency }
{
    assert!(rt; 0 < amount);
    assert!(rt; graph.is_currency(currency));
}

/// Ends the test unless a thread has this number.
pub(super) fn check_thread(rt: &impl Abort, graph: &Graph, thread: u32)
    ensures there { IsThread graph.now.funding thread }
    ensures node { IsNodeOf graph.now (ThreadNode thread) }
    ensures within { thread ≤ graph.now.thread_limit }
{
    assert!(rt; is_thread(graph, thread));
}

/// Ends the test unless a mutex has this number.
pub(super) fn check_mutex(rt: &impl Abort, graph: &Graph, mutex: u32)
    ensures there { IsMutex graph.now.funding mutex }
    ensures node { IsNodeOf graph.now (MutexNode mutex) }
{
    assert!(rt; is_mutex(graph, mutex));
}

/// Ends the test unless a thread has this number, and lends to nobody.
pub(super) fn check_lends_nothing(rt: &impl Abort, graph: &Graph, thread: u32)
    ensures there { IsThread graph.now.funding thread }
    ensures within { thread ≤ graph.now.thread_limit }
    ensures nobody { at_number graph.now.funding.lends thread ≡ Some Nobody }
{
    check_thread(rt, graph, thread);
    assert!(rt; matches!(graph.lend_of(thread), Some(Lend::Nobody)));
}

/// Whether a thread may have this lend.
pub(super) fn may_lend(graph: &mut Graph, thread: u32, lend: Lend) -> bool
    requires thread { 0 < thread }
    requires within { thread ≤ graph.old.thread_limit }
    ensures borrower { IsTrue result → IsBorrower graph.new.funding lend }
    ensures apart { IsTrue result → ¬ LendReaches graph.new.funding lend thread }
    ensures unchanged { graph.new ≡ graph.old }
{
    match lend {
        Lend::Nobody => false,
        Lend::ToThread(server) => {
            is_thread(graph, server) && !graph.reaches(Node::Thread(server), Node::Thread(thread))
        }
        Lend::ToMutex(mutex) => {
            is_mutex(graph, mutex) && !graph.reaches(Node::Mutex(mutex), Node::Thread(thread))
        }
    }
}

/// Ends the test unless there is such a thread, which lends to nobody and may have this lend.
pub(super) fn check_may_lend(rt: &impl Abort, graph: &mut Graph, thread: u32, lend: Lend)
    ensures nobody { at_number graph.new.funding.lends thread ≡ Some Nobody }
    ensures borrower { IsBorrower graph.new.funding lend }
    ensures apart { ¬ LendReaches graph.new.funding lend thread }
    ensures unchanged { graph.new ≡ graph.old }
{
    check_lends_nothing(rt, graph, thread);
    assert!(rt; may_lend(graph, thread, lend));
}

/// Ends the test unless there is such a mutex, which is free, and such a thread, which may own it.
pub(super) fn check_may_own(rt: &impl Abort, graph: &mut Graph, mutex: u32, owner: u32)
    ensures mutex { IsMutex graph.new.funding mutex }
    ensures owner { IsThread graph.new.funding owner }
    ensures free { owner_of graph.new.funding mutex ≡ None }
    ensures apart { ¬ Reaches graph.new.funding (ThreadNode owner) (MutexNode mutex) }
    ensures unchanged { graph.new ≡ graph.old }
{
    check_mutex(rt, graph, mutex);
    check_thread(rt, graph, owner);
    assert!(rt; graph.owner(mutex).is_none());
    assert!(rt; !graph.reaches(Node::Thread(owner), Node::Mutex(mutex)));
}
