//! Helpers for the rows of threads, mutexes and ports.
ghost use Rattle.std.specs.Prelude.{◌≡◌, Some, IsTrue, length};
ghost use Rattle.lot_machine.specs.declared.ticket.Target.TheVariants.{Unfunded};
ghost use Rattle.lot_machine.specs.Funding.{target_of};
ghost use Rattle.lot_queues.specs.QueueLists.{IsThere, IsNowhere};
ghost use Rattle.lot_value.specs.Changing.{CanTarget};
ghost use Rattle.lot_threads.specs.Threaded.{IsLiveIn, funding_in};

use crate::tests::nodes::is_target;
use lot_draw::Winner;
use lot_machine::{
    After, Limits, Name, Record, Sizes, Status, Target, Thread, ThreadNumber, Ticket, TicketNumber,
};
use lot_queues::Queues;
use lot_threads::Threads;
use lot_value::GraphChange;
use std::alloc::Global;
use std::process::Abort;

/// A thread that wins a draw, its number, and the total.
pub(crate) type Won = (u32, u128, u128);

/// Whether this thread won, with this number of this total.
pub(crate) fn is_won(winner: Option<Winner>, (thread, number, total): Won) -> bool {
    match winner {
        Some(won) => won.thread == thread && won.number == number && won.total == total,
        None => false,
    }
}

/// Whether the thread with this number has this status.
pub(crate) fn stands(threads: &Threads, number: u32, status: Status) -> bool {
    match threads.record(ThreadNumber { number }) {
        Some(found) => found.status == status,
        None => false,
    }
}

/// Whether the thread exists, and there are as many threads in the queues as in the table.
fn is_known(threads: &Threads, queues: &Queues, thread: ThreadNumber) -> bool
    ensures there { IsTrue result → IsThere queues.now.clients thread.number }
    ensures same { IsTrue result → length threads.now.records ≡ length queues.now.clients }
{
    if threads.records().len() != queues.threads() as usize {
        return false;
    }
    0 < thread.number && thread.number <= queues.threads()
}

/// Whether the thread may wait at a port or for a mutex: it is known, and in no queue.
fn may_wait(threads: &Threads, queues: &Queues, thread: ThreadNumber) -> bool
    ensures there { IsTrue result → IsThere queues.now.clients thread.number }
    ensures nowhere { IsTrue result → IsNowhere queues.now thread.number }
    ensures same { IsTrue result → length threads.now.records ≡ length queues.now.clients }
{
    if !is_known(threads, queues, thread) {
        return false;
    }
    queues.is_nowhere(thread.number)
}

/// Ends the test unless a port has this number.
pub(crate) fn check_port(rt: &impl Abort, queues: &Queues, port: u32)
    ensures { IsThere queues.now.ports port }
{
    assert!(rt; 0 < port && port <= queues.ports());
}

/// Ends the test unless a mutex has this number.
pub(crate) fn check_mutex(rt: &impl Abort, queues: &Queues, mutex: u32)
    ensures { IsThere queues.now.mutexes mutex }
{
    assert!(rt; 0 < mutex && mutex <= queues.mutexes());
}

/// Ends the test unless the thread is known.
pub(crate) fn check_known(rt: &impl Abort, threads: &Threads, queues: &Queues, thread: ThreadNumber)
    ensures there { IsThere queues.now.clients thread.number }
    ensures same { length threads.now.records ≡ length queues.now.clients }
{
    assert!(rt; is_known(threads, queues, thread));
}

/// Ends the test unless the thread may wait at a port or for a mutex.
pub(crate) fn check_may_wait(
    rt: &impl Abort,
    threads: &Threads,
    queues: &Queues,
    thread: ThreadNumber,
)
    ensures there { IsThere queues.now.clients thread.number }
    ensures nowhere { IsNowhere queues.now thread.number }
    ensures same { length threads.now.records ≡ length queues.now.clients }
{
    assert!(rt; may_wait(threads, queues, thread));
}

/// Ends the test unless the thread is live.
pub(crate) fn check_live(rt: &impl Abort, threads: &Threads, thread: ThreadNumber)
    ensures { IsLiveIn threads.now thread.number }
{
    assert!(rt; threads.is_live(thread));
}

/// Threads of these sizes, none of them made.
pub(crate) fn threads_of(rt: &impl Abort, alloc: Global, sizes: Sizes) -> Threads {
    let limits = Limits::new(sizes).expect(rt, "limits");
    Threads::new(alloc, &limits).expect(rt, "memory")
}

/// The queues for such threads.
pub(crate) fn queues_of(rt: &impl Abort, alloc: Global, sizes: Sizes) -> Queues {
    let made = Queues::new(alloc, sizes.ports, sizes.mutexes, sizes.threads);
    made.expect(rt, "memory")
}

/// Adds a thread funded with this much base.
pub(crate) fn add_thread(rt: &impl Abort, threads: &mut Threads, queues: &mut Queues, amount: u32) {
    let made = threads.records().len();
    assert!(rt; made < threads.graph().layout().threads as usize);
    assert!(rt; queues.threads() < queues.room());
    let name = Name::new("thread").expect(rt, "a name");
    let made = threads.add_thread(Thread { name, script: 1 });
    queues.add_thread();
    fund(rt, threads, amount, 0, Target::Thread(made.number));
}

/// A new ticket of this amount and currency, which funds the target.
pub(crate) fn fund(
    rt: &impl Abort,
    threads: &mut Threads,
    amount: u32,
    currency: u32,
    target: Target,
) {
    let graph = threads.graph();
    assert!(rt; 0 < amount && graph.is_currency(currency));
    let made = graph.ticket_count();
    assert!(rt; made < graph.layout().tickets, "no ticket is left");
    threads.apply(GraphChange::NewTicket(Ticket {
        amount,
        issuer: currency,
        target: Target::Unfunded,
    }));
    put_target(rt, threads, made + 1, target);
}

/// Gives a ticket without a target this target.
pub(crate) fn put_target(rt: &impl Abort, threads: &mut Threads, ticket: u32, target: Target) {
    assert!(rt; may_fund(threads, ticket, target));
    let found = threads.graph().ticket(ticket).expect(rt, "a ticket");
    threads.apply(GraphChange::PutTicket(ticket, Ticket { target, ..found }));
}

/// Whether a ticket without a target may fund the target.
fn may_fund(threads: &mut Threads, ticket: u32, target: Target) -> bool
    ensures unfunded { IsTrue result → target_of (funding_in threads.new) ticket ≡ Some Unfunded }
    ensures target { IsTrue result → CanTarget (funding_in threads.new) ticket Unfunded target }
    ensures unchanged { threads.new ≡ threads.old }
{
    if !threads.graph().is_unfunded(ticket) {
        return false;
    }
    if !is_target(threads.graph(), target) {
        return false;
    }
    !threads.would_cycle(TicketNumber { number: ticket }, target)
}

/// Lets the thread that made a trap go on, or sets the status with which it leaves.
pub(crate) fn finish(rt: &impl Abort, threads: &mut Threads, thread: ThreadNumber, after: After) {
    let After::Leaves(status) = after else {
        return;
    };
    let before = threads.record(thread).expect(rt, "a thread");
    let next = Record { status, ..before };
    assert!(rt; threads.can_change(thread, next));
    threads.change(thread, next);
}
