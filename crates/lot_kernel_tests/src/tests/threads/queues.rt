//! Queues, step by step, with the results of their calls.
ghost use Rattle.std.specs.Prelude.{◌≡◌, ◌↔◌, IsTrue, ◌≤◌, vec_capacity};
ghost use Rattle.lot_queues.specs.QueueLists.{IsNowhere, IsThere};

use super::helpers::{check_mutex, check_port};
use crate::tests::same::{check_same, check_same_at};
use lot_kept::Stack;
use lot_queues::{Queues, TakenCall};
use std::alloc::Global;
use std::process::Abort;

const PORTS: u32 = 2;

const MUTEXES: u32 = 3;

const THREADS: u32 = 5;

fn has_thread(queues: &Queues, thread: u32) -> bool
    ensures { IsTrue result ↔ IsThere queues.now.clients thread }
{
    0 < thread && thread <= queues.threads()
}

/// Ends the test unless a thread has this number.
fn check_thread(rt: &impl Abort, queues: &Queues, thread: u32)
    ensures { IsThere queues.now.clients thread }
{
    assert!(rt; has_thread(queues, thread));
}

/// Ends the test unless the thread is there, and in no queue.
fn check_free(rt: &impl Abort, queues: &Queues, thread: u32)
    ensures there { IsThere queues.now.clients thread }
    ensures nowhere { IsNowhere queues.now thread }
{
    check_thread(rt, queues, thread);
    assert!(rt; queues.is_nowhere(thread));
}

/// Full queues: they have as many threads as their capacity.
fn full(rt: &impl Abort, alloc: Global) -> Queues {
    let mut queues = Queues::new(alloc, PORTS, MUTEXES, THREADS).expect(rt, "memory");
    for _ in 0..THREADS {
        assert!(rt; queues.threads() < queues.room());
        queues.add_thread();
    }
    queues
}

/// A queue, with the number of its port, server or mutex.
#[derive(Clone, Copy)]
enum Queue {
    Calls(u32),
    Receivers(u32),
    Clients(u32),
    Waiters(u32),
}

/// Puts a thread into a queue. A call's number is 100 times the thread's.
fn push(rt: &impl Abort, queues: &mut Queues, queue: Queue, thread: u32) {
    check_free(rt, queues, thread);
    match queue {
        Queue::Calls(port) => {
            check_port(rt, queues, port);
            queues.push_call(port, thread, thread.wrapping_mul(100));
        }
        Queue::Receivers(port) => {
            check_port(rt, queues, port);
            queues.push_receiver(port, thread);
        }
        Queue::Clients(server) => {
            check_thread(rt, queues, server);
            queues.push_client(server, thread);
        }
        Queue::Waiters(mutex) => {
            check_mutex(rt, queues, mutex);
            queues.push_waiter(mutex, thread);
        }
    }
}

/// Takes the first thread out of a queue, if it has one.
fn take(rt: &impl Abort, queues: &mut Queues, queue: Queue) -> Option<u32> {
    match queue {
        Queue::Calls(port) => {
            check_port(rt, queues, port);
            let call = queues.take_call(port)?;
            check_same(rt, &call.number, &call.caller.wrapping_mul(100));
            Some(call.caller)
        }
        Queue::Receivers(port) => {
            check_port(rt, queues, port);
            queues.take_receiver(port)
        }
        Queue::Clients(server) => {
            check_thread(rt, queues, server);
            let first = queues.first_client(server);
            let taken = queues.take_client(server);
            check_same(rt, &taken, &first);
            taken
        }
        Queue::Waiters(_) => None,
    }
}

fn check_waiters(rt: &impl Abort, alloc: Global, queues: &Queues, mutex: u32, expected: &[u32]) {
    let mut out = Stack::new(alloc, THREADS as usize).expect(rt, "memory");
    assert!(rt; queues.room() as usize <= out.room());
    check_mutex(rt, queues, mutex);
    queues.list_waiters(mutex, &mut out);
    check_same(rt, &out.as_slice(), &expected);
}

/// Takes the waiter at a place, as a lottery picks it.
fn take_waiter_at(
    rt: &impl Abort,
    alloc: Global,
    queues: &mut Queues,
    mutex: u32,
    place: usize,
) -> u32 {
    let mut out = Stack::new(alloc, THREADS as usize).expect(rt, "memory");
    assert!(rt; queues.room() as usize <= out.room());
    check_mutex(rt, queues, mutex);
    queues.list_waiters(mutex, &mut out);
    assert!(rt; place < out.len());
    let thread = out[place];
    queues.take_waiter(thread);
    thread
}

/// The number of a queue's port, server or mutex.
fn number_of(queue: Queue) -> u32 {
    match queue {
        Queue::Calls(number)
        | Queue::Receivers(number)
        | Queue::Clients(number)
        | Queue::Waiters(number) => number,
    }
}

/// Takes the first thread out of a queue, and compares it.
fn check_taken(rt: &impl Abort, queues: &mut Queues, queue: Queue, expected: Option<u32>) {
    check_same_at(rt, &number_of(queue), &take(rt, queues, queue), &expected);
}

fn push_all(rt: &impl Abort, queues: &mut Queues, queue: Queue, threads: &[u32]) {
    for thread in threads {
        push(rt, queues, queue, *thread);
    }
}

/// Takes the first thread out of a queue once for each of these, and compares it.
fn check_all_taken(rt: &impl Abort, queues: &mut Queues, queue: Queue, expected: &[Option<u32>]) {
    for first in expected {
        check_taken(rt, queues, queue, *first);
    }
}

const THREE: &[u32] = &[3, 1, 2];

const THREE_TAKEN: &[Option<u32>] = &[Some(3), Some(1), Some(2), None];

/// Puts three threads into an empty queue, and takes them out in the same order.
fn check_order(rt: &impl Abort, queues: &mut Queues, queue: Queue) {
    push_all(rt, queues, queue, THREE);
    check_all_taken(rt, queues, queue, THREE_TAKEN)
}

const IN_ORDER: &[Queue] = &[
    Queue::Calls(1),
    Queue::Calls(2),
    Queue::Receivers(1),
    Queue::Receivers(2),
    Queue::Clients(4),
    Queue::Clients(5),
];

/// One thread for each of these queues.
const PUSHED: &[(Queue, u32)] = &[
    (Queue::Calls(1), 4),
    (Queue::Receivers(2), 2),
    (Queue::Clients(2), 5),
    (Queue::Waiters(3), 1),
];

/// Whether each thread is nowhere afterwards.
const NOWHERE: &[(u32, bool)] = &[(1, false), (2, false), (3, true), (4, false), (5, false)];

/// The first thread of each queue afterwards.
const FIRSTS: &[(Queue, Option<u32>)] = &[
    (Queue::Calls(2), None),
    (Queue::Receivers(1), None),
    (Queue::Clients(1), None),
    (Queue::Clients(5), None),
    (Queue::Calls(1), Some(4)),
    (Queue::Receivers(2), Some(2)),
    (Queue::Clients(2), Some(5)),
];

/// Compares whether a thread is nowhere.
fn check_nowhere(rt: &impl Abort, queues: &Queues, thread: u32, expected: bool) {
    check_thread(rt, queues, thread);
    check_same_at(rt, &thread, &queues.is_nowhere(thread), &expected);
}

fn push_each(rt: &impl Abort, queues: &mut Queues) {
    for (queue, thread) in PUSHED {
        push(rt, queues, *queue, *thread);
    }
}

/// Compares whether each thread is nowhere, and the first thread of each queue.
fn check_each(rt: &impl Abort, queues: &mut Queues) {
    for (thread, expected) in NOWHERE {
        check_nowhere(rt, queues, *thread, *expected);
    }
    for (queue, expected) in FIRSTS {
        check_taken(rt, queues, *queue, *expected);
    }
}

#[test]
fn each_queue_has_its_own_threads(rt: HostRuntime) {
    let alloc = rt.alloc();
    let mut queues = full(&rt, alloc);
    push_each(&rt, &mut queues);
    check_each(&rt, &mut queues);
    check_waiters(&rt, alloc, &queues, 2, &[]);
    check_waiters(&rt, alloc, &queues, 3, &[1]);
}

/// A call at the first port, which is then taken with its number.
fn check_call(rt: &impl Abort, queues: &mut Queues, caller: u32, number: u32) {
    check_port(rt, queues, 1);
    check_free(rt, queues, caller);
    queues.push_call(1, caller, number);
    let call = TakenCall { caller, number };
    check_same(rt, &queues.take_call(1), &Some(call));
}

/// Callers, and the numbers of their calls.
const CALLS: &[(u32, u32)] = &[(2, 7), (1, 9), (2, 8)];

const WAITERS: &[u32] = &[2, 5, 1, 4];

/// Indices of waiters in turn, and the threads taken from there.
const PLACES: &[(usize, u32)] = &[(1, 5), (2, 4), (0, 2), (0, 1)];

/// Takes the waiters from their places, and compares them.
fn check_places(rt: &impl Abort, alloc: Global, queues: &mut Queues) {
    for (place, expected) in PLACES {
        let taken = take_waiter_at(rt, alloc, queues, 2, *place);
        check_same(rt, &taken, expected);
    }
}

/// Takes a thread out of its queue, if it is in one.
fn take_out(rt: &impl Abort, queues: &mut Queues, thread: u32) {
    check_thread(rt, queues, thread);
    queues.take_out(thread);
    check_nowhere(rt, queues, thread, true)
}

const TWO_TAKEN: &[Option<u32>] = &[Some(3), Some(2), None];

/// Puts three threads into an empty queue, and takes out the second of them and one that is in no queue: the others
/// stay in order.
fn check_taken_out(rt: &impl Abort, queues: &mut Queues, queue: Queue) {
    push_all(rt, queues, queue, THREE);
    take_out(rt, queues, 1);
    take_out(rt, queues, 4);
    check_all_taken(rt, queues, queue, TWO_TAKEN)
}

/// The longest waiting thread is taken first, and a thread may be taken out of its queue.
#[test]
fn queues_are_in_order(rt: HostRuntime) {
    let mut queues = full(&rt, rt.alloc());
    for queue in IN_ORDER {
        check_order(&rt, &mut queues, *queue);
        check_taken_out(&rt, &mut queues, *queue);
    }
}

/// Compares the thread that has waited longest for a mutex.
fn check_first_waiter(rt: &impl Abort, queues: &Queues, mutex: u32, expected: Option<u32>) {
    check_mutex(rt, queues, mutex);
    check_same(rt, &queues.first_waiter(mutex), &expected);
}

const THREE_WAITERS: &[u32] = &[2, 5, 1];

/// A waiter is taken from its place, or out of its queue.
#[test]
fn waiters_are_taken(rt: HostRuntime) {
    let alloc = rt.alloc();
    let mut queues = full(&rt, alloc);
    push_all(&rt, &mut queues, Queue::Waiters(2), WAITERS);
    check_waiters(&rt, alloc, &queues, 2, WAITERS);
    check_places(&rt, alloc, &mut queues);
    check_waiters(&rt, alloc, &queues, 2, &[]);
    check_first_waiter(&rt, &queues, 2, None);
    push_all(&rt, &mut queues, Queue::Waiters(2), THREE_WAITERS);
    check_first_waiter(&rt, &queues, 2, Some(2));
    take_out(&rt, &mut queues, 5);
    check_waiters(&rt, alloc, &queues, 2, &[2, 1]);
    take_out(&rt, &mut queues, 2);
    check_first_waiter(&rt, &queues, 2, Some(1));
    check_first_waiter(&rt, &queues, 3, None)
}

/// Sets the owner of a mutex, and compares the owners of all mutexes.
fn check_owner(rt: &impl Abort, queues: &mut Queues, owner: Option<u32>, owners: &[Option<u32>]) {
    check_mutex(rt, queues, 2);
    queues.set_owner(2, owner);
    check_same(rt, &queues.owners(), &owners);
    check_mutex(rt, queues, 2);
    check_same(rt, &queues.owner(2), &owner);
}

/// Owners of the second mutex in turn, and the owners of all mutexes after each.
const OWNERS: &[(Option<u32>, &[Option<u32>])] = &[
    (Some(4), &[None, Some(4), None]),
    (Some(1), &[None, Some(1), None]),
    (None, &[None, None, None]),
];

/// A call has the number sent with it, and a mutex an owner or none.
#[test]
fn calls_and_owners(rt: HostRuntime) {
    let mut queues = full(&rt, rt.alloc());
    for (caller, number) in CALLS {
        check_call(&rt, &mut queues, *caller, *number);
    }
    for (owner, owners) in OWNERS {
        check_owner(&rt, &mut queues, *owner, owners);
    }
}

#[test]
fn more_than_a_u32_can_number(rt: HostRuntime) {
    assert!(rt; Queues::new(rt.alloc(), u32::MAX, 0, 1).is_err());
    assert!(rt; Queues::new(rt.alloc(), 0, u32::MAX, 1).is_err());
}
