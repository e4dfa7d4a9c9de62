//! Tests of the premises of `lock` and `unlock` about threads and queues.
ghost use Rattle.std.specs.Prelude.{◌≡◌, ◌↔◌, ◌<◌, Contains, IsTrue, Some, length, slice_index, take};
ghost use Rattle.lot_machine.specs.declared.record.Status.TheVariants as status;
ghost use Rattle.lot_machine.specs.Order.{IsQueue};
ghost use Rattle.lot_machine.specs.State.{status_of};
ghost use Rattle.lot_mutex.specs.Listed.{owners_of};

use lot_machine::{MutexNumber, Status, ThreadNumber};
use lot_queues::Queues;
use lot_threads::Threads;

/// Whether each of these threads waits for the mutex, and none is listed twice.
pub fn are_waiting(threads: &Threads, waiters: &[u32], mutex: MutexNumber) -> bool
    ensures { IsTrue result ↔ IsQueue threads.now.records (status.Waiting mutex.number) waiters.now }
{
    for place in 0..waiters.len() {
        if !is_waiting(threads, waiters[place], mutex.number) || !is_first(waiters, place) {
            return false;
        }
    }
    true
}

/// Whether the threads and the queues agree about the owner of each mutex.
pub fn have_same_owners(threads: &Threads, queues: &Queues) -> bool
    ensures { IsTrue result ↔ (owners_of queues.now.mutexes ≡ threads.now.owners) }
{
    if threads.graph().mutexes() != queues.mutexes() {
        return false;
    }
    for place in 0..queues.mutexes() {
        if threads.graph().owner(place + 1) != queues.owner(place + 1) {
            return false;
        }
    }
    true
}

fn is_waiting(threads: &Threads, thread: u32, mutex: u32) -> bool
    ensures { IsTrue result ↔ (status_of threads.now.records thread ≡ Some (status.Waiting mutex)) }
{
    match threads.record(ThreadNumber { number: thread }) {
        Some(found) => found.status == Status::Waiting(mutex),
        None => false,
    }
}

/// Whether the thread at this index isn't listed at an earlier one.
fn is_first(waiters: &[u32], place: usize) -> bool
    requires { place < length waiters.now }
    ensures { IsTrue result ↔ (¬ Contains (take place waiters.now) (slice_index waiters.now place)) }
{
    !waiters[..place].contains(&waiters[place])
}
