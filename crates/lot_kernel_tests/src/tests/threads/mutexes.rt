//! Locks and unlocks among a few threads, with their lends.
ghost use Rattle.std.specs.Prelude.{◌≡◌, Some, IsTrue};
ghost use Rattle.lot_machine.specs.declared.record.Status.TheVariants as status;
ghost use Rattle.lot_machine.specs.Mutexes.{mutex_at};
ghost use Rattle.lot_machine.specs.Order.{IsQueue};
ghost use Rattle.lot_mutex.specs.Listed.{owners_of};
ghost use Rattle.lot_queues.specs.QueueLists.{IsThere};

use super::helpers::{
    Won, add_thread, check_known, check_live, check_may_wait, check_mutex, finish, is_won,
    queues_of, stands, threads_of,
};
use crate::tests::same::check_step;
use lot_kept::Stack;
use lot_machine::{MutexNumber, Outcome, Sizes, Status, ThreadNumber};
use lot_mutex::{Lottery, are_waiting, have_same_owners, lock, pass_all_on, unlock};
use lot_queues::Queues;
use lot_threads::{Threads, TrapEffect};
use std::alloc::Global;
use std::process::Abort;

/// A step of a row: a trap and its outcome, or a query and its expected result.
#[derive(Clone, Copy)]
enum Step {
    /// A new thread, which this much base funds.
    AddThread(u32),
    Lock(u32, u32, Outcome),
    /// An unlock by a thread of a mutex, with the number of its lottery, and the edges that it reads.
    Unlock(u32, u32, u128, Outcome, u64),
    /// The same where the mutex passes to a thread, which wins with a number of a total.
    Passes(u32, u32, u128, (u32, u64, u64), u64),
    /// Passes on the mutexes of a thread.
    PassAllOn(u32),
    /// The result of a draw.
    Wins(u128, Won),
    Stands(u32, Status),
    Owner(u32, Option<u32>),
}

/// Threads and queues, with memory for a lottery and for a list of waiters.
#[derive(Drop)]
struct Scene {
    threads: Threads,
    queues: Queues,
    lottery: Lottery,
    waiters: Stack<u32>,
}

/// Ends the test unless the threads and the queues agree about the owner of each mutex.
fn check_same_owners(rt: &impl Abort, threads: &Threads, queues: &Queues)
    ensures { owners_of queues.now.mutexes ≡ threads.now.owners }
{
    assert!(rt; have_same_owners(threads, queues));
}

/// Ends the test unless the thread owns the mutex.
fn check_owner(rt: &impl Abort, queues: &Queues, mutex: u32, owner: u32)
    requires there { IsThere queues.now.mutexes mutex }
    ensures { (mutex_at queues.now.mutexes mutex).owner ≡ Some owner }
{
    assert!(rt; queues.owner(mutex) == Some(owner));
}

fn make_lock(
    rt: &impl Abort,
    threads: &mut Threads,
    queues: &mut Queues,
    thread: ThreadNumber,
    mutex: u32,
) -> TrapEffect {
    check_mutex(rt, queues, mutex);
    check_may_wait(rt, threads, queues, thread);
    check_live(rt, threads, thread);
    check_same_owners(rt, threads, queues);
    lock(threads, queues, thread, MutexNumber { number: mutex })
}

/// Whether the threads in the mutex's queue wait for it. `waiters`, with capacity for all threads, lists them.
fn are_queued(
    threads: &Threads,
    queues: &Queues,
    waiters: &mut Stack<u32>,
    mutex: MutexNumber,
) -> bool
    requires there { IsThere queues.now.mutexes mutex.number }
    ensures { IsTrue result → IsQueue threads.now.records (status.Waiting mutex.number)
        (mutex_at queues.now.mutexes mutex.number).waiters }
{
    if waiters.room() < queues.room() as usize {
        return false;
    }
    queues.list_waiters(mutex.number, waiters);
    are_waiting(threads, waiters, mutex)
}

/// Ends the test unless the threads in the mutex's queue wait for it.
fn check_queued(
    rt: &impl Abort,
    threads: &Threads,
    queues: &Queues,
    waiters: &mut Stack<u32>,
    mutex: MutexNumber,
)
    requires there { IsThere queues.now.mutexes mutex.number }
    ensures { IsQueue threads.now.records (status.Waiting mutex.number)
        (mutex_at queues.now.mutexes mutex.number).waiters }
{
    assert!(rt; are_queued(threads, queues, waiters, mutex));
}

/// An unlock, and the edges that it reads.
fn make_unlock(
    rt: &impl Abort,
    scene: &mut Scene,
    owner: ThreadNumber,
    mutex: MutexNumber,
    d: u128,
) -> (TrapEffect, u64) {
    let Scene {
        threads,
        queues,
        lottery,
        waiters,
    } = scene;
    check_mutex(rt, queues, mutex.number);
    check_owner(rt, queues, mutex.number, owner.number);
    check_live(rt, threads, owner);
    check_queued(rt, threads, queues, waiters, mutex);
    check_known(rt, threads, queues, owner);
    check_same_owners(rt, threads, queues);
    assert!(rt; lottery.room() == queues.room());
    let before = threads.meter().ticket_reads;
    let effect = unlock(threads, queues, lottery, owner, mutex, d);
    let read = threads.meter().ticket_reads.saturating_sub(before);
    (effect, read)
}

/// Whether a lock has this outcome.
fn locks(rt: &impl Abort, scene: &mut Scene, thread: u32, mutex: u32, outcome: Outcome) -> bool {
    let thread = ThreadNumber { number: thread };
    let effect = make_lock(rt, &mut scene.threads, &mut scene.queues, thread, mutex);
    finish(rt, &mut scene.threads, thread, effect.after);
    effect.outcome == outcome
}

/// Whether an unlock has this outcome and reads this many edges.
fn unlocks(
    rt: &impl Abort,
    scene: &mut Scene,
    (owner, mutex): (u32, u32),
    d: u128,
    (outcome, reads): (Outcome, u64),
) -> bool {
    let owner = ThreadNumber { number: owner };
    let (effect, read) = make_unlock(rt, scene, owner, MutexNumber { number: mutex }, d);
    finish(rt, &mut scene.threads, owner, effect.after);
    effect.outcome == outcome && read == reads
}

/// Passes the mutexes of a thread on.
fn pass_on_from(rt: &impl Abort, scene: &mut Scene, owner: u32) {
    let Scene {
        threads,
        queues,
        ..
    } = scene;
    let owner = ThreadNumber { number: owner };
    check_may_wait(rt, threads, queues, owner);
    check_same_owners(rt, threads, queues);
    pass_all_on(threads, queues, owner)
}

/// The outcome of an unlock that passes the mutex to this thread, which wins with this number of this total.
fn passed((to, number, total): (u32, u64, u64)) -> Outcome {
    let draw = Some((number, total));
    Outcome::Passed { to, draw }
}

/// Takes a step, and returns whether its result is the row's.
fn take(rt: &impl Abort, scene: &mut Scene, step: Step) -> bool {
    match step {
        Step::AddThread(amount) => {
            add_thread(rt, &mut scene.threads, &mut scene.queues, amount);
            true
        }
        Step::Lock(thread, mutex, outcome) => locks(rt, scene, thread, mutex, outcome),
        Step::Unlock(owner, mutex, d, outcome, reads) => {
            unlocks(rt, scene, (owner, mutex), d, (outcome, reads))
        }
        Step::Passes(owner, mutex, d, won, reads) => {
            unlocks(rt, scene, (owner, mutex), d, (passed(won), reads))
        }
        Step::PassAllOn(owner) => {
            pass_on_from(rt, scene, owner);
            true
        }
        Step::Wins(d, won) => is_won(scene.threads.draw(d), won),
        Step::Stands(thread, status) => stands(&scene.threads, thread, status),
        Step::Owner(mutex, owner) => scene.threads.graph().owner(mutex) == owner,
    }
}

/// Takes the steps of this scene in turn.
fn take_all(rt: &impl Abort, at: &str, scene: &mut Scene, steps: &[Step]) {
    for (i, step) in steps.iter().enumerate() {
        check_step(rt, at, i, take(rt, scene, *step));
    }
}

/// A scene of these sizes.
fn scene_of(rt: &impl Abort, alloc: Global, sizes: Sizes) -> Scene {
    let threads = threads_of(rt, alloc, sizes);
    let queues = queues_of(rt, alloc, sizes);
    Scene {
        threads,
        queues,
        lottery: Lottery::new(alloc, sizes.threads).expect(rt, "memory"),
        waiters: Stack::new(alloc, sizes.threads as usize).expect(rt, "memory"),
    }
}

/// Takes the steps among threads of these sizes.
fn play(rt: &impl Abort, alloc: Global, (at, sizes, steps): (&str, Sizes, &[Step])) {
    let mut scene = scene_of(rt, alloc, sizes);
    take_all(rt, at, &mut scene, steps)
}

const SMALL: Sizes = Sizes {
    tickets: 20,
    threads: 5,
    mutexes: 2,
    ..Sizes::SMALLEST
};

/// The lottery is among the waiters in the order of waiting, by their values. The others go on waiting and lend to the
/// next owner, and the last owner frees the mutex.
const PASSED: &[Step] = &[
    Step::AddThread(1),
    Step::AddThread(10),
    Step::AddThread(100),
    Step::Lock(1, 1, Outcome::Locked),
    Step::Owner(1, Some(1)),
    Step::Lock(3, 1, Outcome::Waits),
    Step::Lock(2, 1, Outcome::Waits),
    Step::Stands(2, Status::Waiting(1)),
    Step::Wins(110, (1, 110, 111)),
    Step::Passes(1, 1, 105, (2, 105, 110), 0),
    Step::Owner(1, Some(2)),
    Step::Stands(1, Status::Ready),
    Step::Stands(2, Status::Ready),
    Step::Stands(3, Status::Waiting(1)),
    Step::Wins(110, (2, 110, 111)),
    Step::Passes(2, 1, 110, (3, 10, 100), 0),
    Step::Wins(110, (3, 110, 111)),
    Step::Unlock(3, 1, 0, Outcome::Freed, 0),
    Step::Owner(1, None),
];

/// The mutex of a killed owner passes to the thread that has waited longest, to which the other one then lends. Without
/// waiters it is free.
const LEFT: &[Step] = &[
    Step::AddThread(1),
    Step::AddThread(10),
    Step::AddThread(100),
    Step::Lock(1, 1, Outcome::Locked),
    Step::Lock(1, 2, Outcome::Locked),
    Step::Lock(3, 1, Outcome::Waits),
    Step::Lock(2, 1, Outcome::Waits),
    Step::PassAllOn(1),
    Step::PassAllOn(1),
    Step::Owner(1, Some(3)),
    Step::Owner(2, None),
    Step::Stands(3, Status::Ready),
    Step::Stands(2, Status::Waiting(1)),
    Step::Wins(110, (3, 110, 111)),
];

/// An unlock reads the edges into stale nodes before its lottery: two tickets, the lend and the owner.
const UNSETTLED: &[Step] = &[
    Step::AddThread(1),
    Step::AddThread(10),
    Step::Lock(1, 2, Outcome::Locked),
    Step::Lock(2, 2, Outcome::Waits),
    Step::Passes(1, 2, 3, (2, 3, 10), 4),
];

const NO_MUTEX: &[Step] = &[Step::AddThread(3), Step::Wins(2, (1, 2, 3))];

const LAST_MUTEX: &[Step] = &[
    Step::AddThread(3),
    Step::AddThread(4),
    Step::Lock(2, 256, Outcome::Locked),
    Step::Lock(1, 256, Outcome::Waits),
    Step::Wins(1791, (2, 1791, 1792)),
    Step::Owner(256, Some(2)),
];

/// What a row shows, the sizes of its threads, and its steps.
const ROWS: &[(&str, Sizes, &[Step])] = &[
    ("a mutex is passed", SMALL, PASSED),
    ("mutexes are left", SMALL, LEFT),
    ("an unlock settles", SMALL, UNSETTLED),
    ("the least size", Sizes::SMALLEST, NO_MUTEX),
    ("the largest size", Sizes::LARGEST, LAST_MUTEX),
];

#[test]
fn mutexes(rt: HostRuntime) {
    for row in ROWS {
        play(&rt, rt.alloc(), *row);
    }
}
