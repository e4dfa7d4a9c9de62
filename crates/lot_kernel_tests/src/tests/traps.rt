//! Yields, ports, mutexes and exits.
use super::*;
use lot_kept::Stack;

/// A draw, a yield after some ticks of work, the next draw, and the thread that has won a second time.
const YIELDED_AFTER_20: &[Step<'static>] = &[
    Step::Wins(1, 0, (1, 0, 400), None),
    Step::Works(1, 19, Action::Yield, 1, Outcome::Yielded),
    Step::Wins(1, 1999, (1, 1999, 2000), None),
    Step::Thread((1, "a", STARTED, 400, 400, 2, 20)),
];

const YIELDED_AFTER_3: &[Step<'static>] = &[
    Step::Wins(1, 0, (1, 0, 7), None),
    Step::Works(1, 2, Action::Yield, 1, Outcome::Yielded),
    Step::Wins(1, 232, (1, 232, 233), None),
    Step::Thread((1, "a", STARTED, 7, 7, 2, 3)),
];

const YIELDED_AFTER_99: &[Step<'static>] = &[
    Step::Wins(1, 0, (1, 0, 400), None),
    Step::Works(1, 98, Action::Yield, 1, Outcome::Yielded),
    Step::Wins(1, 403, (1, 403, 404), None),
    Step::Thread((1, "a", STARTED, 400, 400, 2, 99)),
];

const YIELDED_AT_THE_END: &[Step<'static>] = &[
    Step::Wins(1, 0, (1, 0, 400), None),
    Step::Works(1, 99, Action::Yield, 1, Outcome::Yielded),
    Step::Wins(1, 399, (1, 399, 400), None),
    Step::Thread((1, "a", STARTED, 400, 400, 2, 100)),
];

/// A quantum that expires gives no compensation.
const EXPIRED: &[Step<'static>] = &[
    Step::Wins(1, 0, (1, 0, 400), None),
    Step::Expires(Pause::Expire(1), 1, 100),
    Step::Wins(1, 0, (1, 0, 400), None),
];

const TWO_PROCESSORS: &[Step<'static>] = &[
    Step::Wins(1, 4, (1, 4, 10), None),
    Step::Idles(2, 0),
    Step::Expires(Pause::Expire(1), 1, 100),
    Step::Wins(2, 3, (1, 3, 10), None),
];

const WAITING_SERVER: &[Step<'static>] = &[
    Step::Gives("mkthr v 1", Reply::Thread(1)),
    Step::Funds("fundx 400 base c 1", 1, 2),
    Step::Gives("mktkt 1 base", Reply::Ticket(2)),
    Step::Gives("fund 2 v", Reply::Done),
    Step::Wins(1, 0, (1, 0, 401), None),
    Step::Traps(1, Action::Receive(1), 1, Outcome::Waits),
    Step::Gives("unfund 2", Reply::Done),
    Step::Wins(1, 0, (2, 0, 400), None),
    Step::Traps(1, Action::Call(1, 9), 2, Outcome::ServedBy(1)),
    Step::Wins(1, 39999, (1, 39999, 40000), Some(9)),
    Step::Traps(1, Action::Reply(5), 1, Outcome::Replied(2)),
    Step::Traps(1, Action::Yield, 1, Outcome::Yielded),
    Step::Wins(1, 0, (2, 0, 40000), Some(5)),
    Step::Value(1, 0),
    Step::Value(2, 400),
];

const QUEUED_CALL: &[Step<'static>] = &[
    Step::Gives("mkcur g", Reply::Currency(1)),
    Step::Gives("mktkt 300 base", Reply::Ticket(1)),
    Step::Gives("fund 1 g", Reply::Done),
    Step::Funds("fundx 100 g c 1", 2, 1),
    Step::Funds("fundx 100 g x 1", 3, 2),
    Step::Funds("fundx 10 base y 1", 4, 3),
    Step::Wins(1, 0, (1, 0, 310), None),
    Step::Traps(1, Action::Call(1, 7), 1, Outcome::Queued),
    Step::Value(1, 0),
    Step::Value(2, 300),
    Step::Value(3, 10),
    Step::Wins(1, 300, (3, 300, 310), None),
    Step::Receives(1, 1, 3, (1, 7)),
    Step::Value(1, 150),
    Step::Value(2, 150),
    Step::Value(3, 160),
    Step::Wins(2, 0, (2, 0, 150), None),
];

// The client's number is delivered when the server wins next.
const LENDS: &[Step<'static>] = &[
    Step::Wins(1, 400, (3, 400, 450), None),
    Step::Traps(1, Action::Receive(1), 3, Outcome::Waits),
    Step::Wins(1, 300, (2, 300, 400), None),
    Step::Traps(1, Action::Lock(1), 2, Outcome::Locked),
    Step::Traps(1, Action::Call(1, 0), 2, Outcome::ServedBy(3)),
    Step::Wins(1, 0, (1, 0, 15300), None),
    Step::Traps(1, Action::Lock(1), 1, Outcome::Waits),
    Step::Thread((1, "w", Status::Waiting(1), 300, 30000, 1, 1)),
    Step::Thread((2, "o", Status::Served(3), 400, 20000, 1, 2)),
    Step::Thread((3, "v", Status::Ready, 450, 45000, 1, 1)),
];

/// Of three threads with 50, 100 and 300 the first owns mutex 1 and runs, and the others wait for it.
const CONTENDED: &[Step<'static>] = &[
    Step::Wins(1, 0, (1, 0, 450), None),
    Step::Traps(1, Action::Lock(1), 1, Outcome::Locked),
    Step::Traps(1, Action::Yield, 1, Outcome::Yielded),
    Step::Wins(1, 2500, (2, 2500, 2900), None),
    Step::Traps(1, Action::Lock(1), 2, Outcome::Waits),
    Step::Wins(1, 7500, (3, 7500, 7800), None),
    Step::Traps(1, Action::Lock(1), 3, Outcome::Waits),
    Step::Wins(1, 0, (1, 0, 22500), None),
];

const PASSED_TO_SECOND: &[Step<'static>] = &[
    Step::Passes(1, (1, 99), 1, 2, Some((99, 400))),
    Step::Thread((1, "a", Status::Ready, 50, 5000, 2, 3)),
    Step::Thread((2, "b", Status::Ready, 400, 40000, 1, 1)),
    Step::Thread((3, "c", Status::Waiting(1), 300, 30000, 1, 1)),
];

const PASSED_TO_THIRD: &[Step<'static>] = &[
    Step::Passes(1, (1, 100), 1, 3, Some((100, 400))),
    Step::Thread((2, "b", Status::Waiting(1), 100, 10000, 1, 1)),
    Step::Thread((3, "c", Status::Ready, 400, 40000, 1, 1)),
];

const WORTHLESS_WAITERS: &[Step<'static>] = &[
    Step::Wins(1, 0, (1, 0, 60), None),
    Step::Traps(1, Action::Lock(1), 1, Outcome::Locked),
    Step::Traps(1, Action::Yield, 1, Outcome::Yielded),
    Step::Wins(1, 500, (2, 500, 550), None),
    Step::Traps(1, Action::Lock(1), 2, Outcome::Waits),
    Step::Wins(1, 1500, (3, 1500, 1530), None),
    Step::Traps(1, Action::Lock(1), 3, Outcome::Waits),
    Step::Gives("unfund 2", Reply::Done),
    Step::Gives("unfund 3", Reply::Done),
    Step::Wins(1, 0, (1, 0, 500), None),
    Step::Passes(1, (1, 5), 1, 2, None),
    Step::Wins(1, 0, (1, 0, 1000), None),
];

/// On processor 2, after 5 ticks.
const USED_5: Status = Status::Running {
    processor: 2,
    used: 5,
};

const LOCK_CYCLE: &[Step<'static>] = &[
    Step::Wins(1, 0, (1, 0, 20), None),
    Step::Wins(2, 0, (2, 0, 10), None),
    Step::Traps(1, Action::Lock(1), 1, Outcome::Locked),
    Step::Traps(2, Action::Lock(2), 2, Outcome::Locked),
    Step::Traps(1, Action::Lock(2), 1, Outcome::Waits),
    Step::Refuses(2, Action::Lock(1), 2, TrapRefusal::LockCycle),
    Step::Refuses(2, Action::Lock(2), 2, TrapRefusal::AlreadyOwner),
    Step::Refuses(2, Action::Unlock(1, 0), 2, TrapRefusal::NotOwner),
    Step::Refuses(2, Action::Lock(3), 2, TrapRefusal::NoMutex),
    Step::Thread((2, "b", USED_5, 20, 20, 1, 5)),
];

/// The end of a quantum.
const QUANTUM: &[Step<'static>] = &[
    Step::Wins(1, 0, (1, 0, 10), None),
    Step::Pauses(
        Pause::Trap(1, 100, Action::Lock(1)),
        Reply::Refused(Refusal::BadTicks),
    ),
    Step::Pauses(
        Pause::Trap(1, 99, Action::Lock(1)),
        Reply::Trapped {
            thread: 1,
            ticks: 100,
            outcome: Outcome::Locked,
            ends: true,
        },
    ),
    Step::Wins(1, 0, (1, 0, 10), None),
    Step::Works(1, 9, Action::Unlock(1, 0), 1, Outcome::Freed),
    Step::Expires(Pause::Expire(1), 1, 90),
];

const SERVINGS: &[Step<'static>] = &[
    Step::Wins(1, 0, (1, 0, 60), None),
    Step::Traps(1, Action::Receive(1), 1, Outcome::Waits),
    Step::Wins(1, 0, (2, 0, 50), None),
    Step::Traps(1, Action::Call(1, 5), 2, Outcome::ServedBy(1)),
    Step::Wins(1, 0, (1, 0, 3030), Some(5)),
    Step::Wins(2, 0, (3, 0, 30), None),
    Step::Traps(2, Action::Call(1, 6), 3, Outcome::Queued),
    Step::Traps(
        1,
        Action::Serve(1, 8),
        1,
        Outcome::RepliedThenReceived {
            to: 2,
            client: 3,
            number: 6,
        },
    ),
    Step::Value(1, 40),
    Step::Value(2, 20),
    Step::Wins(2, 0, (2, 0, 2000), Some(8)),
    Step::Traps(1, Action::Serve(1, 9), 1, Outcome::RepliedThenWaits(3)),
    Step::Thread((1, "v", Status::Receiving(1), 0, 0, 2, 3)),
    Step::Refuses(2, Action::Serve(1, 7), 2, TrapRefusal::NothingToReply),
    Step::Refuses(2, Action::Serve(3, 7), 2, TrapRefusal::NoPort),
    Step::Traps(2, Action::Call(1, 4), 2, Outcome::ServedBy(1)),
    Step::Value(1, 30),
    Step::Wins(1, 1499, (1, 1499, 4500), Some(4)),
    Step::Wins(2, 0, (3, 0, 3000), Some(9)),
];

/// On processor 1, after 2 ticks.
const USED_2: Status = Status::Running {
    processor: 1,
    used: 2,
};

/// On processor 1, after 7 ticks.
const USED_7: Status = Status::Running {
    processor: 1,
    used: 7,
};

const REFUSED_TRAPS: &[Step<'static>] = &[
    Step::Wins(1, 0, (1, 0, 10), None),
    Step::Refuses(1, Action::Call(3, 0), 1, TrapRefusal::NoPort),
    Step::Refuses(1, Action::Reply(1), 1, TrapRefusal::NothingToReply),
    Step::Thread((1, "a", USED_2, 10, 10, 1, 2)),
];

/// Traps at unknown ports and mutexes: there are two of each kind, numbered from 1. A thread makes each of them within
/// a quantum, and runs on.
const UNKNOWN_OBJECTS: &[Step<'static>] = &[
    Step::Wins(1, 0, (1, 0, 10), None),
    Step::Refuses(1, Action::Receive(0), 1, TrapRefusal::NoPort),
    Step::Refuses(1, Action::Receive(3), 1, TrapRefusal::NoPort),
    Step::Refuses(1, Action::Call(0, 7), 1, TrapRefusal::NoPort),
    Step::Refuses(1, Action::Serve(0, 7), 1, TrapRefusal::NoPort),
    Step::Refuses(1, Action::Lock(0), 1, TrapRefusal::NoMutex),
    Step::Refuses(1, Action::Unlock(0, 0), 1, TrapRefusal::NoMutex),
    Step::Refuses(1, Action::Unlock(3, 0), 1, TrapRefusal::NoMutex),
    Step::Thread((1, "a", USED_7, 10, 10, 1, 7)),
];

const TWO_CLIENTS: &[Step<'static>] = &[
    Step::Wins(1, 0, (1, 0, 60), None),
    Step::Traps(1, Action::Receive(1), 1, Outcome::Waits),
    Step::Wins(1, 0, (2, 0, 50), None),
    Step::Traps(1, Action::Call(1, 5), 2, Outcome::ServedBy(1)),
    Step::Wins(1, 0, (1, 0, 3030), Some(5)),
    Step::Traps(1, Action::Receive(1), 1, Outcome::Waits),
    Step::Value(2, 0),
    Step::Wins(1, 0, (3, 0, 30), None),
    Step::Traps(1, Action::Call(1, 6), 3, Outcome::ServedBy(1)),
    Step::Wins(1, 0, (1, 0, 6000), Some(6)),
    Step::Traps(1, Action::Reply(1), 1, Outcome::Replied(2)),
    Step::Traps(1, Action::Reply(2), 1, Outcome::Replied(3)),
    Step::Refuses(1, Action::Reply(3), 1, TrapRefusal::NothingToReply),
    Step::Traps(1, Action::Yield, 1, Outcome::Yielded),
    Step::Thread((1, "v", Status::Ready, 10, 250, 3, 6)),
    Step::Wins(1, 250, (2, 250, 5250), Some(1)),
];

/// One thread locks a mutex, and the two others wait for it, the last first.
const TWO_WAITERS: &[Step<'static>] = &[
    Step::Wins(1, 0, (1, 0, 450), None),
    Step::Traps(1, Action::Lock(1), 1, Outcome::Locked),
    Step::Traps(1, Action::Yield, 1, Outcome::Yielded),
    Step::Wins(1, 2800, (3, 2800, 2900), None),
    Step::Traps(1, Action::Lock(1), 3, Outcome::Waits),
    Step::Wins(1, 7500, (2, 7500, 7800), None),
    Step::Traps(1, Action::Lock(1), 2, Outcome::Waits),
];

/// Thread 1 locked and yielded, and so used two ticks; the others blocked after one.
const OWNERS_AND_COMPENSATIONS: &[Step<'static>] = &[
    Step::Owner(0, None),
    Step::Owner(1, Some(1)),
    Step::Owner(2, None),
    Step::Owner(300, None),
    Step::Compensation(0, None),
    Step::Compensation(1, Some(2)),
    Step::Compensation(2, Some(1)),
    Step::Compensation(4, None),
];

/// In a kernel without lending `l` owns a mutex for which `h` waits, and is drawn on its own funding alone: thread `m`
/// wins before it. The mutex then passes to `h` without a lottery.
const INVERTED: &[Step<'static>] = &[
    Step::Wins(1, 0, (1, 0, 200), None),
    Step::Traps(1, Action::Lock(1), 1, Outcome::Locked),
    Step::Expires(Pause::Preempt(1, 0), 1, 0),
    Step::Wins(1, 1, (2, 1, 200), None),
    Step::Traps(1, Action::Lock(1), 2, Outcome::Waits),
    Step::Value(1, 1),
    Step::Value(2, 0),
    Step::Wins(1, 99, (3, 99, 101), None),
    Step::Wins(2, 0, (1, 0, 1), None),
    Step::Passes(2, (1, 5), 1, 2, None),
    Step::Value(2, 99),
];

/// Without lending two threads that lock each other's mutexes both wait, and a server with clients stays in use even
/// after it has ended and lost its ticket.
const UNLENT: &[Step<'static>] = &[
    Step::Wins(1, 0, (1, 0, 40), None),
    Step::Wins(2, 0, (2, 0, 30), None),
    Step::Traps(1, Action::Lock(1), 1, Outcome::Locked),
    Step::Traps(2, Action::Lock(2), 2, Outcome::Locked),
    Step::Traps(1, Action::Lock(2), 1, Outcome::Waits),
    Step::Traps(2, Action::Lock(1), 2, Outcome::Waits),
    Step::Wins(1, 0, (3, 0, 20), None),
    Step::Traps(1, Action::Receive(1), 3, Outcome::Waits),
    Step::Wins(1, 0, (4, 0, 10), None),
    Step::Traps(1, Action::Call(1, 7), 4, Outcome::ServedBy(3)),
    Step::Wins(1, 0, (3, 0, 1000), Some(7)),
    Step::Traps(1, Action::Exit, 3, Outcome::Exited),
    Step::Gives("unfund 3", Reply::Done),
    Step::Gives("rmthr c", Reply::Refused(Refusal::InUse)),
];

/// The sizes of a kernel without lending.
const WITHOUT_LENDING: Sizes = Sizes {
    tickets: 4,
    threads: 4,
    ports: 1,
    mutexes: 2,
    processors: 2,
    scripts: 1,
    quantum: 100,
    without_lending: true,
    ..Sizes::SMALLEST
};

const OF_400: &[(u64, &str)] = &[(400, "a")];

const OF_10: &[(u64, &str)] = &[(10, "a")];

const CONTENDERS: &[(u64, &str)] = &[(50, "a"), (100, "b"), (300, "c")];

const WAITERS: &[(u64, &str)] = &[(50, "a"), (300, "b"), (100, "c")];

const SERVER_AND_CLIENTS: &[(u64, &str)] = &[(10, "v"), (20, "c"), (30, "d")];

const QUANTUM_SCENES: &[Scene<'static>] = &[
    (
        "a yield after 20 ticks",
        LARGEST,
        OF_400,
        &[YIELDED_AFTER_20],
    ),
    (
        "a yield after 3 ticks",
        LARGEST,
        &[(7, "a")],
        &[YIELDED_AFTER_3],
    ),
    (
        "a yield after 99 ticks",
        LARGEST,
        OF_400,
        &[YIELDED_AFTER_99],
    ),
    ("a yield at the end", LARGEST, OF_400, &[YIELDED_AT_THE_END]),
    ("an expiry", LARGEST, OF_400, &[EXPIRED]),
];

#[test]
fn quanta(rt: HostRuntime) {
    play_all(&rt, rt.alloc(), QUANTUM_SCENES)
}

const CALL_SCENES: &[Scene<'static>] = &[
    ("two processors", LARGEST, OF_10, &[TWO_PROCESSORS]),
    ("a server that waits", LARGEST, &[], &[WAITING_SERVER]),
    ("a queued call", LARGEST, &[], &[QUEUED_CALL]),
    (
        "a chain of lends",
        LARGEST,
        &[(300, "w"), (100, "o"), (50, "v")],
        &[LENDS],
    ),
];

#[test]
fn calls(rt: HostRuntime) {
    play_all(&rt, rt.alloc(), CALL_SCENES)
}

const MUTEX_SCENES: &[Scene<'static>] = &[
    (
        "an unlock to the second",
        LARGEST,
        CONTENDERS,
        &[CONTENDED, PASSED_TO_SECOND],
    ),
    (
        "an unlock to the third",
        LARGEST,
        CONTENDERS,
        &[CONTENDED, PASSED_TO_THIRD],
    ),
    (
        "waiters worth nothing",
        LARGEST,
        &[(10, "a"), (20, "b"), (30, "c")],
        &[WORTHLESS_WAITERS],
    ),
    (
        "a cycle of locks",
        LARGEST,
        &[(10, "a"), (10, "b")],
        &[LOCK_CYCLE],
    ),
    ("the end of a quantum", LARGEST, OF_10, &[QUANTUM]),
];

#[test]
fn locks_and_unlocks(rt: HostRuntime) {
    play_all(&rt, rt.alloc(), MUTEX_SCENES)
}

const SERVER_SCENES: &[Scene<'static>] = &[
    (
        "a server that serves",
        LARGEST,
        SERVER_AND_CLIENTS,
        &[SERVINGS],
    ),
    ("refused traps", LARGEST, OF_10, &[REFUSED_TRAPS]),
    ("unknown objects", LARGEST, OF_10, &[UNKNOWN_OBJECTS]),
    (
        "a server of two clients",
        LARGEST,
        SERVER_AND_CLIENTS,
        &[TWO_CLIENTS],
    ),
    (
        "owners and compensations",
        LARGEST,
        WAITERS,
        &[TWO_WAITERS, OWNERS_AND_COMPENSATIONS],
    ),
];

#[test]
fn servers_and_refusals(rt: HostRuntime) {
    play_all(&rt, rt.alloc(), SERVER_SCENES)
}

const UNLENT_SCENES: &[Scene<'static>] = &[
    (
        "an inversion without lending",
        WITHOUT_LENDING,
        &[(1, "l"), (99, "h"), (100, "m")],
        &[INVERTED],
    ),
    (
        "cycles without lending",
        WITHOUT_LENDING,
        &[(10, "a"), (10, "b"), (10, "c"), (10, "d")],
        &[UNLENT],
    ),
];

#[test]
fn without_lending(rt: HostRuntime) {
    play_all(&rt, rt.alloc(), UNLENT_SCENES)
}

/// Compares the threads that wait for the mutex.
fn check_waiters(rt: &impl Abort, alloc: Global, kernel: &Kernel, mutex: u32, wanted: &[u32]) {
    let room = kernel.limits().threads as usize;
    let mut waiters = Stack::new(alloc, room).expect(rt, "memory");
    kernel.list_waiters(MutexNumber { number: mutex }, &mut waiters);
    check_same_at(rt, &mutex, &waiters.as_slice(), &wanted);
}

#[test]
fn waiters_stand_in_order_of_waiting(rt: HostRuntime) {
    let alloc = rt.alloc();
    let mut kernel = kernel_of(&rt, alloc, LARGEST);
    fund(&rt, alloc, &mut kernel, WAITERS);
    take_all(&rt, "two waiters", &mut kernel, TWO_WAITERS);
    check_waiters(&rt, alloc, &kernel, 1, &[3, 2]);
    check_waiters(&rt, alloc, &kernel, 2, &[]);
    check_waiters(&rt, alloc, &kernel, 300, &[]);
}
