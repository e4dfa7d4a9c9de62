//! Threads that are killed, in each status.
use super::*;

/// Thread `a` is killed while it runs and owns a mutex: its processor is idle afterwards, its ticket inactive, and the
/// mutex free. The ticks up to its last trap count. It can be removed like any other dead thread.
const RUNNING: &[Step<'static>] = &[
    Step::Wins(1, 0, (1, 0, 500), None),
    Step::Works(1, 29, Action::Lock(1), 1, Outcome::Locked),
    Step::Gives("kill a", Reply::Killed(1)),
    Step::Pauses(Pause::Preempt(1, 0), Reply::Refused(Refusal::NotRunning)),
    Step::Thread((1, "a", Status::Dead, 0, 0, 1, 30)),
    Step::Ticket((1, 400, "base", "a", Target::Thread(1), false, 0)),
    Step::Gives("kill a", Reply::Refused(Refusal::DeadThread)),
    Step::Gives("fund 1 a", Reply::Refused(Refusal::DeadThread)),
    Step::Pauses(Pause::Wake(1), Reply::Refused(Refusal::NotAsleep)),
    Step::Gives("rmthr a", Reply::Refused(Refusal::InUse)),
    Step::Gives("unfund 1", Reply::Done),
    Step::Gives("rmthr a", Reply::Done),
    Step::NoThread(1),
    Step::Gives("kill a", Reply::Refused(Refusal::NoThread)),
    Step::Wins(1, 99, (2, 99, 100), None),
    Step::Traps(1, Action::Lock(1), 2, Outcome::Locked),
    Step::Idles(2, 0),
];

/// Of two threads that run one is killed: the other runs on, and wins the next draw.
const ELSEWHERE: &[Step<'static>] = &[
    Step::Wins(1, 0, (1, 0, 500), None),
    Step::Wins(2, 0, (2, 0, 100), None),
    Step::Gives("kill a", Reply::Killed(1)),
    Step::Traps(2, Action::Lock(2), 2, Outcome::Locked),
    Step::Expires(Pause::Preempt(2, 49), 2, 49),
    Step::Thread((2, "b", Status::Ready, 100, 100, 1, 50)),
    Step::Wins(1, 199, (2, 99, 100), None),
];

/// A killed Ready thread competes in no draw.
const READY: &[Step<'static>] = &[
    Step::Gives("kill a", Reply::Killed(1)),
    Step::Wins(1, 400, (2, 0, 100), None),
    Step::Gives("kill b", Reply::Killed(2)),
    Step::Idles(1, 0),
];

/// A killed thread's ticket is inactive, so the other thread gets the whole value of their currency.
const SHARED: &[Step<'static>] = &[
    Step::Gives("mkcur g", Reply::Currency(1)),
    Step::Gives("mktkt 100 base", Reply::Ticket(1)),
    Step::Gives("fund 1 g", Reply::Done),
    Step::Funds("fundx 1 g a 1", 2, 1),
    Step::Funds("fundx 1 g b 1", 3, 2),
    Step::Value(1, 50),
    Step::Gives("kill a", Reply::Killed(1)),
    Step::Ticket((2, 1, "g", "a", Target::Thread(1), false, 0)),
    Step::Currency((1, "g", 1, 2, 1, 100)),
    Step::Thread((2, "b", Status::Ready, 100, 100, 0, 0)),
];

/// Thread `s` is killed while it serves `c`, and `d` waits for it to receive: `c` is Ready, with nothing delivered, and
/// receives the call of `d`.
const SERVER: &[Step<'static>] = &[
    Step::Wins(1, 0, (1, 0, 60), None),
    Step::Traps(1, Action::Receive(1), 1, Outcome::Waits),
    Step::Wins(1, 0, (2, 0, 50), None),
    Step::Traps(1, Action::Call(1, 5), 2, Outcome::ServedBy(1)),
    Step::Wins(1, 3029, (3, 3029, 3030), None),
    Step::Traps(1, Action::Call(1, 6), 3, Outcome::Queued),
    Step::Gives("kill s", Reply::Killed(1)),
    Step::Thread((1, "s", Status::Dead, 0, 0, 1, 1)),
    Step::Thread((2, "c", Status::Ready, 20, 2000, 1, 1)),
    Step::Thread((3, "d", Status::Queued(1), 0, 0, 1, 1)),
    Step::Wins(1, 1999, (2, 1999, 2000), None),
    Step::Receives(1, 1, 2, (3, 6)),
];

/// Thread `c` is killed while `s` serves it: `s` is worth its own ticket alone, and has nobody to reply to.
const CLIENT: &[Step<'static>] = &[
    Step::Wins(1, 0, (1, 0, 60), None),
    Step::Traps(1, Action::Receive(1), 1, Outcome::Waits),
    Step::Wins(1, 0, (2, 0, 50), None),
    Step::Traps(1, Action::Call(1, 5), 2, Outcome::ServedBy(1)),
    Step::Value(1, 30),
    Step::Gives("kill c", Reply::Killed(2)),
    Step::Wins(1, 999, (1, 999, 1030), Some(5)),
    Step::Refuses(1, Action::Reply(9), 1, TrapRefusal::NothingToReply),
];

/// Thread `a` is killed after its call was queued before that of `b`: `c` receives that of `b`.
const CALLER: &[Step<'static>] = &[
    Step::Wins(1, 0, (1, 0, 60), None),
    Step::Traps(1, Action::Call(1, 7), 1, Outcome::Queued),
    Step::Wins(1, 0, (2, 0, 50), None),
    Step::Traps(1, Action::Call(1, 8), 2, Outcome::Queued),
    Step::Gives("kill a", Reply::Killed(1)),
    Step::Wins(1, 0, (3, 0, 30), None),
    Step::Receives(1, 1, 3, (2, 8)),
    Step::Idles(2, 0),
];

/// Threads `a` and `b` wait to receive, and `a` is killed: `b` serves the call.
const RECEIVER: &[Step<'static>] = &[
    Step::Wins(1, 0, (1, 0, 60), None),
    Step::Traps(1, Action::Receive(1), 1, Outcome::Waits),
    Step::Wins(1, 0, (2, 0, 50), None),
    Step::Traps(1, Action::Receive(1), 2, Outcome::Waits),
    Step::Gives("kill a", Reply::Killed(1)),
    Step::Wins(1, 0, (3, 0, 30), None),
    Step::Traps(1, Action::Call(1, 5), 3, Outcome::ServedBy(2)),
    Step::Wins(1, 4999, (2, 4999, 5000), Some(5)),
];

/// Thread `o` owns a mutex, for which `w` waits, and then `x`.
const ONE_MUTEX: &[Step<'static>] = &[
    Step::Wins(1, 0, (1, 0, 60), None),
    Step::Traps(1, Action::Lock(1), 1, Outcome::Locked),
    Step::Wins(2, 0, (2, 0, 50), None),
    Step::Traps(2, Action::Lock(1), 2, Outcome::Waits),
    Step::Wins(2, 0, (3, 0, 30), None),
    Step::Traps(2, Action::Lock(1), 3, Outcome::Waits),
    Step::Value(1, 60),
];

/// The owner is killed: `w` has waited longest, so it owns the mutex, and `x` lends to it.
const OWNER: &[Step<'static>] = &[
    Step::Gives("kill o", Reply::Killed(1)),
    Step::Thread((1, "o", Status::Dead, 0, 0, 1, 1)),
    Step::Thread((2, "w", Status::Ready, 50, 5000, 1, 1)),
    Step::Wins(1, 4999, (2, 4999, 5000), None),
    Step::Passes(1, (1, 7), 2, 3, Some((7, 30))),
    Step::Value(3, 30),
];

/// A killed waiter lends nothing, and takes no part in the lottery of the unlock.
const WAITER: &[Step<'static>] = &[
    Step::Gives("kill w", Reply::Killed(2)),
    Step::Value(1, 40),
    Step::Passes(1, (1, 7), 1, 3, Some((7, 30))),
    Step::Value(1, 10),
];

/// Thread `o` owns two mutexes, and `w` and `x` wait for one each: both are Ready when it is killed, as owners.
const TWO_MUTEXES: &[Step<'static>] = &[
    Step::Wins(1, 0, (1, 0, 60), None),
    Step::Traps(1, Action::Lock(1), 1, Outcome::Locked),
    Step::Traps(1, Action::Lock(2), 1, Outcome::Locked),
    Step::Wins(2, 0, (2, 0, 50), None),
    Step::Traps(2, Action::Lock(1), 2, Outcome::Waits),
    Step::Wins(2, 0, (3, 0, 30), None),
    Step::Traps(2, Action::Lock(2), 3, Outcome::Waits),
    Step::Gives("kill o", Reply::Killed(1)),
    Step::Thread((2, "w", Status::Ready, 20, 2000, 1, 1)),
    Step::Thread((3, "x", Status::Ready, 30, 3000, 1, 1)),
    Step::Wins(1, 1999, (2, 1999, 5000), None),
    Step::Wins(2, 0, (3, 0, 3000), None),
    Step::Traps(1, Action::Unlock(1, 0), 2, Outcome::Freed),
    Step::Traps(2, Action::Unlock(2, 0), 3, Outcome::Freed),
];

/// A sleeper is killed, and can't be woken afterwards.
const SLEEPER: &[Step<'static>] = &[
    Step::Wins(1, 0, (1, 0, 30), None),
    Step::Works(1, 19, Action::Sleep(()), 1, Outcome::Slept),
    Step::Gives("kill a", Reply::Killed(1)),
    Step::Pauses(Pause::Wake(1), Reply::Refused(Refusal::NotAsleep)),
    Step::Thread((1, "a", Status::Dead, 0, 0, 1, 20)),
    Step::Wins(1, 29, (2, 9, 20), None),
];

/// A thread to kill must exist and not be dead. Neither base nor another currency is a thread.
const REFUSED: &[Step<'static>] = &[
    Step::Gives("kill a", Reply::Refused(Refusal::NoThread)),
    Step::Gives("kill base", Reply::Refused(Refusal::NoThread)),
    Step::Gives("mkcur g", Reply::Currency(1)),
    Step::Gives("kill g", Reply::Refused(Refusal::NoThread)),
    Step::Gives("fundx 10 base a 1", FIRST_FUNDED),
    Step::Wins(1, 0, (1, 0, 10), None),
    Step::Traps(1, Action::Exit, 1, Outcome::Exited),
    Step::Gives("kill a", Reply::Refused(Refusal::DeadThread)),
];

/// Numbers of threads to kill, where there are two.
const NUMBERED: &[Step<'static>] = &[
    Step::Gives("kill #0", Reply::Refused(Refusal::NoThread)),
    Step::Gives("kill #3", Reply::Refused(Refusal::NoThread)),
    Step::Gives("kill #2", Reply::Killed(2)),
    Step::Gives("kill #2", Reply::Refused(Refusal::DeadThread)),
    Step::Gives("kill #4294967295", Reply::Refused(Refusal::NoThread)),
    Step::Wins(1, 29, (1, 9, 10), None),
];

/// Two threads.
const RIVALS: &[(u64, &str)] = &[(400, "a"), (100, "b")];

const SERVER_AND_CLIENTS: &[(u64, &str)] = &[(10, "s"), (20, "c"), (30, "d")];

const THREE: &[(u64, &str)] = &[(10, "a"), (20, "b"), (30, "c")];

const OWNER_AND_WAITERS: &[(u64, &str)] = &[(10, "o"), (20, "w"), (30, "x")];

const TWO: &[(u64, &str)] = &[(10, "a"), (20, "b")];

const SCENES: &[Scene<'static>] = &[
    ("a runner", LARGEST, RIVALS, &[RUNNING]),
    ("a runner beside another", LARGEST, RIVALS, &[ELSEWHERE]),
    ("ready threads", LARGEST, RIVALS, &[READY]),
    ("a thread of a currency", LARGEST, &[], &[SHARED]),
    ("a server", LARGEST, SERVER_AND_CLIENTS, &[SERVER]),
    ("a client", LARGEST, SERVER_AND_CLIENTS, &[CLIENT]),
    ("a caller", LARGEST, THREE, &[CALLER]),
    ("a receiver", LARGEST, THREE, &[RECEIVER]),
    ("an owner", LARGEST, OWNER_AND_WAITERS, &[ONE_MUTEX, OWNER]),
    ("a waiter", LARGEST, OWNER_AND_WAITERS, &[ONE_MUTEX, WAITER]),
    (
        "an owner of two mutexes",
        LARGEST,
        OWNER_AND_WAITERS,
        &[TWO_MUTEXES],
    ),
    ("a sleeper", LARGEST, TWO, &[SLEEPER]),
    ("refused kills", LARGEST, &[], &[REFUSED]),
    ("kills by number", LARGEST, TWO, &[NUMBERED]),
];

#[test]
fn kills(rt: HostRuntime) {
    play_all(&rt, rt.alloc(), SCENES)
}
