//! Threads that sleep and wake, are preempted, and whose quantum ends late.
use super::*;

/// Thread `a` sleeps, with a fifth of its quantum used: its ticket is inactive until it is woken, and then it weighs
/// five times its value.
const SLEEPER: &[Step<'static>] = &[
    Step::Gives("fundx 400 base a 1", FIRST_FUNDED),
    Step::Pauses(Pause::Wake(1), Reply::Refused(Refusal::NotAsleep)),
    Step::Pauses(Pause::Wake(2), Reply::Refused(Refusal::NoThread)),
    Step::Pauses(Pause::Wake(0), Reply::Refused(Refusal::NoThread)),
    Step::Wins(1, 0, (1, 0, 400), None),
    Step::Works(1, 19, Action::Sleep(()), 1, Outcome::Slept),
    Step::Thread((1, "a", Status::Asleep, 0, 0, 1, 20)),
    Step::Ticket((1, 400, "base", "a", Target::Thread(1), false, 0)),
    Step::Idles(1, 0),
    Step::Pauses(Pause::Wake(1), Reply::Done),
    Step::Thread((1, "a", Status::Ready, 400, 2000, 1, 20)),
    Step::Pauses(Pause::Wake(1), Reply::Refused(Refusal::NotAsleep)),
    Step::Wins(1, 1999, (1, 1999, 2000), None),
];

/// Thread `a` sleeps as the owner of a mutex for which `b` waits: neither competes, though `b` lends to `a`. A wake of
/// a waiting thread is refused, and so is that of a dead one.
const SLEEPING_OWNER: &[Step<'static>] = &[
    Step::Wins(1, 0, (1, 0, 30), None),
    Step::Traps(1, Action::Lock(1), 1, Outcome::Locked),
    Step::Works(1, 0, Action::Sleep(()), 1, Outcome::Slept),
    Step::Wins(1, 19, (2, 19, 20), None),
    Step::Traps(1, Action::Lock(1), 2, Outcome::Waits),
    Step::Idles(1, 0),
    Step::Pauses(Pause::Wake(2), Reply::Refused(Refusal::NotAsleep)),
    Step::Pauses(Pause::Wake(1), Reply::Done),
    Step::Wins(1, 1499, (1, 1499, 1500), None),
    Step::Traps(1, Action::Exit, 1, Outcome::Exited),
    Step::Pauses(Pause::Wake(1), Reply::Refused(Refusal::NotAsleep)),
    Step::Idles(1, 0),
];

/// A thread is preempted within its quantum: the ticks that it ran count, and it gets no compensation.
const PREEMPTED: &[Step<'static>] = &[
    Step::Gives("fundx 400 base a 1", FIRST_FUNDED),
    Step::Pauses(Pause::Preempt(1, 0), Reply::Refused(Refusal::NotRunning)),
    Step::Wins(1, 0, (1, 0, 400), None),
    Step::Pauses(Pause::Preempt(3, 0), Reply::Refused(Refusal::BadProcessor)),
    Step::Pauses(Pause::Preempt(2, 0), Reply::Refused(Refusal::NotRunning)),
    Step::Works(1, 19, Action::Lock(1), 1, Outcome::Locked),
    Step::Pauses(Pause::Preempt(1, 81), Reply::Refused(Refusal::BadTicks)),
    Step::Expires(Pause::Preempt(1, 30), 1, 30),
    Step::Thread((1, "a", Status::Ready, 400, 400, 1, 50)),
    Step::Wins(1, 399, (1, 399, 400), None),
    Step::Expires(Pause::Preempt(1, 100), 1, 100),
];

/// After a quantum that ended late, the thread weighs less in proportion, until it next wins.
const LATE: &[Step<'static>] = &[
    Step::Gives("fundx 400 base a 1", FIRST_FUNDED),
    Step::Pauses(Pause::Overrun(1, 0), Reply::Refused(Refusal::NotRunning)),
    Step::Wins(1, 0, (1, 0, 400), None),
    Step::Pauses(Pause::Overrun(0, 0), Reply::Refused(Refusal::BadProcessor)),
    Step::Works(1, 19, Action::Lock(1), 1, Outcome::Locked),
    Step::Pauses(
        Pause::Overrun(1, 4294967196),
        Reply::Refused(Refusal::BadTicks),
    ),
    Step::Expires(Pause::Overrun(1, 300), 1, 380),
    Step::Thread((1, "a", Status::Ready, 400, 100, 1, 400)),
    Step::Wins(1, 99, (1, 99, 100), None),
    Step::Expires(Pause::Overrun(1, 0), 1, 100),
    Step::Thread((1, "a", Status::Ready, 400, 400, 2, 500)),
    Step::Wins(1, 0, (1, 0, 400), None),
    Step::Expires(Pause::Overrun(1, 4294967195), 1, 4294967295),
    Step::Thread((1, "a", Status::Ready, 400, 1, 3, 4294967795)),
    Step::Wins(1, 7, (1, 0, 1), None),
];

/// In a kernel without compensation thread `a` yields after a fifth of its quantum, sleeps and wakes, and its quantum
/// ends late: it always weighs its value.
const UNCOMPENSATED: &[Step<'static>] = &[
    Step::Gives("fundx 400 base a 1", FIRST_FUNDED),
    Step::Wins(1, 0, (1, 0, 400), None),
    Step::Works(1, 19, Action::Yield, 1, Outcome::Yielded),
    Step::Thread((1, "a", Status::Ready, 400, 400, 1, 20)),
    Step::Wins(1, 399, (1, 399, 400), None),
    Step::Works(1, 19, Action::Sleep(()), 1, Outcome::Slept),
    Step::Pauses(Pause::Wake(1), Reply::Done),
    Step::Wins(1, 399, (1, 399, 400), None),
    Step::Expires(Pause::Overrun(1, 300), 1, 400),
    Step::Thread((1, "a", Status::Ready, 400, 400, 3, 440)),
];

const SCENES: &[Scene<'static>] = &[
    ("sleep and wake", LARGEST, &[], &[SLEEPER]),
    (
        "sleep of an owner",
        LARGEST,
        &[(10, "a"), (20, "b")],
        &[SLEEPING_OWNER],
    ),
    ("preempted", LARGEST, &[], &[PREEMPTED]),
    ("late", LARGEST, &[], &[LATE]),
    (
        "without compensation",
        Sizes {
            tickets: 1,
            threads: 1,
            scripts: 1,
            quantum: 100,
            without_compensation: true,
            ..Sizes::SMALLEST
        },
        &[],
        &[UNCOMPENSATED],
    ),
];

#[test]
fn pauses(rt: HostRuntime) {
    play_all(&rt, rt.alloc(), SCENES)
}
