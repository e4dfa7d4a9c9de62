//! Dead threads that are removed.
use super::*;

/// A thread to remove must exist, be dead, and have no references, checked in this order. The removal takes its row. A
/// new thread may have its name, with a new number.
const FUNDED_REMOVAL: &[Step<'static>] = &[
    Step::Gives("rmthr a", Reply::Refused(Refusal::NoThread)),
    Step::Gives("rmthr base", Reply::Refused(Refusal::NoThread)),
    Step::Gives("mkcur g", Reply::Currency(1)),
    Step::Gives("rmthr g", Reply::Refused(Refusal::NoThread)),
    Step::Gives("fundx 10 base a 1", FIRST_FUNDED),
    Step::Gives("rmthr a", Reply::Refused(Refusal::Alive)),
    Step::Wins(1, 7, (1, 7, 10), None),
    Step::Gives("rmthr a", Reply::Refused(Refusal::Alive)),
    Step::Traps(1, Action::Exit, 1, Outcome::Exited),
    Step::Gives("rmthr a", Reply::Refused(Refusal::InUse)),
    Step::Thread((1, "a", Status::Dead, 0, 0, 1, 1)),
    Step::Gives("unfund 1", Reply::Done),
    Step::Gives("mkthr a 1", Reply::Refused(Refusal::NameTaken)),
    Step::Gives("rmthr a", Reply::Done),
    Step::NoThread(1),
    Step::Gives("rmthr a", Reply::Refused(Refusal::NoThread)),
    Step::Gives("fund 1 a", Reply::Refused(Refusal::NoTarget)),
    Step::Gives("mkthr a 1", Reply::Thread(2)),
    Step::NoThread(1),
    Step::Thread((2, "a", Status::Ready, 0, 0, 0, 0)),
    Step::Gives("fund 1 a", Reply::Done),
    Step::Ticket((1, 10, "base", "a", Target::Thread(2), true, 10)),
    Step::Thread((2, "a", Status::Ready, 10, 10, 0, 0)),
    Step::Gives("rmthr a", Reply::Refused(Refusal::Alive)),
    Step::Wins(1, 7, (2, 7, 10), None),
];

/// Only the new thread has a script.
const SCRIPTS: &[Step<'static>] = &[
    Step::Script(1, None),
    Step::Script(2, Some(1)),
    Step::Script(3, None),
];

/// Thread `o` ends as the owner of a mutex, for which `w` waits.
const OWNER: &[Step<'static>] = &[
    Step::Wins(1, 9, (1, 9, 30), None),
    Step::Traps(1, Action::Lock(1), 1, Outcome::Locked),
    Step::Traps(1, Action::Exit, 1, Outcome::Exited),
    Step::Gives("rmthr o", Reply::Refused(Refusal::InUse)),
    Step::Gives("unfund 1", Reply::Done),
    Step::Gives("rmthr o", Reply::Refused(Refusal::InUse)),
    Step::Wins(1, 3, (2, 3, 20), None),
    Step::Traps(1, Action::Lock(1), 2, Outcome::Waits),
    Step::Gives("rmthr o", Reply::Refused(Refusal::InUse)),
    Step::Gives("rmthr w", Reply::Refused(Refusal::Alive)),
    Step::Idles(1, 0),
];

/// Thread `s` ends while it serves `c`.
const SERVER: &[Step<'static>] = &[
    Step::Wins(1, 0, (1, 0, 30), None),
    Step::Traps(1, Action::Receive(1), 1, Outcome::Waits),
    Step::Gives("rmthr s", Reply::Refused(Refusal::Alive)),
    Step::Wins(1, 0, (2, 0, 20), None),
    Step::Traps(1, Action::Call(1, 5), 2, Outcome::ServedBy(1)),
    Step::Gives("rmthr c", Reply::Refused(Refusal::Alive)),
    Step::Wins(1, 0, (1, 0, 3000), Some(5)),
    Step::Traps(1, Action::Exit, 1, Outcome::Exited),
    Step::Gives("unfund 1", Reply::Done),
    Step::Gives("rmthr s", Reply::Refused(Refusal::InUse)),
    Step::Gives("rmthr c", Reply::Refused(Refusal::Alive)),
    Step::Idles(1, 0),
];

/// Of three threads the one in the middle is removed: the others keep their names, numbers and tickets.
const MIDDLE: &[Step<'static>] = &[
    Step::Wins(1, 2, (2, 2, 7), None),
    Step::Traps(1, Action::Exit, 2, Outcome::Exited),
    Step::Gives("rmtkt 2", Reply::Refused(Refusal::Funding)),
    Step::Gives("unfund 2", Reply::Done),
    Step::Gives("rmthr b", Reply::Done),
    Step::Thread((1, "a", Status::Ready, 1, 1, 0, 0)),
    Step::NoThread(2),
    Step::Thread((3, "c", Status::Ready, 4, 4, 0, 0)),
    Step::Gives("mkcur b", Reply::Currency(1)),
    Step::Gives("fund 2 b", Reply::Done),
    Step::Wins(1, 4, (3, 4, 5), None),
];

/// A removed thread still counts towards the limit, so no other gets its place, though its name is free.
const STILL_FULL: &[Step<'static>] = &[
    Step::Gives("fundx 1 base a 1", FIRST_FUNDED),
    Step::Wins(1, 0, (1, 0, 1), None),
    Step::Traps(1, Action::Exit, 1, Outcome::Exited),
    Step::Gives("unfund 1", Reply::Done),
    Step::Gives("rmthr a", Reply::Done),
    Step::Gives("mkthr a 1", Reply::Refused(Refusal::Full)),
    Step::Gives("fundx 1 base a 1", Reply::Refused(Refusal::Full)),
    Step::Gives("mkcur a", Reply::Currency(1)),
    Step::Idles(1, 0),
];

const SCENES: &[Scene<'static>] = &[
    ("a funded thread", LARGEST, &[], &[FUNDED_REMOVAL, SCRIPTS]),
    ("an owner", LARGEST, &[(10, "o"), (20, "w")], &[OWNER]),
    ("a server", LARGEST, &[(10, "s"), (20, "c")], &[SERVER]),
    (
        "from the middle",
        LARGEST,
        &[(1, "a"), (2, "b"), (4, "c")],
        &[MIDDLE],
    ),
    ("no room", SMALL, &[], &[STILL_FULL]),
];

#[test]
fn removals(rt: HostRuntime) {
    play_all(&rt, rt.alloc(), SCENES)
}
