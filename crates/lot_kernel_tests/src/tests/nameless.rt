//! Threads without a name.
use super::*;

/// Any number of threads may have no name; a currency must have one. No command can name such a thread: each means it
/// by its number.
const NAMELESS: &[Step<'static>] = &[
    Step::Gives("mkthr  1", Reply::Thread(1)),
    Step::Gives("mkthr  1", Reply::Thread(2)),
    Step::Funds("fundx 10 base  1", 1, 3),
    Step::Gives("mkcur ", Reply::Refused(Refusal::BadName)),
    Step::Gives("mktkt 5 base", Reply::Ticket(2)),
    Step::Gives("fund 2 ", Reply::Refused(Refusal::NoTarget)),
    Step::Gives("mktkt 1 ", Reply::Refused(Refusal::NoCurrency)),
    Step::Gives("rmcur ", Reply::Refused(Refusal::NoCurrency)),
    Step::Gives("kill ", Reply::Refused(Refusal::NoThread)),
    Step::Gives("rmthr ", Reply::Refused(Refusal::NoThread)),
    Step::Gives("fund 2 #2", Reply::Done),
    Step::Gives("lsthr", Reply::List(Kind::Threads)),
    Step::Thread((1, "", Status::Ready, 0, 0, 0, 0)),
    Step::Thread((2, "", Status::Ready, 5, 5, 0, 0)),
    Step::Thread((3, "", Status::Ready, 10, 10, 0, 0)),
    Step::Ticket((1, 10, "base", "", Target::Thread(3), true, 10)),
    Step::Ticket((2, 5, "base", "", Target::Thread(2), true, 5)),
    Step::Wins(1, 14, (3, 14, 15), None),
];

/// Threads without a name are removed from among those whose names share one bucket of eight, which the kernel still
/// finds.
const REMOVED: &[Step<'static>] = &[
    Step::Gives("fundx 1 base a 1", FIRST_FUNDED),
    Step::Gives("mkthr  1", Reply::Thread(2)),
    Step::Gives("mkthr d 1", Reply::Thread(3)),
    Step::Gives("mkthr  1", Reply::Thread(4)),
    Step::Gives("rmthr #2", Reply::Refused(Refusal::Alive)),
    Step::Gives("kill #2", Reply::Killed(2)),
    Step::Gives("rmthr #2", Reply::Done),
    Step::NoThread(2),
    Step::Gives("rmthr #2", Reply::Refused(Refusal::NoThread)),
    Step::Thread((4, "", Status::Ready, 0, 0, 0, 0)),
    Step::Gives("mkthr a 1", Reply::Refused(Refusal::NameTaken)),
    Step::Gives("mkthr d 1", Reply::Refused(Refusal::NameTaken)),
    Step::Gives("kill d", Reply::Killed(3)),
    Step::Gives("rmthr d", Reply::Done),
    Step::Gives("kill #4", Reply::Killed(4)),
    Step::Gives("rmthr #4", Reply::Done),
    Step::Gives("mkthr a 1", Reply::Refused(Refusal::NameTaken)),
    Step::Gives("mkthr d 1", Reply::Thread(5)),
    Step::Gives("mkthr  1", Reply::Thread(6)),
    Step::Gives("kill a", Reply::Killed(1)),
];

/// A thread with a name gets the number of a thread without one, and the other way round.
const GIVEN_AGAIN: &[Step<'static>] = &[
    Step::Gives("fundx 1 base a 1", FIRST_FUNDED),
    Step::Gives("mkthr  1", Reply::Thread(2)),
    Step::Gives("unfund 1", Reply::Done),
    Step::Gives("kill #2", Reply::Killed(2)),
    Step::Gives("rmthr #2", Reply::Done),
    Step::Gives("mkthr d 1", Reply::Thread(2)),
    Step::Gives("fund 1 d", Reply::Done),
    Step::Ticket((1, 1, "base", "d", Target::Thread(2), true, 1)),
    Step::Gives("unfund 1", Reply::Done),
    Step::Gives("kill d", Reply::Killed(2)),
    Step::Gives("rmthr d", Reply::Done),
    Step::Gives("mkthr  1", Reply::Thread(2)),
    Step::Gives("fund 1 d", Reply::Refused(Refusal::NoTarget)),
    Step::Gives("fund 1 #2", Reply::Done),
    Step::Ticket((1, 1, "base", "", Target::Thread(2), true, 1)),
    Step::Thread((2, "", Status::Ready, 1, 1, 0, 0)),
    Step::Gives("mkthr d 1", Reply::Thread(3)),
    Step::Gives("unfund 1", Reply::Done),
    Step::Gives("fund 1 d", Reply::Done),
    Step::Ticket((1, 1, "base", "d", Target::Thread(3), true, 1)),
];

const SCENES: &[Scene<'static>] = &[
    ("threads without a name", LARGEST, &[], &[NAMELESS]),
    ("removed ones", EIGHT, &[], &[REMOVED]),
    (
        "numbers given again",
        Sizes {
            reuse: true,
            ..EIGHT
        },
        &[],
        &[GIVEN_AGAIN],
    ),
];

#[test]
fn threads_without_a_name(rt: HostRuntime) {
    play_all(&rt, rt.alloc(), SCENES)
}
