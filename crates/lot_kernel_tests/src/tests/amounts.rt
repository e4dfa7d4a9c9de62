//! Tickets that get another amount: inflation and deflation.
use super::*;

/// The kernel checks the amount, all 64 bits of it, before the number. A refused command changes nothing.
const REFUSED_AMOUNTS: &[Step<'static>] = &[
    Step::Gives("settkt 1 0", Reply::Refused(Refusal::BadAmount)),
    Step::Gives("settkt 1 4294967296", Reply::Refused(Refusal::BadAmount)),
    Step::Gives("settkt 1 1", Reply::Refused(Refusal::NoTicket)),
    Step::Gives("fundx 100 base a 1", FIRST_FUNDED),
    Step::Gives("settkt 1 0", Reply::Refused(Refusal::BadAmount)),
    Step::Gives("settkt 1 4294967297", Reply::Refused(Refusal::BadAmount)),
    Step::Gives(
        "settkt 1 18446744073709551615",
        Reply::Refused(Refusal::BadAmount),
    ),
    Step::Gives("settkt 0 300", Reply::Refused(Refusal::NoTicket)),
    Step::Gives("settkt 2 300", Reply::Refused(Refusal::NoTicket)),
    Step::Gives("settkt 4294967297 300", Reply::Refused(Refusal::NoTicket)),
    Step::Gives("mktkt 5 base", Reply::Ticket(2)),
    Step::Gives("rmtkt 2", Reply::Done),
    Step::Gives("settkt 2 300", Reply::Refused(Refusal::NoTicket)),
    Step::Ticket((1, 100, "base", "a", Target::Thread(1), true, 100)),
    Step::Thread((1, "a", Status::Ready, 100, 100, 0, 0)),
    Step::Gives("settkt 1 4294967295", Reply::Done),
    Step::Thread((1, "a", Status::Ready, 4294967295, 4294967295, 0, 0)),
    Step::Gives("settkt 1 1", Reply::Done),
    Step::Wins(1, 3, (1, 0, 1), None),
];

/// Two threads with 100 of base each.
const EVEN: &[(u64, &str)] = &[(100, "a"), (100, "b")];

/// Thread `a` gets 300, and `b` gets 4 while it runs. Both count at once, and each ticket keeps its target.
const INFLATION: &[Step<'static>] = &[
    Step::Turns(199, (2, 199, 200)),
    Step::Gives("settkt 1 300", Reply::Done),
    Step::Wins(1, 300, (2, 300, 400), None),
    Step::Gives("settkt 2 4", Reply::Done),
    Step::Wins(2, 300, (1, 0, 300), None),
    Step::Ticket((1, 300, "base", "a", Target::Thread(1), true, 300)),
    Step::Ticket((2, 4, "base", "b", Target::Thread(2), true, 4)),
    Step::Currency((0, "base", 0, 2, 304, 304)),
    Step::Value(1, 300),
    Step::Value(2, 4),
];

/// Thread `b` yields after one tick of 100, so it weighs 100 times its value until it next wins, with another amount
/// too.
const COMPENSATED: &[Step<'static>] = &[
    Step::Wins(1, 199, (2, 199, 200), None),
    Step::Traps(1, Action::Yield, 2, Outcome::Yielded),
    Step::Thread((2, "b", Status::Ready, 100, 10000, 1, 1)),
    Step::Gives("settkt 2 300", Reply::Done),
    Step::Thread((2, "b", Status::Ready, 300, 30000, 1, 1)),
    Step::Gives("settkt 1 1", Reply::Done),
    Step::Wins(1, 30000, (2, 30000, 30001), None),
];

/// Currency `g` is worth 100: thread `b` has half of it, and thread `a` the other half, through `h`. A larger amount
/// for `b` leaves less of `g` to `a`, and with a smaller value of `g` both are worth less. A ticket that funds nothing
/// changes no value.
const DILUTION: &[Step<'static>] = &[
    Step::Gives("settkt 4 3", Reply::Done),
    Step::Value(1, 25),
    Step::Value(2, 75),
    Step::Currency((1, "g", 1, 2, 4, 100)),
    Step::Ticket((4, 3, "g", "b", Target::Thread(2), true, 75)),
    Step::Gives("settkt 1 20", Reply::Done),
    Step::Value(1, 5),
    Step::Value(2, 15),
    Step::Gives("mktkt 9 g", Reply::Ticket(5)),
    Step::Gives("settkt 5 4", Reply::Done),
    Step::Ticket((5, 4, "g", "-", Target::Unfunded, false, 0)),
    Step::Currency((1, "g", 1, 3, 4, 20)),
    Step::Gives("fund 5 a", Reply::Done),
    Step::Value(1, 12),
    Step::Value(2, 7),
    Step::Wins(1, 12, (2, 12, 19), None),
];

const SCENES: &[Scene<'static>] = &[
    ("refused amounts", LARGEST, &[], &[REFUSED_AMOUNTS]),
    ("inflation", LARGEST, EVEN, &[INFLATION]),
    ("compensation stays", LARGEST, EVEN, &[COMPENSATED]),
    ("dilution", LARGEST, &[], &[TWO_LEVELS, DILUTION]),
];

#[test]
fn other_amounts(rt: HostRuntime) {
    play_all(&rt, rt.alloc(), SCENES)
}
