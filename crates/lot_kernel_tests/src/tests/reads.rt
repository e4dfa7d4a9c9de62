//! The reads of draws, unlocks and rows.
use super::*;
use lot_kernel::{Meter, Settled};

/// A step, and the edges that it reads.
type Count<'a> = (Step<'a>, u64);

/// The reads since the counts were these.
fn read_since(kernel: &Kernel, before: Meter) -> u64 {
    kernel
        .meter()
        .ticket_reads
        .saturating_sub(before.ticket_reads)
}

/// Takes a step, and compares the reads.
fn count(rt: &impl Abort, at: &str, i: usize, kernel: &mut Kernel, (step, reads): Count<'_>) {
    let before = kernel.meter();
    take(rt, at, kernel, step);
    check_same_at(rt, &(at, i), &read_since(kernel, before), &reads);
}

/// Takes the steps in a new kernel of the largest tables, and compares the reads of each.
fn count_all(rt: &impl Abort, alloc: Global, (at, steps): (&str, &[Count<'_>])) {
    let mut kernel = kernel_of(rt, alloc, LARGEST);
    for (i, step) in steps.iter().enumerate() {
        count(rt, at, i, &mut kernel, *step);
    }
}

// 100 base fund `g`, which three threads share. A second ticket of base makes `g` and the three stale: the draw reads
// the two tickets that fund `g`, and one for each thread.
const SHARED: &[Count<'static>] = &[
    (Step::Gives("mkcur g", Reply::Currency(1)), 0),
    (Step::Gives("mktkt 100 base", Reply::Ticket(1)), 0),
    (Step::Gives("fund 1 g", Reply::Done), 0),
    (Step::Funds("fundx 1 g a 1", 2, 1), 0),
    (Step::Funds("fundx 1 g b 1", 3, 2), 0),
    (Step::Funds("fundx 1 g c 1", 4, 3), 0),
    (Step::Wins(1, 0, (1, 0, 99), None), 4),
    (Step::Expires(Pause::Expire(1), 1, 100), 0),
    (Step::Wins(1, 0, (1, 0, 99), None), 0),
    (Step::Expires(Pause::Expire(1), 1, 100), 0),
    (Step::Gives("mktkt 50 base", Reply::Ticket(5)), 0),
    (Step::Gives("fund 5 g", Reply::Done), 0),
    (Step::Wins(1, 149, (3, 149, 150), None), 5),
];

// 100 and 60 of base fund `g`, which funds `h`, which funds a thread: four tickets. Without the first
// of them `g`, `h` and the thread are stale, and one ticket funds each.
const UPSTREAM: &[Count<'static>] = &[
    (Step::Gives("mkcur g", Reply::Currency(1)), 0),
    (Step::Gives("mkcur h", Reply::Currency(2)), 0),
    (Step::Gives("mktkt 100 base", Reply::Ticket(1)), 0),
    (Step::Gives("fund 1 g", Reply::Done), 0),
    (Step::Gives("mktkt 1 g", Reply::Ticket(2)), 0),
    (Step::Gives("fund 2 h", Reply::Done), 0),
    (Step::Funds("fundx 1 h a 1", 3, 1), 0),
    (Step::Gives("mktkt 60 base", Reply::Ticket(4)), 0),
    (Step::Gives("fund 4 g", Reply::Done), 0),
    (Step::Wins(1, 159, (1, 159, 160), None), 4),
    (Step::Expires(Pause::Expire(1), 1, 100), 0),
    (Step::Gives("unfund 1", Reply::Done), 0),
    (Step::Wins(1, 59, (1, 59, 60), None), 3),
];

// 100 base fund `g`, which two threads share, and a third thread has base. Another amount of the ticket that funds `g`
// makes `g` and its two threads stale; another amount of a thread's ticket of `g` makes the two stale, but not `g`;
// another amount of the third thread's ticket makes only that thread stale. Neither a ticket that funds nothing nor a
// refused command makes anything stale.
const RESET: &[Count<'static>] = &[
    (Step::Gives("mkcur g", Reply::Currency(1)), 0),
    (Step::Gives("mktkt 100 base", Reply::Ticket(1)), 0),
    (Step::Gives("fund 1 g", Reply::Done), 0),
    (Step::Funds("fundx 1 g a 1", 2, 1), 0),
    (Step::Funds("fundx 1 g b 1", 3, 2), 0),
    (Step::Funds("fundx 10 base c 1", 4, 3), 0),
    (Step::Wins(1, 109, (3, 109, 110), None), 4),
    (Step::Expires(Pause::Expire(1), 3, 100), 0),
    (Step::Gives("settkt 1 200", Reply::Done), 0),
    (Step::Wins(1, 209, (3, 209, 210), None), 3),
    (Step::Expires(Pause::Expire(1), 3, 100), 0),
    (Step::Gives("settkt 2 3", Reply::Done), 0),
    (Step::Wins(1, 150, (2, 150, 210), None), 2),
    (Step::Expires(Pause::Expire(1), 2, 100), 0),
    (Step::Gives("settkt 4 40", Reply::Done), 0),
    (Step::Wins(1, 239, (3, 239, 240), None), 1),
    (Step::Expires(Pause::Expire(1), 3, 100), 0),
    (Step::Gives("mktkt 7 g", Reply::Ticket(5)), 0),
    (Step::Gives("settkt 5 8", Reply::Done), 0),
    (
        Step::Gives("settkt 1 0", Reply::Refused(Refusal::BadAmount)),
        0,
    ),
    (
        Step::Gives("settkt 9 1", Reply::Refused(Refusal::NoTicket)),
        0,
    ),
    (Step::Wins(1, 0, (1, 0, 240), None), 0),
];

// A listing settles stale nodes once; a draw after it reads nothing. A ticket's row also reads the ticket.
const LISTED: &[Count<'static>] = &[
    (Step::Funds("fundx 10 base a 1", 1, 1), 0),
    (Step::Funds("fundx 5 base b 1", 2, 2), 0),
    (Step::Gives("mktkt 7 base", Reply::Ticket(3)), 0),
    (Step::Thread((1, "a", Status::Ready, 10, 10, 0, 0)), 2),
    (Step::Thread((2, "b", Status::Ready, 5, 5, 0, 0)), 0),
    (
        Step::Ticket((1, 10, "base", "a", Target::Thread(1), true, 10)),
        1,
    ),
    (
        Step::Ticket((3, 7, "base", "-", Target::Unfunded, false, 0)),
        0,
    ),
    (Step::Wins(1, 10, (2, 10, 15), None), 0),
];

// An unlock without waiters, and all traps that are refused or aren't unlocks, read nothing.
const TRAPPED: &[Count<'static>] = &[
    (Step::Funds("fundx 10 base a 1", 1, 1), 0),
    (Step::Wins(1, 0, (1, 0, 10), None), 1),
    (Step::Traps(1, Action::Lock(1), 1, Outcome::Locked), 0),
    (
        Step::Refuses(1, Action::Lock(9), 1, TrapRefusal::NoMutex),
        0,
    ),
    (Step::Traps(1, Action::Unlock(1, 5), 1, Outcome::Freed), 0),
    (Step::Traps(1, Action::Receive(1), 1, Outcome::Waits), 0),
];

// The removal of a dead thread makes nothing stale, and neither does a refused one.
const REMOVED: &[Count<'static>] = &[
    (Step::Funds("fundx 10 base a 1", 1, 1), 0),
    (Step::Funds("fundx 5 base b 1", 2, 2), 0),
    (Step::Wins(1, 0, (1, 0, 15), None), 2),
    (Step::Traps(1, Action::Exit, 1, Outcome::Exited), 0),
    (Step::Gives("rmthr a", Reply::Refused(Refusal::InUse)), 0),
    (Step::Gives("unfund 1", Reply::Done), 0),
    (Step::Wins(1, 0, (2, 0, 5), None), 0),
    (Step::Gives("rmthr b", Reply::Refused(Refusal::Alive)), 0),
    (Step::Gives("rmthr a", Reply::Done), 0),
    (Step::Expires(Pause::Expire(1), 2, 100), 0),
    (Step::Wins(1, 4, (2, 4, 5), None), 0),
];

// A kill reads nothing, and neither does a refused one. Once no ticket funds the killed thread, finding its value takes
// no read.
const KILLED: &[Count<'static>] = &[
    (Step::Funds("fundx 10 base a 1", 1, 1), 0),
    (Step::Funds("fundx 5 base b 1", 2, 2), 0),
    (Step::Wins(1, 0, (1, 0, 15), None), 2),
    (Step::Gives("kill a", Reply::Killed(1)), 0),
    (
        Step::Gives("kill a", Reply::Refused(Refusal::DeadThread)),
        0,
    ),
    (Step::Gives("unfund 1", Reply::Done), 0),
    (Step::Wins(1, 4, (2, 4, 5), None), 0),
];

const COUNTED: &[(&str, &[Count<'static>])] = &[
    ("shared", SHARED),
    ("upstream", UPSTREAM),
    ("amounts", RESET),
    ("listed", LISTED),
    ("trapped", TRAPPED),
    ("removed", REMOVED),
    ("killed", KILLED),
];

#[test]
fn what_is_read(rt: HostRuntime) {
    for scene in COUNTED {
        count_all(&rt, rt.alloc(), *scene);
    }
}

const TWO_FUNDED: &[Step<'static>] = &[
    Step::Gives("fundx 10 base a 1", FIRST_FUNDED),
    Step::Funds("fundx 5 base b 1", 2, 2),
];

/// Settles the kernel, which reads two edges.
fn settle_two(rt: &impl Abort, kernel: &mut Kernel) {
    assert!(rt; Settled::of(kernel).is_none());
    let before = kernel.meter();
    kernel.settle();
    check_same(rt, &read_since(kernel, before), &2);
}

/// Compares rows of the settled kernel, which read nothing.
fn check_settled(rt: &impl Abort, kernel: &Kernel) {
    let settled = Settled::of(kernel).expect(rt, "a settled kernel");
    let before = kernel.meter();
    let ticket = ticket_row(rt, (2, 5, "base", "b", Target::Thread(2), true, 5));
    check_same(
        rt,
        &settled.ticket_row(TicketNumber { number: 2 }),
        &Some(ticket),
    );
    let base = currency_row(rt, (0, "base", 0, 2, 15, 15));
    check_same(
        rt,
        &settled.currency_row(CurrencyNumber { number: 0 }),
        &Some(base),
    );
    let thread = thread_row(rt, (1, "a", Status::Ready, 10, 10, 0, 0));
    check_same(
        rt,
        &settled.thread_row(ThreadNumber { number: 1 }),
        &Some(thread),
    );
    check_same(rt, &read_since(kernel, before), &0);
}

// Two threads, a ticket each: settling reads both, and the rows of the settled kernel read nothing.
#[test]
fn settled_rows(rt: HostRuntime) {
    let mut kernel = kernel_of(&rt, rt.alloc(), LARGEST);
    take_all(&rt, "two funded", &mut kernel, TWO_FUNDED);
    settle_two(&rt, &mut kernel);
    check_settled(&rt, &kernel)
}

/// Whether a thread won the draw.
fn is_won(reply: &Reply) -> bool {
    matches!(reply, Reply::Winner { .. })
}

/// A draw visits places of the tree of weights, 1 to 10.
fn check_visits(rt: &impl Abort, kernel: &mut Kernel, d: u128) {
    let before = kernel.meter().tree_visits;
    check_same_at(rt, &d, &is_won(&kernel.event(&Event::Draw(1, d))), &true);
    let visits = kernel.meter().tree_visits.saturating_sub(before);
    check_same_at(rt, &visits, &(1 <= visits && visits <= 10), &true);
    let _ = kernel.event(&Event::Expire(1));
}

#[test]
fn a_draw_among_a_thousand(rt: HostRuntime) {
    let alloc = rt.alloc();
    let sizes = Sizes {
        tickets: 1000,
        threads: 1000,
        ..SMALL
    };
    let mut kernel = kernel_of(&rt, alloc, sizes);
    make_threads(&rt, alloc, &mut kernel, 1000);
    for d in [0, 1, 499, 500, 511, 512, 998, 999] {
        check_visits(&rt, &mut kernel, d);
    }
}

// An idle draw reads the edges into stale nodes, and visits nothing.
#[test]
fn an_idle_draw(rt: HostRuntime) {
    let mut kernel = kernel_of(&rt, rt.alloc(), LARGEST);
    answer(&rt, &mut kernel, "mkthr a 1");
    check_same(&rt, &kernel.event(&Event::Draw(1, 0)), &Reply::Idle);
    check_same(&rt, &kernel.meter(), &Meter::default());
}
