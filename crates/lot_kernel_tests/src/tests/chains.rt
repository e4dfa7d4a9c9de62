//! Funding through several currencies, and through all of them.
use super::*;

/// One processor, port and mutex, and the largest tables.
const ONE_PROCESSOR: Sizes = Sizes {
    ports: 1,
    mutexes: 1,
    processors: 1,
    ..LARGEST
};

/// A second ticket of a currency counts at once: 100 and 50 of base over three threads of 33 each.
const SECOND_TICKET: &[Step<'static>] = &[
    Step::Gives("mkcur g", Reply::Currency(1)),
    Step::Gives("mktkt 100 base", Reply::Ticket(1)),
    Step::Gives("fund 1 g", Reply::Done),
    Step::Funds("fundx 33 g a 1", 2, 1),
    Step::Funds("fundx 33 g b 1", 3, 2),
    Step::Funds("fundx 33 g c 1", 4, 3),
    Step::Turns(98, (3, 98, 99)),
    Step::Gives("mktkt 50 base", Reply::Ticket(5)),
    Step::Gives("fund 5 g", Reply::Done),
    Step::Wins(1, 149, (3, 149, 150), None),
];

/// 100 of base reach a thread through two currencies, and 60 through the second alone.
const UPSTREAM: &[Step<'static>] = &[
    Step::Gives("mkcur g", Reply::Currency(1)),
    Step::Gives("mkcur h", Reply::Currency(2)),
    Step::Gives("mktkt 100 base", Reply::Ticket(1)),
    Step::Gives("fund 1 g", Reply::Done),
    Step::Gives("mktkt 1 g", Reply::Ticket(2)),
    Step::Gives("fund 2 h", Reply::Done),
    Step::Gives("mktkt 60 base", Reply::Ticket(3)),
    Step::Gives("fund 3 h", Reply::Done),
    Step::Funds("fundx 1 h a 1", 4, 1),
    Step::Turns(159, (1, 159, 160)),
];

/// A value follows funding two currencies upstream.
const UNFUNDED_UPSTREAM: &[Step<'static>] = &[
    Step::Gives("unfund 1", Reply::Done),
    Step::Turns(59, (1, 59, 60)),
];

/// A value follows an amount there, too. The thread's one ticket gets all of its currency, whatever its amount.
const AMOUNT_UPSTREAM: &[Step<'static>] = &[
    Step::Gives("settkt 1 40", Reply::Done),
    Step::Turns(99, (1, 99, 100)),
    Step::Gives("settkt 4 9", Reply::Done),
    Step::Turns(99, (1, 99, 100)),
];

const SCENES: &[Scene<'static>] = &[
    ("a second ticket", ONE_PROCESSOR, &[], &[SECOND_TICKET]),
    (
        "an unfunding upstream",
        ONE_PROCESSOR,
        &[],
        &[UPSTREAM, UNFUNDED_UPSTREAM],
    ),
    (
        "an amount upstream",
        ONE_PROCESSOR,
        &[],
        &[UPSTREAM, AMOUNT_UPSTREAM],
    ),
];

#[test]
fn upstream(rt: HostRuntime) {
    play_all(&rt, rt.alloc(), SCENES)
}

/// Makes the command of a line that was put together, and compares the reply.
fn check_made(
    rt: &impl Abort,
    kernel: &mut Kernel,
    line: Result<String, AllocError>,
    reply: Reply,
) {
    let line = line.expect(rt, "memory");
    let found = answer(rt, kernel, line.as_str());
    check_same_at(rt, &line, &found, &reply);
}

/// Makes 4096 currencies.
fn make_all(rt: &impl Abort, alloc: Global, kernel: &mut Kernel) {
    for number in 1..=4096u32 {
        let line = format!(in alloc; "mkcur c{number}");
        check_made(rt, kernel, line, Reply::Currency(number));
    }
}

/// From the last currency on, a ticket of each funds the next.
fn join_all(rt: &impl Abort, alloc: Global, kernel: &mut Kernel) {
    for ticket in 2..=4096u32 {
        let issuer = 4097 - ticket;
        let next = issuer + 1;
        let line = format!(in alloc; "mktkt 1 c{issuer}");
        check_made(rt, kernel, line, Reply::Ticket(ticket));
        let line = format!(in alloc; "fund {ticket} c{next}");
        check_made(rt, kernel, line, Reply::Done);
    }
}

/// Base funds the first currency with 7.
const BASE_FUNDS: &[Step<'static>] = &[
    Step::Gives("mktkt 7 base", Reply::Ticket(4097)),
    Step::Gives("fund 4097 c1", Reply::Done),
    Step::Wins(1, 6, (1, 6, 7), None),
];

/// A chain of 4096 currencies, made from its end: base funds the first with 7, each funds the next with 1, and the last
/// a thread, which wins a draw.
fn chain(rt: &impl Abort, alloc: Global) -> Kernel {
    let mut kernel = kernel_of(rt, alloc, ONE_PROCESSOR);
    make_all(rt, alloc, &mut kernel);
    check_same(
        rt,
        &answer(rt, &mut kernel, "fundx 1 c4096 a 1"),
        &FIRST_FUNDED,
    );
    join_all(rt, alloc, &mut kernel);
    take_all(rt, "chain", &mut kernel, BASE_FUNDS);
    kernel
}

/// Whether there is a currency, which has no active amount and no value.
fn is_worth_nothing(kernel: &mut Kernel, number: u32) -> bool {
    match kernel.currency_row(CurrencyNumber { number }) {
        Some(row) => row.active_amount == 0 && row.value == 0,
        None => false,
    }
}

const EXITS: &[Step<'static>] = &[Step::Traps(1, Action::Exit, 1, Outcome::Exited)];

const IDLE: &[Step<'static>] = &[Step::NoCurrency(4097), Step::Idles(1, 6)];

/// Base's funding reaches the thread through all the currencies, and everything is worth 0 once it has ended.
#[test]
fn a_chain_of_all_currencies(rt: HostRuntime) {
    let mut kernel = chain(&rt, rt.alloc());
    take_all(&rt, "chain", &mut kernel, EXITS);
    for number in 0..=4096 {
        check_same_at(&rt, &number, &is_worth_nothing(&mut kernel, number), &true);
    }
    take_all(&rt, "chain", &mut kernel, IDLE)
}

/// Another amount of base's ticket reaches the thread too, even while the thread runs.
const INFLATION: &[Step<'static>] = &[
    Step::Gives("settkt 4097 4294967295", Reply::Done),
    Step::Expires(Pause::Expire(1), 1, 100),
    Step::Wins(1, 4294967294, (1, 4294967294, 4294967295), None),
];

#[test]
fn inflation_of_all_currencies(rt: HostRuntime) {
    let mut kernel = chain(&rt, rt.alloc());
    take_all(&rt, "inflation", &mut kernel, INFLATION)
}
