mod amounts;
mod bounds;
mod chains;
mod embedding;
mod funding;
mod generated;
mod kills;
mod nameless;
mod names;
mod nodes;
mod pauses;
mod reads;
mod removals;
mod same;
mod threads;
mod traps;

use crate::command_with;
use lot_kernel::{
    Action, Command, CurrencyNumber, CurrencyRow, Event, Kernel, Kind, Limits, MutexNumber, Name,
    Outcome, Refusal, Reply, Sizes, Status, Target, ThreadNumber, ThreadRow, TicketNumber,
    TicketRow, TrapRefusal,
};
use lot_simulation::{BodyWord, Format};
use same::{check_same, check_same_at};
use std::alloc::{AllocError, Global};
use std::process::Abort;

/// A step of a row: an event and the expected reply, or a number and the expected row or value.
#[derive(Clone, Copy)]
enum Step<'a> {
    /// The line of a command, and its reply. A script is its number, and `#1` a thread's number.
    Gives(&'a str, Reply),
    /// The line of a `fundx`, and the ticket and the thread that it makes.
    Funds(&'a str, u32, u32),
    /// A draw on the processor with this number, its winner, and the number delivered to the winner.
    Wins(u32, u128, Winner, Option<u32>),
    /// A draw on processor 1, its winner, and the end of a whole quantum, both made at once.
    Turns(u128, Winner),
    /// A draw on the processor with this number that nobody wins.
    Idles(u32, u128),
    /// A trap on the processor with this number, without work before it: its thread, and its outcome. It costs its one
    /// tick, and doesn't end the quantum.
    Traps(u32, Action, u32, Outcome),
    /// A trap after this many ticks of work.
    Works(u32, u32, Action, u32, Outcome),
    /// A trap without work before it, as above, its thread, and its refusal.
    Refuses(u32, Action, u32, TrapRefusal),
    /// A receipt on a processor, the port, the thread, and the client and the number that it gets.
    Receives(u32, u32, u32, (u32, u32)),
    /// An unlock on a processor, the mutex and the drawn number, the thread, the next owner, and the lottery that it
    /// won, if there was one.
    Passes(u32, (u32, u128), u32, u32, Option<(u64, u64)>),
    Pauses(Pause, Reply),
    /// An end of a thread's run, the thread, and its ticks since its last trap.
    Expires(Pause, u32, u32),
    Ticket(TicketShown<'a>),
    Currency(CurrencyShown<'a>),
    Thread(ThreadShown<'a>),
    /// The value of the thread with this number.
    Value(u32, u64),
    /// A mutex, and its owner.
    Owner(u32, Option<u32>),
    /// A thread, and the ticks of the quantum for which it is compensated.
    Compensation(u32, Option<u32>),
    /// A thread, and its script.
    Script(u32, Option<u32>),
    NoTicket(u32),
    NoCurrency(u32),
    NoThread(u32),
}

/// An end of a thread's run, with its processor, its ticks and its trap, or the thread to wake.
#[derive(Clone, Copy)]
enum Pause {
    Expire(u32),
    Trap(u32, u32, Action),
    Preempt(u32, u32),
    Overrun(u32, u32),
    Wake(u32),
}

/// A thread that wins a draw, the number drawn, and the total.
type Winner = (u32, u128, u128);

/// A ticket's number, amount, issuer, target or `-`, target by number, whether it is active, and its value.
type TicketShown<'a> = (u32, u32, &'a str, &'a str, Target, bool, u64);

/// A currency's number, name, backing, issued, active amount and value.
type CurrencyShown<'a> = (u32, &'a str, u32, u32, u64, u64);

/// A thread's number, name, status, value, weight, quanta and ticks.
type ThreadShown<'a> = (u32, &'a str, Status, u64, u128, u64, u64);

/// What a scene shows, the sizes of its kernel, its threads with this much base each, and its steps.
type Scene<'a> = (&'a str, Sizes, &'a [(u64, &'a str)], &'a [&'a [Step<'a>]]);

/// The largest tables with quantum 100, two processors, ports and mutexes, and one script.
const LARGEST: Sizes = Sizes {
    tickets: 65535,
    currencies: 4096,
    threads: 4096,
    ports: 2,
    mutexes: 2,
    processors: 2,
    scripts: 1,
    quantum: 100,
    ..Sizes::SMALLEST
};

/// The same with the finer unit.
const FINER: Sizes = Sizes {
    unit: 256,
    ..LARGEST
};

/// Eight tickets, seven currencies and base, and eight threads.
const EIGHT: Sizes = Sizes {
    tickets: 8,
    currencies: 7,
    threads: 8,
    scripts: 1,
    quantum: 100,
    ..Sizes::SMALLEST
};

fn name(rt: &impl Abort, text: &str) -> Name {
    Name::new(text).expect(rt, "name")
}

/// The command of a line, `fundx 100 base a 1`, by the word that it has in an input. None if no command has the word.
fn command_in(line: &str) -> Option<Command> {
    let (word, arguments) = line.split_once(' ').unwrap_or((line, ""));
    match BodyWord::of_token(Format::V3, word.as_bytes())? {
        BodyWord::Command(verb) => command_with(verb, arguments),
        _ => None,
    }
}

/// The command of a line.
fn command(rt: &impl Abort, line: &str) -> Command {
    command_in(line).expect(rt, "a command")
}

/// The kernel's reply to the command of a line.
fn answer(rt: &impl Abort, kernel: &mut Kernel, line: &str) -> Reply {
    kernel.event(&Event::Command(command(rt, line)))
}

/// Makes the command of a line that was put together.
fn make(rt: &impl Abort, kernel: &mut Kernel, line: Result<String, AllocError>) {
    let line = line.expect(rt, "memory");
    answer(rt, kernel, line.as_str());
}

/// Makes an event, and compares the reply.
fn check_event(rt: &impl Abort, at: &str, kernel: &mut Kernel, event: Event, reply: Reply) {
    check_same_at(rt, &(at, &event), &kernel.event(&event), &reply);
}

/// Makes these events at once, at most ten, and compares the replies.
fn check_run(rt: &impl Abort, at: &str, kernel: &mut Kernel, events: &[Event], replies: &[Reply]) {
    let mut room = [Reply::List(Kind::Threads); 10];
    assert!(rt; events.len() <= 10);
    let out = &mut room[..events.len()];
    kernel.run(events, out);
    check_same_at(rt, &(at, events), &&*out, &replies);
}

/// A draw with this winner, and the end of its quantum.
fn check_turn(rt: &impl Abort, at: &str, kernel: &mut Kernel, d: u128, winner: Winner) {
    let (thread, _, _) = winner;
    let expired = Reply::Expired { thread, ticks: 100 };
    let events = [Event::Draw(1, d), Event::Expire(1)];
    check_run(rt, at, kernel, &events, &[winning(winner, None), expired]);
}

/// The target of a ticket from its text, `-` for none.
fn target_of(rt: &impl Abort, text: &str) -> Option<Name> {
    if text == "-" {
        return None;
    }
    Some(name(rt, text))
}

fn ticket_row(rt: &impl Abort, shown: TicketShown<'_>) -> TicketRow {
    let (_, amount, issuer, target, funds, is_active, value) = shown;
    let issuer = name(rt, issuer);
    let target = target_of(rt, target);
    TicketRow {
        amount,
        issuer,
        target,
        funds,
        is_active,
        value,
    }
}

/// Compares the row, and the one that a reader of the settled kernel gets.
fn check_ticket(
    rt: &impl Abort,
    at: &str,
    kernel: &mut Kernel,
    number: u32,
    row: Option<TicketRow>,
) {
    let number = TicketNumber { number };
    check_same_at(rt, &(at, number), &kernel.ticket_row(number), &row);
    check_same_at(rt, &(at, number), &kernel.settle().ticket_row(number), &row);
}

fn currency_row(rt: &impl Abort, shown: CurrencyShown<'_>) -> CurrencyRow {
    let (_, text, backing, issued, active_amount, value) = shown;
    CurrencyRow {
        name: name(rt, text),
        backing,
        issued,
        active_amount,
        value,
    }
}

/// Compares the row, and the one that a reader of the settled kernel gets.
fn check_currency(
    rt: &impl Abort,
    at: &str,
    kernel: &mut Kernel,
    number: u32,
    row: Option<CurrencyRow>,
) {
    let number = CurrencyNumber { number };
    check_same_at(rt, &(at, number), &kernel.currency_row(number), &row);
    check_same_at(
        rt,
        &(at, number),
        &kernel.settle().currency_row(number),
        &row,
    );
}

fn thread_row(rt: &impl Abort, shown: ThreadShown<'_>) -> ThreadRow {
    let (_, text, status, value, weight, quanta, ticks) = shown;
    ThreadRow {
        name: name(rt, text),
        status,
        value,
        weight,
        quanta,
        ticks,
    }
}

/// Compares the row, and the one that a reader of the settled kernel gets.
fn check_thread(
    rt: &impl Abort,
    at: &str,
    kernel: &mut Kernel,
    number: u32,
    row: Option<ThreadRow>,
) {
    let number = ThreadNumber { number };
    check_same_at(rt, &(at, number), &kernel.thread_row(number), &row);
    check_same_at(rt, &(at, number), &kernel.settle().thread_row(number), &row);
}

/// The value of the thread with this number.
fn value_of(kernel: &mut Kernel, number: u32) -> Option<u64> {
    match kernel.thread_row(ThreadNumber { number }) {
        Some(row) => Some(row.value),
        None => None,
    }
}

fn event_of(pause: Pause) -> Event {
    match pause {
        Pause::Expire(processor) => Event::Expire(processor),
        Pause::Trap(processor, ran, action) => Event::Trap(processor, ran, action),
        Pause::Preempt(processor, ticks) => Event::Preempt { processor, ticks },
        Pause::Overrun(processor, ticks) => Event::Overrun { processor, ticks },
        Pause::Wake(thread) => Event::Wake { thread },
    }
}

/// The event of a step and its expected reply, if the step is an event.
fn event_of_step(rt: &impl Abort, step: Step<'_>) -> Option<(Event, Reply)> {
    match step {
        Step::Gives(line, reply) => Some((Event::Command(command(rt, line)), reply)),
        Step::Funds(line, ticket, thread) => {
            let reply = Reply::Funded { ticket, thread };
            Some((Event::Command(command(rt, line)), reply))
        }
        Step::Wins(processor, d, winner, delivered) => {
            Some((Event::Draw(processor, d), winning(winner, delivered)))
        }
        Step::Idles(processor, d) => Some((Event::Draw(processor, d), Reply::Idle)),
        Step::Pauses(pause, reply) => Some((event_of(pause), reply)),
        Step::Expires(pause, thread, ticks) => {
            Some((event_of(pause), Reply::Expired { thread, ticks }))
        }
        _ => trap_of_step(step),
    }
}

/// The trap of a step and its expected reply, if the step is a trap.
fn trap_of_step(step: Step<'_>) -> Option<(Event, Reply)> {
    match step {
        Step::Traps(processor, action, thread, outcome) => {
            Some(trap_after(processor, 0, action, thread, outcome))
        }
        Step::Works(processor, ran, action, thread, outcome) => {
            Some(trap_after(processor, ran, action, thread, outcome))
        }
        Step::Refuses(processor, action, thread, refusal) => {
            let outcome = Outcome::Refused(refusal);
            Some(trap_after(processor, 0, action, thread, outcome))
        }
        Step::Receives(processor, port, thread, (client, number)) => {
            let outcome = Outcome::Received { client, number };
            Some(trap_after(processor, 0, Action::Receive(port), thread, outcome))
        }
        Step::Passes(processor, (mutex, d), thread, to, draw) => {
            let action = Action::Unlock(mutex, d);
            let outcome = Outcome::Passed { to, draw };
            Some(trap_after(processor, 0, action, thread, outcome))
        }
        _ => None,
    }
}

/// A trap after this many ticks of work, and the reply to this thread, whose quantum it doesn't end.
fn trap_after(
    processor: u32,
    ran: u32,
    action: Action,
    thread: u32,
    outcome: Outcome,
) -> (Event, Reply) {
    let event = Event::Trap(processor, ran, action);
    let reply = Reply::Trapped {
        thread,
        ticks: ran.saturating_add(1),
        outcome,
        ends: false,
    };
    (event, reply)
}

/// Takes a step of this scene.
fn take(rt: &impl Abort, at: &str, kernel: &mut Kernel, step: Step<'_>) {
    match event_of_step(rt, step) {
        Some((event, reply)) => check_event(rt, at, kernel, event, reply),
        None => check_shown(rt, at, kernel, step),
    }
}

/// Compares a row of the kernel.
fn check_shown(rt: &impl Abort, at: &str, kernel: &mut Kernel, step: Step<'_>) {
    match step {
        Step::Turns(d, winner) => check_turn(rt, at, kernel, d, winner),
        Step::Ticket(shown) => check_ticket(rt, at, kernel, shown.0, Some(ticket_row(rt, shown))),
        Step::Currency(shown) => {
            check_currency(rt, at, kernel, shown.0, Some(currency_row(rt, shown)))
        }
        Step::Thread(shown) => check_thread(rt, at, kernel, shown.0, Some(thread_row(rt, shown))),
        Step::NoTicket(number) => check_ticket(rt, at, kernel, number, None),
        Step::NoCurrency(number) => check_currency(rt, at, kernel, number, None),
        Step::NoThread(number) => check_thread(rt, at, kernel, number, None),
        _ => check_number(rt, at, kernel, step),
    }
}

/// The number, if there is one, with 64 bits.
fn wide(number: Option<u32>) -> Option<u64> {
    match number {
        Some(number) => Some(u64::from(number)),
        None => None,
    }
}

/// The number of a step's thread or mutex, and what the kernel has and should have of it.
fn number_of(kernel: &mut Kernel, step: Step<'_>) -> (u32, Option<u64>, Option<u64>) {
    match step {
        Step::Value(number, value) => (number, value_of(kernel, number), Some(value)),
        Step::Owner(number, owner) => {
            let found = kernel.owner(MutexNumber { number });
            (number, wide(found), wide(owner))
        }
        Step::Compensation(number, used) => {
            let found = kernel.compensation(ThreadNumber { number });
            (number, wide(found), wide(used))
        }
        Step::Script(number, script) => {
            let found = kernel.script_of(ThreadNumber { number });
            (number, wide(found), wide(script))
        }
        // `take` gives the others to the kernel.
        _ => (0, None, None),
    }
}

/// Compares a number of the kernel.
fn check_number(rt: &impl Abort, at: &str, kernel: &mut Kernel, step: Step<'_>) {
    let (number, found, wanted) = number_of(kernel, step);
    check_same_at(rt, &(at, number), &found, &wanted)
}

/// Takes the steps of this scene in turn.
fn take_all(rt: &impl Abort, at: &str, kernel: &mut Kernel, steps: &[Step<'_>]) {
    for step in steps {
        take(rt, at, kernel, *step);
    }
}

/// Plays a scene.
fn play(rt: &impl Abort, alloc: Global, (at, sizes, threads, parts): Scene<'_>) {
    let mut kernel = kernel_of(rt, alloc, sizes);
    fund(rt, alloc, &mut kernel, threads);
    for steps in parts {
        take_all(rt, at, &mut kernel, steps);
    }
}

fn play_all(rt: &impl Abort, alloc: Global, scenes: &[Scene<'_>]) {
    for scene in scenes {
        play(rt, alloc, *scene);
    }
}

/// A kernel of these sizes.
fn kernel_of(rt: &impl Abort, alloc: Global, sizes: Sizes) -> Kernel {
    let limits = Limits::new(sizes).expect(rt, "limits");
    Kernel::new(alloc, limits).expect(rt, "memory")
}

/// The reply to a draw with this winner, and the number delivered to the thread.
fn winning((thread, number, total): Winner, delivered: Option<u32>) -> Reply {
    Reply::Winner {
        thread,
        number,
        total,
        delivered,
    }
}

/// Makes threads of these names, funded with this much base, in order.
fn fund(rt: &impl Abort, alloc: Global, kernel: &mut Kernel, threads: &[(u64, &str)]) {
    for (amount, name) in threads {
        make(
            rt,
            kernel,
            format!(in alloc; "fundx {amount} base {name} 1"),
        );
    }
}

/// Makes this many threads with 1 of base each: `t1`, `t2` and so on.
fn make_threads(rt: &impl Abort, alloc: Global, kernel: &mut Kernel, count: u32) {
    for number in 1..=count {
        make(rt, kernel, format!(in alloc; "fundx 1 base t{number} 1"));
    }
}

/// Five threads with 10, 2, 5, 1 and 2 of base.
const FIVE: &[Step<'static>] = &[
    Step::Gives("mkthr a 1", Reply::Thread(1)),
    Step::Gives("mktkt 10 base", Reply::Ticket(1)),
    Step::Gives("fund 1 a", Reply::Done),
    Step::Gives("mkthr b 1", Reply::Thread(2)),
    Step::Gives("mktkt 2 base", Reply::Ticket(2)),
    Step::Gives("fund 2 b", Reply::Done),
    Step::Gives("mkthr c 1", Reply::Thread(3)),
    Step::Gives("mktkt 5 base", Reply::Ticket(3)),
    Step::Gives("fund 3 c", Reply::Done),
    Step::Gives("mkthr d 1", Reply::Thread(4)),
    Step::Gives("mktkt 1 base", Reply::Ticket(4)),
    Step::Gives("fund 4 d", Reply::Done),
    Step::Gives("mkthr e 1", Reply::Thread(5)),
    Step::Gives("mktkt 2 base", Reply::Ticket(5)),
    Step::Gives("fund 5 e", Reply::Done),
];

/// The same threads and tickets, made at once.
const FIVE_FUNDED: &[(u64, &str)] = &[(10, "a"), (2, "b"), (5, "c"), (1, "d"), (2, "e")];

/// Turns of the threads that win of 20.
const DRAWS: &[Step<'static>] = &[
    Step::Turns(15, (3, 15, 20)),
    Step::Turns(9, (1, 9, 20)),
    Step::Turns(10, (2, 10, 20)),
    Step::Turns(11, (2, 11, 20)),
    Step::Turns(12, (3, 12, 20)),
    Step::Turns(16, (3, 16, 20)),
    Step::Turns(17, (4, 17, 20)),
    Step::Turns(18, (5, 18, 20)),
    Step::Turns(19, (5, 19, 20)),
    Step::Turns(35, (3, 15, 20)),
    Step::Turns(36090892629924, (1, 4, 20)),
    Step::Turns(166439864623969647858139600294153, (3, 13, 20)),
    Step::Turns(u128::MAX, (3, 15, 20)),
];

const PAPERS_GRAPH: &[Step<'static>] = &[
    Step::Gives("mkcur alice", Reply::Currency(1)),
    Step::Gives("mkcur bob", Reply::Currency(2)),
    Step::Gives("mkcur task1", Reply::Currency(3)),
    Step::Gives("mkcur task2", Reply::Currency(4)),
    Step::Gives("mkcur task3", Reply::Currency(5)),
    Step::Gives("mktkt 1000 base", Reply::Ticket(1)),
    Step::Gives("fund 1 alice", Reply::Done),
    Step::Gives("mktkt 2000 base", Reply::Ticket(2)),
    Step::Gives("fund 2 bob", Reply::Done),
    Step::Gives("mktkt 100 alice", Reply::Ticket(3)),
    Step::Gives("fund 3 task1", Reply::Done),
    Step::Gives("mktkt 200 alice", Reply::Ticket(4)),
    Step::Gives("fund 4 task2", Reply::Done),
    Step::Gives("mktkt 100 bob", Reply::Ticket(5)),
    Step::Gives("fund 5 task3", Reply::Done),
    Step::Funds("fundx 200 task2 thread2 1", 6, 1),
    Step::Funds("fundx 300 task2 thread3 1", 7, 2),
    Step::Funds("fundx 100 task3 thread4 1", 8, 3),
    Step::Gives("lscur", Reply::List(Kind::Currencies)),
    Step::Gives("lstkt", Reply::List(Kind::Tickets)),
    Step::Gives("lsthr", Reply::List(Kind::Threads)),
    Step::Currency((0, "base", 0, 2, 3000, 3000)),
    Step::Currency((1, "alice", 1, 2, 200, 1000)),
    Step::Currency((2, "bob", 1, 1, 100, 2000)),
    Step::Currency((3, "task1", 1, 0, 0, 0)),
    Step::Currency((4, "task2", 1, 2, 500, 1000)),
    Step::Currency((5, "task3", 1, 1, 100, 2000)),
    Step::Ticket((1, 1000, "base", "alice", Target::Currency(1), true, 1000)),
    Step::Ticket((2, 2000, "base", "bob", Target::Currency(2), true, 2000)),
    Step::Ticket((3, 100, "alice", "task1", Target::Currency(3), false, 0)),
    Step::Ticket((4, 200, "alice", "task2", Target::Currency(4), true, 1000)),
    Step::Ticket((5, 100, "bob", "task3", Target::Currency(5), true, 2000)),
    Step::Ticket((6, 200, "task2", "thread2", Target::Thread(1), true, 400)),
    Step::Ticket((7, 300, "task2", "thread3", Target::Thread(2), true, 600)),
    Step::Ticket((8, 100, "task3", "thread4", Target::Thread(3), true, 2000)),
    Step::Thread((1, "thread2", Status::Ready, 400, 400, 0, 0)),
    Step::Thread((2, "thread3", Status::Ready, 600, 600, 0, 0)),
    Step::Thread((3, "thread4", Status::Ready, 2000, 2000, 0, 0)),
];

const ROWS_OF_NOTHING: &[Step<'static>] = &[
    Step::Gives("mkcur g", Reply::Currency(1)),
    Step::Gives("mktkt 1 base", Reply::Ticket(1)),
    Step::Gives("mktkt 1 base", Reply::Ticket(2)),
    Step::Gives("mkthr a 1", Reply::Thread(1)),
    Step::Gives("rmtkt 1", Reply::Done),
    Step::Gives("rmcur g", Reply::Done),
    Step::NoTicket(0),
    Step::NoTicket(1),
    Step::NoTicket(3),
    Step::NoTicket(u32::MAX),
    Step::NoCurrency(1),
    Step::NoCurrency(2),
    Step::NoCurrency(u32::MAX),
    Step::NoThread(0),
    Step::NoThread(2),
    Step::NoThread(u32::MAX),
    Step::Ticket((2, 1, "base", "-", Target::Unfunded, false, 0)),
    Step::Thread((1, "a", Status::Ready, 0, 0, 0, 0)),
];

/// Three threads share a currency of 100.
const THIRDS: &[Step<'static>] = &[
    Step::Gives("mkcur g", Reply::Currency(1)),
    Step::Gives("mktkt 100 base", Reply::Ticket(1)),
    Step::Gives("fund 1 g", Reply::Done),
    Step::Funds("fundx 1 g a 1", 2, 1),
    Step::Funds("fundx 1 g b 1", 3, 2),
    Step::Funds("fundx 1 g c 1", 4, 3),
    Step::Value(1, 33),
    Step::Value(2, 33),
    Step::Value(3, 33),
    Step::Wins(1, 99, (1, 0, 99), None),
];

/// Two threads share a currency of 200 as 2 to 1.
const TWO_TO_ONE: &[Step<'static>] = &[
    Step::Gives("mkcur g", Reply::Currency(1)),
    Step::Gives("mktkt 200 base", Reply::Ticket(1)),
    Step::Gives("fund 1 g", Reply::Done),
    Step::Funds("fundx 2 g a 1", 2, 1),
    Step::Funds("fundx 1 g b 1", 3, 2),
    Step::Value(1, 133),
    Step::Value(2, 66),
    Step::Wins(1, 132, (1, 132, 199), None),
];

/// Three threads share a currency of 100 in the finer unit.
const FINER_THIRDS: &[Step<'static>] = &[
    Step::Gives("mkcur g", Reply::Currency(1)),
    Step::Gives("mktkt 100 base", Reply::Ticket(1)),
    Step::Gives("fund 1 g", Reply::Done),
    Step::Funds("fundx 1 g a 1", 2, 1),
    Step::Funds("fundx 1 g b 1", 3, 2),
    Step::Funds("fundx 1 g c 1", 4, 3),
    Step::Value(1, 8533),
    Step::Value(2, 8533),
    Step::Value(3, 8533),
    Step::Wins(1, 25598, (3, 25598, 25599), None),
];

/// Two threads share a currency of 1 in the finer unit.
const FINER_HALVES: &[Step<'static>] = &[
    Step::Gives("mkcur g", Reply::Currency(1)),
    Step::Gives("mktkt 1 base", Reply::Ticket(1)),
    Step::Gives("fund 1 g", Reply::Done),
    Step::Funds("fundx 1 g a 1", 2, 1),
    Step::Funds("fundx 1 g b 1", 3, 2),
    Step::Value(1, 128),
    Step::Value(2, 128),
    Step::Wins(1, 128, (2, 128, 256), None),
];

/// Two threads share a currency of 1: each is worth nothing.
const NOTHING: &[Step<'static>] = &[
    Step::Gives("mkcur g", Reply::Currency(1)),
    Step::Gives("mktkt 1 base", Reply::Ticket(1)),
    Step::Gives("fund 1 g", Reply::Done),
    Step::Funds("fundx 1 g a 1", 2, 1),
    Step::Funds("fundx 1 g b 1", 3, 2),
    Step::Value(1, 0),
    Step::Value(2, 0),
    Step::Idles(1, 0),
    Step::Idles(1, 1),
    Step::Idles(1, u128::MAX),
    Step::Funds("fundx 1 base c 1", 4, 3),
    Step::Wins(1, 0, (3, 0, 1), None),
];

const TWO_LEVELS: &[Step<'static>] = &[
    Step::Gives("mkcur g", Reply::Currency(1)),
    Step::Gives("mkcur h", Reply::Currency(2)),
    Step::Gives("mktkt 100 base", Reply::Ticket(1)),
    Step::Gives("fund 1 g", Reply::Done),
    Step::Gives("mktkt 1 g", Reply::Ticket(2)),
    Step::Gives("fund 2 h", Reply::Done),
    Step::Funds("fundx 1 h a 1", 3, 1),
    Step::Funds("fundx 1 g b 1", 4, 2),
    Step::Value(1, 50),
    Step::Value(2, 50),
];

/// The lower thread wins a draw, and exits.
const LOWER_EXITS: &[Step<'static>] = &[
    Step::Wins(1, 0, (1, 0, 100), None),
    Step::Traps(1, Action::Exit, 1, Outcome::Exited),
];

/// The state after the lower thread has exited.
const ONE_LEVEL: &[Step<'static>] = &[
    Step::Gives("fund 4 a", Reply::Refused(Refusal::DeadThread)),
    Step::Wins(1, 99, (2, 99, 100), None),
    Step::Currency((0, "base", 0, 1, 100, 100)),
    Step::Currency((1, "g", 1, 2, 1, 100)),
    Step::Currency((2, "h", 1, 1, 0, 0)),
    Step::Ticket((2, 1, "g", "h", Target::Currency(2), false, 0)),
    Step::Ticket((3, 1, "h", "a", Target::Thread(1), false, 0)),
    Step::Thread((1, "a", Status::Dead, 0, 0, 1, 1)),
    Step::Thread((2, "b", STARTED, 100, 100, 1, 0)),
];

/// On processor 1, with no ticks used.
const STARTED: Status = Status::Running {
    processor: 1,
    used: 0,
};

const CYCLES: &[Step<'static>] = &[
    Step::Gives("mkcur a", Reply::Currency(1)),
    Step::Gives("mkcur b", Reply::Currency(2)),
    Step::Gives("mkcur c", Reply::Currency(3)),
    Step::Gives("mkcur d", Reply::Currency(4)),
    Step::Gives("mktkt 1 a", Reply::Ticket(1)),
    Step::Gives("fund 1 a", Reply::Refused(Refusal::Cycle)),
    Step::Gives("fund 1 b", Reply::Done),
    Step::Gives("mktkt 1 b", Reply::Ticket(2)),
    Step::Gives("fund 2 c", Reply::Done),
    Step::Gives("mktkt 1 c", Reply::Ticket(3)),
    Step::Gives("fund 3 a", Reply::Refused(Refusal::Cycle)),
    Step::Gives("mktkt 1 a", Reply::Ticket(4)),
    Step::Gives("fund 4 c", Reply::Done),
    Step::Gives("fund 3 d", Reply::Done),
    Step::Gives("mktkt 1 b", Reply::Ticket(5)),
    Step::Gives("fund 5 d", Reply::Done),
];

const REMOVAL: &[Step<'static>] = &[
    Step::Gives("mkcur g", Reply::Currency(1)),
    Step::Gives("mktkt 5 g", Reply::Ticket(1)),
    Step::Gives("rmcur g", Reply::Refused(Refusal::InUse)),
    Step::Gives("mkthr a 1", Reply::Thread(1)),
    Step::Gives("fund 1 a", Reply::Done),
    Step::Gives("rmtkt 1", Reply::Refused(Refusal::Funding)),
    Step::Gives("unfund 1", Reply::Done),
    Step::Gives("rmtkt 1", Reply::Done),
    Step::Gives("rmcur g", Reply::Done),
    Step::Gives("unfund 1", Reply::Refused(Refusal::NoTicket)),
    Step::Gives("mktkt 5 base", Reply::Ticket(2)),
    Step::Gives("mkcur g", Reply::Currency(2)),
    Step::Gives("rmcur base", Reply::Refused(Refusal::BaseFixed)),
];

const FIRST_FUNDED: Reply = Reply::Funded {
    ticket: 1,
    thread: 1,
};

const TWO_TICKETS: &[Step<'static>] = &[
    Step::Gives("mktkt 1 base", Reply::Ticket(1)),
    Step::Gives("rmtkt 1", Reply::Done),
    Step::Gives("mktkt 1 base", Reply::Ticket(2)),
    Step::Gives("mktkt 1 base", Reply::Refused(Refusal::Full)),
];

const ONE_TICKET: &[Step<'static>] = &[
    Step::Gives("fundx 1 base a 1", FIRST_FUNDED),
    Step::Gives("fundx 1 base b 1", Reply::Refused(Refusal::Full)),
    Step::Gives("mkthr b 1", Reply::Thread(2)),
    Step::Gives("mkthr c 1", Reply::Refused(Refusal::Full)),
];

const ONE_THREAD: &[Step<'static>] = &[
    Step::Gives("fundx 1 base a 1", FIRST_FUNDED),
    Step::Gives("fundx 1 base b 1", Reply::Refused(Refusal::Full)),
    Step::Gives("mktkt 1 base", Reply::Ticket(2)),
];

const TWO_CURRENCIES: &[Step<'static>] = &[
    Step::Gives("mkcur a", Reply::Currency(1)),
    Step::Gives("rmcur a", Reply::Done),
    Step::Gives("mkcur b", Reply::Currency(2)),
    Step::Gives("mkcur c", Reply::Refused(Refusal::Full)),
];

/// Two tickets, one currency and one thread.
const SMALL: Sizes = Sizes {
    tickets: 2,
    currencies: 1,
    threads: 1,
    scripts: 1,
    quantum: 100,
    ..Sizes::SMALLEST
};

/// In each line the reply names the first check that fails, even if later ones would fail too.
const REFUSED: &[Step<'static>] = &[
    Step::Gives("mktkt 0 no", Reply::Refused(Refusal::BadAmount)),
    Step::Gives("mktkt 4294967296 no", Reply::Refused(Refusal::BadAmount)),
    Step::Gives("mktkt 1 no", Reply::Refused(Refusal::NoCurrency)),
    Step::Gives("rmtkt 1", Reply::Refused(Refusal::NoTicket)),
    Step::Gives("unfund 1", Reply::Refused(Refusal::NoTicket)),
    Step::Gives("mkcur Bad", Reply::Refused(Refusal::BadName)),
    Step::Gives("mkcur base", Reply::Refused(Refusal::NameTaken)),
    Step::Gives("mkcur g", Reply::Currency(1)),
    Step::Gives("mkcur g", Reply::Refused(Refusal::NameTaken)),
    Step::Gives("mkcur h", Reply::Refused(Refusal::Full)),
    Step::Gives("rmcur no", Reply::Refused(Refusal::NoCurrency)),
    Step::Gives("rmcur base", Reply::Refused(Refusal::BaseFixed)),
    Step::Gives("mktkt 4294967295 g", Reply::Ticket(1)),
    Step::Gives("rmcur g", Reply::Refused(Refusal::InUse)),
    Step::Gives("mkthr A 0", Reply::Refused(Refusal::BadName)),
    Step::Gives("mkthr g 0", Reply::Refused(Refusal::NameTaken)),
    Step::Gives("mkthr a 0", Reply::Refused(Refusal::NoScript)),
    Step::Gives("mkthr a 2", Reply::Refused(Refusal::NoScript)),
    Step::Gives("mkthr a 1", Reply::Thread(1)),
    Step::Gives("mkthr a 1", Reply::Refused(Refusal::NameTaken)),
    Step::Gives("mkthr b 1", Reply::Refused(Refusal::Full)),
    Step::Gives("fund 9 no", Reply::Refused(Refusal::NoTicket)),
    Step::Gives("fund 1 no", Reply::Refused(Refusal::NoTarget)),
    Step::Gives("fund 1 base", Reply::Refused(Refusal::BaseFixed)),
    Step::Gives("fund 1 g", Reply::Refused(Refusal::Cycle)),
    Step::Gives("unfund 1", Reply::Refused(Refusal::NotFunding)),
    Step::Gives("fund 1 a", Reply::Done),
    Step::Gives("fund 1 g", Reply::Refused(Refusal::Funding)),
    Step::Gives("rmtkt 1", Reply::Refused(Refusal::Funding)),
    Step::Gives("fundx 0 no Bad 0", Reply::Refused(Refusal::BadAmount)),
    Step::Gives("fundx 1 no Bad 0", Reply::Refused(Refusal::NoCurrency)),
    Step::Gives("fundx 1 g Bad 0", Reply::Refused(Refusal::BadName)),
    Step::Gives("fundx 1 g a 0", Reply::Refused(Refusal::NameTaken)),
    Step::Gives("fundx 1 g b 0", Reply::Refused(Refusal::NoScript)),
    Step::Gives("fundx 1 g b 1", Reply::Refused(Refusal::Full)),
    Step::Gives("mktkt 1 base", Reply::Ticket(2)),
    Step::Gives("mktkt 1 base", Reply::Refused(Refusal::Full)),
    Step::Gives("fund 2 g", Reply::Done),
    Step::Gives("unfund 1", Reply::Done),
    Step::Gives("rmtkt 1", Reply::Done),
    Step::Gives("rmcur g", Reply::Refused(Refusal::InUse)),
];

const LOTTERY_SCENES: &[Scene<'static>] = &[
    ("list lottery", LARGEST, &[], &[FIVE, DRAWS]),
    ("list lottery by fundx", LARGEST, FIVE_FUNDED, &[DRAWS]),
    ("the paper's graph", LARGEST, &[], &[PAPERS_GRAPH]),
    ("rows of nothing", LARGEST, &[], &[ROWS_OF_NOTHING]),
];

#[test]
fn lotteries(rt: HostRuntime) {
    play_all(&rt, rt.alloc(), LOTTERY_SCENES)
}

const ROUNDED_SCENES: &[Scene<'static>] = &[
    ("rounded thirds", LARGEST, &[], &[THIRDS]),
    ("rounded shares", LARGEST, &[], &[TWO_TO_ONE]),
    ("thirds of a finer unit", FINER, &[], &[FINER_THIRDS]),
    ("halves of a finer unit", FINER, &[], &[FINER_HALVES]),
    ("rounded to nothing", LARGEST, &[], &[NOTHING]),
];

#[test]
fn rounded_values(rt: HostRuntime) {
    play_all(&rt, rt.alloc(), ROUNDED_SCENES)
}

const GRAPH_SCENES: &[Scene<'static>] = &[
    (
        "two levels",
        LARGEST,
        &[],
        &[TWO_LEVELS, LOWER_EXITS, ONE_LEVEL],
    ),
    ("cycles", LARGEST, &[], &[CYCLES]),
    ("removal in order", LARGEST, &[], &[REMOVAL]),
];

#[test]
fn graphs(rt: HostRuntime) {
    play_all(&rt, rt.alloc(), GRAPH_SCENES)
}

const SMALL_SCENES: &[Scene<'static>] = &[
    ("two tickets", SMALL, &[], &[TWO_TICKETS]),
    (
        "one ticket",
        Sizes {
            tickets: 1,
            threads: 2,
            ..SMALL
        },
        &[],
        &[ONE_TICKET],
    ),
    ("one thread", SMALL, &[], &[ONE_THREAD]),
    (
        "two currencies",
        Sizes {
            tickets: 1,
            currencies: 2,
            ..SMALL
        },
        &[],
        &[TWO_CURRENCIES],
    ),
    ("refused commands", SMALL, &[], &[REFUSED]),
];

#[test]
fn small_tables(rt: HostRuntime) {
    play_all(&rt, rt.alloc(), SMALL_SCENES)
}

const ONE_FUNDED: &[Step<'static>] = &[
    Step::Gives("mkthr a 1", Reply::Thread(1)),
    Step::Gives("mktkt 10 base", Reply::Ticket(1)),
    Step::Gives("fund 1 a", Reply::Done),
    Step::Gives("mktkt 10 base", Reply::Ticket(2)),
];

/// Events while no thread runs: the processor is checked first, then whether a thread runs there, then the ticks.
const NO_THREAD_RUNS: &[Step<'static>] = &[
    Step::Pauses(Pause::Expire(0), Reply::Refused(Refusal::BadProcessor)),
    Step::Pauses(Pause::Expire(3), Reply::Refused(Refusal::BadProcessor)),
    Step::Pauses(
        Pause::Trap(0, 0, Action::Yield),
        Reply::Refused(Refusal::BadProcessor),
    ),
    Step::Pauses(
        Pause::Trap(3, 100, Action::Exit),
        Reply::Refused(Refusal::BadProcessor),
    ),
    Step::Pauses(Pause::Expire(1), Reply::Refused(Refusal::NotRunning)),
    Step::Pauses(
        Pause::Trap(1, 0, Action::Exit),
        Reply::Refused(Refusal::NotRunning),
    ),
    Step::Pauses(
        Pause::Trap(2, 100, Action::Receive(3)),
        Reply::Refused(Refusal::NotRunning),
    ),
];

const OUT_OF_PLACE: [Event; 10] = [
    Event::Draw(3, 0),
    Event::Draw(0, 0),
    Event::Expire(2),
    Event::Draw(1, 0),
    Event::Draw(1, 0),
    Event::Draw(2, 0),
    Event::Trap(1, 100, Action::Exit),
    Event::Trap(1, u32::MAX, Action::Exit),
    Event::Trap(1, 99, Action::Exit),
    Event::Draw(1, 0),
];

/// Makes the events out of place, and compares the replies.
fn run_out_of_place(rt: &impl Abort, kernel: &mut Kernel) {
    let replies = [
        Reply::Refused(Refusal::BadProcessor),
        Reply::Refused(Refusal::BadProcessor),
        Reply::Refused(Refusal::NotRunning),
        winning((1, 0, 10), None),
        Reply::Refused(Refusal::Busy),
        Reply::Idle,
        Reply::Refused(Refusal::BadTicks),
        Reply::Refused(Refusal::BadTicks),
        Reply::Trapped {
            thread: 1,
            ticks: 100,
            outcome: Outcome::Exited,
            ends: false,
        },
        Reply::Idle,
    ];
    check_run(rt, "out of place", kernel, &OUT_OF_PLACE, &replies)
}

const DEAD: &[Step<'static>] = &[Step::Gives("fund 2 a", Reply::Refused(Refusal::DeadThread))];

#[test]
fn events_out_of_place(rt: HostRuntime) {
    let mut kernel = kernel_of(&rt, rt.alloc(), LARGEST);
    take_all(&rt, "one funded", &mut kernel, ONE_FUNDED);
    take_all(&rt, "no thread runs", &mut kernel, NO_THREAD_RUNS);
    run_out_of_place(&rt, &mut kernel);
    take_all(&rt, "dead", &mut kernel, DEAD)
}

/// Gives one thread as many tickets as possible, of the largest amount.
fn fund_fully(rt: &impl Abort, alloc: Global, kernel: &mut Kernel) {
    answer(rt, kernel, "mkthr a 1");
    for ticket in 1..=65535 {
        answer(rt, kernel, "mktkt 4294967295 base");
        make(rt, kernel, format!(in alloc; "fund {ticket} a"));
    }
}

const NO_MORE_TICKETS: &[Step<'static>] = &[
    Step::Gives("mktkt 1 base", Reply::Refused(Refusal::Full)),
    Step::Gives("mktkt 0 base", Reply::Refused(Refusal::BadAmount)),
    Step::Gives("mktkt 4294967296 base", Reply::Refused(Refusal::BadAmount)),
];

/// The largest totals: of the unit, of the finer unit, and with the largest compensation.
const TOTALS: &[(Sizes, &[Step<'static>])] = &[
    (LARGEST, &[Step::Wins(1, 7, (1, 7, 281470681677825), None)]),
    (FINER, &[Step::Wins(1, 7, (1, 7, 72056494509523200), None)]),
    (
        Sizes {
            quantum: 1000,
            ..FINER
        },
        &[
            Step::Wins(1, 0, (1, 0, 72056494509523200), None),
            Step::Traps(1, Action::Yield, 1, Outcome::Yielded),
            Step::Wins(
                1,
                18446744073709551615,
                (1, 18446744073709551615, 72056494509523200000),
                None,
            ),
        ],
    ),
];

/// As many tickets as possible, of the largest amount, and the steps after them.
fn check_total(rt: &impl Abort, alloc: Global, sizes: Sizes, steps: &[Step<'_>]) {
    let mut kernel = kernel_of(rt, alloc, sizes);
    fund_fully(rt, alloc, &mut kernel);
    take_all(rt, "no more tickets", &mut kernel, NO_MORE_TICKETS);
    take_all(rt, "largest total", &mut kernel, steps)
}

#[test]
fn largest_totals(rt: HostRuntime) {
    for (sizes, steps) in TOTALS {
        check_total(&rt, rt.alloc(), *sizes, steps);
    }
}

/// Makes 64 currencies: `c1`, `c2` and so on.
fn make_currencies(rt: &impl Abort, alloc: Global, kernel: &mut Kernel) {
    for number in 1..=64 {
        make(rt, kernel, format!(in alloc; "mkcur c{number}"));
    }
}

/// From the last currency on, two tickets of each fund the next.
fn link_all(rt: &impl Abort, alloc: Global, kernel: &mut Kernel) {
    for ticket in 2..=127 {
        let issuer = 64 - ticket / 2;
        make(rt, kernel, format!(in alloc; "mktkt 1 c{issuer}"));
        let next = issuer + 1;
        make(rt, kernel, format!(in alloc; "fund {ticket} c{next}"));
    }
}

/// The last currency funds a thread, and base the first with 7.
const CHAIN_FUNDED: &[Step<'static>] = &[
    Step::Gives("mktkt 7 base", Reply::Ticket(128)),
    Step::Gives("fund 128 c1", Reply::Done),
];

const DIAMONDS: &[Step<'static>] = &[
    Step::Gives("mktkt 1 c64", Reply::Ticket(129)),
    Step::Gives("fund 129 c1", Reply::Refused(Refusal::Cycle)),
    Step::Currency((1, "c1", 1, 2, 2, 7)),
    Step::Currency((64, "c64", 2, 2, 1, 6)),
    Step::Wins(1, 5, (1, 5, 6), None),
];

#[test]
fn chain_of_diamonds(rt: HostRuntime) {
    let alloc = rt.alloc();
    let mut kernel = kernel_of(&rt, alloc, LARGEST);
    make_currencies(&rt, alloc, &mut kernel);
    answer(&rt, &mut kernel, "fundx 1 c64 a 1");
    link_all(&rt, alloc, &mut kernel);
    take_all(&rt, "chain", &mut kernel, CHAIN_FUNDED);
    take_all(&rt, "diamonds", &mut kernel, DIAMONDS)
}

fn check_unit(rt: &impl Abort, alloc: Global, sizes: Sizes, unit: u32) {
    let kernel = kernel_of(rt, alloc, sizes);
    check_same(rt, &(kernel.unit(), kernel.limits().unit), &(unit, unit));
}

#[test]
fn units(rt: HostRuntime) {
    check_unit(&rt, rt.alloc(), LARGEST, 1);
    check_unit(&rt, rt.alloc(), FINER, 256)
}
