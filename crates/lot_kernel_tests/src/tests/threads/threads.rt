//! Threads of small graphs and of large ones: their changes, values and draws, and the edges that these read.
ghost use Rattle.std.specs.Prelude.{◌<◌};
ghost use Rattle.lot_graph.specs.Graphs.{IsNode, IsNodeOf};

use super::helpers::{Won, check_live, fund, is_won, put_target, threads_of};
use crate::tests::nodes::is_node;
use crate::tests::same::{check_same, check_step};
use lot_draw::Winner;
use lot_graph::Graph;
use lot_machine::{
    CurrencyNumber, Name, Node, Processor, Record, Sizes, Status, Target, Thread, ThreadNumber,
    Ticket, TicketNumber,
};
use lot_threads::Threads;
use lot_value::GraphChange;
use std::alloc::Global;
use std::process::Abort;

/// A step of a scene: a change, or a query and its expected result.
#[derive(Clone, Copy)]
enum Step {
    AddThread,
    /// New threads that sleep, this many.
    Sleepers(u32),
    MakeCurrency,
    RemoveCurrency(u32),
    /// A new ticket of this amount and currency, which funds the target.
    Fund(u32, u32, Target),
    /// A ticket without a target funds this one.
    Target(u32, Target),
    Unfund(u32),
    Amount(u32, u32),
    Destroy(u32),
    /// A thread's status and compensation from now on.
    Change(u32, Status, Option<u32>),
    Wake(u32),
    Sleep(u32),
    End(u32),
    /// A thread may not have this status.
    Refuses(u32, Status),
    /// A thread becomes the owner of a mutex.
    Take(u32, u32),
    GiveUp(u32),
    /// A mutex moves from one thread to another.
    Move(u32, u32, u32),
    /// A drawn number, and the winner.
    Wins(u128, Won),
    /// A drawn number, the winner, the edges that the draw reads, and the most places that it visits.
    Reads(u128, Won, u64, u64),
    /// A drawn number that nobody wins.
    Idles(u128),
    /// A drawn number that nobody wins, and the draw reads and visits nothing.
    Unread(u128),
    /// The thread on a processor, and the ticks used there.
    Runs(u32, Option<(u32, u32)>),
    /// The edges that settling reads.
    Settles(u64),
    /// The value of a node after settling.
    Worth(Node, u64),
    /// A node is stale.
    Stale(Node),
    /// A ticket's value, which takes one read.
    TicketWorth(u32, u64),
    /// The active amount of a currency.
    Active(u32, u64),
}

/// Ends the test unless the graph has this node.
fn check_node(rt: &impl Abort, graph: &Graph, node: Node)
    ensures within { IsNodeOf graph.now node }
    ensures there { IsNode graph.now.funding node }
{
    assert!(rt; is_node(graph, node));
}

fn add_thread(rt: &impl Abort, threads: &mut Threads) {
    let made = threads.records().len();
    assert!(rt; made < threads.graph().layout().threads as usize);
    let name = Name::new("thread").expect(rt, "a name");
    let thread = threads.add_thread(Thread { name, script: 1 });
    let found = (thread.number as usize, threads.threads().len());
    check_same(rt, &found, &(made + 1, made + 1));
}

fn add_sleepers(rt: &impl Abort, threads: &mut Threads, count: u32) {
    for thread in 1..=count {
        add_thread(rt, threads);
        change(rt, threads, thread, Status::Asleep, None);
    }
}

fn make_currency(rt: &impl Abort, threads: &mut Threads) {
    let graph = threads.graph();
    assert!(rt; graph.currency_count() <= graph.layout().currencies);
    threads.apply(GraphChange::NewCurrency);
}

fn remove_currency(rt: &impl Abort, threads: &mut Threads, currency: u32) {
    let graph = threads.graph();
    assert!(rt; 0 < currency && graph.is_currency(currency));
    assert!(rt; graph.is_unused(currency));
    threads.apply(GraphChange::DropCurrency(currency));
}

/// Clears a ticket's target.
fn unfund(rt: &impl Abort, threads: &mut Threads, ticket: u32) {
    let found = threads.graph().ticket(ticket).expect(rt, "a ticket");
    assert!(rt; found.target != Target::Unfunded);
    let unfunded = Ticket {
        target: Target::Unfunded,
        ..found
    };
    threads.apply(GraphChange::PutTicket(ticket, unfunded));
}

fn set_amount(rt: &impl Abort, threads: &mut Threads, ticket: u32, amount: u32) {
    let _before = threads.graph().ticket(ticket).expect(rt, "a ticket");
    assert!(rt; 0 < amount);
    threads.apply(GraphChange::SetAmount(ticket, amount));
}

fn destroy(rt: &impl Abort, threads: &mut Threads, ticket: u32) {
    assert!(rt; threads.graph().is_unfunded(ticket));
    threads.apply(GraphChange::DropTicket(ticket));
}

/// The thread's record, with another status and compensation.
fn record_with(
    rt: &impl Abort,
    threads: &Threads,
    thread: ThreadNumber,
    status: Status,
    compensation: Option<u32>,
) -> Record {
    let before = threads.record(thread).expect(rt, "a thread");
    Record {
        status,
        compensation,
        ..before
    }
}

fn change(
    rt: &impl Abort,
    threads: &mut Threads,
    thread: u32,
    status: Status,
    compensation: Option<u32>,
) {
    let thread = ThreadNumber { number: thread };
    let next = record_with(rt, threads, thread, status, compensation);
    assert!(rt; threads.can_change(thread, next), "{thread:?} can't change");
    threads.change(thread, next);
    assert!(rt; threads.record(thread) == Some(next));
}

fn end(rt: &impl Abort, threads: &mut Threads, number: u32) {
    assert!(rt; 0 < number && number as usize <= threads.records().len());
    let thread = ThreadNumber { number };
    let ended = record_with(rt, threads, thread, Status::Dead, None);
    threads.end(thread);
    assert!(rt; threads.record(thread) == Some(ended));
}

fn take(rt: &impl Abort, threads: &mut Threads, mutex: u32, owner: u32) {
    let graph = threads.graph();
    check_node(rt, graph, Node::Mutex(mutex));
    assert!(rt; graph.owner(mutex).is_none());
    check_node(rt, graph, Node::Thread(owner));
    assert!(rt; !threads.reaches(Node::Thread(owner), Node::Mutex(mutex)));
    threads.apply(GraphChange::PutOwner(mutex, Some(owner)));
}

fn give_up(rt: &impl Abort, threads: &mut Threads, mutex: u32) {
    check_node(rt, threads.graph(), Node::Mutex(mutex));
    threads.apply(GraphChange::PutOwner(mutex, None));
}

fn move_mutex(rt: &impl Abort, threads: &mut Threads, mutex: u32, owner: u32, next: u32) {
    let graph = threads.graph();
    check_node(rt, graph, Node::Mutex(mutex));
    check_node(rt, graph, Node::Thread(next));
    assert!(rt; owner != next && graph.owner(mutex) == Some(owner));
    check_live(rt, threads, ThreadNumber { number: owner });
    check_live(rt, threads, ThreadNumber { number: next });
    assert!(rt; !threads.reaches(Node::Thread(next), Node::Mutex(mutex)));
    threads.apply(GraphChange::MoveOwner { mutex, owner, next });
}

/// A draw, the edges that it read, and the places that it visited.
fn draw(threads: &mut Threads, d: u128) -> (Option<Winner>, u64, u64) {
    let before = threads.meter();
    let winner = threads.draw(d);
    let after = threads.meter();
    (
        winner,
        after.ticket_reads.saturating_sub(before.ticket_reads),
        after.tree_visits.saturating_sub(before.tree_visits),
    )
}

/// The number of edges that settling reads.
fn settle(threads: &mut Threads) -> u64 {
    let before = threads.meter().ticket_reads;
    threads.settle();
    threads.meter().ticket_reads.saturating_sub(before)
}

/// The value of the node after settling.
fn worth(rt: &impl Abort, threads: &mut Threads, node: Node) -> u64 {
    threads.settle();
    check_node(rt, threads.graph(), node);
    assert!(rt; !threads.is_stale(node));
    threads.value_of(node)
}

fn active(rt: &impl Abort, threads: &Threads, currency: u32) -> u64 {
    assert!(rt; threads.graph().is_currency(currency));
    threads.active_amount(CurrencyNumber { number: currency })
}

fn is_stale(rt: &impl Abort, threads: &Threads, node: Node) -> bool {
    check_node(rt, threads.graph(), node);
    threads.is_stale(node)
}

/// Whether a ticket's issuer isn't stale, and one read gives this value of the ticket.
fn is_ticket_worth(threads: &mut Threads, number: u32, value: u64) -> bool {
    let Some(ticket) = threads.graph().ticket(number) else {
        return false;
    };
    if ticket.issuer > threads.graph().layout().currencies {
        return false;
    }
    if threads.is_stale(Node::Currency(ticket.issuer)) {
        return false;
    }
    let before = threads.meter().ticket_reads;
    let found = threads.ticket_value(TicketNumber { number });
    found == value && threads.meter().ticket_reads.saturating_sub(before) == 1
}

/// Makes a change of currencies or tickets.
fn change_funding(rt: &impl Abort, threads: &mut Threads, step: Step) {
    match step {
        Step::MakeCurrency => make_currency(rt, threads),
        Step::RemoveCurrency(currency) => remove_currency(rt, threads, currency),
        Step::Fund(amount, currency, target) => fund(rt, threads, amount, currency, target),
        Step::Target(ticket, target) => put_target(rt, threads, ticket, target),
        Step::Unfund(ticket) => unfund(rt, threads, ticket),
        Step::Amount(ticket, amount) => set_amount(rt, threads, ticket, amount),
        Step::Destroy(ticket) => destroy(rt, threads, ticket),
        _ => {}
    }
}

/// Makes a change of a thread.
fn change_thread(rt: &impl Abort, threads: &mut Threads, step: Step) {
    match step {
        Step::AddThread => add_thread(rt, threads),
        Step::Sleepers(count) => add_sleepers(rt, threads, count),
        Step::Change(thread, status, used) => change(rt, threads, thread, status, used),
        Step::Wake(thread) => change(rt, threads, thread, Status::Ready, None),
        Step::Sleep(thread) => change(rt, threads, thread, Status::Asleep, None),
        Step::End(thread) => end(rt, threads, thread),
        Step::Take(mutex, owner) => take(rt, threads, mutex, owner),
        Step::GiveUp(mutex) => give_up(rt, threads, mutex),
        Step::Move(mutex, owner, next) => move_mutex(rt, threads, mutex, owner, next),
        _ => change_funding(rt, threads, step),
    }
}

/// Whether the thread can't change to this status.
fn refuses(rt: &impl Abort, threads: &mut Threads, thread: u32, status: Status) -> bool {
    let thread = ThreadNumber { number: thread };
    let next = record_with(rt, threads, thread, status, None);
    !threads.can_change(thread, next)
}

/// Whether this thread wins, after this many edges were read, and one to this many places visited.
fn wins(threads: &mut Threads, d: u128, won: Won, reads: u64, most: u64) -> bool {
    let (winner, read, visits) = draw(threads, d);
    is_won(winner, won) && read == reads && 1 <= visits && visits <= most
}

/// Whether nobody wins, and nothing was read or visited.
fn is_unread(threads: &mut Threads, d: u128) -> bool {
    let (winner, read, visits) = draw(threads, d);
    winner.is_none() && read == 0 && visits == 0
}

/// The thread on the processor with this number, and the ticks used there.
fn runner(threads: &Threads, number: u32) -> Option<(u32, u32)> {
    match threads.runner(Processor { number }) {
        Some(found) => Some((found.thread.number, found.used)),
        None => None,
    }
}

/// Makes the query, and returns whether the result is as expected.
fn holds(rt: &impl Abort, threads: &mut Threads, step: Step) -> bool {
    match step {
        Step::Refuses(thread, status) => refuses(rt, threads, thread, status),
        Step::Wins(d, won) => is_won(draw(threads, d).0, won),
        Step::Reads(d, won, reads, most) => wins(threads, d, won, reads, most),
        Step::Idles(d) => draw(threads, d).0.is_none(),
        Step::Unread(d) => is_unread(threads, d),
        Step::Runs(processor, runs) => runner(threads, processor) == runs,
        _ => is_worth(rt, threads, step),
    }
}

/// Makes the query of a value, and returns whether the result is as expected.
fn is_worth(rt: &impl Abort, threads: &mut Threads, step: Step) -> bool {
    match step {
        Step::Settles(reads) => settle(threads) == reads,
        Step::Worth(node, value) => worth(rt, threads, node) == value,
        Step::Stale(node) => is_stale(rt, threads, node),
        Step::TicketWorth(ticket, value) => is_ticket_worth(threads, ticket, value),
        Step::Active(currency, amount) => active(rt, threads, currency) == amount,
        _ => true,
    }
}

/// Takes the steps of this scene.
fn take_all(rt: &impl Abort, at: &str, threads: &mut Threads, steps: &[Step]) {
    for (i, step) in steps.iter().enumerate() {
        change_thread(rt, threads, *step);
        check_step(rt, at, i, holds(rt, threads, *step));
    }
}

/// What a scene shows, the sizes of its threads, and its steps.
type Scene<'a> = (&'a str, Sizes, &'a [&'a [Step]]);

/// Plays a scene.
fn play(rt: &impl Abort, alloc: Global, (at, sizes, parts): Scene<'_>) {
    let mut threads = threads_of(rt, alloc, sizes);
    for steps in parts {
        take_all(rt, at, &mut threads, steps);
    }
}

/// A few threads, mutexes and processors.
const SMALL: Sizes = Sizes {
    tickets: 20,
    currencies: 4,
    threads: 8,
    mutexes: 2,
    processors: 4,
    quantum: 100,
    ..Sizes::SMALLEST
};

/// On processor 1, with no ticks used.
const FIRST: Status = Status::Running {
    processor: 1,
    used: 0,
};

/// On processor 2, after 30 ticks.
const SECOND: Status = Status::Running {
    processor: 2,
    used: 30,
};

/// On processor 1, after 20 ticks.
const LATER: Status = Status::Running {
    processor: 1,
    used: 20,
};

/// Draws leave out a running thread, and no other thread can run on its processor. After 20 ticks of 100 it weighs five
/// times its value.
const RUNNING: &[Step] = &[
    Step::AddThread,
    Step::AddThread,
    Step::Fund(10, 0, Target::Thread(1)),
    Step::Fund(5, 0, Target::Thread(2)),
    Step::Wins(9, (1, 9, 15)),
    Step::Change(1, FIRST, None),
    Step::Runs(1, Some((1, 0))),
    Step::Runs(2, None),
    Step::Refuses(2, FIRST),
    Step::Wins(9, (2, 4, 5)),
    Step::Change(2, SECOND, None),
    Step::Runs(2, Some((2, 30))),
    Step::Idles(3),
    Step::Change(1, LATER, None),
    Step::Change(1, Status::Ready, Some(20)),
    Step::Runs(1, None),
    Step::Wins(49, (1, 49, 50)),
];

/// A thread that ends leaves its processor, and wins no draw, however little of its quantum it has used.
const ENDED: &[Step] = &[
    Step::AddThread,
    Step::AddThread,
    Step::AddThread,
    Step::Fund(10, 0, Target::Thread(1)),
    Step::Fund(20, 0, Target::Thread(2)),
    Step::Fund(5, 0, Target::Thread(3)),
    Step::Change(1, FIRST, None),
    Step::Change(2, Status::Ready, Some(50)),
    Step::Wins(44, (3, 44, 45)),
    Step::End(1),
    Step::Runs(1, None),
    Step::Worth(Node::Thread(1), 0),
    Step::End(2),
    Step::Wins(44, (3, 4, 5)),
];

/// A client lends its whole value to its server, so its tickets stay active. A server can't lend back.
const SERVED: &[Step] = &[
    Step::AddThread,
    Step::AddThread,
    Step::MakeCurrency,
    Step::Fund(100, 0, Target::Currency(1)),
    Step::Fund(7, 1, Target::Thread(1)),
    Step::Fund(20, 0, Target::Thread(2)),
    Step::Wins(119, (2, 119, 120)),
    Step::Change(2, Status::Receiving(1), None),
    Step::Wins(0, (1, 0, 100)),
    Step::Change(2, Status::Ready, None),
    Step::Change(1, Status::Served(2), None),
    Step::Reads(119, (2, 119, 120), 2, 4),
    Step::Active(1, 7),
    Step::Worth(Node::Thread(1), 100),
    Step::Refuses(2, Status::Served(1)),
    Step::Change(2, Status::Dead, None),
    Step::Active(1, 0),
    Step::Idles(0),
    Step::Change(1, Status::Ready, None),
    Step::Wins(99, (1, 99, 100)),
];

/// Waiters lend to the owner of the mutex, whoever it is.
const WAITING: &[Step] = &[
    Step::AddThread,
    Step::AddThread,
    Step::AddThread,
    Step::Fund(1, 0, Target::Thread(1)),
    Step::Fund(10, 0, Target::Thread(2)),
    Step::Fund(100, 0, Target::Thread(3)),
    Step::Take(1, 1),
    Step::Change(2, Status::Waiting(1), None),
    Step::Change(3, Status::Waiting(1), None),
    Step::Worth(Node::Mutex(1), 110),
    Step::Wins(110, (1, 110, 111)),
    Step::Refuses(1, Status::Waiting(1)),
    Step::Change(2, Status::Ready, None),
    Step::GiveUp(1),
    Step::Take(1, 2),
    Step::Wins(110, (2, 110, 111)),
    Step::Worth(Node::Thread(2), 110),
    Step::Move(1, 2, 1),
    Step::Worth(Node::Thread(1), 101),
    Step::Worth(Node::Thread(2), 10),
];

const LEAST: &[Step] = &[
    Step::Idles(0),
    Step::AddThread,
    Step::Idles(1),
    Step::Fund(u32::MAX, 0, Target::Thread(1)),
    Step::Wins(4294967295, (1, 0, 4294967295)),
];

const LARGEST: &[Step] = &[
    Step::AddThread,
    Step::Fund(1, 0, Target::Thread(1)),
    Step::Wins(255, (1, 255, 256)),
    Step::Change(1, LAST, None),
    Step::Runs(64, Some((1, 999))),
    Step::Idles(0),
];

/// On the processor with the largest number, before the last tick.
const LAST: Status = Status::Running {
    processor: 64,
    used: 999,
};

/// Base funds a currency, and the currency three threads. No value that isn't stale is recomputed.
const SHARED: &[Step] = &[
    Step::Sleepers(3),
    Step::MakeCurrency,
    Step::Fund(100, 0, Target::Currency(1)),
    Step::Fund(33, 1, Target::Thread(1)),
    Step::Fund(33, 1, Target::Thread(2)),
    Step::Fund(33, 1, Target::Thread(3)),
    Step::Wake(1),
    Step::Wake(2),
    Step::Wake(3),
    Step::Settles(4),
    Step::Worth(Node::Currency(1), 100),
    Step::Worth(Node::Thread(1), 33),
    Step::Worth(Node::Thread(2), 33),
    Step::Worth(Node::Thread(3), 33),
    Step::Settles(0),
    Step::Worth(Node::Currency(1), 100),
    Step::Worth(Node::Thread(3), 33),
    Step::Fund(50, 0, Target::Currency(1)),
    Step::Settles(5),
    Step::Worth(Node::Currency(1), 150),
    Step::Worth(Node::Thread(2), 50),
    Step::TicketWorth(1, 100),
    Step::TicketWorth(4, 50),
];

/// Two threads of a currency are worth half of it each. One ticket's amount triples, so they share as 3 to 1; base's
/// ticket falls to a fifth, and so do both values. Setting the same amounts again makes nothing stale.
const INFLATION: &[Step] = &[
    Step::Sleepers(2),
    Step::MakeCurrency,
    Step::Fund(100, 0, Target::Currency(1)),
    Step::Fund(1, 1, Target::Thread(1)),
    Step::Fund(1, 1, Target::Thread(2)),
    Step::Wake(1),
    Step::Wake(2),
    Step::Settles(3),
    Step::Worth(Node::Thread(1), 50),
    Step::Worth(Node::Thread(2), 50),
    Step::Amount(3, 3),
    Step::Settles(2),
    Step::Worth(Node::Thread(1), 25),
    Step::Worth(Node::Thread(2), 75),
    Step::Amount(1, 20),
    Step::Settles(3),
    Step::Worth(Node::Thread(1), 5),
    Step::Worth(Node::Thread(2), 15),
    Step::Amount(3, 3),
    Step::Amount(1, 20),
    Step::Settles(0),
    Step::Worth(Node::Currency(1), 20),
    Step::Worth(Node::Thread(2), 15),
];

/// A ticket that funds nothing gets another amount, and nothing is stale. Then so does the only ticket that gets its
/// currency's value, whose thread keeps its value. Both amounts count when the first ticket funds a thread again.
const UNFUNDED: &[Step] = &[
    Step::Sleepers(2),
    Step::MakeCurrency,
    Step::Fund(20, 0, Target::Currency(1)),
    Step::Fund(1, 1, Target::Thread(1)),
    Step::Fund(1, 1, Target::Thread(2)),
    Step::Wake(1),
    Step::Wake(2),
    Step::Unfund(2),
    Step::Settles(2),
    Step::Worth(Node::Thread(1), 0),
    Step::Worth(Node::Thread(2), 20),
    Step::Amount(2, 7),
    Step::Settles(0),
    Step::Worth(Node::Thread(1), 0),
    Step::Worth(Node::Thread(2), 20),
    Step::Amount(3, 9),
    Step::Stale(Node::Thread(2)),
    Step::Settles(2),
    Step::Worth(Node::Thread(2), 20),
    Step::Target(2, Target::Thread(1)),
    Step::Settles(2),
    Step::Worth(Node::Thread(1), 8),
    Step::Worth(Node::Thread(2), 11),
];

/// A ticket two currencies upstream of a thread loses its target: the thread is worth its other funding.
const UPSTREAM: &[Step] = &[
    Step::Sleepers(1),
    Step::MakeCurrency,
    Step::MakeCurrency,
    Step::Fund(100, 0, Target::Currency(1)),
    Step::Fund(10, 1, Target::Currency(2)),
    Step::Fund(7, 2, Target::Thread(1)),
    Step::Fund(60, 0, Target::Thread(1)),
    Step::Wake(1),
    Step::Settles(4),
    Step::Worth(Node::Currency(2), 100),
    Step::Worth(Node::Thread(1), 160),
    Step::Unfund(1),
    Step::Settles(3),
    Step::Worth(Node::Currency(1), 0),
    Step::Worth(Node::Thread(1), 60),
];

/// The last active edge out of a currency goes and another one comes, with no settling in between.
const LAST_AND_ANOTHER: &[Step] = &[
    Step::Sleepers(2),
    Step::MakeCurrency,
    Step::Wake(1),
    Step::Wake(2),
    Step::Fund(60, 0, Target::Currency(1)),
    Step::Fund(10, 1, Target::Thread(1)),
    Step::Settles(2),
    Step::Worth(Node::Thread(1), 60),
    Step::Worth(Node::Thread(2), 0),
    Step::Unfund(2),
    Step::Fund(25, 1, Target::Thread(2)),
    Step::Settles(2),
    Step::Worth(Node::Thread(1), 0),
    Step::Worth(Node::Thread(2), 60),
    Step::Destroy(2),
    Step::Unfund(3),
    Step::Destroy(3),
    Step::Settles(1),
    Step::Worth(Node::Currency(1), 0),
    Step::Worth(Node::Thread(2), 0),
    Step::Unfund(1),
    Step::RemoveCurrency(1),
    Step::Sleep(2),
    Step::Settles(0),
    Step::Worth(Node::Thread(1), 0),
    Step::Worth(Node::Thread(2), 0),
];

/// A client lends to a server, and two threads wait for a mutex that the server owns.
const LENT: &[Step] = &[
    Step::Sleepers(4),
    Step::Fund(10, 0, Target::Thread(1)),
    Step::Fund(20, 0, Target::Thread(2)),
    Step::Fund(30, 0, Target::Thread(3)),
    Step::Wake(4),
    Step::Change(1, Status::Served(4), None),
    Step::Settles(4),
    Step::Worth(Node::Thread(1), 10),
    Step::Worth(Node::Thread(4), 10),
    Step::Take(1, 4),
    Step::Change(2, Status::Waiting(1), None),
    Step::Change(3, Status::Waiting(1), None),
    Step::Settles(6),
    Step::Worth(Node::Mutex(1), 50),
    Step::Worth(Node::Thread(4), 60),
    Step::Sleep(1),
    Step::GiveUp(1),
    Step::GiveUp(2),
    Step::Settles(5),
    Step::Worth(Node::Thread(1), 0),
    Step::Worth(Node::Mutex(1), 0),
    Step::Worth(Node::Thread(4), 0),
];

/// A thread becomes stale before a currency that funds it, and a ticket of base precedes that currency's. Settling
/// reads each of the three edges into the thread once, and so the two into the currency.
const STALE_BEFORE: &[Step] = &[
    Step::Sleepers(1),
    Step::MakeCurrency,
    Step::Fund(1, 0, Target::Thread(1)),
    Step::Fund(1, 1, Target::Thread(1)),
    Step::Fund(1, 0, Target::Currency(1)),
    Step::Wake(1),
    Step::Settles(3),
    Step::Worth(Node::Currency(1), 1),
    Step::Worth(Node::Thread(1), 2),
    Step::Fund(1, 0, Target::Thread(1)),
    Step::Fund(1, 0, Target::Currency(1)),
    Step::Settles(5),
    Step::Worth(Node::Currency(1), 2),
    Step::Worth(Node::Thread(1), 4),
];

/// 100 of base fund a currency, and 33 of it fund each of three threads.
const THIRDS: &[Step] = &[
    Step::MakeCurrency,
    Step::Fund(100, 0, Target::Currency(1)),
    Step::AddThread,
    Step::Fund(33, 1, Target::Thread(1)),
    Step::AddThread,
    Step::Fund(33, 1, Target::Thread(2)),
    Step::AddThread,
    Step::Fund(33, 1, Target::Thread(3)),
];

/// A draw reads each edge into a stale node once: one into the currency, and one into each thread.
const DRAWN: &[Step] = &[
    Step::Reads(0, (1, 0, 99), 4, 4),
    Step::Reads(98, (3, 98, 99), 0, 4),
    Step::Reads(100, (1, 1, 99), 0, 4),
    Step::Reads(33, (2, 33, 99), 0, 4),
];

/// Making a ticket that funds the currency reads nothing; the next draw reads the edges into the stale nodes.
const FUNDED_BETWEEN: &[Step] = &[
    Step::Reads(0, (1, 0, 99), 4, 4),
    Step::Fund(50, 0, Target::Currency(1)),
    Step::Reads(149, (3, 149, 150), 5, 4),
];

/// A ticket two currencies upstream of the thread loses its target: only the thread's other funding still counts.
const DRAWN_UPSTREAM: &[Step] = &[
    Step::AddThread,
    Step::MakeCurrency,
    Step::MakeCurrency,
    Step::Fund(100, 0, Target::Currency(1)),
    Step::Fund(10, 1, Target::Currency(2)),
    Step::Fund(7, 2, Target::Thread(1)),
    Step::Fund(60, 0, Target::Thread(1)),
    Step::Wins(159, (1, 159, 160)),
    Step::Unfund(1),
    Step::Wins(59, (1, 59, 60)),
];

/// A thread that runs keeps its value, and draws are among the others.
const LEFT_OUT: &[Step] = &[
    Step::Change(1, FIRST, None),
    Step::Wins(0, (2, 0, 66)),
    Step::Change(2, ON_2, None),
    Step::Wins(7, (3, 7, 33)),
    Step::Change(3, ON_3, None),
    Step::Unread(5),
    Step::Change(2, Status::Ready, None),
    Step::Wins(40, (2, 7, 33)),
];

/// Quantum 100: a thread that used 20 ticks of it weighs five times its value.
const COMPENSATED: &[Step] = &[
    Step::AddThread,
    Step::Fund(400, 0, Target::Thread(1)),
    Step::AddThread,
    Step::Fund(400, 0, Target::Thread(2)),
    Step::Change(1, Status::Ready, Some(20)),
    Step::Wins(2399, (2, 2399, 2400)),
    Step::Change(1, Status::Ready, Some(99)),
    Step::Wins(803, (2, 803, 804)),
    Step::Change(1, Status::Ready, Some(1)),
    Step::Wins(40399, (2, 40399, 40400)),
    Step::Change(1, Status::Ready, None),
    Step::Wins(799, (2, 799, 800)),
];

/// A draw visits the only place.
const LEAST_DRAWN: &[Step] = &[
    Step::Unread(7),
    Step::AddThread,
    Step::Fund(u32::MAX, 0, Target::Thread(1)),
    Step::Reads(7, (1, 7, 4294967295), 1, 1),
];

/// A draw visits at most 13 places.
const LARGEST_DRAWN: &[Step] = &[
    Step::Unread(7),
    Step::AddThread,
    Step::Fund(u32::MAX, 0, Target::Thread(1)),
    Step::Reads(7, (1, 7, 4294967295), 1, 13),
];

/// On processors 2 and 3, with no ticks used.
const ON_2: Status = Status::Running {
    processor: 2,
    used: 0,
};

const ON_3: Status = Status::Running {
    processor: 3,
    used: 0,
};

/// The largest tables, with the coarser unit.
const WHOLE: Sizes = Sizes {
    unit: 1,
    ..Sizes::LARGEST
};

const SCENES: &[Scene<'static>] = &[
    ("threads run", SMALL, &[RUNNING]),
    ("threads end", SMALL, &[ENDED]),
    ("clients lend", SMALL, &[SERVED]),
    ("waiters lend", SMALL, &[WAITING]),
    ("the least size", Sizes::SMALLEST, &[LEAST]),
    ("the largest size", Sizes::LARGEST, &[LARGEST]),
    ("a shared currency", SMALL, &[SHARED]),
    ("inflation and deflation", SMALL, &[INFLATION]),
    ("the amount of an unfunded ticket", SMALL, &[UNFUNDED]),
    ("values unfunded upstream", SMALL, &[UPSTREAM]),
    (
        "the last goes and another comes",
        SMALL,
        &[LAST_AND_ANOTHER],
    ),
    ("lent and inherited", SMALL, &[LENT]),
    ("stale before its source", SMALL, &[STALE_BEFORE]),
    ("draws read what is stale", SMALL, &[THIRDS, DRAWN]),
    ("funded between draws", SMALL, &[THIRDS, FUNDED_BETWEEN]),
    ("draws unfunded upstream", SMALL, &[DRAWN_UPSTREAM]),
    ("draws leave out who runs", SMALL, &[THIRDS, LEFT_OUT]),
    ("compensated draws", SMALL, &[COMPENSATED]),
    ("draws of the least size", Sizes::SMALLEST, &[LEAST_DRAWN]),
    ("draws of the largest size", WHOLE, &[LARGEST_DRAWN]),
];

#[test]
fn threads_by_steps(rt: HostRuntime) {
    for scene in SCENES {
        play(&rt, rt.alloc(), *scene);
    }
}

/// Tickets, currencies and threads by the hundred.
const MANY: Sizes = Sizes {
    tickets: 1000,
    currencies: 200,
    threads: 1000,
    quantum: 100,
    ..Sizes::SMALLEST
};

fn make_currencies(rt: &impl Abort, threads: &mut Threads, count: u32) {
    for _ in 0..count {
        make_currency(rt, threads);
    }
}

/// A hundred tickets of base fund a thread, and so does one ticket of each of twenty currencies, which base funds.
fn fund_from_many(rt: &impl Abort, threads: &mut Threads) {
    for _ in 0..100 {
        fund(rt, threads, 1, 0, Target::Thread(1));
    }
    for currency in 1..=20 {
        fund(rt, threads, 1, currency, Target::Thread(1));
        fund(rt, threads, 1, 0, Target::Currency(currency));
    }
}

/// Settling reads the edges into the thread once, and not again for each of the currencies.
const FROM_MANY: &[Step] = &[Step::Settles(140), Step::Worth(Node::Thread(1), 120)];

/// A thread with a hundred tickets of base gets stale before each of twenty currencies that fund it too.
#[test]
fn stale_before_many_sources(rt: HostRuntime) {
    let mut threads = threads_of(&rt, rt.alloc(), MANY);
    add_thread(&rt, &mut threads);
    make_currencies(&rt, &mut threads, 20);
    fund_from_many(&rt, &mut threads);
    take_all(&rt, "many sources", &mut threads, FROM_MANY)
}

/// A step of a ladder: the currency before it funds two, and both fund the next.
fn diamond(rt: &impl Abort, threads: &mut Threads, from: u32)
    requires { from < 1000 }
{
    fund(rt, threads, 1, from, Target::Currency(from + 1));
    fund(rt, threads, 1, from, Target::Currency(from + 2));
    fund(rt, threads, 1, from + 1, Target::Currency(from + 3));
    fund(rt, threads, 1, from + 2, Target::Currency(from + 3));
}

/// A ladder of 64 diamonds.
fn make_ladder(rt: &impl Abort, threads: &mut Threads) {
    for step in 0..64 {
        diamond(rt, threads, 3 * step);
    }
}

const LADDER: &[Step] = &[
    Step::Fund(1, 192, Target::Thread(1)),
    Step::Wake(1),
    Step::Settles(257),
    Step::Worth(Node::Thread(1), 2),
];

/// A ladder of 64 diamonds, with 2 ^ 64 paths through it, whose last currency funds a thread. Settling reads each of
/// its edges once.
#[test]
fn ladder_of_diamonds(rt: HostRuntime) {
    let mut threads = threads_of(&rt, rt.alloc(), MANY);
    add_sleepers(&rt, &mut threads, 1);
    make_currencies(&rt, &mut threads, 192);
    make_ladder(&rt, &mut threads);
    take_all(&rt, "ladder", &mut threads, LADDER)
}

/// 1000 threads, each funded by a ticket of 1.
fn add_thousand(rt: &impl Abort, threads: &mut Threads) {
    for thread in 1..=1000 {
        add_thread(rt, threads);
        fund(rt, threads, 1, 0, Target::Thread(thread));
    }
}

/// Whether the thread behind a number below 1000 wins. Only the first draw reads edges.
fn wins_thousandth(threads: &mut Threads, d: u32) -> bool
    requires { d < 1000 }
{
    let reads = if d == 0 { 1000 } else { 0 };
    let number = u128::from(d);
    wins(threads, number, (d + 1, number, 1000), reads, 10)
}

#[test]
fn draws_visit_a_place_a_digit(rt: HostRuntime) {
    let mut threads = threads_of(&rt, rt.alloc(), MANY);
    add_thousand(&rt, &mut threads);
    for d in 0..1000 {
        check_step(
            &rt,
            "thousand",
            d as usize,
            wins_thousandth(&mut threads, d),
        );
    }
}
