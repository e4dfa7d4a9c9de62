//! The worked examples of cycles, of the largest sizes and of removal, on the graph alone.
ghost use Rattle.std.specs.Prelude.{◌≡◌, sum_by};
ghost use Rattle.lot_machine.specs.declared.funding.Node.TheVariants.{Currency as CurrencyNode};
ghost use Rattle.lot_machine.specs.Funding.{backing_currency};
ghost use Rattle.lot_graph.specs.Graphs.{IsNodeOf, edge_amount};

use super::required::{
    check_issue, check_lends_nothing, check_may_own, check_mutex, check_room, check_thread,
    may_lend,
};
use crate::tests::nodes::is_target;
use crate::tests::same::check_step;
use lot_graph::Graph;
use lot_machine::{Edge, Lend, Limits, Node, Sizes, Target, Ticket};
use std::alloc::Global;
use std::process::Abort;

/// A graph of the largest tables.
fn largest(rt: &impl Abort, alloc: Global) -> Graph {
    let limits = Limits::new(Sizes::LARGEST);
    let limits = limits.expect(rt, "limits are not in bounds");
    Graph::new(alloc, &limits).expect(rt, "memory")
}

fn add_thread(rt: &impl Abort, graph: &mut Graph) {
    check_room(rt, graph);
    graph.add_thread();
}

/// Makes one more currency.
fn make_currency(rt: &impl Abort, graph: &mut Graph) -> u32 {
    graph
        .make_currency()
        .expect(rt, "there is no room for a currency")
}

fn make_currencies(rt: &impl Abort, graph: &mut Graph, count: u32) {
    for _ in 0..count {
        make_currency(rt, graph);
    }
}

fn remove_currency(rt: &impl Abort, graph: &mut Graph, currency: u32) {
    assert!(rt; 0 < currency && graph.is_currency(currency));
    assert!(rt; graph.is_unused(currency));
    graph.remove_currency(currency);
}

/// A ticket in a currency, or `None` if as many were made as the limit allows.
fn try_issue(rt: &impl Abort, graph: &mut Graph, currency: u32, amount: u32) -> Option<u32> {
    check_issue(rt, graph, currency, amount);
    graph.issue(currency, amount)
}

/// A ticket in a currency.
fn issue(rt: &impl Abort, graph: &mut Graph, currency: u32, amount: u32) -> u32 {
    try_issue(rt, graph, currency, amount).expect(rt, "there is no room for a ticket")
}

fn destroy(rt: &impl Abort, graph: &mut Graph, ticket: u32) {
    assert!(rt; graph.is_unfunded(ticket));
    graph.destroy(ticket);
}

/// Sets the amount of a ticket that funds nothing.
fn set_amount(rt: &impl Abort, graph: &mut Graph, ticket: u32, amount: u32) {
    assert!(rt; 0 < amount);
    assert!(rt; graph.is_unfunded(ticket));
    graph.set_amount(ticket, amount);
}

/// Makes a ticket fund a target, or returns false if it would make a cycle.
fn fund(rt: &impl Abort, graph: &mut Graph, ticket: u32, target: Target) -> bool {
    assert!(rt; is_target(graph, target));
    assert!(rt; graph.is_unfunded(ticket));
    graph.fund(ticket, target).is_ok()
}

fn unfund(rt: &impl Abort, graph: &mut Graph, ticket: u32) {
    assert!(rt; graph.is_funding(ticket));
    graph.unfund(ticket);
}

/// Makes a thread lend, or returns false if it would make a cycle.
fn try_lend(rt: &impl Abort, graph: &mut Graph, thread: u32, lend: Lend) -> bool {
    check_lends_nothing(rt, graph, thread);
    if !may_lend(graph, thread, lend) {
        return false;
    }
    graph.lend(thread, lend);
    true
}

/// Makes a thread lend to another, or returns false if it would make a cycle.
fn lend(rt: &impl Abort, graph: &mut Graph, thread: u32, server: u32) -> bool {
    check_thread(rt, graph, server);
    try_lend(rt, graph, thread, Lend::ToThread(server))
}

/// Makes a thread wait for a mutex, or returns false if it would make a cycle.
fn wait(rt: &impl Abort, graph: &mut Graph, thread: u32, mutex: u32) -> bool {
    check_mutex(rt, graph, mutex);
    try_lend(rt, graph, thread, Lend::ToMutex(mutex))
}

fn unlend(rt: &impl Abort, graph: &mut Graph, thread: u32) {
    assert!(rt; matches!(graph.lend_of(thread), Some(Lend::ToThread(_))));
    graph.unlend(thread);
}

/// Gives a mutex to a thread.
fn give(rt: &impl Abort, graph: &mut Graph, mutex: u32, thread: u32) {
    check_mutex(rt, graph, mutex);
    graph.give_up_mutex(mutex);
    check_may_own(rt, graph, mutex, thread);
    graph.take_mutex(mutex, thread);
}

/// Makes a new ticket of a currency fund the target.
fn link(rt: &impl Abort, graph: &mut Graph, currency: u32, amount: u32, target: Target) {
    let ticket = issue(rt, graph, currency, amount);
    assert!(rt; fund(rt, graph, ticket, target));
}

/// Tickets of base, each of the largest amount, that fund a thread.
fn fill(rt: &impl Abort, graph: &mut Graph, thread: u32, count: u32) {
    for _ in 0..count {
        link(rt, graph, 0, u32::MAX, Target::Thread(thread));
    }
}

/// Each of this many currencies but the last funds the next.
fn chain(rt: &impl Abort, graph: &mut Graph, length: u32) {
    for currency in 1..length {
        link(rt, graph, currency, 1, Target::Currency(currency + 1));
    }
}

/// Two paths from a currency to another.
fn diamond(rt: &impl Abort, graph: &mut Graph, top: u32, (left, right): (u32, u32), bottom: u32) {
    link(rt, graph, top, 1, Target::Currency(left));
    link(rt, graph, top, 1, Target::Currency(right));
    link(rt, graph, left, 1, Target::Currency(bottom));
    link(rt, graph, right, 1, Target::Currency(bottom));
}

/// 64 diamonds from the first currency on, each below the one before.
fn ladder(rt: &impl Abort, graph: &mut Graph) {
    for step in 0..64 {
        let top = 3 * step + 1;
        diamond(rt, graph, top, (top + 1, top + 2), top + 3);
    }
}

/// The amount of a ticket's edge, and 0 for any other.
fn amount_of(graph: &Graph, edge: Edge) -> u32
    ensures { result ≡ edge_amount graph.now.funding edge }
{
    match edge {
        Edge::OfTicket(number) => match graph.ticket(number) {
            Some(ticket) => ticket.amount,
            None => 0,
        },
        _ => 0,
    }
}

/// The backing of a currency: the sum of the amounts of its backing tickets, over the walk.
fn backing_of(graph: &Graph, currency: u32) -> u64
    requires currency { IsNodeOf graph.now (CurrencyNode currency) }
    ensures { result ≡ sum_by (λ t. t.amount) (backing_currency graph.now.funding currency) }
{
    let mut sum = 0;
    for edge in graph.edges_into(Node::Currency(currency)) {
        sum += u64::from(amount_of(graph, edge));
    }
    sum
}

/// The backing of an existing currency.
fn backing(rt: &impl Abort, graph: &Graph, currency: u32) -> u64 {
    assert!(rt; graph.is_currency(currency));
    backing_of(graph, currency)
}

/// The number of tickets that a currency issues.
fn issued_by(rt: &impl Abort, graph: &Graph, currency: u32) -> usize {
    assert!(rt; graph.is_currency(currency));
    graph.tickets_of(currency).count()
}

/// Whether an existing currency has neither issued nor backing tickets.
fn is_unused(rt: &impl Abort, graph: &Graph, currency: u32) -> bool {
    assert!(rt; graph.is_currency(currency));
    graph.is_unused(currency)
}

/// The amounts of the tickets that fund a thread.
fn funded_with(rt: &impl Abort, graph: &Graph, thread: u32) -> u64 {
    check_thread(rt, graph, thread);
    let mut sum: u64 = 0;
    for edge in graph.edges_into(Node::Thread(thread)) {
        sum = sum.saturating_add(u64::from(amount_of(graph, edge)));
    }
    sum
}

/// The number of edges into a thread.
fn edges_into(rt: &impl Abort, graph: &Graph, thread: u32) -> usize {
    check_thread(rt, graph, thread);
    graph.edges_into(Node::Thread(thread)).count()
}

/// The number of edges out of a node.
fn edges_out_of(rt: &impl Abort, graph: &Graph, node: Node) -> usize {
    assert!(rt;
        match node {
            Node::Currency(currency) => currency <= graph.layout().currencies,
            Node::Thread(thread) => 0 < thread && thread <= graph.threads(),
            Node::Mutex(mutex) => 0 < mutex && mutex <= graph.mutexes(),
        }
    );
    graph.edges_out_of(node).count()
}

fn issuer_of(rt: &impl Abort, graph: &Graph, ticket: u32) -> Option<u32> {
    assert!(rt; 0 < ticket && ticket <= graph.layout().tickets);
    graph.issuer_of(ticket)
}

/// Whether there is neither a ticket with this number nor an issuer of it.
fn is_missing(rt: &impl Abort, graph: &Graph, number: u32) -> bool {
    graph.ticket(number).is_none() && issuer_of(rt, graph, number).is_none()
}

/// Whether a ticket is there with this issuer, amount and target.
fn is_ticket(rt: &impl Abort, graph: &Graph, number: u32, wanted: Ticket) -> bool {
    graph.ticket(number) == Some(wanted) && issuer_of(rt, graph, number) == Some(wanted.issuer)
}

/// Whether a thread lends to the other.
fn lends_to(graph: &Graph, thread: u32, server: u32) -> bool {
    match graph.lend_of(thread) {
        Some(Lend::ToThread(to)) => to == server,
        _ => false,
    }
}

/// Whether a mutex has this owner.
fn is_owner(graph: &Graph, mutex: u32, owner: u32) -> bool {
    match graph.owner(mutex) {
        Some(thread) => thread == owner,
        None => false,
    }
}

/// A step of a row: a change, or a fact that the graph must show.
#[derive(Clone, Copy)]
pub(super) enum Step {
    AddThread,
    /// A new currency, which gets this number.
    MakeCurrency(u32),
    MakeCurrencies(u32),
    RemoveCurrency(u32),
    /// A new ticket of this currency and amount, which gets this number.
    Issue(u32, u32, u32),
    Destroy(u32),
    /// A ticket that funds nothing, and the amount that it gets.
    SetAmount(u32, u32),
    Fund(u32, Target),
    /// The ticket would make a cycle with this target, so it gets none.
    FundCycle(u32, Target),
    Unfund(u32),
    /// A thread lends to another, or doesn't, since it would make a cycle.
    Lend(u32, u32, bool),
    /// A thread waits for a mutex, or doesn't, since it would make a cycle.
    Wait(u32, u32, bool),
    Unlend(u32),
    /// A mutex, and the thread that it is given to.
    Give(u32, u32),
    /// A thread, and the number of base tickets of the largest amount that fund it.
    Fill(u32, u32),
    /// A new ticket of a currency, which funds the target.
    Link(u32, Target),
    /// A chain of the first currencies, this many.
    Chain(u32),
    /// A ladder of 64 diamonds from the first currency on.
    Ladder,
    NoCurrencyLeft,
    NoTicketLeft,
    Shows(Fact),
}

/// A fact that a graph must show.
#[derive(Clone, Copy)]
pub(super) enum Fact {
    IsCurrency(u32, bool),
    IsUnused(u32, bool),
    IsUnfunded(u32, bool),
    IsFunding(u32, bool),
    /// A ticket, the currency that issues it, its amount and its target.
    IsTicket(u32, u32, u32, Target),
    NoTicket(u32),
    /// The number of tickets ever made, including destroyed ones.
    Made(u32),
    /// A currency, and the number of tickets that it issues.
    Issued(u32, usize),
    /// A currency, and the amounts that back it.
    Backing(u32, u64),
    /// A thread, and the amounts that fund it.
    FundedWith(u32, u64),
    /// A mutex and its owner.
    OwnedBy(u32, u32),
    LendsTo(u32, u32),
    /// A thread, and the number of edges into it.
    EdgesInto(u32, usize),
    EdgesOutOf(Node, usize),
}

/// Whether the graph shows this.
fn shows(rt: &impl Abort, graph: &Graph, fact: Fact) -> bool {
    match fact {
        Fact::IsCurrency(currency, is) => graph.is_currency(currency) == is,
        Fact::IsUnused(currency, is) => is_unused(rt, graph, currency) == is,
        Fact::IsUnfunded(ticket, is) => graph.is_unfunded(ticket) == is,
        Fact::IsFunding(ticket, is) => graph.is_funding(ticket) == is,
        Fact::IsTicket(number, issuer, amount, target) => {
            let wanted = Ticket {
                amount,
                issuer,
                target,
            };
            is_ticket(rt, graph, number, wanted)
        }
        Fact::NoTicket(ticket) => is_missing(rt, graph, ticket),
        Fact::Made(count) => graph.ticket_count() == count,
        Fact::Issued(currency, count) => issued_by(rt, graph, currency) == count,
        Fact::Backing(currency, sum) => backing(rt, graph, currency) == sum,
        Fact::FundedWith(thread, sum) => funded_with(rt, graph, thread) == sum,
        Fact::OwnedBy(mutex, owner) => is_owner(graph, mutex, owner),
        Fact::LendsTo(thread, server) => lends_to(graph, thread, server),
        Fact::EdgesInto(thread, count) => edges_into(rt, graph, thread) == count,
        Fact::EdgesOutOf(node, count) => edges_out_of(rt, graph, node) == count,
    }
}

/// Takes a step, and returns whether its result is the row's.
fn take(rt: &impl Abort, graph: &mut Graph, step: Step) -> bool {
    match step {
        Step::MakeCurrency(number) => make_currency(rt, graph) == number,
        Step::Issue(currency, amount, number) => issue(rt, graph, currency, amount) == number,
        Step::Fund(ticket, target) => fund(rt, graph, ticket, target),
        Step::FundCycle(ticket, target) => !fund(rt, graph, ticket, target),
        Step::Lend(thread, server, does) => lend(rt, graph, thread, server) == does,
        Step::Wait(thread, mutex, does) => wait(rt, graph, thread, mutex) == does,
        Step::NoCurrencyLeft => graph.make_currency().is_none(),
        Step::NoTicketLeft => try_issue(rt, graph, 0, 1).is_none(),
        Step::Shows(fact) => shows(rt, graph, fact),
        _ => {
            change(rt, graph, step);
            true
        }
    }
}

/// Takes a step that has only one result.
fn change(rt: &impl Abort, graph: &mut Graph, step: Step) {
    match step {
        Step::AddThread => add_thread(rt, graph),
        Step::MakeCurrencies(count) => make_currencies(rt, graph, count),
        Step::RemoveCurrency(currency) => remove_currency(rt, graph, currency),
        Step::Destroy(ticket) => destroy(rt, graph, ticket),
        Step::SetAmount(ticket, amount) => set_amount(rt, graph, ticket, amount),
        Step::Unfund(ticket) => unfund(rt, graph, ticket),
        Step::Unlend(thread) => unlend(rt, graph, thread),
        Step::Give(mutex, thread) => give(rt, graph, mutex, thread),
        Step::Fill(thread, count) => fill(rt, graph, thread, count),
        Step::Link(currency, target) => link(rt, graph, currency, 1, target),
        Step::Chain(length) => chain(rt, graph, length),
        Step::Ladder => ladder(rt, graph),
        _ => {}
    }
}

/// What a scene shows, and its steps.
pub(super) type Scene<'a> = (&'a str, &'a [Step]);

/// The graph of the largest tables after the steps of a scene.
pub(super) fn played(rt: &impl Abort, alloc: Global, (at, steps): Scene<'_>) -> Graph {
    let mut graph = largest(rt, alloc);
    for (i, step) in steps.iter().enumerate() {
        check_step(rt, at, i, take(rt, &mut graph, *step));
    }
    graph
}

const CYCLES: &[Step] = &[
    Step::MakeCurrency(1),
    Step::MakeCurrency(2),
    Step::MakeCurrency(3),
    Step::MakeCurrency(4),
    Step::Issue(1, 1, 1),
    Step::FundCycle(1, Target::Currency(1)),
    Step::Fund(1, Target::Currency(2)),
    Step::Issue(2, 1, 2),
    Step::Fund(2, Target::Currency(3)),
    Step::Issue(3, 1, 3),
    Step::FundCycle(3, Target::Currency(1)),
    Step::Issue(1, 1, 4),
    Step::Fund(4, Target::Currency(3)),
    Step::Fund(3, Target::Currency(4)),
    Step::Issue(2, 1, 5),
    Step::Fund(5, Target::Currency(4)),
];

const REMOVED: &[Step] = &[
    Step::AddThread,
    Step::MakeCurrency(1),
    Step::Issue(1, 5, 1),
    Step::Shows(Fact::IsCurrency(1, true)),
    Step::Shows(Fact::IsUnused(1, false)),
    Step::Fund(1, Target::Thread(1)),
    Step::Shows(Fact::IsUnfunded(1, false)),
    Step::Unfund(1),
    Step::Shows(Fact::IsFunding(1, false)),
    Step::Destroy(1),
    Step::Shows(Fact::NoTicket(1)),
    Step::Shows(Fact::Made(1)),
    Step::Shows(Fact::IsCurrency(1, true)),
    Step::Shows(Fact::IsUnused(1, true)),
    Step::RemoveCurrency(1),
    Step::Shows(Fact::IsCurrency(1, false)),
    Step::Issue(0, 5, 2),
    Step::MakeCurrency(2),
];

const REISSUED: &[Step] = &[
    Step::AddThread,
    Step::MakeCurrency(1),
    Step::Issue(0, 3, 1),
    Step::Issue(1, 5, 2),
    Step::Issue(1, 7, 3),
    Step::SetAmount(2, 8),
    Step::Shows(Fact::IsTicket(2, 1, 8, Target::Unfunded)),
    Step::Shows(Fact::IsTicket(3, 1, 7, Target::Unfunded)),
    Step::Shows(Fact::Issued(1, 2)),
    Step::Fund(2, Target::Thread(1)),
    Step::Shows(Fact::IsTicket(2, 1, 8, Target::Thread(1))),
    Step::Shows(Fact::FundedWith(1, 8)),
    Step::Unfund(2),
    Step::SetAmount(2, u32::MAX),
    Step::SetAmount(3, 1),
    Step::Shows(Fact::IsTicket(2, 1, u32::MAX, Target::Unfunded)),
    Step::Shows(Fact::IsTicket(3, 1, 1, Target::Unfunded)),
];

const LARGEST: &[Step] = &[
    Step::AddThread,
    Step::Fill(1, 65535),
    Step::Shows(Fact::FundedWith(1, 281470681677825)),
    Step::NoTicketLeft,
    Step::Shows(Fact::Issued(0, 65535)),
    Step::MakeCurrencies(4096),
    Step::NoCurrencyLeft,
];

const BACKED: &[Step] = &[
    Step::MakeCurrency(1),
    Step::Issue(0, 5, 1),
    Step::Fund(1, Target::Currency(1)),
    Step::Issue(0, 7, 2),
    Step::Fund(2, Target::Currency(1)),
    Step::Issue(0, u32::MAX, 3),
    Step::Fund(3, Target::Currency(1)),
    Step::Shows(Fact::Backing(1, 4294967307)),
];

const CHAIN: &[Step] = &[
    Step::MakeCurrencies(4096),
    Step::Chain(4096),
    Step::Issue(4096, 1, 4096),
    Step::FundCycle(4096, Target::Currency(1)),
    Step::Shows(Fact::IsUnfunded(4096, true)),
];

const LADDER: &[Step] = &[
    Step::MakeCurrencies(193),
    Step::Ladder,
    Step::Issue(193, 1, 257),
    Step::FundCycle(257, Target::Currency(1)),
];

const LENT: &[Step] = &[
    Step::AddThread,
    Step::AddThread,
    Step::AddThread,
    Step::Give(1, 1),
    Step::Shows(Fact::OwnedBy(1, 1)),
    Step::Wait(2, 1, true),
    Step::Lend(1, 3, true),
    Step::Lend(3, 2, false),
    Step::Wait(3, 1, false),
    Step::Shows(Fact::EdgesInto(1, 1)),
    Step::Shows(Fact::EdgesInto(3, 1)),
    Step::Give(1, 3),
    Step::Shows(Fact::OwnedBy(1, 3)),
    Step::Shows(Fact::EdgesInto(1, 0)),
    Step::Shows(Fact::EdgesInto(3, 2)),
    Step::Shows(Fact::LendsTo(1, 3)),
    Step::Unlend(1),
    Step::Shows(Fact::EdgesInto(3, 1)),
];

const EACH_KIND: &[Step] = &[
    Step::AddThread,
    Step::AddThread,
    Step::Issue(0, 5, 1),
    Step::Issue(0, 7, 2),
    Step::Issue(0, 9, 3),
    Step::Fund(1, Target::Thread(1)),
    Step::Fund(3, Target::Thread(1)),
    Step::Shows(Fact::EdgesOutOf(Node::Currency(0), 2)),
    Step::Shows(Fact::EdgesOutOf(Node::Thread(2), 0)),
    Step::Lend(2, 1, true),
    Step::Shows(Fact::EdgesOutOf(Node::Thread(2), 1)),
    Step::Give(3, 1),
    Step::Shows(Fact::EdgesOutOf(Node::Mutex(3), 1)),
    Step::Shows(Fact::EdgesOutOf(Node::Mutex(4), 0)),
];

const SCENES: &[Scene<'static>] = &[
    ("cycles are refused", CYCLES),
    ("removed numbers are gone", REMOVED),
    ("amounts change in place", REISSUED),
    ("largest sizes", LARGEST),
    ("backing of a currency", BACKED),
    ("chain of currencies", CHAIN),
    ("ladder of diamonds", LADDER),
    ("lends and owners", LENT),
    ("edges out of each kind", EACH_KIND),
];

#[test]
fn graphs(rt: HostRuntime) {
    for scene in SCENES {
        played(&rt, rt.alloc(), *scene);
    }
}
