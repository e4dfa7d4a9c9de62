//! A graph together with its activity, and worked rows.
use super::required::{
    check_issue, check_may_lend, check_may_own, check_mutex, check_room, check_thread,
};
use crate::tests::nodes::is_target;
use crate::tests::same::check_step;
use lot_active::{Active, ends_of_edge};
use lot_graph::Graph;
use lot_machine::{Edge, Lend, Limits, Sizes, Target};
use std::alloc::{AllocError, Global};
use std::marker::Model;
use std::process::Abort;

struct Kept {
    graph: Graph,
    active: Active,
}

impl Drop for Kept {
    // An explicit drop: code that drops a `Kept` is then proved without unfolding its fields.
    fn drop(self) {
        let Self {
            graph: _,
            active: _,
        } = self;
    }
}

impl Model for Kept {
    ghost use Rattle.lot_kernel_tests.specs.Both.{Both, Agree};

    ghost Value = { Both };

    ghost view = { λ s. record { graph = s.graph; activity = s.active } };

    ghost invariant = { λ s. Agree (record { graph = s.graph; activity = s.active }) };
}

impl Kept {
    fn new(rt: &impl Abort, alloc: Global, sizes: Sizes) -> Result<Self, AllocError> {
        let limits = Limits::new(sizes).expect(rt, "limits are not in bounds");
        let graph = Graph::new(alloc, &limits)?;
        let active = Active::new(alloc, &graph)?;
        Ok(Kept { graph, active })
    }

    fn add_thread(&mut self, rt: &impl Abort) {
        check_room(rt, &self.graph);
        self.graph.add_thread();
    }

    fn make_currency(&mut self, rt: &impl Abort) -> u32 {
        let made = self.graph.make_currency();
        made.expect(rt, "there is no room for a currency")
    }

    fn issue(&mut self, rt: &impl Abort, currency: u32, amount: u32) -> u32 {
        check_issue(rt, &self.graph, currency, amount);
        let made = self.graph.issue(currency, amount);
        made.expect(rt, "there is no room for a ticket")
    }

    fn fund(&mut self, rt: &impl Abort, ticket: u32, target: Target) {
        assert!(rt; self.graph.is_unfunded(ticket));
        assert!(rt; is_target(&self.graph, target));
        match self.graph.fund(ticket, target) {
            Ok(()) => self.active.attach(&self.graph, Edge::OfTicket(ticket)),
            Err(_) => {}
        }
    }

    fn unfund(&mut self, rt: &impl Abort, ticket: u32) {
        assert!(rt; self.graph.is_funding(ticket));
        let Some(ends) = ends_of_edge(&self.graph, Edge::OfTicket(ticket)) else {
            return;
        };
        self.graph.unfund(ticket);
        self.active.detach(&self.graph, ends);
    }

    fn lend(&mut self, rt: &impl Abort, thread: u32, lend: Lend) {
        check_may_lend(rt, &mut self.graph, thread, lend);
        self.graph.lend(thread, lend);
        self.active.attach(&self.graph, Edge::OfLender(thread));
    }

    fn unlend(&mut self, thread: u32) {
        let Some(ends) = ends_of_edge(&self.graph, Edge::OfLender(thread)) else {
            return;
        };
        self.graph.unlend(thread);
        self.active.detach(&self.graph, ends);
    }

    fn take_mutex(&mut self, rt: &impl Abort, mutex: u32, owner: u32) {
        check_may_own(rt, &mut self.graph, mutex, owner);
        self.graph.take_mutex(mutex, owner);
        self.active.attach(&self.graph, Edge::OfMutex(mutex));
    }

    fn give_up_mutex(&mut self, rt: &impl Abort, mutex: u32) {
        check_mutex(rt, &self.graph, mutex);
        let Some(ends) = ends_of_edge(&self.graph, Edge::OfMutex(mutex)) else {
            return;
        };
        self.graph.give_up_mutex(mutex);
        self.active.detach(&self.graph, ends);
    }

    fn set_live(&mut self, rt: &impl Abort, thread: u32, live: bool) {
        check_thread(rt, &self.graph, thread);
        self.active.set_live(&self.graph, thread, live);
    }

    fn amount(&self, rt: &impl Abort, currency: u32) -> u64 {
        assert!(rt; self.graph.is_currency(currency));
        self.active.active_amount(currency)
    }

    fn is_backed(&self, rt: &impl Abort, thread: u32) -> bool {
        check_thread(rt, &self.graph, thread);
        self.active.is_backed(thread)
    }

    /// Whether a ticket is there and active.
    fn is_active(&self, ticket: u32) -> bool {
        match self.graph.ticket(ticket) {
            Some(record) => self.active.is_active(record.target),
            None => false,
        }
    }

    /// Whether the last call switched this many nodes, and changed only the amount of this many.
    fn has_changed(&self, switched: usize, adjusted: usize) -> bool {
        self.active.switched().count() == switched && self.active.adjusted().count() == adjusted
    }

    /// A ticket that funds.
    fn funding(&mut self, rt: &impl Abort, currency: u32, amount: u32, target: Target) {
        let ticket = self.issue(rt, currency, amount);
        self.fund(rt, ticket, target);
    }

    /// This many threads and currencies.
    fn add_nodes(&mut self, rt: &impl Abort, threads: u32, currencies: u32) {
        for _ in 0..threads {
            self.add_thread(rt);
        }
        for _ in 0..currencies {
            self.make_currency(rt);
        }
    }

    /// Takes the steps of a scene in turn.
    fn play_all(&mut self, rt: &impl Abort, at: &str, steps: &[Step]) {
        for (i, step) in steps.iter().enumerate() {
            check_step(rt, at, i, self.play(rt, *step));
        }
    }

    /// Takes a step, and returns whether its result is the row's.
    fn play(&mut self, rt: &impl Abort, step: Step) -> bool {
        match step {
            Step::IsAmount(currency, amount) => self.amount(rt, currency) == amount,
            Step::IsBacked(thread, is) => self.is_backed(rt, thread) == is,
            Step::IsActive(ticket, is) => self.is_active(ticket) == is,
            Step::HavePassed(edges) => self.active.passed() == edges,
            Step::Changed(switched, adjusted) => self.has_changed(switched, adjusted),
            _ => {
                self.change(rt, step);
                true
            }
        }
    }

    /// Takes a step that has only one result.
    fn change(&mut self, rt: &impl Abort, step: Step) {
        match step {
            Step::Funding(currency, amount, target) => self.funding(rt, currency, amount, target),
            Step::Unfund(ticket) => self.unfund(rt, ticket),
            Step::Lend(thread, lend) => self.lend(rt, thread, lend),
            Step::Unlend(thread) => self.unlend(thread),
            Step::Take(mutex, owner) => self.take_mutex(rt, mutex, owner),
            Step::GiveUp(mutex) => self.give_up_mutex(rt, mutex),
            Step::Wake(thread) => self.set_live(rt, thread, true),
            Step::Sleep(thread) => self.set_live(rt, thread, false),
            _ => {}
        }
    }
}

/// A step of a row: a change, or a fact that must hold.
#[derive(Clone, Copy)]
enum Step {
    Funding(u32, u32, Target),
    Unfund(u32),
    Lend(u32, Lend),
    Unlend(u32),
    Take(u32, u32),
    GiveUp(u32),
    Wake(u32),
    Sleep(u32),
    IsAmount(u32, u64),
    IsBacked(u32, bool),
    IsActive(u32, bool),
    Changed(usize, usize),
    HavePassed(u64),
}

const SMALL: Sizes = Sizes {
    tickets: 64,
    currencies: 16,
    threads: 16,
    mutexes: 4,
    ..Sizes::SMALLEST
};

/// What a scene shows, the sizes of its graph, its threads and currencies, and its steps.
type Scene<'a> = (&'a str, Sizes, (u32, u32), &'a [Step]);

/// Plays a scene.
fn play(rt: &impl Abort, alloc: Global, (at, sizes, (threads, currencies), steps): Scene<'_>) {
    let mut kept = Kept::new(rt, alloc, sizes).expect(rt, "memory");
    kept.add_nodes(rt, threads, currencies);
    kept.play_all(rt, at, steps);
}

const TWO_LEVELS: &[Step] = &[
    Step::Funding(0, 1000, Target::Currency(1)),
    Step::Funding(1, 200, Target::Currency(2)),
    Step::Funding(1, 300, Target::Thread(1)),
    Step::Funding(2, 7, Target::Thread(2)),
    Step::IsAmount(0, 0),
    Step::IsAmount(1, 0),
    Step::Changed(0, 0),
    Step::Wake(2),
    Step::Changed(4, 0),
    Step::IsAmount(2, 7),
    Step::IsAmount(1, 200),
    Step::IsAmount(0, 1000),
    Step::IsActive(3, false),
    Step::Wake(1),
    Step::Changed(1, 1),
    Step::IsAmount(1, 500),
    Step::IsAmount(0, 1000),
    Step::Sleep(2),
    Step::Changed(2, 1),
    Step::IsAmount(2, 0),
    Step::IsAmount(1, 300),
    Step::Sleep(1),
    Step::Changed(3, 0),
    Step::IsAmount(1, 0),
    Step::IsAmount(0, 0),
];

const DIAMOND: &[Step] = &[
    Step::Funding(0, 50, Target::Currency(1)),
    Step::Funding(1, 1, Target::Currency(2)),
    Step::Funding(1, 2, Target::Currency(3)),
    Step::Funding(2, 3, Target::Currency(4)),
    Step::Funding(3, 4, Target::Currency(4)),
    Step::Funding(4, 5, Target::Thread(1)),
    Step::Wake(1),
    Step::Changed(6, 0),
    Step::IsAmount(4, 5),
    Step::IsAmount(2, 3),
    Step::IsAmount(3, 4),
    Step::IsAmount(1, 3),
    Step::IsAmount(0, 50),
    Step::Unfund(5),
    Step::Changed(1, 1),
    Step::IsAmount(3, 0),
    Step::IsAmount(1, 1),
    Step::IsAmount(0, 50),
    Step::Sleep(1),
    Step::IsAmount(1, 0),
    Step::IsAmount(0, 0),
];

const LAST_AND_ANOTHER: &[Step] = &[
    Step::Wake(1),
    Step::Funding(0, 60, Target::Currency(1)),
    Step::Funding(1, 10, Target::Thread(1)),
    Step::IsAmount(1, 10),
    Step::IsAmount(0, 60),
    Step::Unfund(2),
    Step::Changed(2, 0),
    Step::IsAmount(1, 0),
    Step::IsAmount(0, 0),
    Step::Funding(1, 25, Target::Thread(1)),
    Step::Changed(2, 0),
    Step::IsAmount(1, 25),
    Step::IsAmount(0, 60),
];

/// A ticket whose target is inactive counts in no amount until the target wakes.
const FUNDED_BEFORE: &[Step] = &[
    Step::Funding(1, 3, Target::Thread(1)),
    Step::Wake(2),
    Step::Funding(0, 8, Target::Currency(1)),
    Step::Funding(1, 5, Target::Thread(2)),
    Step::IsAmount(1, 5),
    Step::IsActive(1, false),
    Step::Wake(1),
    Step::Changed(1, 1),
    Step::IsActive(1, true),
    Step::IsAmount(1, 8),
    Step::IsAmount(0, 8),
];

/// A change spreads along the edges into the nodes that it switches, once along each, and along no other edge.
const ELSEWHERE: &[Step] = &[
    Step::Funding(0, 9, Target::Currency(1)),
    Step::Funding(1, 3, Target::Thread(1)),
    Step::Funding(1, 4, Target::Thread(2)),
    Step::Funding(1, 5, Target::Thread(3)),
    Step::HavePassed(0),
    Step::Wake(1),
    Step::HavePassed(2),
    Step::Wake(2),
    Step::HavePassed(3),
    Step::Wake(3),
    Step::HavePassed(4),
    Step::Unfund(2),
    Step::HavePassed(5),
    Step::Sleep(1),
    Step::HavePassed(5),
    Step::Sleep(2),
    Step::HavePassed(6),
    Step::Sleep(3),
    Step::HavePassed(8),
];

/// Two tickets of one currency fund the same thread: both count.
const FUNDED_TWICE: &[Step] = &[
    Step::Funding(0, 9, Target::Currency(1)),
    Step::Funding(1, 3, Target::Thread(1)),
    Step::Funding(1, 4, Target::Thread(1)),
    Step::Wake(1),
    Step::Changed(3, 0),
    Step::IsAmount(1, 7),
    Step::Unfund(2),
    Step::Changed(0, 1),
    Step::IsAmount(1, 4),
    Step::Sleep(1),
    Step::Changed(3, 0),
    Step::IsAmount(1, 0),
];

/// A client calls a server: the client's tickets stay active while the server runs.
const CALL: &[Step] = &[
    Step::Funding(0, 10, Target::Thread(2)),
    Step::Wake(2),
    Step::Sleep(2),
    Step::Changed(2, 0),
    Step::Lend(2, Lend::ToThread(1)),
    Step::Changed(0, 0),
    Step::IsBacked(2, false),
    Step::Wake(1),
    Step::Changed(3, 0),
    Step::IsBacked(2, true),
    Step::IsActive(1, true),
    Step::IsAmount(0, 10),
    Step::Unlend(2),
    Step::Changed(2, 0),
    Step::IsAmount(0, 0),
    Step::IsBacked(1, true),
];

/// The owner of a mutex blocks on a call: a thread that waits for the mutex stays backed, by the server.
const OWNER_CALLS: &[Step] = &[
    Step::Funding(0, 10, Target::Thread(2)),
    Step::Take(1, 1),
    Step::Wake(1),
    Step::Lend(2, Lend::ToMutex(1)),
    Step::Changed(2, 0),
    Step::IsBacked(2, true),
    Step::Wake(3),
    Step::Lend(1, Lend::ToThread(3)),
    Step::Changed(0, 1),
    Step::Sleep(1),
    Step::Changed(0, 0),
    Step::IsBacked(1, true),
    Step::IsBacked(2, true),
    Step::IsAmount(0, 10),
    Step::Sleep(3),
    Step::Changed(5, 0),
    Step::IsBacked(2, false),
    Step::IsAmount(0, 0),
    Step::GiveUp(1),
    Step::Wake(3),
    Step::IsBacked(1, true),
    Step::IsBacked(2, false),
];

/// Each currency funds the next, and the last one a thread.
fn chain(rt: &impl Abort, kept: &mut Kept) {
    for last in 0..4096 {
        let next = kept.make_currency(rt);
        kept.funding(rt, last, 2, Target::Currency(next));
    }
    kept.add_thread(rt);
    kept.funding(rt, 4096, 3, Target::Thread(1));
}

const CHAIN: &[Step] = &[
    Step::Wake(1),
    Step::Changed(4098, 0),
    Step::IsAmount(0, 2),
    Step::IsAmount(2048, 2),
    Step::IsAmount(4096, 3),
    Step::Sleep(1),
    Step::Changed(4098, 0),
    Step::IsAmount(0, 0),
    Step::IsAmount(4096, 0),
];

#[test]
fn chain_of_4096_on_and_off(rt: HostRuntime) {
    let mut kept = Kept::new(&rt, rt.alloc(), Sizes::LARGEST).expect(&rt, "memory");
    chain(&rt, &mut kept);
    kept.play_all(&rt, "chain", CHAIN);
}

const LARGEST: &[Step] = &[
    Step::Wake(1),
    Step::Changed(2, 0),
    Step::IsAmount(0, 281470681677825),
    Step::Unfund(65535),
    Step::Changed(0, 1),
    Step::IsAmount(0, 281466386710530),
    Step::Sleep(1),
    Step::IsAmount(0, 0),
];

/// Tickets of base that fund a thread, as many as the limit allows.
fn fill(rt: &impl Abort, kept: &mut Kept) {
    for _ in 0..65535 {
        kept.funding(rt, 0, u32::MAX, Target::Thread(1));
    }
}

/// As many tickets as the limit allows, each of the largest amount, fund one thread.
#[test]
fn largest_sizes(rt: HostRuntime) {
    let mut kept = Kept::new(&rt, rt.alloc(), Sizes::LARGEST).expect(&rt, "memory");
    kept.add_thread(&rt);
    fill(&rt, &mut kept);
    kept.play_all(&rt, "largest", LARGEST);
}

const LEAST: &[Step] = &[
    Step::Funding(0, 1, Target::Thread(1)),
    Step::Wake(1),
    Step::Changed(2, 0),
    Step::IsAmount(0, 1),
    Step::IsAmount(1, 0),
    Step::Sleep(1),
    Step::Changed(2, 0),
    Step::IsAmount(0, 0),
];

const SCENES: &[Scene<'static>] = &[
    (
        "two levels all blocked one wakes",
        SMALL,
        (2, 2),
        TWO_LEVELS,
    ),
    ("diamond", SMALL, (1, 4), DIAMOND),
    (
        "the last goes and another comes",
        SMALL,
        (1, 1),
        LAST_AND_ANOTHER,
    ),
    ("funded before it wakes", SMALL, (2, 1), FUNDED_BEFORE),
    ("edges elsewhere stay", SMALL, (3, 1), ELSEWHERE),
    ("funded twice", SMALL, (1, 1), FUNDED_TWICE),
    ("a call", SMALL, (2, 0), CALL),
    ("an owner calls", SMALL, (3, 0), OWNER_CALLS),
    ("the least sizes", Sizes::SMALLEST, (1, 1), LEAST),
];

#[test]
fn activity(rt: HostRuntime) {
    for scene in SCENES {
        play(&rt, rt.alloc(), *scene);
    }
}
