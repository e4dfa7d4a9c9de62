//! Calls, receives and replies among a few threads, with their lends.
use super::helpers::{
    Won, add_thread, check_known, check_live, check_may_wait, check_port, finish, is_won,
    queues_of, stands, threads_of,
};
use crate::tests::same::check_step;
use lot_machine::{Outcome, PortNumber, Sizes, Status, ThreadNumber};
use lot_ports::{call, receive, release_clients, reply, serve};
use lot_queues::Queues;
use lot_threads::{Threads, TrapEffect};
use std::alloc::Global;
use std::process::Abort;

/// A step of a row: a trap and its outcome, or a query and its expected result.
#[derive(Clone, Copy)]
enum Step {
    /// A new thread, which this much base funds.
    AddThread(u32),
    /// A call by a thread to a port, with a number.
    Call(u32, u32, u32, Outcome),
    Receive(u32, u32, Outcome),
    /// A reply by a thread with a number, or `None` if it has no client.
    Reply(u32, u32, Option<Outcome>),
    /// A reply by a thread with a number, and a receipt at a port; `None` if it has no client.
    Serve(u32, u32, u32, Option<Outcome>),
    /// Releases the clients of a thread.
    Release(u32),
    /// The result of a draw.
    Wins(u128, Won),
    Stands(u32, Status),
    /// The number delivered to a thread when it next runs.
    Gets(u32, Option<u32>),
}

/// The outcome of a thread's trap at a port, after which it goes on or leaves.
fn done(
    rt: &impl Abort,
    threads: &mut Threads,
    thread: ThreadNumber,
    effect: TrapEffect,
) -> Outcome {
    finish(rt, threads, thread, effect.after);
    effect.outcome
}

fn make_call(
    rt: &impl Abort,
    threads: &mut Threads,
    queues: &mut Queues,
    caller: u32,
    port: u32,
    number: u32,
) -> Outcome {
    let caller = ThreadNumber { number: caller };
    check_port(rt, queues, port);
    check_may_wait(rt, threads, queues, caller);
    let effect = call(threads, queues, caller, PortNumber { number: port }, number);
    done(rt, threads, caller, effect)
}

fn make_receipt(
    rt: &impl Abort,
    threads: &mut Threads,
    queues: &mut Queues,
    server: u32,
    port: u32,
) -> Outcome {
    let server = ThreadNumber { number: server };
    check_port(rt, queues, port);
    check_may_wait(rt, threads, queues, server);
    check_live(rt, threads, server);
    let effect = receive(threads, queues, server, PortNumber { number: port });
    done(rt, threads, server, effect)
}

fn make_reply(
    rt: &impl Abort,
    threads: &mut Threads,
    queues: &mut Queues,
    server: u32,
    number: u32,
) -> Option<Outcome> {
    let server = ThreadNumber { number: server };
    check_known(rt, threads, queues, server);
    let client = ThreadNumber {
        number: queues.first_client(server.number)?,
    };
    Some(reply(threads, queues, server, client, number).outcome)
}

fn make_serving(
    rt: &impl Abort,
    threads: &mut Threads,
    queues: &mut Queues,
    server: u32,
    port: u32,
    number: u32,
) -> Option<Outcome> {
    let server = ThreadNumber { number: server };
    let port = PortNumber { number: port };
    check_port(rt, queues, port.number);
    check_may_wait(rt, threads, queues, server);
    check_live(rt, threads, server);
    let client = ThreadNumber {
        number: queues.first_client(server.number)?,
    };
    let effect = serve(threads, queues, server, client, port, number);
    Some(done(rt, threads, server, effect))
}

fn release(rt: &impl Abort, threads: &mut Threads, queues: &mut Queues, server: ThreadNumber) {
    check_known(rt, threads, queues, server);
    release_clients(threads, queues, server)
}

/// Makes a trap, and returns its outcome, or `None` if it was a reply to no client.
fn make_trap(
    rt: &impl Abort,
    threads: &mut Threads,
    queues: &mut Queues,
    step: Step,
) -> Option<Outcome> {
    match step {
        Step::Call(caller, port, number, _) => {
            Some(make_call(rt, threads, queues, caller, port, number))
        }
        Step::Receive(server, port, _) => Some(make_receipt(rt, threads, queues, server, port)),
        Step::Reply(server, number, _) => make_reply(rt, threads, queues, server, number),
        Step::Serve(server, port, number, _) => {
            make_serving(rt, threads, queues, server, port, number)
        }
        _ => None,
    }
}

/// Whether this number is delivered to the thread when it next runs.
fn gets(threads: &Threads, thread: u32, number: Option<u32>) -> bool {
    match threads.record(ThreadNumber { number: thread }) {
        Some(found) => found.delivered == number,
        None => false,
    }
}

/// Takes a step, and returns whether its result is the row's.
fn take(rt: &impl Abort, threads: &mut Threads, queues: &mut Queues, step: Step) -> bool {
    match step {
        Step::AddThread(amount) => {
            add_thread(rt, threads, queues, amount);
            true
        }
        Step::Call(_, _, _, outcome) | Step::Receive(_, _, outcome) => {
            make_trap(rt, threads, queues, step) == Some(outcome)
        }
        Step::Reply(_, _, outcome) | Step::Serve(_, _, _, outcome) => {
            make_trap(rt, threads, queues, step) == outcome
        }
        Step::Release(server) => {
            release(rt, threads, queues, ThreadNumber { number: server });
            true
        }
        Step::Wins(d, won) => is_won(threads.draw(d), won),
        Step::Stands(thread, status) => stands(threads, thread, status),
        Step::Gets(thread, number) => gets(threads, thread, number),
    }
}

/// Takes the steps of this scene in turn.
fn take_all(rt: &impl Abort, at: &str, threads: &mut Threads, queues: &mut Queues, steps: &[Step]) {
    for (i, step) in steps.iter().enumerate() {
        check_step(rt, at, i, take(rt, threads, queues, *step));
    }
}

/// What a scene shows, the sizes of its threads, and its steps.
type Scene<'a> = (&'a str, Sizes, &'a [Step]);

/// Plays a scene.
fn play(rt: &impl Abort, alloc: Global, (at, sizes, steps): Scene<'_>) {
    let mut threads = threads_of(rt, alloc, sizes);
    let mut queues = queues_of(rt, alloc, sizes);
    take_all(rt, at, &mut threads, &mut queues, steps)
}

const SMALL: Sizes = Sizes {
    tickets: 20,
    currencies: 1,
    threads: 4,
    ports: 2,
    ..Sizes::SMALLEST
};

/// A server that waits is Ready at the call, and has its client's value too until it replies.
const RECEIVED_FIRST: &[Step] = &[
    Step::AddThread(100),
    Step::AddThread(20),
    Step::Receive(2, 1, Outcome::Waits),
    Step::Stands(2, Status::Receiving(1)),
    Step::Wins(99, (1, 99, 100)),
    Step::Call(1, 1, 7, Outcome::ServedBy(2)),
    Step::Stands(1, Status::Served(2)),
    Step::Gets(2, Some(7)),
    Step::Wins(119, (2, 119, 120)),
    Step::Reply(2, 9, Some(Outcome::Replied(1))),
    Step::Gets(1, Some(9)),
    Step::Wins(119, (2, 119, 120)),
    Step::Reply(2, 9, None),
];

/// Call 5 of thread 2.
const FROM_2: Outcome = Outcome::Received {
    client: 2,
    number: 5,
};

/// Call 6 of thread 3.
const FROM_3: Outcome = Outcome::Received {
    client: 3,
    number: 6,
};

/// A server takes calls in the order in which clients made them, and replies in the order in which it took them.
const QUEUED_FIRST: &[Step] = &[
    Step::AddThread(1),
    Step::AddThread(10),
    Step::AddThread(100),
    Step::Call(2, 2, 5, Outcome::Queued),
    Step::Call(3, 2, 6, Outcome::Queued),
    Step::Stands(2, Status::Queued(2)),
    Step::Wins(8, (1, 0, 1)),
    Step::Receive(1, 2, FROM_2),
    Step::Stands(2, Status::Served(1)),
    Step::Wins(10, (1, 10, 11)),
    Step::Receive(1, 2, FROM_3),
    Step::Wins(110, (1, 110, 111)),
    Step::Receive(1, 1, Outcome::Waits),
    Step::Reply(1, 4, Some(Outcome::Replied(2))),
    Step::Gets(2, Some(4)),
    Step::Wins(109, (2, 9, 10)),
    Step::Reply(1, 3, Some(Outcome::Replied(3))),
    Step::Wins(109, (3, 109, 110)),
];

/// A server replies and takes the next call, or waits, in one trap; without a client it does neither.
const SERVED: &[Step] = &[
    Step::AddThread(1),
    Step::AddThread(10),
    Step::AddThread(100),
    Step::Serve(1, 1, 7, None),
    Step::Receive(1, 1, Outcome::Waits),
    Step::Call(2, 1, 5, Outcome::ServedBy(1)),
    Step::Call(3, 1, 6, Outcome::Queued),
    Step::Serve(
        1,
        1,
        8,
        Some(Outcome::RepliedThenReceived {
            to: 2,
            client: 3,
            number: 6,
        }),
    ),
    Step::Gets(2, Some(8)),
    Step::Wins(110, (2, 110, 111)),
    Step::Serve(1, 1, 9, Some(Outcome::RepliedThenWaits(3))),
    Step::Stands(1, Status::Receiving(1)),
    Step::Wins(109, (3, 109, 110)),
];

/// The calls of released clients return, with nothing delivered, and end their lends.
const RELEASED: &[Step] = &[
    Step::AddThread(1),
    Step::AddThread(10),
    Step::AddThread(100),
    Step::Receive(1, 1, Outcome::Waits),
    Step::Call(2, 1, 5, Outcome::ServedBy(1)),
    Step::Call(3, 1, 6, Outcome::Queued),
    Step::Receive(1, 1, FROM_3),
    Step::Wins(110, (1, 110, 111)),
    Step::Release(1),
    Step::Stands(2, Status::Ready),
    Step::Stands(3, Status::Ready),
    Step::Gets(2, None),
    Step::Gets(3, None),
    Step::Wins(110, (3, 110, 111)),
    Step::Reply(1, 4, None),
    Step::Release(1),
];

const NO_PORT: &[Step] = &[
    Step::AddThread(3),
    Step::Reply(1, 0, None),
    Step::Wins(2, (1, 2, 3)),
];

const LAST_PORT: &[Step] = &[
    Step::AddThread(3),
    Step::AddThread(4),
    Step::Receive(1, 256, Outcome::Waits),
    Step::Call(2, 256, 4294967295, Outcome::ServedBy(1)),
];

const SCENES: &[Scene<'static>] = &[
    ("a server waits", SMALL, RECEIVED_FIRST),
    ("a server serves", SMALL, SERVED),
    ("calls wait", SMALL, QUEUED_FIRST),
    ("clients are released", SMALL, RELEASED),
    ("the least size", Sizes::SMALLEST, NO_PORT),
    ("the largest size", Sizes::LARGEST, LAST_PORT),
];

#[test]
fn ports(rt: HostRuntime) {
    for scene in SCENES {
        play(&rt, rt.alloc(), *scene);
    }
}
