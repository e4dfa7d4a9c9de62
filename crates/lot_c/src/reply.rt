//! Replies in plain fields.
ghost use Rattle.std.specs.Prelude.{◌≡◌};
ghost use Rattle.lot_machine.specs.declared.reply.Reply.TheVariants as reply;
ghost use Rattle.lot_machine.specs.declared.reply.Outcome.TheVariants as outcome;
ghost use Rattle.lot_c.specs.Numbers.{refusal_number, reply_number, trap_refusal_number};
ghost use Rattle.lot_c.specs.Replies as replies;
ghost use Rattle.lot_c.specs.Replies.{plain_reply, plain_outcome, blank_reply};

use crate::wide::Wide;
use lot_machine::{Kind, Outcome, Refusal, Reply, TrapRefusal};

/// The kinds of replies.
const TICKET: u32 = 1;

const CURRENCY: u32 = 2;

const THREAD: u32 = 3;

const FUNDED: u32 = 4;

const DONE: u32 = 5;

const LIST_TICKETS: u32 = 6;

const LIST_CURRENCIES: u32 = 7;

const LIST_THREADS: u32 = 8;

const WINNER: u32 = 9;

const IDLE: u32 = 10;

const EXPIRED: u32 = 11;

const TRAPPED: u32 = 12;

const REFUSED: u32 = 13;

/// The outcomes of a trap.
const YIELDED: u32 = 1;

const SERVED_BY: u32 = 2;

const QUEUED: u32 = 3;

const WAITS: u32 = 4;

const RECEIVED: u32 = 5;

const REPLIED: u32 = 6;

const LOCKED: u32 = 7;

const FREED: u32 = 8;

const PASSED: u32 = 9;

const EXITED: u32 = 10;

const TRAP_REFUSED: u32 = 11;

const REPLIED_THEN_RECEIVED: u32 = 12;

const REPLIED_THEN_WAITS: u32 = 13;

const SLEPT: u32 = 14;

/// A reply in plain fields. Its kind, and a trap's outcome, decide which other fields the library sets; the rest are 0.
#[repr(C)]
#[derive(Clone, Copy)]
pub struct PlainReply {
    /// The drawn number of a lottery, below the total.
    pub number: Wide,
    /// The sum of a lottery's weights.
    pub total: Wide,
    pub kind: u32,
    /// The number of the refusal, of an event or a trap.
    pub reason: u32,
    pub ticket: u32,
    pub currency: u32,
    pub thread: u32,
    /// The ticks that the thread ran.
    pub ticks: u32,
    /// The outcome of a trap.
    pub outcome: u32,
    /// The server, the client or the new owner of an outcome.
    pub other: u32,
    /// The client to which a serve replied.
    pub replied_to: u32,
    /// The number delivered or received.
    pub sent: u32,
    pub has_sent: bool,
    /// Whether a lottery was held.
    pub has_draw: bool,
    /// Whether a trap used up the quantum.
    pub ends: bool,
    /// Whether the thread runs on its processor after a draw or a trap.
    pub goes_on: bool,
}

impl PlainReply {
    const BLANK: PlainReply = PlainReply {
        number: Wide { low: 0, high: 0 },
        total: Wide { low: 0, high: 0 },
        kind: 0,
        reason: 0,
        ticket: 0,
        currency: 0,
        thread: 0,
        ticks: 0,
        outcome: 0,
        other: 0,
        replied_to: 0,
        sent: 0,
        has_sent: false,
        has_draw: false,
        ends: false,
        goes_on: false,
    };

    /// The reply in plain fields. As a separate call, which copies its result, it would make an event cost a fifth
    /// more.
    #[inline(always)]
    pub(crate) fn of(reply: Reply) -> PlainReply
        ensures { result ≡ plain_reply reply }
    {
        match reply {
            Reply::Ticket(ticket) => PlainReply::made(TICKET, ticket, 0, 0),
            Reply::Currency(currency) => PlainReply::made(CURRENCY, 0, currency, 0),
            Reply::Thread(thread) => PlainReply::made(THREAD, 0, 0, thread),
            Reply::Funded { ticket, thread } => PlainReply::made(FUNDED, ticket, 0, thread),
            Reply::Done | Reply::Killed(_) => PlainReply::made(DONE, 0, 0, 0),
            Reply::List(kind) => PlainReply::made(number_of_list(kind), 0, 0, 0),
            Reply::Winner {
                thread,
                number,
                total,
                delivered,
            } => PlainReply::of_winner(thread, number, total, delivered),
            Reply::Idle => PlainReply::made(IDLE, 0, 0, 0),
            Reply::Expired { thread, ticks } => PlainReply {
                ticks,
                ..PlainReply::made(EXPIRED, 0, 0, thread)
            },
            Reply::Trapped {
                thread,
                ticks,
                outcome,
                ends,
            } => PlainReply {
                kind: TRAPPED,
                thread,
                ticks,
                ends,
                goes_on: runs_on(outcome) && !ends,
                ..PlainReply::of_outcome(outcome)
            },
            Reply::Refused(refusal) => PlainReply {
                reason: number_of_refusal(refusal),
                ..PlainReply::made(REFUSED, 0, 0, 0)
            },
        }
    }

    /// The winner of a draw, with the number and the total of the lottery, and the number delivered to it.
    fn of_winner(thread: u32, number: u128, total: u128, delivered: Option<u32>) -> PlainReply
        ensures { result ≡ plain_reply (reply.Winner thread number total delivered) }
    {
        PlainReply {
            number: Wide::of(number),
            total: Wide::of(total),
            sent: delivered.unwrap_or(0),
            has_sent: delivered.is_some(),
            has_draw: true,
            goes_on: true,
            ..PlainReply::made(WINNER, 0, 0, thread)
        }
    }

    /// The outcome of a trap, in plain fields.
    fn of_outcome(outcome: Outcome) -> PlainReply
        ensures { result ≡ plain_outcome outcome }
    {
        match outcome {
            Outcome::Yielded => PlainReply::came_to(YIELDED, 0),
            Outcome::ServedBy(server) => PlainReply::came_to(SERVED_BY, server),
            Outcome::Queued => PlainReply::came_to(QUEUED, 0),
            Outcome::Waits => PlainReply::came_to(WAITS, 0),
            Outcome::Received { client, number } => PlainReply {
                sent: number,
                has_sent: true,
                ..PlainReply::came_to(RECEIVED, client)
            },
            Outcome::Replied(client) => PlainReply::came_to(REPLIED, client),
            Outcome::RepliedThenReceived { to, client, number } => PlainReply {
                replied_to: to,
                sent: number,
                has_sent: true,
                ..PlainReply::came_to(REPLIED_THEN_RECEIVED, client)
            },
            Outcome::RepliedThenWaits(to) => PlainReply {
                replied_to: to,
                ..PlainReply::came_to(REPLIED_THEN_WAITS, 0)
            },
            Outcome::Locked => PlainReply::came_to(LOCKED, 0),
            Outcome::Freed => PlainReply::came_to(FREED, 0),
            Outcome::Passed { to, draw } => PlainReply::of_passed(to, draw),
            Outcome::Slept => PlainReply::came_to(SLEPT, 0),
            Outcome::Exited => PlainReply::came_to(EXITED, 0),
            Outcome::Refused(refusal) => PlainReply {
                reason: number_of_trap_refusal(refusal),
                ..PlainReply::came_to(TRAP_REFUSED, 0)
            },
        }
    }

    /// A mutex passed to this thread, by this lottery if one was held.
    fn of_passed(to: u32, draw: Option<(u64, u64)>) -> PlainReply
        ensures { result ≡ plain_outcome (outcome.Passed to draw) }
    {
        match draw {
            None => PlainReply::came_to(PASSED, to),
            Some((number, total)) => PlainReply {
                number: Wide {
                    low: number,
                    high: 0,
                },
                total: Wide {
                    low: total,
                    high: 0,
                },
                has_draw: true,
                ..PlainReply::came_to(PASSED, to)
            },
        }
    }

    /// A reply of this kind, with these numbers.
    fn made(kind: u32, ticket: u32, currency: u32, thread: u32) -> PlainReply
        ensures { result ≡ record blank_reply { kind = kind; ticket = ticket; currency = currency; thread = thread } }
    {
        PlainReply {
            kind,
            ticket,
            currency,
            thread,
            ..PlainReply::BLANK
        }
    }

    /// This outcome, with this other thread.
    fn came_to(outcome: u32, other: u32) -> PlainReply
        ensures { result ≡ record blank_reply { outcome = outcome; other = other } }
    {
        PlainReply {
            outcome,
            other,
            ..PlainReply::BLANK
        }
    }
}

/// Whether the outcome of a trap leaves its thread on the processor while its quantum lasts.
fn runs_on(outcome: Outcome) -> bool
    ensures { result ≡ replies.runs_on outcome }
{
    match outcome {
        Outcome::Received { .. }
        | Outcome::Replied(_)
        | Outcome::RepliedThenReceived { .. }
        | Outcome::Locked
        | Outcome::Freed
        | Outcome::Refused(_) => true,
        Outcome::Yielded
        | Outcome::ServedBy(_)
        | Outcome::Queued
        | Outcome::Waits
        | Outcome::RepliedThenWaits(_)
        | Outcome::Passed { .. }
        | Outcome::Slept
        | Outcome::Exited => false,
    }
}

/// The kind of a reply to a listing.
fn number_of_list(kind: Kind) -> u32
    ensures { result ≡ reply_number (reply.List kind) }
{
    match kind {
        Kind::Tickets => LIST_TICKETS,
        Kind::Currencies => LIST_CURRENCIES,
        Kind::Threads => LIST_THREADS,
    }
}

fn number_of_refusal(refusal: Refusal) -> u32
    ensures { result ≡ refusal_number refusal }
{
    match refusal {
        Refusal::BadName => 1,
        Refusal::NameTaken => 2,
        Refusal::NoCurrency => 3,
        Refusal::NoTicket => 4,
        Refusal::NoTarget => 5,
        Refusal::BadAmount => 6,
        Refusal::InUse => 7,
        Refusal::Funding => 8,
        Refusal::NotFunding => 9,
        Refusal::Cycle => 10,
        Refusal::BaseFixed => 11,
        Refusal::DeadThread => 12,
        Refusal::Full => 13,
        Refusal::NoScript => 14,
        Refusal::NoThread => 15,
        Refusal::Alive => 16,
        Refusal::BadProcessor => 20,
        Refusal::Busy => 21,
        Refusal::NotRunning => 22,
        Refusal::BadTicks => 23,
        Refusal::NotAsleep => 24,
    }
}

fn number_of_trap_refusal(refusal: TrapRefusal) -> u32
    ensures { result ≡ trap_refusal_number refusal }
{
    match refusal {
        TrapRefusal::NoPort => 30,
        TrapRefusal::NothingToReply => 32,
        TrapRefusal::NoMutex => 33,
        TrapRefusal::NotOwner => 34,
        TrapRefusal::AlreadyOwner => 35,
        TrapRefusal::LockCycle => 36,
    }
}
