//! Named tickets: the ticket of each command, and the reply.

use super::same::{check_same, check_same_at};
use super::{opened, parsed};
use lot_machine::{Command, Event, Refusal, Reply, TicketNumber};
use lot_system::System;
use std::process::Abort;
use std::test::*;

/// Two tickets get names. The first can't be removed while it has a target. Once it is removed, another ticket gets its
/// number.
const NAMED: &str =
    "lottery 3\nfor 1\nreuse\nscript s\ncompute 5\nendscript\nmkcur g\nmktkt 5 base as gift\n\
    fundx 2 g a s as wage\nfund gift g\nsettkt wage 4\nrmtkt gift\nunfund gift\nrmtkt gift\nmktkt 6 base\n\
    rmtkt gift\nrmtkt 1\nunfund wage\n";

/// The ticket of a command, if it has one, and the reply.
type Row = (Option<u64>, Reply);

/// The turns of the commands above, in order.
const ROWS: &[Row] = &[
    (None, Reply::Currency(1)),
    (None, Reply::Ticket(1)),
    (
        None,
        Reply::Funded {
            ticket: 2,
            thread: 1,
        },
    ),
    (Some(1), Reply::Done),
    (Some(2), Reply::Done),
    (Some(1), Reply::Refused(Refusal::Funding)),
    (Some(1), Reply::Done),
    (Some(1), Reply::Done),
    (None, Reply::Ticket(1)),
    (Some(0), Reply::Refused(Refusal::NoTicket)),
    (Some(1), Reply::Done),
    (Some(2), Reply::Done),
];

/// The ticket of an event's command, if it has one.
fn ticket_of(event: &Event) -> Option<u64> {
    match event {
        Event::Command(
            Command::RemoveTicket { ticket }
            | Command::Fund { ticket, .. }
            | Command::Unfund { ticket }
            | Command::SetTicket { ticket, .. },
        ) => Some(*ticket),
        _ => None,
    }
}

/// The console's next turn.
fn next_row(rt: &impl Abort, system: &mut System) -> Row {
    match system.turn(0, None) {
        Ok(answer) => (ticket_of(&answer.event), answer.reply),
        Err(_) => rt.panic("a turn"),
    }
}

/// Compares the turns of the commands, and then the amount of the second ticket.
fn check_rows(rt: &impl Abort, system: &mut System) {
    for (made, wanted) in ROWS.iter().enumerate() {
        check_same_at(rt, &made, &next_row(rt, system), wanted);
    }
    let number = TicketNumber { number: 2 };
    let wage = system.settle().ticket_row(number).expect(rt, "a ticket");
    check_same(rt, &wage.amount, &4);
}

// A name means the ticket that got it, until the ticket is removed: then it means 0, which no ticket has.
#[test]
fn names_of_tickets(rt: HostRuntime) {
    let alloc = rt.alloc();
    let program = parsed(&rt, alloc, NAMED);
    let mut system = opened(&rt, alloc, &program, 12);
    check_rows(&rt, &mut system);
}
