//! The texts of replies, listings, totals, histories and refused inputs, with the expected ones written by hand.
ghost use Rattle.std.specs.Prelude.{◌≡◌};

use super::same::check_same_at;
use lot_io::{IoFault, Watched};
use lot_machine::{
    Action, CurrencyRow, Event, Kind, Limits, Name, Outcome, Refusal, Reply, Sizes, Status, Target,
    ThreadRow, TicketRow, TrapRefusal,
};
use lot_print::{
    Figures, Heading, Page, Spread, write_currency, write_early_end, write_ended, write_fault,
    write_figures, write_figures_record, write_header, write_history, write_listing_line,
    write_reply, write_report_line, write_seeds, write_thread, write_ticket, write_told,
};
use lot_simulation::{
    COLUMNS, Cell, EarlyEnd, Format, InputFault, InputRefusal, Layout, LineStyle, Subject, Table,
};
use std::alloc::Global;
use std::process::Abort;

fn check_ended(rt: &impl Abort, ended: Result<(), IoFault>, wanted: &str) {
    assert!(rt; ended.is_ok(), "{wanted}");
}

/// Checks the text written by a call with this result.
fn check(rt: &impl Abort, writer: Watched<Vec<u8>>, ended: Result<(), IoFault>, wanted: &str) {
    check_ended(rt, ended, wanted);
    let written = writer.into_inner();
    check_same_at(rt, &wanted, &written.as_slice(), &wanted.as_bytes());
}

fn name(rt: &impl Abort, text: &str) -> Name {
    Name::new(text).expect(rt, "a name")
}

/// A turn of this actor, printed with whole values.
fn whole(actor: u32) -> Heading
    ensures { result.unit ≡ 256 }
{
    Heading {
        style: LineStyle::Whole,
        unit: 256,
        actor,
    }
}

/// A turn of processor 1 at tick 120, printed with its time.
const TIMED: Heading = Heading {
    style: LineStyle::Timed(120),
    unit: 256,
    actor: 1,
};

fn check_event(
    rt: &impl Abort,
    alloc: Global,
    actor: u32,
    event: &Event,
    reply: Reply,
    wanted: &str,
) {
    let mut writer = Watched::new(Vec::new(alloc));
    let mut page = Page::new();
    let mut ended = write_reply(&mut writer, &mut page, whole(actor), event, &reply);
    if ended.is_ok() {
        ended = page.write_out(&mut writer);
    }
    check(rt, writer, ended, wanted);
}

/// Checks the line of a reply to an event that isn't a trap.
fn check_reply(rt: &impl Abort, alloc: Global, actor: u32, reply: Reply, wanted: &str) {
    check_event(rt, alloc, actor, &Event::Draw(1, 0), reply, wanted);
}

/// Checks the line of a trap of thread 1 after 2 ticks, whose end this is.
fn check_trap(rt: &impl Abort, alloc: Global, ends: bool, trap: (Action, Outcome), end: &str) {
    let (action, outcome) = trap;
    let reply = Reply::Trapped {
        thread: 1,
        ticks: 2,
        outcome,
        ends,
    };
    let wanted = format!(in alloc; "1 thread 1 ticks 2 {end}\n").expect(rt, "memory");
    check_event(rt, alloc, 1, &Event::Trap(1, 1, action), reply, &wanted);
}

const RECEIVED_FROM_5: Outcome = Outcome::Received {
    client: 5,
    number: 41,
};

const DRAWN_99: Outcome = Outcome::Passed {
    to: 6,
    draw: Some((99, 400)),
};

const TO_THE_OLDEST: Outcome = Outcome::Passed { to: 6, draw: None };

const CALL: Action = Action::Call(3, 41);

const RECEIVE: Action = Action::Receive(3);

const SERVE: Action = Action::Serve(3, 42);

const UNLOCK: Action = Action::Unlock(4, 99);

/// Traps that don't end the quantum, their outcomes, and the ends of their lines.
const TRAPS: &[(Action, Outcome, &str)] = &[
    (Action::Yield, Outcome::Yielded, "yield"),
    (CALL, Outcome::ServedBy(4), "call 3 served by 4"),
    (CALL, Outcome::Queued, "call 3 queued"),
    (RECEIVE, RECEIVED_FROM_5, "receive 3 client 5 got 41"),
    (RECEIVE, Outcome::Waits, "receive 3 waits"),
    (Action::Reply(42), Outcome::Replied(5), "reply client 5"),
    (SERVE, WAITS, "reply client 5 receive 3 waits"),
    (Action::Lock(4), Outcome::Waits, "lock 4 waits"),
    (UNLOCK, Outcome::Freed, "unlock 4 free"),
    (UNLOCK, DRAWN_99, "unlock 4 to 6 draw 99 of 400"),
    (UNLOCK, TO_THE_OLDEST, "unlock 4 to 6 oldest"),
    (Action::Exit, Outcome::Exited, "exit"),
    (Action::Sleep(()), Outcome::Slept, "sleep"),
    (
        Action::Yield,
        Outcome::Refused(TrapRefusal::NoPort),
        "refused 30 NoPort",
    ),
    (
        Action::Yield,
        Outcome::Refused(TrapRefusal::NothingToReply),
        "refused 32 NothingToReply",
    ),
    (
        Action::Yield,
        Outcome::Refused(TrapRefusal::NoMutex),
        "refused 33 NoMutex",
    ),
    (
        Action::Yield,
        Outcome::Refused(TrapRefusal::NotOwner),
        "refused 34 NotOwner",
    ),
    (
        Action::Yield,
        Outcome::Refused(TrapRefusal::AlreadyOwner),
        "refused 35 AlreadyOwner",
    ),
    (
        Action::Yield,
        Outcome::Refused(TrapRefusal::LockCycle),
        "refused 36 LockCycle",
    ),
];

const LOCK_CYCLE: Outcome = Outcome::Refused(TrapRefusal::LockCycle);

/// Traps that end the quantum.
const LAST_TRAPS: &[(Action, Outcome, &str)] = &[
    (
        SERVE,
        RECEIVED,
        "reply client 5 receive 3 client 6 got 41 ends",
    ),
    (Action::Lock(4), Outcome::Locked, "lock 4 taken ends"),
    (Action::Lock(4), LOCK_CYCLE, "refused 36 LockCycle ends"),
];

fn check_traps(rt: &impl Abort, alloc: Global, ends: bool, traps: &[(Action, Outcome, &str)]) {
    for (action, outcome, end) in traps {
        check_trap(rt, alloc, ends, (*action, *outcome), end);
    }
}

#[test]
fn prints_traps(rt: HostRuntime) {
    check_traps(&rt, rt.alloc(), false, TRAPS);
    check_traps(&rt, rt.alloc(), true, LAST_TRAPS);
}

const FUNDED: Reply = Reply::Funded {
    ticket: 8,
    thread: 3,
};

const EXPIRED: Reply = Reply::Expired {
    thread: 1,
    ticks: 100,
};

const WINNER: Reply = Reply::Winner {
    thread: 1,
    number: 9,
    total: 15,
    delivered: None,
};

const WINNER_OF_41: Reply = Reply::Winner {
    thread: 1,
    number: 5,
    total: 100,
    delivered: Some(41),
};

/// Replies to events that aren't traps, and their lines.
const REPLIES: &[(Reply, &str)] = &[
    (Reply::Ticket(1), "1 ticket 1\n"),
    (Reply::Currency(2), "1 currency 2\n"),
    (Reply::Thread(1), "1 thread 1\n"),
    (FUNDED, "1 funded 8 3\n"),
    (Reply::Done, "1 done\n"),
    (Reply::Killed(3), "1 done\n"),
    (WINNER, "1 draw 9 of 15 thread 1\n"),
    (WINNER_OF_41, "1 draw 5 of 100 thread 1 got 41\n"),
    (Reply::Idle, "1 idle\n"),
    (EXPIRED, "1 thread 1 ticks 100 expire\n"),
    (Reply::Refused(Refusal::Full), "1 refused 13 Full\n"),
];

const REFUSALS: &[(Refusal, &str)] = &[
    (Refusal::BadName, "2 refused 1 BadName\n"),
    (Refusal::NameTaken, "2 refused 2 NameTaken\n"),
    (Refusal::NoCurrency, "2 refused 3 NoCurrency\n"),
    (Refusal::NoTicket, "2 refused 4 NoTicket\n"),
    (Refusal::NoTarget, "2 refused 5 NoTarget\n"),
    (Refusal::BadAmount, "2 refused 6 BadAmount\n"),
    (Refusal::InUse, "2 refused 7 InUse\n"),
    (Refusal::Funding, "2 refused 8 Funding\n"),
    (Refusal::NotFunding, "2 refused 9 NotFunding\n"),
    (Refusal::Cycle, "2 refused 10 Cycle\n"),
    (Refusal::BaseFixed, "2 refused 11 BaseFixed\n"),
    (Refusal::DeadThread, "2 refused 12 DeadThread\n"),
    (Refusal::Full, "2 refused 13 Full\n"),
    (Refusal::NoScript, "2 refused 14 NoScript\n"),
    (Refusal::NoThread, "2 refused 15 NoThread\n"),
    (Refusal::Alive, "2 refused 16 Alive\n"),
    (Refusal::BadProcessor, "2 refused 20 BadProcessor\n"),
    (Refusal::Busy, "2 refused 21 Busy\n"),
    (Refusal::NotRunning, "2 refused 22 NotRunning\n"),
    (Refusal::BadTicks, "2 refused 23 BadTicks\n"),
    (Refusal::NotAsleep, "2 refused 24 NotAsleep\n"),
];

#[test]
fn prints_replies(rt: HostRuntime) {
    for (reply, line) in REPLIES {
        check_reply(&rt, rt.alloc(), 1, *reply, line);
    }
    for (refusal, line) in REFUSALS {
        check_reply(&rt, rt.alloc(), 2, Reply::Refused(*refusal), line);
    }
}

/// Checks the text of a refused line, whose end this is.
fn check_fault(rt: &impl Abort, alloc: Global, line: u32, refusal: InputRefusal, end: &str) {
    let mut writer = Watched::new(Vec::new(alloc));
    let ended = write_fault(&mut writer, InputFault { line, refusal });
    let wanted = format!(in alloc; "refused line {end}\n").expect(rt, "memory");
    check(rt, writer, ended, &wanted);
}

/// Refused lines, their refusals, and the ends of the printed texts.
const FAULTS: &[(u32, InputRefusal, &str)] = &[
    (1, InputRefusal::BadHeader, "1 50 BadHeader"),
    (2, InputRefusal::BadLine, "2 51 BadLine"),
    (2, InputRefusal::BadNumber, "2 52 BadNumber"),
    (3, InputRefusal::UnknownName, "3 53 UnknownName"),
    (2, InputRefusal::OpenScript, "2 54 OpenScript"),
    (11, InputRefusal::TooDeep, "11 55 TooDeep"),
    (2, InputRefusal::TooLong, "2 56 TooLong"),
    (2, InputRefusal::BadActor, "2 57 BadActor"),
];

#[test]
fn prints_faults(rt: HostRuntime) {
    for (line, refusal, end) in FAULTS {
        check_fault(&rt, rt.alloc(), *line, *refusal, end);
    }
}

#[test]
fn prints_ended(rt: HostRuntime) {
    let mut writer = Watched::new(Vec::new(rt.alloc()));
    let mut page = Page::new();
    let mut ended = write_ended(&mut writer, &mut page, whole(0));
    if ended.is_ok() {
        ended = page.write_out(&mut writer);
    }
    check(&rt, writer, ended, "0 refused 41 Ended\n");
}

#[test]
fn prints_report_lines(rt: HostRuntime) {
    let mut writer = Watched::new(Vec::new(rt.alloc()));
    let ended = write_report_line(&mut writer);
    check(&rt, writer, ended, "report\n");
}

/// The largest limits, with this unit.
fn limits(rt: &impl Abort, unit: u32) -> Limits {
    let limits = Limits::new(Sizes {
        tickets: 65535,
        currencies: 4096,
        threads: 4096,
        quantum: 100,
        unit,
        ..Sizes::SMALLEST
    });
    limits.expect(rt, "limits")
}

fn target_of(rt: &impl Abort, target: Option<&str>) -> Option<Name> {
    match target {
        Some(text) => Some(name(rt, text)),
        None => None,
    }
}

fn ticket_row(rt: &impl Abort, target: Option<&str>, is_active: bool) -> TicketRow {
    TicketRow {
        amount: 1000,
        issuer: name(rt, "base"),
        target: target_of(rt, target),
        funds: match target {
            Some(_) => Target::Thread(1),
            None => Target::Unfunded,
        },
        is_active,
        value: 1000,
    }
}

/// Checks the line of a ticket with this unit, whose end this is.
fn check_ticket(rt: &impl Abort, alloc: Global, unit: u32, row: &TicketRow, end: &str) {
    let mut writer = Watched::new(Vec::new(alloc));
    let ended = write_ticket(&mut writer, LineStyle::Whole, limits(rt, unit), 1, row);
    let wanted = format!(in alloc; "ticket 1 amount 1000 in base funds {end}\n");
    check(rt, writer, ended, &wanted.expect(rt, "memory"));
}

#[test]
fn prints_tickets(rt: HostRuntime) {
    let alloc = rt.alloc();
    let row = ticket_row(&rt, Some("alice"), true);
    check_ticket(&rt, alloc, 1, &row, "alice active value 1000");
    check_ticket(&rt, alloc, 256, &row, "alice active value 3");
    let row = ticket_row(&rt, None, false);
    check_ticket(&rt, alloc, 1, &row, "- inactive value 1000");
}

fn currency_row(rt: &impl Abort) -> CurrencyRow {
    CurrencyRow {
        name: name(rt, "base"),
        backing: 0,
        issued: 2,
        active_amount: 3000,
        value: 3000,
    }
}

/// Checks the line of the currency with this number, where base is worth this unit.
fn check_currency(rt: &impl Abort, alloc: Global, number: u32, unit: u32, wanted: &str) {
    let row = currency_row(rt);
    let mut writer = Watched::new(Vec::new(alloc));
    let ended = write_currency(
        &mut writer,
        LineStyle::Whole,
        limits(rt, unit),
        number,
        &row,
    );
    check(rt, writer, ended, wanted);
}

#[test]
fn prints_currencies(rt: HostRuntime) {
    let base = "currency 0 base backing 0 issued 2 active 3000 value 3000\n";
    check_currency(&rt, rt.alloc(), 0, 1, base);
    check_currency(&rt, rt.alloc(), 0, 256, base);
    let other = "currency 1 base backing 0 issued 2 active 3000 value 11\n";
    check_currency(&rt, rt.alloc(), 1, 256, other);
}

const STATUSES: &[(Status, &str)] = &[
    (Status::Ready, "ready"),
    (
        Status::Running {
            processor: 2,
            used: 7,
        },
        "running 2 used 7",
    ),
    (Status::Receiving(1), "receiving 1"),
    (Status::Queued(1), "queued 1"),
    (Status::Served(3), "served 3"),
    (Status::Waiting(4), "waiting 4"),
    (Status::Asleep, "asleep"),
    (Status::Dead, "dead"),
];

fn thread_row(rt: &impl Abort, status: Status) -> ThreadRow {
    ThreadRow {
        name: name(rt, "thread2"),
        status,
        value: 400,
        weight: 40000,
        quanta: 5,
        ticks: 6,
    }
}

fn check_thread(rt: &impl Abort, alloc: Global, limits: Limits, row: &ThreadRow, wanted: &str) {
    let mut writer = Watched::new(Vec::new(alloc));
    let ended = write_thread(&mut writer, LineStyle::Whole, limits, 1, row);
    check(rt, writer, ended, wanted);
}

/// Checks how a thread's line shows its status.
fn check_status(rt: &impl Abort, alloc: Global, status: Status, shown: &str) {
    let row = thread_row(rt, status);
    let wanted = format!(in alloc;
        "thread 1 thread2 {shown} value 400 weight 40000 quanta 5 ticks 6\n"
    );
    let wanted = wanted.expect(rt, "memory");
    check_thread(rt, alloc, limits(rt, 1), &row, wanted.as_str());
}

#[test]
fn prints_threads(rt: HostRuntime) {
    for (status, shown) in STATUSES {
        check_status(&rt, rt.alloc(), *status, shown);
    }
}

fn check_listing_line(rt: &impl Abort, alloc: Global, kind: Kind, wanted: &str) {
    let mut writer = Watched::new(Vec::new(alloc));
    let ended = write_listing_line(&mut writer, LineStyle::Whole, 0, kind, 8);
    check(rt, writer, ended, wanted);
}

#[test]
fn prints_listing_lines(rt: HostRuntime) {
    check_listing_line(&rt, rt.alloc(), Kind::Tickets, "0 lstkt 8\n");
    check_listing_line(&rt, rt.alloc(), Kind::Currencies, "0 lscur 8\n");
    check_listing_line(&rt, rt.alloc(), Kind::Threads, "0 lsthr 8\n");
}

fn check_history(rt: &impl Abort, alloc: Global, format: Format, history: &[u8], wanted: &str) {
    let mut writer = Watched::new(Vec::new(alloc));
    let ended = write_history(&mut writer, format, history);
    check(rt, writer, ended, wanted);
}

/// 65 turns of processor 1, and one of the console.
const LONG: &[u8] = &[
    1, 1, 1, 1, 1, 1, 1, 1, 1, 1, 1, 1, 1, 1, 1, 1, 1, 1, 1, 1, 1, 1, 1, 1, 1, 1, 1, 1, 1, 1, 1, 1,
    1, 1, 1, 1, 1, 1, 1, 1, 1, 1, 1, 1, 1, 1, 1, 1, 1, 1, 1, 1, 1, 1, 1, 1, 1, 1, 1, 1, 1, 1, 1, 1,
    1, 0,
];

const LONG_LINES: &str =
    "schedule 1 1 1 1 1 1 1 1 1 1 1 1 1 1 1 1 1 1 1 1 1 1 1 1 1 1 1 1 1 1 1 1 1 1 1 1 1 1 1 1 1 1 1 1 1 1 1 1 1 1 \
    1 1 1 1 1 1 1 1 1 1 1 1 1 1\nschedule 1 0\n";

/// Processor 64 and the console in turn.
const MIXED: &[u8] = &[
    64, 0, 64, 0, 64, 0, 64, 0, 64, 0, 64, 0, 64, 0, 64, 0, 64, 0, 64, 0, 64, 0, 64, 0, 64, 0, 64,
    0, 64, 0, 64, 0, 64, 0,
];

const MIXED_LINES: &str =
    "runs 64 1 0 1 64 1 0 1 64 1 0 1 64 1 0 1 64 1 0 1 64 1 0 1 64 1 0 1 64 1 0 1 64 1 0 1 64 1 0 1 64 1 0 1 64 1 0 1 \
    64 1 0 1 64 1 0 1 64 1 0 1 64 1 0 1\nruns 64 1 0 1\n";

/// 33 runs of two turns.
const PAIRS: &[u8] = &[
    0, 0, 1, 1, 2, 2, 3, 3, 4, 4, 5, 5, 6, 6, 7, 7, 8, 8, 9, 9, 10, 10, 11, 11, 12, 12, 13, 13, 14,
    14, 15, 15, 16, 16, 17, 17, 18, 18, 19, 19, 20, 20, 21, 21, 22, 22, 23, 23, 24, 24, 25, 25, 26,
    26, 27, 27, 28, 28, 29, 29, 30, 30, 31, 31, 32, 32,
];

const LINES_OF_PAIRS: &str =
    "runs 0 2 1 2 2 2 3 2 4 2 5 2 6 2 7 2 8 2 9 2 10 2 11 2 12 2 13 2 14 2 15 2 16 2 17 2 18 2 19 2 20 2 21 2 22 2 \
    23 2 24 2 25 2 26 2 27 2 28 2 29 2 30 2 31 2\nruns 32 2\n";

/// Histories, and their lines in a format.
const HISTORIES: &[(Format, &[u8], &str)] = &[
    (Format::V1, &[], ""),
    (Format::V2, &[], ""),
    (Format::V1, &[0, 1, 64], "schedule 0 1 64\n"),
    (Format::V2, &[1, 1, 1], "runs 1 3\n"),
    (Format::V1, LONG, LONG_LINES),
    (Format::V2, LONG, "runs 1 65 0 1\n"),
    (Format::V2, MIXED, MIXED_LINES),
    (Format::V2, &[2, 2, 2, 0, 2], "runs 2 3 0 1 2 1\n"),
    (Format::V2, &[1, 1, 0], "runs 1 2 0 1\n"),
    (Format::V2, PAIRS, LINES_OF_PAIRS),
];

#[test]
fn prints_histories(rt: HostRuntime) {
    for (format, history, lines) in HISTORIES {
        check_history(&rt, rt.alloc(), *format, history, lines);
    }
}

/// Checks the line of a reply, with its time.
fn check_timed(rt: &impl Abort, alloc: Global, event: &Event, reply: Reply, wanted: &str) {
    let mut writer = Watched::new(Vec::new(alloc));
    let mut page = Page::new();
    let mut ended = write_reply(&mut writer, &mut page, TIMED, event, &reply);
    if ended.is_ok() {
        ended = page.write_out(&mut writer);
    }
    check(rt, writer, ended, wanted);
}

/// A draw of this number of this total, which thread 2 won.
fn check_drawn(rt: &impl Abort, alloc: Global, number: u128, total: u128, wanted: &str) {
    let reply = Reply::Winner {
        thread: 2,
        number,
        total,
        delivered: None,
    };
    check_timed(rt, alloc, &Event::Draw(1, 0), reply, wanted);
}

/// A trap of thread 3 after 7 ticks, and the end of its line.
fn check_trapped(rt: &impl Abort, alloc: Global, action: Action, outcome: Outcome, end: &str) {
    let reply = Reply::Trapped {
        thread: 3,
        ticks: 7,
        outcome,
        ends: false,
    };
    let wanted = format!(in alloc; "120 1 thread 3 ticks 7 {end}\n").expect(rt, "memory");
    check_timed(rt, alloc, &Event::Trap(1, 6, action), reply, &wanted);
}

/// The reply to the wake of thread 12.
fn check_woken(rt: &impl Abort, alloc: Global, reply: Reply, wanted: &str) {
    check_timed(rt, alloc, &Event::Wake { thread: 12 }, reply, wanted);
}

/// The unlock of mutex 4, which passes it to thread 5.
const PASSED: Outcome = Outcome::Passed {
    to: 5,
    draw: Some((1, 26)),
};

/// A server's reply to thread 5, after which it received from thread 6.
const RECEIVED: Outcome = Outcome::RepliedThenReceived {
    to: 5,
    client: 6,
    number: 41,
};

/// A server's reply to thread 5, after which it waits.
const WAITS: Outcome = Outcome::RepliedThenWaits(5);

/// Traps, their outcomes, and the ends of their lines.
const TIMED_TRAPS: &[(Action, Outcome, &str)] = &[
    (UNLOCK, PASSED, "unlock 4 to 5 draw 0.003 of 0.101"),
    (
        Action::Serve(2, 9),
        RECEIVED,
        "reply client 5 receive 2 client 6 got 41",
    ),
    (Action::Serve(2, 9), WAITS, "reply client 5 receive 2 waits"),
];

// 2561 / 256 is 10.00390625, 384 / 256 is 1.5, and 64 / 256 is 0.25.
#[test]
fn prints_what_is_behind_the_point(rt: HostRuntime) {
    let alloc = rt.alloc();
    check_drawn(&rt, alloc, 384, 2561, "120 1 draw 1.5 of 10.003 thread 2\n");
    check_drawn(&rt, alloc, 64, 2560, "120 1 draw 0.25 of 10 thread 2\n");
    for (action, outcome, line) in TIMED_TRAPS {
        check_trapped(&rt, alloc, *action, *outcome, line);
    }
}

#[test]
fn prints_wakes(rt: HostRuntime) {
    let refused = Reply::Refused(Refusal::NotAsleep);
    check_woken(&rt, rt.alloc(), Reply::Done, "120 1 wake thread 12\n");
    check_woken(&rt, rt.alloc(), refused, "120 1 refused 24 NotAsleep\n");
}

/// A subject with number 2 and its cells, its line, and its row in a table, if there is such a table.
struct PrintedSubject<'a> {
    subject: Subject,
    cells: &'a [Cell],
    line: &'a str,
    row: Option<&'a str>,
}

// Cells are in thousandths. A thread that never waited, had no trap refused and was made at 0 has a line without that.
const SUBJECTS: &[PrintedSubject<'static>] = &[
    PrintedSubject {
        subject: Subject::Thread,
        cells: &[Cell::Figure(4000), Cell::Figure(18446744073709551615000)],
        line: "thread 2 a quanta 4 ticks 18446744073709551615\n",
        row: Some("2,a,4,18446744073709551615\n"),
    },
    PrintedSubject {
        subject: Subject::Thread,
        cells: &[
            Cell::Figure(4000),
            Cell::Figure(2000),
            Cell::Figure(66666),
            Cell::Figure(50000),
            Cell::Figure(12500),
            Cell::Figure(3000),
            Cell::Figure(2333),
            Cell::Figure(5000),
            Cell::Figure(5000),
            Cell::Figure(2400),
            Cell::Figure(4000),
            Cell::Unsaid,
            Cell::Empty,
            Cell::Empty,
            Cell::Unsaid,
            Cell::Unsaid,
            Cell::Empty,
        ],
        line: "thread 2 a quanta 4 ticks 2 share 66.666% due 50% value 12.5% \
            ready waits 3 mean 2.333 longest 5 mutex waits 5 mean 2.4 longest 4\n",
        row: Some("2,a,4,2,66.666,50,12.5,3,2.333,5,5,2.4,4,0,,,0,0,\n"),
    },
    PrintedSubject {
        subject: Subject::Thread,
        cells: &[
            Cell::Figure(4000),
            Cell::Figure(2000),
            Cell::Figure(0),
            Cell::Figure(0),
            Cell::Figure(0),
            Cell::Unsaid,
            Cell::Empty,
            Cell::Empty,
            Cell::Unsaid,
            Cell::Empty,
            Cell::Empty,
            Cell::Figure(4294967295000),
            Cell::Figure(4294967297001),
            Cell::Figure(4294967295000),
            Cell::Figure(12000),
            Cell::Figure(0),
            Cell::Figure(4294967295000),
        ],
        line: "thread 2 a quanta 4 ticks 2 share 0% due 0% value 0% \
            reply waits 4294967295 mean 4294967297.001 longest 4294967295 refused 12 \
            made 0 ended 4294967295\n",
        row: Some("2,a,4,2,0,0,0,0,,,0,,,4294967295,4294967297.001,4294967295,12,0,4294967295\n"),
    },
    PrintedSubject {
        subject: Subject::Currency,
        cells: &[
            Cell::Figure(3000),
            Cell::Figure(33333),
            Cell::Figure(100000),
        ],
        line: "currency 2 a ticks 3 share 33.333% due 100%\n",
        row: Some("2,a,3,33.333,100\n"),
    },
    PrintedSubject {
        subject: Subject::Processor,
        cells: &[Cell::Figure(3000), Cell::Figure(4000), Cell::Figure(5000)],
        line: "processor 2 quanta 3 idle 4 ticks 5\n",
        row: None,
    },
    PrintedSubject {
        subject: Subject::Processor,
        cells: &[
            Cell::Figure(3000),
            Cell::Figure(4000),
            Cell::Figure(5000),
            Cell::Figure(6000),
        ],
        line: "processor 2 quanta 3 idle 4 ticks 5 unused 6\n",
        row: None,
    },
    PrintedSubject {
        subject: Subject::Total,
        cells: &[
            Cell::Figure(12000),
            Cell::Figure(3000),
            Cell::Figure(300000),
        ],
        line: "total turns 12 quanta 3 ticks 300\n",
        row: None,
    },
    PrintedSubject {
        subject: Subject::Total,
        cells: &[
            Cell::Figure(1000),
            Cell::Figure(2000),
            Cell::Figure(3000),
            Cell::Figure(4000),
            Cell::Figure(5000),
            Cell::Figure(2000),
            Cell::Figure(2500),
            Cell::Figure(4000),
        ],
        line: "total turns 1 quanta 2 ticks 3 refused 4 left 5 ended 2 mean 2.5 longest 4\n",
        row: None,
    },
];

fn check_subject(rt: &impl Abort, alloc: Global, printed: &PrintedSubject<'_>) {
    let (subject, name) = (printed.subject, name(rt, "a"));
    let mut writer = Watched::new(Vec::new(alloc));
    let ended = write_told(
        &mut writer,
        Layout::InLine,
        subject,
        2,
        &name,
        printed.cells,
    );
    check(rt, writer, ended, printed.line);
    if let Some(row) = printed.row {
        let mut writer = Watched::new(Vec::new(alloc));
        let ended = write_told(
            &mut writer,
            Layout::InTable,
            subject,
            2,
            &name,
            printed.cells,
        );
        check(rt, writer, ended, row);
    }
}

#[test]
fn prints_subjects(rt: HostRuntime) {
    for printed in SUBJECTS {
        check_subject(&rt, rt.alloc(), printed);
    }
}

const HEADERS: &[(Table, bool, &str)] = &[
    (Table::Schedule, false, "thread,name,quanta,ticks\n"),
    (
        Table::Timed,
        false,
        "thread,name,quanta,ticks,share_percent,due_percent,value_percent,ready_waits,ready_mean,ready_longest,\
         mutex_waits,mutex_mean,mutex_longest,reply_waits,reply_mean,reply_longest,refused,made,ended\n",
    ),
    (
        Table::Currencies,
        false,
        "currency,name,ticks,share_percent,due_percent\n",
    ),
    (
        Table::Schedule,
        true,
        "thread,name,plays,quanta_mean,quanta_least,quanta_most,ticks_mean,ticks_least,ticks_most,\
         share_percent_mean,share_percent_least,share_percent_most\n",
    ),
    (
        Table::Timed,
        true,
        "thread,name,plays,quanta_mean,quanta_least,quanta_most,ticks_mean,ticks_least,ticks_most,\
         share_percent_mean,share_percent_least,share_percent_most,\
         due_percent_mean,due_percent_least,due_percent_most,\
         value_percent_mean,value_percent_least,value_percent_most,\
         ready_waits_mean,ready_waits_least,ready_waits_most,ready_mean_mean,ready_mean_least,ready_mean_most,\
         ready_longest_mean,ready_longest_least,ready_longest_most,\
         mutex_waits_mean,mutex_waits_least,mutex_waits_most,mutex_mean_mean,mutex_mean_least,mutex_mean_most,\
         mutex_longest_mean,mutex_longest_least,mutex_longest_most,\
         reply_waits_mean,reply_waits_least,reply_waits_most,reply_mean_mean,reply_mean_least,reply_mean_most,\
         reply_longest_mean,reply_longest_least,reply_longest_most,\
         refused_mean,refused_least,refused_most,made_mean,made_least,made_most,\
         ended_mean,ended_least,ended_most\n",
    ),
    (
        Table::Currencies,
        true,
        "currency,name,plays,ticks_mean,ticks_least,ticks_most,\
         share_percent_mean,share_percent_least,share_percent_most,\
         due_percent_mean,due_percent_least,due_percent_most\n",
    ),
];

fn check_header(rt: &impl Abort, alloc: Global, table: Table, several: bool, wanted: &str) {
    let mut writer = Watched::new(Vec::new(alloc));
    let ended = write_header(&mut writer, table, several);
    check(rt, writer, ended, wanted);
}

#[test]
fn prints_headers(rt: HostRuntime) {
    for (table, several, wanted) in HEADERS {
        check_header(&rt, rt.alloc(), *table, *several, wanted);
    }
}

/// The spread of a figure that this many plays have, and that a play's line tells, in thousandths.
fn spread(plays: u64, sum: u128, least: u128, most: u128) -> Spread {
    Spread {
        plays,
        told: true,
        sum,
        least,
        most,
    }
}

/// A figure that no play has.
const NO_FIGURE: Spread = Spread {
    plays: 0,
    told: false,
    sum: 0,
    least: 0,
    most: 0,
};

/// A figure that is 0 in three plays, so that no line tells it.
const UNTOLD: Spread = Spread {
    plays: 3,
    ..NO_FIGURE
};

/// The figures of a subject with this name over this many plays, none of which has a figure.
fn no_figures(rt: &impl Abort, text: &str, plays: u64) -> Figures {
    Figures {
        name: name(rt, text),
        plays,
        spreads: [NO_FIGURE; COLUMNS],
    }
}

/// The figures of a thread of a schedule.
fn of_schedule(rt: &impl Abort) -> Figures {
    let mut figures = no_figures(rt, "a", 3);
    figures.spreads[0] = spread(3, 10000, 3000, 4000);
    figures.spreads[1] = spread(3, 90000, 0, 90000);
    figures.spreads[2] = spread(3, 150000, 45500, 54001);
    figures
}

/// The figures of a thread of a timed program that never waited, had no trap refused, and never ended.
fn of_idle(rt: &impl Abort) -> Figures {
    let mut figures = of_schedule(rt);
    figures.spreads[3] = spread(3, 100000, 33333, 33334);
    figures.spreads[4] = spread(3, 0, 0, 0);
    figures.spreads[5] = UNTOLD;
    figures.spreads[8] = UNTOLD;
    figures.spreads[11] = UNTOLD;
    figures.spreads[14] = UNTOLD;
    figures.spreads[15] = spread(3, 10000, 0, 10000);
    figures
}

/// The figures of the waits that begin with this column: a play without waits, and two with 3 waits of 7 ticks and 4 of
/// 2 ticks, the longest 5 and 1 ticks.
fn add_some_waits(figures: &mut Figures, column: usize) {
    if column < COLUMNS - 2 {
        figures.spreads[column] = spread(3, 7000, 0, 4000);
        figures.spreads[column + 1] = spread(2, 2833, 500, 2333);
        figures.spreads[column + 2] = spread(2, 6000, 1000, 5000);
    }
}

/// The figures of a thread of a timed program, which had a trap refused in one play, and ended in one. Its plays had
/// one wait for a reply of 0 ticks, 2 of one tick, and 2 of 3 ticks, the longest 0, 1 and 2 ticks.
fn of_timed(rt: &impl Abort) -> Figures {
    let mut figures = of_idle(rt);
    add_some_waits(&mut figures, 5);
    figures.spreads[11] = spread(3, 5000, 1000, 2000);
    figures.spreads[12] = spread(3, 2000, 0, 1500);
    figures.spreads[13] = spread(3, 3000, 0, 2000);
    figures.spreads[14] = spread(3, 1000, 0, 1000);
    figures.spreads[16] = spread(1, 20000, 20000, 20000);
    figures
}

/// The figures of a thread that waited only for mutexes.
fn of_waiting(rt: &impl Abort) -> Figures {
    let mut figures = of_idle(rt);
    add_some_waits(&mut figures, 8);
    figures
}

/// The figures of a currency.
fn of_currency(rt: &impl Abort) -> Figures {
    let mut figures = no_figures(rt, "g", 2);
    figures.spreads[0] = spread(2, 3000, 1000, 2000);
    figures.spreads[1] = spread(2, 99999, 33333, 66666);
    figures.spreads[2] = spread(2, 100000, 50000, 50000);
    figures
}

/// Checks the lines with these figures, and the row in this table, of the thread or the currency with number 2.
fn check_figures(
    rt: &impl Abort,
    alloc: Global,
    table: Table,
    figures: &Figures,
    wanted: &str,
    fields: &str,
) {
    let mut writer = Watched::new(Vec::new(alloc));
    let ended = write_figures(&mut writer, table.subject(), 2, figures);
    check(rt, writer, ended, wanted);
    let mut writer = Watched::new(Vec::new(alloc));
    let ended = write_figures_record(&mut writer, table, 2, figures);
    check(rt, writer, ended, fields);
}

// Of three plays the draws are 10 in all, 3.333 on average. The line of a schedule ends with the share. Of two plays
// the currency's share is 99.999% in all, 49.999% on average.
#[test]
fn prints_figures(rt: HostRuntime) {
    let wanted =
        "thread 2 a plays 3 quanta mean 3.333 least 3 most 4 ticks mean 30 least 0 most 90 \
        share mean 50% least 45.5% most 54.001%\n";
    let fields = "2,a,3,3.333,3,4,30,0,90,50,45.5,54.001\n";
    let figures = of_schedule(&rt);
    check_figures(&rt, rt.alloc(), Table::Schedule, &figures, wanted, fields);
    let wanted = "currency 2 g plays 2 ticks mean 1.5 least 1 most 2 \
        share mean 49.999% least 33.333% most 66.666% due mean 50% least 50% most 50%\n";
    let fields = "2,g,2,1.5,1,2,49.999,33.333,66.666,50,50,50\n";
    let figures = of_currency(&rt);
    check_figures(&rt, rt.alloc(), Table::Currencies, &figures, wanted, fields);
}

// 2.333 and 0.5 are 2.833 in all: 1.416 on average over the two plays with such waits. 0, 0.5 and 1.5 are 0.666 on
// average. There is no line for waits that no play had, for traps without a refused one, or for lives without an end.
#[test]
fn prints_timed_figures(rt: HostRuntime) {
    let wanted =
        "thread 2 a plays 3 quanta mean 3.333 least 3 most 4 ticks mean 30 least 0 most 90 \
        share mean 50% least 45.5% most 54.001% due mean 33.333% least 33.333% most 33.334% \
        value mean 0% least 0% most 0%\n\
        thread 2 a ready waits mean 2.333 least 0 most 4 average mean 1.416 least 0.5 most 2.333 \
        longest mean 3 least 1 most 5\n\
        thread 2 a reply waits mean 1.666 least 1 most 2 average mean 0.666 least 0 most 1.5 \
        longest mean 1 least 0 most 2\n\
        thread 2 a refused mean 0.333 least 0 most 1\n\
        thread 2 a made mean 3.333 least 0 most 10 ended mean 20 least 20 most 20 in 1 of 3\n";
    let fields = "2,a,3,3.333,3,4,30,0,90,50,45.5,54.001,33.333,33.333,33.334,0,0,0,\
        2.333,0,4,1.416,0.5,2.333,3,1,5,0,0,0,,,,,,,1.666,1,2,0.666,0,1.5,1,0,2,\
        0.333,0,1,3.333,0,10,20,20,20\n";
    let figures = of_timed(&rt);
    check_figures(&rt, rt.alloc(), Table::Timed, &figures, wanted, fields);
    let wanted =
        "thread 2 a plays 3 quanta mean 3.333 least 3 most 4 ticks mean 30 least 0 most 90 \
        share mean 50% least 45.5% most 54.001% due mean 33.333% least 33.333% most 33.334% \
        value mean 0% least 0% most 0%\n\
        thread 2 a mutex waits mean 2.333 least 0 most 4 average mean 1.416 least 0.5 most 2.333 \
        longest mean 3 least 1 most 5\n";
    let fields = "2,a,3,3.333,3,4,30,0,90,50,45.5,54.001,33.333,33.333,33.334,0,0,0,\
        0,0,0,,,,,,,2.333,0,4,1.416,0.5,2.333,3,1,5,0,0,0,,,,,,,\
        0,0,0,3.333,0,10,,,\n";
    let figures = of_waiting(&rt);
    check_figures(&rt, rt.alloc(), Table::Timed, &figures, wanted, fields);
}

/// The first figures of a processor, or of all actors, over three plays.
fn of_actors(rt: &impl Abort) -> Figures {
    let mut figures = no_figures(rt, "", 3);
    figures.spreads[0] = spread(3, 29000, 9000, 10000);
    figures.spreads[1] = spread(3, 10000, 3000, 4000);
    figures.spreads[2] = spread(3, 90000, 0, 90000);
    figures.spreads[3] = spread(3, 2000, 0, 1000);
    figures
}

/// Checks the lines of the subject with number 64 and these figures.
fn check_lines(rt: &impl Abort, alloc: Global, subject: Subject, figures: &Figures, wanted: &str) {
    let mut writer = Watched::new(Vec::new(alloc));
    let ended = write_figures(&mut writer, subject, 64, figures);
    check(rt, writer, ended, wanted);
}

#[test]
fn prints_figures_of_processors(rt: HostRuntime) {
    let wanted =
        "processor 64 plays 3 quanta mean 9.666 least 9 most 10 idle mean 3.333 least 3 most 4 \
        ticks mean 30 least 0 most 90 unused mean 0.666 least 0 most 1\n";
    let figures = of_actors(&rt);
    check_lines(&rt, rt.alloc(), Subject::Processor, &figures, wanted);
}

const WHOLE_FIGURES: &str =
    "total plays 3 turns mean 9.666 least 9 most 10 quanta mean 3.333 least 3 most 4 \
    ticks mean 30 least 0 most 90 refused mean 0.666 least 0 most 1 left mean 0 least 0 most 0\n";

const WHOLE_FIGURES_WITH_LIVES: &str =
    "total plays 3 turns mean 9.666 least 9 most 10 quanta mean 3.333 least 3 most 4 \
    ticks mean 30 least 0 most 90 refused mean 0.666 least 0 most 1 left mean 0 least 0 most 0\n\
    total ended mean 1.666 least 0 most 3 average mean 2.416 least 2.333 most 2.5 \
    longest mean 4.5 least 4 most 5\n";

// In one play no thread has ended; in the others two had lived for 5 ticks, and three for 7: 2.5 and 2.333 on average.
#[test]
fn prints_whole_figures(rt: HostRuntime) {
    let mut figures = of_actors(&rt);
    figures.spreads[4] = spread(3, 0, 0, 0);
    figures.spreads[5] = UNTOLD;
    check_lines(&rt, rt.alloc(), Subject::Total, &figures, WHOLE_FIGURES);
    figures.spreads[5] = spread(3, 5000, 0, 3000);
    figures.spreads[6] = spread(2, 4833, 2333, 2500);
    figures.spreads[7] = spread(2, 9000, 4000, 5000);
    check_lines(
        &rt,
        rt.alloc(),
        Subject::Total,
        &figures,
        WHOLE_FIGURES_WITH_LIVES,
    );
}

#[test]
fn prints_seeds(rt: HostRuntime) {
    let mut writer = Watched::new(Vec::new(rt.alloc()));
    let ended = write_seeds(&mut writer, 1, 2147483646);
    check(&rt, writer, ended, "seeds 1 to 2147483646\n");
}

#[test]
fn prints_early_ends(rt: HostRuntime) {
    let early = EarlyEnd {
        time: 1,
        end: u32::MAX,
        turns: u64::MAX,
    };
    let mut writer = Watched::new(Vec::new(rt.alloc()));
    let ended = write_early_end(&mut writer, early);
    let wanted = "ended at 1 of 4294967295: 18446744073709551615 turns made\n";
    check(&rt, writer, ended, wanted);
}
