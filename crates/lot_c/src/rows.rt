//! Rows of listings in plain fields.
ghost use Rattle.std.specs.Prelude.{◌≡◌};
ghost use Rattle.lot_c.specs.Numbers.{target_kind};
ghost use Rattle.lot_c.specs.Rows as rows;
ghost use Rattle.lot_c.specs.Rows.{plain_ticket_row, plain_currency_row, plain_thread_row, plain_status, plain_target};

use crate::name::PlainName;
use crate::wide::Wide;
use lot_machine::{CurrencyRow, Name, Status, Target, ThreadRow, TicketRow};

/// The statuses of threads.
const READY: u32 = 1;

const RUNNING: u32 = 2;

const RECEIVING: u32 = 3;

const QUEUED: u32 = 4;

const SERVED: u32 = 5;

const WAITING: u32 = 6;

const DEAD: u32 = 7;

const ASLEEP: u32 = 8;

/// A ticket's row in plain fields.
#[repr(C)]
#[derive(Clone, Copy)]
pub struct PlainTicketRow {
    pub value: u64,
    pub amount: u32,
    /// The currency that issues it.
    pub issuer: PlainName,
    /// The name of the currency or thread that it funds. No bytes mean a thread without a name, or no target.
    pub target: PlainName,
    /// The kind of its target: 0 for none, 1 for a currency, 2 for a thread.
    pub target_kind: u32,
    /// The number of the currency or thread that it funds, and 0 if it funds nothing.
    pub target_number: u32,
    pub has_target: bool,
    pub is_active: bool,
}

impl PlainTicketRow {
    /// The row in plain fields.
    pub(crate) fn of(row: &TicketRow) -> PlainTicketRow
        ensures { result ≡ plain_ticket_row row.now }
    {
        PlainTicketRow {
            value: row.value,
            amount: row.amount,
            issuer: PlainName::of(&row.issuer),
            target: name_of_target(&row.target),
            target_kind: target_kind(row.funds),
            target_number: target_number(row.funds),
            has_target: row.target.is_some(),
            is_active: row.is_active,
        }
    }
}

/// The kind of a target: 0 for none, 1 for a currency, 2 for a thread.
fn target_kind(target: Target) -> u32
    ensures { result ≡ target_kind target }
{
    match target {
        Target::Unfunded => 0,
        Target::Currency(_) => 1,
        Target::Thread(_) => 2,
    }
}

/// The number of a target, or 0 for none.
fn target_number(target: Target) -> u32
    ensures { result ≡ rows.target_number target }
{
    match target {
        Target::Unfunded => 0,
        Target::Currency(number) | Target::Thread(number) => number,
    }
}

/// The name of a target, or no bytes for none.
fn name_of_target(target: &Option<Name>) -> PlainName
    ensures { result ≡ plain_target target.now }
{
    match target {
        Some(name) => PlainName::of(name),
        None => PlainName {
            length: 0,
            bytes: [0; 16],
        },
    }
}

/// A currency's row in plain fields.
#[repr(C)]
#[derive(Clone, Copy)]
pub struct PlainCurrencyRow {
    pub active_amount: u64,
    pub value: u64,
    /// The number of tickets that fund it, active or not.
    pub backing: u32,
    /// The number of tickets that it issues, active or not.
    pub issued: u32,
    pub name: PlainName,
}

impl PlainCurrencyRow {
    /// The row in plain fields.
    pub(crate) fn of(row: &CurrencyRow) -> PlainCurrencyRow
        ensures { result ≡ plain_currency_row row.now }
    {
        PlainCurrencyRow {
            active_amount: row.active_amount,
            value: row.value,
            backing: row.backing,
            issued: row.issued,
            name: PlainName::of(&row.name),
        }
    }
}

/// A thread's status in plain fields.
#[repr(C)]
#[derive(Clone, Copy)]
pub struct PlainStatus {
    pub kind: u32,
    /// The processor on which it runs, if it runs.
    pub processor: u32,
    /// The ticks of its quantum that it has used, if it runs.
    pub used: u32,
    /// The port, the server or the mutex that it waits for.
    pub other: u32,
}

impl PlainStatus {
    /// The status in plain fields.
    fn of(status: Status) -> PlainStatus
        ensures { result ≡ plain_status status }
    {
        match status {
            Status::Ready => PlainStatus::waits(READY, 0),
            Status::Running { processor, used } => PlainStatus {
                kind: RUNNING,
                processor,
                used,
                other: 0,
            },
            Status::Receiving(port) => PlainStatus::waits(RECEIVING, port),
            Status::Queued(port) => PlainStatus::waits(QUEUED, port),
            Status::Served(server) => PlainStatus::waits(SERVED, server),
            Status::Waiting(mutex) => PlainStatus::waits(WAITING, mutex),
            Status::Asleep => PlainStatus::waits(ASLEEP, 0),
            Status::Dead => PlainStatus::waits(DEAD, 0),
        }
    }

    /// The status of a thread that doesn't run.
    fn waits(kind: u32, other: u32) -> PlainStatus
        ensures { result ≡ record { kind = kind; processor = 0; used = 0; other = other } }
    {
        PlainStatus {
            kind,
            processor: 0,
            used: 0,
            other,
        }
    }
}

/// A thread's row in plain fields.
#[repr(C)]
#[derive(Clone, Copy)]
pub struct PlainThreadRow {
    pub weight: Wide,
    pub value: u64,
    /// The draws won.
    pub quanta: u64,
    /// The ticks used in all.
    pub ticks: u64,
    pub status: PlainStatus,
    pub name: PlainName,
}

impl PlainThreadRow {
    /// The row in plain fields.
    pub(crate) fn of(row: &ThreadRow) -> PlainThreadRow
        ensures { result ≡ plain_thread_row row.now }
    {
        PlainThreadRow {
            weight: Wide::of(row.weight),
            value: row.value,
            quanta: row.quanta,
            ticks: row.ticks,
            status: PlainStatus::of(row.status),
            name: PlainName::of(&row.name),
        }
    }
}
