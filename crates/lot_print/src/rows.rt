//! The text of listings.
ghost use Rattle.std.specs.Prelude.{◌≡◌, ◌≤◌, ◌+◌, ◌++◌, codes, false, length};
ghost use Rattle.std.specs.Fmt.{decimal};
ghost use Rattle.lot_simulation.specs.Texts.{activity_text, currency_line, currency_value, front, status_text};
ghost use Rattle.lot_simulation.specs.Texts.{thread_line, ticket_line};
ghost use Rattle.lot_print.specs.Listings.{listing_line, target_text, used_text};
ghost use Rattle.lot_io.specs.Writing.{Writes};

use crate::line::{Line, RowLine};
use lot_io::{IoFault, Watched};
use lot_machine::{CurrencyRow, Kind, Limits, Name, Status, ThreadRow, TicketRow};
use lot_simulation::LineStyle;
use std::io::Write;

/// Writes the line of an actor's turn with a listing: its kind, and the number of its rows. Fails with `Write` if the
/// writer fails.
pub fn write_listing_line<W: Write>(
    writer: &mut Watched<W>,
    style: LineStyle,
    actor: u32,
    kind: Kind,
    rows: u32,
) -> Result<(), IoFault>
    requires { writer.old.failed ≡ false }
    ensures { Writes W.contents writer.old writer.new result
        (front style ++ (decimal actor ++ (codes " " ++ listing_line kind rows))) }
{
    let mut line = RowLine::new();
    line.push_front(style);
    line.push_number(actor);
    match kind {
        Kind::Tickets => line.push_field(" lstkt ", rows),
        Kind::Currencies => line.push_field(" lscur ", rows),
        Kind::Threads => line.push_field(" lsthr ", rows),
    }
    line.push_text("\n");
    line.write_to(writer)
}

/// Writes a ticket's line in a listing of a kernel with these limits. Fails with `Write` if the writer fails.
pub fn write_ticket<W: Write>(
    writer: &mut Watched<W>,
    style: LineStyle,
    limits: Limits,
    number: u32,
    row: &TicketRow,
) -> Result<(), IoFault>
    requires { writer.old.failed ≡ false }
    ensures { Writes W.contents writer.old writer.new result (ticket_line style limits.unit number row.now) }
{
    ticket_text(style, limits, number, row).write_to(writer)
}

fn ticket_text(style: LineStyle, limits: Limits, number: u32, row: &TicketRow) -> RowLine
    ensures { result ≡ ticket_line style limits.unit number row.now }
{
    let mut line = RowLine::new();
    line.push_front(style);
    line.push_field("ticket ", number);
    push_amount(&mut line, row.amount, &row.issuer);
    push_target(&mut line, &row.target);
    push_activity(&mut line, row.is_active);
    line.push_value(" value ", style, limits.unit, u128::from(row.value));
    line.push_text("\n");
    line
}

/// Appends a ticket's amount, and its issuer.
fn push_amount(line: &mut RowLine, amount: u32, issuer: &Name)
    requires { length line.old ≤ 200 }
    ensures text { line.new ≡ line.old ++ (codes " amount " ++ (decimal amount ++ (codes " in " ++ issuer.now))) }
    ensures len { length line.new ≤ length line.old + 38 }
{
    line.push_field(" amount ", amount);
    line.push_text(" in ");
    line.push_bytes(issuer.as_bytes());
}

/// Appends a ticket's target, or `-` if it has none.
fn push_target(line: &mut RowLine, target: &Option<Name>)
    requires { length line.old ≤ 200 }
    ensures text { line.new ≡ line.old ++ (codes " funds " ++ target_text target.now) }
    ensures len { length line.new ≤ length line.old + 23 }
{
    line.push_text(" funds ");
    match target {
        Some(name) => line.push_bytes(name.as_bytes()),
        None => line.push_text("-"),
    }
}

/// Appends whether a ticket is active.
fn push_activity(line: &mut RowLine, is_active: bool)
    requires { length line.old ≤ 200 }
    ensures text { line.new ≡ line.old ++ activity_text is_active }
    ensures len { length line.new ≤ length line.old + 9 }
{
    line.push_text(if is_active { " active" } else { " inactive" });
}

/// Writes a currency's line in a listing of a kernel with these limits; base is currency 0. Fails with `Write` if the
/// writer fails.
pub fn write_currency<W: Write>(
    writer: &mut Watched<W>,
    style: LineStyle,
    limits: Limits,
    number: u32,
    row: &CurrencyRow,
) -> Result<(), IoFault>
    requires { writer.old.failed ≡ false }
    ensures { Writes W.contents writer.old writer.new result (currency_line style limits.unit number row.now) }
{
    currency_text(style, limits, number, row).write_to(writer)
}

fn currency_text(style: LineStyle, limits: Limits, number: u32, row: &CurrencyRow) -> RowLine
    ensures { result ≡ currency_line style limits.unit number row.now }
{
    let mut line = RowLine::new();
    line.push_front(style);
    push_named(&mut line, "currency ", number, &row.name);
    line.push_field(" backing ", row.backing);
    line.push_field(" issued ", row.issued);
    line.push_field(" active ", row.active_amount);
    push_currency_value(&mut line, style, limits, number, row.value);
    line.push_text("\n");
    line
}

/// Writes a thread's line in a listing of a kernel with these limits. Fails with `Write` if the writer fails.
pub fn write_thread<W: Write>(
    writer: &mut Watched<W>,
    style: LineStyle,
    limits: Limits,
    number: u32,
    row: &ThreadRow,
) -> Result<(), IoFault>
    requires { writer.old.failed ≡ false }
    ensures { Writes W.contents writer.old writer.new result (thread_line style limits.unit number row.now) }
{
    thread_text(style, limits, number, row).write_to(writer)
}

fn thread_text(style: LineStyle, limits: Limits, number: u32, row: &ThreadRow) -> RowLine
    ensures { result ≡ thread_line style limits.unit number row.now }
{
    let mut line = RowLine::new();
    line.push_front(style);
    push_named(&mut line, "thread ", number, &row.name);
    line.push_text(" ");
    push_status(&mut line, row.status);
    line.push_value(" value ", style, limits.unit, u128::from(row.value));
    line.push_value(" weight ", style, limits.unit, row.weight);
    push_used(&mut line, row.quanta, row.ticks);
    line
}

/// Appends a thread's status.
fn push_status(line: &mut RowLine, status: Status)
    requires { length line.old ≤ 50 }
    ensures text { line.new ≡ line.old ++ status_text status }
    ensures len { length line.new ≤ length line.old + 34 }
{
    match status {
        Status::Ready => line.push_text("ready"),
        Status::Running { processor, used } => {
            line.push_field("running ", processor);
            line.push_field(" used ", used);
        }
        Status::Receiving(port) => line.push_field("receiving ", port),
        Status::Queued(port) => line.push_field("queued ", port),
        Status::Served(server) => line.push_field("served ", server),
        Status::Waiting(mutex) => line.push_field("waiting ", mutex),
        Status::Asleep => line.push_text("asleep"),
        Status::Dead => line.push_text("dead"),
    }
}

/// Appends a word, a number and its name.
pub(crate) fn push_named<const N: usize>(line: &mut Line<N>, word: &str, number: u32, name: &Name)
    requires { (length line.old + 36 ≤ N) × (length word.now ≤ 9) }
    ensures text { line.new ≡ line.old ++ (word.now ++ (decimal number ++ (codes " " ++ name.now))) }
    ensures len { length line.new ≤ length line.old + 36 }
{
    line.push_field(word, number);
    line.push_text(" ");
    line.push_bytes(name.as_bytes());
}

/// Appends the end of a line: the draws won, and the ticks used.
fn push_used(line: &mut RowLine, quanta: u64, ticks: u64)
    requires { length line.old ≤ 200 }
    ensures { line.new ≡ line.old ++ used_text quanta ticks }
{
    line.push_field(" quanta ", quanta);
    line.push_field(" ticks ", ticks);
    line.push_text("\n");
}

/// Appends a currency's value: base, which is currency 0, is worth its active amount.
fn push_currency_value(
    line: &mut RowLine,
    style: LineStyle,
    limits: Limits,
    number: u32,
    value: u64,
)
    requires { length line.old ≤ 200 }
    ensures text { line.new ≡ line.old ++ (codes " value " ++ currency_value style limits.unit number value) }
    ensures len { length line.new ≤ length line.old + 50 }
{
    if number == 0 {
        line.push_field(" value ", value);
    } else {
        line.push_value(" value ", style, limits.unit, u128::from(value));
    }
}
