//! Lines that show how tickets and currencies fund a lottery.
ghost use Rattle.std.specs.Prelude.{◌≡◌, ◌<◌, ◌≤◌, ◌+◌, ◌++◌, [], codes, false, length, unwrap_or};
ghost use Rattle.std.specs.Fmt.{decimal};
ghost use Rattle.lot_simulation.specs.Texts.{currency_value};
ghost use Rattle.lot_print.specs.Funds.{currency_funds_line, funded_text, ticket_amount_text, ticket_funds_line};
ghost use Rattle.lot_io.specs.Writing.{Writes};

use crate::Heading;
use crate::line::RowLine;
use crate::rows::push_named;
use lot_io::{IoFault, Watched};
use lot_machine::{CurrencyRow, Name, Target, TicketRow};
use std::io::Write;

/// Writes the line of a ticket: its target, its amount and its currency, and its value. The line precedes that of the
/// actor's turn. Fails with `Write` if the writer fails.
pub fn write_ticket_funds<W: Write>(
    writer: &mut Watched<W>,
    heading: Heading,
    number: u32,
    row: &TicketRow,
) -> Result<(), IoFault>
    requires working { writer.old.failed ≡ false }
    requires unit { 0 < heading.unit }
    ensures { Writes W.contents writer.old writer.new result
        (ticket_funds_line heading.style heading.unit heading.actor number row.now) }
{
    ticket_text(heading, number, row).write_to(writer)
}

fn ticket_text(heading: Heading, number: u32, row: &TicketRow) -> RowLine
    requires { 0 < heading.unit }
    ensures { result ≡ ticket_funds_line heading.style heading.unit heading.actor number row.now }
{
    let mut line = RowLine::new();
    line.push_front(heading.style);
    line.push_field("", heading.actor);
    line.push_text(" funds ");
    push_funded(&mut line, row.funds, &row.target);
    push_amount(&mut line, number, row);
    let value = u128::from(row.value);
    line.push_value(" value ", heading.style, heading.unit, value);
    line.push_text("\n");
    line
}

/// Appends a ticket's target, by its number and its name.
fn push_funded(line: &mut RowLine, funds: Target, name: &Option<Name>)
    requires { length line.old ≤ 28 }
    ensures text { line.new ≡ line.old ++ funded_text funds (unwrap_or name.now []) }
    ensures len { length line.new ≤ length line.old + 36 }
{
    match funds {
        Target::Unfunded => line.push_text("-"),
        Target::Currency(currency) => push_funded_named(line, "currency ", currency, name),
        Target::Thread(thread) => push_funded_named(line, "thread ", thread, name),
    }
}

/// Appends a word, a number and its name.
fn push_funded_named(line: &mut RowLine, word: &str, number: u32, name: &Option<Name>)
    requires { (length line.old ≤ 28) × (length word.now ≤ 9) }
    ensures text { line.new ≡ line.old
        ++ (word.now ++ (decimal number ++ (codes " " ++ unwrap_or name.now []))) }
    ensures len { length line.new ≤ length line.old + 36 }
{
    match name {
        Some(name) => push_named(line, word, number, name),
        None => {
            line.push_field(word, number);
            line.push_text(" ");
        }
    }
}

/// Appends a ticket's number, its amount and its currency.
fn push_amount(line: &mut RowLine, number: u32, row: &TicketRow)
    requires { length line.old ≤ 64 }
    ensures text { line.new ≡ line.old ++ ticket_amount_text number row.now }
    ensures len { length line.new ≤ length line.old + 56 }
{
    line.push_field(" ticket ", number);
    line.push_field(" amount ", row.amount);
    line.push_text(" of ");
    line.push_bytes(row.issuer.as_bytes());
}

/// Writes the line of a currency: its value, and the active amount that shares it. The line precedes that of the
/// actor's turn. Fails with `Write` if the writer fails.
pub fn write_currency_funds<W: Write>(
    writer: &mut Watched<W>,
    heading: Heading,
    number: u32,
    row: &CurrencyRow,
) -> Result<(), IoFault>
    requires working { writer.old.failed ≡ false }
    requires unit { 0 < heading.unit }
    ensures { Writes W.contents writer.old writer.new result
        (currency_funds_line heading.style heading.unit heading.actor number row.now) }
{
    currency_text(heading, number, row).write_to(writer)
}

fn currency_text(heading: Heading, number: u32, row: &CurrencyRow) -> RowLine
    requires { 0 < heading.unit }
    ensures { result ≡ currency_funds_line heading.style heading.unit heading.actor number row.now }
{
    let mut line = RowLine::new();
    line.push_front(heading.style);
    line.push_field("", heading.actor);
    line.push_text(" ");
    push_named(&mut line, "currency ", number, &row.name);
    push_worth(&mut line, heading, number, row.value);
    line.push_field(" active ", row.active_amount);
    line.push_text("\n");
    line
}

/// Appends a currency's value: base, which is currency 0, is worth its active amount.
fn push_worth(line: &mut RowLine, heading: Heading, number: u32, value: u64)
    requires room { length line.old ≤ 60 }
    requires unit { 0 < heading.unit }
    ensures text { line.new ≡ line.old
        ++ (codes " value " ++ currency_value heading.style heading.unit number value) }
    ensures len { length line.new ≤ length line.old + 50 }
{
    if number == 0 {
        line.push_field(" value ", value);
    } else {
        line.push_value(" value ", heading.style, heading.unit, u128::from(value));
    }
}
