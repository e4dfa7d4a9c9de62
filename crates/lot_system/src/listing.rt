//! Listings.
ghost use Rattle.std.specs.Prelude.{◌≡◌, ◌≤◌, ◌++◌, codes, false};
ghost use Rattle.std.specs.Fmt.{decimal};
ghost use Rattle.std.specs.List.{flat_map, range_with_len};
ghost use Rattle.lot_simulation.specs.Texts as texts;
ghost use Rattle.lot_engine.specs.Seen.{given_count};
ghost use Rattle.lot_system.specs.Listing as listing;
ghost use Rattle.lot_system.specs.Listing.{is_there, row_line, rows_among};
ghost use Rattle.lot_io.specs.Writing.{Writes};

use lot_engine::Settled;
use lot_io::{IoFault, Watched};
use lot_machine::{CurrencyNumber, Kind, ThreadNumber, TicketNumber};
use lot_print::{write_currency, write_listing_line, write_thread, write_ticket};
use lot_simulation::LineStyle;
use std::io::Write;

/// Writes the line of an actor's turn that requests a listing, and then the kernel's listing: the number of rows, and a
/// line for each, in ascending order.
pub(crate) fn write_listing<W: Write>(
    settled: Settled<'_>,
    style: LineStyle,
    actor: u32,
    kind: Kind,
    writer: &mut Watched<W>,
) -> Result<(), IoFault>
    requires { writer.old.failed ≡ false }
    ensures { Writes W.contents writer.old writer.new result
        (texts.front style ++ (decimal actor
        ++ (codes " " ++ texts.listing_text style settled.entry.kernel.now.state kind))) }
{
    let rows = count_rows(settled, kind);
    write_listing_line(writer, style, actor, kind, rows)?;
    write_rows(settled, style, kind, writer)
}

/// The number of rows in the listing.
fn count_rows(settled: Settled<'_>, kind: Kind) -> u32
    ensures { result ≡ rows_among settled.entry.kernel.now.state kind
        (given_count settled.entry.kernel.now.state kind) }
{
    let first = first_number(kind);
    let mut rows: u32 = 0;
    for place in 0..given_count(settled, kind) {
        if has_row(settled, kind, first + place) {
            rows += 1;
        }
    }
    rows
}

/// The count of numbers given to rows of this kind, those of removed ones included.
fn given_count(settled: Settled<'_>, kind: Kind) -> u32
    ensures { result ≡ given_count settled.entry.kernel.now.state kind }
{
    match kind {
        Kind::Tickets => settled.kernel.ticket_count(),
        Kind::Currencies => settled.kernel.currency_count(),
        Kind::Threads => settled.kernel.thread_count(),
    }
}

/// The first number of the kind: base is currency 0.
fn first_number(kind: Kind) -> u32
    ensures exact { result ≡ listing.first_number kind }
    ensures small { result ≤ 1 }
{
    match kind {
        Kind::Currencies => 0,
        Kind::Tickets | Kind::Threads => 1,
    }
}

fn has_row(settled: Settled<'_>, kind: Kind, number: u32) -> bool
    ensures { result ≡ is_there settled.entry.kernel.now.state kind number }
{
    match kind {
        Kind::Tickets => settled.ticket_row(TicketNumber { number }).is_some(),
        Kind::Currencies => settled.currency_row(CurrencyNumber { number }).is_some(),
        Kind::Threads => settled.thread_row(ThreadNumber { number }).is_some(),
    }
}

/// Writes the lines of the existing rows.
fn write_rows<W: Write>(
    settled: Settled<'_>,
    style: LineStyle,
    kind: Kind,
    writer: &mut Watched<W>,
) -> Result<(), IoFault>
    requires { writer.old.failed ≡ false }
    ensures { Writes W.contents writer.old writer.new result
        (flat_map (row_line style settled.entry.kernel.now.state kind)
        (range_with_len (listing.first_number kind) (given_count settled.entry.kernel.now.state kind))) }
{
    let first = first_number(kind);
    for place in 0..given_count(settled, kind) {
        write_row(settled, style, kind, first + place, writer)?;
    }
    Ok(())
}

/// Writes the line of the row with this number, if it exists.
fn write_row<W: Write>(
    settled: Settled<'_>,
    style: LineStyle,
    kind: Kind,
    number: u32,
    writer: &mut Watched<W>,
) -> Result<(), IoFault>
    requires { writer.old.failed ≡ false }
    ensures { Writes W.contents writer.old writer.new result
        (row_line style settled.entry.kernel.now.state kind number) }
{
    let limits = settled.kernel.limits();
    match kind {
        Kind::Tickets => match settled.ticket_row(TicketNumber { number }) {
            Some(row) => write_ticket(writer, style, limits, number, &row),
            None => Ok(()),
        },
        Kind::Currencies => match settled.currency_row(CurrencyNumber { number }) {
            Some(row) => write_currency(writer, style, limits, number, &row),
            None => Ok(()),
        },
        Kind::Threads => match settled.thread_row(ThreadNumber { number }) {
            Some(row) => write_thread(writer, style, limits, number, &row),
            None => Ok(()),
        },
    }
}
