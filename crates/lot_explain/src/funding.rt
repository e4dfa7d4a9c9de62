//! Writing the funding at a won lottery.
ghost use Rattle.std.specs.Prelude.{◌≡◌, ◌<◌, false, length};
ghost use Rattle.std.specs.List.{flat_map, range_with_len};
ghost use Rattle.lot_machine.specs.Numbered.{numbers};
ghost use Rattle.lot_engine.specs.Seen.{world_of};
ghost use Rattle.lot_io.specs.Writing.{Puts, Writes};
ghost use Rattle.lot_explain.specs.Funding as spec;
ghost use Rattle.lot_explain.specs.Lots.{won_in as won_in_spec};

use crate::detail::Detail;
use crate::won::won_in;
use lot_engine::{Settled, System};
use lot_io::{IoFault, Watched};
use lot_machine::{CurrencyNumber, Event, Reply, TicketNumber};
use lot_print::{Heading, Lottery, Page, write_currency_funds, write_ticket_funds};
use lot_simulation::LineStyle;
use std::io::Write;

/// In this detail, if a thread won a processor's lottery in the event, according to the reply, writes the funding in
/// timed style. It writes the page first.
pub(crate) fn put_funding<W: Write>(
    system: &mut System,
    detail: Detail,
    heading: Heading,
    event: &Event,
    reply: Reply,
    writer: &mut Watched<W>,
    page: &mut Page,
) -> Result<(), IoFault>
    requires working { writer.old.failed ≡ false }
    requires unit { 0 < heading.unit }
    ensures same { system.new ≡ system.old }
    ensures text { Puts W.contents writer.old writer.new page.old page.new result
        (spec.funding_in detail (won_in_spec event.now reply) heading.style heading.unit heading.actor
        (world_of system.old).state) }
{
    match detail {
        Detail::Lots => Ok(()),
        Detail::Funding => match won_in(event, reply) {
            None => Ok(()),
            Some(won) => put_funding_at(system.settle(), won.lottery, heading, writer, page),
        },
    }
}

/// Writes the funding at a processor's lottery in timed style, after the page.
fn put_funding_at<W: Write>(
    settled: Settled<'_>,
    lottery: Lottery,
    heading: Heading,
    writer: &mut Watched<W>,
    page: &mut Page,
) -> Result<(), IoFault>
    requires working { writer.old.failed ≡ false }
    requires unit { 0 < heading.unit }
    ensures { Puts W.contents writer.old writer.new page.old page.new result
        (spec.funding_at lottery heading.style heading.unit heading.actor settled.entry.kernel.now.state) }
{
    match lottery {
        Lottery::OfMutex => Ok(()),
        Lottery::OfProcessor => match heading.style {
            LineStyle::Whole => Ok(()),
            LineStyle::Timed(_) => {
                page.write_out(writer)?;
                write_funding(settled, heading, writer)
            }
        },
    }
}

/// Writes the lines of the active tickets, and then those of the currencies with an active amount.
fn write_funding<W: Write>(
    settled: Settled<'_>,
    heading: Heading,
    writer: &mut Watched<W>,
) -> Result<(), IoFault>
    requires working { writer.old.failed ≡ false }
    requires unit { 0 < heading.unit }
    ensures { Writes W.contents writer.old writer.new result
        (spec.funding_lines heading.style heading.unit heading.actor settled.entry.kernel.now.state) }
{
    write_tickets(settled, heading, writer)?;
    write_currencies(settled, heading, writer)
}

/// Writes the lines of the active tickets.
fn write_tickets<W: Write>(
    settled: Settled<'_>,
    heading: Heading,
    writer: &mut Watched<W>,
) -> Result<(), IoFault>
    requires working { writer.old.failed ≡ false }
    requires unit { 0 < heading.unit }
    ensures { Writes W.contents writer.old writer.new result
        (flat_map (spec.ticket_funds heading.style heading.unit heading.actor settled.entry.kernel.now.state)
        (numbers settled.entry.kernel.now.state.tickets)) }
{
    for place in 0..settled.kernel.ticket_count() {
        write_ticket(settled, heading, place + 1, writer)?;
    }
    Ok(())
}

/// Writes the line of the ticket with this number, if it exists and is active.
fn write_ticket<W: Write>(
    settled: Settled<'_>,
    heading: Heading,
    number: u32,
    writer: &mut Watched<W>,
) -> Result<(), IoFault>
    requires working { writer.old.failed ≡ false }
    requires unit { 0 < heading.unit }
    ensures { Writes W.contents writer.old writer.new result
        (spec.ticket_funds heading.style heading.unit heading.actor settled.entry.kernel.now.state number) }
{
    let Some(row) = settled.ticket_row(TicketNumber { number }) else {
        return Ok(());
    };
    if !row.is_active {
        return Ok(());
    }
    write_ticket_funds(writer, heading, number, &row)
}

/// Writes the lines of the currencies with an active amount.
fn write_currencies<W: Write>(
    settled: Settled<'_>,
    heading: Heading,
    writer: &mut Watched<W>,
) -> Result<(), IoFault>
    requires working { writer.old.failed ≡ false }
    requires unit { 0 < heading.unit }
    ensures { Writes W.contents writer.old writer.new result
        (flat_map (spec.currency_funds heading.style heading.unit heading.actor settled.entry.kernel.now.state)
        (range_with_len 0 (length settled.entry.kernel.now.state.currencies))) }
{
    for number in 0..settled.kernel.currency_count() {
        write_currency(settled, heading, number, writer)?;
    }
    Ok(())
}

/// Writes the line of the currency with this number, if it exists and has an active amount.
fn write_currency<W: Write>(
    settled: Settled<'_>,
    heading: Heading,
    number: u32,
    writer: &mut Watched<W>,
) -> Result<(), IoFault>
    requires working { writer.old.failed ≡ false }
    requires unit { 0 < heading.unit }
    ensures { Writes W.contents writer.old writer.new result
        (spec.currency_funds heading.style heading.unit heading.actor settled.entry.kernel.now.state number) }
{
    let Some(row) = settled.currency_row(CurrencyNumber { number }) else {
        return Ok(());
    };
    if row.active_amount == 0 {
        return Ok(());
    }
    write_currency_funds(writer, heading, number, &row)
}
