//! Writing the lots of a won lottery, and the loans at it.
ghost use Rattle.std.specs.Prelude.{◌≡◌, ◌<◌, false, IfSome, Some};
ghost use Rattle.std.specs.List.{flat_map};
ghost use Rattle.lot_io.specs.Writing.{Puts, Writes};
ghost use Rattle.lot_print.specs.Loans.{loan_line};
ghost use Rattle.lot_explain.specs.Loans.{loan_lines};
ghost use Rattle.lot_explain.specs.Lots.{lot_diagnostics, total_of, won_in as won_in_spec, won_lines};

use crate::gathering::Lots;
use crate::won::{Won, won_in};
use lot_io::{IoFault, Watched};
use lot_machine::{Event, Reply};
use lot_print::{Heading, Loan, Lot, Page, write_loan, write_lot};
use lot_simulation::LineStyle;
use std::io::Write;

/// If a thread won a lottery in the event, according to the reply, writes the lines of its lots and of the loans at it.
/// It writes the page first.
pub(crate) fn put_lots<W: Write>(
    heading: Heading,
    event: &Event,
    reply: Reply,
    lots: &Lots,
    writer: &mut Watched<W>,
    page: &mut Page,
) -> Result<(), IoFault>
    requires working { writer.old.failed ≡ false }
    requires unit { 0 < heading.unit }
    requires total { IfSome (won_in_spec event.now reply) (λ won. won.total ≡ total_of lots.now.lots) }
    ensures { Puts W.contents writer.old writer.new page.old page.new result
        (won_lines heading.style heading.unit heading.actor lots.now.lots lots.now.loans
        (won_in_spec event.now reply)) }
{
    match won_in(event, reply) {
        None => Ok(()),
        Some(won) => {
            page.write_out(writer)?;
            write_won(heading, won, lots, writer)
        }
    }
}

/// Writes the lines of the lots of a won lottery, and then those of the loans at it.
fn write_won<W: Write>(
    heading: Heading,
    won: Won,
    lots: &Lots,
    writer: &mut Watched<W>,
) -> Result<(), IoFault>
    requires working { writer.old.failed ≡ false }
    requires unit { 0 < heading.unit }
    requires total { won.total ≡ total_of lots.now.lots }
    ensures { Writes W.contents writer.old writer.new result
        (won_lines heading.style heading.unit heading.actor lots.now.lots lots.now.loans (Some won)) }
{
    write_lots(heading, won, lots.as_slice(), writer)?;
    write_loans(heading, lots.loans(), writer)
}

/// Writes the lines of the lots of a won lottery.
fn write_lots<W: Write>(
    heading: Heading,
    won: Won,
    lots: &[Lot],
    writer: &mut Watched<W>,
) -> Result<(), IoFault>
    requires working { writer.old.failed ≡ false }
    requires unit { 0 < heading.unit }
    requires total { won.total ≡ total_of lots.now }
    ensures { Writes W.contents writer.old writer.new result
        (lot_diagnostics heading.style heading.unit heading.actor won 0 lots.now) }
{
    let mut first: u128 = 0;
    for lot in lots {
        write_lot(writer, heading, won.lottery, won.winner, first, lot)?;
        first += lot.weight;
    }
    Ok(())
}

/// Writes the lines of loans, in timed style.
fn write_loans<W: Write>(
    heading: Heading,
    loans: &[Loan],
    writer: &mut Watched<W>,
) -> Result<(), IoFault>
    requires working { writer.old.failed ≡ false }
    requires unit { 0 < heading.unit }
    ensures { Writes W.contents writer.old writer.new result
        (loan_lines heading.style heading.unit heading.actor loans.now) }
{
    match heading.style {
        LineStyle::Whole => Ok(()),
        LineStyle::Timed(_) => write_each_loan(heading, loans, writer),
    }
}

/// Writes the lines of loans.
fn write_each_loan<W: Write>(
    heading: Heading,
    loans: &[Loan],
    writer: &mut Watched<W>,
) -> Result<(), IoFault>
    requires working { writer.old.failed ≡ false }
    requires unit { 0 < heading.unit }
    ensures { Writes W.contents writer.old writer.new result
        (flat_map (loan_line heading.style heading.unit heading.actor) loans.now) }
{
    for loan in loans {
        write_loan(writer, heading, loan)?;
    }
    Ok(())
}
