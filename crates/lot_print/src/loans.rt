//! The lines of blocked threads that lend.
ghost use Rattle.std.specs.Prelude.{◌≡◌, ◌<◌, ◌≤◌, ◌+◌, ◌++◌, codes, false, length};
ghost use Rattle.std.specs.Fmt.{decimal};
ghost use Rattle.lot_simulation.specs.Texts.{newline, value_text};
ghost use Rattle.lot_print.specs.Loans.{loan_line};
ghost use Rattle.lot_io.specs.Writing.{Writes};

use crate::Heading;
use crate::line::RowLine;
use lot_io::{IoFault, Watched};
use lot_machine::Name;
use std::io::Write;

/// A blocked thread's loan.
#[derive(Debug, PartialEq, Eq, Drop)]
pub struct Loan {
    pub thread: u32,
    pub name: Name,
    /// The thread's value, all of which it lends.
    pub value: u64,
    /// The thread that it lends to.
    pub to: u32,
}

/// Writes the line of a thread that lends. The line precedes that of the actor's turn. Fails with `Write` if the writer
/// fails.
pub fn write_loan<W: Write>(
    writer: &mut Watched<W>,
    heading: Heading,
    loan: &Loan,
) -> Result<(), IoFault>
    requires working { writer.old.failed ≡ false }
    requires unit { 0 < heading.unit }
    ensures { Writes W.contents writer.old writer.new result
        (loan_line heading.style heading.unit heading.actor loan.now) }
{
    loan_text(heading, loan).write_to(writer)
}

/// The line of a thread that lends.
fn loan_text(heading: Heading, loan: &Loan) -> RowLine
    requires { 0 < heading.unit }
    ensures { result ≡ loan_line heading.style heading.unit heading.actor loan.now }
{
    let mut line = RowLine::new();
    line.push_front(heading.style);
    line.push_field("", heading.actor);
    push_lender(&mut line, loan);
    push_lent(&mut line, heading, loan);
    line
}

/// Appends the lender.
fn push_lender(line: &mut RowLine, loan: &Loan)
    requires { length line.old ≤ 21 }
    ensures text { line.new ≡ line.old
        ++ (codes " lent thread " ++ (decimal loan.now.thread ++ (codes " " ++ loan.now.name))) }
    ensures len { length line.new ≤ length line.old + 40 }
{
    line.push_field(" lent thread ", loan.thread);
    line.push_text(" ");
    line.push_bytes(loan.name.as_bytes());
}

/// Appends the value lent, the borrower, and the line's end.
fn push_lent(line: &mut RowLine, heading: Heading, loan: &Loan)
    requires room { length line.old ≤ 61 }
    requires unit { 0 < heading.unit }
    ensures { line.new ≡ line.old
        ++ (codes " value " ++ (value_text heading.style heading.unit loan.now.value
        ++ (codes " to thread " ++ (decimal loan.now.to ++ newline)))) }
{
    let value = u128::from(loan.value);
    line.push_value(" value ", heading.style, heading.unit, value);
    line.push_field(" to thread ", loan.to);
    line.push_text("\n");
}
