//! The lines of a lottery's entrants.
ghost use Rattle.std.specs.Prelude.{◌≡◌, ◌<◌, ◌≤◌, ◌+◌, ◌^◌, ◌++◌, codes, false, length};
ghost use Rattle.std.specs.Fmt.{decimal};
ghost use Rattle.lot_simulation.specs.Texts.{drawn_value, newline, value_text};
ghost use Rattle.lot_print.specs.Lots.{lot_line, mark, part_word, scaled_text, weight_word, why_text};
ghost use Rattle.lot_io.specs.Writing.{Writes};

use crate::Heading;
use crate::lengths::LOT_ROW;
use crate::line::Line;
use lot_io::{IoFault, Watched};
use lot_machine::Name;
use lot_simulation::LineStyle;
use std::io::Write;

type LotLine = Line<LOT_ROW>;

/// The kind of a lottery.
#[derive(Clone, Copy, Debug, PartialEq, Eq)]
pub enum Lottery {
    /// A processor's lottery among the Ready threads, by their weights (4.2).
    OfProcessor,
    /// A mutex's lottery among its waiters, by their values (6.1).
    OfMutex,
}

/// The reason why a thread doesn't weigh its value: it used a part of the quantum that it won last, or more than it
/// (4.5).
#[derive(Clone, Copy, Debug, PartialEq, Eq)]
pub struct Compensation {
    /// The thread's value.
    pub value: u64,
    /// The ticks of a quantum.
    pub quantum: u32,
    /// The ticks that the thread used.
    pub used: u32,
}

/// A thread's entry in a lottery.
#[derive(Debug, PartialEq, Eq, Drop)]
pub struct Lot {
    pub thread: u32,
    pub name: Name,
    /// Its weight in the lottery.
    pub weight: u128,
    /// The reason if the weight isn't the thread's value, otherwise `None`.
    pub compensation: Option<Compensation>,
}

/// Writes the line of a lot in a lottery with this winner: its weight, in timed style with the reason, and its range of
/// numbers, which starts with `first`. The line precedes that of the actor's turn. Fails with `Write` if the writer
/// fails.
pub fn write_lot<W: Write>(
    writer: &mut Watched<W>,
    heading: Heading,
    lottery: Lottery,
    winner: u32,
    first: u128,
    lot: &Lot,
) -> Result<(), IoFault>
    requires working { writer.old.failed ≡ false }
    requires unit { 0 < heading.unit }
    requires fits { first + lot.now.weight < 2 ^ 128 }
    ensures { Writes W.contents writer.old writer.new result
        (lot_line heading.style heading.unit heading.actor lottery winner first lot.now) }
{
    lot_text(heading, lottery, winner, first, lot).write_to(writer)
}

fn lot_text(heading: Heading, lottery: Lottery, winner: u32, first: u128, lot: &Lot) -> LotLine
    requires unit { 0 < heading.unit }
    requires fits { first + lot.now.weight < 2 ^ 128 }
    ensures { result ≡ lot_line heading.style heading.unit heading.actor lottery winner first lot.now }
{
    let mut line = LotLine::new();
    line.push_front(heading.style);
    line.push_field("", heading.actor);
    push_part(&mut line, lottery, lot);
    push_weight(&mut line, heading, lottery, lot.weight);
    push_why(&mut line, heading, lot.compensation);
    push_numbers(&mut line, heading, first, first + lot.weight);
    push_mark(&mut line, lot.thread == winner);
    line
}

/// Appends the entrant.
fn push_part(line: &mut LotLine, lottery: Lottery, lot: &Lot)
    requires { length line.old ≤ 21 }
    ensures text { line.new ≡ line.old
        ++ (part_word lottery ++ (decimal lot.now.thread ++ (codes " " ++ lot.now.name))) }
    ensures len { length line.new ≤ length line.old + 39 }
{
    let word = match lottery {
        Lottery::OfProcessor => " lot thread ",
        Lottery::OfMutex => " lot waiter ",
    };
    line.push_field(word, lot.thread);
    line.push_text(" ");
    line.push_bytes(lot.name.as_bytes());
}

/// Appends its weight in the lottery.
fn push_weight(line: &mut LotLine, heading: Heading, lottery: Lottery, weight: u128)
    requires room { length line.old ≤ 60 }
    requires unit { 0 < heading.unit }
    ensures text { line.new ≡ line.old ++ (weight_word lottery ++ value_text heading.style heading.unit weight) }
    ensures len { length line.new ≤ length line.old + 51 }
{
    let word = match lottery {
        Lottery::OfProcessor => " weight ",
        Lottery::OfMutex => " value ",
    };
    line.push_value(word, heading.style, heading.unit, weight);
}

/// Appends the reason for the weight, in timed style.
fn push_why(line: &mut LotLine, heading: Heading, compensation: Option<Compensation>)
    requires room { length line.old ≤ 111 }
    requires unit { 0 < heading.unit }
    ensures text { line.new ≡ line.old ++ why_text heading.style heading.unit compensation }
    ensures len { length line.new ≤ length line.old + 78 }
{
    match heading.style {
        LineStyle::Whole => (),
        LineStyle::Timed(_) => match compensation {
            None => (),
            Some(reason) => push_scaled(line, heading, reason),
        },
    }
}

/// Appends the value, and the quantum and the used part that scale it.
fn push_scaled(line: &mut LotLine, heading: Heading, reason: Compensation)
    requires room { length line.old ≤ 111 }
    requires unit { 0 < heading.unit }
    ensures text { line.new ≡ line.old ++ scaled_text heading.style heading.unit reason }
    ensures len { length line.new ≤ length line.old + 78 }
{
    line.push_value(
        " = value ",
        heading.style,
        heading.unit,
        u128::from(reason.value),
    );
    line.push_field(" x ", reason.quantum);
    line.push_field(" / ", reason.used);
}

/// Appends the range of numbers: its first one, and the bound below which they are.
fn push_numbers(line: &mut LotLine, heading: Heading, first: u128, below: u128)
    requires room { length line.old ≤ 189 }
    requires unit { 0 < heading.unit }
    ensures text { line.new ≡ line.old
        ++ (codes " from " ++ (drawn_value heading.style heading.unit first
        ++ (codes " below " ++ drawn_value heading.style heading.unit below))) }
    ensures len { length line.new ≤ length line.old + 99 }
{
    line.push_drawn(" from ", heading.style, heading.unit, first);
    line.push_drawn(" below ", heading.style, heading.unit, below);
}

/// Appends the mark on the winner's line, and the line's end.
fn push_mark(line: &mut LotLine, wins: bool)
    requires { length line.old ≤ 288 }
    ensures { line.new ≡ line.old ++ (mark wins ++ newline) }
{
    line.push_text(if wins { " wins\n" } else { "\n" });
}
