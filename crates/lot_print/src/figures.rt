//! The lines and rows of a report over several plays.
ghost use Rattle.std.specs.Prelude.{◌≡◌, ◌≤◌, ◌+◌, ◌*◌, ◌++◌, false, flat_map, length, map};
ghost use Rattle.std.specs.List.{range_with_len};
ghost use Rattle.lot_simulation.specs.Columns as columns;
ghost use Rattle.lot_simulation.specs.Columns.{row_of};
ghost use Rattle.lot_print.specs.Figures as figures_of;
ghost use Rattle.lot_print.specs.Figures.{figures_lines, figures_record, plays_with, seeds_line};
ghost use Rattle.lot_print.specs.Figures.{spread_fields, spread_in, spread_text, spreads_text};
ghost use Rattle.lot_print.specs.Room.{AreShort, IsShort, cell_room};
ghost use Rattle.lot_io.specs.Writing.{Writes};

use crate::cells::{ReportLine, push_heading, push_numbered, push_signed};
use crate::line::{Line, RowLine};
use lot_io::{IoFault, Watched};
use lot_machine::Name;
use lot_simulation::{COLUMNS, Column, Subject, Table, Unit};
use std::io::Write;

/// A figure over several plays, in thousandths of its unit.
#[derive(Clone, Copy)]
pub struct Spread {
    /// The number of plays that have the figure.
    pub plays: u64,
    /// Whether the line of one of them tells it.
    pub told: bool,
    /// The sum, which saturates at the largest `u128`.
    pub sum: u128,
    /// The least, or 0 if no play has the figure.
    pub least: u128,
    /// The most, or 0 if no play has the figure.
    pub most: u128,
}

/// The figures of a subject over several plays.
#[derive(Drop)]
pub struct Figures {
    /// The name at the end of the last play that ended with the subject; no bytes if it has no name.
    pub name: Name,
    /// The number of plays that ended with the subject.
    pub plays: u64,
    /// The figures of its columns, and of no play after them.
    pub spreads: [Spread; COLUMNS],
}

/// Writes the lines of the subject with this number in a report over several plays. Fails with `Write` if the writer
/// fails.
pub fn write_figures<W: Write>(
    writer: &mut Watched<W>,
    subject: Subject,
    number: u32,
    figures: &Figures,
) -> Result<(), IoFault>
    requires { writer.old.failed ≡ false }
    ensures { Writes W.contents writer.old writer.new result (figures_lines subject number figures.now) }
{
    first_line(subject, number, figures).write_to(writer)?;
    write_further(writer, subject, number, figures)
}

/// Writes the lines after the first.
fn write_further<W: Write>(
    writer: &mut Watched<W>,
    subject: Subject,
    number: u32,
    figures: &Figures,
) -> Result<(), IoFault>
    requires { writer.old.failed ≡ false }
    ensures { Writes W.contents writer.old writer.new result
        (flat_map (figures_of.further_line subject number figures.now)
        (range_with_len 1 (columns.further_lines subject))) }
{
    for place in 0..subject.further_lines() {
        further_line(subject, number, figures, place + 1).write_to(writer)?;
    }
    Ok(())
}

/// The first line: the number of plays, and the figures of the first columns.
#[tactic(auto, unfolding(crate::specs::Figures::first_line), using(crate::proofs::ColumnFacts::short_columns))]
fn first_line(subject: Subject, number: u32, figures: &Figures) -> ReportLine
    ensures { result ≡ figures_of.first_line subject number figures.now }
{
    let mut line = ReportLine::new();
    push_heading(&mut line, subject, number, &figures.name);
    line.push_field(" plays ", figures.plays);
    push_spreads(
        &mut line,
        Some(0),
        figures.plays,
        subject.columns(),
        &figures.spreads,
    );
    line.push_text("\n");
    line
}

/// The line with this number after the first; empty unless a play tells each of its figures.
#[tactic(auto, unfolding(crate::specs::Figures::further_line), using(crate::proofs::ColumnFacts::short_columns))]
fn further_line(subject: Subject, number: u32, figures: &Figures, place: u32) -> ReportLine
    ensures { result ≡ figures_of.further_line subject number figures.now place }
{
    let mut line = ReportLine::new();
    let columns = subject.columns();
    if tells_all(place, columns, &figures.spreads) {
        push_heading(&mut line, subject, number, &figures.name);
        push_spreads(
            &mut line,
            Some(place),
            figures.plays,
            columns,
            &figures.spreads,
        );
        line.push_text("\n");
    }
    line
}

/// Whether a play's report tells each figure of this line.
fn tells_all(line: u32, columns: &[Column], spreads: &[Spread]) -> bool
    ensures { result ≡ figures_of.tells_all line (map row_of columns.now) spreads.now }
{
    let mut others = columns;
    let mut rest = spreads;
    while let [column, later @ ..] = others {
        let [spread, after @ ..] = rest else {
            return true;
        };
        if column.3 == line && !spread.told {
            return false;
        }
        others = later;
        rest = after;
    }
    true
}

/// Appends the figures of the line with this number, or of a row.
fn push_spreads<const N: usize>(
    text: &mut Line<N>,
    line: Option<u32>,
    plays: u64,
    columns: &[Column],
    spreads: &[Spread],
)
    requires short { AreShort (map row_of columns.now) }
    requires room { length text.old + 3 * cell_room * length columns.now ≤ N }
    ensures text { text.new ≡ text.old ++ spreads_text line plays (map row_of columns.now) spreads.now }
    ensures len { length text.new ≤ length text.old + 3 * cell_room * length columns.now }
{
    let mut others = columns;
    let mut rest = spreads;
    while let [column, later @ ..] = others {
        let [spread, after @ ..] = rest else {
            return;
        };
        push_spread_in(text, line, plays, column, *spread);
        others = later;
        rest = after;
    }
}

/// Appends a column's figures to a row; or to the line with this number, if it has the column.
fn push_spread_in<const N: usize>(
    text: &mut Line<N>,
    line: Option<u32>,
    plays: u64,
    column: &Column,
    spread: Spread,
)
    requires short { IsShort (row_of column.now) }
    requires room { length text.old + 3 * cell_room ≤ N }
    ensures text { text.new ≡ text.old ++ spread_in line plays (row_of column.now) spread }
    ensures len { length text.new ≤ length text.old + 3 * cell_room }
{
    match line {
        None => push_fields(text, spread),
        Some(number) => {
            if column.3 == number {
                push_spread(text, plays, column, spread);
            }
        }
    }
}

/// Appends a column's word, and the mean, the least and the most of its figures over the plays that have one, if any
/// has.
#[tactic(auto, unfolding(crate::specs::Figures::spread_text))]
fn push_spread<const N: usize>(line: &mut Line<N>, plays: u64, column: &Column, spread: Spread)
    requires short { IsShort (row_of column.now) }
    requires room { length line.old + 3 * cell_room ≤ N }
    ensures text { line.new ≡ line.old ++ spread_text plays (row_of column.now) spread }
    ensures len { length line.new ≤ length line.old + 3 * cell_room }
{
    if spread.plays == 0 {
        return;
    }
    let (word, unit) = (column.0, column.2);
    line.push_text(" ");
    line.push_text(plays_word(unit, word));
    push_signed(line, " mean ", unit, spread.sum / u128::from(spread.plays));
    push_signed(line, " least ", unit, spread.least);
    push_signed(line, " most ", unit, spread.most);
    push_plays_with(line, unit, spread.plays, plays);
}

/// The word of a column with this unit over several plays.
fn plays_word(unit: Unit, word: &str) -> &str
    requires { length word.now ≤ 12 }
    ensures word { result.now ≡ figures_of.plays_word unit word.now }
    ensures len { length result.now ≤ 12 }
{
    match unit {
        Unit::Mean => "average",
        Unit::One | Unit::Percent | Unit::End => word,
    }
}

/// Appends, after the figures of an end, the number of plays in which it came.
fn push_plays_with<const N: usize>(line: &mut Line<N>, unit: Unit, count: u64, plays: u64)
    requires { length line.old + 48 ≤ N }
    ensures text { line.new ≡ line.old ++ plays_with unit count plays }
    ensures len { length line.new ≤ length line.old + 48 }
{
    match unit {
        Unit::End => {
            line.push_field(" in ", count);
            line.push_field(" of ", plays);
        }
        Unit::One | Unit::Mean | Unit::Percent => (),
    }
}

/// Appends the mean, the least and the most of a figure to a row, or three empty fields if no play has it.
#[tactic(auto, unfolding(crate::specs::Figures::spread_fields))]
fn push_fields<const N: usize>(row: &mut Line<N>, spread: Spread)
    requires { length row.old + 3 * cell_room ≤ N }
    ensures text { row.new ≡ row.old ++ spread_fields spread }
    ensures len { length row.new ≤ length row.old + 3 * cell_room }
{
    if spread.plays == 0 {
        row.push_text(",,,");
        return;
    }
    row.push_figure(",", spread.sum / u128::from(spread.plays));
    row.push_figure(",", spread.least);
    row.push_figure(",", spread.most);
}

/// Writes the row of the thread or the currency with this number in this table of a report over several plays. Fails
/// with `Write` if the writer fails.
pub fn write_figures_record<W: Write>(
    writer: &mut Watched<W>,
    table: Table,
    number: u32,
    figures: &Figures,
) -> Result<(), IoFault>
    requires { writer.old.failed ≡ false }
    ensures { Writes W.contents writer.old writer.new result (figures_record table number figures.now) }
{
    figures_row(table, number, figures).write_to(writer)
}

/// The row of the thread or the currency with this number in this table.
#[tactic(auto, unfolding(crate::specs::Figures::figures_record), using(crate::proofs::ColumnFacts::short_table))]
fn figures_row(table: Table, number: u32, figures: &Figures) -> ReportLine
    ensures { result ≡ figures_record table number figures.now }
{
    let mut row = ReportLine::new();
    push_numbered(&mut row, number, &figures.name);
    row.push_field(",", figures.plays);
    push_spreads(
        &mut row,
        None,
        figures.plays,
        table.columns(true),
        &figures.spreads,
    );
    row.push_text("\n");
    row
}

/// Writes the first line of a report over plays with these seeds. Fails with `Write` if the writer fails.
pub fn write_seeds<W: Write>(writer: &mut Watched<W>, first: u32, last: u32) -> Result<(), IoFault>
    requires { writer.old.failed ≡ false }
    ensures { Writes W.contents writer.old writer.new result (seeds_line first last) }
{
    seeds_text(first, last).write_to(writer)
}

/// The first line of a report over plays with these seeds.
fn seeds_text(first: u32, last: u32) -> RowLine
    ensures { result ≡ seeds_line first last }
{
    let mut line = RowLine::new();
    line.push_field("seeds ", first);
    line.push_field(" to ", last);
    line.push_text("\n");
    line
}
