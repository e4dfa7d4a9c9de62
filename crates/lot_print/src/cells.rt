//! The lines of a report, and the rows of its tables.
ghost use Rattle.std.specs.Prelude.{◌≡◌, ◌≤◌, ◌+◌, ◌*◌, ◌++◌, codes, false, flat_map, length, map};
ghost use Rattle.std.specs.Fmt.{decimal};
ghost use Rattle.lot_simulation.specs.Columns as columns;
ghost use Rattle.lot_simulation.specs.Columns.{cell_text, cells_text, header_row, heading, names_text, row_of, sign};
ghost use Rattle.lot_simulation.specs.Columns.{start_text, thousandths_text, told_text};
ghost use Rattle.lot_simulation.specs.declared.columns.Layout.TheVariants.{InLine, InTable};
ghost use Rattle.lot_print.specs.Room.{AreShort, IsShort, cell_room, start_room};
ghost use Rattle.lot_io.specs.Writing.{Writes};

use crate::lengths::REPORT_LINE;
use crate::line::Line;
use crate::rows::push_named;
use lot_io::{IoFault, Watched};
use lot_machine::Name;
use lot_simulation::{Cell, Column, Layout, Subject, Table, Unit};
use std::io::Write;

/// A line or a row of a report.
pub(crate) type ReportLine = Line<REPORT_LINE>;

/// Writes the line of this subject in a report, or its row in a table, with these cells in its first columns. A
/// processor has no name, and all actors have no number either. Fails with `Write` if the writer fails.
pub fn write_told<W: Write>(
    writer: &mut Watched<W>,
    layout: Layout,
    subject: Subject,
    number: u32,
    name: &Name,
    cells: &[Cell],
) -> Result<(), IoFault>
    requires { writer.old.failed ≡ false }
    ensures { Writes W.contents writer.old writer.new result
        (told_text layout subject number name.now cells.now) }
{
    told_line(layout, subject, number, name, cells).write_to(writer)
}

/// The line or the row of this subject with these cells.
#[tactic(auto, unfolding(lot_simulation::specs::Columns::told_text), using(crate::proofs::ColumnFacts::short_columns))]
fn told_line(
    layout: Layout,
    subject: Subject,
    number: u32,
    name: &Name,
    cells: &[Cell],
) -> ReportLine
    ensures { result ≡ told_text layout subject number name.now cells.now }
{
    let mut line = ReportLine::new();
    push_start(&mut line, layout, subject, number, name);
    push_cells(&mut line, layout, subject.columns(), cells);
    line.push_text("\n");
    line
}

/// Appends the start of a line or of a row.
fn push_start<const N: usize>(
    line: &mut Line<N>,
    layout: Layout,
    subject: Subject,
    number: u32,
    name: &Name,
)
    requires { length line.old + 36 ≤ N }
    ensures text { line.new ≡ line.old ++ start_text layout subject number name.now }
    ensures len { length line.new ≤ length line.old + 36 }
{
    match layout {
        Layout::InLine => push_heading(line, subject, number, name),
        Layout::InTable => push_numbered(line, number, name),
    }
}

/// Appends the subject of a line, with its number and name if it has them.
pub(crate) fn push_heading<const N: usize>(
    line: &mut Line<N>,
    subject: Subject,
    number: u32,
    name: &Name,
)
    requires { length line.old + 36 ≤ N }
    ensures text { line.new ≡ line.old ++ heading subject number name.now }
    ensures len { length line.new ≤ length line.old + 36 }
{
    match subject {
        Subject::Thread => push_named(line, "thread ", number, name),
        Subject::Currency => push_named(line, "currency ", number, name),
        Subject::Processor => line.push_field("processor ", number),
        Subject::Total => line.push_text("total"),
    }
}

/// Appends the number and the name that begin a row.
pub(crate) fn push_numbered<const N: usize>(line: &mut Line<N>, number: u32, name: &Name)
    requires { length line.old + 27 ≤ N }
    ensures text { line.new ≡ line.old ++ (decimal number ++ (codes "," ++ name.now)) }
    ensures len { length line.new ≤ length line.old + 27 }
{
    line.push_number(number);
    line.push_text(",");
    line.push_bytes(name.as_bytes());
}

/// Appends the cells below these columns.
fn push_cells<const N: usize>(
    line: &mut Line<N>,
    layout: Layout,
    columns: &[Column],
    cells: &[Cell],
)
    requires short { AreShort (map row_of columns.now) }
    requires room { length line.old + cell_room * length columns.now ≤ N }
    ensures text { line.new ≡ line.old ++ cells_text layout (map row_of columns.now) cells.now }
    ensures len { length line.new ≤ length line.old + cell_room * length columns.now }
{
    let mut others = columns;
    let mut rest = cells;
    while let [column, later @ ..] = others {
        let [cell, after @ ..] = rest else {
            return;
        };
        push_cell(line, layout, column, *cell);
        others = later;
        rest = after;
    }
}

/// Appends a cell below this column.
fn push_cell<const N: usize>(line: &mut Line<N>, layout: Layout, column: &Column, cell: Cell)
    requires short { IsShort (row_of column.now) }
    requires room { length line.old + cell_room ≤ N }
    ensures text { line.new ≡ line.old ++ cell_text layout (row_of column.now) cell }
    ensures len { length line.new ≤ length line.old + cell_room }
{
    match layout {
        Layout::InLine => push_worded(line, column, cell),
        Layout::InTable => push_field(line, column, cell),
    }
}

/// Appends a cell to a line, after its column's word.
fn push_worded<const N: usize>(line: &mut Line<N>, column: &Column, cell: Cell)
    requires short { IsShort (row_of column.now) }
    requires room { length line.old + cell_room ≤ N }
    ensures text { line.new ≡ line.old ++ cell_text InLine (row_of column.now) cell }
    ensures len { length line.new ≤ length line.old + cell_room }
{
    let Cell::Figure(figure) = cell else {
        return;
    };
    line.push_text(" ");
    line.push_text(column.0);
    push_signed(line, " ", column.2, figure);
}

/// Appends a cell to a row.
fn push_field<const N: usize>(line: &mut Line<N>, column: &Column, cell: Cell)
    requires { length line.old + cell_room ≤ N }
    ensures text { line.new ≡ line.old ++ cell_text InTable (row_of column.now) cell }
    ensures len { length line.new ≤ length line.old + cell_room }
{
    match cell {
        Cell::Empty => line.push_text(","),
        Cell::Unsaid => line.push_text(",0"),
        Cell::Figure(figure) => line.push_figure(",", figure),
    }
}

/// Appends a word, and a figure with the sign of its unit.
pub(crate) fn push_signed<const N: usize>(line: &mut Line<N>, word: &str, unit: Unit, figure: u128)
    requires { length line.old + length word.now + 44 ≤ N }
    ensures text { line.new ≡ line.old ++ (word.now ++ (thousandths_text figure ++ sign unit)) }
    ensures len { length line.new ≤ length line.old + length word.now + 44 }
{
    line.push_figure(word, figure);
    match unit {
        Unit::Percent => line.push_text("%"),
        Unit::One | Unit::Mean | Unit::End => (),
    }
}

/// Writes the first row of a table, for one play or for several. Fails with `Write` if the writer fails.
pub fn write_header<W: Write>(
    writer: &mut Watched<W>,
    table: Table,
    several: bool,
) -> Result<(), IoFault>
    requires { writer.old.failed ≡ false }
    ensures { Writes W.contents writer.old writer.new result (header_row table several) }
{
    header_of(table, several).write_to(writer)
}

/// The first row of a table.
#[tactic(auto, unfolding(lot_simulation::specs::Columns::header_row), using(crate::proofs::ColumnFacts::short_table))]
fn header_of(table: Table, several: bool) -> ReportLine
    ensures { result ≡ header_row table several }
{
    let mut row = ReportLine::new();
    row.push_text(first_names(table, several));
    push_names(&mut row, table.columns(several), several);
    row.push_text("\n");
    row
}

/// The names before those of the columns.
fn first_names(table: Table, several: bool) -> &'static str
    ensures text { result.now ≡ columns.first_names table several }
    ensures len { length result.now ≤ start_room }
{
    match (table, several) {
        (Table::Currencies, false) => "currency,name",
        (Table::Currencies, true) => "currency,name,plays",
        (Table::Schedule | Table::Timed, false) => "thread,name",
        (Table::Schedule | Table::Timed, true) => "thread,name,plays",
    }
}

/// Appends the names of these columns.
fn push_names<const N: usize>(row: &mut Line<N>, columns: &[Column], several: bool)
    requires short { AreShort (map row_of columns.now) }
    requires room { length row.old + 3 * cell_room * length columns.now ≤ N }
    ensures text { row.new ≡ row.old ++ flat_map (names_text several) (map row_of columns.now) }
    ensures len { length row.new ≤ length row.old + 3 * cell_room * length columns.now }
{
    let mut others = columns;
    while let [column, later @ ..] = others {
        push_column_names(row, column, several);
        others = later;
    }
}

/// Appends the names of a column: its own, or three for the mean, the least and the most over several plays.
fn push_column_names<const N: usize>(row: &mut Line<N>, column: &Column, several: bool)
    requires short { IsShort (row_of column.now) }
    requires room { length row.old + 3 * cell_room ≤ N }
    ensures text { row.new ≡ row.old ++ names_text several (row_of column.now) }
    ensures len { length row.new ≤ length row.old + 3 * cell_room }
{
    let name = column.1;
    row.push_text(",");
    row.push_text(name);
    if several {
        row.push_text("_mean,");
        row.push_text(name);
        row.push_text("_least,");
        row.push_text(name);
        row.push_text("_most");
    }
}
