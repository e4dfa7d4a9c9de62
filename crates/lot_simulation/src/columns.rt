//! The columns of reports, one row for each figure that a report tells of its subject. This file is the only source:
//! lines, tables and reports over several plays take their words from here.
ghost use Rattle.std.specs.Prelude.{◌≡◌, ◌≤◌, length, map};
ghost use Rattle.lot_simulation.specs.Columns as columns;

/// A column of a report: its word in a line, its name in a table, its unit, and the number of the line that has it in a
/// report over several plays. The first of those lines is 0.
pub type Column = (&'static str, &'static str, Unit, u32);

/// The most columns of a subject.
pub const COLUMNS: usize = 17;

/// The unit of a column's figures.
#[derive(Clone, Copy, Debug, PartialEq, Eq)]
pub enum Unit {
    /// A number, or a time in ticks.
    One,
    /// A mean of times in ticks; a report over several plays calls it an average.
    Mean,
    /// A percentage.
    Percent,
    /// The time of an end, in ticks; a report over several plays tells in how many of them it came.
    End,
}

/// The subject of a line of a report.
#[derive(Clone, Copy, Debug, PartialEq, Eq)]
pub enum Subject {
    Thread,
    Currency,
    Processor,
    /// All actors.
    Total,
}

/// A cell of a report. A figure is in thousandths of its unit, rounded down.
#[derive(Clone, Copy, Debug, Default, PartialEq, Eq)]
pub enum Cell {
    /// The subject has no such figure.
    #[default]
    Empty,
    /// 0, which a line leaves out.
    Unsaid,
    Figure(u128),
}

/// The layout of cells.
#[derive(Clone, Copy, Debug, PartialEq, Eq)]
pub enum Layout {
    /// In a line, each after its column's word.
    InLine,
    /// In a row of a table.
    InTable,
}

/// A table of a report.
#[derive(Clone, Copy, Debug, PartialEq, Eq)]
pub enum Table {
    /// The threads of a schedule.
    Schedule,
    /// The threads of a timed program.
    Timed,
    /// The currencies of a timed program.
    Currencies,
}

/// The columns of a thread. The report of a schedule has the first two, and the first three over several plays.
static THREAD: [Column; COLUMNS] = [
    ("quanta", "quanta", Unit::One, 0),
    ("ticks", "ticks", Unit::One, 0),
    ("share", "share_percent", Unit::Percent, 0),
    ("due", "due_percent", Unit::Percent, 0),
    ("value", "value_percent", Unit::Percent, 0),
    ("ready waits", "ready_waits", Unit::One, 1),
    ("mean", "ready_mean", Unit::Mean, 1),
    ("longest", "ready_longest", Unit::One, 1),
    ("mutex waits", "mutex_waits", Unit::One, 2),
    ("mean", "mutex_mean", Unit::Mean, 2),
    ("longest", "mutex_longest", Unit::One, 2),
    ("reply waits", "reply_waits", Unit::One, 3),
    ("mean", "reply_mean", Unit::Mean, 3),
    ("longest", "reply_longest", Unit::One, 3),
    ("refused", "refused", Unit::One, 4),
    ("made", "made", Unit::One, 5),
    ("ended", "ended", Unit::End, 5),
];

/// The columns of a currency.
static CURRENCY: [Column; 3] = [
    ("ticks", "ticks", Unit::One, 0),
    ("share", "share_percent", Unit::Percent, 0),
    ("due", "due_percent", Unit::Percent, 0),
];

/// The columns of a processor. The report of a schedule has the first three.
static PROCESSOR: [Column; 4] = [
    ("quanta", "quanta", Unit::One, 0),
    ("idle", "idle", Unit::One, 0),
    ("ticks", "ticks", Unit::One, 0),
    ("unused", "unused", Unit::One, 0),
];

/// The columns of all actors. The report of a schedule has the first three.
static TOTAL: [Column; 8] = [
    ("turns", "turns", Unit::One, 0),
    ("quanta", "quanta", Unit::One, 0),
    ("ticks", "ticks", Unit::One, 0),
    ("refused", "refused", Unit::One, 0),
    ("left", "left", Unit::One, 0),
    ("ended", "ended", Unit::One, 1),
    ("mean", "mean", Unit::Mean, 1),
    ("longest", "longest", Unit::One, 1),
];

impl Subject {
    /// The subjects in the order of a report.
    pub const ALL: [Subject; 4] = [
        Subject::Thread,
        Subject::Currency,
        Subject::Processor,
        Subject::Total,
    ];

    /// The subject's columns.
    pub fn columns(self) -> &'static [Column]
        ensures few { length result.now ≤ 17 }
        ensures rows { map columns.row_of result.now ≡ columns.columns_of self }
    {
        match self {
            Subject::Thread => &THREAD,
            Subject::Currency => &CURRENCY,
            Subject::Processor => &PROCESSOR,
            Subject::Total => &TOTAL,
        }
    }

    /// The number of lines that a report over several plays may have for it after the first.
    pub fn further_lines(self) -> u32
        ensures { result ≡ columns.further_lines self }
    {
        match self {
            Subject::Thread => 5,
            Subject::Currency | Subject::Processor => 0,
            Subject::Total => 1,
        }
    }
}

impl Table {
    /// The table's subject.
    pub fn subject(self) -> Subject
        ensures { result ≡ columns.subject_of self }
    {
        match self {
            Table::Schedule | Table::Timed => Subject::Thread,
            Table::Currencies => Subject::Currency,
        }
    }

    /// The table's columns after the number and the name, for one play or for several.
    pub fn columns(self, several: bool) -> &'static [Column]
        ensures few { length result.now ≤ 17 }
        ensures rows { map columns.row_of result.now ≡ columns.columns_in self several }
    {
        match (self, several) {
            (Table::Schedule, false) => &THREAD[..2],
            (Table::Schedule, true) => &THREAD[..3],
            (Table::Timed, _) => &THREAD,
            (Table::Currencies, _) => &CURRENCY,
        }
    }
}
