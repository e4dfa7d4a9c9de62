//! The subcommands of the command line, with their options.

use lot_simulation::ranges;

/// The subjects of a picture's lines and of a table's rows.
pub(crate) const LINES: &[&str] = &["thread", "currency"];

#[derive(Clone, Copy)]
pub(crate) enum Subcommand {
    Play,
    Report,
    Explain,
    Run,
    Shares,
    Chart,
}

/// A row of the table of subcommands.
pub(crate) struct SubcommandRow {
    pub(crate) subcommand: Subcommand,
    pub(crate) name: &'static str,
    /// The line of the help about it.
    pub(crate) about: &'static str,
    pub(crate) options: &'static [OptionRow],
}

/// An option of a subcommand.
pub(crate) struct OptionRow {
    pub(crate) name: &'static str,
    pub(crate) value: Value,
    pub(crate) help: &'static str,
    /// The options that exclude it.
    pub(crate) excludes: &'static [&'static str],
    /// The option that it needs.
    pub(crate) needs: Option<&'static str>,
}

/// The value of an option, with the name that it has in the help.
#[derive(Clone, Copy)]
pub(crate) enum Value {
    /// None: the option is a flag.
    Flag,
    Text(&'static str),
    /// A number from the first to the last.
    Number {
        name: &'static str,
        first: u64,
        last: u64,
    },
    /// One of `LINES`.
    Lines,
}

/// The subcommands, in the order of the help. Behind this call a caller's proof sees a slice of some rows, and not the
/// whole table.
pub(crate) fn subcommands() -> &'static [SubcommandRow] {
    &SUBCOMMANDS
}

/// The table of subcommands.
static SUBCOMMANDS: [SubcommandRow; 6] = [
    SubcommandRow {
        subcommand: Subcommand::Play,
        name: "play",
        about: "Reads an input from FILE or standard input, makes the turns of its schedule and writes a line for \
            each, and a report",
        options: &[SEED, SEEDS],
    },
    SubcommandRow {
        subcommand: Subcommand::Report,
        name: "report",
        about: "Plays an input from FILE or standard input, and writes the report alone",
        options: &[SEED, SEEDS, CSV, TABLE_BY],
    },
    SubcommandRow {
        subcommand: Subcommand::Explain,
        name: "explain",
        about: "Plays an input from FILE or standard input, and before each lottery that was won writes a line for \
            each thread that took part in it, with its weight and its numbers",
        options: &[SEED, FUNDING],
    },
    SubcommandRow {
        subcommand: Subcommand::Run,
        name: "run",
        about: "Reads an input from FILE or standard input, has threads make its commands and its processors' turns, \
            and writes a report and a schedule that gives it back",
        options: &[],
    },
    SubcommandRow {
        subcommand: Subcommand::Shares,
        name: "shares",
        about: "Reads an input from FILE or standard input, makes the turns of its schedule and writes a table of the \
            ticks that each thread has run over time",
        options: &[SEED, FROM, TO, WINDOW, QUANTA, WHOLE_SEEDS],
    },
    SubcommandRow {
        subcommand: Subcommand::Chart,
        name: "chart",
        about: "Reads an input from FILE or standard input, makes the turns of its schedule and writes a picture of \
            the ticks that each thread has run over time, an SVG",
        options: &[SEED, FROM, TO, WINDOW, PICTURE_TITLE, CHART_BY],
    },
];

/// The option for the seed of a play.
const SEED: OptionRow = OptionRow {
    name: "seed",
    value: Value::Number {
        name: "S",
        first: ranges::SEED.first as u64,
        last: ranges::SEED.last as u64,
    },
    help: "Replaces the input's seeds: processor 1 has the seed S, 1 to 2147483646, and the others' are computed from \
        it",
    excludes: &[],
    needs: None,
};

/// The option for the seeds of several plays.
const SEEDS: OptionRow = OptionRow {
    name: "seeds",
    value: Value::Text("A..B"),
    help: "Plays the input once with each seed from A to B, and writes the mean, the least and the most of each figure \
        of the report",
    excludes: &["seed"],
    needs: None,
};

/// The option for the seeds of several plays of the whole time, whose figures are ticks alone.
const WHOLE_SEEDS: OptionRow = OptionRow {
    excludes: &["seed", "quanta", "from", "to", "window"],
    ..SEEDS
};

/// The option for a report as a table.
const CSV: OptionRow = OptionRow {
    name: "csv",
    value: Value::Flag,
    help: "Writes a table with commas between the fields: the columns' names, and a row for each thread",
    excludes: &[],
    needs: None,
};

/// The option for rows by currency.
const TABLE_BY: OptionRow = OptionRow {
    name: "by",
    value: Value::Lines,
    help: "What the rows of the table stand for; thread if it is left out. Of an input that isn't lottery 3 each row \
        is a thread",
    excludes: &[],
    needs: Some("csv"),
};

/// The option for lines by currency.
const CHART_BY: OptionRow = OptionRow {
    name: "by",
    value: Value::Lines,
    help: "What the lines stand for; thread if it is left out. A line of a currency has the ticks of the threads below \
        it, so lines may add up to more than all. Of an input that isn't lottery 3 each line is a thread",
    excludes: &[],
    needs: None,
};

/// The option for the funding of each draw.
const FUNDING: OptionRow = OptionRow {
    name: "funding",
    value: Value::Flag,
    help: "Before each draw of a lottery 3 input also writes a line for each active ticket and for its currency",
    excludes: &[],
    needs: None,
};

/// The option for draws in place of ticks.
const QUANTA: OptionRow = OptionRow {
    name: "quanta",
    value: Value::Flag,
    help: "The draws that each thread has won, and not its ticks",
    excludes: &[],
    needs: None,
};

/// The option for the start of an interval of time.
const FROM: OptionRow = OptionRow {
    name: "from",
    value: Value::Number {
        name: "A",
        first: 0,
        last: u64::MAX,
    },
    help: "The tick at which it begins, and from which threads' ticks count; 0 if it is left out",
    excludes: &[],
    needs: None,
};

/// The option for the end of an interval of time.
const TO: OptionRow = OptionRow {
    name: "to",
    value: Value::Number {
        name: "B",
        first: 0,
        last: u64::MAX,
    },
    help: "The tick at which it ends; the end of the last turn if it is left out",
    excludes: &[],
    needs: None,
};

/// The option for a window of time.
const WINDOW: OptionRow = OptionRow {
    name: "window",
    value: Value::Number {
        name: "T",
        first: ranges::DURATION.first as u64,
        last: ranges::DURATION.last as u64,
    },
    help: "At each tick the share of each thread in the last T ticks, in percent",
    excludes: &[],
    needs: None,
};

const PICTURE_TITLE: OptionRow = OptionRow {
    name: "title",
    value: Value::Text("title"),
    help: "What the picture is called",
    excludes: &[],
    needs: None,
};
