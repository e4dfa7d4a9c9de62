//! The words of a command line, parsed.
ghost use Rattle.std.specs.Prelude.{◌≤◌, IsSomeAnd, IsTrue};

use crate::command_line::request::{CommandLine, Request, Showing, View};
use crate::command_line::subcommands::{
    LINES, OptionRow, Subcommand, SubcommandRow, Value, subcommands,
};
use crate::command_line::tips::clearer;
use clap::builder::ValueParser;
use clap::error::ErrorKind;
use clap::{Arg, ArgAction, ArgMatches, Command, Error};
use lot_curves::{By, Interval, Measure};
use lot_explain::Detail;
use lot_program::Seed;
use lot_system::{ReportForm, Seeds};
use std::alloc::{AllocError, Global};
use std::convert::AsStr;

/// The title of a picture, unless the command line gives one.
const TITLE: &str = "What each thread has run";

/// The default title of a picture by currency. It also suits an input of another format, whose lines are threads.
const CURRENCIES_TITLE: &str = "Who has run how long";

/// The text for an empty interval.
const EMPTY_INTERVAL: &str = "the interval is empty: '--from <A>' has to be less than '--to <B>'";

/// The version of the program, which is that of the library.
const VERSION: &str = "0.4.0";

/// The text for seeds in the wrong form.
const WRONG_SEEDS: &str =
    "the seeds are wrong: '--seeds <A..B>' has two numbers from 1 to 2147483646 with '..' \
    between them, of which the first is at most the second";

/// The word for standard input in place of a file's name.
const STANDARD: &str = "-";

/// The command line without words.
const PLAY: CommandLine<'static> = CommandLine {
    request: Request::Show(Showing {
        view: View::Play,
        seed: None,
    }),
    title: TITLE,
    file: None,
};

/// Parses the words of a call of the program, its own name first. The error is clap's: of kind `OutOfMemory` if out of
/// memory. Otherwise its text tells the words' fault, or is the help that they request.
pub fn command_line_of<'a, S: AsStr>(
    alloc: Global,
    words: &'a [S],
) -> Result<CommandLine<'a>, Error> {
    let mut command = program_command(alloc)?;
    match parse(&mut command, words) {
        Ok(line) => Ok(line),
        Err(error) => Err(clearer(alloc, &mut command, words, error)?),
    }
}

/// Parses the words by this command. A function of its own, so that only the matches are alive here, and only the
/// command in the caller: each way out drops its live values, which the proof follows step by step.
fn parse<'a, S: AsStr>(
    command: &mut Command<'a>,
    words: &'a [S],
) -> Result<CommandLine<'a>, Error> {
    let matches = command.try_get_matches_from_mut(words)?;
    match wanted(&matches) {
        Ok(line) => Ok(line),
        Err(fault) => Err(command.error(ErrorKind::ValueValidation, fault)?),
    }
}

/// The command line that the words request, or the text of their fault.
fn wanted<'a>(matches: &ArgMatches<'a>) -> Result<CommandLine<'a>, &'static str> {
    let Some((name, given)) = matches.subcommand() else {
        return Ok(PLAY);
    };
    match fault_of(given) {
        Some(fault) => Err(fault),
        None => Ok(line_of(subcommand_named(name), given)),
    }
}

/// The subcommand with this name in the table.
fn subcommand_named(name: &str) -> Subcommand {
    for row in subcommands() {
        if row.name == name {
            return row.subcommand;
        }
    }
    Subcommand::Play
}

/// The program's command with its subcommands.
fn program_command<'a>(alloc: Global) -> Result<Command<'a>, AllocError> {
    let mut command = Command::new(alloc, "lot_sim")
        .about("A lottery scheduler with ticket currencies, simulated")
        .version(VERSION)
        .subcommand_required(true);
    for row in subcommands() {
        command = command.subcommand(subcommand_of(alloc, row)?)?;
    }
    Ok(command)
}

/// The command of a subcommand, with the name of its input's file and its options.
pub(crate) fn subcommand_of<'a>(
    alloc: Global,
    row: &'static SubcommandRow,
) -> Result<Command<'a>, AllocError> {
    let mut command = Command::new(alloc, row.name)
        .about(row.about)
        .arg(file_argument(alloc))?;
    for option in row.options {
        command = command.arg(option_of(alloc, option)?)?;
    }
    Ok(command)
}

/// The name of the file to read the input from.
fn file_argument<'a>(alloc: Global) -> Arg<'a> {
    Arg::new(alloc, "file")
        .value_name("FILE")
        .action(ArgAction::Set)
        .help("Where the input is; standard input if it is left out or -")
}

fn option_of<'a>(alloc: Global, row: &'static OptionRow) -> Result<Arg<'a>, AllocError> {
    let option = Arg::new(alloc, row.name).long(row.name).help(row.help);
    let option = with_value(option, row.value).conflicts_with_all(row.excludes)?;
    match row.needs {
        Some(other) => option.requires_arg(other),
        None => Ok(option),
    }
}

/// The option with a value of this kind.
fn with_value<'a>(option: Arg<'a>, value: Value) -> Arg<'a> {
    let (name, parser) = match value {
        Value::Flag => return option.action(ArgAction::SetTrue),
        Value::Text(name) => (name, ValueParser::string()),
        Value::Number { name, first, last } => (name, ValueParser::unsigned(first, last)),
        Value::Lines => ("LINES", ValueParser::Names(LINES)),
    };
    option
        .value_name(name)
        .action(ArgAction::Set)
        .value_parser(parser)
}

/// The command line of the subcommand with these options.
fn line_of<'a>(subcommand: Subcommand, given: &ArgMatches<'a>) -> CommandLine<'a> {
    CommandLine {
        request: request_of(subcommand, given),
        title: title_of(given),
        file: file_of(given),
    }
}

/// The text of the options' fault, if they have one.
fn fault_of(given: &ArgMatches<'_>) -> Option<&'static str> {
    if is_empty(interval_of(given)) {
        Some(EMPTY_INTERVAL)
    } else if given.get_str("seeds").is_some() && seeds_of(given).is_none() {
        Some(WRONG_SEEDS)
    } else {
        None
    }
}

/// The request of the subcommand with these options. With several seeds it is always the report of figures.
fn request_of(subcommand: Subcommand, given: &ArgMatches<'_>) -> Request {
    let seeds = seeds_of(given);
    let view = match subcommand {
        Subcommand::Run => return Request::Run,
        Subcommand::Explain => View::Explain(detail_of(given)),
        Subcommand::Chart => chart_of(given),
        Subcommand::Play if seeds.is_none() => View::Play,
        Subcommand::Shares if seeds.is_none() => shares_of(given),
        _ => View::Report {
            seeds,
            form: form_of(given),
        },
    };
    let seed = seed_of(given);
    Request::Show(Showing { view, seed })
}

/// The table of `shares`.
fn shares_of(given: &ArgMatches<'_>) -> View {
    View::Shares {
        measure: measure_of(given),
        interval: interval_of(given),
        window: given.get_one("window"),
    }
}

/// The picture of `chart`.
fn chart_of(given: &ArgMatches<'_>) -> View {
    View::Chart {
        by: by_of(given),
        interval: interval_of(given),
        window: given.get_one("window"),
    }
}

/// The interval given, or `None` for the whole time.
fn interval_of(given: &ArgMatches<'_>) -> Option<Interval> {
    let from: Option<u64> = given.get_one("from");
    let to: Option<u64> = given.get_one("to");
    if from.is_none() && to.is_none() {
        return None;
    }
    Some(Interval {
        from: from.unwrap_or(0),
        to,
    })
}

/// Whether this is an interval that ends at its beginning or before.
fn is_empty(interval: Option<Interval>) -> bool
    ensures empty { IsSomeAnd interval (λ it. IsSomeAnd it.to (λ to. to ≤ it.from)) → IsTrue result }
    ensures no_other { IsTrue result → IsSomeAnd interval (λ it. IsSomeAnd it.to (λ to. to ≤ it.from)) }
{
    match interval {
        Some(Interval { from, to: Some(to) }) => to <= from,
        _ => false,
    }
}

/// The title of a picture.
fn title_of<'a>(given: &ArgMatches<'a>) -> &'a str {
    let title = default_title(by_of(given));
    given.get_str("title").unwrap_or(title)
}

/// The default title of a picture with these lines.
fn default_title(by: By) -> &'static str {
    match by {
        By::Thread => TITLE,
        By::Currency => CURRENCIES_TITLE,
    }
}

/// The subjects of a picture's lines.
fn by_of(given: &ArgMatches<'_>) -> By {
    match given.get_str("by") {
        Some("currency") => By::Currency,
        _ => By::Thread,
    }
}

/// The level of detail of `explain`.
fn detail_of(given: &ArgMatches<'_>) -> Detail {
    if given.get_flag("funding") {
        Detail::Funding
    } else {
        Detail::Lots
    }
}

/// The measure of a table.
fn measure_of(given: &ArgMatches<'_>) -> Measure {
    if given.get_flag("quanta") {
        Measure::Draws
    } else {
        Measure::Ticks
    }
}

/// The seed given, or `None` for the input's own seeds.
fn seed_of(given: &ArgMatches<'_>) -> Option<Seed> {
    Seed::new(given.get_one("seed")?)
}

/// The seeds of several plays, if they are given in the right form.
fn seeds_of(given: &ArgMatches<'_>) -> Option<Seeds> {
    let (first, last) = given.get_str("seeds")?.split_once("..")?;
    let first = Seed::new(first.parse::<u32>().ok()?)?;
    let last = Seed::new(last.parse::<u32>().ok()?)?;
    if first.number() > last.number() {
        return None;
    }
    Some(Seeds { first, last })
}

fn form_of(given: &ArgMatches<'_>) -> ReportForm {
    if !given.get_flag("csv") {
        return ReportForm::Lines;
    }
    match by_of(given) {
        By::Thread => ReportForm::Table,
        By::Currency => ReportForm::CurrencyTable,
    }
}

/// The name of the file given, or `None` for standard input.
fn file_of<'a>(given: &ArgMatches<'a>) -> Option<&'a str> {
    match given.get_str("file") {
        Some(name) if name != STANDARD => Some(name),
        _ => None,
    }
}
