//! Tables and pictures of threads' ticks, and explained lotteries.
use super::same::check_same_at;
use super::{Row, ended_on};
use std::alloc::Global;
use std::process::Abort;
use std::sync::Wait;
use std::thread::Threads;

/// Thread `a` has the only ticket: it wins both draws, and runs for two quanta of 2 ticks.
const INPUT: &str =
    "lottery 1\nquantum 2\nscript spin\ncompute 9\nendscript\nmktkt 1 base\nmkthr a spin\nfund 1 a\nmkthr b spin\n\
    schedule 0 0 0 0 1 1 1 1\n";

/// The input as a timed one.
const TIMED: &str =
    "lottery 3\nquantum 2\nfor 4\nscript spin\ncompute 9\nendscript\nfundx 1 base a spin\nmkthr b spin\n";

/// The table of both.
const TICKS: &str = "tick,a,b\n0,0,0\n1,1,0\n2,2,0\n3,3,0\n4,4,0\n";

/// The refusal of a header with an unknown format.
const BAD_HEADER: &str = "refused line 1 50 BadHeader\n";

pub(crate) const TABLES: &[Row] = &[
    (&["lot_sim", "shares"], INPUT, 0, TICKS),
    (&["lot_sim", "shares"], TIMED, 0, TICKS),
    (&["lot_sim", "shares"], "lottery 1\n", 0, "tick\n0\n"),
    (&["lot_sim", "shares"], "lottery 9\n", 1, BAD_HEADER),
    (&["lot_sim", "chart"], "lottery 9\n", 1, BAD_HEADER),
];

/// The report of `INPUT`.
const REPORT: &str = "report
thread 1 a quanta 2 ticks 4
thread 2 b quanta 0 ticks 0
processor 1 quanta 2 idle 0 ticks 4
total turns 8 quanta 2 ticks 4
";

/// The report over two plays of `TIMED`, both the same. Only thread `a` has tickets, so it wins each draw: those at
/// ticks 0, 2 and 4, the last of them at the end. `a` runs for two quanta of 2 ticks, all ticks that there are, and has
/// the whole value. The waits that its draws end began in the same tick. `b` weighs nothing, and its only wait doesn't
/// end. The turns are 2 commands, 3 draws and 2 ends of quanta.
const PLAYS: &str = "seeds 1 to 2
thread 1 a plays 2 quanta mean 3 least 3 most 3 ticks mean 4 least 4 most 4 \
share mean 100% least 100% most 100% due mean 100% least 100% most 100% value mean 100% least 100% most 100%
thread 1 a ready waits mean 3 least 3 most 3 average mean 0 least 0 most 0 longest mean 0 least 0 most 0
thread 2 b plays 2 quanta mean 0 least 0 most 0 ticks mean 0 least 0 most 0 \
share mean 0% least 0% most 0% due mean 0% least 0% most 0% value mean 0% least 0% most 0%
processor 1 plays 2 quanta mean 3 least 3 most 3 idle mean 0 least 0 most 0 ticks mean 4 least 4 most 4 \
unused mean 0 least 0 most 0
total plays 2 turns mean 7 least 7 most 7 quanta mean 3 least 3 most 3 ticks mean 4 least 4 most 4 \
refused mean 0 least 0 most 0 left mean 0 least 0 most 0
";

/// The report over two plays of `INPUT`, in which `a` wins both draws.
const SCHEDULED_PLAYS: &str = "seeds 1 to 2
thread 1 a plays 2 quanta mean 2 least 2 most 2 ticks mean 4 least 4 most 4 \
share mean 100% least 100% most 100%
thread 2 b plays 2 quanta mean 0 least 0 most 0 ticks mean 0 least 0 most 0 \
share mean 0% least 0% most 0%
";

/// The report of `TIMED` as a table. Thread `a` wins as soon as it is ready, so it waits for 0 ticks each time. `b`
/// weighs nothing, and its only wait doesn't end, so it has no mean and no longest wait.
const TABLE: &str = "thread,name,quanta,ticks,share_percent,due_percent,value_percent,\
ready_waits,ready_mean,ready_longest,mutex_waits,mutex_mean,mutex_longest,\
reply_waits,reply_mean,reply_longest,refused,made,ended
1,a,3,4,100,100,100,3,0,0,0,,,0,,,0,0,
2,b,0,0,0,0,0,0,,,0,,,0,,,0,0,
";

/// The report over two plays of `TIMED` as a table: the columns' names, and a row for each thread, with the numbers of
/// `PLAYS`. A figure takes three fields, which are empty if no play has it.
const TABLE_OF_PLAYS: &str = "thread,name,plays,quanta_mean,quanta_least,quanta_most,\
ticks_mean,ticks_least,ticks_most,share_percent_mean,share_percent_least,share_percent_most,\
due_percent_mean,due_percent_least,due_percent_most,value_percent_mean,value_percent_least,value_percent_most,\
ready_waits_mean,ready_waits_least,ready_waits_most,ready_mean_mean,ready_mean_least,ready_mean_most,\
ready_longest_mean,ready_longest_least,ready_longest_most,\
mutex_waits_mean,mutex_waits_least,mutex_waits_most,mutex_mean_mean,mutex_mean_least,mutex_mean_most,\
mutex_longest_mean,mutex_longest_least,mutex_longest_most,\
reply_waits_mean,reply_waits_least,reply_waits_most,reply_mean_mean,reply_mean_least,reply_mean_most,\
reply_longest_mean,reply_longest_least,reply_longest_most,refused_mean,refused_least,refused_most,\
made_mean,made_least,made_most,ended_mean,ended_least,ended_most
1,a,2,3,3,3,4,4,4,100,100,100,100,100,100,100,100,100,3,3,3,0,0,0,0,0,0,\
0,0,0,,,,,,,0,0,0,,,,,,,0,0,0,0,0,0,,,
2,b,2,0,0,0,0,0,0,0,0,0,0,0,0,0,0,0,0,0,0,,,,,,,\
0,0,0,,,,,,,0,0,0,,,,,,,0,0,0,0,0,0,,,
";

/// The report over two plays of `INPUT` as a table.
const SCHEDULED_TABLE: &str = "thread,name,plays,quanta_mean,quanta_least,quanta_most,\
ticks_mean,ticks_least,ticks_most,share_percent_mean,share_percent_least,share_percent_most
1,a,2,2,2,2,4,4,4,100,100,100
2,b,2,0,0,0,0,0,0,0,0,0
";

/// An input in which base funds `alice`, `alice` funds `task`, and `task` the only thread that runs.
const CURRENCIES: &str =
    "lottery 3\nquantum 2\nfor 4\nscript spin\ncompute 9\nendscript\nmkcur alice\nmkcur task\nmktkt 3 base\n\
    fund 1 alice\nmktkt 1 alice\nfund 2 task\nfundx 1 task a spin\nmkthr b spin\n";

/// The table of its currencies.
const CURRENCY_TABLE: &str = "currency,name,ticks,share_percent,due_percent
1,alice,4,100,100
2,task,4,100,100
";

/// The same over two plays: both run for 4 ticks of 4 each time, and are due all of them.
const CURRENCY_TABLE_OF_PLAYS: &str = "currency,name,plays,ticks_mean,ticks_least,ticks_most,\
share_percent_mean,share_percent_least,share_percent_most,due_percent_mean,due_percent_least,due_percent_most
1,alice,2,4,4,4,100,100,100,100,100,100
2,task,2,4,4,4,100,100,100,100,100,100
";

/// The table of `INPUT`.
const SHORT_TABLE: &str = "thread,name,quanta,ticks\n1,a,2,4\n2,b,0,0\n";

/// Words for the report as a table, and for the table over several plays.
const TABLE_WORDS: &[&str] = &["lot_sim", "report", "--csv"];

const OVER_PLAYS: &[&str] = &["lot_sim", "report", "--csv", "--seeds", "1..2"];

const CURRENCIES_OVER_PLAYS: &[&str] = &[
    "lot_sim",
    "report",
    "--csv",
    "--by=currency",
    "--seeds",
    "1..2",
];

const BY_THREAD: &[&str] = &["lot_sim", "report", "--csv", "--by", "thread"];

const BY_CURRENCY: &[&str] = &["lot_sim", "report", "--by=currency", "--csv"];

/// Words, inputs and tables. Without threads a table has only its first row. An input of another format has no table of
/// currencies.
pub(crate) const REPORT_TABLES: &[Row] = &[
    (TABLE_WORDS, INPUT, 0, SHORT_TABLE),
    (TABLE_WORDS, TIMED, 0, TABLE),
    (TABLE_WORDS, "lottery 1\n", 0, "thread,name,quanta,ticks\n"),
    (OVER_PLAYS, TIMED, 0, TABLE_OF_PLAYS),
    (OVER_PLAYS, INPUT, 0, SCHEDULED_TABLE),
    (
        CURRENCIES_OVER_PLAYS,
        CURRENCIES,
        0,
        CURRENCY_TABLE_OF_PLAYS,
    ),
    (CURRENCIES_OVER_PLAYS, INPUT, 0, SCHEDULED_TABLE),
    (BY_THREAD, TIMED, 0, TABLE),
    (BY_CURRENCY, CURRENCIES, 0, CURRENCY_TABLE),
    (BY_CURRENCY, INPUT, 0, SHORT_TABLE),
];

/// `play`, `report` and `shares` write the same over several plays.
pub(crate) const SEVERAL_PLAYS: &[Row] = &[
    (&["lot_sim", "play", "--seeds", "1..2"], TIMED, 0, PLAYS),
    (&["lot_sim", "report", "--seeds", "1..2"], TIMED, 0, PLAYS),
    (&["lot_sim", "shares", "--seeds", "1..2"], TIMED, 0, PLAYS),
    (
        &["lot_sim", "play", "--seeds", "1..2"],
        INPUT,
        0,
        SCHEDULED_PLAYS,
    ),
    (
        &["lot_sim", "report", "--seeds", "1..2"],
        INPUT,
        0,
        SCHEDULED_PLAYS,
    ),
    (
        &["lot_sim", "shares", "--seeds", "1..2"],
        INPUT,
        0,
        SCHEDULED_PLAYS,
    ),
];

/// `explain` and `chart` have no figures, and several plays have no time.
pub(crate) const NOT_OF_PLAYS: &[&[&str]] = &[
    &["lot_sim", "explain", "--seeds", "1..2", "-"],
    &["lot_sim", "chart", "--seeds", "1..2", "-"],
    &["lot_sim", "play", "--seeds", "2..1", "-"],
    &["lot_sim", "shares", "--seeds", "1..2", "--quanta"],
    &["lot_sim", "shares", "--seeds", "1..2", "--from=1"],
];

/// Threads `a` and `b` are worth 1 each, and `a` exits in its first tick.
const DIFFERENT: &str =
    "lottery 3\nquantum 2\nfor 3\nscript brief\nendscript\nscript spin\ncompute 9\nendscript\nmkcur g\n\
    mktkt 1 base\nfund 1 g\nfundx 1 g a brief\nfundx 1 base b spin\n";

/// The report over three plays. A draw of both is of 512 units, and the first 256 are `a`'s. Modulo 512 the generator
/// gives 265 and then 355 for seed 1, 11 for seed 2, and 270 and then 25 for seed 3, so the plays are:
///
/// - 1: `b` runs to tick 2, and wins again. Each is due a half, and has half of the value.
/// - 2: `a` exits at tick 1. Then `b`, which has waited for 1 tick, runs to tick 3. `a` is due 0.5 of 3 ticks, 16.666%.
/// - 3: `b` runs to tick 2. Then `a`, which has waited for 2 ticks, exits at tick 3. Each is due a half.
///
/// In the last two `b` wins once more at tick 3, and has the whole value. `a` has 0%, 33.333% and 33.333% of the ticks.
/// It has waited in the last two alone, for 0 ticks and for 2, and lived for 1 tick and for 3; the means of these are
/// over two plays. To 5 commands come 3, 5 and 5 turns.
const DIFFERENT_PLAYS: &str = "seeds 1 to 3
thread 1 a plays 3 quanta mean 0.666 least 0 most 1 ticks mean 0.666 least 0 most 1 \
share mean 22.222% least 0% most 33.333% due mean 38.888% least 16.666% most 50% value mean 16.666% least 0% most 50%
thread 1 a ready waits mean 0.666 least 0 most 1 average mean 1 least 0 most 2 longest mean 1 least 0 most 2
thread 1 a made mean 0 least 0 most 0 ended mean 2 least 1 most 3 in 2 of 3
thread 2 b plays 3 quanta mean 2 least 2 most 2 ticks mean 2 least 2 most 2 \
share mean 77.777% least 66.666% most 100% due mean 61.111% least 50% most 83.333% \
value mean 83.333% least 50% most 100%
thread 2 b ready waits mean 2 least 2 most 2 average mean 0.333 least 0 most 0.5 longest mean 0.666 least 0 most 1
currency 1 g plays 3 ticks mean 0.666 least 0 most 1 share mean 22.222% least 0% most 33.333% \
due mean 38.888% least 16.666% most 50%
processor 1 plays 3 quanta mean 2.666 least 2 most 3 idle mean 0 least 0 most 0 ticks mean 2.666 least 2 most 3 \
unused mean 0 least 0 most 0
total plays 3 turns mean 9.333 least 8 most 10 quanta mean 2.666 least 2 most 3 ticks mean 2.666 least 2 most 3 \
refused mean 0 least 0 most 0 left mean 0 least 0 most 0
total ended mean 0.666 least 0 most 1 average mean 2 least 1 most 3 longest mean 2 least 1 most 3
";

/// The rows of the table with the same numbers.
const DIFFERENT_ROWS: &str = "
1,a,3,0.666,0,1,0.666,0,1,22.222,0,33.333,38.888,16.666,50,16.666,0,50,\
0.666,0,1,1,0,2,1,0,2,0,0,0,,,,,,,0,0,0,,,,,,,0,0,0,0,0,0,2,1,3
2,b,3,2,2,2,2,2,2,77.777,66.666,100,61.111,50,83.333,83.333,50,100,\
2,2,2,0.333,0,0.5,0.666,0,1,0,0,0,,,,,,,0,0,0,,,,,,,0,0,0,0,0,0,,,
";

/// The row of its currency.
const DIFFERENT_CURRENCY: &str = "\n1,g,3,0.666,0,1,22.222,0,33.333,38.888,16.666,50\n";

/// Words, and the end of their output.
const DIFFERENT_ENDS: &[(&[&str], &str)] = &[
    (&["lot_sim", "report", "--seeds", "1..3"], DIFFERENT_PLAYS),
    (
        &["lot_sim", "report", "--seeds", "1..3", "--csv"],
        DIFFERENT_ROWS,
    ),
    (
        &[
            "lot_sim", "report", "--seeds", "1..3", "--csv", "--by", "currency",
        ],
        DIFFERENT_CURRENCY,
    ),
];

#[test]
fn different_plays(rt: HostRuntime) {
    for (words, wanted) in DIFFERENT_ENDS {
        check_end(&rt, rt.alloc(), words, wanted);
    }
}

/// Compares the end of these words' output.
fn check_end<H: Abort + Threads + Wait + Sync>(
    rt: &H,
    alloc: Global,
    words: &[&str],
    wanted: &str,
) {
    let ended = ended_on(rt, alloc, words, DIFFERENT);
    let is_there = ended.output.as_slice().ends_with(wanted.as_bytes());
    check_same_at(rt, &words, &(ended.code, is_there), &(0, true));
}

/// Seeds in the wrong form.
pub(crate) const NO_SEEDS: &[&[&str]] = &[
    &["lot_sim", "report", "--seeds", "1"],
    &["lot_sim", "report", "--seeds", "2..1"],
    &["lot_sim", "report", "--seeds", "0..2"],
    &["lot_sim", "report", "--seeds", "1..2147483647"],
];

/// Options that these subcommands don't have, or that have a wrong value.
pub(crate) const REFUSED_OPTIONS: &[&[&str]] = &[
    &["lot_sim", "shares", "x", "y"],
    &["lot_sim", "shares", "--title", "x"],
    &["lot_sim", "chart", "--title"],
    &["lot_sim", "play", "--quanta"],
    &["lot_sim", "play", "--csv"],
    &["lot_sim", "play", "--from", "1"],
    &["lot_sim", "play", "--window", "1"],
    &["lot_sim", "shares", "--window", "0"],
    &["lot_sim", "shares", "--window", "4294967296"],
    &["lot_sim", "shares", "--window", "x"],
    &["lot_sim", "chart", "--by", "user"],
    &["lot_sim", "chart", "--by", ""],
    &["lot_sim", "report", "--by", "currency"],
    &["lot_sim", "shares", "--by", "currency"],
    &["lot_sim", "chart", "--from", "3", "--to", "3"],
    &["lot_sim", "chart", "--from", "3", "--to", "2"],
    &["lot_sim", "chart", "--from", "x", "--to", "9"],
    &["lot_sim", "chart", "--from", "0", "--to", "0"],
    &["lot_sim", "explain", "x", "y"],
    &["lot_sim", "play", "--funding"],
];

/// The report alone, a table whose columns count draws, and a faulty line of seeds, which the program refuses even with
/// another seed given.
pub(crate) const OTHER_CALLS: &[Row] = &[
    (&["lot_sim", "report"], INPUT, 0, REPORT),
    (
        &["lot_sim", "shares", "--quanta"],
        INPUT,
        0,
        "tick,a,b\n0,1,0\n1,1,0\n2,2,0\n3,2,0\n4,2,0\n",
    ),
    (
        &["lot_sim", "play", "--seed", "5"],
        "lottery 1\nseed 0\n",
        1,
        "refused line 2 52 BadNumber\n",
    ),
];

/// Words, and parts of the picture that the program draws. Between ticks 1 and 4 thread a runs for three ticks. It is
/// the only thread, so it has all ticks in each window that isn't empty.
const PICTURES: &[(&[&str], &[&str])] = &[
    (
        &["lot_sim", "chart", "--title", "One & none"],
        &["<title id='title'>One &amp; none</title>\n"],
    ),
    (
        &["lot_sim", "chart", "--from", "1", "--to", "9"],
        &[
            "<text x='100.0' y='480' text-anchor='middle'>1</text>\n",
            "<text x='770.0' y='480' text-anchor='middle'>4</text>\n",
            "<polyline points=' 100.0,460.0 323.3,326.7 546.6,193.4 770.0,60.0' stroke='#0072b2'/>\n",
            "<text x='788' y='60.0' dy='4'>a 100.0%</text>\n",
        ],
    ),
    (
        &["lot_sim", "chart", "--window", "2"],
        &[
            "<text x='92' y='60.0' dy='4' text-anchor='end'>100</text>\n",
            ">what each thread has run in the last 2 ticks, in percent</text>\n",
            "<polyline points=' 100.0,460.0 267.5,60.0 435.0,60.0 602.5,60.0 770.0,60.0' stroke='#0072b2'/>\n",
            "<text x='788' y='60.0' dy='4'>a 100.0%</text>\n",
        ],
    ),
];

/// Checks that the picture has each of these parts.
fn check_parts(rt: &impl Abort, picture: &str, parts: &[&str]) {
    for part in parts {
        check_same_at(rt, part, &picture.contains(*part), &true);
    }
}

/// Draws this input with these words, and checks that the picture is whole and has each of these parts.
fn check_picture<H: Abort + Threads + Wait + Sync>(
    rt: &H,
    alloc: Global,
    words: &[&str],
    input: &str,
    parts: &[&str],
) {
    let ended = ended_on(rt, alloc, words, input);
    let picture = str::from_utf8(ended.output.as_slice()).unwrap_or("");
    let is_whole = picture.ends_with("</svg>\n");
    check_same_at(rt, &words, &(ended.code, is_whole), &(0, true));
    check_parts(rt, picture, parts);
}

/// Parts of the picture of `CURRENCIES` by currency. Both lines have all ticks and are due all of them, and the second
/// name is below the first.
const CURRENCY_PARTS: &[&str] = &[
    "<title id='title'>Who has run how long</title>\n",
    ">what the threads of each currency have run, in ticks</text>\n",
    "<polyline points=' 100.0,460.0 267.5,360.0 435.0,260.0 602.5,160.0 770.0,60.0' stroke='#0072b2'/>\n",
    "<polyline points=' 100.0,460.0 267.5,360.0 435.0,260.0 602.5,160.0 770.0,60.0' stroke='#d55e00'/>\n</g>\n",
    "<text x='788' y='60.0' dy='4'>alice 100.0%</text>\n",
    "<text x='788' y='76.0' dy='4'>task 100.0%</text>\n",
];

#[test]
fn pictures(rt: HostRuntime) {
    for (words, parts) in PICTURES {
        check_picture(&rt, rt.alloc(), words, INPUT, parts);
    }
    let words = ["lot_sim", "chart", "--by", "currency"];
    check_picture(&rt, rt.alloc(), &words, CURRENCIES, CURRENCY_PARTS);
}

/// Words, and an input.
type Call<'a> = (&'a [&'a str], &'a str);

/// Calls the program twice. The first call succeeds, and its output equals that of the second, or differs.
fn check_alike<H: Abort + Threads + Wait + Sync>(
    rt: &H,
    alloc: Global,
    first: Call,
    second: Call,
    is_alike: bool,
) {
    let (words, input) = second;
    let wanted = ended_on(rt, alloc, words, input);
    let found = ended_alike(rt, alloc, first, wanted.output.as_slice());
    check_same_at(rt, &first, &found, &(0, is_alike));
}

/// Calls the program, and returns the exit status and whether the output is this.
fn ended_alike<H: Threads + Wait + Sync>(
    rt: &H,
    alloc: Global,
    (words, input): Call,
    output: &[u8],
) -> (u8, bool) {
    let ended = ended_on(rt, alloc, words, input);
    (ended.code, ended.output.as_slice() == output)
}

/// Words for a picture by a kind, without the kind, and the input.
const BY_KIND: &[(&[&str], &str)] = &[
    (
        &["lot_sim", "chart", "--title", "x", "--by", "thread"],
        CURRENCIES,
    ),
    (
        &["lot_sim", "chart", "--title", "x", "--by", "currency"],
        INPUT,
    ),
];

/// The option for threads changes nothing. In a picture of another format the option for currencies changes only the
/// default title.
#[test]
fn pictures_by_thread(rt: HostRuntime) {
    let without: &[&str] = &["lot_sim", "chart", "--title", "x"];
    for (words, input) in BY_KIND {
        check_alike(&rt, rt.alloc(), (words, input), (without, input), true);
    }
}

/// The explanation of the input.
const EXPLAINED: &str = "0 ticket 1
0 thread 1
0 done
0 thread 2
1 lot thread 1 a weight 1 from 0 below 1 wins
1 lot thread 2 b weight 0 from 1 below 1
1 draw 0 of 1 thread 1
1 thread 1 ticks 2 expire
1 lot thread 1 a weight 1 from 0 below 1 wins
1 lot thread 2 b weight 0 from 1 below 1
1 draw 0 of 1 thread 1
1 thread 1 ticks 2 expire
report
thread 1 a quanta 2 ticks 4
thread 2 b quanta 0 ticks 0
processor 1 quanta 2 idle 0 ticks 4
total turns 8 quanta 2 ticks 4
";

/// Two threads share a currency's value as 3 to 1. Its third ticket funds nothing.
const FUNDED: &str =
    "lottery 3\nquantum 9\nfor 4\nseed 2\nmutex m\nscript hold\nlock m\ncompute 1\nyield\nendscript\nmkcur g\n\
    mktkt 3 base\nfund 1 g\nfundx 3 g a hold\nfundx 1 g b hold\nmktkt 5 g\n";

/// Its explanation with the funding, computed by a small model of the rules.
const EXPLAINED_FUNDING: &str = "0 0 currency 1
0 0 ticket 1
0 0 done
0 0 funded 2 1
0 0 funded 3 2
0 0 ticket 4
0 1 funds currency 1 g ticket 1 amount 3 of base value 3
0 1 funds thread 1 a ticket 2 amount 3 of g value 2.25
0 1 funds thread 2 b ticket 3 amount 1 of g value 0.75
0 1 currency 0 base value 3 active 3
0 1 currency 1 g value 3 active 4
0 1 lot thread 1 a weight 2.25 from 0 below 2.25 wins
0 1 lot thread 2 b weight 0.75 from 2.25 below 3
0 1 draw 1.042 of 3 thread 1
1 1 thread 1 ticks 1 lock 1 taken
3 1 thread 1 ticks 2 yield
3 1 funds currency 1 g ticket 1 amount 3 of base value 3
3 1 funds thread 1 a ticket 2 amount 3 of g value 2.25
3 1 funds thread 2 b ticket 3 amount 1 of g value 0.75
3 1 currency 0 base value 3 active 3
3 1 currency 1 g value 3 active 4
3 1 lot thread 1 a weight 6.75 = value 2.25 x 9 / 3 from 0 below 6.75
3 1 lot thread 2 b weight 0.75 from 6.75 below 7.5 wins
3 1 draw 7.226 of 7.5 thread 2
4 1 thread 2 ticks 1 lock 1 waits
4 1 funds currency 1 g ticket 1 amount 3 of base value 3
4 1 funds thread 1 a ticket 2 amount 3 of g value 2.25
4 1 funds thread 2 b ticket 3 amount 1 of g value 0.75
4 1 currency 0 base value 3 active 3
4 1 currency 1 g value 3 active 4
4 1 lot thread 1 a weight 9 = value 3 x 9 / 3 from 0 below 9 wins
4 1 lent thread 2 b value 0.75 to thread 1
4 1 draw 2.515 of 9 thread 1
report
thread 1 a quanta 2 ticks 3 share 75% due 75% value 100% ready waits 2 mean 0.5 longest 1
thread 2 b quanta 1 ticks 1 share 25% due 25% value 0% ready waits 1 mean 3 longest 3
currency 1 g ticks 4 share 100% due 100%
processor 1 quanta 3 idle 0 ticks 4 unused 0
total turns 12 quanta 3 ticks 4 refused 0 left 0
";

/// With `--funding` the output has the funding at each draw. It changes nothing in another format.
pub(crate) const EXPLAINED_CALLS: &[Row] = &[
    (&["lot_sim", "explain"], INPUT, 0, EXPLAINED),
    (&["lot_sim", "explain"], "lottery 9\n", 1, BAD_HEADER),
    (
        &["lot_sim", "explain", "--funding"],
        FUNDED,
        0,
        EXPLAINED_FUNDING,
    ),
    (&["lot_sim", "explain", "--funding"], INPUT, 0, EXPLAINED),
];

/// An input of three threads and two processors, with this line of seeds, or none if it is empty.
fn with_seeds(rt: &impl Abort, alloc: Global, seeds: &str) -> String {
    format!(in alloc;
        "lottery 3\nprocessors 2\nquantum 2\nfor 20\n{seeds}script spin\ncompute 900\nendscript\n\
        fundx 2 base a spin\nfundx 1 base b spin\nfundx 1 base c spin\n"
    )
    .expect(rt, "memory")
}

/// Processor 1 has the given seed, and processor 2 the next, 5 * 48271 = 241355, whatever seeds the input has.
#[test]
fn given_seeds(rt: HostRuntime) {
    let wanted = with_seeds(&rt, rt.alloc(), "seed 5 241355\n");
    check_given_seed(&rt, rt.alloc(), "", wanted.as_str());
    check_given_seed(&rt, rt.alloc(), "seed 1 2\n", wanted.as_str());
}

/// Gives the seed to the input with this line of seeds, and compares it with an input that has these seeds itself.
fn check_given_seed<H: Abort + Threads + Wait + Sync>(
    rt: &H,
    alloc: Global,
    seeds: &str,
    wanted: &str,
) {
    let input = with_seeds(rt, alloc, seeds);
    check_given_views(rt, alloc, input.as_str(), wanted);
    let words: &[&str] = &["lot_sim", "play"];
    check_alike(rt, alloc, (words, input.as_str()), (words, wanted), false);
}

const VIEWS: &[&str] = &["play", "report", "explain", "shares", "chart"];

/// Compares each view of the input with the given seed with that of the other input.
fn check_given_views<H: Abort + Threads + Wait + Sync>(
    rt: &H,
    alloc: Global,
    input: &str,
    wanted: &str,
) {
    for word in VIEWS {
        let given: &[&str] = &["lot_sim", *word, "--seed", "5"];
        let written: &[&str] = &["lot_sim", *word];
        check_alike(rt, alloc, (given, input), (written, wanted), true);
    }
}

/// Words with a seed beside other options.
const BESIDE_OPTIONS: &[&[&str]] = &[
    &["lot_sim", "shares", "--seed", "1", "--quanta"],
    &["lot_sim", "shares", "--quanta", "--seed", "2147483646"],
    &["lot_sim", "chart", "--seed=7", "--title", "x"],
];

/// The program takes the least and the largest seed, before or after the other options.
#[test]
fn given_seeds_beside_options(rt: HostRuntime) {
    for words in BESIDE_OPTIONS {
        check_taken(&rt, rt.alloc(), words);
    }
}

/// Checks that the program takes the words, and writes something.
fn check_taken<H: Abort + Threads + Wait + Sync>(rt: &H, alloc: Global, words: &[&str]) {
    let ended = ended_on(rt, alloc, words, INPUT);
    check_same_at(
        rt,
        &words,
        &(ended.code, ended.output.is_empty()),
        &(0, false),
    );
}

/// Words that are no seed.
const NO_SEED: &[&str] = &["", "0", "x", "1.5", "2147483647", "99999999999999999999"];

/// Words with a refused seed, and `run`, which takes no seed.
pub(crate) const REFUSED_SEEDS: &[&[&str]] = &[
    &["lot_sim", "play", "--seed", "-1"],
    &["lot_sim", "run", "--seed", "1"],
];

/// The diagnostics name the refused seed.
#[test]
fn refused_seeds(rt: HostRuntime) {
    for seed in NO_SEED {
        check_refused_seed(&rt, rt.alloc(), seed);
    }
}

/// Checks that the diagnostics name this refused seed.
fn check_refused_seed<H: Abort + Threads + Wait + Sync>(rt: &H, alloc: Global, seed: &str) {
    let ended = ended_on(rt, alloc, &["lot_sim", "play", "--seed", seed], INPUT);
    let is_named = is_error_of_seed(ended.errors.as_slice());
    let found = (ended.code, ended.output.is_empty(), is_named);
    check_same_at(rt, &seed, &found, &(2, true, true));
}

/// Whether the diagnostics name the option.
fn is_error_of_seed(errors: &[u8]) -> bool {
    let told = str::from_utf8(errors).unwrap_or("");
    told.starts_with("error: ") && told.contains("--seed")
}
