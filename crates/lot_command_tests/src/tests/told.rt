//! Diagnostics in words on standard error.

use super::inputs::on_standard;
use super::refused::FAULTS;
use super::same::{check_same, check_same_at};
use super::{EMPTY_REPORT, Failing, ended_on};
use lot_command::status;
use std::alloc::Global;
use std::io;
use std::io::{ErrorKind, Write};
use std::process::Abort;
use std::sync::Wait;
use std::thread::Threads;

/// Calls, their input, and then the exit status and the diagnostics of each call.
pub(crate) type Told<'a> = (&'a [&'a [&'a str]], &'a str, u8, &'a str);

/// Makes the calls of a row, and compares the exit statuses and the diagnostics.
pub(crate) fn check_told<H: Abort + Threads + Wait + Sync>(
    rt: &H,
    alloc: Global,
    (calls, input, code, expected): Told<'_>,
) {
    for words in calls {
        let ended = ended_on(rt, alloc, words, input);
        check_same_at(
            rt,
            &(words, input),
            &(ended.code, ended.told()),
            &(code, expected),
        );
    }
}

/// Makes the calls of all rows.
fn check_all_told<H: Abort + Threads + Wait + Sync>(rt: &H, alloc: Global, rows: &[Told<'_>]) {
    for row in rows {
        check_told(rt, alloc, *row);
    }
}

pub(crate) const PLAY: &[&[&str]] = &[&["lot_sim", "play"]];

const RUN: &[&[&str]] = &[&["lot_sim", "run"]];

const PLAY_AND_RUN: &[&[&str]] = &[&["lot_sim", "play"], &["lot_sim", "run"]];

const PLAY_AND_EXPLAIN: &[&[&str]] = &[&["lot_sim", "play"], &["lot_sim", "explain"]];

/// Plays the input with an output for diagnostics that fails. Returns the exit status and whether this output was
/// written.
fn ended_untold<H: Threads + Wait + Sync>(
    rt: &H,
    alloc: Global,
    input: &str,
    expected: &str,
) -> (u8, bool) {
    let mut output = Vec::new(alloc);
    let errors = Failing {
        given: false,
        kind: ErrorKind::Other,
    };
    let words = ["lot_sim", "play"];
    let inputs = on_standard(input.as_bytes());
    let code = status(rt, alloc, &words, inputs, &mut output, errors);
    (code, output.as_slice() == expected.as_bytes())
}

/// Inputs, and the exit status and the output of each.
const UNTOLD: &[(&str, u8, &str)] = &[
    ("lottery 1\nmktk 5 base\n", 1, "refused line 2 51 BadLine\n"),
    ("lottery 1\nmkcur a\n", 0, EMPTY_REPORT),
];

#[test]
fn failing_errors(rt: HostRuntime) {
    for (input, code, expected) in UNTOLD {
        let ended = ended_untold(&rt, rt.alloc(), input, expected);
        check_same(&rt, &ended, &(*code, true));
    }
}

/// An output that stores only its last two writes.
struct LastWrites {
    before: Vec<u8>,
    last: Vec<u8>,
}

impl Drop for LastWrites {
    // An explicit drop: code that drops a `LastWrites` is then proved without unfolding its fields.
    fn drop(self) {
        let Self { before: _, last: _ } = self;
    }
}

impl LastWrites {
    /// Whether the two writes end with this text. It fails if out of memory.
    fn end_with(&mut self, text: &str) -> io::Result<bool> {
        self.before.write_all(self.last.as_slice())?;
        Ok(self.before.as_slice().ends_with(text.as_bytes()))
    }
}

impl Write for LastWrites {
    fn write(&mut self, buf: &[u8]) -> io::Result<usize> {
        self.before.clear();
        self.before.write_all(self.last.as_slice())?;
        self.last.clear();
        self.last.write(buf)
    }

    fn flush(&mut self) -> io::Result<()> {
        Ok(())
    }
}

/// Plays the input, and returns the exit status, whether the output ends with this text, and the diagnostics.
fn played_to_the_end<H: Threads + Wait + Sync>(
    rt: &H,
    alloc: Global,
    input: &str,
    text: &str,
) -> (u8, bool, Vec<u8>) {
    let mut output = LastWrites {
        before: Vec::new(alloc),
        last: Vec::new(alloc),
    };
    let mut errors = Vec::new(alloc);
    let words = ["lot_sim", "play"];
    let inputs = on_standard(input.as_bytes());
    let code = status(rt, alloc, &words, inputs, &mut output, &mut errors);
    (code, output.end_with(text).unwrap_or(false), errors)
}

// Two turns a tick: the last is the draw at tick 7999999. The output has some 400 megabytes, so the test stores only
// its end.
#[test]
fn cut_at_the_largest_number_of_turns(rt: HostRuntime) {
    let input =
        "lottery 3\nquantum 1\nfor 9000000\nscript s\ncompute 16000000\nendscript\nfundx 1 base a s\nat 8000000\n\
        mkcur c\n";
    let report = "
report
thread 1 a quanta 8000000 ticks 7999999 share 100% due 100% value 100% ready waits 8000000 mean 0 longest 0
processor 1 quanta 8000000 idle 0 ticks 7999999 unused 0
total turns 16000000 quanta 8000000 ticks 7999999 refused 0 left 1
ended at 7999999 of 9000000: 16000000 turns made
";
    let words =
        "the run was cut at tick 7999999 of 9000000: it made 16000000 turns, and a run makes no more
line 9: this command was never made: the run was cut before
";
    let (code, is_reported, errors) = played_to_the_end(&rt, rt.alloc(), input, report);
    let told = str::from_utf8(errors.as_slice()).unwrap_or("");
    check_same(&rt, &(code, is_reported, told), &(0, true, words));
}

/// A refused command, one that was never made, and a thread that weighs nothing.
const REFUSED_UNMADE_WEIGHTLESS: &str =
    "lottery 1\nquantum 2\nscript s\ncompute 9\nendscript\nfundx 1 base a s\nrmtkt 7\nmkthr b s\nmkcur c\n\
    schedule 0 0 0 1 1\n";

/// The owner of the mutex has ended, so thread `b` waits for good.
const WAITING: &str =
    "lottery 3\nquantum 10\nfor 40\nmutex m\nscript one\nlock m\nendscript\nfundx 5 base a one\n\
    fundx 5 base b one\n";

/// A thread that locks its own mutex again.
const LOCKED_TWICE: &str =
    "lottery 3\nquantum 10\nfor 40\nmutex m\nscript one\nlock m\nlock m\ncompute 100\nendscript\n\
    fundx 5 base a one\n";

/// The subcommands that show an input in another way than `play`.
pub(crate) const VIEWS: &[&str] = &["report", "explain", "shares", "chart"];

/// Shows the input with each subcommand, and checks that the diagnostics equal those of `play`.
fn check_told_alike<H: Abort + Threads + Wait + Sync>(rt: &H, alloc: Global, input: &str) {
    let played = ended_on(rt, alloc, &["lot_sim", "play"], input);
    check_same_at(rt, &input, &played.errors.is_empty(), &false);
    check_views(rt, alloc, input, played.errors.as_slice());
}

/// Checks that each subcommand that shows the input has these diagnostics.
fn check_views<H: Abort + Threads + Wait + Sync>(rt: &H, alloc: Global, input: &str, told: &[u8]) {
    for word in VIEWS {
        let ended = ended_telling(rt, alloc, word, input, told);
        check_same_at(rt, &word, &ended, &(0, true));
    }
}

/// Shows the input, and returns the exit status and whether the diagnostics are these.
fn ended_telling<H: Threads + Wait + Sync>(
    rt: &H,
    alloc: Global,
    word: &str,
    input: &str,
    told: &[u8],
) -> (u8, bool) {
    let shown = ended_on(rt, alloc, &["lot_sim", word], input);
    (shown.code, shown.errors.as_slice() == told)
}

#[test]
fn told_alike(rt: HostRuntime) {
    check_told_alike(&rt, rt.alloc(), REFUSED_UNMADE_WEIGHTLESS);
    check_told_alike(&rt, rt.alloc(), WAITING);
    check_told_alike(&rt, rt.alloc(), LOCKED_TWICE);
}

/// Shows the input. Returns the exit status, whether the output ends with this, and whether the diagnostics begin with
/// this.
fn ended_with<H: Threads + Wait + Sync>(
    rt: &H,
    alloc: Global,
    word: &str,
    input: &str,
    (output, errors): (&str, &str),
) -> (u8, bool, bool) {
    let ended = ended_on(rt, alloc, &["lot_sim", word], input);
    let is_shown = ended.output.as_slice().ends_with(output.as_bytes());
    let is_told = ended.errors.as_slice().starts_with(errors.as_bytes());
    (ended.code, is_shown, is_told)
}

/// The end of each subcommand's output for the first input above.
const SHOWN: &[(&str, &str)] = &[
    ("shares", "tick,a,b\n0,0,0\n1,1,0\n2,2,0\n"),
    ("chart", "</svg>\n"),
];

// A refused command takes no part in tables and pictures, and the diagnostics name its line.
#[test]
fn refused_commands_of_tables(rt: HostRuntime) {
    let told = "line 7: the command was refused: ";
    let input = REFUSED_UNMADE_WEIGHTLESS;
    for (word, shown) in SHOWN {
        let ended = ended_with(&rt, rt.alloc(), word, input, (shown, told));
        check_same_at(&rt, &word, &ended, &(0, true, true));
    }
}

/// A thread that computes for 300 ticks.
const SPINS: &str = "lottery 3\nfor 300\nscript s\ncompute 900 endscript\nfundx 1 base a s\n";

const NO_TURNS: &str =
    "the processors make no turns: the header has no 'turns T', how many each makes in a run\n";

const NO_THREAD: &str =
    "nothing runs: no line makes a thread, as 'fundx AMOUNT CURRENCY NAME SCRIPT' does\n";

/// The thread that wins the first draw is the only one that runs. Thread `a` unlocks a mutex that it doesn't own.
const STRICT: &str =
    "lottery 3\nfor 10\nquantum 10\nstrict\nmutex m\nscript bad\nunlock m endscript\n\
    script good\ncompute 90 endscript\nfundx 1 base a bad\nfundx 1 base b good\n";

/// What the calls tell of commands.
const OF_COMMANDS: &[Told<'static>] = &[
    // A misspelt command.
    (
        PLAY_AND_RUN,
        "lottery 1\nmktk 5 base\n",
        1,
        "line 2: 'mktk' is no body line; did you mean 'mktkt'?\n",
    ),
    // Nothing to tell.
    (
        PLAY_AND_RUN,
        "lottery 1\nscript s\ncompute 5\nendscript\nfundx 10 base a s\nschedule 0 1 1\n",
        0,
        "",
    ),
    // Refused commands, and commands that are never made.
    (
        PLAY_AND_EXPLAIN,
        "lottery 1\nscript s\ncompute 5\nendscript\n# a comment and an empty line come between the commands\n\n\
        mktkt 0 base\nscript t\nyield\nendscript\nmkthr a u\nmkthr b t\nmkcur c\nschedule 0 0\n",
        0,
        "line 7: the command was refused: an amount is a number from 1 to 4294967295, and not 0
line 11: the command was refused: no script of an earlier line has the name 'u'
line 12: this command and those after it, 2 in all, were never made: each 0 in a schedule makes one
",
    ),
    // Removals of threads.
    (
        PLAY,
        "lottery 3\nquantum 8\nfor 8\nscript s\ncompute 4\nendscript\nfundx 3 base a s\nrmthr a\nat 6\nrmthr a\n\
        unfund 1\nrmthr a\nrmthr a\n",
        0,
        "line 8: the command was refused: the thread hasn't ended
line 10: the command was refused: tickets are in it or fund it, or the thread has a client or owns a mutex
line 13: the command was refused: no thread has the name 'a'
",
    ),
    // Kills of threads.
    (
        PLAY,
        "lottery 3\nquantum 8\nfor 8\nscript s\ncompute 40\nendscript\nfundx 3 base a s\nat 3\nkill a\nkill a\n\
        kill b\n",
        0,
        "line 10: the command was refused: the thread has ended
line 11: the command was refused: no thread has the name 'b'
",
    ),
    // One command that is never made.
    (
        PLAY,
        "lottery 1\nmkcur a\nmkcur b\nschedule 0\n",
        0,
        "line 3: this command was never made: each 0 in a schedule makes one\n",
    ),
    // More refused commands than are told.
    (
        PLAY,
        "lottery 1\nrmtkt 1\nrmtkt 2\nrmtkt 3\nrmtkt 4\nrmtkt 5\nrmtkt 6\nrmtkt 7\nrmtkt 8\nrmtkt 9\nrmtkt 10\n\
        schedule 0 0 0 0 0 0 0 0 0 0\n",
        0,
        "line 2: the command was refused: no ticket has the number 1
line 3: the command was refused: no ticket has the number 2
line 4: the command was refused: no ticket has the number 3
line 5: the command was refused: no ticket has the number 4
line 6: the command was refused: no ticket has the number 5
line 7: the command was refused: no ticket has the number 6
line 8: the command was refused: no ticket has the number 7
line 9: the command was refused: no ticket has the number 8
and 2 more commands that were refused
",
    ),
];

/// What the calls tell of threads that wait.
const OF_WAITS: &[Told<'static>] = &[
    // A server without tickets of its own: after its reply no ticket funds it, so it never takes the second call, and
    // both clients wait.
    (
        PLAY,
        "lottery 1\nquantum 10\nport p\nscript srv\nreceive p\nreply\nreceive p\nendscript\n\
        script cli\ncall p\ncall p\nendscript\nmkthr s srv\nfundx 5 base c cli\nschedule 0 0 1 1 1 1 1 1 1 1 1\n",
        0,
        "thread 's' is ready at the end and weighs nothing: it wins no draw before something funds it
thread 'c' waits for good for a server at port 'p'
",
    ),
    // The owner of the mutex has ended, so no thread will unlock it.
    (
        PLAY,
        "lottery 1\nquantum 10\nmutex m\nscript one\nlock m\nendscript\nfundx 5 base a one\nfundx 5 base b one\n\
        schedule 0 0 1 1 1 1 1 1 1\n",
        0,
        "thread 'b' waits for good for mutex 'm', whose owner, thread 'a', has ended\n",
    ),
    // The server has ended with a client.
    (
        PLAY,
        "lottery 1\nquantum 10\nport p\nscript srv\nreceive p\nendscript\nscript cli\ncall p\nendscript\n\
        fundx 5 base s srv\nfundx 5 base c cli\nfundx 5 base d cli\nschedule 0 0 0 1 1 1 1 1 1 1 1 1 1 1\n",
        0,
        "thread 'c' waits for good for a reply of thread 's'
thread 'd' waits for good for a server at port 'p'
",
    ),
    // The owner of the mutex sleeps at the end, and would go on.
    (
        PLAY,
        "lottery 3\nquantum 10\nfor 30\nmutex m\nscript own\nlock m sleep 100\nendscript\n\
        script wants\nlock m\nendscript\nfundx 1 base a own\nat 5\nfundx 1 base b wants\n",
        0,
        "",
    ),
];

/// What the calls tell of runs that show little.
const OF_RUNS: &[Told<'static>] = &[
    (PLAY, "lottery 3\nfor 300\n", 0, NO_THREAD),
    (
        PLAY,
        "lottery 3\nfor 300\nscript s\nendscript\nmkcur c\nat 5\nlscur\n",
        0,
        NO_THREAD,
    ),
    (
        PLAY,
        "lottery 3\nfor 50\nscript s\ncompute 90 endscript\nfundx 1 base a s\n",
        0,
        "the run of 50 ticks is shorter than a quantum of 100, whose ticks count when it is over\n",
    ),
    (
        PLAY,
        "lottery 3\nquantum 9\nfor 8\nscript s\ncompute 90 endscript\nfundx 1 base a s\n",
        0,
        "the run of 8 ticks is shorter than a quantum of 9, whose ticks count when it is over\n",
    ),
    (
        PLAY,
        "lottery 3\nquantum 8\nfor 8\nscript s\ncompute 90 endscript\nfundx 1 base a s\n",
        0,
        "",
    ),
    (PLAY, "lottery 1\nmkcur c\nschedule 0 1\n", 0, ""),
    // A run has no time, so it is never shorter than a quantum.
    (RUN, SPINS, 0, NO_TURNS),
    (RUN, "lottery 3\nturns 0\nfor 1\nmkcur c\n", 0, NO_THREAD),
    (PLAY, SPINS, 0, ""),
];

/// What the calls tell of plays that end before what they are to show.
const OF_ENDS: &[Told<'static>] = &[
    // Beginnings after the end.
    (
        &[
            &["lot_sim", "shares", "--from", "299"],
            &["lot_sim", "chart", "--from", "299"],
        ],
        SPINS,
        0,
        "",
    ),
    (
        &[
            &["lot_sim", "shares", "--from", "300"],
            &["lot_sim", "chart", "--from", "300"],
        ],
        SPINS,
        0,
        "nothing is left to show: '--from 300' isn't before the end of the run at 300\n",
    ),
    (
        &[
            &["lot_sim", "shares", "--from", "9000"],
            &["lot_sim", "chart", "--from", "9000"],
        ],
        SPINS,
        0,
        "nothing is left to show: '--from 9000' isn't before the end of the run at 300\n",
    ),
    // A refusal of another play. The drawn number, modulo the 512 units that both weigh, is 265 with the seed 1, and 11
    // with the seed 2.
    (
        &[&["lot_sim", "report", "--seeds", "1..2"]],
        STRICT,
        1,
        "a refusal ended a play with another seed than the first: the input is strict\n",
    ),
];

/// What the program tells of words that it refuses.
const OF_WORDS: &[Told<'static>] = &[
    (
        &[&["lot_sim", "x.lot"]],
        "",
        2,
        "error: unrecognized subcommand 'x.lot'

  tip: 'lot_sim play x.lot' plays a file of this name

Usage: lot_sim <COMMAND>

For more information, try '--help'.
",
    ),
    (
        &[&["lot_sim", "play", "--csv"]],
        "",
        2,
        "error: unexpected argument '--csv' found

  tip: 'report' has it: 'lot_sim report --csv'

Usage: lot_sim play [OPTIONS] [FILE]

For more information, try '--help'.
",
    ),
    (
        &[&["lot_sim", "shares", "x.lot", "--by=currency"]],
        "",
        2,
        "error: unexpected argument '--by' found

  tip: 'chart' has it: 'lot_sim chart --by'

Usage: lot_sim shares [OPTIONS] [FILE]

For more information, try '--help'.
",
    ),
    (
        &[&["lot_sim", "chart", "-o", "x.svg"]],
        "",
        2,
        "error: unexpected argument '-o' found

Usage: lot_sim chart [OPTIONS] [FILE]

For more information, try '--help'.
",
    ),
];

#[test]
fn told_of_commands(rt: HostRuntime) {
    check_all_told(&rt, rt.alloc(), OF_COMMANDS)
}

#[test]
fn told_of_waits(rt: HostRuntime) {
    check_all_told(&rt, rt.alloc(), OF_WAITS)
}

#[test]
fn told_of_runs(rt: HostRuntime) {
    check_all_told(&rt, rt.alloc(), OF_RUNS)
}

#[test]
fn told_of_ends(rt: HostRuntime) {
    check_all_told(&rt, rt.alloc(), OF_ENDS)
}

#[test]
fn told_of_words(rt: HostRuntime) {
    check_all_told(&rt, rt.alloc(), OF_WORDS)
}

#[test]
fn told_of_faults(rt: HostRuntime) {
    check_all_told(&rt, rt.alloc(), FAULTS)
}
