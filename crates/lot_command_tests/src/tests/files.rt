//! Inputs in files, and files that can't be read.

use super::inputs::Fake;
use super::same::{check_same, check_same_at};
use super::{EMPTY_REPORT, Ended, Failing, ended_of, ended_on};
use lot_command::status;
use std::alloc::Global;
use std::io::{ErrorKind, Read};
use std::process::Abort;
use std::sync::Wait;
use std::thread::Threads;

/// The input on standard input.
const STANDARD: &str = "lottery 1\n";

/// The input in the file `x.lot`.
const FILED: &str =
    "lottery 1\nquantum 2\nscript spin\ncompute 9\nendscript\nfundx 1 base a spin\nschedule 0 1 1 1 1\n";

const PLAYED: &str = "0 funded 1 1
1 draw 0 of 1 thread 1
1 thread 1 ticks 2 expire
1 draw 0 of 1 thread 1
1 thread 1 ticks 2 expire
report
thread 1 a quanta 2 ticks 4
processor 1 quanta 2 idle 0 ticks 4
total turns 5 quanta 2 ticks 4
";

const EXPLAINED: &str = "0 funded 1 1
1 lot thread 1 a weight 1 from 0 below 1 wins
1 draw 0 of 1 thread 1
1 thread 1 ticks 2 expire
1 lot thread 1 a weight 1 from 0 below 1 wins
1 draw 0 of 1 thread 1
1 thread 1 ticks 2 expire
report
thread 1 a quanta 2 ticks 4
processor 1 quanta 2 idle 0 ticks 4
total turns 5 quanta 2 ticks 4
";

/// The report and the history of a run, which makes only the command.
const RUN: &str = "report
thread 1 a quanta 0 ticks 0
processor 1 quanta 0 idle 0 ticks 0
total turns 1 quanta 0 ticks 0
schedule 0
";

const TICKS: &str = "tick,a\n0,0\n1,1\n2,2\n3,3\n4,4\n";

const DRAWS: &str = "tick,a\n0,1\n1,1\n2,2\n3,2\n4,2\n";

/// The ticks after tick 1 and up to tick 3: one of each quantum.
const TICKS_BETWEEN: &str = "tick,a\n1,0\n2,1\n3,2\n";

/// The draws between the same ticks: only the one of tick 2.
const DRAWS_BETWEEN: &str = "tick,a\n1,0\n2,1\n3,1\n";

/// The shares of the only thread: no thread has run at tick 0.
const SHARES: &str = "tick,a\n0,0.0\n1,100.0\n2,100.0\n3,100.0\n4,100.0\n";

/// The shares of the draws of tick 0 and tick 2, each in its own tick and the next.
const DRAW_SHARES: &str = "tick,a\n0,100.0\n1,100.0\n2,100.0\n3,100.0\n4,0.0\n";

/// Words, and the expected output.
const ROWS: &[(&[&str], &str)] = &[
    (&["lot_sim", "play", "x.lot"], PLAYED),
    (&["lot_sim", "play", "--", "x.lot"], PLAYED),
    (&["lot_sim", "explain", "x.lot"], EXPLAINED),
    (&["lot_sim", "run", "x.lot"], RUN),
    (&["lot_sim", "shares", "x.lot"], TICKS),
    (&["lot_sim", "shares", "x.lot", "--quanta"], DRAWS),
    (&["lot_sim", "shares", "--quanta", "x.lot"], DRAWS),
    (&["lot_sim", "shares", "--quanta", "-"], "tick\n0\n"),
    (
        &["lot_sim", "shares", "x.lot", "--from", "1", "--to", "3"],
        TICKS_BETWEEN,
    ),
    (
        &[
            "lot_sim", "shares", "--to=3", "--from=1", "--quanta", "x.lot",
        ],
        DRAWS_BETWEEN,
    ),
    (
        &["lot_sim", "shares", "--from", "3", "x.lot"],
        "tick,a\n3,0\n4,1\n",
    ),
    (
        &["lot_sim", "shares", "--to", "1", "x.lot"],
        "tick,a\n0,0\n1,1\n",
    ),
    (
        &["lot_sim", "shares", "--from", "3", "--to", "9", "x.lot"],
        "tick,a\n3,0\n4,1\n",
    ),
    (
        &["lot_sim", "shares", "--from", "9", "x.lot"],
        "tick,a\n4,0\n",
    ),
    (&["lot_sim", "shares", "--from", "0", "x.lot"], TICKS),
    (&["lot_sim", "shares", "--window", "2", "x.lot"], SHARES),
    (
        &["lot_sim", "shares", "x.lot", "--window=1", "--quanta"],
        DRAW_SHARES,
    ),
    (
        &["lot_sim", "shares", "--from=3", "--window=9", "x.lot"],
        "tick,a\n3,0.0\n4,100.0\n",
    ),
    (&["lot_sim", "play"], EMPTY_REPORT),
    (&["lot_sim", "play", "-"], EMPTY_REPORT),
    (&["lot_sim", "play", "--", "-"], EMPTY_REPORT),
];

/// Calls the program with these words, and this reader of the file.
fn ended_with<H: Threads + Wait + Sync, F: Read + Drop>(
    rt: &H,
    alloc: Global,
    words: &[&str],
    file: F,
) -> Ended {
    let inputs = Fake {
        standard: STANDARD.as_bytes(),
        name: "x.lot",
        file,
    };
    ended_of(rt, alloc, words, inputs)
}

/// Calls the program with these words and a readable file, and compares the output.
fn check_written<H: Abort + Threads + Wait + Sync>(
    rt: &H,
    alloc: Global,
    words: &[&str],
    expected: &str,
) {
    let found = ended_with(rt, alloc, words, FILED.as_bytes()).found(expected);
    check_same_at(rt, &words, &found, &(0, true, false));
}

#[test]
fn named_inputs(rt: HostRuntime) {
    for (words, expected) in ROWS {
        check_written(&rt, rt.alloc(), words, expected);
    }
}

/// The words with a title before the file or after it.
const TITLED: &[&[&str]] = &[
    &["lot_sim", "chart", "--title", "One", "x.lot"],
    &["lot_sim", "chart", "x.lot", "--title", "One"],
];

// A picture's title may come before the file or after it.
#[test]
fn titled(rt: HostRuntime) {
    let alloc = rt.alloc();
    let wanted = ended_on(&rt, alloc, &["lot_sim", "chart", "--title", "One"], FILED);
    check_titled(&rt, alloc, wanted.output.as_slice());
}

/// Compares the pictures of the file that have a title with this one.
fn check_titled<H: Abort + Threads + Wait + Sync>(rt: &H, alloc: Global, wanted: &[u8]) {
    let picture = str::from_utf8(wanted).unwrap_or("");
    check_same(rt, &picture.contains(">One</title>\n"), &true);
    for words in TITLED {
        check_written(rt, alloc, words, picture);
    }
}

/// Calls the program on the file of this name, which fails in this way, and compares the diagnostics.
fn check_unread<H: Abort + Threads + Wait + Sync>(
    rt: &H,
    alloc: Global,
    (word, name): (&str, &str),
    file: Failing,
    expected: &str,
) {
    let ended = ended_with(rt, alloc, &["lot_sim", word, name], file);
    let found = (ended.code, ended.output.is_empty(), ended.told());
    check_same_at(rt, &word, &found, &(3, true, expected));
}

/// A file's name, whether it has given all its bytes, how it fails then, and the diagnostics.
type Unread = (&'static str, bool, ErrorKind, &'static str);

/// A missing file, a directory, which can be opened but not read, and a file that fails after a byte.
const UNREAD: &[Unread] = &[
    (
        "y.lot",
        true,
        ErrorKind::IsADirectory,
        "y.lot: cannot read the input: no such file\n",
    ),
    (
        "x.lot",
        true,
        ErrorKind::IsADirectory,
        "x.lot: cannot read the input: is a directory\n",
    ),
    (
        "x.lot",
        false,
        ErrorKind::Interrupted,
        "x.lot: cannot read the input: operation interrupted\n",
    ),
];

/// Calls the program with this subcommand on each of these files.
fn check_unread_files<H: Abort + Threads + Wait + Sync>(rt: &H, alloc: Global, word: &str) {
    for (name, given, kind, expected) in UNREAD {
        let file = Failing {
            given: *given,
            kind: *kind,
        };
        check_unread(rt, alloc, (word, name), file, expected);
    }
}

const WORDS: &[&str] = &["play", "report", "explain", "run", "shares", "chart"];

#[test]
fn unread_files(rt: HostRuntime) {
    for word in WORDS {
        check_unread_files(&rt, rt.alloc(), word);
    }
}

// The input of the file is refused like one of standard input, and each diagnostic begins with the file's name.
#[test]
fn refused_file(rt: HostRuntime) {
    let file = "lottery 1\nmktk 5 base\n".as_bytes();
    let ended = ended_with(&rt, rt.alloc(), &["lot_sim", "play", "x.lot"], file);
    let (code, is_written, _) = ended.found("refused line 2 51 BadLine\n");
    let expected = "x.lot:2: 'mktk' is no body line; did you mean 'mktkt'?\n";
    check_same(&rt, &(code, is_written, ended.told()), &(1, true, expected));
}

/// An input with eleven faults.
const ELEVEN: &str =
    "lottery 1\nlsthr 1\nlsthr 1\nlsthr 1\nlsthr 1\nlsthr 1\nlsthr 1\nlsthr 1\nlsthr 1\nlsthr 1\nlsthr 1\nlsthr 1\n";

#[test]
fn more_faults_of_a_file(rt: HostRuntime) {
    let file = ELEVEN.as_bytes();
    let ended = ended_with(&rt, rt.alloc(), &["lot_sim", "play", "x.lot"], file);
    let first = "x.lot:2: this line is written 'lsthr', and here are 2 words\n";
    let last =
        "x.lot:11: this line is written 'lsthr', and here are 2 words\nx.lot: there are more faults\n";
    let told = ended.told();
    check_same(
        &rt,
        &(told.starts_with(first), told.ends_with(last)),
        &(true, true),
    );
}

/// A refused command, an unlock of another's mutex, a thread that weighs nothing and a command after the end.
const WARNED: &str =
    "lottery 3\nfor 20\nquantum 10\nmutex m\nscript s\nunlock m compute 90 endscript\nmkthr a s\nrmtkt 7\n\
    fundx 1 base b s\nat 21\nmkcur c\n";

const WARNINGS: &str = "x.lot:8: the command was refused: no ticket has the number 7
x.lot:11: this command was never made: tick 21 is after the end of the run at 20
x.lot:6: 'unlock m' in script 's' was refused to thread 'b' once: the thread doesn't own the mutex
x.lot: thread 'a' is ready at the end and weighs nothing: it wins no draw before something funds it
";

#[test]
fn warnings_of_a_file(rt: HostRuntime) {
    let words = ["lot_sim", "play", "x.lot"];
    let ended = ended_with(&rt, rt.alloc(), &words, WARNED.as_bytes());
    check_same(&rt, &(ended.code, ended.told()), &(0, WARNINGS));
}

/// Plays the file of this name, while the only entry is a directory `x.lot`, with an output for diagnostics that fails.
/// Returns the exit status and whether nothing was written.
fn ended_untold<H: Threads + Wait + Sync>(rt: &H, alloc: Global, name: &str) -> (u8, bool) {
    let mut output = Vec::new(alloc);
    let inputs = Fake {
        standard: STANDARD.as_bytes(),
        name: "x.lot",
        file: Failing {
            given: true,
            kind: ErrorKind::IsADirectory,
        },
    };
    let errors = Failing {
        given: false,
        kind: ErrorKind::Interrupted,
    };
    let words = ["lot_sim", "play", name];
    let code = status(rt, alloc, &words, inputs, &mut output, errors);
    (code, output.is_empty())
}

// If a write of the diagnostics fails too, the status is the same.
#[test]
fn failing_errors(rt: HostRuntime) {
    for name in ["x.lot", "y.lot"] {
        let ended = ended_untold(&rt, rt.alloc(), name);
        check_same_at(&rt, &name, &ended, &(3, true));
    }
}
