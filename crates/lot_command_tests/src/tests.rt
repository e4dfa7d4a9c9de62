//! Inputs with the whole outputs that `play` writes, command lines, and readers and writers that fail.

mod files;
mod inputs;
mod outputs;
mod refused;
mod runs;
mod same;
mod shown;
mod timed;
mod told;

use inputs::on_standard;
use lot_command::{Inputs, status, unread_status};
use lot_io::{IoFault, Watched};
use lot_system::{Played, play};
use refused::FIRST_FAULTS;
use runs::RUNS;
use same::{check_same, check_same_at};
use shown::{
    EXPLAINED_CALLS, NO_SEEDS, NOT_OF_PLAYS, OTHER_CALLS, REFUSED_OPTIONS, REFUSED_SEEDS,
    REPORT_TABLES, SEVERAL_PLAYS, TABLES,
};
use std::alloc::Global;
use std::io;
use std::io::{ErrorKind, Read, Write};
use std::process::Abort;
use std::sync::Wait;
use std::thread::Threads;
use timed::{REFUSED_SLEEPS, SLEEPERS_IN_TIME, TURNS_IN_TIME};
use told::VIEWS;

/// Two threads that compute, with base tickets of 10 and 5.
const SPINNERS: &str =
    "script spin\ncompute 1000\nendscript\nmktkt 10 base\nmkthr a spin\nfund 1 a\nmktkt 5 base\nmkthr b spin\n\
    fund 2 b\n";

/// The lines of their commands.
const SPINNERS_MADE: &str = "0 ticket 1
0 thread 1
0 done
0 ticket 2
0 thread 2
0 done
";

/// Plays the input, and compares the exit status and the output.
fn check_play<H: Abort + Threads + Wait + Sync>(
    rt: &H,
    alloc: Global,
    input: &str,
    code: u8,
    expected: &str,
) {
    check_output_of(rt, alloc, &["lot_sim", "play"], input, code, expected);
}

/// The result of a call of the program: its exit status, and the text on each output.
struct Ended {
    code: u8,
    output: Vec<u8>,
    errors: Vec<u8>,
}

impl Drop for Ended {
    // An explicit drop: code that drops an `Ended` is then proved without unfolding its fields.
    fn drop(self) {
        let Self {
            code: _,
            output: _,
            errors: _,
        } = self;
    }
}

impl Ended {
    /// The exit status, whether this is the output, and whether there are diagnostics.
    fn found(&self, expected: &str) -> (u8, bool, bool) {
        let is_written = self.output.as_slice() == expected.as_bytes();
        (self.code, is_written, !self.errors.is_empty())
    }

    /// The diagnostics.
    fn told(&self) -> &str {
        str::from_utf8(self.errors.as_slice()).unwrap_or("?")
    }
}

/// Calls the program with these words and this input on standard input.
fn ended_on<H: Threads + Wait + Sync>(rt: &H, alloc: Global, words: &[&str], input: &str) -> Ended {
    ended_of(rt, alloc, words, on_standard(input.as_bytes()))
}

/// Calls the program with these words and these inputs.
fn ended_of<H: Threads + Wait + Sync, I: Inputs>(
    rt: &H,
    alloc: Global,
    words: &[&str],
    inputs: I,
) -> Ended {
    let mut output = Vec::new(alloc);
    let mut errors = Vec::new(alloc);
    let code = status(rt, alloc, words, inputs, &mut output, &mut errors);
    Ended {
        code,
        output,
        errors,
    }
}

/// Calls the program with these words and this input, and compares the exit status and the output. There must be a
/// diagnostic if the status isn't 0.
fn check_output_of<H: Abort + Threads + Wait + Sync>(
    rt: &H,
    alloc: Global,
    words: &[&str],
    input: &str,
    code: u8,
    expected: &str,
) {
    let (ended, is_written, is_told) = ended_on(rt, alloc, words, input).found(expected);
    let found = (ended, is_written, is_told || code == 0);
    check_same_at(rt, &(words, input), &found, &(code, true, true));
}

/// Words, an input, and then the exit status and the output.
type Row = (&'static [&'static str], &'static str, u8, &'static str);

/// Calls the program as each row says, and compares the exit status and the output.
fn check_rows<H: Abort + Threads + Wait + Sync>(rt: &H, alloc: Global, rows: &[Row]) {
    for (words, input, code, output) in rows {
        check_output_of(rt, alloc, words, input, *code, output);
    }
}

/// Plays the input of each row, and compares the exit status, and the output with that of the row.
fn check_plays<H: Abort + Threads + Wait + Sync>(
    rt: &H,
    alloc: Global,
    code: u8,
    rows: &[(&str, &str)],
) {
    for (input, output) in rows {
        check_play(rt, alloc, input, code, output);
    }
}

/// Plays the two threads above after this header and with this schedule, and compares the output after the lines of
/// their commands.
fn check_spinners<H: Abort + Threads + Wait + Sync>(
    rt: &H,
    alloc: Global,
    header: &str,
    schedule: &str,
    expected: &str,
) {
    let input = format!(in alloc; "{header}{SPINNERS}{schedule}").expect(rt, "memory");
    let output = joined(rt, alloc, SPINNERS_MADE, expected);
    check_play(rt, alloc, input.as_str(), 0, output.as_str());
}

/// The two texts as one.
fn joined(rt: &impl Abort, alloc: Global, front: &str, rest: &str) -> String {
    format!(in alloc; "{front}{rest}").expect(rt, "memory")
}

/// Headers, schedules, and the outputs after the lines of the commands of the two threads.
const TWO_SPINNERS: &[(&str, &str, &str)] = &[
    (
        "lottery 1\n",
        "schedule 0 0 0 0 0 0 1 1 1 1 1 1\n",
        "1 draw 9 of 15 thread 1
1 thread 1 ticks 100 expire
1 draw 4 of 15 thread 1
1 thread 1 ticks 100 expire
1 draw 10 of 15 thread 2
1 thread 2 ticks 100 expire
report
thread 1 a quanta 2 ticks 200
thread 2 b quanta 1 ticks 100
processor 1 quanta 3 idle 0 ticks 300
total turns 12 quanta 3 ticks 300
",
    ),
    ("lottery 2\n", "schedule 0 0 0 0 0 0 1 1\n", FINER_TURN),
    ("lottery 2\n", "runs 0 6 1 2\n", FINER_TURN),
];

/// One turn, with finer values.
const FINER_TURN: &str = "1 draw 2724 of 3840 thread 2
1 thread 2 ticks 100 expire
report
thread 1 a quanta 0 ticks 0
thread 2 b quanta 1 ticks 100
processor 1 quanta 1 idle 0 ticks 100
total turns 8 quanta 1 ticks 100
";

#[test]
fn spinners(rt: HostRuntime) {
    for (header, schedule, output) in TWO_SPINNERS {
        check_spinners(&rt, rt.alloc(), header, schedule, output);
    }
}

/// Nothing to do.
const EMPTY_REPORT: &str = "report
processor 1 quanta 0 idle 0 ticks 0
total turns 0 quanta 0 ticks 0
";

/// A script that ends within its quantum, and then a draw without threads.
const ENDING: &str =
    "lottery 1\nquantum 10\nscript s\ncompute 5\nendscript\nmkthr a s\nmktkt 7 base\nfund 1 a\n\
    schedule 0 0 0 1 1 1\n";

const ENDED: &str = "0 thread 1
0 ticket 1
0 done
1 draw 6 of 7 thread 1
1 thread 1 ticks 6 exit
1 idle
report
thread 1 a quanta 1 ticks 6
processor 1 quanta 1 idle 1 ticks 6
total turns 6 quanta 1 ticks 6
";

/// Two processors and one thread, and one turn of the console too many, which doesn't count.
const TWO_PROCESSORS: &str =
    "lottery 1\nprocessors 2\nscript spin\ncompute 150\nendscript\nfundx 10 base a spin\nschedule 0 1 2 1 2 0\n";

const TWO_PROCESSORS_PLAYED: &str = "0 funded 1 1
1 draw 4 of 10 thread 1
2 idle
1 thread 1 ticks 100 expire
2 draw 3 of 10 thread 1
0 refused 41 Ended
report
thread 1 a quanta 2 ticks 100
processor 1 quanta 1 idle 0 ticks 100
processor 2 quanta 1 idle 1 ticks 0
total turns 5 quanta 2 ticks 100
";

/// Refused commands are turns.
const REFUSED_COMMANDS: &str =
    "lottery 1\nlimits 1 1 1\nmktkt 1 base\nmktkt 1 base\nmkcur Bad\nmkthr a none\nfund 9 a\nschedule 0 0 0 0 0\n";

const COMMANDS_REFUSED: &str = "0 ticket 1
0 refused 13 Full
0 refused 1 BadName
0 refused 14 NoScript
0 refused 4 NoTicket
report
processor 1 quanta 0 idle 0 ticks 0
total turns 5 quanta 0 ticks 0
";

/// The paper's currency graph: alice and bob share base, and pass on their values to their tasks (4.4).
const CURRENCY_GRAPH: &str =
    "lottery 1\nscript spin\ncompute 100\nendscript\nmkcur alice\nmkcur bob\nmkcur task1\nmkcur task2\n\
    mkcur task3\nmktkt 1000 base\nfund 1 alice\nmktkt 2000 base\nfund 2 bob\nmktkt 100 alice\nfund 3 task1\n\
    mktkt 200 alice\nfund 4 task2\nmktkt 100 bob\nfund 5 task3\nfundx 200 task2 thread2 spin\n\
    fundx 300 task2 thread3 spin\nfundx 100 task3 thread4 spin\nlscur\nlstkt\nlsthr\n\
    schedule 0 0 0 0 0 0 0 0 0 0 0 0 0 0 0 0 0 0 0 0 0\n";

const CURRENCY_LISTINGS: &str = "0 currency 1
0 currency 2
0 currency 3
0 currency 4
0 currency 5
0 ticket 1
0 done
0 ticket 2
0 done
0 ticket 3
0 done
0 ticket 4
0 done
0 ticket 5
0 done
0 funded 6 1
0 funded 7 2
0 funded 8 3
0 lscur 6
currency 0 base backing 0 issued 2 active 3000 value 3000
currency 1 alice backing 1 issued 2 active 200 value 1000
currency 2 bob backing 1 issued 1 active 100 value 2000
currency 3 task1 backing 1 issued 0 active 0 value 0
currency 4 task2 backing 1 issued 2 active 500 value 1000
currency 5 task3 backing 1 issued 1 active 100 value 2000
0 lstkt 8
ticket 1 amount 1000 in base funds alice active value 1000
ticket 2 amount 2000 in base funds bob active value 2000
ticket 3 amount 100 in alice funds task1 inactive value 0
ticket 4 amount 200 in alice funds task2 active value 1000
ticket 5 amount 100 in bob funds task3 active value 2000
ticket 6 amount 200 in task2 funds thread2 active value 400
ticket 7 amount 300 in task2 funds thread3 active value 600
ticket 8 amount 100 in task3 funds thread4 active value 2000
0 lsthr 3
thread 1 thread2 ready value 400 weight 400 quanta 0 ticks 0
thread 2 thread3 ready value 600 weight 600 quanta 0 ticks 0
thread 3 thread4 ready value 2000 weight 2000 quanta 0 ticks 0
report
thread 1 thread2 quanta 0 ticks 0
thread 2 thread3 quanta 0 ticks 0
thread 3 thread4 quanta 0 ticks 0
processor 1 quanta 0 idle 0 ticks 0
total turns 21 quanta 0 ticks 0
";

/// A client calls a server with 41, and the reply is 42.
const CALL_AND_REPLY: &str =
    "lottery 1\nquantum 10\nport p\nscript srv\nreceive p\nadd 1\nreply\nendscript\n\
    script cli\nset 41\ncall p\ncompute 2\nendscript\nfundx 5 base s srv\nfundx 5 base c cli\n\
    schedule 0 0 1 1 1 1 1 1 1 1 1 1\n";

const CALL_AND_REPLY_PLAYED: &str = "0 funded 1 1
0 funded 2 2
1 draw 4 of 10 thread 1
1 thread 1 ticks 1 receive 1 waits
1 draw 4 of 5 thread 2
1 thread 2 ticks 2 call 1 served by 1
1 draw 5 of 100 thread 1 got 41
1 thread 1 ticks 2 reply client 2
1 thread 1 ticks 1 exit
1 draw 5 of 25 thread 2 got 42
1 thread 2 ticks 3 exit
1 idle
report
thread 1 s quanta 2 ticks 4
thread 2 c quanta 2 ticks 5
processor 1 quanta 4 idle 1 ticks 9
total turns 12 quanta 4 ticks 9
";

/// A loop of 9 ticks and the exit after it, in quanta of 9 ticks.
const LOOP_IN_TWO: &str =
    "lottery 1\nquantum 9\nscript s\nloop 2\ncompute 3\nend\nendscript\nfundx 1 base a s\nschedule 0 1 1 1 1\n";

const LOOP_IN_TWO_PLAYED: &str = "0 funded 1 1
1 draw 0 of 1 thread 1
1 thread 1 ticks 9 expire
1 draw 0 of 1 thread 1
1 thread 1 ticks 1 exit
report
thread 1 a quanta 2 ticks 10
processor 1 quanta 2 idle 0 ticks 10
total turns 5 quanta 2 ticks 10
";

/// The listing above, in one quantum.
const LOOP_IN_ONE: &str =
    "lottery 1\nquantum 10\nscript s\nloop 2\ncompute 3\nend\nendscript\nfundx 1 base a s\nschedule 0 1 1 1 1\n";

const LOOP_IN_ONE_PLAYED: &str = "0 funded 1 1
1 draw 0 of 1 thread 1
1 thread 1 ticks 10 exit
1 idle
1 idle
report
thread 1 a quanta 1 ticks 10
processor 1 quanta 1 idle 2 ticks 10
total turns 5 quanta 1 ticks 10
";

/// A currency worth 256 units, one of base: a thread has 2 of them and the other 253, so both print as 0.
const LESS_THAN_ONE: &str =
    "lottery 2\nscript s\ncompute 100\nendscript\nmkcur c\nmktkt 1 base\nfund 1 c\nfundx 10 c a s\n\
    fundx 990 c b s\nlsthr\nschedule 0 0 0 0 0 0 1\n";

const LESS_THAN_ONE_PLAYED: &str = "0 currency 1
0 ticket 1
0 done
0 funded 2 1
0 funded 3 2
0 lsthr 2
thread 1 a ready value 0 weight 0 quanta 0 ticks 0
thread 2 b ready value 0 weight 0 quanta 0 ticks 0
1 draw 54 of 255 thread 2
report
thread 1 a quanta 0 ticks 0
thread 2 b quanta 1 ticks 0
processor 1 quanta 1 idle 0 ticks 0
total turns 7 quanta 1 ticks 0
";

/// Three threads share 100 of base at unit 256: 8533 each, listed as 33.
const A_THIRD_EACH: &str =
    "lottery 2\nscript s\ncompute 100\nendscript\nmkcur g\nmktkt 100 base\nfund 1 g\nfundx 1 g a s\nfundx 1 g b s\n\
    fundx 1 g c s\nlsthr\nschedule 0 0 0 0 0 0 0 1\n";

const A_THIRD_EACH_PLAYED: &str = "0 currency 1
0 ticket 1
0 done
0 funded 2 1
0 funded 3 2
0 funded 4 3
0 lsthr 3
thread 1 a ready value 33 weight 33 quanta 0 ticks 0
thread 2 b ready value 33 weight 33 quanta 0 ticks 0
thread 3 c ready value 33 weight 33 quanta 0 ticks 0
1 draw 21489 of 25599 thread 3
report
thread 1 a quanta 0 ticks 0
thread 2 b quanta 0 ticks 0
thread 3 c quanta 1 ticks 0
processor 1 quanta 1 idle 0 ticks 0
total turns 8 quanta 1 ticks 0
";

/// A waiter lends to a mutex's owner, which lends to its server. With this seed the threads 3, 2 and 1 win the first
/// draws.
const CHAIN_OF_LENDS: &str =
    "lottery 1\nseed 1270\nport p\nmutex m\nscript waiter\nlock m\nendscript\n\
    script owner\nlock m\ncall p\nendscript\nscript server\nreceive p\nendscript\nfundx 300 base w waiter\n\
    fundx 100 base o owner\nfundx 50 base v server\nlsthr\nschedule 0 0 0 1 1 1 1 1 1 1 0\n";

const CHAIN_OF_LENDS_PLAYED: &str = "0 funded 1 1
0 funded 2 2
0 funded 3 3
1 draw 424 of 450 thread 3
1 thread 3 ticks 1 receive 1 waits
1 draw 361 of 400 thread 2
1 thread 2 ticks 1 lock 1 taken
1 thread 2 ticks 1 call 1 served by 3
1 draw 215 of 15300 thread 1
1 thread 1 ticks 1 lock 1 waits
0 lsthr 3
thread 1 w waiting 1 value 300 weight 30000 quanta 1 ticks 1
thread 2 o served 3 value 400 weight 20000 quanta 1 ticks 2
thread 3 v ready value 450 weight 45000 quanta 1 ticks 1
report
thread 1 w quanta 1 ticks 1
thread 2 o quanta 1 ticks 2
thread 3 v quanta 1 ticks 1
processor 1 quanta 3 idle 0 ticks 4
total turns 11 quanta 3 ticks 4
";

/// Inputs whose commands are played, and the outputs of their plays.
const PLAYS_OF_COMMANDS: &[(&str, &str)] = &[
    ("lottery 1", EMPTY_REPORT),
    ("lottery 1\n", EMPTY_REPORT),
    (ENDING, ENDED),
    (TWO_PROCESSORS, TWO_PROCESSORS_PLAYED),
    (REFUSED_COMMANDS, COMMANDS_REFUSED),
    ("lottery 1\nlstkt\n", EMPTY_REPORT),
    (CURRENCY_GRAPH, CURRENCY_LISTINGS),
];

/// Inputs with scripts, and the outputs of their plays.
const PLAYS_OF_SCRIPTS: &[(&str, &str)] = &[
    (CALL_AND_REPLY, CALL_AND_REPLY_PLAYED),
    (LOOP_IN_TWO, LOOP_IN_TWO_PLAYED),
    (LOOP_IN_ONE, LOOP_IN_ONE_PLAYED),
    (LESS_THAN_ONE, LESS_THAN_ONE_PLAYED),
    (A_THIRD_EACH, A_THIRD_EACH_PLAYED),
    (CHAIN_OF_LENDS, CHAIN_OF_LENDS_PLAYED),
];

/// Refused inputs, and the outputs of their plays.
const REFUSED: &[(&str, &str)] = &[
    ("", "refused line 1 50 BadHeader\n"),
    (
        "lottery 1\nscript s\ncompute 5\n",
        "refused line 2 54 OpenScript\n",
    ),
    (
        "lottery 1\nscript s\nloop 1\nloop 1\nloop 1\nloop 1\nloop 1\nloop 1\nloop 1\nloop 1\nloop 1\n",
        "refused line 11 55 TooDeep\n",
    ),
    ("lottery 1\nschedule 0 2\n", "refused line 2 57 BadActor\n"),
    (
        "lottery 1\nquantum 10\nport p\nscript srv\nreceive p\n",
        "refused line 4 54 OpenScript\n",
    ),
    (
        "lottery 1\nquantum 10\nport p\nscript srv\nrecei",
        "refused line 5 51 BadLine\n",
    ),
    (
        "lottery 1\nquantum 10\nport p\nscript srv\nreceive",
        "refused line 5 51 BadLine\n",
    ),
    (
        "lottery 1\nmktkt 007 base\n",
        "refused line 2 52 BadNumber\n",
    ),
    (
        "lottery 1\nquantum 10\nprocessors 2\n",
        "refused line 3 50 BadHeader\n",
    ),
    (
        "lottery 1\nschedule 0\nseed 1\n",
        "refused line 3 50 BadHeader\n",
    ),
    ("lottery 1\nseed 1 2\n", "refused line 2 51 BadLine\n"),
    (
        "lottery 1\nscript s\ncall q\n",
        "refused line 3 53 UnknownName\n",
    ),
    ("lottery 3\n", "refused line 1 50 BadHeader\n"),
    ("lottery 2\nruns 0\n", "refused line 2 51 BadLine\n"),
    ("lottery 2\nruns 0 0\n", "refused line 2 52 BadNumber\n"),
    ("lottery 2\nruns 2 1\n", "refused line 2 57 BadActor\n"),
    (
        "lottery 2\nruns 0 1000000 0 1\n",
        "refused line 2 56 TooLong\n",
    ),
    ("lottery 1\nruns 0 1\n", "refused line 2 51 BadLine\n"),
];

/// An input that is strict, and its play without a refusal.
const STRICTLY: &[(&str, &str)] = &[(
    "lottery 3\nfor 10\nstrict\n",
    "0 1 idle
report
processor 1 quanta 0 idle 1 ticks 0 unused 10
total turns 1 quanta 0 ticks 0 refused 0 left 0
",
)];

#[test]
fn plays_of_commands(rt: HostRuntime) {
    check_plays(&rt, rt.alloc(), 0, PLAYS_OF_COMMANDS)
}

#[test]
fn plays_of_scripts(rt: HostRuntime) {
    check_plays(&rt, rt.alloc(), 0, PLAYS_OF_SCRIPTS)
}

#[test]
fn plays_in_time(rt: HostRuntime) {
    check_plays(&rt, rt.alloc(), 0, STRICTLY);
    check_plays(&rt, rt.alloc(), 0, TURNS_IN_TIME);
    check_plays(&rt, rt.alloc(), 0, SLEEPERS_IN_TIME)
}

#[test]
fn refused_plays(rt: HostRuntime) {
    check_plays(&rt, rt.alloc(), 1, REFUSED);
    check_plays(&rt, rt.alloc(), 1, REFUSED_SLEEPS);
    check_plays(&rt, rt.alloc(), 1, FIRST_FAULTS)
}

#[test]
fn long_comment(rt: HostRuntime) {
    let mut input = String::from_str(rt.alloc(), "lottery 1\n#").expect(&rt, "memory");
    for _ in 0..4096 {
        input.push('a').expect(&rt, "memory");
    }
    check_play(
        &rt,
        rt.alloc(),
        input.as_str(),
        1,
        "refused line 2 56 TooLong\n",
    );
}

/// A strict input in which a thread's second lock of one mutex is refused.
const STRICT: &str =
    "lottery 3\nquantum 10\nstrict\nfor 12\nmutex m\nscript twice\nlock m lock m unlock m endscript\n\
    fundx 1 base a twice\n";

/// Its lines and its report.
const STRICT_PLAYED: &str = "0 0 funded 1 1
0 1 draw 0.992 of 1 thread 1
1 1 thread 1 ticks 1 lock 1 taken
2 1 thread 1 ticks 1 refused 35 AlreadyOwner
report
thread 1 a quanta 1 ticks 2 share 100% due 100% value 100% ready waits 1 mean 0 longest 0 refused 1
processor 1 quanta 1 idle 0 ticks 2 unused 0
total turns 4 quanta 1 ticks 2 refused 0 left 0
ended at 2 of 12: 4 turns made
";

/// A refusal ends a strict play, with status 1 for each view of it. A run has no time, and goes on.
#[test]
fn strict_inputs(rt: HostRuntime) {
    let alloc = rt.alloc();
    check_play(&rt, alloc, STRICT, 1, STRICT_PLAYED);
    for word in VIEWS {
        let found = strict_end(&rt, alloc, &["lot_sim", *word]);
        check_same_at(&rt, word, &found, &(1, false));
    }
    let (code, _) = strict_end(&rt, alloc, &["lot_sim", "report", "--seeds", "1..3"]);
    check_same_at(&rt, &"seeds", &code, &1);
    let (code, _) = strict_end(&rt, alloc, &["lot_sim", "run"]);
    check_same_at(&rt, &"run", &code, &0);
}

/// The exit status for the strict input, and whether there are no diagnostics.
fn strict_end<H: Threads + Wait + Sync>(rt: &H, alloc: Global, words: &[&str]) -> (u8, bool) {
    let ended = ended_on(rt, alloc, words, STRICT);
    (ended.code, ended.errors.is_empty())
}

/// Checks the exit status of these words, and which output got a text.
fn check_words<H: Abort + Threads + Wait + Sync>(
    rt: &H,
    alloc: Global,
    words: &[&str],
    code: u8,
    on_output: bool,
) {
    let ended = ended_on(rt, alloc, words, "");
    check_same_at(
        rt,
        &words,
        &(ended.code, ended.output.is_empty(), ended.errors.is_empty()),
        &(code, !on_output, on_output),
    );
}

/// Calls the program with each of these rows of words, which it refuses.
fn check_refused_words<H: Abort + Threads + Wait + Sync>(rt: &H, alloc: Global, rows: &[&[&str]]) {
    for words in rows {
        check_words(rt, alloc, words, 2, false);
    }
}

const REFUSED_WORDS: &[&[&str]] = &[
    &["lot_sim"],
    &["lot_sim", "replay"],
    &["lot_sim", "play", "x", "y"],
    &["lot_sim", "play", "--seed"],
    &["lot_sim", "run", "x", "y"],
];

/// Words that the program refuses, in groups.
const ALL_REFUSED_WORDS: &[&[&[&str]]] = &[
    REFUSED_WORDS,
    NOT_OF_PLAYS,
    NO_SEEDS,
    REFUSED_OPTIONS,
    REFUSED_SEEDS,
];

#[test]
fn command_lines(rt: HostRuntime) {
    for rows in ALL_REFUSED_WORDS {
        check_refused_words(&rt, rt.alloc(), rows);
    }
    check_words(&rt, rt.alloc(), &["lot_sim", "--help"], 0, true);
}

/// Calls, in groups.
const CALLS: &[&[Row]] = &[
    TABLES,
    REPORT_TABLES,
    SEVERAL_PLAYS,
    OTHER_CALLS,
    EXPLAINED_CALLS,
    RUNS,
];

#[test]
fn calls(rt: HostRuntime) {
    for rows in CALLS {
        check_rows(&rt, rt.alloc(), rows);
    }
}

#[test]
fn version(rt: HostRuntime) {
    let ended = ended_on(&rt, rt.alloc(), &["lot_sim", "--version"], "");
    check_same(&rt, &ended.found("lot_sim 0.4.0\n"), &(0, true, false));
}

/// A word that isn't UTF-8 gives status 2, like a wrong word, and out of memory 3.
#[test]
fn unread_command_lines(rt: HostRuntime) {
    for (kind, code) in [(ErrorKind::InvalidData, 2), (ErrorKind::OutOfMemory, 3)] {
        let mut errors = Vec::new(rt.alloc());
        let ended = unread_status(&io::Error::from(kind), &mut errors);
        check_same(&rt, &(ended, !errors.is_empty()), &(code, true));
    }
    let failing = Failing {
        given: false,
        kind: ErrorKind::Other,
    };
    let ended = unread_status(&io::Error::from(ErrorKind::InvalidData), failing);
    check_same(&rt, &ended, &3);
}

/// A reader that gives some bytes and then fails, or a writer that fails at once.
#[derive(Drop)]
struct Failing {
    given: bool,
    kind: ErrorKind,
}

impl Read for Failing {
    fn read(&mut self, buf: &mut [u8]) -> io::Result<usize> {
        if self.given || buf.is_empty() {
            return Err(io::Error::from(self.kind));
        }
        self.given = true;
        buf[0] = b'#';
        Ok(1)
    }
}

impl Write for Failing {
    fn write(&mut self, _buf: &[u8]) -> io::Result<usize> {
        Err(io::Error::from(self.kind))
    }

    fn flush(&mut self) -> io::Result<()> {
        Ok(())
    }
}

/// Plays the bytes of a reader before it fails in this way, and compares the diagnostics.
fn check_reader<H: Abort + Threads + Wait + Sync>(
    rt: &H,
    alloc: Global,
    kind: ErrorKind,
    told: &str,
) {
    let inputs = on_standard(Failing { given: false, kind });
    let ended = ended_of(rt, alloc, &["lot_sim", "play"], inputs);
    let found = (ended.code, ended.output.is_empty(), ended.told());
    check_same_at(rt, &told, &found, &(3, true, told));
}

/// Calls the program with these words and a writer that fails in this way, and compares the diagnostics.
fn check_writer<H: Abort + Threads + Wait + Sync>(
    rt: &H,
    alloc: Global,
    words: &[&str],
    kind: ErrorKind,
    told: &str,
) {
    let inputs = on_standard("lottery 1".as_bytes());
    let writer = Failing { given: false, kind };
    let mut errors = Vec::new(alloc);
    let code = status(rt, alloc, words, inputs, writer, &mut errors);
    let found = str::from_utf8(errors.as_slice()).unwrap_or("?");
    check_same_at(rt, &words, &(code, found), &(3, told));
}

/// Ways in which a reader fails, and the diagnostics.
const UNREAD: &[(ErrorKind, &str)] = &[
    (ErrorKind::Other, "cannot read the input: other error\n"),
    (
        ErrorKind::Interrupted,
        "cannot read the input: operation interrupted\n",
    ),
];

/// Ways in which a writer fails, and the diagnostics. The closer of a pipe wants no more.
const UNWRITTEN: &[(ErrorKind, &str)] = &[
    (
        ErrorKind::StorageFull,
        "cannot write the output: no storage space\n",
    ),
    (ErrorKind::BrokenPipe, ""),
];

#[test]
fn failures(rt: HostRuntime) {
    for (kind, told) in UNREAD {
        check_reader(&rt, rt.alloc(), *kind, told);
    }
    for (kind, told) in UNWRITTEN {
        for word in ["play", "run", "--help"] {
            check_writer(&rt, rt.alloc(), &["lot_sim", word], *kind, told);
        }
    }
}

/// A writer that records the bytes that it accepts and whether all of them were flushed. Its call of this number fails:
/// with an error of this kind, or by accepting nothing.
struct FailingCall {
    written: Vec<u8>,
    is_flushed: bool,
    calls: u32,
    fails_at: u32,
    kind: Option<ErrorKind>,
}

impl Drop for FailingCall {
    // An explicit drop: code that drops a `FailingCall` is then proved without unfolding its fields.
    fn drop(self) {
        let Self {
            written: _,
            is_flushed: _,
            calls: _,
            fails_at: _,
            kind: _,
        } = self;
    }
}

impl FailingCall {
    /// A writer whose call of this number fails.
    fn new(alloc: Global, fails_at: u32, kind: Option<ErrorKind>) -> FailingCall {
        FailingCall {
            written: Vec::new(alloc),
            is_flushed: false,
            calls: 0,
            fails_at,
            kind,
        }
    }

    /// After a failure, whether the failed call was the last, and the accepted bytes are a beginning of this text.
    /// Otherwise whether they are the whole text, and flushed.
    fn has_taken(&self, text: &[u8], has_failed: bool) -> bool {
        let written = self.written.as_slice();
        if has_failed {
            self.calls == self.fails_at && text.starts_with(written)
        } else {
            self.is_flushed && text == written
        }
    }

    /// Counts one more call, and fails if it is the one.
    fn call(&mut self) -> io::Result<()> {
        self.calls = self.calls.saturating_add(1);
        match self.kind {
            Some(kind) if self.calls == self.fails_at => Err(io::Error::from(kind)),
            _ => Ok(()),
        }
    }
}

impl Write for FailingCall {
    fn write(&mut self, buf: &[u8]) -> io::Result<usize> {
        self.call()?;
        if self.calls == self.fails_at {
            return Ok(0);
        }
        self.is_flushed = false;
        self.written.write(buf)
    }

    fn flush(&mut self) -> io::Result<()> {
        self.call()?;
        self.is_flushed = true;
        Ok(())
    }
}

/// Plays the input to a writer whose call of this number fails. Returns the result, whether the writer failed, and the
/// writer.
fn played_to(
    alloc: Global,
    input: &str,
    fails_at: u32,
    kind: Option<ErrorKind>,
) -> (Result<Played, IoFault>, bool, FailingCall) {
    let mut writer = Watched::new(FailingCall::new(alloc, fails_at, kind));
    let mut reader = Watched::new(input.as_bytes());
    let ended = play(alloc, &mut reader, &mut writer);
    let has_failed = writer.failed();
    (ended, has_failed, writer.into_inner())
}

/// Plays the input to a writer whose call of this number fails. Returns whether the writer failed; then it accepted a
/// beginning of the whole output.
fn writing_fails(
    rt: &impl Abort,
    alloc: Global,
    (input, output): (&str, &str),
    fails_at: u32,
    kind: Option<ErrorKind>,
) -> bool {
    let (ended, has_failed, writer) = played_to(alloc, input, fails_at, kind);
    let wanted = if has_failed {
        Err(IoFault::Write)
    } else {
        Ok(Played::Done)
    };
    let is_taken = writer.has_taken(output.as_bytes(), has_failed);
    check_same_at(rt, &fails_at, &(ended, is_taken), &(wanted, true));
    has_failed
}

/// The number of the first write or flush that never comes, since there are fewer calls.
fn first_unmade_write(
    rt: &impl Abort,
    alloc: Global,
    row: (&str, &str),
    kind: Option<ErrorKind>,
) -> u32 {
    for call in 1..1000 {
        if !writing_fails(rt, alloc, row, call, kind) {
            return call;
        }
    }
    0
}

/// The input with tables of these limits, inserted after this front.
fn with_limits(rt: &impl Abort, alloc: Global, input: &str, front: &str, limits: &str) -> String {
    let rest = input.strip_prefix(front).expect(rt, "a first line");
    format!(in alloc; "{front}limits {limits}\n{rest}").expect(rt, "memory")
}

/// The ways in which a call fails: with an error of this kind, or by accepting no byte.
const WAYS: &[Option<ErrorKind>] = &[Some(ErrorKind::Other), Some(ErrorKind::Interrupted), None];

/// Plays the input with tables of these limits, inserted after this front, to writers that fail in each way at each of
/// their calls. The page of turns, five lines of the report and, if it can fail, the flush: at least that many calls
/// fail.
fn check_failing_writers(
    rt: &impl Abort,
    alloc: Global,
    (input, output): (&str, &str),
    front: &str,
    limits: &str,
) {
    let input = with_limits(rt, alloc, input, front, limits);
    for kind in WAYS {
        let unmade = first_unmade_write(rt, alloc, (input.as_str(), output), *kind);
        check_same_at(rt, &unmade, &(6 < unmade), &true);
    }
}

/// The front of the input of a call and its reply, after which the limits come.
const CALL_FRONT: &str = "lottery 1\nquantum 10\n";

#[test]
fn failing_writers(rt: HostRuntime) {
    let alloc = rt.alloc();
    let graph = (CURRENCY_GRAPH, CURRENCY_LISTINGS);
    check_failing_writers(&rt, alloc, graph, "lottery 1\n", "8 5 3");
    let call = (CALL_AND_REPLY, CALL_AND_REPLY_PLAYED);
    check_failing_writers(&rt, alloc, call, CALL_FRONT, "2 1 2");
}

/// A reader of a few bytes at a time, whose call of this number fails.
#[derive(Drop)]
struct FailingRead<'a> {
    rest: &'a [u8],
    calls: u32,
    fails_at: u32,
    kind: ErrorKind,
}

impl Read for FailingRead<'_> {
    fn read(&mut self, buf: &mut [u8]) -> io::Result<usize> {
        self.calls = self.calls.saturating_add(1);
        if self.calls == self.fails_at {
            return Err(io::Error::from(self.kind));
        }
        let few = buf.len().min(5);
        self.rest.read(&mut buf[..few])
    }
}

/// Plays the input from a reader whose call of this number fails. Returns whether the reader failed; then nothing was
/// written.
fn reading_fails(
    rt: &impl Abort,
    alloc: Global,
    (input, output): (&str, &str),
    fails_at: u32,
    kind: ErrorKind,
) -> bool {
    let mut reader = Watched::new(FailingRead {
        rest: input.as_bytes(),
        calls: 0,
        fails_at,
        kind,
    });
    let mut writer = Watched::new(Vec::new(alloc));
    let ended = play(alloc, &mut reader, &mut writer);
    let written = writer.into_inner();
    let has_failed = reader.failed();
    let wanted = if has_failed {
        (Err(IoFault::Read), true)
    } else {
        (Ok(Played::Done), true)
    };
    let whole = if has_failed { "" } else { output };
    let found = (ended, whole.as_bytes() == written.as_slice());
    check_same_at(rt, &fails_at, &found, &wanted);
    has_failed
}

/// The number of the first read that never comes, since there are fewer calls.
fn first_unmade_read(rt: &impl Abort, alloc: Global, row: (&str, &str), kind: ErrorKind) -> u32 {
    for call in 1..1000 {
        if !reading_fails(rt, alloc, row, call, kind) {
            return call;
        }
    }
    0
}

const READ_FAILURES: &[ErrorKind] = &[ErrorKind::Other, ErrorKind::Interrupted];

#[test]
fn failing_readers(rt: HostRuntime) {
    let alloc = rt.alloc();
    let call = with_limits(&rt, alloc, CALL_AND_REPLY, CALL_FRONT, "2 1 2");
    for kind in READ_FAILURES {
        let unmade = first_unmade_read(&rt, alloc, (call.as_str(), CALL_AND_REPLY_PLAYED), *kind);
        check_same_at(&rt, &unmade, &(30 < unmade), &true);
    }
}
