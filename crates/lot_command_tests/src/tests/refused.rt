//! The faults that the program reports of a refused input.

use super::inputs::on_standard;
use super::same::{check_same, check_same_at};
use super::told::{PLAY, Told, check_told};
use super::{FailingCall, ended_on, joined};
use lot_command::status;
use std::alloc::Global;
use std::io::ErrorKind;
use std::process::Abort;
use std::sync::Wait;
use std::thread::Threads;

/// An unknown name, misspelt words, a wrong number of words, and a processor above the last.
const OF_FIRST: Told<'static> = (PLAY, FIRST, 1, FIRST_TOLD);

const FIRST: &str =
    "lottery 1\nport disk\nscript s\ncall disc\ncomptue 5\nendscript\nmktk 5 base\nfund 1 a b\nschedule 0 2\n";

const FIRST_TOLD: &str = "line 4: 'disc' is no port of an earlier line; did you mean 'disk'?
line 5: 'comptue' is no word of a script; did you mean 'compute'?
line 7: 'mktk' is no body line; did you mean 'mktkt'?
line 8: this line is written 'fund TICKET TARGET', and here are 4 words
line 9: '2': the last processor is 1, and 0 is the console
";

/// Comments and empty lines count as lines, and a line may begin with spaces.
const OF_SECOND: Told<'static> = (
    PLAY,
    "lottery 2\nmkcur alice\nmktkt 05 base\n# a comment\n  fundx 10 base a_name_of_17_bytes s\n\nruns 0 6 1\n\
    runs 0 0\n",
    1,
    "line 3: '05' is no number from 1 to 4294967295: a number has digits alone, no sign, no fraction and no 0 before \
     others
line 5: 'a_name_of_17_bytes' has 18 bytes, and a name at most 16
line 7: this line is written 'runs ACTOR TURNS ..', and here are 4 words
line 8: '0' is no number from 1 to 1000000
",
);

/// Several words on a line of a script, and a time that falls.
const OF_THIRD: Told<'static> = (
    EACH_REQUEST,
    "lottery 3\nfor 50\nmutex m\nscript s\nyield lock n compute 5\ncompute 0\nendscript\nat 9\nfundx 1 base a\n\
    at 3\nsettkt 1\n",
    1,
    "line 5: 'n' is no mutex of an earlier line
line 6: '0' is no number from 1 to 4294967295
line 9: this line is written 'fundx AMOUNT CURRENCY NAME SCRIPT [as NAME]', and here are 4 words
line 10: '3' comes after 9, the time of an earlier 'at': times never fall
line 11: this line is written 'settkt TICKET AMOUNT', and here are 2 words
",
);

/// Without the line that opens the script each of its lines would be refused.
const WITHOUT_SCRIPT: Told<'static> = (
    PLAY,
    "lottery 1\nmktk 5 base\nscript S\ncomptue 5\nendscript\nmktk 5 base\n",
    1,
    "line 2: 'mktk' is no body line; did you mean 'mktkt'?
line 3: 'S' is no name: a letter a to z, and then letters a to z, digits, '_' or '-'
",
);

/// The last line has a fault and no line feed.
const AT_THE_END: Told<'static> = (PLAY, ENDS_EARLY, 1, AT_THE_END_TOLD);

const ENDS_EARLY: &str = "lottery 1\nmktk 5 base\nmkcur";

const AT_THE_END_TOLD: &str = "line 2: 'mktk' is no body line; did you mean 'mktkt'?
line 3: this line is written 'mkcur NAME', and here is 1 word
";

/// The missing end of the script shows only at the end.
const UNCLOSED: Told<'static> = (
    PLAY,
    "lottery 1
script s
comptue 5",
    1,
    "line 3: 'comptue' is no word of a script; did you mean 'compute'?
line 2: this script isn't closed: 'endscript' closes it
",
);

/// Without its second line the input ends with the header.
const WITHOUT_DURATION: Told<'static> = (
    PLAY,
    "lottery 3\nmktk\n",
    1,
    "line 2: 'mktk' is no body line; did you mean 'mktkt'?
line 2: the header doesn't say how long the input runs: 'for TICKS' comes before the first body line
",
);

/// Each request that reads an input.
const EACH_REQUEST: &[&[&str]] = &[
    &["lot_sim", "play"],
    &["lot_sim", "report"],
    &["lot_sim", "explain"],
    &["lot_sim", "run"],
    &["lot_sim", "shares"],
    &["lot_sim", "chart"],
];

pub(crate) const FAULTS: &[Told<'static>] = &[
    OF_FIRST,
    OF_SECOND,
    OF_THIRD,
    WITHOUT_SCRIPT,
    AT_THE_END,
    UNCLOSED,
    WITHOUT_DURATION,
];

/// The output has only the first fault.
pub(crate) const FIRST_FAULTS: &[(&str, &str)] = &[(FIRST, "refused line 4 53 UnknownName\n")];

/// An input with ten faults.
const TEN: &str =
    "lottery 1\nrmtkt\nrmtkt a\nrmtkt 1 2\nrmcur\nmkcur\nmkthr a\nunfund\nlstkt 1\nlscur 1\nlsthr 1\n";

const TEN_TOLD: &str = "line 2: this line is written 'rmtkt TICKET', and here is 1 word
line 3: 'a' is no number; this line is written 'rmtkt TICKET'
line 4: this line is written 'rmtkt TICKET', and here are 3 words
line 5: this line is written 'rmcur CURRENCY', and here is 1 word
line 6: this line is written 'mkcur NAME', and here is 1 word
line 7: this line is written 'mkthr NAME SCRIPT', and here are 2 words
line 8: this line is written 'unfund TICKET', and here is 1 word
line 9: this line is written 'lstkt', and here are 2 words
line 10: this line is written 'lscur', and here are 2 words
line 11: this line is written 'lsthr', and here are 2 words
";

/// Last lines of that input, and of its diagnostics.
const MORE_TOLD: &[(&str, &str)] = &[
    ("", ""),
    ("lsthr\n", ""),
    ("lsthr 1\n", "there are more faults\n"),
    ("lsthr 1\nlsthr 1\n", "there are more faults\n"),
];

#[test]
fn ten_faults_and_more(rt: HostRuntime) {
    for (last, closing) in MORE_TOLD {
        check_ten(&rt, rt.alloc(), last, closing);
    }
}

/// Plays the input with these last lines.
fn check_ten<H: Abort + Threads + Wait + Sync>(rt: &H, alloc: Global, last: &str, closing: &str) {
    let input = joined(rt, alloc, TEN, last);
    let expected = joined(rt, alloc, TEN_TOLD, closing);
    check_told(rt, alloc, (PLAY, input.as_str(), 1, expected.as_str()));
}

/// Plays the input with an output for diagnostics whose call of this number fails.
fn told_before<H: Abort + Threads + Wait + Sync>(
    rt: &H,
    alloc: Global,
    input: &str,
    fails_at: u32,
) -> FailingCall {
    let mut output = Vec::new(alloc);
    let mut errors = FailingCall::new(alloc, fails_at, Some(ErrorKind::Other));
    let words = ["lot_sim", "play"];
    let inputs = on_standard(input.as_bytes());
    let code = status(rt, alloc, &words, inputs, &mut output, &mut errors);
    check_same(rt, &code, &1);
    errors
}

/// Numbers of the failing write of diagnostics, and the diagnostics before it.
const TOLD_BEFORE: &[(u32, &str)] = &[
    (1, ""),
    (2, "line 2: 'mktk' is no body line; did you mean 'mktkt'?\n"),
    (3, AT_THE_END_TOLD),
];

// Each fault is one write, and the first write that fails is the last.
#[test]
fn failing_errors(rt: HostRuntime) {
    for (fails_at, told) in TOLD_BEFORE {
        check_told_before(&rt, rt.alloc(), *fails_at, told);
    }
}

/// Plays the input with a failing write of this number, and compares the diagnostics before it.
fn check_told_before<H: Abort + Threads + Wait + Sync>(
    rt: &H,
    alloc: Global,
    fails_at: u32,
    told: &str,
) {
    let errors = told_before(rt, alloc, ENDS_EARLY, fails_at);
    let is_told = errors.written.as_slice() == told.as_bytes();
    let wanted = (fails_at.min(2), true);
    check_same_at(rt, &fails_at, &(errors.calls, is_told), &wanted);
}

/// Whether these lines are the first of the others, where each may lack its suggestion.
fn are_first(lines: &str, others: &str) -> bool {
    let mut others = others.lines();
    for line in lines.lines() {
        let Some(other) = others.next() else {
            return false;
        };
        let without = other.split("; did you mean").next().unwrap_or("");
        if line != other && line != without {
            return false;
        }
    }
    true
}

// If an allocation fails, the program says so and fails, or it reports the faults for which it has memory.
#[test]
fn tells_or_lacks_memory(rt: HostRuntime) {
    let ended = ended_on(&rt, rt.alloc(), &["lot_sim", "play"], FIRST);
    let told = ended.told();
    let is_refused = ended.code == 1 && are_first(told, FIRST_TOLD);
    let is_failed = ended.code == 3 && told == "out of memory\n";
    assert!(rt; is_refused || is_failed, "{told}");
}
