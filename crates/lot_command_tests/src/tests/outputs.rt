//! Outputs that fail, and flushed outputs. After its first error an output gets no more.

use super::inputs::on_standard;
use super::same::{check_same, check_same_at};
use super::{EMPTY_REPORT, FailingCall, WAYS};
use lot_command::status;
use std::alloc::Global;
use std::io::ErrorKind;
use std::process::Abort;
use std::sync::Wait;
use std::thread::Threads;

/// A request to the program, its input, and then its exit status, its output, and the number of writes before the
/// flush.
#[derive(Clone, Copy, Debug)]
struct Asked<'a> {
    word: &'a str,
    input: &'a str,
    code: u8,
    text: &'a str,
    writes: u32,
}

/// Inputs whose output is a single write.
const SHORT: &[Asked<'static>] = &[
    Asked {
        word: "play",
        input: "lottery 1\n",
        code: 0,
        text: EMPTY_REPORT,
        writes: 1,
    },
    Asked {
        word: "play",
        input: "",
        code: 1,
        text: "refused line 1 50 BadHeader\n",
        writes: 1,
    },
    Asked {
        word: "run",
        input: "lottery 1\n",
        code: 0,
        text: EMPTY_REPORT,
        writes: 1,
    },
    Asked {
        word: "run",
        input: "lottery 1\nschedule 0 2\n",
        code: 1,
        text: "refused line 2 57 BadActor\n",
        writes: 1,
    },
];

/// Makes this request with an output whose call of this number fails. Returns whether the program failed; then it made
/// no further call, and the output is a beginning of the text.
fn output_fails<H: Abort + Threads + Wait + Sync>(
    rt: &H,
    alloc: Global,
    asked: Asked,
    fails_at: u32,
    kind: Option<ErrorKind>,
) -> bool {
    let (ended, is_taken, is_told) = ended_to(rt, alloc, asked, fails_at, kind);
    let has_failed = ended == 3;
    let code = if has_failed { 3 } else { asked.code };
    let found = (ended, is_taken, is_told);
    check_same_at(rt, &asked.input, &found, &(code, true, code != 0));
    has_failed
}

/// Makes this request with an output whose call of this number fails. Returns the exit status, whether the output is
/// the expected one, and whether there are diagnostics.
fn ended_to<H: Threads + Wait + Sync>(
    rt: &H,
    alloc: Global,
    asked: Asked,
    fails_at: u32,
    kind: Option<ErrorKind>,
) -> (u8, bool, bool) {
    let mut output = FailingCall::new(alloc, fails_at, kind);
    let mut errors = Vec::new(alloc);
    let words = ["lot_sim", asked.word];
    let inputs = on_standard(asked.input.as_bytes());
    let ended = status(rt, alloc, &words, inputs, &mut output, &mut errors);
    let is_taken = output.has_taken(asked.text.as_bytes(), ended == 3);
    (ended, is_taken, !errors.is_empty())
}

/// Makes this request with an output that fails at each of its calls, and at none. A flush accepts no bytes, so it
/// fails only with an error.
fn check_output<H: Abort + Threads + Wait + Sync>(rt: &H, alloc: Global, asked: Asked) {
    for kind in WAYS {
        for call in 0..10 {
            check_call(rt, alloc, asked, call, *kind);
        }
    }
}

/// Makes this request with an output whose call of this number fails, and checks whether the program fails.
fn check_call<H: Abort + Threads + Wait + Sync>(
    rt: &H,
    alloc: Global,
    asked: Asked,
    call: u32,
    kind: Option<ErrorKind>,
) {
    let is_write = 0 < call && call <= asked.writes;
    let is_failing_flush = call == asked.writes.saturating_add(1) && kind.is_some();
    let fails = output_fails(rt, alloc, asked, call, kind);
    let is_failing = is_write || is_failing_flush;
    check_same_at(rt, &(call, asked.input), &fails, &is_failing);
}

#[test]
fn failing_outputs(rt: HostRuntime) {
    for asked in SHORT {
        check_output(&rt, rt.alloc(), *asked);
    }
}

// An output longer than the buffer.
#[test]
fn failing_long_output(rt: HostRuntime) {
    let mut text = String::new(rt.alloc());
    for _ in 0..10000 {
        text.push_str("1 idle\n").expect(&rt, "memory");
    }
    let report = "report
processor 1 quanta 0 idle 10000 ticks 0
total turns 10000 quanta 0 ticks 0
";
    text.push_str(report).expect(&rt, "memory");
    let asked = Asked {
        word: "play",
        input: "lottery 2\nlimits 1 1 1\nruns 1 10000\n",
        code: 0,
        text: text.as_str(),
        writes: 2,
    };
    check_output(&rt, rt.alloc(), asked);
}

/// Calls the program with these words, and returns its exit status and the output that it wrote to, whose call of this
/// number fails.
fn ended_with<H: Abort + Threads + Wait + Sync>(
    rt: &H,
    alloc: Global,
    words: &[&str],
    fails_at: u32,
    kind: Option<ErrorKind>,
) -> (u8, FailingCall) {
    let mut output = FailingCall::new(alloc, fails_at, kind);
    let mut errors = FailingCall::new(alloc, fails_at, kind);
    let inputs = on_standard("".as_bytes());
    let ended = status(rt, alloc, words, inputs, &mut output, &mut errors);
    // Diagnostics also tell a failed write of the help.
    if output.calls > 0 {
        (ended, output)
    } else {
        (ended, errors)
    }
}

/// Calls the program with these words and an output that fails at each of its calls, and at none. The last call is the
/// flush.
fn check_told<H: Abort + Threads + Wait + Sync>(
    rt: &H,
    alloc: Global,
    words: &[&str],
    code: u8,
    kind: ErrorKind,
) {
    let (ended, whole) = ended_with(rt, alloc, words, 0, None);
    check_same_at(rt, &words, &(ended, whole.is_flushed), &(code, true));
    check_begun(rt, alloc, words, kind, &whole);
}

/// Calls the program with these words and an output that fails at each of the calls that the whole output takes.
fn check_begun<H: Abort + Threads + Wait + Sync>(
    rt: &H,
    alloc: Global,
    words: &[&str],
    kind: ErrorKind,
    whole: &FailingCall,
) {
    let text = whole.written.as_slice();
    for call in 1..=whole.calls {
        let found = has_begun(rt, alloc, words, call, kind, text);
        check_same_at(rt, &(words, call), &found, &(3, true));
    }
}

/// Calls the program with these words and an output whose call of this number fails. Returns the exit status, and
/// whether that call was the last and the output is a beginning of the text.
fn has_begun<H: Abort + Threads + Wait + Sync>(
    rt: &H,
    alloc: Global,
    words: &[&str],
    call: u32,
    kind: ErrorKind,
    text: &[u8],
) -> (u8, bool) {
    let (ended, begun) = ended_with(rt, alloc, words, call, Some(kind));
    (ended, begun.has_taken(text, true))
}

/// Words that request a text, and the exit status.
const TEXTS: &[(&[&str], u8)] = &[
    (&["lot_sim", "--help"], 0),
    (&["lot_sim", "--version"], 0),
    (&["lot_sim", "play", "--help"], 0),
    (&["lot_sim"], 2),
    (&["lot_sim", "replay"], 2),
];

// Help, and the errors of the command line.
#[test]
fn failing_texts(rt: HostRuntime) {
    for (words, code) in TEXTS {
        check_told(&rt, rt.alloc(), words, *code, ErrorKind::Other);
        check_told(&rt, rt.alloc(), words, *code, ErrorKind::Interrupted);
    }
    check_untaken(&rt, rt.alloc());
}

/// Requests help with an output that accepts no byte.
fn check_untaken<H: Abort + Threads + Wait + Sync>(rt: &H, alloc: Global) {
    let (ended, output) = ended_with(rt, alloc, &["lot_sim", "--help"], 1, None);
    let found = (ended, output.calls, output.written.is_empty());
    check_same(rt, &found, &(3, 1, true));
}
