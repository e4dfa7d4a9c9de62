//! Refused lines that a caller can skip, and lines that it can't.
use super::same::check_same_at;
use lot_diagnostics::line_to_skip;
use lot_simulation::InputFault;
use lot_text::{ParseFault, parse};
use std::alloc::Global;
use std::process::Abort;

/// The fault of the input, which is refused.
pub(super) fn fault_of(rt: &impl Abort, alloc: Global, input: &[u8]) -> InputFault {
    match parse(alloc, input) {
        Err(ParseFault::Input(fault)) => fault,
        _ => panic!(rt; "it isn't refused: {input:?}"),
    }
}

/// Reads the input, which is refused, and compares the index of the line to skip.
fn check<H: Abort>(rt: &H, alloc: Global, input: &[u8], expected: Option<usize>) {
    let place = line_to_skip(alloc, input, fault_of(rt, alloc, input));
    check_same_at(rt, &input, &place, &expected);
}

/// The texts before and after a line in an input.
type Around = (&'static str, &'static str);

/// Checks an input for each of these lines, with these texts before and after it.
fn check_lines<H: Abort>(
    rt: &H,
    alloc: Global,
    (front, back): Around,
    lines: &[&str],
    expected: Option<usize>,
) {
    for line in lines {
        let input = format!(in alloc; "{front}{line}\n{back}").expect(rt, "memory");
        check(rt, alloc, input.as_bytes(), expected);
    }
}

/// The second line of a `lottery 1` input.
const SECOND: Around = ("lottery 1\n", "schedule 0\n");

/// The third line of a `lottery 1` input, which is in a script.
const STEP: Around = ("lottery 1\nscript s\n", "endscript\n");

/// The fifth line of a `lottery 3` input, which is in a script.
const STEPS: Around = ("lottery 3\nfor 5\nmutex m\nscript s\n", "endscript\n");

/// The third line of a `lottery 3` input.
const TIMED: Around = ("lottery 3\nfor 5\n", "");

const BODY_LINES: &[&str] = &[
    "mktk 5 base",
    "  nonsense",
    "mktkt\t5 base",
    "\t",
    "mkcur \u{e9}",
    "mkcur a_name_of_17_bytes",
    "fund alice 3",
    "schedule 0 2",
    "mkcur",
];

/// Lines of the header, lines that declare a name, also misspelt, words of scripts, and words of other formats.
const LINES_WITH_OTHERS: &[&str] = &[
    "quantum 0",
    "quantm 5",
    "lottery 1",
    "port Disk",
    "prot disk",
    "port\u{a0}disk",
    "mutex 1",
    "script S",
    "sript s",
    "compute 5",
    "comptue 5",
    "endscrpt",
    "at 5",
    "for 5",
    "runs 0 1",
];

/// Lines after one that names a ticket may have the name.
const SKIPPED_TIMED: &[&str] = &[
    "mktkt 05 base",
    "mktk 5 base",
    "rmtkt gift",
    "fundx 5 base a",
];

const KEPT_TIMED: &[&str] = &[
    "mktkt 05 base as gift",
    "mktkt 5 base gift",
    "mktk 5 base as gift",
    "fundx 5 as gift",
    "strct",
];

const INPUTS_WITHOUT: &[&[u8]] = &[
    b"",
    b"mktk 5 base\n",
    b"lottery 1\r\n",
    b"lottery 1\nprocessors 2\nseed 1\n",
    b"lottery 1\nseed 1\nquantum 5\n",
    b"lottery 3\nmkcur a\n",
    b"lottery 3\nfor 5\nschedule 0\n",
    b"lottery 1\nscript s\nyield\n",
    b"lottery 1\nmutex m\nmutex m\n",
    b"lottery 1\nmkcur \xff\n",
];

const SKIPPED_STEPS: &[&str] = &[
    "compute 0",
    "comptue 5",
    "yeild",
    "lock m",
    "set",
    "nonsense 7",
];

const KEPT_STEPS: &[&str] = &[
    "loop 0",
    "lop 2",
    "end",
    "ennd",
    "endscript 1",
    "endscrpt",
    "compute 5 end",
    "mktkt 5 base",
    "prot p",
    "sleep 5",
];

const SKIPPED_STEP_LINES: &[&str] = &[
    "yield lock n compute 5",
    "comptue 5 yield",
    "compute 5 compute",
    "yield # before the end",
];

const KEPT_STEP_LINES: &[&str] = &[
    "loop 2 compute 0 end",
    "compute end",
    "yield endscript yield",
    "comptue 5 ennd",
    "loop 2 endscript",
];

/// The texts round lines, the lines, and the index of each line to skip.
const LINES: &[(Around, &[&str], Option<usize>)] = &[
    (SECOND, BODY_LINES, Some(10)),
    (SECOND, LINES_WITH_OTHERS, None),
    (TIMED, &["at 3\nat 2\nmkcur a"], Some(21)),
    (TIMED, SKIPPED_TIMED, Some(16)),
    (TIMED, KEPT_TIMED, None),
    (SECOND, &["mktkt 5 base as"], Some(10)),
    (SECOND, &["mktkt 5 base as gift"], None),
    (STEP, SKIPPED_STEPS, Some(19)),
    (STEP, KEPT_STEPS, None),
    (STEPS, SKIPPED_STEP_LINES, Some(33)),
    (STEPS, KEPT_STEP_LINES, None),
];

#[test]
fn lines_to_skip(rt: HostRuntime) {
    for (around, lines, expected) in LINES {
        check_lines(&rt, rt.alloc(), *around, lines, *expected);
    }
    for input in INPUTS_WITHOUT {
        check(&rt, rt.alloc(), input, None);
    }
}

/// The front, and then this many copies of the text.
pub(super) fn repeated<H: Abort>(
    rt: &H,
    alloc: Global,
    front: &str,
    text: &str,
    count: u32,
) -> String {
    let mut input = String::from_str(alloc, front).expect(rt, "memory");
    for _ in 0..count {
        input.push_str(text).expect(rt, "memory");
    }
    input
}

/// A ninth loop, the line after the last of a script, and a comment that is too long.
const LIMITS: &[(&str, &str, u32)] = &[
    ("lottery 1\nscript s\n", "loop 2\n", 9),
    ("lottery 1\nscript s\n", "yield\n", 1025),
    ("lottery 1\n#", "01234567", 600),
];

#[test]
fn limits(rt: HostRuntime) {
    for (front, text, count) in LIMITS {
        let input = repeated(&rt, rt.alloc(), front, text, *count);
        check(&rt, rt.alloc(), input.as_bytes(), None);
    }
}
