//! Refused inputs, and the diagnostic for each.
use super::same::{check_same, check_same_at};
use super::skipped::{fault_of, repeated};
use lot_diagnostics::{line_of_command, write_words};
use std::alloc::Global;
use std::process::Abort;

/// The diagnostic of the input, which is refused.
fn diagnostic(rt: &impl Abort, alloc: Global, input: &[u8]) -> Vec<u8> {
    let fault = fault_of(rt, alloc, input);
    let mut words = Vec::new(alloc);
    let is_written = write_words(alloc, &mut words, input, None, fault).is_ok();
    check_same(rt, &is_written, &true);
    words
}

/// Reads the input, which is refused, and compares the diagnostic.
fn check<H: Abort>(rt: &H, alloc: Global, input: &[u8], expected: &str) {
    let words = diagnostic(rt, alloc, input);
    let said = str::from_utf8(words.as_slice()).unwrap_or("");
    check_same(rt, &said, &expected)
}

/// The two sides of the arrow in a row: an input, or some lines of one, and the diagnostic.
fn sides(row: &str) -> (&str, &str) {
    row.split_once(" -> ").unwrap_or((row, ""))
}

/// Checks, for each row, an input of its lines with these texts before and after them.
fn check_within<H: Abort>(rt: &H, alloc: Global, (front, back): (&str, &str), rows: &[&str]) {
    for row in rows {
        let (lines, expected) = sides(row);
        let input = format!(in alloc; "{front}{lines}{back}").expect(rt, "memory");
        check(rt, alloc, input.as_bytes(), expected);
    }
}

const FIRST_LINES: &[&str] = &[
    " -> line 1: an input begins with 'lottery 1', 'lottery 2' or 'lottery 3'\n",
    "lottery 9\n -> line 1: an input begins with 'lottery 1', 'lottery 2' or 'lottery 3'\n",
    "script s\n -> line 1: an input begins with 'lottery 1', 'lottery 2' or 'lottery 3'\n",
    "Lottery 3\n -> line 1: an input begins with 'lottery 1', 'lottery 2' or 'lottery 3', in lower case\n",
    "lottery 1\nquantum 5\nprocessors 2\n -> \
    line 3: 'processors' comes too late: the header has 'lottery', 'processors', 'quantum', 'turns', 'seed' and \
    'limits', each at most once, in this order and before all else\n",
];

const MISSPELT_WORDS: &[&str] = &[
    "lottery 1\n# a ticket\nmktk 5 base\n -> line 3: 'mktk' is no body line; did you mean 'mktkt'?\n",
    "lottery 1\nnonsense\n -> \
    line 2: 'nonsense' is no body line; these begin with port, mutex, script, mktkt, rmtkt, mkcur, rmcur, fund, \
    unfund, mkthr, fundx, lstkt, lscur, lsthr, schedule\n",
    "lottery 2\nstart a\n -> \
    line 2: 'start' is no body line; these begin with port, mutex, script, mktkt, rmtkt, mkcur, rmcur, fund, unfund, \
    mkthr, fundx, lstkt, lscur, lsthr, schedule, runs\n",
    "lottery 3\nfor 5\nstart a\n -> \
    line 3: 'start' is no body line; these begin with at, settkt, rmthr, kill, port, mutex, script, mktkt, rmtkt, \
    mkcur, rmcur, fund, unfund, mkthr, fundx, lstkt, lscur, lsthr\n",
    "lottery 1\nscript s\nexit\n -> \
    line 3: 'exit' is no word of a script; its words are compute, set, add, loop, end, yield, reply, call, receive, \
    lock, unlock, endscript\n",
    "lottery 3\nfor 5\nfundX 5 base a s\n -> line 3: 'fundX' is no body line; did you mean 'fundx'?\n",
    "lottery 1\nKMTKT 5 base\n -> line 2: 'KMTKT' is no body line; did you mean 'mktkt'?\n",
    "lottery 1\nmutex m\nscript s\nlokc m\n -> line 4: 'lokc' is no word of a script; did you mean 'lock'?\n",
    "lottery 1\nscript s\ncomptue 4\n -> line 3: 'comptue' is no word of a script; did you mean 'compute'?\n",
    "lottery 1\nscript s\nserve_\n -> \
    line 3: 'serve_' is no word of a script; its words are compute, set, add, loop, end, yield, reply, call, \
    receive, lock, unlock, endscript\n",
    "lottery 3\nfor 5\nscript s\nserve_\n -> line 4: 'serve_' is no word of a script; did you mean 'serve'?\n",
    "lottery 1\nport disk\nscript s\ncall disc\n -> \
    line 4: 'disc' is no port of an earlier line; did you mean 'disk'?\n",
];

const PLACES_OF_LINES: &[&str] = &[
    "lottery 1\ncompute 4\n -> \
    line 2: 'compute' is a word of a script, and no script is open: 'script NAME' opens one\n",
    "lottery 1\nscript s\nmktkt 5 base\n -> \
    line 3: 'mktkt' stands outside scripts, and the one that line 2 opens isn't closed: 'endscript' closes it\n",
    "lottery 1\nscript s\nyield\n -> line 2: this script isn't closed: 'endscript' closes it\n",
    "lottery 1\nscript s\nend\n -> line 3: 'end' closes a loop, and none is open\n",
    "lottery 1\nscript s\nloop 2\nendscript\n -> line 4: 'endscript' stands inside a loop: 'end' closes it\n",
    "lottery 1\nscript s\nloop 2\nloop 2\nloop 2\nloop 2\nloop 2\nloop 2\nloop 2\nloop 2\nloop 2\n -> \
    line 11: a ninth loop is open here, at most 8\n",
    "lottery 1\nruns 1 5\n -> line 2: 'runs' is for 'lottery 2': in 'lottery 1' write 'schedule ACTOR ..'\n",
];

const BYTES: &[&str] = &[
    "lottery 1\nmktkt\t5 base\n -> line 2: a tab: put spaces between words\n",
    "lottery 1\r\n -> line 1: a carriage return: save the file with line feeds alone as line ends\n",
    "# a comment\r\n\r\nlottery 3\r\nfor 5\r\n -> \
    line 2: a carriage return before the line 'lottery 3': put that line first, or save the file with line feeds \
    alone as line ends\n",
    "# a comment\n \r\n -> \
    line 2: a carriage return before the line 'lottery 3': put that line first, or save the file with line feeds \
    alone as line ends\n",
    "\u{feff}lottery 3\nfor 5\n -> \
    line 1: the file begins with a byte order mark: save it as ASCII, or as UTF-8 without a byte order mark\n",
    "lottery 1\n\u{feff}mkcur a\n -> line 2: byte 239 in column 1: outside comments only ASCII is read\n",
    "lottery 1\nmkcur \u{e9}\n -> line 2: byte 195 in column 7: outside comments only ASCII is read\n",
    // In this format a tab and a carriage return separate words, and no other control character does.
    "lottery 3\r\nfor 5\r\n\tport\tp\r\n\tmutex\x0bm\r\n -> \
    line 4: byte 11 in column 7: outside comments only ASCII is read\n",
];

/// The byte order marks of UTF-16, low byte first and high byte first.
const WIDE: &[&[u8]] = &[
    b"\xff\xfel\x00o\x00t\x00\n\x00",
    b"\xfe\xff\x00l\x00o\x00t\x00\n",
];

#[test]
fn wide_bytes(rt: HostRuntime) {
    let expected =
        "line 1: the file is in UTF-16: save it as ASCII, or as UTF-8 without a byte order mark\n";
    for input in WIDE {
        check(&rt, rt.alloc(), input, expected);
    }
}

#[test]
fn long_lines(rt: HostRuntime) {
    let long = repeated(&rt, rt.alloc(), "lottery 1\n#", "0123456789", 600);
    let expected = "line 2: 6001 bytes, at most 4096\n";
    check(&rt, rt.alloc(), long.as_bytes(), expected);
}

const COUNTS_OF_WORDS: &[&str] = &[
    "lottery 1\nmktkt 5\n -> line 2: this line is written 'mktkt AMOUNT CURRENCY', and here are 2 words\n",
    "lottery 1\nmktkt 5 base # mine\n -> \
    line 2: a comment has a line of its own; 'mktkt AMOUNT CURRENCY' has no room for one\n",
    "lottery 1\nprocessors 2\nseed 1\n -> \
    line 3: this line is written 'seed S1 .. SP, with a number for each processor', and here are 2 words\n",
    "lottery 2\nruns 0 6 1\n -> line 2: this line is written 'runs ACTOR TURNS ..', and here are 4 words\n",
    "lottery 3\nfor 5\nscript s compute 5 endscript\n -> \
    line 3: this line is written 'script NAME', and here are 5 words: the words of the script begin on the next \
    line\n",
    "lottery 1\nscript\n -> line 2: this line is written 'script NAME', and here is 1 word\n",
];

const NUMBERS: &[&str] = &[
    "lottery 1\nmktkt 05 base\n -> \
    line 2: '05' is no number from 1 to 4294967295: a number has digits alone, no sign, no fraction and no 0 before \
    others\n",
    "lottery 1\nmktkt 1.5 base\n -> \
    line 2: '1.5' is no number from 1 to 4294967295: a number has digits alone, no sign, no fraction and no 0 before \
    others\n",
    "lottery 2\nfundx -10 base a s\n -> \
    line 2: '-10' is no number from 1 to 4294967295: a number has digits alone, no sign, no fraction and no 0 before \
    others\n",
    "lottery 3\nfor 10,\n -> \
    line 2: '10,' is no number from 1 to 4294967295: a number has digits alone, no sign, no fraction and no 0 before \
    others\n",
    "lottery 1\nmktkt 18446744073709551616 base\n -> \
    line 2: '18446744073709551616' is no number from 1 to 4294967295\n",
    "lottery 1\nprocessors two\n -> line 2: 'two' is no number from 1 to 64\n",
    "lottery 1\nprocessors 2\nschedule 0 +1\n -> \
    line 3: '+1' is no number from 0 to 2: a number has digits alone, no sign, no fraction and no 0 before others\n",
    "lottery 1\nprocessors 65\n -> line 2: '65' is no number from 1 to 64\n",
    "lottery 1\nprocessors 2\nschedule 0 1 2 3\n -> line 3: '3': the last processor is 2, and 0 is the console\n",
];

/// A word that isn't a name was meant as a number.
const NAMES_FOR_NUMBERS: &[&str] = &[
    "fund alice 3 -> line 2: 'alice' is no number; this line is written 'fund TICKET TARGET'\n",
    "mktkt base 5 -> line 2: 'base' is no number; this line is written 'mktkt AMOUNT CURRENCY'\n",
    "fundx base 5 alice s -> line 2: 'base' is no number; this line is written 'fundx AMOUNT CURRENCY NAME SCRIPT'\n",
    "schedule 0 all -> line 2: 'all' is no number; this line is written 'schedule ACTOR ..'\n",
    "fund -1 alice -> \
    line 2: '-1' is no number from 1 to 65535: a number has digits alone, no sign, no fraction and no 0 before \
    others\n",
];

const NAMES: &[&str] = &[
    "lottery 1\nmkcur a_name_of_17_bytes\n -> line 2: 'a_name_of_17_bytes' has 18 bytes, and a name at most 16\n",
    "lottery 1\nport Disk\n -> \
    line 2: 'Disk' is no name: a letter a to z, and then letters a to z, digits, '_' or '-'\n",
    "lottery 1\nmutex m\nport m\nmutex m\n -> line 4: 'm' is the name of an earlier mutex\n",
];

#[test]
fn too_many(rt: HostRuntime) {
    let input = repeated(&rt, rt.alloc(), "lottery 1\nscript s\n", "yield\n", 1025);
    let expected = "line 1027: one word of a script too many, at most 1024\n";
    check(&rt, rt.alloc(), input.as_bytes(), expected);
}

/// An input whose line 4098 is this one and ends with byte 16777217.
fn long_input<H: Abort>(rt: &H, alloc: Global, line: &[u8]) -> Vec<u8> {
    let comment = [b'#'; 4095];
    let mut input = Vec::from_slice(alloc, b"lottery 1\n").expect(rt, "memory");
    for _ in 0..4095 {
        input.extend_from_slice(&comment).expect(rt, "memory");
        input.push(b'\n').expect(rt, "memory");
    }
    let missing = 4086usize.saturating_sub(line.len());
    input
        .extend_from_slice(&comment[..missing])
        .expect(rt, "memory");
    input.push(b'\n').expect(rt, "memory");
    input.extend_from_slice(line).expect(rt, "memory");
    input
}

// The line may be an ignored one, or be cut off or end there.
#[test]
fn long_inputs(rt: HostRuntime) {
    let expected = "line 4098: the input has more than 16777216 bytes\n";
    for line in ["fundx 10 ba", "#\n"] {
        let input = long_input(&rt, rt.alloc(), line.as_bytes());
        check(&rt, rt.alloc(), input.as_slice(), expected);
    }
}

const TURNS_IN_TIME: &[&str] = &[
    "lottery 3\nmkcur a\n -> \
    line 2: the header doesn't say how long the input runs: 'for TICKS' comes before the first body line\n",
    "lottery 3\nquantum 5\n -> \
    line 2: the header doesn't say how long the input runs: 'for TICKS' comes before the first body line\n",
    "lottery 3\n -> \
    line 1: the header doesn't say how long the input runs: 'for TICKS' comes before the first body line\n",
    "lottery 3\nfor 5\nschedule 0\n -> \
    line 3: 'schedule' is not for 'lottery 3', whose turns come in the order of time: 'at TICK' says when commands \
    are made\n",
    "lottery 3\nfor 5\nat 3\nat 2\n -> line 4: '2' comes after 3, the time of an earlier 'at': times never fall\n",
    "lottery 3\nfor 5\nat 500\nat 4294967296\n -> line 4: '4294967296' is no number from 0 to 4294967295\n",
    "lottery 2\nat 5\n -> line 2: 'at' is for 'lottery 3', whose turns come in the order of time\n",
    "lottery 1\nport p\nscript s\nserve p\n -> \
    line 4: 'serve' is for 'lottery 3', whose turns come in the order of time\n",
];

/// Header lines of a timed input, which come in any order, but not too late.
const LATE_HEADER_LINES: &[&str] = &[
    "lottery 3\nfor 5\nquantum 5\nfor 6\n -> \
    line 4: 'for' begins an earlier line: each header line comes at most once\n",
    "lottery 3\nfor 5\nlottery 3\n -> line 3: 'lottery' begins an earlier line: each header line comes at most once\n",
    "lottery 3\nfor 5\nport p\nquantum 5\n -> \
    line 4: 'quantum' stands after a body line: header lines come before all else\n",
    "lottery 3\nseed 5\nfor 5\nprocessors 1\n -> \
    line 4: 'processors' comes before 'seed', which has a number for each processor\n",
    "lottery 3\nreuse\nquantum 5\n -> \
    line 3: the header doesn't say how long the input runs: 'for TICKS' comes before the first body line\n",
];

const NUMBERS_GIVEN_AGAIN: &[&str] = &[
    "lottery 2\nreuse\n -> line 2: 'reuse' is for 'lottery 3', whose turns come in the order of time\n",
    "lottery 3\nfor 5\nreuse 1\n -> line 3: this line is written 'reuse', and here are 2 words\n",
    "lottery 3\nfor 5\nreuse\nreuse\n -> line 4: 'reuse' begins an earlier line: each header line comes at most once\n",
    "lottery 3\nfor 5\nscript s\nreuse\n -> \
    line 4: 'reuse' stands outside scripts, and the one that line 3 opens isn't closed: 'endscript' closes it\n",
    "lottery 3\nreuse\nmkcur a\n -> \
    line 3: the header doesn't say how long the input runs: 'for TICKS' comes before the first body line\n",
];

const MECHANISMS: &[&str] = &[
    "lottery 3\nwithout both\n -> \
    line 2: 'both' is no mechanism that can be left out: write 'compensation' or 'lending', and a line for each\n",
    "lottery 3\nfor 5\nwithout\n -> line 3: this line is written 'without MECHANISM', and here is 1 word\n",
    "lottery 3\nfor 5\nwithout lending compensation\n -> \
    line 3: this line is written 'without MECHANISM', and here are 3 words\n",
];

const STRICT_INPUTS: &[&str] = &[
    "lottery 2\nstrict\n -> line 2: 'strict' is for 'lottery 3', whose turns come in the order of time\n",
    "lottery 3\nfor 5\nstrict 1\n -> line 3: this line is written 'strict', and here are 2 words\n",
    "lottery 3\nstrict\nfor 5\nstrict\n -> \
    line 4: 'strict' begins an earlier line: each header line comes at most once\n",
    "lottery 3\nfor 5\nport p\nstrict\n -> \
    line 4: 'strict' stands after a body line: header lines come before all else\n",
];

/// The texts before and after a line, in an input that names a ticket first.
const NAMED: (&str, &str) = ("lottery 3\nfor 5\nmktkt 5 base as gift\n", "\n");

const TICKETS_BY_NAME: &[&str] = &[
    "rmtkt gitf -> line 4: 'gitf' is no ticket of an earlier line; did you mean 'gift'?\n",
    "fund alice 1 -> line 4: 'alice' is no ticket of an earlier line; this line is written 'fund TICKET TARGET'\n",
    "settkt Gift 5 -> line 4: 'Gift' is no ticket: it has a number, or a name that 'as' gave it\n",
    "settkt 007 5 -> \
    line 4: '007' is no number from 1 to 65535: a number has digits alone, no sign, no fraction and no 0 before \
    others\n",
    "settkt gift five -> line 4: 'five' is no number; this line is written 'settkt TICKET AMOUNT'\n",
    "unfund gift now -> line 4: this line is written 'unfund TICKET', and here are 3 words\n",
];

const NAMES_OF_TICKETS: &[&str] = &[
    "mktkt 5 base as gift -> line 4: 'gift' is the name of an earlier ticket\n",
    "fundx 5 base a s as gift -> line 4: 'gift' is the name of an earlier ticket\n",
    "mktkt 5 base as Wage -> line 4: 'Wage' is no name: a letter a to z, and then letters a to z, digits, '_' or '-'\n",
    "mktkt 5 base as abcdefghijklmnopq -> line 4: 'abcdefghijklmnopq' has 17 bytes, and a name at most 16\n",
    "mktkt base 5 as Wage -> line 4: 'base' is no number; this line is written 'mktkt AMOUNT CURRENCY [as NAME]'\n",
    "mktkt base 5 is wage -> \
    line 4: 'is' stands in the place of 'as': this line is written 'mktkt AMOUNT CURRENCY [as NAME]'\n",
    "mktkt 5 base # wage -> \
    line 4: a comment has a line of its own; 'mktkt AMOUNT CURRENCY [as NAME]' has no room for one\n",
    "mktkt 5 base as -> line 4: this line is written 'mktkt AMOUNT CURRENCY [as NAME]', and here are 4 words\n",
    "fundx 5 base a s as -> \
    line 4: this line is written 'fundx AMOUNT CURRENCY NAME SCRIPT [as NAME]', and here are 6 words\n",
];

const NAMES_OF_TICKETS_IN_OTHER_FORMATS: &[&str] = &[
    "lottery 2\nfundx 5 base a s as gift\n -> line 2: 'as' is for 'lottery 3', whose turns come in the order of time\n",
    "lottery 1\nmktkt 5 base as\n -> line 2: this line is written 'mktkt AMOUNT CURRENCY', and here are 4 words\n",
    "lottery 1\nrmtkt gift\n -> line 2: 'gift' is no number; this line is written 'rmtkt TICKET'\n",
];

#[test]
fn too_many_names_of_tickets(rt: HostRuntime) {
    let mut input = String::from_str(rt.alloc(), "lottery 3\nfor 5\n").expect(&rt, "memory");
    for number in 0..4097u32 {
        let line = format!(in rt.alloc(); "mktkt 1 base as n{number}\n").expect(&rt, "memory");
        input.push_str(line.as_str()).expect(&rt, "memory");
    }
    let expected = "line 4099: one name of a ticket too many, at most 4096\n";
    check(&rt, rt.alloc(), input.as_bytes(), expected);
}

const COMMANDS_OF_ONE_FORMAT: &[&str] = &[
    "lottery 2\nsettkt 1 5\n -> line 2: 'settkt' is for 'lottery 3', whose turns come in the order of time\n",
    "lottery 2\nsetkt 1 5\n -> line 2: 'setkt' is no body line; did you mean 'mktkt'?\n",
    "lottery 3\nfor 5\nsetkt 1 5\n -> line 3: 'setkt' is no body line; did you mean 'settkt'?\n",
    "lottery 3\nfor 5\nsettkt 1\n -> line 3: this line is written 'settkt TICKET AMOUNT', and here are 2 words\n",
    "lottery 1\nrmthr a\n -> line 2: 'rmthr' is for 'lottery 3', whose turns come in the order of time\n",
    "lottery 3\nfor 5\nrmth a\n -> line 3: 'rmth' is no body line; did you mean 'rmthr'?\n",
    "lottery 3\nfor 5\nrmthr a b\n -> line 3: this line is written 'rmthr THREAD', and here are 3 words\n",
    "lottery 3\nfor 5\nrmthr abcdefghijklmnopq\n -> line 3: 'abcdefghijklmnopq' has 17 bytes, and a name at most 16\n",
    "lottery 2\nkill a\n -> line 2: 'kill' is for 'lottery 3', whose turns come in the order of time\n",
    "lottery 1\nkil a\n -> \
    line 2: 'kil' is no body line; these begin with port, mutex, script, mktkt, rmtkt, mkcur, rmcur, fund, unfund, \
    mkthr, fundx, lstkt, lscur, lsthr, schedule\n",
    "lottery 3\nfor 5\nkil a\n -> line 3: 'kil' is no body line; did you mean 'kill'?\n",
    "lottery 3\nfor 5\nkill\n -> line 3: this line is written 'kill THREAD', and here is 1 word\n",
    "lottery 2\nscript s\nsleep 5\n -> line 3: 'sleep' is for 'lottery 3', whose turns come in the order of time\n",
    "lottery 3\nfor 5\nscript s\nslep 5\n -> line 4: 'slep' is no word of a script; did you mean 'sleep'?\n",
    "lottery 3\nfor 5\nscript s\nyield sleep\n -> line 4: a word is missing at the end: 'sleep TICKS'\n",
    "lottery 3\nfor 5\nscript s\nsleep 0\n -> line 4: '0' is no number from 1 to 4294967295\n",
];

const SLEEPS: &[&str] = &[
    "lottery 1\nscript s\nsleep 5\n -> line 3: 'sleep' is for 'lottery 3', whose turns come in the order of time\n",
    "lottery 2\nscript s\nsleep\n -> line 3: 'sleep' is for 'lottery 3', whose turns come in the order of time\n",
    "lottery 3\nfor 5\nscript s\nyield sleep 4294967296\n -> line 4: '4294967296' is no number from 1 to 4294967295\n",
    "lottery 3\nfor 5\nscript s\nsleep\n -> line 4: a word is missing at the end: 'sleep TICKS'\n",
];

/// The texts before and after the lines of a script that end an input.
const IN_SCRIPT: (&str, &str) = ("lottery 3\nfor 5\nmutex m\nscript s\n", "");

const SEVERAL_WORDS: &[&str] = &[
    "yield compute -> line 5: a word is missing at the end: 'compute TICKS'\n",
    "compute 5 7 -> line 5: '7' is no word of a script\n",
    "loop 2 comptue 5 end -> line 5: 'comptue' is no word of a script; did you mean 'compute'?\n",
    "loop 2 compute 0 end -> line 5: '0' is no number from 1 to 4294967295\n",
    "yield lock n -> line 5: 'n' is no mutex of an earlier line\n",
    "yield end -> line 5: 'end' closes a loop, and none is open\n",
    "loop 2 yield endscript -> line 5: 'endscript' stands inside a loop: 'end' closes it\n",
    "yield endscript yield -> line 5: 'yield' stands behind 'endscript', which ends its line\n",
    "yield # gives way -> line 5: a comment has a line of its own\n",
    "yield\nmktkt 5 base -> \
    line 6: 'mktkt' stands outside scripts, and the one that line 4 opens isn't closed: 'endscript' closes it\n",
    "yield endscript\nmktk 5 base -> line 6: 'mktk' is no body line; did you mean 'mktkt'?\n",
    "# endscript\nnonsense -> \
    line 6: 'nonsense' is no word of a script; its words are sleep, serve, compute, set, add, loop, end, yield, \
    reply, call, receive, lock, unlock, endscript\n",
    "loop compute 5 end -> line 5: a word is missing before 'compute': 'loop TIMES'\n",
    "sleep yield -> line 5: a word is missing before 'yield': 'sleep TICKS'\n",
    "unlock endscript -> line 5: a word is missing before 'endscript': 'unlock MUTEX'\n",
];

/// No texts round an input.
const WHOLE: (&str, &str) = ("", "");

/// The texts before and after the lines of rows, and the rows.
type Refused = ((&'static str, &'static str), &'static [&'static str]);

fn check_refused<H: Abort>(rt: &H, alloc: Global, refused: &[Refused]) {
    for (around, rows) in refused {
        check_within(rt, alloc, *around, rows);
    }
}

const LINES_REFUSED: &[Refused] = &[
    (WHOLE, FIRST_LINES),
    (WHOLE, MISSPELT_WORDS),
    (WHOLE, PLACES_OF_LINES),
    (WHOLE, COUNTS_OF_WORDS),
];

#[test]
fn refused_lines(rt: HostRuntime) {
    check_refused(&rt, rt.alloc(), LINES_REFUSED)
}

const ARGUMENTS_REFUSED: &[Refused] = &[
    (WHOLE, NUMBERS),
    (WHOLE, NAMES),
    (("lottery 1\n", "\n"), NAMES_FOR_NUMBERS),
    (WHOLE, BYTES),
];

#[test]
fn refused_arguments(rt: HostRuntime) {
    check_refused(&rt, rt.alloc(), ARGUMENTS_REFUSED)
}

const HEADERS_REFUSED: &[Refused] = &[
    (WHOLE, TURNS_IN_TIME),
    (WHOLE, LATE_HEADER_LINES),
    (WHOLE, NUMBERS_GIVEN_AGAIN),
    (WHOLE, MECHANISMS),
    (WHOLE, STRICT_INPUTS),
];

#[test]
fn refused_headers(rt: HostRuntime) {
    check_refused(&rt, rt.alloc(), HEADERS_REFUSED)
}

const COMMANDS_REFUSED: &[Refused] = &[
    (WHOLE, COMMANDS_OF_ONE_FORMAT),
    (NAMED, TICKETS_BY_NAME),
    (NAMED, NAMES_OF_TICKETS),
    (WHOLE, NAMES_OF_TICKETS_IN_OTHER_FORMATS),
];

#[test]
fn refused_commands(rt: HostRuntime) {
    check_refused(&rt, rt.alloc(), COMMANDS_REFUSED)
}

const STEPS_REFUSED: &[Refused] = &[(WHOLE, SLEEPS), (IN_SCRIPT, SEVERAL_WORDS)];

#[test]
fn refused_steps(rt: HostRuntime) {
    check_refused(&rt, rt.alloc(), STEPS_REFUSED)
}

const COMMANDS: &[u8] =
    b"lottery 3\nfor 5\nport endscript\nscript s\n# endscript\nyield call endscript\nyield endscript\nlstkt\n\n\
    mktkt 5 base as gift\nfundx 5 base a s\nlsthr\n";

/// Indices among the commands above, and their lines.
const LINES: &[(usize, Option<u32>)] = &[
    (0, Some(8)),
    (1, Some(10)),
    (2, Some(11)),
    (3, Some(12)),
    (4, None),
];

#[test]
fn lines_of_commands(rt: HostRuntime) {
    for (place, line) in LINES {
        check_same_at(&rt, place, &line_of_command(COMMANDS, *place), line);
    }
}
