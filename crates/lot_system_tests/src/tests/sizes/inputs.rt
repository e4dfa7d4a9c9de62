//! Inputs at the bounds of their sizes.

use crate::tests::same::{check_same, check_same_at};
use lot_program::Program;
use lot_simulation::InputRefusal;
use lot_text::parse;
use lot_text_tests::fault_of;
use std::alloc::Global;
use std::process::Abort;

/// The most bytes that an input may have.
const MOST_BYTES: usize = 16777216;

/// The line and the refusal of an input, or `None` if it is accepted.
fn refused(rt: &impl Abort, alloc: Global, bytes: &[u8]) -> Option<(u32, InputRefusal)> {
    let fault = fault_of(alloc, bytes).expect(rt, "memory")?;
    Some((fault.line, fault.refusal))
}

/// Adds these bytes at the end.
fn add(rt: &impl Abort, bytes: &mut Vec<u8>, text: &[u8]) {
    bytes.extend_from_slice(text).expect(rt, "memory");
}

/// An input whose schedule has 1000000 entries, all the console's, in 500 lines.
fn long_schedule(rt: &impl Abort, alloc: Global) -> Vec<u8> {
    let mut bytes = Vec::new(alloc);
    add(rt, &mut bytes, b"lottery 1\n");
    for entry in 0..1000000u32 {
        let text = match entry % 2000 {
            0 => "schedule 0",
            1999 => " 0\n",
            _ => " 0",
        };
        add(rt, &mut bytes, text.as_bytes());
    }
    bytes
}

/// Fills the input up to this length with ignored lines, of 4096 bytes each except the last.
fn fill(rt: &impl Abort, bytes: &mut Vec<u8>, length: usize) {
    let line = [b'#'; 4096];
    let missing = length.saturating_sub(bytes.len());
    for _line in 0..missing / 4097 {
        add(rt, bytes, &line);
        add(rt, bytes, b"\n");
    }
    add(rt, bytes, &line[..missing % 4097]);
}

/// The number of lines before the last byte.
fn lines_before_the_end(bytes: &[u8]) -> usize {
    bytes.iter().filter(|byte| **byte == b'\n').count()
}

#[test]
fn reads_the_longest_input(rt: HostRuntime) {
    let mut bytes = long_schedule(&rt, rt.alloc());
    fill(&rt, &mut bytes, MOST_BYTES);
    let program = parse(rt.alloc(), &bytes).expect(&rt, "it is read");
    let lengths = (bytes.len(), program.schedule().len());
    check_same(&rt, &lengths, &(16777216, 1000000));
}

#[test]
fn refuses_one_byte_more(rt: HostRuntime) {
    let mut bytes = long_schedule(&rt, rt.alloc());
    fill(&rt, &mut bytes, MOST_BYTES);
    add(&rt, &mut bytes, b"#");
    let lines = lines_before_the_end(&bytes);
    let found = refused(&rt, rt.alloc(), &bytes).map(|(line, refusal)| (line as usize, refusal));
    let wanted = (lines.saturating_add(1), InputRefusal::TooLong);
    check_same(&rt, &found, &Some(wanted));
}

#[test]
fn refuses_one_entry_more(rt: HostRuntime) {
    let mut bytes = long_schedule(&rt, rt.alloc());
    add(&rt, &mut bytes, b"schedule 0\n");
    let found = refused(&rt, rt.alloc(), &bytes);
    check_same(&rt, &found, &Some((502, InputRefusal::TooLong)));
}

/// A header, and then this line with each number from 1 to the count between its two parts.
fn numbered(rt: &impl Abort, alloc: Global, front: &str, back: &str, count: u32) -> String {
    let mut text = String::from_str(alloc, "lottery 1\n").expect(rt, "memory");
    for number in 1..=count {
        let line = format!(in alloc; "{front}{number}{back}\n").expect(rt, "memory");
        text.push_str(line.as_str()).expect(rt, "memory");
    }
    text
}

/// The numbers of a program's ports, mutexes, scripts and commands.
fn counts(program: &Program) -> (u32, u32, usize, usize) {
    let limits = program.limits();
    (
        limits.ports,
        limits.mutexes,
        program.scripts().len(),
        program.commands().len(),
    )
}

#[test]
fn reads_as_many_as_there_may_be(rt: HostRuntime) {
    for (front, back, count, counted) in [
        ("port p", "", 256, (256, 0, 0, 0)),
        ("mutex m", "", 256, (0, 256, 0, 0)),
        ("script s", "\nendscript", 256, (0, 0, 256, 0)),
        ("unfund ", "", 100000, (0, 0, 0, 100000)),
    ] {
        let text = numbered(&rt, rt.alloc(), front, back, count);
        let program = parse(rt.alloc(), text.as_bytes()).expect(&rt, "it is read");
        check_same_at(&rt, &front, &counts(&program), &counted);
    }
}

#[test]
fn refuses_one_more(rt: HostRuntime) {
    for (front, back, count, line) in [
        ("port p", "", 257, 258),
        ("mutex m", "", 257, 258),
        ("script s", "\nendscript", 257, 514),
        ("unfund ", "", 100001, 100002),
    ] {
        let text = numbered(&rt, rt.alloc(), front, back, count);
        let found = refused(&rt, rt.alloc(), text.as_bytes());
        let wanted = Some((line, InputRefusal::TooLong));
        check_same_at(&rt, &front, &found, &wanted);
    }
}
