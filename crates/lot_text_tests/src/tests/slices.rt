//! Worked scripts. The expected values follow from their lists, unrolled by hand.
use super::same::{check_same, check_same_at};
use lot_machine::ScriptTrap;
use lot_script::{Place, Script, ScriptBuilder};
use lot_simulation::{InputRefusal, ScriptLine};
use std::alloc::Global;
use std::process::Abort;

// Traps at ports and mutexes of these numbers.
const REPLY: ScriptTrap = ScriptTrap::Reply(());

const YIELD: ScriptTrap = ScriptTrap::Yield;

const CALL_1: ScriptTrap = ScriptTrap::Call(1, ());

const LOCK_1: ScriptTrap = ScriptTrap::Lock(1);

const UNLOCK_1: ScriptTrap = ScriptTrap::Unlock(1, ());

const RECEIVE_2: ScriptTrap = ScriptTrap::Receive(2);

const SERVE_2: ScriptTrap = ScriptTrap::Serve(2, ());

const EXIT: Option<ScriptTrap> = Some(ScriptTrap::Exit);

const CALL_3: ScriptTrap = ScriptTrap::Call(3, ());

/// Adds a line that can come next.
fn add_line(rt: &impl Abort, builder: &mut ScriptBuilder, line: ScriptLine) {
    assert!(rt; builder.check(line).is_ok());
    builder.push(line).expect(rt, "memory");
}

/// Adds the line this often.
fn add_lines(rt: &impl Abort, builder: &mut ScriptBuilder, line: ScriptLine, count: u32) {
    for _ in 0..count {
        add_line(rt, builder, line);
    }
}

/// The script of the lines that were added.
fn finished(rt: &impl Abort, builder: ScriptBuilder) -> Script {
    assert!(rt; builder.open_loops() == 0);
    builder.finish()
}

/// A script of these lines.
fn script_of(rt: &impl Abort, alloc: Global, lines: &[ScriptLine]) -> Script {
    let mut builder = ScriptBuilder::new(alloc);
    for line in lines {
        add_line(rt, &mut builder, *line);
    }
    check_same(rt, &builder.len(), &lines.len());
    finished(rt, builder)
}

/// The budget, the ticks and the trap of a slice, and the accumulator at its end.
type Sliced = (u32, u32, Option<ScriptTrap>, u32);

/// Checks the slice of the script from this place, and returns its end. A failed comparison shows the budget.
fn check_slice(rt: &impl Abort, script: &Script, place: Place, sliced: Sliced) -> Place {
    let (budget, ticks, trap, accumulator) = sliced;
    assert!(rt; script.fits(&place));
    assert!(rt; 1 <= budget && budget <= 1000);
    let slice = script.slice(place, budget);
    let end = slice.end().copied();
    let found = (slice.ticks(), slice.trap(), end.accumulator());
    check_same_at(rt, &budget, &found, &(ticks, trap, accumulator));
    end
}

/// Slices of the script in turn, from its beginning.
fn slices_in_turn(rt: &impl Abort, script: &Script, slices: &[Sliced]) {
    let mut place = script.start();
    for sliced in slices {
        place = check_slice(rt, script, place, *sliced);
    }
}

/// Checks slices of a script of these lines: those of each row in turn, from its beginning.
fn check_slices(rt: &impl Abort, alloc: Global, lines: &[ScriptLine], rows: &[&[Sliced]]) {
    let script = script_of(rt, alloc, lines);
    for slices in rows {
        slices_in_turn(rt, &script, slices);
    }
}

const LOOP: &[ScriptLine] = &[ScriptLine::Loop(2), ScriptLine::Compute(3), ScriptLine::End];

const LOOP_SLICES: &[&[Sliced]] = &[
    &[(1000, 9, EXIT, 0), (1000, 0, EXIT, 0)],
    &[(9, 9, None, 0), (1, 0, EXIT, 0)],
    &[(2, 2, None, 0), (4, 4, None, 0), (4, 3, EXIT, 0)],
];

const EMPTY_LOOP: &[ScriptLine] = &[ScriptLine::Loop(3), ScriptLine::End];

const EMPTY_LOOP_SLICES: &[&[Sliced]] = &[&[(5, 4, EXIT, 0)]];

const NO_LINE_SLICES: &[&[Sliced]] = &[&[(1, 0, EXIT, 0), (1000, 0, EXIT, 0)]];

const YIELDS: &[ScriptLine] = &[
    ScriptLine::Loop(1),
    ScriptLine::Trap(YIELD),
    ScriptLine::End,
    ScriptLine::Trap(RECEIVE_2),
];

const YIELDS_SLICES: &[&[Sliced]] = &[&[
    (1000, 1, Some(YIELD), 0),
    (1000, 1, Some(RECEIVE_2), 0),
    (1000, 0, EXIT, 0),
    (1, 0, EXIT, 0),
]];

const EACH_TRAP: &[ScriptLine] = &[
    ScriptLine::Trap(CALL_3),
    ScriptLine::Trap(REPLY),
    ScriptLine::Trap(SERVE_2),
    ScriptLine::Trap(LOCK_1),
    ScriptLine::Trap(UNLOCK_1),
    ScriptLine::Trap(YIELD),
];

const EACH_TRAP_SLICES: &[&[Sliced]] = &[&[
    (1, 0, Some(CALL_3), 0),
    (1, 0, Some(REPLY), 0),
    (1, 0, Some(SERVE_2), 0),
    (1, 0, Some(LOCK_1), 0),
    (1, 0, Some(UNLOCK_1), 0),
    (1, 0, Some(YIELD), 0),
    (1, 0, EXIT, 0),
]];

const ROUND_A_CALL: &[ScriptLine] = &[
    ScriptLine::Compute(5),
    ScriptLine::Trap(CALL_3),
    ScriptLine::Compute(1),
];

const ROUND_A_CALL_SLICES: &[&[Sliced]] = &[
    &[(4, 4, None, 0), (2, 1, Some(CALL_3), 0), (1, 1, None, 0)],
    &[(5, 5, None, 0), (1, 0, Some(CALL_3), 0), (2, 1, EXIT, 0)],
    &[(6, 5, Some(CALL_3), 0), (1000, 1, EXIT, 0)],
];

const SUMS: &[ScriptLine] = &[
    ScriptLine::Set(4294967295),
    ScriptLine::Add(3),
    ScriptLine::Trap(CALL_1),
    ScriptLine::Loop(2),
    ScriptLine::Add(7),
    ScriptLine::End,
    ScriptLine::Set(5),
];

const SUMS_SLICES: &[&[Sliced]] = &[&[
    (1, 1, None, 4294967295),
    (1000, 1, Some(CALL_1), 2),
    (2, 2, None, 9),
    (2, 2, None, 16),
    (1, 1, None, 16),
    (1000, 1, EXIT, 5),
]];

/// Lines of scripts, and the slices of these.
const SCRIPTS: &[(&[ScriptLine], &[&[Sliced]])] = &[
    (LOOP, LOOP_SLICES),
    (EMPTY_LOOP, EMPTY_LOOP_SLICES),
    (&[], NO_LINE_SLICES),
    (YIELDS, YIELDS_SLICES),
    (EACH_TRAP, EACH_TRAP_SLICES),
    (ROUND_A_CALL, ROUND_A_CALL_SLICES),
    (SUMS, SUMS_SLICES),
];

#[test]
fn slices(rt: HostRuntime) {
    for (lines, rows) in SCRIPTS {
        check_slices(&rt, rt.alloc(), lines, rows);
    }
}

const EIGHT_LOOPS_SLICES: &[Sliced] = &[
    (8, 8, None, 0),
    (1000, 1000, None, 0),
    (1000, 1000, None, 0),
];

/// A script of eight nested loops with this many rounds each, around this line, if there is one.
fn eight_loops_of(rt: &impl Abort, alloc: Global, rounds: u32, line: Option<ScriptLine>) -> Script {
    let mut builder = ScriptBuilder::new(alloc);
    add_lines(rt, &mut builder, ScriptLine::Loop(rounds), 8);
    if let Some(line) = line {
        add_line(rt, &mut builder, line);
    }
    add_lines(rt, &mut builder, ScriptLine::End, 8);
    finished(rt, builder)
}

#[test]
fn eight_loops(rt: HostRuntime) {
    let line = Some(ScriptLine::Compute(4294967295));
    let script = eight_loops_of(&rt, rt.alloc(), 65535, line);
    slices_in_turn(&rt, &script, EIGHT_LOOPS_SLICES);
}

// The innermost has 3 marks, and a loop around k marks has 1 + 2 * (k + 1).
const WHOLE_LOOPS: &[Sliced] = &[(1000, 765, EXIT, 0)];

const ENDS_OF_LOOPS: &[Sliced] = &[(764, 764, None, 0), (1, 1, None, 0), (1, 0, EXIT, 0)];

#[test]
fn ends_of_eight_loops(rt: HostRuntime) {
    let script = eight_loops_of(&rt, rt.alloc(), 2, None);
    slices_in_turn(&rt, &script, WHOLE_LOOPS);
    slices_in_turn(&rt, &script, ENDS_OF_LOOPS);
}

/// Checks that the line can't come next, and its refusal.
fn check_refused(
    rt: &impl Abort,
    builder: &ScriptBuilder,
    line: ScriptLine,
    refusal: InputRefusal,
) {
    check_same_at(rt, &line, &builder.check(line), &Err(refusal));
}

/// Lines that can't come first, with their refusals.
const REFUSED: &[(ScriptLine, InputRefusal)] = &[
    (ScriptLine::Compute(0), InputRefusal::BadNumber),
    (ScriptLine::Loop(0), InputRefusal::BadNumber),
    (ScriptLine::Loop(65536), InputRefusal::BadNumber),
    (ScriptLine::End, InputRefusal::BadLine),
    (ScriptLine::Trap(ScriptTrap::Exit), InputRefusal::BadLine),
];

fn check_first_lines(rt: &impl Abort, builder: &ScriptBuilder) {
    for (line, refusal) in REFUSED {
        check_refused(rt, builder, *line, *refusal);
    }
}

/// Adds as many loops as may be open, and then as many lines as a script may have.
fn check_full(rt: &impl Abort, builder: &mut ScriptBuilder) {
    add_lines(rt, builder, ScriptLine::Loop(1), 8);
    check_refused(rt, builder, ScriptLine::Loop(1), InputRefusal::TooDeep);
    add_lines(rt, builder, ScriptLine::Trap(YIELD), 1016);
    check_refused(rt, builder, ScriptLine::Loop(1), InputRefusal::TooDeep);
    check_refused(rt, builder, ScriptLine::Trap(YIELD), InputRefusal::TooLong);
}

#[test]
fn refused_lines(rt: HostRuntime) {
    let mut builder = ScriptBuilder::new(rt.alloc());
    check_first_lines(&rt, &builder);
    check_full(&rt, &mut builder);
}

/// Whether the place fits in each of three scripts.
fn fits(place: &Place, first: &Script, second: &Script, third: &Script) -> [bool; 3] {
    [first.fits(place), second.fits(place), third.fits(place)]
}

const THREE_ROUNDS: &[ScriptLine] = &[ScriptLine::Loop(3), ScriptLine::Compute(4), ScriptLine::End];

const TWO_ROUNDS: &[ScriptLine] = &[ScriptLine::Loop(2), ScriptLine::Compute(4), ScriptLine::End];

const NO_ROUND: &[ScriptLine] = &[ScriptLine::Trap(YIELD), ScriptLine::Compute(4)];

/// Budgets of a slice of the script of three rounds, and whether its end is a place of each of the others.
const BUDGETS: &[(u32, bool, bool)] = &[(2, false, false), (7, true, false), (16, true, false)];

/// Compares whether the start of the first script and ends of its slices are places of each of three.
fn check_places(rt: &impl Abort, script: &Script, fewer: &Script, other: &Script) {
    let found = fits(&script.start(), script, fewer, other);
    check_same(rt, &found, &[true; 3]);
    for (budget, in_fewer, in_other) in BUDGETS {
        let slice = script.slice(script.start(), *budget);
        let found = fits(slice.end(), script, fewer, other);
        check_same_at(rt, budget, &found, &[true, *in_fewer, *in_other]);
    }
}

#[test]
fn places_in_other_scripts(rt: HostRuntime) {
    let script = script_of(&rt, rt.alloc(), THREE_ROUNDS);
    let fewer = script_of(&rt, rt.alloc(), TWO_ROUNDS);
    let other = script_of(&rt, rt.alloc(), NO_ROUND);
    check_places(&rt, &script, &fewer, &other);
}

/// The parts of a slice with budget 1: whether it is of this copy of its script, its budget, whether it starts at the
/// first place, and whether it ends there.
fn parts_of_a_slice(script: &Script, copy: &Script) -> (bool, u32, bool, bool) {
    let slice = script.slice(script.start(), 1);
    let is_of_copy = slice.script().is_same(copy);
    let start = script.start();
    (
        is_of_copy,
        slice.budget(),
        *slice.start() == start,
        *slice.end() == start,
    )
}

/// Whether slices with budget 1 of a script and its copy are the same, and one with budget 2 is.
fn are_same_slices(script: &Script, copy: &Script) -> (bool, bool) {
    let slice = script.slice(script.start(), 1);
    let again = copy.slice(copy.start(), 1);
    let more = script.slice(script.start(), 2);
    (slice.is_same(&again), slice.is_same(&more))
}

/// Whether a slice starts at the same place as its script's copy, and whether it ends there.
fn are_same_places(script: &Script, copy: &Script) -> (bool, bool) {
    let slice = script.slice(script.start(), 1);
    let start = slice.start();
    (start.is_same(&copy.start()), slice.end().is_same(start))
}

/// The accumulator at a slice's end, after a delivery of 9.
fn handed_accumulator(script: &Script) -> u32 {
    let mut handed = script.slice(script.start(), 1).end().copied();
    handed.set_accumulator(9);
    handed.accumulator()
}

const YIELD_AFTER_3: &[ScriptLine] = &[ScriptLine::Set(3), ScriptLine::Trap(YIELD)];

const REPLY_AFTER_3: &[ScriptLine] = &[ScriptLine::Set(3), ScriptLine::Trap(REPLY)];

/// Compares a script with its copy, which is the same, and with the other script, which isn't.
fn check_copy(rt: &impl Abort, script: &Script, other: &Script, copy: &Script) {
    let found = (copy.is_same(script), copy.is_same(other));
    check_same(rt, &found, &(true, false));
    let found = parts_of_a_slice(script, copy);
    check_same(rt, &found, &(true, 1, true, false));
    check_same(rt, &are_same_slices(script, copy), &(true, false));
    check_same(rt, &are_same_places(script, copy), &(true, false));
    check_same(rt, &handed_accumulator(script), &9);
}

fn copy_of(rt: &impl Abort, alloc: Global, script: &Script) -> Script {
    script.copied(alloc).expect(rt, "memory")
}

#[test]
fn the_same_again(rt: HostRuntime) {
    let script = script_of(&rt, rt.alloc(), YIELD_AFTER_3);
    let other = script_of(&rt, rt.alloc(), REPLY_AFTER_3);
    let copy = copy_of(&rt, rt.alloc(), &script);
    check_copy(&rt, &script, &other, &copy);
}
