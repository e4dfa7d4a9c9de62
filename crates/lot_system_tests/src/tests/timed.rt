//! Timed turns, one after another.
ghost use Rattle.std.specs.Prelude.{◌≡◌};

use super::same::check_same;
use super::{check_history, parsed};
use lot_machine::Reply;
use lot_playback::Playback;
use lot_program::Program;
use lot_system::System;
use std::alloc::Global;
use std::process::Abort;
use std::test::*;

/// A thread made at tick 2. It runs for 4 ticks to the end of its quantum, and then for 2 ticks and the tick of its
/// exit.
pub(super) const COMES_LATER: &str =
    "lottery 3\nquantum 4\nfor 12\nscript s\ncompute 6\nendscript\nat 2\nfundx 1 base a s\n";

/// Two threads that sleep at the same time. `b` goes to sleep first, and both wake at tick 15, while both processors
/// wait. Then `a` sleeps to the last tick, and `b` past it.
const SLEEPERS: &str =
    "lottery 3\nprocessors 2\nquantum 10\nfor 30\nscript long\ncompute 4 sleep 10 compute 2 sleep 12\nendscript\n\
    script short\ncompute 1 sleep 13 compute 2 sleep 13\nendscript\nfundx 1 base a long\nfundx 1 base b short\n";

/// The time of a turn, its actor, its thread, and the ticks that the thread ran.
type Row = (u32, u32, u32, u32);

/// The next turn, if there is one.
fn next_of(program: &Program, playback: &mut Playback) -> Option<Row>
    requires { playback.old.seen.setting.program ≡ program.now }
    ensures { playback.new.seen.setting.program ≡ program.now }
{
    let turn = playback.next(program)?;
    let (thread, ticks) = match turn.reply {
        Reply::Funded { thread, .. } | Reply::Winner { thread, .. } => (thread, 0),
        Reply::Expired { thread, ticks } | Reply::Trapped { thread, ticks, .. } => (thread, ticks),
        _ => (0, 0),
    };
    Some((turn.time?, turn.actor, thread, ticks))
}

/// Makes the turns, and compares each.
fn check_turns(rt: &impl Abort, program: &Program, playback: &mut Playback, rows: &[Option<Row>])
    requires { playback.old.seen.setting.program ≡ program.now }
{
    for row in rows {
        check_same(rt, &next_of(program, playback), row);
    }
}

fn opened(rt: &impl Abort, alloc: Global, program: &Program) -> Playback
    ensures { result.seen.setting.program ≡ program.now }
{
    Playback::open(alloc, program).expect(rt, "memory")
}

/// Compares the history and the threads that the timer woke.
fn check_entries(rt: &impl Abort, system: &System, history: &[u8], woken: &[u16]) {
    check_history(rt, system, history);
    check_same(rt, &system.woken(), &woken)
}

/// Makes the turns of the program, and compares each, and then the history and the threads that the timer woke.
fn check_played(
    rt: &impl Abort,
    alloc: Global,
    program: &Program,
    rows: &[Option<Row>],
    (history, woken): (&[u8], &[u16]),
) {
    let mut playback = opened(rt, alloc, program);
    check_turns(rt, program, &mut playback, rows);
    check_entries(rt, playback.system(), history, woken)
}

const TURNS: &[Option<Row>] = &[
    Some((0, 1, 0, 0)),
    Some((2, 0, 1, 0)),
    Some((2, 1, 1, 0)),
    Some((6, 1, 1, 4)),
    Some((6, 1, 1, 0)),
    Some((9, 1, 1, 3)),
    Some((9, 1, 0, 0)),
    None,
    None,
];

const HISTORY: &[u8] = &[1, 0, 1, 1, 1, 1, 1];

// After an idle draw the processor waits for the thread, and after another for nothing that comes.
#[test]
fn turns_in_time(rt: HostRuntime) {
    let alloc = rt.alloc();
    let program = parsed(&rt, alloc, COMES_LATER);
    check_played(&rt, alloc, &program, TURNS, (HISTORY, &[]))
}

const TURNS_OF_SLEEPERS: &[Option<Row>] = &[
    Some((0, 0, 1, 0)),
    Some((0, 0, 2, 0)),
    Some((0, 1, 2, 0)),
    Some((0, 2, 1, 0)),
    Some((2, 1, 2, 2)),
    Some((2, 1, 0, 0)),
    Some((5, 2, 1, 5)),
    Some((5, 1, 0, 0)),
    Some((5, 2, 0, 0)),
    Some((15, 3, 0, 0)),
    Some((15, 4, 0, 0)),
    Some((15, 1, 2, 0)),
    Some((15, 2, 1, 0)),
    Some((18, 1, 2, 3)),
    Some((18, 1, 0, 0)),
    Some((18, 2, 1, 3)),
    Some((18, 1, 0, 0)),
    Some((18, 2, 0, 0)),
    Some((30, 3, 0, 0)),
    Some((30, 1, 1, 0)),
    Some((30, 2, 0, 0)),
    None,
];

const HISTORY_OF_SLEEPERS: &[u8] = &[
    0, 0, 1, 2, 1, 1, 2, 1, 2, 3, 3, 1, 2, 1, 1, 2, 1, 2, 3, 1, 2,
];

const WOKEN: &[u16] = &[1, 2, 1];

// With two processors, 3 is the timer when it wakes thread 1, and 4 when it wakes thread 2. The history has 3 for both,
// and the threads in a list of its own.
#[test]
fn sleepers_in_time(rt: HostRuntime) {
    let alloc = rt.alloc();
    let program = parsed(&rt, alloc, SLEEPERS);
    let entries = (HISTORY_OF_SLEEPERS, WOKEN);
    check_played(&rt, alloc, &program, TURNS_OF_SLEEPERS, entries)
}
