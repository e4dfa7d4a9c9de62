//! Curves of two threads.
ghost use Rattle.std.specs.Prelude.{◌≡◌, ◌≤◌, ◌<◌, ◌^◌, IfOk, IfSome, length, vec_len};
ghost use Rattle.lot_curves.specs.Stretches.{last_end};

use crate::tests::same::{check_same, check_same_at};
use lot_curves::{By, Curves, Measure, Stretch};
use lot_machine::{Name, Reply};
use std::alloc::{AllocError, Global};
use std::process::Abort;
use std::test::*;

/// Names with these texts.
fn names_of(alloc: Global, texts: &[&str]) -> Option<Vec<Name>>
    ensures { IfSome result (λ names. vec_len names ≡ length texts.now) }
{
    let mut names = Vec::new(alloc);
    for text in texts {
        names.push(Name::new(*text)?).ok()?;
    }
    Some(names)
}

/// The thread that won a draw, or that ran and its ticks.
#[derive(Clone, Copy)]
pub(super) enum Came {
    Won(u32),
    Ran(u32, u32),
    Idle,
}

/// The end of a turn, and its result.
pub(super) type Turn = (u32, Came);

/// The stretch of a turn.
fn stretch_of(end: u32, came: Came) -> Stretch
    ensures { result.end < 2 ^ 32 }
{
    let reply = match came {
        Came::Won(thread) => Reply::Winner {
            thread,
            number: 0,
            total: 3,
            delivered: None,
        },
        Came::Ran(thread, ticks) => Reply::Expired { thread, ticks },
        Came::Idle => Reply::Idle,
    };
    Stretch::new(u64::from(end), reply)
}

/// The stretches of these turns.
fn stretches_of(alloc: Global, turns: &[Turn]) -> Result<Vec<Stretch>, AllocError>
    ensures { IfOk result (λ stretches. (vec_len stretches ≤ length turns.now)
        × (last_end stretches.items ≤ 2 ^ 32)) }
{
    let mut stretches = Vec::new(alloc);
    for (end, came) in turns {
        stretches.push(stretch_of(*end, *came))?;
    }
    Ok(stretches)
}

/// The curves of threads with these names, from these turns.
pub(super) fn curves_of(rt: &impl Abort, alloc: Global, texts: &[&str], turns: &[Turn]) -> Curves
    ensures { length result.names ≡ length texts.now }
{
    // A `u32` can count so few.
    if texts.len() > 100 || turns.len() > 100 {
        rt.panic("a few threads and turns")
    }
    let names = names_of(alloc, texts).expect(rt, "names");
    let stretches = stretches_of(alloc, turns).expect(rt, "memory");
    Curves::new(By::Thread, names, stretches, Vec::new(alloc))
}

/// Thread 1 wins at 0, runs to 10, and again to 30; thread 2 wins at 10 and runs to 20.
const TWO_THREADS: &[Turn] = &[
    (0, Came::Won(1)),
    (10, Came::Ran(1, 10)),
    (10, Came::Won(2)),
    (20, Came::Ran(2, 10)),
    (20, Came::Idle),
    (20, Came::Won(1)),
    (30, Came::Ran(1, 10)),
];

/// The two threads' numbers at this tick.
fn row_at(curves: &Curves, measure: Measure, tick: u64) -> [u64; 2]
    requires { length curves.now.names ≡ 2 }
{
    let mut row = [0u64; 2];
    curves.fill_row(measure, tick, &mut row);
    row
}

/// A tick, and the two threads' ticks and draws by then.
type Row = (u64, [u64; 2], [u64; 2]);

const ROWS: &[Row] = &[
    (0, [0, 0], [1, 0]),
    (7, [7, 0], [1, 0]),
    (10, [10, 0], [1, 1]),
    (15, [10, 5], [1, 1]),
    (30, [20, 10], [2, 1]),
];

/// Compares the two threads' numbers.
fn check_rows(rt: &impl Abort, curves: &Curves, rows: &[Row])
    requires { length curves.now.names ≡ 2 }
{
    for (tick, ticks, draws) in rows {
        let found = (
            row_at(curves, Measure::Ticks, *tick),
            row_at(curves, Measure::Draws, *tick),
        );
        check_same_at(rt, tick, &found, &(*ticks, *draws));
    }
}

/// Compares the last tick, and the samples.
fn check_samples(rt: &impl Abort, curves: &Curves) {
    check_same(rt, &curves.last(), &30);
    check_same(rt, &curves.sample_count(), &30);
    assert!(rt; 7 <= curves.sample_count());
    check_same(rt, &curves.sample_tick(7), &7);
}

#[test]
fn rows(rt: HostRuntime) {
    let curves = curves_of(&rt, rt.alloc(), &["a", "b"], TWO_THREADS);
    check_samples(&rt, &curves);
    check_rows(&rt, &curves, ROWS)
}
