//! Turns of small systems, in order: the result of each, and the faults.
ghost use Rattle.std.specs.Prelude.{◌≡◌};

use super::same::{check_same, check_same_at};
use super::{SPINNER, make_turns, opened, parsed};
use lot_kept::Stack;
use lot_machine::{Outcome, Reply};
use lot_program::Program;
use lot_script::Slice;
use lot_system::{Answer, System, TurnFault, Work, slice_for};
use std::alloc::Global;
use std::process::Abort;
use std::test::*;

/// The slice passed for a turn.
#[derive(Clone, Copy)]
enum Given {
    Nothing,
    /// The slice of the processor's work with this budget.
    WorkOf(u32, u32),
    /// The slice of the first script from its first place, with this budget.
    Beginning(u32),
}

/// The expected result of a turn.
#[derive(Clone, Copy)]
enum Came {
    /// The number of the thread and of the ticket that funds it.
    Funded(u32),
    /// The thread, the drawn number and the total.
    Won(u32, u128, u128),
    /// The thread and its ticks.
    Expired(u32, u32),
    /// The thread, its ticks and the outcome of its trap.
    Trapped(u32, u32, Outcome),
    /// The thread and the budget of the work.
    Stale(Option<(u32, u32)>),
    Ended,
    Full,
}

/// A turn: its actor, the slice passed for it, and its result.
type Row = (u32, Given, Came);

/// The reply of a turn, or its fault, with the thread and the budget of the work in a `Stale` fault.
type Answered = Result<Reply, (&'static str, Option<(u32, u32)>)>;

/// The slice of the work, with this budget.
fn slice_with<'a>(
    rt: &impl Abort,
    program: &'a Program,
    mut work: Work,
    budget: u32,
) -> Option<Slice<'a>> {
    work.budget = budget;
    slice_for(program, Some(work)).expect(rt, "a slice")
}

/// A work from the beginning of the first script.
fn first_work(rt: &impl Abort, program: &Program) -> Work {
    let first = program.scripts().first().expect(rt, "a script");
    Work {
        thread: 1,
        script: 1,
        place: first.start(),
        budget: 1,
    }
}

/// The slice of a row, if it has one.
fn slice_of<'a>(
    rt: &impl Abort,
    system: &System,
    program: &'a Program,
    given: Given,
) -> Option<Slice<'a>> {
    match given {
        Given::Nothing => None,
        Given::WorkOf(processor, budget) => {
            slice_with(
                rt,
                program,
                system.work(processor).expect(rt, "work"),
                budget,
            )
        }
        Given::Beginning(budget) => slice_with(rt, program, first_work(rt, program), budget),
    }
}

/// The result of a turn. A `Stale` fault carries the actor's work.
fn found_of(system: &System, actor: u32, answered: Result<Answer, TurnFault>) -> Option<Answered> {
    match answered {
        Ok(answer) => Some(Ok(answer.reply)),
        Err(TurnFault::Stale(work)) if work != system.work(actor) => None,
        Err(TurnFault::Stale(Some(work))) => Some(Err((STALE, Some((work.thread, work.budget))))),
        Err(TurnFault::Stale(None)) => Some(Err((STALE, None))),
        Err(TurnFault::Ended) => Some(Err((ENDED, None))),
        Err(TurnFault::HistoryFull) => Some(Err((FULL, None))),
    }
}

const STALE: &str = "stale";

const ENDED: &str = "ended";

const FULL: &str = "full";

/// The expected result, as a reply or a fault.
fn wanted_of(came: Came) -> Answered {
    match came {
        Came::Funded(number) => Ok(Reply::Funded {
            ticket: number,
            thread: number,
        }),
        Came::Won(thread, number, total) => Ok(Reply::Winner {
            thread,
            number,
            total,
            delivered: None,
        }),
        Came::Expired(thread, ticks) => Ok(Reply::Expired { thread, ticks }),
        Came::Trapped(thread, ticks, outcome) => Ok(Reply::Trapped {
            thread,
            ticks,
            outcome,
            ends: false,
        }),
        Came::Stale(work) => Err((STALE, work)),
        Came::Ended => Err((ENDED, None)),
        Came::Full => Err((FULL, None)),
    }
}

/// Makes a turn, and returns its result.
fn turned(rt: &impl Abort, program: &Program, system: &mut System, row: Row) -> Option<Answered> {
    let (actor, given, _) = row;
    if actor > system.processors() {
        rt.panic("an actor")
    }
    let slice = slice_of(rt, system, program, given);
    let answered = system.turn(actor, slice);
    found_of(system, actor, answered)
}

/// Makes a turn, compares its result, and returns whether the row expects it to be made. The number of turns made so
/// far tells which turn differs.
fn check_turn(
    rt: &impl Abort,
    program: &Program,
    system: &mut System,
    row: Row,
    made: u32,
) -> bool {
    let found = turned(rt, program, system, row);
    let wanted = wanted_of(row.2);
    check_same_at(rt, &(row.0, made), &found, &Some(wanted));
    wanted.is_ok()
}

/// Compares the length of the history and the count of turns.
fn check_made(rt: &impl Abort, system: &System, made: u32) {
    check_same(rt, &system.history().len(), &(made as usize));
    check_same(rt, &system.total().turns, &u64::from(made));
}

/// Makes the turns, and compares their results. Turns with a fault neither enter the history nor count.
fn check_rows(rt: &impl Abort, program: &Program, system: &mut System, turns: &[Row]) {
    let mut made = 0u32;
    for turn in turns {
        if check_turn(rt, program, system, *turn, made) {
            made = made.saturating_add(1);
        }
        check_made(rt, system, made);
    }
}

/// Makes the turns in a system of the input's program, and compares their results.
fn check_turns(rt: &impl Abort, alloc: Global, (input, room): (&str, u32), turns: &[Row]) {
    let program = parsed(rt, alloc, input);
    let mut system = opened(rt, alloc, &program, room);
    check_rows(rt, &program, &mut system, turns)
}

/// `Stale` comes before `Ended` and `HistoryFull`, and `Ended` before `HistoryFull`.
const FAULTS: &[Row] = &[
    (0, Given::Beginning(100), Came::Stale(None)),
    (0, Given::Nothing, Came::Funded(1)),
    (0, Given::Nothing, Came::Ended),
    (0, Given::Beginning(100), Came::Stale(None)),
    (1, Given::Nothing, Came::Won(1, 0, 1)),
    (1, Given::Nothing, Came::Stale(Some((1, 100)))),
    (1, Given::WorkOf(1, 100), Came::Expired(1, 100)),
    (1, Given::Nothing, Came::Won(1, 0, 1)),
    (1, Given::Nothing, Came::Stale(Some((1, 100)))),
    (1, Given::WorkOf(1, 100), Came::Full),
    (0, Given::Nothing, Came::Ended),
];

/// Two scripts, and three threads that each have a processor to themselves.
const THREE_PROCESSORS: &str =
    "lottery 1\nprocessors 3\nscript s\ncompute 150\nendscript\nscript u\nadd 1\ncompute 150\nendscript\n\
    fundx 1 base a s\nfundx 1 base b u\nfundx 1 base c s\n";

/// A slice is stale if it is of another script, or of more or less than the budget left, or if there is none. A slice
/// of another thread with the same script, start and budget is the same slice.
const SLICES_OF_OTHERS: &[Row] = &[
    (0, Given::Nothing, Came::Funded(1)),
    (1, Given::Nothing, Came::Won(1, 0, 1)),
    (0, Given::Nothing, Came::Funded(2)),
    (2, Given::Nothing, Came::Won(2, 0, 1)),
    (0, Given::Nothing, Came::Funded(3)),
    (3, Given::Nothing, Came::Won(3, 0, 1)),
    (1, Given::Nothing, Came::Stale(Some((1, 100)))),
    (1, Given::WorkOf(2, 100), Came::Stale(Some((1, 100)))),
    (1, Given::WorkOf(1, 99), Came::Stale(Some((1, 100)))),
    (1, Given::WorkOf(1, 101), Came::Stale(Some((1, 100)))),
    (1, Given::WorkOf(3, 100), Came::Expired(1, 100)),
    (1, Given::WorkOf(2, 100), Came::Stale(None)),
    (2, Given::WorkOf(2, 100), Came::Expired(2, 100)),
    (3, Given::WorkOf(3, 100), Came::Expired(3, 100)),
    (3, Given::Beginning(100), Came::Stale(None)),
];

/// Locks, computes and ends.
const LOCKER: &str =
    "lottery 1\nmutex m\nscript s\nlock m\ncompute 5\nendscript\nfundx 1 base a s\n";

/// A used slice is stale: the work is after the lock, with one tick less.
///
/// The last turn has no room.
const TWICE_IN_THREE: &[Row] = &[
    (0, Given::Nothing, Came::Funded(1)),
    (1, Given::Nothing, Came::Won(1, 0, 1)),
    (
        1,
        Given::WorkOf(1, 100),
        Came::Trapped(1, 1, Outcome::Locked),
    ),
    (1, Given::Beginning(100), Came::Stale(Some((1, 99)))),
    (1, Given::WorkOf(1, 99), Came::Full),
];

/// The same turns with room for the last.
const TWICE_IN_FOUR: &[Row] = &[
    (0, Given::Nothing, Came::Funded(1)),
    (1, Given::Nothing, Came::Won(1, 0, 1)),
    (
        1,
        Given::WorkOf(1, 100),
        Came::Trapped(1, 1, Outcome::Locked),
    ),
    (1, Given::Beginning(100), Came::Stale(Some((1, 99)))),
    (
        1,
        Given::WorkOf(1, 99),
        Came::Trapped(1, 6, Outcome::Exited),
    ),
];

/// Two processors and one thread.
const TWO_PROCESSORS: &str =
    "lottery 1\nprocessors 2\nscript spin\ncompute 150\nendscript\nfundx 10 base a spin\n";

const NO_ROOM: &[Row] = &[
    (0, Given::Nothing, Came::Full),
    (1, Given::Nothing, Came::Full),
    (2, Given::Nothing, Came::Full),
];

const NOTHING: &[Row] = &[
    (0, Given::Nothing, Came::Ended),
    (1, Given::Nothing, Came::Full),
];

/// A stale turn takes no number: the draw after it has the processor's first.
const GENERATOR_STAYS: &[Row] = &[
    (0, Given::Nothing, Came::Funded(1)),
    (1, Given::Beginning(100), Came::Stale(None)),
    (1, Given::Nothing, Came::Won(1, 4, 10)),
];

/// Inputs with the room of their histories, and turns.
const TURNS: &[((&str, u32), &[Row])] = &[
    ((SPINNER, 4), FAULTS),
    ((THREE_PROCESSORS, 9), SLICES_OF_OTHERS),
    ((LOCKER, 3), TWICE_IN_THREE),
    ((LOCKER, 4), TWICE_IN_FOUR),
    ((TWO_PROCESSORS, 0), NO_ROOM),
    (("lottery 1\n", 0), NOTHING),
    ((TWO_PROCESSORS, 3), GENERATOR_STAYS),
];

#[test]
fn turns(rt: HostRuntime) {
    for (opening, rows) in TURNS {
        check_turns(&rt, rt.alloc(), *opening, rows);
    }
}

/// The number of draws without a winner, of this many by the first processor.
fn idle_draws(system: &mut System, draws: u32) -> u32 {
    let mut idle = 0u32;
    for _ in 0..draws {
        if system.processors() == 0 {
            return idle;
        }
        if let Ok(answer) = system.turn(1, None) {
            if answer.reply == Reply::Idle {
                idle = idle.saturating_add(1);
            }
        }
    }
    idle
}

/// Makes a million draws, and then one that has no room.
fn check_draws(rt: &impl Abort, system: &mut System) {
    check_same(rt, &idle_draws(system, 1_000_000), &1_000_000);
    check_same(rt, &idle_draws(system, 1), &0);
    check_same(rt, &system.history().len(), &1_000_000);
}

#[test]
fn last_entry(rt: HostRuntime) {
    let alloc = rt.alloc();
    let program = parsed(&rt, alloc, "lottery 1\nlimits 1 1 1\n");
    let mut system = opened(&rt, alloc, &program, 1_000_000);
    check_draws(&rt, &mut system)
}

/// One thread locks a mutex and yields, and the next one waits for it. The seed gives each draw its intended winner.
const WAITING: &str =
    "lottery 1\nquantum 10\nseed 132\nmutex m\nscript one\nlock m\ncompute 2\nyield\nunlock m\nendscript\n\
    fundx 3 base a one\nfundx 2 base b one\nfundx 1 base c one\nschedule 0 0 0 1 1 1 1 1 1 1\n";

/// Compares the threads that wait for the first mutex, in order. None waits for another.
fn check_waiters(rt: &impl Abort, alloc: Global, program: &Program, system: &System)
    requires { system.now.setting.program ≡ program.now }
{
    let threads = program.limits().threads as usize;
    let mut waiters = Stack::new(alloc, threads).expect(rt, "memory");
    system.list_waiters(1, &mut waiters);
    check_same(rt, &waiters.as_slice(), &[2, 3].as_slice());
    system.list_waiters(2, &mut waiters);
    check_same(rt, &waiters.len(), &0);
}

/// Compares owners, and the ticks of a compensation.
fn check_owners(rt: &impl Abort, system: &System) {
    let owners = (system.owner(1), system.owner(2));
    check_same(rt, &owners, &(Some(1), None));
    check_same(rt, &system.compensation(1), &Some(4))
}

/// Thread 1 owns the mutex. It locked, computed for two ticks and yielded, four ticks in all.
#[test]
fn waiters_stand_in_order_of_waiting(rt: HostRuntime) {
    let alloc = rt.alloc();
    let program = parsed(&rt, alloc, WAITING);
    let mut system = opened(&rt, alloc, &program, 10);
    make_turns(&rt, &mut system, &program, program.schedule());
    check_waiters(&rt, alloc, &program, &system);
    check_owners(&rt, &system)
}
