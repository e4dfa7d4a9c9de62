//! What a timed report tells of its subjects.
ghost use Rattle.std.specs.Prelude.{◌≡◌, ◌≤◌, ◌+◌, ◌<◌, ◌^◌, [], Some, length};
ghost use Rattle.lot_machine.specs.Bounds.{IsBetween};
ghost use Rattle.lot_machine.specs.Facts as facts;
ghost use Rattle.lot_machine.specs.Rows.{thread_row};
ghost use Rattle.lot_simulation.specs.Timed as timed;
ghost use Rattle.lot_simulation.specs.Timed.{timed_turns};
ghost use Rattle.lot_simulation.specs.TimedReport as reports;
ghost use Rattle.lot_simulation.specs.TimedReport.{actor_turns};
ghost use Rattle.lot_engine.specs.Seen.{world_of};
ghost use Rattle.lot_playback.specs.InTime.{IsAtEnd, moment_in};
ghost use Rattle.lot_system.specs.ReportTable as tables;
ghost use Rattle.lot_system.specs.ReportTable.{most_of, told_in};

use crate::cells::{
    due_share, ended, if_any, longest_wait, made, mean, number, quiet, share, wait_count, wait_mean,
};
use arrayvec::ArrayVec;
use lot_engine::System;
use lot_machine::{Name, ThreadRow};
use lot_playback::{Timekeeper, live_value};
use lot_program::Program;
use lot_simulation::{COLUMNS, Cell, PastLives, Spans, Subject};

/// What a report tells of a subject.
#[derive(Drop)]
pub(crate) struct Told {
    /// Its name; no bytes if it has none.
    pub(crate) name: Name,
    /// The cells of its first columns.
    pub(crate) cells: ArrayVec<Cell, COLUMNS>,
}

impl Told {
    /// A name, and cells.
    pub(crate) fn new(name: Name, cells: &[Cell]) -> Told
        requires { length cells.now ≤ 17 }
        ensures { result ≡ record { name = name; cells = record { items = cells.now } } }
    {
        let mut copy = ArrayVec::new();
        let _ = copy.try_extend_from_slice(cells);
        Told { name, cells: copy }
    }
}

/// A name without bytes.
pub(crate) fn no_name() -> Name
    ensures { result ≡ [] }
{
    match Name::from_bytes(&[]) {
        Some(name) => name,
        None => unreachable!(),
    }
}

/// The end of a play, as all its subjects need it.
#[derive(Clone, Copy, Debug)]
pub(crate) struct Ending {
    /// The time at which the play ended, in ticks.
    pub(crate) time: u32,
    /// The value of all live threads.
    pub(crate) all_values: u128,
}

/// The end of a timed play.
pub(crate) fn ending_of(program: &Program, system: &mut System, timekeeper: &Timekeeper) -> Ending
    requires program { system.old.setting.program ≡ program.now }
    requires end { IsAtEnd system.old timekeeper.now }
    ensures same { system.new ≡ system.old }
    ensures time { result.time ≡ timed.ended_at program.now (moment_in system.old timekeeper.now) }
    ensures values { result.all_values ≡ facts.live_value (world_of system.old).state }
{
    let time = ended_at(program, system, timekeeper);
    Ending {
        time,
        all_values: live_value(system),
    }
}

/// The time at which the play ended: the end that the input gives, or after an early end the last turn's time.
fn ended_at(program: &Program, system: &System, timekeeper: &Timekeeper) -> u32
    requires program { system.now.setting.program ≡ program.now }
    requires end { IsAtEnd system.now timekeeper.now }
    ensures { result ≡ timed.ended_at program.now (moment_in system.now timekeeper.now) }
{
    match timekeeper.following(program, system) {
        Some(_) => timekeeper.clocks.time,
        None => program.duration().unwrap_or(0),
    }
}

/// What the report tells of the subject with this number, if it exists.
pub(crate) fn told_of(
    system: &mut System,
    timekeeper: &Timekeeper,
    ending: Ending,
    subject: Subject,
    number: u32,
) -> Option<Told>
    requires end { IsAtEnd system.old timekeeper.now }
    requires there { IsBetween 1 (most_of subject system.old.setting.program) number }
    requires values { ending.all_values ≡ facts.live_value (world_of system.old).state }
    ensures same { system.new ≡ system.old }
    ensures told { result ≡ told_in (moment_in system.old timekeeper.now) ending.time
        (timed_turns system.old.setting.program) subject number }
{
    match subject {
        Subject::Thread => thread_told(system, timekeeper, ending.all_values, number),
        Subject::Currency => currency_told(system, timekeeper, number),
        Subject::Processor => {
            let cells = processor_cells(system, timekeeper, ending.time, number);
            Some(Told::new(no_name(), &cells))
        }
        Subject::Total => {
            let cells = total_cells(system, timekeeper);
            Some(Told::new(no_name(), &cells))
        }
    }
}

/// What the report tells of this thread, if it exists.
fn thread_told(
    system: &mut System,
    timekeeper: &Timekeeper,
    all_values: u128,
    thread: u32,
) -> Option<Told>
    requires end { IsAtEnd system.old timekeeper.now }
    requires there { IsBetween 1 system.old.setting.program.limits.threads thread }
    requires values { all_values ≡ facts.live_value (world_of system.old).state }
    ensures same { system.new ≡ system.old }
    ensures told { result ≡ tables.thread_told (world_of system.old).state
        (timed_turns system.old.setting.program) thread }
{
    let row = system.thread_row(thread)?;
    let cells = thread_cells(system, timekeeper, all_values, thread, &row);
    Some(Told::new(row.name, &cells))
}

/// The cells of the thread with this row.
fn thread_cells(
    system: &mut System,
    timekeeper: &Timekeeper,
    all_values: u128,
    thread: u32,
    row: &ThreadRow,
) -> [Cell; 17]
    requires end { IsAtEnd system.old timekeeper.now }
    requires there { IsBetween 1 system.old.setting.program.limits.threads thread }
    requires values { all_values ≡ facts.live_value (world_of system.old).state }
    requires row { thread_row (world_of system.old).state thread ≡ Some row.now }
    ensures same { system.new ≡ system.old }
    ensures cells { result ≡ reports.thread_cells (world_of system.old).state
        (timed_turns system.old.setting.program) thread row.now }
{
    let live_value = system.live_value(thread);
    let all_ticks = u128::from(system.total().ticks);
    let due = timekeeper.dues.of(thread);
    let ready = timekeeper.ready.of(thread);
    let mutexes = timekeeper.mutexes.of(thread);
    let replies = timekeeper.replies.of(thread);
    let refused_traps = timekeeper.refused_traps.of(thread);
    let lives = timekeeper.lives.of(thread);
    [
        number(row.quanta),
        number(row.ticks),
        share(row.ticks, all_ticks),
        due_share(due, timekeeper.dues.shared_time),
        share(live_value, all_values),
        wait_count(ready),
        wait_mean(ready),
        longest_wait(ready),
        wait_count(mutexes),
        wait_mean(mutexes),
        longest_wait(mutexes),
        wait_count(replies),
        wait_mean(replies),
        longest_wait(replies),
        quiet(u64::from(refused_traps)),
        made(lives),
        ended(lives),
    ]
}

/// What the report tells of this currency, if it exists.
fn currency_told(system: &System, timekeeper: &Timekeeper, currency: u32) -> Option<Told>
    requires end { IsAtEnd system.now timekeeper.now }
    requires there { IsBetween 1 system.now.setting.program.limits.currencies currency }
    ensures { result ≡ tables.currency_told (world_of system.now).state
        (timed_turns system.now.setting.program) currency }
{
    let name = system.currency_name(currency)?;
    let cells = currency_cells(system, timekeeper, currency);
    Some(Told::new(name, &cells))
}

/// The cells of this currency.
fn currency_cells(system: &System, timekeeper: &Timekeeper, currency: u32) -> [Cell; 3]
    requires end { IsAtEnd system.now timekeeper.now }
    requires there { IsBetween 1 system.now.setting.program.limits.currencies currency }
    requires given { currency < length (world_of system.now).state.currencies }
    ensures { result ≡ reports.currency_cells (world_of system.now).state
        (timed_turns system.now.setting.program) currency }
{
    let ticks = timekeeper.currencies.ticks_of(currency);
    let due = timekeeper.currencies.due_of(currency);
    let all_ticks = u128::from(system.total().ticks);
    [
        number(ticks),
        share(ticks, all_ticks),
        due_share(due, timekeeper.currencies.dues.shared_time),
    ]
}

/// The cells of this processor, up to this end.
fn processor_cells(system: &System, timekeeper: &Timekeeper, end: u32, processor: u32) -> [Cell; 4]
    requires end { IsAtEnd system.now timekeeper.now }
    requires there { IsBetween 1 system.now.setting.program.limits.processors processor }
    ensures { result ≡ reports.processor_cells (moment_in system.now timekeeper.now) end
        (actor_turns (timed_turns system.now.setting.program)) processor }
{
    let counts = system.counts(processor);
    let unused = timekeeper.clocks.idle_until(end, processor);
    [
        number(counts.quanta),
        number(counts.idles),
        number(counts.ticks),
        number(unused),
    ]
}

/// The cells of all actors.
fn total_cells(system: &System, timekeeper: &Timekeeper) -> [Cell; 8]
    requires end { IsAtEnd system.now timekeeper.now }
    ensures { result ≡ reports.total_cells (moment_in system.now timekeeper.now)
        (timed_turns system.now.setting.program) }
{
    let counts = system.total();
    let left = system.commands_left() as u64;
    let lives = past_lives(system, timekeeper);
    [
        number(counts.turns),
        number(counts.quanta),
        number(counts.ticks),
        number(timekeeper.refused),
        number(left),
        quiet(lives.count),
        mean(lives.total, lives.count),
        if_any(lives.count, u64::from(lives.longest)),
    ]
}

/// The past lives of all threads, whatever numbers they had.
fn past_lives(system: &System, timekeeper: &Timekeeper) -> PastLives
    requires end { IsAtEnd system.now timekeeper.now }
    ensures lives { result
        ≡ reports.past_lives (world_of system.now).state (timed_turns system.now.setting.program) }
    ensures small { result.total < 2 ^ 118 }
{
    let mut lives = PastLives {
        count: 0,
        total: 0,
        longest: 0,
    };
    for place in 0..system.thread_count() {
        lives = with_lives(lives, timekeeper.lives.of(place + 1));
    }
    lives
}

/// Past lives together with those of one number.
fn with_lives(lives: PastLives, spans: Spans) -> PastLives
    requires { (lives.count < 2 ^ 63) × (lives.total < 2 ^ 127) }
    ensures added { result ≡ reports.with_lives lives spans }
    ensures count { result.count < lives.count + 2 ^ 32 }
    ensures total { result.total < lives.total + 2 ^ 64 }
{
    PastLives {
        count: lives.count + u64::from(spans.count),
        total: lives.total + u128::from(spans.total),
        longest: lives.longest.max(spans.longest),
    }
}
