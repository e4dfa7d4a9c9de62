//! Making the turns of a program for its curves.
ghost use Rattle.std.specs.Prelude.{◌≡◌, ◌+◌, ◌++◌, ◌*◌, ◌^◌, ◌<◌, ◌≤◌, [], ◌∷◌, IfOk, None, OnOk, Some, ⊤, ℕ, false};
ghost use Rattle.std.specs.Prelude.{◌||◌, filter, length, map, max, true, unwrap_or, vec_len};
ghost use Rattle.std.specs.Fmt.{decimal};
ghost use Rattle.lot_machine.specs.Bounds.{IsBetween};
ghost use Rattle.lot_machine.specs.Rows as rows;
ghost use Rattle.lot_machine.specs.State.{State, thread_on};
ghost use Rattle.lot_machine.specs.declared.event.Event.{Event};
ghost use Rattle.lot_simulation.specs.Below.{currency_numbers, stands_below};
ghost use Rattle.lot_simulation.specs.World.TurnAnswer.{Answered};
ghost use Rattle.lot_curves.specs.Curves as curves;
ghost use Rattle.lot_curves.specs.Curves.{curves_by, names_by, numbers_by};
ghost use Rattle.lot_curves.specs.Stretches.{in_column, last_end, turn_stretches};
ghost use Rattle.lot_engine.specs.Searching.{HasLayoutFor, HasThoseAbove};
ghost use Rattle.lot_engine.specs.Seen.{world_of};
ghost use Rattle.lot_system.specs.Leaving.{ends_refused};
ghost use Rattle.lot_playback.specs.Stages.{HasMade, turns_left};
ghost use Rattle.lot_playback.specs.TicksBelow.{RanOn};
ghost use Rattle.lot_playback.specs.Turns.{program_turns};
ghost use Rattle.lot_chart.specs.Noted.{HasNoted, HasSearched, command_time, commands_in, curves_after, end_in};
ghost use Rattle.lot_chart.specs.Noted.{stretches_in};
ghost use Rattle.lot_chart.specs.Noted as noted;

use itoa::Buffer;
use lot_curves::{By, Curves, Stretch};
use lot_engine::{Settled, System};
use lot_graph::Above;
use lot_machine::{CurrencyNumber, Name, Reply, ThreadNumber};
use lot_playback::{Observer, Playback, Turn};
use lot_program::Program;
use lot_simulation::Warnings;
use lot_system::{note_last, note_turn, play_through};
use std::alloc::{AllocError, Global};

/// Records the stretches and the warning of each turn, and the times of the console's commands.
#[derive(Drop)]
struct Stretches<'a> {
    by: By,
    /// By currency, the currencies above the thread whose turn is next.
    above: Above,
    /// By currency, the count of currency numbers given before the turn.
    count: u32,
    stretches: Vec<Stretch>,
    commands: Vec<u32>,
    warnings: &'a mut Warnings,
}

impl<'a> Observer for Stretches<'a> {
    type Fault = AllocError;

    ghost observed = { λ program turns first now. (now.by ≡ first.by)
        × HasNoted first.by program turns now.stretches.items now.commands.items now.above
        × (now.warnings.ghost_name ≡ first.warnings.ghost_name)
        × (now.warnings.now.stopped ≡ first.warnings.now.stopped) };

    ghost awaits = { λ program turns world actor first now. (now.by ≡ first.by)
        × HasNoted first.by program turns now.stretches.items now.commands.items now.above
        × HasSearched first.by world.state actor now.above now.count
        × (now.warnings.ghost_name ≡ first.warnings.ghost_name)
        × (now.warnings.now.stopped ≡ first.warnings.now.stopped) };

    ghost stopped = { λ program turns first now fault. ⊤ };

    fn before(&mut self, program: &Program, system: &mut System, actor: u32) {
        match self.by {
            By::Thread => {}
            By::Currency => {
                self.count = system.currency_count();
                search(system, actor, &mut self.above);
            }
        }
    }

    fn after(
        &mut self,
        program: &Program,
        system: &mut System,
        turn: &Turn,
    ) -> Result<(), AllocError> {
        if turn.has_ended {
            return Ok(());
        }
        let end = end_of(system, turn);
        note_turn(self.warnings, system, turn);
        push_turn(
            &mut self.stretches,
            self.by,
            end,
            turn.reply,
            &self.above,
            self.count,
        )?;
        push_command(&mut self.commands, turn)?;
        Ok(())
    }
}

/// Finds the currencies above the thread on the actor's processor, if one runs there.
fn search(system: &System, actor: u32, above: &mut Above)
    requires { HasLayoutFor system.now.setting.program above.old }
    ensures room { HasLayoutFor system.now.setting.program above.new }
    ensures found { (t : ℕ) → 0 < actor → thread_on (world_of system.now).state.records actor ≡ Some t
        → HasThoseAbove (world_of system.now).state t above.new }
{
    if let Some(work) = system.work(actor) {
        system.find_above(work.thread, above);
    }
}

/// Adds the stretches of a turn with this end and this reply.
fn push_turn(
    stretches: &mut Vec<Stretch>,
    by: By,
    end: u64,
    reply: Reply,
    above: &Above,
    count: u32,
) -> Result<(), AllocError>
    requires searched { (s : State) × (actor : ℕ) × HasSearched by s actor above.now count }
    ensures turn { OnOk result ((s : State) (actor : ℕ) (e : Event) → RanOn s actor reply
        → HasSearched by s actor above.now count → stretches.new.items ≡ stretches.old.items
        ++ turn_stretches by s (record { time = end; answer = Answered e reply })) }
    ensures few { OnOk result (length stretches.new.items < 2 ^ 32) }
    ensures early { OnOk result (last_end stretches.new.items ≤ max end (last_end stretches.old.items)) }
{
    let stretch = Stretch::new(end, reply);
    match by {
        By::Thread => push_stretch(stretches, stretch),
        By::Currency => push_columns(stretches, stretch, has_run(reply), above, count),
    }
}

/// Adds a turn's stretch with number 0, and, if a thread ran, one with the number of each currency found above it.
fn push_columns(
    stretches: &mut Vec<Stretch>,
    stretch: Stretch,
    has_run: bool,
    above: &Above,
    count: u32,
) -> Result<(), AllocError>
    requires within { count ≤ above.now.layout.currencies + 1 }
    ensures columns { OnOk result ((s : State) (t : ℕ) → count ≡ length s.currencies → HasThoseAbove s t above.now
        → has_run ≡ true → stretches.new.items ≡ stretches.old.items ++ in_column 0 stretch
        ∷ map (λ c. in_column c stretch) (filter (λ c. stands_below s c t) (currency_numbers s))) }
    ensures none { OnOk result (has_run ≡ false
        → stretches.new.items ≡ stretches.old.items ++ in_column 0 stretch ∷ []) }
    ensures few { OnOk result (length stretches.new.items < 2 ^ 32) }
    ensures early { OnOk result (last_end stretches.new.items ≤ max stretch.end (last_end stretches.old.items)) }
{
    push_stretch(stretches, stretch.in_column(0))?;
    if has_run {
        push_found(stretches, stretch, above, count)?;
    }
    Ok(())
}

/// Whether a thread ran in the turn with this reply.
fn has_run(reply: Reply) -> bool
    ensures { result ≡ noted.has_run reply }
{
    matches!(reply, Reply::Expired { .. } | Reply::Trapped { .. })
}

/// Adds a stretch. More than a `u32` can number count as out of memory.
fn push_stretch(stretches: &mut Vec<Stretch>, stretch: Stretch) -> Result<(), AllocError>
    ensures pushed { OnOk result (stretches.new.items ≡ stretches.old.items ++ stretch ∷ []) }
    ensures few { OnOk result (length stretches.new.items < 2 ^ 32) }
    ensures early { OnOk result (last_end stretches.new.items ≤ max stretch.end (last_end stretches.old.items)) }
{
    if stretches.len() >= u32::MAX as usize {
        return Err(AllocError);
    }
    stretches.push(stretch)?;
    Ok(())
}

/// Adds the stretch once for each currency found among the first `count`, base left out.
fn push_found(
    stretches: &mut Vec<Stretch>,
    stretch: Stretch,
    above: &Above,
    count: u32,
) -> Result<(), AllocError>
    requires few { length stretches.old.items < 2 ^ 32 }
    requires within { count ≤ above.now.layout.currencies + 1 }
    ensures columns { OnOk result ((s : State) (t : ℕ) → count ≡ length s.currencies → HasThoseAbove s t above.now
        → stretches.new.items ≡ stretches.old.items
        ++ map (λ c. in_column c stretch) (filter (λ c. stands_below s c t) (currency_numbers s))) }
    ensures few { OnOk result (length stretches.new.items < 2 ^ 32) }
    ensures early { OnOk result (last_end stretches.new.items ≤ max stretch.end (last_end stretches.old.items)) }
{
    for currency in 1..count {
        if above.has(currency) {
            push_stretch(stretches, stretch.in_column(currency))?;
        }
    }
    Ok(())
}

/// Adds the turn's time, if the turn is the console's and has one.
fn push_command(commands: &mut Vec<u32>, turn: &Turn) -> Result<(), AllocError>
    ensures { OnOk result (commands.new.items ≡ commands.old.items ++ command_time turn.now.time turn.now.actor) }
{
    if let Some(time) = turn.time
        && turn.actor == 0
    {
        commands.push(time)?;
    }
    Ok(())
}

/// The time at which the system's last turn ended: the turn's time, or its actor's own time in a schedule.
fn end_of(system: &System, turn: &Turn) -> u64
    requires { turn.now.time ≡ None → turn.now.actor ≤ system.now.setting.program.limits.processors }
    ensures end { result ≡ end_in system.now turn.now.time turn.now.actor }
    ensures early { result ≤ (length system.now.history + 1) * 2 ^ 32 }
{
    match turn.time {
        Some(time) => u64::from(time),
        None => system.clock(turn.actor),
    }
}

/// Makes the turns of the program in a system of its own, timed ones if it has a duration and those of its schedule
/// otherwise, and gathers their stretches, by thread or by currency. Without a duration they are by thread. It stores
/// the run's warnings in `warnings`, and whether a refusal ended the run. Fails only if out of memory.
pub fn gather(
    alloc: Global,
    by: By,
    program: &Program,
    warnings: &mut Warnings,
) -> Result<Curves, AllocError>
    ensures curves { IfOk result (λ curves. curves ≡ curves_by by program.now) }
    ensures stopped { OnOk result (warnings.new.stopped ≡ (warnings.old.stopped || ends_refused program.now)) }
{
    match program.duration() {
        None => gather_by(alloc, By::Thread, program, warnings),
        Some(_) => gather_by(alloc, by, program, warnings),
    }
}

/// Like `gather`, for a timed program if by currency.
fn gather_by(
    alloc: Global,
    by: By,
    program: &Program,
    warnings: &mut Warnings,
) -> Result<Curves, AllocError>
    ensures curves { IfOk result (λ curves. curves ≡ curves_after by program.now (program_turns program.now)) }
    ensures stopped { OnOk result (warnings.new.stopped ≡ (warnings.old.stopped || ends_refused program.now)) }
{
    let mut playback = Playback::open(alloc, program)?;
    let (stretches, commands) = note_turns(alloc, by, program, &mut playback, warnings)?;
    let names = names_at_end(alloc, by, program, playback, warnings)?;
    Ok(Curves::new(by, names, stretches, commands))
}

/// Records the end of a play whose turns are all made, and returns the columns' names.
fn names_at_end(
    alloc: Global,
    by: By,
    program: &Program,
    playback: Playback,
    warnings: &mut Warnings,
) -> Result<Vec<Name>, AllocError>
    requires program { playback.seen.setting.program ≡ program.now }
    requires ended { turns_left playback ≡ [] }
    ensures few { IfOk result (λ names. vec_len names < 2 ^ 32) }
    ensures names { IfOk result (λ names. names.items ≡ names_by by (world_of playback.seen).state) }
    ensures stopped { warnings.new.stopped ≡ (warnings.old.stopped || ends_refused program.now) }
{
    let (mut system, order) = playback.into_parts();
    note_last(program, &mut system, &order, warnings);
    names_of(alloc, by, system.settle())
}

/// Makes the program's turns, and records the stretches and the warning of each, and the times of the commands.
fn note_turns(
    alloc: Global,
    by: By,
    program: &Program,
    playback: &mut Playback,
    warnings: &mut Warnings,
) -> Result<(Vec<Stretch>, Vec<u32>), AllocError>
    requires none { playback.old.made ≡ 0 }
    requires made { HasMade program.now [] playback.old.seen }
    ensures ended { OnOk result (turns_left playback.new ≡ []) }
    ensures made { OnOk result (HasMade program.now (program_turns program.now) playback.new.seen) }
    ensures stopped { OnOk result (warnings.new.stopped ≡ warnings.old.stopped) }
    ensures noted { IfOk result (λ noted. noted.0.items ≡ stretches_in by [] (program_turns program.now)) }
    ensures commands { IfOk result (λ noted. noted.1.items ≡ commands_in (program_turns program.now)) }
    ensures few { IfOk result (λ noted. vec_len noted.0 < 2 ^ 32) }
    ensures early { IfOk result (λ noted. last_end noted.0.items < 2 ^ 56) }
{
    let schedule = program.schedule();
    let room = Vec::with_capacity(alloc, schedule.len())?;
    let mut noted = Stretches {
        by,
        above: playback.system().above(alloc)?,
        count: 0,
        stretches: room,
        commands: Vec::new(alloc),
        warnings,
    };
    play_through(program, playback, &mut noted)?;
    // A name for the loan of the warnings, so that it ends with the play's.
    let Stretches {
        stretches,
        commands,
        warnings: _warnings,
        ..
    } = noted;
    Ok((stretches, commands))
}

/// The columns' names, in ascending order of number: the name of the last thread or currency with the number.
fn names_of(alloc: Global, by: By, settled: Settled<'_>) -> Result<Vec<Name>, AllocError>
    ensures few { IfOk result (λ names. vec_len names < 2 ^ 32) }
    ensures names { IfOk result (λ names. names.items ≡ names_by by settled.entry.kernel.now.state) }
{
    let count = column_count(by, settled);
    let mut names = Vec::with_capacity(alloc, count as usize)?;
    for place in 0..count {
        names.push(name_by(by, settled, place + 1))?;
    }
    Ok(names)
}

/// The count of numbers given to threads, or to currencies other than base.
fn column_count(by: By, settled: Settled<'_>) -> u32
    ensures { result ≡ length (numbers_by by settled.entry.kernel.now.state) }
{
    match by {
        By::Thread => settled.kernel.thread_count(),
        By::Currency => settled.kernel.currency_count().saturating_sub(1),
    }
}

/// The name of the last thread or currency with this number, or the number itself if that one was removed or has no
/// name.
fn name_by(by: By, settled: Settled<'_>, number: u32) -> Name
    requires { IsBetween 1 (length (numbers_by by settled.kernel.now.state)) number }
    ensures { result ≡ curves.name_by by settled.entry.kernel.now.state number }
{
    match by {
        By::Thread => name_or_number(thread_name(settled, number), number),
        By::Currency => name_or_number(
            settled.kernel.currency_name(CurrencyNumber { number }),
            number,
        ),
    }
}

/// The name of the thread with this number, unless it was removed.
fn thread_name(settled: Settled<'_>, thread: u32) -> Option<Name>
    requires { IsBetween 1 (length settled.kernel.now.state.records) thread }
    ensures { result ≡ rows.thread_name settled.entry.kernel.now.state thread }
{
    match settled.thread_row(ThreadNumber { number: thread }) {
        Some(row) => Some(row.name),
        None => None,
    }
}

/// The name, or the number if there is none.
fn name_or_number(name: Option<Name>, number: u32) -> Name
    ensures { result ≡ curves.name_or_number (unwrap_or name []) number }
{
    match name {
        Some(name) if !name.is_none() => name,
        _ => number_name(number),
    }
}

/// This number as a name. A good name begins with a letter, so no thread has it.
fn number_name(number: u32) -> Name
    ensures { result ≡ decimal number }
{
    let mut buffer = Buffer::new();
    match Name::new(buffer.format(number)) {
        Some(name) => name,
        None => unreachable!(),
    }
}
