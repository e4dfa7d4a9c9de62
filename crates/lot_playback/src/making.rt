//! Making a turn, in either order.
ghost use Rattle.std.specs.Prelude.{◌≡◌, ℕ, ◌<◌, ◌≤◌, [], IfNone, IfSome, Some, length};
ghost use Rattle.lot_machine.specs.State.{thread_on};
ghost use Rattle.lot_simulation.specs.World.{sleeper_on};
ghost use Rattle.lot_simulation.specs.World.TurnAnswer.{Answered};
ghost use Rattle.lot_engine.specs.Playing.{turn_in};
ghost use Rattle.lot_engine.specs.Seen.{after_turn, world_of};
ghost use Rattle.lot_playback.specs.InTime.{CanFollow, IsDue};
ghost use Rattle.lot_playback.specs.Orders.{IsAtPlace, IsAtTime};
ghost use Rattle.lot_playback.specs.Stages.{IsNext, MakesTurn, turns_left};
ghost use Rattle.lot_playback.specs.TicksBelow.{HasOthersAbove};
ghost use Rattle.lot_playback.specs.Turns.{MadeTurn};

use crate::{NextTurn, Timekeeper, Turn};
use lot_engine::System;
use lot_program::Program;
use lot_simulation::Sleeper;

/// The turn at this index of the schedule, if there is one.
#[inline(always)]
pub(crate) fn next_scheduled(program: &Program, system: &System, place: usize) -> Option<NextTurn>
    requires program { system.now.setting.program ≡ program.now }
    requires there { IsAtPlace system.now place }
    ensures none { IfNone result (turns_left (record { seen = system.now; made = place }) ≡ []) }
    ensures next { IfSome result (IsNext (record { seen = system.now; made = place })) }
{
    let schedule = program.schedule();
    if schedule.len() <= place {
        return None;
    }
    Some(NextTurn {
        time: None,
        actor: u32::from(schedule[place]),
    })
}

/// The next turn by the clocks, if there is one.
#[inline(always)]
pub(crate) fn next_in_time(
    program: &Program,
    system: &System,
    timekeeper: &Timekeeper,
) -> Option<NextTurn>
    requires program { system.now.setting.program ≡ program.now }
    requires there { IsAtTime system.now timekeeper.now }
    ensures none { IfNone result (turns_left (record { seen = system.now; made = length system.now.history }) ≡ []) }
    ensures next { IfSome result (IsNext (record { seen = system.now; made = length system.now.history })) }
{
    if system.is_full() {
        return None;
    }
    let due = timekeeper.next_due(program, system)?;
    Some(NextTurn {
        time: Some(due.time as u32),
        actor: due.actor,
    })
}

/// Makes the turn at this index of the schedule, and stores it in `turn`.
#[inline(always)]
pub(crate) fn make_scheduled(
    program: &Program,
    system: &mut System,
    place: &mut usize,
    next: NextTurn,
    turn: &mut Turn,
)
    requires program { system.old.setting.program ≡ program.now }
    requires there { IsAtPlace system.old place.old }
    requires next { IsNext (record { seen = system.old; made = place.old }) next }
    ensures there { IsAtPlace system.new place.new }
    ensures made { (made : MadeTurn) × MakesTurn (record { seen = system.old; made = place.old })
        (record { seen = system.new; made = place.new }) turn.new made }
{
    *place += 1;
    turn.time = None;
    turn.actor = next.actor;
    let mut sleeper = None;
    turn.has_ended = !system.next_turn(next.actor, &mut turn.event, &mut turn.reply, &mut sleeper);
}

/// Makes the turn that is due by the clocks, and stores it in `turn`. It finds the currencies above the running thread
/// first, since the turn may change them.
///
/// The compiler never inlines it into its caller, which is then small enough to be inlined into each loop over turns.
#[inline(never)]
pub(crate) fn make_in_time(
    program: &Program,
    system: &mut System,
    timekeeper: &mut Timekeeper,
    next: NextTurn,
    turn: &mut Turn,
)
    requires program { system.old.setting.program ≡ program.now }
    requires there { IsAtTime system.old timekeeper.old }
    requires next { IsNext (record { seen = system.old; made = length system.old.history }) next }
    ensures there { IsAtTime system.new timekeeper.new }
    ensures made { (made : MadeTurn) × MakesTurn (record { seen = system.old; made = length system.old.history })
        (record { seen = system.new; made = length system.new.history }) turn.new made }
{
    timekeeper.currencies.look(system, next.actor);
    make_and_follow(system, timekeeper, next, turn);
}

/// Makes the turn that is due by the clocks, stores it in `turn`, and records it in the timekeeper, which has found the
/// currencies above the running thread.
#[inline(always)]
fn make_and_follow(
    system: &mut System,
    timekeeper: &mut Timekeeper,
    next: NextTurn,
    turn: &mut Turn,
)
    requires there { IsAtTime system.old timekeeper.old }
    requires next { IsNext (record { seen = system.old; made = length system.old.history }) next }
    requires found { (t : ℕ) → 0 < next.actor → thread_on (world_of system.old).state.records next.actor ≡ Some t
        → HasOthersAbove (world_of system.old).state t timekeeper.old.currencies.above }
    ensures there { IsAtTime system.new timekeeper.new }
    ensures made { (made : MadeTurn) × MakesTurn (record { seen = system.old; made = length system.old.history })
        (record { seen = system.new; made = length system.new.history }) turn.new made }
{
    let Some(time) = next.time else {
        unreachable!()
    };
    turn.time = next.time;
    turn.actor = next.actor;
    turn.has_ended = false;
    let sleeper = make_due(system, timekeeper, next.actor, turn);
    timekeeper.follow(system, time, next.actor, &turn.event, turn.reply, sleeper);
}

/// Makes the turn of this actor, which is due, and stores its event and reply in `turn`. Returns the thread that goes
/// to sleep in it, if one does.
#[inline(always)]
fn make_due(
    system: &mut System,
    timekeeper: &Timekeeper,
    actor: u32,
    turn: &mut Turn,
) -> Option<Sleeper>
    requires there { IsAtTime system.old timekeeper.now }
    requires due { (time : ℕ) × IsDue system.old.setting.program system.old timekeeper.now
        (record { time = time; actor = actor }) }
    ensures made { (system.new ≡ after_turn system.old actor)
        × ((turn_in system.old actor).answer ≡ Answered turn.new.event turn.new.reply) }
    ensures sleeper { 0 < actor → actor ≤ system.old.setting.program.limits.processors
        → result ≡ sleeper_on (world_of system.old) actor }
    ensures can { CanFollow actor system.old.setting.program.limits.processors
        (length timekeeper.now.alarms.threads.items) result }
    ensures rest { turn.new ≡ record turn.old { event = turn.new.event; reply = turn.new.reply } }
{
    let processors = system.processors();
    // Brings into the proof that the table has a place for each thread.
    let _ = system.thread_count();
    if actor > processors {
        system.wake(actor - processors, &mut turn.event, &mut turn.reply);
        return None;
    }
    let mut sleeper = None;
    if !system.next_turn(actor, &mut turn.event, &mut turn.reply, &mut sleeper) {
        unreachable!()
    }
    sleeper
}
