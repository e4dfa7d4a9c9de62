//! Laws of the definitions, without executable code.
ghost use Rattle.std.specs.Prelude.{◌≡◌, ◌≤◌, ◌<◌, ℕ, ◌+◌, false, true, List, [], ◌∷◌, ◌++◌, length, map, sum_by};
ghost use Rattle.std.specs.List.{range_with_len};
ghost use Rattle.std.specs.List.Sorted.{IsNonDecreasing};
ghost use Rattle.lot_machine.specs.Bounds.{IsBetween, IsWithinBounds};
ghost use Rattle.lot_machine.specs.declared.reply.Reply.{Reply};
ghost use Rattle.lot_simulation.specs.World.{Program, IsLegal, IsLegalInTime, system_run};
ghost use Rattle.lot_simulation.specs.Report.{idles_in, quanta_in, ticks_in, total_of, turns_made, turns_of};
ghost use Rattle.lot_simulation.specs.Timed.{TimedTurn, clock_of, end_of, ended_at, is_refusal, is_stopped};
ghost use Rattle.lot_simulation.specs.Timed.{last_moment, timed_room, timed_schedule, timed_turns};
ghost use Rattle.lot_simulation.specs.TimedReport.{actor_turns, clock_at, idle_until, timed_report, timed_report_of};

/// The counts of all actors' turns add up to the counts over all turns of a legal history, and so do the numbers of
/// turns.
pub fn actors_add_up()
    ensures turns { (program : Program) (room : ℕ) (history : List ℕ) → IsLegal program room history
        → sum_by (λ actor. length (turns_of actor (turns_made program history)))
        (range_with_len 0 (program.limits.processors + 1)) ≡ length history }
    ensures counts { (count : Reply → ℕ) (program : Program) (room : ℕ) (history : List ℕ)
        → IsLegal program room history
        → sum_by (λ actor. total_of count (turns_of actor (turns_made program history)))
        (range_with_len 0 (program.limits.processors + 1)) ≡ total_of count (turns_made program history) }
{}

/// Times never fall: no turn is earlier than the one before it, if sizes are within their bounds and no command is
/// earlier than the one before it.
pub fn times_never_fall()
    ensures { (program : Program) → IsWithinBounds program.limits → IsNonDecreasing program.times
        → IsNonDecreasing (map (λ done. done.time) (timed_turns program)) }
{}

/// Timed turns are a run of the system. If each command has its time, their actors are a legal history. The run with
/// this history makes the same turns and ends in the same world.
pub fn timed_turns_are_a_run()
    ensures legal { (program : Program) → length program.times ≡ length program.commands
        → IsLegalInTime program timed_room (timed_schedule program) }
    ensures turns { (program : Program)
        → actor_turns (timed_turns program) ≡ turns_made program (timed_schedule program) }
    ensures world { (program : Program) → (last_moment program).world ≡ system_run program (timed_schedule program) }
{}

/// In the report of a timed program a processor's ticks and its unused ticks add up to its clock, and no clock is
/// after the end, if sizes are within their bounds and no command is earlier than the one before it.
pub fn clocks_add_up()
    ensures sum { (program : Program) (p : ℕ) → IsWithinBounds program.limits → IsNonDecreasing program.times
        → IsBetween 1 program.limits.processors p
        → total_of ticks_in (turns_of p (actor_turns (timed_turns program)))
        + idle_until (ended_at program (last_moment program)) (clock_of (last_moment program).clocks p)
        ≡ clock_at (ended_at program (last_moment program)) (clock_of (last_moment program).clocks p) }
    ensures within { (program : Program) (p : ℕ) → IsWithinBounds program.limits → IsNonDecreasing program.times
        → IsBetween 1 program.limits.processors p
        → clock_at (ended_at program (last_moment program)) (clock_of (last_moment program).clocks p)
        ≤ ended_at program (last_moment program) }
{}

/// In the report of a timed program the threads' quanta and ticks add up to its totals, if sizes are within their
/// bounds. With `reuse` they may add up to less: a thread with a reused number starts from 0.
pub fn timed_threads_add_up()
    ensures quanta { (program : Program) → IsWithinBounds program.limits → program.limits.reuse ≡ false
        → sum_by (λ r. r.quanta) (last_moment program).world.state.records
        ≡ total_of quanta_in (actor_turns (timed_turns program)) }
    ensures ticks { (program : Program) → IsWithinBounds program.limits → program.limits.reuse ≡ false
        → sum_by (λ r. r.ticks) (last_moment program).world.state.records
        ≡ total_of ticks_in (actor_turns (timed_turns program)) }
    ensures quanta_within { (program : Program) → IsWithinBounds program.limits
        → sum_by (λ r. r.quanta) (last_moment program).world.state.records
        ≤ total_of quanta_in (actor_turns (timed_turns program)) }
    ensures ticks_within { (program : Program) → IsWithinBounds program.limits
        → sum_by (λ r. r.ticks) (last_moment program).world.state.records
        ≤ total_of ticks_in (actor_turns (timed_turns program)) }
{}

/// In the report of a timed program the processors' quanta, idle draws and ticks add up to its totals, if each
/// command has its time.
pub fn timed_processors_add_up()
    ensures quanta { (program : Program) → length program.times ≡ length program.commands
        → sum_by (λ p. total_of quanta_in (turns_of p (actor_turns (timed_turns program))))
        (range_with_len 1 program.limits.processors)
        ≡ total_of quanta_in (actor_turns (timed_turns program)) }
    ensures idles { (program : Program) → length program.times ≡ length program.commands
        → sum_by (λ p. total_of idles_in (turns_of p (actor_turns (timed_turns program))))
        (range_with_len 1 program.limits.processors)
        ≡ total_of idles_in (actor_turns (timed_turns program)) }
    ensures ticks { (program : Program) → length program.times ≡ length program.commands
        → sum_by (λ p. total_of ticks_in (turns_of p (actor_turns (timed_turns program))))
        (range_with_len 1 program.limits.processors)
        ≡ total_of ticks_in (actor_turns (timed_turns program)) }
{}

/// A timed program that makes fewer turns than the limit comes to its end, unless a refusal ends it, and its report has
/// no line of an early end.
pub fn few_turns_come_to_the_end()
    ensures { (program : Program) → is_stopped program (last_moment program) ≡ false
        → length (timed_turns program) < timed_room
        → timed_report program
        ≡ timed_report_of program (last_moment program) (end_of program) (timed_turns program) }
{}

/// A refused command or trap is the last turn of a strict program.
pub fn refusals_end_strict_programs()
    ensures { (program : Program) → program.options.strict ≡ true
        → (before : List TimedTurn) (done : TimedTurn) (others : List TimedTurn)
        → timed_turns program ≡ before ++ done ∷ others → is_refusal done.turn.answer ≡ true → others ≡ [] }
{}
