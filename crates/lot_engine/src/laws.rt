//! The sums in the reports, an actor's work, and the threads below a currency: laws of the definitions, without
//! executable code.
ghost use Rattle.std.specs.Prelude.{◌≡◌, ◌↔◌, ◌<◌, ◌≤◌, ◌^◌, false, ℕ, IsTrue, List, Option, length, sum_by};
ghost use Rattle.std.specs.List.{range_with_len};
ghost use Rattle.lot_machine.specs.Bounds.{IsBetween, IsWithinBounds};
ghost use Rattle.lot_machine.specs.Equations.{Reaches};
ghost use Rattle.lot_machine.specs.Facts.{FundsThere, HasNoCycle};
ghost use Rattle.lot_machine.specs.State.{State, funding_of};
ghost use Rattle.lot_machine.specs.declared.funding.Node.TheVariants.{Currency, Thread};
ghost use Rattle.lot_simulation.specs.Report.{idles_in, quanta_in, ticks_in, total_of, turns_made, turns_of};
ghost use Rattle.lot_simulation.specs.Below.{stands_below};
ghost use Rattle.lot_simulation.specs.World.{IsLegal, Program, system_run};
ghost use Rattle.lot_script.specs.Slices.{Parts};
ghost use Rattle.lot_engine.specs.declared.fault.TurnFault.TheVariants.{Stale};
ghost use Rattle.lot_engine.specs.declared.turn.Work.{Work};
ghost use Rattle.lot_engine.specs.Seen.{Seen};
ghost use Rattle.lot_engine.specs.Turns.{Faults, IsFresh, IsWorkOf, Matches};

/// The threads' quanta and ticks in the world after a legal history add up to those counted over its turns. A thread's
/// counts saturate at the largest `u64`, which no history of fewer than 2 ^ 32 turns reaches. With `reuse` they may add
/// up to less: a thread with a reused number starts from 0.
pub fn threads_add_up()
    ensures quanta { (program : Program) (room : ℕ) (history : List ℕ) → IsWithinBounds program.limits
        → IsLegal program room history → room < 2 ^ 32 → program.limits.reuse ≡ false
        → sum_by (λ r. r.quanta) (system_run program history).state.records
        ≡ total_of quanta_in (turns_made program history) }
    ensures ticks { (program : Program) (room : ℕ) (history : List ℕ) → IsWithinBounds program.limits
        → IsLegal program room history → room < 2 ^ 32 → program.limits.reuse ≡ false
        → sum_by (λ r. r.ticks) (system_run program history).state.records
        ≡ total_of ticks_in (turns_made program history) }
    ensures quanta_within { (program : Program) (room : ℕ) (history : List ℕ) → IsWithinBounds program.limits
        → IsLegal program room history → room < 2 ^ 32
        → sum_by (λ r. r.quanta) (system_run program history).state.records
        ≤ total_of quanta_in (turns_made program history) }
    ensures ticks_within { (program : Program) (room : ℕ) (history : List ℕ) → IsWithinBounds program.limits
        → IsLegal program room history → room < 2 ^ 32
        → sum_by (λ r. r.ticks) (system_run program history).state.records
        ≤ total_of ticks_in (turns_made program history) }
{}

/// The processors' counts in the report add up to the counters over all turns of a legal history: the console wins no
/// draws and uses no ticks.
pub fn processors_add_up()
    ensures quanta { (program : Program) (room : ℕ) (history : List ℕ) → IsLegal program room history
        → sum_by (λ p. total_of quanta_in (turns_of p (turns_made program history)))
        (range_with_len 1 program.limits.processors) ≡ total_of quanta_in (turns_made program history) }
    ensures idles { (program : Program) (room : ℕ) (history : List ℕ) → IsLegal program room history
        → sum_by (λ p. total_of idles_in (turns_of p (turns_made program history)))
        (range_with_len 1 program.limits.processors) ≡ total_of idles_in (turns_made program history) }
    ensures ticks { (program : Program) (room : ℕ) (history : List ℕ) → IsLegal program room history
        → sum_by (λ p. total_of ticks_in (turns_of p (turns_made program history)))
        (range_with_len 1 program.limits.processors) ≡ total_of ticks_in (turns_made program history) }
{}

/// An actor has exactly one work in a system. A caller that passes the slice of this work never gets `Stale`, and a
/// caller that passes any other slice does.
pub fn works_are_one()
    ensures one { (seen : Seen) (actor : ℕ) (work other : Option Work) → IsWorkOf seen actor work
        → IsWorkOf seen actor other → work ≡ other }
    ensures fresh { (seen : Seen) (actor : ℕ) (work : Option Work) (given : Option Parts) → IsWorkOf seen actor work
        → IsFresh seen actor given → Matches seen.setting.program work given }
    ensures never_stale { (seen : Seen) (actor : ℕ) (work other : Option Work) (given : Option Parts)
        → IsWorkOf seen actor work → Matches seen.setting.program work given → ¬ Faults seen actor given (Stale other) }
{}

/// If nothing makes a cycle, and tickets fund only existing currencies, a thread stands below a currency if and only
/// if a path of edges, of tickets, lends and owners of mutexes, leads from the currency to the thread.
pub fn who_stands_below_is_reached()
    ensures { (s : State) (c t : ℕ) → HasNoCycle (funding_of s) → FundsThere (funding_of s)
        → c < length s.currencies → IsBetween 1 (length s.records) t
        → IsTrue (stands_below s c t) ↔ Reaches (funding_of s) (Currency c) (Thread t) }
{}
