//! The lengths and the numbers of explanations: laws of the definitions, without executable code.
ghost use Rattle.std.specs.Prelude.{◌≡◌, ◌≤◌, ◌<◌, ◌+◌, ◌*◌, ◌/◌, ◌^◌, ℕ, All, List, ◌∷◌, ◌++◌, None, Ok, Some, length};
ghost use Rattle.lot_machine.specs.Bounds.{IsWithinBounds};
ghost use Rattle.lot_machine.specs.declared.event.Event.{Event};
ghost use Rattle.lot_machine.specs.declared.reply.Reply.{Reply};
ghost use Rattle.lot_machine.specs.State.{State, value_of, weight_of};
ghost use Rattle.lot_print.specs.Lots.{lot_line};
ghost use Rattle.lot_print.specs.declared.lots.Compensation.{Compensation};
ghost use Rattle.lot_print.specs.declared.lots.Lot.{Lot};
ghost use Rattle.lot_simulation.specs.Grammar.{program_in};
ghost use Rattle.lot_simulation.specs.Output.{output, scheduled_output, timed_output};
ghost use Rattle.lot_simulation.specs.Timed.{end_of, timed_turns};
ghost use Rattle.lot_simulation.specs.World.{Program, World, system_run, system_turn};
ghost use Rattle.lot_simulation.specs.World.TurnAnswer.{Answered};
ghost use Rattle.lot_simulation.specs.declared.style.LineStyle.{LineStyle};
ghost use Rattle.lot_system.specs.Texts.{last_report};
ghost use Rattle.lot_playback.specs.Turns.{program_turns};
ghost use Rattle.lot_explain.specs.declared.detail.Detail.{Detail};
ghost use Rattle.lot_explain.specs.declared.detail.Detail.TheVariants.{Lots};
ghost use Rattle.lot_explain.specs.Explained.{explained_in_time, explained_output, explained_program};
ghost use Rattle.lot_explain.specs.Explained.{explained_schedule};
ghost use Rattle.lot_explain.specs.Loans.{IsLent, all_loans};
ghost use Rattle.lot_explain.specs.Lots.{compensation_of, lot_diagnostics, lots_of, total_of, won_in};
ghost use Rattle.lot_explain.specs.MadeTurns.{explained_turns};
ghost use Rattle.lot_explain.specs.Numbers.{HasNumber, number_in};
ghost use Rattle.lot_explain.specs.Short.{HasShortName, line_bytes, turn_count};
ghost use Rattle.lot_explain.specs.declared.won.Won.{Won};

/// The output of `explain` is the explanation of each of the program's turns, followed by the report, for a schedule
/// and for a timed program.
pub fn explanations_are_those_of_the_turns()
    ensures { (detail : Detail) (program : Program) → explained_program detail program program.duration
        ≡ explained_turns detail (program_turns program) ++ last_report program program.duration }
{}

/// An explanation without the funding is longer than the output of `play` by at most 139 bytes for each pair of a turn
/// and a possible thread, and for a timed program by at most 183, if sizes are within their bounds, names of threads
/// have at most 16 bytes, and times have 32 bits. Every accepted input meets these premises.
pub fn explanations_are_short()
    ensures scheduled { (program : Program) → IsWithinBounds program.limits → All HasShortName program.commands
        → length (explained_schedule Lots program)
        ≤ length (scheduled_output program) + length program.schedule * (program.limits.threads * 139) }
    ensures in_time { (program : Program) → IsWithinBounds program.limits → All HasShortName program.commands
        → end_of program < 2 ^ 32
        → length (explained_in_time Lots program)
        ≤ length (timed_output program) + length (timed_turns program) * (program.limits.threads * 183) }
    ensures read { (bytes : List ℕ) (program : Program) → program_in bytes ≡ Ok program
        → length (explained_output Lots bytes)
        ≤ length (output bytes)
        + turn_count program program.duration * (program.limits.threads * line_bytes program.duration) }
{}

/// In each world that a program reaches a compensated thread's weight is its value times the quantum over the ticks
/// that it used, rounded down. Any other thread's weight is its value.
pub fn reasons_give_the_weights()
    ensures compensated { (program : Program) (actors : List ℕ) (t : ℕ) (reason : Compensation)
        → compensation_of (system_run program actors).state t ≡ Some reason
        → weight_of (system_run program actors).state t ≡ reason.value * reason.quantum / reason.used }
    ensures other { (s : State) (t : ℕ) → compensation_of s t ≡ None → weight_of s t ≡ value_of s t }
{}

/// Each loan is a lend of the machine: a thread lends all its value, which isn't 0, to the borrower of the loan.
pub fn loans_are_lends()
    ensures { (s : State) → All (IsLent s) (all_loans s) }
{}

/// A lot's numbers begin with the total weight of the lots before it, and are as many as its own weight. The number
/// drawn in a turn's lottery is among those of the winner, and of no other thread.
pub fn winners_have_the_number()
    ensures printed { (style : LineStyle) (unit actor : ℕ) (won : Won) (before after : List Lot) (lot : Lot)
        → lot_diagnostics style unit actor won 0 (before ++ lot ∷ after)
        ≡ lot_diagnostics style unit actor won 0 before
        ++ (lot_line style unit actor won.lottery won.winner (total_of before) lot
        ++ lot_diagnostics style unit actor won (total_of before + lot.weight) after) }
    ensures winner { (program : Program) (w : World) (actor : ℕ) (e : Event) (r : Reply) (won : Won) (number : ℕ)
        → (system_turn program w actor).answer ≡ Answered e r → won_in e r ≡ Some won → number_in r ≡ Some number
        → (lot : Lot) × HasNumber (lots_of w.state e) number lot × (lot.thread ≡ won.winner) }
    ensures no_other { (program : Program) (w : World) (actor : ℕ) (e : Event) (r : Reply) (won : Won) (number : ℕ)
        → (system_turn program w actor).answer ≡ Answered e r → won_in e r ≡ Some won → number_in r ≡ Some number
        → (lot : Lot) → HasNumber (lots_of w.state e) number lot → lot.thread ≡ won.winner }
{}
