//! Worked rows for whole systems, turn by turn.
ghost use Rattle.std.specs.Prelude.{◌≡◌, [], ◌∷◌, false, Some, None};
ghost use Rattle.lot_simulation.specs.WorkedSystems.{played, first_run, finer_run, call_and_reply, serving};
ghost use Rattle.lot_simulation.specs.WorkedSystems.{two_processors};
ghost use Rattle.lot_simulation.specs.Script.{unrolled};
ghost use Rattle.lot_simulation.specs.Script.Item.{Work, Set, Traps};
ghost use Rattle.lot_simulation.specs.World.{IsLegal, last_answer};
ghost use Rattle.lot_simulation.specs.World.TurnAnswer.{Answered, Ended};
ghost use Rattle.lot_machine.specs.declared.event.Event.TheVariants as event;
ghost use Rattle.lot_machine.specs.declared.reply.Reply.TheVariants as reply;
ghost use Rattle.lot_machine.specs.declared.reply.Outcome.TheVariants as outcome;
ghost use Rattle.lot_simulation.specs.declared.script.ScriptLine.TheVariants as line;
ghost use Rattle.lot_machine.specs.declared.trap.Trap.TheVariants as script_trap;

/// Whole systems, turn by turn.
pub fn systems()
    ensures first_run { played first_run (0 ∷ 0 ∷ 0 ∷ 0 ∷ 0 ∷ 0 ∷ 1 ∷ 1 ∷ 1 ∷ 1 ∷ 1 ∷ 1 ∷ [])
        ≡ Some (reply.Ticket 1) ∷ Some (reply.Thread 1) ∷ Some reply.Done ∷ Some (reply.Ticket 2)
        ∷ Some (reply.Thread 2) ∷ Some reply.Done
        ∷ Some (reply.Winner 1 9 15 None) ∷ Some (reply.Expired 1 100) ∷ Some (reply.Winner 1 4 15 None)
        ∷ Some (reply.Expired 1 100) ∷ Some (reply.Winner 2 10 15 None) ∷ Some (reply.Expired 2 100) ∷ [] }
    ensures finer_run { played finer_run (0 ∷ 0 ∷ 0 ∷ 0 ∷ 0 ∷ 0 ∷ 1 ∷ 1 ∷ [])
        ≡ Some (reply.Ticket 1) ∷ Some (reply.Thread 1) ∷ Some reply.Done ∷ Some (reply.Ticket 2)
        ∷ Some (reply.Thread 2) ∷ Some reply.Done
        ∷ Some (reply.Winner 2 2724 3840 None) ∷ Some (reply.Expired 2 100) ∷ [] }
    ensures call_and_reply { played call_and_reply (0 ∷ 0 ∷ 1 ∷ 1 ∷ 1 ∷ 1 ∷ 1 ∷ 1 ∷ 1 ∷ 1 ∷ 1 ∷ 1 ∷ [])
        ≡ Some (reply.Funded 1 1) ∷ Some (reply.Funded 2 2) ∷ Some (reply.Winner 1 4 10 None)
        ∷ Some (reply.Trapped 1 1 outcome.Waits false)
        ∷ Some (reply.Winner 2 4 5 None) ∷ Some (reply.Trapped 2 2 (outcome.ServedBy 1) false)
        ∷ Some (reply.Winner 1 5 100 (Some 41)) ∷ Some (reply.Trapped 1 2 (outcome.Replied 2) false)
        ∷ Some (reply.Trapped 1 1 outcome.Exited false) ∷ Some (reply.Winner 2 5 25 (Some 42))
        ∷ Some (reply.Trapped 2 3 outcome.Exited false) ∷ Some reply.Idle ∷ [] }
    ensures serving { played serving (0 ∷ 0 ∷ 0 ∷ 1 ∷ 1 ∷ 1 ∷ 1 ∷ 1 ∷ 1 ∷ 1 ∷ 1 ∷ 1 ∷ 1 ∷ 1 ∷ 1 ∷ [])
        ≡ Some (reply.Funded 1 1) ∷ Some (reply.Funded 2 2) ∷ Some (reply.Funded 3 3)
        ∷ Some (reply.Winner 2 9 15 None) ∷ Some (reply.Trapped 2 2 outcome.Queued false)
        ∷ Some (reply.Winner 3 9 10 None) ∷ Some (reply.Trapped 3 2 outcome.Queued false)
        ∷ Some (reply.Winner 1 0 5 None) ∷ Some (reply.Trapped 1 1 (outcome.Received 2 41) false)
        ∷ Some (reply.Trapped 1 2 (outcome.RepliedThenReceived 2 3 41) false)
        ∷ Some (reply.Trapped 1 2 (outcome.RepliedThenWaits 3) false)
        ∷ Some (reply.Winner 2 5 50 (Some 42)) ∷ Some (reply.Trapped 2 1 outcome.Exited false)
        ∷ Some (reply.Winner 3 20 25 (Some 42)) ∷ Some (reply.Trapped 3 1 outcome.Exited false) ∷ [] }
    ensures two_processors { played two_processors (0 ∷ 1 ∷ 2 ∷ 1 ∷ 2 ∷ 0 ∷ [])
        ≡ Some (reply.Funded 1 1) ∷ Some (reply.Winner 1 4 10 None) ∷ Some reply.Idle ∷ Some (reply.Expired 1 100)
        ∷ Some (reply.Winner 1 3 10 None) ∷ None ∷ [] }
    ensures loops { unrolled (line.Loop 2 ∷ line.Set 7 ∷ line.Loop 1 ∷ line.Trap script_trap.Yield ∷ line.End
        ∷ line.End ∷ line.Trap (script_trap.Reply tt) ∷ [])
        ≡ Work ∷ Set 7 ∷ Work ∷ Traps script_trap.Yield ∷ Work ∷ Work ∷ Set 7 ∷ Work ∷ Traps script_trap.Yield ∷ Work
        ∷ Work ∷ Traps (script_trap.Reply tt) ∷ Traps script_trap.Exit ∷ [] }
{}

/// The answer to the last turn of a legal history, with its event, or nothing if there was no turn.
pub fn last_answers()
    ensures draw { last_answer two_processors (0 ∷ 1 ∷ [])
        ≡ Some (Answered (event.Draw 1 36090892629924) (reply.Winner 1 4 10 None)) }
    ensures expiry { last_answer two_processors (0 ∷ 1 ∷ 2 ∷ 1 ∷ [])
        ≡ Some (Answered (event.Expire 1) (reply.Expired 1 100)) }
    ensures ended { last_answer two_processors (0 ∷ 0 ∷ []) ≡ Some Ended }
    ensures none { last_answer two_processors [] ≡ None }
    ensures legal { IsLegal two_processors 4 (0 ∷ 1 ∷ 2 ∷ 1 ∷ []) }
    ensures too_long { ¬ IsLegal two_processors 3 (0 ∷ 1 ∷ 2 ∷ 1 ∷ []) }
    ensures no_actor { ¬ IsLegal two_processors 4 (0 ∷ 3 ∷ []) }
    ensures no_command { ¬ IsLegal two_processors 4 (0 ∷ 1 ∷ 0 ∷ []) }
{}
