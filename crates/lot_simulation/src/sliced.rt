//! Worked rows for small scripts and their slices.
ghost use Rattle.std.specs.Prelude.{◌≡◌, ◌++◌, [], ◌∷◌, replicate};
ghost use Rattle.lot_simulation.specs.declared.script.ScriptLine.TheVariants as line;
ghost use Rattle.lot_machine.specs.declared.trap.Trap.TheVariants as trap;
ghost use Rattle.lot_simulation.specs.Script.{unrolled, start, slice};
ghost use Rattle.lot_simulation.specs.Script.Item.{Work, Set, Traps};

/// A loop of two iterations of three ticks, in one slice and in two.
pub fn sliced_loop()
    ensures whole { unrolled (line.Loop 2 ∷ line.Compute 3 ∷ line.End ∷ []) ≡ replicate 9 Work ++ Traps trap.Exit ∷ [] }
    ensures short { slice (start (line.Loop 2 ∷ line.Compute 3 ∷ line.End ∷ [])) 9
        ≡ record { ticks = 9; trap = None; end = record { rest = Traps trap.Exit ∷ []; accumulator = 0 } } }
    ensures long { slice (start (line.Loop 2 ∷ line.Compute 3 ∷ line.End ∷ [])) 10
        ≡ record { ticks = 9; trap = Some trap.Exit; end = record { rest = Traps trap.Exit ∷ []; accumulator = 0 } } }
    ensures first { slice (start (line.Loop 2 ∷ line.Compute 3 ∷ line.End ∷ [])) 4
        ≡ record {
          ticks = 4;
          trap = None;
          end = record { rest = replicate 5 Work ++ Traps trap.Exit ∷ []; accumulator = 0 };
        } }
    ensures empty_loop { unrolled (line.Loop 3 ∷ line.End ∷ []) ≡ replicate 4 Work ++ Traps trap.Exit ∷ [] }
    ensures sent { slice (start (line.Set 4294967295 ∷ line.Add 3 ∷ line.Trap (trap.Call 1 tt)
        ∷ line.Trap trap.Yield ∷ [])) 10
        ≡ record {
          ticks = 2;
          trap = Some (trap.Call 1 tt);
          end = record { rest = Traps trap.Yield ∷ Traps trap.Exit ∷ []; accumulator = 2 };
        } }
    ensures at_trap { slice (start (line.Set 7 ∷ line.Trap trap.Yield ∷ [])) 1
        ≡ record {
          ticks = 1;
          trap = None;
          end = record { rest = Traps trap.Yield ∷ Traps trap.Exit ∷ []; accumulator = 7 };
        } }
{}
