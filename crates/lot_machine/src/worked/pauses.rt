//! Worked rows for sleepers, preemptions and late quanta.
ghost use Rattle.std.specs.Prelude.{◌≡◌, [], ◌∷◌, ◌++◌, codes, false, None};
ghost use Rattle.lot_machine.specs.declared.trap.Trap.TheVariants.{Lock, Sleep, Exit};
ghost use Rattle.lot_machine.specs.declared.event.Event.TheVariants.{Draw, Expire, Trap, Preempt, Overrun, Wake};
ghost use Rattle.lot_machine.specs.Worked.{after, answers, after_in, answers_in, uncompensated, values, weights};
ghost use Rattle.lot_machine.specs.Worked.{fundx, base};
ghost use Rattle.lot_machine.specs.WorkedRuns.{two_to_one, early_yield};
ghost use Rattle.lot_machine.specs.declared.reply.Reply.TheVariants as reply;
ghost use Rattle.lot_machine.specs.declared.reply.Outcome.TheVariants as outcome;
ghost use Rattle.lot_machine.specs.declared.refusal.Refusal.TheVariants as refusal;

/// A sleeping thread competes in no draw, and its tickets are inactive. When woken, it has the compensation of a
/// thread that blocks (4.4, 4.5).
pub fn sleeping()
    ensures turns { answers (fundx 400 base (codes "a") ∷ fundx 100 base (codes "b") ∷ [])
        (Draw 1 0 ∷ Trap 1 19 (Sleep tt) ∷ Draw 1 99 ∷ Expire 1 ∷ Wake 1 ∷ Draw 1 1999 ∷ [])
        ≡ reply.Winner 1 0 500 None ∷ reply.Trapped 1 20 outcome.Slept false ∷ reply.Winner 2 99 100 None
        ∷ reply.Expired 2 100 ∷ reply.Done ∷ reply.Winner 1 1999 2100 None ∷ [] }
    ensures shares { values (after (two_to_one ++ Draw 1 0 ∷ Trap 1 0 (Sleep tt) ∷ [])) ≡ 0 ∷ 200 ∷ [] }
    ensures woken { values (after (two_to_one ++ Draw 1 0 ∷ Trap 1 0 (Sleep tt) ∷ Wake 1 ∷ [])) ≡ 133 ∷ 66 ∷ [] }
    ensures refused { answers (fundx 400 base (codes "a") ∷ Draw 1 0 ∷ [])
        (Wake 1 ∷ Wake 2 ∷ Wake 0 ∷ Trap 1 0 Exit ∷ Wake 1 ∷ [])
        ≡ reply.Refused refusal.NotAsleep ∷ reply.Refused refusal.NoThread ∷ reply.Refused refusal.NoThread
        ∷ reply.Trapped 1 1 outcome.Exited false ∷ reply.Refused refusal.NotAsleep ∷ [] }
{}

/// A preempted thread is charged the ticks that it ran, and gets no compensation (4.2, 4.5).
pub fn preemption()
    ensures charged { answers (fundx 400 base (codes "a") ∷ Draw 1 0 ∷ []) (Preempt 1 30 ∷ Draw 1 0 ∷ [])
        ≡ reply.Expired 1 30 ∷ reply.Winner 1 0 400 None ∷ [] }
    ensures within { answers (fundx 400 base (codes "a") ∷ Draw 1 0 ∷ Trap 1 19 (Lock 1) ∷ [])
        (Preempt 1 81 ∷ Preempt 1 80 ∷ Preempt 1 0 ∷ Preempt 0 0 ∷ [])
        ≡ reply.Refused refusal.BadTicks ∷ reply.Expired 1 80 ∷ reply.Refused refusal.NotRunning
        ∷ reply.Refused refusal.BadProcessor ∷ [] }
{}

/// A thread whose quantum ended late weighs less until it next wins, and no less than 1 (3.4).
pub fn overruns()
    ensures weighs { answers (fundx 400 base (codes "a") ∷ Draw 1 0 ∷ [])
        (Overrun 1 100 ∷ Draw 1 199 ∷ Expire 1 ∷ Draw 1 399 ∷ [])
        ≡ reply.Expired 1 200 ∷ reply.Winner 1 199 200 None ∷ reply.Expired 1 100 ∷ reply.Winner 1 399 400 None ∷ [] }
    ensures in_time { answers (fundx 400 base (codes "a") ∷ Draw 1 0 ∷ []) (Overrun 1 0 ∷ Draw 1 399 ∷ [])
        ≡ reply.Expired 1 100 ∷ reply.Winner 1 399 400 None ∷ [] }
    ensures something { weights (after (fundx 1 base (codes "a") ∷ Draw 1 0 ∷ Overrun 1 900 ∷ [])) ≡ 1 ∷ [] }
    ensures most { answers (fundx 400 base (codes "a") ∷ Draw 1 0 ∷ [])
        (Overrun 1 4294967196 ∷ Overrun 1 4294967195 ∷ [])
        ≡ reply.Refused refusal.BadTicks ∷ reply.Expired 1 4294967295 ∷ [] }
{}

/// Two threads have 400 each, and one gives up its quantum after a fifth of it. With compensation it weighs five times
/// its value until it next wins. Without it, it weighs its value, then and after a late end of its quantum (3.4, 4.5).
pub fn without_compensation()
    ensures compensated { weights (after early_yield) ≡ 2000 ∷ 400 ∷ [] }
    ensures yields { weights (after_in uncompensated early_yield) ≡ 400 ∷ 400 ∷ [] }
    ensures sleeps { weights (after_in uncompensated (fundx 400 base (codes "a") ∷ Draw 1 0 ∷ Trap 1 19 (Sleep tt)
        ∷ Wake 1 ∷ [])) ≡ 400 ∷ [] }
    ensures late { answers_in uncompensated (fundx 400 base (codes "a") ∷ Draw 1 0 ∷ [])
        (Overrun 1 100 ∷ Draw 1 399 ∷ []) ≡ reply.Expired 1 200 ∷ reply.Winner 1 399 400 None ∷ [] }
{}
