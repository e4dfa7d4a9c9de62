//! Worked rows for strict inputs, which a refusal ends.
ghost use Rattle.std.specs.Prelude.{◌≡◌, [], ◌∷◌, ◌++◌, codes};
ghost use Rattle.lot_simulation.specs.Output.{output};
ghost use Rattle.lot_simulation.specs.Samples.{refused_on_line, text};

/// A refused command or trap is the last turn.
#[tactic(auto, unfolding(crate::specs::OnLiterals::texts_on_literals, crate::specs::Timed::timed_room))]
pub fn refusals()
    ensures command { output (text (codes "lottery 3" ∷ codes "for 9" ∷ codes "strict" ∷ codes "rmtkt 1"
        ∷ codes "mktkt 5 base" ∷ []))
        ≡ text (codes "0 0 refused 4 NoTicket" ∷ codes "report" ∷ codes "processor 1 quanta 0 idle 0 ticks 0 unused 0"
        ∷ codes "total turns 1 quanta 0 ticks 0 refused 1 left 1" ∷ codes "ended at 0 of 9: 1 turns made" ∷ []) }
    ensures trap { output (text (codes "lottery 3" ∷ codes "quantum 10" ∷ codes "strict" ∷ codes "for 12"
        ∷ codes "mutex m" ∷ codes "script twice" ∷ codes "lock m lock m unlock m endscript"
        ∷ codes "fundx 1 base a twice" ∷ []))
        ≡ text (codes "0 0 funded 1 1" ∷ codes "0 1 draw 0.992 of 1 thread 1"
        ∷ codes "1 1 thread 1 ticks 1 lock 1 taken" ∷ codes "2 1 thread 1 ticks 1 refused 35 AlreadyOwner"
        ∷ codes "report"
        ∷ (codes "thread 1 a quanta 1 ticks 2 share 100% due 100% value 100%"
        ++ codes " ready waits 1 mean 0 longest 0 refused 1")
        ∷ codes "processor 1 quanta 1 idle 0 ticks 2 unused 0"
        ∷ codes "total turns 4 quanta 1 ticks 2 refused 0 left 0" ∷ codes "ended at 2 of 12: 4 turns made" ∷ []) }
{}

/// Without a refused command or trap the output is the same as without `strict`, even if the wake of a killed sleeper
/// is refused.
#[tactic(auto, unfolding(crate::specs::OnLiterals::texts_on_literals, crate::specs::Timed::timed_room))]
pub fn no_refusal()
    ensures same { output (text (codes "lottery 3" ∷ codes "quantum 10" ∷ codes "for 12" ∷ codes "strict"
        ∷ codes "script nap" ∷ codes "sleep 5 endscript" ∷ codes "fundx 1 base a nap" ∷ codes "at 3" ∷ codes "kill a"
        ∷ []))
        ≡ output (text (codes "lottery 3" ∷ codes "quantum 10" ∷ codes "for 12"
        ∷ codes "script nap" ∷ codes "sleep 5 endscript" ∷ codes "fundx 1 base a nap" ∷ codes "at 3" ∷ codes "kill a"
        ∷ [])) }
{}

/// `strict` in the wrong place.
#[tactic(auto, unfolding(crate::specs::OnLiterals::texts_on_literals, crate::specs::Timed::timed_room))]
pub fn refused_headers()
    ensures in_first { output (text (codes "lottery 1" ∷ codes "strict" ∷ []))
        ≡ refused_on_line (codes "2 51 BadLine") }
    ensures in_second { output (text (codes "lottery 2" ∷ codes "strict" ∷ []))
        ≡ refused_on_line (codes "2 51 BadLine") }
    ensures twice { output (text (codes "lottery 3" ∷ codes "strict" ∷ codes "for 5" ∷ codes "strict" ∷ []))
        ≡ refused_on_line (codes "4 50 BadHeader") }
    ensures with_number { output (text (codes "lottery 3" ∷ codes "for 5" ∷ codes "strict 1" ∷ []))
        ≡ refused_on_line (codes "3 51 BadLine") }
{}
