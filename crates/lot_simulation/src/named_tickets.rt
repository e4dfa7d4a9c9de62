//! Worked rows for inputs whose tickets have names.
ghost use Rattle.std.specs.Prelude.{◌≡◌, [], ◌∷◌, codes};
ghost use Rattle.lot_simulation.specs.Output.{output};
ghost use Rattle.lot_simulation.specs.Samples.{refused_on_line, text};

/// A command that names a ticket is the same as one with its number.
#[tactic(auto, unfolding(crate::specs::OnLiterals::texts_on_literals, crate::specs::Timed::timed_room))]
pub fn names_are_numbers()
    ensures { output (text (codes "lottery 3" ∷ codes "for 7" ∷ codes "script s" ∷ codes "compute 9" ∷ codes "endscript"
        ∷ codes "mkcur g" ∷ codes "mktkt 5 base as gift" ∷ codes "fundx 2 g a s as wage" ∷ codes "fund gift g"
        ∷ codes "at 3" ∷ codes "settkt wage 4" ∷ codes "unfund wage" ∷ codes "rmtkt wage" ∷ []))
        ≡ output (text (codes "lottery 3" ∷ codes "for 7" ∷ codes "script s" ∷ codes "compute 9" ∷ codes "endscript"
        ∷ codes "mkcur g" ∷ codes "mktkt 5 base" ∷ codes "fundx 2 g a s" ∷ codes "fund 1 g"
        ∷ codes "at 3" ∷ codes "settkt 2 4" ∷ codes "unfund 2" ∷ codes "rmtkt 2" ∷ [])) }
{}

/// A removed ticket loses its name, even if another ticket gets its number. A refused command names no ticket.
#[tactic(auto, unfolding(crate::specs::OnLiterals::texts_on_literals, crate::specs::Timed::timed_room))]
pub fn names_end()
    ensures removed { output (text (codes "lottery 3" ∷ codes "for 1" ∷ codes "reuse" ∷ codes "mktkt 5 base as gift"
        ∷ codes "rmtkt gift" ∷ codes "mktkt 6 base" ∷ codes "rmtkt gift" ∷ codes "mktkt 7 base as other"
        ∷ codes "rmtkt 2" ∷ codes "rmtkt other" ∷ []))
        ≡ text (codes "0 0 ticket 1" ∷ codes "0 0 done" ∷ codes "0 0 ticket 1" ∷ codes "0 0 refused 4 NoTicket"
        ∷ codes "0 0 ticket 2" ∷ codes "0 0 done" ∷ codes "0 0 refused 4 NoTicket" ∷ codes "0 1 idle" ∷ codes "report"
        ∷ codes "processor 1 quanta 0 idle 1 ticks 0 unused 1"
        ∷ codes "total turns 8 quanta 0 ticks 0 refused 2 left 0" ∷ []) }
    ensures never_made { output (text (codes "lottery 3" ∷ codes "for 1" ∷ codes "mktkt 0 base as gift"
        ∷ codes "rmtkt gift" ∷ []))
        ≡ text (codes "0 0 refused 6 BadAmount" ∷ codes "0 0 refused 4 NoTicket" ∷ codes "0 1 idle" ∷ codes "report"
        ∷ codes "processor 1 quanta 0 idle 1 ticks 0 unused 1"
        ∷ codes "total turns 3 quanta 0 ticks 0 refused 2 left 0" ∷ []) }
{}

/// Names of tickets that an input can't have.
#[tactic(auto, unfolding(crate::specs::OnLiterals::texts_on_literals, crate::specs::Timed::timed_room))]
pub fn refused_names()
    ensures in_first { output (text (codes "lottery 1" ∷ codes "mktkt 5 base as gift" ∷ []))
        ≡ refused_on_line (codes "2 51 BadLine") }
    ensures in_second { output (text (codes "lottery 2" ∷ codes "fund gift a" ∷ []))
        ≡ refused_on_line (codes "2 52 BadNumber") }
    ensures unknown { output (text (codes "lottery 3" ∷ codes "for 5" ∷ codes "fund gift a" ∷ []))
        ≡ refused_on_line (codes "3 53 UnknownName") }
    ensures later { output (text (codes "lottery 3" ∷ codes "for 5" ∷ codes "rmtkt gift" ∷ codes "mktkt 5 base as gift"
        ∷ [])) ≡ refused_on_line (codes "3 53 UnknownName") }
    ensures no_name { output (text (codes "lottery 3" ∷ codes "for 5" ∷ codes "unfund Gift" ∷ []))
        ≡ refused_on_line (codes "3 52 BadNumber") }
    ensures twice { output (text (codes "lottery 3" ∷ codes "for 5" ∷ codes "mktkt 5 base as gift"
        ∷ codes "fundx 5 base a s as gift" ∷ [])) ≡ refused_on_line (codes "4 51 BadLine") }
    ensures capital { output (text (codes "lottery 3" ∷ codes "for 5" ∷ codes "mktkt 5 base as Gift" ∷ []))
        ≡ refused_on_line (codes "3 51 BadLine") }
    ensures other_word { output (text (codes "lottery 3" ∷ codes "for 5" ∷ codes "mktkt 5 base is gift" ∷ []))
        ≡ refused_on_line (codes "3 51 BadLine") }
    ensures lacking { output (text (codes "lottery 3" ∷ codes "for 5" ∷ codes "fundx 5 base a s as" ∷ []))
        ≡ refused_on_line (codes "3 51 BadLine") }
    ensures long { output (text (codes "lottery 3" ∷ codes "for 5" ∷ codes "mktkt 5 base as abcdefghijklmnopq" ∷ []))
        ≡ refused_on_line (codes "3 56 TooLong") }
    ensures first_fault { output (text (codes "lottery 3" ∷ codes "for 5" ∷ codes "mktkt 05 base as Gift" ∷ []))
        ≡ refused_on_line (codes "3 52 BadNumber") }
{}
