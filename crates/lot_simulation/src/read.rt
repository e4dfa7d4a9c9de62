//! Worked rows for lines, tokens, numbers and refused inputs.
ghost use Rattle.std.specs.Prelude.{◌≡◌, ◌++◌, [], ◌∷◌, codes, replicate, true, false, Ok};
ghost use Rattle.lot_simulation.specs.Grammar.{program_in};
ghost use Rattle.lot_simulation.specs.Lines.{lines_of, tokens_of, number_of};
ghost use Rattle.lot_simulation.specs.Output.{output};
ghost use Rattle.lot_simulation.specs.Samples.{text, empty_report, is_without, refused_on_line, second_line};
ghost use Rattle.lot_simulation.specs.Samples.{script_of};
ghost use Rattle.lot_simulation.specs.declared.separators.Separators.TheVariants.{Spaces, Blanks};

/// Lines, tokens and numbers.
pub fn lines_and_tokens()
    ensures lines { lines_of (97 ∷ 10 ∷ 10 ∷ 98 ∷ []) ≡ (97 ∷ 10 ∷ []) ∷ (10 ∷ []) ∷ (98 ∷ []) ∷ [] }
    ensures ended { lines_of (97 ∷ 10 ∷ []) ≡ (97 ∷ 10 ∷ []) ∷ [] }
    ensures tokens { tokens_of Spaces (codes "  lottery  1 ") ≡ codes "lottery" ∷ codes "1" ∷ [] }
    ensures blanks { tokens_of Blanks (9 ∷ codes "add" ++ 13 ∷ codes " 5" ++ 9 ∷ []) ≡ codes "add" ∷ codes "5" ∷ [] }
    ensures number { number_of (codes "18446744073709551615") ≡ Some 18446744073709551615 }
    ensures too_large { number_of (codes "18446744073709551616") ≡ None }
    ensures zero { number_of (codes "0") ≡ Some 0 }
    ensures leading { number_of (codes "007") ≡ None }
{}

/// Ignored lines, and bytes that no line may have.
#[tactic(auto, unfolding(crate::specs::OnLiterals::texts_on_literals))]
pub fn lines()
    ensures spaces { output (text (codes "  lottery  1  " ∷ codes "   " ∷ codes " # any" ∷ (35 ∷ 9 ∷ 200 ∷ []) ∷ []))
        ≡ empty_report }
    ensures tab { output (text ((9 ∷ []) ∷ [])) ≡ refused_on_line (codes "1 51 BadLine") }
    ensures carriage { output (text ((codes "lottery 1" ++ 13 ∷ []) ∷ [])) ≡ refused_on_line (codes "1 51 BadLine") }
    ensures one_empty { output (10 ∷ []) ≡ refused_on_line (codes "1 50 BadHeader") }
    ensures two_empty { output (10 ∷ 10 ∷ []) ≡ refused_on_line (codes "2 50 BadHeader") }
    ensures comment { output (text (second_line (codes "mktkt 1 base # x"))) ≡ refused_on_line (codes "2 51 BadLine") }
    ensures earlier { output (text (codes "lottery 1" ∷ codes "script s" ∷ codes "yield" ∷ codes "port p" ∷ []))
        ≡ refused_on_line (codes "4 51 BadLine") }
{}

/// From its first line on, a timed input may have a tab or a carriage return in place of a space. Other inputs may not.
#[tactic(auto, unfolding(crate::specs::OnLiterals::texts_on_literals))]
pub fn blanks()
    ensures same { program_in (text ((codes "lottery 3" ++ 13 ∷ []) ∷ (codes "for" ++ 13 ∷ codes "9" ++ 13 ∷ [])
        ∷ (9 ∷ []) ∷ (13 ∷ []) ∷ codes "script s" ∷ (9 ∷ codes "compute" ++ 9 ∷ codes "5" ++ 13 ∷ [])
        ∷ (9 ∷ codes "# any") ∷ codes "endscript" ∷ []))
        ≡ program_in (text (codes "lottery 3" ∷ codes "for 9" ∷ codes "script s" ∷ codes "compute 5"
        ∷ codes "endscript" ∷ [])) }
    ensures earlier { output (text ((13 ∷ []) ∷ codes "lottery 3" ∷ codes "for 9" ∷ []))
        ≡ refused_on_line (codes "1 51 BadLine") }
    ensures eleven { output (text (codes "lottery 3" ∷ (codes "for 9" ++ 11 ∷ []) ∷ []))
        ≡ refused_on_line (codes "2 51 BadLine") }
    ensures first { output (text (second_line (codes "port p" ++ 9 ∷ []))) ≡ refused_on_line (codes "2 51 BadLine") }
    ensures second { output (text ((codes "lottery 2" ++ 9 ∷ []) ∷ [])) ≡ refused_on_line (codes "1 51 BadLine") }
{}

/// The header's order in an input that isn't timed.
#[tactic(auto, unfolding(crate::specs::OnLiterals::texts_on_literals))]
pub fn header()
    ensures leading { output (codes "lottery 01") ≡ refused_on_line (codes "1 50 BadHeader") }
    ensures more { output (codes "lottery 1 1") ≡ refused_on_line (codes "1 50 BadHeader") }
    ensures alone { output (codes "lottery") ≡ refused_on_line (codes "1 50 BadHeader") }
    ensures other { output (codes "quantum 5") ≡ refused_on_line (codes "1 50 BadHeader") }
    ensures again { output (text (second_line (codes "lottery 1"))) ≡ refused_on_line (codes "2 50 BadHeader") }
    ensures repeated { output (text (codes "lottery 1" ∷ codes "quantum 5" ∷ codes "quantum x y" ∷ []))
        ≡ refused_on_line (codes "3 50 BadHeader") }
    ensures inside { output (text (script_of (codes "quantum 5" ∷ []))) ≡ refused_on_line (codes "3 51 BadLine") }
    ensures following { output (text (script_of [] ++ codes "turns 5" ∷ []))
        ≡ refused_on_line (codes "4 50 BadHeader") }
    ensures wrong { output (text (second_line (codes "quantum 1001"))) ≡ refused_on_line (codes "2 52 BadNumber") }
    ensures seeds { output (text (codes "lottery 1" ∷ codes "processors 2" ∷ codes "seed x" ∷ []))
        ≡ refused_on_line (codes "3 51 BadLine") }
    ensures seed { output (text (codes "lottery 1" ∷ codes "processors 2" ∷ codes "seed 1 2147483647" ∷ []))
        ≡ refused_on_line (codes "3 52 BadNumber") }
{}

/// The header of a timed input: its lines come in any order, each once and before the body, and only `processors` must
/// come before `seed`. In other inputs the order is fixed.
#[tactic(auto, unfolding(crate::specs::OnLiterals::texts_on_literals))]
pub fn timed_header()
    ensures same { program_in (text (codes "lottery 3" ∷ codes "for 9" ∷ codes "reuse" ∷ codes "turns 5"
        ∷ codes "limits 4 3 2" ∷ codes "processors 2" ∷ codes "seed 7 8" ∷ codes "quantum 50" ∷ codes "port p" ∷ []))
        ≡ program_in (text (codes "lottery 3" ∷ codes "processors 2" ∷ codes "quantum 50" ∷ codes "turns 5"
        ∷ codes "for 9" ∷ codes "seed 7 8" ∷ codes "limits 4 3 2" ∷ codes "reuse" ∷ codes "port p" ∷ [])) }
    ensures repeated { output (text (codes "lottery 3" ∷ codes "for 5" ∷ codes "quantum 5" ∷ codes "for x y" ∷ []))
        ≡ refused_on_line (codes "4 50 BadHeader") }
    ensures again { output (text (codes "lottery 3" ∷ codes "for 5" ∷ codes "lottery 3" ∷ []))
        ≡ refused_on_line (codes "3 50 BadHeader") }
    ensures seeds { output (text (codes "lottery 3" ∷ codes "for 5" ∷ codes "seed 1" ∷ codes "processors 1" ∷ []))
        ≡ refused_on_line (codes "4 50 BadHeader") }
    ensures seed_count { output (text (codes "lottery 3" ∷ codes "for 5" ∷ codes "seed 1 2" ∷ []))
        ≡ refused_on_line (codes "3 51 BadLine") }
    ensures following { output (text (codes "lottery 3" ∷ codes "for 5" ∷ codes "port p" ∷ codes "quantum 5" ∷ []))
        ≡ refused_on_line (codes "4 50 BadHeader") }
    ensures lacks { output (text (codes "lottery 3" ∷ codes "reuse" ∷ codes "quantum 5" ∷ codes "port p" ∷ []))
        ≡ refused_on_line (codes "4 50 BadHeader") }
    ensures second { output (text (codes "lottery 2" ∷ codes "turns 5" ∷ codes "quantum 5" ∷ []))
        ≡ refused_on_line (codes "3 50 BadHeader") }
{}

/// The words after `without`: neither, one or both, in any order.
#[tactic(auto, unfolding(crate::specs::OnLiterals::texts_on_literals))]
pub fn without()
    ensures neither { is_without (text (codes "lottery 3" ∷ codes "for 9" ∷ [])) ≡ Ok (false, false) }
    ensures compensation { is_without (text (codes "lottery 3" ∷ codes "without compensation" ∷ codes "for 9" ∷ []))
        ≡ Ok (true, false) }
    ensures lending { is_without (text (codes "lottery 3" ∷ codes "for 9" ∷ codes "without lending" ∷ []))
        ≡ Ok (false, true) }
    ensures both { is_without (text (codes "lottery 3" ∷ codes "without lending" ∷ codes "for 9"
        ∷ codes "without compensation" ∷ [])) ≡ Ok (true, true) }
{}

/// The parser reads tokens from left to right.
#[tactic(auto, unfolding(crate::specs::OnLiterals::texts_on_literals))]
pub fn tokens()
    ensures no_actor { output (text (second_line (codes "schedule"))) ≡ refused_on_line (codes "2 51 BadLine") }
    ensures listing { output (text (second_line (codes "lstkt 1"))) ≡ refused_on_line (codes "2 51 BadLine") }
    ensures number { output (text (second_line (codes "schedule 007 99"))) ≡ refused_on_line (codes "2 52 BadNumber") }
    ensures actor { output (text (second_line (codes "schedule 99 007"))) ≡ refused_on_line (codes "2 57 BadActor") }
    ensures above { output (text (second_line (codes "schedule 18446744073709551616")))
        ≡ refused_on_line (codes "2 52 BadNumber") }
    ensures greatest { output (text (second_line (codes "schedule 18446744073709551615")))
        ≡ refused_on_line (codes "2 57 BadActor") }
    ensures long_name { output (text (second_line (codes "mkcur abcdefghijklmnopq")))
        ≡ refused_on_line (codes "2 56 TooLong") }
    ensures long_word { output (text (second_line (codes "abcdefghijklmnopq 1")))
        ≡ refused_on_line (codes "2 51 BadLine") }
    ensures long_port { output (text (second_line (codes "port ABCDEFGHIJKLMNOPQ")))
        ≡ refused_on_line (codes "2 56 TooLong") }
    ensures long_call { output (text (script_of (codes "call abcdefghijklmnopq" ∷ [])))
        ≡ refused_on_line (codes "3 56 TooLong") }
    ensures bad_port { output (text (second_line (codes "port P"))) ≡ refused_on_line (codes "2 51 BadLine") }
    ensures same_port { output (text (codes "lottery 1" ∷ codes "port p" ∷ codes "mutex p" ∷ codes "port p" ∷ []))
        ≡ refused_on_line (codes "4 51 BadLine") }
{}

/// Scripts.
#[tactic(auto, unfolding(crate::specs::OnLiterals::texts_on_literals))]
pub fn scripts()
    ensures empty { output (text (script_of [])) ≡ empty_report }
    ensures empty_loop { output (text (script_of (codes "loop 3" ∷ codes "end" ∷ []))) ≡ empty_report }
    ensures no_loop { output (text (script_of (codes "end" ∷ []))) ≡ refused_on_line (codes "3 51 BadLine") }
    ensures open_loop { output (text (script_of (codes "loop 3" ∷ []))) ≡ refused_on_line (codes "4 51 BadLine") }
    ensures within { output (text (script_of (codes "script t" ∷ []))) ≡ refused_on_line (codes "3 51 BadLine") }
    ensures outside { output (text (second_line (codes "yield"))) ≡ refused_on_line (codes "2 51 BadLine") }
    ensures no_ticks { output (text (script_of (codes "compute 0" ∷ []))) ≡ refused_on_line (codes "3 52 BadNumber") }
    ensures eight { output (text (script_of (replicate 8 (codes "loop 1") ++ replicate 8 (codes "end"))))
        ≡ empty_report }
    ensures later { output (text (codes "lottery 1" ∷ codes "mkthr a s" ∷ codes "script s" ∷ codes "endscript"
        ∷ codes "schedule 0" ∷ []))
        ≡ text (codes "0 refused 14 NoScript" ∷ codes "report" ∷ codes "processor 1 quanta 0 idle 0 ticks 0"
        ∷ codes "total turns 1 quanta 0 ticks 0" ∷ []) }
{}
