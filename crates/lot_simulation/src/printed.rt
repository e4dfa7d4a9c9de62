//! Small inputs, and the output for them.
ghost use Rattle.std.specs.Prelude.{◌≡◌, [], ◌∷◌, ◌++◌, codes, replicate};
ghost use Rattle.lot_simulation.specs.Output.{output, run_output};
ghost use Rattle.lot_simulation.specs.Report.{schedule_lines, runs_lines};
ghost use Rattle.lot_simulation.specs.Samples.{text, first_run_input, first_run_output, call_input, call_output};
ghost use Rattle.lot_simulation.specs.Samples.{two_processors_input, two_processors_output, empty_report, graph_input};
ghost use Rattle.lot_simulation.specs.Samples.{graph_output, refused_commands_input, refused_commands_output};
ghost use Rattle.lot_simulation.specs.Samples.{loop_input, short_loop_output, long_loop_output, idle_run_output};
ghost use Rattle.lot_simulation.specs.Samples.{refused_on_line, fine_input, fine_output, fine_thirds_input};
ghost use Rattle.lot_simulation.specs.Samples.{fine_thirds_output, comment, server_opened};

/// A first run.
#[tactic(auto, unfolding(crate::specs::OnLiterals::texts_on_literals))]
pub fn first_run()
    ensures { output first_run_input ≡ first_run_output }
{}

/// A call and its reply (4.6).
#[tactic(auto, unfolding(crate::specs::OnLiterals::texts_on_literals))]
pub fn call_and_reply()
    ensures { output call_input ≡ call_output }
{}

/// Two processors, one thread, and one turn of the console too many.
#[tactic(auto, unfolding(crate::specs::OnLiterals::texts_on_literals))]
pub fn two_processors()
    ensures { output two_processors_input ≡ two_processors_output }
{}

/// Nothing to do, with and without a byte 10 at the end.
#[tactic(auto, unfolding(crate::specs::OnLiterals::texts_on_literals))]
pub fn nothing_to_do()
    ensures ended { output (text (codes "lottery 1" ∷ [])) ≡ empty_report }
    ensures open { output (codes "lottery 1") ≡ empty_report }
{}

/// The currency graph, with its listings (4.4, 4.7).
#[tactic(auto, unfolding(crate::specs::OnLiterals::texts_on_literals))]
pub fn currency_graph()
    ensures { output graph_input ≡ graph_output }
{}

/// Refused commands are turns.
#[tactic(auto, unfolding(crate::specs::OnLiterals::texts_on_literals))]
pub fn refused_commands()
    ensures { output refused_commands_input ≡ refused_commands_output }
{}

/// A loop that ends with the quantum, and one that ends before it.
#[tactic(auto, unfolding(crate::specs::OnLiterals::texts_on_literals))]
pub fn loops()
    ensures short { output (loop_input (codes "quantum 9")) ≡ short_loop_output }
    ensures long { output (loop_input (codes "quantum 10")) ≡ long_loop_output }
{}

/// The output of a free run.
#[tactic(auto, unfolding(crate::specs::OnLiterals::texts_on_literals))]
pub fn free_runs()
    ensures idle { run_output (text (codes "lottery 1" ∷ codes "turns 3" ∷ [])) (1 ∷ 1 ∷ 1 ∷ []) ≡ idle_run_output }
    ensures none { run_output (text (codes "lottery 1" ∷ codes "turns 0" ∷ [])) [] ≡ empty_report }
    ensures whole_line { schedule_lines (replicate 64 1)
        ≡ text ((codes "schedule" ++ (replicate 0 0
        ++ codes " 1 1 1 1 1 1 1 1 1 1 1 1 1 1 1 1 1 1 1 1 1 1 1 1 1 1 1 1 1 1 1 1"
        ++ codes " 1 1 1 1 1 1 1 1 1 1 1 1 1 1 1 1 1 1 1 1 1 1 1 1 1 1 1 1 1 1 1 1")) ∷ []) }
    ensures runs { runs_lines (0 ∷ 0 ∷ 1 ∷ 0 ∷ []) ≡ text (codes "runs 0 2 1 1 0 1" ∷ []) }
    ensures no_runs { runs_lines [] ≡ [] }
{}

/// Refused inputs.
#[tactic(auto, unfolding(crate::specs::OnLiterals::texts_on_literals))]
pub fn refused_inputs()
    ensures empty { output [] ≡ refused_on_line (codes "1 50 BadHeader") }
    ensures open { output (text (codes "lottery 1" ∷ codes "script s" ∷ codes "compute 5" ∷ []))
        ≡ refused_on_line (codes "2 54 OpenScript") }
    ensures deep { output (text (codes "lottery 1" ∷ codes "script s" ∷ replicate 9 (codes "loop 1")))
        ≡ refused_on_line (codes "11 55 TooDeep") }
    ensures actor { output (text (codes "lottery 1" ∷ codes "schedule 0 2" ∷ []))
        ≡ refused_on_line (codes "2 57 BadActor") }
    ensures cut { output (text (server_opened ++ codes "receive p" ∷ [])) ≡ refused_on_line (codes "4 54 OpenScript") }
    ensures cut_word { output (text (server_opened ++ []) ++ codes "recei") ≡ refused_on_line (codes "5 51 BadLine") }
    ensures cut_line { output (text (server_opened ++ []) ++ codes "receive") ≡ refused_on_line (codes "5 51 BadLine") }
    ensures number { output (text (codes "lottery 1" ∷ codes "mktkt 007 base" ∷ []))
        ≡ refused_on_line (codes "2 52 BadNumber") }
    ensures order { output (text (codes "lottery 1" ∷ codes "quantum 10" ∷ codes "processors 2" ∷ []))
        ≡ refused_on_line (codes "3 50 BadHeader") }
    ensures body { output (text (codes "lottery 1" ∷ codes "schedule 0" ∷ codes "seed 1" ∷ []))
        ≡ refused_on_line (codes "3 50 BadHeader") }
    ensures seeds { output (text (codes "lottery 1" ∷ codes "seed 1 2" ∷ [])) ≡ refused_on_line (codes "2 51 BadLine") }
    ensures unknown { output (text (codes "lottery 1" ∷ codes "script s" ∷ codes "call q" ∷ []))
        ≡ refused_on_line (codes "3 53 UnknownName") }
    ensures version { output (text (codes "lottery 4" ∷ [])) ≡ refused_on_line (codes "1 50 BadHeader") }
    ensures long { output (text (codes "lottery 1" ∷ comment 4096 ∷ [])) ≡ refused_on_line (codes "2 56 TooLong") }
    ensures fits { output (text (codes "lottery 1" ∷ comment 4095 ∷ [])) ≡ empty_report }
{}

/// Lines of runs, which only an input with unit 256 may have.
#[tactic(auto, unfolding(crate::specs::OnLiterals::texts_on_literals))]
pub fn refused_runs()
    ensures odd { output (text (codes "lottery 2" ∷ codes "runs 0" ∷ [])) ≡ refused_on_line (codes "2 51 BadLine") }
    ensures nothing { output (text (codes "lottery 2" ∷ codes "runs 0 0" ∷ []))
        ≡ refused_on_line (codes "2 52 BadNumber") }
    ensures actor { output (text (codes "lottery 2" ∷ codes "runs 2 1" ∷ []))
        ≡ refused_on_line (codes "2 57 BadActor") }
    ensures long { output (text (codes "lottery 2" ∷ codes "runs 0 1000000 0 1" ∷ []))
        ≡ refused_on_line (codes "2 56 TooLong") }
    ensures plain { output (text (codes "lottery 1" ∷ codes "runs 0 1" ∷ [])) ≡ refused_on_line (codes "2 51 BadLine") }
    ensures end { run_output (text (codes "lottery 2" ∷ codes "turns 3" ∷ [])) (1 ∷ 1 ∷ 1 ∷ [])
        ≡ text (codes "report" ∷ codes "processor 1 quanta 0 idle 3 ticks 0" ∷ codes "total turns 3 quanta 0 ticks 0"
        ∷ codes "runs 1 3" ∷ []) }
{}

/// Finer values: the same two threads with unit 256, by either kind of schedule line, and a listing.
#[tactic(auto, unfolding(crate::specs::OnLiterals::texts_on_literals))]
pub fn finer_values()
    ensures schedule { output (fine_input (codes "schedule 0 0 0 0 0 0 1 1")) ≡ fine_output }
    ensures runs { output (fine_input (codes "runs 0 6 1 2")) ≡ fine_output }
    ensures listing { output fine_thirds_input ≡ fine_thirds_output }
{}
