//! Worked rows for small inputs and their explanations, worked out by hand from the rules.
ghost use Rattle.std.specs.Prelude.{◌≡◌, [], ◌∷◌, codes};
ghost use Rattle.lot_simulation.specs.Samples.{text, refused_on_line};
ghost use Rattle.lot_explain.specs.declared.detail.Detail.TheVariants.{Funding, Lots};
ghost use Rattle.lot_explain.specs.Explained.{explained_output};

/// Two threads that compute, with shares of 2 to 1.
#[tactic(auto, unfolding(lot_simulation::specs::OnLiterals::texts_on_literals))]
pub fn two_spinners()
    ensures { explained_output Lots (text (codes "lottery 1" ∷ codes "script spin" ∷ codes "compute 1000"
        ∷ codes "endscript" ∷ codes "fundx 10 base a spin" ∷ codes "fundx 5 base b spin"
        ∷ codes "schedule 0 0 1 1 1 1 1" ∷ []))
        ≡ text (codes "0 funded 1 1" ∷ codes "0 funded 2 2" ∷ codes "1 lot thread 1 a weight 10 from 0 below 10 wins"
        ∷ codes "1 lot thread 2 b weight 5 from 10 below 15" ∷ codes "1 draw 9 of 15 thread 1"
        ∷ codes "1 thread 1 ticks 100 expire" ∷ codes "1 lot thread 1 a weight 10 from 0 below 10 wins"
        ∷ codes "1 lot thread 2 b weight 5 from 10 below 15" ∷ codes "1 draw 4 of 15 thread 1"
        ∷ codes "1 thread 1 ticks 100 expire" ∷ codes "1 lot thread 1 a weight 10 from 0 below 10"
        ∷ codes "1 lot thread 2 b weight 5 from 10 below 15 wins" ∷ codes "1 draw 10 of 15 thread 2" ∷ codes "report"
        ∷ codes "thread 1 a quanta 2 ticks 200" ∷ codes "thread 2 b quanta 1 ticks 0"
        ∷ codes "processor 1 quanta 3 idle 0 ticks 200" ∷ codes "total turns 7 quanta 3 ticks 200" ∷ []) }
{}

/// A thread that used a third of its quantum weighs three times its value (4.5). Weights are printed as in listings,
/// and numbers as in draws.
#[tactic(auto, unfolding(lot_simulation::specs::OnLiterals::texts_on_literals))]
pub fn compensated()
    ensures { explained_output Lots (text (codes "lottery 2" ∷ codes "quantum 9" ∷ codes "seed 3" ∷ codes "script short"
        ∷ codes "compute 2" ∷ codes "yield" ∷ codes "endscript" ∷ codes "script long" ∷ codes "compute 9"
        ∷ codes "endscript" ∷ codes "fundx 1 base a short" ∷ codes "fundx 1 base b long"
        ∷ codes "schedule 0 0 1 1 1" ∷ []))
        ≡ text (codes "0 funded 1 1" ∷ codes "0 funded 2 2" ∷ codes "1 lot thread 1 a weight 1 from 0 below 256 wins"
        ∷ codes "1 lot thread 2 b weight 1 from 256 below 512" ∷ codes "1 draw 234 of 512 thread 1"
        ∷ codes "1 thread 1 ticks 3 yield" ∷ codes "1 lot thread 1 a weight 3 from 0 below 768"
        ∷ codes "1 lot thread 2 b weight 1 from 768 below 1024 wins" ∷ codes "1 draw 870 of 1024 thread 2"
        ∷ codes "report" ∷ codes "thread 1 a quanta 1 ticks 3" ∷ codes "thread 2 b quanta 1 ticks 0"
        ∷ codes "processor 1 quanta 2 idle 0 ticks 3" ∷ codes "total turns 5 quanta 2 ticks 3" ∷ []) }
{}

/// An unlock that passes its mutex on by a lottery between two waiters (6.1). Its owner also has their lends.
#[tactic(auto, unfolding(lot_simulation::specs::OnLiterals::texts_on_literals))]
pub fn mutex_lottery()
    ensures { explained_output Lots (text (codes "lottery 1" ∷ codes "quantum 10" ∷ codes "seed 132" ∷ codes "mutex m"
        ∷ codes "script one" ∷ codes "lock m" ∷ codes "compute 2" ∷ codes "yield" ∷ codes "unlock m"
        ∷ codes "endscript" ∷ codes "fundx 3 base a one" ∷ codes "fundx 2 base b one" ∷ codes "fundx 1 base c one"
        ∷ codes "schedule 0 0 0 1 1 1 1 1 1 1 1 1" ∷ []))
        ≡ text (codes "0 funded 1 1" ∷ codes "0 funded 2 2" ∷ codes "0 funded 3 3"
        ∷ codes "1 lot thread 1 a weight 3 from 0 below 3 wins" ∷ codes "1 lot thread 2 b weight 2 from 3 below 5"
        ∷ codes "1 lot thread 3 c weight 1 from 5 below 6" ∷ codes "1 draw 0 of 6 thread 1"
        ∷ codes "1 thread 1 ticks 1 lock 1 taken" ∷ codes "1 thread 1 ticks 3 yield"
        ∷ codes "1 lot thread 1 a weight 7 from 0 below 7" ∷ codes "1 lot thread 2 b weight 2 from 7 below 9 wins"
        ∷ codes "1 lot thread 3 c weight 1 from 9 below 10" ∷ codes "1 draw 7 of 10 thread 2"
        ∷ codes "1 thread 2 ticks 1 lock 1 waits" ∷ codes "1 lot thread 1 a weight 12 from 0 below 12"
        ∷ codes "1 lot thread 3 c weight 1 from 12 below 13 wins" ∷ codes "1 draw 12 of 13 thread 3"
        ∷ codes "1 thread 3 ticks 1 lock 1 waits" ∷ codes "1 lot thread 1 a weight 15 from 0 below 15 wins"
        ∷ codes "1 draw 12 of 15 thread 1" ∷ codes "1 lot waiter 2 b value 2 from 0 below 2"
        ∷ codes "1 lot waiter 3 c value 1 from 2 below 3 wins" ∷ codes "1 thread 1 ticks 1 unlock 1 to 3 draw 2 of 3"
        ∷ codes "report" ∷ codes "thread 1 a quanta 2 ticks 5" ∷ codes "thread 2 b quanta 1 ticks 1"
        ∷ codes "thread 3 c quanta 1 ticks 1" ∷ codes "processor 1 quanta 4 idle 0 ticks 7"
        ∷ codes "total turns 12 quanta 4 ticks 7" ∷ []) }
{}

/// A draw without a winner has no lots, and neither has a turn without a command.
#[tactic(auto, unfolding(lot_simulation::specs::OnLiterals::texts_on_literals))]
pub fn nobody_wins()
    ensures { explained_output Lots (text (codes "lottery 1" ∷ codes "schedule 1 0" ∷ []))
        ≡ text (codes "1 idle" ∷ codes "0 refused 41 Ended" ∷ codes "report"
        ∷ codes "processor 1 quanta 0 idle 1 ticks 0" ∷ codes "total turns 1 quanta 0 ticks 0" ∷ []) }
{}

/// A refused input has the one line that `play` writes.
#[tactic(auto, unfolding(lot_simulation::specs::OnLiterals::texts_on_literals))]
pub fn refused_inputs()
    ensures header { explained_output Lots (text (codes "lottery 4" ∷ [])) ≡ refused_on_line (codes "1 50 BadHeader") }
    ensures line { explained_output Lots (text (codes "lottery 1" ∷ codes "nonsense" ∷ []))
        ≡ refused_on_line (codes "2 51 BadLine") }
{}

/// A timed input: each line begins with its time, numbers have digits after the point, and a compensated thread's line
/// gives the reason for its weight (4.5).
#[tactic(auto, unfolding(lot_simulation::specs::OnLiterals::texts_on_literals, lot_simulation::specs::Timed::timed_room))]
pub fn in_time()
    ensures { explained_output Lots (text (codes "lottery 3" ∷ codes "quantum 9" ∷ codes "for 12" ∷ codes "seed 5"
        ∷ codes "script short" ∷ codes "compute 2" ∷ codes "yield" ∷ codes "endscript" ∷ codes "script long"
        ∷ codes "compute 9" ∷ codes "endscript" ∷ codes "fundx 1 base a short" ∷ codes "fundx 1 base b long" ∷ []))
        ≡ text (codes "0 0 funded 1 1" ∷ codes "0 0 funded 2 2" ∷ codes "0 1 lot thread 1 a weight 1 from 0 below 1"
        ∷ codes "0 1 lot thread 2 b weight 1 from 1 below 2 wins" ∷ codes "0 1 draw 1.082 of 2 thread 2"
        ∷ codes "9 1 thread 2 ticks 9 expire" ∷ codes "9 1 lot thread 1 a weight 1 from 0 below 1 wins"
        ∷ codes "9 1 lot thread 2 b weight 1 from 1 below 2" ∷ codes "9 1 draw 0.82 of 2 thread 1"
        ∷ codes "12 1 thread 1 ticks 3 yield" ∷ codes "12 1 lot thread 1 a weight 3 = value 1 x 9 / 3 from 0 below 3"
        ∷ codes "12 1 lot thread 2 b weight 1 from 3 below 4 wins" ∷ codes "12 1 draw 3.257 of 4 thread 2"
        ∷ codes "report"
        ∷ codes "thread 1 a quanta 1 ticks 3 share 25% due 50% value 50% ready waits 1 mean 9 longest 9"
        ∷ codes "thread 2 b quanta 2 ticks 9 share 75% due 50% value 50% ready waits 2 mean 1.5 longest 3"
        ∷ codes "processor 1 quanta 3 idle 0 ticks 12 unused 0"
        ∷ codes "total turns 7 quanta 3 ticks 12 refused 0 left 0" ∷ []) }
{}

/// Three threads that share 100 of base: values are truncated after the third digit (4.4).
#[tactic(auto, unfolding(lot_simulation::specs::OnLiterals::texts_on_literals, lot_simulation::specs::Timed::timed_room))]
pub fn behind_the_point()
    ensures { explained_output Lots (text (codes "lottery 3" ∷ codes "for 1" ∷ codes "script s" ∷ codes "compute 5"
        ∷ codes "endscript" ∷ codes "mkcur g" ∷ codes "mktkt 100 base" ∷ codes "fund 1 g" ∷ codes "fundx 1 g a s"
        ∷ codes "fundx 1 g b s" ∷ codes "fundx 1 g c s" ∷ []))
        ≡ text (codes "0 0 currency 1" ∷ codes "0 0 ticket 1" ∷ codes "0 0 done" ∷ codes "0 0 funded 2 1"
        ∷ codes "0 0 funded 3 2" ∷ codes "0 0 funded 4 3"
        ∷ codes "0 1 lot thread 1 a weight 33.332 from 0 below 33.332 wins"
        ∷ codes "0 1 lot thread 2 b weight 33.332 from 33.332 below 66.664"
        ∷ codes "0 1 lot thread 3 c weight 33.332 from 66.664 below 99.996"
        ∷ codes "0 1 draw 5.503 of 99.996 thread 1" ∷ codes "report"
        ∷ codes "thread 1 a quanta 1 ticks 0 share 0% due 0% value 33.333% ready waits 1 mean 0 longest 0"
        ∷ codes "thread 2 b quanta 0 ticks 0 share 0% due 0% value 33.333%"
        ∷ codes "thread 3 c quanta 0 ticks 0 share 0% due 0% value 33.333%"
        ∷ codes "currency 1 g ticks 0 share 0% due 0%" ∷ codes "processor 1 quanta 1 idle 0 ticks 0 unused 0"
        ∷ codes "total turns 7 quanta 1 ticks 0 refused 0 left 0" ∷ []) }
{}

/// A served client lends its value to its server (4.6). The loan also raises a compensated server's weight.
#[tactic(auto, unfolding(lot_simulation::specs::OnLiterals::texts_on_literals, lot_simulation::specs::Timed::timed_room))]
pub fn serving()
    ensures { explained_output Lots (text (codes "lottery 3" ∷ codes "quantum 9" ∷ codes "for 3" ∷ codes "seed 4"
        ∷ codes "port p" ∷ codes "script serve" ∷ codes "receive p" ∷ codes "compute 4" ∷ codes "reply"
        ∷ codes "endscript" ∷ codes "script ask" ∷ codes "compute 1" ∷ codes "call p" ∷ codes "endscript"
        ∷ codes "fundx 1 base s serve" ∷ codes "fundx 3 base c ask" ∷ []))
        ≡ text (codes "0 0 funded 1 1" ∷ codes "0 0 funded 2 2"
        ∷ codes "0 1 lot thread 1 s weight 1 from 0 below 1 wins" ∷ codes "0 1 lot thread 2 c weight 3 from 1 below 4"
        ∷ codes "0 1 draw 0.062 of 4 thread 1" ∷ codes "1 1 thread 1 ticks 1 receive 1 waits"
        ∷ codes "1 1 lot thread 2 c weight 3 from 0 below 3 wins" ∷ codes "1 1 draw 2.433 of 3 thread 2"
        ∷ codes "3 1 thread 2 ticks 2 call 1 served by 1"
        ∷ codes "3 1 lot thread 1 s weight 36 = value 4 x 9 / 1 from 0 below 36 wins"
        ∷ codes "3 1 lent thread 2 c value 3 to thread 1" ∷ codes "3 1 draw 33.019 of 36 thread 1 got 0"
        ∷ codes "report"
        ∷ codes "thread 1 s quanta 2 ticks 1 share 33.333% due 8.333% value 100% ready waits 2 mean 0 longest 0"
        ∷ codes "thread 2 c quanta 1 ticks 2 share 66.666% due 91.666% value 0% ready waits 1 mean 1 longest 1"
        ∷ codes "processor 1 quanta 3 idle 0 ticks 3 unused 0"
        ∷ codes "total turns 7 quanta 3 ticks 3 refused 0 left 0" ∷ []) }
{}

/// A thread that waits for a mutex lends its value to the owner (6.1).
#[tactic(auto, unfolding(lot_simulation::specs::OnLiterals::texts_on_literals, lot_simulation::specs::Timed::timed_room))]
pub fn waiting()
    ensures { explained_output Lots (text (codes "lottery 3" ∷ codes "quantum 9" ∷ codes "for 4" ∷ codes "seed 3"
        ∷ codes "mutex m" ∷ codes "script hold" ∷ codes "lock m" ∷ codes "compute 1" ∷ codes "yield"
        ∷ codes "endscript" ∷ codes "fundx 3 base a hold" ∷ codes "fundx 2 base b hold" ∷ []))
        ≡ text (codes "0 0 funded 1 1" ∷ codes "0 0 funded 2 2"
        ∷ codes "0 1 lot thread 1 a weight 3 from 0 below 3 wins" ∷ codes "0 1 lot thread 2 b weight 2 from 3 below 5"
        ∷ codes "0 1 draw 2.054 of 5 thread 1" ∷ codes "1 1 thread 1 ticks 1 lock 1 taken"
        ∷ codes "3 1 thread 1 ticks 2 yield" ∷ codes "3 1 lot thread 1 a weight 9 = value 3 x 9 / 3 from 0 below 9"
        ∷ codes "3 1 lot thread 2 b weight 2 from 9 below 11 wins" ∷ codes "3 1 draw 9.097 of 11 thread 2"
        ∷ codes "4 1 thread 2 ticks 1 lock 1 waits"
        ∷ codes "4 1 lot thread 1 a weight 15 = value 5 x 9 / 3 from 0 below 15 wins"
        ∷ codes "4 1 lent thread 2 b value 2 to thread 1" ∷ codes "4 1 draw 14.746 of 15 thread 1" ∷ codes "report"
        ∷ codes "thread 1 a quanta 2 ticks 3 share 75% due 60% value 100% ready waits 2 mean 0.5 longest 1"
        ∷ codes "thread 2 b quanta 1 ticks 1 share 25% due 40% value 0% ready waits 1 mean 3 longest 3"
        ∷ codes "processor 1 quanta 3 idle 0 ticks 4 unused 0"
        ∷ codes "total turns 8 quanta 3 ticks 4 refused 0 left 0" ∷ []) }
{}

/// The funding: two threads share a currency's value as 3 to 1 (4.4). The currency's third ticket funds nothing, so it
/// isn't active. A thread that waits for a mutex is funded too, and lends its value.
#[tactic(auto, unfolding(lot_simulation::specs::OnLiterals::texts_on_literals, lot_simulation::specs::Timed::timed_room))]
pub fn funded()
    ensures { explained_output Funding (text (codes "lottery 3" ∷ codes "quantum 9" ∷ codes "for 4" ∷ codes "seed 2"
        ∷ codes "mutex m" ∷ codes "script hold" ∷ codes "lock m" ∷ codes "compute 1" ∷ codes "yield"
        ∷ codes "endscript" ∷ codes "mkcur g" ∷ codes "mktkt 3 base" ∷ codes "fund 1 g" ∷ codes "fundx 3 g a hold"
        ∷ codes "fundx 1 g b hold" ∷ codes "mktkt 5 g" ∷ []))
        ≡ text (codes "0 0 currency 1" ∷ codes "0 0 ticket 1" ∷ codes "0 0 done" ∷ codes "0 0 funded 2 1"
        ∷ codes "0 0 funded 3 2" ∷ codes "0 0 ticket 4"
        ∷ codes "0 1 funds currency 1 g ticket 1 amount 3 of base value 3"
        ∷ codes "0 1 funds thread 1 a ticket 2 amount 3 of g value 2.25"
        ∷ codes "0 1 funds thread 2 b ticket 3 amount 1 of g value 0.75"
        ∷ codes "0 1 currency 0 base value 3 active 3" ∷ codes "0 1 currency 1 g value 3 active 4"
        ∷ codes "0 1 lot thread 1 a weight 2.25 from 0 below 2.25 wins"
        ∷ codes "0 1 lot thread 2 b weight 0.75 from 2.25 below 3" ∷ codes "0 1 draw 1.042 of 3 thread 1"
        ∷ codes "1 1 thread 1 ticks 1 lock 1 taken" ∷ codes "3 1 thread 1 ticks 2 yield"
        ∷ codes "3 1 funds currency 1 g ticket 1 amount 3 of base value 3"
        ∷ codes "3 1 funds thread 1 a ticket 2 amount 3 of g value 2.25"
        ∷ codes "3 1 funds thread 2 b ticket 3 amount 1 of g value 0.75"
        ∷ codes "3 1 currency 0 base value 3 active 3" ∷ codes "3 1 currency 1 g value 3 active 4"
        ∷ codes "3 1 lot thread 1 a weight 6.75 = value 2.25 x 9 / 3 from 0 below 6.75"
        ∷ codes "3 1 lot thread 2 b weight 0.75 from 6.75 below 7.5 wins" ∷ codes "3 1 draw 7.226 of 7.5 thread 2"
        ∷ codes "4 1 thread 2 ticks 1 lock 1 waits" ∷ codes "4 1 funds currency 1 g ticket 1 amount 3 of base value 3"
        ∷ codes "4 1 funds thread 1 a ticket 2 amount 3 of g value 2.25"
        ∷ codes "4 1 funds thread 2 b ticket 3 amount 1 of g value 0.75"
        ∷ codes "4 1 currency 0 base value 3 active 3" ∷ codes "4 1 currency 1 g value 3 active 4"
        ∷ codes "4 1 lot thread 1 a weight 9 = value 3 x 9 / 3 from 0 below 9 wins"
        ∷ codes "4 1 lent thread 2 b value 0.75 to thread 1" ∷ codes "4 1 draw 2.515 of 9 thread 1" ∷ codes "report"
        ∷ codes "thread 1 a quanta 2 ticks 3 share 75% due 75% value 100% ready waits 2 mean 0.5 longest 1"
        ∷ codes "thread 2 b quanta 1 ticks 1 share 25% due 25% value 0% ready waits 1 mean 3 longest 3"
        ∷ codes "currency 1 g ticks 4 share 100% due 100%" ∷ codes "processor 1 quanta 3 idle 0 ticks 4 unused 0"
        ∷ codes "total turns 12 quanta 3 ticks 4 refused 0 left 0" ∷ []) }
{}
