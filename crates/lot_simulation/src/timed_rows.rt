//! Worked rows for small timed inputs and their output.
ghost use Rattle.std.specs.Prelude.{◌≡◌, [], ◌∷◌, ◌++◌, codes, map};
ghost use Rattle.lot_simulation.specs.Grammar.{program_in};
ghost use Rattle.lot_simulation.specs.Output.{output};
ghost use Rattle.lot_simulation.specs.Samples.{few_turns, text, refused_on_line};
ghost use Rattle.lot_simulation.specs.Seeded.{seeds_from};
ghost use Rattle.lot_machine.specs.Lottery.{mixed_seed};

/// Nothing to do: the processor's draw is idle, and it waits until the end.
#[tactic(auto, unfolding(crate::specs::OnLiterals::texts_on_literals, crate::specs::Timed::timed_room))]
pub fn nothing_to_do()
    ensures { output (text (codes "lottery 3" ∷ codes "for 10" ∷ []))
        ≡ text (codes "0 1 idle" ∷ codes "report" ∷ codes "processor 1 quanta 0 idle 1 ticks 0 unused 10"
        ∷ codes "total turns 1 quanta 0 ticks 0 refused 0 left 0" ∷ []) }
{}

/// Two threads that compute, with shares of 2 to 1. The play still makes a turn at its end.
#[tactic(auto, unfolding(crate::specs::OnLiterals::texts_on_literals, crate::specs::Timed::timed_room))]
pub fn two_spinners()
    ensures { output (text (codes "lottery 3" ∷ codes "for 300" ∷ codes "script spin" ∷ codes "compute 1000"
        ∷ codes "endscript" ∷ codes "fundx 10 base a spin" ∷ codes "fundx 5 base b spin" ∷ []))
        ≡ text (codes "0 0 funded 1 1" ∷ codes "0 0 funded 2 2" ∷ codes "0 1 draw 12.992 of 15 thread 2"
        ∷ codes "100 1 thread 2 ticks 100 expire" ∷ codes "100 1 draw 13.281 of 15 thread 2"
        ∷ codes "200 1 thread 2 ticks 100 expire" ∷ codes "200 1 draw 13.921 of 15 thread 2"
        ∷ codes "300 1 thread 2 ticks 100 expire" ∷ codes "300 1 draw 1.363 of 15 thread 1" ∷ codes "report"
        ∷ codes "thread 1 a quanta 1 ticks 0 share 0% due 66.666% value 66.666% ready waits 1 mean 300 longest 300"
        ∷ codes "thread 2 b quanta 3 ticks 300 share 100% due 33.333% value 33.333% ready waits 3 mean 0 longest 0"
        ∷ codes "processor 1 quanta 4 idle 0 ticks 300 unused 0"
        ∷ codes "total turns 9 quanta 4 ticks 300 refused 0 left 0" ∷ []) }
{}

/// A command in the middle of a quantum, which the next draw sees. The play never makes a command after its end.
#[tactic(auto, unfolding(crate::specs::OnLiterals::texts_on_literals, crate::specs::Timed::timed_room))]
pub fn commands_in_time()
    ensures { output (text (codes "lottery 3" ∷ codes "for 250" ∷ codes "script spin" ∷ codes "compute 1000"
        ∷ codes "endscript" ∷ codes "fundx 10 base a spin" ∷ codes "at 150" ∷ codes "fundx 30 base b spin"
        ∷ codes "at 251" ∷ codes "unfund 1" ∷ []))
        ≡ text (codes "0 0 funded 1 1" ∷ codes "0 1 draw 7.992 of 10 thread 1"
        ∷ codes "100 1 thread 1 ticks 100 expire" ∷ codes "100 1 draw 3.281 of 10 thread 1" ∷ codes "150 0 funded 2 2"
        ∷ codes "200 1 thread 1 ticks 100 expire" ∷ codes "200 1 draw 23.921 of 40 thread 2" ∷ codes "report"
        ∷ codes "thread 1 a quanta 2 ticks 200 share 100% due 81.25% value 25% ready waits 2 mean 0 longest 0"
        ∷ codes "thread 2 b quanta 1 ticks 0 share 0% due 18.75% value 75% ready waits 1 mean 50 longest 50 made 150"
        ∷ codes "processor 1 quanta 3 idle 0 ticks 200 unused 0"
        ∷ codes "total turns 7 quanta 3 ticks 200 refused 0 left 1" ∷ []) }
{}

/// A command comes before an expiry at the same time.
#[tactic(auto, unfolding(crate::specs::OnLiterals::texts_on_literals, crate::specs::Timed::timed_room))]
pub fn console_first()
    ensures { output (text (codes "lottery 3" ∷ codes "for 100" ∷ codes "seed 1" ∷ codes "script spin"
        ∷ codes "compute 1000" ∷ codes "endscript" ∷ codes "fundx 10 base a spin" ∷ codes "at 100"
        ∷ codes "lsthr" ∷ []))
        ≡ text (codes "0 0 funded 1 1" ∷ codes "0 1 draw 9.035 of 10 thread 1" ∷ codes "100 0 lsthr 1"
        ∷ codes "100 thread 1 a running 1 used 0 value 10 weight 10 quanta 1 ticks 0"
        ∷ codes "100 1 thread 1 ticks 100 expire" ∷ codes "100 1 draw 1.386 of 10 thread 1" ∷ codes "report"
        ∷ codes "thread 1 a quanta 2 ticks 100 share 100% due 100% value 100% ready waits 2 mean 0 longest 0"
        ∷ codes "processor 1 quanta 2 idle 0 ticks 100 unused 0"
        ∷ codes "total turns 5 quanta 2 ticks 100 refused 0 left 0" ∷ []) }
{}

/// Two processors and one thread. After an idle draw a processor waits until another turn that is no idle draw.
#[tactic(auto, unfolding(crate::specs::OnLiterals::texts_on_literals, crate::specs::Timed::timed_room))]
pub fn one_time()
    ensures { output (text (codes "lottery 3" ∷ codes "processors 2" ∷ codes "quantum 10" ∷ codes "for 25"
        ∷ codes "script spin" ∷ codes "compute 12" ∷ codes "endscript" ∷ codes "fundx 10 base a spin" ∷ []))
        ≡ text (codes "0 0 funded 1 1" ∷ codes "0 1 draw 7.992 of 10 thread 1" ∷ codes "0 2 idle"
        ∷ codes "10 1 thread 1 ticks 10 expire" ∷ codes "10 1 draw 3.281 of 10 thread 1" ∷ codes "10 2 idle"
        ∷ codes "13 1 thread 1 ticks 3 exit" ∷ codes "13 1 idle" ∷ codes "13 2 idle" ∷ codes "report"
        ∷ (codes "thread 1 a quanta 2 ticks 13 share 100% due 100% value 0%"
        ++ codes " ready waits 2 mean 0 longest 0 made 0 ended 13")
        ∷ codes "processor 1 quanta 2 idle 1 ticks 13 unused 12"
        ∷ codes "processor 2 quanta 0 idle 3 ticks 0 unused 25"
        ∷ codes "total turns 9 quanta 2 ticks 13 refused 0 left 0 ended 1 mean 13 longest 13" ∷ []) }
{}

/// A call and its reply, and the length of the client's wait (4.6).
#[tactic(auto, unfolding(crate::specs::OnLiterals::texts_on_literals, crate::specs::Timed::timed_room))]
pub fn waits_for_replies()
    ensures { output (text (codes "lottery 3" ∷ codes "quantum 10" ∷ codes "for 40" ∷ codes "port p"
        ∷ codes "script srv" ∷ codes "receive p" ∷ codes "compute 3" ∷ codes "reply" ∷ codes "endscript"
        ∷ codes "script cli" ∷ codes "set 41" ∷ codes "call p" ∷ codes "endscript" ∷ codes "fundx 5 base s srv"
        ∷ codes "fundx 3 base c cli" ∷ []))
        ≡ text (codes "0 0 funded 1 1" ∷ codes "0 0 funded 2 2" ∷ codes "0 1 draw 5.992 of 8 thread 2"
        ∷ codes "2 1 thread 2 ticks 2 call 1 queued" ∷ codes "2 1 draw 3.281 of 5 thread 1"
        ∷ codes "3 1 thread 1 ticks 1 receive 1 client 2 got 41" ∷ codes "7 1 thread 1 ticks 4 reply client 2"
        ∷ codes "8 1 thread 1 ticks 1 exit" ∷ codes "8 1 draw 13.921 of 15 thread 2 got 41"
        ∷ codes "9 1 thread 2 ticks 1 exit" ∷ codes "9 1 idle" ∷ codes "report"
        ∷ (codes "thread 1 s quanta 1 ticks 6 share 66.666% due 76.388% value 0%"
        ++ codes " ready waits 1 mean 2 longest 2 made 0 ended 8")
        ∷ (codes "thread 2 c quanta 2 ticks 3 share 33.333% due 23.611% value 0%"
        ++ codes " ready waits 2 mean 0.5 longest 1 reply waits 1 mean 5 longest 5 made 0 ended 9")
        ∷ codes "processor 1 quanta 3 idle 1 ticks 9 unused 31"
        ∷ codes "total turns 11 quanta 3 ticks 9 refused 0 left 0 ended 2 mean 8.5 longest 9" ∷ []) }
{}

/// A server without tickets that replies and receives in one trap: it is never Ready between two clients.
#[tactic(auto, unfolding(crate::specs::OnLiterals::texts_on_literals, crate::specs::Timed::timed_room))]
pub fn serving()
    ensures { output (text (codes "lottery 3" ∷ codes "quantum 10" ∷ codes "for 60" ∷ codes "port p"
        ∷ codes "script srv" ∷ codes "receive p" ∷ codes "loop 2" ∷ codes "serve p" ∷ codes "end" ∷ codes "endscript"
        ∷ codes "script cli" ∷ codes "call p" ∷ codes "endscript" ∷ codes "fundx 1 base s srv" ∷ codes "at 2"
        ∷ codes "unfund 1" ∷ codes "fundx 3 base a cli" ∷ codes "fundx 2 base b cli" ∷ []))
        ≡ text (codes "0 0 funded 1 1" ∷ codes "0 1 draw 0.992 of 1 thread 1"
        ∷ codes "1 1 thread 1 ticks 1 receive 1 waits" ∷ codes "1 1 idle" ∷ codes "2 0 done" ∷ codes "2 0 funded 2 2"
        ∷ codes "2 0 funded 3 3" ∷ codes "2 1 draw 3.921 of 5 thread 3"
        ∷ codes "3 1 thread 3 ticks 1 call 1 served by 1" ∷ codes "3 1 draw 4.363 of 23 thread 1 got 0"
        ∷ codes "5 1 thread 1 ticks 2 reply client 3 receive 1 waits" ∷ codes "5 1 draw 18.738 of 23 thread 3 got 0"
        ∷ codes "6 1 thread 3 ticks 1 exit" ∷ codes "6 1 draw 1.058 of 3 thread 2"
        ∷ codes "7 1 thread 2 ticks 1 call 1 served by 1" ∷ codes "7 1 draw 1.828 of 15 thread 1 got 0"
        ∷ codes "9 1 thread 1 ticks 2 reply client 2 receive 1 waits" ∷ codes "9 1 draw 22.316 of 30 thread 2 got 0"
        ∷ codes "10 1 thread 2 ticks 1 exit" ∷ codes "10 1 idle" ∷ codes "report"
        ∷ codes "thread 1 s quanta 3 ticks 5 share 55.555% due 42.222% value 0% ready waits 3 mean 0 longest 0"
        ∷ (codes "thread 2 a quanta 2 ticks 2 share 22.222% due 48.888% value 0%"
        ++ codes " ready waits 2 mean 2 longest 4 reply waits 1 mean 2 longest 2 made 2 ended 10")
        ∷ (codes "thread 3 b quanta 2 ticks 2 share 22.222% due 8.888% value 0%"
        ++ codes " ready waits 2 mean 0 longest 0 reply waits 1 mean 2 longest 2 made 2 ended 6")
        ∷ codes "processor 1 quanta 7 idle 2 ticks 9 unused 51"
        ∷ codes "total turns 20 quanta 7 ticks 9 refused 0 left 0 ended 2 mean 6 longest 8" ∷ []) }
{}

/// A mutex and its lottery, and the length of a thread's wait (6.1).
#[tactic(auto, unfolding(crate::specs::OnLiterals::texts_on_literals, crate::specs::Timed::timed_room))]
pub fn waits_for_mutexes()
    ensures { output (text (codes "lottery 3" ∷ codes "quantum 10" ∷ codes "for 60" ∷ codes "mutex m"
        ∷ codes "script one" ∷ codes "lock m" ∷ codes "compute 2" ∷ codes "yield" ∷ codes "unlock m"
        ∷ codes "endscript" ∷ codes "fundx 3 base a one" ∷ codes "fundx 2 base b one"
        ∷ codes "fundx 1 base c one" ∷ []))
        ≡ text (codes "0 0 funded 1 1" ∷ codes "0 0 funded 2 2" ∷ codes "0 0 funded 3 3"
        ∷ codes "0 1 draw 3.992 of 6 thread 2" ∷ codes "1 1 thread 2 ticks 1 lock 1 taken"
        ∷ codes "4 1 thread 2 ticks 3 yield" ∷ codes "4 1 draw 1.281 of 9 thread 1"
        ∷ codes "5 1 thread 1 ticks 1 lock 1 waits" ∷ codes "5 1 draw 6.421 of 13.5 thread 2"
        ∷ codes "6 1 thread 2 ticks 1 unlock 1 to 1 draw 1.363 of 3" ∷ codes "6 1 draw 32.738 of 51 thread 2"
        ∷ codes "7 1 thread 2 ticks 1 exit" ∷ codes "7 1 draw 22.058 of 31 thread 1"
        ∷ codes "10 1 thread 1 ticks 3 yield" ∷ codes "10 1 draw 9.828 of 11 thread 1"
        ∷ codes "11 1 thread 1 ticks 1 unlock 1 free" ∷ codes "12 1 thread 1 ticks 1 exit"
        ∷ codes "12 1 draw 0.273 of 1 thread 3" ∷ codes "13 1 thread 3 ticks 1 lock 1 taken"
        ∷ codes "16 1 thread 3 ticks 3 yield" ∷ codes "16 1 draw 2.316 of 2.5 thread 3"
        ∷ codes "17 1 thread 3 ticks 1 unlock 1 free" ∷ codes "18 1 thread 3 ticks 1 exit" ∷ codes "18 1 idle"
        ∷ codes "report"
        ∷ (codes "thread 1 a quanta 3 ticks 6 share 33.333% due 37.5% value 0%"
        ++ codes " ready waits 3 mean 1.666 longest 4 mutex waits 1 mean 1 longest 1 made 0 ended 12")
        ∷ (codes "thread 2 b quanta 3 ticks 6 share 33.333% due 15.74% value 0%"
        ++ codes " ready waits 3 mean 0.333 longest 1 made 0 ended 7")
        ∷ (codes "thread 3 c quanta 2 ticks 6 share 33.333% due 46.759% value 0%"
        ++ codes " ready waits 2 mean 6 longest 12 made 0 ended 18")
        ∷ codes "processor 1 quanta 8 idle 1 ticks 18 unused 42"
        ∷ codes "total turns 24 quanta 8 ticks 18 refused 0 left 0 ended 3 mean 12.333 longest 18" ∷ []) }
{}

/// Three threads that share 100 of base: values have at most three digits after the point (4.4).
#[tactic(auto, unfolding(crate::specs::OnLiterals::texts_on_literals, crate::specs::Timed::timed_room))]
pub fn behind_the_point()
    ensures { output (text (codes "lottery 3" ∷ codes "for 1" ∷ codes "script s" ∷ codes "compute 5"
        ∷ codes "endscript" ∷ codes "mkcur g" ∷ codes "mktkt 100 base" ∷ codes "fund 1 g" ∷ codes "fundx 1 g a s"
        ∷ codes "fundx 1 g b s" ∷ codes "fundx 1 g c s" ∷ codes "lscur" ∷ codes "lsthr" ∷ []))
        ≡ text (codes "0 0 currency 1" ∷ codes "0 0 ticket 1" ∷ codes "0 0 done" ∷ codes "0 0 funded 2 1"
        ∷ codes "0 0 funded 3 2" ∷ codes "0 0 funded 4 3" ∷ codes "0 0 lscur 2"
        ∷ codes "0 currency 0 base backing 0 issued 1 active 100 value 100"
        ∷ codes "0 currency 1 g backing 1 issued 3 active 3 value 100" ∷ codes "0 0 lsthr 3"
        ∷ codes "0 thread 1 a ready value 33.332 weight 33.332 quanta 0 ticks 0"
        ∷ codes "0 thread 2 b ready value 33.332 weight 33.332 quanta 0 ticks 0"
        ∷ codes "0 thread 3 c ready value 33.332 weight 33.332 quanta 0 ticks 0"
        ∷ codes "0 1 draw 5.503 of 99.996 thread 1" ∷ codes "report"
        ∷ codes "thread 1 a quanta 1 ticks 0 share 0% due 0% value 33.333% ready waits 1 mean 0 longest 0"
        ∷ codes "thread 2 b quanta 0 ticks 0 share 0% due 0% value 33.333%"
        ∷ codes "thread 3 c quanta 0 ticks 0 share 0% due 0% value 33.333%"
        ∷ codes "currency 1 g ticks 0 share 0% due 0%" ∷ codes "processor 1 quanta 1 idle 0 ticks 0 unused 0"
        ∷ codes "total turns 9 quanta 1 ticks 0 refused 0 left 0" ∷ []) }
{}

/// Changed amounts. Inside its currency one thread gains what another loses, and the thread outside keeps its value. A
/// currency with less backing is worth less.
#[tactic(auto, unfolding(crate::specs::OnLiterals::texts_on_literals, crate::specs::Timed::timed_room))]
pub fn amounts_in_time()
    ensures { output (text (codes "lottery 3" ∷ codes "for 300" ∷ codes "seed 14" ∷ codes "script s"
        ∷ codes "compute 1000" ∷ codes "endscript" ∷ codes "mkcur g" ∷ codes "mktkt 10 base" ∷ codes "fund 1 g"
        ∷ codes "fundx 1 g a s" ∷ codes "fundx 1 g b s" ∷ codes "fundx 5 base c s" ∷ codes "at 150"
        ∷ codes "settkt 9 0" ∷ codes "settkt 9 4" ∷ codes "settkt 3 4" ∷ codes "lsthr" ∷ codes "at 250"
        ∷ codes "settkt 1 5" ∷ []))
        ≡ text (codes "0 0 currency 1" ∷ codes "0 0 ticket 1" ∷ codes "0 0 done" ∷ codes "0 0 funded 2 1"
        ∷ codes "0 0 funded 3 2" ∷ codes "0 0 funded 4 3" ∷ codes "0 1 draw 9.199 of 15 thread 2"
        ∷ codes "100 1 thread 2 ticks 100 expire" ∷ codes "100 1 draw 3.023 of 15 thread 1"
        ∷ codes "150 0 refused 6 BadAmount" ∷ codes "150 0 refused 4 NoTicket" ∷ codes "150 0 done"
        ∷ codes "150 0 lsthr 3" ∷ codes "150 thread 1 a running 1 used 0 value 2 weight 2 quanta 1 ticks 0"
        ∷ codes "150 thread 2 b ready value 8 weight 8 quanta 1 ticks 100"
        ∷ codes "150 thread 3 c ready value 5 weight 5 quanta 0 ticks 0" ∷ codes "200 1 thread 1 ticks 100 expire"
        ∷ codes "200 1 draw 7.484 of 15 thread 2" ∷ codes "250 0 done" ∷ codes "300 1 thread 2 ticks 100 expire"
        ∷ codes "300 1 draw 6.195 of 10 thread 3" ∷ codes "report"
        ∷ codes "thread 1 a quanta 1 ticks 100 share 33.333% due 22.777% value 10% ready waits 1 mean 100 longest 100"
        ∷ codes "thread 2 b quanta 2 ticks 200 share 66.666% due 41.111% value 40% ready waits 2 mean 50 longest 100"
        ∷ codes "thread 3 c quanta 1 ticks 0 share 0% due 36.111% value 50% ready waits 1 mean 300 longest 300"
        ∷ codes "currency 1 g ticks 300 share 100% due 63.888%"
        ∷ codes "processor 1 quanta 4 idle 0 ticks 300 unused 0"
        ∷ codes "total turns 18 quanta 4 ticks 300 refused 2 left 0" ∷ []) }
{}

/// A removed thread, dead and with no ticket, has no line in later listings or in the report. Another thread gets its
/// name, and none its number.
#[tactic(auto, unfolding(crate::specs::OnLiterals::texts_on_literals, crate::specs::Timed::timed_room))]
pub fn threads_removed()
    ensures { output (text (codes "lottery 3" ∷ codes "quantum 10" ∷ codes "for 30" ∷ codes "script short"
        ∷ codes "compute 4" ∷ codes "endscript" ∷ codes "script long" ∷ codes "compute 1000" ∷ codes "endscript"
        ∷ codes "fundx 3 base a short" ∷ codes "fundx 1 base b long" ∷ codes "rmthr a" ∷ codes "rmthr c"
        ∷ codes "rmthr base" ∷ codes "at 8" ∷ codes "rmthr a" ∷ codes "unfund 1" ∷ codes "rmthr a" ∷ codes "lsthr"
        ∷ codes "rmthr a" ∷ codes "fund 1 a" ∷ codes "mkthr a short" ∷ codes "fund 1 a" ∷ codes "lsthr" ∷ []))
        ≡ text (codes "0 0 funded 1 1" ∷ codes "0 0 funded 2 2" ∷ codes "0 0 refused 16 Alive"
        ∷ codes "0 0 refused 15 NoThread" ∷ codes "0 0 refused 15 NoThread" ∷ codes "0 1 draw 1.992 of 4 thread 1"
        ∷ codes "5 1 thread 1 ticks 5 exit" ∷ codes "5 1 draw 0.281 of 1 thread 2" ∷ codes "8 0 refused 7 InUse"
        ∷ codes "8 0 done" ∷ codes "8 0 done" ∷ codes "8 0 lsthr 1"
        ∷ codes "8 thread 2 b running 1 used 0 value 1 weight 1 quanta 1 ticks 0" ∷ codes "8 0 refused 15 NoThread"
        ∷ codes "8 0 refused 5 NoTarget" ∷ codes "8 0 thread 3" ∷ codes "8 0 done" ∷ codes "8 0 lsthr 2"
        ∷ codes "8 thread 2 b running 1 used 0 value 1 weight 1 quanta 1 ticks 0"
        ∷ codes "8 thread 3 a ready value 3 weight 3 quanta 0 ticks 0" ∷ codes "15 1 thread 2 ticks 10 expire"
        ∷ codes "15 1 draw 3.921 of 4 thread 3" ∷ codes "20 1 thread 3 ticks 5 exit"
        ∷ codes "20 1 draw 0.363 of 1 thread 2" ∷ codes "30 1 thread 2 ticks 10 expire"
        ∷ codes "30 1 draw 0.738 of 1 thread 2" ∷ codes "report"
        ∷ codes "thread 2 b quanta 3 ticks 20 share 66.666% due 57.5% value 100% ready waits 3 mean 3.333 longest 5"
        ∷ (codes "thread 3 a quanta 1 ticks 5 share 16.666% due 30% value 0%"
        ++ codes " ready waits 1 mean 7 longest 7 made 8 ended 20")
        ∷ codes "processor 1 quanta 5 idle 0 ticks 30 unused 0"
        ∷ codes "total turns 23 quanta 5 ticks 30 refused 6 left 0 ended 2 mean 8.5 longest 12" ∷ []) }
{}

/// Dead threads without tickets that can't be removed: thread 1 owns a mutex, and thread 3 has a client. The client
/// waits for good, so it hasn't ended.
#[tactic(auto, unfolding(crate::specs::OnLiterals::texts_on_literals, crate::specs::Timed::timed_room))]
pub fn threads_kept()
    ensures { output (text (codes "lottery 3" ∷ codes "quantum 10" ∷ codes "for 8" ∷ codes "port p" ∷ codes "mutex m"
        ∷ codes "script owner" ∷ codes "lock m" ∷ codes "endscript" ∷ codes "script client" ∷ codes "call p"
        ∷ codes "endscript" ∷ codes "script server" ∷ codes "receive p" ∷ codes "endscript"
        ∷ codes "fundx 1 base o owner" ∷ codes "at 3" ∷ codes "fundx 1 base c client" ∷ codes "at 5"
        ∷ codes "fundx 1 base s server" ∷ codes "at 8" ∷ codes "unfund 1" ∷ codes "rmthr o" ∷ codes "unfund 3"
        ∷ codes "rmthr s" ∷ codes "rmthr c" ∷ []))
        ≡ text (codes "0 0 funded 1 1" ∷ codes "0 1 draw 0.992 of 1 thread 1"
        ∷ codes "1 1 thread 1 ticks 1 lock 1 taken" ∷ codes "2 1 thread 1 ticks 1 exit" ∷ codes "2 1 idle"
        ∷ codes "3 0 funded 2 2" ∷ codes "3 1 draw 0.921 of 1 thread 2" ∷ codes "4 1 thread 2 ticks 1 call 1 queued"
        ∷ codes "4 1 idle" ∷ codes "5 0 funded 3 3" ∷ codes "5 1 draw 0.738 of 1 thread 3"
        ∷ codes "6 1 thread 3 ticks 1 receive 1 client 2 got 0" ∷ codes "7 1 thread 3 ticks 1 exit" ∷ codes "7 1 idle"
        ∷ codes "8 0 done" ∷ codes "8 0 refused 7 InUse" ∷ codes "8 0 done" ∷ codes "8 0 refused 7 InUse"
        ∷ codes "8 0 refused 16 Alive" ∷ codes "8 1 idle" ∷ codes "report"
        ∷ codes "thread 1 o quanta 1 ticks 2 share 40% due 40% value 0% ready waits 1 mean 0 longest 0 made 0 ended 2"
        ∷ codes "thread 2 c quanta 1 ticks 1 share 20% due 20% value 0% ready waits 1 mean 0 longest 0 made 3"
        ∷ codes "thread 3 s quanta 1 ticks 2 share 40% due 40% value 0% ready waits 1 mean 0 longest 0 made 5 ended 7"
        ∷ codes "processor 1 quanta 3 idle 4 ticks 5 unused 3"
        ∷ codes "total turns 20 quanta 3 ticks 5 refused 3 left 0 ended 2 mean 2 longest 2" ∷ []) }
{}

/// The report counts refused commands.
#[tactic(auto, unfolding(crate::specs::OnLiterals::texts_on_literals, crate::specs::Timed::timed_room))]
pub fn refused_commands()
    ensures { output (text (codes "lottery 3" ∷ codes "for 1" ∷ codes "mktkt 0 base" ∷ codes "mkthr a none"
        ∷ codes "fund 9 a" ∷ []))
        ≡ text (codes "0 0 refused 6 BadAmount" ∷ codes "0 0 refused 14 NoScript" ∷ codes "0 0 refused 4 NoTicket"
        ∷ codes "0 1 idle" ∷ codes "report" ∷ codes "processor 1 quanta 0 idle 1 ticks 0 unused 1"
        ∷ codes "total turns 4 quanta 0 ticks 0 refused 3 left 0" ∷ []) }
{}

/// A thread that waits for good: no turn is due, and the processor waits until the end.
#[tactic(auto, unfolding(crate::specs::OnLiterals::texts_on_literals, crate::specs::Timed::timed_room))]
pub fn waits_for_good()
    ensures { output (text (codes "lottery 3" ∷ codes "quantum 10" ∷ codes "for 50" ∷ codes "port p"
        ∷ codes "script cli" ∷ codes "call p" ∷ codes "endscript" ∷ codes "fundx 1 base c cli" ∷ []))
        ≡ text (codes "0 0 funded 1 1" ∷ codes "0 1 draw 0.992 of 1 thread 1"
        ∷ codes "1 1 thread 1 ticks 1 call 1 queued" ∷ codes "1 1 idle" ∷ codes "report"
        ∷ codes "thread 1 c quanta 1 ticks 1 share 100% due 100% value 0% ready waits 1 mean 0 longest 0"
        ∷ codes "processor 1 quanta 1 idle 1 ticks 1 unused 49"
        ∷ codes "total turns 4 quanta 1 ticks 1 refused 0 left 0" ∷ []) }
{}

/// A thread that used a third of its quantum weighs three times its value (4.5).
#[tactic(auto, unfolding(crate::specs::OnLiterals::texts_on_literals, crate::specs::Timed::timed_room))]
pub fn compensation()
    ensures { output (text (codes "lottery 3" ∷ codes "quantum 9" ∷ codes "for 12" ∷ codes "seed 5"
        ∷ codes "script short" ∷ codes "compute 2" ∷ codes "yield" ∷ codes "endscript" ∷ codes "script long"
        ∷ codes "compute 9" ∷ codes "endscript" ∷ codes "fundx 1 base a short" ∷ codes "fundx 1 base b long"
        ∷ codes "at 12" ∷ codes "lsthr" ∷ []))
        ≡ text (codes "0 0 funded 1 1" ∷ codes "0 0 funded 2 2" ∷ codes "0 1 draw 1.082 of 2 thread 2"
        ∷ codes "9 1 thread 2 ticks 9 expire" ∷ codes "9 1 draw 0.82 of 2 thread 1" ∷ codes "12 0 lsthr 2"
        ∷ codes "12 thread 1 a running 1 used 0 value 1 weight 1 quanta 1 ticks 0"
        ∷ codes "12 thread 2 b ready value 1 weight 1 quanta 1 ticks 9" ∷ codes "12 1 thread 1 ticks 3 yield"
        ∷ codes "12 1 draw 3.257 of 4 thread 2" ∷ codes "report"
        ∷ codes "thread 1 a quanta 1 ticks 3 share 25% due 50% value 50% ready waits 1 mean 9 longest 9"
        ∷ codes "thread 2 b quanta 2 ticks 9 share 75% due 50% value 50% ready waits 2 mean 1.5 longest 3"
        ∷ codes "processor 1 quanta 3 idle 0 ticks 12 unused 0"
        ∷ codes "total turns 8 quanta 3 ticks 12 refused 0 left 0" ∷ []) }
{}

/// Refusals of timed inputs; other inputs refuse their words.
#[tactic(auto, unfolding(crate::specs::OnLiterals::texts_on_literals, crate::specs::Timed::timed_room))]
pub fn refused_inputs()
    ensures lacks_body { output (text (codes "lottery 3" ∷ codes "mkcur a" ∷ []))
        ≡ refused_on_line (codes "2 50 BadHeader") }
    ensures lacks_alone { output (text (codes "lottery 3" ∷ codes "quantum 5" ∷ []))
        ≡ refused_on_line (codes "2 50 BadHeader") }
    ensures no_ticks { output (text (codes "lottery 3" ∷ codes "for 0" ∷ []))
        ≡ refused_on_line (codes "2 52 BadNumber") }
    ensures late { output (text (codes "lottery 3" ∷ codes "for 5" ∷ codes "mkcur a" ∷ codes "for 6" ∷ []))
        ≡ refused_on_line (codes "4 50 BadHeader") }
    ensures scheduled { output (text (codes "lottery 3" ∷ codes "for 5" ∷ codes "schedule 0" ∷ []))
        ≡ refused_on_line (codes "3 51 BadLine") }
    ensures runs { output (text (codes "lottery 3" ∷ codes "for 5" ∷ codes "runs 0 1" ∷ []))
        ≡ refused_on_line (codes "3 51 BadLine") }
    ensures falls { output (text (codes "lottery 3" ∷ codes "for 5" ∷ codes "at 3" ∷ codes "at 2" ∷ []))
        ≡ refused_on_line (codes "4 52 BadNumber") }
    ensures alone { output (text (codes "lottery 3" ∷ codes "for 5" ∷ codes "at" ∷ []))
        ≡ refused_on_line (codes "3 51 BadLine") }
    ensures served_nowhere { output (text (codes "lottery 3" ∷ codes "for 5" ∷ codes "script s" ∷ codes "serve p"
        ∷ [])) ≡ refused_on_line (codes "4 53 UnknownName") }
    ensures for_in_second { output (text (codes "lottery 2" ∷ codes "for 5" ∷ []))
        ≡ refused_on_line (codes "2 51 BadLine") }
    ensures at_in_first { output (text (codes "lottery 1" ∷ codes "at 5" ∷ []))
        ≡ refused_on_line (codes "2 51 BadLine") }
    ensures amount_in_second { output (text (codes "lottery 2" ∷ codes "settkt 1 5" ∷ []))
        ≡ refused_on_line (codes "2 51 BadLine") }
    ensures amount_in_first { output (text (codes "lottery 1" ∷ codes "settkt 1 5" ∷ []))
        ≡ refused_on_line (codes "2 51 BadLine") }
    ensures amount_lacking { output (text (codes "lottery 3" ∷ codes "for 5" ∷ codes "settkt 1" ∷ []))
        ≡ refused_on_line (codes "3 51 BadLine") }
    ensures removal_in_second { output (text (codes "lottery 2" ∷ codes "rmthr a" ∷ []))
        ≡ refused_on_line (codes "2 51 BadLine") }
    ensures removal_in_first { output (text (codes "lottery 1" ∷ codes "rmthr a" ∷ []))
        ≡ refused_on_line (codes "2 51 BadLine") }
    ensures kill_in_second { output (text (codes "lottery 2" ∷ codes "kill a" ∷ []))
        ≡ refused_on_line (codes "2 51 BadLine") }
    ensures kill_in_first { output (text (codes "lottery 1" ∷ codes "kill a" ∷ []))
        ≡ refused_on_line (codes "2 51 BadLine") }
    ensures kill_lacking { output (text (codes "lottery 3" ∷ codes "for 5" ∷ codes "kill" ∷ []))
        ≡ refused_on_line (codes "3 51 BadLine") }
    ensures reuse_in_second { output (text (codes "lottery 2" ∷ codes "reuse" ∷ []))
        ≡ refused_on_line (codes "2 51 BadLine") }
    ensures reuse_in_first { output (text (codes "lottery 1" ∷ codes "reuse" ∷ []))
        ≡ refused_on_line (codes "2 51 BadLine") }
    ensures without_in_second { output (text (codes "lottery 2" ∷ codes "without lending" ∷ []))
        ≡ refused_on_line (codes "2 51 BadLine") }
    ensures without_in_first { output (text (codes "lottery 1" ∷ codes "without lending" ∷ []))
        ≡ refused_on_line (codes "2 51 BadLine") }
    ensures without_nothing { output (text (codes "lottery 3" ∷ codes "for 5" ∷ codes "without" ∷ []))
        ≡ refused_on_line (codes "3 51 BadLine") }
    ensures without_other { output (text (codes "lottery 3" ∷ codes "for 5" ∷ codes "without reuse" ∷ []))
        ≡ refused_on_line (codes "3 51 BadLine") }
    ensures without_twice { output (text (codes "lottery 3" ∷ codes "without lending" ∷ codes "for 5"
        ∷ codes "without lending" ∷ [])) ≡ refused_on_line (codes "4 50 BadHeader") }
    ensures reuse_with_number { output (text (codes "lottery 3" ∷ codes "for 5" ∷ codes "reuse 1" ∷ []))
        ≡ refused_on_line (codes "3 51 BadLine") }
    ensures sleep_in_second { output (text (codes "lottery 2" ∷ codes "script s" ∷ codes "sleep 5" ∷ []))
        ≡ refused_on_line (codes "3 51 BadLine") }
    ensures sleep_in_first { output (text (codes "lottery 1" ∷ codes "script s" ∷ codes "sleep 5" ∷ []))
        ≡ refused_on_line (codes "3 51 BadLine") }
    ensures no_sleep { output (text (codes "lottery 3" ∷ codes "for 5" ∷ codes "script s" ∷ codes "sleep 0" ∷ []))
        ≡ refused_on_line (codes "4 52 BadNumber") }
    ensures longest_sleep { output (text (codes "lottery 3" ∷ codes "for 5" ∷ codes "script s"
        ∷ codes "sleep 4294967296" ∷ [])) ≡ refused_on_line (codes "4 52 BadNumber") }
    ensures removal_lacking { output (text (codes "lottery 3" ∷ codes "for 5" ∷ codes "rmthr" ∷ []))
        ≡ refused_on_line (codes "3 51 BadLine") }
    ensures serve_in_first { output (text (codes "lottery 1" ∷ codes "port p" ∷ codes "script s" ∷ codes "serve p"
        ∷ [])) ≡ refused_on_line (codes "4 51 BadLine") }
    ensures other { output (text (codes "lottery 4" ∷ [])) ≡ refused_on_line (codes "1 50 BadHeader") }
{}

/// Several words, each with its argument, on a line of a script; other inputs allow one. A port may have the name of
/// a word, and nothing may follow `endscript`.
#[tactic(auto, unfolding(crate::specs::OnLiterals::texts_on_literals, crate::specs::Timed::timed_room))]
pub fn several_words()
    ensures same { program_in (text (codes "lottery 3" ∷ codes "for 9" ∷ codes "port end" ∷ codes "script s"
        ∷ codes "receive end loop 2 compute 5 serve end end yield" ∷ codes "set 7 endscript" ∷ []))
        ≡ program_in (text (codes "lottery 3" ∷ codes "for 9" ∷ codes "port end" ∷ codes "script s"
        ∷ codes "receive end" ∷ codes "loop 2" ∷ codes "compute 5" ∷ codes "serve end" ∷ codes "end" ∷ codes "yield"
        ∷ codes "set 7" ∷ codes "endscript" ∷ [])) }
    ensures accepted { output (text (codes "lottery 3" ∷ codes "for 1" ∷ codes "script s"
        ∷ codes "loop 2 compute 5 end endscript" ∷ []))
        ≡ text (codes "0 1 idle" ∷ codes "report" ∷ codes "processor 1 quanta 0 idle 1 ticks 0 unused 1"
        ∷ codes "total turns 1 quanta 0 ticks 0 refused 0 left 0" ∷ []) }
    ensures behind { output (text (codes "lottery 3" ∷ codes "for 9" ∷ codes "script s" ∷ codes "endscript yield"
        ∷ [])) ≡ refused_on_line (codes "4 51 BadLine") }
    ensures missing { output (text (codes "lottery 3" ∷ codes "for 9" ∷ codes "script s" ∷ codes "yield compute"
        ∷ [])) ≡ refused_on_line (codes "4 51 BadLine") }
    ensures no_word { output (text (codes "lottery 3" ∷ codes "for 9" ∷ codes "script s" ∷ codes "compute 5 7" ∷ []))
        ≡ refused_on_line (codes "4 51 BadLine") }
    ensures first_fault { output (text (codes "lottery 3" ∷ codes "for 9" ∷ codes "script s"
        ∷ codes "compute 0 nonsense" ∷ [])) ≡ refused_on_line (codes "4 52 BadNumber") }
    ensures others { output (text (codes "lottery 2" ∷ codes "script s" ∷ codes "yield yield" ∷ []))
        ≡ refused_on_line (codes "3 51 BadLine") }
{}

/// Two threads that sleep and wake at the same time, the one with the lower number first. The wakes end the waits of
/// both processors.
#[tactic(auto, unfolding(crate::specs::OnLiterals::texts_on_literals, crate::specs::Timed::timed_room))]
pub fn sleepers()
    ensures { output (text (codes "lottery 3" ∷ codes "processors 2" ∷ codes "quantum 10" ∷ codes "for 25"
        ∷ codes "seed 3 9" ∷ codes "script nap" ∷ codes "compute 2 sleep 8 compute 3 endscript"
        ∷ codes "fundx 2 base a nap" ∷ codes "fundx 1 base b nap" ∷ []))
        ≡ text (codes "0 0 funded 1 1" ∷ codes "0 0 funded 2 2" ∷ codes "0 1 draw 2.054 of 3 thread 2"
        ∷ codes "0 2 draw 1.144 of 2 thread 1" ∷ codes "3 1 thread 2 ticks 3 sleep" ∷ codes "3 1 idle"
        ∷ codes "3 2 thread 1 ticks 3 sleep" ∷ codes "3 1 idle" ∷ codes "3 2 idle" ∷ codes "11 3 wake thread 1"
        ∷ codes "11 3 wake thread 2" ∷ codes "11 1 draw 0.238 of 9.996 thread 1"
        ∷ codes "11 2 draw 0.421 of 3.332 thread 2" ∷ codes "15 1 thread 1 ticks 4 exit" ∷ codes "15 1 idle"
        ∷ codes "15 2 thread 2 ticks 4 exit" ∷ codes "15 1 idle" ∷ codes "15 2 idle" ∷ codes "report"
        ∷ (codes "thread 1 a quanta 2 ticks 7 share 50% due 66.666% value 0%"
        ++ codes " ready waits 2 mean 0 longest 0 made 0 ended 15")
        ∷ (codes "thread 2 b quanta 2 ticks 7 share 50% due 33.333% value 0%"
        ++ codes " ready waits 2 mean 0 longest 0 made 0 ended 15")
        ∷ codes "processor 1 quanta 2 idle 4 ticks 7 unused 18"
        ∷ codes "processor 2 quanta 2 idle 2 ticks 7 unused 18"
        ∷ codes "total turns 18 quanta 4 ticks 14 refused 0 left 0 ended 2 mean 15 longest 15" ∷ []) }
{}

/// A wake at the same time as a command and a draw: the command comes first, and the woken thread takes part in the
/// draw, with the compensation from before its sleep (4.5).
#[tactic(auto, unfolding(crate::specs::OnLiterals::texts_on_literals, crate::specs::Timed::timed_room))]
pub fn wakes_at_a_command()
    ensures { output (text (codes "lottery 3" ∷ codes "quantum 10" ∷ codes "for 30" ∷ codes "script nap"
        ∷ codes "compute 3 sleep 6 endscript" ∷ codes "script spin" ∷ codes "compute 16 endscript"
        ∷ codes "fundx 2 base a nap" ∷ codes "at 10" ∷ codes "fundx 3 base b spin" ∷ []))
        ≡ text (codes "0 0 funded 1 1" ∷ codes "0 1 draw 1.992 of 2 thread 1" ∷ codes "4 1 thread 1 ticks 4 sleep"
        ∷ codes "4 1 idle" ∷ codes "10 0 funded 2 2" ∷ codes "10 2 wake thread 1"
        ∷ codes "10 1 draw 7.921 of 8 thread 2" ∷ codes "20 1 thread 2 ticks 10 expire"
        ∷ codes "20 1 draw 4.363 of 8 thread 1" ∷ codes "21 1 thread 1 ticks 1 exit"
        ∷ codes "21 1 draw 2.738 of 3 thread 2" ∷ codes "28 1 thread 2 ticks 7 exit" ∷ codes "28 1 idle"
        ∷ codes "report"
        ∷ (codes "thread 1 a quanta 2 ticks 5 share 22.727% due 38.181% value 0%"
        ++ codes " ready waits 2 mean 5 longest 10 made 0 ended 21")
        ∷ (codes "thread 2 b quanta 2 ticks 17 share 77.272% due 61.818% value 0%"
        ++ codes " ready waits 2 mean 0.5 longest 1 made 10 ended 28")
        ∷ codes "processor 1 quanta 4 idle 2 ticks 22 unused 8"
        ∷ codes "total turns 13 quanta 4 ticks 22 refused 0 left 0 ended 2 mean 19.5 longest 21" ∷ []) }
{}

/// All processors wait while the only thread sleeps. Its second sleep would end after the end.
#[tactic(auto, unfolding(crate::specs::OnLiterals::texts_on_literals, crate::specs::Timed::timed_room))]
pub fn sleeps_past_the_end()
    ensures { output (text (codes "lottery 3" ∷ codes "quantum 10" ∷ codes "for 30" ∷ codes "script nap"
        ∷ codes "sleep 5 sleep 24 endscript" ∷ codes "fundx 1 base a nap" ∷ []))
        ≡ text (codes "0 0 funded 1 1" ∷ codes "0 1 draw 0.992 of 1 thread 1" ∷ codes "1 1 thread 1 ticks 1 sleep"
        ∷ codes "1 1 idle" ∷ codes "6 2 wake thread 1" ∷ codes "6 1 draw 3.921 of 10 thread 1"
        ∷ codes "7 1 thread 1 ticks 1 sleep" ∷ codes "7 1 idle" ∷ codes "report"
        ∷ codes "thread 1 a quanta 2 ticks 2 share 100% due 100% value 0% ready waits 2 mean 0 longest 0"
        ∷ codes "processor 1 quanta 2 idle 2 ticks 2 unused 28"
        ∷ codes "total turns 8 quanta 2 ticks 2 refused 0 left 0" ∷ []) }
{}

/// A kill in the middle of a slice. Nobody is charged for the four ticks that the thread ran: the processor counts them
/// as unused, and draws at the time of the kill. The dead thread keeps its name, and can't be killed again.
#[tactic(auto, unfolding(crate::specs::OnLiterals::texts_on_literals, crate::specs::Timed::timed_room))]
pub fn killed_in_a_slice()
    ensures { output (text (codes "lottery 3" ∷ codes "quantum 10" ∷ codes "for 24" ∷ codes "script spin"
        ∷ codes "compute 100 endscript" ∷ codes "fundx 2 base a spin" ∷ codes "fundx 1 base b spin" ∷ codes "at 4"
        ∷ codes "kill a" ∷ codes "kill a" ∷ codes "kill c" ∷ codes "lsthr" ∷ []))
        ≡ text (codes "0 0 funded 1 1" ∷ codes "0 0 funded 2 2" ∷ codes "0 1 draw 0.992 of 3 thread 1"
        ∷ codes "4 0 done" ∷ codes "4 0 refused 12 DeadThread" ∷ codes "4 0 refused 15 NoThread" ∷ codes "4 0 lsthr 2"
        ∷ codes "4 thread 1 a dead value 0 weight 0 quanta 1 ticks 0"
        ∷ codes "4 thread 2 b ready value 1 weight 1 quanta 0 ticks 0" ∷ codes "4 1 draw 0.281 of 1 thread 2"
        ∷ codes "14 1 thread 2 ticks 10 expire" ∷ codes "14 1 draw 0.921 of 1 thread 2"
        ∷ codes "24 1 thread 2 ticks 10 expire" ∷ codes "24 1 draw 0.363 of 1 thread 2" ∷ codes "report"
        ∷ (codes "thread 1 a quanta 1 ticks 0 share 0% due 11.111% value 0%"
        ++ codes " ready waits 1 mean 0 longest 0 made 0 ended 4")
        ∷ codes "thread 2 b quanta 3 ticks 20 share 100% due 88.888% value 100% ready waits 3 mean 1.333 longest 4"
        ∷ codes "processor 1 quanta 4 idle 0 ticks 20 unused 4"
        ∷ codes "total turns 12 quanta 4 ticks 20 refused 2 left 0 ended 1 mean 4 longest 4" ∷ []) }
{}

/// A kill on one of two processors. The other's slice goes on, and its next turn comes at its time. With nobody ready
/// after a kill, the processor waits.
#[tactic(auto, unfolding(crate::specs::OnLiterals::texts_on_literals, crate::specs::Timed::timed_room))]
pub fn killed_beside_another()
    ensures { output (text (codes "lottery 3" ∷ codes "processors 2" ∷ codes "quantum 10" ∷ codes "for 25"
        ∷ codes "script spin" ∷ codes "compute 100 endscript" ∷ codes "fundx 3 base a spin"
        ∷ codes "fundx 2 base b spin" ∷ codes "fundx 1 base c spin" ∷ codes "at 6" ∷ codes "kill c" ∷ codes "at 13"
        ∷ codes "kill b" ∷ []))
        ≡ text (codes "0 0 funded 1 1" ∷ codes "0 0 funded 2 2" ∷ codes "0 0 funded 3 3"
        ∷ codes "0 1 draw 3.992 of 6 thread 2" ∷ codes "0 2 draw 3.054 of 4 thread 3" ∷ codes "6 0 done"
        ∷ codes "6 2 draw 1.878 of 3 thread 1" ∷ codes "10 1 thread 2 ticks 10 expire"
        ∷ codes "10 1 draw 1.281 of 2 thread 2" ∷ codes "13 0 done" ∷ codes "13 1 idle"
        ∷ codes "16 2 thread 1 ticks 10 expire" ∷ codes "16 1 draw 1.363 of 3 thread 1" ∷ codes "16 2 idle"
        ∷ codes "report"
        ∷ codes "thread 1 a quanta 2 ticks 10 share 50% due 63.75% value 100% ready waits 2 mean 3 longest 6"
        ∷ codes "thread 2 b quanta 2 ticks 10 share 50% due 30% value 0% ready waits 2 mean 0 longest 0 made 0 ended 13"
        ∷ codes "thread 3 c quanta 1 ticks 0 share 0% due 6.25% value 0% ready waits 1 mean 0 longest 0 made 0 ended 6"
        ∷ codes "processor 1 quanta 3 idle 1 ticks 10 unused 6"
        ∷ codes "processor 2 quanta 2 idle 1 ticks 10 unused 15"
        ∷ codes "total turns 14 quanta 5 ticks 20 refused 0 left 0 ended 2 mean 9.5 longest 13" ∷ []) }
{}

/// The timer isn't told of a kill: the wake of a thread that was killed in its sleep comes, and is refused.
#[tactic(auto, unfolding(crate::specs::OnLiterals::texts_on_literals, crate::specs::Timed::timed_room))]
pub fn killed_sleeper()
    ensures { output (text (codes "lottery 3" ∷ codes "quantum 10" ∷ codes "for 20" ∷ codes "script nap"
        ∷ codes "sleep 5 endscript" ∷ codes "script spin" ∷ codes "compute 12 endscript" ∷ codes "fundx 1 base a nap"
        ∷ codes "at 3" ∷ codes "kill a" ∷ codes "fundx 1 base b spin" ∷ []))
        ≡ text (codes "0 0 funded 1 1" ∷ codes "0 1 draw 0.992 of 1 thread 1" ∷ codes "1 1 thread 1 ticks 1 sleep"
        ∷ codes "1 1 idle" ∷ codes "3 0 done" ∷ codes "3 0 funded 2 2" ∷ codes "3 1 draw 0.921 of 1 thread 2"
        ∷ codes "6 2 refused 24 NotAsleep" ∷ codes "13 1 thread 2 ticks 10 expire"
        ∷ codes "13 1 draw 0.363 of 1 thread 2" ∷ codes "16 1 thread 2 ticks 3 exit" ∷ codes "16 1 idle"
        ∷ codes "report"
        ∷ (codes "thread 1 a quanta 1 ticks 1 share 7.142% due 7.142% value 0%"
        ++ codes " ready waits 1 mean 0 longest 0 made 0 ended 3")
        ∷ (codes "thread 2 b quanta 2 ticks 13 share 92.857% due 92.857% value 0%"
        ++ codes " ready waits 2 mean 0 longest 0 made 3 ended 16")
        ∷ codes "processor 1 quanta 3 idle 2 ticks 14 unused 6"
        ∷ codes "total turns 12 quanta 3 ticks 14 refused 1 left 0 ended 2 mean 8 longest 13" ∷ []) }
{}

/// A killed server's client is Ready at once, keeps its compensation, and gets no number. The report doesn't count its
/// wait as one for a reply.
#[tactic(auto, unfolding(crate::specs::OnLiterals::texts_on_literals, crate::specs::Timed::timed_room))]
pub fn killed_server()
    ensures { output (text (codes "lottery 3" ∷ codes "quantum 10" ∷ codes "for 30" ∷ codes "port p"
        ∷ codes "script srv" ∷ codes "receive p compute 5 reply endscript" ∷ codes "script cli"
        ∷ codes "set 7 call p endscript" ∷ codes "fundx 2 base s srv" ∷ codes "fundx 1 base c cli" ∷ codes "at 4"
        ∷ codes "kill s" ∷ []))
        ≡ text (codes "0 0 funded 1 1" ∷ codes "0 0 funded 2 2" ∷ codes "0 1 draw 0.992 of 3 thread 1"
        ∷ codes "1 1 thread 1 ticks 1 receive 1 waits" ∷ codes "1 1 draw 0.281 of 1 thread 2"
        ∷ codes "3 1 thread 2 ticks 2 call 1 served by 1" ∷ codes "3 1 draw 13.921 of 30 thread 1 got 7"
        ∷ codes "4 0 done" ∷ codes "4 1 draw 1.363 of 5 thread 2" ∷ codes "5 1 thread 2 ticks 1 exit"
        ∷ codes "5 1 idle" ∷ codes "report"
        ∷ (codes "thread 1 s quanta 2 ticks 1 share 25% due 33.333% value 0%"
        ++ codes " ready waits 2 mean 0 longest 0 made 0 ended 4")
        ∷ (codes "thread 2 c quanta 2 ticks 3 share 75% due 66.666% value 0%"
        ++ codes " ready waits 2 mean 0.5 longest 1 made 0 ended 5")
        ∷ codes "processor 1 quanta 4 idle 1 ticks 4 unused 26"
        ∷ codes "total turns 11 quanta 4 ticks 4 refused 0 left 0 ended 2 mean 4.5 longest 5" ∷ []) }
{}

/// A killed owner's mutex passes at once to the thread that waits for it. The report doesn't count its wait as one for
/// a mutex.
#[tactic(auto, unfolding(crate::specs::OnLiterals::texts_on_literals, crate::specs::Timed::timed_room))]
pub fn killed_owner()
    ensures { output (text (codes "lottery 3" ∷ codes "processors 2" ∷ codes "quantum 10" ∷ codes "for 20"
        ∷ codes "mutex m" ∷ codes "script one" ∷ codes "lock m compute 12 unlock m endscript"
        ∷ codes "fundx 2 base a one" ∷ codes "fundx 1 base b one" ∷ codes "at 5" ∷ codes "kill a" ∷ []))
        ≡ text (codes "0 0 funded 1 1" ∷ codes "0 0 funded 2 2" ∷ codes "0 1 draw 0.992 of 3 thread 1"
        ∷ codes "0 2 draw 0.054 of 1 thread 2" ∷ codes "1 1 thread 1 ticks 1 lock 1 taken"
        ∷ codes "1 2 thread 2 ticks 1 lock 1 waits" ∷ codes "1 2 idle" ∷ codes "5 0 done"
        ∷ codes "5 1 draw 3.281 of 10 thread 2" ∷ codes "5 2 idle" ∷ codes "15 1 thread 2 ticks 10 expire"
        ∷ codes "15 1 draw 0.921 of 1 thread 2" ∷ codes "15 2 idle" ∷ codes "18 1 thread 2 ticks 3 unlock 1 free"
        ∷ codes "18 2 idle" ∷ codes "19 1 thread 2 ticks 1 exit" ∷ codes "19 1 idle" ∷ codes "19 2 idle"
        ∷ codes "report"
        ∷ (codes "thread 1 a quanta 1 ticks 1 share 6.25% due 24.561% value 0%"
        ++ codes " ready waits 1 mean 0 longest 0 made 0 ended 5")
        ∷ (codes "thread 2 b quanta 3 ticks 15 share 93.75% due 75.438% value 0%"
        ++ codes " ready waits 3 mean 0 longest 0 made 0 ended 19")
        ∷ codes "processor 1 quanta 3 idle 1 ticks 15 unused 5"
        ∷ codes "processor 2 quanta 1 idle 5 ticks 1 unused 19"
        ∷ codes "total turns 18 quanta 4 ticks 16 refused 0 left 0 ended 2 mean 12 longest 19" ∷ []) }
{}

/// With `reuse` the limits count what exists at once: a thread and a ticket get the numbers of removed ones.
#[tactic(auto, unfolding(crate::specs::OnLiterals::texts_on_literals, crate::specs::Timed::timed_room))]
pub fn numbers_again()
    ensures { output (text (codes "lottery 3" ∷ codes "quantum 10" ∷ codes "for 30" ∷ codes "limits 2 1 2"
        ∷ codes "reuse" ∷ codes "script short" ∷ codes "compute 4" ∷ codes "endscript" ∷ codes "script long"
        ∷ codes "compute 1000" ∷ codes "endscript" ∷ codes "fundx 3 base a short" ∷ codes "fundx 1 base b long"
        ∷ codes "at 8" ∷ codes "fundx 3 base c short" ∷ codes "unfund 1" ∷ codes "rmtkt 1" ∷ codes "rmthr a"
        ∷ codes "fundx 3 base c short" ∷ codes "lsthr" ∷ []))
        ≡ text (codes "0 0 funded 1 1" ∷ codes "0 0 funded 2 2" ∷ codes "0 1 draw 1.992 of 4 thread 1"
        ∷ codes "5 1 thread 1 ticks 5 exit" ∷ codes "5 1 draw 0.281 of 1 thread 2" ∷ codes "8 0 refused 13 Full"
        ∷ codes "8 0 done" ∷ codes "8 0 done" ∷ codes "8 0 done" ∷ codes "8 0 funded 1 1" ∷ codes "8 0 lsthr 2"
        ∷ codes "8 thread 1 c ready value 3 weight 3 quanta 0 ticks 0"
        ∷ codes "8 thread 2 b running 1 used 0 value 1 weight 1 quanta 1 ticks 0"
        ∷ codes "15 1 thread 2 ticks 10 expire" ∷ codes "15 1 draw 3.921 of 4 thread 2"
        ∷ codes "25 1 thread 2 ticks 10 expire" ∷ codes "25 1 draw 0.363 of 4 thread 1"
        ∷ codes "30 1 thread 1 ticks 5 exit" ∷ codes "30 1 draw 0.738 of 1 thread 2" ∷ codes "report"
        ∷ (codes "thread 1 c quanta 1 ticks 5 share 16.666% due 55% value 0%"
        ++ codes " ready waits 1 mean 17 longest 17 made 8 ended 30")
        ∷ codes "thread 2 b quanta 3 ticks 20 share 66.666% due 32.5% value 100% ready waits 3 mean 3.333 longest 5"
        ∷ codes "processor 1 quanta 5 idle 0 ticks 30 unused 0"
        ∷ codes "total turns 17 quanta 5 ticks 30 refused 1 left 0 ended 2 mean 13.5 longest 22" ∷ []) }
{}

/// A thread with a reused number starts its script at the first line, with none of the draws, ticks or waits of the
/// thread before it.
#[tactic(auto, unfolding(crate::specs::OnLiterals::texts_on_literals, crate::specs::Timed::timed_room))]
pub fn begins_anew()
    ensures { output (text (codes "lottery 3" ∷ codes "quantum 10" ∷ codes "for 40" ∷ codes "limits 2 1 2"
        ∷ codes "reuse" ∷ codes "mutex m" ∷ codes "script waiter" ∷ codes "lock m unlock m endscript"
        ∷ codes "script holder" ∷ codes "lock m compute 1 yield compute 1 unlock m compute 1000 endscript"
        ∷ codes "fundx 1 base h holder" ∷ codes "at 1" ∷ codes "fundx 9 base w waiter" ∷ codes "at 14"
        ∷ codes "unfund 2" ∷ codes "rmthr w" ∷ codes "rmtkt 2" ∷ codes "fundx 9 base v waiter" ∷ []))
        ≡ text (codes "0 0 funded 1 1" ∷ codes "0 1 draw 0.992 of 1 thread 1" ∷ codes "1 0 funded 2 2"
        ∷ codes "1 1 thread 1 ticks 1 lock 1 taken" ∷ codes "3 1 thread 1 ticks 2 yield"
        ∷ codes "3 1 draw 5.152 of 12.332 thread 2" ∷ codes "4 1 thread 2 ticks 1 lock 1 waits"
        ∷ codes "4 1 draw 31.496 of 33.332 thread 1" ∷ codes "6 1 thread 1 ticks 2 unlock 1 to 2 draw 1.363 of 9"
        ∷ codes "6 1 draw 43.738 of 95 thread 2" ∷ codes "7 1 thread 2 ticks 1 unlock 1 free"
        ∷ codes "8 1 thread 2 ticks 1 exit" ∷ codes "8 1 draw 1.828 of 5 thread 1" ∷ codes "14 0 done"
        ∷ codes "14 0 done" ∷ codes "14 0 done" ∷ codes "14 0 funded 2 2" ∷ codes "18 1 thread 1 ticks 10 expire"
        ∷ codes "18 1 draw 2.316 of 10 thread 2" ∷ codes "19 1 thread 2 ticks 1 lock 1 taken"
        ∷ codes "20 1 thread 2 ticks 1 unlock 1 free" ∷ codes "21 1 thread 2 ticks 1 exit"
        ∷ codes "21 1 draw 0.316 of 1 thread 1" ∷ codes "31 1 thread 1 ticks 10 expire"
        ∷ codes "31 1 draw 0.929 of 1 thread 1" ∷ codes "report"
        ∷ codes "thread 1 h quanta 5 ticks 25 share 80.645% due 65.161% value 100% ready waits 5 mean 1.2 longest 3"
        ∷ (codes "thread 2 v quanta 1 ticks 3 share 9.677% due 20.322% value 0%"
        ++ codes " ready waits 1 mean 4 longest 4 made 14 ended 21")
        ∷ codes "processor 1 quanta 8 idle 0 ticks 31 unused 0"
        ∷ codes "total turns 25 quanta 8 ticks 31 refused 0 left 0 ended 2 mean 7 longest 7" ∷ []) }
{}

/// A thread's line counts its refused traps, and the last line refused commands. Thread 1 locks a mutex that it owns,
/// and unlocks one that it doesn't own.
#[tactic(auto, unfolding(crate::specs::OnLiterals::texts_on_literals, crate::specs::Timed::timed_room))]
pub fn refused_traps()
    ensures { output (text (codes "lottery 3" ∷ codes "quantum 10" ∷ codes "for 12" ∷ codes "mutex m"
        ∷ codes "script twice" ∷ codes "lock m lock m unlock m unlock m endscript" ∷ codes "script once"
        ∷ codes "lock m unlock m endscript" ∷ codes "fundx 1 base a twice" ∷ codes "at 8" ∷ codes "kill a"
        ∷ codes "fundx 1 base b once" ∷ []))
        ≡ text (codes "0 0 funded 1 1" ∷ codes "0 1 draw 0.992 of 1 thread 1"
        ∷ codes "1 1 thread 1 ticks 1 lock 1 taken" ∷ codes "2 1 thread 1 ticks 1 refused 35 AlreadyOwner"
        ∷ codes "3 1 thread 1 ticks 1 unlock 1 free" ∷ codes "4 1 thread 1 ticks 1 refused 34 NotOwner"
        ∷ codes "5 1 thread 1 ticks 1 exit" ∷ codes "5 1 idle" ∷ codes "8 0 refused 12 DeadThread"
        ∷ codes "8 0 funded 2 2" ∷ codes "8 1 draw 0.738 of 1 thread 2" ∷ codes "9 1 thread 2 ticks 1 lock 1 taken"
        ∷ codes "10 1 thread 2 ticks 1 unlock 1 free" ∷ codes "11 1 thread 2 ticks 1 exit" ∷ codes "11 1 idle"
        ∷ codes "report"
        ∷ (codes "thread 1 a quanta 1 ticks 5 share 62.5% due 62.5% value 0%"
        ++ codes " ready waits 1 mean 0 longest 0 refused 2 made 0 ended 5")
        ∷ (codes "thread 2 b quanta 1 ticks 3 share 37.5% due 37.5% value 0%"
        ++ codes " ready waits 1 mean 0 longest 0 made 8 ended 11")
        ∷ codes "processor 1 quanta 2 idle 2 ticks 8 unused 4"
        ∷ codes "total turns 15 quanta 2 ticks 8 refused 1 left 0 ended 2 mean 4 longest 5" ∷ []) }
{}

/// A thread with a reused number has none of the refused traps of the thread before it.
#[tactic(auto, unfolding(crate::specs::OnLiterals::texts_on_literals, crate::specs::Timed::timed_room))]
pub fn refused_traps_anew()
    ensures { output (text (codes "lottery 3" ∷ codes "quantum 10" ∷ codes "for 10" ∷ codes "limits 1 1 1"
        ∷ codes "reuse" ∷ codes "script idler" ∷ codes "reply endscript" ∷ codes "fundx 1 base a idler" ∷ codes "at 5"
        ∷ codes "unfund 1" ∷ codes "rmthr a" ∷ codes "rmtkt 1" ∷ codes "fundx 1 base b idler" ∷ []))
        ≡ text (codes "0 0 funded 1 1" ∷ codes "0 1 draw 0.992 of 1 thread 1"
        ∷ codes "1 1 thread 1 ticks 1 refused 32 NothingToReply" ∷ codes "2 1 thread 1 ticks 1 exit"
        ∷ codes "2 1 idle" ∷ codes "5 0 done" ∷ codes "5 0 done" ∷ codes "5 0 done" ∷ codes "5 0 funded 1 1"
        ∷ codes "5 1 draw 0.921 of 1 thread 1" ∷ codes "6 1 thread 1 ticks 1 refused 32 NothingToReply"
        ∷ codes "7 1 thread 1 ticks 1 exit" ∷ codes "7 1 idle" ∷ codes "report"
        ∷ (codes "thread 1 b quanta 1 ticks 2 share 50% due 50% value 0%"
        ++ codes " ready waits 1 mean 0 longest 0 refused 1 made 5 ended 7")
        ∷ codes "processor 1 quanta 2 idle 2 ticks 4 unused 6"
        ∷ codes "total turns 13 quanta 2 ticks 4 refused 0 left 0 ended 2 mean 2 longest 2" ∷ []) }
{}

/// At the limit on turns the play ends before its time, and the report's last line says so. It doesn't make the draw at
/// tick 100.
#[tactic(auto, unfolding(crate::specs::OnLiterals::texts_on_literals))]
pub fn ends_early()
    ensures cut { few_turns 4 (text (codes "lottery 3" ∷ codes "for 300" ∷ codes "script spin"
        ∷ codes "compute 1000" ∷ codes "endscript" ∷ codes "fundx 10 base a spin" ∷ codes "fundx 5 base b spin" ∷ []))
        ≡ text (codes "0 0 funded 1 1" ∷ codes "0 0 funded 2 2" ∷ codes "0 1 draw 12.992 of 15 thread 2"
        ∷ codes "100 1 thread 2 ticks 100 expire" ∷ codes "report"
        ∷ codes "thread 1 a quanta 0 ticks 0 share 0% due 66.666% value 66.666%"
        ∷ codes "thread 2 b quanta 1 ticks 100 share 100% due 33.333% value 33.333% ready waits 1 mean 0 longest 0"
        ∷ codes "processor 1 quanta 1 idle 0 ticks 100 unused 0"
        ∷ codes "total turns 4 quanta 1 ticks 100 refused 0 left 0" ∷ codes "ended at 100 of 300: 4 turns made" ∷ []) }
    ensures no_room { few_turns 0 (text (codes "lottery 3" ∷ codes "for 10" ∷ []))
        ≡ text (codes "report" ∷ codes "processor 1 quanta 0 idle 0 ticks 0 unused 0"
        ∷ codes "total turns 0 quanta 0 ticks 0 refused 0 left 0" ∷ codes "ended at 0 of 10: 0 turns made" ∷ []) }
    ensures at_its_end { few_turns 2 (text (codes "lottery 3" ∷ codes "for 10" ∷ codes "at 10" ∷ codes "lstkt"
        ∷ codes "lscur" ∷ []))
        ≡ text (codes "0 1 idle" ∷ codes "10 0 lstkt 0" ∷ codes "report"
        ∷ codes "processor 1 quanta 0 idle 1 ticks 0 unused 10"
        ∷ codes "total turns 2 quanta 0 ticks 0 refused 0 left 1" ∷ codes "ended at 10 of 10: 2 turns made" ∷ []) }
    ensures in_time { few_turns 1 (text (codes "lottery 3" ∷ codes "for 10" ∷ []))
        ≡ text (codes "0 1 idle" ∷ codes "report" ∷ codes "processor 1 quanta 0 idle 1 ticks 0 unused 10"
        ∷ codes "total turns 1 quanta 0 ticks 0 refused 0 left 0" ∷ []) }
{}

/// The seeds computed from one number: that number, and for each further processor the next value of the generator.
pub fn given_seeds()
    ensures one { seeds_from 1 5 ≡ 5 ∷ [] }
    ensures three { seeds_from 3 5 ≡ 5 ∷ 241355 ∷ 913028970 ∷ [] }
    ensures last { seeds_from 2 2147483646 ≡ 2147483646 ∷ 2147435376 ∷ [] }
    ensures mixed { seeds_from 2 48271 ≡ map mixed_seed (1 ∷ 2 ∷ []) }
{}
