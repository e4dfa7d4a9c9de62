//! Worked rows for currencies in the report of timed inputs.
ghost use Rattle.std.specs.Prelude.{◌≡◌, [], ◌∷◌, ◌++◌, codes};
ghost use Rattle.lot_simulation.specs.Output.{output};
ghost use Rattle.lot_simulation.specs.Samples.{text};

/// Nested currencies, and a thread that base alone funds. The lines of `alice` and `task` both count the ticks of
/// threads below `task`.
#[tactic(auto, unfolding(crate::specs::OnLiterals::texts_on_literals, crate::specs::Timed::timed_room))]
pub fn nested()
    ensures { output (text (codes "lottery 3" ∷ codes "quantum 10" ∷ codes "for 40" ∷ codes "seed 8"
        ∷ codes "script s" ∷ codes "compute 100" ∷ codes "endscript" ∷ codes "mkcur alice" ∷ codes "mkcur task"
        ∷ codes "mkcur bob" ∷ codes "mktkt 20 base" ∷ codes "fund 1 alice" ∷ codes "mktkt 3 alice"
        ∷ codes "fund 2 task" ∷ codes "fundx 1 alice a s" ∷ codes "fundx 1 task b s" ∷ codes "mktkt 10 base"
        ∷ codes "fund 5 bob" ∷ codes "fundx 1 bob c s" ∷ codes "fundx 10 base d s" ∷ []))
        ≡ text (codes "0 0 currency 1" ∷ codes "0 0 currency 2" ∷ codes "0 0 currency 3" ∷ codes "0 0 ticket 1"
        ∷ codes "0 0 done" ∷ codes "0 0 ticket 2" ∷ codes "0 0 done" ∷ codes "0 0 funded 3 1"
        ∷ codes "0 0 funded 4 2" ∷ codes "0 0 ticket 5" ∷ codes "0 0 done" ∷ codes "0 0 funded 6 3"
        ∷ codes "0 0 funded 7 4" ∷ codes "0 1 draw 0.125 of 40 thread 1" ∷ codes "10 1 thread 1 ticks 10 expire"
        ∷ codes "10 1 draw 26.867 of 40 thread 3" ∷ codes "20 1 thread 3 ticks 10 expire"
        ∷ codes "20 1 draw 9.996 of 40 thread 2" ∷ codes "30 1 thread 2 ticks 10 expire"
        ∷ codes "30 1 draw 0.128 of 40 thread 1" ∷ codes "40 1 thread 1 ticks 10 expire"
        ∷ codes "40 1 draw 37.339 of 40 thread 4" ∷ codes "report"
        ∷ codes "thread 1 a quanta 2 ticks 20 share 50% due 12.5% value 12.5% ready waits 2 mean 10 longest 20"
        ∷ codes "thread 2 b quanta 1 ticks 10 share 25% due 37.5% value 37.5% ready waits 1 mean 20 longest 20"
        ∷ codes "thread 3 c quanta 1 ticks 10 share 25% due 25% value 25% ready waits 1 mean 10 longest 10"
        ∷ codes "thread 4 d quanta 1 ticks 0 share 0% due 25% value 25% ready waits 1 mean 40 longest 40"
        ∷ codes "currency 1 alice ticks 30 share 75% due 50%" ∷ codes "currency 2 task ticks 10 share 25% due 37.5%"
        ∷ codes "currency 3 bob ticks 10 share 25% due 25%" ∷ codes "processor 1 quanta 5 idle 0 ticks 40 unused 0"
        ∷ codes "total turns 22 quanta 5 ticks 40 refused 0 left 0" ∷ []) }
{}

/// A server runs for its client's currency from the call to the reply, even after its own ticket is gone.
#[tactic(auto, unfolding(crate::specs::OnLiterals::texts_on_literals, crate::specs::Timed::timed_room))]
pub fn lent()
    ensures { output (text (codes "lottery 3" ∷ codes "quantum 10" ∷ codes "for 20" ∷ codes "port p"
        ∷ codes "script srv" ∷ codes "receive p" ∷ codes "compute 3" ∷ codes "reply" ∷ codes "endscript"
        ∷ codes "script cli" ∷ codes "call p" ∷ codes "endscript" ∷ codes "mkcur alice" ∷ codes "mktkt 5 base"
        ∷ codes "fund 1 alice" ∷ codes "fundx 1 alice c cli" ∷ codes "fundx 5 base s srv" ∷ codes "at 5"
        ∷ codes "unfund 3" ∷ []))
        ≡ text (codes "0 0 currency 1" ∷ codes "0 0 ticket 1" ∷ codes "0 0 done" ∷ codes "0 0 funded 2 1"
        ∷ codes "0 0 funded 3 2" ∷ codes "0 1 draw 7.992 of 10 thread 2"
        ∷ codes "1 1 thread 2 ticks 1 receive 1 waits" ∷ codes "1 1 draw 3.281 of 5 thread 1"
        ∷ codes "2 1 thread 1 ticks 1 call 1 served by 2" ∷ codes "2 1 draw 23.921 of 100 thread 2 got 0"
        ∷ codes "5 0 done" ∷ codes "6 1 thread 2 ticks 4 reply client 1" ∷ codes "7 1 thread 2 ticks 1 exit"
        ∷ codes "7 1 draw 46.363 of 50 thread 1 got 0" ∷ codes "8 1 thread 1 ticks 1 exit" ∷ codes "8 1 idle"
        ∷ codes "report"
        ∷ (codes "thread 1 c quanta 2 ticks 2 share 25% due 43.75% value 0%"
        ++ codes " ready waits 2 mean 1 longest 1 reply waits 1 mean 4 longest 4 made 0 ended 8")
        ∷ (codes "thread 2 s quanta 2 ticks 6 share 75% due 56.25% value 0%"
        ++ codes " ready waits 2 mean 0 longest 0 made 0 ended 7")
        ∷ codes "currency 1 alice ticks 6 share 75% due 75%" ∷ codes "processor 1 quanta 4 idle 1 ticks 8 unused 12"
        ∷ codes "total turns 16 quanta 4 ticks 8 refused 0 left 0 ended 2 mean 7.5 longest 8" ∷ []) }
{}

/// The owner of a mutex also runs for the currency of the thread that waits for it.
#[tactic(auto, unfolding(crate::specs::OnLiterals::texts_on_literals, crate::specs::Timed::timed_room))]
pub fn locked()
    ensures { output (text (codes "lottery 3" ∷ codes "quantum 5" ∷ codes "for 20" ∷ codes "seed 5"
        ∷ codes "mutex m" ∷ codes "script s" ∷ codes "lock m" ∷ codes "compute 7" ∷ codes "unlock m"
        ∷ codes "compute 2" ∷ codes "endscript" ∷ codes "mkcur alice" ∷ codes "mkcur bob" ∷ codes "mktkt 10 base"
        ∷ codes "fund 1 alice" ∷ codes "mktkt 5 base" ∷ codes "fund 2 bob" ∷ codes "fundx 1 alice a s"
        ∷ codes "fundx 1 bob b s" ∷ []))
        ≡ text (codes "0 0 currency 1" ∷ codes "0 0 currency 2" ∷ codes "0 0 ticket 1" ∷ codes "0 0 done"
        ∷ codes "0 0 ticket 2" ∷ codes "0 0 done" ∷ codes "0 0 funded 3 1" ∷ codes "0 0 funded 4 2"
        ∷ codes "0 1 draw 10.082 of 15 thread 2" ∷ codes "1 1 thread 2 ticks 1 lock 1 taken"
        ∷ codes "5 1 thread 2 ticks 4 expire" ∷ codes "5 1 draw 9.82 of 15 thread 1"
        ∷ codes "6 1 thread 1 ticks 1 lock 1 waits" ∷ codes "6 1 draw 10.257 of 15 thread 2"
        ∷ codes "10 1 thread 2 ticks 4 unlock 1 to 1 draw 9.078 of 10" ∷ codes "10 1 draw 46.105 of 56.25 thread 1"
        ∷ codes "15 1 thread 1 ticks 5 expire" ∷ codes "15 1 draw 7.828 of 16.25 thread 1"
        ∷ codes "18 1 thread 1 ticks 3 unlock 1 free" ∷ codes "20 1 thread 1 ticks 2 expire"
        ∷ codes "20 1 draw 10.906 of 16.25 thread 2" ∷ codes "report"
        ∷ (codes "thread 1 a quanta 3 ticks 11 share 55% due 53.333% value 66.666%"
        ++ codes " ready waits 3 mean 1.666 longest 5 mutex waits 1 mean 4 longest 4")
        ∷ codes "thread 2 b quanta 3 ticks 9 share 45% due 46.666% value 33.333% ready waits 3 mean 3.666 longest 10"
        ∷ codes "currency 1 alice ticks 15 share 75% due 66.666%"
        ∷ codes "currency 2 bob ticks 9 share 45% due 33.333%"
        ∷ codes "processor 1 quanta 6 idle 0 ticks 20 unused 0"
        ∷ codes "total turns 21 quanta 6 ticks 20 refused 0 left 0" ∷ []) }
{}

/// A currency with a reused number starts from nothing.
#[tactic(auto, unfolding(crate::specs::OnLiterals::texts_on_literals, crate::specs::Timed::timed_room))]
pub fn again()
    ensures { output (text (codes "lottery 3" ∷ codes "quantum 10" ∷ codes "for 25" ∷ codes "reuse"
        ∷ codes "script s" ∷ codes "compute 100" ∷ codes "endscript" ∷ codes "mkcur alice" ∷ codes "mktkt 5 base"
        ∷ codes "fund 1 alice" ∷ codes "fundx 1 alice a s" ∷ codes "at 10" ∷ codes "kill a" ∷ codes "unfund 2"
        ∷ codes "rmtkt 2" ∷ codes "unfund 1" ∷ codes "rmcur alice" ∷ codes "mkcur carol" ∷ codes "fund 1 carol"
        ∷ codes "fundx 1 carol b s" ∷ []))
        ≡ text (codes "0 0 currency 1" ∷ codes "0 0 ticket 1" ∷ codes "0 0 done" ∷ codes "0 0 funded 2 1"
        ∷ codes "0 1 draw 2.992 of 5 thread 1" ∷ codes "10 0 done" ∷ codes "10 0 done" ∷ codes "10 0 done"
        ∷ codes "10 0 done" ∷ codes "10 0 done" ∷ codes "10 0 currency 1" ∷ codes "10 0 done"
        ∷ codes "10 0 funded 2 2" ∷ codes "10 1 draw 3.281 of 5 thread 2" ∷ codes "20 1 thread 2 ticks 10 expire"
        ∷ codes "20 1 draw 3.921 of 5 thread 2" ∷ codes "report"
        ∷ codes "thread 1 a quanta 1 ticks 0 share 0% due 50% value 0% ready waits 1 mean 0 longest 0 made 0 ended 10"
        ∷ codes "thread 2 b quanta 2 ticks 10 share 100% due 50% value 100% ready waits 2 mean 0 longest 0 made 10"
        ∷ codes "currency 1 carol ticks 10 share 100% due 50%"
        ∷ codes "processor 1 quanta 3 idle 0 ticks 10 unused 10"
        ∷ codes "total turns 16 quanta 3 ticks 10 refused 0 left 0 ended 1 mean 10 longest 10" ∷ []) }
{}
