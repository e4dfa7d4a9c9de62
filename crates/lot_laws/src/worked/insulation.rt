//! Worked rows for insulation: the values that one currency's inflation changes, and those that it leaves (3.2, 3.3).
ghost use Rattle.std.specs.Prelude.{◌≡◌, [], ◌∷◌, ◌++◌, codes};
ghost use Rattle.lot_machine.specs.declared.trap.Trap.TheVariants.{Exit};
ghost use Rattle.lot_machine.specs.declared.event.Event.TheVariants.{Draw, Trap};
ghost use Rattle.lot_machine.specs.declared.funding.Node.TheVariants.{Currency, Thread};
ghost use Rattle.lot_machine.specs.Worked.{after, values, fundx, settkt};
ghost use Rattle.lot_machine.specs.WorkedRuns.{currency_graph, two_to_one};
ghost use Rattle.lot_machine.specs.Touched.{Touches};
ghost use Rattle.lot_laws.specs.Runs.{two_currencies, three_threads, first_threads, first_of_three_runs};
ghost use Rattle.lot_laws.specs.Runs.{first_replaced, shared_thread, idle_currency};
ghost use Rattle.lot_laws.specs.Insulation.{Affects, ChangesInside, amount_in, worth_in};

/// A new thread in one of alice's currencies takes from her other threads, and nothing from bob's. So does a larger
/// amount of a ticket of hers, whether it funds a thread or a currency.
pub fn inflation()
    ensures before { values (after currency_graph) ≡ 400 ∷ 600 ∷ 2000 ∷ [] }
    ensures after { values (after (currency_graph ++ fundx 100 (codes "task1") (codes "thread1") ∷ []))
        ≡ 266 ∷ 399 ∷ 2000 ∷ 333 ∷ [] }
    ensures more { values (after (currency_graph ++ fundx 500 (codes "task2") (codes "thread1") ∷ []))
        ≡ 200 ∷ 300 ∷ 2000 ∷ 500 ∷ [] }
    ensures thread { values (after (currency_graph ++ settkt 6 700 ∷ [])) ≡ 700 ∷ 300 ∷ 2000 ∷ [] }
    ensures currency { values (after (currency_graph ++ fundx 100 (codes "task1") (codes "thread1") ∷ settkt 4 800
        ∷ [])) ≡ 355 ∷ 532 ∷ 2000 ∷ 111 ∷ [] }
{}

/// A new thread in one of two currencies takes from that currency's thread, and doesn't affect the other's. The whole
/// change is inside the currency.
pub fn other_currency()
    ensures unaffected { ¬ Affects (after two_currencies) (after (two_currencies
        ++ fundx 1 (codes "g") (codes "c") ∷ [])) (Thread 2) }
    ensures inside { ChangesInside (after two_currencies) (after (two_currencies
        ++ fundx 1 (codes "g") (codes "c") ∷ [])) 1 first_threads }
    ensures before { values (after two_currencies) ≡ 100 ∷ 100 ∷ [] }
    ensures after { values (after (two_currencies ++ fundx 1 (codes "g") (codes "c") ∷ [])) ≡ 50 ∷ 100 ∷ 50 ∷ [] }
{}

/// One of the first currency's two threads gets three times the amount, and so takes from the other, which the change
/// affects without touching it. It takes nothing from the second currency's thread, and the whole change is inside the
/// first currency.
pub fn larger_amount()
    ensures unaffected { ¬ Affects (after three_threads) (after (three_threads ++ settkt 3 3 ∷ [])) (Thread 2) }
    ensures inside { ChangesInside (after three_threads) (after (three_threads ++ settkt 3 3 ∷ [])) 1 first_threads }
    ensures untouched { ¬ Touches (after three_threads) (after (three_threads ++ settkt 3 3 ∷ [])) (Thread 3) }
    ensures affected { Affects (after three_threads) (after (three_threads ++ settkt 3 3 ∷ [])) (Thread 3) }
    ensures before { values (after three_threads) ≡ 50 ∷ 100 ∷ 50 ∷ [] }
    ensures after { values (after (three_threads ++ settkt 3 3 ∷ [])) ≡ 75 ∷ 100 ∷ 25 ∷ [] }
{}

/// Two tickets of a currency exchange their amounts: its active amount stays, and the threads exchange their values. So
/// with a constant active amount, a ticket with a new amount is worth as much as this amount was before.
pub fn exchanged_amounts()
    ensures amount { amount_in (after two_to_one) 1 ≡ 3 }
    ensures amount_stays { amount_in (after (two_to_one ++ settkt 2 1 ∷ settkt 3 2 ∷ [])) 1 ≡ 3 }
    ensures before { values (after two_to_one) ≡ 133 ∷ 66 ∷ [] }
    ensures after { values (after (two_to_one ++ settkt 2 1 ∷ settkt 3 2 ∷ [])) ≡ 66 ∷ 133 ∷ [] }
{}

/// A thread of the first currency exits, and a new one takes its place: the currency's active amount stays, and so do
/// the values of its other thread and of the other currency's.
pub fn replaced_thread()
    ensures amount { amount_in (after first_of_three_runs) 1 ≡ 2 }
    ensures amount_stays { amount_in (after (first_of_three_runs ++ first_replaced)) 1 ≡ 2 }
    ensures before { values (after first_of_three_runs) ≡ 50 ∷ 100 ∷ 50 ∷ [] }
    ensures after { values (after (first_of_three_runs ++ first_replaced)) ≡ 0 ∷ 100 ∷ 50 ∷ 50 ∷ [] }
{}

/// Two threads share a currency, and one exits. That touches neither the other thread nor an edge to it, but affects it
/// through the currency: the other is worth more afterwards. So an untouched node isn't enough.
pub fn untouched_but_affected()
    ensures untouched { ¬ Touches (after (two_to_one ++ Draw 1 0 ∷ [])) (after (two_to_one ++ Draw 1 0
        ∷ Trap 1 0 Exit ∷ [])) (Thread 2) }
    ensures affected { Affects (after (two_to_one ++ Draw 1 0 ∷ [])) (after (two_to_one ++ Draw 1 0
        ∷ Trap 1 0 Exit ∷ [])) (Thread 2) }
    ensures before { values (after (two_to_one ++ Draw 1 0 ∷ [])) ≡ 133 ∷ 66 ∷ [] }
    ensures after { values (after (two_to_one ++ Draw 1 0 ∷ Trap 1 0 Exit ∷ [])) ≡ 0 ∷ 200 ∷ [] }
{}

/// A currency's own value and active amount stay, but its thread, which another currency funds too, exits: a thread
/// of that other currency is worth more afterwards. So it isn't enough that the currency stays: only it, base and
/// nodes inside may lead inside.
pub fn funded_from_outside()
    ensures amount { amount_in (after shared_thread) 1 ≡ 2 }
    ensures amount_stays { amount_in (after (shared_thread ++ first_replaced)) 1 ≡ 2 }
    ensures value { worth_in (after shared_thread) (Currency 1) ≡ 100 }
    ensures value_stays { worth_in (after (shared_thread ++ first_replaced)) (Currency 1) ≡ 100 }
    ensures before { values (after shared_thread) ≡ 100 ∷ 50 ∷ 50 ∷ [] }
    ensures after { values (after (shared_thread ++ first_replaced)) ≡ 0 ∷ 50 ∷ 100 ∷ 50 ∷ [] }
{}

/// In a currency without active tickets, the first one activates the currency's backing tickets, which take from
/// those of the same issuer. So inflation is local only in a currency with active tickets. Until then the amounts
/// don't matter.
pub fn first_active_ticket()
    ensures none { amount_in (after idle_currency) 2 ≡ 0 }
    ensures before { values (after idle_currency) ≡ 100 ∷ [] }
    ensures after { values (after (idle_currency ++ fundx 1 (codes "h") (codes "b") ∷ [])) ≡ 50 ∷ 50 ∷ [] }
    ensures before_set { values (after (idle_currency ++ settkt 3 4 ∷ [])) ≡ 100 ∷ [] }
    ensures after_set { values (after (idle_currency ++ settkt 3 4 ∷ fundx 1 (codes "h") (codes "b") ∷ []))
        ≡ 20 ∷ 80 ∷ [] }
{}
