//! Worked rows for what stays inside a currency: values, weights and wins (3.2, 3.3, 3.4).
ghost use Rattle.std.specs.Prelude.{◌≡◌, true, [], ◌∷◌, ◌++◌, codes};
ghost use Rattle.lot_machine.specs.declared.trap.Trap.TheVariants.{Yield};
ghost use Rattle.lot_machine.specs.declared.event.Event.TheVariants.{Draw, Expire, Trap};
ghost use Rattle.lot_machine.specs.declared.funding.Node.TheVariants.{Currency};
ghost use Rattle.lot_machine.specs.Facts.{is_won_by, total_weight};
ghost use Rattle.lot_machine.specs.State.{funding_of};
ghost use Rattle.lot_machine.specs.Step.{step};
ghost use Rattle.lot_machine.specs.Worked.{after, base, values, fund, fundx, mktkt, settkt};
ghost use Rattle.lot_laws.specs.Runs.{two_currencies, three_threads, first_threads};
ghost use Rattle.lot_laws.specs.Insulation.{worth_in};
ghost use Rattle.lot_laws.specs.Inside.{EnclosesAlone, value_inside, weight_inside, weighed_ticks, wins_inside};
ghost use Rattle.lot_laws.specs.TwoRuns.{AllAlike, weight_outside};

/// A currency of 100 base funds a thread. A ticket of a thousand times that thread's amount funds a new one: together
/// they are worth 99, less than the 100 that they share, and win with 99 of 199 numbers.
pub fn inflated()
    ensures currency { worth_in (after (two_currencies ++ fundx 1000 (codes "g") (codes "c") ∷ [])) (Currency 1) ≡ 100 }
    ensures before { value_inside (after two_currencies) first_threads ≡ 100 }
    ensures after { value_inside (after (two_currencies ++ fundx 1000 (codes "g") (codes "c") ∷ [])) first_threads
        ≡ 99 }
    ensures weight { weight_inside (after (two_currencies ++ fundx 1000 (codes "g") (codes "c") ∷ [])) first_threads
        ≡ 99 }
    ensures total { total_weight (after (two_currencies ++ fundx 1000 (codes "g") (codes "c") ∷ [])) ≡ 199 }
    ensures wins { wins_inside (after (two_currencies ++ fundx 1000 (codes "g") (codes "c") ∷ [])) 1 first_threads
        ≡ 99 }
{}

/// The first of two currencies of 100 base alone funds two threads, which are worth 50 each. So the law applies, and
/// its bound is met.
pub fn funded_alone()
    ensures alone { EnclosesAlone (funding_of (after three_threads)) 1 first_threads }
    ensures currency { worth_in (after three_threads) (Currency 1) ≡ 100 }
    ensures value { value_inside (after three_threads) first_threads ≡ 100 }
    ensures weight { weight_inside (after three_threads) first_threads ≡ 100 }
    ensures wins { wins_inside (after three_threads) 1 first_threads ≡ 100 }
{}

/// The currency's thread yields after 20 ticks of a quantum of 100, so it weighs 500, and 500 times 20 is 100 times
/// 100: the compensation passes on no more than the currency's value over the ticks.
pub fn compensated()
    ensures currency { worth_in (after (two_currencies ++ Draw 1 0 ∷ Trap 1 19 Yield ∷ [])) (Currency 1) ≡ 100 }
    ensures value { value_inside (after (two_currencies ++ Draw 1 0 ∷ Trap 1 19 Yield ∷ [])) first_threads ≡ 100 }
    ensures weight { weight_inside (after (two_currencies ++ Draw 1 0 ∷ Trap 1 19 Yield ∷ [])) first_threads ≡ 500 }
    ensures ticks { weighed_ticks (after (two_currencies ++ Draw 1 0 ∷ Trap 1 19 Yield ∷ [])) first_threads ≡ 10000 }
{}

/// If base funds a thread inside too, what is inside is worth more than the currency: 150 to 100. So it isn't enough
/// that the currency encloses the thread; it has to fund it alone.
pub fn funded_by_base()
    ensures currency { worth_in (after (two_currencies ++ mktkt 50 base ∷ fund 5 (codes "a") ∷ [])) (Currency 1)
        ≡ 100 }
    ensures inside { value_inside (after (two_currencies ++ mktkt 50 base ∷ fund 5 (codes "a") ∷ [])) first_threads
        ≡ 150 }
    ensures values { values (after (two_currencies ++ mktkt 50 base ∷ fund 5 (codes "a") ∷ [])) ≡ 150 ∷ 100 ∷ [] }
{}

/// Two runs from one state, in which two currencies of 100 base fund threads. In the second run a ticket inside the
/// first currency gets three times its amount. In both the second currency then gets 300 base, and its thread, with
/// different numbers, wins a draw and uses up its quantum: what is outside the first currency is the same in both. With
/// the number 60 a thread inside would win in the second run.
pub fn two_runs()
    ensures alike { AllAlike (after three_threads) (after three_threads) 1 first_threads (([], settkt 3 3 ∷ [])
        ∷ (settkt 2 300 ∷ [], settkt 2 300 ∷ []) ∷ (Draw 1 60 ∷ [], Draw 1 100 ∷ []) ∷ (Expire 1 ∷ [], Expire 1 ∷ [])
        ∷ []) }
    ensures first { values (after (three_threads ++ settkt 2 300 ∷ Draw 1 60 ∷ Expire 1 ∷ []))
        ≡ 50 ∷ 300 ∷ 50 ∷ [] }
    ensures second { values (after (three_threads ++ settkt 3 3 ∷ settkt 2 300 ∷ Draw 1 100 ∷ Expire 1 ∷ []))
        ≡ 75 ∷ 300 ∷ 25 ∷ [] }
    ensures outside { weight_outside (after (three_threads ++ settkt 2 300 ∷ [])) first_threads ≡ 300 }
    ensures same_outside { weight_outside (after (three_threads ++ settkt 3 3 ∷ settkt 2 300 ∷ [])) first_threads
        ≡ 300 }
    ensures total { total_weight (after (three_threads ++ settkt 2 300 ∷ [])) ≡ 400 }
    ensures same_total { total_weight (after (three_threads ++ settkt 3 3 ∷ settkt 2 300 ∷ [])) ≡ 400 }
    ensures wins { is_won_by 2 (step (after (three_threads ++ settkt 2 300 ∷ [])) (Draw 1 60)).reply ≡ true }
    ensures other_wins { is_won_by 1 (step (after (three_threads ++ settkt 3 3 ∷ settkt 2 300 ∷ [])) (Draw 1 60)).reply
        ≡ true }
{}
