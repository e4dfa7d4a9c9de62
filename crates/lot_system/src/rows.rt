//! Worked rows for cells and for figures over several plays, worked out by hand from the rules. Figures are in
//! thousandths.
ghost use Rattle.std.specs.Prelude.{◌≡◌, None, Some, [], ◌∷◌, false, true};
ghost use Rattle.lot_simulation.specs.Columns.{number, percent_of, quiet, share};
ghost use Rattle.lot_simulation.specs.TimedReport.{ended_cell, made_cell, wait_cells};
ghost use Rattle.lot_simulation.specs.declared.columns.Cell.TheVariants.{Empty, Figure, Unsaid};
ghost use Rattle.lot_simulation.specs.declared.columns.Table.TheVariants.{Currencies, Schedule, Timed};
ghost use Rattle.lot_system.specs.Seeds.{no_spread, seeds_between, spread_after, spreads_after, table_of};
ghost use Rattle.lot_system.specs.declared.form.ReportForm.TheVariants.{CurrencyTable, Lines, Table};

/// The number 5, a number that a line leaves out if it is 0, and a third and a part of nothing in percent.
pub fn cells()
    ensures number { number 5 ≡ Figure 5000 }
    ensures some { quiet 5 ≡ Figure 5000 }
    ensures unsaid { quiet 0 ≡ Unsaid }
    ensures third { percent_of 1 3 ≡ 33333 }
    ensures none { share 1 0 ≡ Figure 0 }
{}

/// A figure of 5, followed by one of 3. The least over one play is its figure. A play without the figure changes
/// nothing. A play that leaves out a 0 counts as 0.
pub fn spreads()
    ensures one { spread_after no_spread (Figure 5)
        ≡ record { plays = 1; told = true; sum = 5; least = 5; most = 5 } }
    ensures two { spread_after (spread_after no_spread (Figure 5)) (Figure 3)
        ≡ record { plays = 2; told = true; sum = 8; least = 3; most = 5 } }
    ensures unsaid { spread_after (spread_after no_spread Unsaid) (Figure 3)
        ≡ record { plays = 2; told = true; sum = 3; least = 0; most = 3 } }
    ensures untold { spread_after no_spread Unsaid
        ≡ record { plays = 1; told = false; sum = 0; least = 0; most = 0 } }
    ensures lacks { spread_after no_spread Empty ≡ no_spread }
    ensures fewer { spreads_after (no_spread ∷ no_spread ∷ []) (Figure 5 ∷ [])
        ≡ record { plays = 1; told = true; sum = 5; least = 5; most = 5 } ∷ no_spread ∷ [] }
{}

/// Two waits of 7 ticks in all, the longest of 5. Their mean is 3.5 ticks. A play without waits counts as 0 waits, and
/// has neither a mean nor a longest wait.
pub fn waits()
    ensures some { wait_cells (record { count = 2; total = 7; longest = 5; last = None; since = None })
        ≡ Figure 2000 ∷ Figure 3500 ∷ Figure 5000 ∷ [] }
    ensures none { wait_cells (record { count = 0; total = 0; longest = 0; last = None; since = Some 4 })
        ≡ Unsaid ∷ Empty ∷ Empty ∷ [] }
{}

/// A thread lived from 2 to 9, and a second one with its number lives since 9. A line leaves out that a thread which
/// hasn't ended was made at 0.
pub fn lives()
    ensures ended { ended_cell (record {
      count = 1;
      total = 7;
      longest = 7;
      last = Some (record { from = 2; to = 9 });
      since = None;
    }) ≡ Figure 9000 }
    ensures made { made_cell (record {
      count = 1;
      total = 7;
      longest = 7;
      last = Some (record { from = 2; to = 9 });
      since = None;
    }) ≡ Figure 2000 }
    ensures live { ended_cell (record {
      count = 1;
      total = 7;
      longest = 7;
      last = Some (record { from = 2; to = 9 });
      since = Some 9;
    }) ≡ Empty }
    ensures anew { made_cell (record {
      count = 1;
      total = 7;
      longest = 7;
      last = Some (record { from = 2; to = 9 });
      since = Some 9;
    }) ≡ Figure 9000 }
    ensures first { made_cell (record { count = 0; total = 0; longest = 0; last = None; since = Some 0 }) ≡ Unsaid }
{}

/// The seeds from 2 to 4, and from 4 to 2; and the tables of a timed program and of another program.
pub fn reports()
    ensures seeds { seeds_between 2 4 ≡ 2 ∷ 3 ∷ 4 ∷ [] }
    ensures first { seeds_between 4 2 ≡ 4 ∷ [] }
    ensures lines { table_of Lines (Some 9) ≡ None }
    ensures timed { table_of Table (Some 9) ≡ Some Timed }
    ensures currencies { table_of CurrencyTable (Some 9) ≡ Some Currencies }
    ensures scheduled { table_of CurrencyTable None ≡ Some Schedule }
{}
