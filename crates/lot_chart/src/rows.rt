//! Worked rows for small runs, and their curves as a table and as a picture.
ghost use Rattle.std.specs.Prelude.{◌≡◌, None, Some, [], ◌∷◌, codes, map};
ghost use Rattle.lot_curves.specs.declared.by.By.TheVariants.{Thread, Currency};
ghost use Rattle.lot_curves.specs.declared.stretch.Measure.TheVariants.{Draws, Ticks};
ghost use Rattle.lot_curves.specs.Curves.{curves_by, curves_of, windowed};
ghost use Rattle.lot_curves.specs.Intervals.{curves_within};
ghost use Rattle.lot_simulation.specs.Grammar.{program_in};
ghost use Rattle.lot_simulation.specs.Samples.{text};
ghost use Rattle.lot_chart.specs.Axes.{time_marks};
ghost use Rattle.lot_chart.specs.Charts.{chart, command_marks, heights_label, most_shown};
ghost use Rattle.lot_chart.specs.Samples.{commanded_curves, commanded_marks, commanded_marks_within};
ghost use Rattle.lot_chart.specs.Dues.{dues_by};
ghost use Rattle.lot_chart.specs.Samples.{seven_tick_curves, three_tick_curves, three_tick_picture, three_ticks};
ghost use Rattle.lot_chart.specs.Samples.{three_tick_window_picture, two_rate_picture, two_rate_window_picture};
ghost use Rattle.lot_chart.specs.Samples.{all_to_the_first, moved_below, seven_tick_standings, thirteen, two_rates};
ghost use Rattle.lot_chart.specs.Standings.{selected};
ghost use Rattle.lot_chart.specs.Shown.{chart_output, shares_output, shown_of};
ghost use Rattle.lot_chart.specs.Tables.{table};

/// The ticks that two threads have run, and their won draws. A draw counts at its own time.
#[tactic(auto, unfolding(lot_simulation::specs::OnLiterals::texts_on_literals))]
pub fn tables()
    ensures ticks { table Ticks three_tick_curves
        ≡ text (codes "tick,a,b" ∷ codes "0,0,0" ∷ codes "1,1,0" ∷ codes "2,2,0" ∷ codes "3,2,1" ∷ []) }
    ensures draws { table Draws three_tick_curves
        ≡ text (codes "tick,a,b" ∷ codes "0,1,0" ∷ codes "1,2,0" ∷ codes "2,2,1" ∷ codes "3,2,1" ∷ []) }
{}

/// Between ticks 3 and 6 thread a runs for one tick more, and thread b, which wins at tick 4, for two. An interval
/// after the end begins at the end. From tick 3 on the marks of six ticks are at 4, 6 and 8.
#[tactic(auto, unfolding(lot_simulation::specs::OnLiterals::texts_on_literals))]
pub fn intervals()
    ensures ticks { table Ticks (curves_within (Some (record { from = 3; to = Some 6 })) seven_tick_curves)
        ≡ text (codes "tick,a,b" ∷ codes "3,0,0" ∷ codes "4,1,0" ∷ codes "5,1,1" ∷ codes "6,1,2" ∷ []) }
    ensures draws { table Draws (curves_within (Some (record { from = 3; to = Some 6 })) seven_tick_curves)
        ≡ text (codes "tick,a,b" ∷ codes "3,0,0" ∷ codes "4,0,1" ∷ codes "5,0,1" ∷ codes "6,0,1" ∷ []) }
    ensures late { table Ticks (curves_within (Some (record { from = 9; to = None })) seven_tick_curves)
        ≡ text (codes "tick,a,b" ∷ codes "7,0,0" ∷ []) }
    ensures marks { time_marks 3 6 ≡ 1 ∷ 3 ∷ 5 ∷ [] }
{}

/// Thread a runs to tick 4, and thread b from there to tick 7. In a window of 3 ticks each has a part at ticks 5 and 6.
/// No thread has run at tick 0. A draw counts in each window that includes its tick, the window's first tick too. In an
/// interval no window begins before it.
#[tactic(auto, unfolding(lot_simulation::specs::OnLiterals::texts_on_literals))]
pub fn windows()
    ensures ticks { table Ticks (windowed (Some 3) seven_tick_curves)
        ≡ text (codes "tick,a,b" ∷ codes "0,0.0,0.0" ∷ codes "1,100.0,0.0" ∷ codes "2,100.0,0.0" ∷ codes "3,100.0,0.0"
        ∷ codes "4,100.0,0.0" ∷ codes "5,66.7,33.3" ∷ codes "6,33.3,66.7" ∷ codes "7,0.0,100.0" ∷ []) }
    ensures draws { table Draws (windowed (Some 3) seven_tick_curves)
        ≡ text (codes "tick,a,b" ∷ codes "0,100.0,0.0" ∷ codes "1,100.0,0.0" ∷ codes "2,100.0,0.0"
        ∷ codes "3,100.0,0.0" ∷ codes "4,0.0,100.0" ∷ codes "5,0.0,100.0" ∷ codes "6,0.0,100.0" ∷ codes "7,0.0,100.0"
        ∷ []) }
    ensures interval { table Ticks
        (windowed (Some 2) (curves_within (Some (record { from = 3; to = Some 6 })) seven_tick_curves))
        ≡ text (codes "tick,a,b" ∷ codes "3,0.0,0.0" ∷ codes "4,100.0,0.0" ∷ codes "5,50.0,50.0" ∷ codes "6,0.0,100.0"
        ∷ []) }
{}

/// The run as a picture, with a title that needs escapes; and its shares of the last two ticks. It has a schedule, so
/// its picture shows no dues.
#[tactic(auto, unfolding(crate::specs::OnLiterals::pictures_on_literals))]
pub fn pictures()
    ensures whole { chart (codes "a < b") (dues_by Thread three_ticks) three_tick_curves ≡ three_tick_picture }
    ensures window { chart (codes "a < b") (dues_by Thread three_ticks) (windowed (Some 2) three_tick_curves)
        ≡ three_tick_window_picture }
{}

/// A picture of a timed program also shows the due of each line: its share of the ticks run, or of those in the window.
#[tactic(auto, unfolding(crate::specs::OnLiterals::timed_pictures_on_literals))]
pub fn dues()
    ensures whole { chart_output (codes "due") two_rates ≡ two_rate_picture }
    ensures window { shown_of
        (λ program. chart (codes "due") (dues_by Thread program) (windowed (Some 2) (curves_of program)))
        (program_in two_rates) ≡ two_rate_window_picture }
{}

/// The commands at 11, 12 and 20 are in one column and share a mark, and so do the two at 3500. The one at tick 0, on
/// the left edge, and the one after the last tick have none. From tick 11 to 3511 those at 12 and 20 are in columns of
/// their own, and the one at 11 is on the left edge.
#[tactic(auto, unfolding(crate::specs::OnLiterals::pictures_on_literals))]
pub fn marks()
    ensures whole { command_marks commanded_curves ≡ commanded_marks }
    ensures interval { command_marks (curves_within (Some (record { from = 11; to = Some 3511 })) commanded_curves)
        ≡ commanded_marks_within }
    ensures none { command_marks three_tick_curves ≡ [] }
{}

/// Thread 1 ends at tick 2. At tick 3 it is removed, and thread 3 gets its name. The removed thread keeps its column,
/// with its number as the name, and its ticks.
#[tactic(auto, unfolding(crate::specs::OnLiterals::outputs_on_literals))]
pub fn removed()
    ensures { shares_output Ticks (text (codes "lottery 3" ∷ codes "quantum 10" ∷ codes "for 6" ∷ codes "script short"
        ∷ codes "compute 1" ∷ codes "endscript" ∷ codes "fundx 1 base a short" ∷ codes "at 3" ∷ codes "unfund 1"
        ∷ codes "rmthr a" ∷ codes "mkthr b short" ∷ codes "fundx 1 base a short" ∷ []))
        ≡ text (codes "tick,1,b,a" ∷ codes "0,0,0,0" ∷ codes "1,1,0,0" ∷ codes "2,2,0,0" ∷ codes "3,2,0,0"
        ∷ codes "4,2,0,1" ∷ codes "5,2,0,2" ∷ []) }
{}

/// With `reuse` the thread made at tick 3 gets the number of the one removed there. Both share a column, with the ticks
/// of both and the name of the second.
#[tactic(auto, unfolding(crate::specs::OnLiterals::outputs_on_literals))]
pub fn numbers_again()
    ensures { shares_output Ticks (text (codes "lottery 3" ∷ codes "quantum 10" ∷ codes "for 6" ∷ codes "reuse"
        ∷ codes "script short" ∷ codes "compute 1" ∷ codes "endscript" ∷ codes "fundx 1 base a short" ∷ codes "at 3"
        ∷ codes "unfund 1" ∷ codes "rmthr a" ∷ codes "rmtkt 1" ∷ codes "fundx 1 base b short" ∷ []))
        ≡ text (codes "tick,b" ∷ codes "0,0" ∷ codes "1,1" ∷ codes "2,2" ∷ codes "3,2" ∷ codes "4,3" ∷ codes "5,4"
        ∷ []) }
{}

/// Each turn counts for the currencies that its thread stood below before it, nested ones too. The turn that ends at
/// tick 2 comes after the commands of that time. With a window, shares are of the ticks of all turns, so they may add
/// up to more than all.
#[tactic(auto, unfolding(crate::specs::OnLiterals::outputs_on_literals))]
pub fn currencies()
    ensures ticks { shown_of (λ program. table Ticks (curves_by Currency program)) (program_in moved_below)
        ≡ text (codes "tick,u,w,v" ∷ codes "0,0,0,0" ∷ codes "1,1,1,0" ∷ codes "2,1,1,1" ∷ codes "3,1,1,2"
        ∷ codes "4,1,1,3" ∷ []) }
    ensures window { shown_of (λ program. table Ticks (windowed (Some 2) (curves_by Currency program)))
        (program_in moved_below)
        ≡ text (codes "tick,u,w,v" ∷ codes "0,0.0,0.0,0.0" ∷ codes "1,100.0,100.0,0.0" ∷ codes "2,50.0,50.0,50.0"
        ∷ codes "3,0.0,0.0,100.0" ∷ codes "4,0.0,0.0,100.0" ∷ []) }
{}

/// Of thirteen threads eleven have lines, and the others one together; of thirteen currencies twelve have lines, and
/// the other has none. The label names the lines' subjects.
pub fn lines()
    ensures thread { map (λ s. s.thread) (selected (record seven_tick_curves { stretches = [] }) thirteen).shown
        ≡ 1 ∷ 2 ∷ 3 ∷ 4 ∷ 5 ∷ 6 ∷ 7 ∷ 8 ∷ 9 ∷ 10 ∷ 11 ∷ 0 ∷ [] }
    ensures currency { map (λ s. s.thread)
        (selected (record seven_tick_curves { by = Currency; stretches = [] }) thirteen).shown
        ≡ 1 ∷ 2 ∷ 3 ∷ 4 ∷ 5 ∷ 6 ∷ 7 ∷ 8 ∷ 9 ∷ 10 ∷ 11 ∷ 12 ∷ [] }
    ensures label { heights_label Currency None ≡ codes "what the threads of each currency have run, in ticks" }
{}

/// The top of a picture is the most ticks at the end of a line, or due to a line if that is more.
pub fn tops()
    ensures ran { most_shown seven_tick_curves None seven_tick_standings ≡ 4 }
    ensures due { most_shown seven_tick_curves (Some all_to_the_first) seven_tick_standings ≡ 7 }
{}
