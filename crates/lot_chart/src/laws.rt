//! Bounds and order of pictures and tables, and the curves of turns with their ends: laws of the definitions, without
//! executable code.
ghost use Rattle.std.specs.Prelude.{◌≡◌, ◌==◌, ◌≤◌, ◌<◌, ◌+◌, ◌-◌, ◌*◌, ◌^◌, ℕ, [], ◌∷◌, false};
ghost use Rattle.std.specs.Prelude.{All, AllPairs, Contains, IsSome, List, true, filter, length, map};
ghost use Rattle.std.specs.Prelude.{slice_get, slice_index, None, Option, Some, unwrap_or};
ghost use Rattle.lot_machine.specs.Bounds.{IsBetween, IsWithinBounds};
ghost use Rattle.lot_curves.specs.declared.by.By.{By as What};
ghost use Rattle.lot_curves.specs.declared.by.By.TheVariants.{Thread};
ghost use Rattle.lot_curves.specs.declared.stretch.Measure.{Measure as Measured};
ghost use Rattle.lot_curves.specs.Curves as curves;
ghost use Rattle.lot_curves.specs.Stretches.{last_end, had_at, stretches_of};
ghost use Rattle.lot_chart.specs.declared.standings.Standing.{Standing as StandingRecord};
ghost use Rattle.lot_chart.specs.Charts.{chart};
ghost use Rattle.lot_chart.specs.Dues.{Dues, dues_in};
ghost use Rattle.lot_chart.specs.Lines.{lines_of};
ghost use Rattle.lot_chart.specs.Marks.{column_of, is_within, marked, stands_in};
ghost use Rattle.lot_chart.specs.Ranking.{IsBefore};
ghost use Rattle.lot_chart.specs.Standings.{ranked, selection};
ghost use Rattle.lot_chart.specs.Tables.{table};
ghost use Rattle.lot_machine.specs.declared.row.ThreadRow.{ThreadRow};
ghost use Rattle.lot_machine.specs.Rows.{thread_row};
ghost use Rattle.lot_machine.specs.State.{opening};
ghost use Rattle.lot_simulation.specs.Timed.{last_moment, timed_turns};
ghost use Rattle.lot_simulation.specs.TimedReport.{due_in, live_time};
ghost use Rattle.std.specs.List.Sorted.{IsNonDecreasing};
ghost use Rattle.lot_simulation.specs.World.{IsLegal, Program, system_run};
ghost use Rattle.lot_curves.specs.declared.stretch.Measure.TheVariants.{Ticks};
ghost use Rattle.lot_curves.specs.Curves.{curves_by, curves_of, stretches_made, timed_stretches};
ghost use Rattle.lot_playback.specs.Turns.{program_turns};
ghost use Rattle.lot_chart.specs.Noted.{curves_after};

/// The ranking is in order: each thread has run longer than those after it, or equally long with a lower number. It
/// holds exactly the threads of the row, each once, with its ticks.
pub fn rankings_are_in_order()
    ensures order { (row : List ℕ) → AllPairs IsBefore (ranked row) }
    ensures once { (row : List ℕ) (t : ℕ) → IsBetween 1 (length row) t
        → filter (λ s. s.thread == t) (ranked row) ≡ record { thread = t; ticks = slice_index row (t - 1) } ∷ [] }
    ensures len { (row : List ℕ) → length (ranked row) ≡ length row }
{}

/// A picture has at most twelve lines. Their names are at least 16 units apart, and none is below the plot.
pub fn names_do_not_overlap()
    ensures few { (curves : curves.Curves) → length (selection curves).shown ≤ 12 }
    ensures apart { (most : ℕ) (shown : List StandingRecord) (i : ℕ) → i + 1 < length shown
        → slice_index (map (λ line. line.place) (lines_of most shown)) i + 160
        ≤ slice_index (map (λ line. line.place) (lines_of most shown)) (i + 1) }
    ensures within { (most : ℕ) (shown : List StandingRecord) → length shown ≤ 12
        → All (λ line. line.place ≤ 4600) (lines_of most shown) }
{}

/// Each mark is at the time of a command in its column, after the left edge and not after the right one. Each command
/// in the picture is in a column with a mark.
pub fn marks_are_of_commands()
    ensures commands { (curves : curves.Curves) (column time : ℕ)
        → slice_get (marked curves) column ≡ Some (Some time)
        → Contains curves.commands time × (stands_in curves column time ≡ true) }
    ensures all { (curves : curves.Curves) (time : ℕ) → Contains curves.commands time
        → is_within curves time ≡ true
        → (earlier : ℕ) × (slice_get (marked curves) (column_of curves time) ≡ Some (Some earlier)) }
{}

/// A picture of threads whose names have at most 16 bytes, as all names do, has at most 107000 bytes plus ten for each
/// byte of its title, however many commands there are, and at most 34000 plus these ten if there are none. With dues it
/// has at most 137000 plus these ten. Any `Curves` meets the other premises too: it begins before 2 ^ 56, and its
/// window and the times of its commands are `u32`.
pub fn pictures_are_short()
    ensures marked { (title : List ℕ) (curves : curves.Curves) → All (λ time. time < 2 ^ 32) curves.commands
        → All (λ name. length name ≤ 16) curves.names → curves.origin < 2 ^ 56
        → unwrap_or curves.window 0 < 2 ^ 32 → length (chart title None curves) ≤ 107000 + 10 * length title }
    ensures plain { (title : List ℕ) (curves : curves.Curves) → curves.commands ≡ []
        → All (λ name. length name ≤ 16) curves.names → curves.origin < 2 ^ 56
        → unwrap_or curves.window 0 < 2 ^ 32 → length (chart title None curves) ≤ 34000 + 10 * length title }
    ensures due { (title : List ℕ) (dues : Option Dues) (curves : curves.Curves)
        → All (λ time. time < 2 ^ 32) curves.commands → All (λ name. length name ≤ 16) curves.names
        → curves.origin < 2 ^ 56
        → unwrap_or curves.window 0 < 2 ^ 32 → length (chart title dues curves) ≤ 137000 + 10 * length title }
{}

/// A table of threads whose names have at most 16 bytes, as all names do, has at most 4226 bytes plus 4238 for each
/// thread. Any `Curves` meets the other premises too: it has fewer than 2 ^ 32 stretches, their ticks and draws are
/// `u32`, and the last ends before 2 ^ 56.
pub fn tables_are_short()
    ensures { (measure : Measured) (curves : curves.Curves) → All (λ name. length name ≤ 16) curves.names
        → length curves.stretches < 2 ^ 32
        → All (λ s. s.ticks < 2 ^ 32) curves.stretches → All (λ s. s.draws < 2 ^ 32) curves.stretches
        → curves.origin + last_end curves.stretches < 2 ^ 64
        → length (table measure curves) ≤ 4226 + 4238 * length curves.names }
{}

/// A program's curves are those of its turns, for a schedule and for a timed program.
pub fn curves_are_those_of_the_turns()
    ensures thread { (program : Program) → curves_of program ≡ curves_after Thread program (program_turns program) }
    ensures timed { (by : What) (program : Program) → IsSome program.duration
        → curves_by by program ≡ curves_after by program (program_turns program) }
{}

/// A thread's curve ends at its ticks in the report of a legal history, in a system with room for less than 2 ^ 32
/// turns. With `reuse` it may end higher, since it is the curve of all threads that had the number.
pub fn curves_end_at_the_report()
    ensures ends { (program : Program) (room : ℕ) (history : List ℕ) (t : ℕ) (row : ThreadRow)
        → IsWithinBounds program.limits → IsLegal program room history → room < 2 ^ 32 → program.limits.reuse ≡ false
        → thread_row (system_run program history).state t ≡ Some row
        → had_at Ticks (last_end (stretches_made program history)) (stretches_of t (stretches_made program history))
        ≡ row.ticks }
    ensures within { (program : Program) (room : ℕ) (history : List ℕ) (t : ℕ) (row : ThreadRow)
        → IsWithinBounds program.limits → IsLegal program room history → room < 2 ^ 32
        → thread_row (system_run program history).state t ≡ Some row → row.ticks
        ≤ had_at Ticks (last_end (stretches_made program history)) (stretches_of t (stretches_made program history)) }
{}

/// For a timed program, a thread's curve ends at its ticks in the report, or higher with `reuse`.
pub fn timed_curves_end_at_the_report()
    ensures ends { (program : Program) (t : ℕ) (row : ThreadRow) → IsWithinBounds program.limits
        → program.limits.reuse ≡ false → thread_row (last_moment program).world.state t ≡ Some row
        → had_at Ticks (last_end (timed_stretches program)) (stretches_of t (timed_stretches program)) ≡ row.ticks }
    ensures within { (program : Program) (t : ℕ) (row : ThreadRow) → IsWithinBounds program.limits
        → thread_row (last_moment program).world.state t ≡ Some row
        → row.ticks ≤ had_at Ticks (last_end (timed_stretches program)) (stretches_of t (timed_stretches program)) }
{}

/// For a timed program whose commands come in the order of time: at the end of its picture the time during which live
/// threads had value is the report's, and a thread's due is the report's, or more if others had its number before.
pub fn dues_end_at_the_report()
    ensures live { (program : Program) → IsWithinBounds program.limits → IsNonDecreasing program.times
        → (dues_in Thread (opening program.limits) (timed_turns program)).live (last_end (timed_stretches program))
        ≡ live_time (opening program.limits) (timed_turns program) }
    ensures parts { (program : Program) → IsWithinBounds program.limits → IsNonDecreasing program.times → (t : ℕ)
        → due_in (opening program.limits) (timed_turns program) t
        ≤ (dues_in Thread (opening program.limits) (timed_turns program)).parts t (last_end (timed_stretches program)) }
{}
