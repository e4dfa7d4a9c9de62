//! Laws of the definitions of curves, without executable code.
ghost use Rattle.std.specs.Prelude.{◌≡◌, ◌+◌, ◌-◌, ◌<◌, ◌≤◌, ◌^◌, ℕ, List, Option, Some, false, length, sum_by};
ghost use Rattle.lot_machine.specs.State.{State};
ghost use Rattle.lot_simulation.specs.TimedReport.{ticks_below};
ghost use Rattle.lot_simulation.specs.World.{Program, system_run};
ghost use Rattle.lot_curves.specs.declared.by.By.TheVariants as by;
ghost use Rattle.lot_curves.specs.declared.stretch.Measure.{Measure as Measured};
ghost use Rattle.lot_curves.specs.declared.stretch.Measure.TheVariants.{Draws, Ticks};
ghost use Rattle.lot_curves.specs.declared.stretch.Stretch.{Stretch as StretchRecord};
ghost use Rattle.lot_curves.specs.Curves as curves;
ghost use Rattle.lot_curves.specs.Curves.{name_in, sample_count, sample_tick, sample_ticks, share_at, timed_curves_by};
ghost use Rattle.lot_curves.specs.Curves.{total_at, windowed};
ghost use Rattle.lot_curves.specs.Intervals.{curves_between};
ghost use Rattle.lot_curves.specs.OwnTimes.{EndedTurn};
ghost use Rattle.lot_curves.specs.Stretches.{had_at, last_end, stretches_of, turn_stretches};
ghost use Rattle.lot_curves.specs.Windows.{had_in};

/// There are at most 201 samples, and the last is at the last tick.
pub fn samples_reach_the_last()
    ensures few { (last : ℕ) → length (sample_ticks last) ≤ 201 }
    ensures last { (last : ℕ) → sample_tick last (sample_count last) ≡ last }
{}

/// At the last tick a curve is the sum over all turns of the thread with its number, with `reuse` of all threads that
/// had it.
pub fn curves_end_at_all()
    ensures ticks { (curves : curves.Curves) (t : ℕ)
        → share_at Ticks curves (last_end curves.stretches) t
        ≡ sum_by (λ s. s.ticks) (stretches_of t curves.stretches) }
    ensures draws { (curves : curves.Curves) (t : ℕ)
        → share_at Draws curves (last_end curves.stretches) t
        ≡ sum_by (λ s. s.draws) (stretches_of t curves.stretches) }
{}

/// A curve never decreases.
pub fn curves_rise()
    ensures { (measure : Measured) (earlier later : ℕ) (stretches : List StretchRecord) → earlier ≤ later
        → had_at measure earlier stretches ≤ had_at measure later stretches }
{}

/// In an interval a curve is the rise of the whole curve from the interval's beginning on.
pub fn intervals_are_differences()
    ensures { (curves : curves.Curves) (from to tick t : ℕ) → from + tick ≤ to
        → share_at Ticks curves from t + share_at Ticks (curves_between from to curves) tick t
        ≡ share_at Ticks curves (from + tick) t }
{}

/// In a window that ends at a tick a curve is the rise of the whole curve from the window's beginning to the tick. A
/// window that begins at tick 0 has all draws up to the tick.
pub fn windows_are_differences()
    ensures ticks { (stretches : List StretchRecord) (window tick : ℕ)
        → had_at Ticks (tick - window) stretches + had_in Ticks (Some window) tick stretches
        ≡ had_at Ticks tick stretches }
    ensures draws { (stretches : List StretchRecord) (window tick : ℕ) → tick ≤ window
        → had_in Draws (Some window) tick stretches ≡ had_at Draws tick stretches }
{}

/// By currency a turn counts for each currency that its thread stood below when it was made: once, and with all of its
/// ticks. The ticks and draws of all turns are the same as by thread.
pub fn turns_count_for_currencies()
    ensures below { (s : State) (turn : EndedTurn) (c : ℕ) → 1 ≤ c → c < length s.currencies
        → sum_by (λ s. s.ticks) (stretches_of c (turn_stretches by.Currency s turn)) ≡ ticks_below s c turn.answer }
    ensures whole { (measure : Measured) (program : Program) (window : Option ℕ) (tick : ℕ)
        → total_at measure (windowed window (timed_curves_by by.Currency program)) tick
        ≡ total_at measure (windowed window (timed_curves_by by.Thread program)) tick }
{}

/// No two curves have one name, not even those of removed or unnamed threads, unless the program has plain names, which
/// may look like numbers; no text has them. Numbers of threads have at most 32 bits.
pub fn names_are_different()
    ensures { (program : Program) (history : List ℕ) (t u : ℕ) → program.limits.plain_names ≡ false
        → t < 2 ^ 32 → u < 2 ^ 32
        → name_in (system_run program history).state t ≡ name_in (system_run program history).state u → t ≡ u }
{}
