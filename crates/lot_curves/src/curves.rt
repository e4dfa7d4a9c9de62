//! The ticks and the draws of each thread over time: a column for each number of a thread. With `reuse` a column counts
//! the turns of all threads that had its number, and has the name of the last. By currency there is a column for each
//! number of a currency other than base, with the ticks of the threads below it.
ghost use Rattle.std.specs.Prelude.{◌≡◌, ℕ, ◌+◌, ◌<◌, ◌≤◌, ◌^◌, ◌==◌, All, None, if◌then◌else◌, length, map};
ghost use Rattle.std.specs.Prelude.{slice_index, vec_len};
ghost use Rattle.lot_curves.specs.Curves as curves;
ghost use Rattle.lot_curves.specs.Curves.{row_at, windowed};
ghost use Rattle.lot_curves.specs.Intervals.{curves_between, curves_within};
ghost use Rattle.lot_curves.specs.Stretches.{last_end, stretch_between};

use crate::{By, Interval, Measure, Stretch, had_by, had_in};
use lot_machine::{Name, index_of};
use std::marker::Model;

/// The largest number of samples after tick 0.
const SAMPLES: u64 = 200;

/// The columns' names, and the stretches of the turns.
#[derive(Debug, Drop)]
pub struct Curves {
    /// The subjects of the columns.
    by: By,
    names: Vec<Name>,
    stretches: Vec<Stretch>,
    /// The tick at which the curves begin. Other ticks count from it, unless their docs say otherwise.
    origin: u64,
    /// The end of the last stretch.
    last: u64,
    /// The length in ticks of the window that ends at each tick, or `None` for all ticks up to it.
    window: Option<u32>,
    /// The times of the console's commands, counted from tick 0.
    commands: Vec<u32>,
}

impl Model for Curves {
    ghost use Rattle.std.specs.Prelude.{◌≡◌, ◌+◌, ◌<◌, ◌^◌, vec_len};
    ghost use Rattle.lot_curves.specs.Curves.{Curves as CurvesRecord};
    ghost use Rattle.lot_curves.specs.Stretches.{last_end};

    ghost Value = { CurvesRecord };

    ghost view = { λ c. record {
      by = c.by;
      names = c.names.items;
      stretches = c.stretches.items;
      origin = c.origin;
      window = c.window;
      commands = c.commands.items;
    } };

    ghost invariant = { λ c. record {
      last : c.last ≡ last_end c.stretches.items;
      early : c.origin + c.last < 2 ^ 56;
      threads : vec_len c.names < 2 ^ 32;
      turns : vec_len c.stretches < 2 ^ 32;
    } };
}

impl Curves {
    /// The curves of columns with these names, from the stretches of the turns and the times of the console's commands.
    /// They begin at tick 0, without a window.
    pub fn new(by: By, names: Vec<Name>, stretches: Vec<Stretch>, commands: Vec<u32>) -> Curves
        requires threads { vec_len names < 2 ^ 32 }
        requires turns { vec_len stretches < 2 ^ 32 }
        requires early { last_end stretches.items < 2 ^ 56 }
        ensures { result ≡ record {
          by = by;
          names = names.items;
          stretches = stretches.items;
          origin = 0;
          window = None;
          commands = commands.items;
        } }
    {
        let last = last_of(stretches.as_slice());
        Curves {
            by,
            names,
            stretches,
            origin: 0,
            last,
            window: None,
            commands,
        }
    }

    /// The curves of this interval, or all of them for `None`. An interval that begins after the last turn begins at
    /// its end instead.
    pub fn within(self, interval: Option<Interval>) -> Curves
        ensures { result ≡ curves_within interval self }
    {
        match interval {
            Some(interval) => {
                let last = self.last;
                self.between(interval.from.min(last), interval.to.unwrap_or(last))
            }
            None => self,
        }
    }

    /// The curves between two ticks.
    fn between(self, from: u64, to: u64) -> Curves
        requires { from ≤ last_end self.stretches }
        ensures { result ≡ curves_between from to self }
    {
        let Curves {
            by,
            names,
            mut stretches,
            origin,
            last,
            window,
            commands,
        } = self;
        cut(stretches.as_mut_slice(), from, to);
        Curves {
            by,
            names,
            stretches,
            origin: origin + from,
            last: last.min(to).saturating_sub(from),
            window,
            commands,
        }
    }

    /// The curves with a window of this many ticks, or unchanged for `None`.
    pub fn with_window(self, window: Option<u32>) -> Curves
        ensures { result ≡ windowed window self }
    {
        match window {
            Some(_) => Curves { window, ..self },
            None => self,
        }
    }

    /// The subjects of the columns.
    pub fn by(&self) -> By
        ensures { result ≡ self.now.by }
    {
        self.by
    }

    /// The columns' names, in ascending order of number: the name of the last thread or currency with the number, or
    /// the number itself if that thread or currency was removed or has no name.
    pub fn names(&self) -> &[Name]
        ensures names { result.now ≡ self.now.names }
        ensures few { length self.now.names < 2 ^ 32 }
    {
        self.names.as_slice()
    }

    /// The stretches of the turns.
    pub fn stretches(&self) -> &[Stretch]
        ensures stretches { result.now ≡ self.now.stretches }
        ensures few { length self.now.stretches < 2 ^ 32 }
    {
        self.stretches.as_slice()
    }

    /// The tick at which the curves begin. Other ticks count from it, unless their docs say otherwise.
    pub fn origin(&self) -> u64
        ensures origin { result ≡ self.now.origin }
        ensures early { result + last_end self.now.stretches < 2 ^ 56 }
    {
        self.origin
    }

    /// The length in ticks of the window that ends at each tick, or `None` for all ticks up to it.
    pub fn window(&self) -> Option<u32>
        ensures { result ≡ self.now.window }
    {
        self.window
    }

    /// The times of the console's commands, counted from tick 0 even if the curves begin later.
    pub fn commands(&self) -> &[u32]
        ensures { result.now ≡ self.now.commands }
    {
        self.commands.as_slice()
    }

    /// The end of the last turn.
    pub fn last(&self) -> u64
        ensures last { result ≡ last_end self.now.stretches }
        ensures early { result < 2 ^ 56 }
    {
        self.last
    }

    /// The number of samples after tick 0.
    pub fn sample_count(&self) -> u64
        ensures count { result ≡ curves.sample_count (last_end self.now.stretches) }
        ensures most { result ≤ 200 }
    {
        self.last.min(SAMPLES)
    }

    /// The tick of this sample; sample 0 is at tick 0.
    pub fn sample_tick(&self, sample: u64) -> u64
        requires { sample ≤ curves.sample_count (last_end self.now.stretches) }
        ensures tick { result ≡ curves.sample_tick (last_end self.now.stretches) sample }
        ensures within { result ≤ last_end self.now.stretches }
    {
        sample * self.last / self.sample_count().max(1)
    }

    /// Fills the row with each column's ticks or draws at this tick, in ascending order of number: all up to the tick,
    /// or those in the window that ends at it.
    pub fn fill_row(&self, measure: Measure, tick: u64, row: &mut [u64])
        requires { length row.old ≡ length self.now.names }
        ensures { row.new ≡ row_at measure self.now tick }
    {
        row.fill(0);
        let window = self.window();
        for stretch in self.stretches() {
            add_part(row, stretch.thread, stretch.part_in(measure, window, tick));
        }
    }

    /// The ticks or draws of all turns at this tick: all up to it, or those in the window that ends at it. By currency
    /// a turn counts once, however many currencies its thread stood below.
    pub fn total_at(&self, measure: Measure, tick: u64) -> u64
        ensures { result ≡ curves.total_at measure self.now tick }
    {
        let window = self.window();
        let stretches = self.stretches();
        match self.by {
            By::Thread => had_in(measure, window, tick, stretches),
            By::Currency => had_by(0, measure, window, tick, stretches),
        }
    }
}

/// Cuts the stretches to the part between two ticks.
fn cut(stretches: &mut [Stretch], from: u64, to: u64)
    ensures { stretches.new ≡ map (stretch_between from to) stretches.old }
{
    for place in 0..stretches.len() {
        stretches[place] = stretches[place].between(from, to);
    }
}

/// The end of the last of these.
fn last_of(stretches: &[Stretch]) -> u64
    ensures { result ≡ last_end stretches.now }
{
    let mut last = 0;
    for stretch in stretches {
        last = stretch.end.max(last);
    }
    last
}

/// Adds to the thread's element of the row, if it has one.
fn add_part(row: &mut [u64], thread: u32, part: u64)
    requires { (k : ℕ) → k < length row.old → slice_index row.old k + part < 2 ^ 64 }
    ensures { (k : ℕ) → k < length row.old
        → slice_index row.new k ≡ slice_index row.old k + (if thread == k + 1 then part else 0) }
{
    if thread == 0 || thread as usize > row.len() {
        return;
    }
    row[index_of(thread)] += part;
}
