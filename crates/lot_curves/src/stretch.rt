//! The stretch of a turn: its ticks and draws for a thread.
ghost use Rattle.std.specs.Prelude.{◌≡◌, ◌<◌, ◌≤◌, ◌^◌, length};
ghost use Rattle.lot_machine.specs.declared.event.Event.{Event};
ghost use Rattle.lot_simulation.specs.World.TurnAnswer.{Answered};
ghost use Rattle.lot_curves.specs.Stretches as definitions;
ghost use Rattle.lot_curves.specs.Stretches.{in_column, stretch_between, stretch_of, stretches_of};
ghost use Rattle.lot_curves.specs.Windows as windows;

use lot_machine::Reply;

/// The measure of a curve.
#[derive(Clone, Copy, Debug, PartialEq, Eq)]
pub enum Measure {
    /// The ticks that a thread has run.
    Ticks,
    /// The draws that a thread has won.
    Draws,
}

/// The ticks and draws of a turn for its thread, which ran or won the draw; or for a currency above the thread.
#[derive(Clone, Copy, Debug, PartialEq, Eq)]
pub struct Stretch {
    /// The number of the thread, or 0 for a turn without a thread. By currency it is the number of a currency, or 0 in
    /// the stretch of the turn itself.
    pub thread: u32,
    /// The end of the turn.
    pub end: u64,
    /// The ticks that the thread ran, up to the end of the turn.
    pub ticks: u32,
    /// 1 if the thread won a draw, otherwise 0.
    pub draws: u32,
}

impl Stretch {
    /// The stretch of a turn with this reply, which ended at this time.
    pub fn new(end: u64, reply: Reply) -> Stretch
        ensures { (e : Event) → result ≡ stretch_of (record { time = end; answer = Answered e reply }) }
    {
        let (thread, ticks, draws) = match reply {
            Reply::Winner { thread, .. } => (thread, 0, 1),
            Reply::Expired { thread, ticks } | Reply::Trapped { thread, ticks, .. } => {
                (thread, ticks, 0)
            }
            _ => (0, 0, 0),
        };
        Stretch {
            thread,
            end,
            ticks,
            draws,
        }
    }

    /// The stretch with `number` in place of its own.
    pub fn in_column(self, number: u32) -> Stretch
        ensures { result ≡ in_column number self }
    {
        Stretch {
            thread: number,
            ..self
        }
    }

    /// The stretch's ticks or draws up to this tick.
    pub fn part_at(self, measure: Measure, tick: u64) -> u64
        ensures part { result ≡ definitions.part_at measure tick self }
        ensures small { result < 2 ^ 32 }
    {
        match measure {
            Measure::Ticks => u64::from(self.ticks).saturating_sub(self.end.saturating_sub(tick)),
            Measure::Draws => {
                if self.end <= tick {
                    u64::from(self.draws)
                } else {
                    0
                }
            }
        }
    }

    /// The stretch's ticks or draws in the window of this many ticks that ends at this tick, or up to the tick for
    /// `None`.
    pub fn part_in(self, measure: Measure, window: Option<u32>, tick: u64) -> u64
        ensures part { result ≡ windows.part_in measure window tick self }
        ensures small { result < 2 ^ 32 }
    {
        if window.is_none() {
            return self.part_at(measure, tick);
        }
        let recent = self.between(start_of(window, tick), tick);
        match measure {
            Measure::Ticks => u64::from(recent.ticks),
            Measure::Draws => u64::from(recent.draws),
        }
    }

    /// The stretch between two ticks: its ticks after the first and up to the second, and its draw if it was won at
    /// the first or later, and up to the second. Its end counts from the first.
    pub(crate) fn between(self, from: u64, to: u64) -> Stretch
        ensures { result ≡ stretch_between from to self }
    {
        let before = self.part_at(Measure::Ticks, from);
        let ticks = self.part_at(Measure::Ticks, to).saturating_sub(before);
        let draws = if from <= self.end {
            self.part_at(Measure::Draws, to)
        } else {
            0
        };
        Stretch {
            thread: self.thread,
            end: self.end.min(to).saturating_sub(from),
            ticks: ticks as u32,
            draws: draws as u32,
        }
    }
}

/// The tick at which the window of this many ticks that ends at this tick begins, or the first tick for `None`.
pub fn start_of(window: Option<u32>, tick: u64) -> u64
    ensures start { result ≡ windows.start_of window tick }
    ensures early { result ≤ tick }
{
    match window {
        None => 0,
        Some(window) => tick.saturating_sub(u64::from(window)),
    }
}

/// The sum of these stretches' ticks or draws in the window of this many ticks that ends at this tick, or up to the
/// tick for `None`.
pub fn had_in(measure: Measure, window: Option<u32>, tick: u64, stretches: &[Stretch]) -> u64
    requires { length stretches.now < 2 ^ 32 }
    ensures { result ≡ windows.had_in measure window tick stretches.now }
{
    let mut had = 0;
    for stretch in stretches {
        had += stretch.part_in(measure, window, tick);
    }
    had
}

/// Like `had_in`, for the stretches with this number.
pub fn had_by(
    number: u32,
    measure: Measure,
    window: Option<u32>,
    tick: u64,
    stretches: &[Stretch],
) -> u64
    requires { length stretches.now < 2 ^ 32 }
    ensures { result ≡ windows.had_in measure window tick (stretches_of number stretches.now) }
{
    let mut had = 0;
    for stretch in stretches {
        if stretch.thread == number {
            let part = stretch.part_in(measure, window, tick);
            had += part;
        }
    }
    had
}
