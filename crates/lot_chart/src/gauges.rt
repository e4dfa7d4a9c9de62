//! Sums that grow from turn to turn, sampled at ticks.
ghost use Rattle.std.specs.Prelude.{◌≡◌, ◌<◌, ◌≤◌, ◌^◌, ◌/◌, ◌+◌, ◌*◌, ◌-◌, [], IfOk, OnOk, Some, length};
ghost use Rattle.lot_simulation.specs.TimedReport.{tick_parts};
ghost use Rattle.lot_simulation.specs.Below.{worth_of};
ghost use Rattle.lot_engine.specs.Seen.{world_of};
ghost use Rattle.lot_curves.specs.Stretches.{last_end};
ghost use Rattle.lot_machine.specs.Facts.{IsSound};
ghost use Rattle.lot_chart.specs.Dues as dues;
ghost use Rattle.lot_chart.specs.Gauges.{AreRenewed, EachGauge, HasPassed, HaveAllPassed, HaveReadAll, IsNow};
ghost use Rattle.lot_chart.specs.Gauges.{IsColumn, IsRenewed, IsWithin, end_ticks, flow_at, grown, grown_in};
ghost use Rattle.lot_chart.specs.Gauges.{start_ticks};
ghost use Rattle.lot_chart.specs.Gauges.{thread_of};

use lot_curves::{By, Curves, start_of};
use lot_engine::{Settled, System};
use lot_machine::{CurrencyNumber, ThreadNumber};
use lot_playback::live_value;
use lot_simulation::TICK_PARTS;
use std::alloc::{AllocError, Global};

/// The growth of a sum.
#[derive(Clone, Copy)]
pub enum Growth {
    /// The ticks during which the total value is above 0.
    Live,
    /// The parts due to the thread or currency with this number, while its value is this.
    Due { thread: u32, value: u64 },
}

impl Growth {
    /// The growth over this many ticks, given the total value.
    fn amount(self, whole_value: u128, ticks: u64) -> u128
        requires small { whole_value < 2 ^ 96 }
        requires within { IsWithin whole_value self }
        ensures { result ≡ grown self whole_value ticks }
    {
        if whole_value == 0 {
            return 0;
        }
        match self {
            Growth::Live => u128::from(ticks),
            Growth::Due { value, .. } => u128::from(value) * rate_of(whole_value, ticks),
        }
    }

    /// The growth after a turn that led to this kernel.
    fn renewed(self, by: By, settled: Settled<'_>) -> Growth
        requires sound { IsSound settled.kernel.now.state }
        requires column { IsColumn by (thread_of self) }
        ensures thread { thread_of result ≡ thread_of self }
        ensures now { IsNow by settled.entry.kernel.now.state result }
    {
        match self {
            Growth::Live => Growth::Live,
            Growth::Due { thread, .. } => Growth::Due {
                thread,
                value: own_value(by, thread, settled),
            },
        }
    }
}

/// The value of a thread or currency, in base units.
fn own_value(by: By, number: u32, settled: Settled<'_>) -> u64
    requires sound { IsSound settled.kernel.now.state }
    requires column { IsColumn by (Some number) }
    ensures { result ≡ dues.own_value by settled.entry.kernel.now.state number }
{
    match by {
        By::Thread => settled.live_value(ThreadNumber { number }),
        By::Currency => currency_value(CurrencyNumber { number }, settled),
    }
}

/// The value of a currency, or 0 if it doesn't exist yet.
fn currency_value(currency: CurrencyNumber, settled: Settled<'_>) -> u64
    requires sound { IsSound settled.kernel.now.state }
    requires user { 0 < currency.number }
    ensures { result ≡ worth_of settled.entry.kernel.now.state currency.number }
{
    if currency.number >= settled.kernel.currency_count() {
        return 0;
    }
    settled.currency_value(currency)
}

/// The total value: of all live threads, or of all active tickets of base.
pub(crate) fn whole_value(by: By, system: &mut System) -> u128
    ensures same { system.new ≡ system.old }
    ensures value { result ≡ dues.whole_value by (world_of system.old).state }
    ensures small { result < 2 ^ 96 }
{
    match by {
        By::Thread => live_value(system),
        By::Currency => u128::from(system.base_value()),
    }
}

/// Parts due per base unit of this total value, above 0, after `ticks` ticks.
fn rate_of(whole_value: u128, ticks: u64) -> u128
    requires { (0 < whole_value) × (whole_value < 2 ^ 96) }
    ensures { result ≡ (ticks * tick_parts + (whole_value - 1)) / whole_value }
{
    (u128::from(ticks) * TICK_PARTS + (whole_value - 1)) / whole_value
}

/// A sum since the last turn.
#[derive(Clone, Copy)]
pub struct Flow {
    /// The growth of the sum.
    pub growth: Growth,
    /// The total value.
    pub whole_value: u128,
    /// The time of the last turn.
    pub since: u32,
    /// The sum at the last turn.
    pub sum: u128,
}

impl Flow {
    /// The sum at this tick, if no turn comes before it. It saturates at the largest number, since this function
    /// doesn't know how many turns there are; no program has enough turns to reach it.
    fn at(self, tick: u64) -> u128
        requires small { self.whole_value < 2 ^ 96 }
        requires within { IsWithin self.whole_value self.growth }
        ensures { result ≡ flow_at self tick }
    {
        let ticks = tick.saturating_sub(u64::from(self.since));
        self.sum
            .saturating_add(self.growth.amount(self.whole_value, ticks))
    }
}

/// The ticks at which sums are sampled, both in ascending order: the starts of all samples' windows, and their ends.
pub struct Marks {
    pub starts: Vec<u64>,
    pub ends: Vec<u64>,
}

impl Drop for Marks {
    // An explicit drop: code that drops a `Marks` is then proved without unfolding its fields.
    fn drop(self) {
        let Self { starts: _, ends: _ } = self;
    }
}

impl Marks {
    /// The ticks of the samples of these curves.
    pub(crate) fn of(alloc: Global, curves: &Curves) -> Result<Marks, AllocError>
        ensures starts { IfOk result (λ marks. marks.starts.items ≡ start_ticks curves.now) }
        ensures ends { IfOk result (λ marks. marks.ends.items ≡ end_ticks curves.now) }
        ensures early { curves.now.origin + last_end curves.now.stretches < 2 ^ 56 }
    {
        let ends = ends_of(alloc, curves)?;
        let starts = starts_of(alloc, curves)?;
        Ok(Marks { starts, ends })
    }
}

/// The ticks at which the samples' windows start.
fn starts_of(alloc: Global, curves: &Curves) -> Result<Vec<u64>, AllocError>
    ensures { IfOk result (λ ticks. ticks.items ≡ start_ticks curves.now) }
{
    let mut starts = Vec::new(alloc);
    for sample in 0..curves.sample_count() + 1 {
        let start = start_of(curves.window(), curves.sample_tick(sample));
        starts.push(curves.origin() + start)?;
    }
    Ok(starts)
}

/// The ticks of the samples.
fn ends_of(alloc: Global, curves: &Curves) -> Result<Vec<u64>, AllocError>
    ensures ticks { IfOk result (λ ticks. ticks.items ≡ end_ticks curves.now) }
    ensures early { curves.now.origin + last_end curves.now.stretches < 2 ^ 56 }
{
    let origin = curves.origin();
    let mut ends = Vec::new(alloc);
    for sample in 0..curves.sample_count() + 1 {
        ends.push(origin + curves.sample_tick(sample))?;
    }
    Ok(ends)
}

/// A sum, with its samples at the ticks that have passed.
pub struct Gauge {
    pub growth: Growth,
    /// The sum at the last turn.
    pub sum: u128,
    /// The sums at the starts of the samples' windows.
    pub starts: Vec<u128>,
    /// The sums at the ends of the samples' windows.
    pub ends: Vec<u128>,
}

impl Drop for Gauge {
    // An explicit drop: code that drops a `Gauge` is then proved without unfolding its fields.
    fn drop(self) {
        let Self {
            growth: _,
            sum: _,
            starts: _,
            ends: _,
        } = self;
    }
}

impl Gauge {
    /// A sum before the first turn.
    pub(crate) fn new(alloc: Global, growth: Growth) -> Gauge
        ensures growth { result.growth ≡ growth }
        ensures none { result.sum ≡ 0 }
        ensures starts { result.starts.items ≡ [] }
        ensures ends { result.ends.items ≡ [] }
    {
        Gauge {
            growth,
            sum: 0,
            starts: Vec::new(alloc),
            ends: Vec::new(alloc),
        }
    }

    /// Advances the time from that of the last turn, and samples the sum at the ticks passed.
    pub(crate) fn pass(
        &mut self,
        marks: &Marks,
        whole_value: u128,
        since: u32,
        time: u64,
    ) -> Result<(), AllocError>
        requires small { whole_value < 2 ^ 96 }
        requires within { IsWithin whole_value self.old.growth }
        ensures { OnOk result (HasPassed marks.now whole_value since time self.old self.new) }
    {
        let flow = Flow {
            growth: self.growth,
            whole_value,
            since,
            sum: self.sum,
        };
        read_until(&mut self.starts, marks.starts.as_slice(), flow, time)?;
        read_until(&mut self.ends, marks.ends.as_slice(), flow, time)?;
        self.sum = flow.at(time);
        Ok(())
    }

    /// Updates the value of its thread or currency from this kernel.
    fn renew(&mut self, by: By, settled: Settled<'_>)
        requires sound { IsSound settled.kernel.now.state }
        requires column { IsColumn by (thread_of self.old.growth) }
        ensures { IsRenewed by settled.entry.kernel.now.state self.old self.new }
    {
        self.growth = self.growth.renewed(by, settled);
    }

    /// The growth of the sum in the window of this sample.
    pub(crate) fn grown_in(&self, sample: usize) -> u128
        requires starts { sample < length self.now.starts.items }
        requires ends { sample < length self.now.ends.items }
        ensures { result ≡ grown_in self.now sample }
    {
        self.ends[sample].saturating_sub(self.starts[sample])
    }
}

/// Samples the sum at the next ticks up to this time.
fn read_until(read: &mut Vec<u128>, ticks: &[u64], flow: Flow, time: u64) -> Result<(), AllocError>
    requires small { flow.whole_value < 2 ^ 96 }
    requires within { IsWithin flow.whole_value flow.growth }
    ensures { OnOk result (HaveReadAll (flow_at flow) ticks.now time read.old.items read.new.items) }
{
    for place in read.len()..ticks.len() {
        if time < ticks[place] {
            return Ok(());
        }
        read.push(flow.at(ticks[place]))?;
    }
    Ok(())
}

/// Advances the time of each gauge.
pub(crate) fn pass_all(
    gauges: &mut [Gauge],
    marks: &Marks,
    whole_value: u128,
    since: u32,
    time: u64,
) -> Result<(), AllocError>
    requires small { whole_value < 2 ^ 96 }
    requires within { EachGauge (λ gauge. IsWithin whole_value gauge.growth) gauges.old }
    ensures { OnOk result (HaveAllPassed marks.now whole_value since time gauges.old gauges.new) }
{
    for place in 0..gauges.len() {
        let gauge = &mut gauges[place];
        gauge.pass(marks, whole_value, since, time)?;
    }
    Ok(())
}

/// Updates the values of all threads or currencies with gauges from this kernel.
pub(crate) fn renew_all(gauges: &mut [Gauge], by: By, settled: Settled<'_>)
    requires sound { IsSound settled.kernel.now.state }
    requires columns { EachGauge (λ gauge. IsColumn by (thread_of gauge.growth)) gauges.old }
    ensures { AreRenewed by settled.entry.kernel.now.state gauges.old gauges.new }
{
    for place in 0..gauges.len() {
        let gauge = &mut gauges[place];
        gauge.renew(by, settled);
    }
}
