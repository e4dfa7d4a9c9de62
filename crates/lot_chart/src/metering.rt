//! The dues of a picture's lines: the program plays a second time, once its lines and samples are known.
ghost use Rattle.std.specs.Prelude.{◌≡◌, ◌-◌, ◌*◌, ◌<◌, ◌≤◌, ◌^◌, ⊤, []};
ghost use Rattle.std.specs.Prelude.{List, IfOk, IsSome, OnOk, Some, length, sum_by};
ghost use Rattle.lot_machine.specs.Facts.{IsSound};
ghost use Rattle.lot_simulation.specs.TimedReport.{tick_parts};
ghost use Rattle.lot_curves.specs.Curves.{Curves as CurvesRecord, sample_count, sample_tick};
ghost use Rattle.lot_curves.specs.Stretches.{last_end};
ghost use Rattle.lot_engine.specs.Seen.{world_of};
ghost use Rattle.lot_playback.specs.Turns.{program_turns};
ghost use Rattle.lot_program.specs.Programs.{IsProgram};
ghost use Rattle.lot_chart.specs.declared.standings.Standing.{Standing as StandingRecord};
ghost use Rattle.lot_chart.specs.Dues as definitions;
ghost use Rattle.lot_chart.specs.Dues.{Dues as DuesRecord};
ghost use Rattle.lot_chart.specs.Gauges.{AreColumns, AreDues, AreNew, EachGauge, HasPassedAll, HasRenewed, HaveDues};
ghost use Rattle.lot_chart.specs.Gauges.{IsAwaiting, IsColumn, IsLineOf, IsMeter, IsNewMeter, IsWithin, grown_in};
ghost use Rattle.lot_chart.specs.Gauges.{thread_of};

use crate::Standing;
use crate::gauges::{Gauge, Growth, Marks, pass_all, renew_all, whole_value};
use lot_curves::{By, Curves};
use lot_engine::System;
use lot_playback::{Observer, Playback, Turn, is_dispatch};
use lot_program::Program;
use lot_simulation::TICK_PARTS;
use lot_system::play_through;
use std::alloc::{AllocError, Global};

/// The billionths of a whole.
pub(crate) const BILLION: u64 = 1000000000;

/// Follows the dues of threads or currencies, by their values, from turn to turn.
#[derive(Drop)]
pub struct Meter {
    /// The subjects of the lines.
    pub by: By,
    pub marks: Marks,
    /// The time of the last turn.
    pub time: u32,
    /// The total value since then: of all live threads, or of all active tickets of base.
    pub whole_value: u128,
    /// The ticks during which the total value was above 0.
    pub live: Gauge,
    /// The parts due to the thread or currency of each line.
    pub threads: Vec<Gauge>,
}

impl Observer for Meter {
    type Fault = AllocError;

    ghost observed = { IsMeter };

    ghost awaits = { λ program turns world actor first now. IsAwaiting program turns world first now };

    ghost stopped = { λ program turns first now fault. ⊤ };

    fn before(&mut self, program: &Program, system: &mut System, actor: u32) {}

    fn after(
        &mut self,
        program: &Program,
        system: &mut System,
        turn: &Turn,
    ) -> Result<(), AllocError> {
        // Turns of a schedule have no time, and no picture of them shows dues.
        let time = turn.time.unwrap_or(0);
        self.pass(u64::from(time))?;
        self.time = time;
        // A draw and the end of a quantum change no value, and a turn without a command has no event.
        if !turn.has_ended && is_dispatch(&turn.event) {
            return Ok(());
        }
        self.renew(system);
        Ok(())
    }
}

impl Meter {
    /// The meter for these lines before the first turn, when no thread exists.
    fn open(alloc: Global, curves: &Curves, shown: &[Standing]) -> Result<Meter, AllocError>
        ensures { IfOk result (IsNewMeter curves.now shown.now) }
    {
        Ok(Meter {
            by: curves.by(),
            marks: Marks::of(alloc, curves)?,
            time: 0,
            whole_value: 0,
            live: Gauge::new(alloc, Growth::Live),
            threads: gauges_of(alloc, shown)?,
        })
    }

    /// Advances the time of all gauges.
    fn pass(&mut self, time: u64) -> Result<(), AllocError>
        requires small { self.old.whole_value < 2 ^ 96 }
        requires clock { IsWithin self.old.whole_value self.old.live.growth }
        requires within { EachGauge (λ gauge. IsWithin self.old.whole_value gauge.growth) self.old.threads.items }
        ensures { OnOk result (HasPassedAll time self.old self.new) }
    {
        self.live
            .pass(&self.marks, self.whole_value, self.time, time)?;
        pass_all(
            self.threads.as_mut_slice(),
            &self.marks,
            self.whole_value,
            self.time,
            time,
        )
    }

    /// Updates the values from this system.
    fn renew(&mut self, system: &mut System)
        requires sound { IsSound (world_of system.old).state }
        requires columns { EachGauge (λ gauge. IsColumn self.old.by (thread_of gauge.growth)) self.old.threads.items }
        ensures same { system.new ≡ system.old }
        ensures renewed { HasRenewed (world_of system.old).state self.old self.new }
    {
        self.whole_value = whole_value(self.by, system);
        renew_all(self.threads.as_mut_slice(), self.by, system.settle());
    }
}

/// Plays the program with this meter. The playback lives in a function of its own: each way out of a function drops its
/// live values.
fn play_metered(alloc: Global, program: &Program, meter: &mut Meter) -> Result<(), AllocError>
    requires { IsMeter program.now [] meter.old meter.old }
    ensures { OnOk result (IsMeter program.now (program_turns program.now) meter.old meter.new) }
{
    let mut playback = Playback::open(alloc, program)?;
    play_through(program, &mut playback, meter)
}

/// A gauge for the thread or currency of each line.
fn gauges_of(alloc: Global, shown: &[Standing]) -> Result<Vec<Gauge>, AllocError>
    ensures { IfOk result (λ gauges. AreNew shown.now gauges.items) }
{
    let mut gauges = Vec::with_capacity(alloc, shown.len())?;
    for standing in shown {
        let thread = standing.thread;
        gauges.push(Gauge::new(alloc, Growth::Due { thread, value: 0 }))?;
    }
    Ok(gauges)
}

/// The dues of a picture's lines, at each of its samples.
pub struct LineDues {
    pub live: Gauge,
    pub threads: Vec<Gauge>,
}

impl Drop for LineDues {
    // An explicit drop: code that drops a `LineDues` is then proved without unfolding its fields.
    fn drop(self) {
        let Self {
            live: _,
            threads: _,
        } = self;
    }
}

impl LineDues {
    /// The dues of these lines of the program's curves, if the program is timed. Fails only if out of memory.
    pub(crate) fn of(
        alloc: Global,
        program: &Program,
        curves: &Curves,
        shown: &[Standing],
    ) -> Result<Option<LineDues>, AllocError>
        requires columns { AreColumns curves.now.by shown.now }
        ensures { IfOk result (HaveDues curves.now (definitions.dues_by curves.now.by program.now) shown.now) }
    {
        if program.duration().is_none() {
            return Ok(None);
        }
        let dues = LineDues::of_timed(alloc, program, curves, shown)?;
        Ok(Some(dues))
    }

    /// The dues of these lines of the timed program's curves.
    fn of_timed(
        alloc: Global,
        program: &Program,
        curves: &Curves,
        shown: &[Standing],
    ) -> Result<LineDues, AllocError>
        requires legal { IsProgram program.now }
        requires timed { IsSome program.now.duration }
        requires columns { AreColumns curves.now.by shown.now }
        ensures { IfOk result (λ dues.
            HaveDues curves.now (definitions.dues_by curves.now.by program.now) shown.now (Some dues)) }
    {
        let mut meter = Meter::open(alloc, curves, shown)?;
        play_metered(alloc, program, &mut meter)?;
        meter.pass(u64::MAX)?;
        let Meter { live, threads, .. } = meter;
        Ok(LineDues { live, threads })
    }

    /// The share due to the line at this index, at a sample, in billionths.
    pub(crate) fn share(&self, thread: u32, place: usize, sample: usize) -> u64
        requires due { (curves : CurvesRecord) × (dues : DuesRecord) × (shown : List StandingRecord)
            × AreDues curves dues shown self.now × IsLineOf shown place thread
            × (sample ≤ sample_count (last_end curves.stretches)) }
        ensures share { (curves : CurvesRecord) (dues : DuesRecord) (shown : List StandingRecord)
            → AreDues curves dues shown self.now → IsLineOf shown place thread
            → sample ≤ sample_count (last_end curves.stretches)
            → result
            ≡ definitions.line_share curves dues shown thread (sample_tick (last_end curves.stretches) sample) }
        ensures few { result ≤ 10 ^ 9 }
    {
        let live = self.live.grown_in(sample);
        let parts = if thread == 0 {
            self.left_in(sample)
        } else {
            self.threads[place].grown_in(sample)
        };
        due_share(live, parts)
    }

    /// The parts due, at a sample, to the threads without lines of their own.
    fn left_in(&self, sample: usize) -> u128
        requires live { grown_in self.now.live sample < 2 ^ 65 }
        requires there { (sample < length self.now.live.starts.items) × (sample < length self.now.live.ends.items) }
        requires each { EachGauge (λ gauge. (sample < length gauge.starts.items) × (sample < length gauge.ends.items))
            self.now.threads.items }
        ensures left { result ≡ grown_in self.now.live sample * tick_parts
            - sum_by (λ gauge. grown_in gauge sample) self.now.threads.items }
        ensures few { result < 2 ^ 125 }
    {
        let mut left = self.live.grown_in(sample) * TICK_PARTS;
        for gauge in &self.threads {
            left = left.saturating_sub(gauge.grown_in(sample));
        }
        left
    }
}

/// These parts as a share of the ticks `live`, in billionths.
fn due_share(live: u128, parts: u128) -> u64
    requires { live < 2 ^ 65 }
    ensures exact { result ≡ definitions.due_share live parts }
    ensures few { result ≤ 10 ^ 9 }
{
    let billionth = live * u128::from(BILLION);
    parts.div_ceil(billionth.max(1)).min(u128::from(BILLION)) as u64
}
