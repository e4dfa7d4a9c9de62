//! The dues of threads and currencies: their shares, by value, of the time during which the total value is above 0.
ghost use Rattle.std.specs.Prelude.{◌≡◌, ℕ, ◌+◌, ◌-◌, ◌*◌, ◌<◌, ◌≤◌, ◌^◌, [], ◌∷◌, ◌++◌, List, length};
ghost use Rattle.std.specs.Prelude.{slice_index_or, IfOk, IsTrue, ◌↔◌, vec_len};
ghost use Rattle.lot_machine.specs.Bounds.{IsBetween, IsWithinBounds};
ghost use Rattle.lot_machine.specs.State.{State, opening};
ghost use Rattle.lot_machine.specs.declared.event.Event.{Event as EventRecord};
ghost use Rattle.lot_machine.specs.declared.sizes.Sizes.{Sizes};
ghost use Rattle.lot_simulation.specs.Timed.{TimedTurn};
ghost use Rattle.lot_simulation.specs.TimedReport as reports;
ghost use Rattle.lot_simulation.specs.World.TurnAnswer.{Answered};
ghost use Rattle.lot_engine.specs.Seen.{world_of};
ghost use Rattle.lot_playback.specs.declared.dues.Owing.{Owing as OwingRecord};
ghost use Rattle.lot_playback.specs.declared.sharers.Sharers.{Sharers as SharersRecord};
ghost use Rattle.lot_playback.specs.Owed as owed;
ghost use Rattle.lot_playback.specs.Owed.{Answers, AreDue, AreOwed, HaveValues, IsOwed};
ghost use Rattle.lot_playback.specs.Sharing.{count_in, due_to, shared_ticks, value_in, whole_in};

use crate::sharers::Sharers;
use lot_engine::System;
use lot_machine::{Event, Reply};
use lot_simulation::TICK_PARTS;
use std::alloc::{AllocError, Global};

/// The parts of a tick due to a thread or a currency.
#[derive(Clone, Copy, Debug)]
pub struct Owing {
    /// Its value since the last change: 0 for a thread that isn't live.
    pub value: u64,
    /// The parts due per base unit of value at the last change.
    pub since: u128,
    /// The parts due to it at the last change.
    pub parts: u128,
}

/// No parts due, and no value.
const NOTHING: Owing = Owing {
    value: 0,
    since: 0,
    parts: 0,
};

/// The parts of a tick due to each thread, or to each currency.
#[derive(Debug, Drop)]
pub struct DueTable {
    /// The kind of sharers: threads or currencies.
    pub sharers: Sharers,
    /// The parts due to each, from number 1.
    pub places: Vec<Owing>,
    /// The total value, which the sharers' values divide.
    pub whole: u128,
    /// The parts due per base unit of value so far.
    pub rate: u128,
    /// The time of the last turn.
    pub time: u32,
    /// The ticks during which the total value was above 0.
    pub shared_time: u64,
}

impl DueTable {
    /// The table of `count` sharers, none of which exists yet.
    pub(crate) fn open(alloc: Global, sharers: Sharers, count: u32) -> Result<DueTable, AllocError>
        ensures none { (sizes : Sizes) → IsWithinBounds sizes
            → IfOk result (AreDue sharers (opening sizes) [] 0 (opening sizes)) }
        ensures count { IfOk result (λ table. vec_len table.places ≡ count) }
    {
        Ok(DueTable {
            sharers,
            places: vec![in alloc; NOTHING; count as usize]?,
            whole: 0,
            rate: 0,
            time: 0,
            shared_time: 0,
        })
    }

    /// The parts of a tick due to the thread or the currency with this number.
    pub fn of(&self, number: u32) -> u128
        requires there { IsBetween 1 (vec_len self.now.places) number }
        requires few { (sharers : SharersRecord) × (first s : State) × (done : List TimedTurn) × (n : ℕ) × (n < 2 ^ 24)
            × AreDue sharers first done n s self.now }
        ensures due { (sharers : SharersRecord) (first s : State) (done : List TimedTurn) (n : ℕ)
            → AreDue sharers first done n s self.now → result ≡ due_to sharers first done number }
        ensures few { result < 2 ^ 121 }
    {
        parts_of(self.places[number as usize - 1], self.rate)
    }

    /// Records a turn at this time, with this event and reply, which led to this system.
    pub(crate) fn follow(&mut self, system: &mut System, time: u32, event: &Event, reply: Reply)
        requires bounds { IsWithinBounds system.old.setting.program.limits }
        requires few { (sharers : SharersRecord) × (first s : State) × (done : List TimedTurn) × (n : ℕ) × (n < 2 ^ 24)
            × AreDue sharers first done n s self.old × Answers s event.now reply (world_of system.old).state }
        ensures same { system.new ≡ system.old }
        ensures count { vec_len self.new.places ≡ vec_len self.old.places }
        ensures due { (sharers : SharersRecord) (first s : State) (done : List TimedTurn) (n : ℕ) (turn : TimedTurn)
            → n < 2 ^ 24 → turn.time ≡ time → turn.turn.answer ≡ Answered event.now reply
            → turn.turn.world ≡ world_of system.old → Answers s event.now reply (world_of system.old).state
            → AreDue sharers first done n s self.old
            → AreDue sharers first (done ++ turn ∷ []) (n + 1) (world_of system.old).state self.new }
    {
        self.pass(time);
        if is_dispatch(event) {
            return;
        }
        self.revalue(system);
        self.forget_new(reply);
    }

    /// Advances the time, and shares the ticks passed.
    fn pass(&mut self, time: u32)
        requires few { (sharers : SharersRecord) × (first s : State) × (done : List TimedTurn) × (n : ℕ) × (n < 2 ^ 24)
            × AreDue sharers first done n s self.old }
        ensures rest { self.new ≡ record self.old {
          rate = self.new.rate;
          time = time;
          shared_time = self.new.shared_time;
        } }
        ensures rate { self.new.rate ≡ self.old.rate + reports.rate_in self.old.whole (time - self.old.time) }
        ensures shared { self.new.shared_time
            ≡ self.old.shared_time + shared_ticks self.old.whole (time - self.old.time) }
    {
        let ticks = u64::from(time.saturating_sub(self.time));
        self.time = time;
        if self.whole == 0 {
            return;
        }
        self.rate += rate_of(self.whole, ticks);
        self.shared_time += ticks;
    }

    /// Updates all values from this system.
    fn revalue(&mut self, system: &mut System)
        requires owed { (parts : ℕ → ℕ) × AreOwed self.old.rate parts self.old.places.items }
        requires few { (place : ℕ) (d : OwingRecord) → place < length self.old.places.items
            → count_in self.old.sharers (world_of system.old).state ≤ place
            → (slice_index_or self.old.places.items place d).value
            ≡ value_in self.old.sharers (world_of system.old).state (place + 1) }
        ensures same { system.new ≡ system.old }
        ensures rest { self.new ≡ record self.old { places = self.new.places; whole = self.new.whole } }
        ensures whole { self.new.whole ≡ whole_in self.old.sharers (world_of system.old).state }
        ensures count { vec_len self.new.places ≡ vec_len self.old.places }
        ensures owed { (parts : ℕ → ℕ) → AreOwed self.old.rate parts self.old.places.items
            → AreOwed self.old.rate parts self.new.places.items }
        ensures values { HaveValues (value_in self.old.sharers (world_of system.old).state) self.new.places.items }
    {
        let sharers = self.sharers;
        self.whole = sharers.whole(system);
        // Entries beyond the sharers made so far have no value.
        let count = self.places.len().min(sharers.count(system) as usize);
        for place in 0..count {
            let value = sharers.value(system, place as u32 + 1);
            self.places[place] = Owing {
                value,
                since: self.rate,
                parts: parts_of(self.places[place], self.rate),
            };
        }
    }

    /// Resets a new sharer's entry, if the reply says that the turn made one.
    fn forget_new(&mut self, reply: Reply)
        ensures rest { self.new ≡ record self.old { places = self.new.places } }
        ensures count { vec_len self.new.places ≡ vec_len self.old.places }
        ensures owed { (e : EventRecord) (parts : ℕ → ℕ) → AreOwed self.old.rate parts self.old.places.items
            → AreOwed self.old.rate (owed.parts_before self.old.sharers (Answered e reply) parts)
            self.new.places.items }
        ensures values { (values : ℕ → ℕ) → HaveValues values self.old.places.items
            → HaveValues values self.new.places.items }
    {
        if let Some(number) = self.sharers.made(reply) {
            self.forget(number);
        }
    }

    /// Resets the entry with this number, whoever had the number before.
    fn forget(&mut self, number: u32)
        ensures rest { self.new ≡ record self.old { places = self.new.places } }
        ensures count { vec_len self.new.places ≡ vec_len self.old.places }
        ensures owed { (parts : ℕ → ℕ) → AreOwed self.old.rate parts self.old.places.items
            → AreOwed self.old.rate (owed.forgotten number parts) self.new.places.items }
        ensures values { (values : ℕ → ℕ) → HaveValues values self.old.places.items
            → HaveValues values self.new.places.items }
    {
        if number == 0 || self.places.len() < number as usize {
            return;
        }
        let place = number as usize - 1;
        self.places[place] = Owing {
            value: self.places[place].value,
            since: self.rate,
            parts: 0,
        };
    }
}

/// The parts due to an entry when the parts due per base unit have reached `rate`.
fn parts_of(due: Owing, rate: u128) -> u128
    requires { (parts : ℕ) × IsOwed rate parts due }
    ensures { (parts : ℕ) → IsOwed rate parts due → result ≡ parts }
{
    due.parts + u128::from(due.value) * (rate - due.since)
}

/// Parts due per base unit of value after `ticks` ticks, rounded up so that an exact share doesn't read as less.
pub fn rate_of(whole: u128, ticks: u64) -> u128
    requires { whole < 2 ^ 96 }
    ensures rate { result ≡ reports.rate_in whole ticks }
    ensures few { ticks < 2 ^ 32 → result ≤ 2 ^ 97 }
{
    if whole == 0 {
        return 0;
    }
    (u128::from(ticks) * TICK_PARTS + (whole - 1)) / whole
}

/// Whether the event is a draw or the end of a quantum.
pub fn is_dispatch(event: &Event) -> bool
    ensures { IsTrue result ↔ owed.IsDispatch event.now }
{
    matches!(event, Event::Draw(_, _) | Event::Expire(_))
}
