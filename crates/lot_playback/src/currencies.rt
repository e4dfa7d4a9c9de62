//! The ticks of the threads below each currency, and the parts due to the currency.
ghost use Rattle.std.specs.Prelude.{◌≡◌, ℕ, ◌+◌, ◌*◌, ◌<◌, ◌≤◌, ◌^◌, [], ◌∷◌, ◌++◌, List, Some, length, slice_index};
ghost use Rattle.std.specs.Prelude.{◌==◌, IfOk, if◌then◌else◌, vec_len};
ghost use Rattle.lot_machine.specs.Bounds.{IsBetween, IsWithinBounds};
ghost use Rattle.lot_machine.specs.State.{State, opening, thread_on};
ghost use Rattle.lot_machine.specs.declared.event.Event.{Event as EventRecord};
ghost use Rattle.lot_machine.specs.declared.sizes.Sizes.{Sizes};
ghost use Rattle.lot_simulation.specs.Report as reports;
ghost use Rattle.lot_simulation.specs.Timed.{TimedTurn};
ghost use Rattle.lot_simulation.specs.TimedReport.{currency_due_in, currency_ticks_in, makes_currency};
ghost use Rattle.lot_simulation.specs.World.TurnAnswer.{Answered};
ghost use Rattle.lot_engine.specs.Searching.{HasLayoutFor};
ghost use Rattle.lot_engine.specs.Seen.{world_of};
ghost use Rattle.lot_playback.specs.Owed.{Answers};
ghost use Rattle.lot_playback.specs.TicksBelow.{AreCurrencies, HasFoundFor, HasOthersAbove, HaveAdded, HaveRun};

use crate::dues::DueTable;
use crate::sharers::Sharers;
use lot_engine::System;
use lot_graph::Above;
use lot_machine::{Event, Reply};
use std::alloc::{AllocError, Global};

/// The counts of a timed report for the currencies other than base.
#[derive(Drop)]
pub struct CurrencyTable {
    /// The ticks of the threads below each of them, from currency 1.
    pub ticks: Vec<u64>,
    /// The parts due to each of them.
    pub dues: DueTable,
    /// The search for the currencies above the thread that runs.
    pub above: Above,
}

impl CurrencyTable {
    /// The table of this many currencies, none of which exists yet, for a system's threads.
    pub(crate) fn open(
        alloc: Global,
        system: &System,
        currencies: u32,
    ) -> Result<CurrencyTable, AllocError>
        ensures none { (sizes : Sizes) → IsWithinBounds sizes
            → IfOk result (AreCurrencies (opening sizes) [] 0 (opening sizes)) }
        ensures ticks { IfOk result (λ table. vec_len table.ticks ≡ currencies) }
        ensures dues { IfOk result (λ table. vec_len table.dues.places ≡ currencies) }
        ensures layout { IfOk result (λ table. HasLayoutFor system.now.setting.program table.above) }
    {
        Ok(CurrencyTable {
            ticks: vec![in alloc; 0u64; currencies as usize]?,
            dues: DueTable::open(alloc, Sharers::Currencies, currencies)?,
            above: system.above(alloc)?,
        })
    }

    /// The ticks of the threads below the currency with this number.
    pub fn ticks_of(&self, currency: u32) -> u64
        requires { IsBetween 1 (vec_len self.now.ticks) currency }
        ensures { (first s : State) (done : List TimedTurn) (n : ℕ) → AreCurrencies first done n s self.now
            → currency < length s.currencies → result ≡ currency_ticks_in first done currency }
    {
        self.ticks[currency as usize - 1]
    }

    /// The parts of a tick due to the currency with this number.
    pub fn due_of(&self, currency: u32) -> u128
        requires there { IsBetween 1 (vec_len self.now.dues.places) currency }
        requires few { (first s : State) × (done : List TimedTurn) × (n : ℕ) × (n < 2 ^ 24)
            × AreCurrencies first done n s self.now }
        ensures due { (first s : State) (done : List TimedTurn) (n : ℕ) → AreCurrencies first done n s self.now
            → result ≡ currency_due_in first done currency }
        ensures few { result < 2 ^ 121 }
    {
        self.dues.of(currency)
    }

    /// Finds the currencies above the thread that runs on the processor, if one does, before its turn. It searches
    /// nothing if base is the only currency.
    pub(crate) fn look(&mut self, system: &mut System, processor: u32)
        requires layout { HasLayoutFor system.old.setting.program self.old.above }
        ensures same { system.new ≡ system.old }
        ensures rest { self.new ≡ record self.old { above = self.new.above } }
        ensures layout { self.new.above.layout ≡ self.old.above.layout }
        ensures found { (t : ℕ) → 0 < processor
            → thread_on (world_of system.old).state.records processor ≡ Some t
            → HasOthersAbove (world_of system.old).state t self.new.above }
    {
        if system.currency_count() <= 1 {
            return;
        }
        if let Some(work) = system.work(processor) {
            system.find_above(work.thread, &mut self.above);
        }
    }

    /// Records a turn at this time, with this event and reply, which led to this system. The search has found the
    /// currencies above the thread that ran.
    pub(crate) fn follow(&mut self, system: &mut System, time: u32, event: &Event, reply: Reply)
        requires bounds { IsWithinBounds system.old.setting.program.limits }
        requires room { vec_len self.old.ticks ≤ self.old.above.layout.currencies }
        requires few { (first s : State) × (done : List TimedTurn) × (n : ℕ) × (n < 2 ^ 24)
            × AreCurrencies first done n s self.old × Answers s event.now reply (world_of system.old).state
            × HasFoundFor s reply self.old.above }
        ensures same { system.new ≡ system.old }
        ensures above { self.new.above ≡ self.old.above }
        ensures ticks { length self.new.ticks.items ≡ length self.old.ticks.items }
        ensures dues { vec_len self.new.dues.places ≡ vec_len self.old.dues.places }
        ensures exact { (first s : State) (done : List TimedTurn) (n : ℕ) (turn : TimedTurn)
            → n < 2 ^ 24 → turn.time ≡ time → turn.turn.answer ≡ Answered event.now reply
            → turn.turn.world ≡ world_of system.old → Answers s event.now reply (world_of system.old).state
            → HasFoundFor s reply self.old.above → AreCurrencies first done n s self.old
            → AreCurrencies first (done ++ turn ∷ []) (n + 1) (world_of system.old).state self.new }
    {
        self.dues.follow(system, time, event, reply);
        self.add(Sharers::Currencies.count(system), ticks_in(reply));
        self.forget_new(reply);
    }

    /// Adds `ticks` to each currency found among the first `count`.
    fn add(&mut self, count: u32, ticks: u32)
        requires room { vec_len self.old.ticks ≤ self.old.above.layout.currencies }
        requires few { (place : ℕ) → place < length self.old.ticks.items
            → slice_index self.old.ticks.items place < 2 ^ 57 }
        ensures rest { self.new ≡ record self.old { ticks = self.new.ticks } }
        ensures added { HaveAdded self.old.above ticks count self.old.ticks.items self.new.ticks.items }
    {
        if ticks == 0 {
            return;
        }
        for place in 0..self.ticks.len().min(count as usize) {
            if self.above.has(place as u32 + 1) {
                self.ticks[place] += u64::from(ticks);
            }
        }
    }

    /// Sets a new currency's ticks to 0, whichever currency had its number before.
    fn forget_new(&mut self, reply: Reply)
        ensures rest { self.new ≡ record self.old { ticks = self.new.ticks } }
        ensures count { length self.new.ticks.items ≡ length self.old.ticks.items }
        ensures forgotten { (e : EventRecord) (place : ℕ) → place < length self.old.ticks.items
            → slice_index self.new.ticks.items place
            ≡ (if makes_currency (place + 1) (Answered e reply) then 0 else slice_index self.old.ticks.items place) }
    {
        if let Some(currency) = Sharers::Currencies.made(reply) {
            self.forget(currency);
        }
    }

    /// Sets the ticks of the currency with this number to 0.
    fn forget(&mut self, currency: u32)
        ensures rest { self.new ≡ record self.old { ticks = self.new.ticks } }
        ensures count { length self.new.ticks.items ≡ length self.old.ticks.items }
        ensures forgotten { (place : ℕ) → place < length self.old.ticks.items → slice_index self.new.ticks.items place
            ≡ (if currency == place + 1 then 0 else slice_index self.old.ticks.items place) }
    {
        if currency == 0 || self.ticks.len() < currency as usize {
            return;
        }
        self.ticks[currency as usize - 1] = 0;
    }
}

/// The ticks of the thread that ran, or 0 if none did.
fn ticks_in(reply: Reply) -> u32
    ensures { result ≡ reports.ticks_in reply }
{
    match reply {
        Reply::Expired { ticks, .. } | Reply::Trapped { ticks, .. } => ticks,
        _ => 0,
    }
}
