//! The station, and the calls of its seats.
ghost use Rattle.std.specs.Prelude.{◌≡◌, ℕ, ◌+◌, ◌<◌, ◌↔◌, false, [], ◌∷◌, All, EachIndex, Some, length, map};
ghost use Rattle.std.specs.Prelude.{slice_get, IfOk, IfErr, IfSome, IsTrue};
ghost use Rattle.crossbeam_queue.specs.Passes.{view, IsPassOf, ruled_capacity};
ghost use Rattle.lot_engine.specs.Seen.{Seen};
ghost use Rattle.lot_engine.specs.Turns.{Faults, IsWorkOf};
ghost use Rattle.lot_station.specs.declared.baton.view.Claim.{Claim};
ghost use Rattle.lot_station.specs.BatonViews.{Extends, Next, SeesAll, gave, holding, resting, took};
ghost use Rattle.lot_station.specs.BatonSeats.{Dealt, HasEachSeat, IsSameSeat, IsSeatOf, Looks, Shows, Turns, claim_of};
ghost use Rattle.lot_station.specs.BatonSums.{AddUp, CountsAddUp};
ghost use Rattle.lot_station.specs.Settings.{IsLegalIn, counts_in};

use crate::baton::rule::{Both, Deals, Gives, Notes, OneBaton, Opens, Takes};
use crate::baton::seat::{BatonSeat, Token};
use crate::baton::view::View;
use crossbeam_queue::RuledArrayQueue;
use lot_engine::{Answer, Counts, System, TurnFault, Work};
use lot_script::Slice;
use std::alloc::{AllocError, Global};
use std::marker::Model;
use std::sync::Wait;
use std::thread;

type Queue = RuledArrayQueue<System, View, OneBaton>;

/// The station of one system, which its seats share, on any threads.
#[derive(Drop)]
pub struct BatonStation {
    queue: Queue,
    processors: u32,
}

impl Model for BatonStation {
    ghost use Rattle.std.specs.Prelude.{◌≡◌};
    ghost use Rattle.crossbeam_queue.specs.Passes.{ruled_capacity};
    ghost use Rattle.lot_station.specs.BatonSeats.{Baton, baton};

    ghost Value = { Baton };

    ghost view = { λ s. baton s.queue.table.shared.table_id s.processors };

    ghost invariant = { λ s. ruled_capacity s.queue ≡ 1 };
}

/// The error of closing a station without exactly one seat for each actor, in order. It returns both.
#[derive(Drop)]
pub struct SeatMissing {
    pub station: BatonStation,
    pub seats: Vec<BatonSeat>,
}

impl BatonStation {
    /// Puts the system into a queue, and deals a seat for each actor, in order. Drops the system if out of memory.
    ///
    /// The system has no timer, as in `Station::open`.
    pub fn open(alloc: Global, system: System) -> Result<(BatonStation, Vec<BatonSeat>), AllocError>
        requires { system.setting.timer ≡ false }
        ensures processors { IfOk result (λ r. r.0.processors ≡ system.setting.program.limits.processors) }
        ensures seats { IfOk result (λ r. length r.1.items ≡ system.setting.program.limits.processors + 1) }
        ensures dealt { IfOk result (λ r. Dealt r.0.id system r.1.items) }
        ensures own { IfOk result (λ r. All (IsSeatOf r.0) r.1.items) }
    {
        let processors = system.processors();
        let count = processors as usize + 1;
        let counts = counts_of_actors(alloc, &system)?;
        let mut seats = Vec::with_capacity(alloc, count)?;
        let (queue, mut pass) = Queue::ruled(alloc, 1)?;
        if queue.try_push_as::<Opens>(&mut pass, system).is_err() {
            return Err(AllocError);
        }
        for k in 0..count {
            let pass = queue.another::<Deals>(&mut pass);
            let seat = BatonSeat {
                pass,
                actor: k as u32,
                counts: counts[k],
                stopped: None,
            };
            seats.push_reserved(seat);
        }
        Ok((BatonStation { queue, processors }, seats))
    }

    /// Makes a turn of the seat's actor, like `System::turn`. It may wait for other seats.
    ///
    /// Afterwards the seat has seen a legal history that extends the one it had seen. On `Ok` that history ends with
    /// this turn; on a fault, which is that of `System::turn`, it has no further turn of the actor.
    pub fn turn<R: Wait>(
        &self,
        rt: &R,
        seat: &mut BatonSeat,
        slice: Option<Slice<'_>>,
    ) -> Result<Answer, TurnFault>
        requires { seat.old.station ≡ self.now.id }
        ensures same { IsSameSeat seat.old seat.new }
        ensures ok { IfOk result (λ answer. Turns seat.old slice.entry answer seat.new) }
        ensures err { IfErr result (λ fault. Looks seat.old seat.new
            × Faults seat.new.seen seat.old.actor slice.entry fault) }
    {
        let mut system = take(rt, &self.queue, &mut seat.pass);
        let answer = system.turn(seat.actor, slice);
        seat.counts = system.counts(seat.actor);
        give(rt, &self.queue, &mut seat.pass, system);
        answer
    }

    /// The next work of the seat's actor, like `System::work`, at the end of the history that the seat has then seen.
    /// It may wait for other seats.
    pub fn work<R: Wait>(&self, rt: &R, seat: &mut BatonSeat) -> Option<Work>
        requires { seat.old.station ≡ self.now.id }
        ensures same { IsSameSeat seat.old seat.new }
        ensures seen { Looks seat.old seat.new }
        ensures work { IsWorkOf seat.new.seen seat.old.actor result }
    {
        let system = take(rt, &self.queue, &mut seat.pass);
        let work = system.work(seat.actor);
        give(rt, &self.queue, &mut seat.pass, system);
        work
    }

    /// Afterwards the history seen by `a` is a prefix of the one seen by `b`, and both extend the histories that
    /// either had seen before. It may wait for other seats.
    pub fn meet<R: Wait>(&self, rt: &R, a: &mut BatonSeat, b: &mut BatonSeat)
        requires { (a.old.station ≡ self.now.id) × (b.old.station ≡ self.now.id) }
        ensures same { IsSameSeat a.old a.new × IsSameSeat b.old b.new }
        ensures a { Looks a.old a.new × Extends a.new.seen b.old.seen }
        ensures b { Looks b.old b.new × Extends b.new.seen a.old.seen }
        ensures order { Extends b.new.seen a.new.seen }
    {
        self.tell(rt, b, a);
        self.tell(rt, a, b);
    }

    /// Afterwards `to` has seen all that `from` has seen.
    fn tell<R: Wait>(&self, rt: &R, from: &mut BatonSeat, to: &mut BatonSeat)
        requires { (from.old.station ≡ self.now.id) × (to.old.station ≡ self.now.id) }
        ensures from { from.new ≡ from.old }
        ensures same { IsSameSeat to.old to.new }
        ensures to { Looks to.old to.new × Extends to.new.seen from.old.seen }
    {
        let note = self.queue.another::<Notes>(&mut from.pass);
        self.queue.absorb::<Both>(&mut to.pass, note);
        let system = take(rt, &self.queue, &mut to.pass);
        let _ = system.history();
        give(rt, &self.queue, &mut to.pass, system);
    }

    /// Takes the seats, and returns the system. It may wait for other seats.
    ///
    /// The seats must be ones that `open` dealt with the station. Fails with `SeatMissing` unless there is exactly one
    /// for each actor, in order. The system's history extends the history that each seat has seen, and each actor's
    /// turns in it are those that its seat has made.
    pub fn close<R: Wait>(self, rt: &R, seats: Vec<BatonSeat>) -> Result<System, SeatMissing>
        requires { All (IsSeatOf self) seats.items }
        ensures order { IfOk result (λ x. HasEachSeat self.processors seats.items) }
        ensures legal { IfOk result (λ x. IsLegalIn x) }
        ensures shows { IfOk result (λ x. All (Shows x) seats.items) }
        ensures sums { IfOk result (λ x. AddUp x seats.items) }
        ensures counts { IfOk result (λ x. CountsAddUp x seats.items) }
        ensures err { IfErr result (λ e. (¬ HasEachSeat self.processors seats.items) × (e.station ≡ self)
            × (e.seats ≡ seats)) }
    {
        if !in_order(self.processors, seats.as_slice()) {
            return Err(SeatMissing {
                station: self,
                seats,
            });
        }
        let mut pass = joined(&self.queue, seats);
        let system = take(rt, &self.queue, &mut pass);
        let _ = system.history();
        Ok(system)
    }
}

/// The counters of each actor's turns in the system's history, the console's first.
fn counts_of_actors(alloc: Global, system: &System) -> Result<Vec<Counts>, AllocError>
    ensures count { IfOk result (λ counts. length counts.items ≡ system.now.setting.program.limits.processors + 1) }
    ensures each { IfOk result (λ counts. EachIndex counts.items
        (λ k. slice_get counts.items k ≡ Some (counts_in system.now k))) }
{
    let count = system.processors() as usize + 1;
    let mut counts = Vec::with_capacity(alloc, count)?;
    for k in 0..count {
        counts.push_reserved(system.counts(k as u32));
    }
    Ok(counts)
}

/// Whether there is one seat for each actor from 0 to the last, in order.
fn in_order(processors: u32, seats: &[BatonSeat]) -> bool
    ensures { IsTrue result ↔ HasEachSeat processors seats.now }
{
    if seats.len() != processors as usize + 1 {
        return false;
    }
    for (k, seat) in seats.iter().enumerate() {
        if seat.actor() as usize != k {
            return false;
        }
    }
    true
}

/// The passes of all seats, joined into one.
fn joined(queue: &Queue, mut seats: Vec<BatonSeat>) -> Token
    requires seats { All (λ s. s.station ≡ queue.now.table.shared.table_id) seats.items }
    requires some { 0 < length seats.items }
    ensures pass { IsPassOf queue.now result }
    ensures view { view result ≡ resting (map claim_of seats.items) }
    ensures timer { IfSome (slice_get seats.items 0) (λ s. s.seen.setting.timer ≡ false) }
{
    let BatonSeat { mut pass, .. } = seats.remove(0);
    for seat in seats {
        let BatonSeat { pass: other, .. } = seat;
        queue.absorb::<Both>(&mut pass, other);
    }
    pass
}

/// Pops until it gets the system.
fn take<R: Wait>(rt: &R, queue: &Queue, pass: &mut Token) -> System
    requires pass { IsPassOf queue.now pass.old }
    requires opened { (view pass.old).fresh ≡ false }
    ensures pass { IsPassOf queue.now pass.new }
    ensures seen { SeesAll result (view pass.old).claims }
    ensures holds { view pass.new ≡ took (view pass.old) result }
{
    for _ in rt.forever() {
        if let Some(system) = queue.pop_as::<Takes, R>(rt, pass) {
            return system;
        }
        thread::yield_now();
    }
    unreachable!()
}

/// Pushes the system that it holds, with at most one more turn.
fn give<R: Wait>(rt: &R, queue: &Queue, pass: &mut Token, system: System)
    requires pass { IsPassOf queue.now pass.old × (ruled_capacity queue.now ≡ 1) }
    requires held { (c : Claim) × (was : Seen) × (view pass.old ≡ holding was c) × Next c was system }
    ensures pass { IsPassOf queue.now pass.new }
    ensures gave { view pass.new ≡ gave (view pass.old) system }
{
    match queue.push_as::<Gives, R>(rt, pass, system) {
        Ok(()) => {}
        Err(_) => unreachable!(),
    }
}
