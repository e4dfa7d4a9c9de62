//! The play of a program, turn by turn.
ghost use Rattle.std.specs.Prelude.{◌≡◌, List, [], ◌∷◌, ◌++◌, IfErr, IfNone, IfOk, IfSome, IsSome, None, OnOk};
ghost use Rattle.lot_playback.specs.Orders.{IsInOrder, made_in};
ghost use Rattle.lot_playback.specs.Stages.{HasMade, IsNext, MakesTurn, turns_left};
ghost use Rattle.lot_playback.specs.Turns.{MadeTurn};

use crate::making::{make_in_time, make_scheduled, next_in_time, next_scheduled};
use crate::timekeeper::{MOST_TURNS, Timekeeper};
use crate::{NextTurn, Observer, Turn};
use lot_engine::System;
use lot_program::Program;
use std::alloc::{AllocError, Global};
use std::marker::Model;

/// A system that makes the turns of its program: those of the schedule, or timed turns if the program has a duration.
///
/// Contracts see the system, and the number of turns made.
#[derive(Drop)]
pub struct Playback {
    system: System,
    order: Order,
}

/// The order of the turns, and the position in it.
#[derive(Drop)]
pub enum Order {
    /// The next turn is that of the actor at this index of the schedule.
    Scheduled(usize),
    /// The next turn is the first one due by these clocks.
    InTime(Timekeeper),
}

impl Model for Playback {
    ghost use Rattle.lot_playback.specs.Stages.{Stage};

    ghost Value = { Stage };

    ghost use Rattle.lot_playback.specs.Orders.{IsInOrder, made_in};

    ghost view = { λ p. record { seen = p.system; made = made_in p.system p.order } };

    ghost invariant = { λ p. IsInOrder p.system p.order };
}

impl Playback {
    /// The program before its first turn. It allocates all the memory that the play will ever use, and fails only if
    /// out of memory.
    pub fn open(alloc: Global, program: &Program) -> Result<Playback, AllocError>
        ensures none { IfOk result (λ playback. playback.made ≡ 0) }
        ensures made { IfOk result (λ playback. HasMade program.now [] playback.seen) }
    {
        match program.duration() {
            Some(_) => Playback::open_timed(alloc, program),
            None => Playback::open_scheduled(alloc, program),
        }
    }

    /// A program with a schedule.
    fn open_scheduled(alloc: Global, program: &Program) -> Result<Playback, AllocError>
        requires { program.now.duration ≡ None }
        ensures none { IfOk result (λ playback. playback.made ≡ 0) }
        ensures made { IfOk result (λ playback. HasMade program.now [] playback.seen) }
    {
        let room = program.schedule().len() as u32;
        let system = System::open(alloc, program, room)?;
        Ok(Playback {
            system,
            order: Order::Scheduled(0),
        })
    }

    fn open_timed(alloc: Global, program: &Program) -> Result<Playback, AllocError>
        requires { IsSome program.now.duration }
        ensures none { IfOk result (λ playback. playback.made ≡ 0) }
        ensures made { IfOk result (λ playback. HasMade program.now [] playback.seen) }
    {
        let system = System::open_timed(alloc, program, MOST_TURNS)?;
        let timekeeper = Timekeeper::open(alloc, program, &system)?;
        Ok(Playback {
            system,
            order: Order::InTime(timekeeper),
        })
    }

    /// The next turn, if there is one.
    #[inline(always)]
    pub fn next_due(&self, program: &Program) -> Option<NextTurn>
        requires { self.now.seen.setting.program ≡ program.now }
        ensures none { IfNone result (turns_left self.now ≡ []) }
        ensures next { IfSome result (IsNext self.now) }
    {
        match &self.order {
            Order::Scheduled(place) => next_scheduled(program, &self.system, *place),
            Order::InTime(timekeeper) => next_in_time(program, &self.system, timekeeper),
        }
    }

    /// Makes the next turn, and stores it in `turn`, since a turn's event is large and a copy would cost. It allocates
    /// nothing.
    #[inline(always)]
    fn make(&mut self, program: &Program, next: NextTurn, turn: &mut Turn)
        requires program { self.old.seen.setting.program ≡ program.now }
        requires next { IsNext self.old next }
        ensures { (made : MadeTurn) × MakesTurn self.old self.new turn.new made }
    {
        match &mut self.order {
            Order::Scheduled(place) => make_scheduled(program, &mut self.system, place, next, turn),
            Order::InTime(timekeeper) => {
                make_in_time(program, &mut self.system, timekeeper, next, turn);
            }
        }
    }

    /// Makes the next turn, if there is one. It allocates nothing.
    pub fn next(&mut self, program: &Program) -> Option<Turn>
        requires { self.old.seen.setting.program ≡ program.now }
        ensures none { IfNone result ((turns_left self.old ≡ []) × (self.new ≡ self.old)) }
        ensures turn { IfSome result (λ turn. (made : MadeTurn) × MakesTurn self.old self.new turn made) }
    {
        let next = self.next_due(program)?;
        let mut turn = Turn::blank();
        self.make(program, next, &mut turn);
        Some(turn)
    }

    /// Makes the next turn, stores it in `turn`, and lets the observer follow it. Fails with the observer's fault if it
    /// stops the play.
    #[inline(always)]
    pub fn play_turn<O: Observer>(
        &mut self,
        program: &Program,
        next: NextTurn,
        turn: &mut Turn,
        observer: &mut O,
    ) -> Result<(), O::Fault>
        requires next { IsNext self.old next }
        requires observed { (turns : List MadeTurn) × (first : O)
            × HasMade program.now turns self.old.seen × O.observed program.now turns first observer.old }
        ensures setting { self.new.seen.setting ≡ self.old.seen.setting }
        ensures ok { OnOk result ((made : MadeTurn) × (turns_left self.old ≡ made ∷ turns_left self.new)
            × ((turns : List MadeTurn) → HasMade program.now turns self.old.seen
            → HasMade program.now (turns ++ made ∷ []) self.new.seen)
            × ((turns : List MadeTurn) (first : O) → HasMade program.now turns self.old.seen
            → O.observed program.now turns first observer.old
            → O.observed program.now (turns ++ made ∷ []) first observer.new)) }
        ensures err { IfErr result (λ fault. (made : MadeTurn) × (others : List MadeTurn)
            × (turns_left self.old ≡ made ∷ others)
            × ((turns : List MadeTurn) (first : O) → HasMade program.now turns self.old.seen
            → O.observed program.now turns first observer.old
            → O.stopped program.now (turns ++ made ∷ []) first observer.new fault)) }
    {
        observer.before(program, &mut self.system, next.actor);
        self.make(program, next, turn);
        observer.after(program, &mut self.system, turn)
    }

    /// The system with the turns made.
    pub fn system(&self) -> &System
        ensures { result.now ≡ self.now.seen }
    {
        &self.system
    }

    /// The system with the turns made, and the position in their order.
    pub fn into_parts(self) -> (System, Order)
        ensures system { result.0 ≡ self.seen }
        ensures order { IsInOrder result.0 result.1 }
        ensures made { made_in result.0 result.1 ≡ self.made }
    {
        (self.system, self.order)
    }
}
