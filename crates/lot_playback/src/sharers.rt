//! The sharers of time, by their values: threads or currencies.
ghost use Rattle.std.specs.Prelude.{◌≡◌, ◌<◌, ◌^◌, ℕ};
ghost use Rattle.lot_machine.specs.Bounds.{IsBetween, IsWithinBounds};
ghost use Rattle.lot_machine.specs.declared.event.Event.{Event as EventRecord};
ghost use Rattle.lot_simulation.specs.TimedReport as reports;
ghost use Rattle.lot_simulation.specs.World.TurnAnswer.{Answered};
ghost use Rattle.lot_engine.specs.Seen.{world_of};
ghost use Rattle.lot_playback.specs.Owed.{is_number};
ghost use Rattle.lot_playback.specs.Sharing as sharing;

use crate::values::live_value;
use lot_engine::System;
use lot_machine::Reply;

/// The sharers of time, by their values.
#[derive(Clone, Copy, Debug)]
pub enum Sharers {
    /// The threads, of the time during which live threads have value.
    Threads,
    /// The currencies other than base, of the time during which base tickets are active. A currency inside another
    /// shares it too, so their parts may add up to more than all.
    Currencies,
}

impl Sharers {
    /// The count of numbers given, base not included.
    pub(crate) fn count(self, system: &System) -> u32
        ensures { result ≡ sharing.count_in self (world_of system.now).state }
    {
        match self {
            Sharers::Threads => system.thread_count(),
            Sharers::Currencies => system.currency_count().saturating_sub(1),
        }
    }

    /// The total value: of all live threads, or of all active tickets of base.
    pub(crate) fn whole(self, system: &mut System) -> u128
        ensures whole { result ≡ sharing.whole_in self (world_of system.old).state }
        ensures same { system.new ≡ system.old }
    {
        match self {
            Sharers::Threads => live_value(system),
            Sharers::Currencies => system.base_value(),
        }
    }

    /// The value of the sharer with this number: 0 for a thread that isn't live.
    pub(crate) fn value(self, system: &mut System, number: u32) -> u64
        requires { IsBetween 1 (sharing.count_in self (world_of system.old).state) number }
        ensures value { result ≡ sharing.value_in self (world_of system.old).state number }
        ensures same { system.new ≡ system.old }
    {
        match self {
            Sharers::Threads => system.live_value(number),
            Sharers::Currencies => system.currency_value(number),
        }
    }

    /// The number of the new sharer, if the reply says that the turn made one.
    pub(crate) fn made(self, reply: Reply) -> Option<u32>
        ensures { (e : EventRecord) (n : ℕ) → sharing.makes_one self n (Answered e reply) ≡ is_number n result }
    {
        match self {
            Sharers::Threads => new_thread(reply),
            Sharers::Currencies => new_currency(reply),
        }
    }
}

/// The new thread, if the reply says that the turn made one.
pub(crate) fn new_thread(reply: Reply) -> Option<u32>
    ensures { (e : EventRecord) (t : ℕ) → reports.makes t (Answered e reply) ≡ is_number t result }
{
    match reply {
        Reply::Thread(thread) | Reply::Funded { thread, .. } => Some(thread),
        _ => None,
    }
}

/// The new currency, if the reply says that the turn made one.
fn new_currency(reply: Reply) -> Option<u32>
    ensures { (e : EventRecord) (c : ℕ) → reports.makes_currency c (Answered e reply) ≡ is_number c result }
{
    match reply {
        Reply::Currency(currency) => Some(currency),
        _ => None,
    }
}
