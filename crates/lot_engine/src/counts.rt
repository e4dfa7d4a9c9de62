//! Counters of turns.
ghost use Rattle.std.specs.Prelude.{◌≡◌, ◌+◌, ◌<◌, ◌++◌, [], ◌∷◌, ℕ, List, IfOk, length};
ghost use Rattle.lot_machine.specs.declared.event.Event.{Event as EventRecord};
ghost use Rattle.lot_simulation.specs.Report.{ActorTurn};
ghost use Rattle.lot_simulation.specs.World.TurnAnswer.{Answered};
ghost use Rattle.lot_engine.specs.Counted.{AreCounts, IsSmall, counted_with};

use lot_kept::Kept;
use lot_machine::Reply;
use std::alloc::{AllocError, Global};

/// Counters over turns.
#[derive(Clone, Copy, Debug, PartialEq, Eq)]
pub struct Counts {
    /// The number of turns, refused commands and traps included.
    pub turns: u64,
    /// The draws with a winner.
    pub quanta: u64,
    /// The draws without a winner.
    pub idles: u64,
    /// The ticks of expiries and traps.
    pub ticks: u64,
}

impl Counts {
    /// Counters over no turns.
    pub(crate) const NONE: Counts = Counts {
        turns: 0,
        quanta: 0,
        idles: 0,
        ticks: 0,
    };

    /// Counts one more turn, with this reply.
    #[inline(always)]
    pub(crate) fn add_turn(&mut self, reply: Reply)
        requires { (n : ℕ) × (n < 4294967295) × IsSmall n self.old }
        ensures exact { self.new ≡ counted_with self.old reply }
        ensures small { (n : ℕ) → IsSmall n self.old → IsSmall (n + 1) self.new }
    {
        self.turns += 1;
        match reply {
            Reply::Winner { .. } => self.quanta += 1,
            Reply::Idle => self.idles += 1,
            Reply::Expired { ticks, .. } | Reply::Trapped { ticks, .. } => {
                self.ticks += u64::from(ticks);
            }
            _ => {}
        }
    }

    /// Counts one more turn, with this reply, here and in the total. It matches the reply once for both.
    #[inline(always)]
    fn add_turn_to_both(&mut self, total: &mut Counts, reply: Reply)
        requires own { (n : ℕ) × (n < 4294967295) × IsSmall n self.old }
        requires total { (n : ℕ) × (n < 4294967295) × IsSmall n total.old }
        ensures exact { self.new ≡ counted_with self.old reply }
        ensures small { (n : ℕ) → IsSmall n self.old → IsSmall (n + 1) self.new }
        ensures total { total.new ≡ counted_with total.old reply }
        ensures total_small { (n : ℕ) → IsSmall n total.old → IsSmall (n + 1) total.new }
    {
        self.turns += 1;
        total.turns += 1;
        match reply {
            Reply::Winner { .. } => {
                self.quanta += 1;
                total.quanta += 1;
            }
            Reply::Idle => {
                self.idles += 1;
                total.idles += 1;
            }
            Reply::Expired { ticks, .. } | Reply::Trapped { ticks, .. } => {
                self.ticks += u64::from(ticks);
                total.ticks += u64::from(ticks);
            }
            _ => {}
        }
    }
}

/// The counters of this many actors, before any turn.
pub(crate) fn no_counts(alloc: Global, actors: usize) -> Result<Kept<Counts>, AllocError>
    ensures none { IfOk result (λ counts. AreCounts [] 0 counts.items) }
    ensures count { IfOk result (λ counts. length counts.items ≡ actors) }
{
    Kept::filled(alloc, Counts::NONE, actors)
}

/// Counts an actor's turn, with this reply, in the actor's counters and in the total.
#[inline(always)]
pub(crate) fn count_turn(counts: &mut Kept<Counts>, total: &mut Counts, actor: u32, reply: Reply)
    requires there { actor < length counts.old.items }
    requires bounded { (turns : List ActorTurn) × (n : ℕ) × (n < 4294967295) × AreCounts turns n counts.old.items }
    requires total { (n : ℕ) × (n < 4294967295) × IsSmall n total.old }
    ensures exact { (turns : List ActorTurn) (n : ℕ) (e : EventRecord) → AreCounts turns n counts.old.items
        → AreCounts (turns ++ record { actor = actor; answer = Answered e reply } ∷ []) (n + 1) counts.new.items }
    ensures count { length counts.new.items ≡ length counts.old.items }
    ensures total { total.new ≡ counted_with total.old reply }
    ensures total_small { (n : ℕ) → IsSmall n total.old → IsSmall (n + 1) total.new }
{
    counts[actor as usize].add_turn_to_both(total, reply);
}
