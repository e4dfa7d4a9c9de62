//! The thread on each processor.
ghost use Rattle.std.specs.Prelude.{◌≡◌, ℕ, length};
ghost use Rattle.lot_machine.specs.Bounds.{IsBetween};
ghost use Rattle.lot_machine.specs.declared.record.Status.TheVariants.{Running};
ghost use Rattle.lot_threads.specs.Runners.{runner_at, with_runner, without_runner};

use lot_kept::Kept;
use lot_machine::{Status, ThreadNumber, index_of};

/// A thread that runs on a processor, and the ticks of its quantum used there.
#[derive(Clone, Copy, Debug, PartialEq, Eq)]
pub struct Runner {
    pub thread: ThreadNumber,
    /// In ticks, below the quantum.
    pub used: u32,
}

/// Moves a thread from its processor before, if any, to its processor now, if any.
pub(crate) fn move_runner(runners: &mut Kept<Option<u32>>, thread: u32, before: Status, now: Status)
    requires before { (p used : ℕ) → before ≡ Running p used → IsBetween 1 (length runners.old.items) p }
    requires now { (p used : ℕ) → now ≡ Running p used → IsBetween 1 (length runners.old.items) p }
    ensures table { runners.new.items ≡ with_runner thread now (without_runner before runners.old.items) }
    ensures count { length runners.new.items ≡ length runners.old.items }
{
    if let Status::Running { processor, .. } = before {
        runners[index_of(processor)] = None;
    }
    if let Status::Running { processor, .. } = now {
        runners[index_of(processor)] = Some(thread);
    }
}

/// The thread on a processor, if there is one.
pub(crate) fn runner_on(runners: &[Option<u32>], processor: u32) -> Option<u32>
    ensures { result ≡ runner_at runners.now processor }
{
    if processor == 0 {
        return None;
    }
    runners.get(index_of(processor)).copied().flatten()
}
