//! Won lotteries.
ghost use Rattle.std.specs.Prelude.{◌≡◌, ℕ};
ghost use Rattle.lot_machine.specs.declared.trap.Trap.TheVariants as action;
ghost use Rattle.lot_machine.specs.declared.event.Event.TheVariants as event;
ghost use Rattle.lot_explain.specs.Lots as lots;

use lot_machine::{Action, Event, Outcome, Reply};
use lot_print::Lottery;

/// A won lottery.
#[derive(Clone, Copy, Debug)]
pub(crate) struct Won {
    pub(crate) lottery: Lottery,
    pub(crate) winner: u32,
    /// The total weight of all lots.
    pub(crate) total: u128,
}

/// The lottery that an event held, according to the reply; `None` if no thread won.
pub(crate) fn won_in(event: &Event, reply: Reply) -> Option<Won>
    ensures { result ≡ lots.won_in event.now reply }
{
    match event {
        Event::Draw(..) => won_in_draw(reply),
        Event::Trap(_, _, Action::Unlock(..)) => won_in_unlock(reply),
        _ => None,
    }
}

/// The lottery that a draw held, according to the reply; `None` if no thread won.
fn won_in_draw(reply: Reply) -> Option<Won>
    ensures { (processor number : ℕ) → result ≡ lots.won_in (event.Draw processor number) reply }
{
    match reply {
        Reply::Winner { thread, total, .. } => Some(Won {
            lottery: Lottery::OfProcessor,
            winner: thread,
            total,
        }),
        _ => None,
    }
}

/// The lottery that an unlock held, according to the reply; `None` if no thread won.
fn won_in_unlock(reply: Reply) -> Option<Won>
    ensures { (processor ran mutex number : ℕ)
        → result ≡ lots.won_in (event.Trap processor ran (action.Unlock mutex number)) reply }
{
    match reply {
        Reply::Trapped {
            outcome: Outcome::Passed {
                to,
                draw: Some((_, total)),
            },
            ..
        } => Some(Won {
            lottery: Lottery::OfMutex,
            winner: to,
            total: u128::from(total),
        }),
        _ => None,
    }
}
