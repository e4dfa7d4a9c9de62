//! Works that change while a worker tries one.
ghost use Rattle.std.specs.Prelude.{◌≡◌, IfErr, IfOk, IsTrue};
ghost use Rattle.lot_engine.specs.declared.fault.TurnFault.TheVariants.{Stale};
ghost use Rattle.lot_processors.specs.Workers.{IsLastWork};

use lot_engine::{TurnFault, Work};

/// The actor's work, if the turn with the slice of the tried one was refused because another actor has changed it
/// meanwhile. It returns any other fault.
pub(crate) fn later_work(fault: TurnFault, tried: &Option<Work>) -> Result<Option<Work>, TurnFault>
    ensures later { IfOk result (λ work. fault ≡ Stale work) }
    ensures fault { IfErr result (λ same. same ≡ fault) }
    ensures last { IfErr result (IsLastWork tried.now) }
{
    match fault {
        TurnFault::Stale(work) => {
            if is_same(&work, tried) {
                Err(TurnFault::Stale(work))
            } else {
                Ok(work)
            }
        }
        TurnFault::Ended => Err(TurnFault::Ended),
        TurnFault::HistoryFull => Err(TurnFault::HistoryFull),
    }
}

/// Whether both are the same work, or both `None`.
fn is_same(work: &Option<Work>, other: &Option<Work>) -> bool
    ensures { IsTrue result → work.now ≡ other.now }
{
    match (work, other) {
        (None, None) => true,
        (Some(work), Some(other)) => {
            work.thread == other.thread
                && work.script == other.script
                && work.budget == other.budget
                && work.place.is_same(&other.place)
        }
        _ => false,
    }
}

/// A copy of the work, if there is one.
pub(crate) fn copy_of(work: &Option<Work>) -> Option<Work>
    ensures { result ≡ work.now }
{
    match work {
        Some(work) => Some(work.copied()),
        None => None,
    }
}
