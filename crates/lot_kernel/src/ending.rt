//! A thread's disposition after its trap (3.4, 4.5).
ghost use Rattle.std.specs.Prelude.{◌≡◌};
ghost use Rattle.lot_machine.specs.declared.after.After.TheVariants.{GoesOn};
ghost use Rattle.lot_machine.specs.State.{sizes_of};
ghost use Rattle.lot_machine.specs.Step as steps;
ghost use Rattle.lot_machine.specs.Traps as traps;
ghost use Rattle.lot_machine.specs.Traps.{after_trap, with_ticks};

use lot_machine::{After, Limits, Processor, Record, Status, ThreadNumber};

/// A trap: its thread and processor, its cost including the work before it, and the quantum used after it, both in
/// ticks.
#[derive(Clone, Copy)]
pub(crate) struct Trap {
    pub(crate) processor: Processor,
    pub(crate) thread: ThreadNumber,
    pub(crate) ticks: u32,
    pub(crate) used: u32,
}

/// The record, after a trap, of the thread that made it.
pub(crate) fn record_after(before: Record, trap: Trap, after: After, limits: &Limits) -> Record
    ensures { result ≡ with_ticks trap.ticks
        (after_trap after trap.processor.number trap.used (sizes_of limits.now) before) }
{
    let then = leaving(before, trap, after, limits);
    Record {
        ticks: then.ticks.saturating_add(u64::from(trap.ticks)),
        ..then
    }
}

/// The record of a thread after its trap, except for its ticks.
fn leaving(before: Record, trap: Trap, after: After, limits: &Limits) -> Record
    ensures { result ≡ after_trap after trap.processor.number trap.used (sizes_of limits.now) before }
{
    match after {
        After::GoesOn => going_on(before, trap, limits),
        After::Leaves(status) => Record {
            status,
            compensation: if trap.used < limits.quantum {
                compensation_for(limits, trap.used)
            } else {
                None
            },
            ..before
        },
        After::Ends => Record {
            status: Status::Dead,
            compensation: None,
            ..before
        },
    }
}

/// The record, after its trap, of a thread that neither blocks nor ends: it runs on, or is Ready if its quantum is
/// used up.
fn going_on(before: Record, trap: Trap, limits: &Limits) -> Record
    ensures { result ≡ after_trap GoesOn trap.processor.number trap.used (sizes_of limits.now) before }
{
    if trap.used < limits.quantum {
        return Record {
            status: Status::Running {
                processor: trap.processor.number,
                used: trap.used,
            },
            ..before
        };
    }
    Record {
        status: Status::Ready,
        compensation: None,
        ..before
    }
}

/// The compensation of a thread that used this many ticks, or `None` in a kernel without compensation (4.5).
pub(crate) fn compensation_for(limits: &Limits, ticks: u32) -> Option<u32>
    ensures { result ≡ traps.compensation_for (sizes_of limits.now) ticks }
{
    if limits.without_compensation {
        return None;
    }
    Some(ticks)
}

/// Whether the trap ends its thread's quantum.
pub(crate) fn ends_quantum(trap: Trap, after: After, quantum: u32) -> bool
    ensures { result ≡ steps.ends_quantum after trap.used quantum }
{
    matches!(after, After::GoesOn) && trap.used >= quantum
}
