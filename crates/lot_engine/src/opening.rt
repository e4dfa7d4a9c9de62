//! The parts of a new system, allocated in two groups, so that the proof of a failed allocation has few values to drop.
ghost use Rattle.std.specs.Prelude.{◌≡◌, ◌+◌, ◌≤◌, [], IfOk, length, replicate};
ghost use Rattle.lot_engine.specs.Counted.{AreCounts};
ghost use Rattle.lot_engine.specs.Histories.{HasOpened};

use crate::counts::{Counts, no_counts};
use crate::generators::generators_of;
use crate::history::History;
use crate::places::places_for;
use crate::tickets::NamedTickets;
use lot_draw::ParkMiller;
use lot_kept::{Kept, Stack};
use lot_program::Program;
use lot_script::Place;
use std::alloc::{AllocError, Global};

/// A copy of the program, its named tickets, and its generators.
pub(crate) fn programmed(
    alloc: Global,
    program: &Program,
) -> Result<(Program, NamedTickets, Stack<ParkMiller>), AllocError>
    ensures program { IfOk result (λ r. r.0 ≡ program.now) }
    ensures tickets { IfOk result (λ r. r.1 ≡ replicate program.now.ticket_names 0) }
    ensures seeds { IfOk result (λ r. r.2.items ≡ program.now.seeds) }
    ensures count { IfOk result (λ r. length r.2.items ≡ program.now.limits.processors) }
{
    let copy = program.copied(alloc)?;
    let tickets = NamedTickets::new(alloc, program.ticket_names())?;
    let generators = generators_of(alloc, program)?;
    Ok((copy, tickets, generators))
}

/// Memory for the places of the program's threads, for its history, and for the counters of its actors.
pub(crate) fn recorded(
    alloc: Global,
    program: &Program,
    room: u32,
    has_timer: bool,
) -> Result<(Stack<Place>, History, Kept<Counts>), AllocError>
    ensures places { IfOk result (λ r. r.0.items ≡ []) }
    ensures threads { IfOk result (λ r. program.now.limits.threads ≤ r.0.room) }
    ensures history { IfOk result (λ r. HasOpened program.now.limits.processors room has_timer r.1) }
    ensures none { IfOk result (λ r. AreCounts [] 0 r.2.items) }
    ensures count { IfOk result (λ r. length r.2.items ≡ program.now.limits.processors + 1) }
{
    let limits = program.limits();
    let places = places_for(alloc, limits.threads)?;
    let history = History::new(alloc, limits.processors, room, has_timer)?;
    let counts = no_counts(alloc, limits.processors as usize + 1)?;
    Ok((places, history, counts))
}
