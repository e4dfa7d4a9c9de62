//! The refused traps of a run.
ghost use Rattle.std.specs.Prelude.{◌≡◌};

use lot_engine::{Settled, System};
use lot_machine::{Event, Name, Outcome, Reply, ThreadNumber};
use lot_playback::Turn;
use lot_simulation::{FirstFew, RefusedTrap};

/// Whether the refused trap counts with these: it is of the same thread, by the same word, and for the same reason.
fn counts_with(traps: &RefusedTrap, refused: &RefusedTrap) -> bool {
    !traps.is_past
        && traps.thread == refused.thread
        && traps.trap == refused.trap
        && traps.refusal == refused.refusal
}

/// A copy of the record. It allocates nothing.
fn copied(traps: &RefusedTrap) -> RefusedTrap {
    let name = match &traps.name {
        Some(name) => Some(name.copied()),
        None => None,
    };
    RefusedTrap {
        thread: traps.thread,
        name,
        trap: traps.trap,
        refusal: traps.refusal,
        times: traps.times,
        is_past: traps.is_past,
    }
}

/// Whether the reply is one to a refused trap.
#[inline(always)]
pub(crate) fn is_refused_trap(reply: &Reply) -> bool {
    matches!(
        reply,
        Reply::Trapped {
            outcome: Outcome::Refused(_),
            ..
        }
    )
}

/// Records the refused trap of a turn: it counts one more of the listed traps like it, or adds another item.
///
/// The compiler never inlines it, since most turns have no refused trap.
#[inline(never)]
pub(crate) fn note_trap(traps: &mut FirstFew<RefusedTrap>, system: &mut System, turn: &Turn)
    ensures { system.new ≡ system.old }
{
    let Some(mut refused) = refused_in(turn) else {
        return;
    };
    match place_of(traps, &refused) {
        Some(place) => count_again(traps, place),
        None if traps.has_room() => {
            refused.name = name_of(system.settle(), refused.thread);
            traps.add(refused);
        }
        None => traps.add_unlisted(),
    }
}

/// The refused trap of the turn, if it has one, without the thread's name.
fn refused_in(turn: &Turn) -> Option<RefusedTrap> {
    match (turn.reply, &turn.event) {
        (
            Reply::Trapped {
                thread,
                outcome: Outcome::Refused(refusal),
                ..
            },
            Event::Trap(_, _, action),
        ) => Some(RefusedTrap {
            thread,
            name: None,
            trap: action.with(action.object(), (), (), 0),
            refusal,
            times: 1,
            is_past: false,
        }),
        _ => None,
    }
}

/// The index of the listed traps like this one, if there are any.
fn place_of(traps: &FirstFew<RefusedTrap>, refused: &RefusedTrap) -> Option<usize> {
    traps
        .first()
        .iter()
        .position(|trap| counts_with(trap, refused))
}

/// Counts one more of the traps listed at this index.
fn count_again(traps: &mut FirstFew<RefusedTrap>, place: usize) {
    if let Some(trap) = traps.first().get(place) {
        let mut again = copied(trap);
        again.times = again.times.saturating_add(1);
        traps.replace(place, again);
    }
}

/// Records that a new thread has this number, so the traps listed for it are another thread's.
#[inline(never)]
pub(crate) fn note_new_thread(traps: &mut FirstFew<RefusedTrap>, thread: u32) {
    for place in 0..traps.first().len() {
        if let Some(trap) = traps.first().get(place) {
            if trap.thread == thread {
                let mut past = copied(trap);
                past.is_past = true;
                traps.replace(place, past);
            }
        }
    }
}

/// The name of the thread with this number, if it has one.
fn name_of(settled: Settled<'_>, thread: u32) -> Option<Name> {
    let name = settled.thread_row(ThreadNumber { number: thread })?.name;
    if name.is_none() { None } else { Some(name) }
}
