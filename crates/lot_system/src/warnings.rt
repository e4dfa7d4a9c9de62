//! Recording the warnings of a run.

ghost use Rattle.std.specs.Prelude.{◌≡◌, length};
ghost use Rattle.lot_system.specs.Leaving.{command_noted, noted};
ghost use Rattle.lot_engine.specs.Seen.{world_of};

use crate::lack::lack_of;
use crate::refused_traps::{is_refused_trap, note_new_thread, note_trap};
use lot_engine::{Settled, System};
use lot_machine::{MutexNumber, Name, Reply, Status, ThreadNumber, ThreadRow};
use lot_playback::Turn;
use lot_simulation::{Owner, RefusedCommand, StuckThread, Warnings};

/// Records the system's last turn: the reply to a command, or a refused trap. It allocates nothing.
#[inline(always)]
pub fn note_turn(warnings: &mut Warnings, system: &mut System, turn: &Turn)
    ensures noted { warnings.new ≡ record (noted warnings.old turn.now.actor turn.now.reply) {
      refused_traps = warnings.new.refused_traps;
    } }
    ensures stopped { warnings.new.stopped ≡ warnings.old.stopped }
    ensures same { system.new ≡ system.old }
{
    if turn.actor == 0 {
        note_command(warnings, &turn.reply);
    } else if is_refused_trap(&turn.reply) {
        note_trap(&mut warnings.refused_traps, system, turn);
    }
}

/// Records the reply to the next command.
fn note_command(warnings: &mut Warnings, reply: &Reply)
    ensures noted { warnings.new
        ≡ record (command_noted warnings.old reply.now) { refused_traps = warnings.new.refused_traps } }
    ensures stopped { warnings.new.stopped ≡ warnings.old.stopped }
{
    match *reply {
        Reply::Thread(thread) | Reply::Funded { thread, .. } => {
            note_new_thread(&mut warnings.refused_traps, thread);
        }
        Reply::Refused(refusal) => {
            let place = warnings.made;
            warnings.refused.add(RefusedCommand { place, refusal });
        }
        _ => {}
    }
    warnings.made = warnings.made.saturating_add(1);
}

/// Records the warnings about the state at the end of a run.
pub fn note_end(warnings: &mut Warnings, system: &mut System)
    ensures kept { (warnings.new.made ≡ warnings.old.made) × (warnings.new.refused ≡ warnings.old.refused)
        × (warnings.new.refused_traps ≡ warnings.old.refused_traps) × (warnings.new.stopped ≡ warnings.old.stopped) }
    ensures unmade { warnings.new.unmade ≡ length (world_of system.old).commands }
    ensures same { system.new ≡ system.old }
{
    warnings.unmade = system.commands_left();
    let settled = system.settle();
    let is_over = is_over(settled);
    for place in 0..settled.kernel.thread_count() {
        if let Some(row) = settled.thread_row(ThreadNumber { number: place + 1 }) {
            note_thread(warnings, settled, place + 1, row, is_over);
        }
    }
}

/// Records the warning, if any, about the thread with this number at the end; `is_over` says that no thread can run
/// any more.
fn note_thread(
    warnings: &mut Warnings,
    settled: Settled<'_>,
    number: u32,
    row: ThreadRow,
    is_over: bool,
)
    ensures kept { (warnings.new.made ≡ warnings.old.made) × (warnings.new.refused ≡ warnings.old.refused)
        × (warnings.new.refused_traps ≡ warnings.old.refused_traps) × (warnings.new.unmade ≡ warnings.old.unmade)
        × (warnings.new.stopped ≡ warnings.old.stopped) }
{
    let ThreadRow {
        name,
        status,
        weight,
        ..
    } = row;
    if status == Status::Ready && weight == 0 {
        note_weightless(warnings, settled, number, name);
    } else if is_stuck(settled, status, is_over) {
        let server = server_name(settled, status);
        let owner = owner_of(settled, status);
        warnings.waiting.add(StuckThread {
            number,
            name,
            status,
            server,
            owner,
            lack: None,
        });
    }
}

/// Records the warning about the Ready thread with this number and this name, which weighs nothing.
fn note_weightless(warnings: &mut Warnings, settled: Settled<'_>, number: u32, name: Name)
    ensures kept { (warnings.new.made ≡ warnings.old.made) × (warnings.new.refused ≡ warnings.old.refused)
        × (warnings.new.refused_traps ≡ warnings.old.refused_traps) × (warnings.new.unmade ≡ warnings.old.unmade)
        × (warnings.new.stopped ≡ warnings.old.stopped) }
{
    if !warnings.weightless.has_room() {
        warnings.weightless.add_unlisted();
        return;
    }
    let lack = Some(lack_of(settled, &name));
    warnings.weightless.add(StuckThread {
        number,
        name,
        status: Status::Ready,
        server: None,
        owner: None,
        lack,
    });
}

/// Whether no thread can run any more: none is Running, Asleep, or Ready with a weight above 0.
fn is_over(settled: Settled<'_>) -> bool {
    for place in 0..settled.kernel.thread_count() {
        if let Some(row) = settled.thread_row(ThreadNumber { number: place + 1 }) {
            if can_run(&row) {
                return false;
            }
        }
    }
    true
}

/// Whether the thread is Running, Asleep, or can win a draw.
fn can_run(row: &ThreadRow) -> bool {
    match row.status {
        Status::Running { .. } | Status::Asleep => true,
        Status::Ready => row.weight > 0,
        _ => false,
    }
}

/// Whether a thread with this status waits for good: for the reply of a server that has ended, for a mutex whose owner
/// has ended, or, if no thread can run, for any mutex or reply. A server that waits for calls doesn't count.
fn is_stuck(settled: Settled<'_>, status: Status, is_over: bool) -> bool {
    match status {
        Status::Served(server) => is_over || has_ended(settled, server),
        Status::Waiting(mutex) => is_over || has_dead_owner(settled, mutex),
        Status::Queued(_) => is_over,
        _ => false,
    }
}

/// Whether the thread with this number has ended.
fn has_ended(settled: Settled<'_>, thread: u32) -> bool {
    match settled.thread_row(ThreadNumber { number: thread }) {
        Some(row) => row.status == Status::Dead,
        None => false,
    }
}

/// Whether the thread that owns the mutex has ended.
fn has_dead_owner(settled: Settled<'_>, mutex: u32) -> bool {
    match settled.kernel.owner(MutexNumber { number: mutex }) {
        Some(owner) => has_ended(settled, owner),
        None => false,
    }
}

/// The name of the thread whose reply a thread with this status waits for, if it waits for one.
fn server_name(settled: Settled<'_>, status: Status) -> Option<Name> {
    match status {
        Status::Served(server) => Some(settled.thread_row(ThreadNumber { number: server })?.name),
        _ => None,
    }
}

/// The owner of the mutex that a thread with this status waits for, if it waits for one.
fn owner_of(settled: Settled<'_>, status: Status) -> Option<Owner> {
    let Status::Waiting(mutex) = status else {
        return None;
    };
    let number = settled.kernel.owner(MutexNumber { number: mutex })?;
    let row = settled.thread_row(ThreadNumber { number })?;
    Some(Owner {
        number,
        name: row.name,
        has_ended: row.status == Status::Dead,
    })
}
