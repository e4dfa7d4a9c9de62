//! Gathering the lots of a lottery, and the loans at it, before it is held.
ghost use Rattle.std.specs.Prelude.{◌≡◌, ◌+◌, ◌<◌, ◌≤◌, ◌∷◌, ◌++◌, [], All, IfOk, length, map, vec_len, vec_capacity};
ghost use Rattle.lot_machine.specs.declared.event.Event.{Event as AnEvent};
ghost use Rattle.lot_machine.specs.declared.reply.Reply.{Reply as AReply};
ghost use Rattle.lot_machine.specs.State.{value_of};
ghost use Rattle.lot_simulation.specs.World.TurnAnswer.{Answered};
ghost use Rattle.lot_engine.specs.Playing.{turn_in};
ghost use Rattle.lot_engine.specs.Seen.{HasRow, world_of};
ghost use Rattle.lot_explain.specs.Gathering.{lot_if_ready};
ghost use Rattle.lot_explain.specs.Lots as spec;
ghost use Rattle.lot_explain.specs.Lots.{draw_lots, loans_of, lots_of, waiter_lot};

use crate::entrants::{Entrants, next_entrants};
use crate::loans::push_all_loans;
use lot_engine::{Settled, System};
use lot_kept::Stack;
use lot_machine::{Status, ThreadNumber, ThreadRow};
use lot_print::{Compensation, Loan, Lot};
use lot_program::Program;
use std::alloc::{AllocError, Global};
use std::marker::Model;

/// The lots of a lottery and the loans at it, with capacity for those of all threads.
pub(crate) struct Lots {
    lots: Vec<Lot>,
    loans: Vec<Loan>,
    /// The waiters of the mutex.
    waiters: Stack<u32>,
    /// The capacity, in threads.
    room: u32,
}

impl Drop for Lots {
    // An explicit drop: code that drops a `Lots` is then proved without unfolding its fields.
    fn drop(self) {
        let Self {
            lots: _,
            loans: _,
            waiters: _,
            room: _,
        } = self;
    }
}

impl Model for Lots {
    ghost use Rattle.std.specs.Prelude.{◌≤◌, vec_capacity};
    ghost use Rattle.lot_explain.specs.Gathering.{Gathered};

    ghost Value = { Gathered };

    ghost view = { λ l. record { lots = l.lots.items; loans = l.loans.items; room = l.room } };

    ghost invariant = { λ l. record {
      lots_room : l.room ≤ vec_capacity l.lots;
      loans_room : l.room ≤ vec_capacity l.loans;
      waiters_room : l.room ≤ l.waiters.room;
    } };
}

impl Lots {
    /// No lots or loans, with capacity for those of `threads` threads. It allocates all the memory that it will ever
    /// use, and fails only if out of memory.
    pub(crate) fn open(alloc: Global, threads: u32) -> Result<Lots, AllocError>
        ensures { IfOk result (λ lots. lots ≡ record { lots = []; loans = []; room = threads }) }
    {
        Ok(Lots {
            lots: Vec::with_capacity(alloc, threads as usize)?,
            loans: Vec::with_capacity(alloc, threads as usize)?,
            waiters: Stack::new(alloc, threads as usize)?,
            room: threads,
        })
    }

    /// The lots gathered last.
    pub(crate) fn as_slice(&self) -> &[Lot]
        ensures { result.now ≡ self.now.lots }
    {
        &self.lots
    }

    /// The loans gathered last.
    pub(crate) fn loans(&self) -> &[Loan]
        ensures { result.now ≡ self.now.loans }
    {
        &self.loans
    }

    /// Gathers the lots of the lottery that the actor's next turn may hold, and the loans at it. It allocates nothing.
    pub(crate) fn gather(&mut self, program: &Program, system: &mut System, actor: u32)
        requires program { system.old.setting.program ≡ program.now }
        requires room { self.old.room ≡ program.now.limits.threads }
        ensures same { system.new ≡ system.old }
        ensures room { self.new.room ≡ self.old.room }
        ensures lots { (event : AnEvent) (reply : AReply) → (turn_in system.old actor).answer ≡ Answered event reply
            → self.new.lots ≡ lots_of (world_of system.old).state event }
        ensures loans { (event : AnEvent) (reply : AReply) → (turn_in system.old actor).answer ≡ Answered event reply
            → self.new.loans ≡ loans_of (world_of system.old).state event }
    {
        self.lots.clear();
        self.loans.clear();
        match next_entrants(program, system, actor) {
            Entrants::Nobody => (),
            Entrants::Ready => {
                push_all_ready(&mut self.lots, system);
                push_all_loans(&mut self.loans, system);
            }
            Entrants::Waiters(mutex) => {
                system.list_waiters(mutex, &mut self.waiters);
                push_waiters(&mut self.lots, system.settle(), &self.waiters);
            }
        }
    }
}

/// Adds the lots of the Ready threads, in ascending order.
fn push_all_ready(lots: &mut Vec<Lot>, system: &mut System)
    requires none { lots.old.items ≡ [] }
    requires room { system.old.setting.program.limits.threads ≤ vec_capacity lots.old }
    ensures same { system.new ≡ system.old }
    ensures lots { lots.new.items ≡ draw_lots (world_of system.old).state }
    ensures room { vec_capacity lots.new ≡ vec_capacity lots.old }
{
    for place in 0..system.thread_count() {
        push_if_ready(lots, system, place + 1);
    }
}

/// Adds the lot of the thread with this number, if it is Ready.
fn push_if_ready(lots: &mut Vec<Lot>, system: &mut System, thread: u32)
    requires room { vec_len lots.old < vec_capacity lots.old }
    ensures same { system.new ≡ system.old }
    ensures lots { lots.new.items ≡ lots.old.items ++ lot_if_ready (world_of system.old).state thread }
    ensures few { vec_len lots.new ≤ vec_len lots.old + 1 }
    ensures room { vec_capacity lots.new ≡ vec_capacity lots.old }
{
    let Some(row) = system.thread_row(thread) else {
        return;
    };
    if row.status == Status::Ready {
        let compensation = compensation_of(system, thread, &row);
        lots.push_reserved(Lot {
            thread,
            name: row.name,
            weight: row.weight,
            compensation,
        });
    }
}

/// The compensation that scales the thread's value to its weight, if it has one.
fn compensation_of(system: &System, thread: u32, row: &ThreadRow) -> Option<Compensation>
    requires { row.now.value ≡ value_of (world_of system.now).state thread }
    ensures { result ≡ spec.compensation_of (world_of system.now).state thread }
{
    match system.compensation(thread) {
        None => None,
        Some(used) => Some(Compensation {
            value: row.value,
            quantum: system.limits().quantum,
            used,
        }),
    }
}

/// Adds the lots of a mutex's waiters.
fn push_waiters(lots: &mut Vec<Lot>, settled: Settled<'_>, waiters: &[u32])
    requires none { lots.old.items ≡ [] }
    requires there { All (HasRow settled.kernel.now.state) waiters.now }
    requires room { length waiters.now ≤ vec_capacity lots.old }
    ensures lots { lots.new.items ≡ map (waiter_lot settled.entry.kernel.now.state) waiters.now }
    ensures room { vec_capacity lots.new ≡ vec_capacity lots.old }
{
    for thread in waiters {
        push_waiter(lots, settled, *thread);
    }
}

/// Adds the lot of a thread that waits for a mutex. It isn't dead, so it wasn't removed.
fn push_waiter(lots: &mut Vec<Lot>, settled: Settled<'_>, thread: u32)
    requires there { HasRow settled.kernel.now.state thread }
    requires room { vec_len lots.old < vec_capacity lots.old }
    ensures lots { lots.new.items ≡ lots.old.items ++ waiter_lot settled.entry.kernel.now.state thread ∷ [] }
    ensures room { vec_capacity lots.new ≡ vec_capacity lots.old }
{
    let row = settled.thread_row(ThreadNumber { number: thread }).unwrap();
    lots.push_reserved(Lot {
        thread,
        name: row.name,
        weight: u128::from(row.value),
        compensation: None,
    });
}
