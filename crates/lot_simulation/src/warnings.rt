//! The warnings of a run, which aren't part of its output.
ghost use Rattle.std.specs.Prelude.{◌≡◌, IfOk, None, false};
ghost use Rattle.lot_simulation.specs.Kept.{none_kept};

use crate::{EarlyEnd, FirstFew};
use lot_machine::{Name, Refusal, ScriptTrap, Status, TrapRefusal};
use std::alloc::{AllocError, Global};

/// A command that the kernel refused.
#[derive(Clone, Copy, Debug, PartialEq, Eq)]
pub struct RefusedCommand {
    /// The number of commands before it in the input.
    pub place: usize,
    pub refusal: Refusal,
}

/// Refused traps of one thread, by one word of a script and for one reason.
#[derive(Debug, Drop)]
pub struct RefusedTrap {
    /// The thread's number.
    pub thread: u32,
    /// The thread's name, if it has one.
    pub name: Option<Name>,
    /// The word, with the number of its port or mutex.
    pub trap: ScriptTrap,
    pub refusal: TrapRefusal,
    /// The number of these traps.
    pub times: u64,
    /// Whether another thread has the number by now.
    pub is_past: bool,
}

/// A thread that can never run again.
#[derive(Debug, Drop)]
pub struct StuckThread {
    pub number: u32,
    /// Without bytes if it has no name.
    pub name: Name,
    /// Its status: the reason why it waits, or Ready if it weighs nothing.
    pub status: Status,
    /// The name of the thread whose reply it waits for, if it does: without bytes if that thread has no name.
    pub server: Option<Name>,
    /// The owner of the mutex that it waits for, if it does.
    pub owner: Option<Owner>,
    /// The reason why it weighs nothing, if it is Ready.
    pub lack: Option<Lack>,
}

/// A thread that owns a mutex.
#[derive(Debug, Drop)]
pub struct Owner {
    pub number: u32,
    /// Without bytes if it has no name.
    pub name: Name,
    pub has_ended: bool,
}

/// The reason why a Ready thread weighs nothing.
#[derive(Debug, Drop)]
pub enum Lack {
    /// No ticket funds it.
    Ticket,
    /// No ticket funds this currency, from which its value would come.
    Funding(Name),
    /// It is funded, and its value rounds to 0.
    Value,
}

/// The warnings of a run, which aren't part of its output.
#[derive(Debug)]
pub struct Warnings {
    /// The number of commands made.
    pub made: usize,
    /// The refused ones among them.
    pub refused: FirstFew<RefusedCommand>,
    /// The refused traps. Those of one thread, by one word of a script and for one reason, count as one item.
    pub refused_traps: FirstFew<RefusedTrap>,
    /// The number of commands that the run never made.
    pub unmade: usize,
    /// The early end of a timed run, if it has one.
    pub early: Option<EarlyEnd>,
    /// Whether a refusal ended a strict run.
    pub stopped: bool,
    /// The Ready threads with a weight of 0.
    pub weightless: FirstFew<StuckThread>,
    /// The threads that wait for good.
    pub waiting: FirstFew<StuckThread>,
}

impl Drop for Warnings {
    // An explicit drop: code that drops a `Warnings` is then proved without unfolding its fields.
    fn drop(self) {
        let Self {
            made: _,
            refused: _,
            refused_traps: _,
            unmade: _,
            early: _,
            stopped: _,
            weightless: _,
            waiting: _,
        } = self;
    }
}

impl Warnings {
    /// No warnings. It allocates all the memory that recording will ever use, and fails only if out of memory.
    pub fn none(alloc: Global) -> Result<Self, AllocError>
        ensures { IfOk result (λ warnings. warnings
            ≡ record {
              made = 0;
              refused = none_kept;
              refused_traps = none_kept;
              unmade = 0;
              early = None;
              stopped = false;
              weightless = none_kept;
              waiting = none_kept;
            }) }
    {
        let (refused, refused_traps) = no_refusals(alloc)?;
        let (weightless, waiting) = no_stuck(alloc)?;
        Ok(Warnings {
            made: 0,
            refused,
            refused_traps,
            unmade: 0,
            early: None,
            stopped: false,
            weightless,
            waiting,
        })
    }

    /// The allocator of the recorded warnings.
    pub fn allocator(&self) -> Global {
        self.refused.allocator()
    }
}

/// No refused commands, and no refused traps.
fn no_refusals(
    alloc: Global,
) -> Result<(FirstFew<RefusedCommand>, FirstFew<RefusedTrap>), AllocError>
    ensures { IfOk result (λ both. (both.0 ≡ none_kept) × (both.1 ≡ none_kept)) }
{
    Ok((FirstFew::none(alloc)?, FirstFew::none(alloc)?))
}

/// No threads that weigh nothing, and none that wait.
fn no_stuck(alloc: Global) -> Result<(FirstFew<StuckThread>, FirstFew<StuckThread>), AllocError>
    ensures { IfOk result (λ both. (both.0 ≡ none_kept) × (both.1 ≡ none_kept)) }
{
    Ok((FirstFew::none(alloc)?, FirstFew::none(alloc)?))
}
