//! Runs of turns of one actor.
ghost use Rattle.std.specs.Prelude.{◌≡◌, ℕ, ◌≤◌, ◌↔◌, sum_by, All, IfOk, IsTrue, MatchResult, Ok, length};
ghost use Rattle.lot_simulation.specs.Grammar.{actors_of as actors_of_runs, run_of as run_read};
ghost use Rattle.lot_simulation.specs.Reading.{each_pair};
ghost use Rattle.lot_text.specs.Faults.{Fails};

use crate::fault::LineFault;
use crate::number::{actor_below, number_in};
use crate::tokens::Tokens;
use lot_simulation::{InputRefusal, ranges};
use std::alloc::{AllocError, Global};
use std::marker::Model;

/// An actor, and its number of turns in a row.
#[derive(Clone, Copy)]
pub(crate) struct ActorRun {
    actor: u8,
    count: u32,
}

impl Model for ActorRun {
    ghost use Rattle.lot_simulation.specs.Grammar.{ActorRun as ActorRunRecord};

    ghost Value = { ActorRunRecord };

    ghost view = { λ r. record { actor = r.actor; count = r.count } };

    ghost inverse = { λ r. record { actor = r.actor; count = r.count } };
}

/// Each pair of tokens as a run, from left to right; a last token without a partner is ignored.
pub(crate) fn read_runs(
    alloc: Global,
    processors: u32,
    mut tokens: Tokens<'_>,
) -> Result<Vec<ActorRun>, LineFault>
    requires { processors ≤ 64 }
    ensures actors { IfOk result (λ runs. All (λ run. run.actor ≤ processors) runs.items) }
    ensures read { MatchResult result (λ runs. each_pair (run_read processors) tokens.entry ≡ Ok runs.items)
        (λ fault. Fails fault (each_pair (run_read processors) tokens.entry)) }
{
    let mut runs = Vec::new(alloc);
    while let Some((actor, count)) = tokens.next_pair() {
        runs.push(run_of(processors, actor, count)?)?;
    }
    Ok(runs)
}

/// An actor, and its number of turns in a row, from their tokens.
fn run_of(processors: u32, actor: &[u8], count: &[u8]) -> Result<ActorRun, InputRefusal>
    requires { processors ≤ 64 }
    ensures actor { IfOk result (λ run. run.actor ≤ processors) }
    ensures read { result ≡ run_read processors actor.now count.now }
{
    let actor = actor_below(processors, actor)?;
    let count = number_in(ranges::RUN, count)?;
    Ok(ActorRun { actor, count })
}

/// Whether the runs have at most `room` turns.
pub(crate) fn have_room(runs: &[ActorRun], room: usize) -> bool
    ensures { IsTrue result ↔ (sum_by (λ run. run.count) runs.now ≤ room) }
{
    let mut left = room;
    for run in runs {
        let count = run.count as usize;
        if left < count {
            return false;
        }
        left -= count;
    }
    true
}

/// The actors of the runs, in order.
pub(crate) fn actors_of(alloc: Global, runs: &[ActorRun]) -> Result<Vec<u8>, AllocError>
    requires { sum_by (λ run. run.count) runs.now ≤ 1000000 }
    ensures actors { IfOk result (λ actors. actors.items ≡ actors_of_runs runs.now) }
    ensures count { IfOk result (λ actors. length actors.items ≡ sum_by (λ run. run.count) runs.now) }
    ensures below { (p : ℕ) → All (λ run. run.actor ≤ p) runs.now
        → IfOk result (λ actors. All (λ actor. actor ≤ p) actors.items) }
{
    let mut actors = Vec::new(alloc);
    for run in runs {
        let len = actors.len() + run.count as usize;
        actors.resize(len, run.actor)?;
    }
    Ok(actors)
}
