//! The turns of a history, made again by one thread.

use crate::tests::same::check_same;
use crate::tests::stations::{end_of, opened};
use lot_engine::{Answer, System, slice_for};
use lot_program::Program;
use std::alloc::Global;
use std::process::Abort;
use std::sync::Mutex;

/// The results of an actor's turns in threads, in order.
pub(super) type Answers = Mutex<Vec<Answer>>;

/// Empty results of this many actors in threads.
pub(super) fn unanswered(rt: &impl Abort, alloc: Global, actors: usize) -> Vec<Answers> {
    let mut answers = Vec::new(alloc);
    for _actor in 0..actors {
        answers
            .push(Mutex::new(Vec::new(alloc)))
            .expect(rt, "memory");
    }
    answers
}

/// The results of each actor's turns, out of their locks.
pub(super) fn unlocked(rt: &impl Abort, alloc: Global, answers: Vec<Answers>) -> Vec<Vec<Answer>> {
    let mut lists = Vec::new(alloc);
    for own in answers {
        lists.push(own.into_inner()).expect(rt, "memory");
    }
    lists
}

/// The result of a turn of the actor with this number, with the slice of its work, if it is made.
fn answer_again(program: &Program, system: &mut System, number: u32) -> Option<Answer> {
    if number > system.processors() {
        return None;
    }
    let slice = slice_for(program, system.work(number)).ok()?;
    system.turn(number, slice).ok()
}

/// Makes the turns of a history, and adds the results to those of each actor.
fn replay(
    rt: &impl Abort,
    program: &Program,
    system: &mut System,
    history: &[u8],
    answers: &mut [Vec<Answer>],
) {
    for actor in history {
        let answer = answer_again(program, system, u32::from(*actor)).expect(rt, "a turn");
        let own = answers.get_mut(usize::from(*actor)).expect(rt, "an actor");
        own.push(answer).expect(rt, "memory");
    }
}

/// Empty results, for as many actors as there are of these.
fn none_of(rt: &impl Abort, alloc: Global, answers: &Vec<Vec<Answer>>) -> Vec<Vec<Answer>> {
    let none = unanswered(rt, alloc, answers.len());
    unlocked(rt, alloc, none)
}

/// Makes the turns of the history again in another system, and checks that each actor gets the same results. Returns
/// the system after them.
fn replayed(
    rt: &impl Abort,
    alloc: Global,
    program: &Program,
    history: &[u8],
    answers: &Vec<Vec<Answer>>,
    mut again: System,
) -> System {
    let mut expected = none_of(rt, alloc, answers);
    replay(rt, program, &mut again, history, &mut expected);
    check_same(rt, answers, &expected);
    again
}

/// Checks that the two systems end with equal output.
fn check_ends(rt: &impl Abort, alloc: Global, system: System, again: System) {
    let end = end_of(rt, alloc, system);
    check_same(rt, &end, &end_of(rt, alloc, again));
}

/// Checks that a system of the program, with room for this many turns, has had them all, and that another, in which
/// one thread makes the turns of its history again, gets the same results for each actor and ends alike.
pub(super) fn check_replay(
    rt: &impl Abort,
    alloc: Global,
    program: &Program,
    room: u32,
    system: System,
    answers: &Vec<Vec<Answer>>,
) {
    check_same(rt, &system.history().len(), &(room as usize));
    let again = opened(rt, alloc, program, room);
    let again = replayed(rt, alloc, program, system.history(), answers, again);
    check_ends(rt, alloc, system, again)
}
