//! Free runs.

use crate::tests::same::check_same;
use crate::tests::stations::{TWO_PROCESSORS, parsed};
use lot_processors::{FreeRunFault, OpenGate, free_run};
use lot_program::Program;
use lot_text::parse;
use std::alloc::Global;
use std::process::Abort;
use std::sync::Wait;
use std::test::*;
use std::thread::Threads;

/// The number of the actor's turns in the history.
fn times(history: &[u8], actor: u8) -> usize {
    history.iter().filter(|other| **other == actor).count()
}

/// The number of each actor's turns in the history.
fn turns_of(history: &[u8]) -> [usize; 3] {
    [times(history, 0), times(history, 1), times(history, 2)]
}

/// Checks that each actor has its turns in a free run.
fn check_run<R: Threads + Wait + Abort + Sync>(rt: &R, alloc: Global, program: &Program) {
    let system = free_run(rt, alloc, program, &OpenGate).expect(rt, "a free run");
    check_same(rt, &turns_of(system.history()), &[1, 2, 2]);
}

// Each processor has its turns, and the console one for each command.
#[test]
fn each_actor_has_its_turns(rt: HostRuntime) {
    let alloc = rt.alloc();
    let program = parsed(&rt, alloc, TWO_PROCESSORS);
    for _round in 0..50 {
        check_run(&rt, alloc, &program);
    }
}

// For runs in which one allocation fails: it returns out of memory, and nothing else.
#[test]
fn runs_or_lacks_memory(rt: HostRuntime) {
    let alloc = rt.alloc();
    if let Ok(program) = parse(alloc, TWO_PROCESSORS.as_bytes()) {
        let result = free_run(&rt, alloc, &program, &OpenGate);
        assert!(rt; matches!(&result, Ok(_) | Err(FreeRunFault::Memory)));
    }
}
