//! The texts of faults.

use crate::tests::same::check_same;
use lot_engine::TurnFault;
use lot_processors::{FreeRunFault, RunFault};
use std::alloc::Global;
use std::fmt::Display;
use std::process::Abort;
use std::test::*;

/// Compares how a fault is shown.
fn check_text(rt: &impl Abort, alloc: Global, fault: &impl Display, text: &str) {
    let shown = format!(in alloc; "{fault}").expect(rt, "memory");
    check_same(rt, &shown.as_str(), &text);
}

#[test]
fn of_a_run(rt: HostRuntime) {
    let fault = RunFault::Turn(TurnFault::HistoryFull);
    let text = "a worker's turn wasn't made: the history is full";
    check_text(&rt, rt.alloc(), &fault, text);
}

#[test]
fn of_free_runs(rt: HostRuntime) {
    let alloc = rt.alloc();
    let ended = FreeRunFault::Run(RunFault::Turn(TurnFault::Ended));
    let differ = "what the seats count isn't what the history has";
    check_text(&rt, alloc, &FreeRunFault::Memory, "out of memory");
    check_text(&rt, alloc, &FreeRunFault::CountsDiffer, differ);
    let text = "a worker's turn wasn't made: no command is left";
    check_text(&rt, alloc, &ended, text)
}
