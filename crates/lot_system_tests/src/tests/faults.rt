//! The texts of faults.

use super::same::check_same;
use lot_system::{PlayFault, TurnFault};
use std::alloc::Global;
use std::fmt::Display;
use std::process::Abort;
use std::test::*;

/// Compares the output.
fn check_text(rt: &impl Abort, alloc: Global, fault: &impl Display, text: &str) {
    let shown = format!(in alloc; "{fault}").expect(rt, "memory");
    check_same(rt, &shown.as_str(), &text);
}

#[test]
fn texts_of_faults(rt: HostRuntime) {
    let alloc = rt.alloc();
    let stale = "the slice isn't that of the actor's work";
    check_text(&rt, alloc, &TurnFault::Stale(None), stale);
    check_text(&rt, alloc, &TurnFault::Ended, "no command is left");
    check_text(&rt, alloc, &TurnFault::HistoryFull, "the history is full");
    check_text(&rt, alloc, &PlayFault::Memory, "out of memory");
    check_text(&rt, alloc, &PlayFault::Read, "the reader has failed");
    check_text(&rt, alloc, &PlayFault::Write, "the writer has failed")
}
