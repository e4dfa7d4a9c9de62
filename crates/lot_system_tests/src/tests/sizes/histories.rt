//! Full histories.

use crate::tests::same::check_same;
use lot_engine::{System, TurnFault};
use lot_machine::Reply;
use lot_text::parse;
use std::process::Abort;

/// The reply to a draw on idle processor 1, or `None` if the history is full.
fn draw(rt: &impl Abort, system: &mut System) -> Option<Reply> {
    assert!(rt; 1 <= system.processors());
    match system.turn(1, None) {
        Ok(answer) => Some(answer.reply),
        Err(fault) => {
            assert!(rt; matches!(fault, TurnFault::HistoryFull));
            None
        }
    }
}

// A draw without a winner is a turn of the history, like any other.
#[test]
fn idle_draws_fill_a_history(rt: HostRuntime) {
    let alloc = rt.alloc();
    let program = parse(alloc, "lottery 1".as_bytes()).expect(&rt, "it is read");
    let mut system = System::open(alloc, &program, 2).expect(&rt, "memory");
    for reply in [Some(Reply::Idle), Some(Reply::Idle), None, None] {
        check_same(&rt, &draw(&rt, &mut system), &reply);
    }
    check_same(&rt, &system.history(), &[1, 1].as_slice());
}
