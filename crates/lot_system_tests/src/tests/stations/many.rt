//! The largest number of seats, each on a thread of its own.

use crate::tests::stations::gates::{baton_freed, freed};
use crate::tests::stations::turnstile::TRIES;
use lot_processors::Gate;
use std::process::Abort;
use std::sync::atomic::{AtomicBool, AtomicU64, Ordering};
use std::test::*;
use std::thread;

/// 64 processors with one turn each, and one thread.
const MANY_PROCESSORS: &str =
    "lottery 1\nprocessors 64\nturns 1\nscript spin\ncompute 150\nendscript\nfundx 10 base a spin\n";

/// Holds each processor's worker until those of all 64 have come, or it has checked often enough.
#[derive(Drop)]
struct Meeting {
    here: AtomicU64,
    gave_up: AtomicBool,
}

impl Meeting {
    fn new() -> Meeting {
        Meeting {
            here: AtomicU64::new(0),
            gave_up: AtomicBool::new(false),
        }
    }
}

impl Gate for Meeting {
    fn pass(&self, _processor: u32, _turn: u32) {
        self.here.fetch_add(1, Ordering::SeqCst);
        for _try in 0..TRIES {
            if self.here.load(Ordering::SeqCst) >= 64 {
                return;
            }
            thread::yield_now();
        }
        self.gave_up.store(true, Ordering::SeqCst);
    }
}

/// Whether each of 65 actors has had one turn.
fn has_all(history: &[u8]) -> bool {
    history.len() == 65 && (0..65u8).all(|actor| history.contains(&actor))
}

/// Checks that no worker gave up, and that the history has all turns.
fn check_met(rt: &impl Abort, gate: &Meeting, history: &[u8]) {
    assert!(rt; !gate.gave_up.load(Ordering::SeqCst));
    assert!(rt; has_all(history));
}

// 64 workers wait for each other before their turns, so each has a thread of its own: none gives up, and the history
// has all turns.
#[test]
fn many_workers_meet(rt: HostRuntime) {
    let gate = Meeting::new();
    let system = freed(&rt, rt.alloc(), MANY_PROCESSORS, &gate);
    check_met(&rt, &gate, system.history())
}

#[test]
fn many_baton_workers_meet(rt: HostRuntime) {
    let gate = Meeting::new();
    let (_, system) = baton_freed(&rt, rt.alloc(), MANY_PROCESSORS, &gate, 65);
    check_met(&rt, &gate, system.history())
}
