//! A gate that holds one worker.

use lot_processors::Gate;
use std::sync::atomic::{AtomicBool, AtomicU64, Ordering};
use std::thread;

/// The number of times that a held worker checks whether it may go on.
pub(super) const TRIES: u32 = 10_000_000;

/// Holds a processor's worker until the other processors' workers have passed this often, or it has checked often
/// enough. With no processor of this number it holds none.
#[derive(Drop)]
pub(super) struct Turnstile {
    pub(super) held: u32,
    wanted: u64,
    /// The number of passes of other workers.
    others: AtomicU64,
    gave_up: AtomicBool,
}

impl Turnstile {
    /// A gate that holds this processor's worker until others have passed this often.
    pub(super) fn new(held: u32, wanted: u64) -> Turnstile {
        Turnstile {
            held,
            wanted,
            others: AtomicU64::new(0),
            gave_up: AtomicBool::new(false),
        }
    }

    /// Whether the worker went on before the others had passed.
    pub(super) fn gave_up(&self) -> bool {
        self.gave_up.load(Ordering::SeqCst)
    }
}

impl Gate for Turnstile {
    fn pass(&self, processor: u32, _turn: u32) {
        if processor != self.held {
            self.others.fetch_add(1, Ordering::SeqCst);
            return;
        }
        for _try in 0..TRIES {
            if self.others.load(Ordering::SeqCst) >= self.wanted {
                return;
            }
            thread::yield_now();
        }
        self.gave_up.store(true, Ordering::SeqCst);
    }
}
