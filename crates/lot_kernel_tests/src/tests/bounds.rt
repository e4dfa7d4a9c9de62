//! Sizes, names and threads at their bounds, and one past them.
use super::*;

/// The smallest sizes.
const LEAST: Sizes = Sizes {
    tickets: 1,
    currencies: 1,
    threads: 1,
    ports: 0,
    mutexes: 0,
    processors: 1,
    scripts: 0,
    quantum: 1,
    unit: 1,
    ..Sizes::SMALLEST
};

/// The largest sizes.
const MOST: Sizes = Sizes {
    tickets: 65535,
    currencies: 4096,
    threads: 4096,
    ports: 256,
    mutexes: 256,
    processors: 64,
    scripts: 256,
    quantum: 1000,
    unit: 256,
    ..Sizes::SMALLEST
};

/// Sizes with one of them one past its bound. A unit is 1 or 256.
static PAST_A_BOUND: [Sizes; 17] = [
    Sizes {
        tickets: 0,
        ..LEAST
    },
    Sizes {
        currencies: 0,
        ..LEAST
    },
    Sizes {
        threads: 0,
        ..LEAST
    },
    Sizes {
        processors: 0,
        ..LEAST
    },
    Sizes {
        quantum: 0,
        ..LEAST
    },
    Sizes { unit: 0, ..LEAST },
    Sizes { unit: 2, ..LEAST },
    Sizes {
        tickets: 65536,
        ..MOST
    },
    Sizes {
        currencies: 4097,
        ..MOST
    },
    Sizes {
        threads: 4097,
        ..MOST
    },
    Sizes { ports: 257, ..MOST },
    Sizes {
        mutexes: 257,
        ..MOST
    },
    Sizes {
        processors: 65,
        ..MOST
    },
    Sizes {
        scripts: 257,
        ..MOST
    },
    Sizes {
        quantum: 1001,
        ..MOST
    },
    Sizes { unit: 255, ..MOST },
    Sizes { unit: 257, ..MOST },
];

/// Compares whether limits may have these sizes.
fn check_sizes(rt: &impl Abort, sizes: Sizes, may_be: bool) {
    check_same_at(rt, &sizes, &Limits::new(sizes).is_some(), &may_be);
}

#[test]
fn sizes_past_a_bound(rt: HostRuntime) {
    check_sizes(&rt, LEAST, true);
    check_sizes(&rt, MOST, true);
    for sizes in &PAST_A_BOUND {
        check_sizes(&rt, *sizes, false);
    }
}

/// Names of 16 bytes, the longest, which differ in their last byte.
const LONG_NAMES: &[Step<'static>] = &[
    Step::Gives("mkcur abcdefghijklmnop", Reply::Currency(1)),
    Step::Gives("mkcur abcdefghijklmnoq", Reply::Currency(2)),
    Step::Gives("mkcur abcdefghijklmnop", Reply::Refused(Refusal::NameTaken)),
    Step::Gives("fundx 3 base abcdefghijklmnor 1", FIRST_FUNDED),
    Step::Currency((1, "abcdefghijklmnop", 0, 0, 0, 0)),
    Step::Currency((2, "abcdefghijklmnoq", 0, 0, 0, 0)),
    Step::Thread((1, "abcdefghijklmnor", Status::Ready, 3, 3, 0, 0)),
];

const SCENES: &[Scene<'static>] = &[("long names", LARGEST, &[], &[LONG_NAMES])];

#[test]
fn names_of_sixteen_bytes(rt: HostRuntime) {
    assert!(rt; Name::new("abcdefghijklmnopq").is_none());
    play_all(&rt, rt.alloc(), SCENES)
}

/// When the limit on threads is reached, `fundx` makes neither a thread nor a ticket.
const NO_MORE_THREADS: &[Step<'static>] = &[
    Step::Gives("mkthr u 1", Reply::Refused(Refusal::Full)),
    Step::Gives("fundx 1 base u 1", Reply::Refused(Refusal::Full)),
    Step::NoThread(4097),
    Step::Gives("mktkt 1 base", Reply::Ticket(4097)),
    Step::Wins(1, 4095, (4096, 4095, 4096), None),
];

#[test]
fn all_threads(rt: HostRuntime) {
    let alloc = rt.alloc();
    let mut kernel = kernel_of(&rt, alloc, LARGEST);
    make_threads(&rt, alloc, &mut kernel, 4096);
    take_all(&rt, "all threads", &mut kernel, NO_MORE_THREADS)
}
