//! The ranges of an input's numbers.

use crate::forms::Range;
use lot_machine::Sizes;

/// The number of processors.
pub const PROCESSORS: Range = Range {
    first: Sizes::SMALLEST.processors,
    last: Sizes::LARGEST.processors,
};

/// The ticks of a quantum.
pub const QUANTUM: Range = Range {
    first: Sizes::SMALLEST.quantum,
    last: Sizes::LARGEST.quantum,
};

/// The turns of each processor in a free run.
pub const TURNS: Range = Range {
    first: 0,
    last: 10000,
};

/// The duration of a timed input, in ticks.
pub const DURATION: Range = Range {
    first: 1,
    last: u32::MAX,
};

/// A seed of a generator.
pub const SEED: Range = Range {
    first: 1,
    last: 2147483646,
};

/// The largest number of tickets ever made.
pub const TICKETS: Range = Range {
    first: Sizes::SMALLEST.tickets,
    last: Sizes::LARGEST.tickets,
};

/// The largest number of user currencies ever made.
pub const CURRENCIES: Range = Range {
    first: Sizes::SMALLEST.currencies,
    last: Sizes::LARGEST.currencies,
};

/// The largest number of threads ever made.
pub const THREADS: Range = Range {
    first: Sizes::SMALLEST.threads,
    last: Sizes::LARGEST.threads,
};

/// The number of turns in one run of a schedule.
pub const RUN: Range = Range {
    first: 1,
    last: 1000000,
};

/// The time of a command, in ticks.
pub const TICK: Range = Range {
    first: 0,
    last: u32::MAX,
};

/// The ticks of a script's work.
pub const WORK: Range = Range {
    first: 1,
    last: u32::MAX,
};

/// The ticks for which a thread sleeps.
pub const SLEEP: Range = Range {
    first: 1,
    last: u32::MAX,
};

/// The number that `set` or `add` applies to the accumulator.
pub const NUMBER: Range = Range {
    first: 0,
    last: u32::MAX,
};

/// The number of iterations of a loop.
pub const TIMES: Range = Range {
    first: 1,
    last: 65535,
};

/// No number.
pub const NONE: Range = Range { first: 1, last: 0 };
