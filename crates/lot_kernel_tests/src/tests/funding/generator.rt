//! The generator of drawn numbers, and the seeds of processors.
use crate::tests::same::{check_same, check_same_at};
use lot_draw::{ParkMiller, mixed_seed};
use std::process::Abort;

/// Numbers, and whether each is a seed.
const SEEDS: &[(u32, bool)] = &[
    (0, false),
    (1, true),
    (2147483646, true),
    (2147483647, false),
];

#[test]
fn seeds(rt: HostRuntime) {
    for (seed, is_one) in SEEDS {
        check_same_at(&rt, seed, &ParkMiller::new(*seed).is_some(), is_one);
    }
}

/// The generator that begins with 1.
fn generator(rt: &impl Abort) -> ParkMiller {
    ParkMiller::new(1).expect(rt, "seed")
}

// By the definition: from 1 the values 16807, 282475249, 1622650073 and 984943658.
#[test]
fn numbers(rt: HostRuntime) {
    check_same(&rt, &generator(&rt).number(), &36090892629924);
    let mut generator = generator(&rt);
    check_same(
        &rt,
        &generator.wide_number(),
        &166439864623969647858139600294153,
    );
    check_same(&rt, &generator.next(), &1144108930);
}

/// Processors, and their seeds.
const MIXED: &[(u32, u32)] = &[
    (0, 1),
    (1, 48271),
    (2, 182605794),
    (3, 1291394886),
    (10000, 399268537),
];

// The first values of that generator, and its published 10000th.
#[test]
fn mixed_seeds(rt: HostRuntime) {
    for (processor, seed) in MIXED {
        check_same_at(&rt, processor, &mixed_seed(*processor), seed);
    }
}

// The check that Park and Miller give for their generator: from 1, the value after 10000 steps.
#[test]
fn ten_thousandth(rt: HostRuntime) {
    let mut generator = generator(&rt);
    let mut value = 1;
    for _ in 0..10000 {
        value = generator.next();
    }
    check_same(&rt, &value, &1043618065);
}
