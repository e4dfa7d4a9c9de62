//! Lotteries over lists of weights, and compensated weights.
use crate::tests::same::{check_same, check_same_at};
use lot_draw::{weight, winner};
use lot_machine::Drawn;
use std::process::Abort;

const TICKETS: &[u128] = &[10, 2, 5, 1, 2];

/// Drawn numbers, with the holder's index and the number of 20.
const HOLDERS: &[(u128, usize, u128)] = &[
    (9, 0, 9),
    (10, 1, 10),
    (11, 1, 11),
    (12, 2, 12),
    (15, 2, 15),
    (16, 2, 16),
    (17, 3, 17),
    (18, 4, 18),
    (19, 4, 19),
    (35, 2, 15),
];

fn check_holder(rt: &impl Abort, d: u128, place: usize, number: u128) {
    let total = 20;
    let drawn = Drawn {
        place,
        number,
        total,
    };
    check_same_at(rt, &d, &winner(TICKETS, d), &Some(drawn));
}

const NOTHING: &[u128] = &[0, 0];

#[test]
fn list_lottery(rt: HostRuntime) {
    // The list lottery with 10, 2, 5, 1 and 2 tickets: the holder of each number.
    for (d, place, number) in HOLDERS {
        check_holder(&rt, *d, *place, *number);
    }
    // A number of more than 64 bits: 3 * 2^64 + 15.
    check_holder(&rt, 55340232221128654863, 0, 3);
    check_same(&rt, &winner(NOTHING, 7), &None);
    check_same(&rt, &winner(&[], 7), &None);
}

/// Values, compensations of quantum 100, and the weights with them.
const WEIGHTS: &[(u64, Option<u32>, u128)] = &[
    (400, None, 400),
    (400, Some(20), 2000),
    (7, Some(3), 233),
    (400, Some(99), 404),
    (400, Some(1), 40000),
    // 400 * 100 / 4294967295 is below 1, and a value above 0 weighs at least 1.
    (400, Some(4294967295), 1),
    (0, Some(4294967295), 0),
];

#[test]
fn compensation(rt: HostRuntime) {
    for (value, compensation, weighs) in WEIGHTS {
        check_same_at(&rt, value, &weight(*value, *compensation, 100), weighs);
    }
}
