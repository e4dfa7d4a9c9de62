//! Weights in a tree of partial sums, and the places that draws find there.
use crate::tests::same::{check_same, check_same_at};
use lot_tree::SumTree;
use std::alloc::Global;
use std::process::Abort;

/// Half of the limit of a total.
const HALF_LIMIT: u128 = 1 << 111;

/// Sets the weight `w` at the place `i`, after the tests that `set` leaves to its caller.
fn put(rt: &impl Abort, tree: &mut SumTree, i: usize, w: u128) {
    assert!(rt; i < tree.len());
    assert!(rt; tree.total() < HALF_LIMIT);
    assert!(rt; w < HALF_LIMIT);
    tree.set(i, w);
}

/// A tree of this many places.
fn new_tree(rt: &impl Abort, alloc: Global, places: usize) -> SumTree {
    SumTree::new(alloc, places).expect(rt, "memory")
}

/// A tree of these weights.
fn tree_of(rt: &impl Abort, alloc: Global, weights: &[u128]) -> SumTree {
    let mut tree = new_tree(rt, alloc, weights.len());
    for (i, w) in weights.iter().enumerate() {
        put(rt, &mut tree, i, *w);
    }
    tree
}

/// The place that `d` draws, and the number of partial sums that this reads.
fn draw(rt: &impl Abort, tree: &SumTree, d: u128) -> (usize, u64) {
    assert!(rt; d < tree.total());
    let mut visits = 0;
    let place = tree.find(d, &mut visits);
    (place, visits)
}

/// The place at which the running sum of a walk over the weights passes `d`.
fn walk(weights: &[u128], d: u128) -> usize {
    let mut sum: u128 = 0;
    for (i, w) in weights.iter().enumerate() {
        sum = sum.wrapping_add(*w);
        if sum > d {
            return i;
        }
    }
    weights.len()
}

/// The next number of a fixed pseudo-random series.
fn next_number(state: &mut u64) -> u64 {
    *state = state
        .wrapping_mul(6364136223846793005)
        .wrapping_add(1442695040888963407);
    *state >> 33
}

/// Draws, and checks the place.
fn check_place(rt: &impl Abort, tree: &SumTree, d: u128, place: usize) {
    let (found, _) = draw(rt, tree, d);
    check_same_at(rt, &d, &found, &place);
}

/// Draws, and checks the place, and that at least one partial sum is read and this many at most.
fn check_reads(rt: &impl Abort, tree: &SumTree, d: u128, place: usize, most: u64) {
    let (found, visits) = draw(rt, tree, d);
    check_same_at(rt, &d, &found, &place);
    assert!(rt; visits >= 1 && visits <= most, "{visits} reads at {d}");
}

/// Compares the number of places, and the total.
fn check_size(rt: &impl Abort, tree: &SumTree, places: usize, total: u128) {
    check_same(rt, &tree.len(), &places);
    check_same(rt, &tree.total(), &total);
}

const WEIGHTS: &[u128] = &[10, 2, 5, 1, 2];

/// Drawn numbers, and the places.
const BY_SUMS: &[(u128, usize)] = &[
    (0, 0),
    (9, 0),
    (10, 1),
    (11, 1),
    (12, 2),
    (16, 2),
    (17, 3),
    (18, 4),
    (19, 4),
];

fn check_by_sums(rt: &impl Abort, tree: &SumTree) {
    for (d, place) in BY_SUMS {
        check_reads(rt, tree, *d, *place, 3);
    }
}

#[test]
fn draws_by_running_sums(rt: HostRuntime) {
    let tree = tree_of(&rt, rt.alloc(), WEIGHTS);
    check_size(&rt, &tree, 5, 20);
    check_by_sums(&rt, &tree);
}

/// Sets other weights at two places.
fn put_others(rt: &impl Abort, tree: &mut SumTree) {
    put(rt, tree, 1, 0);
    put(rt, tree, 4, 7);
    check_same(rt, &tree.total(), &23);
}

fn check_weight(rt: &impl Abort, tree: &SumTree, i: usize, w: u128) {
    assert!(rt; i < tree.len());
    check_same_at(rt, &i, &tree.get(i), &w);
}

fn check_weights(rt: &impl Abort, tree: &SumTree, weights: &[u128]) {
    for (i, w) in weights.iter().enumerate() {
        check_weight(rt, tree, i, *w);
    }
}

const OTHERS: &[u128] = &[10, 0, 5, 1, 7];

/// Drawn numbers among the other weights, and the places.
const BY_OTHERS: &[(u128, usize)] = &[(9, 0), (10, 2), (14, 2), (15, 3), (16, 4), (22, 4)];

fn check_places(rt: &impl Abort, tree: &SumTree, places: &[(u128, usize)]) {
    for (d, place) in places {
        check_place(rt, tree, *d, *place);
    }
}

#[test]
fn puts_one_weight_for_another(rt: HostRuntime) {
    let mut tree = tree_of(&rt, rt.alloc(), WEIGHTS);
    put_others(&rt, &mut tree);
    check_weights(&rt, &tree, OTHERS);
    check_places(&rt, &tree, BY_OTHERS);
}

const ONE: &[u128] = &[3];

fn check_one(rt: &impl Abort, alloc: Global) {
    let one = tree_of(rt, alloc, ONE);
    check_same(rt, &draw(rt, &one, 0), &(0, 1));
    check_same(rt, &draw(rt, &one, 2), &(0, 1));
}

#[test]
fn holds_no_place_and_one(rt: HostRuntime) {
    let none = new_tree(&rt, rt.alloc(), 0);
    check_size(&rt, &none, 0, 0);
    check_one(&rt, rt.alloc())
}

const TOO_MANY: &[usize] = &[usize::MAX, 1 << 60, 1 << 59];

#[test]
fn refuses_more_places_than_memory_has(rt: HostRuntime) {
    for n in TOO_MANY {
        assert!(rt; SumTree::new(rt.alloc(), *n).is_err(), "{n} places");
    }
}

const LARGE: u128 = 1 << 66;

const LARGE_WEIGHTS: &[u128] = &[LARGE, 1, LARGE - 2];

/// Drawn numbers among the large weights, and the places.
const BY_LARGE: &[(u128, usize)] = &[
    (LARGE - 1, 0),
    (LARGE, 1),
    (LARGE + 1, 2),
    (2 * LARGE - 2, 2),
];

#[test]
fn holds_weights_past_64_bits(rt: HostRuntime) {
    let tree = tree_of(&rt, rt.alloc(), LARGE_WEIGHTS);
    check_places(&rt, &tree, BY_LARGE);
}

#[test]
fn reads_a_sum_for_each_digit_at_most(rt: HostRuntime) {
    let mut tree = new_tree(&rt, rt.alloc(), 1000);
    for i in 0..1000 {
        put(&rt, &mut tree, i, 1);
    }
    for i in 0..1000 {
        check_reads(&rt, &tree, i as u128, i, 10);
    }
}

/// Draws after this many reads, and checks that the count of reads is the largest number.
fn check_greatest(rt: &impl Abort, tree: &SumTree, reads: u64) {
    assert!(rt; tree.total() > 9);
    let mut visits = reads;
    tree.find(9, &mut visits);
    check_same(rt, &visits, &u64::MAX);
}

#[test]
fn counts_on_to_the_greatest_number(rt: HostRuntime) {
    let tree = tree_of(&rt, rt.alloc(), WEIGHTS);
    // One more read reaches the largest number, and a read after it doesn't pass it.
    check_greatest(&rt, &tree, u64::MAX - 1);
    check_greatest(&rt, &tree, u64::MAX);
}

/// Sets a weight in both, and draws.
fn check_walk(rt: &impl Abort, tree: &mut SumTree, weights: &mut [u128], state: &mut u64) {
    assert!(rt; weights.len() > 0);
    let i = next_number(state) as usize % weights.len();
    let w = u128::from(next_number(state) % 20);
    weights[i] = w;
    put(rt, tree, i, w);
    if tree.total() > 0 {
        let d = u128::from(next_number(state)) % tree.total();
        check_place(rt, tree, d, walk(weights, d));
    }
}

/// Three hundred such draws.
fn walk_often(rt: &impl Abort, tree: &mut SumTree, weights: &mut [u128], state: &mut u64) {
    for _ in 0..300 {
        check_walk(rt, tree, weights, state);
    }
}

/// Such draws of a tree of this many places.
fn check_walks(rt: &impl Abort, alloc: Global, n: usize, state: &mut u64) {
    let mut weights = vec![in alloc; 0; n].expect(rt, "memory");
    let mut tree = new_tree(rt, alloc, n);
    walk_often(rt, &mut tree, &mut weights, state);
}

const SIZES: &[usize] = &[1, 2, 3, 4, 5, 7, 8, 9, 15, 16, 17, 31, 33, 64, 100];

#[test]
fn draws_as_a_walk_does(rt: HostRuntime) {
    let mut state = 1;
    for n in SIZES {
        check_walks(&rt, rt.alloc(), *n, &mut state);
    }
}
