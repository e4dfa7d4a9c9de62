//! A tree of partial sums over weights at places (4.2): a Fenwick tree. It gives their total in constant time, and
//! finds the place for a drawn number: the first whose running sum is greater than the number.
//!
//! Cut the places into blocks of 1, 2, 4, .. places. Of the whole blocks of one size, every second one, from the first
//! on, keeps the sum of its weights, at its last place. These blocks of seven places keep their sums:
//!
//!     place          0     1     2     3     4     5     6
//!     blocks of 1   [0]         [2]         [4]         [6]
//!     blocks of 2   [0     1]               [4     5]
//!     blocks of 4   [0     1     2     3]
//!
//! No two end at one place, so there is at most one partial sum for each weight. A descent halves the range of places
//! at each step, and reads at most one partial sum for each binary digit of their number.
//!
//! Its tests stand in `lot_kernel_tests`.
#![tactic(auto)]

ghost use Rattle.std.specs.Prelude.{◌≡◌, ℕ, ◌*◌, ◌^◌, ◌<◌, List, length, sum, slice_index, slice_set, IfOk, replicate};
ghost use Rattle.std.specs.Prelude.{true};
ghost use Rattle.lot_machine.specs.Lottery.{IsFirstAbove, first_above, running_sums};
ghost use Rattle.lot_tree.specs.Sums.{IsSumTree};
ghost use Rattle.lot_tree.specs.Visits.{CountsReads};

mod partial_sums;

use lot_kept::Kept;
use partial_sums::{PartialSums, binary_digits};
use std::alloc::{AllocError, Global};
use std::marker::Model;
use std::mem::size_of;

// The bytes of one weight.
const WEIGHT_BYTES: u64 = size_of::<u128>() as u64;

/// Weights at the places from 0 on, each with the partial sums that `find` reads.
#[derive(Debug, Drop)]
pub struct SumTree {
    weights: Kept<u128>,
    sums: PartialSums,
    total: u128,
}

// Contracts see the weights.
impl Model for SumTree {
    ghost Value = { List ℕ };

    ghost view = { λ t. t.weights.items };

    ghost invariant = { λ t. IsSumTree t.weights.items t.sums t.total };
}

impl SumTree {
    /// Weights of 0 at the places from 0 to `n - 1`. It fails only if out of memory.
    pub fn new(alloc: Global, n: usize) -> Result<SumTree, AllocError>
        ensures { IfOk result (λ tree. tree ≡ replicate n 0) }
    {
        let weights = Kept::filled(alloc, 0, n)?;
        let sums = PartialSums::new(alloc, n)?;
        Ok(SumTree {
            weights,
            sums,
            total: 0,
        })
    }

    /// The number of bytes that `new` requests from the allocator: 32 for each place.
    pub fn bytes(n: usize) -> u64
        requires few { n < 2 ^ 40 }
        ensures { result ≡ 32 * n }
    {
        WEIGHT_BYTES * n as u64 + PartialSums::bytes(n)
    }

    /// The capacity in bytes: always exactly what `new` requested.
    pub fn held(&self) -> u64
        requires few { length self.now < 2 ^ 40 }
        ensures { result ≡ 32 * length self.now }
    {
        WEIGHT_BYTES * self.weights.room() as u64 + self.sums.held()
    }

    /// The number of places.
    pub fn len(&self) -> usize
        ensures { result ≡ length self.now }
    {
        self.weights.len()
    }

    /// The weight at the place `i`, which must be below the number of places.
    pub fn get(&self, i: usize) -> u128
        requires { i < length self.now }
        ensures { result ≡ slice_index self.now i }
    {
        self.weights[i]
    }

    /// Sets the weight at the place `i`, which must be below the number of places, to `w`. The sum of the weights must
    /// stay below 2 ^ 112.
    pub fn set(&mut self, i: usize, w: u128)
        requires within { i < length self.old }
        requires limited { sum (slice_set self.old i w) < 2 ^ 112 }
        ensures { self.new ≡ slice_set self.old i w }
    {
        let old = self.get(i);
        if w == old {
            return;
        }
        self.sums.follow(&self.weights, i, w, self.total);
        self.weights[i] = w;
        self.total = self.total - old + w;
    }

    /// The sum of the weights, below 2 ^ 112.
    pub fn total(&self) -> u128
        ensures value { result ≡ sum self.now }
        ensures limited { result < 2 ^ 112 }
    {
        self.total
    }

    /// The first place whose running sum, its own weight and all weights before it, is greater than `d`, which must be
    /// below the total. It adds to `visits` the number of partial sums read: at least one, and at most as many as the
    /// number of places has binary digits. The count saturates at the largest `u64`.
    pub fn find(&self, d: u128, visits: &mut u64) -> usize
        requires { d < sum self.now }
        ensures within { result < length self.now }
        ensures first_above { IsFirstAbove self.now d result }
        ensures walk { result ≡ first_above d (running_sums 0 self.now) }
        ensures counted { CountsReads (length self.now) visits.old visits.new }
    {
        // Most totals fit 64 bits, in which the descent takes fewer instructions.
        if self.total <= u64::MAX as u128 {
            self.descend::<true>(d, visits)
        } else {
            self.descend::<false>(d, visits)
        }
    }

    // `find`, in 64-bit numbers if `NARROW`, which the total must fit.
    fn descend<const NARROW: bool>(&self, d: u128, visits: &mut u64) -> usize
        requires drawn { d < sum self.now }
        requires narrow { NARROW ≡ true → sum self.now < 2 ^ 64 }
        ensures within { result < length self.now }
        ensures first_above { IsFirstAbove self.now d result }
        ensures walk { result ≡ first_above d (running_sums 0 self.now) }
        ensures counted { CountsReads (length self.now) visits.old visits.new }
    {
        let n = self.sums.len();
        let height = self.sums.height();
        // With 2 ^ height places the end cuts no block short.
        let is_whole = height < binary_digits(n);
        // The number of the block that holds the place, among the blocks of its level.
        let mut block = 0;
        let mut rest = d;
        let mut reads = 0;
        for level in (0..height).rev() {
            block *= 2;
            // A left half that the end cuts short has all the remaining places.
            if is_whole || block < n >> level {
                let left = fitted::<NARROW>(self.sums.read(((block + 1) << level) - 1, &mut reads));
                rest = fitted::<NARROW>(rest);
                // The processor can't predict the half, so the code has no branch on it.
                let is_past = left <= rest;
                rest -= if is_past { left } else { 0 };
                block += usize::from(is_past);
            }
        }
        *visits = visits.saturating_add(reads);
        block
    }
}

// The number `n`. If `NARROW`, its upper half is 0, and the code needs only the lower one.
fn fitted<const NARROW: bool>(n: u128) -> u128
    requires narrow { NARROW ≡ true → n < 2 ^ 64 }
    ensures { result ≡ n }
{
    if NARROW { n as u64 as u128 } else { n }
}
