//! The partial sums of a tree. A read needs a call that counts it.
ghost use Rattle.std.specs.Prelude.{◌≡◌, ℕ, ◌+◌, ◌-◌, ◌*◌, ◌^◌, ◌<◌, ◌≤◌, length, min, sum, slice_index, slice_set};
ghost use Rattle.std.specs.Prelude.{IfOk, replicate};
ghost use Rattle.lot_tree.specs.Sums.{AreKept, ArePartialSumsAt};

use lot_kept::Kept;
use std::alloc::{AllocError, Global};
use std::marker::Model;
use std::mem::size_of;

// The bytes of one partial sum.
const SUM_BYTES: u64 = size_of::<u128>() as u64;

/// The partial sums of weights. Only blocks of fewer than 2 ^ height places keep theirs, and the first 2 ^ height
/// places have all the weight. So a tree with many places is only as high as the used ones require. Outside this
/// module, `read` is the only way to a partial sum.
#[derive(Debug, Drop)]
pub(crate) struct PartialSums {
    sums: Kept<u128>,
    height: u32,
}

impl Model for PartialSums {
    ghost use Rattle.lot_tree.specs.Sums.{Kept};

    ghost Value = { Kept };

    ghost view = { λ s. record { sums = s.sums.items; height = s.height } };
}

impl PartialSums {
    /// Partial sums of 0 for `n` places. It fails only if out of memory.
    pub(crate) fn new(alloc: Global, n: usize) -> Result<PartialSums, AllocError>
        ensures { IfOk result (λ made. made ≡ record { sums = replicate n 0; height = min n 1 }) }
    {
        let sums = Kept::filled(alloc, 0, n)?;
        Ok(PartialSums {
            sums,
            height: n.min(1) as u32,
        })
    }

    /// The number of bytes that `new` requests from the allocator.
    pub(crate) fn bytes(n: usize) -> u64
        requires few { n < 2 ^ 40 }
        ensures { result ≡ 16 * n }
    {
        SUM_BYTES * n as u64
    }

    /// The capacity in bytes: always exactly what `new` requested.
    pub(crate) fn held(&self) -> u64
        requires few { length self.now.sums < 2 ^ 40 }
        ensures { result ≡ 16 * length self.now.sums }
    {
        SUM_BYTES * self.sums.room() as u64
    }

    /// The number of places.
    pub(crate) fn len(&self) -> usize
        ensures value { result ≡ length self.now.sums }
        ensures few { result < 2 ^ 63 }
    {
        self.sums.len()
    }

    /// The number of levels of blocks that keep their sums.
    pub(crate) fn height(&self) -> u32
        ensures { result ≡ self.now.height }
    {
        self.height
    }

    /// The partial sum at `place`, which must be below the number of places. It adds one to `visits`, which must be
    /// below the largest `u64`.
    pub(crate) fn read(&self, place: usize, visits: &mut u64) -> u128
        requires within { place < length self.now.sums }
        requires room { visits.old < 2 ^ 64 - 1 }
        ensures value { result ≡ slice_index self.now.sums place }
        ensures counted { visits.new ≡ visits.old + 1 }
    {
        *visits += 1;
        self.sums[place]
    }

    /// Updates the partial sums of `weights`, whose sum is `total`, for the weight `w` at the place `i`.
    pub(crate) fn follow(&mut self, weights: &[u128], i: usize, w: u128, total: u128)
        requires within { i < length weights.now }
        requires limited { sum (slice_set weights.now i w) < 2 ^ 112 }
        requires total { total ≡ sum weights.now }
        requires kept { AreKept weights.now self.old }
        ensures kept { AreKept (slice_set weights.now i w) self.new }
    {
        for level in self.height..binary_digits(i) {
            self.sums[(1usize << level) - 1] = total;
            self.height = level + 1;
        }
        set_partial_sums(&mut self.sums, weights, i, w, self.height);
    }
}

/// The number of binary digits of `n`: 0 for 0, and 10 for 1000.
pub(crate) fn binary_digits(n: usize) -> u32
    ensures enough { n < 2 ^ result }
    ensures needed { 2 ^ result ≤ 2 * n + 1 }
    ensures within { result ≤ 64 }
{
    usize::BITS - n.leading_zeros()
}

/// Updates the partial sums of `weights` at the levels below `height` for the weight `w` at the place `i`.
fn set_partial_sums(sums: &mut [u128], weights: &[u128], i: usize, w: u128, height: u32)
    requires within { i < length weights.now }
    requires same_length { length sums.old ≡ length weights.now }
    requires limited { sum (slice_set weights.now i w) < 2 ^ 112 }
    requires height { height ≤ 64 }
    requires reached { i < 2 ^ height }
    requires partial { (level : ℕ) → level < height → ArePartialSumsAt weights.now sums.old level }
    ensures partial { (level : ℕ) → level < height → ArePartialSumsAt (slice_set weights.now i w) sums.new level }
    ensures others { (place : ℕ) → 2 ^ height ≤ place → slice_index sums.new place ≡ slice_index sums.old place }
{
    let old = weights[i];
    let end = climb_end(weights.len(), height);
    let mut last = i;
    while last < end {
        sums[last] = sums[last] - old + w;
        // The levels up to the lowest binary digit 0 of `last` are done, or have `i` in an odd block, which keeps no
        // partial sum. With a 1 in that digit `last` is the last place of the block of `i` one level further up.
        last |= last + 1;
    }
}

/// The place at which the climb to partial sums ends: the last of the first 2^height places, since the blocks at the
/// height and above keep none, or `n` if that is less.
fn climb_end(n: usize, height: u32) -> usize
    requires { height ≤ 64 }
    ensures { result ≡ min n (2 ^ height - 1) }
{
    if height < usize::BITS {
        n.min((1usize << height) - 1)
    } else {
        n
    }
}
