//! The functions of 4.1.3 of FIPS 180-4 that rotate, lane by lane.
ghost use Rattle.std.specs.Prelude.{slice_index};
ghost use Rattle.sha2.specs.Sha512.{big_sigma0, big_sigma1, small_sigma0, small_sigma1};
ghost use Rattle.sha_lanes.specs.inside.Lanes.{IsLanes};

use crate::vectors::{Words, rotated};
use std::simd::Simd;

// The next round waits for these two, so their rotations do not wait for each other.
#[inline(always)]
pub(crate) fn big_sigma0<const N: usize>(x: Words<N>) -> Words<N>
    ensures { IsLanes N result (λ j. big_sigma0 (slice_index x.entry j)) }
{
    rotated(x, 28) ^ rotated(x, 34) ^ rotated(x, 39)
}

#[inline(always)]
pub(crate) fn big_sigma1<const N: usize>(x: Words<N>) -> Words<N>
    ensures { IsLanes N result (λ j. big_sigma1 (slice_index x.entry j)) }
{
    rotated(x, 14) ^ rotated(x, 18) ^ rotated(x, 41)
}

#[inline(always)]
pub(crate) fn small_sigma0<const N: usize>(x: Words<N>) -> Words<N>
    ensures { IsLanes N result (λ j. small_sigma0 (slice_index x.entry j)) }
{
    rotated(x, 1) ^ rotated(x, 8) ^ (x >> Simd::splat(7))
}

// Its rotations nest, which takes fewer copies of `x` than rotating it anew each time.
#[inline(always)]
pub(crate) fn small_sigma1<const N: usize>(x: Words<N>) -> Words<N>
    ensures { IsLanes N result (λ j. small_sigma1 (slice_index x.entry j)) }
{
    rotated(x ^ rotated(x, 42), 19) ^ (x >> Simd::splat(6))
}
