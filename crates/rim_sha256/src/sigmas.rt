//! The functions of 4.1.2 of FIPS 180-4 that rotate, lane by lane.
ghost use Rattle.std.specs.Prelude.{slice_index};
ghost use Rattle.sha2.specs.Sha256.{big_sigma0, big_sigma1, small_sigma0, small_sigma1};
ghost use Rattle.sha_lanes.specs.inside.Lanes.{IsLanes};

use crate::vectors::{Words, rotated};
use std::simd::Simd;

// The four functions below nest their rotations, which takes fewer copies of `x` than rotating it anew each time.
#[inline(always)]
pub(crate) fn big_sigma0<const N: usize>(x: Words<N>) -> Words<N>
    ensures { IsLanes N result (λ j. big_sigma0 (slice_index x.entry j)) }
{
    rotated(x ^ rotated(x ^ rotated(x, 9), 11), 2)
}

#[inline(always)]
pub(crate) fn big_sigma1<const N: usize>(x: Words<N>) -> Words<N>
    ensures { IsLanes N result (λ j. big_sigma1 (slice_index x.entry j)) }
{
    rotated(x ^ rotated(x ^ rotated(x, 14), 5), 6)
}

#[inline(always)]
pub(crate) fn small_sigma0<const N: usize>(x: Words<N>) -> Words<N>
    ensures { IsLanes N result (λ j. small_sigma0 (slice_index x.entry j)) }
{
    rotated(x ^ rotated(x, 11), 7) ^ (x >> Simd::splat(3))
}

#[inline(always)]
pub(crate) fn small_sigma1<const N: usize>(x: Words<N>) -> Words<N>
    ensures { IsLanes N result (λ j. small_sigma1 (slice_index x.entry j)) }
{
    rotated(x ^ rotated(x, 2), 17) ^ (x >> Simd::splat(10))
}
