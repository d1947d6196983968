//! Vectors of words, lane by lane: what the schedule and the rounds (FIPS 180-4, 6.4.2) make of them, and the
//! functions of 4.1.3.
//! tools/checks/widths.py makes this text from that for SHA-256.
ghost use Rattle.std.specs.Prelude.{◌+◌, ◌<◌, slice_index};
ghost use Rattle.std.specs.Int.{w64, rotate_right};
ghost use Rattle.sha2.specs.Sha512.{add64, big_sigma0, big_sigma1, ch, maj, small_sigma0, small_sigma1};
ghost use Rattle.sha_lanes.specs.inside.Lanes.{IsLanes};

use crate::sigmas::{big_sigma0, big_sigma1, small_sigma0, small_sigma1};
use std::simd::Simd;

/// A word of each of some messages.
pub type Words<const N: usize> = Simd<u64, N>;

/// The next word of the schedule, from the words 2, 7, 15 and 16 before it.
#[inline(always)]
pub(crate) fn next<const N: usize>(
    w2: Words<N>,
    w7: Words<N>,
    w15: Words<N>,
    w16: Words<N>,
) -> Words<N>
    ensures { IsLanes N result (λ j. add64 (add64
        (add64 (small_sigma1 (slice_index w2.entry j)) (slice_index w7.entry j))
        (small_sigma0 (slice_index w15.entry j))) (slice_index w16.entry j)) }
{
    small_sigma1(w2) + w7 + small_sigma0(w15) + w16
}

/// The first of the two temporary words of a round (6.4.2).
#[inline(always)]
pub(crate) fn temp1<const N: usize>(
    e: Words<N>,
    f: Words<N>,
    g: Words<N>,
    h: Words<N>,
    k: u64,
    word: Words<N>,
) -> Words<N>
    ensures { IsLanes N result (λ j. add64 (add64 (add64
        (add64 (slice_index h.entry j) (big_sigma1 (slice_index e.entry j)))
        (ch (slice_index e.entry j) (slice_index f.entry j) (slice_index g.entry j))) k)
        (slice_index word.entry j)) }
{
    h + big_sigma1(e) + ch(e, f, g) + Simd::splat(k) + word
}

/// The second of the two temporary words of a round (6.4.2).
#[inline(always)]
pub(crate) fn temp2<const N: usize>(a: Words<N>, b: Words<N>, c: Words<N>) -> Words<N>
    ensures { IsLanes N result (λ j. add64 (big_sigma0 (slice_index a.entry j))
        (maj (slice_index a.entry j) (slice_index b.entry j) (slice_index c.entry j))) }
{
    big_sigma0(a) + maj(a, b, c)
}

/// The sum of two words, without the carry out of the word (3.2).
#[inline(always)]
pub(crate) fn add<const N: usize>(x: Words<N>, y: Words<N>) -> Words<N>
    ensures { IsLanes N result (λ j. add64 (slice_index x.entry j) (slice_index y.entry j)) }
{
    x + y
}

#[inline(always)]
fn ch<const N: usize>(x: Words<N>, y: Words<N>, z: Words<N>) -> Words<N>
    ensures { IsLanes N result
        (λ j. ch (slice_index x.entry j) (slice_index y.entry j) (slice_index z.entry j)) }
{
    (x & y) ^ (!x & z)
}

// One round's `x ^ y` is the next round's `y ^ z`, so it is computed once.
#[inline(always)]
fn maj<const N: usize>(x: Words<N>, y: Words<N>, z: Words<N>) -> Words<N>
    ensures { IsLanes N result
        (λ j. maj (slice_index x.entry j) (slice_index y.entry j) (slice_index z.entry j)) }
{
    y ^ ((x ^ y) & (y ^ z))
}

/// Each word rotated to the right.
#[inline(always)]
pub(crate) fn rotated<const N: usize>(x: Words<N>, k: u64) -> Words<N>
    requires { (0 < k) × (k < 64) }
    ensures { IsLanes N result (λ j. rotate_right w64 (slice_index x.entry j) k) }
{
    (x >> Simd::splat(k)) | (x << Simd::splat(64 - k))
}
