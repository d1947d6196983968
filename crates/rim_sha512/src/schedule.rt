//! The schedule of a block (FIPS 180-4, 6.4.2, step 1), two words at a time: each follows from words that are at least
//! two before it.
ghost use Rattle.std.specs.Prelude.{◌≡◌, ℕ, List, ◌+◌, ◌*◌, ◌<◌, ◌≤◌, length, slice_index, slice_set};
ghost use Rattle.sha2.specs.Sha512.{IsWindow, schedule, window_word};
ghost use Rattle.sha_lanes.specs.Sums.{AreSums512};
ghost use Rattle.sha_lanes.specs.inside.Pairs.{AreSumsBelow512, IsScheduledTo512, flat};

use crate::constants::ROUND_CONSTANTS;
use crate::pairs::{between, pair_at};
use crate::vectors::{add, next};
use std::simd::u64x2;

/// Writes each word of a block's schedule with its round's constant.
pub(crate) fn all_sums(sums: &mut [u64; 80], block: &[u8])
    requires { length block.now ≡ 128 }
    ensures { AreSums512 sums.new block.now }
{
    let mut w = load(block);
    first_sums(sums, &w);
    // Sixteen words a turn, so that each pair's place in the ring is a constant.
    'schedule: for turn in 1..5 {
        four_steps(&mut w, sums, turn, 0);
        four_steps(&mut w, sums, turn, 4);
    }
}

/// The words of a block, which are the first 16 of its schedule.
#[inline(always)]
fn load(block: &[u8]) -> [u64x2; 8]
    requires { length block.now ≡ 128 }
    ensures { IsWindow (flat 0 1 result) (schedule block.now 64) 16 }
{
    [
        pair_at(block, 0),
        pair_at(block, 16),
        pair_at(block, 32),
        pair_at(block, 48),
        pair_at(block, 64),
        pair_at(block, 80),
        pair_at(block, 96),
        pair_at(block, 112),
    ]
}

/// The sums of the first 16 words.
#[inline(always)]
fn first_sums(sums: &mut [u64; 80], w: &[u64x2; 8])
    ensures { (b : List ℕ) → IsWindow (flat 0 1 w.now) (schedule b 64) 16
        → AreSumsBelow512 sums.new b 16 }
{
    'pairs: for i in 0..8 {
        put_sums(sums, 2 * i, w[i]);
    }
}

/// Four pairs, from the words `16 * turn + 2 * place` on.
#[inline(always)]
fn four_steps(w: &mut [u64x2; 8], sums: &mut [u64; 80], turn: usize, place: usize)
    requires low { 1 ≤ turn }
    requires high { turn < 5 }
    requires place { place + 4 ≤ 8 }
    ensures { (b : List ℕ) → IsScheduledTo512 b w.old sums.old (16 * turn + 2 * place)
        → IsScheduledTo512 b w.new sums.new (16 * turn + 2 * (place + 4)) }
{
    step(w, sums, turn, place);
    step(w, sums, turn, place + 1);
    step(w, sums, turn, place + 2);
    step(w, sums, turn, place + 3);
}

/// The words `16 * turn + 2 * place` and the next.
#[inline(always)]
fn step(w: &mut [u64x2; 8], sums: &mut [u64; 80], turn: usize, place: usize)
    requires low { 1 ≤ turn }
    requires high { turn < 5 }
    requires place { place < 8 }
    ensures { (b : List ℕ) → IsScheduledTo512 b w.old sums.old (16 * turn + 2 * place)
        → IsScheduledTo512 b w.new sums.new (16 * turn + 2 * (place + 1)) }
{
    let pair = next_pair(w, place);
    put_sums(sums, 16 * turn + 2 * place, pair);
}

/// The next two words of the schedule. The last 16 words are kept in a ring, and they take the places of the first two.
#[inline(always)]
fn next_pair(w: &mut [u64x2; 8], place: usize) -> u64x2
    requires { place < 8 }
    ensures first { slice_index result 0 ≡ window_word (flat 0 1 w.old) (2 * place) }
    ensures second { slice_index result 1 ≡ window_word (flat 0 1 w.old) (2 * place + 1) }
    ensures window { w.new ≡ slice_set w.old place result }
{
    let pair = next(
        w[(place + 7) % 8],
        between(w[(place + 4) % 8], w[(place + 5) % 8]),
        between(w[place], w[(place + 1) % 8]),
        w[place],
    );
    w[place] = pair;
    pair
}

/// Writes two words, each with its round's constant.
#[inline(always)]
fn put_sums(sums: &mut [u64; 80], t: usize, pair: u64x2)
    requires { t + 2 ≤ 80 }
    ensures { (b : List ℕ) → AreSumsBelow512 sums.old b t
        → slice_index pair 0 ≡ slice_index (schedule b 64) t
        → slice_index pair 1 ≡ slice_index (schedule b 64) (t + 1)
        → AreSumsBelow512 sums.new b (t + 2) }
{
    let constants = u64x2::from_array([ROUND_CONSTANTS[t], ROUND_CONSTANTS[t + 1]]);
    let [first, second] = add(constants, pair).to_array();
    sums[t] = first;
    sums[t + 1] = second;
}
