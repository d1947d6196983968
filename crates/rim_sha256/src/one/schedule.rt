//! The schedules of two blocks (FIPS 180-4, 6.2.2, step 1), two words of each at a time: each word follows from words
//! that are at least two before it.
ghost use Rattle.std.specs.Prelude.{◌≡◌, ℕ, List, ◌+◌, ◌*◌, ◌<◌, ◌≤◌, [], ◌∷◌, length, slice_index, slice_set};
ghost use Rattle.sha2.specs.Sha256.{IsWindow, schedule, window_word, word_at};
ghost use Rattle.sha_lanes.specs.Sums.{AreSums256};
ghost use Rattle.sha_lanes.specs.inside.Pairs.{AreSumsBelow256, IsScheduledTo256, flat};

use crate::constants::ROUND_CONSTANTS;
use crate::vectors::{add, next};
use crate::words::word;
use std::simd::u32x4;

/// Writes each word of the schedules of two blocks with its round's constant.
pub(crate) fn all_sums(s: &mut [u32; 64], u: &mut [u32; 64], a: &[u8], b: &[u8])
    requires first { length a.now ≡ 64 }
    requires second { length b.now ≡ 64 }
    ensures first { AreSums256 s.new a.now }
    ensures second { AreSums256 u.new b.now }
{
    let mut w = load(a, b);
    first_sums(s, u, &w);
    // Sixteen words a turn, so that each pair's place in the ring is a constant.
    'schedule: for turn in 1..4 {
        four_steps(&mut w, s, u, turn, 0);
        four_steps(&mut w, s, u, turn, 4);
    }
}

/// The words of two blocks, which are the first 16 of their schedules. A vector has two words of the first block and then
/// two of the second.
#[inline(always)]
fn load(a: &[u8], b: &[u8]) -> [u32x4; 8]
    requires first { length a.now ≡ 64 }
    requires second { length b.now ≡ 64 }
    ensures first { IsWindow (flat 0 1 result) (schedule a.now 48) 16 }
    ensures second { IsWindow (flat 2 3 result) (schedule b.now 48) 16 }
{
    [
        pairs_at(a, b, 0),
        pairs_at(a, b, 8),
        pairs_at(a, b, 16),
        pairs_at(a, b, 24),
        pairs_at(a, b, 32),
        pairs_at(a, b, 40),
        pairs_at(a, b, 48),
        pairs_at(a, b, 56),
    ]
}

/// The two words of each block that begin at a byte.
#[inline(always)]
fn pairs_at(a: &[u8], b: &[u8], at: usize) -> u32x4
    requires first { at + 8 ≤ length a.now }
    requires second { at + 8 ≤ length b.now }
    ensures { result ≡ word_at a.now at ∷ word_at a.now (at + 4) ∷ word_at b.now at
        ∷ word_at b.now (at + 4) ∷ [] }
{
    u32x4::from_array([word(a, at), word(a, at + 4), word(b, at), word(b, at + 4)])
}

/// The sums of the first 16 words.
#[inline(always)]
fn first_sums(s: &mut [u32; 64], u: &mut [u32; 64], w: &[u32x4; 8])
    ensures first { (b : List ℕ) → IsWindow (flat 0 1 w.now) (schedule b 48) 16
        → AreSumsBelow256 s.new b 16 }
    ensures second { (b : List ℕ) → IsWindow (flat 2 3 w.now) (schedule b 48) 16
        → AreSumsBelow256 u.new b 16 }
{
    'pairs: for i in 0..8 {
        put_sums(s, u, 2 * i, w[i]);
    }
}

/// Four vectors, from the words `16 * turn + 2 * place` on.
#[inline(always)]
fn four_steps(w: &mut [u32x4; 8], s: &mut [u32; 64], u: &mut [u32; 64], turn: usize, place: usize)
    requires low { 1 ≤ turn }
    requires high { turn < 4 }
    requires place { place + 4 ≤ 8 }
    ensures first { (b : List ℕ) → IsScheduledTo256 0 1 b w.old s.old (16 * turn + 2 * place)
        → IsScheduledTo256 0 1 b w.new s.new (16 * turn + 2 * (place + 4)) }
    ensures second { (b : List ℕ) → IsScheduledTo256 2 3 b w.old u.old (16 * turn + 2 * place)
        → IsScheduledTo256 2 3 b w.new u.new (16 * turn + 2 * (place + 4)) }
{
    step(w, s, u, turn, place);
    step(w, s, u, turn, place + 1);
    step(w, s, u, turn, place + 2);
    step(w, s, u, turn, place + 3);
}

/// The words `16 * turn + 2 * place` and the next, of each block.
#[inline(always)]
fn step(w: &mut [u32x4; 8], s: &mut [u32; 64], u: &mut [u32; 64], turn: usize, place: usize)
    requires low { 1 ≤ turn }
    requires high { turn < 4 }
    requires place { place < 8 }
    ensures first { (b : List ℕ) → IsScheduledTo256 0 1 b w.old s.old (16 * turn + 2 * place)
        → IsScheduledTo256 0 1 b w.new s.new (16 * turn + 2 * (place + 1)) }
    ensures second { (b : List ℕ) → IsScheduledTo256 2 3 b w.old u.old (16 * turn + 2 * place)
        → IsScheduledTo256 2 3 b w.new u.new (16 * turn + 2 * (place + 1)) }
{
    let pairs = next_pairs(w, place);
    put_sums(s, u, 16 * turn + 2 * place, pairs);
}

/// The next two words of each schedule. The last 16 words are kept in a ring, and they take the places of the first two.
#[inline(always)]
fn next_pairs(w: &mut [u32x4; 8], place: usize) -> u32x4
    requires { place < 8 }
    ensures first { slice_index result 0 ≡ window_word (flat 0 1 w.old) (2 * place) }
    ensures second { slice_index result 1 ≡ window_word (flat 0 1 w.old) (2 * place + 1) }
    ensures third { slice_index result 2 ≡ window_word (flat 2 3 w.old) (2 * place) }
    ensures fourth { slice_index result 3 ≡ window_word (flat 2 3 w.old) (2 * place + 1) }
    ensures window { w.new ≡ slice_set w.old place result }
{
    let pairs = next(
        w[(place + 7) % 8],
        between(w[(place + 4) % 8], w[(place + 5) % 8]),
        between(w[place], w[(place + 1) % 8]),
        w[place],
    );
    w[place] = pairs;
    pairs
}

/// Of each block the second word of one pair and the first of the next.
#[inline(always)]
fn between(x: u32x4, y: u32x4) -> u32x4
    ensures { result ≡ slice_index x 1 ∷ slice_index y 0 ∷ slice_index x 3 ∷ slice_index y 2 ∷ [] }
{
    let [_, a1, _, b1] = x.to_array();
    let [a2, _, b2, _] = y.to_array();
    u32x4::from_array([a1, a2, b1, b2])
}

/// Writes two words of each block, each with its round's constant.
#[inline(always)]
fn put_sums(s: &mut [u32; 64], u: &mut [u32; 64], t: usize, pairs: u32x4)
    requires { t + 2 ≤ 64 }
    ensures first { (b : List ℕ) → AreSumsBelow256 s.old b t
        → slice_index pairs 0 ≡ slice_index (schedule b 48) t
        → slice_index pairs 1 ≡ slice_index (schedule b 48) (t + 1)
        → AreSumsBelow256 s.new b (t + 2) }
    ensures second { (b : List ℕ) → AreSumsBelow256 u.old b t
        → slice_index pairs 2 ≡ slice_index (schedule b 48) t
        → slice_index pairs 3 ≡ slice_index (schedule b 48) (t + 1)
        → AreSumsBelow256 u.new b (t + 2) }
{
    let k = ROUND_CONSTANTS[t];
    let l = ROUND_CONSTANTS[t + 1];
    let [a1, a2, b1, b2] = add(u32x4::from_array([k, l, k, l]), pairs).to_array();
    s[t] = a1;
    s[t + 1] = a2;
    u[t] = b1;
    u[t + 1] = b2;
}
