//! Vectors of two words, which follow one another in a block's schedule.
ghost use Rattle.std.specs.Prelude.{◌≡◌, ◌+◌, ◌≤◌, [], ◌∷◌, length, slice_index};
ghost use Rattle.sha2.specs.Sha512.{word_at};

use crate::words::word;
use std::simd::u64x2;

/// The two words of a block that begin at a byte.
#[inline(always)]
pub(crate) fn pair_at(block: &[u8], at: usize) -> u64x2
    requires { at + 16 ≤ length block.now }
    ensures { result ≡ word_at block.now at ∷ word_at block.now (at + 8) ∷ [] }
{
    u64x2::from_array([word(block, at), word(block, at + 8)])
}

/// The second word of one pair and the first of the next.
#[inline(always)]
pub(crate) fn between(x: u64x2, y: u64x2) -> u64x2
    ensures { result ≡ slice_index x 1 ∷ slice_index y 0 ∷ [] }
{
    let [_, first] = x.to_array();
    let [second, _] = y.to_array();
    u64x2::from_array([first, second])
}
