//! The words of a block of each message (FIPS 180-4, 5.2.1), which are the first 16 of its schedule.
ghost use Rattle.std.specs.Prelude.{◌≡◌, ℕ, ◌+◌, ◌*◌, ◌<◌, ◌≤◌, length, slice_index_or, take, drop, []};
ghost use Rattle.sha2.specs.Sha256.{IsWindow, schedule, word_at};
ghost use Rattle.sha_lanes.specs.inside.Lanes.{IsLanes, message, window};

use crate::vectors::Words;
use crate::words::{block_word, word};
use sha_lanes::{message, repeated};

/// The words of the blocks that begin at a byte of the messages.
#[inline(always)]
pub(crate) fn load<const N: usize>(messages: &[&[u8]], at: usize) -> [Words<N>; 16]
    requires count { length messages.now ≡ N }
    requires room { (j : ℕ) → j < N → at + 64 ≤ length (message messages.now j) }
    ensures { (j : ℕ) → j < N
        → IsWindow (window j result)
        (schedule (take 64 (drop at (message messages.now j))) 48) 16 }
{
    let mut w = repeated(Words::splat(0));
    'words: for i in 0..16 {
        w[i] = words_of(messages, at, i);
    }
    w
}

/// Word i of each of these blocks.
#[inline(always)]
fn words_of<const N: usize>(messages: &[&[u8]], at: usize, i: usize) -> Words<N>
    requires count { length messages.now ≡ N }
    requires room { (j : ℕ) → j < N → at + 64 ≤ length (message messages.now j) }
    requires word { i < 16 }
    ensures { IsLanes N result
        (λ j. word_at (take 64 (drop at (message messages.now j))) (4 * i)) }
{
    let mut words = [0; N];
    'lanes: for j in 0..N {
        words[j] = block_word(message(messages, j), at, i);
    }
    Words::from_array(words)
}

/// The words of the blocks that begin at a byte of the descriptors.
#[inline(always)]
pub(crate) fn load_descriptors<const N: usize>(
    descriptors: &[[u8; 256]; N],
    at: usize,
) -> [Words<N>; 16]
    requires { at + 64 ≤ 256 }
    ensures { (j : ℕ) → j < N → IsWindow (window j result)
        (schedule (take 64 (drop at (slice_index_or descriptors.now j []))) 48) 16 }
{
    let mut w = repeated(Words::splat(0));
    'words: for i in 0..16 {
        w[i] = words_of_descriptors(descriptors, at, i);
    }
    w
}

/// Word i of each of these blocks.
#[inline(always)]
fn words_of_descriptors<const N: usize>(
    descriptors: &[[u8; 256]; N],
    at: usize,
    i: usize,
) -> Words<N>
    requires room { at + 64 ≤ 256 }
    requires word { i < 16 }
    ensures { IsLanes N result
        (λ j. word_at (take 64 (drop at (slice_index_or descriptors.now j []))) (4 * i)) }
{
    let mut words = [0; N];
    'lanes: for j in 0..N {
        words[j] = block_word(&descriptors[j], at, i);
    }
    Words::from_array(words)
}

/// The words of one block, in each lane.
pub(crate) fn load_same<const N: usize>(block: &[u8; 64]) -> [Words<N>; 16]
    ensures { (j : ℕ) → j < N → IsWindow (window j result) (schedule block.now 48) 16 }
{
    let mut w = repeated(Words::splat(0));
    'words: for i in 0..16 {
        w[i] = Words::splat(word(block, 4 * i));
    }
    w
}
