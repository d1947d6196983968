//! Descriptors, which are two blocks and their padding.
ghost use Rattle.std.specs.Prelude.{◌≡◌, ℕ, ◌<◌, ◌≤◌, ◌++◌, length, take, replicate, slice_index_or, []};
ghost use Rattle.sha2.specs.Sha512.{final_hash, initial_hash_512};
ghost use Rattle.sha_lanes.specs.inside.Lanes.{lane, message};

use crate::constants::{PADDING_SUMS, ZEROS_SUMS};
use crate::lanes::known_blocks::compress_sums;
use crate::lanes::loading::{load, load_descriptors};
use crate::lanes::messages::{BLOCK_SIZE, initial};
use crate::lanes::rounds::compress;
use crate::vectors::Words;

/// The hash value of each descriptor whose last 128 bytes are zero. One block is given, one is zero, and the last is the
/// padding of 256 bytes (FIPS 180-4, 5.1.2).
pub fn headed_hashes<const N: usize>(descriptors: &[[u8; 256]; N]) -> [Words<N>; 8]
    ensures { (j : ℕ) → j < N
        → (slice_index_or descriptors.now j []
        ≡ take 128 (slice_index_or descriptors.now j []) ++ replicate 128 0)
        → lane j result ≡ final_hash initial_hash_512 (slice_index_or descriptors.now j []) }
{
    let mut state = initial();
    compress(&mut state, &load_descriptors(descriptors, 0));
    compress_sums(&mut state, &ZEROS_SUMS);
    compress_sums(&mut state, &PADDING_SUMS);
    state
}

/// The hash value of each message of 256 bytes, which are two blocks and their padding.
pub fn hashes_of_two<const N: usize>(messages: &[&[u8]]) -> [Words<N>; 8]
    requires lanes { N ≤ 64 }
    requires count { length messages.now ≡ N }
    requires size { (j : ℕ) → j < N → length (message messages.now j) ≡ 256 }
    ensures { (j : ℕ) → j < N
        → lane j result ≡ final_hash initial_hash_512 (message messages.now j) }
{
    let mut state = initial();
    compress(&mut state, &load(messages, 0));
    compress(&mut state, &load(messages, BLOCK_SIZE));
    compress_sums(&mut state, &PADDING_SUMS);
    state
}
