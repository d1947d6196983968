//! Descriptors, which are four blocks and their padding.
ghost use Rattle.std.specs.Prelude.{◌≡◌, ℕ, ◌<◌, ◌++◌, take, replicate, slice_index_or, []};
ghost use Rattle.sha2.specs.Sha256.{final_hash, initial_hash_256};
ghost use Rattle.sha_lanes.specs.inside.Lanes.{lane};

use crate::constants::{PADDING_SUMS, ZEROS_SUMS};
use crate::lanes::known_blocks::compress_sums;
use crate::lanes::loading::load_descriptors;
use crate::lanes::messages::{BLOCK_SIZE, initial};
use crate::lanes::rounds::compress;
use crate::vectors::Words;

/// The hash value of each descriptor whose last 128 bytes are zero. Two blocks are given, two are zero, and the last is the
/// padding of 256 bytes (FIPS 180-4, 5.1.1).
pub fn headed_hashes<const N: usize>(descriptors: &[[u8; 256]; N]) -> [Words<N>; 8]
    ensures { (j : ℕ) → j < N
        → (slice_index_or descriptors.now j []
        ≡ take 128 (slice_index_or descriptors.now j []) ++ replicate 128 0)
        → lane j result ≡ final_hash initial_hash_256 (slice_index_or descriptors.now j []) }
{
    let mut state = initial();
    compress(&mut state, &load_descriptors(descriptors, 0));
    compress(&mut state, &load_descriptors(descriptors, BLOCK_SIZE));
    compress_sums(&mut state, &ZEROS_SUMS);
    compress_sums(&mut state, &ZEROS_SUMS);
    compress_sums(&mut state, &PADDING_SUMS);
    state
}
