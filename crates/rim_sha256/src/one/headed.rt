//! The digest of 128 bytes that 128 zeros follow.
ghost use Rattle.std.specs.Prelude.{◌≡◌, ◌++◌, length, replicate};
ghost use Rattle.sha2.specs.Sha256.{sha256};

use crate::constants::{INITIAL, PADDING_SUMS, ZEROS_SUMS};
use crate::one::known_blocks::compress_sums;
use crate::one::schedule::all_sums;
use crate::words::digest;

/// The SHA-256 digest of 128 bytes and as many zeros after them. Two blocks are given, two are zero, and
/// the last is the padding of 256 bytes (FIPS 180-4, 5.1.1).
pub fn sha256_headed(head: &[u8]) -> [u8; 32]
    requires { length head.now ≡ 128 }
    ensures { result ≡ sha256 (head.now ++ replicate 128 0) }
{
    let mut state = INITIAL;
    let (first, second) = head.split_at(64);
    let mut first_sums = [0; 64];
    let mut second_sums = [0; 64];
    all_sums(&mut first_sums, &mut second_sums, first, second);
    compress_sums(&mut state, &first_sums);
    compress_sums(&mut state, &second_sums);
    compress_sums(&mut state, &ZEROS_SUMS);
    compress_sums(&mut state, &ZEROS_SUMS);
    compress_sums(&mut state, &PADDING_SUMS);
    digest(state)
}
