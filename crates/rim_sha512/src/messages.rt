//! The digests of messages of 256 bytes, which are two blocks. A third is their padding (FIPS 180-4, 5.1.2).
ghost use Rattle.std.specs.Prelude.{◌≡◌, ◌++◌, length, replicate};
ghost use Rattle.sha2.specs.Sha512.{sha512};

use crate::constants::{INITIAL, PADDING_SUMS, ZEROS_SUMS};
use crate::rounds::compress_sums;
use crate::schedule::all_sums;
use crate::words::digest;

/// The SHA-512 digest of 128 bytes and as many zeros after them.
pub fn sha512_headed(head: &[u8]) -> [u8; 64]
    requires { length head.now ≡ 128 }
    ensures { result ≡ sha512 (head.now ++ replicate 128 0) }
{
    let mut state = INITIAL;
    let mut sums = [0; 80];
    all_sums(&mut sums, head);
    compress_sums(&mut state, &sums);
    compress_sums(&mut state, &ZEROS_SUMS);
    compress_sums(&mut state, &PADDING_SUMS);
    digest(state)
}

/// The SHA-512 digest of two blocks.
pub fn sha512_of_two(head: &[u8], tail: &[u8]) -> [u8; 64]
    requires head { length head.now ≡ 128 }
    requires tail { length tail.now ≡ 128 }
    ensures { result ≡ sha512 (head.now ++ tail.now) }
{
    let mut state = INITIAL;
    let mut sums = [0; 80];
    all_sums(&mut sums, head);
    compress_sums(&mut state, &sums);
    all_sums(&mut sums, tail);
    compress_sums(&mut state, &sums);
    compress_sums(&mut state, &PADDING_SUMS);
    digest(state)
}
