//! SHA-256 and SHA-512 of what a Realm Initial Measurement is made of, beside the kit's `sha2` and with its contract.
//! The last of the blocks that are hashed for a descriptor is its padding, which is known beforehand. Where what it says is
//! in its first 128 bytes, as it always is by SHA-256, and of RAM by SHA-512, zeros follow, and their blocks are known too.
//! Messages go side by side: each has a lane of the vectors that the rounds compute with. As many as a vector of the processor
//! has words take little longer than one.
#![tactic(auto)]

ghost use Rattle.std.specs.Prelude.{◌≡◌, ◌%◌, ◌++◌, length, map, take, replicate, true};
ghost use Rattle.std.specs.List.{All};
ghost use Rattle.sha2.specs.Sha256.{sha256};
ghost use Rattle.sha2.specs.Sha512.{sha512};

use rim_sha256::sha256_headed;
use rim_sha512::{sha512_headed, sha512_of_two};
use sha2::{Digest, Sha256};

const ZEROS: [u8; 128] = [0; 128];

/// The SHA-256 digests of four messages of one size in bytes, which is a whole number of blocks of 64, side by side.
pub fn sha256_four(messages: &[&[u8]; 4], size: usize) -> [[u8; 32]; 4]
    requires size { All (λ m. length m.now ≡ size) messages.now }
    requires whole { size % 64 ≡ 0 }
    ensures { result ≡ map (λ m. sha256 m.now) messages.now }
{
    rim_sha256::digests_of(messages, size)
}

/// The SHA-256 digests of eight messages of one size in bytes, which is a whole number of blocks of 64, side by side.
pub fn sha256_eight(messages: &[&[u8]; 8], size: usize) -> [[u8; 32]; 8]
    requires size { All (λ m. length m.now ≡ size) messages.now }
    requires whole { size % 64 ≡ 0 }
    ensures { result ≡ map (λ m. sha256 m.now) messages.now }
{
    rim_sha256::digests_of(messages, size)
}

/// The SHA-256 digest of a descriptor (FIPS 180-4, 6.2). It is quicker where the last 128 bytes are zero, and else
/// that of `sha2`.
pub fn sha256_descriptor(descriptor: &[u8; 256]) -> [u8; 32]
    ensures { result ≡ sha256 descriptor.now }
{
    if has_zero_tail(descriptor) {
        sha256_headed(&descriptor[..128])
    } else {
        Sha256::digest(descriptor)
    }
}

/// The SHA-256 digests of four descriptors, side by side where the last 128 bytes of each are zero.
pub fn sha256_four_descriptors(descriptors: &[[u8; 256]; 4]) -> [[u8; 32]; 4]
    ensures { result ≡ map sha256 descriptors.now }
{
    sha256_descriptors_side_by_side(descriptors)
}

/// The SHA-256 digests of eight descriptors, side by side where the last 128 bytes of each are zero.
pub fn sha256_eight_descriptors(descriptors: &[[u8; 256]; 8]) -> [[u8; 32]; 8]
    ensures { result ≡ map sha256 descriptors.now }
{
    sha256_descriptors_side_by_side(descriptors)
}

/// The SHA-256 digests of descriptors, side by side where the last 128 bytes of each are zero.
#[inline(always)]
fn sha256_descriptors_side_by_side<const N: usize>(descriptors: &[[u8; 256]; N]) -> [[u8; 32]; N]
    ensures { result ≡ map sha256 descriptors.now }
{
    if have_zero_tails(descriptors) {
        rim_sha256::digests(&rim_sha256::headed_hashes(descriptors))
    } else {
        one_by_one(descriptors)
    }
}

/// The SHA-256 digests of descriptors, one after another.
fn one_by_one<const N: usize>(descriptors: &[[u8; 256]; N]) -> [[u8; 32]; N]
    ensures { result ≡ map sha256 descriptors.now }
{
    let mut out = [[0; 32]; N];
    'each: for j in 0..N {
        out[j] = sha256_descriptor(&descriptors[j]);
    }
    out
}

/// Whether the last 128 bytes of each descriptor are zero.
fn have_zero_tails(descriptors: &[[u8; 256]]) -> bool
    ensures { result ≡ true → All (λ d. d ≡ take 128 d ++ replicate 128 0) descriptors.now }
{
    for descriptor in descriptors {
        if !has_zero_tail(descriptor) {
            return false;
        }
    }
    true
}

/// Whether the last 128 bytes of a descriptor are zero.
fn has_zero_tail(descriptor: &[u8; 256]) -> bool
    ensures { result ≡ true → descriptor.now ≡ take 128 descriptor.now ++ replicate 128 0 }
{
    let (_, tail) = descriptor.split_at(128);
    tail == &ZEROS[..]
}

/// The SHA-512 digest of a descriptor (FIPS 180-4, 6.4). It is quickest where the last 128 bytes are zero.
pub fn sha512_descriptor(descriptor: &[u8; 256]) -> [u8; 64]
    ensures { result ≡ sha512 descriptor.now }
{
    let (head, tail) = descriptor.split_at(128);
    if has_zero_tail(descriptor) {
        sha512_headed(head)
    } else {
        sha512_of_two(head, tail)
    }
}

/// The SHA-512 digests of four messages of one size in bytes, which is a whole number of blocks of 128, side by side.
pub fn sha512_four(messages: &[&[u8]; 4], size: usize) -> [[u8; 64]; 4]
    requires size { All (λ m. length m.now ≡ size) messages.now }
    requires whole { size % 128 ≡ 0 }
    ensures { result ≡ map (λ m. sha512 m.now) messages.now }
{
    rim_sha512::digests_of(messages, size)
}

/// The SHA-512 digests of four descriptors, side by side. They are quickest where the last 128 bytes of each are zero.
pub fn sha512_four_descriptors(descriptors: &[[u8; 256]; 4]) -> [[u8; 64]; 4]
    ensures { result ≡ map sha512 descriptors.now }
{
    if have_zero_tails(descriptors) {
        rim_sha512::digests(&rim_sha512::headed_hashes(descriptors))
    } else {
        let [a, b, c, d] = descriptors;
        let messages = [&a[..], &b[..], &c[..], &d[..]];
        rim_sha512::digests(&rim_sha512::hashes_of_two(&messages))
    }
}
